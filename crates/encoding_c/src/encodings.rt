//! Encodings: labels, byte order marks, names, properties, and prefixes of a kind.

ghost use Rattle.std.specs.Prelude.{◌≡◌, ◌↔◌, ◌≤◌, ◌<◌, IsTrue, None, IfSome, IsNone, false};
ghost use Rattle.std.specs.Prelude.{length, take, drop, option_map};
ghost use Rattle.enc_utf8.specs.Validity.{IsLongestPrefix, IsWellFormedUtf8, AreAscii, AreIso2022JpAscii};
ghost use Rattle.enc_stream.specs.Bom.{bom_of};
ghost use Rattle.enc_stream.specs.Labels.{encoding_of_label, encoding_of_label_no_replacement};
ghost use Rattle.enc_stream.specs.Names.{name_of};
ghost use Rattle.enc_stream.specs.Numbers.{encoding_of_number};
ghost use Rattle.enc_stream.specs.Properties.{output_encoding_of};
ghost use Rattle.enc_stream.specs.Properties.{is_ascii_compatible, is_single_byte};
ghost use Rattle.enc_handles.specs.Outcomes.{mark_by};

use enc_handles::{NO_ENCODING, number_or_none};
use enc_stream::Encoding;
use enc_stream::constants::UTF_8;

/// A byte order mark: the number of its encoding, and its length in bytes.
///
/// If there is none they are 255 and 0.
#[repr(C)]
#[derive(Drop)]
pub struct Mark {
    pub encoding: u32,
    pub len: usize,
}

/// Returns the number of the encoding of a label (Encoding Standard 4.2, "get an encoding").
///
/// 255 if it names none. White space around the label does not matter, nor does case.
#[unsafe(no_mangle)]
pub extern "C" fn encoding_c_for_label(label: &[u8]) -> u32
    ensures encoding { encoding_of_number result ≡ encoding_of_label label.now }
    ensures none { encoding_of_label label.now ≡ None → result ≡ 255 }
{
    number_or_none(Encoding::for_label(label))
}

/// Returns the number of the encoding that a label names, or 255 if it names replacement or none.
#[unsafe(no_mangle)]
pub extern "C" fn encoding_c_for_label_no_replacement(label: &[u8]) -> u32
    ensures encoding { encoding_of_number result ≡ encoding_of_label_no_replacement label.now }
    ensures none { encoding_of_label_no_replacement label.now ≡ None → result ≡ 255 }
{
    number_or_none(Encoding::for_label_no_replacement(label))
}

/// Returns the byte order mark at the start of `buffer` (Encoding Standard 6, "BOM sniff").
#[unsafe(no_mangle)]
pub extern "C" fn encoding_c_for_bom(buffer: &[u8]) -> Mark
    ensures mark { mark_by result.encoding result.len ≡ bom_of buffer.now }
    ensures within { result.len ≤ length buffer.now }
    ensures none { bom_of buffer.now ≡ None → (result.encoding ≡ 255) × (result.len ≡ 0) }
{
    match Encoding::for_bom(buffer) {
        Some((encoding, len)) => Mark {
            encoding: encoding.number(),
            len,
        },
        None => Mark {
            encoding: NO_ENCODING,
            len: 0,
        },
    }
}

/// Writes the name of an encoding, and returns its length in bytes (Encoding Standard 4.2).
///
/// Writes nothing and returns 0 if there is no such encoding, or its name does not fit. The longest
/// has 14 bytes.
#[unsafe(no_mangle)]
pub extern "C" fn encoding_c_name(encoding: u32, out: &mut [u8]) -> usize
    ensures name { IfSome (encoding_of_number encoding) (λ e.
        length (name_of e) ≤ length out.old → take result out.new ≡ name_of e) }
    ensures len { IfSome (encoding_of_number encoding) (λ e.
        length (name_of e) ≤ length out.old → result ≡ length (name_of e)) }
    ensures short { IfSome (encoding_of_number encoding) (λ e.
        length out.old < length (name_of e) → result ≡ 0) }
    ensures none { IsNone (encoding_of_number encoding) → result ≡ 0 }
    ensures rest { drop result out.new ≡ drop result out.old }
{
    let Some(encoding) = Encoding::from_number(encoding) else {
        return 0;
    };
    let name = encoding.name().as_bytes();
    if out.len() < name.len() {
        return 0;
    }
    out[..name.len()].copy_from_slice(name);
    name.len()
}

/// Returns the number of the output encoding (Encoding Standard 4.3, "get an output encoding").
///
/// 255 if there is no such encoding.
#[unsafe(no_mangle)]
pub extern "C" fn encoding_c_output_encoding(encoding: u32) -> u32
    ensures output { encoding_of_number result
        ≡ option_map output_encoding_of (encoding_of_number encoding) }
    ensures none { IsNone (encoding_of_number encoding) → result ≡ 255 }
{
    match Encoding::from_number(encoding) {
        Some(found) => found.output_encoding().number(),
        None => NO_ENCODING,
    }
}

/// Returns whether its output encoding is UTF-8, which has every character.
///
/// False if there is no such encoding.
#[unsafe(no_mangle)]
pub extern "C" fn encoding_c_can_encode_everything(encoding: u32) -> bool
    ensures everything { IfSome (encoding_of_number encoding) (λ e.
        IsTrue result ↔ (output_encoding_of e ≡ UTF_8)) }
    ensures none { IsNone (encoding_of_number encoding) → result ≡ false }
{
    match Encoding::from_number(encoding) {
        Some(found) => found.can_encode_everything(),
        None => false,
    }
}

/// Returns whether bytes below 0x80 are the ASCII characters with their numbers.
///
/// False if there is no such encoding.
#[unsafe(no_mangle)]
pub extern "C" fn encoding_c_is_ascii_compatible(encoding: u32) -> bool
    ensures same { IfSome (encoding_of_number encoding) (λ e. result ≡ is_ascii_compatible e) }
    ensures none { IsNone (encoding_of_number encoding) → result ≡ false }
{
    match Encoding::from_number(encoding) {
        Some(found) => found.is_ascii_compatible(),
        None => false,
    }
}

/// Returns whether each of its bytes is a character by itself.
///
/// False if there is no such encoding.
#[unsafe(no_mangle)]
pub extern "C" fn encoding_c_is_single_byte(encoding: u32) -> bool
    ensures same { IfSome (encoding_of_number encoding) (λ e. result ≡ is_single_byte e) }
    ensures none { IsNone (encoding_of_number encoding) → result ≡ false }
{
    match Encoding::from_number(encoding) {
        Some(found) => found.is_single_byte(),
        None => false,
    }
}

/// Returns the length in bytes of the longest prefix that is well-formed UTF-8.
#[unsafe(no_mangle)]
pub extern "C" fn encoding_c_utf8_valid_up_to(bytes: &[u8]) -> usize
    ensures { IsLongestPrefix IsWellFormedUtf8 bytes.now result }
{
    Encoding::utf8_valid_up_to(bytes)
}

/// Returns the length in bytes of the longest prefix that is ASCII: bytes below 0x80.
#[unsafe(no_mangle)]
pub extern "C" fn encoding_c_ascii_valid_up_to(bytes: &[u8]) -> usize
    ensures { IsLongestPrefix AreAscii bytes.now result }
{
    Encoding::ascii_valid_up_to(bytes)
}

/// Returns the length in bytes of the longest prefix that stands for itself in ISO-2022-JP.
///
/// At the start of ISO-2022-JP these are the bytes below 0x80, except 0x0E, 0x0F and 0x1B.
#[unsafe(no_mangle)]
pub extern "C" fn encoding_c_iso_2022_jp_ascii_valid_up_to(bytes: &[u8]) -> usize
    ensures { IsLongestPrefix AreIso2022JpAscii bytes.now result }
{
    Encoding::iso_2022_jp_ascii_valid_up_to(bytes)
}
