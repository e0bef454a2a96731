//! `Encoding`: look-ups, properties, valid prefixes, and what it makes.

use crate::surface::derives::{are_equal, copies, debug_text, hash_of};
use encoding_rs::{
    Decoder, Encoder, Encoding, SHIFT_JIS, UTF_8, UTF_16BE, WINDOWS_1252, X_USER_DEFINED, laws,
};
use std::hash::{DefaultHasher, Hasher};
use std::test::Fail;

#[test]
fn an_encoding_is_copied_compared_hashed_and_printed(rt: HostRuntime) -> Result<(), Fail> {
    let (first, second) = copies(UTF_8)?;
    assert!(rt; are_equal(&first, &second) && hash_of(&first) == hash_of(&second));
    assert!(rt; !are_equal(&UTF_8, &SHIFT_JIS) && hash_of(&UTF_8) != hash_of(&SHIFT_JIS));
    assert!(rt; debug_text(rt.alloc(), &SHIFT_JIS)?.as_str() == "Encoding { Shift_JIS }");
    assert!(rt; debug_text(rt.alloc(), &UTF_16BE)?.as_str() == "Encoding { UTF-16BE }");
    Ok(())
}

#[test]
fn equal_encodings_are_the_same_and_hash_alike(rt: HostRuntime) {
    let is_same: bool = laws::equal_are_the_same(UTF_8, UTF_8);
    assert!(rt; is_same && !laws::equal_are_the_same(UTF_8, SHIFT_JIS));
    let (mut first, mut second) = (DefaultHasher::new(), DefaultHasher::new());
    laws::equal_hash_alike(UTF_8, UTF_8, &mut first, &mut second);
    assert!(rt; first.finish() == second.finish());
    laws::equal_hash_alike(SHIFT_JIS, SHIFT_JIS, &mut first, &mut second);
    assert!(rt; first.finish() == second.finish());
}

/// The laws of constants, ASCII, slices and parts of inputs, which are calls that do nothing.
#[test]
fn laws_are_called_for_what_they_state() {
    laws::constants_have_their_names();
    laws::ascii_compatible_encode_ascii(SHIFT_JIS);
    laws::slices_are_bytes(b"a");
    laws::line_feeds_divide(SHIFT_JIS);
    laws::recoded_parts_are_the_whole(SHIFT_JIS, UTF_8);
    laws::iso_2022_jp_parts_are_not_the_whole();
}

#[test]
fn an_encoding_is_found_by_label_or_byte_order_mark(rt: HostRuntime) {
    let found: Option<Encoding> = Encoding::for_label(b" \tSJIS\r\n");
    assert!(rt; found == Some(SHIFT_JIS));
    let found: Option<Encoding> = Encoding::for_label_no_replacement(b"latin1");
    assert!(rt; found == Some(WINDOWS_1252));
    let found: Option<(Encoding, usize)> = Encoding::for_bom(b"\xEF\xBB\xBFa");
    assert!(rt; found == Some((UTF_8, 3)));
}

/// The first, the last and one of the others in the standard's table of names and labels.
#[test]
fn an_encoding_is_found_by_its_number(rt: HostRuntime) -> Result<(), Fail> {
    for (number, encoding) in [(0, UTF_8), (34, SHIFT_JIS), (39, X_USER_DEFINED)] {
        let found: Option<Encoding> = Encoding::from_number(number);
        assert!(rt; found == Some(encoding));
        let place: u32 = encoding.number();
        assert!(rt; place == number);
    }
    for number in 0..40 {
        let encoding = Encoding::from_number(number).ok_or("no encoding")?;
        assert!(rt; encoding.number() == number);
    }
    assert!(rt; Encoding::from_number(40) == None && Encoding::from_number(u32::MAX) == None);
    Ok(())
}

#[test]
fn an_encoding_has_its_properties(rt: HostRuntime) {
    let name: &'static str = SHIFT_JIS.name();
    let output: Encoding = SHIFT_JIS.output_encoding();
    assert!(rt; (name, output) == ("Shift_JIS", SHIFT_JIS));
    let properties: [bool; 4] = [
        SHIFT_JIS.can_encode_everything(),
        SHIFT_JIS.is_ascii_compatible(),
        SHIFT_JIS.line_feeds_divide(),
        SHIFT_JIS.is_single_byte(),
    ];
    assert!(rt; properties == [false, true, true, false]);
}

#[test]
fn prefixes_are_valid_up_to_a_byte(rt: HostRuntime) {
    let utf_8: usize = Encoding::utf8_valid_up_to(b"a\xC3\xA9\xED\xA0\x80");
    let ascii: usize = Encoding::ascii_valid_up_to(b"a\x1B\x80");
    let iso_2022_jp: usize = Encoding::iso_2022_jp_ascii_valid_up_to(b"a\x1B\x80");
    assert!(rt; (utf_8, ascii, iso_2022_jp) == (3, 2, 1));
}

#[test]
fn an_encoding_makes_decoders_and_encoders(rt: HostRuntime) {
    let sniffing: Decoder = UTF_16BE.new_decoder();
    let removing: Decoder = UTF_16BE.new_decoder_with_bom_removal();
    let plain: Decoder = UTF_16BE.new_decoder_without_bom_handling();
    for decoder in [sniffing, removing, plain] {
        assert!(rt; decoder.encoding() == UTF_16BE);
    }
    let encoder: Encoder = UTF_16BE.new_encoder();
    assert!(rt; encoder.encoding() == UTF_8);
    let is_allowed: bool = Encoding::barred_ok(&['é', '\u{80}']);
    assert!(rt; is_allowed && Encoding::barred_ok(&[]) && !Encoding::barred_ok(&['a']));
    let encoder: Encoder = SHIFT_JIS.new_encoder_barring(&['ハ']);
    assert!(rt; encoder.encoding() == SHIFT_JIS);
}
