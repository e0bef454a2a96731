//! Lines in bytes of text.

ghost use Rattle.std.specs.Prelude.{◌≡◌, ◌≢◌, ◌+◌, ◌-◌, ◌<◌, ◌≤◌, ◌++◌, length, take, slice_index, All};
ghost use Rattle.std.specs.Prelude.{OnOk, OnErr, IsErrOf, string_bytes, string_len};
ghost use Rattle.std.specs.Str.{IsUtf8};
ghost use Rattle.enc_reader.specs.declared.decode_reader.ReadFault.{ReadFault};

use crate::line_fault::LineFault;

/// Returns the length of the first line with its line feed, or of all bytes if they have none.
pub(crate) fn line_len(bytes: &[u8]) -> usize
    ensures within { result ≤ length bytes.now }
    ensures some { 0 < length bytes.now → 0 < result }
    ensures before { All (λ b. b ≢ 10) (take (result - 1) bytes.now) }
    ensures ends { result < length bytes.now → slice_index bytes.now (result - 1) ≡ 10 }
{
    let mut at = 0;
    while at < bytes.len() {
        if bytes[at] == b'\n' {
            return at + 1;
        }
        at += 1;
    }
    at
}

/// Appends bytes that are whole characters in UTF-8 to `line`, which stays after an `Err`.
pub(crate) fn append(line: &mut String, bytes: &[u8]) -> Result<(), LineFault>
    ensures ok { OnOk result (string_bytes line.new ≡ string_bytes line.old ++ bytes.now) }
    ensures len { OnOk result (string_len line.new ≡ string_len line.old + length bytes.now) }
    ensures err { OnErr result (string_bytes line.new ≡ string_bytes line.old) }
    ensures same_len { OnErr result (string_len line.new ≡ string_len line.old) }
    ensures utf_8 { OnOk result (IsUtf8 bytes.now) }
    ensures no_read { (fault : ReadFault) → IsErrOf result (LineFault.Read fault) → ⊥ }
    ensures cut { IsErrOf result LineFault.MidCharacter → IsUtf8 bytes.now → ⊥ }
    ensures memory { IsErrOf result LineFault.Memory → IsUtf8 bytes.now }
{
    let Ok(text) = str::from_utf8(bytes) else {
        return Err(LineFault::MidCharacter);
    };
    match line.push_str(text) {
        Ok(()) => Ok(()),
        Err(_) => Err(LineFault::Memory),
    }
}
