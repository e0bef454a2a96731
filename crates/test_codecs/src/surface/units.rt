//! Outputs of code units, inputs of characters, and valid prefixes: the items of `enc_output`,
//! `enc_input` and `enc_utf8`.

use enc_input::{Chars, Utf8Chars, Utf16Chars};
use enc_output::{StringTail, Units, Utf8Slice, Utf16Slice};
use std::process::Abort;
use std::test::Fail;

/// The code units of U+FFFD, "é" and "💩" in an output, and what is left of 8 after "é" and "ab".
type Widths = (usize, usize, usize, usize);

/// Each item of the trait `Units`, on an output with room for 8 code units.
fn write_two_texts<U: Units>(rt: &impl Abort, out: &mut U, want: Widths) {
    let fault: usize = U::FAULT;
    let (narrow, wide): (usize, usize) = (U::width('é'), U::width('💩'));
    let is_written: bool = out.put('é');
    let ascii: usize = out.put_ascii(b"ab\x80c");
    let room: usize = out.room();
    assert!(rt; (fault, narrow, wide, room) == want);
    assert!(rt; (is_written, ascii) == (true, 2));
}

#[test]
fn outputs_take_characters_and_ascii(rt: HostRuntime) -> Result<(), Fail> {
    let mut bytes: [u8; 8] = [0; 8];
    let mut out = Utf8Slice::new(&mut bytes);
    write_two_texts(&rt, &mut out, (3, 2, 4, 4));
    assert!(rt; out.len() == 4);
    assert!(rt; &bytes == b"\xC3\xA9ab\0\0\0\0");
    let mut units: [u16; 8] = [0; 8];
    let mut out = Utf16Slice::new(&mut units);
    write_two_texts(&rt, &mut out, (1, 1, 2, 5));
    assert!(rt; out.len() == 3);
    assert!(rt; units == [0xE9, 0x61, 0x62, 0, 0, 0, 0, 0]);
    let mut text = String::with_capacity(rt.alloc(), 8)?;
    write_two_texts(&rt, &mut StringTail::new(&mut text), (3, 2, 4, 4));
    assert!(rt; text.as_str() == "éab");
    let faults: (usize, usize, usize) = enc_output::laws::faults_are_widths();
    assert!(rt; faults == (3, 1, 3));
    Ok(())
}

/// Each item of the trait `Chars`: the characters of an input, each with its code units.
fn read_all<C: Chars>(rt: &impl Abort, input: &mut C, want: &[(char, usize)]) {
    for (character, units) in want {
        let unread: usize = input.unread();
        let next: Option<(char, usize)> = input.peek();
        assert!(rt; next == Some((*character, *units)));
        input.advance();
        assert!(rt; input.unread().checked_add(*units) == Some(unread));
    }
    assert!(rt; (input.peek(), input.unread()) == (None, 0));
}

#[test]
fn inputs_give_characters_with_their_code_units(rt: HostRuntime) {
    let mut chars = Utf8Chars::new("é💩");
    read_all(&rt, &mut chars, &[('é', 2), ('💩', 4)]);
    // a surrogate without its partner is U+FFFD
    let mut chars = Utf16Chars::new(&[0xE9, 0xD83D, 0xDCA9, 0xDCA9]);
    read_all(&rt, &mut chars, &[('é', 1), ('💩', 2), ('\u{FFFD}', 1)]);
}

#[test]
fn prefixes_are_valid_up_to_a_byte(rt: HostRuntime) {
    let utf_8: usize = enc_utf8::utf8_valid_up_to(b"a\xC3\xA9\xED\xA0\x80");
    let ascii: usize = enc_utf8::ascii_valid_up_to(b"a\x1B\x80");
    let iso_2022_jp: usize = enc_utf8::iso_2022_jp_ascii_valid_up_to(b"a\x1B\x80");
    assert!(rt; (utf_8, ascii, iso_2022_jp) == (3, 2, 1));
}
