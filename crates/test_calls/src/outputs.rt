//! Runs of calls into several outputs, long runs of all codecs, and a `String` without room.
//! Expected values are by hand from the Encoding Standard. conformance/rooms.txt has the rows of
//! single calls.

use encoding_rs::run::{BomHandling, DecodeCall, decode_run};
use encoding_rs::*;
use std::alloc::Global;
use std::process::Abort;
use std::test::Fail;

#[test]
fn a_string_without_room_takes_no_memory(rt: HostRuntime) -> Result<(), Fail> {
    let mut string = String::new(rt.alloc());
    let mut decoder = UTF_8.new_decoder_without_bom_handling();
    assert!(rt; !decoder.is_finished());
    let outcome = decoder.decode_to_string(b"a", &mut string, false);
    assert!(rt; outcome == (CoderResult::OutputFull, 0, false));
    assert!(rt; !decoder.is_finished());
    let outcome = decoder.decode_to_string_without_replacement(b"a", &mut string, false);
    assert!(rt; outcome == (DecoderResult::OutputFull, 0));
    assert!(rt; (string.as_str(), string.capacity()) == ("", 0));
    Ok(())
}

/// Returns a call with this chunk length and this room.
fn call(utf16: bool, replace: bool, (offer, room): (usize, usize)) -> DecodeCall {
    DecodeCall {
        utf16,
        replace,
        offer,
        room,
    }
}

#[test]
fn a_run_may_change_its_units(rt: HostRuntime) -> Result<(), Fail> {
    let calls = [
        call(false, false, (2, 4)),
        call(true, false, (2, 2)),
        call(false, false, (1, 4)),
    ];
    let bytes = b"\xE2\x82\xAC\xFF";
    let report = decode_run(rt.alloc(), UTF_8, BomHandling::Off, bytes, &calls)?;
    assert!(rt; report.text.as_str() == "€\u{FFFD}");
    assert!(rt; (report.read, report.calls) == (4, 3));
    assert!(rt; report.faults.as_slice() == [(3, 1)].as_slice());
    assert!(rt; report.had_errors && report.finished);
    assert!(rt; report.encoding == UTF_8);
    Ok(())
}

/// Returns bytes in which each encoding has long runs of characters and of malformed sequences.
fn long_input(alloc: Global) -> Result<Vec<u8>, Fail> {
    let mut bytes = Vec::new(alloc);
    for _ in 0..75 {
        bytes.extend_from_slice(b"abcd")?;
    }
    for _ in 0..75 {
        bytes.extend_from_slice("é€💩".as_bytes())?;
    }
    bytes.extend_from_slice(b"\x1B$B")?;
    for trail in 0x21..0x7F {
        bytes.extend_from_slice(&[0x24, trail, 0x30, trail])?;
    }
    bytes.extend_from_slice(b"\x1B(I")?;
    for byte in 0x21..0x60 {
        bytes.extend_from_slice(&[byte, byte, byte, byte, byte])?;
    }
    bytes.extend_from_slice(b"\x1B(J\xFF\xFE\\~0123456789abcdef\x1B(B\x1B(")?;
    for byte in 0..0x80u8 {
        bytes.extend_from_slice(&[0xFF, byte, 0xFE, byte])?;
    }
    for trail in 0x40..=0xFFu8 {
        bytes.extend_from_slice(&[0xB0, trail, 0x88, trail, b'a', trail])?;
    }
    for trail in 0x30..=0x39u8 {
        bytes.extend_from_slice(&[0x81, trail, 0x84, trail, 0x8F, 0xB0, trail])?;
    }
    Ok(bytes)
}

/// Compares calls with all the rest of the input with calls of single bytes, into UTF-8 and into
/// UTF-16, with room for all and with less.
fn compare_long(
    rt: &impl Abort,
    alloc: Global,
    encoding: Encoding,
    bytes: &[u8],
) -> Result<(), Fail> {
    let off = BomHandling::Off;
    let single = vec![in alloc; call(false, false, (1, 4)); 8192]?;
    let want = decode_run(alloc, encoding, off, bytes, &single)?;
    assert!(rt; want.finished && want.read == bytes.len());
    for (utf16, replace, room) in [
        (false, false, 300),
        (false, true, 300),
        (false, true, 16384),
        (true, false, 300),
        (true, true, 300),
        (true, true, 16384),
    ] {
        let calls = vec![in alloc; call(utf16, replace, (bytes.len(), room)); 4096]?;
        let report = decode_run(alloc, encoding, off, bytes, &calls)?;
        assert!(rt; report.finished && report.read == bytes.len());
        assert!(rt;
            report.had_errors == want.had_errors && report.text.as_str() == want.text.as_str(),
            "{encoding:?}"
        );
        if replace {
            assert!(rt; report.faults.is_empty(), "{encoding:?}");
        } else {
            assert!(rt;
                report.faults.as_slice() == want.faults.as_slice(),
                "{encoding:?}"
            );
        }
    }
    Ok(())
}

/// An encoding of each codec.
const ENCODINGS: &[Encoding] = &[
    UTF_8,
    UTF_16BE,
    UTF_16LE,
    WINDOWS_1252,
    WINDOWS_1251,
    WINDOWS_1257,
    BIG5,
    EUC_KR,
    SHIFT_JIS,
    EUC_JP,
    GBK,
    GB18030,
    X_USER_DEFINED,
    REPLACEMENT,
    ISO_2022_JP,
];

#[test]
fn long_runs_come_to_what_single_bytes_come_to(rt: HostRuntime) -> Result<(), Fail> {
    let bytes = long_input(rt.alloc())?;
    for encoding in ENCODINGS {
        compare_long(&rt, rt.alloc(), *encoding, bytes.as_slice())?;
    }
    Ok(())
}

/// The number of encodings.
const COUNT: u32 = 40;

/// The number of equal bytes in a row: some sixteens and a rest.
const REPEATED: usize = 117;

#[test]
fn a_byte_that_is_repeated_is_its_character_repeated(rt: HostRuntime) -> Result<(), Fail> {
    for number in 0..COUNT {
        let Some(encoding) = Encoding::from_number(number) else {
            return Err(Fail::new("there are 40 encodings"));
        };
        if !encoding.is_single_byte() {
            continue;
        }
        for byte in 0..=u8::MAX {
            let bytes = [byte; REPEATED];
            let mut unit = [0; 1];
            let mut units = [0; REPEATED];
            let mut decoder = encoding.new_decoder_without_bom_handling();
            let one = decoder.decode_to_utf16_without_replacement(&bytes[..1], &mut unit, true);
            let mut decoder = encoding.new_decoder_without_bom_handling();
            let all = decoder.decode_to_utf16_without_replacement(&bytes, &mut units, true);
            if one.0 == DecoderResult::InputEmpty {
                assert!(rt;
                    all == (DecoderResult::InputEmpty, REPEATED, REPEATED),
                    "{encoding:?}"
                );
                assert!(rt; units == [unit[0]; REPEATED], "{encoding:?} {byte}");
            } else {
                assert!(rt;
                    all == (DecoderResult::Malformed(1, 0), 1, 0),
                    "{encoding:?} {byte}"
                );
            }
        }
    }
    Ok(())
}
