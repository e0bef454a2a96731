//! One-shot calls of `Encoding`, and their error.

use crate::surface::derives::{are_equal, debug_text, error_text};
use encoding_rs::{Encoding, OneShotError, SHIFT_JIS, UTF_8, WINDOWS_1257};
use std::alloc::AllocError;
use std::borrow::{CowSlice, CowStr};
use std::io;
use std::test::Fail;

#[test]
fn errors_of_one_shot_calls_are_compared_and_printed(rt: HostRuntime) -> Result<(), Fail> {
    assert!(rt; are_equal(&OneShotError::Memory, &OneShotError::Memory));
    assert!(rt; !are_equal(&OneShotError::Memory, &OneShotError::TooLong));
    assert!(rt; (OneShotError::Memory as u8, OneShotError::TooLong as u8) == (1, 2));
    let text = debug_text(rt.alloc(), &OneShotError::TooLong)?;
    assert!(rt; text.as_str() == "TooLong");
    let text = error_text(rt.alloc(), &OneShotError::Memory)?;
    assert!(rt; text.as_str() == "out of memory");
    assert!(rt; OneShotError::from(AllocError) == OneShotError::Memory);
    let kind = io::Error::from(OneShotError::TooLong).kind();
    assert!(rt; kind == io::ErrorKind::InvalidInput);
    Ok(())
}

/// "€ä" in UTF-8, after a byte order mark.
const MARKED: &[u8] = b"\xEF\xBB\xBF\xE2\x82\xAC\xC3\xA4";

#[test]
fn decode_looks_for_each_mark(rt: HostRuntime) -> Result<(), Fail> {
    let answer: Result<(String, Encoding, bool), OneShotError> = WINDOWS_1257.decode(
        rt.alloc(),
        MARKED,
    );
    let (text, encoding, had_errors) = answer?;
    assert!(rt; (text.as_str(), encoding, had_errors) == ("€ä", UTF_8, false));
    let (text, encoding, had_errors) = WINDOWS_1257.decode(rt.alloc(), b"abc\x80\xA1\xE4")?;
    let want = ("abc€\u{FFFD}ä", WINDOWS_1257, true);
    assert!(rt; (text.as_str(), encoding, had_errors) == want);
    Ok(())
}

#[test]
fn decode_with_bom_removal_looks_for_its_own(rt: HostRuntime) -> Result<(), Fail> {
    let answer: Result<(String, bool), OneShotError> = UTF_8.decode_with_bom_removal(
        rt.alloc(),
        MARKED,
    );
    let (text, had_errors) = answer?;
    assert!(rt; (text.as_str(), had_errors) == ("€ä", false));
    let (text, had_errors) = WINDOWS_1257.decode_with_bom_removal(rt.alloc(), MARKED)?;
    assert!(rt; (text.as_str(), had_errors) == ("ļ»æā‚¬Ć¤", false));
    Ok(())
}

#[test]
fn decode_without_bom_handling_looks_for_none(rt: HostRuntime) -> Result<(), Fail> {
    let answer: Result<(String, bool), OneShotError> = UTF_8.decode_without_bom_handling(
        rt.alloc(),
        MARKED,
    );
    let (text, had_errors) = answer?;
    assert!(rt; (text.as_str(), had_errors) == ("\u{FEFF}€ä", false));
    Ok(())
}

#[test]
fn decode_without_replacement_gives_none_of_malformed_bytes(rt: HostRuntime) -> Result<(), Fail> {
    let answer: Result<Option<String>, OneShotError> =
        UTF_8.decode_without_bom_handling_and_without_replacement(rt.alloc(), MARKED);
    let Some(text) = answer? else {
        return Err("nothing is malformed".into());
    };
    assert!(rt; text.as_str() == "\u{FEFF}€ä");
    let none = UTF_8.decode_without_bom_handling_and_without_replacement(rt.alloc(), b"\xE2\x82")?;
    assert!(rt; none.is_none());
    Ok(())
}

#[test]
fn encode_writes_references(rt: HostRuntime) -> Result<(), Fail> {
    let answer: Result<(Vec<u8>, Encoding, bool), OneShotError> = SHIFT_JIS.encode(
        rt.alloc(),
        "一é",
    );
    let (bytes, encoding, had_unmappables) = answer?;
    assert!(rt; bytes.as_slice() == b"\x88\xEA&#233;".as_slice());
    assert!(rt; (encoding, had_unmappables) == (SHIFT_JIS, true));
    Ok(())
}

#[test]
fn lending_calls_return_the_text(rt: HostRuntime) -> Result<(), Fail> {
    let answer: Result<(CowStr<'_>, Encoding, bool), OneShotError> = WINDOWS_1257.decode_lending(
        rt.alloc(),
        MARKED,
    );
    match answer {
        Ok((text, encoding, had_errors)) => {
            assert!(rt; (text.as_str(), encoding, had_errors) == ("€ä", UTF_8, false));
        }
        Err(error) => return Err(error.into()),
    }
    let answer: Result<(CowStr<'_>, bool), OneShotError> = UTF_8.decode_with_bom_removal_lending(
        rt.alloc(),
        MARKED,
    );
    match answer {
        Ok((text, had_errors)) => assert!(rt; (text.as_str(), had_errors) == ("€ä", false)),
        Err(error) => return Err(error.into()),
    }
    let answer: Result<(CowStr<'_>, bool), OneShotError> =
        UTF_8.decode_without_bom_handling_lending(rt.alloc(), MARKED);
    match answer {
        Ok((text, had_errors)) => {
            assert!(rt; (text.as_str(), had_errors) == ("\u{FEFF}€ä", false));
        }
        Err(error) => return Err(error.into()),
    }
    let answer: Result<Option<CowStr<'_>>, OneShotError> =
        UTF_8.decode_without_bom_handling_and_without_replacement_lending(rt.alloc(), MARKED);
    match answer {
        Ok(Some(text)) => assert!(rt; text.as_str() == "\u{FEFF}€ä"),
        Ok(None) => return Err("nothing is malformed".into()),
        Err(error) => return Err(error.into()),
    }
    Ok(())
}

#[test]
fn encode_lending_returns_the_bytes(rt: HostRuntime) -> Result<(), Fail> {
    let answer: Result<(CowSlice<'_, u8>, Encoding, bool), OneShotError> = SHIFT_JIS.encode_lending(
        rt.alloc(),
        "一é",
    );
    match answer {
        Ok((bytes, encoding, had_unmappables)) => {
            assert!(rt; bytes.as_slice() == b"\x88\xEA&#233;".as_slice());
            assert!(rt; (encoding, had_unmappables) == (SHIFT_JIS, true));
        }
        Err(error) => return Err(error.into()),
    }
    Ok(())
}
