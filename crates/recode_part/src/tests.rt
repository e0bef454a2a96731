//! Arguments, runs by a task, and how the program ends.

use crate::ending::{Ending, exit_status};
use crate::part::recode_part;
use crate::task::{Arguments, Refusal, Task, bound, handling, task_of};
use enc_stream::Encoding;
use enc_stream::constants::{ISO_2022_JP, SHIFT_JIS, UTF_8, UTF_16BE, WINDOWS_1252};
use recode_engine::{BomHandling, FromRead, FromWrite, RecodeError, RecodeFault};
use std::alloc::{AllocError, Global};
use std::io;
use std::test::Fail;

/// Returns the arguments that these words are, after FROM and TO, PART and maybe LENGTH.
fn arguments(
    alloc: Global,
    (from, to): (&str, &str),
    part: &str,
    length: Option<&str>,
) -> Result<Arguments, AllocError> {
    let length = match length {
        Some(length) => Some(String::from_str(alloc, length)?),
        None => None,
    };
    Ok(Arguments {
        from: String::from_str(alloc, from)?,
        to: String::from_str(alloc, to)?,
        part: String::from_str(alloc, part)?,
        length,
    })
}

/// Returns the line that is printed for arguments that are refused, or an empty one.
fn refusal_line(
    alloc: Global,
    labels: (&str, &str),
    part: &str,
    length: Option<&str>,
) -> Result<String, Fail> {
    match task_of(&arguments(alloc, labels, part, length)?) {
        Ok(_) => Ok(String::new(alloc)),
        Err(refusal) => Ok(format!(in alloc; "{}", Ending::Refused(refusal))?),
    }
}

#[test]
fn a_part_has_its_marks(rt: HostRuntime) {
    for word in ["1", "+1", "01"] {
        assert!(rt;
            matches!(handling(word), Some(BomHandling::Remove)),
            "{word}"
        );
    }
    for word in ["2", "3", "10", "18446744073709551615"] {
        assert!(rt; matches!(handling(word), Some(BomHandling::Off)), "{word}");
    }
    for word in ["0", "", "-1", "1a", " 1", "18446744073709551616"] {
        assert!(rt; handling(word).is_none(), "{word}");
    }
}

#[test]
fn a_length_bounds_the_bytes(rt: HostRuntime) -> Result<(), Fail> {
    assert!(rt; bound(&None) == Some(None));
    for (word, wanted) in [
        ("0", 0),
        ("5", 5),
        ("4294967301", 4294967301),
        ("18446744073709551615", 18446744073709551615),
    ] {
        let word = Some(String::from_str(rt.alloc(), word)?);
        assert!(rt; bound(&word) == Some(Some(wanted)));
    }
    for word in ["", "-1", "1K", "18446744073709551616"] {
        let word = Some(String::from_str(rt.alloc(), word)?);
        assert!(rt; bound(&word) == None);
    }
    Ok(())
}

#[test]
fn a_task_has_what_the_arguments_say(rt: HostRuntime) -> Result<(), Fail> {
    let words = arguments(rt.alloc(), ("latin1", "sjis"), "1", Some("7"))?;
    let Ok(task) = task_of(&words) else {
        return Err(Fail::new("it is refused"));
    };
    assert!(rt; (task.from, task.to) == (WINDOWS_1252, SHIFT_JIS));
    assert!(rt; matches!(task.handling, BomHandling::Remove));
    assert!(rt; task.length == Some(7));
    let words = arguments(rt.alloc(), ("utf-8", "utf-16be"), "2", None)?;
    let Ok(task) = task_of(&words) else {
        return Err(Fail::new("it is refused"));
    };
    assert!(rt; (task.from, task.to) == (UTF_8, UTF_16BE));
    assert!(rt; matches!(task.handling, BomHandling::Off));
    assert!(rt; task.length == None);
    Ok(())
}

/// Labels, PART and LENGTH, and what is printed of them.
type RefusalRow = (
    (&'static str, &'static str),
    &'static str,
    Option<&'static str>,
    &'static str,
);

const REFUSALS: &[RefusalRow] = &[
    (("utf-8", "utf-8"), "1", Some("5"), ""),
    (
        ("nonsense", "utf-8"),
        "0",
        Some(""),
        "recode_part: unknown label\n",
    ),
    (
        ("utf-8", "replacement"),
        "1",
        None,
        "recode_part: unknown label\n",
    ),
    (
        ("utf-16be", "utf-8"),
        "0",
        Some(""),
        "recode_part: PART is not a number from 1\n",
    ),
    (
        ("utf-16be", "utf-8"),
        "1",
        Some(""),
        "recode_part: LENGTH is not a number\n",
    ),
    (
        ("utf-16", "iso-2022-jp"),
        "2",
        None,
        "recode_part: a part in UTF-16LE may depend on the bytes before it\n",
    ),
    (
        ("iso-2022-jp", "utf-8"),
        "1",
        None,
        "recode_part: a part in ISO-2022-JP may depend on the bytes before it\n",
    ),
    (
        ("utf-8", "iso-2022-jp"),
        "1",
        None,
        "recode_part: a part in ISO-2022-JP may depend on the bytes before it\n",
    ),
];

#[test]
fn arguments_are_refused_in_order(rt: HostRuntime) -> Result<(), Fail> {
    for (labels, part, length, wanted) in REFUSALS {
        let line = refusal_line(rt.alloc(), *labels, *part, *length)?;
        assert!(rt; line.as_str() == *wanted, "{line}");
    }
    Ok(())
}

/// Recodes bytes by a task. Returns the bytes written, and whether something was replaced.
fn recoded(alloc: Global, task: &Task, input: &[u8]) -> Result<(Vec<u8>, bool), Fail> {
    let mut out = Vec::new(alloc);
    let mut writer = FromWrite::new(&mut out);
    let (_reader, outcome) = recode_part(task, FromRead::new(input), &mut writer);
    match outcome {
        Ok(replaced) => Ok((out, replaced)),
        Err(_) => Err(Fail::new("a device fails that cannot")),
    }
}

#[test]
fn a_run_recodes_the_bytes_of_its_part(rt: HostRuntime) -> Result<(), Fail> {
    let mut task = Task {
        from: UTF_8,
        to: WINDOWS_1252,
        handling: BomHandling::Off,
        length: Some(3),
    };
    let (out, replaced) = recoded(rt.alloc(), &task, b"\xC3\xA9a\n")?;
    assert!(rt; (out.as_slice(), replaced) == (b"\xE9a".as_slice(), false));
    task.length = Some(1);
    let (out, _) = recoded(rt.alloc(), &task, b"ab")?;
    assert!(rt; out.as_slice() == b"a".as_slice());
    task.length = Some(0);
    let (out, _) = recoded(rt.alloc(), &task, b"a")?;
    assert!(rt; out.is_empty());
    task.length = None;
    let (out, replaced) = recoded(rt.alloc(), &task, b"\xEF\xBB\xBFa\xFF")?;
    assert!(rt; (out.as_slice(), replaced) == (b"&#65279;a&#65533;".as_slice(), true));
    task.handling = BomHandling::Remove;
    let (out, replaced) = recoded(rt.alloc(), &task, b"\xEF\xBB\xBFa")?;
    assert!(rt; (out.as_slice(), replaced) == (b"a".as_slice(), false));
    Ok(())
}

/// Returns the fault of a run whose sides keep no error.
fn failed(fault: RecodeFault) -> RecodeError {
    let (mut bytes, mut out) = (b"".as_slice(), io::empty());
    RecodeError::new(fault, &FromRead::new(&mut bytes), &FromWrite::new(&mut out))
}

#[test]
fn an_ending_has_a_line_and_a_status(rt: HostRuntime) -> Result<(), Fail> {
    for (ending, line, wanted) in [
        (Ending::Ran(false), "", 0),
        (Ending::Ran(true), "", 1),
        (
            Ending::Failed(failed(RecodeFault::Read)),
            "recode_part: read failed\n",
            3,
        ),
        (
            Ending::Failed(failed(RecodeFault::Write)),
            "recode_part: write failed\n",
            3,
        ),
        (
            Ending::Refused(Refusal::Label),
            "recode_part: unknown label\n",
            2,
        ),
        (
            Ending::Refused(Refusal::Whole(ISO_2022_JP)),
            "recode_part: a part in ISO-2022-JP may depend on the bytes before it\n",
            2,
        ),
        (
            Ending::Refused(Refusal::Usage),
            "recode_part: usage: recode_part FROM TO PART [LENGTH]\n",
            2,
        ),
    ] {
        let text = format!(in rt.alloc(); "{ending}")?;
        assert!(rt; text.as_str() == line, "{text}");
        assert!(rt; exit_status(&ending) == wanted);
    }
    Ok(())
}
