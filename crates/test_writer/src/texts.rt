//! Texts in several writes, and the calls that push and flush them.

use crate::writing::Act::*;
use crate::writing::Answer::*;
use crate::writing::{Script, play};
use enc_stream::constants::*;
use std::test::Fail;
use test_devices::{ALL_BYTES, BYTE, Step, StepWriter};

/// Scripts, and the numbers of pushes and of flushes through a buffer of 64 bytes.
#[rattlefmt::skip]
const ROWS: &[(Script, (usize, usize))] = &[
    ((WINDOWS_1252, &[(Text, "caf", Done), (Text, "é", Done), (Finish, "", Had(false))],
        b"caf\xE9"), (1, 1)),
    ((WINDOWS_1252, &[(Text, "éЖ", Done), (Text, "z", Done), (Finish, "", Had(true))],
        b"\xE9&#1046;z"), (1, 1)),
    ((SHIFT_JIS, &[(Text, "日", Done), (Text, "é", Done), (Text, "本", Done),
        (Finish, "", Had(true))], b"\x93\xFA&#233;\x96\x7B"), (1, 1)),
    ((GB18030, &[(Text, "€", Done), (Text, "💩é", Done), (Finish, "", Had(false))],
        b"\xA2\xE3\x94\x39\xDA\x33\xA8\xA6"), (1, 1)),
    // the escape sequences are those of one text
    ((ISO_2022_JP, &[(Text, "日", Done), (Text, "本", Done), (Finish, "", Had(false))],
        b"\x1B$BF|K\\\x1B(B"), (1, 1)),
    ((ISO_2022_JP, &[(Text, "日", Done), (Text, "é", Done), (Finish, "", Had(true))],
        b"\x1B$BF|\x1B(B&#233;"), (1, 1)),
    ((ISO_2022_JP, &[(Text, "日", Done), (Text, "", Done), (Text, "a", Done),
        (Finish, "", Had(false))], b"\x1B$BF|\x1B(Ba"), (1, 1)),
    // the output encoding
    ((UTF_16LE, &[(Text, "a", Done), (Text, "é", Done), (Finish, "", Had(false))],
        b"a\xC3\xA9"), (1, 1)),
    ((REPLACEMENT, &[(Text, "日", Done), (Finish, "", Had(false))], b"\xE6\x97\xA5"), (1, 1)),
    ((UTF_8, &[(Finish, "", Had(false))], b""), (0, 1)),
    // UTF-16: both halves of a pair that is split between two writes are U+FFFD
    ((GB18030, &[(Units(0x61, 0x20AC), "", Done), (Units(0xD83D, 0xDCA9), "", Done),
        (Unit(0xD83D), "", Done), (Unit(0xDCA9), "", Done), (Text, "é", Done),
        (Finish, "", Had(false))],
        b"a\xA2\xE3\x94\x39\xDA\x33\x84\x31\xA4\x37\x84\x31\xA4\x37\xA8\xA6"), (1, 1)),
    ((SHIFT_JIS, &[(Units(0xD83D, 0xDCA9), "", Done), (Units(0xD83D, 0x65E5), "", Done),
        (Finish, "", Had(true))], b"&#128169;&#65533;\x93\xFA"), (1, 1)),
    // without replacement: the caller writes another character, or the reference itself
    ((SHIFT_JIS, &[(Mappable, "日é本", Stops('é', 5)), (Flag, "", Had(true)), (Text, "?", Done),
        (Mappable, "本", Done), (Finish, "", Had(true))], b"\x93\xFA?\x96\x7B"), (1, 1)),
    ((ISO_2022_JP, &[(Mappable, "日é本", Stops('é', 5)), (Text, "&#233;", Done),
        (Mappable, "本", Done), (Finish, "", Had(true))],
        b"\x1B$BF|\x1B(B&#233;\x1B$BK\\\x1B(B"), (1, 1)),
    ((ISO_2022_JP, &[(Text, "日é本", Done), (Finish, "", Had(true))],
        b"\x1B$BF|\x1B(B&#233;\x1B$BK\\\x1B(B"), (1, 1)),
    // a push for each flush and for the end, and the next text begins anew
    ((ISO_2022_JP, &[(Text, "日", Done), (Text, "本", Done), (Flush, "", Done), (Text, "日", Done),
        (Finish, "", Had(false)), (Text, "日", Done), (Finish, "", Had(false))],
        b"\x1B$BF|K\\F|\x1B(B\x1B$BF|\x1B(B"), (3, 3)),
    // a flush adds no escape sequence, and none is pushed by the next
    ((ISO_2022_JP, &[(Text, "日", Done), (Flush, "", Done), (Flush, "", Done)], b"\x1B$BF|"),
        (1, 2)),
    // a flush and the end of all are passed on, a push and the end of a text are not
    ((ISO_2022_JP, &[(Text, "日", Done), (Flush, "", Done), (Text, "é", Done),
        (Finish, "", Had(true))], b"\x1B$BF|\x1B(B&#233;"), (2, 2)),
    ((ISO_2022_JP, &[(Text, "日", Done), (Push, "", Done), (Text, "é", Done),
        (End, "", Had(true))], b"\x1B$BF|\x1B(B&#233;"), (2, 0)),
    ((SHIFT_JIS, &[(Flush, "", Done), (Push, "", Done), (End, "", Had(false)),
        (Finish, "", Had(false)), (Error, "", Done)], b""), (0, 2)),
    // the flag of a text that begins anew is that of both
    ((WINDOWS_1252, &[(Text, "é", Done), (Push, "", Done), (Text, "Ж", Done),
        (End, "", Had(true)), (End, "", Had(true)), (Flag, "", Had(true))], b"\xE9&#1046;"),
        (2, 0)),
    // a text that is neither pushed nor ended
    ((WINDOWS_1252, &[(Text, "é", Done)], b""), (0, 0)),
];

#[test]
fn writes_are_one_text(rt: HostRuntime) -> Result<(), Fail> {
    for (script, calls) in ROWS {
        let device = StepWriter::new(rt.alloc(), &[]);
        assert!(rt; play(&rt, *script, device, 64) == *calls, "{:?}", script.2);
        for step in [ALL_BYTES, BYTE, Step::Move(3)] {
            for room in [14, 15, 64] {
                let steps = [step];
                play(&rt, *script, StepWriter::new(rt.alloc(), &steps), room);
            }
        }
    }
    Ok(())
}
