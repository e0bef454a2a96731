//! Scripts: calls of an `EncodeWriter`, what each returns, and the bytes that the sink has taken.

use enc_stream::Encoding;
use enc_writer::{EncodeWriter, FromWrite, Sink, UnmappablePolicy, WriteFault};
use std::io::ErrorKind;
use std::process::Abort;
use test_devices::StepWriter;

/// A call.
#[derive(Clone, Copy)]
pub(crate) enum Act {
    /// `write_str` of the text.
    Text,
    /// `write_str_with` of the text.
    With(UnmappablePolicy),
    /// `write_str_without_replacement` of the text.
    Mappable,
    /// `write_utf16` of a code unit.
    Unit(u16),
    /// `write_utf16` of two.
    Units(u16, u16),
    Push,
    Flush,
    End,
    Finish,
    /// `had_unmappables`.
    Flag,
    Error,
}

/// What a call returns.
#[derive(Clone, Copy, PartialEq, Eq, Debug)]
pub(crate) enum Answer {
    /// `Ok`, or no error.
    Done,
    /// Whether a character was unmappable.
    Had(bool),
    /// The unmappable character, and the number of bytes taken up to it and with it.
    Stops(char, usize),
    /// The sink fails.
    Fails,
    /// It has failed before.
    HasFailed,
    /// The error.
    Keeps(ErrorKind),
}

/// An encoding, calls with their texts and answers, and the bytes taken.
pub(crate) type Script = (
    Encoding,
    &'static [(Act, &'static str, Answer)],
    &'static [u8],
);

/// The answer of a call that fails.
fn fault(fault: WriteFault) -> Answer {
    match fault {
        WriteFault::Writer => Answer::Fails,
        WriteFault::Failed => Answer::HasFailed,
    }
}

/// The answer of a call that returns no value.
fn done(outcome: Result<(), WriteFault>) -> Answer {
    match outcome {
        Ok(()) => Answer::Done,
        Err(why) => fault(why),
    }
}

/// The answer of a call that ends a text.
fn had(outcome: Result<bool, WriteFault>) -> Answer {
    match outcome {
        Ok(had) => Answer::Had(had),
        Err(why) => fault(why),
    }
}

/// Makes a call.
fn make_call<S: Sink>(writer: &mut EncodeWriter<'_, S>, act: Act, text: &str) -> Answer {
    match act {
        Act::Text => done(writer.write_str(text)),
        Act::With(policy) => done(writer.write_str_with(text, policy)),
        Act::Mappable => match writer.write_str_without_replacement(text) {
            Ok(None) => Answer::Done,
            Ok(Some(stop)) => Answer::Stops(stop.character, stop.taken),
            Err(why) => fault(why),
        },
        Act::Unit(unit) => done(writer.write_utf16(&[unit])),
        Act::Units(a, b) => done(writer.write_utf16(&[a, b])),
        Act::Push => done(writer.push_held()),
        Act::Flush => done(writer.flush()),
        Act::End => had(writer.end_text()),
        Act::Finish => had(writer.finish()),
        Act::Flag => Answer::Had(writer.had_unmappables()),
        Act::Error => match writer.error() {
            None => Answer::Done,
            Some(error) => Answer::Keeps(error.kind()),
        },
    }
}

/// Makes the calls of a script on a new writer, through a buffer of `room` bytes, from 14 to 64.
/// The sink has failed exactly if a call says so.
fn make_calls<S: Sink>(rt: &impl Abort, sink: &mut S, (encoding, acts, _): Script, room: usize) {
    let mut buffer = [0; 64];
    let room = room.max(14).min(64);
    let mut writer = EncodeWriter::new(sink, encoding, &mut buffer[..room]);
    let mut has_failed = false;
    for (act, text, want) in acts {
        let got = make_call(&mut writer, *act, *text);
        assert!(rt; got == *want, "{got:?}, not {want:?}");
        has_failed |= got == Answer::Fails;
    }
    assert!(rt; writer.encoding() == encoding.output_encoding());
    // the sink comes back without the bytes that are held
    assert!(rt; writer.into_sink().failed() == has_failed);
}

/// Plays a script, and compares the bytes that the device has taken. Returns the numbers of its
/// calls and of its flushes.
pub(crate) fn play(
    rt: &impl Abort,
    script: Script,
    device: StepWriter<'_>,
    room: usize,
) -> (usize, usize) {
    let mut sink = FromWrite::new(device);
    make_calls(rt, &mut sink, script, room);
    let device = sink.into_inner();
    assert!(rt; device.taken.as_slice() == script.2, "{:?}", device.taken);
    assert!(rt; device.empty_calls == 0);
    (device.calls, device.flushes)
}
