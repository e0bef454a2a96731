//! Whole runs of an encoder: the result of any list of calls.

ghost use Rattle.std.specs.Prelude.{◌≡◌, ◌++◌, ◌&&◌, [], true, false, nat_le, chars, length};
ghost use Rattle.std.specs.Prelude.{IfOk, OnOk};
ghost use Rattle.std.specs.Char.{encode_utf8};
ghost use Rattle.std.specs.Char.Escape.{encode_utf16};
ghost use Rattle.enc_encoder.specs.Text.{reference_after};
ghost use Rattle.enc_input.specs.Results.{encoder_result_of};
ghost use Rattle.enc_encoder.specs.Barring.{are_beyond_ascii};
ghost use Rattle.enc_stream.specs.Encoder.{EncodesChunk};
ghost use Rattle.encoding_rs.specs.Run.{units_of_call};
ghost use Rattle.encoding_rs.specs.EncodeRun.{encode_error_mode, reported_character};
ghost use Rattle.encoding_rs.specs.EncodeRun.{is_unmappable_result, is_input_empty_result};
ghost use Rattle.encoding_rs.specs.EncodeRun.{MakesEncodeCall};
ghost use Rattle.encoding_rs.specs.EncodeReport.{IsReportOf};

use crate::chars_of_text::{chars_in_units, split_at_char, utf16_of};
use crate::run::RunError;
use enc_encoder::put_reference;
use enc_input::EncoderResult;
use enc_stream::{Encoder, Encoding};
use enc_utf8::CoderResult;
use std::alloc::{AllocError, Global};

/// One call of a run: the input's code units, the error mode, the length of the chunk and the room.
#[derive(Clone, Copy, Debug)]
pub struct EncodeCall {
    /// Encodes from UTF-16, and otherwise from UTF-8.
    pub utf16: bool,
    /// Writes a decimal reference for each unmappable character, and otherwise reports it.
    pub replace: bool,
    /// The length of the chunk in characters, or less at the end of the text.
    pub offer: usize,
    /// The length of the output in bytes.
    pub room: usize,
}

/// The result of a run.
#[derive(Debug, Drop)]
pub struct EncodeReport {
    /// The bytes.
    pub bytes: Vec<u8>,
    /// The number of characters read.
    pub read: usize,
    /// The characters reported as unmappable, in order.
    pub unmappables: Vec<char>,
    /// Whether a character was unmappable.
    pub had_unmappables: bool,
    /// Whether the end of the text is reached.
    pub finished: bool,
    /// The number of calls made.
    pub calls: usize,
}

/// The outcome of one call of a run. The number read is in code units or in characters.
#[derive(Clone, Copy)]
struct EncodeOutcome {
    result: EncoderResult,
    read: usize,
    replaced: bool,
}

/// Returns the outcome of a call with replacement.
fn replacing_outcome(stop: CoderResult, read: usize, replaced: bool) -> EncodeOutcome
    ensures { result
        ≡ record { result = encoder_result_of stop; read = read; replaced = replaced } }
{
    let result = match stop {
        CoderResult::InputEmpty => EncoderResult::InputEmpty,
        CoderResult::OutputFull => EncoderResult::OutputFull,
    };
    EncodeOutcome {
        result,
        read,
        replaced,
    }
}

/// Makes one call from UTF-8. Returns its outcome and its bytes.
fn call_from_utf8(
    alloc: Global,
    encoder: &mut Encoder,
    chunk: &str,
    last: bool,
    call: EncodeCall,
) -> Result<(EncodeOutcome, Vec<u8>), AllocError>
    ensures { IfOk result (λ done. EncodesChunk encode_utf8 encoder.old encoder.new (record {
      src = chars chunk.now;
      last = last;
      mode = encode_error_mode call.replace encoder.old;
      room = call.room;
      result = done.0.result;
      read = done.0.read;
      wrote = done.1.items;
      replaced = done.0.replaced;
    })) }
{
    let mut bytes = Vec::with_capacity(alloc, call.room)?;
    if call.replace {
        let (stop, read, replaced) = encoder.encode_from_utf8_to_vec(chunk, &mut bytes, last);
        return Ok((replacing_outcome(stop, read, replaced), bytes));
    }
    let (result, read) = encoder.encode_from_utf8_to_vec_without_replacement(
        chunk, &mut bytes, last,
    );
    let outcome = EncodeOutcome {
        result,
        read,
        replaced: false,
    };
    Ok((outcome, bytes))
}

/// Makes one call from UTF-16. Returns its outcome and its bytes.
fn call_from_utf16(
    alloc: Global,
    encoder: &mut Encoder,
    chunk: &str,
    last: bool,
    call: EncodeCall,
) -> Result<(EncodeOutcome, Vec<u8>), AllocError>
    ensures { IfOk result (λ done. EncodesChunk encode_utf16 encoder.old encoder.new (record {
      src = chars chunk.now;
      last = last;
      mode = encode_error_mode call.replace encoder.old;
      room = call.room;
      result = done.0.result;
      read = done.0.read;
      wrote = done.1.items;
      replaced = done.0.replaced;
    })) }
{
    let units = utf16_of(alloc, chunk)?;
    let mut bytes = vec![in alloc; 0; call.room]?;
    if call.replace {
        let (stop, read, written, replaced) = encoder.encode_from_utf16(&units, &mut bytes, last);
        bytes.truncate(written);
        return Ok((replacing_outcome(stop, read, replaced), bytes));
    }
    let (result, read, written) = encoder.encode_from_utf16_without_replacement(
        &units, &mut bytes, last,
    );
    bytes.truncate(written);
    let outcome = EncodeOutcome {
        result,
        read,
        replaced: false,
    };
    Ok((outcome, bytes))
}

/// Makes one call from UTF-8 or UTF-16. Returns its outcome and its bytes.
fn call_from(
    alloc: Global,
    encoder: &mut Encoder,
    chunk: &str,
    last: bool,
    call: EncodeCall,
) -> Result<(EncodeOutcome, Vec<u8>), AllocError>
    ensures { IfOk result (λ done. EncodesChunk (units_of_call call.utf16) encoder.old encoder.new
        (record {
          src = chars chunk.now;
          last = last;
          mode = encode_error_mode call.replace encoder.old;
          room = call.room;
          result = done.0.result;
          read = done.0.read;
          wrote = done.1.items;
          replaced = done.0.replaced;
        })) }
{
    if call.utf16 {
        return call_from_utf16(alloc, encoder, chunk, last, call);
    }
    call_from_utf8(alloc, encoder, chunk, last, call)
}

/// Appends the decimal reference to the character that a call has reported, if any.
fn append_reference(bytes: &mut Vec<u8>, stop: EncoderResult) -> Result<(), AllocError>
    ensures { OnOk result (bytes.new.items ≡ bytes.old.items ++ reference_after stop) }
{
    let EncoderResult::Unmappable(c) = stop else {
        return Ok(());
    };
    let mut reference = [0; 10];
    let len = put_reference(c, &mut reference, 0);
    bytes.extend_from_slice(&reference[..len])
}

/// Appends the character that a call has reported, if any.
fn note_report(unmappables: &mut Vec<char>, stop: EncoderResult) -> Result<(), AllocError>
    ensures { OnOk result
        (unmappables.new.items ≡ unmappables.old.items ++ reported_character stop) }
{
    let EncoderResult::Unmappable(c) = stop else {
        return Ok(());
    };
    unmappables.push(c)?;
    Ok(())
}

/// Returns whether a call has reported an unmappable character.
fn reports(stop: EncoderResult) -> bool
    ensures { result ≡ is_unmappable_result stop }
{
    match stop {
        EncoderResult::InputEmpty => false,
        EncoderResult::OutputFull => false,
        EncoderResult::Unmappable(_) => true,
    }
}

/// Returns whether a call has read all of its input.
fn reads_all(stop: EncoderResult) -> bool
    ensures { result ≡ is_input_empty_result stop }
{
    match stop {
        EncoderResult::InputEmpty => true,
        EncoderResult::OutputFull => false,
        EncoderResult::Unmappable(_) => false,
    }
}

/// Makes one call of a run, and appends the reference for an unmappable character that it reports.
/// Returns its outcome, in characters, and whether it has ended the text.
fn make_call(
    alloc: Global,
    encoder: &mut Encoder,
    unread: &str,
    call: EncodeCall,
    bytes: &mut Vec<u8>,
) -> Result<(EncodeOutcome, bool), AllocError>
    ensures call { IfOk result
        (λ done. MakesEncodeCall call encoder.old encoder.new (chars unread.now)
        bytes.old.items bytes.new.items done.0.result done.0.read done.0.replaced) }
    ensures ended { IfOk result (λ done. done.1
        ≡ (nat_le (length (chars unread.now)) call.offer && is_input_empty_result done.0.result)) }
{
    let (chunk, rest) = split_at_char(unread, call.offer);
    let last = rest.is_empty();
    let (outcome, wrote) = call_from(alloc, encoder, chunk, last, call)?;
    bytes.extend_from_slice(&wrote)?;
    append_reference(bytes, outcome.result)?;
    let read = chars_in_units(chunk, outcome.read, call.utf16);
    let ended = last & reads_all(outcome.result);
    let outcome = EncodeOutcome { read, ..outcome };
    Ok((outcome, ended))
}

/// Encodes `text` by `calls`, in turn, with a new encoder of the output encoding.
///
/// Each call gets the unread characters, at most `offer` of them, and `last` exactly if that is all
/// of them. If it reports an unmappable character, the run puts the decimal reference in its place.
/// No call is made after the end.
///
/// The bytes are a prefix of those of the whole text with references, and all of them if the run
/// finished. This holds however the calls split the text between characters and however small their
/// outputs are, from UTF-8 or UTF-16, with replacement or without.
///
/// Takes memory for the report and for each call's input and output. Error: [`RunError::Memory`] if
/// and only if memory is refused.
pub fn encode_run(
    alloc: Global,
    encoding: Encoding,
    text: &str,
    calls: &[EncodeCall],
) -> Result<EncodeReport, RunError>
    ensures { IfOk result (IsReportOf [] encoding (chars text.now) calls.now) }
{
    encode_run_barring(alloc, encoding, &[], text, calls)
}

/// Encodes `text` by `calls`, with barred characters.
///
/// The same as [`encode_run`], with an encoder to which the characters of `barred` are unmappable
/// too. Condition: each character of the list is U+0080 or above ([`Encoding::barred_ok`]).
pub fn encode_run_barring(
    alloc: Global,
    encoding: Encoding,
    barred: &'static [char],
    text: &str,
    calls: &[EncodeCall],
) -> Result<EncodeReport, RunError>
    requires beyond_ascii { are_beyond_ascii barred.now ≡ true }
    ensures { IfOk result (IsReportOf barred.now encoding (chars text.now) calls.now) }
{
    let mut encoder = encoding.new_encoder_barring(barred);
    let mut bytes = Vec::new(alloc);
    let mut unmappables = Vec::new(alloc);
    let mut unread = text;
    let mut read = 0;
    let mut had_unmappables = false;
    let mut finished = false;
    let mut made = 0;
    for call in calls {
        if finished {
            break;
        }
        let (done, ended) = make_call(alloc, &mut encoder, unread, *call, &mut bytes)?;
        note_report(&mut unmappables, done.result)?;
        let (_, rest) = split_at_char(unread, done.read);
        unread = rest;
        read += done.read;
        had_unmappables |= done.replaced | reports(done.result);
        finished = ended;
        made += 1;
    }
    Ok(EncodeReport {
        bytes,
        read,
        unmappables,
        had_unmappables,
        finished,
        calls: made,
    })
}
