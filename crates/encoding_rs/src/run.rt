//! Whole runs of a decoder: the result of any list of calls.

ghost use Rattle.std.specs.Prelude.{◌≡◌, ℕ, ◌+◌, ◌*◌, ◌≤◌, ◌⊎◌, ◌++◌, true, false, length, take};
ghost use Rattle.std.specs.Prelude.{IfOk, OnOk};
ghost use Rattle.std.specs.List.{All};
ghost use Rattle.std.specs.Char.{encode_utf8};
ghost use Rattle.std.specs.Char.Escape.{encode_utf16};
ghost use Rattle.std.specs.String.{string_bytes};
ghost use Rattle.enc_output.specs.Results.{decoder_result_of};
ghost use Rattle.enc_stream.specs.Decoding.{DecoderState, has_finished};
ghost use Rattle.enc_stream.specs.Decoding.{whole_encoding, whole_utf_8, whole_malformed};
ghost use Rattle.enc_stream.specs.Faults.{whole_faults};
ghost use Rattle.encoding_rs.specs.DecodeEnd.{CanDecodeMore};
ghost use Rattle.encoding_rs.specs.Run.{units_of_call, AnswersDecodeCall, MakesDecodeCall};
ghost use Rattle.encoding_rs.specs.Run.{is_malformed_result, fault_of_result, IsDecodeRun};
ghost use Rattle.encoding_rs.specs.Run.{HasRunDecoding, decode_run_start};
ghost use Rattle.encoding_rs.specs.Run.{all_report_malformed};

mod error;

pub use crate::encode_run::{EncodeCall, EncodeReport, encode_run, encode_run_barring};
use enc_output::DecoderResult;
pub use enc_stream::BomHandling;
use enc_stream::{Decoder, Encoding};
use enc_utf8::CoderResult;
pub use error::RunError;
use std::alloc::{AllocError, Global};

/// One call of a run: the output's code units, the error mode, the chunk's length and the room.
#[derive(Clone, Copy, Debug)]
pub struct DecodeCall {
    /// Decodes to UTF-16, and otherwise to UTF-8.
    pub utf16: bool,
    /// Writes U+FFFD for each malformed sequence, and otherwise reports it.
    pub replace: bool,
    /// The length of the chunk in bytes, or less at the end of the input.
    pub offer: usize,
    /// The length of the output in code units.
    pub room: usize,
}

/// The result of a run.
#[derive(Debug, Drop)]
pub struct DecodeReport {
    /// The text.
    pub text: String,
    /// The number of bytes read.
    pub read: usize,
    /// The offset in the whole input, and the length in bytes, of each malformed sequence reported.
    pub faults: Vec<(usize, usize)>,
    /// Whether a sequence was malformed.
    pub had_errors: bool,
    /// Whether the decoder is finished.
    pub finished: bool,
    /// The encoding of a sniffed byte order mark, or otherwise the one given.
    pub encoding: Encoding,
    /// The number of calls made.
    pub calls: usize,
}

/// The outcome of one call of a run.
#[derive(Clone, Copy)]
struct DecodeOutcome {
    result: DecoderResult,
    read: usize,
    replaced: bool,
}

/// Returns the outcome of a call with replacement.
fn replacing_outcome(stop: CoderResult, read: usize, replaced: bool) -> DecodeOutcome
    ensures { result
        ≡ record { result = decoder_result_of stop; read = read; replaced = replaced } }
{
    let result = match stop {
        CoderResult::InputEmpty => DecoderResult::InputEmpty,
        CoderResult::OutputFull => DecoderResult::OutputFull,
    };
    DecodeOutcome {
        result,
        read,
        replaced,
    }
}

/// Makes one call into UTF-8. Returns its outcome and its text.
fn call_to_utf8(
    alloc: Global,
    decoder: &mut Decoder,
    chunk: &[u8],
    last: bool,
    call: DecodeCall,
) -> Result<(DecodeOutcome, String), AllocError>
    requires unfinished { has_finished decoder.old ≡ false }
    ensures { IfOk result (λ done. AnswersDecodeCall encode_utf8 call decoder.old decoder.new
        chunk.now last done.0.result done.0.read done.0.replaced (string_bytes done.1)) }
{
    let mut text = String::with_capacity(alloc, call.room)?;
    if call.replace {
        let (stop, read, replaced) = decoder.decode_to_string(chunk, &mut text, last);
        return Ok((replacing_outcome(stop, read, replaced), text));
    }
    let (result, read) = decoder.decode_to_string_without_replacement(chunk, &mut text, last);
    let outcome = DecodeOutcome {
        result,
        read,
        replaced: false,
    };
    Ok((outcome, text))
}

/// Makes one call into UTF-16. Returns its outcome and its text.
fn call_to_utf16(
    alloc: Global,
    decoder: &mut Decoder,
    chunk: &[u8],
    last: bool,
    call: DecodeCall,
) -> Result<(DecodeOutcome, String), AllocError>
    requires unfinished { has_finished decoder.old ≡ false }
    ensures { IfOk result (λ done. AnswersDecodeCall encode_utf16 call decoder.old decoder.new
        chunk.now last done.0.result done.0.read done.0.replaced (string_bytes done.1)) }
{
    let mut units = vec![in alloc; 0; call.room]?;
    if call.replace {
        let (stop, read, written, replaced) = decoder.decode_to_utf16(chunk, &mut units, last);
        let text = String::from_utf16_lossy(alloc, &units[..written])?;
        return Ok((replacing_outcome(stop, read, replaced), text));
    }
    let (result, read, written) = decoder.decode_to_utf16_without_replacement(
        chunk, &mut units, last,
    );
    let text = String::from_utf16_lossy(alloc, &units[..written])?;
    let outcome = DecodeOutcome {
        result,
        read,
        replaced: false,
    };
    Ok((outcome, text))
}

/// Makes one call into UTF-8 or UTF-16. Returns its outcome and its text.
fn call_to(
    alloc: Global,
    decoder: &mut Decoder,
    chunk: &[u8],
    last: bool,
    call: DecodeCall,
) -> Result<(DecodeOutcome, String), AllocError>
    requires unfinished { has_finished decoder.old ≡ false }
    ensures { IfOk result (λ done. AnswersDecodeCall (units_of_call call.utf16) call decoder.old
        decoder.new chunk.now last done.0.result done.0.read done.0.replaced
        (string_bytes done.1)) }
{
    if call.utf16 {
        return call_to_utf16(alloc, decoder, chunk, last, call);
    }
    call_to_utf8(alloc, decoder, chunk, last, call)
}

/// Returns whether a call has reported a malformed sequence.
fn reports(stop: DecoderResult) -> bool
    ensures { result ≡ is_malformed_result stop }
{
    match stop {
        DecoderResult::InputEmpty => false,
        DecoderResult::OutputFull => false,
        DecoderResult::Malformed(_, _) => true,
    }
}

/// Makes one call of a run, and appends U+FFFD for a malformed sequence that it reports.
fn make_call(
    alloc: Global,
    decoder: &mut Decoder,
    unread: &[u8],
    call: DecodeCall,
    text: &mut String,
) -> Result<DecodeOutcome, AllocError>
    requires unfinished { has_finished decoder.old ≡ false }
    ensures { IfOk result (λ outcome. MakesDecodeCall call decoder.old decoder.new unread.now
        (string_bytes text.old) (string_bytes text.new) outcome.result outcome.read
        outcome.replaced) }
{
    let (chunk, _) = unread.split_at(call.offer.min(unread.len()));
    let (outcome, piece) = call_to(alloc, decoder, chunk, unread.len() <= call.offer, call)?;
    text.push_str(piece.as_str())?;
    if !reports(outcome.result) {
        return Ok(outcome);
    }
    text.push('\u{FFFD}')?;
    Ok(outcome)
}

/// Appends the offset and length of the malformed sequence that a call has reported, if any.
fn note_fault(
    faults: &mut Vec<(usize, usize)>,
    stop: DecoderResult,
    read: usize,
) -> Result<(), AllocError>
    requires within { (l a : ℕ) → stop ≡ DecoderResult.Malformed l a → l + a ≤ read }
    ensures { OnOk result (faults.new.items ≡ faults.old.items ++ fault_of_result stop read) }
{
    let DecoderResult::Malformed(len, after) = stop else {
        return Ok(());
    };
    let start = read - after as usize - len as usize;
    faults.push((start, len as usize))?;
    Ok(())
}

/// Decodes `bytes` by `calls`, in turn, with a new decoder.
///
/// The decoder handles byte order marks by `handling`. Each call gets the unread bytes, at most
/// `offer` of them, and `last` exactly if that is all of them. If it reports a malformed sequence,
/// the run puts U+FFFD in its place. No call is made after the end.
///
/// The text is a prefix of the text of the whole input, and all of it if the run finished. This
/// holds however the calls split the input and however small their outputs are, to UTF-8 or UTF-16,
/// with replacement or without. A byte order mark that is found is no part of the text.
///
/// Takes memory for the report and for each call's output. Error: [`RunError::Memory`] if and only
/// if memory is refused.
pub fn decode_run(
    alloc: Global,
    encoding: Encoding,
    handling: BomHandling,
    bytes: &[u8],
    calls: &[DecodeCall],
) -> Result<DecodeReport, RunError>
    // The report is that of the calls made, one after another.
    ensures run { IfOk result (λ report. (decoder : DecoderState)
        × (has_finished decoder ≡ report.finished) × (decoder.encoding ≡ report.encoding)
        × IsDecodeRun bytes.now (take report.calls calls.now) (decode_run_start handling encoding)
        (record {
          decoder = decoder;
          read = report.read;
          text = string_bytes report.text;
          faults = report.faults.items;
          had_errors = report.had_errors;
        })) }

    // All calls are made, unless the end is reached first.
    ensures made { IfOk result (λ report.
        (report.finished ≡ true) ⊎ (report.calls ≡ length calls.now)) }
    ensures calls { IfOk result (λ report. report.calls ≤ length calls.now) }

    // If every call gets a byte and has room for a character, the end is reached within 2n + 1
    // calls for n bytes.
    ensures end { IfOk result (λ report. All CanDecodeMore calls.now
        → (report.calls ≤ 2 * length bytes.now + 1)
        × (2 * length bytes.now + 1 ≤ length calls.now → report.finished ≡ true)) }

    // The text is always a prefix of the whole input's, and each malformed sequence is at its
    // offset.
    ensures beginning { IfOk result (λ report. HasRunDecoding handling encoding bytes.now
        (take report.calls calls.now) (string_bytes report.text) report.faults.items
        report.had_errors report.finished) }

    // At the end the text is all of it.
    ensures text { IfOk result (λ report. report.finished ≡ true
        → string_bytes report.text ≡ whole_utf_8 handling encoding bytes.now) }
    ensures errors { IfOk result (λ report. report.finished ≡ true
        → report.had_errors ≡ whole_malformed handling encoding bytes.now) }
    ensures faults { IfOk result (λ report. report.finished ≡ true
        → all_report_malformed (take report.calls calls.now) ≡ true
        → report.faults.items ≡ whole_faults handling encoding bytes.now) }
    ensures read { IfOk result (λ report. report.finished ≡ true → report.read ≡ length bytes.now) }
    ensures encoding { IfOk result (λ report. report.finished ≡ true
        → report.encoding ≡ whole_encoding handling encoding bytes.now) }
{
    let mut decoder = encoding.new_decoder_with_bom_handling(handling);
    let mut text = String::new(alloc);
    let mut faults = Vec::new(alloc);
    let mut read = 0;
    let mut had_errors = false;
    let mut made = 0;
    for call in calls {
        if decoder.is_finished() {
            break;
        }
        let (_, unread) = bytes.split_at(read);
        let done = make_call(alloc, &mut decoder, unread, *call, &mut text)?;
        read += done.read;
        note_fault(&mut faults, done.result, read)?;
        had_errors |= done.replaced | reports(done.result);
        made += 1;
    }
    let finished = decoder.is_finished();
    let encoding = decoder.encoding();
    Ok(DecodeReport {
        text,
        read,
        faults,
        had_errors,
        finished,
        encoding,
        calls: made,
    })
}
