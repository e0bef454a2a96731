//! Sinks of bytes.

ghost use Rattle.std.specs.Prelude.{◌≡◌, ◌≢◌, ℕ, List, ◌≤◌, ◌<◌, ◌^◌, length, take, Option, Bool};
ghost use Rattle.std.specs.Prelude.{true, false, None, IfOk, IfErr, OnOk, OnErr, IsErr, OnSome, IsSome, IfSome};
ghost use Rattle.std.specs.Prelude.{IfNone, IsOkAnd, IsErrAnd};
ghost use Rattle.std.specs.Option.{ForSome};
ghost use Rattle.std.specs.IoError.{error_kind};
ghost use Rattle.std.specs.declared.io.Error.{Error};
ghost use Rattle.std.specs.declared.io.ErrorKind.TheVariants.{Interrupted};
ghost use Rattle.std.specs.Io.KnownBytes.{Keeps, WriteAppends};
ghost use Rattle.enc_writer.specs.Sink.{AppendsContents};

use std::io::{ErrorKind, Write};
use std::{fmt, io};

/// A sink of bytes, a buffer at a time.
pub trait Sink {
    // The bytes that it has taken, if the sink models them.
    ghost contents: { Self → Option (List ℕ) };

    // Returns whether a push or a flush has failed.
    ghost has_failed: { Self → Bool };

    // The error for which it has failed, if the sink keeps it.
    ghost error: { Self → Option Error } = { λ _. None };

    /// Takes bytes from the start of `buf`, and returns their number.
    ///
    /// It is at least one if the buffer is not empty. After an `Err` the sink has failed and has
    /// taken none of them. Condition: it has not failed before.
    fn push(&mut self, buf: &[u8]) -> Result<usize, ()>
        requires going { has_failed self.old ≡ false }
        ensures bound { IfOk result (λ n. n ≤ length buf.now) }
        ensures some { IfOk result (λ n. 0 < length buf.now → 0 < n) }
        ensures bytes { IfOk result (λ n. AppendsContents (contents self.old) (contents self.new)
            (take n buf.now)) }
        ensures ok { OnOk result (has_failed self.new ≡ has_failed self.old) }
        ensures none_taken { OnErr result (Keeps (contents self.old) (contents self.new)) }
        ensures err { OnErr result (has_failed self.new ≡ true) };

    /// Returns whether a push or a flush has failed.
    fn failed(&self) -> bool
        ensures { result ≡ has_failed self.now };

    /// Passes on the bytes that it has taken, as std's `Write::flush` does.
    ///
    /// After an `Err` the sink has failed. A sink that passes on each push at once has nothing to
    /// flush, which is the default. Condition: it has not failed before.
    fn flush(&mut self) -> Result<(), ()>
        requires going { has_failed self.old ≡ false }
        ensures contents { Keeps (contents self.old) (contents self.new) }
        ensures ok { OnOk result (has_failed self.new ≡ has_failed self.old) }
        ensures err { OnErr result (has_failed self.new ≡ true) }
    {
        Ok(())
    }

    /// Returns the error for which it has failed, if the sink keeps it. The default keeps none.
    ///
    /// It is never of kind `Interrupted`, after which a push is made again.
    fn error(&self) -> Option<io::Error>
        ensures kept { IfSome result (λ e. error self.now ≡ Some e) }
        ensures failed { OnSome result (has_failed self.now ≡ true) }
        ensures retried { IfSome result (λ e. error_kind e ≢ ErrorKind.Interrupted) }
    {
        None
    }
}

/// Returns how often a call of the writer is made at most, while every one is interrupted.
fn most_tries() -> u32
    ensures { result ≡ 2 ^ 20 }
{
    1 << 20
}

/// Returns the error of a call that is interrupted each time.
fn timeout_error(message: &str) -> io::Error
    ensures { error_kind result ≡ ErrorKind.TimedOut }
{
    io::Error::new(ErrorKind::TimedOut, message)
}

/// Returns the error of a write that takes none of the bytes of a buffer that is not empty.
fn write_zero_error() -> io::Error
    ensures { error_kind result ≡ ErrorKind.WriteZero }
{
    io::Error::new(ErrorKind::WriteZero, "write took no bytes")
}

/// Returns the outcome of a call of the writer, or `None` if it was interrupted and is made again.
fn settled<T>(outcome: io::Result<T>) -> Option<io::Result<T>>
    ensures outcome { IfSome result (λ settled. settled ≡ outcome) }
    ensures interrupted { IfNone result
        (IsErrAnd outcome (λ e. error_kind e ≡ ErrorKind.Interrupted)) }
    ensures retried { IfSome result
        (λ settled. IfErr settled (λ e. error_kind e ≢ ErrorKind.Interrupted)) }
{
    match outcome {
        Ok(value) => Some(Ok(value)),
        Err(error) => {
            if error.kind() == ErrorKind::Interrupted {
                return None;
            }
            Some(Err(error))
        }
    }
}

/// Returns the outcome of a write of `buf`: an error of kind `WriteZero` if it took none of some
/// bytes, and otherwise this one.
fn outcome_of_write(outcome: io::Result<usize>, buf: &[u8]) -> io::Result<usize>
    ensures none { IsOkAnd outcome (λ n. (n ≡ 0) × (0 < length buf.now))
        → IsErrAnd result (λ e. error_kind e ≡ ErrorKind.WriteZero) }
    ensures other { (IsOkAnd outcome (λ n. (n ≡ 0) × (0 < length buf.now)) → ⊥)
        → result ≡ outcome }
{
    match outcome {
        Ok(n) => {
            if n == 0 && !buf.is_empty() {
                return Err(write_zero_error());
            }
            Ok(n)
        }
        Err(error) => Err(error),
    }
}

/// Writes bytes from the start of `buf`, and returns their number.
///
/// It is at least one if the buffer is not empty: a write of 0 bytes then is an error of kind
/// `WriteZero`. An error of kind `Interrupted` is no failure, and the write is tried again.
fn write_some<W: Write>(writer: &mut W, buf: &[u8]) -> io::Result<usize>
    ensures bound { IfOk result (λ n. n ≤ length buf.now) }
    ensures some { IfOk result (λ n. 0 < length buf.now → 0 < n) }
    ensures write { WriteAppends (W.contents writer.old) (W.contents writer.new) result buf.now }
    ensures retried { IfErr result (λ e. error_kind e ≢ ErrorKind.Interrupted) }
{
    for _ in 0..most_tries() {
        if let Some(outcome) = settled(writer.write(buf)) {
            return outcome_of_write(outcome, buf);
        }
    }
    Err(timeout_error("every write was interrupted"))
}

/// Flushes the writer. An error of kind `Interrupted` is no failure, and it is flushed again.
fn flush_all<W: Write>(writer: &mut W) -> io::Result<()>
    ensures flush { Keeps (W.contents writer.old) (W.contents writer.new) }
    ensures retried { IfErr result (λ e. error_kind e ≢ ErrorKind.Interrupted) }
{
    for _ in 0..most_tries() {
        if let Some(outcome) = settled(writer.flush()) {
            return outcome;
        }
    }
    Err(timeout_error("every flush was interrupted"))
}

/// A sink over any writer. Its bytes are those that std models of the writer: over a `Vec`, or a
/// `&mut` of one, all that it holds.
///
/// It keeps the error that has stopped it.
#[derive(Drop)]
pub struct FromWrite<W: Write> {
    inner: W,
    failed: bool,
    // the error for which it has failed, until it is taken
    error: Option<io::Error>,
    ghost kept: { failed ≡ false → error ≡ None },
    ghost retried: { ForSome error (λ e. error_kind e ≢ Interrupted) },
}

impl<W: Write> FromWrite<W> {
    /// Returns a sink that writes to `inner` and has not failed.
    pub fn new(inner: W) -> FromWrite<W>
        ensures inner { result.inner ≡ inner }
        ensures not_failed { result.failed ≡ false }
        ensures no_error { result.error ≡ None }
    {
        FromWrite {
            inner,
            failed: false,
            error: None,
        }
    }

    /// Takes the error that has stopped it out of it.
    ///
    /// `None` if no push and no flush has failed, or if the error was taken before. The sink stays
    /// failed.
    pub fn take_error(&mut self) -> Option<io::Error>
        ensures error { result ≡ self.old.error }
        ensures none { self.old.failed ≡ false → result ≡ None }
        ensures taken { self.new.error ≡ None }
        ensures failed { self.new.failed ≡ self.old.failed }
        ensures inner { self.new.inner ≡ self.old.inner }
    {
        self.error.take()
    }

    /// Returns the writer, which has taken all bytes that were pushed. It is not flushed, and an
    /// error that was not taken is lost.
    pub fn into_inner(self) -> W
        ensures { result ≡ self.inner }
    {
        self.inner
    }

    /// Ends a call with this outcome of the writer. After an error the sink has failed, and keeps
    /// it.
    fn end_call<T>(&mut self, outcome: io::Result<T>) -> Result<T, ()>
        requires going { self.old.failed ≡ false }
        requires retried { IfErr outcome (λ e. error_kind e ≢ ErrorKind.Interrupted) }
        ensures value { IfOk outcome (λ value. result ≡ Ok value) }
        ensures kept { OnOk outcome (self.new ≡ self.old) }
        ensures fails { OnErr outcome (IsErr result) }
        ensures failed { OnErr outcome (self.new.failed ≡ true) }
        ensures error { IfErr outcome (λ e. self.new.error ≡ Some e) }
        ensures inner { self.new.inner ≡ self.old.inner }
    {
        match outcome {
            Ok(value) => Ok(value),
            Err(error) => {
                self.failed = true;
                self.error = Some(error);
                Err(())
            }
        }
    }
}

impl<W: Write> fmt::Debug for FromWrite<W> {
    /// Writes whether it has failed, and its error.
    fn fmt<F: fmt::Write>(&self, f: &mut fmt::Formatter<F>) -> fmt::Result {
        f.debug_struct("FromWrite")
            .field("failed", &self.failed)
            .field("error", &self.error)
            .finish_non_exhaustive()
    }
}

impl<W: Write> Sink for FromWrite<W> {
    ghost contents = { λ sink. W.contents sink.inner };

    ghost has_failed = { λ sink. sink.failed };

    ghost error = { λ sink. sink.error };

    /// Calls `write` of the writer, again if that is interrupted, at most 2^20 times in all. Any
    /// other error is a failure, also one of kind `WouldBlock`, and so is a write of 0 bytes from a
    /// buffer that is not empty (`WriteZero`) or 2^20 interrupted writes (`TimedOut`). The error is
    /// kept whole.
    fn push(&mut self, buf: &[u8]) -> Result<usize, ()>
        requires going { self.old.failed ≡ false }
        ensures bound { IfOk result (λ n. n ≤ length buf.now) }
        ensures some { IfOk result (λ n. 0 < length buf.now → 0 < n) }
        ensures write { WriteAppends (W.contents self.old.inner) (W.contents self.new.inner) result
            buf.now }
        ensures ok { OnOk result (self.new.failed ≡ self.old.failed) }
        ensures err { OnErr result (self.new.failed ≡ true) }
        ensures no_error { OnOk result (self.new.error ≡ self.old.error) }
        ensures error { OnErr result (IsSome self.new.error) }
        ensures retried { OnErr result
            (IfSome self.new.error (λ e. error_kind e ≢ ErrorKind.Interrupted)) }
    {
        let outcome = write_some(&mut self.inner, buf);
        self.end_call(outcome)
    }

    fn failed(&self) -> bool {
        self.failed
    }

    /// Calls `flush` of the writer, again if that is interrupted, at most 2^20 times in all. Any
    /// other error is a failure, and so are 2^20 interrupted flushes (`TimedOut`). The error is
    /// kept whole.
    fn flush(&mut self) -> Result<(), ()>
        requires going { self.old.failed ≡ false }
        ensures flush { Keeps (W.contents self.old.inner) (W.contents self.new.inner) }
        ensures ok { OnOk result (self.new.failed ≡ self.old.failed) }
        ensures err { OnErr result (self.new.failed ≡ true) }
        ensures no_error { OnOk result (self.new.error ≡ self.old.error) }
        ensures error { OnErr result (IsSome self.new.error) }
        ensures retried { OnErr result
            (IfSome self.new.error (λ e. error_kind e ≢ ErrorKind.Interrupted)) }
    {
        let outcome = flush_all(&mut self.inner);
        self.end_call(outcome)
    }

    /// Returns the error for which it has failed: `None` if it has not failed, or if the error was
    /// taken.
    fn error(&self) -> Option<io::Error>
        ensures { result ≡ self.now.error }
    {
        self.error.as_ref().copied()
    }
}
