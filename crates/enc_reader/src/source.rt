//! Sources of bytes.

ghost use Rattle.std.specs.Prelude.{◌≡◌, ◌≢◌, ℕ, ◌≤◌, ◌<◌, length, List, take, Option, Bool};
ghost use Rattle.std.specs.Prelude.{◌↔◌, true, false, None, Some, IfOk, OnOk, OnErr, IfErr, IsErrAnd};
ghost use Rattle.std.specs.Prelude.{IsNone, IfSome, OnSome, IsSomeAnd};
ghost use Rattle.std.specs.Option.{ForSome};
ghost use Rattle.std.specs.declared.io.ErrorKind.TheVariants.{Interrupted};
ghost use Rattle.std.specs.declared.io.Error.{Error};
ghost use Rattle.std.specs.IoError.{error_kind};
ghost use Rattle.std.specs.Io.KnownBytes.{IsAtEnd, Consumes, Keeps, ReadConsumes};

use std::io::{ErrorKind, Read};
use std::{fmt, io};

/// The number of reads that a pull makes at most.
const MOST_READS: u32 = u32::MAX;

/// A source of bytes, a buffer at a time.
pub trait Source {
    // The bytes still to come, if the source models them.
    ghost remaining: { Self → Option (List ℕ) };

    // Returns whether a pull has failed.
    ghost has_failed: { Self → Bool };

    // The error for which it has failed, if it keeps one.
    ghost error: { Self → Option Error } = { λ _. None };

    /// Writes the next bytes to the start of `buf`, and returns their number.
    ///
    /// It is 0 for a buffer that is not empty only at the end. After an `Err` the source has failed
    /// and has given no bytes. Condition: it has not failed before.
    fn pull(&mut self, buf: &mut [u8]) -> Result<usize, ()>
        requires going { has_failed self.old ≡ false }
        ensures bound { IfOk result (λ n. n ≤ length buf.new) }
        ensures bytes { IfOk result (λ n. Consumes (remaining self.old)
            (remaining self.new) (take n buf.new)) }
        ensures end { IfOk result (λ n. n ≡ 0 → 0 < length buf.new → IsAtEnd (remaining self.new)) }
        ensures ok { OnOk result (has_failed self.new ≡ has_failed self.old) }
        ensures none_given { OnErr result (Keeps (remaining self.old) (remaining self.new)) }
        ensures err { OnErr result (has_failed self.new ≡ true) };

    /// Returns whether a pull has failed.
    fn failed(&self) -> bool
        ensures { result ≡ has_failed self.now };

    /// Returns the error for which it has failed, if the source keeps it. The default keeps none.
    ///
    /// It is never of the kind `Interrupted`, after which a pull reads again.
    fn error(&self) -> Option<io::Error>
        ensures kept { IfSome result (λ e. error self.now ≡ Some e) }
        ensures failed { OnSome result (has_failed self.now ≡ true) }
        ensures retried { IfSome result (λ e. error_kind e ≢ ErrorKind.Interrupted) }
    {
        None
    }
}

/// Returns the outcome of a read, or `None` if the read was interrupted and is to be made again.
fn settled(outcome: io::Result<usize>) -> Option<io::Result<usize>>
    ensures again { IsNone result ↔ IsErrAnd outcome
        (λ error. error_kind error ≡ ErrorKind.Interrupted) }
    ensures same { IfSome result (λ settled. settled ≡ outcome) }
{
    match outcome {
        Ok(n) => Some(Ok(n)),
        Err(error) => {
            if error.kind() == ErrorKind::Interrupted {
                None
            } else {
                Some(Err(error))
            }
        }
    }
}

/// Returns the error of a pull whose reads were all interrupted.
fn all_interrupted() -> io::Error
    ensures { error_kind result ≡ ErrorKind.TimedOut }
{
    io::Error::new(ErrorKind::TimedOut, "every read was interrupted")
}

/// Reads once, and again after each error of the kind `Interrupted`, up to [`MOST_READS`] times.
///
/// If all of these are interrupted, the error is of the kind `TimedOut`.
fn read_uninterrupted<R: Read>(reader: &mut R, buf: &mut [u8]) -> io::Result<usize>
    ensures bound { IfOk result (λ n. n ≤ length buf.new) }
    ensures read { ReadConsumes (R.remaining reader.old) (R.remaining reader.new) result buf.new }
    ensures retried { IfErr result (λ error. error_kind error ≢ ErrorKind.Interrupted) }
{
    for _ in 0..MOST_READS {
        if let Some(outcome) = settled(reader.read(buf)) {
            return outcome;
        }
    }
    Err(all_interrupted())
}

/// A source over any reader of `std`: its bytes are those that the reader models.
///
/// So the bytes of a slice, a `Cursor`, or a `BufReader` or `Take` over one are known to proofs,
/// and those of a file are not. It keeps the error of the reader for which it has failed.
#[derive(Drop)]
pub struct FromRead<R: Read> {
    inner: R,
    failed: bool,
    // the error for which it has failed, until it is taken
    error: Option<io::Error>,
    ghost kept: { failed ≡ false → error ≡ None },
    ghost retried: { ForSome error (λ e. error_kind e ≢ Interrupted) },
}

impl<R: Read> FromRead<R> {
    /// Returns a source that reads from `inner` and has not failed.
    pub fn new(inner: R) -> FromRead<R>
        ensures inner { result.inner ≡ inner }
        ensures not_failed { result.failed ≡ false }
    {
        FromRead {
            inner,
            failed: false,
            error: None,
        }
    }

    /// Takes the error of the reader for which the source has failed.
    ///
    /// `None` if it has not failed, or if the error was taken before. The source stays failed, and
    /// the reader as it is.
    pub fn take_error(&mut self) -> Option<io::Error>
        ensures error { result ≡ self.old.error }
        ensures none { self.old.failed ≡ false → result ≡ None }
        ensures taken { self.new.error ≡ None }
        ensures failed { self.new.failed ≡ self.old.failed }
        ensures inner { self.new.inner ≡ self.old.inner }
    {
        self.error.take()
    }

    /// Fails for an error of the reader, which is kept.
    fn fail(&mut self, error: io::Error)
        requires retried { error_kind error ≢ ErrorKind.Interrupted }
        ensures failed { self.new.failed ≡ true }
        ensures error { self.new.error ≡ Some error }
        ensures inner { self.new.inner ≡ self.old.inner }
    {
        self.failed = true;
        self.error = Some(error);
    }

    /// Returns the reader, after a failure too. An error that was not taken is lost.
    pub fn into_inner(self) -> R
        ensures { result ≡ self.inner }
    {
        self.inner
    }
}

impl<R: Read> fmt::Debug for FromRead<R> {
    /// Writes whether it has failed, and the error that it keeps.
    fn fmt<W: fmt::Write>(&self, f: &mut fmt::Formatter<W>) -> fmt::Result {
        f.debug_struct("FromRead")
            .field("failed", &self.failed)
            .field("error", &self.error)
            .finish_non_exhaustive()
    }
}

impl<R: Read> Source for FromRead<R> {
    ghost remaining = { λ source. R.remaining source.inner };

    ghost has_failed = { λ source. source.failed };

    ghost error = { λ source. source.error };

    /// Reads from the reader, again after each error of the kind `Interrupted`.
    ///
    /// Any other error is a failure for good, one of the kind `WouldBlock` too, and is kept. After
    /// 2^32 - 1 interrupted reads the pull fails with an error of the kind `TimedOut`.
    fn pull(&mut self, buf: &mut [u8]) -> Result<usize, ()>
        requires going { self.old.failed ≡ false }
        ensures bound { IfOk result (λ n. n ≤ length buf.new) }
        ensures read { ReadConsumes (R.remaining self.old.inner) (R.remaining self.new.inner) result
            buf.new }
        ensures ok { OnOk result (self.new.failed ≡ self.old.failed) }
        ensures err { OnErr result (self.new.failed ≡ true) }
        ensures error { OnErr result (IsSomeAnd self.new.error
            (λ error. error_kind error ≢ ErrorKind.Interrupted)) }
    {
        match read_uninterrupted(&mut self.inner, buf) {
            Ok(n) => Ok(n),
            Err(error) => {
                self.fail(error);
                Err(())
            }
        }
    }

    fn failed(&self) -> bool {
        self.failed
    }

    /// Returns the error for which it has failed, until it is taken.
    fn error(&self) -> Option<io::Error>
        ensures { result ≡ self.now.error }
    {
        self.error.as_ref().copied()
    }
}
