//! A source of the first bytes of another.

ghost use Rattle.std.specs.Prelude.{◌≡◌, min};
ghost use Rattle.recode_part.specs.Bound.{bytes_within};

use recode_engine::Source;
use std::io;

/// A source of the first bytes of another, up to a bound if there is one.
#[derive(Drop)]
pub(crate) struct Bounded<R: Source> {
    inner: R,
    /// The most bytes that are still to come, if there is a bound.
    left: Option<u64>,
}

impl<R: Source> Bounded<R> {
    /// Returns a source of the bytes of `inner`, of `most` at most if there is a bound.
    pub(crate) fn new(inner: R, most: Option<u64>) -> Bounded<R>
        ensures inner { result.inner ≡ inner }
        ensures left { result.left ≡ most }
    {
        Bounded { inner, left: most }
    }

    /// Returns the source of the bytes.
    pub(crate) fn into_inner(self) -> R
        ensures { result ≡ self.inner }
    {
        self.inner
    }
}

/// Returns the smaller of a length and a bound.
fn within(len: usize, most: u64) -> usize
    ensures { result ≡ min len most }
{
    if (len as u64) < most {
        len
    } else {
        most as usize
    }
}

impl<R: Source> Source for Bounded<R> {
    ghost remaining = { λ source. bytes_within source.left (R.remaining source.inner) };

    ghost has_failed = { λ source. R.has_failed source.inner };

    ghost error = { λ source. R.error source.inner };

    fn pull(&mut self, buf: &mut [u8]) -> Result<usize, ()> {
        let Some(left) = self.left else {
            return self.inner.pull(buf);
        };
        let most = within(buf.len(), left);
        if most == 0 {
            return Ok(0);
        }
        let n = self.inner.pull(&mut buf[..most])?;
        self.left = Some(left - n as u64);
        Ok(n)
    }

    fn failed(&self) -> bool {
        self.inner.failed()
    }

    fn error(&self) -> Option<io::Error> {
        self.inner.error()
    }
}
