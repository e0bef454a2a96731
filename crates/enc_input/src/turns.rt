//! Turns of a run of mapped characters.

ghost use Rattle.std.specs.Prelude.{◌+◌, ◌<◌, ◌≤◌, length, chars, IsUtf8, IsTrue};
ghost use Rattle.std.specs.Char.Utf16.{utf16_lossy_chars};
ghost use Rattle.enc_input.specs.Mappings.{AreAnyUnits, WritesFront};

use crate::mapping::Mapping;
use crate::{utf8_mapped, utf16_mapped};

/// The turns in which a run is written, for one kind of mapping.
///
/// By default one takes the ASCII in front that is written as itself, or one character.
pub trait Turns<M: Mapping>: Copy {
    /// Writes the bytes of the first characters of UTF-8, after `done` bytes of a run.
    ///
    /// Returns the numbers of bytes read and written, and whether the run goes on.
    #[inline(always)]
    fn put_utf8(
        mapping: M,
        done: usize,
        src: &[u8],
        dst: &mut [u8],
        at: usize,
    ) -> (usize, usize, bool)
        requires sixteen { 16 ≤ length src.now }
        requires utf8 { IsUtf8 src.now }
        requires fits { done + length src.now < 0x1_0000_0000_0000_0000 }
        requires room { at + 16 ≤ length dst.old }
        ensures some { IsTrue result.2 → 0 < result.0 }
        ensures writes { WritesFront chars IsUtf8 (M.means mapping) src.now dst.old dst.new at
            result.0 result.1 }
    {
        let _done = done;
        if src[0] >= 0x80 {
            let (width, count) = utf8_mapped::put_beyond(mapping, src, dst, at);
            return (width, count, width > 0);
        }
        let len = utf8_mapped::put_ascii(mapping, src, dst, at);
        (len, len, len > 0)
    }

    /// Writes the bytes of the first characters of UTF-16. After sixteen code units of ASCII it
    /// writes long ASCII too.
    ///
    /// Returns the numbers of code units read and of bytes written, and whether the run goes on.
    #[inline(always)]
    fn put_utf16(mapping: M, src: &[u16], dst: &mut [u8], at: usize) -> (usize, usize, bool)
        requires sixteen { 16 ≤ length src.now }
        requires room { at + 19 ≤ length dst.old }
        ensures some { IsTrue result.2 → 0 < result.0 }
        ensures writes { WritesFront utf16_lossy_chars AreAnyUnits (M.means mapping) src.now dst.old
            dst.new at result.0 result.1 }
    {
        if src[0] >= 0x80 {
            let (width, count) = utf16_mapped::put_beyond(mapping, src, dst, at);
            return (width, count, width > 0);
        }
        let len = utf16_mapped::put_ascii(mapping, src, dst, at);
        if len == 16 {
            let more = utf16_mapped::put_strides(mapping, &src[len..], dst, at + len);
            return (len + more, len + more, true);
        }
        (len, len, len > 0)
    }

    /// Writes the bytes of the first character of UTF-8.
    ///
    /// Returns the numbers of bytes read and written, which are 0 if the character ends a run or
    /// may not fit.
    #[inline(always)]
    fn put_utf8_char(mapping: M, src: &[u8], dst: &mut [u8], at: usize) -> (usize, usize)
        requires some { 1 ≤ length src.now }
        requires utf8 { IsUtf8 src.now }
        requires room { at < length dst.old }
        ensures { WritesFront chars IsUtf8 (M.means mapping) src.now dst.old dst.new at result.0
            result.1 }
    {
        utf8_mapped::put_char(mapping, src, dst, at)
    }

    /// Writes the bytes of the first character of UTF-16.
    ///
    /// Returns the numbers of code units read and of bytes written, which are 0 if the character
    /// ends a run or may not fit.
    #[inline(always)]
    fn put_utf16_char(mapping: M, src: &[u16], dst: &mut [u8], at: usize) -> (usize, usize)
        requires some { 1 ≤ length src.now }
        requires room { at < length dst.old }
        ensures { WritesFront utf16_lossy_chars AreAnyUnits (M.means mapping) src.now dst.old
            dst.new at result.0 result.1 }
    {
        utf16_mapped::put_char(mapping, src, dst, at)
    }
}
