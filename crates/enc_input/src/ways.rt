//! Ways to write a run of mapped characters, one for each kind of mapping.

ghost use Rattle.std.specs.Prelude.{◌≤◌, length, chars, IsUtf8};
ghost use Rattle.enc_input.specs.Mappings.{WritesFront};

use crate::letters::put_plain;
use crate::mapping::{Mapping, UnitBytes, Utf8Bytes};
use crate::turns::Turns;
use crate::utf8_bytes::put_by_lanes;
use crate::utf8_mapped::{self, found_at, write_utf8};
use crate::utf16_mapped::{put_char, put_units};
use crate::utf16_text::put_text;

/// A way to write a run, for one kind of mapping.
pub trait Way<M: Mapping>: Turns<M> {
    /// Writes the bytes of the first characters of a text to a slice, from `from` on: by default in
    /// turns.
    ///
    /// Returns the numbers of bytes read and written. The run need not be maximal.
    #[inline(always)]
    fn write_text(mapping: M, text: &str, dst: &mut [u8], from: usize) -> (usize, usize)
        requires room { from ≤ length dst.old }
        ensures { WritesFront chars IsUtf8 (M.means mapping) text.now dst.old dst.new from result.0
            result.1 }
    {
        write_utf8::<M, Self>(mapping, text.as_bytes(), dst, from)
    }
}

/// Character by character, and ASCII in steps of sixteen.
#[derive(Clone, Copy)]
pub struct ByCharacter;

/// Single bytes by [`UnitBytes::unit_byte`], many at a time.
#[derive(Clone, Copy)]
pub struct ByUnit;

/// UTF-8, copied as it is, or made of sixteen code units at a time.
#[derive(Clone, Copy)]
pub struct Copied;

impl<M: Mapping> Turns<M> for ByCharacter {}

impl<M: Mapping> Way<M> for ByCharacter {}

impl<M: UnitBytes> Turns<M> for ByUnit {
    /// Goes on by lanes after the first sixteen bytes of a run.
    #[inline(always)]
    fn put_utf8(
        mapping: M,
        done: usize,
        src: &[u8],
        dst: &mut [u8],
        at: usize,
    ) -> (usize, usize, bool) {
        let (len, count) = if src[0] < 0x80 {
            let len = utf8_mapped::put_ascii(mapping, src, dst, at);
            (len, len)
        } else {
            Self::put_utf8_char(mapping, src, dst, at)
        };
        if len == 0 {
            return (len, count, false);
        }
        let (more, added) = put_by_lanes(mapping, done + len, &src[len..], dst, at + count);
        (len + more, count + added, true)
    }

    /// Writes ASCII and letters in whole steps of sixteen code units. If there are none, it writes
    /// sixteen code units that have a byte, or those in front and the character after them.
    #[inline(always)]
    fn put_utf16(mapping: M, src: &[u16], dst: &mut [u8], at: usize) -> (usize, usize, bool) {
        let plain = put_plain(mapping, src, dst, at);
        if plain > 0 {
            return (plain, plain, true);
        }
        let len = put_units(mapping, src, dst, at);
        if len == 16 {
            return (len, len, true);
        }
        let (width, count) = put_char(mapping, &src[len..], dst, at + len);
        (len + width, len + count, width > 0)
    }

    /// Looks a character of two bytes up by [`UnitBytes::unit_byte`] first.
    #[inline(always)]
    fn put_utf8_char(mapping: M, src: &[u8], dst: &mut [u8], at: usize) -> (usize, usize) {
        if src[0] < 0xC0 || 0xE0 <= src[0] {
            return utf8_mapped::put_char(mapping, src, dst, at);
        }
        let unit = found_at(src, 0).c as u32 as u16;
        let byte = mapping.unit_byte(unit.min(0x7FF));
        if byte == 0 {
            return utf8_mapped::put_char(mapping, src, dst, at);
        }
        dst[at] = byte;
        (2, 1)
    }

    /// Looks a code unit up by [`UnitBytes::unit_byte`] first.
    #[inline(always)]
    fn put_utf16_char(mapping: M, src: &[u16], dst: &mut [u8], at: usize) -> (usize, usize) {
        let byte = mapping.unit_byte(src[0].min(0x7FF));
        if byte > 0 {
            dst[at] = byte;
            return (1, 1);
        }
        put_char(mapping, src, dst, at)
    }
}

impl<M: UnitBytes> Way<M> for ByUnit {}

impl<M: Utf8Bytes> Turns<M> for Copied {
    /// Goes on through a buffer after the first turn, where that pays.
    #[inline(always)]
    fn put_utf16(mapping: M, src: &[u16], dst: &mut [u8], at: usize) -> (usize, usize, bool) {
        let (len, count, goes_on) = ByCharacter::put_utf16(mapping, src, dst, at);
        if !goes_on {
            return (len, count, false);
        }
        let (more, added) = put_text(mapping, &src[len..], dst, at + count);
        (len + more, count + added, true)
    }
}

impl<M: Utf8Bytes> Way<M> for Copied {
    /// Copies whole characters, as many as fit.
    #[inline(always)]
    fn write_text(mapping: M, text: &str, dst: &mut [u8], from: usize) -> (usize, usize) {
        mapping.laws();
        let len = text.floor_char_boundary(dst.len() - from);
        dst[from..from + len].copy_from_slice(&text.as_bytes()[..len]);
        (len, len)
    }
}
