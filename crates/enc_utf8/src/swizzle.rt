//! Bytes at places among sixteen.

ghost use Rattle.std.specs.Prelude.{◌≡◌, ℕ, ◌-◌, ◌<◌, map, slice_index};

use std::simd::prelude::*;

/// Returns the bytes at these places.
#[inline(always)]
pub fn pick(bytes: u8x16, places: u8x16) -> u8x16
    requires places { (k : ℕ) → k < 16 → slice_index places k < 16 }
    ensures list { result ≡ map (λ place. slice_index bytes place) places }
    ensures lanes { (k : ℕ) → k < 16 → slice_index result k
        ≡ slice_index bytes (slice_index places k) }
{
    bytes.swizzle_dyn(places)
}
