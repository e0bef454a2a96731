//! The rest of a character whose first bytes are overwritten.

ghost use Rattle.std.specs.Prelude.{◌≡◌, ◌≤◌, length, take, drop};
ghost use Rattle.enc_output.specs.Rest.{without_continuations};

/// Sets the bytes from 0x80 to 0xBF that directly follow the first `at` to 00.
///
/// They are the rest of a character whose first bytes were overwritten. All other bytes are
/// unchanged. Condition: there are at least `at` bytes.
pub fn clear_rest(dst: &mut [u8], at: usize)
    requires room { at ≤ length dst.old }
    ensures front { take at dst.new ≡ take at dst.old }
    ensures rest { drop at dst.new ≡ without_continuations (drop at dst.old) }
    ensures len { length dst.new ≡ length dst.old }
{
    let mut end = at;
    while end < dst.len() && 0x80 <= dst[end] && dst[end] < 0xC0 {
        dst[end] = 0;
        end += 1;
    }
}
