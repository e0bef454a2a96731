//! The attributes of a tag (HTML Standard 13.2.3.2, "get an attribute").

ghost use Rattle.std.specs.Prelude.{◌≡◌, ◌≤◌, ◌<◌, length, drop, slice_index};
ghost use Rattle.std.specs.Prelude.{option_map, IfSome, IsSome};
ghost use Rattle.enc_sniff.specs.Attributes.{value_at, attribute_from};
ghost use Rattle.enc_sniff.specs.Attributes.{get_attribute as attribute_at};
ghost use Rattle.enc_sniff.specs.Views.{both_now, named_now, sniffed_now};

use crate::scanning::{Run, past, split_at_byte, split_run};

/// An attribute. Letters stand as in the page.
#[derive(Clone, Copy)]
pub(crate) struct Attribute<'a> {
    pub(crate) name: &'a [u8],
    pub(crate) value: &'a [u8],
}

/// Reads the value of an attribute (from step 9). Returns it and the bytes after it.
///
/// `None` if the bytes run out.
fn take_value<'a>(bytes: &'a [u8]) -> Option<(&'a [u8], &'a [u8])>
    ensures value { option_map both_now result ≡ value_at bytes.now }
    ensures shorter { IfSome result (λ found. length found.1.now ≤ length bytes.now) }
{
    let bytes = past(bytes, Run::Spaces);
    let (first, after_first) = bytes.split_first()?;
    if *first == b'"' || *first == b'\'' {
        return split_at_byte(after_first, *first);
    }
    let (value, rest) = split_run(bytes, Run::Word(b'>'));
    if rest.is_empty() {
        None
    } else {
        Some((value, rest))
    }
}

/// Reads an attribute whose name begins with the next byte, even if that is `=` (from step 3).
/// Returns it and the bytes after it.
///
/// `None` if the bytes run out.
fn take_attribute<'a>(bytes: &'a [u8]) -> Option<(Attribute<'a>, &'a [u8])>
    requires some { 0 < length bytes.now }
    ensures value { option_map named_now result
        ≡ attribute_from (slice_index bytes.now 0) (drop 1 bytes.now) }
    ensures shorter { IfSome result (λ found. length found.1.now < length bytes.now) }
{
    let (more_name, after_name) = split_run(&bytes[1..], Run::AttributeName);
    let name = &bytes[..more_name.len() + 1];
    let after_spaces = past(after_name, Run::Spaces);
    let (sign, after_sign) = after_spaces.split_first()?;
    if *sign != b'=' {
        return Some((Attribute { name, value: &[] }, after_spaces));
    }
    let (value, rest) = take_value(after_sign)?;
    Some((Attribute { name, value }, rest))
}

/// Reads an attribute, if the tag has another one. Returns it and the bytes after it.
///
/// `None` if the bytes run out.
pub(crate) fn get_attribute<'a>(bytes: &'a [u8]) -> Option<(Option<Attribute<'a>>, &'a [u8])>
    ensures value { option_map sniffed_now result ≡ attribute_at bytes.now }
    ensures shorter { IfSome result (λ found.
        IsSome found.0 → length found.1.now < length bytes.now) }
    ensures within { IfSome result (λ found. length found.1.now ≤ length bytes.now) }
{
    let bytes = past(bytes, Run::Separators);
    if *bytes.first()? == b'>' {
        return Some((None, bytes));
    }
    let (attribute, rest) = take_attribute(bytes)?;
    Some((Some(attribute), rest))
}
