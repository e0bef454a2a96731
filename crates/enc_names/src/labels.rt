//! The encoding that a label names (Encoding Standard 4.2).

ghost use Rattle.std.specs.Prelude.{◌≡◌, Some, map, length};
ghost use Rattle.enc_names.specs.Table.{table};
ghost use Rattle.enc_names.specs.LabelIds.{id_pairs, id_paired_with, id_of_label};

use crate::encoding_id::EncodingId;
use crate::encoding_table::ENCODINGS;
use crate::search::place;

/// Returns the encodings of the labels, in the order of the search.
fn encodings() -> &'static [EncodingId]
    ensures each { map Some result.now ≡ map (id_paired_with id_pairs) table }
    ensures count { length result.now ≡ length table }
{
    &ENCODINGS
}

impl EncodingId {
    /// Returns the encoding that a label names (Encoding Standard 4.2, "get an encoding").
    ///
    /// `None` if it names none. ASCII whitespace around the label does not matter (tab, line feed,
    /// form feed, carriage return and space), nor does case.
    pub fn for_label(label: &[u8]) -> Option<EncodingId>
        ensures { result ≡ id_of_label label.now }
    {
        let place = place(label.trim_ascii())?;
        Some(encodings()[place])
    }
}
