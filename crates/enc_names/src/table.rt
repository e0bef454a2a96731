//! The table of labels (Encoding Standard 4.2).

ghost use Rattle.std.specs.Prelude.{◌≡◌};
ghost use Rattle.enc_names.specs.Table.{table};
ghost use Rattle.enc_names.specs.Place.{texts_of};

use crate::words::LABELS;

/// Returns the labels in the order of the search.
pub(crate) fn labels() -> &'static [&'static str]
    ensures { texts_of result.now ≡ table }
{
    &LABELS
}
