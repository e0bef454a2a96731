//! The search for a label.

ghost use Rattle.std.specs.Prelude.{◌≡◌, ◌<◌, true, map, length, IfSome};
ghost use Rattle.std.specs.Ordering.{MatchOrdering};
ghost use Rattle.std.specs.Char.{to_ascii_lowercase};
ghost use Rattle.enc_names.specs.Order.{word_number, are_ascending_words};
ghost use Rattle.enc_names.specs.Place.{word_place, texts_of};
ghost use Rattle.enc_names.specs.Table.{table};

use crate::table::labels;
use crate::words::LONGEST;
use std::cmp::Ordering;

/// Returns how a label compares to a word in the order of the table.
fn compare(label: &[u8], word: &[u8]) -> Ordering
    ensures { MatchOrdering result (word_number label.now < word_number word.now)
        (label.now ≡ word.now) (word_number word.now < word_number label.now) }
{
    if label.len() != word.len() {
        return label.len().cmp(&word.len());
    }
    let mut at = label.len();
    while at > 0 {
        at -= 1;
        if label[at] != word[at] {
            return label[at].cmp(&word[at]);
        }
    }
    Ordering::Equal
}

/// Returns the place of a word in a table, by binary search.
///
/// - `table`: ascends.
fn search(table: &[&str], word: &[u8]) -> Option<usize>
    requires ascending { are_ascending_words (texts_of table.now) ≡ true }
    ensures place { result ≡ word_place (texts_of table.now) word.now }
    ensures within { IfSome result (λ place. place < length table.now) }
{
    let mut low = 0;
    let mut high = table.len();
    while low < high {
        let middle = low + (high - low) / 2;
        match compare(table[middle].as_bytes(), word) {
            Ordering::Less => low = middle + 1,
            Ordering::Equal => return Some(middle),
            Ordering::Greater => high = middle,
        }
    }
    None
}

/// Returns the place of a word in the table of labels, in upper or lower case.
///
/// `None` if it is no label. Makes at most eight comparisons.
pub(crate) fn place(word: &[u8]) -> Option<usize>
    ensures place { result ≡ word_place table (map to_ascii_lowercase word.now) }
    ensures within { IfSome result (λ place. place < length table) }
{
    let mut bytes = [0; LONGEST];
    if word.len() > LONGEST {
        return None;
    }
    let lower = &mut bytes[..word.len()];
    lower.copy_from_slice(word);
    lower.make_ascii_lowercase();
    search(labels(), lower)
}
