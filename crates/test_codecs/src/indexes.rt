//! The indexes (Encoding Standard 5): characters by pointers, and pointers by characters. The
//! pointers are computed by hand from the bytes of Python's codecs; those of U+7E8A, U+E7C7 and the
//! ends of the indexes are the Encoding Standard's. Places are computed by hand from pointers: 256,
//! the row times the row's places, and the column.
//!
//! Written by scripts/make-sources from data/templates: change the text there, and not this file.

mod big5;
mod euc_kr;
mod gb18030;
mod gb18030_ranges;
mod jis0208;
mod shift_jis;
mod single_byte;

use enc_index::{List, Planes, SingleByteIndex};

/// The first run of some indexes.
const FIRST_RUNS: &[(List, (u32, u32, u32))] = &[
    (List::Jis0208, (0, 2, 0x3000)),
    (List::SingleByte(SingleByteIndex::Koi8U), (0, 0, 0x2500)),
];

#[test]
fn gives_its_runs_and_planes(rt: HostRuntime) {
    for (index, want) in FIRST_RUNS {
        assert!(rt; index.runs().first().copied() == Some(*want));
    }
    let first = SingleByteIndex::Ibm866.runs().first().copied();
    assert!(rt; first == Some((0, 47, 0x410)));
    assert!(rt; matches!(List::Big5.planes(), Planes::All));
    assert!(rt; matches!(List::EucKr.planes(), Planes::Basic));
}
