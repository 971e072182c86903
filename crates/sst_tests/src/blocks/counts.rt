//! How many heads and entries calls of iterators count at most. Each function makes one call, and
//! its contract is the bound.
ghost use Rattle.std.specs.Prelude.{◌≡◌, ◌+◌, ◌≤◌, length, IsTrue};
ghost use Rattle.sst_block_core.specs.Candidates.{scan_cost};

use sst_base::Poly31;
use sst_block_core::table::data_block::{IntoEntries, Iter};
use sst_block_core::table::index_block;

/// Takes the first entry left: an entry is counted where there is one, and no head.
pub fn next_counts_one(iter: &mut Iter<'_>) -> bool
    ensures heads { iter.new.steps.heads ≡ iter.old.steps.heads }
    ensures entries { IsTrue result → iter.new.steps.entries ≡ iter.old.steps.entries + 1 }
{
    match iter.next() {
        Some(_) => true,
        None => false,
    }
}

/// Takes the last entry left: no head is counted.
pub fn next_back_counts_no_head(iter: &mut Iter<'_>) -> bool
    ensures heads { iter.new.steps.heads ≡ iter.old.steps.heads }
{
    iter.next_back().is_some()
}

/// A seek over 40 entries, each a head, counts at most 6 heads.
pub fn seek_counts_six_of_forty(iter: &mut Iter<'_>, needle: &[u8]) -> bool
    requires count { length iter.old.window.list ≡ 40 }
    requires interval { iter.old.interval ≡ 1 }
    ensures heads { iter.new.steps.heads ≤ iter.old.steps.heads + 6 }
{
    iter.seek(needle)
}

/// A seek over 40 entries in intervals of 4 counts at most 4 heads.
pub fn seek_counts_four_of_ten(iter: &mut Iter<'_>, needle: &[u8]) -> bool
    requires count { length iter.old.window.list ≡ 40 }
    requires interval { iter.old.interval ≡ 4 }
    ensures heads { iter.new.steps.heads ≤ iter.old.steps.heads + 4 }
{
    iter.seek(needle)
}

/// A seek over 40 entries in intervals of 16 counts at most 2 heads.
pub fn seek_counts_two_of_three(iter: &mut Iter<'_>, needle: &[u8]) -> bool
    requires count { length iter.old.window.list ≡ 40 }
    requires interval { iter.old.interval ≡ 16 }
    ensures heads { iter.new.steps.heads ≤ iter.old.steps.heads + 2 }
{
    iter.seek(needle)
}

/// Takes the first entry left of an iterator that owns its block: an entry is counted where there
/// is one, and no head.
pub fn owned_next_counts_one(iter: &mut IntoEntries<Poly31>) -> bool
    ensures heads { iter.new.steps.heads ≡ iter.old.steps.heads }
    ensures entries { IsTrue result → iter.new.steps.entries ≡ iter.old.steps.entries + 1 }
{
    match iter.next() {
        Some(_) => true,
        None => false,
    }
}

/// Takes the last entry left of an iterator that owns its block: no head is counted.
pub fn owned_next_back_counts_no_head(iter: &mut IntoEntries<Poly31>) -> bool
    ensures heads { iter.new.steps.heads ≡ iter.old.steps.heads }
{
    iter.next_back().is_some()
}

/// A seek over 40 entries in intervals of 4, of an iterator that owns its block, counts at most 4
/// heads.
pub fn owned_seek_counts_four_of_ten(iter: &mut IntoEntries<Poly31>, needle: &[u8]) -> bool
    requires count { length iter.old.window.list ≡ 40 }
    requires interval { iter.old.interval ≡ 4 }
    ensures heads { iter.new.steps.heads ≤ iter.old.steps.heads + 4 }
{
    iter.seek(needle)
}

/// A seek and the step after it decode at most one handle more than an interval holds, and over
/// heads alone only the one that the step gives.
pub fn seek_and_next(iter: &mut index_block::Iter<'_>, needle: &[u8], seqno: u64) -> bool
    ensures { iter.new.steps.entries
        ≤ iter.old.steps.entries + (scan_cost iter.old.interval + 1) }
{
    iter.seek(needle, seqno) && iter.next().is_some()
}

/// A seek over 40 heads decodes no handle and examines at most 6 heads.
pub fn index_seek_counts_six_of_forty(
    iter: &mut index_block::Iter<'_>,
    needle: &[u8],
    seqno: u64,
) -> bool
    requires count { length iter.old.window.list ≡ 40 }
    requires interval { iter.old.interval ≡ 1 }
    ensures heads { iter.new.steps.heads ≤ iter.old.steps.heads + 6 }
    ensures entries { iter.new.steps.entries ≡ iter.old.steps.entries }
{
    iter.seek(needle, seqno)
}
