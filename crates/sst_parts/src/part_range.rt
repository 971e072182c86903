//! The parts of an index that can have a key in a range.
ghost use Rattle.std.specs.Prelude.{◌≡◌, ◌<◌, ◌≤◌, length};
ghost use Rattle.std.specs.List.{count_by};
ghost use Rattle.std.specs.Range.Bound.{bound_map};
ghost use Rattle.sstable_blocks.specs.Ends.{hi_at, index_at, lo_at};
ghost use Rattle.sstable_blocks.specs.Scans.{between, handles_within, is_before, is_up_to};
ghost use Rattle.sstable_blocks.specs.BlockReading.{AddsUpTo};
ghost use Rattle.sstable_blocks.specs.Prelude.{CountsBetween};
ghost use Rattle.sstable_blocks.specs.Scans.{index_cost, range_by};
ghost use Rattle.sstable_blocks.specs.Tallies.{search_cost, tally_by};

use sstable_blocks::Steps;
use sstable_blocks::run::ends::Between;
use sstable_blocks::table::block::bound::Bound as SeekBound;
use sstable_blocks::table::index_block::IndexBlockRef;
use std::ops::Bound;

// How many parts end before the start of a range. What is examined is added to `steps`.
fn parts_before(index: &IndexBlockRef<'_>, from: &Bound<&[u8]>, steps: &mut Steps) -> usize
    ensures value { result
        ≡ count_by (λ h. is_before (bound_map (λ k. k.now) from.now) h.end_key) index.now.items }
    ensures counts { CountsBetween steps.old steps.new (0, 0)
        (index_cost index.now.interval (length index.now.items)) }
{
    match *from {
        Bound::Included(start) => index.position(&SeekBound::below(start), steps),
        Bound::Excluded(start) => index.position(&SeekBound::up_to(start), steps),
        Bound::Unbounded => 0,
    }
}

// How many parts end up to the end of a range. What is examined is added to `steps`.
fn parts_up_to(index: &IndexBlockRef<'_>, to: &Bound<&[u8]>, steps: &mut Steps) -> usize
    ensures value { result
        ≡ count_by (λ h. is_up_to (bound_map (λ k. k.now) to.now) h.end_key) index.now.items }
    ensures counts { CountsBetween steps.old steps.new (0, 0)
        (index_cost index.now.interval (length index.now.items)) }
{
    match *to {
        Bound::Included(end) => index.position(&SeekBound::up_to(end), steps),
        Bound::Excluded(end) => index.position(&SeekBound::below(end), steps),
        Bound::Unbounded => index.len(),
    }
}

// The parts that can have a key between two bounds, by the index of the parts alone. What is
// examined is added to `steps`.
pub(crate) fn parts_within(
    index: &IndexBlockRef<'_>,
    from: &Bound<&[u8]>,
    to: &Bound<&[u8]>,
    steps: &mut Steps,
) -> Between
    ensures handles { between index.now.items result.lo result.hi
        ≡ handles_within (range_by (λ k. k.now) from.now to.now) index.now.items }
    ensures inside { result.hi ≤ length index.now.items }
    ensures counts { AddsUpTo (tally_by steps.old) (tally_by steps.new)
        (search_cost index.now.interval (length index.now.items)) }
{
    let lo = parts_before(index, from, steps);
    let len = index.len();
    let last = parts_up_to(index, to, steps);
    let hi = if last < len { last + 1 } else { len };
    Between { lo, hi }
}

// Takes the index at an end.
pub(crate) fn take_index(back: bool, between: &mut Between) -> usize
    requires { between.old.lo < between.old.hi }
    ensures index { result ≡ index_at back between.old.lo between.old.hi }
    ensures rest { (between.new.lo ≡ lo_at back between.old.lo)
        × (between.new.hi ≡ hi_at back between.old.hi) }
{
    if back {
        between.hi -= 1;
        between.hi
    } else {
        between.lo += 1;
        between.lo - 1
    }
}
