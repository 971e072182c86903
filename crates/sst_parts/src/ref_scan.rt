//! Scans of parted tables over borrowed bytes: the entries within a range of keys, from both ends,
//! a part at a time, without checks and without memory.
ghost use Rattle.std.specs.Prelude.{◌≡◌, ◌+◌, ◌++◌, ◌<◌, ◌≤◌, [], None, false, length};
ghost use Rattle.std.specs.Prelude.{nat_lt, refl};
ghost use Rattle.std.specs.Iterator.{YieldsFirst, YieldsLast, item_count};
ghost use Rattle.std.specs.declared.ops.Bound.TheVariants.{Unbounded};
ghost use Rattle.sst_parts.specs.RefScans.{BeginsRefScan, RefScansFirst, RefScansLast, left_from};
ghost use Rattle.sst_parts.specs.RefScans.{counted_by, opened_counts, opened_left};
ghost use Rattle.sst_parts.specs.RefScans.{unreached_entries};
ghost use Rattle.sstable_blocks.specs.BlockReading.{seen_from};
ghost use Rattle.sstable_blocks.specs.Prelude.{found_item};
ghost use Rattle.sstable_blocks.specs.RunReading.{hashes};
ghost use Rattle.sstable_blocks.specs.Scans.{handles_within, range_by};
ghost use Rattle.sstable_blocks.specs.Tallies.{Adds, IsUpTo, search_cost, tally_by};

use crate::laws::parted_is_scanned;
use crate::part_range::{parts_within, take_index};
use crate::parted_ref::PartedRef;
use sstable_blocks::double_ended_peekable::ListIterator;
use sstable_blocks::run::RunScan;
use sstable_blocks::run::ends::Between;
use sstable_blocks::{BlockHash, EntryView, InternalValue, Steps};
use std::marker::Model;
use std::ops::Bound;

// Adds what was counted of a part, if it was opened.
fn add_opened<H: BlockHash>(steps: &mut Steps, opened: &Option<RunScan<'_, '_, H>>)
    ensures heads { steps.new.heads ≡ steps.old.heads + (opened_counts opened.now).heads }
    ensures entries { steps.new.entries
        ≡ steps.old.entries + (opened_counts opened.now).entries }
{
    if let Some(scan) = opened {
        steps.add(&scan.steps());
    }
}

// Takes the first entry left of a part, or the last one, if there is one.
#[inline(always)]
fn take_from<'a, 'k, H: BlockHash>(
    scan: &mut RunScan<'a, 'k, H>,
    back: bool,
) -> Option<EntryView<'a>>
    ensures first { YieldsFirst (seen_from back) scan.old.left result scan.new.left }
    ensures looked { Adds scan.old.counted scan.new.counted (found_item result) }
{
    if back { scan.next_back() } else { scan.next() }
}

// The same where a part was opened.
#[inline(always)]
fn take_of<'a, 'k, H: BlockHash>(
    opened: &mut Option<RunScan<'a, 'k, H>>,
    back: bool,
) -> Option<EntryView<'a>>
    ensures first { YieldsFirst (seen_from back) (opened_left opened.old) result
        (opened_left opened.new) }
    ensures looked { Adds (opened_counts opened.old) (opened_counts opened.new)
        (found_item result) }
{
    match opened {
        Some(scan) => take_from(scan, back),
        None => None,
    }
}

// The parts that a scan has not reached: those from an index up to another, without it. Clauses see
// the table, the range of keys, the handles of these parts, and what was counted of the index of
// the parts and of those that are no longer open.
#[derive(Drop)]
struct UnreachedRef<'a, 'k, H: BlockHash> {
    table: PartedRef<'a, H>,
    from: Bound<&'k [u8]>,
    to: Bound<&'k [u8]>,
    rest: Between,
    steps: Steps,
}

impl<'a, 'k, H: BlockHash> Model for UnreachedRef<'a, 'k, H> {
    ghost use Rattle.std.specs.Prelude.{◌≤◌, length};
    ghost use Rattle.sst_parts.specs.RefScans.{UnreachedRefParts};
    ghost use Rattle.sstable_blocks.specs.Scans.{between, range_by};

    ghost Value = { UnreachedRefParts };

    ghost view = { λ u. record {
      table = u.table;
      range = range_by (λ k. k.now) u.from u.to;
      handles = between u.table.tops u.rest.lo u.rest.hi;
      steps = u.steps;
    } };

    ghost invariant = { λ u. u.rest.hi ≤ length u.table.tops };
}

impl<'a, 'k, H: BlockHash> UnreachedRef<'a, 'k, H> {
    // The parts of a table that can have a key between two bounds.
    fn new(
        table: PartedRef<'a, H>,
        from: Bound<&'k [u8]>,
        to: Bound<&'k [u8]>,
    ) -> UnreachedRef<'a, 'k, H>
        ensures table { result.table ≡ table.entry }
        ensures range { result.range ≡ range_by (λ k. k.now) from.entry to.entry }
        ensures handles { result.handles
            ≡ handles_within (range_by (λ k. k.now) from.entry to.entry) table.entry.tops }
        ensures counts { IsUpTo (tally_by result.steps)
            (search_cost table.entry.interval (length table.entry.tops)) }
    {
        let mut steps = Steps::new();
        let rest = parts_within(table.index(), &from, &to, &mut steps);
        UnreachedRef {
            table,
            from,
            to,
            rest,
            steps,
        }
    }

    // Whether a part was not reached.
    fn has_part(&self) -> bool
        ensures { result ≡ nat_lt 0 (length self.now.handles) }
    {
        self.rest.lo < self.rest.hi
    }

    // Reaches the next part from an end, and opens it at that end of the scan.
    fn open_next(&mut self, back: bool, near: &mut Option<RunScan<'a, 'k, H>>)
        requires { 1 ≤ length self.old.handles }
        ensures table { self.new.table ≡ self.old.table }
        ensures range { self.new.range ≡ self.old.range }
        ensures opened { seen_from back (unreached_entries (hashes H.hash64 H.hash128) self.old)
            ≡ seen_from back (opened_left near.new)
            ++ seen_from back (unreached_entries (hashes H.hash64 H.hash128) self.new) }
        ensures fewer { length self.new.handles < length self.old.handles }
        ensures looked { Adds (counted_by near.old self.old None) (counted_by near.new self.new None) 1 }
    {
        let index = take_index(back, &mut self.rest);
        add_opened(&mut self.steps, near);
        let scan = self
            .table
            .scan_part(index, self.from, self.to, &mut self.steps);
        *near = Some(scan);
    }

    // Keeps what was counted of the part at an end, if one is open.
    fn keep_steps(&mut self, near: &Option<RunScan<'a, 'k, H>>)
        ensures rest { self.new ≡ record self.old { steps = self.new.steps } }
        ensures heads { self.new.steps.heads
            ≡ self.old.steps.heads + (opened_counts near.now).heads }
        ensures entries { self.new.steps.entries
            ≡ self.old.steps.entries + (opened_counts near.now).entries }
    {
        add_opened(&mut self.steps, near);
    }
}

// Opens parts from an end on until one has an entry, and takes it. Where no part is left between
// the ends, it is taken from the part of the other end.
#[inline(never)]
fn turn<'a, 'k, H: BlockHash>(
    back: bool,
    unreached: &mut UnreachedRef<'a, 'k, H>,
    near: &mut Option<RunScan<'a, 'k, H>>,
    far: &mut Option<RunScan<'a, 'k, H>>,
) -> Option<EntryView<'a>>
    requires { seen_from back (opened_left near.old) ≡ [] }
    ensures table { unreached.new.table ≡ unreached.old.table }
    ensures range { unreached.new.range ≡ unreached.old.range }
    ensures first { YieldsFirst (λ xs. xs)
        (left_from (hashes H.hash64 H.hash128) back near.old unreached.old far.old) result
        (left_from (hashes H.hash64 H.hash128) back near.new unreached.new far.new) }
    ensures looked { Adds (counted_by near.old unreached.old far.old)
        (counted_by near.new unreached.new far.new) (found_item result) }
{
    'open: while unreached.has_part() {
        unreached.open_next(back, near);
        if let Some(entry) = take_of(near, back) {
            return Some(entry);
        }
    }
    unreached.keep_steps(near);
    *near = None;
    take_of(far, back)
}

// Takes the first entry left, seen from an end, if there is one.
#[inline(always)]
fn step<'a, 'k, H: BlockHash>(
    back: bool,
    unreached: &mut UnreachedRef<'a, 'k, H>,
    near: &mut Option<RunScan<'a, 'k, H>>,
    far: &mut Option<RunScan<'a, 'k, H>>,
) -> Option<EntryView<'a>>
    ensures table { unreached.new.table ≡ unreached.old.table }
    ensures range { unreached.new.range ≡ unreached.old.range }
    ensures first { YieldsFirst (λ xs. xs)
        (left_from (hashes H.hash64 H.hash128) back near.old unreached.old far.old) result
        (left_from (hashes H.hash64 H.hash128) back near.new unreached.new far.new) }
    ensures looked { Adds (counted_by near.old unreached.old far.old)
        (counted_by near.new unreached.new far.new) (found_item result) }
{
    if let Some(entry) = take_of(near, back) {
        return Some(entry);
    }
    turn(back, unreached, near, far)
}

// Takes the last entry left, if there is one.
#[inline(always)]
fn step_back<'a, 'k, H: BlockHash>(
    front: &mut Option<RunScan<'a, 'k, H>>,
    unreached: &mut UnreachedRef<'a, 'k, H>,
    back: &mut Option<RunScan<'a, 'k, H>>,
) -> Option<EntryView<'a>>
    ensures table { unreached.new.table ≡ unreached.old.table }
    ensures range { unreached.new.range ≡ unreached.old.range }
    ensures last { YieldsLast (λ xs. xs)
        (left_from (hashes H.hash64 H.hash128) false front.old unreached.old back.old) result
        (left_from (hashes H.hash64 H.hash128) false front.new unreached.new back.new) }
    ensures looked { Adds (counted_by front.old unreached.old back.old)
        (counted_by front.new unreached.new back.new) (found_item result) }
{
    step(true, unreached, back, front)
}

/// A scan of a parted table over borrowed bytes: gives its entries within a range of user keys, in
/// order, from both ends in any mixture. Each borrows the bytes; no step takes memory, and none
/// fails.
///
/// A part is opened when it is reached, and a block of it when that is reached, without a checksum
/// and a check. Parts that the index of the parts shows to be outside the range are not opened. At
/// most two parts are open, one for each end, and where the ends meet in a part both take from it.
///
/// Clauses see the table, the range, the entries left, and what was counted since the scan was made.
#[derive(Drop)]
pub struct PartedRefScan<'a, 'k, H: BlockHash> {
    unreached: UnreachedRef<'a, 'k, H>,
    front: Option<RunScan<'a, 'k, H>>,
    back: Option<RunScan<'a, 'k, H>>,
}

impl<'a, 'k, H: BlockHash> Model for PartedRefScan<'a, 'k, H> {
    ghost use Rattle.std.specs.Prelude.{false};
    ghost use Rattle.sst_parts.specs.RefScans.{RefScanParts, counted_by, left_from};
    ghost use Rattle.sstable_blocks.specs.RunReading.{hashes};

    ghost Value = { RefScanParts };

    ghost view = { λ s. record {
      table = s.unreached.table;
      range = s.unreached.range;
      left = left_from (hashes H.hash64 H.hash128) false s.front s.unreached s.back;
      counted = counted_by s.front s.unreached s.back;
    } };
}

impl<'a, 'k, H: BlockHash> PartedRefScan<'a, 'k, H> {
    /// Returns what was counted since the scan was made: the heads that were compared, and the
    /// entries that were decoded, of the index of the parts, and of the parts, as
    /// [`RunScan::steps`] counts them.
    pub fn steps(&self) -> Steps
        ensures heads { result.heads ≡ self.now.counted.heads }
        ensures entries { result.entries ≡ self.now.counted.entries }
    {
        let mut steps = Steps::new();
        steps.add(&self.unreached.steps);
        add_opened(&mut steps, &self.front);
        add_opened(&mut steps, &self.back);
        steps
    }
}

/// Takes the first entry left, if there is one.
impl<'a, 'k, H: BlockHash> Iterator for PartedRefScan<'a, 'k, H> {
    type Item = EntryView<'a>;

    ghost next_gives = { RefScansFirst };

    ghost remaining = { item_count (λ s. s.left) };

    #[inline(always)]
    fn next(&mut self) -> Option<EntryView<'a>> {
        step(false, &mut self.unreached, &mut self.front, &mut self.back)
    }
}

/// Takes the last entry left, if there is one.
impl<'a, 'k, H: BlockHash> DoubleEndedIterator for PartedRefScan<'a, 'k, H> {
    ghost next_back_gives = { RefScansLast };

    #[inline(always)]
    fn next_back(&mut self) -> Option<EntryView<'a>> {
        step_back(&mut self.front, &mut self.unreached, &mut self.back)
    }
}

/// The entries left, so that the scan may be peeked at.
impl<'a, 'k, H: BlockHash> ListIterator for PartedRefScan<'a, 'k, H> {
    type Value = InternalValue;

    ghost value_of = { λ _ entry. entry };

    ghost items = { λ s. s.left };

    ghost may_next = { λ _. tt };

    ghost may_next_back = { λ _. tt };

    ghost gives_first = { λ s r t step. step.first };

    ghost gives_last = { λ s r t step. step.last };

    ghost keeps_values = { λ s r t step. refl };

    ghost keeps_values_back = { λ s r t step. refl };
}

impl<'a, H: BlockHash> PartedRef<'a, H> {
    /// Scans all entries: see [`PartedRefScan`].
    pub fn scan<'k>(&self) -> PartedRefScan<'a, 'k, H>
        ensures { BeginsRefScan (hashes H.hash64 H.hash128) self.now
            (record { from = Unbounded; to = Unbounded }) result }
    {
        self.scan_range(Bound::Unbounded, Bound::Unbounded)
    }

    /// Scans the entries whose user keys are between two bounds: see [`PartedRefScan`]. A range
    /// that ends before it starts has no keys.
    pub fn scan_range<'k>(
        &self,
        from: Bound<&'k [u8]>,
        to: Bound<&'k [u8]>,
    ) -> PartedRefScan<'a, 'k, H>
        ensures { BeginsRefScan (hashes H.hash64 H.hash128) self.now
            (range_by (λ k. k.now) from.entry to.entry) result }
    {
        parted_is_scanned();
        self.note_tops();
        PartedRefScan {
            unreached: UnreachedRef::new(self.again(), from, to),
            front: None,
            back: None,
        }
    }
}
