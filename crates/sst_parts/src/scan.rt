//! Scans of parted tables: the entries within a range of keys, from both ends, a part at a time.
ghost use Rattle.std.specs.Prelude.{◌≡◌, ◌+◌, ◌++◌, ◌<◌, ◌≤◌, true, if◌then◌else◌, nat_lt, length};
ghost use Rattle.std.specs.Prelude.{IfOk, IfSome};
ghost use Rattle.std.specs.Prelude.{OnOk};
ghost use Rattle.std.specs.Option.{option_map};
ghost use Rattle.std.specs.Result.{result_err};
ghost use Rattle.std.specs.declared.ops.Bound.TheVariants.{Unbounded};
ghost use Rattle.sst_parts.specs.PartScans.{BeginsPartScan, IsSamePartScan, OpensNext};
ghost use Rattle.sst_parts.specs.PartScans.{ReadsFirstPart, ReadsLastPart, UsesPartScan, UsesParts};
ghost use Rattle.sst_parts.specs.PartScans.{near_left, near_most, reads_in};
ghost use Rattle.sstable_blocks.specs.BlockReading.{seen_from};
ghost use Rattle.sstable_blocks.specs.Ends.{IsFewer};
ghost use Rattle.sstable_blocks.specs.RunReading.{hashes};
ghost use Rattle.sstable_blocks.specs.Scans.{EndsBy, GivesFirst, between, handles_within, in_range};
ghost use Rattle.sstable_blocks.specs.Scans.{range_by};

use crate::laws::parted_is_scanned;
use crate::part_range::{parts_within, take_index};
use crate::scan_end::ScanEnd;
use crate::table::PartedTable;
use sstable_blocks::run::ends::Between;
use sstable_blocks::run::{FrameSource, MemorySource, Scan};
use sstable_blocks::{BlockHash, Error, InternalValue, Result, Steps};
use std::alloc::Global;
use std::marker::Model;
use std::ops::Bound;

// The parts that a scan has not reached: those from an index up to another, without it. Clauses see
// the table and the handles of these parts.
#[derive(Drop)]
struct Unreached<H: BlockHash, S: FrameSource> {
    table: PartedTable<H, S>,
    rest: Between,
}

impl<H: BlockHash, S: FrameSource> Model for Unreached<H, S> {
    ghost use Rattle.std.specs.Prelude.{◌≤◌, length};
    ghost use Rattle.sst_parts.specs.PartScans.{UnreachedParts};
    ghost use Rattle.sstable_blocks.specs.Scans.{between};

    ghost Value = { UnreachedParts S };

    ghost view = { λ u. record {
      table = u.table;
      handles = between u.table.tops u.rest.lo u.rest.hi;
    } };

    ghost invariant = { λ u. u.rest.hi ≤ length u.table.tops };
}

impl<H: BlockHash, S: FrameSource> Unreached<H, S> {
    // The parts of a table that can have a key between two bounds.
    fn new(table: PartedTable<H, S>, from: &Bound<&[u8]>, to: &Bound<&[u8]>) -> Unreached<H, S>
        ensures table { result.table ≡ table }
        ensures handles { result.handles
            ≡ handles_within (range_by (λ k. k.now) from.now to.now) table.tops }
    {
        let rest = parts_within(&table.index().by_ref(), from, to, &mut Steps::new());
        Unreached { table, rest }
    }

    // Whether a part was not reached.
    fn has_part(&self) -> bool
        ensures { result ≡ nat_lt 0 (length self.now.handles) }
    {
        self.rest.lo < self.rest.hi
    }

    // Reaches the next part from an end: reads it, and opens it at that end of the scan.
    fn open_next(&mut self, alloc: Global, back: bool, near: &mut ScanEnd<'_, H>) -> Result<()>
        requires { 1 ≤ length self.old.handles }
        ensures source { UsesParts S.bytes S.failures S.reads S.is_reliable self.old self.new
            result }
        ensures range { near.new.range ≡ near.old.range }
        ensures exact { IfSome (S.bytes self.old.table.source)
            (λ all. OpensNext (hashes H.hash64 H.hash128) all back
            (S.failures self.old.table.source < S.failures self.new.table.source)
            (S.is_reliable self.old.table.source) near.old.range self.old.handles self.new.handles
            result near.new.reads) }
        ensures most { OnOk result
            (near_most near.new self.new.handles ≤ near_most near.old self.old.handles) }
        ensures fewer { length self.new.handles < length self.old.handles }
    {
        let index = take_index(back, &mut self.rest);
        let bytes = self.table.part_at(alloc, index)?;
        near.open(alloc, bytes)
    }
}

// Takes the first entry left of the part at an end and of those that were not reached, seen from
// that end, or returns `None` if none is left.
fn reach<H: BlockHash, S: FrameSource>(
    alloc: Global,
    back: bool,
    unreached: &mut Unreached<H, S>,
    near: &mut ScanEnd<'_, H>,
) -> Result<Option<InternalValue>>
    ensures source { UsesParts S.bytes S.failures S.reads S.is_reliable unreached.old unreached.new
        result }
    ensures range { near.new.range ≡ near.old.range }
    ensures in_range { IfOk result (λ x. IfSome x
        (λ entry. in_range near.old.range entry.key.user_key ≡ true)) }
    ensures exact { IfSome (S.bytes unreached.old.table.source) (λ all. GivesFirst
        (S.failures unreached.old.table.source < S.failures unreached.new.table.source)
        (S.is_reliable unreached.old.table.source)
        (near_left (hashes H.hash64 H.hash128) all back near.old unreached.old.handles)
        (near_left (hashes H.hash64 H.hash128) all back near.new unreached.new.handles) result) }
    ensures fewer { IfOk result (IsFewer (near_most near.old unreached.old.handles)
        (near_most near.new unreached.new.handles)) }
{
    'open: loop {
        if let Some(entry) = near.take(alloc, back)? {
            return Ok(Some(entry));
        }
        if !unreached.has_part() {
            return Ok(None);
        }
        unreached.open_next(alloc, back, near)?;
    }
}

// Takes the first entry left, seen from an end, or returns `None` if none is left. Where no part is
// left between the ends, it is taken from the part of the other end.
fn step<H: BlockHash, S: FrameSource>(
    alloc: Global,
    back: bool,
    unreached: &mut Unreached<H, S>,
    near: &mut ScanEnd<'_, H>,
    far: &mut ScanEnd<'_, H>,
) -> Result<Option<InternalValue>>
    requires { far.old.range ≡ near.old.range }
    ensures source { UsesParts S.bytes S.failures S.reads S.is_reliable unreached.old unreached.new
        result }
    ensures range { (near.new.range ≡ near.old.range) × (far.new.range ≡ far.old.range) }
    ensures in_range { IfOk result (λ x. IfSome x
        (λ entry. in_range near.old.range entry.key.user_key ≡ true)) }
    ensures exact { IfSome (S.bytes unreached.old.table.source) (λ all. GivesFirst
        (S.failures unreached.old.table.source < S.failures unreached.new.table.source)
        (S.is_reliable unreached.old.table.source)
        (near_left (hashes H.hash64 H.hash128) all back near.old unreached.old.handles
        ++ seen_from back far.old.reads)
        (near_left (hashes H.hash64 H.hash128) all back near.new unreached.new.handles
        ++ seen_from back far.new.reads) result) }
    ensures fewer { IfOk result
        (IsFewer (near_most near.old unreached.old.handles + far.old.most)
        (near_most near.new unreached.new.handles + far.new.most)) }
{
    if let Some(entry) = reach(alloc, back, unreached, near)? {
        return Ok(Some(entry));
    }
    far.take(alloc, back)
}

/// A scan of a parted table: gives its entries within a range of user keys, in order, from both
/// ends in any mixture.
///
/// A part is read whole when it is reached, by one frame, and each of its blocks is verified and
/// checked when that is reached. Parts that the index of the parts shows to be outside the range
/// are not read. At most two parts are held, one for each end. An error ends the scan: each later
/// step returns it again.
///
/// Clauses see the table, the range, what is left to read of the part opened from the front, the
/// handles of the parts that were not reached, what is left to read of the part opened from the
/// back, the error that ended the scan, if one did, and at most how many entries are left.
#[derive(Drop)]
pub struct PartedScan<'k, H: BlockHash, S: FrameSource> {
    unreached: Unreached<H, S>,
    front: ScanEnd<'k, H>,
    back: ScanEnd<'k, H>,
    ended: Option<Error>,
}

impl<'k, H: BlockHash, S: FrameSource> Model for PartedScan<'k, H, S> {
    ghost use Rattle.std.specs.Prelude.{◌≡◌, ◌+◌};
    ghost use Rattle.sst_parts.specs.PartScans.{PartScanParts, near_most};

    ghost Value = { PartScanParts S };

    ghost view = { λ s. record {
      table = s.unreached.table;
      range = s.front.range;
      front = s.front.reads;
      handles = s.unreached.handles;
      back = s.back.reads;
      ended = s.ended;
      most = near_most s.front s.unreached.handles + s.back.most;
    } };

    ghost invariant = { λ s. s.back.range ≡ s.front.range };
}

impl<'k, H: BlockHash, S: FrameSource> PartedScan<'k, H, S> {
    /// Starts a scan of the user keys between two bounds. No part is read yet. A range that ends
    /// before it starts has no keys.
    pub fn new(
        table: PartedTable<H, S>,
        from: Bound<&'k [u8]>,
        to: Bound<&'k [u8]>,
    ) -> PartedScan<'k, H, S>
        ensures { BeginsPartScan (hashes H.hash64 H.hash128) S.bytes table
            (range_by (λ k. k.now) from.entry to.entry) result }
    {
        parted_is_scanned();
        let _index = table.index();
        PartedScan {
            unreached: Unreached::new(table, &from, &to),
            front: ScanEnd::new(from, to),
            back: ScanEnd::new(from, to),
            ended: None,
        }
    }

    /// Returns the table, which the scan keeps.
    pub fn table(&self) -> &PartedTable<H, S>
        ensures { result.now ≡ self.now.table }
    {
        &self.unreached.table
    }

    /// Returns which parts were not reached, by their indexes: from the first up to the second,
    /// without it.
    pub fn unread(&self) -> (usize, usize)
        ensures { between self.now.table.tops result.0 result.1 ≡ self.now.handles }
    {
        (self.unreached.rest.lo, self.unreached.rest.hi)
    }

    /// Returns the scan of the part that was opened from the back, or else from the front, if one
    /// was.
    pub fn opened(&self, back: bool) -> Option<&Scan<'k, H, MemorySource>>
        ensures { (if back then self.now.back else self.now.front)
            ≡ reads_in (hashes H.hash64 H.hash128) (option_map (λ s. s.now) result) }
    {
        if back {
            self.back.opened()
        } else {
            self.front.opened()
        }
    }

    /// Returns the table.
    pub fn into_table(self) -> PartedTable<H, S>
        ensures { result ≡ self.entry.table }
    {
        self.unreached.table
    }

    /// Takes the first entry left, or returns `None` if none is left.
    ///
    /// # Errors
    ///
    /// For the parts that are reached, in order: those of the source for the bytes of the part,
    /// `Error::Truncated` if these are fewer than 24, those of [`Table::open`] for its filter and
    /// its index, and those of [`Table::block_at`] for its blocks. `Error::Io` only where the
    /// source failed. `Error::Memory` if an allocation fails. After an error each step returns that
    /// error.
    ///
    /// [`Table::open`]: sstable_blocks::run::Table::open
    /// [`Table::block_at`]: sstable_blocks::run::Table::block_at
    pub fn next_entry(&mut self, alloc: Global) -> Result<Option<InternalValue>>
        ensures same { IsSamePartScan self.old self.new }
        ensures source { UsesPartScan S.bytes S.failures S.reads S.is_reliable
            self.old self.new result }
        ensures in_range { IfOk result (λ x. IfSome x
            (λ entry. in_range self.old.range entry.key.user_key ≡ true)) }
        ensures first { ReadsFirstPart (hashes H.hash64 H.hash128) S.bytes S.failures S.is_reliable
            self.old self.new result }
        ensures ended { EndsBy self.old.ended self.new.ended result }
        ensures fewer { IfOk result (IsFewer self.old.most self.new.most) }
    {
        if let Some(error) = self.ended {
            return Err(error);
        }
        let found = step(
            alloc,
            false,
            &mut self.unreached,
            &mut self.front,
            &mut self.back,
        );
        self.ended = error_of(&found);
        found
    }

    /// Takes the last entry left, or returns `None` if none is left.
    ///
    /// # Errors
    ///
    /// Those of [`PartedScan::next_entry`] for the parts that are reached, from the last on. After
    /// an error each step returns that error.
    pub fn next_entry_back(&mut self, alloc: Global) -> Result<Option<InternalValue>>
        ensures same { IsSamePartScan self.old self.new }
        ensures source { UsesPartScan S.bytes S.failures S.reads S.is_reliable
            self.old self.new result }
        ensures in_range { IfOk result (λ x. IfSome x
            (λ entry. in_range self.old.range entry.key.user_key ≡ true)) }
        ensures last { ReadsLastPart (hashes H.hash64 H.hash128) S.bytes S.failures S.is_reliable
            self.old self.new result }
        ensures ended { EndsBy self.old.ended self.new.ended result }
        ensures fewer { IfOk result (IsFewer self.old.most self.new.most) }
    {
        if let Some(error) = self.ended {
            return Err(error);
        }
        let found = step(
            alloc,
            true,
            &mut self.unreached,
            &mut self.back,
            &mut self.front,
        );
        self.ended = error_of(&found);
        found
    }
}

// The error of a step, if it is one.
fn error_of<T>(found: &Result<T>) -> Option<Error>
    ensures { result ≡ result_err found.now }
{
    match found {
        Ok(_) => None,
        Err(error) => Some(*error),
    }
}

impl<H: BlockHash, S: FrameSource> PartedTable<H, S> {
    /// Scans all entries: see [`PartedScan`]. [`PartedScan::into_table`] returns the table.
    pub fn scan<'k>(self) -> PartedScan<'k, H, S>
        ensures { BeginsPartScan (hashes H.hash64 H.hash128) S.bytes self
            (record { from = Unbounded; to = Unbounded }) result }
    {
        PartedScan::new(self, Bound::Unbounded, Bound::Unbounded)
    }

    /// Scans the entries whose user keys are between two bounds: see [`PartedScan`].
    pub fn scan_range<'k>(self, from: Bound<&'k [u8]>, to: Bound<&'k [u8]>) -> PartedScan<'k, H, S>
        ensures { BeginsPartScan (hashes H.hash64 H.hash128) S.bytes self
            (range_by (λ k. k.now) from.entry to.entry) result }
    {
        PartedScan::new(self, from, to)
    }
}
