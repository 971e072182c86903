//! Scans of tables: the entries within a range of keys, from both ends.
ghost use Rattle.std.specs.Prelude.{◌≡◌, true, IfOk, IfSome};
ghost use Rattle.std.specs.declared.ops.Bound.TheVariants.{Unbounded};
ghost use Rattle.sstable_blocks.specs.RunReading.{hashes};
ghost use Rattle.sstable_blocks.specs.Scans.{BeginsTableScan, EndsBy, IsSameScan, ReadsFirst};
ghost use Rattle.sstable_blocks.specs.Scans.{ReadsLast, UsesScan, between, in_range, most_left};
ghost use Rattle.sstable_blocks.specs.Scans.{range_by};
ghost use Rattle.sstable_blocks.specs.Ends.{IsFewer};
ghost use Rattle.sstable_blocks.specs.Tallies.{Adds, CountsFirst, CountsLast, least_taken};
ghost use Rattle.sstable_blocks.specs.Tallies.{most_taken};

use super::blocks::add_steps;
use super::bounds::Bounds;
use super::cut::Cut;
use super::ends::{Between, step_back, step_front};
use super::laws::sound_is_scanned;
use super::search::IndexSearch;
use super::source::FrameSource;
use super::table::Table;
use sst_base::{BlockHash, Error, InternalValue, Result, Steps};
use sst_block_core::table::data_block::IntoEntries;
use std::alloc::Global;
use std::marker::Model;
use std::ops::Bound;

/// A scan of a table: gives its entries within a range of user keys, in order, from both ends in
/// any mixture.
///
/// A block is read, verified and checked when it is reached, and those that the index shows to be
/// outside the range are not read. At most two blocks are held, one for each end. An error ends the
/// scan: each later step returns it again.
///
/// Clauses see the table, the range, the entries left of the block opened from the front, the
/// handles of the blocks that were not read, the entries left of the block opened from the back,
/// the error that ended the scan, if one did, and what was counted since the scan was made.
#[derive(Drop)]
pub struct Scan<'k, H: BlockHash, S: FrameSource> {
    cut: Cut<'k, Table<H, S>>,
    front: Option<IntoEntries<H>>,
    middle: Between,
    back: Option<IntoEntries<H>>,
    ended: Option<Error>,
}

impl<'k, H: BlockHash, S: FrameSource> Model for Scan<'k, H, S> {
    ghost use Rattle.sst_block_core.specs.Window.{items_left};
    ghost use Rattle.sstable_blocks.specs.Ends.{AreEnds, ends};
    ghost use Rattle.sstable_blocks.specs.Readings.{table_reading};
    ghost use Rattle.sstable_blocks.specs.RunReading.{hashes};
    ghost use Rattle.sstable_blocks.specs.Scans.{ScanParts, between, left_in};
    ghost use Rattle.sstable_blocks.specs.Tallies.{scan_tally, tally_all, tally_by};

    ghost Value = { ScanParts S };

    ghost view = { λ s. record {
      table = s.cut.run;
      range = s.cut.range;
      front = left_in s.front;
      handles = between s.cut.run.index s.middle.lo s.middle.hi;
      back = left_in s.back;
      ended = s.ended;
      counted = tally_all scan_tally (tally_by s.cut.steps) s.front s.back;
    } };

    ghost invariant = { λ s. AreEnds
        (table_reading (hashes H.hash64 H.hash128) S.bytes S.failures S.reads S.is_reliable) s.cut
        (ends (λ e. items_left e.window) s.front s.middle s.back) };
}

impl<'k, H: BlockHash, S: FrameSource> Scan<'k, H, S> {
    /// Starts a scan of the user keys between two bounds. No block is read yet. A range that ends
    /// before it starts has no keys.
    pub fn new(table: Table<H, S>, from: Bound<&'k [u8]>, to: Bound<&'k [u8]>) -> Scan<'k, H, S>
        ensures { BeginsTableScan (hashes H.hash64 H.hash128) S.bytes table
            (range_by (λ k. k.now) from.entry to.entry) result }
    {
        sound_is_scanned();
        let bounds = Bounds { from, to };
        let index = table.index();
        let index = IndexSearch::new(index.by_ref());
        let mut steps = Steps::new();
        let middle = Between {
            lo: bounds.first_block(&index, &mut steps),
            hi: bounds.end_block(&index, &mut steps),
        };
        Scan {
            cut: Cut {
                run: table,
                bounds,
                steps,
            },
            front: None,
            middle,
            back: None,
            ended: None,
        }
    }

    /// Returns the table, which the scan keeps.
    pub fn table(&self) -> &Table<H, S>
        ensures { result.now ≡ self.now.table }
    {
        &self.cut.run
    }

    /// Returns which blocks were not read, by the indexes of their handles in the index: from the
    /// first up to the second, without it.
    pub fn unread(&self) -> (usize, usize)
        ensures { between self.now.table.index result.0 result.1 ≡ self.now.handles }
    {
        (self.middle.lo, self.middle.hi)
    }

    /// Returns what was counted since the scan was made: the heads that were compared, and the
    /// entries that were decoded, of the index and of the blocks. Of the index these are the
    /// handles of a restart interval up to that of each block that was opened, and what the search
    /// for the ends of the range examined.
    pub fn steps(&self) -> Steps
        ensures heads { result.heads ≡ self.now.counted.heads }
        ensures entries { result.entries ≡ self.now.counted.entries }
    {
        let mut steps = Steps::new();
        steps.add(&self.cut.steps);
        add_steps::<IntoEntries<H>>(&mut steps, &self.front);
        add_steps::<IntoEntries<H>>(&mut steps, &self.back);
        steps
    }

    /// Returns the table.
    pub fn into_table(self) -> Table<H, S>
        ensures { result ≡ self.entry.table }
    {
        self.cut.run
    }

    /// Takes the first entry left, or returns `None` if none is left.
    ///
    /// # Errors
    ///
    /// Those of [`Table::block_at`] for the blocks that are reached, in order, and `Error::Memory`
    /// if an allocation fails. After an error each step returns that error.
    #[inline(always)]
    pub fn next_entry(&mut self, alloc: Global) -> Result<Option<InternalValue>>
        ensures same { IsSameScan self.old self.new }
        ensures source { UsesScan S.bytes S.failures S.reads S.is_reliable
            self.old self.new result }
        ensures in_range { IfOk result (λ x. IfSome x
            (λ entry. in_range self.old.range entry.key.user_key ≡ true)) }
        ensures first { ReadsFirst (hashes H.hash64 H.hash128) S.bytes S.failures S.is_reliable
            self.old self.new result }
        ensures ended { EndsBy self.old.ended self.new.ended result }
        ensures fewer { IfOk result (IsFewer (most_left self.old) (most_left self.new)) }
        ensures looked { Adds self.old.counted self.new.counted (least_taken result) }
        ensures counts { IfSome (S.bytes self.old.table.source)
            (λ all. CountsFirst all self.old.table.interval self.old.counted self.old.handles
            self.new.counted self.new.handles (most_taken result)) }
    {
        if let Some(error) = self.ended {
            return Err(error);
        }
        step_front::<IntoEntries<H>, Cut<'k, Table<H, S>>>(
            alloc,
            &mut self.cut,
            &mut self.front,
            &mut self.middle,
            &mut self.back,
            &mut self.ended,
        )
    }

    /// Takes the last entry left, or returns `None` if none is left.
    ///
    /// # Errors
    ///
    /// Those of [`Table::block_at`] for the blocks that are reached, from the last on, and
    /// `Error::Memory` if an allocation fails. After an error each step returns that error.
    #[inline(always)]
    pub fn next_entry_back(&mut self, alloc: Global) -> Result<Option<InternalValue>>
        ensures same { IsSameScan self.old self.new }
        ensures source { UsesScan S.bytes S.failures S.reads S.is_reliable
            self.old self.new result }
        ensures in_range { IfOk result (λ x. IfSome x
            (λ entry. in_range self.old.range entry.key.user_key ≡ true)) }
        ensures last { ReadsLast (hashes H.hash64 H.hash128) S.bytes S.failures S.is_reliable
            self.old self.new result }
        ensures ended { EndsBy self.old.ended self.new.ended result }
        ensures fewer { IfOk result (IsFewer (most_left self.old) (most_left self.new)) }
        ensures looked { Adds self.old.counted self.new.counted (least_taken result) }
        ensures counts { IfSome (S.bytes self.old.table.source)
            (λ all. CountsLast all self.old.table.interval self.old.counted self.old.handles
            self.new.counted self.new.handles (most_taken result)) }
    {
        if let Some(error) = self.ended {
            return Err(error);
        }
        step_back::<IntoEntries<H>, Cut<'k, Table<H, S>>>(
            alloc,
            &mut self.cut,
            &mut self.back,
            &mut self.middle,
            &mut self.front,
            &mut self.ended,
        )
    }
}

impl<H: BlockHash, S: FrameSource> Table<H, S> {
    /// Scans all entries: see [`Scan`]. [`Scan::into_table`] returns the table.
    pub fn scan<'k>(self) -> Scan<'k, H, S>
        ensures { BeginsTableScan (hashes H.hash64 H.hash128) S.bytes self
            (record { from = Unbounded; to = Unbounded }) result }
    {
        Scan::new(self, Bound::Unbounded, Bound::Unbounded)
    }

    /// Scans the entries whose user keys are between two bounds: see [`Scan`].
    pub fn scan_range<'k>(self, from: Bound<&'k [u8]>, to: Bound<&'k [u8]>) -> Scan<'k, H, S>
        ensures { BeginsTableScan (hashes H.hash64 H.hash128) S.bytes self
            (range_by (λ k. k.now) from.entry to.entry) result }
    {
        Scan::new(self, from, to)
    }
}
