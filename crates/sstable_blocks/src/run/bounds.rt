//! The bounds of a scan.
ghost use Rattle.std.specs.Prelude.{◌≡◌, ◌+◌, ◌*◌, ◌≤◌, length};
ghost use Rattle.sst_base.specs.Counted.{CountsBetween, IsZero};
ghost use Rattle.sst_block_core.specs.Intervals.{digits};
ghost use Rattle.sst_block_core.specs.Pointers.{head_count};
ghost use Rattle.sst_block_core.specs.Window.{items_left, whole};
ghost use Rattle.sstable_blocks.specs.Scans.{AllWithin, blocks_up_to, end_block, end_entry};
ghost use Rattle.sstable_blocks.specs.Scans.{first_block, first_entry, index_cost, within};
ghost use Rattle.sstable_blocks.specs.Tallies.{IsUpTo, cut_cost, scan_tally};

use super::search::IndexSearch;
use sst_base::{BlockHash, Steps};
use sst_block_core::table::block::bound::Bound as SeekBound;
use sst_block_core::table::data_block::{IntoEntries, Iter};
use std::marker::Model;
use std::ops::Bound;

/// The bounds of a scan. Clauses see the range of keys.
#[derive(Drop)]
pub(crate) struct Bounds<'k> {
    pub(crate) from: Bound<&'k [u8]>,
    pub(crate) to: Bound<&'k [u8]>,
}

impl<'k> Model for Bounds<'k> {
    ghost use Rattle.std.specs.Range.Bound.{bound_map};
    ghost use Rattle.sstable_blocks.specs.Scans.{KeyRange};

    ghost Value = { KeyRange };

    ghost view = { λ b. record {
      from = bound_map (λ k. k.now) b.from;
      to = bound_map (λ k. k.now) b.to;
    } };
}

impl<'k> Bounds<'k> {
    /// Returns the index of the first block that can have a key in the range. What is examined is
    /// added to `steps`.
    pub(crate) fn first_block(&self, index: &IndexSearch<'_>, steps: &mut Steps) -> usize
        ensures value { result ≡ first_block self.now index.now.items }
        ensures counts { CountsBetween steps.old steps.new (0, 0)
            (index_cost index.now.interval (length index.now.items)) }
    {
        match self.from {
            Bound::Included(start) => index.position(&SeekBound::below(start), steps),
            Bound::Excluded(start) => index.position(&SeekBound::up_to(start), steps),
            Bound::Unbounded => 0,
        }
    }

    // How many blocks end up to the end of the range.
    fn blocks_up_to(&self, index: &IndexSearch<'_>, steps: &mut Steps) -> usize
        ensures value { result ≡ blocks_up_to self.now index.now.items }
        ensures counts { CountsBetween steps.old steps.new (0, 0)
            (index_cost index.now.interval (length index.now.items)) }
    {
        match self.to {
            Bound::Included(end) => index.position(&SeekBound::up_to(end), steps),
            Bound::Excluded(end) => index.position(&SeekBound::below(end), steps),
            Bound::Unbounded => index.len(),
        }
    }

    /// Returns the index after the last block that can have a key in the range. What is examined
    /// is added to `steps`.
    pub(crate) fn end_block(&self, index: &IndexSearch<'_>, steps: &mut Steps) -> usize
        ensures value { result ≡ end_block self.now index.now.items }
        ensures inside { result ≤ length index.now.items }
        ensures counts { CountsBetween steps.old steps.new (0, 0)
            (index_cost index.now.interval (length index.now.items)) }
    {
        let len = index.len();
        let last = self.blocks_up_to(index, steps);
        if last < len { last + 1 } else { len }
    }

    // Moves the front of a block's entries to the start of the range.
    fn cut_front<H: BlockHash>(&self, entries: &mut IntoEntries<H>)
        requires { entries.old.window.lo ≡ 0 }
        ensures window { entries.new.window ≡ record entries.old.window {
          lo = first_entry self.now entries.old.window.list;
        } }
        ensures interval { entries.new.interval ≡ entries.old.interval }
        ensures counts { CountsBetween entries.old.steps entries.new.steps (0, 0) (
          digits (head_count entries.old.interval (length entries.old.window.list)),
          entries.old.interval + 1,
        ) }
    {
        match self.from {
            Bound::Included(start) => {
                entries.seek(start);
            }
            Bound::Excluded(start) => {
                entries.seek_exclusive(start);
            }
            Bound::Unbounded => {}
        }
    }

    // Moves the back of a block's entries to the end of the range.
    fn cut_back<H: BlockHash>(&self, entries: &mut IntoEntries<H>)
        requires { entries.old.window.hi ≡ length entries.old.window.list }
        ensures window { entries.new.window ≡ record entries.old.window {
          hi = end_entry self.now entries.old.window.list;
        } }
        ensures interval { entries.new.interval ≡ entries.old.interval }
        ensures counts { CountsBetween entries.old.steps entries.new.steps (0, 0) (
          digits (head_count entries.old.interval (length entries.old.window.list)),
          2 * entries.old.interval + 2,
        ) }
    {
        match self.to {
            Bound::Included(end) => {
                entries.seek_upper(end);
            }
            Bound::Excluded(end) => {
                entries.seek_upper_exclusive(end);
            }
            Bound::Unbounded => {}
        }
    }

    /// Leaves the entries of a block that are in the range.
    pub(crate) fn cut<H: BlockHash>(&self, entries: &mut IntoEntries<H>)
        requires whole { entries.old.window ≡ whole entries.old.window.list }
        requires fresh { IsZero entries.old.steps }
        ensures left { items_left entries.new.window ≡ within self.now entries.old.window.list }
        ensures all { AllWithin self.now (items_left entries.new.window) }
        ensures cost { IsUpTo (scan_tally entries.new)
            (cut_cost entries.old.interval (length entries.old.window.list)) }
    {
        // The entries are ordered.
        let _count = entries.count_left();
        self.cut_front(entries);
        self.cut_back(entries);
    }

    // The same for entries that borrow their block.
    fn cut_iter_front(&self, iter: &mut Iter<'_>)
        requires { iter.old.window.lo ≡ 0 }
        ensures payload { iter.new.payload ≡ iter.old.payload }
        ensures window { iter.new.window ≡ record iter.old.window {
          lo = first_entry self.now iter.old.window.list;
        } }
        ensures interval { iter.new.interval ≡ iter.old.interval }
        ensures counts { CountsBetween iter.old.steps iter.new.steps (0, 0) (
          digits (head_count iter.old.interval (length iter.old.window.list)),
          iter.old.interval + 1,
        ) }
    {
        match self.from {
            Bound::Included(start) => {
                iter.seek(start);
            }
            Bound::Excluded(start) => {
                iter.seek_exclusive(start);
            }
            Bound::Unbounded => {}
        }
    }

    // The same for entries that borrow their block.
    fn cut_iter_back(&self, iter: &mut Iter<'_>)
        requires { iter.old.window.hi ≡ length iter.old.window.list }
        ensures payload { iter.new.payload ≡ iter.old.payload }
        ensures window { iter.new.window ≡ record iter.old.window {
          hi = end_entry self.now iter.old.window.list;
        } }
        ensures interval { iter.new.interval ≡ iter.old.interval }
        ensures counts { CountsBetween iter.old.steps iter.new.steps (0, 0) (
          digits (head_count iter.old.interval (length iter.old.window.list)),
          2 * iter.old.interval + 2,
        ) }
    {
        match self.to {
            Bound::Included(end) => {
                iter.seek_upper(end);
            }
            Bound::Excluded(end) => {
                iter.seek_upper_exclusive(end);
            }
            Bound::Unbounded => {}
        }
    }

    /// The same for entries that borrow their block.
    pub(crate) fn cut_iter(&self, iter: &mut Iter<'_>)
        requires whole { iter.old.window ≡ whole iter.old.window.list }
        requires fresh { IsZero iter.old.steps }
        ensures payload { iter.new.payload ≡ iter.old.payload }
        ensures left { items_left iter.new.window ≡ within self.now iter.old.window.list }
        ensures cost { IsUpTo (scan_tally iter.new)
            (cut_cost iter.old.interval (length iter.old.window.list)) }
    {
        // The entries are ordered.
        let _count = iter.count_left();
        self.cut_iter_front(iter);
        self.cut_iter_back(iter);
    }
}
