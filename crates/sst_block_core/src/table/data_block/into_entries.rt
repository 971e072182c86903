//! The iterator over the entries of a data block that owns the block.
ghost use Rattle.std.specs.Prelude.{◌≡◌, ◌+◌, ◌-◌, ◌*◌, ◌≤◌};
ghost use Rattle.std.specs.Prelude.{length, IfOk, IfSome, IsOk, IsOkUnless};
ghost use Rattle.std.specs.Iterator.{at_most, YieldsFirst, YieldsLast};
ghost use Rattle.std.proofs.Common.{ap};
ghost use Rattle.sst_base.specs.Counted.{IsZero, CountsBetween, CountsExactly, found_item};
ghost use Rattle.sst_base.specs.Entry.{IsShort};
ghost use Rattle.sst_block_core.specs.Backs.{GivesStep, GivesNextBack, back_cost};
ghost use Rattle.sst_block_core.specs.Entries.{entries};
ghost use Rattle.sst_block_core.specs.Intervals.{digits};
ghost use Rattle.sst_block_core.specs.Kind.{IsOrdered};
ghost use Rattle.sst_block_core.specs.ListSteps.{scan_gives_first, scan_gives_last};
ghost use Rattle.sst_block_core.specs.Pointers.{head_count};
ghost use Rattle.sst_block_core.specs.Scan.{Scan, GivesScanned};
ghost use Rattle.sst_block_core.specs.Window.{found, items_left, seek, seek_exclusive, seek_upper};
ghost use Rattle.sst_block_core.specs.Window.{seek_upper_exclusive, whole, next, next_back};
ghost use Rattle.sst_block_core.specs.Window.{count_passed, has_key, first_left, last_left};
ghost use Rattle.sst_block_core.specs.ParsedEntry.{entry_of, IsParsedEntry};

use crate::table::block::ParsedItem;
use crate::table::block::bound::Bound;
use crate::table::block::ends::Ends;
use crate::table::data_block::DataBlock;
use crate::table::data_block::entry_view::EntryView;
use crate::table::data_block::parsed_item::DataBlockParsedItem;
use sst_base::double_ended_peekable::ListIterator;
use sst_base::{BlockHash, Error, InternalValue, Result, Steps};
use std::alloc::Global;
use std::marker::Model;

/// An iterator over the entries of a data block, as ranges of its payload, that owns the block.
///
/// Clauses see what they see of [`Iter`](crate::table::data_block::Iter): the payload, the restart
/// interval, a window over the entries, and the counters. Every call, at any moment, is a step of
/// the window: a seek moves its own end, wherever that was, and leaves the other end. No step takes
/// memory; only an entry that is made does.
#[derive(Drop)]
pub struct IntoEntries<H: BlockHash> {
    block: DataBlock<H>,
    ends: Ends,
    steps: Steps,
}

impl<H: BlockHash> Model for IntoEntries<H> {
    ghost use Rattle.sst_base.specs.Entry.{Entry};
    ghost use Rattle.sst_block_core.specs.Ends.{AreBlockEnds, scan_over};
    ghost use Rattle.sst_block_core.specs.Entries.{entries};
    ghost use Rattle.sst_block_core.specs.Scan.{Scan};
    ghost use Rattle.sst_block_core.specs.DataBlock.{listed_of_block};

    ghost Value = { Scan Entry };

    ghost view = { λ i. scan_over (listed_of_block i.block) i.steps i.ends };

    ghost invariant = { λ i. AreBlockEnds entries (listed_of_block i.block) i.ends };
}

impl<H: BlockHash> IntoEntries<H> {
    /// Makes an iterator over the entries of a block. Takes no memory.
    pub fn new(block: DataBlock<H>) -> IntoEntries<H>
        ensures payload { result.payload ≡ block.payload }
        ensures interval { result.interval ≡ block.interval }
        ensures window { result.window ≡ whole block.items }
        ensures counts { IsZero result.steps }
    {
        let ends = block.intervals().ends();
        IntoEntries {
            block,
            ends,
            steps: Steps::new(),
        }
    }

    /// Returns the block.
    pub fn block(&self) -> &DataBlock<H>
        ensures payload { result.now.payload ≡ self.now.payload }
        ensures interval { result.now.interval ≡ self.now.interval }
        ensures items { result.now.items ≡ self.now.window.list }
    {
        &self.block
    }

    /// Returns the block, by value.
    pub fn into_block(self) -> DataBlock<H>
        ensures payload { result.payload ≡ self.payload }
        ensures interval { result.interval ≡ self.interval }
        ensures items { result.items ≡ self.window.list }
    {
        self.block
    }

    /// Returns what was counted since the iterator was made.
    pub fn steps(&self) -> &Steps
        ensures { result.now ≡ self.now.steps }
    {
        &self.steps
    }

    /// Returns the number of entries left.
    pub fn count_left(&self) -> usize
        ensures count { result ≡ length (items_left self.now.window) }
        ensures within { self.now.window.hi ≤ length self.now.window.list }
        ensures ordered { IsOrdered entries self.now.window.list }
    {
        self.block.intervals().count_left(&self.ends)
    }

    /// Returns the entry of an item that a step gave. It borrows the block.
    pub fn entry(&self, item: DataBlockParsedItem) -> EntryView<'_>
        requires { IsParsedEntry self.now.payload item }
        ensures { result ≡ entry_of self.now.payload item }
    {
        EntryView::new(self.block.as_slice().as_slice(), item)
    }

    // Moves the front to the first entry after a bound. Returns whether an entry is
    // left, and the first has the needle as its key.
    #[inline(always)]
    fn seek_front(&mut self, bound: &Bound<'_>) -> bool
        ensures payload { self.new.payload ≡ self.old.payload }
        ensures interval { self.new.interval ≡ self.old.interval }
        ensures window { self.new.window ≡ record {
          list = self.old.window.list;
          lo = count_passed entries bound.now.needle.now bound.now.from self.old.window.list;
          hi = self.old.window.hi;
        } }
        ensures answer { result
            ≡ has_key entries bound.now.needle.now (first_left self.new.window) }
        ensures counts { CountsBetween self.old.steps self.new.steps (1, 0) (
          digits (head_count self.old.interval (length self.old.window.list)),
          self.old.interval + 1,
        ) }
    {
        let mut intervals = self.block.intervals();
        let answer = intervals.seek_front(&mut self.ends, bound);
        self.steps.add(intervals.steps());
        answer
    }

    // Moves the back to the first entry after a bound, which is left out. Returns whether an
    // entry is left, and the last has the needle as its key.
    #[inline(always)]
    fn seek_back(&mut self, bound: &Bound<'_>) -> bool
        ensures payload { self.new.payload ≡ self.old.payload }
        ensures interval { self.new.interval ≡ self.old.interval }
        ensures window { self.new.window ≡ record {
          list = self.old.window.list;
          lo = self.old.window.lo;
          hi = count_passed entries bound.now.needle.now bound.now.from self.old.window.list;
        } }
        ensures answer { result
            ≡ has_key entries bound.now.needle.now (last_left self.new.window) }
        ensures counts { CountsBetween self.old.steps self.new.steps (1, 0) (
          digits (head_count self.old.interval (length self.old.window.list)),
          2 * self.old.interval + 2,
        ) }
    {
        let mut intervals = self.block.intervals();
        let answer = intervals.seek_back(&mut self.ends, bound);
        self.steps.add(intervals.steps());
        answer
    }

    /// Moves the front to the first entry whose key is at least the needle. Returns whether an
    /// entry is left and the first one has the needle as its key.
    pub fn seek(&mut self, needle: &[u8]) -> bool
        ensures step { GivesStep self.old self.new (found result)
            (seek entries needle.now self.old.window) }
        ensures counts { CountsBetween self.old.steps self.new.steps (1, 0) (
          digits (head_count self.old.interval (length self.old.window.list)),
          self.old.interval + 1,
        ) }
    {
        let bound = Bound::below(needle);
        self.seek_front(&bound)
    }

    /// Moves the front to the first entry whose key is above the needle. Returns whether an entry
    /// is left.
    pub fn seek_exclusive(&mut self, needle: &[u8]) -> bool
        ensures step { GivesStep self.old self.new (found result)
            (seek_exclusive entries needle.now self.old.window) }
        ensures counts { CountsBetween self.old.steps self.new.steps (1, 0) (
          digits (head_count self.old.interval (length self.old.window.list)),
          self.old.interval + 1,
        ) }
    {
        let passed = Bound::up_to(needle);
        self.seek_front(&passed);
        self.ends.has_left()
    }

    /// Moves the back after the last entry whose key is at most the needle. Returns whether an
    /// entry is left and the last one has the needle as its key.
    pub fn seek_upper(&mut self, needle: &[u8]) -> bool
        ensures step { GivesStep self.old self.new (found result)
            (seek_upper entries needle.now self.old.window) }
        ensures counts { CountsBetween self.old.steps self.new.steps (1, 0) (
          digits (head_count self.old.interval (length self.old.window.list)),
          2 * self.old.interval + 2,
        ) }
    {
        let bound = Bound::up_to(needle);
        self.seek_back(&bound)
    }

    /// Moves the back after the last entry whose key is below the needle. Returns whether an entry
    /// is left.
    pub fn seek_upper_exclusive(&mut self, needle: &[u8]) -> bool
        ensures step { GivesStep self.old self.new (found result)
            (seek_upper_exclusive entries needle.now self.old.window) }
        ensures counts { CountsBetween self.old.steps self.new.steps (1, 0) (
          digits (head_count self.old.interval (length self.old.window.list)),
          2 * self.old.interval + 2,
        ) }
    {
        let passed = Bound::below(needle);
        self.seek_back(&passed);
        self.ends.has_left()
    }

    /// Takes the first entry left, if there is one, and makes it. The entry is taken, and counted,
    /// also where it can't be made.
    ///
    /// # Errors
    ///
    /// `Error::Memory` if an allocation fails. A key and a value of up to 40 bytes each need none.
    #[inline(always)]
    pub fn next_entry(&mut self, alloc: Global) -> Result<Option<InternalValue>>
        ensures payload { self.new.payload ≡ self.old.payload }
        ensures interval { self.new.interval ≡ self.old.interval }
        ensures window { self.new.window ≡ (next self.old.window).0 }
        ensures ok { IfOk result (λ entry. entry ≡ first_left self.old.window) }
        ensures first { IfOk result
            (λ entry. YieldsFirst (λ left. left) (items_left self.old.window) entry
            (items_left self.new.window)) }
        ensures memory { IsOkUnless result Error.Memory }
        ensures few { IfSome (first_left self.old.window) IsShort → IsOk result }
        ensures counts { CountsExactly self.old.steps self.new.steps 0
            (found_item (first_left self.old.window)) }
    {
        let Some(item) = self.next() else {
            return Ok(None);
        };
        match item.materialize(alloc, self.block.as_slice()) {
            Ok(entry) => Ok(Some(entry)),
            Err(_) => Err(Error::Memory),
        }
    }

    /// Takes the last entry left, if there is one, and makes it. The entry is taken, and counted,
    /// also where it can't be made.
    ///
    /// # Errors
    ///
    /// `Error::Memory` if an allocation fails. A key and a value of up to 40 bytes each need none.
    #[inline(always)]
    pub fn next_entry_back(&mut self, alloc: Global) -> Result<Option<InternalValue>>
        ensures payload { self.new.payload ≡ self.old.payload }
        ensures interval { self.new.interval ≡ self.old.interval }
        ensures window { self.new.window ≡ (next_back self.old.window).0 }
        ensures ok { IfOk result (λ entry. entry ≡ last_left self.old.window) }
        ensures last { IfOk result
            (λ entry. YieldsLast (λ left. left) (items_left self.old.window) entry
            (items_left self.new.window)) }
        ensures memory { IsOkUnless result Error.Memory }
        ensures few { IfSome (last_left self.old.window) IsShort → IsOk result }
        ensures counts { CountsBetween self.old.steps self.new.steps
            (0, found_item (last_left self.old.window)) (
              0,
              found_item (last_left self.old.window) * (1 + back_cost self.old.interval
                  (length self.old.window.list) self.old.window.hi),
            ) }
    {
        let Some(item) = self.next_back() else {
            return Ok(None);
        };
        match item.materialize(alloc, self.block.as_slice()) {
            Ok(entry) => Ok(Some(entry)),
            Err(_) => Err(Error::Memory),
        }
    }
}

/// Returns the next entry, if one is left. Counts an entry for an item.
impl<H: BlockHash> Iterator for IntoEntries<H> {
    type Item = DataBlockParsedItem;

    ghost next_gives = { λ s r t. GivesScanned entry_of IsParsedEntry s r t };

    ghost remaining = { λ s. at_most (s.window.hi - s.window.lo) };

    #[inline(always)]
    fn next(&mut self) -> Option<DataBlockParsedItem> {
        let mut intervals = self.block.intervals();
        let item = intervals.next(&mut self.ends);
        self.steps.add(intervals.steps());
        item
    }
}

/// Returns the last entry, if one is left. Counts an entry for an item, and the entries of its
/// interval where the item is the last of its interval.
impl<H: BlockHash> DoubleEndedIterator for IntoEntries<H> {
    ghost next_back_gives = { λ s r t. GivesNextBack entry_of IsParsedEntry s r t };

    #[inline(always)]
    fn next_back(&mut self) -> Option<DataBlockParsedItem> {
        let mut intervals = self.block.intervals();
        let item = intervals.next_back(&mut self.ends);
        self.steps.add(intervals.steps());
        item
    }
}

/// The entries left, so that the iterator may be peeked at.
impl<H: BlockHash> ListIterator for IntoEntries<H> {
    type Value = InternalValue;

    ghost value_of = { λ i. entry_of i.payload };

    ghost items = { λ i. items_left i.window };

    ghost may_next = { λ _. tt };

    ghost may_next_back = { λ _. tt };

    ghost gives_first = { scan_gives_first entry_of IsParsedEntry };

    ghost gives_last = { scan_gives_last entry_of IsParsedEntry };

    ghost keeps_values = { λ s r t step. ap entry_of step.payload };

    ghost keeps_values_back = { λ s r t step. ap entry_of step.payload };
}
