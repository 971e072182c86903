//! Handles of an index block by their index.
ghost use Rattle.std.specs.Prelude.{◌≡◌, ◌+◌, ◌%◌, ◌<◌, length, slice_get, Some};
ghost use Rattle.std.specs.Option.{option_map};
ghost use Rattle.sst_base.specs.Counted.{CountsExactly, CountsBetween};
ghost use Rattle.sst_block_core.specs.Candidates.{scan_cost};
ghost use Rattle.sst_block_core.specs.Intervals.{digits};
ghost use Rattle.sst_block_core.specs.Pointers.{head_count};
ghost use Rattle.sst_block_core.specs.Window.{count_passed};
ghost use Rattle.sst_block_core.specs.HandleRanges.{handle_range};
ghost use Rattle.sst_block_core.specs.Handles.{handles};

use crate::table::block::bound::Bound;
use crate::table::index_block::IndexBlock;
use crate::table::index_block::block_ref::IndexBlockRef;
use sst_base::table::block::BlockHandle;
use sst_base::{SeqNo, Steps};

impl<'a> IndexBlockRef<'a> {
    /// Returns the range of the first handle that can lead to a key below a sequence number, if
    /// there is one, as a seek of an iterator finds it. Takes no memory. What is examined is added
    /// to `steps`: what [`IndexBlockRef::position`] adds, and the handle that is returned.
    #[inline(always)]
    pub fn find(&self, needle: &[u8], seqno: SeqNo, steps: &mut Steps) -> Option<BlockHandle>
        ensures range { result ≡ option_map handle_range (slice_get self.now.items
            (count_passed handles needle.now (Some seqno) self.now.items)) }
        ensures counts { CountsBetween steps.old steps.new (1, 0) (
          digits (head_count self.now.interval (length self.now.items)),
          scan_cost self.now.interval + 1,
        ) }
    {
        let bound = Bound {
            needle,
            from: Some(seqno),
        };
        let mut intervals = self.intervals();
        let found = intervals.first_behind(&bound);
        steps.add(intervals.steps());
        match found {
            Some(item) => Some(BlockHandle::new(item.offset, item.size)),
            None => None,
        }
    }

    /// Returns how many handles a bound passes, which is the index of the first handle
    /// after it. Takes no memory. What is examined is added to `steps`: at least a head, and at
    /// most as many heads as their number has binary digits, and the handles of one restart
    /// interval where not each handle is a head.
    pub fn position(&self, bound: &Bound<'_>, steps: &mut Steps) -> usize
        ensures value { result
            ≡ count_passed handles bound.now.needle.now bound.now.from self.now.items }
        ensures counts { CountsBetween steps.old steps.new (1, 0) (
          digits (head_count self.now.interval (length self.now.items)),
          scan_cost self.now.interval,
        ) }
    {
        let mut intervals = self.intervals();
        let position = intervals.position(bound);
        steps.add(intervals.steps());
        position
    }

    /// Returns the range of the handle at an index. Decodes the handles of its restart interval up
    /// to it, and adds them to `steps`. Takes no memory.
    pub fn handle_at(&self, index: usize, steps: &mut Steps) -> BlockHandle
        requires { index < length self.now.items }
        ensures range { Some result ≡ option_map handle_range (slice_get self.now.items index) }
        ensures counts { CountsExactly steps.old steps.new 0 (index % self.now.interval + 1) }
    {
        let mut intervals = self.intervals();
        let item = intervals.item_at(index);
        steps.add(intervals.steps());
        BlockHandle::new(item.offset, item.size)
    }
}

impl IndexBlock {
    /// Returns how many handles a bound passes, which is the index of the first handle
    /// after it, as [`IndexBlockRef::position`] does.
    pub fn position(&self, bound: &Bound<'_>, steps: &mut Steps) -> usize
        ensures value { result
            ≡ count_passed handles bound.now.needle.now bound.now.from self.now.items }
        ensures counts { CountsBetween steps.old steps.new (1, 0) (
          digits (head_count self.now.interval (length self.now.items)),
          scan_cost self.now.interval,
        ) }
    {
        self.by_ref().position(bound, steps)
    }

    /// Returns the range of the handle at an index, as [`IndexBlockRef::handle_at`] does.
    pub fn handle_at(&self, index: usize, steps: &mut Steps) -> BlockHandle
        requires { index < length self.now.items }
        ensures range { Some result ≡ option_map handle_range (slice_get self.now.items index) }
        ensures counts { CountsExactly steps.old steps.new 0 (index % self.now.interval + 1) }
    {
        self.by_ref().handle_at(index, steps)
    }
}
