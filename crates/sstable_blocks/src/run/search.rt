//! Blocks that are only searched.
//!
//! A read is passed counters, to which it adds what it examines. It is given blocks as these types,
//! whose every look into a block is passed the counters: there is no iterator, no copy and no bytes
//! of a block that it could read beside them.
ghost use Rattle.std.specs.Prelude.{◌≡◌, ◌≢◌, ◌<◌, IfErr, IfOk, IfSome, IsOkUnless, Err};
ghost use Rattle.std.specs.Prelude.{Ok, Some, false, length, slice_get};
ghost use Rattle.std.specs.Option.{option_map};
ghost use Rattle.sst_base.specs.Counted.{CountsBetween};
ghost use Rattle.sst_block_core.specs.Entries.{entries};
ghost use Rattle.sst_block_core.specs.Window.{count_passed, first_match};
ghost use Rattle.sst_block_core.specs.Checks.{data_check};
ghost use Rattle.sst_block_core.specs.DataBlock.{data_block_of};
ghost use Rattle.sst_block_core.specs.HandleRanges.{handle_range};
ghost use Rattle.sst_block_core.specs.Handles.{handles};
ghost use Rattle.sst_block_core.specs.ParsedEntry.{IsParsedEntry, entry_of};
ghost use Rattle.sst_block_core.specs.PointReads.{read_least, read_most, ref_read_least};
ghost use Rattle.sst_block_core.specs.PointReads.{ref_read_most};
ghost use Rattle.sstable_blocks.specs.Lookup.{handle_for};
ghost use Rattle.sstable_blocks.specs.Opened.{range_of};
ghost use Rattle.sstable_blocks.specs.ReadCosts.{find_cost, CountsHandle};
ghost use Rattle.sstable_blocks.specs.Scans.{index_cost};

use sst_base::{Block, BlockHandle, BlockHash, Error, InternalValue, Result, SeqNo, Steps};
use sst_block_core::DataBlock;
use sst_block_core::table::block::bound::Bound;
use sst_block_core::table::data_block::{DataBlockParsedItem, DataBlockRef};
use sst_block_core::table::index_block::IndexBlockRef;
use std::alloc::Global;
use std::marker::Model;

/// An index that is only searched. Clauses see the block.
#[derive(Drop)]
pub(crate) struct IndexSearch<'a> {
    block: IndexBlockRef<'a>,
}

impl<'a> Model for IndexSearch<'a> {
    ghost use Rattle.sst_block_core.specs.IndexBlock.{IndexRefParts};

    ghost Value = { IndexRefParts };

    ghost view = { λ s. s.block };
}

impl<'a> IndexSearch<'a> {
    /// Leaves of an index what searches it.
    #[inline(always)]
    pub(crate) fn new(block: IndexBlockRef<'a>) -> IndexSearch<'a>
        ensures { result ≡ block.entry }
    {
        IndexSearch { block }
    }

    /// The same index, with the table of its heads, if it has one.
    pub(crate) fn again(&self) -> IndexSearch<'a>
        ensures items { result.items ≡ self.now.items }
        ensures interval { result.interval ≡ self.now.interval }
    {
        let block = IndexBlockRef::new(self.block.as_slice());
        match self.block.heads() {
            Some(heads) => IndexSearch::new(block.with_table(heads)),
            None => IndexSearch::new(block),
        }
    }

    /// Returns the number of handles, which is at least one.
    pub(crate) fn len(&self) -> usize
        ensures count { result ≡ length self.now.items }
    {
        self.block.len()
    }

    /// Returns the range of the first handle that can lead to a key below a sequence number, as
    /// [`IndexBlockRef::find`] does.
    #[inline(always)]
    #[tactic(auto, using(crate::specs::IndexStepLaws::handles_by_scan))]
    pub(crate) fn find(&self, needle: &[u8], seqno: SeqNo, steps: &mut Steps) -> Option<BlockHandle>
        ensures found { result
            ≡ option_map range_of (handle_for handles needle.now seqno self.now.items) }
        ensures counts { CountsBetween steps.old steps.new (1, 0)
            (find_cost self.now.interval (length self.now.items)) }
    {
        self.block.find(needle, seqno, steps)
    }

    /// Returns how many handles a bound passes, as [`IndexBlockRef::position`] does.
    #[inline(always)]
    pub(crate) fn position(&self, bound: &Bound<'_>, steps: &mut Steps) -> usize
        ensures value { result
            ≡ count_passed handles bound.now.needle.now bound.now.from self.now.items }
        ensures counts { CountsBetween steps.old steps.new (1, 0)
            (index_cost self.now.interval (length self.now.items)) }
    {
        self.block.position(bound, steps)
    }

    /// Returns the range of the handle at an index, as [`IndexBlockRef::handle_at`] does.
    #[inline(always)]
    #[tactic(auto, using(crate::specs::IndexStepLaws::counts_handle))]
    pub(crate) fn handle_at(&self, index: usize, steps: &mut Steps) -> BlockHandle
        requires { index < length self.now.items }
        ensures range { Some result ≡ option_map handle_range (slice_get self.now.items index) }
        ensures counts { CountsHandle steps.old steps.new self.now.interval index }
    {
        // The payload is an encoding, whose restart interval is at least one.
        let _payload = self.block.as_slice();
        self.block.handle_at(index, steps)
    }
}

/// A data block that is only searched. Clauses see the block.
#[derive(Drop)]
pub(crate) struct DataSearch<H: BlockHash> {
    block: DataBlock<H>,
}

impl<H: BlockHash> Model for DataSearch<H> {
    ghost use Rattle.sst_block_core.specs.DataBlock.{DataBlockParts};

    ghost Value = { DataBlockParts };

    ghost view = { λ s. s.block };
}

impl<H: BlockHash> DataSearch<H> {
    /// Leaves of a block what searches it.
    #[inline(always)]
    pub(crate) fn new(block: DataBlock<H>) -> DataSearch<H>
        ensures { result ≡ block }
    {
        DataSearch { block }
    }

    /// Checks a block, as [`DataBlock::check_once`] does, and leaves of it what searches it.
    pub(crate) fn check(alloc: Global, block: Block) -> Result<DataSearch<H>>
        ensures checked { IfOk result (λ b. data_check H.hash64 block.payload ≡ Ok b.items) }
        ensures parts { IfOk result (λ b. b ≡ data_block_of block false) }
        ensures refused { IfErr result
            (λ e. e ≢ Error.Memory → data_check H.hash64 block.payload ≡ Err e) }
        ensures not_io { IfErr result (λ e. e ≢ Error.Io) }
    {
        Ok(DataSearch::new(DataBlock::check_once(alloc, block)?))
    }

    /// Returns the first match, as [`DataBlock::point_read`] does.
    #[inline(always)]
    pub(crate) fn point_read(
        &self,
        alloc: Global,
        needle: &[u8],
        seqno: SeqNo,
        steps: &mut Steps,
    ) -> Result<Option<InternalValue>>
        ensures found { IfOk result
            (λ item. item ≡ first_match entries needle.now seqno self.now.items) }
        ensures memory { IsOkUnless result Error.Memory }
        ensures counts { CountsBetween steps.old steps.new
            (read_least H.hash64 self.now needle.now) (read_most H.hash64 self.now needle.now) }
    {
        self.block.point_read(alloc, needle, seqno, steps)
    }
}

/// A data block over borrowed bytes that is only searched. Clauses see the block.
#[derive(Drop)]
pub(crate) struct DataSearchRef<'a, H: BlockHash> {
    block: DataBlockRef<'a, H>,
}

impl<'a, H: BlockHash> Model for DataSearchRef<'a, H> {
    ghost use Rattle.sst_block_core.specs.DataBlock.{DataRefParts};

    ghost Value = { DataRefParts };

    ghost view = { λ s. s.block };
}

impl<'a, H: BlockHash> DataSearchRef<'a, H> {
    /// Leaves of a block what searches it.
    #[inline(always)]
    pub(crate) fn new(block: DataBlockRef<'a, H>) -> DataSearchRef<'a, H>
        ensures { result ≡ block.entry }
    {
        DataSearchRef { block }
    }

    /// Returns where the first match is, as [`DataBlockRef::find`] does.
    #[inline(always)]
    pub(crate) fn find(
        &self,
        needle: &[u8],
        seqno: SeqNo,
        steps: &mut Steps,
    ) -> Option<DataBlockParsedItem>
        ensures item { option_map (entry_of self.now.payload) result
            ≡ first_match entries needle.now seqno self.now.items }
        ensures found { IfSome result (IsParsedEntry self.now.payload) }
        ensures counts { CountsBetween steps.old steps.new
            (ref_read_least H.hash64 self.now needle.now)
            (ref_read_most H.hash64 self.now needle.now) }
    {
        self.block.find(needle, seqno, steps)
    }
}
