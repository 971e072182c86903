//! Data blocks whose hash function is not known, for reads that hash no key.
ghost use Rattle.std.specs.Prelude.{◌≡◌, ◌<◌, length, false};
ghost use Rattle.sst_calls.specs.Blocks.{IsSomeDataBlock};
ghost use Rattle.sstable_blocks.specs.Prelude.{IsOrdered, data_ref_of, entries, whole};

use sstable_blocks::InternalValue;
use sstable_blocks::laws::{data_block_is_read, forms_stage_is_body};
use sstable_blocks::table::block::intervals::Intervals;
use sstable_blocks::table::block::{Decoder, Trailer};
use sstable_blocks::table::data_block::{DataBlockParsedItem, Iter};
use std::marker::Model;

/// A data block over bytes that it borrows, by whatever hash function its hash index is.
///
/// Clauses see its payload, its entries and its restart interval, as of a
/// [`DataBlockRef`](sstable_blocks::table::data_block::DataBlockRef).
#[derive(Drop)]
pub(crate) struct BlockView<'a> {
    payload: &'a [u8],
}

impl<'a> Model for BlockView<'a> {
    ghost use Rattle.std.specs.Prelude.{false};
    ghost use Rattle.sst_calls.specs.Blocks.{IsSomeDataBlock};
    ghost use Rattle.sstable_blocks.specs.Prelude.{DataRefParts, IsBytes, data_ref_of};

    ghost Value = { DataRefParts };

    ghost view = { λ b. data_ref_of b.payload.now false };

    ghost invariant = { λ b. IsBytes b.payload.now × IsSomeDataBlock b.payload.now };
}

impl<'a> BlockView<'a> {
    /// Views bytes that are a data block.
    pub(crate) fn new(payload: &'a [u8]) -> BlockView<'a>
        requires { IsSomeDataBlock payload.now }
        ensures parts { result ≡ data_ref_of payload.now false }
    {
        BlockView { payload }
    }

    /// Returns the payload.
    pub(crate) fn as_slice(&self) -> &'a [u8]
        ensures value { result.now ≡ self.now.payload }
    {
        self.payload
    }

    /// The restart intervals.
    #[inline(always)]
    pub(crate) fn intervals(&self) -> Intervals<'a, InternalValue, DataBlockParsedItem>
        ensures payload { result.list.payload ≡ self.now.payload }
        ensures items { result.list.items ≡ self.now.items }
        ensures interval { result.list.interval ≡ self.now.interval }
        ensures ordered { IsOrdered entries self.now.items }
    {
        data_block_is_read();
        Intervals::new(self.payload)
    }

    /// Returns the number of entries, which is at least one.
    pub(crate) fn len(&self) -> usize
        ensures count { result ≡ length self.now.items }
    {
        data_block_is_read();
        forms_stage_is_body::<InternalValue>();
        Trailer::new(self.payload).item_count()
    }

    /// Returns the number of entries in a restart interval.
    pub(crate) fn interval(&self) -> usize
        ensures value { result ≡ self.now.interval }
        ensures some { 0 < result }
    {
        data_block_is_read();
        usize::from(Trailer::new(self.payload).interval())
    }

    /// Returns an iterator over the entries, as ranges of the payload.
    pub(crate) fn iter(&self) -> Iter<'a>
        ensures payload { result.payload ≡ self.now.payload }
        ensures interval { result.interval ≡ self.now.interval }
        ensures window { result.window ≡ whole self.now.items }
    {
        Iter::new(Decoder::over(self.intervals()))
    }
}
