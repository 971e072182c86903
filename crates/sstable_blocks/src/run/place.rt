//! Where a run lies in its source.
ghost use Rattle.std.specs.Prelude.{◌≡◌, ◌+◌, ◌<◌, ◌^◌, IfOk, IfSome, None, OnOk};
ghost use Rattle.sst_base.specs.Bytes.{IsBytes};
ghost use Rattle.sstable_blocks.specs.RunPlaces.{AsksAll, IsPlaced, frame_of, placed};
ghost use Rattle.sstable_blocks.specs.RunReading.{hashes, block_items_at, handles_at, payload_at};
ghost use Rattle.sstable_blocks.specs.Sources.{AsksUpTo, ReadsAs, UsesSource};
ghost use Rattle.sstable_blocks.specs.Tables.{IsBlockIn, IsIndexIn};
ghost use Rattle.sstable_blocks.specs.declared.run.place.RunPlace.TheVariants.{Part};

use super::checked::block_from;
use super::source::FrameSource;
use sst_base::{Block, BlockHandle, BlockHash, BlockOffset, BlockType, Error, Result};
use sst_block_core::{DataBlock, IndexBlock};
use std::alloc::Global;

/// Where a run lies in its source.
#[derive(Clone, Copy, Debug)]
pub enum RunPlace {
    /// It is the whole source.
    Whole,
    /// It is in the range of a handle. A frame that is not inside that range is refused.
    Part(BlockHandle),
}

// The range in the source of a frame of a part, if it is inside the part.
fn frame_in_part(part: &BlockHandle, handle: &BlockHandle) -> Option<BlockHandle>
    requires { part.now.offset + part.now.size < 2 ^ 64 }
    ensures { result ≡ frame_of (Part part.now) handle.now }
{
    let (offset, size) = (*handle.offset(), u64::from(handle.size()));
    let len = u64::from(part.size());
    if size > len {
        return None;
    }
    if offset > len - size {
        return None;
    }
    Some(BlockHandle::new(BlockOffset(*part.offset() + offset), handle.size()))
}

impl RunPlace {
    /// Returns the range in the source of a frame of the run, or `None` if the frame is not inside
    /// the part that the run is.
    pub fn frame(&self, handle: &BlockHandle) -> Option<BlockHandle>
        requires { IsPlaced self.now None }
        ensures { result ≡ frame_of self.now handle.now }
    {
        match self {
            RunPlace::Whole => Some(*handle),
            RunPlace::Part(part) => frame_in_part(part, handle),
        }
    }

    /// Reads the frame that a handle of the run names, of a block of this type, as [`block_from`]
    /// does.
    ///
    /// # Errors
    ///
    /// `Error::BadHandle` if the frame is not inside the part that the run is, then those of
    /// [`block_from`].
    pub fn block_from<H: BlockHash, S: FrameSource>(
        &self,
        alloc: Global,
        source: &mut S,
        handle: &BlockHandle,
        block_type: BlockType,
    ) -> Result<Block>
        requires { IsPlaced self.now (S.bytes source.old) }
        ensures source { UsesSource S.bytes S.failures S.reads S.is_reliable
            (AsksUpTo 1) source.old source.new result }
        ensures asked { AsksAll self.now 1 result (S.reads source.old) (S.reads source.new) }
        ensures cells { OnOk result (IfSome (placed S.bytes self.now source.old) IsBytes) }
        ensures exact { ReadsAs (placed S.bytes self.now) S.failures S.is_reliable source.old
            source.new (λ b. b.payload) result
            (λ all. payload_at (hashes H.hash64 H.hash128) block_type all handle.now) }
    {
        match self.frame(handle) {
            None => Err(Error::BadHandle),
            Some(frame) => block_from::<H, S>(alloc, source, &frame, block_type),
        }
    }

    /// Reads the data block that a handle of the run names, and checks it.
    ///
    /// # Errors
    ///
    /// Those of [`RunPlace::block_from`], then those of `DataBlock::check_once`.
    pub fn data_block_from<H: BlockHash, S: FrameSource>(
        &self,
        alloc: Global,
        source: &mut S,
        handle: &BlockHandle,
    ) -> Result<DataBlock<H>>
        requires { IsPlaced self.now (S.bytes source.old) }
        ensures source { UsesSource S.bytes S.failures S.reads S.is_reliable
            (AsksUpTo 1) source.old source.new result }
        ensures asked { AsksAll self.now 1 result (S.reads source.old) (S.reads source.new) }
        ensures exact { ReadsAs (placed S.bytes self.now) S.failures S.is_reliable source.old
            source.new (λ b. b.items) result
            (λ all. block_items_at (hashes H.hash64 H.hash128) all handle.now) }
        ensures place { IfOk result (λ b. IfSome (placed S.bytes self.now source.old)
            (λ all. IsBlockIn all handle.now b.items b.interval)) }
    {
        let block = self.block_from::<H, S>(alloc, source, handle, BlockType::Data)?;
        DataBlock::<H>::check_once(alloc, block)
    }

    // Reads the index block that a handle of the run names, and checks it.
    pub(super) fn index_block_from<H: BlockHash, S: FrameSource>(
        &self,
        alloc: Global,
        source: &mut S,
        handle: &BlockHandle,
    ) -> Result<IndexBlock>
        requires { IsPlaced self.now (S.bytes source.old) }
        ensures source { UsesSource S.bytes S.failures S.reads S.is_reliable
            (AsksUpTo 1) source.old source.new result }
        ensures asked { AsksAll self.now 1 result (S.reads source.old) (S.reads source.new) }
        ensures cells { OnOk result (IfSome (placed S.bytes self.now source.old) IsBytes) }
        ensures exact { ReadsAs (placed S.bytes self.now) S.failures S.is_reliable source.old
            source.new (λ b. b.items) result
            (λ all. handles_at (hashes H.hash64 H.hash128) all handle.now) }
        ensures place { IfOk result (λ b. IfSome (placed S.bytes self.now source.old)
            (λ all. IsIndexIn all handle.now b.items b.interval)) }
    {
        let block = self.block_from::<H, S>(alloc, source, handle, BlockType::Index)?;
        IndexBlock::check_once(block)
    }
}
