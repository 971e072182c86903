//! Where a check of a run ends.
ghost use Rattle.std.specs.Prelude.{◌≡◌, ◌<◌, List, length, slice_get, Some, Ok};
ghost use Rattle.std.specs.Option.{option_map};
ghost use Rattle.sst_calls.specs.CheckEnds.{frames_read, IsCheckEnd, IsFrameOf, IsLastFrame};
ghost use Rattle.sst_calls.specs.CheckEnds.{IsRunCheckAtBy};
ghost use Rattle.sst_calls.specs.Runs.{IsRunCheck};
ghost use Rattle.sstable_blocks.specs.BlockLaws.{handle_range};
ghost use Rattle.sstable_blocks.specs.Prelude.{Handle, block_type_byte, hashes};
ghost use Rattle.sstable_blocks.specs.RunReading.{Hashes, handles_at};
ghost use Rattle.sstable_blocks.specs.Sources.{filter_frames};

use crate::codes::Status;
use crate::hash::Hash;
use crate::run::{SstRunHandles, SstSummary, run_handles, summary_told};
use crate::source::CountedSource;
use sstable_blocks::laws::index_check_accepts_encodings;
use sstable_blocks::run::check;
use sstable_blocks::run::read::payload_at;
use sstable_blocks::table::index_block::IndexBlockRef;
use sstable_blocks::{BlockHandle, BlockHash, BlockType, Error, Poly31, RunHandles, Steps, Xxh3};
use std::alloc::Global;

/// Where a check of a run ended: the frame that it read last.
#[repr(C)]
#[derive(Drop)]
pub struct SstCheckEnd {
    /// The part of the run, by the byte of its type of block: 0 a data block, 1 the index, 2 the
    /// filter.
    pub part: u8,
    /// The index of the data block; 0 for another part.
    pub block: usize,
    /// Where the frame begins in the run, in bytes, by its handle.
    pub offset: u64,
    /// The length of the frame in bytes, by its handle.
    pub size: u32,
}

// The place of the frame of a handle.
fn end_at(part: BlockType, block: usize, handle: &BlockHandle) -> SstCheckEnd
    ensures { IsFrameOf (block_type_byte part) block handle.now result }
{
    SstCheckEnd {
        part: u8::from(part),
        block,
        offset: *handle.offset(),
        size: handle.size(),
    }
}

// The handle at an index of the index of a run, which a check reads.
fn handle_at(bytes: &[u8], handles: &RunHandles, block: usize) -> BlockHandle
    requires { (c : Hashes) × (hs : List Handle)
        × (handles_at c bytes.now handles.now.index ≡ Ok hs) × (block < length hs) }
    ensures { (c : Hashes) (hs : List Handle) → handles_at c bytes.now handles.now.index ≡ Ok hs
        → Some result ≡ option_map handle_range (slice_get hs block) }
{
    index_check_accepts_encodings();
    // A size has 32 bits, and each cell is a byte.
    let (_size, _len) = (handles.index.size(), bytes.len());
    let index = IndexBlockRef::new(payload_at(bytes, &handles.index));
    index.handle_at(block, &mut Steps::new())
}

// The number of frames of a filter.
fn filter_frames(filter: &Option<BlockHandle>) -> u64
    ensures { result ≡ filter_frames filter.now }
{
    match filter {
        Some(_) => 1,
        None => 0,
    }
}

// The frame that a check of a run read last, after so many.
fn last_frame(bytes: &[u8], handles: &RunHandles, frames: u64) -> SstCheckEnd
    requires { (c : Hashes) × (frames ≡ frames_read c bytes.now handles.now) }
    ensures { (c : Hashes) → frames ≡ frames_read c bytes.now handles.now
        → IsLastFrame c bytes.now handles.now frames result }
{
    let before = filter_frames(&handles.filter);
    if frames > before + 1 {
        let block = (frames - before - 2) as usize;
        return end_at(BlockType::Data, block, &handle_at(bytes, handles, block));
    }
    if frames == before + 1 {
        return end_at(BlockType::Index, 0, &handles.index);
    }
    let read = handles.filter.as_ref().unwrap_or(&handles.index);
    end_at(BlockType::Filter, 0, read)
}

// Checks any bytes and handles, and notes what is counted, or where the check ended.
fn check_run<H: BlockHash>(
    alloc: Global,
    bytes: &[u8],
    handles: &RunHandles,
    summary: &mut SstSummary,
    end: &mut SstCheckEnd,
) -> Status
    ensures checked { IsRunCheck (hashes H.hash64 H.hash128) bytes.now handles.now summary.old
        summary.new result }
    ensures end { IsCheckEnd (hashes H.hash64 H.hash128) bytes.now handles.now end.old end.new
        result }
{
    let mut source = CountedSource::new(bytes);
    match check::<H, CountedSource<'_>>(alloc, &mut source, handles) {
        Ok(found) => {
            *summary = summary_told(&found);
            Status::Done
        }
        Err(Error::Memory) => Status::Failed(Error::Memory),
        Err(error) => {
            *end = last_frame(bytes, handles, source.count());
            Status::Failed(error)
        }
    }
}

/// Checks any bytes and handles as [`run::check_by`](crate::run::check_by) does, and says
/// where the check ended: at the frame that it read last. Frames are read in this order: that of
/// the filter, if there is one, that of the index, those of the blocks. The frame that a block's
/// handle names is read only where it begins at the end of the one before; where it does not, that
/// is error 14, and the frame before it, or the index, was read last.
///
/// Returns what [`run::check_by`](crate::run::check_by) returns. `end` is written where the
/// bytes are refused, and else left, as it is where an allocation fails, or where no hash function
/// has the number.
pub fn check_run_by(
    alloc: Global,
    bytes: &[u8],
    handles: &SstRunHandles,
    hash: u32,
    summary: &mut SstSummary,
    end: &mut SstCheckEnd,
) -> Status
    ensures { IsRunCheckAtBy hash bytes.now handles.now summary.old summary.new end.old end.new
        result }
{
    let handles = run_handles(handles);
    match Hash::of_number(hash) {
        Some(Hash::Xxh3) => check_run::<Xxh3>(alloc, bytes, &handles, summary, end),
        Some(Hash::Poly31) => check_run::<Poly31>(alloc, bytes, &handles, summary, end),
        None => Status::BadArgument,
    }
}
