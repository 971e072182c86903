//! Reading runs from bytes of any kind.
ghost use Rattle.std.specs.Prelude.{◌≡◌, ◌≢◌, ◌⊎◌, ◌+◌, ◌≤◌, ◌<◌, None, Option, Ok, OnOk, IfOk};
ghost use Rattle.std.specs.Prelude.{IfErr, IfSome, false};
ghost use Rattle.std.specs.Option.{option_map};
ghost use Rattle.sst_base.specs.Bytes.{IsBytes};
ghost use Rattle.sst_base.specs.Counted.{CountsBetween};
ghost use Rattle.sst_base.specs.declared.error.Error.TheVariants.{Io};
ghost use Rattle.sst_block_core.specs.Intervals.{digits};
ghost use Rattle.sst_block_core.specs.Handles.{Handle};
ghost use Rattle.sstable_blocks.specs.Opened.{index_in, range_of};
ghost use Rattle.sstable_blocks.specs.ReadCosts.{CountsGrow, CountsRead, heads_at, entries_at};
ghost use Rattle.sstable_blocks.specs.ReadCosts.{interval_in, most_by};
ghost use Rattle.sstable_blocks.specs.RunPlaces.{AsksAll, IsPlaced, IsWhole, placed};
ghost use Rattle.sstable_blocks.specs.RunReading.{hashes, payload_at, filter_says, filter_answer};
ghost use Rattle.sstable_blocks.specs.RunReading.{read_block, block_items_at, handles_at};
ghost use Rattle.sstable_blocks.specs.RunReading.{read_blocks};
ghost use Rattle.sstable_blocks.specs.RunReading.{read_checked, AnswerMeans};
ghost use Rattle.sstable_blocks.specs.Sound.{FindsFirst};
ghost use Rattle.sstable_blocks.specs.FrameCounts.{frames_to, read_frames};
ghost use Rattle.sst_base.specs.Counted.{found_item};
ghost use Rattle.sstable_blocks.specs.Sources.{AsksAs, AsksExactly, AsksUpTo, GivesOr, ReadsAs};
ghost use Rattle.sstable_blocks.specs.Sources.{UsesSource, filter_frames};
ghost use Rattle.sstable_blocks.specs.Tables.{IsBlockIn};

use super::RunHandles;
use super::laws::{checked_answer_means, sound_is_read};
use super::place::RunPlace;
use super::search::{DataSearch, IndexSearch};
use super::source::FrameSource;
use crate::table::filter::FilterBlock;
use sst_base::{
    Block, BlockHandle, BlockHash, BlockType, Error, InternalValue, Result, SeqNo, Steps, TagName,
};
use sst_block_core::{DataBlock, IndexBlock};
use std::alloc::Global;

/// Reads the frame that a handle names, of a block of this type.
///
/// # Errors
///
/// Those of `FrameSource::read_frame`, then those of `Block::from_frame`, then `Error::InvalidTag`
/// if the block is of another type.
#[tactic(auto, unfolding(sst_base::specs::Frame::payload_of_type))]
pub fn block_from<H: BlockHash, S: FrameSource>(
    alloc: Global,
    source: &mut S,
    handle: &BlockHandle,
    block_type: BlockType,
) -> Result<Block>
    ensures source { UsesSource S.bytes S.failures S.reads S.is_reliable
        (AsksExactly 1) source.old source.new result }
    ensures cells { OnOk result (IfSome (S.bytes source.old) IsBytes) }
    ensures exact { ReadsAs S.bytes S.failures S.is_reliable source.old source.new
        (λ b. b.payload) result (λ all. payload_at (hashes H.hash64 H.hash128) block_type all
        handle.now) }
{
    let frame = source.read_frame(alloc, handle)?;
    let block = Block::from_frame::<H>(frame)?;
    let found = u8::from(block.header().block_type);
    if found != u8::from(block_type) {
        return Err(Error::InvalidTag(TagName::BlockType, found));
    }
    Ok(block)
}

/// Reads the data block that a handle names, and checks it.
///
/// # Errors
///
/// Those of `FrameSource::read_frame`, then those of `Block::from_frame`, then `Error::InvalidTag`
/// if the block is of another type, then those of `DataBlock::check_once`.
pub fn data_block_from<H: BlockHash, S: FrameSource>(
    alloc: Global,
    source: &mut S,
    handle: &BlockHandle,
) -> Result<DataBlock<H>>
    ensures source { UsesSource S.bytes S.failures S.reads S.is_reliable
        (AsksExactly 1) source.old source.new result }
    ensures exact { ReadsAs S.bytes S.failures S.is_reliable source.old source.new
        (λ b. b.items) result (λ all. block_items_at (hashes H.hash64 H.hash128) all handle.now) }
    ensures place { IfOk result (λ b. IfSome (S.bytes source.old)
        (λ all. IsBlockIn all handle.now b.items b.interval)) }
{
    RunPlace::Whole.data_block_from::<H, S>(alloc, source, handle)
}

/// Reads the index block that a handle names, and checks it.
///
/// # Errors
///
/// Those of `FrameSource::read_frame`, then those of `Block::from_frame`, then `Error::InvalidTag`
/// if the block is of another type, then those of `IndexBlock::check_once`.
pub fn index_block_from<H: BlockHash, S: FrameSource>(
    alloc: Global,
    source: &mut S,
    handle: &BlockHandle,
) -> Result<IndexBlock>
    ensures source { UsesSource S.bytes S.failures S.reads S.is_reliable
        (AsksExactly 1) source.old source.new result }
    ensures cells { OnOk result (IfSome (S.bytes source.old) IsBytes) }
    ensures exact { ReadsAs S.bytes S.failures S.is_reliable source.old source.new
        (λ b. b.items) result (λ all. handles_at (hashes H.hash64 H.hash128) all handle.now) }
{
    RunPlace::Whole.index_block_from::<H, S>(alloc, source, handle)
}

// What the filter in a block says of a hash.
fn query_filter(block: Block, hash: u64) -> Result<bool>
    ensures exact { result ≡ filter_answer block.payload hash }
    ensures not_io { IfErr result (λ e. e ≢ Io) }
{
    let filter = FilterBlock::new(block);
    filter.maybe_contains_hash(hash)
}

// Whether a run can have a key, by its filter, whose frame is read.
fn filter_allows<H: BlockHash, S: FrameSource>(
    alloc: Global,
    source: &mut S,
    place: &RunPlace,
    filter: &Option<BlockHandle>,
    needle: &[u8],
) -> Result<bool>
    requires { IsPlaced place.now (S.bytes source.old) }
    ensures source { UsesSource S.bytes S.failures S.reads S.is_reliable
        (AsksUpTo (filter_frames filter.now)) source.old source.new result }
    ensures asked { AsksAll place.now (filter_frames filter.now) result (S.reads source.old)
        (S.reads source.new) }
    ensures cells { OnOk result ((filter.now ≡ None)
        ⊎ IfSome (placed S.bytes place.now source.old) IsBytes) }
    ensures exact { ReadsAs (placed S.bytes place.now) S.failures S.is_reliable source.old
        source.new (λ b. b) result
        (λ all. filter_says (hashes H.hash64 H.hash128) all filter.now needle.now) }
{
    match filter {
        None => Ok(true),
        Some(handle) => {
            let block = place.block_from::<H, S>(alloc, source, handle, BlockType::Filter)?;
            query_filter(block, H::hash64(needle))
        }
    }
}

// The first match in the data block of a handle, if there is one.
pub(crate) fn read_in_block<H: BlockHash, S: FrameSource>(
    alloc: Global,
    source: &mut S,
    place: &RunPlace,
    handle: &Option<BlockHandle>,
    needle: &[u8],
    seqno: SeqNo,
    steps: &mut Steps,
) -> Result<Option<InternalValue>>
    requires { IsPlaced place.now (S.bytes source.old) }
    ensures source { UsesSource S.bytes S.failures S.reads S.is_reliable
        (AsksUpTo (found_item handle.now)) source.old source.new result }
    ensures asked { AsksAll place.now (found_item handle.now) result (S.reads source.old)
        (S.reads source.new) }
    ensures exact { IfSome (placed S.bytes place.now source.old)
        (λ all. (h : Option Handle) → handle.now ≡ option_map range_of h
        → GivesOr (S.failures source.old < S.failures source.new) (S.is_reliable source.old)
        (λ x. x) result (read_block (hashes H.hash64 H.hash128) all h needle.now seqno)) }
    ensures counts { IfSome (placed S.bytes place.now source.old)
        (λ all. (h : Option Handle) → handle.now ≡ option_map range_of h
        → CountsBetween steps.old steps.new (0, 0) (digits (heads_at all h), entries_at all h)) }
    ensures counts_grow { CountsGrow steps.old steps.new }
{
    match handle {
        None => Ok(None),
        Some(handle) => {
            let block = place.block_from::<H, S>(alloc, source, handle, BlockType::Data)?;
            let block = DataSearch::<H>::check(alloc, block)?;
            block.point_read(alloc, needle, seqno, steps)
        }
    }
}

// The first match by the index.
fn read_by_index<H: BlockHash, S: FrameSource>(
    alloc: Global,
    source: &mut S,
    place: &RunPlace,
    index: &BlockHandle,
    needle: &[u8],
    seqno: SeqNo,
    steps: &mut Steps,
) -> Result<Option<InternalValue>>
    requires { IsPlaced place.now (S.bytes source.old) }
    ensures source { UsesSource S.bytes S.failures S.reads S.is_reliable
        (AsksUpTo 2) source.old source.new result }
    ensures asked { IsWhole place.now → AsksAs (placed S.bytes place.now) S.failures S.reads
        source.old source.new result
        (λ all. frames_to (hashes H.hash64 H.hash128) all index.now needle.now seqno) }
    ensures cells { OnOk result (IfSome (placed S.bytes place.now source.old) IsBytes) }
    ensures exact { ReadsAs (placed S.bytes place.now) S.failures S.is_reliable source.old
        source.new (λ x. x) result
        (λ all. read_blocks (hashes H.hash64 H.hash128) all index.now needle.now seqno) }
    ensures counts { IfSome (placed S.bytes place.now source.old) (λ all.
        CountsBetween steps.old steps.new (0, 0)
        (most_by all (index_in all index.now) (interval_in all index.now) needle.now seqno)) }
    ensures looked { steps.old.heads ≤ steps.new.heads }
{
    let index = place.index_block_from::<H, S>(alloc, source, index)?;
    let handle = IndexSearch::new(index.by_ref()).find(needle, seqno, steps);
    read_in_block::<H, S>(alloc, source, place, &handle, needle, seqno, steps)
}

/// Returns the first entry of a run with this key whose sequence number is strictly below `seqno`,
/// as [`read_entry_checked`] does, of a run that may be a part of its source.
///
/// What is examined is added to `steps`: at most as many heads and entries as
/// [`read_entry`](super::read_entry) examines.
///
/// # Errors
///
/// Those of [`read_entry_checked`], where a frame that is not inside the part is
/// `Error::BadHandle`.
#[tactic(auto, unfolding(crate::specs::RunReading::read_checked, crate::specs::FrameCounts::read_frames))]
pub fn read_entry_at<H: BlockHash, S: FrameSource>(
    alloc: Global,
    source: &mut S,
    place: &RunPlace,
    handles: &RunHandles,
    needle: &[u8],
    seqno: SeqNo,
    steps: &mut Steps,
) -> Result<Option<InternalValue>>
    requires { IsPlaced place.now (S.bytes source.old) }
    ensures source { UsesSource S.bytes S.failures S.reads S.is_reliable
        (AsksUpTo (2 + filter_frames handles.now.filter)) source.old source.new result }
    ensures asked { IsWhole place.now → AsksAs (placed S.bytes place.now) S.failures S.reads
        source.old source.new result
        (λ all. read_frames (hashes H.hash64 H.hash128) all handles.now needle.now seqno) }
    ensures denied { IfSome (placed S.bytes place.now source.old)
        (λ all. filter_says (hashes H.hash64 H.hash128) all handles.now.filter needle.now ≡ Ok false
        → S.reads source.new ≤ S.reads source.old + 1) }
    ensures cells { OnOk result (IfSome (placed S.bytes place.now source.old) IsBytes) }
    ensures exact { ReadsAs (placed S.bytes place.now) S.failures S.is_reliable source.old
        source.new (λ x. x) result
        (λ all. read_checked (hashes H.hash64 H.hash128) all handles.now needle.now seqno) }
    ensures counts { IfSome (placed S.bytes place.now source.old)
        (λ all. CountsRead all handles.now needle.now seqno steps.old steps.new) }
    ensures looked { steps.old.heads ≤ steps.new.heads }
{
    if filter_allows::<H, S>(alloc, source, place, &handles.filter, needle)? {
        read_by_index::<H, S>(alloc, source, place, &handles.index, needle, seqno, steps)
    } else {
        Ok(None)
    }
}

/// Returns the first entry of a run with this key whose sequence number is strictly below `seqno`,
/// from bytes of any kind: the filter's frame, if there is one, that of the index and that of the
/// one block are read, and each is verified and checked. No frame is read twice, and where the
/// filter rules the key out none but its own.
///
/// # Errors
///
/// The first one met, in this order: for the filter, if there is one, those of its frame
/// (`FrameSource::read_frame`, `Block::from_frame`), `Error::InvalidTag` if it is of another type,
/// and those of `StandardBloomFilterReader::new`; then for the index those of its frame, its type,
/// and `IndexBlock::check_once`; then for the block those of its frame, its type, and
/// `DataBlock::check_once`. `Error::Io` only where the source failed. `Error::Memory` if an
/// allocation fails.
pub fn read_entry_checked<H: BlockHash, S: FrameSource>(
    alloc: Global,
    source: &mut S,
    handles: &RunHandles,
    needle: &[u8],
    seqno: SeqNo,
) -> Result<Option<InternalValue>>
    ensures source { UsesSource S.bytes S.failures S.reads S.is_reliable
        (AsksUpTo (2 + filter_frames handles.now.filter)) source.old source.new result }
    ensures asked { AsksAs S.bytes S.failures S.reads source.old source.new result
        (λ all. read_frames (hashes H.hash64 H.hash128) all handles.now needle.now seqno) }
    ensures denied { IfSome (S.bytes source.old)
        (λ all. filter_says (hashes H.hash64 H.hash128) all handles.now.filter needle.now ≡ Ok false
        → S.reads source.new ≤ S.reads source.old + 1) }
    ensures exact { ReadsAs S.bytes S.failures S.is_reliable source.old source.new (λ x. x) result
        (λ all. read_checked (hashes H.hash64 H.hash128) all handles.now needle.now seqno) }
    ensures means { IfSome (S.bytes source.old)
        (λ all. IfOk result
        (AnswerMeans (hashes H.hash64 H.hash128) all handles.now needle.now seqno)) }
    ensures sound { IfSome (S.bytes source.old)
        (FindsFirst (hashes H.hash64 H.hash128) handles.now needle.now seqno result) }
{
    checked_answer_means();
    sound_is_read();
    read_entry_at::<H, S>(
        alloc,
        source,
        &RunPlace::Whole,
        handles,
        needle,
        seqno,
        &mut Steps::new(),
    )
}
