//! Runs that were opened: the filter and the index of a run, kept apart from its source.
ghost use Rattle.std.specs.Prelude.{◌≡◌, ◌+◌, ◌<◌, ◌≤◌, Ok, IfOk, IfSome, Some, length, true};
ghost use Rattle.std.specs.Option.{option_map};
ghost use Rattle.sst_base.specs.Counted.{CountsBetween};
ghost use Rattle.sst_block_core.specs.Handles.{handles};
ghost use Rattle.sstable_blocks.specs.FrameCounts.{open_frames};
ghost use Rattle.sstable_blocks.specs.Lookup.{handle_for};
ghost use Rattle.sstable_blocks.specs.Opened.{range_of};
ghost use Rattle.sstable_blocks.specs.ReadCosts.{find_cost, most_by, CountsHandle, CountsRead};
ghost use Rattle.sstable_blocks.specs.RunReading.{hashes, block_items_at, handles_at, read_checked};
ghost use Rattle.sstable_blocks.specs.Scans.{AtHandle, index_cost};
ghost use Rattle.sstable_blocks.specs.Sound.{FindsFirst};
ghost use Rattle.sstable_blocks.specs.RunPlaces.{AsksAll, IsPlaced, IsWhole, placed};
ghost use Rattle.sstable_blocks.specs.Sources.{AsksAs, AsksIfOk, AsksUpTo, GivesOr};
ghost use Rattle.sstable_blocks.specs.Sources.{ReadsAs, UsesSource, filter_frames};
ghost use Rattle.sstable_blocks.specs.Tables.{filter_kept, kept_of, IsOpenedOf};
ghost use Rattle.sstable_blocks.specs.Tables.{IsBlockIn, IsIndexIn, kept_says, read_kept};
ghost use Rattle.sstable_blocks.specs.Tables.{LooksBy, found_block, frames_by, located};

use super::RunHandles;
use super::checked::read_in_block;
use super::kept_filter::KeptFilter;
use super::laws::sound_is_read;
use super::place::RunPlace;
use super::search::IndexSearch;
use super::source::FrameSource;
use crate::table::filter::FilterBlock;
use sst_base::{BlockHandle, BlockHash, BlockType, InternalValue, Result, SeqNo, Steps};
use sst_block_core::laws::index_check_is_by_stages;
use sst_block_core::table::block::bound::Bound;
use sst_block_core::{DataBlock, IndexBlock};
use std::alloc::Global;
use std::marker::{Model, PhantomData};

// The filter of a run, if it has one.
fn filter_block_from<H: BlockHash, S: FrameSource>(
    alloc: Global,
    source: &mut S,
    place: &RunPlace,
    filter: &Option<BlockHandle>,
) -> Result<Option<KeptFilter>>
    requires { IsPlaced place.now (S.bytes source.old) }
    ensures source { UsesSource S.bytes S.failures S.reads S.is_reliable
        (AsksUpTo (filter_frames filter.now)) source.old source.new result }
    ensures asked { AsksAll place.now (filter_frames filter.now) result (S.reads source.old)
        (S.reads source.new) }
    ensures exact { ReadsAs (placed S.bytes place.now) S.failures S.is_reliable source.old
        source.new (λ f. f) result
        (λ all. filter_kept (hashes H.hash64 H.hash128) all filter.now) }
{
    match filter {
        None => Ok(None),
        Some(handle) => {
            let block = place.block_from::<H, S>(alloc, source, handle, BlockType::Filter)?;
            Ok(Some(KeptFilter::read(block)?))
        }
    }
}

// Whether a run can have a key, by the filter that was kept, if there is one.
#[inline(always)]
fn kept_allows<H: BlockHash>(filter: &Option<KeptFilter>, needle: &[u8]) -> bool
    ensures { Ok result ≡ kept_says H.hash64 filter.now needle.now }
{
    match filter {
        None => true,
        Some(filter) => filter.allows(H::hash64(needle)),
    }
}

// The index of a run, with the table of its heads.
fn kept_index_from<H: BlockHash, S: FrameSource>(
    alloc: Global,
    source: &mut S,
    place: &RunPlace,
    handle: &BlockHandle,
) -> Result<IndexBlock>
    requires { IsPlaced place.now (S.bytes source.old) }
    ensures source { UsesSource S.bytes S.failures S.reads S.is_reliable
        (AsksUpTo 1) source.old source.new result }
    ensures asked { AsksAll place.now 1 result (S.reads source.old) (S.reads source.new) }
    ensures exact { ReadsAs (placed S.bytes place.now) S.failures S.is_reliable source.old
        source.new (λ b. b.items) result
        (λ all. handles_at (hashes H.hash64 H.hash128) all handle.now) }
    ensures place { IfOk result (λ b. IfSome (placed S.bytes place.now source.old)
        (λ all. IsIndexIn all handle.now b.items b.interval)) }
    ensures heads { IfOk result (λ b. b.heads ≡ true) }
{
    index_check_is_by_stages();
    let block = place.block_from::<H, S>(alloc, source, handle, BlockType::Index)?;
    IndexBlock::check(alloc, block)
}

// Where the block is that can hold a key, by a filter and an index that were kept.
#[inline(always)]
fn find_by_kept<H: BlockHash>(
    filter: &Option<KeptFilter>,
    index: &IndexSearch<'_>,
    needle: &[u8],
    seqno: SeqNo,
    steps: &mut Steps,
) -> Option<BlockHandle>
    ensures exact { Ok result
        ≡ found_block H.hash64 filter.now index.now.items needle.now seqno }
    ensures counts { CountsBetween steps.old steps.new (0, 0)
        (find_cost index.now.interval (length index.now.items)) }
    ensures looked { LooksBy (kept_says H.hash64 filter.now needle.now) steps.old steps.new }
{
    if !kept_allows::<H>(filter, needle) {
        return None;
    }
    index.find(needle, seqno, steps)
}

// The first match by a filter and an index that were kept.
fn read_by_kept<H: BlockHash, S: FrameSource>(
    alloc: Global,
    source: &mut S,
    place: &RunPlace,
    filter: &Option<KeptFilter>,
    index: &IndexSearch<'_>,
    needle: &[u8],
    seqno: SeqNo,
    steps: &mut Steps,
) -> Result<Option<InternalValue>>
    requires { IsPlaced place.now (S.bytes source.old) }
    ensures source { UsesSource S.bytes S.failures S.reads S.is_reliable
        (AsksUpTo (frames_by (kept_says H.hash64 filter.now needle.now)
        (handle_for handles needle.now seqno index.now.items)))
        source.old source.new result }
    ensures asked { AsksAll place.now (frames_by (kept_says H.hash64 filter.now needle.now)
        (handle_for handles needle.now seqno index.now.items)) result (S.reads source.old)
        (S.reads source.new) }
    ensures exact { ReadsAs (placed S.bytes place.now) S.failures S.is_reliable source.old
        source.new (λ x. x) result (λ all. read_kept (hashes H.hash64 H.hash128) all filter.now
        index.now.items needle.now seqno) }
    ensures counts { IfSome (placed S.bytes place.now source.old)
        (λ all. CountsBetween steps.old steps.new (0, 0)
        (most_by all index.now.items index.now.interval needle.now seqno)) }
    ensures looked { LooksBy (kept_says H.hash64 filter.now needle.now) steps.old steps.new }
{
    let handle = find_by_kept::<H>(filter, index, needle, seqno, steps);
    if handle.is_none() {
        return Ok(None);
    }
    read_in_block::<H, S>(alloc, source, place, &handle, needle, seqno, steps)
}

/// A run that was opened: its filter and its index, which were verified and checked then, and are
/// kept. Its source is passed to each call, so that many runs may lie in one source. A
/// [`Table`](super::Table) is a run that was opened, and its source.
///
/// Clauses see the handles of filter and index, the payload of the filter, if there is one, the
/// handles of the index and its restart interval.
#[derive(Drop)]
pub struct OpenRun<H: BlockHash> {
    handles: RunHandles,
    filter: Option<KeptFilter>,
    index: IndexBlock,
    hash: PhantomData<H>,
}

impl<H: BlockHash> Model for OpenRun<H> {
    ghost use Rattle.std.specs.Prelude.{◌≡◌, true};
    ghost use Rattle.sstable_blocks.specs.Tables.{KeptParts};

    ghost Value = { KeptParts };

    ghost view = { λ r. record {
      handles = r.handles;
      filter = r.filter;
      index = r.index.items;
      interval = r.index.interval;
    } };

    ghost invariant = { λ r. r.index.heads ≡ true };
}

impl<H: BlockHash> OpenRun<H> {
    /// Opens a run in a source: reads, verifies and checks its filter, if it has one, and its
    /// index, of whose heads it makes a table. No block is read.
    ///
    /// # Errors
    ///
    /// The first one met, in this order: for the filter, if there is one, those of its frame,
    /// `Error::InvalidTag` if it is of another type, and those of `StandardBloomFilterReader::new`;
    /// then for the index those of its frame, its type, and `IndexBlock::check`. `Error::Io` only
    /// where the source failed. `Error::Memory` if an allocation fails.
    pub fn open<S: FrameSource>(
        alloc: Global,
        source: &mut S,
        place: &RunPlace,
        handles: RunHandles,
    ) -> Result<OpenRun<H>>
        requires { IsPlaced place.now (S.bytes source.old) }
        ensures handles { IfOk result (λ r. r.handles ≡ handles) }
        ensures source { UsesSource S.bytes S.failures S.reads S.is_reliable
            (AsksIfOk (λ _. filter_frames handles.filter + 1)) source.old source.new result }
        ensures few { S.reads source.new ≤ S.reads source.old + (filter_frames handles.filter + 1) }
        ensures asked { IsWhole place.now → AsksAs (placed S.bytes place.now) S.failures S.reads
            source.old source.new result
            (λ all. open_frames (hashes H.hash64 H.hash128) all handles) }
        ensures kept { IfOk result (IsOpenedOf (hashes H.hash64 H.hash128)
            (placed S.bytes place.now source.old)) }
        ensures exact { ReadsAs (placed S.bytes place.now) S.failures S.is_reliable source.old
            source.new (λ r. (r.filter, r.index)) result
            (λ all. kept_of (hashes H.hash64 H.hash128) all handles) }
    {
        let filter = filter_block_from::<H, S>(alloc, source, place, &handles.filter)?;
        let index = kept_index_from::<H, S>(alloc, source, place, &handles.index)?;
        Ok(OpenRun {
            handles,
            filter,
            index,
            hash: PhantomData,
        })
    }

    /// Returns the first entry with this key whose sequence number is strictly below `seqno`, as
    /// [`super::read_entry_checked`] does, but reads at most one frame, and none where the filter
    /// rules the key out: the filter and the index are those that were kept. The frame is verified
    /// and checked. Source and place are those that the run was opened at.
    ///
    /// What is examined is added to `steps`: nothing where the filter rules the key out, else at
    /// least a head of the index, and at most as many heads and entries as [`super::read_entry`]
    /// examines.
    ///
    /// # Errors
    ///
    /// For the block, those of its frame, `Error::InvalidTag` if it is of another type, and those
    /// of `DataBlock::check_once`. `Error::Io` only where the source failed. `Error::Memory` if an
    /// allocation fails.
    pub fn get<S: FrameSource>(
        &self,
        alloc: Global,
        source: &mut S,
        place: &RunPlace,
        needle: &[u8],
        seqno: SeqNo,
        steps: &mut Steps,
    ) -> Result<Option<InternalValue>>
        requires placed { IsPlaced place.now (S.bytes source.old) }
        requires opened { IsOpenedOf (hashes H.hash64 H.hash128)
            (placed S.bytes place.now source.old) self.now }
        ensures source { UsesSource S.bytes S.failures S.reads S.is_reliable
            (AsksUpTo (frames_by (kept_says H.hash64 self.now.filter needle.now)
            (handle_for handles needle.now seqno self.now.index)))
            source.old source.new result }
        ensures asked { AsksAll place.now (frames_by (kept_says H.hash64 self.now.filter needle.now)
            (handle_for handles needle.now seqno self.now.index)) result (S.reads source.old)
            (S.reads source.new) }
        ensures exact { ReadsAs (placed S.bytes place.now) S.failures S.is_reliable source.old
            source.new (λ x. x) result (λ all. read_checked (hashes H.hash64 H.hash128) all
            self.now.handles needle.now seqno) }
        ensures sound { IfSome (placed S.bytes place.now source.old)
            (FindsFirst (hashes H.hash64 H.hash128) self.now.handles needle.now seqno result) }
        ensures counts { IfSome (placed S.bytes place.now source.old)
            (λ all. CountsRead all self.now.handles needle.now seqno steps.old steps.new) }
        ensures looked { LooksBy (kept_says H.hash64 self.now.filter needle.now)
            steps.old steps.new }
    {
        sound_is_read();
        read_by_kept::<H, S>(
            alloc,
            source,
            place,
            &self.filter,
            &IndexSearch::new(self.index.by_ref()),
            needle,
            seqno,
            steps,
        )
    }

    /// Returns where the block is that can hold this key below `seqno`, if there is one: none where
    /// the filter rules the key out. No frame is read. What is examined is added to `steps`: at
    /// least a head of the index where the filter allows the key, else nothing.
    pub fn find_block(&self, needle: &[u8], seqno: SeqNo, steps: &mut Steps) -> Option<BlockHandle>
        ensures exact { Ok result
            ≡ found_block H.hash64 self.now.filter self.now.index needle.now seqno }
        ensures counts { CountsBetween steps.old steps.new (0, 0)
            (find_cost self.now.interval (length self.now.index)) }
        ensures looked { LooksBy (kept_says H.hash64 self.now.filter needle.now)
            steps.old steps.new }
    {
        let search = IndexSearch::new(self.index.by_ref());
        find_by_kept::<H>(&self.filter, &search, needle, seqno, steps)
    }

    /// Returns the index of the block that can hold this key below `seqno`, if there is one: none
    /// where the filter rules the key out. No frame is read. What is examined is added to `steps`:
    /// at least a head of the index where the filter allows the key, else nothing.
    pub fn locate(&self, needle: &[u8], seqno: SeqNo, steps: &mut Steps) -> Option<usize>
        ensures exact { Ok result
            ≡ located H.hash64 self.now.filter self.now.index needle.now seqno }
        ensures inside { IfSome result (λ i. i < length self.now.index) }
        ensures counts { CountsBetween steps.old steps.new (0, 0)
            (index_cost self.now.interval (length self.now.index)) }
        ensures looked { LooksBy (kept_says H.hash64 self.now.filter needle.now)
            steps.old steps.new }
    {
        if !kept_allows::<H>(&self.filter, needle) {
            return None;
        }
        let bound = Bound {
            needle,
            from: Some(seqno),
        };
        let search = IndexSearch::new(self.index.by_ref());
        let index = search.position(&bound, steps);
        if index < search.len() {
            Some(index)
        } else {
            None
        }
    }

    /// Reads the data block of the handle at an index of the index. Its frame is verified and
    /// checked. Decodes the handles of the index's restart interval up to this one, and adds them
    /// to `steps`, also where an error is returned; what a caller examines in the block is not
    /// counted.
    ///
    /// # Errors
    ///
    /// Those of the block's frame, `Error::InvalidTag` if it is of another type, and those of
    /// `DataBlock::check_once`. `Error::Io` only where the source failed. `Error::Memory` if an
    /// allocation fails.
    pub fn block_at<S: FrameSource>(
        &self,
        alloc: Global,
        source: &mut S,
        place: &RunPlace,
        index: usize,
        steps: &mut Steps,
    ) -> Result<DataBlock<H>>
        requires placed { IsPlaced place.now (S.bytes source.old) }
        requires inside { index < length self.now.index }
        ensures source { UsesSource S.bytes S.failures S.reads S.is_reliable
            (AsksUpTo 1) source.old source.new result }
        ensures asked { AsksAll place.now 1 result (S.reads source.old) (S.reads source.new) }
        ensures exact { AtHandle (placed S.bytes place.now source.old) self.now.index index
            (λ all h. GivesOr (S.failures source.old < S.failures source.new)
            (S.is_reliable source.old) (λ b. b.items) result
            (block_items_at (hashes H.hash64 H.hash128) all (range_of h))) }
        ensures place { IfOk result (λ b. AtHandle (placed S.bytes place.now source.old)
            self.now.index index (λ all h. IsBlockIn all (range_of h) b.items b.interval)) }
        ensures counts { CountsHandle steps.old steps.new self.now.interval index }
    {
        let handle = IndexSearch::new(self.index.by_ref()).handle_at(index, steps);
        place.data_block_from::<H, S>(alloc, source, &handle)
    }

    /// Returns where the index and the filter are.
    pub fn handles(&self) -> &RunHandles
        ensures { result.now ≡ self.now.handles }
    {
        &self.handles
    }

    /// Returns the filter, if there is one.
    pub fn filter(&self) -> Option<&FilterBlock>
        ensures { option_map (λ f. f.now.payload) result ≡ self.now.filter }
    {
        match &self.filter {
            None => None,
            Some(filter) => Some(filter.block()),
        }
    }

    /// Returns the index, with the table of its heads.
    pub fn index(&self) -> &IndexBlock
        ensures items { result.now.items ≡ self.now.index }
        ensures interval { result.now.interval ≡ self.now.interval }
        ensures heads { result.now.heads ≡ true }
    {
        &self.index
    }
}
