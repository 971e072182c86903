//! Checking whole runs.
ghost use Rattle.std.specs.Prelude.{◌≡◌, ◌≢◌, ◌+◌, ◌<◌, ◌^◌, false, Ok, length, OnOk, IfOk, IfErr};
ghost use Rattle.std.specs.Prelude.{IfSome, IsOkUnless};
ghost use Rattle.sst_base.specs.Bytes.{IsBytes};
ghost use Rattle.sst_base.specs.declared.error.Error.TheVariants.{Io};
ghost use Rattle.sstable_blocks.specs.RunChecks.{starts_after, is_end, allows, first_after};
ghost use Rattle.sstable_blocks.specs.RunChecks.{check_entries as entries_checked};
ghost use Rattle.sstable_blocks.specs.RunChecks.{check_items as items_checked};
ghost use Rattle.sstable_blocks.specs.RunChecks.{check_block as block_checked, check_from};
ghost use Rattle.sstable_blocks.specs.RunChecks.{check_by_index as index_checked, none_passed};
ghost use Rattle.sstable_blocks.specs.RunChecks.{check_run as run_checked, summary_by, summary_of};
ghost use Rattle.sstable_blocks.specs.RunReading.{hashes};
ghost use Rattle.sstable_blocks.specs.Sound.{ForSound, IsSummary};
ghost use Rattle.sstable_blocks.specs.FrameCounts.{blocks_frames, check_frames, frames_by_index};
ghost use Rattle.sstable_blocks.specs.Sources.{AsksAs, AsksExactly, AsksIfOk, GivesOr, ReadsAs};
ghost use Rattle.sstable_blocks.specs.Sources.{UsesSource, filter_frames};
ghost use Rattle.sstable_blocks.specs.Walks.{place_frames};

use super::RunHandles;
use super::checked::{block_from, data_block_from, index_block_from};
use super::laws::{accepted_run_is_sound, sound_run_is_accepted};
use super::source::FrameSource;
use crate::table::filter::standard_bloom::StandardBloomFilterReader;
use sst_base::{BlockHandle, BlockHash, BlockType, Error, Result, SeqNo, Slice, UserKey};
use sst_block_core::table::block::ParsedItem;
use sst_block_core::table::data_block::EntryView;
use sst_block_core::{DataBlock, IndexBlock, KeyedBlockHandle};
use std::alloc::Global;

/// What a check of a run counted.
#[derive(Debug, Drop)]
pub struct RunSummary {
    /// The number of blocks.
    pub blocks: usize,
    /// The number of entries, or 2^64 - 1 if there are more.
    pub entries: u64,
    /// The user key of the first entry.
    pub first_key: UserKey,
    /// The sequence number of the first entry.
    pub first_seqno: SeqNo,
    /// The user key of the last entry.
    pub last_key: UserKey,
    /// The sequence number of the last entry.
    pub last_seqno: SeqNo,
    /// The least sequence number.
    pub least_seqno: SeqNo,
    /// The greatest sequence number.
    pub greatest_seqno: SeqNo,
}

// What a check knows after some blocks: where the next frame begins, the handle of the last block,
// and what is counted; of the first entry the key and the sequence number.
#[derive(Drop)]
struct Passed {
    offset: u64,
    last: Option<KeyedBlockHandle>,
    entries: u64,
    first: (UserKey, SeqNo),
    least: SeqNo,
    greatest: SeqNo,
}

impl Passed {
    // Before the first block.
    fn none(alloc: Global) -> Passed
        ensures { result ≡ none_passed }
    {
        Passed {
            offset: 0,
            last: None,
            entries: 0,
            first: (Slice::empty(alloc), 0),
            least: SeqNo::MAX,
            greatest: 0,
        }
    }

    // The summary of this number of blocks.
    fn summary(self, blocks: usize) -> Result<RunSummary>
        ensures ok { IfOk result (λ s. s ≡ summary_by blocks self) }
        ensures memory { IsOkUnless result Error.Memory }
    {
        let (first_key, first_seqno) = self.first;
        let (last_key, last_seqno) = match &self.last {
            None => (first_key.clone()?, first_seqno),
            Some(last) => (last.end_key().clone()?, last.seqno()),
        };
        Ok(RunSummary {
            blocks,
            entries: self.entries,
            first_key,
            first_seqno,
            last_key,
            last_seqno,
            least_seqno: self.least,
            greatest_seqno: self.greatest,
        })
    }
}

// Whether the first entry of a block does not sort before the last one of the block before.
fn starts_after_end<H: BlockHash>(last: &Option<KeyedBlockHandle>, block: &DataBlock<H>) -> bool
    ensures { result ≡ starts_after last.now block.now.items }
{
    match last {
        None => true,
        Some(last) => match block.entries().next() {
            None => true,
            Some(entry) => {
                let by_key = entry.compare_key(last.end_key().as_slice());
                !by_key.then(last.seqno().cmp(&entry.seqno())).is_lt()
            }
        },
    }
}

// Whether an entry has the end key and the sequence number of a handle.
fn is_end_of(handle: &KeyedBlockHandle, entry: &EntryView<'_>) -> bool
    ensures { result ≡ is_end handle.now entry.now }
{
    entry.seqno() == handle.seqno() && entry.compare_key(handle.end_key().as_slice()).is_eq()
}

// Whether a filter, if there is one, may contain the key of an entry.
fn is_allowed<H: BlockHash>(
    alloc: Global,
    filter: &Option<StandardBloomFilterReader<'_>>,
    entry: &EntryView<'_>,
) -> Result<bool>
    ensures ok { IfOk result (λ b. b ≡ allows H.hash64 filter.now entry.now) }
    ensures memory { IsOkUnless result Error.Memory }
{
    match filter {
        None => Ok(true),
        Some(filter) => {
            let hash = entry.hash_key::<H>(alloc)?;
            Ok(filter.contains_hash(hash))
        }
    }
}

// Checks the entries of a block: the filter may contain each, and the last one is that of the
// handle. Returns the least and the greatest sequence number.
fn check_entries<H: BlockHash>(
    alloc: Global,
    filter: &Option<StandardBloomFilterReader<'_>>,
    handle: &KeyedBlockHandle,
    range: (SeqNo, SeqNo),
    block: &DataBlock<H>,
) -> Result<(SeqNo, SeqNo)>
    ensures exact { GivesOr ⊥ ⊥ (λ r. r) result
        (entries_checked H.hash64 filter.now handle.now false range block.now.items) }
    ensures not_io { IfErr result (λ e. e ≢ Io) }
{
    let (mut least, mut greatest) = range;
    let mut ends = false;
    for entry in block.by_ref().entries() {
        if !is_allowed::<H>(alloc, filter, &entry)? {
            return Err(Error::BadFilter);
        }
        least = least.min(entry.seqno());
        greatest = greatest.max(entry.seqno());
        ends = is_end_of(handle, &entry);
    }
    if ends {
        Ok((least, greatest))
    } else {
        Err(Error::BadHandle)
    }
}

// The key and the sequence number of a run's first entry, after a block more.
fn first_with<H: BlockHash>(
    alloc: Global,
    last: &Option<KeyedBlockHandle>,
    first: (UserKey, SeqNo),
    block: &DataBlock<H>,
) -> Result<(UserKey, SeqNo)>
    ensures ok { IfOk result (λ place. place ≡ first_after last.now first block.now.items) }
    ensures memory { IsOkUnless result Error.Memory }
{
    if last.is_some() {
        return Ok(first);
    }
    match block.entries().next() {
        None => Ok(first),
        Some(entry) => Ok((entry.to_user_key(alloc)?, entry.seqno())),
    }
}

// Checks the entries of a block after those of the blocks before.
fn check_items<H: BlockHash>(
    alloc: Global,
    filter: &Option<StandardBloomFilterReader<'_>>,
    passed: Passed,
    handle: KeyedBlockHandle,
    block: &DataBlock<H>,
) -> Result<Passed>
    requires { passed.offset + handle.size < 2 ^ 64 }
    ensures exact { GivesOr ⊥ ⊥ (λ s. s) result
        (items_checked H.hash64 filter.now passed handle block.now.items) }
    ensures not_io { IfErr result (λ e. e ≢ Io) }
{
    let Passed {
        offset,
        last,
        entries,
        first,
        least,
        greatest,
    } = passed;
    if !starts_after_end::<H>(&last, block) {
        return Err(Error::OutOfOrder);
    }
    let range = check_entries::<H>(alloc, filter, &handle, (least, greatest), block)?;
    let first = first_with::<H>(alloc, &last, first, block)?;
    Ok(Passed {
        offset: offset + u64::from(handle.size()),
        last: Some(handle),
        entries: entries.saturating_add(block.len() as u64),
        first,
        least: range.0,
        greatest: range.1,
    })
}

// Checks the block of a handle, whose frame begins where that of the block before ends.
#[tactic(auto, unfolding(crate::specs::RunChecks::check_block))]
fn check_block<H: BlockHash, S: FrameSource>(
    alloc: Global,
    source: &mut S,
    filter: &Option<StandardBloomFilterReader<'_>>,
    passed: Passed,
    handle: KeyedBlockHandle,
) -> Result<Passed>
    requires { handle.offset + handle.size < 2 ^ 64 }
    ensures source { UsesSource S.bytes S.failures S.reads S.is_reliable
        (AsksExactly (place_frames passed.offset handle)) source.old source.new result }
    ensures placed { OnOk result (place_frames passed.offset handle ≡ 1) }
    ensures exact { ReadsAs S.bytes S.failures S.is_reliable source.old source.new (λ s. s) result
        (λ all. block_checked (hashes H.hash64 H.hash128) all filter.now passed handle) }
{
    if *handle.offset() != passed.offset {
        return Err(Error::BadHandle);
    }
    let block = data_block_from::<H, S>(alloc, source, handle.as_ref())?;
    check_items::<H>(alloc, filter, passed, handle, &block)
}

// Checks the blocks of an index.
fn check_blocks<H: BlockHash, S: FrameSource>(
    alloc: Global,
    source: &mut S,
    filter: &Option<StandardBloomFilterReader<'_>>,
    index: &IndexBlock,
) -> Result<Passed>
    ensures source { UsesSource S.bytes S.failures S.reads S.is_reliable
        (AsksIfOk (λ _. length index.now.items)) source.old source.new result }
    ensures asked { AsksAs S.bytes S.failures S.reads source.old source.new result
        (λ all. blocks_frames (hashes H.hash64 H.hash128) all filter.now none_passed
        index.now.items) }
    ensures exact { ReadsAs S.bytes S.failures S.is_reliable source.old source.new (λ s. s) result
        (λ all. check_from (hashes H.hash64 H.hash128) all filter.now none_passed index.now.items) }
{
    let payload = index.as_slice();
    let mut passed = Passed::none(alloc);
    for item in index.iter() {
        let handle = item.materialize(alloc, payload)?;
        passed = check_block::<H, S>(alloc, source, filter, passed, handle)?;
    }
    Ok(passed)
}

// Checks index and blocks.
fn check_by_index<H: BlockHash, S: FrameSource>(
    alloc: Global,
    source: &mut S,
    filter: &Option<StandardBloomFilterReader<'_>>,
    index: &BlockHandle,
) -> Result<RunSummary>
    ensures source { UsesSource S.bytes S.failures S.reads S.is_reliable
        (AsksIfOk (λ s. 1 + s.blocks)) source.old source.new result }
    ensures asked { AsksAs S.bytes S.failures S.reads source.old source.new result
        (λ all. frames_by_index (hashes H.hash64 H.hash128) all filter.now index.now) }
    ensures cells { OnOk result (IfSome (S.bytes source.old) IsBytes) }
    ensures exact { ReadsAs S.bytes S.failures S.is_reliable source.old source.new (λ s. s) result
        (λ all. index_checked (hashes H.hash64 H.hash128) all filter.now index.now) }
{
    let index = index_block_from::<H, S>(alloc, source, index)?;
    let passed = check_blocks::<H, S>(alloc, source, filter, &index)?;
    passed.summary(index.len())
}

// Checks filter, index and blocks.
#[tactic(auto, unfolding(crate::specs::RunChecks::check_run, crate::specs::FrameCounts::check_frames))]
fn check_in_stages<H: BlockHash, S: FrameSource>(
    alloc: Global,
    source: &mut S,
    handles: &RunHandles,
) -> Result<RunSummary>
    ensures source { UsesSource S.bytes S.failures S.reads S.is_reliable
        (AsksIfOk (λ s. filter_frames handles.now.filter + (1 + s.blocks)))
        source.old source.new result }
    ensures asked { AsksAs S.bytes S.failures S.reads source.old source.new result
        (λ all. check_frames (hashes H.hash64 H.hash128) all handles.now) }
    ensures cells { OnOk result (IfSome (S.bytes source.old) IsBytes) }
    ensures exact { ReadsAs S.bytes S.failures S.is_reliable source.old source.new (λ s. s) result
        (λ all. run_checked (hashes H.hash64 H.hash128) all handles.now) }
{
    match &handles.filter {
        None => check_by_index::<H, S>(alloc, source, &None, &handles.index),
        Some(handle) => {
            let block = block_from::<H, S>(alloc, source, handle, BlockType::Filter)?;
            let filter = StandardBloomFilterReader::new(block.data().as_slice())?;
            check_by_index::<H, S>(alloc, source, &Some(filter), &handles.index)
        }
    }
}

// States in a proof that the size of a filter's frame has 32 bits.
fn note_size(filter: &Option<BlockHandle>)
    ensures { IfSome filter.now (λ h. h.size < 2 ^ 32) }
{
    if let Some(handle) = filter {
        let _fits = handle.size();
    }
}

/// Checks a whole run of any bytes: accepts exactly a sound run, for which [`super::read_entry`]
/// may then be used. Each frame is read once and verified, each payload checked. The frames of the
/// blocks follow each other from offset 0; no entry sorts before its predecessor, within a block or
/// across blocks; each handle of the index has the key and the sequence number of its block's last
/// entry; and the filter, if there is one, may contain each key.
///
/// Returns the numbers of blocks and of entries, the keys and the sequence numbers of the first and
/// the last entry, and the least and the greatest sequence number.
///
/// # Errors
///
/// The first one met, in this order: for the filter, if there is one, those of its frame
/// (`FrameSource::read_frame`, `Block::from_frame`), `Error::InvalidTag` if it is of another type,
/// and those of `StandardBloomFilterReader::new`; for the index those of its frame, its type, and
/// `IndexBlock::check_once`; then for each block `Error::BadHandle` if its frame does not begin
/// where that of the block before ends, those of its frame, its type and `DataBlock::check_once`,
/// `Error::OutOfOrder` if its first entry sorts before the last one of the block before,
/// `Error::BadFilter` if the filter rules a key out, and `Error::BadHandle` if its last entry is
/// not that of its handle. `Error::Io` only where the source failed. `Error::Memory` if an
/// allocation fails.
pub fn check<H: BlockHash, S: FrameSource>(
    alloc: Global,
    source: &mut S,
    handles: &RunHandles,
) -> Result<RunSummary>
    ensures source { UsesSource S.bytes S.failures S.reads S.is_reliable
        (AsksIfOk (λ s. filter_frames handles.now.filter + (1 + s.blocks)))
        source.old source.new result }
    ensures asked { AsksAs S.bytes S.failures S.reads source.old source.new result
        (λ all. check_frames (hashes H.hash64 H.hash128) all handles.now) }
    ensures exact { ReadsAs S.bytes S.failures S.is_reliable source.old source.new (λ s. s) result
        (λ all. run_checked (hashes H.hash64 H.hash128) all handles.now) }

    // What is accepted is a sound run, and the summary is that of its blocks.
    ensures sound { IfSome (S.bytes source.old)
        (λ all. IfOk result (IsSummary (hashes H.hash64 H.hash128) all handles.now)) }

    // A sound run is accepted.
    ensures accepts { IfSome (S.bytes source.old)
        (λ all. ForSound (hashes H.hash64 H.hash128) all handles.now
        (λ blocks. GivesOr (S.failures source.old < S.failures source.new)
        (S.is_reliable source.old) (λ s. s) result (Ok (summary_of blocks)))) }
{
    accepted_run_is_sound();
    sound_run_is_accepted();
    note_size(&handles.filter);
    // The size of the index has 32 bits.
    let _fits = handles.index.size();
    check_in_stages::<H, S>(alloc, source, handles)
}
