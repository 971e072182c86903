//! Checking whole parted tables.
ghost use Rattle.std.specs.Prelude.{◌≡◌, ◌≢◌, ◌+◌, ◌<◌, ◌^◌, length, IfErr, OnOk};
ghost use Rattle.sst_parts.specs.PartChecks.{begins_after, first_with, is_end_at, no_parts};
ghost use Rattle.sst_parts.specs.PartChecks.{check_bytes as bytes_checked, check_ends};
ghost use Rattle.sst_parts.specs.PartChecks.{check_file as file_checked};
ghost use Rattle.sst_parts.specs.PartChecks.{check_part as part_checked};
ghost use Rattle.sst_parts.specs.PartChecks.{check_parts as parts_checked, parts_frames};
ghost use Rattle.sst_parts.specs.PartChecks.{whole_with};
ghost use Rattle.sstable_blocks.specs.Results.{Io};
ghost use Rattle.sstable_blocks.specs.RunReading.{hashes};
ghost use Rattle.sstable_blocks.specs.Sources.{AsksAs, AsksExactly, AsksIfOk, GivesOr, ReadsAs};
ghost use Rattle.sstable_blocks.specs.Sources.{UsesSource};
ghost use Rattle.sstable_blocks.specs.Walks.{place_frames, walked};

use sstable_blocks::run::footer::read_table_footer;
use sstable_blocks::run::{FrameSource, MemorySource, RunSummary, check};
use sstable_blocks::table::block::ParsedItem;
use sstable_blocks::{
    BlockHash, Error, IndexBlock, KeyedBlockHandle, Result, SeqNo, Slice, UserKey,
};
use std::alloc::Global;

/// What a check of a parted table counted.
#[derive(Debug, Drop)]
pub struct PartedSummary {
    /// The number of parts.
    pub parts: usize,
    /// What was counted of the blocks and the entries of all parts. Of blocks too it is 2^64 - 1 if
    /// there are more.
    pub whole: RunSummary,
}

// What a check knows after some parts: where the next one begins, the handle of the last one, and
// what is counted of all.
#[derive(Drop)]
struct Passed {
    offset: u64,
    last: Option<KeyedBlockHandle>,
    whole: RunSummary,
}

impl Passed {
    // Before the first part.
    fn none(alloc: Global) -> Passed
        ensures { result ≡ no_parts }
    {
        Passed {
            offset: 0,
            last: None,
            whole: RunSummary {
                blocks: 0,
                entries: 0,
                first_key: Slice::empty(alloc),
                first_seqno: 0,
                last_key: Slice::empty(alloc),
                last_seqno: 0,
                least_seqno: SeqNo::MAX,
                greatest_seqno: 0,
            },
        }
    }
}

// Whether the first entry of a run does not sort before the last one of the part before.
fn starts_after(last: &Option<KeyedBlockHandle>, run: &RunSummary) -> bool
    ensures { result ≡ begins_after last.now run.now.first_key run.now.first_seqno }
{
    match last {
        None => true,
        Some(last) => {
            let by_key = run.first_key.cmp(last.end_key());
            !by_key.then(last.seqno().cmp(&run.first_seqno)).is_lt()
        }
    }
}

// Whether the last entry of a run is that of a handle.
fn ends_by(handle: &KeyedBlockHandle, run: &RunSummary) -> bool
    ensures { result ≡ is_end_at handle.now run.now.last_key run.now.last_seqno }
{
    run.last_seqno == handle.seqno() && run.last_key.cmp(handle.end_key()).is_eq()
}

// The key and the sequence number of the first entry of the parts before, if there are any, and of
// one more.
fn first_of(
    last: &Option<KeyedBlockHandle>,
    before: (UserKey, SeqNo),
    place: (UserKey, SeqNo),
) -> (UserKey, SeqNo)
    ensures { result ≡ first_with last.now before place }
{
    match last {
        None => place,
        Some(_) => before,
    }
}

// What is counted of the parts before, if there are any, and of one more.
fn count_with(last: &Option<KeyedBlockHandle>, before: RunSummary, run: RunSummary) -> RunSummary
    ensures { result ≡ whole_with last.now before run }
{
    let first = (before.first_key, before.first_seqno);
    let place = (run.first_key, run.first_seqno);
    let (first_key, first_seqno) = first_of(last, first, place);
    RunSummary {
        blocks: before.blocks.saturating_add(run.blocks),
        entries: before.entries.saturating_add(run.entries),
        first_key,
        first_seqno,
        last_key: run.last_key,
        last_seqno: run.last_seqno,
        least_seqno: before.least_seqno.min(run.least_seqno),
        greatest_seqno: before.greatest_seqno.max(run.greatest_seqno),
    }
}

// Checks that the run of a part follows the parts before, and ends as its handle says.
fn pass_run(passed: Passed, handle: KeyedBlockHandle, run: RunSummary) -> Result<Passed>
    requires { passed.offset + handle.size < 2 ^ 64 }
    ensures exact { result ≡ check_ends passed handle run }
    ensures not_io { IfErr result (λ e. e ≢ Io) }
{
    let Passed {
        offset,
        last,
        whole,
    } = passed;
    if !starts_after(&last, &run) {
        return Err(Error::OutOfOrder);
    }
    if !ends_by(&handle, &run) {
        return Err(Error::BadHandle);
    }
    let whole = count_with(&last, whole, run);
    Ok(Passed {
        offset: offset + u64::from(handle.size()),
        last: Some(handle),
        whole,
    })
}

// Checks a table file in memory: its footer, then its run.
#[tactic(auto, unfolding(crate::specs::PartChecks::check_file))]
fn check_file<H: BlockHash>(alloc: Global, file: Slice) -> Result<RunSummary>
    ensures exact { GivesOr ⊥ ⊥ (λ s. s) result
        (file_checked (hashes H.hash64 H.hash128) file) }
    ensures not_io { IfErr result (λ e. e ≢ Io) }
{
    let mut source = MemorySource::new(file);
    let handles = read_table_footer::<MemorySource>(alloc, &mut source)?;
    check::<H, MemorySource>(alloc, &mut source, &handles)
}

// Checks the bytes of a part.
fn check_bytes<H: BlockHash>(
    alloc: Global,
    passed: Passed,
    handle: KeyedBlockHandle,
    file: Slice,
) -> Result<Passed>
    requires { passed.offset + handle.size < 2 ^ 64 }
    ensures exact { GivesOr ⊥ ⊥ (λ s. s) result
        (bytes_checked (hashes H.hash64 H.hash128) passed handle file) }
    ensures not_io { IfErr result (λ e. e ≢ Io) }
{
    let run = check_file::<H>(alloc, file)?;
    pass_run(passed, handle, run)
}

// Checks the part of a handle, which begins where the part before ends, and is read whole.
#[tactic(auto, unfolding(crate::specs::PartChecks::check_part))]
fn check_part<H: BlockHash, S: FrameSource>(
    alloc: Global,
    source: &mut S,
    passed: Passed,
    handle: KeyedBlockHandle,
) -> Result<Passed>
    requires { handle.offset + handle.size < 2 ^ 64 }
    ensures source { UsesSource S.bytes S.failures S.reads S.is_reliable
        (AsksExactly (place_frames passed.offset handle)) source.old source.new result }
    ensures placed { OnOk result (place_frames passed.offset handle ≡ 1) }
    ensures exact { ReadsAs S.bytes S.failures S.is_reliable source.old source.new (λ s. s) result
        (λ all. part_checked (hashes H.hash64 H.hash128) all passed handle) }
{
    if *handle.offset() != passed.offset {
        return Err(Error::BadHandle);
    }
    let file = source.read_frame(alloc, handle.as_ref())?;
    check_bytes::<H>(alloc, passed, handle, file)
}

// Checks the parts of an index, one after the other.
fn pass_parts<H: BlockHash, S: FrameSource>(
    alloc: Global,
    source: &mut S,
    index: &IndexBlock,
) -> Result<Passed>
    ensures source { UsesSource S.bytes S.failures S.reads S.is_reliable
        (AsksIfOk (λ _. length index.now.items)) source.old source.new result }
    ensures asked { AsksAs S.bytes S.failures S.reads source.old source.new result
        (λ all. parts_frames (hashes H.hash64 H.hash128) all index.now.items) }
    ensures exact { ReadsAs S.bytes S.failures S.is_reliable source.old source.new (λ s. s) result
        (λ all. walked (part_checked (hashes H.hash64 H.hash128) all) no_parts index.now.items) }
{
    let payload = index.as_slice();
    let mut passed = Passed::none(alloc);
    for item in index.iter() {
        let handle = item.materialize(alloc, payload)?;
        passed = check_part::<H, S>(alloc, source, passed, handle)?;
    }
    Ok(passed)
}

// Checks the parts of an index, and returns their summary.
pub(crate) fn check_parts<H: BlockHash, S: FrameSource>(
    alloc: Global,
    source: &mut S,
    index: &IndexBlock,
) -> Result<PartedSummary>
    ensures source { UsesSource S.bytes S.failures S.reads S.is_reliable
        (AsksIfOk (λ s. s.parts)) source.old source.new result }
    ensures asked { AsksAs S.bytes S.failures S.reads source.old source.new result
        (λ all. parts_frames (hashes H.hash64 H.hash128) all index.now.items) }
    ensures exact { ReadsAs S.bytes S.failures S.is_reliable source.old source.new (λ s. s) result
        (λ all. parts_checked (hashes H.hash64 H.hash128) all index.now.items) }
{
    let passed = pass_parts::<H, S>(alloc, source, index)?;
    Ok(PartedSummary {
        parts: index.len(),
        whole: passed.whole,
    })
}
