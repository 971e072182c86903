//! Parts that are read through a cache of open parts and one of their blocks.
ghost use Rattle.std.specs.Prelude.{◌≡◌, ◌⊎◌, ◌+◌, ◌-◌, ◌<◌, ◌≤◌, ◌^◌, ℕ, List, None, IfOk, IfSome};
ghost use Rattle.std.specs.Prelude.{◌++◌, ◌∷◌, [], IfErr, IsErr, IsSome, OnErr, Some, length, slice_get};
ghost use Rattle.sst_parts.specs.CachedBlocks.{IsAdded};
ghost use Rattle.sst_parts.specs.CachedParts.{AreAdded, IsOpenIn, LeavesCaches, ReadsNewPart, ReadsPart};
ghost use Rattle.sst_parts.specs.CachedParts.{ReadsPartIn, filter_bytes};
ghost use Rattle.sst_parts.specs.CachedParts.{cached_frames, frames_of_part, open_bytes, part_for};
ghost use Rattle.sst_parts.specs.CachedBlocks.{ReadsBlock, block_of_run};
ghost use Rattle.sst_parts.specs.Caches.{IsLatest, kept_at, place_at};
ghost use Rattle.sst_parts.specs.PartReaders.{read_open, read_open_by_top};
ghost use Rattle.sst_parts.specs.Parts.{FindsInParts, most_by_places, parted_most, places_in};
ghost use Rattle.sstable_blocks.specs.Lookup.{handle_for};
ghost use Rattle.sstable_blocks.specs.Prelude.{CountsBetween, handles};
ghost use Rattle.sstable_blocks.specs.RunPlaces.{part_in};
ghost use Rattle.sstable_blocks.specs.RunReading.{hashes};
ghost use Rattle.sstable_blocks.specs.Sources.{AsksUpTo, ReadsAs, UsesSource};
ghost use Rattle.sstable_blocks.specs.declared.run.place.RunPlace.TheVariants.{Part};

use crate::block_cache::{BlockCache, get_through};
use crate::cache::{Cache, Cached};
use crate::part::{find_part, open_part};
use sstable_blocks::run::{FrameSource, OpenRun, RunPlace};
use sstable_blocks::{
    BlockHandle, BlockHash, Error, IndexBlock, InternalValue, Result, SeqNo, Steps,
};
use std::alloc::Global;

/// A cache of parts that were opened: of each its filter and its index. A part is counted for the
/// bytes of their frames.
pub type PartCache<H> = Cache<OpenRun<H>>;

// How many bytes the frame of a filter has, if there is one.
fn filter_len(filter: &Option<BlockHandle>) -> u64
    ensures value { result ≡ filter_bytes filter.now }
    ensures fits { result < 2 ^ 32 }
{
    match filter {
        None => 0,
        Some(handle) => u64::from(handle.size()),
    }
}

impl<H: BlockHash> Cached for OpenRun<H> {
    ghost is_of = { IsOpenIn (hashes H.hash64 H.hash128) };

    ghost size = { open_bytes };

    fn byte_count(&self) -> u64 {
        let handles = self.handles();
        u64::from(handles.index.size()) + filter_len(&handles.filter)
    }
}

/// The numbers that two caches gave a table: one of parts, and one of blocks.
#[derive(Clone, Copy, Debug)]
pub struct Numbers {
    /// That of the cache of parts.
    pub of_parts: u64,
    /// That of the cache of blocks.
    pub of_blocks: u64,
}

// The first match of the part in a range, which is open.
fn read_open_part<H: BlockHash, S: FrameSource>(
    alloc: Global,
    source: &mut S,
    run: &OpenRun<H>,
    range: &BlockHandle,
    blocks: &mut BlockCache<H>,
    number: u64,
    needle: &[u8],
    seqno: SeqNo,
    steps: &mut Steps,
) -> Result<Option<InternalValue>>
    requires opened { IsOpenIn (hashes H.hash64 H.hash128) (S.bytes source.old) range.now run.now }
    requires added { IsAdded S.bytes blocks.old number source.old }
    ensures source { UsesSource S.bytes S.failures S.reads S.is_reliable
        (AsksUpTo (frames_of_part H.hash64 blocks.old.kept number range.now (Some run.now)
        needle.now seqno)) source.old source.new result }
    ensures exact { ReadsAs S.bytes S.failures S.is_reliable source.old source.new (λ x. x) result
        (λ all. read_open (hashes H.hash64 H.hash128) all range.now needle.now seqno) }
    ensures counts { IfSome (S.bytes source.old) (λ all.
        CountsBetween steps.old steps.new (0, 0)
        (most_by_places (part_in all range.now) (places_in all range.now) needle.now seqno)) }
    ensures looked { steps.old.heads ≤ steps.new.heads }
    ensures blocks { ReadsBlock (hashes H.hash64 H.hash128) blocks.old number
        (block_of_run H.hash64 (Part range.now) run.now needle.now seqno) result blocks.new }
{
    let place = RunPlace::Part(*range);
    get_through(
        alloc, source, &place, run, blocks, number, needle, seqno, steps,
    )
}

// The first match of the part in a range, which was looked up and found.
fn read_kept<H: BlockHash, S: FrameSource>(
    alloc: Global,
    source: &mut S,
    parts: &PartCache<H>,
    blocks: &mut BlockCache<H>,
    numbers: &Numbers,
    range: &BlockHandle,
    needle: &[u8],
    seqno: SeqNo,
    steps: &mut Steps,
) -> Result<Option<InternalValue>>
    requires kept { IsSome (kept_at parts.now.kept (place_at numbers.now.of_parts range.now)) }
    requires latest { IsLatest parts.now.kept (place_at numbers.now.of_parts range.now) }
    requires added { AreAdded S.bytes parts.now blocks.old numbers.now source.old }
    ensures source { UsesSource S.bytes S.failures S.reads S.is_reliable
        (AsksUpTo (frames_of_part H.hash64 blocks.old.kept numbers.now.of_blocks range.now
        (kept_at parts.now.kept (place_at numbers.now.of_parts range.now)) needle.now seqno))
        source.old source.new result }
    ensures exact { ReadsAs S.bytes S.failures S.is_reliable source.old source.new (λ x. x) result
        (λ all. read_open (hashes H.hash64 H.hash128) all range.now needle.now seqno) }
    ensures counts { IfSome (S.bytes source.old) (λ all.
        CountsBetween steps.old steps.new (0, 0)
        (most_by_places (part_in all range.now) (places_in all range.now) needle.now seqno)) }
    ensures looked { steps.old.heads ≤ steps.new.heads }
    ensures blocks { IfSome (kept_at parts.now.kept (place_at numbers.now.of_parts range.now))
        (λ r. ReadsBlock (hashes H.hash64 H.hash128) blocks.old numbers.now.of_blocks
        (block_of_run H.hash64 (Part range.now) r needle.now seqno) result blocks.new) }
{
    match parts.latest() {
        Some(run) => read_open_part(
            alloc,
            source,
            run,
            range,
            blocks,
            numbers.of_blocks,
            needle,
            seqno,
            steps,
        ),
        None => unreachable!(),
    }
}

// The first match of the part in a range, which is not kept: it is opened, and kept then.
fn read_new<H: BlockHash, S: FrameSource>(
    alloc: Global,
    source: &mut S,
    parts: &mut PartCache<H>,
    blocks: &mut BlockCache<H>,
    numbers: &Numbers,
    range: &BlockHandle,
    needle: &[u8],
    seqno: SeqNo,
    steps: &mut Steps,
) -> Result<Option<InternalValue>>
    requires range { range.now.offset + range.now.size < 2 ^ 64 }
    requires absent { kept_at parts.old.kept (place_at numbers.now.of_parts range.now) ≡ None }
    requires added { AreAdded S.bytes parts.old blocks.old numbers.now source.old }
    ensures source { UsesSource S.bytes S.failures S.reads S.is_reliable
        (AsksUpTo 4) source.old source.new result }
    ensures exact { ReadsAs S.bytes S.failures S.is_reliable source.old source.new (λ x. x) result
        (λ all. read_open (hashes H.hash64 H.hash128) all range.now needle.now seqno) }
    ensures counts { IfSome (S.bytes source.old) (λ all.
        CountsBetween steps.old steps.new (0, 0)
        (most_by_places (part_in all range.now) (places_in all range.now) needle.now seqno)) }
    ensures looked { steps.old.heads ≤ steps.new.heads }
    ensures caches { ReadsNewPart (hashes H.hash64 H.hash128)
        (record { parts = parts.old; blocks = blocks.old }) numbers.now range.now needle.now seqno
        result (record { parts = parts.new; blocks = blocks.new }) }
{
    let run = open_part::<H, S>(alloc, source, range)?;
    let found = read_open_part(
        alloc,
        source,
        &run,
        range,
        blocks,
        numbers.of_blocks,
        needle,
        seqno,
        steps,
    );
    parts.keep(numbers.of_parts, range, run);
    found
}

// The first match of the part in a range, which is opened only where it is not kept.
fn read_part_through<H: BlockHash, S: FrameSource>(
    alloc: Global,
    source: &mut S,
    parts: &mut PartCache<H>,
    blocks: &mut BlockCache<H>,
    numbers: &Numbers,
    range: &BlockHandle,
    needle: &[u8],
    seqno: SeqNo,
    steps: &mut Steps,
) -> Result<Option<InternalValue>>
    requires range { range.now.offset + range.now.size < 2 ^ 64 }
    requires added { AreAdded S.bytes parts.old blocks.old numbers.now source.old }
    ensures source { UsesSource S.bytes S.failures S.reads S.is_reliable
        (AsksUpTo (frames_of_part H.hash64 blocks.old.kept numbers.now.of_blocks range.now
        (kept_at parts.old.kept (place_at numbers.now.of_parts range.now)) needle.now seqno))
        source.old source.new result }
    ensures exact { ReadsAs S.bytes S.failures S.is_reliable source.old source.new (λ x. x) result
        (λ all. read_open (hashes H.hash64 H.hash128) all range.now needle.now seqno) }
    ensures counts { IfSome (S.bytes source.old) (λ all.
        CountsBetween steps.old steps.new (0, 0)
        (most_by_places (part_in all range.now) (places_in all range.now) needle.now seqno)) }
    ensures looked { steps.old.heads ≤ steps.new.heads }
    ensures caches { ReadsPart (hashes H.hash64 H.hash128)
        (record { parts = parts.old; blocks = blocks.old }) numbers.now range.now
        (kept_at parts.old.kept (place_at numbers.now.of_parts range.now)) needle.now seqno
        result (record { parts = parts.new; blocks = blocks.new }) }
{
    if parts.look_up(numbers.of_parts, range) {
        return read_kept(
            alloc, source, parts, blocks, numbers, range, needle, seqno, steps,
        );
    }
    read_new(
        alloc, source, parts, blocks, numbers, range, needle, seqno, steps,
    )
}

// The first match by the index of the parts, of which one is opened only where it is not kept.
pub(crate) fn get_by_tops<H: BlockHash, S: FrameSource>(
    alloc: Global,
    source: &mut S,
    index: &IndexBlock,
    parts: &mut PartCache<H>,
    blocks: &mut BlockCache<H>,
    numbers: &Numbers,
    needle: &[u8],
    seqno: SeqNo,
    steps: &mut Steps,
) -> Result<Option<InternalValue>>
    requires added { AreAdded S.bytes parts.old blocks.old numbers.now source.old }
    ensures source { UsesSource S.bytes S.failures S.reads S.is_reliable
        (AsksUpTo (cached_frames H.hash64 parts.old.kept blocks.old.kept numbers.now
        (part_for index.now.items needle.now seqno) needle.now seqno))
        source.old source.new result }
    ensures exact { ReadsAs S.bytes S.failures S.is_reliable source.old source.new (λ x. x) result
        (λ all. read_open_by_top (hashes H.hash64 H.hash128) all
        (handle_for handles needle.now seqno index.now.items) needle.now seqno) }
    ensures counts { IfSome (S.bytes source.old)
        (λ all. CountsBetween steps.old steps.new (1, 0)
        (parted_most all index.now.items index.now.interval needle.now seqno)) }
    ensures looked { steps.old.heads < steps.new.heads }
    ensures caches { ReadsPartIn (hashes H.hash64 H.hash128)
        (record { parts = parts.old; blocks = blocks.old }) numbers.now
        (part_for index.now.items needle.now seqno) needle.now seqno
        result (record { parts = parts.new; blocks = blocks.new }) }
{
    let Some(range) = find_part(index, needle, seqno, steps) else {
        return Ok(None);
    };
    read_part_through(
        alloc, source, parts, blocks, numbers, &range, needle, seqno, steps,
    )
}
