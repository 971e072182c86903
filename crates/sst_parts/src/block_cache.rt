//! Runs that are read through a cache of their blocks.
ghost use Rattle.std.specs.Prelude.{◌≡◌, ◌<◌, ◌⊎◌, ℕ, List, Option, Some, None, IfSome, slice_get};
ghost use Rattle.std.specs.Prelude.{IsErr, IsOkUnless, IsSome, length};
ghost use Rattle.std.specs.Option.{option_map};
ghost use Rattle.sst_parts.specs.CachedBlocks.{IsBlockOf, IsReadOf, ReadsBlock, ReadsPlace};
ghost use Rattle.sst_parts.specs.CachedBlocks.{block_bytes, block_frames, block_of_run, entries_in};
ghost use Rattle.sst_parts.specs.CachedBlocks.{first_at, frames_for, heads_in};
ghost use Rattle.sst_parts.specs.Caches.{IsLatest, KeepsNew, kept_at, place_at};
ghost use Rattle.sstable_blocks.specs.Opened.{range_of};
ghost use Rattle.sstable_blocks.specs.Prelude.{CountsBetween, Handle, HandleParts, digits, entries};
ghost use Rattle.sstable_blocks.specs.ReadCosts.{CountsGrow, CountsRead, entries_at, heads_at};
ghost use Rattle.sstable_blocks.specs.RunPlaces.{IsPlaced, frame_of, placed};
ghost use Rattle.sstable_blocks.specs.RunReading.{hashes, read_block, read_checked};
ghost use Rattle.sstable_blocks.specs.Sources.{AsksExactly, GivesOr, ReadsAs, UsesSource};
ghost use Rattle.sstable_blocks.specs.Tables.{IsOpenedOf, LooksBy, kept_says};

use crate::cache::{Cache, Cached};
use sstable_blocks::run::checked::data_block_from;
use sstable_blocks::run::{FrameSource, OpenRun, RunPlace};
use sstable_blocks::{
    BlockHandle, BlockHash, DataBlock, Error, InternalValue, Result, SeqNo, Steps,
};
use std::alloc::Global;

/// A cache of data blocks that were verified and checked. A block is counted for the bytes of its
/// payload.
pub type BlockCache<H> = Cache<DataBlock<H>>;

impl<H: BlockHash> Cached for DataBlock<H> {
    ghost is_of = { IsBlockOf (hashes H.hash64 H.hash128) };

    ghost size = { block_bytes };

    fn byte_count(&self) -> u64 {
        self.as_slice().len() as u64
    }
}

// The first match in the block in a range of a table's source, which is not kept: it is read, and
// kept then.
fn read_new<H: BlockHash, S: FrameSource>(
    alloc: Global,
    source: &mut S,
    cache: &mut BlockCache<H>,
    number: u64,
    range: &BlockHandle,
    needle: &[u8],
    seqno: SeqNo,
    steps: &mut Steps,
) -> Result<Option<InternalValue>>
    requires added { slice_get cache.old.tables number ≡ Some (S.bytes source.old) }
    requires absent { kept_at cache.old.kept (place_at number range.now) ≡ None }
    ensures source { UsesSource S.bytes S.failures S.reads S.is_reliable
        (AsksExactly 1) source.old source.new result }
    ensures read { IsReadOf (hashes H.hash64 H.hash128) (S.bytes source.old) range.now needle.now
        seqno (S.failures source.old < S.failures source.new) (S.is_reliable source.old) result
        steps.old steps.new }
    ensures cache { KeepsNew (IsBlockOf (hashes H.hash64 H.hash128)) block_bytes cache.old
        (place_at number range.now) cache.new ⊎ (IsErr result × (cache.new ≡ cache.old)) }
{
    let block = data_block_from::<H, S>(alloc, source, range)?;
    let found = block.point_read(alloc, needle, seqno, steps);
    cache.keep(number, range, block);
    found
}

// The first match in the block in a range of a table's source, which is read only where it is not
// kept.
fn read_range<H: BlockHash, S: FrameSource>(
    alloc: Global,
    source: &mut S,
    cache: &mut BlockCache<H>,
    number: u64,
    range: &BlockHandle,
    needle: &[u8],
    seqno: SeqNo,
    steps: &mut Steps,
) -> Result<Option<InternalValue>>
    requires { slice_get cache.old.tables number ≡ Some (S.bytes source.old) }
    ensures source { UsesSource S.bytes S.failures S.reads S.is_reliable
        (AsksExactly (frames_for (kept_at cache.old.kept (place_at number range.now))))
        source.old source.new result }
    ensures read { IsReadOf (hashes H.hash64 H.hash128) (S.bytes source.old) range.now needle.now
        seqno (S.failures source.old < S.failures source.new) (S.is_reliable source.old) result
        steps.old steps.new }
    ensures cache { ReadsPlace (hashes H.hash64 H.hash128) cache.old number range.now
        (kept_at cache.old.kept (place_at number range.now)) result cache.new }
{
    if cache.look_up(number, range) {
        // (each function that passes a result on moves it)
        match cache.latest() {
            Some(block) => block.point_read(alloc, needle, seqno, steps),
            None => unreachable!(),
        }
    } else {
        read_new(alloc, source, cache, number, range, needle, seqno, steps)
    }
}

// The first match of a run that was opened, of which a block is read only where it is not kept.
pub(crate) fn get_through<H: BlockHash, S: FrameSource>(
    alloc: Global,
    source: &mut S,
    place: &RunPlace,
    run: &OpenRun<H>,
    cache: &mut BlockCache<H>,
    number: u64,
    needle: &[u8],
    seqno: SeqNo,
    steps: &mut Steps,
) -> Result<Option<InternalValue>>
    requires placed { IsPlaced place.now (S.bytes source.old) }
    requires opened { IsOpenedOf (hashes H.hash64 H.hash128)
        (placed S.bytes place.now source.old) run.now }
    requires added { slice_get cache.old.tables number ≡ Some (S.bytes source.old) }
    ensures source { UsesSource S.bytes S.failures S.reads S.is_reliable
        (AsksExactly (block_frames cache.old.kept number
        (block_of_run H.hash64 place.now run.now needle.now seqno)))
        source.old source.new result }
    ensures exact { ReadsAs (placed S.bytes place.now) S.failures S.is_reliable source.old
        source.new (λ x. x) result (λ all. read_checked (hashes H.hash64 H.hash128) all
        run.now.handles needle.now seqno) }
    ensures counts { IfSome (placed S.bytes place.now source.old)
        (λ all. CountsRead all run.now.handles needle.now seqno steps.old steps.new) }
    ensures looked { LooksBy (kept_says H.hash64 run.now.filter needle.now)
        steps.old steps.new }
    ensures cache { ReadsBlock (hashes H.hash64 H.hash128) cache.old number
        (block_of_run H.hash64 place.now run.now needle.now seqno) result cache.new }
{
    let Some(handle) = run.find_block(needle, seqno, steps) else {
        return Ok(None);
    };
    match place.frame(&handle) {
        None => Err(Error::BadHandle),
        Some(range) => read_range(alloc, source, cache, number, &range, needle, seqno, steps),
    }
}
