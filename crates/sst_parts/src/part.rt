//! Reading a part of a source: each frame that is read is verified and checked.
ghost use Rattle.std.specs.Prelude.{◌≡◌, ◌+◌, ◌<◌, ◌≤◌, ◌^◌, ℕ, List, IfErr, IfOk, IfSome, OnOk};
ghost use Rattle.std.specs.Prelude.{length};
ghost use Rattle.std.specs.Option.{option_map};
ghost use Rattle.sst_parts.specs.CachedParts.{IsOpenIn};
ghost use Rattle.sst_parts.specs.PartReaders.{read_open};
ghost use Rattle.sst_parts.specs.Parts.{most_by_places, places_in, read_part};
ghost use Rattle.sstable_blocks.specs.Lookup.{handle_for};
ghost use Rattle.sstable_blocks.specs.Opened.{range_of};
ghost use Rattle.sstable_blocks.specs.Prelude.{CountsBetween, handles};
ghost use Rattle.sstable_blocks.specs.ReadCosts.{find_cost};
ghost use Rattle.sstable_blocks.specs.RunPlaces.{IsInside, part_in};
ghost use Rattle.sstable_blocks.specs.RunReading.{hashes};
ghost use Rattle.sstable_blocks.specs.Sources.{AsksUpTo, FailsAs, ReadsAs, UsesSource};

use sstable_blocks::run::checked::read_entry_at;
use sstable_blocks::run::footer::FOOTER_LEN;
use sstable_blocks::run::{FrameSource, OpenRun, RunHandles, RunPlace, decode_footer};
use sstable_blocks::table::index_block::IndexBlockRef;
use sstable_blocks::{
    BlockHandle, BlockHash, BlockOffset, Error, IndexBlock, InternalValue, Result, SeqNo, Steps,
};
use std::alloc::Global;

// The length of the footer of a part, as a size of a frame.
const FOOTER: u32 = FOOTER_LEN as u32;

// The range of the first handle of an index that can lead to a key below a sequence number.
#[tactic(auto, using(sstable_blocks::specs::IndexStepLaws::handles_by_scan))]
pub(crate) fn find_in(
    index: &IndexBlockRef<'_>,
    needle: &[u8],
    seqno: SeqNo,
    steps: &mut Steps,
) -> Option<BlockHandle>
    ensures found { result
        ≡ option_map range_of (handle_for handles needle.now seqno index.now.items) }
    ensures counts { CountsBetween steps.old steps.new (1, 0)
        (find_cost index.now.interval (length index.now.items)) }
{
    index.find(needle, seqno, steps)
}

// The range of the part that can hold a key below a sequence number.
pub(crate) fn find_part(
    index: &IndexBlock,
    needle: &[u8],
    seqno: SeqNo,
    steps: &mut Steps,
) -> Option<BlockHandle>
    ensures found { result
        ≡ option_map range_of (handle_for handles needle.now seqno index.now.items) }
    ensures end { IfSome result (λ p. p.offset + p.size < 2 ^ 64) }
    ensures counts { CountsBetween steps.old steps.new (1, 0)
        (find_cost index.now.interval (length index.now.items)) }
{
    // Each part ends below 2^64.
    let _payload = index.as_slice();
    find_in(&index.by_ref(), needle, seqno, steps)
}

// The handles in the footer of a part.
pub(crate) fn places_from<S: FrameSource>(
    alloc: Global,
    source: &mut S,
    part: &BlockHandle,
) -> Result<RunHandles>
    requires { part.now.offset + part.now.size < 2 ^ 64 }
    ensures source { UsesSource S.bytes S.failures S.reads S.is_reliable
        (AsksUpTo 1) source.old source.new result }
    ensures inside { OnOk result (IsInside part.now (S.bytes source.old)) }
    ensures exact { ReadsAs S.bytes S.failures S.is_reliable source.old source.new (λ h. h) result
        (λ all. places_in all part.now) }
{
    let size = part.size();
    if size < FOOTER {
        return Err(Error::Truncated);
    }
    let start = *part.offset() + u64::from(size - FOOTER);
    let place = BlockHandle::new(BlockOffset(start), FOOTER);
    let footer = source.read_frame(alloc, &place)?;
    decode_footer(footer.as_slice())
}

// Opens the part in a range: reads its footer, its filter and its index.
pub(crate) fn open_part<H: BlockHash, S: FrameSource>(
    alloc: Global,
    source: &mut S,
    part: &BlockHandle,
) -> Result<OpenRun<H>>
    requires { part.now.offset + part.now.size < 2 ^ 64 }
    ensures source { UsesSource S.bytes S.failures S.reads S.is_reliable
        (AsksUpTo 3) source.old source.new result }
    ensures opened { IfOk result
        (IsOpenIn (hashes H.hash64 H.hash128) (S.bytes source.old) part.now) }
    ensures refused { IfErr result (λ e. IfSome (S.bytes source.old) (λ all. (needle : List ℕ)
        (seqno : ℕ) → FailsAs (S.failures source.old < S.failures source.new)
        (S.is_reliable source.old)
        (read_open (hashes H.hash64 H.hash128) all part.now needle seqno) e)) }
{
    let handles = places_from(alloc, source, part)?;
    let run = OpenRun::open(alloc, source, &RunPlace::Part(*part), handles)?;
    Ok(run)
}

// The first match in the part in a range: of the part the footer, the filter, the index and one
// block are read.
pub(crate) fn read_in_part<H: BlockHash, S: FrameSource>(
    alloc: Global,
    source: &mut S,
    part: &BlockHandle,
    needle: &[u8],
    seqno: SeqNo,
    steps: &mut Steps,
) -> Result<Option<InternalValue>>
    requires { part.now.offset + part.now.size < 2 ^ 64 }
    ensures source { UsesSource S.bytes S.failures S.reads S.is_reliable
        (AsksUpTo 4) source.old source.new result }
    ensures exact { ReadsAs S.bytes S.failures S.is_reliable source.old source.new (λ x. x) result
        (λ all. read_part (hashes H.hash64 H.hash128) all part.now needle.now seqno) }
    ensures counts { IfSome (S.bytes source.old) (λ all.
        CountsBetween steps.old steps.new (0, 0)
        (most_by_places (part_in all part.now) (places_in all part.now) needle.now seqno)) }
    ensures looked { steps.old.heads ≤ steps.new.heads }
{
    let handles = places_from(alloc, source, part)?;
    let place = RunPlace::Part(*part);
    read_entry_at::<H, S>(alloc, source, &place, &handles, needle, seqno, steps)
}
