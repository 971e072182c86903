//! Reads of many keys of a parted table, one after the other.
ghost use Rattle.std.specs.Prelude.{◌≡◌, ◌+◌, ◌<◌, ◌≤◌, ◌^◌, None, Ok, Some, IfErr, IfOk, IfSome};
ghost use Rattle.std.specs.Prelude.{OnErr, OnOk, false, true, ℕ, List};
ghost use Rattle.sst_parts.specs.PartReaders.{IsOpenPart, IsPartsReaderOf, last_range, part_frames};
ghost use Rattle.sst_parts.specs.PartReaders.{needles_frames, read_open, read_open_by_top};
ghost use Rattle.sst_parts.specs.Parts.{places_in};
ghost use Rattle.sstable_blocks.specs.Lookup.{handle_for};
ghost use Rattle.sstable_blocks.specs.Prelude.{HandleParts, handles};
ghost use Rattle.sstable_blocks.specs.RunPlaces.{part_in};
ghost use Rattle.sstable_blocks.specs.RunReading.{hashes};
ghost use Rattle.sstable_blocks.specs.Sources.{AsksUpTo, FailsAs, ReadsAs, UsesSource};
ghost use Rattle.sstable_blocks.specs.Tables.{kept_of};

use crate::part::{find_part, open_part};
use sstable_blocks::run::{FrameSource, KeyReader, LastBlock, OpenRun, RunPlace};
use sstable_blocks::{BlockHandle, BlockHash, IndexBlock, InternalValue, Needle, Result, Steps};
use std::alloc::Global;
use std::marker::Model;

// A part that was opened: its range, what is kept of it, and the block of it that was read last.
#[derive(Drop)]
struct OpenPart<H: BlockHash> {
    range: BlockHandle,
    run: OpenRun<H>,
    last: LastBlock<H>,
}

impl<H: BlockHash> Model for OpenPart<H> {
    ghost use Rattle.sst_parts.specs.PartReaders.{OpenPartParts};

    ghost Value = { OpenPartParts };

    ghost view = { λ p. record { range = p.range; run = p.run; last = p.last } };
}

impl<H: BlockHash> OpenPart<H> {
    // Opens the part in a range: reads its footer, its filter and its index.
    fn open<S: FrameSource>(
        alloc: Global,
        source: &mut S,
        range: &BlockHandle,
    ) -> Result<OpenPart<H>>
        requires { range.now.offset + range.now.size < 2 ^ 64 }
        ensures source { UsesSource S.bytes S.failures S.reads S.is_reliable
            (AsksUpTo 3) source.old source.new result }
        ensures opened { IfOk result
            (IsOpenPart (hashes H.hash64 H.hash128) (S.bytes source.old)) }
        ensures fresh { IfOk result (λ p. (p.range ≡ range.now) × (p.last ≡ None)) }
        ensures refused { IfErr result (λ e. IfSome (S.bytes source.old) (λ all. (needle : List ℕ)
            (seqno : ℕ) → FailsAs (S.failures source.old < S.failures source.new)
            (S.is_reliable source.old)
            (read_open (hashes H.hash64 H.hash128) all range.now needle seqno) e)) }
    {
        let run = open_part(alloc, source, range)?;
        Ok(OpenPart {
            range: *range,
            run,
            last: LastBlock::new(),
        })
    }

    // The first match of the part.
    fn get<S: FrameSource>(
        &mut self,
        alloc: Global,
        source: &mut S,
        needle: &Needle<'_>,
        steps: &mut Steps,
    ) -> Result<Option<InternalValue>>
        requires { IsOpenPart (hashes H.hash64 H.hash128) (S.bytes source.old) self.old }
        ensures range { self.new.range ≡ self.old.range }
        ensures source { UsesSource S.bytes S.failures S.reads S.is_reliable
            (AsksUpTo 1) source.old source.new result }
        ensures opened { IsOpenPart (hashes H.hash64 H.hash128) (S.bytes source.old) self.new }
        ensures exact { ReadsAs S.bytes S.failures S.is_reliable source.old source.new (λ x. x)
            result (λ all. read_open (hashes H.hash64 H.hash128) all self.old.range
            needle.now.key.now needle.now.seqno) }
    {
        let place = RunPlace::Part(self.range);
        self.run
            .get_near(alloc, source, &place, &mut self.last, needle, steps)
    }
}

// Whether the part that was read last is that in a range.
fn is_at<H: BlockHash>(part: &Option<OpenPart<H>>, range: &BlockHandle) -> bool
    ensures same { result ≡ true → last_range part.now ≡ Some range.now }
    ensures kept { result ≡ true → part_frames (last_range part.now) (Some range.now) ≡ 1 }
    ensures other { result ≡ false → part_frames (last_range part.now) (Some range.now) ≡ 4 }
{
    match part {
        None => false,
        Some(part) => {
            *part.range.offset() == *range.offset() && part.range.size() == range.size()
        }
    }
}

// Opens the part in a range, if it is not the one that was read last.
fn open_at<H: BlockHash, S: FrameSource>(
    alloc: Global,
    source: &mut S,
    part: &mut Option<OpenPart<H>>,
    range: &BlockHandle,
) -> Result<()>
    requires range { range.now.offset + range.now.size < 2 ^ 64 }
    requires part { IfSome part.old (IsOpenPart (hashes H.hash64 H.hash128)
        (S.bytes source.old)) }
    ensures source { UsesSource S.bytes S.failures S.reads S.is_reliable
        (AsksUpTo 3) source.old source.new result }
    ensures few { S.reads source.new + 1
        ≤ S.reads source.old + part_frames (last_range part.old) (Some range.now) }
    ensures opened { IfSome part.new (IsOpenPart (hashes H.hash64 H.hash128)
        (S.bytes source.old)) }
    ensures at { OnOk result (last_range part.new ≡ Some range.now) }
    ensures unchanged { OnErr result (part.new ≡ part.old) }
    ensures refused { IfErr result (λ e. IfSome (S.bytes source.old) (λ all. (needle : List ℕ)
        (seqno : ℕ) → FailsAs (S.failures source.old < S.failures source.new)
        (S.is_reliable source.old)
        (read_open (hashes H.hash64 H.hash128) all range.now needle seqno) e)) }
{
    if is_at(part, range) {
        return Ok(());
    }
    let opened = OpenPart::open(alloc, source, range)?;
    *part = Some(opened);
    Ok(())
}

// The first match of the part that was read last.
fn read_last<H: BlockHash, S: FrameSource>(
    alloc: Global,
    source: &mut S,
    part: &mut Option<OpenPart<H>>,
    range: &BlockHandle,
    needle: &Needle<'_>,
    steps: &mut Steps,
) -> Result<Option<InternalValue>>
    requires at { last_range part.old ≡ Some range.now }
    requires part { IfSome part.old (IsOpenPart (hashes H.hash64 H.hash128)
        (S.bytes source.old)) }
    ensures at { last_range part.new ≡ Some range.now }
    ensures source { UsesSource S.bytes S.failures S.reads S.is_reliable
        (AsksUpTo 1) source.old source.new result }
    ensures opened { IfSome part.new (IsOpenPart (hashes H.hash64 H.hash128)
        (S.bytes source.old)) }
    ensures exact { ReadsAs S.bytes S.failures S.is_reliable source.old source.new (λ x. x) result
        (λ all. read_open (hashes H.hash64 H.hash128) all range.now needle.now.key.now
        needle.now.seqno) }
{
    match part {
        Some(part) => part.get(alloc, source, needle, steps),
        None => unreachable!(),
    }
}

/// Reads keys of a parted table, and keeps the part that was read last, and its block that was read
/// last.
///
/// Clauses see the handles of the parts, and the part that was read last.
#[derive(Drop)]
pub struct PartsReader<'a, H: BlockHash> {
    index: &'a IndexBlock,
    part: Option<OpenPart<H>>,
}

impl<'a, H: BlockHash> Model for PartsReader<'a, H> {
    ghost use Rattle.sst_parts.specs.PartReaders.{PartsReaderParts};

    ghost Value = { PartsReaderParts };

    ghost view = { λ r. record { tops = r.index.now.items; part = r.part } };
}

impl<'a, H: BlockHash> PartsReader<'a, H> {
    /// A reader by the index of the parts. No part was read.
    pub fn new(index: &'a IndexBlock) -> PartsReader<'a, H>
        ensures { result ≡ record { tops = index.now.items; part = None } }
    {
        PartsReader { index, part: None }
    }
}

impl<'a, H: BlockHash, S: FrameSource> KeyReader<S> for PartsReader<'a, H> {
    ghost reader_of = { IsPartsReaderOf (hashes H.hash64 H.hash128) };

    ghost answer = { λ r all key seqno. read_open_by_top (hashes H.hash64 H.hash128) all
        (handle_for handles key seqno r.tops) key seqno };

    ghost frames = { λ r needles. needles_frames r.tops (last_range r.part) needles };

    fn read(
        &mut self,
        alloc: Global,
        source: &mut S,
        needle: &Needle<'_>,
        steps: &mut Steps,
    ) -> Result<Option<InternalValue>> {
        let Some(range) = find_part(self.index, needle.key, needle.seqno, steps) else {
            return Ok(None);
        };
        open_at(alloc, source, &mut self.part, &range)?;
        read_last(alloc, source, &mut self.part, &range, needle, steps)
    }
}
