//! Reads of many keys of a table, one after the other.
ghost use Rattle.std.specs.Prelude.{◌≡◌, ◌+◌, ◌<◌, ◌≤◌, ◌∷◌, [], ℕ, List, Option, None, Result, Some};
ghost use Rattle.std.specs.Prelude.{IfErr, IfOk, IfSome, IsOkUnless, OnErr, OnOk, false, true};
ghost use Rattle.std.specs.Prelude.{length};
ghost use Rattle.sst_base.specs.Entry.{Entry};
ghost use Rattle.sst_base.specs.declared.error.Error.{Error};
ghost use Rattle.sst_block_core.specs.Entries.{entries};
ghost use Rattle.sst_block_core.specs.Window.{first_match};
ghost use Rattle.sstable_blocks.specs.ManyReads.{IsLastBlock, IsOpenAt, IsReaderOf, block_frames};
ghost use Rattle.sstable_blocks.specs.ManyReads.{index_after, last_index, needle_place, read_each};
ghost use Rattle.sstable_blocks.specs.ManyReads.{reader_frames, run_answer};
ghost use Rattle.sstable_blocks.specs.Opened.{range_of};
ghost use Rattle.sstable_blocks.specs.RunPlaces.{IsPlaced, placed};
ghost use Rattle.sstable_blocks.specs.RunReading.{block_items_at, hashes, read_checked};
ghost use Rattle.sstable_blocks.specs.Scans.{AtHandle};
ghost use Rattle.sstable_blocks.specs.Sources.{AsksAny, AsksUpTo, FailsAs, ReadsAs, UsesSource};
ghost use Rattle.sstable_blocks.specs.declared.run.many.Needle.{Needle};

use super::open_run::OpenRun;
use super::place::RunPlace;
use super::source::FrameSource;
use sst_base::{BlockHash, InternalValue, Result, SeqNo, Steps};
use sst_block_core::DataBlock;
use std::alloc::Global;
use std::marker::Model;

/// A key that is looked for, and the exclusive upper bound of the sequence numbers of its versions.
#[derive(Clone, Copy)]
pub struct Needle<'a> {
    /// The user key.
    pub key: &'a [u8],
    /// The bound.
    pub seqno: SeqNo,
}

/// The block of a run that was read last, if one was. Clauses see its index, and the block.
#[derive(Drop)]
pub struct LastBlock<H: BlockHash> {
    block: Option<(usize, DataBlock<H>)>,
}

impl<H: BlockHash> Model for LastBlock<H> {
    ghost use Rattle.std.specs.Prelude.{ℕ, Option};
    ghost use Rattle.sst_block_core.specs.DataBlock.{DataBlockParts};

    ghost Value = { Option (ℕ × DataBlockParts) };

    ghost view = { λ l. l.block };
}

impl<H: BlockHash> LastBlock<H> {
    /// No block was read.
    pub fn new() -> LastBlock<H>
        ensures { result ≡ None }
    {
        LastBlock { block: None }
    }
}

/// Reads keys one after the other, and keeps of a read what serves the next one.
pub trait KeyReader<S: FrameSource> {
    // It is a reader of a source with these bytes, if they are known.
    ghost reader_of: { Self → Option (List ℕ) → Type 0 };

    // The first match of a key below a sequence number, by the bytes of the source.
    ghost answer: { Self → List ℕ → List ℕ → ℕ → Result (Option Entry) Error };

    // The most frames that reads of some needles ask for, one after the other.
    ghost frames: { Self → List Needle → ℕ };

    /// Returns the first entry with the needle's key below its bound.
    ///
    /// # Errors
    ///
    /// Those of the read. The reader stays one of this source.
    fn read(
        &mut self,
        alloc: Global,
        source: &mut S,
        needle: &Needle<'_>,
        steps: &mut Steps,
    ) -> Result<Option<InternalValue>>
        requires { Self.reader_of self.old (S.bytes source.old) }
        ensures reader { Self.reader_of self.new (S.bytes source.old) }
        ensures same { Self.answer self.new ≡ Self.answer self.old }
        ensures source { UsesSource S.bytes S.failures S.reads S.is_reliable AsksAny
            source.old source.new result }
        ensures few { (rest : List Needle) → S.reads source.new
            ≤ S.reads source.old + Self.frames self.old (needle.now ∷ rest) }
        ensures left { OnOk result ((rest : List Needle)
            → S.reads source.new + Self.frames self.new rest
            ≤ S.reads source.old + Self.frames self.old (needle.now ∷ rest)) }
        ensures exact { ReadsAs S.bytes S.failures S.is_reliable source.old source.new (λ x. x)
            result (λ all. Self.answer self.old all needle.now.key.now needle.now.seqno) };
}

// Whether the block that was read last is that at an index.
fn is_at<H: BlockHash>(last: &Option<(usize, DataBlock<H>)>, index: usize) -> bool
    ensures same { result ≡ true → block_frames (last_index last.now) (Some index) ≡ 0 }
    ensures other { result ≡ false → block_frames (last_index last.now) (Some index) ≡ 1 }
    ensures index { result ≡ true → last_index last.now ≡ Some index }
{
    match last {
        None => false,
        Some(block) => block.0 == index,
    }
}

// Reads the block at an index, if it is not the one that was read last.
fn open_at<H: BlockHash, S: FrameSource>(
    alloc: Global,
    source: &mut S,
    run: &OpenRun<H>,
    place: &RunPlace,
    last: &mut Option<(usize, DataBlock<H>)>,
    index: usize,
    steps: &mut Steps,
) -> Result<()>
    requires placed { IsPlaced place.now (S.bytes source.old) }
    requires inside { index < length run.now.index }
    requires last { IsLastBlock (hashes H.hash64 H.hash128) (placed S.bytes place.now source.old)
        run.now.index last.old }
    ensures source { UsesSource S.bytes S.failures S.reads S.is_reliable
        (AsksUpTo (block_frames (last_index last.old) (Some index))) source.old source.new result }
    ensures opened { OnOk result (IsOpenAt (hashes H.hash64 H.hash128)
        (placed S.bytes place.now source.old) run.now.index index last.new) }
    ensures unchanged { OnErr result (last.new ≡ last.old) }
    ensures errors { IfErr result (λ e. AtHandle (placed S.bytes place.now source.old) run.now.index
        index (λ all h. FailsAs (S.failures source.old < S.failures source.new)
        (S.is_reliable source.old)
        (block_items_at (hashes H.hash64 H.hash128) all (range_of h)) e)) }
{
    if is_at(last, index) {
        return Ok(());
    }
    let block = run.block_at(alloc, source, place, index, steps)?;
    *last = Some((index, block));
    Ok(())
}

// The first match in the block that was read last.
fn read_last<H: BlockHash>(
    alloc: Global,
    last: &Option<(usize, DataBlock<H>)>,
    index: usize,
    needle: &Needle<'_>,
    steps: &mut Steps,
) -> Result<Option<InternalValue>>
    requires { last_index last.now ≡ Some index }
    ensures found { IfSome last.now (λ b. IfOk result (λ item. item ≡ first_match entries
        needle.now.key.now needle.now.seqno b.1.items)) }
    ensures memory { IsOkUnless result Error.Memory }
{
    match last {
        Some(block) => block.1.point_read(alloc, needle.key, needle.seqno, steps),
        None => unreachable!(),
    }
}

impl<H: BlockHash> OpenRun<H> {
    /// Returns what [`OpenRun::get`] returns, and keeps the block that it reads. The block is not
    /// read where it is the one that was kept.
    ///
    /// # Errors
    ///
    /// Those of [`OpenRun::get`].
    pub fn get_near<S: FrameSource>(
        &self,
        alloc: Global,
        source: &mut S,
        place: &RunPlace,
        last: &mut LastBlock<H>,
        needle: &Needle<'_>,
        steps: &mut Steps,
    ) -> Result<Option<InternalValue>>
        requires { IsReaderOf (hashes H.hash64 H.hash128)
            (record { run = self.now; place = place.now; last = last.old }) (S.bytes source.old) }
        ensures source { UsesSource S.bytes S.failures S.reads S.is_reliable
            (AsksUpTo (block_frames (last_index last.old)
            (needle_place H.hash64 self.now needle.now))) source.old source.new result }
        ensures exact { ReadsAs (placed S.bytes place.now) S.failures S.is_reliable source.old
            source.new (λ x. x) result (λ all. read_checked (hashes H.hash64 H.hash128) all
            self.now.handles needle.now.key.now needle.now.seqno) }
        ensures last { IsLastBlock (hashes H.hash64 H.hash128)
            (placed S.bytes place.now source.old) self.now.index last.new }
        ensures index { OnOk result (last_index last.new ≡ index_after (last_index last.old)
            (needle_place H.hash64 self.now needle.now)) }
    {
        let Some(index) = self.locate(needle.key, needle.seqno, steps) else {
            return Ok(None);
        };
        open_at(alloc, source, self, place, &mut last.block, index, steps)?;
        read_last(alloc, &last.block, index, needle, steps)
    }
}

/// Reads keys of a run that was opened, and keeps the block that was read last.
///
/// Clauses see the run, its place, and that block with its index.
#[derive(Drop)]
pub struct RunReader<'a, H: BlockHash> {
    run: &'a OpenRun<H>,
    place: RunPlace,
    last: LastBlock<H>,
}

impl<'a, H: BlockHash> Model for RunReader<'a, H> {
    ghost use Rattle.sstable_blocks.specs.ManyReads.{RunReaderParts};

    ghost Value = { RunReaderParts };

    ghost view = { λ r. record { run = r.run.now; place = r.place; last = r.last } };
}

impl<'a, H: BlockHash> RunReader<'a, H> {
    /// A reader of a run at its place in a source. No block was read.
    pub fn new(run: &'a OpenRun<H>, place: RunPlace) -> RunReader<'a, H>
        ensures { result ≡ record { run = run.now; place = place; last = None } }
    {
        RunReader {
            run,
            place,
            last: LastBlock::new(),
        }
    }
}

impl<'a, H: BlockHash, S: FrameSource> KeyReader<S> for RunReader<'a, H> {
    ghost reader_of = { IsReaderOf (hashes H.hash64 H.hash128) };

    ghost answer = { run_answer (hashes H.hash64 H.hash128) };

    ghost frames = { reader_frames H.hash64 };

    fn read(
        &mut self,
        alloc: Global,
        source: &mut S,
        needle: &Needle<'_>,
        steps: &mut Steps,
    ) -> Result<Option<InternalValue>> {
        self.run
            .get_near(alloc, source, &self.place, &mut self.last, needle, steps)
    }
}

/// Returns for each needle what the reader returns for it, in the order of the needles.
///
/// # Errors
///
/// The first one met by these reads. `Error::Memory` too if the vector's allocation fails.
pub fn read_many<S: FrameSource, R: KeyReader<S>>(
    alloc: Global,
    source: &mut S,
    reader: &mut R,
    needles: &[Needle<'_>],
    steps: &mut Steps,
) -> Result<Vec<Option<InternalValue>>>
    requires { R.reader_of reader.old (S.bytes source.old) }
    ensures source { UsesSource S.bytes S.failures S.reads S.is_reliable
        (AsksUpTo (R.frames reader.old needles.now)) source.old source.new result }
    ensures exact { ReadsAs S.bytes S.failures S.is_reliable source.old source.new (λ v. v.items)
        result (λ all. read_each
        (λ n. R.answer reader.old all n.key.now n.seqno) needles.now) }
{
    let mut found = Vec::with_capacity(alloc, needles.len())?;
    for needle in needles {
        let value = reader.read(alloc, source, needle, steps)?;
        found.push(value)?;
    }
    Ok(found)
}
