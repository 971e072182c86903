//! Parted tables in a source, of which the index of the parts is kept.
ghost use Rattle.std.specs.Prelude.{◌≡◌, ◌+◌, ◌<◌, ◌^◌, Ok, IfOk, IfSome, MatchResult, Option};
ghost use Rattle.std.specs.Prelude.{None, true};
ghost use Rattle.std.specs.Prelude.{OnOk, length};
ghost use Rattle.std.specs.Option.{option_map};
ghost use Rattle.sst_parts.specs.CachedParts.{AreAdded, LeavesCaches, cached_frames, part_for};
ghost use Rattle.sst_parts.specs.PartChecks.{ForParted, IsPartedSummary, check_parted};
ghost use Rattle.sst_parts.specs.PartChecks.{parts_frames, summary_of_parts};
ghost use Rattle.sst_parts.specs.PartReaders.{FindsAllInParts, needles_frames};
ghost use Rattle.sst_parts.specs.PartReaders.{read_open_by_top};
ghost use Rattle.sst_parts.specs.Parts.{FindsInParts, error_after, parted_frames, parted_most};
ghost use Rattle.sst_parts.specs.Parts.{read_by_top, source_after, tops_at, tops_by_footer};
ghost use Rattle.sst_parts.specs.Parts.{tops_frames};
ghost use Rattle.sstable_blocks.specs.Footer.{table_handles};
ghost use Rattle.sstable_blocks.specs.Lookup.{handle_for};
ghost use Rattle.sstable_blocks.specs.ManyReads.{read_each};
ghost use Rattle.sstable_blocks.specs.Opened.{range_of};
ghost use Rattle.sstable_blocks.specs.Prelude.{IsBytes, CountsBetween, handles};
ghost use Rattle.sstable_blocks.specs.ReadCosts.{find_cost};
ghost use Rattle.sstable_blocks.specs.RunReading.{hashes, range_at};
ghost use Rattle.sstable_blocks.specs.Scans.{AtHandle};
ghost use Rattle.sstable_blocks.specs.Sources.{AsksAs, AsksExactly, AsksIfOk, AsksUpTo};
ghost use Rattle.sstable_blocks.specs.Sources.{FailsAs, GivesOr, ReadsAs, UsesSource};

use crate::block_cache::BlockCache;
use crate::checking::{PartedSummary, check_parts};
use crate::laws::{
    accepted_parted_is_sound, open_part_is_read, parted_is_accepted, parted_is_read,
};
use crate::part::{find_part, read_in_part};
use crate::part_cache::{Numbers, PartCache, get_by_tops};
use crate::parts_reader::PartsReader;
use sstable_blocks::laws::index_check_is_by_stages;
use sstable_blocks::run::checked::block_from;
use sstable_blocks::run::footer::read_table_footer;
use sstable_blocks::run::{FrameSource, OpenError, RunHandles, SizedSource, read_many};
use sstable_blocks::{
    BlockHandle, BlockHash, BlockType, Error, IndexBlock, InternalValue, Needle, Result, SeqNo,
    Slice, Steps,
};
use std::alloc::Global;
use std::marker::{Model, PhantomData};

// The index of the parts, with the table of its heads.
fn tops_from<H: BlockHash, S: FrameSource>(
    alloc: Global,
    source: &mut S,
    top: &BlockHandle,
) -> Result<IndexBlock>
    ensures source { UsesSource S.bytes S.failures S.reads S.is_reliable
        (AsksExactly 1) source.old source.new result }
    ensures cells { OnOk result (IfSome (S.bytes source.old) IsBytes) }
    ensures exact { ReadsAs S.bytes S.failures S.is_reliable source.old source.new
        (λ b. b.items) result (λ all. tops_at (hashes H.hash64 H.hash128) all top.now) }
    ensures heads { IfOk result (λ b. b.heads ≡ true) }
{
    index_check_is_by_stages();
    let block = block_from::<H, S>(alloc, source, top, BlockType::Meta)?;
    IndexBlock::check(alloc, block)
}

// The first match by the index of the parts.
fn read_by_tops<H: BlockHash, S: FrameSource>(
    alloc: Global,
    source: &mut S,
    index: &IndexBlock,
    needle: &[u8],
    seqno: SeqNo,
    steps: &mut Steps,
) -> Result<Option<InternalValue>>
    ensures source { UsesSource S.bytes S.failures S.reads S.is_reliable
        (AsksUpTo (parted_frames index.now.items needle.now seqno))
        source.old source.new result }
    ensures exact { ReadsAs S.bytes S.failures S.is_reliable source.old source.new (λ x. x) result
        (λ all. read_by_top (hashes H.hash64 H.hash128) all
        (handle_for handles needle.now seqno index.now.items) needle.now seqno) }
    ensures counts { IfSome (S.bytes source.old)
        (λ all. CountsBetween steps.old steps.new (1, 0)
        (parted_most all index.now.items index.now.interval needle.now seqno)) }
    ensures looked { steps.old.heads < steps.new.heads }
{
    match find_part(index, needle, seqno, steps) {
        None => Ok(None),
        Some(part) => read_in_part::<H, S>(alloc, source, &part, needle, seqno, steps),
    }
}

// The first match of each needle by the index of the parts.
fn read_many_by_tops<H: BlockHash, S: FrameSource>(
    alloc: Global,
    source: &mut S,
    index: &IndexBlock,
    needles: &[Needle<'_>],
    steps: &mut Steps,
) -> Result<Vec<Option<InternalValue>>>
    ensures source { UsesSource S.bytes S.failures S.reads S.is_reliable
        (AsksUpTo (needles_frames index.now.items None needles.now)) source.old source.new result }
    ensures exact { ReadsAs S.bytes S.failures S.is_reliable source.old source.new (λ v. v.items)
        result (λ all. read_each (λ n. read_open_by_top (hashes H.hash64 H.hash128) all
        (handle_for handles n.key.now n.seqno index.now.items) n.key.now n.seqno) needles.now) }
{
    let mut reader = PartsReader::<H>::new(index);
    read_many(alloc, source, &mut reader, needles, steps)
}

/// A parted table in a source. The index of its parts was verified and checked when it was opened,
/// and is kept, with the table of its heads; of the parts nothing is kept.
///
/// Clauses see the source, the handle of the index of the parts, the handles of the parts, and the
/// restart interval of that index. The handles kept are always those of the source's bytes, if
/// these are known.
#[derive(Drop)]
pub struct PartedTable<H: BlockHash, S: FrameSource> {
    source: S,
    top: BlockHandle,
    index: IndexBlock,
    hash: PhantomData<H>,
}

impl<H: BlockHash, S: FrameSource> Model for PartedTable<H, S> {
    ghost use Rattle.std.specs.Prelude.{◌≡◌, IfSome, Ok, true};
    ghost use Rattle.sst_parts.specs.Parts.{PartedParts, tops_at};
    ghost use Rattle.sstable_blocks.specs.Prelude.{IsBytes};
    ghost use Rattle.sstable_blocks.specs.RunReading.{hashes};

    ghost Value = { PartedParts S };

    ghost view = { λ t. record {
      source = t.source;
      top = t.top;
      tops = t.index.items;
      interval = t.index.interval;
    } };

    ghost invariant = { λ t. IfSome (S.bytes t.source)
        (λ all. tops_at (hashes H.hash64 H.hash128) all t.top ≡ Ok t.index.items)
        × (t.index.heads ≡ true) × IfSome (S.bytes t.source) IsBytes };
}

impl<H: BlockHash, S: FrameSource> PartedTable<H, S> {
    /// Opens a parted table in a source: reads, verifies and checks the index of its parts, and
    /// nothing else.
    ///
    /// # Errors
    ///
    /// Those of the frame of the index, `Error::InvalidTag` if it is not of type `Meta`, and those
    /// of `IndexBlock::check`. `Error::Io` only where the source failed. `Error::Memory` if an
    /// allocation fails. The source is returned with the error.
    pub fn open(
        alloc: Global,
        source: S,
        top: BlockHandle,
    ) -> std::result::Result<PartedTable<H, S>, OpenError<S>>
        ensures top { IfOk result (λ t. t.top ≡ top) }
        ensures source { UsesSource S.bytes S.failures S.reads S.is_reliable
            (AsksExactly 1) source (source_after result) (error_after result) }
        ensures exact { IfSome (S.bytes source) (λ all. MatchResult result
            (λ t. tops_at (hashes H.hash64 H.hash128) all top ≡ Ok t.tops)
            (λ e. FailsAs (S.failures source < S.failures e.source) (S.is_reliable source)
            (tops_at (hashes H.hash64 H.hash128) all top) e.error)) }
    {
        let mut source = source;
        match tops_from::<H, S>(alloc, &mut source, &top) {
            Ok(index) => Ok(PartedTable {
                source,
                top,
                index,
                hash: PhantomData,
            }),
            Err(error) => Err(OpenError { error, source }),
        }
    }

    /// Returns the first entry with this key whose sequence number is strictly below `seqno`. The
    /// part that can hold it is found by key and sequence number in the index of the parts that was
    /// kept; only then is anything of a part read, and of that part alone: its footer, its filter,
    /// and, where that allows the key, its index and one block. Each frame is verified and checked.
    ///
    /// What is examined is added to `steps`: at least a head of the index of the parts, and at most
    /// the heads and handles of a search in it, and what [`sstable_blocks::run::read_entry`]
    /// examines in the part.
    ///
    /// # Errors
    ///
    /// The first one met: those of the source for the part's footer, and `Error::Truncated` if the
    /// part has fewer than 24 bytes; then those of
    /// [`read_entry_checked`](sstable_blocks::run::read_entry_checked) for the bytes of the part,
    /// where a range that is not inside the part is `Error::BadHandle`. `Error::Io` only where the
    /// source failed. `Error::Memory` if an allocation fails.
    pub fn get(
        &mut self,
        alloc: Global,
        needle: &[u8],
        seqno: SeqNo,
        steps: &mut Steps,
    ) -> Result<Option<InternalValue>>
        ensures kept { self.new ≡ record self.old { source = self.new.source } }
        ensures source { UsesSource S.bytes S.failures S.reads S.is_reliable
            (AsksUpTo (parted_frames self.old.tops needle.now seqno))
            self.old.source self.new.source result }
        ensures exact { ReadsAs S.bytes S.failures S.is_reliable self.old.source self.new.source
            (λ x. x) result (λ all. read_by_top (hashes H.hash64 H.hash128) all
            (handle_for handles needle.now seqno self.old.tops) needle.now seqno) }
        ensures sound { IfSome (S.bytes self.old.source)
            (FindsInParts (hashes H.hash64 H.hash128) self.old.top needle.now seqno result) }
        ensures counts { IfSome (S.bytes self.old.source)
            (λ all. CountsBetween steps.old steps.new (1, 0)
            (parted_most all self.old.tops self.old.interval needle.now seqno)) }
        ensures looked { steps.old.heads < steps.new.heads }
    {
        parted_is_read();
        read_by_tops::<H, S>(alloc, &mut self.source, &self.index, needle, seqno, steps)
    }

    // What `get` returns, where the parts that a cache keeps and the blocks that another one keeps
    // are not read again.
    pub(crate) fn get_through(
        &mut self,
        alloc: Global,
        parts: &mut PartCache<H>,
        blocks: &mut BlockCache<H>,
        numbers: &Numbers,
        needle: &[u8],
        seqno: SeqNo,
        steps: &mut Steps,
    ) -> Result<Option<InternalValue>>
        requires { AreAdded S.bytes parts.old blocks.old numbers.now self.old.source }
        ensures kept { self.new ≡ record self.old { source = self.new.source } }
        ensures source { UsesSource S.bytes S.failures S.reads S.is_reliable
            (AsksUpTo (cached_frames H.hash64 parts.old.kept blocks.old.kept numbers.now
            (part_for self.old.tops needle.now seqno) needle.now seqno))
            self.old.source self.new.source result }
        ensures exact { ReadsAs S.bytes S.failures S.is_reliable self.old.source self.new.source
            (λ x. x) result (λ all. read_open_by_top (hashes H.hash64 H.hash128) all
            (handle_for handles needle.now seqno self.old.tops) needle.now seqno) }
        ensures sound { IfSome (S.bytes self.old.source)
            (FindsInParts (hashes H.hash64 H.hash128) self.old.top needle.now seqno result) }
        ensures counts { IfSome (S.bytes self.old.source)
            (λ all. CountsBetween steps.old steps.new (1, 0)
            (parted_most all self.old.tops self.old.interval needle.now seqno)) }
        ensures looked { steps.old.heads < steps.new.heads }
        ensures caches { LeavesCaches (hashes H.hash64 H.hash128)
            (record { parts = parts.old; blocks = blocks.old }) numbers.now
            (part_for self.old.tops needle.now seqno) needle.now seqno result
            (record { parts = parts.new; blocks = blocks.new }) }
    {
        open_part_is_read();
        get_by_tops::<H, S>(
            alloc,
            &mut self.source,
            &self.index,
            parts,
            blocks,
            numbers,
            needle,
            seqno,
            steps,
        )
    }

    /// Returns for each needle the first entry with its key below its bound, in the order of the
    /// needles. The part that was read last stays open: a footer, a filter and an index are read
    /// only where the part is not that one, and a block only where it is not the one that was read
    /// last. Needles in the order of keys so open each part once.
    ///
    /// What is examined is added to `steps`.
    ///
    /// # Errors
    ///
    /// The first one met by these reads: for a part that is opened those of its footer, as
    /// [`PartedTable::get`] has them, then those of [`OpenRun::open`](sstable_blocks::OpenRun::open),
    /// also where the filter rules the key out; then those of the block. `Error::Memory` too if the
    /// vector's allocation fails.
    pub fn get_many(
        &mut self,
        alloc: Global,
        needles: &[Needle<'_>],
        steps: &mut Steps,
    ) -> Result<Vec<Option<InternalValue>>>
        ensures kept { self.new ≡ record self.old { source = self.new.source } }
        ensures source { UsesSource S.bytes S.failures S.reads S.is_reliable
            (AsksUpTo (needles_frames self.old.tops None needles.now))
            self.old.source self.new.source result }
        ensures exact { ReadsAs S.bytes S.failures S.is_reliable self.old.source self.new.source
            (λ v. v.items) result (λ all. read_each (λ n. read_open_by_top
            (hashes H.hash64 H.hash128) all
            (handle_for handles n.key.now n.seqno self.old.tops) n.key.now n.seqno) needles.now) }
        ensures sound { IfSome (S.bytes self.old.source) (FindsAllInParts
            (hashes H.hash64 H.hash128) self.old.top needles.now (λ v. v.items) result) }
    {
        open_part_is_read();
        read_many_by_tops::<H, S>(alloc, &mut self.source, &self.index, needles, steps)
    }

    /// Reads the bytes of the part of the handle at an index of the index of the parts, by one
    /// frame: of a parted table they are a table file. Nothing of them is checked.
    ///
    /// # Errors
    ///
    /// Those of the source.
    pub fn part_at(&mut self, alloc: Global, index: usize) -> Result<Slice>
        requires { index < length self.old.tops }
        ensures kept { self.new ≡ record self.old { source = self.new.source } }
        ensures source { UsesSource S.bytes S.failures S.reads S.is_reliable
            (AsksExactly 1) self.old.source self.new.source result }
        ensures exact { AtHandle (S.bytes self.old.source) self.old.tops index (λ all h.
            GivesOr (S.failures self.old.source < S.failures self.new.source)
            (S.is_reliable self.old.source) (λ s. s) result (range_at all (range_of h))) }
    {
        let handle = self.index.handle_at(index, &mut Steps::new());
        self.source.read_frame(alloc, &handle)
    }

    /// Checks all parts of any bytes, with the index of the parts that was kept: accepts exactly a
    /// parted table. Each part is read once, whole, and checked as [`sstable_blocks::run::check`]
    /// checks a run. The parts follow each other from offset 0; no entry sorts before its
    /// predecessor, within a part or across parts; and each handle of the index has the key and the
    /// sequence number of its part's last entry.
    ///
    /// # Errors
    ///
    /// The first one met, part by part: `Error::BadHandle` if the part does not begin where the
    /// part before ends, those of the source for its bytes, `Error::Truncated` if these are fewer
    /// than 24, those of [`sstable_blocks::run::check`] for the run in them, `Error::OutOfOrder` if
    /// its first entry sorts before the last one of the part before, and `Error::BadHandle` if its
    /// last entry is not that of its handle. `Error::Io` only where the source failed.
    /// `Error::Memory` if an allocation fails.
    pub fn verify(&mut self, alloc: Global) -> Result<PartedSummary>
        ensures kept { self.new ≡ record self.old { source = self.new.source } }
        ensures source { UsesSource S.bytes S.failures S.reads S.is_reliable
            (AsksIfOk (λ s. s.parts)) self.old.source self.new.source result }
        ensures asked { AsksAs S.bytes S.failures S.reads self.old.source self.new.source result
            (λ all. parts_frames (hashes H.hash64 H.hash128) all self.old.tops) }
        ensures exact { ReadsAs S.bytes S.failures S.is_reliable self.old.source self.new.source
            (λ s. s) result (λ all. check_parted (hashes H.hash64 H.hash128) all self.old.top) }
        ensures sound { IfSome (S.bytes self.old.source)
            (λ all. IfOk result
            (IsPartedSummary (hashes H.hash64 H.hash128) all self.old.top)) }
        ensures accepts { IfSome (S.bytes self.old.source)
            (λ all. ForParted (hashes H.hash64 H.hash128) all self.old.top
            (λ parts. GivesOr (S.failures self.old.source < S.failures self.new.source)
            (S.is_reliable self.old.source) (λ s. s) result (Ok (summary_of_parts parts)))) }
    {
        accepted_parted_is_sound();
        parted_is_accepted();
        // The size of the index has 32 bits.
        let _fits = self.top.size();
        check_parts::<H, S>(alloc, &mut self.source, &self.index)
    }

    /// Returns the source.
    pub fn source(&self) -> &S
        ensures { result.now ≡ self.now.source }
    {
        &self.source
    }

    /// Returns where the index of the parts is.
    pub fn top(&self) -> &BlockHandle
        ensures { result.now ≡ self.now.top }
    {
        &self.top
    }

    /// Returns the index of the parts, with the table of its heads. Its handles name the parts.
    pub fn index(&self) -> &IndexBlock
        ensures items { result.now.items ≡ self.now.tops }
        ensures interval { result.now.interval ≡ self.now.interval }
        ensures heads { result.now.heads ≡ true }
        ensures kept { IfSome (S.bytes self.now.source)
            (λ all. tops_at (hashes H.hash64 H.hash128) all self.now.top ≡ Ok self.now.tops) }
    {
        &self.index
    }
}

impl<H: BlockHash, S: SizedSource> PartedTable<H, S> {
    /// Opens the file of a parted table: reads the footer, and opens the table as
    /// [`PartedTable::open`] does.
    ///
    /// # Errors
    ///
    /// `Error::Io` if the source fails, `Error::Truncated` if it is shorter than a footer, then
    /// those of [`PartedTable::open`]. The source is returned with the error.
    pub fn open_file(
        alloc: Global,
        source: S,
    ) -> std::result::Result<PartedTable<H, S>, OpenError<S>>
        ensures source { UsesSource S.bytes S.failures S.reads S.is_reliable
            (AsksIfOk (λ _. 2)) source (source_after result) (error_after result) }
        ensures asked { AsksAs S.bytes S.failures S.reads source (source_after result)
            (error_after result) (λ all. tops_frames all) }
        ensures exact { IfSome (S.bytes source) (λ all. MatchResult result
            (λ t. tops_by_footer (hashes H.hash64 H.hash128) all ≡ Ok (t.top, t.tops))
            (λ e. FailsAs (S.failures source < S.failures e.source) (S.is_reliable source)
            (tops_by_footer (hashes H.hash64 H.hash128) all) e.error)) }
    {
        let mut source = source;
        match read_table_footer::<S>(alloc, &mut source) {
            Ok(handles) => PartedTable::open(alloc, source, handles.index),
            Err(error) => Err(OpenError { error, source }),
        }
    }
}
