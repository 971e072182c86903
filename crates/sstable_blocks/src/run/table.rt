//! Tables: runs in a source, whose filter and index are read once.
ghost use Rattle.std.specs.Prelude.{◌≡◌, ◌+◌, ◌<◌, None, Ok, IfOk, IfSome, MatchResult};
ghost use Rattle.std.specs.Prelude.{Some, length, map, true};
ghost use Rattle.std.specs.Option.{option_map};
ghost use Rattle.sst_base.specs.Counted.{CountsBetween};
ghost use Rattle.sst_base.specs.declared.error.Error.TheVariants.{Io};
ghost use Rattle.sst_block_core.specs.Entries.{entries};
ghost use Rattle.sst_block_core.specs.Handles.{handles};
ghost use Rattle.sstable_blocks.specs.Footer.{table_handles};
ghost use Rattle.sstable_blocks.specs.ReadCosts.{most_by, CountsHandle, CountsRead};
ghost use Rattle.sstable_blocks.specs.Opened.{range_of};
ghost use Rattle.sstable_blocks.specs.RunChecks.{check_run as run_checked, summary_of};
ghost use Rattle.sstable_blocks.specs.RunReading.{hashes, block_items_at, handles_at, read_checked};
ghost use Rattle.sstable_blocks.specs.Sound.{FindsFirst, ForSound, IsSoundRun, IsSummary};
ghost use Rattle.sstable_blocks.specs.Sources.{AsksAs, AsksExactly, AsksIfOk, AsksUpTo, FailsAs, GivesOr};
ghost use Rattle.sstable_blocks.specs.Sources.{ReadsAs, UsesSource, filter_frames};
ghost use Rattle.sstable_blocks.specs.FrameCounts.{check_frames, file_frames, open_frames};
ghost use Rattle.sstable_blocks.specs.Tables.{kept_of, kept_by_footer, kept_parts, table_of};
ghost use Rattle.sstable_blocks.specs.Tables.{IsBlockIn, IsOpenedOf, kept_says};
ghost use Rattle.sstable_blocks.specs.Tables.{LooksBy, error_after, frames_by, source_after};
ghost use Rattle.sstable_blocks.specs.Lookup.{handle_for};
ghost use Rattle.sstable_blocks.specs.ManyReads.{FindsAll, many_frames, needle_place};
ghost use Rattle.sstable_blocks.specs.ManyReads.{read_each};
ghost use Rattle.sstable_blocks.specs.Scans.{AtHandle};

use super::RunHandles;
use super::checking::{RunSummary, check};
use super::footer::read_table_footer;
use super::laws::sound_is_read;
use super::many::{Needle, RunReader, read_many};
use super::open_run::OpenRun;
use super::place::RunPlace;
use super::run_ref::RunRef;
use super::search::IndexSearch;
use super::source::{FrameSource, MemorySource, SizedSource};
use crate::table::filter::FilterBlock;
use sst_base::{BlockHash, Error, InternalValue, Result, SeqNo, Steps};
use sst_block_core::{DataBlock, IndexBlock};
use std::alloc::Global;
use std::marker::Model;

/// A run in a source, whose filter and index were verified and checked when it was opened, and are
/// kept.
///
/// Clauses see the source, the handles of filter and index, the payload of the filter, if there is
/// one, the handles of the index and its restart interval. Those kept are always those of the
/// source's bytes, if these are known.
#[derive(Drop)]
pub struct Table<H: BlockHash, S: FrameSource> {
    source: S,
    run: OpenRun<H>,
}

impl<H: BlockHash, S: FrameSource> Model for Table<H, S> {
    ghost use Rattle.sstable_blocks.specs.RunReading.{hashes};
    ghost use Rattle.sstable_blocks.specs.Tables.{IsOpenedOf, TableParts, table_of};

    ghost Value = { TableParts S };

    ghost view = { λ t. table_of t.source t.run };

    ghost invariant = { λ t. IsOpenedOf (hashes H.hash64 H.hash128) (S.bytes t.source) t.run };
}

/// Why a table was not opened, with its source.
#[derive(Drop)]
pub struct OpenError<S> {
    /// The error.
    pub error: Error,
    /// The source.
    pub source: S,
}

impl<S: Drop> From<OpenError<S>> for Error {
    ghost from_gives = { λ failed error. error ≡ failed.error };

    fn from(failed: OpenError<S>) -> Error {
        failed.error
    }
}

impl<H: BlockHash, S: FrameSource> Table<H, S> {
    /// Returns the first entry with this key whose sequence number is strictly below `seqno`, as
    /// [`super::read_entry_checked`] does, but reads at most one frame, and none where the filter
    /// rules the key out: the filter and the index are those that were kept. The frame is verified
    /// and checked.
    ///
    /// What is examined is added to `steps`: nothing where the filter rules the key out, else at
    /// least a head of the index, and at most as many heads and entries as [`super::read_entry`]
    /// examines.
    ///
    /// # Errors
    ///
    /// For the block, those of its frame, `Error::InvalidTag` if it is of another type, and those
    /// of `DataBlock::check_once`. `Error::Io` only where the source failed. `Error::Memory` if an
    /// allocation fails.
    pub fn get(
        &mut self,
        alloc: Global,
        needle: &[u8],
        seqno: SeqNo,
        steps: &mut Steps,
    ) -> Result<Option<InternalValue>>
        ensures kept { self.new ≡ record self.old { source = self.new.source } }
        ensures source { UsesSource S.bytes S.failures S.reads S.is_reliable
            (AsksExactly (frames_by (kept_says H.hash64 self.old.filter needle.now)
            (handle_for handles needle.now seqno self.old.index)))
            self.old.source self.new.source result }
        ensures exact { ReadsAs S.bytes S.failures S.is_reliable self.old.source self.new.source
            (λ x. x) result (λ all. read_checked (hashes H.hash64 H.hash128) all self.old.handles
            needle.now seqno) }
        ensures sound { IfSome (S.bytes self.old.source)
            (FindsFirst (hashes H.hash64 H.hash128) self.old.handles needle.now seqno result) }
        ensures counts { IfSome (S.bytes self.old.source)
            (λ all. CountsRead all self.old.handles needle.now seqno steps.old steps.new) }
        ensures looked { LooksBy (kept_says H.hash64 self.old.filter needle.now)
            steps.old steps.new }
    {
        let place = RunPlace::Whole;
        self.run
            .get(alloc, &mut self.source, &place, needle, seqno, steps)
    }

    /// Returns for each needle what [`Table::get`] returns for it, in the order of the needles. A
    /// block is read only where it is not the one that was read last: where the indexes of the
    /// needles' blocks do not fall, each block is read once
    /// ([`rising_blocks_are_read_once`](super::laws::rising_blocks_are_read_once)).
    ///
    /// What is examined is added to `steps`.
    ///
    /// # Errors
    ///
    /// The first one met by these reads: those of [`Table::get`]. `Error::Memory` too if the
    /// vector's allocation fails.
    pub fn get_many(
        &mut self,
        alloc: Global,
        needles: &[Needle<'_>],
        steps: &mut Steps,
    ) -> Result<Vec<Option<InternalValue>>>
        ensures kept { self.new ≡ record self.old { source = self.new.source } }
        ensures source { UsesSource S.bytes S.failures S.reads S.is_reliable
            (AsksUpTo (many_frames None
            (map (needle_place H.hash64 (kept_parts self.old)) needles.now)))
            self.old.source self.new.source result }
        ensures exact { ReadsAs S.bytes S.failures S.is_reliable self.old.source self.new.source
            (λ v. v.items) result (λ all. read_each (λ n. read_checked
            (hashes H.hash64 H.hash128) all self.old.handles n.key.now n.seqno) needles.now) }
        ensures sound { IfSome (S.bytes self.old.source) (FindsAll (hashes H.hash64 H.hash128)
            self.old.handles needles.now (λ v. v.items) result) }
    {
        sound_is_read();
        let mut reader = RunReader::new(&self.run, RunPlace::Whole);
        read_many(alloc, &mut self.source, &mut reader, needles, steps)
    }

    /// Returns what is kept of the table.
    pub fn run(&self) -> &OpenRun<H>
        ensures run { result.now ≡ kept_parts self.now }
        ensures opened { IsOpenedOf (hashes H.hash64 H.hash128) (S.bytes self.now.source)
            (kept_parts self.now) }
    {
        &self.run
    }

    /// Returns where the index and the filter are.
    pub fn handles(&self) -> &RunHandles
        ensures { result.now ≡ self.now.handles }
    {
        self.run.handles()
    }

    /// Returns the filter, if there is one.
    pub fn filter(&self) -> Option<&FilterBlock>
        ensures { option_map (λ f. f.now.payload) result ≡ self.now.filter }
    {
        self.run.filter()
    }

    /// Returns the index, with the table of its heads.
    pub fn index(&self) -> &IndexBlock
        ensures items { result.now.items ≡ self.now.index }
        ensures interval { result.now.interval ≡ self.now.interval }
        ensures heads { result.now.heads ≡ true }
        ensures kept { IfSome (S.bytes self.now.source)
            (λ all. handles_at (hashes H.hash64 H.hash128) all self.now.handles.index
            ≡ Ok self.now.index) }
    {
        self.run.index()
    }

    /// Reads the data block of the handle at an index of the index. Its frame is verified and
    /// checked. Decodes the handles of the index's restart interval up to this one, and adds them
    /// to `steps`, also where an error is returned; what a caller examines in the block is not
    /// counted.
    ///
    /// # Errors
    ///
    /// Those of the block's frame, `Error::InvalidTag` if it is of another type, and those of
    /// `DataBlock::check_once`. `Error::Io` only where the source failed. `Error::Memory` if an
    /// allocation fails.
    pub fn block_at(
        &mut self,
        alloc: Global,
        index: usize,
        steps: &mut Steps,
    ) -> Result<DataBlock<H>>
        requires { index < length self.old.index }
        ensures kept { self.new ≡ record self.old { source = self.new.source } }
        ensures source { UsesSource S.bytes S.failures S.reads S.is_reliable
            (AsksExactly 1) self.old.source self.new.source result }
        ensures exact { AtHandle (S.bytes self.old.source) self.old.index index (λ all h.
            GivesOr (S.failures self.old.source < S.failures self.new.source)
            (S.is_reliable self.old.source) (λ b. b.items) result
            (block_items_at (hashes H.hash64 H.hash128) all (range_of h))) }
        ensures place { IfOk result (λ b. AtHandle (S.bytes self.old.source) self.old.index index
            (λ all h. IsBlockIn all (range_of h) b.items b.interval)) }
        ensures counts { CountsHandle steps.old steps.new self.old.interval index }
    {
        let place = RunPlace::Whole;
        self.run
            .block_at(alloc, &mut self.source, &place, index, steps)
    }

    /// Checks the whole run, as [`check`] does, and returns its summary.
    ///
    /// # Errors
    ///
    /// Those of [`check`].
    pub fn verify(&mut self, alloc: Global) -> Result<RunSummary>
        ensures kept { self.new ≡ record self.old { source = self.new.source } }
        ensures source { UsesSource S.bytes S.failures S.reads S.is_reliable
            (AsksIfOk (λ s. filter_frames self.old.handles.filter + (1 + s.blocks)))
            self.old.source self.new.source result }
        ensures asked { AsksAs S.bytes S.failures S.reads self.old.source self.new.source result
            (λ all. check_frames (hashes H.hash64 H.hash128) all self.old.handles) }
        ensures exact { ReadsAs S.bytes S.failures S.is_reliable self.old.source self.new.source
            (λ s. s) result (λ all. run_checked (hashes H.hash64 H.hash128) all self.old.handles) }
        ensures sound { IfSome (S.bytes self.old.source)
            (λ all. IfOk result (IsSummary (hashes H.hash64 H.hash128) all self.old.handles)) }
        ensures accepts { IfSome (S.bytes self.old.source)
            (λ all. ForSound (hashes H.hash64 H.hash128) all self.old.handles
            (λ blocks. GivesOr (S.failures self.old.source < S.failures self.new.source)
            (S.is_reliable self.old.source) (λ s. s) result (Ok (summary_of blocks)))) }
    {
        check::<H, S>(alloc, &mut self.source, self.run.handles())
    }

    /// Returns what is kept of the table, and its source.
    pub fn into_parts(self) -> (OpenRun<H>, S)
        ensures source { result.1 ≡ self.source }
        ensures run { result.0 ≡ kept_parts self }
        ensures opened { IsOpenedOf (hashes H.hash64 H.hash128) (S.bytes result.1) result.0 }
    {
        (self.run, self.source)
    }

    /// Makes a table of a run that was opened in a source, and that source.
    pub fn from_parts(run: OpenRun<H>, source: S) -> Table<H, S>
        requires { IsOpenedOf (hashes H.hash64 H.hash128) (S.bytes source) run }
        ensures { result ≡ table_of source run }
    {
        Table { source, run }
    }
}

impl<H: BlockHash, S: FrameSource> Table<H, S> {
    /// Opens a run in a source, as [`OpenRun::open`] does.
    ///
    /// # Errors
    ///
    /// Those of [`OpenRun::open`]. The source is returned with the error.
    pub fn open(
        alloc: Global,
        source: S,
        handles: RunHandles,
    ) -> std::result::Result<Table<H, S>, OpenError<S>>
        ensures handles { IfOk result (λ t. t.handles ≡ handles) }
        ensures source { UsesSource S.bytes S.failures S.reads S.is_reliable
            (AsksIfOk (λ _. filter_frames handles.filter + 1)) source (source_after result)
            (error_after result) }
        ensures asked { AsksAs S.bytes S.failures S.reads source (source_after result) (error_after
            result)
            (λ all. open_frames (hashes H.hash64 H.hash128) all handles) }
        ensures exact { IfSome (S.bytes source) (λ all. MatchResult result
            (λ t. kept_of (hashes H.hash64 H.hash128) all handles ≡ Ok (t.filter, t.index))
            (λ e. FailsAs (S.failures source < S.failures e.source) (S.is_reliable source)
            (kept_of (hashes H.hash64 H.hash128) all handles) e.error)) }
    {
        let mut source = source;
        match OpenRun::open(alloc, &mut source, &RunPlace::Whole, handles) {
            Ok(run) => Ok(Table { source, run }),
            Err(error) => Err(OpenError { error, source }),
        }
    }
}

impl<H: BlockHash, S: SizedSource> Table<H, S> {
    /// Opens a table file, which is a run and its footer: reads the footer, and opens the run as
    /// [`Table::open`] does.
    ///
    /// # Errors
    ///
    /// `Error::Io` if the source fails, `Error::Truncated` if it is shorter than a footer, then
    /// those of [`Table::open`]. The source is returned with the error.
    pub fn open_file(alloc: Global, source: S) -> std::result::Result<Table<H, S>, OpenError<S>>
        ensures source { UsesSource S.bytes S.failures S.reads S.is_reliable
            (AsksIfOk (λ t. filter_frames t.handles.filter + 2)) source (source_after result)
            (error_after result) }
        ensures asked { AsksAs S.bytes S.failures S.reads source (source_after result) (error_after
            result)
            (λ all. file_frames (hashes H.hash64 H.hash128) all) }
        ensures exact { IfSome (S.bytes source) (λ all. MatchResult result
            (λ t. kept_by_footer (hashes H.hash64 H.hash128) all
            ≡ Ok (t.handles, t.filter, t.index))
            (λ e. FailsAs (S.failures source < S.failures e.source) (S.is_reliable source)
            (kept_by_footer (hashes H.hash64 H.hash128) all) e.error)) }
    {
        let mut source = source;
        match read_table_footer::<S>(alloc, &mut source) {
            Ok(handles) => Table::open(alloc, source, handles),
            Err(error) => Err(OpenError { error, source }),
        }
    }
}

impl<H: BlockHash> Table<H, MemorySource> {
    /// Returns the run of a table in memory, which is sound, as [`Table::verify`] finds out: it is
    /// read without checks and checksums, by the index and the table of its heads that were kept.
    /// Nothing is tested.
    pub fn trusted(&self) -> RunRef<'_, H>
        requires { IsSoundRun (hashes H.hash64 H.hash128) self.now.source.inner self.now.handles }
        ensures { result ≡ record { bytes = self.now.source.inner; handles = self.now.handles } }
    {
        let index = IndexSearch::new(self.run.index().by_ref());
        RunRef::with_index(self.source.bytes().as_slice(), self.run.handles(), index)
    }
}
