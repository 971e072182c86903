//! Sound runs over borrowed bytes, read without checks and without memory.
ghost use Rattle.std.specs.Prelude.{◌≡◌, ◌≢◌, ◌↔◌, ℕ, ◌+◌, ◌<◌, List, length, Ok, Err, IfOk, IfErr};
ghost use Rattle.std.specs.Prelude.{MatchResult, false};
ghost use Rattle.sst_base.specs.Counted.{CountsBetween, CountsExactly};
ghost use Rattle.sst_base.specs.Entry.{Entry, IsEntry};
ghost use Rattle.sst_block_core.specs.Entries.{entries};
ghost use Rattle.sst_block_core.specs.Handles.{handles};
ghost use Rattle.sst_block_core.specs.Intervals.{digits};
ghost use Rattle.sst_block_core.specs.Payload.{IsBlock};
ghost use Rattle.sst_block_core.specs.Window.{first_match};
ghost use Rattle.sst_block_core.specs.DataBlock.{data_ref_of};
ghost use Rattle.sstable_blocks.specs.Blocks.{joined};
ghost use Rattle.sstable_blocks.specs.Lookup.{place_for};
ghost use Rattle.sstable_blocks.specs.Opened.{IsDenied, IsFoundIn, IsFrameRange, found_entry};
ghost use Rattle.sstable_blocks.specs.Opened.{index_in};
ghost use Rattle.sstable_blocks.specs.Opened.{payload_in, range_of};
ghost use Rattle.sstable_blocks.specs.ReadCosts.{CountsHandle, CountsRead};
ghost use Rattle.sstable_blocks.specs.ReadCosts.{entries_at, handle_in, heads_at};
ghost use Rattle.sstable_blocks.specs.RunChecks.{check_run, summary_of};
ghost use Rattle.sstable_blocks.specs.RunReading.{hashes};
ghost use Rattle.sstable_blocks.specs.Scans.{AtRunHandle, IsReadRun, run_interval};
ghost use Rattle.sstable_blocks.specs.Sound.{IsSound, ForSound, IsSoundRun, IsSummary};
ghost use Rattle.sstable_blocks.specs.Tables.{IsIndexIn};

use super::RunHandles;
use super::checking::{RunSummary, check};
use super::laws::{sound_opens, sound_run_is_read};
use super::open_filter::OpenFilter;
use super::read::{block_over, index_over, item_in, payload_at};
use super::search::IndexSearch;
use super::source::BorrowedSource;
use sst_base::{BlockHandle, BlockHash, Error, Result, SeqNo, Steps};
use sst_block_core::table::data_block::{DataBlockParsedItem, DataBlockRef, EntryView};
use std::alloc::Global;
use std::marker::{Model, PhantomData};

/// A sound run over bytes that it borrows, such as a mapped file or the pages of a cache. It is
/// read without checks and checksums, nothing is copied, no memory is taken, and no read fails.
/// What it gives borrows these bytes, and may be kept as long as they are borrowed. The handles are
/// kept.
///
/// Clauses see its bytes and its handles, which are a sound run.
#[derive(Drop)]
pub struct RunRef<'a, H: BlockHash> {
    bytes: &'a [u8],
    handles: RunHandles,
    filter: OpenFilter<'a>,
    index: IndexSearch<'a>,
    hash: PhantomData<H>,
}

impl<'a, H: BlockHash> Model for RunRef<'a, H> {
    ghost use Rattle.std.specs.Prelude.{◌≡◌, List};
    ghost use Rattle.sst_base.specs.Entry.{Entry};
    ghost use Rattle.sstable_blocks.specs.RunReading.{hashes};
    ghost use Rattle.sstable_blocks.specs.Sound.{IsSound, RunParts};
    ghost use Rattle.sstable_blocks.specs.Tables.{IsIndexIn};

    ghost Value = { RunParts };

    ghost view = { λ r. record { bytes = r.bytes.now; handles = r.handles } };

    ghost invariant = { λ r. ((blocks : List (List Entry))
        × IsSound (hashes H.hash64 H.hash128) blocks r.bytes.now r.handles)
        × IsIndexIn r.bytes.now r.handles.index r.index.items r.index.interval
        × (r.filter ≡ record { bytes = r.bytes.now; handle = r.handles.filter }) };
}

impl<'a, H: BlockHash> RunRef<'a, H> {
    /// Reads bytes and handles that are a sound run, as `write_run` writes one of any configuration
    /// and [`super::check`] accepts it. Nothing of it is tested, and no checksum is computed.
    pub fn new(bytes: &'a [u8], handles: &RunHandles) -> RunRef<'a, H>
        requires { IsSoundRun (hashes H.hash64 H.hash128) bytes.now handles.now }
        ensures { result ≡ record { bytes = bytes.now; handles = handles.now } }
    {
        sound_opens();
        let index = IndexSearch::new(index_over(bytes, &handles.index));
        RunRef::with_index(bytes, handles, index)
    }

    /// Checks a whole run of any bytes, as [`super::check`] does, and returns it with its summary.
    /// A frame is copied while it is checked.
    ///
    /// # Errors
    ///
    /// Those of [`super::check`] but for `Error::Io`.
    pub fn check(
        alloc: Global,
        bytes: &'a [u8],
        handles: &RunHandles,
    ) -> Result<(RunRef<'a, H>, RunSummary)>
        ensures run { IfOk result (λ r. r.0 ≡ record { bytes = bytes.now; handles = handles.now }) }
        ensures checked { IfOk result
            (λ r. check_run (hashes H.hash64 H.hash128) bytes.now handles.now ≡ Ok r.1) }
        ensures refused { IfErr result (λ e. e ≢ Error.Memory
            → check_run (hashes H.hash64 H.hash128) bytes.now handles.now ≡ Err e) }

        // What is accepted is a sound run, and the summary is that of its blocks.
        ensures sound { IfOk result (λ r. IsSummary (hashes H.hash64 H.hash128) bytes.now
            handles.now r.1) }

        // A sound run is accepted.
        ensures accepts { ForSound (hashes H.hash64 H.hash128) bytes.now handles.now
            (λ blocks. MatchResult result (λ r. r.1 ≡ summary_of blocks) (λ e. e ≡ Error.Memory)) }
    {
        match summary_in::<H>(alloc, bytes, handles) {
            Ok(summary) => Ok((RunRef::new(bytes, handles), summary)),
            Err(error) => Err(error),
        }
    }

    // The run with an index that was opened, and may have a table of its heads.
    pub(crate) fn with_index(
        bytes: &'a [u8],
        handles: &RunHandles,
        index: IndexSearch<'a>,
    ) -> RunRef<'a, H>
        requires sound { IsSoundRun (hashes H.hash64 H.hash128) bytes.now handles.now }
        requires index { IsIndexIn bytes.now handles.now.index index.items index.interval }
        ensures { result ≡ record { bytes = bytes.now; handles = handles.now } }
    {
        sound_opens();
        RunRef {
            bytes,
            handles: *handles,
            filter: OpenFilter::new(bytes, &handles.filter),
            index,
            hash: PhantomData,
        }
    }

    /// Finds the first entry with this key whose sequence number is strictly below `seqno`, and
    /// returns the frame of its block and where its parts are in the block's payload, which is the
    /// frame without its first 33 bytes. Takes no memory.
    ///
    /// What is examined is added to `steps`, as [`super::read_entry`] does.
    pub fn locate(
        &self,
        needle: &[u8],
        seqno: SeqNo,
        steps: &mut Steps,
    ) -> Option<(BlockHandle, DataBlockParsedItem)>
        ensures found { ForSound (hashes H.hash64 H.hash128) self.now.bytes self.now.handles
            (λ blocks. found_entry self.now.bytes result
            ≡ first_match entries needle.now seqno (joined blocks)) }
        ensures place { IsFoundIn self.now.bytes result }
        ensures counts { CountsRead self.now.bytes self.now.handles needle.now seqno steps.old
            steps.new }
        ensures looked { (IsDenied self.now.bytes self.now.handles.filter (H.hash64 needle.now) → ⊥)
            → steps.old.heads < steps.new.heads }
        ensures denied { IsDenied self.now.bytes self.now.handles.filter (H.hash64 needle.now)
            → CountsExactly steps.old steps.new 0 0 }
    {
        sound_opens();
        if !self.may_have(needle) {
            return None;
        }
        item_by_index::<H>(self.bytes, &self.handles, &self.index, needle, seqno, steps)
    }

    /// Returns whether the run may have an entry of a key, by its filter: where it may not, it has
    /// none. It may where there is no filter.
    #[inline(always)]
    pub fn may_have(&self, needle: &[u8]) -> bool
        ensures { (result ≡ false)
            ↔ IsDenied self.now.bytes self.now.handles.filter (H.hash64 needle.now) }
    {
        self.filter.allows(H::hash64(needle))
    }

    /// Returns what [`RunRef::locate`] returns, where the caller knows at which handle a seek in
    /// the index stops: `index` handles are before it. Neither the filter is asked, nor the index
    /// searched: of the index that handle is decoded, with those before it in its interval. Takes no
    /// memory.
    pub fn locate_at(
        &self,
        index: usize,
        needle: &[u8],
        seqno: SeqNo,
        steps: &mut Steps,
    ) -> Option<(BlockHandle, DataBlockParsedItem)>
        requires { index ≡ place_for handles needle.now seqno
            (index_in self.now.bytes self.now.handles.index) }
        ensures found { ForSound (hashes H.hash64 H.hash128) self.now.bytes self.now.handles
            (λ blocks. found_entry self.now.bytes result
            ≡ first_match entries needle.now seqno (joined blocks)) }
        ensures place { IsFoundIn self.now.bytes result }
        ensures counts { let found = handle_in self.now.bytes self.now.handles needle.now seqno in
            CountsBetween steps.old steps.new (0, 0) (
              digits (heads_at self.now.bytes found),
              run_interval self.now + entries_at self.now.bytes found,
            ) }
    {
        sound_opens();
        if index >= self.index.len() {
            return None;
        }
        let frame = self.frame_at(index, steps);
        item_in::<H>(self.bytes, frame, needle, seqno, steps)
    }

    /// Finds the first entry with this key whose sequence number is strictly below `seqno`. Takes
    /// no memory.
    ///
    /// What is examined is added to `steps`, as [`super::read_entry`] does.
    #[inline(always)]
    pub fn find(&self, needle: &[u8], seqno: SeqNo, steps: &mut Steps) -> Option<EntryView<'a>>
        ensures found { ForSound (hashes H.hash64 H.hash128) self.now.bytes self.now.handles
            (λ blocks. result ≡ first_match entries needle.now seqno (joined blocks)) }
        ensures counts { CountsRead self.now.bytes self.now.handles needle.now seqno steps.old
            steps.new }
        ensures looked { (IsDenied self.now.bytes self.now.handles.filter (H.hash64 needle.now) → ⊥)
            → steps.old.heads < steps.new.heads }
        ensures denied { IsDenied self.now.bytes self.now.handles.filter (H.hash64 needle.now)
            → CountsExactly steps.old steps.new 0 0 }
    {
        match self.locate(needle, seqno, steps) {
            Some((handle, item)) => Some(EntryView::new(payload_at(self.bytes, &handle), item)),
            None => None,
        }
    }

    // The same run.
    pub(crate) fn again(&self) -> RunRef<'a, H>
        ensures { result ≡ self.now }
    {
        RunRef::with_index(self.bytes, &self.handles, self.index.again())
    }

    // The index.
    pub(crate) fn index(&self) -> &IndexSearch<'a>
        ensures items { result.now.items ≡ index_in self.now.bytes self.now.handles.index }
        ensures interval { result.now.interval ≡ run_interval self.now }
    {
        &self.index
    }

    // States in a proof that the index is read, and the block of each of its handles.
    pub(crate) fn note_read(&self)
        ensures { IsReadRun (hashes H.hash64 H.hash128) self.now.bytes self.now.handles }
    {
        sound_run_is_read();
        // The run is sound.
        let _sound = self.bytes;
    }

    // States in a proof that the run is sound.
    pub(crate) fn note_sound(&self)
        ensures { IsSoundRun (hashes H.hash64 H.hash128) self.now.bytes self.now.handles }
    {
        let _sound = self.bytes;
    }

    // The frame of the block of the handle at an index of the index. The handles that are decoded
    // are added to `steps`.
    pub(crate) fn frame_at(&self, index: usize, steps: &mut Steps) -> BlockHandle
        requires { index < length (index_in self.now.bytes self.now.handles.index) }
        ensures handle { AtRunHandle self.now index (λ h. result ≡ range_of h) }
        ensures range { IsFrameRange self.now.bytes result }
        ensures block { (items : List Entry) × (r : ℕ) × (b : ℕ)
            × IsBlock entries IsEntry H.hash64 (payload_in self.now.bytes result) items r b }
        ensures counts { CountsHandle steps.old steps.new (run_interval self.now) index }
    {
        sound_opens();
        self.index.handle_at(index, steps)
    }

    // The block in that frame.
    pub(crate) fn block_at(&self, index: usize, steps: &mut Steps) -> DataBlockRef<'a, H>
        requires { index < length (index_in self.now.bytes self.now.handles.index) }
        ensures block { AtRunHandle self.now index
            (λ h. result ≡ data_ref_of (payload_in self.now.bytes (range_of h)) false) }
        ensures counts { CountsHandle steps.old steps.new (run_interval self.now) index }
    {
        let frame = self.frame_at(index, steps);
        block_over::<H>(self.bytes, &frame)
    }
}

// Checks a whole run of any bytes.
fn summary_in<H: BlockHash>(alloc: Global, bytes: &[u8], handles: &RunHandles) -> Result<RunSummary>
    ensures checked { IfOk result
        (λ s. check_run (hashes H.hash64 H.hash128) bytes.now handles.now ≡ Ok s) }
    ensures refused { IfErr result (λ e. e ≢ Error.Memory
        → check_run (hashes H.hash64 H.hash128) bytes.now handles.now ≡ Err e) }
    ensures sound { IfOk result (IsSummary (hashes H.hash64 H.hash128) bytes.now handles.now) }
    ensures accepts { ForSound (hashes H.hash64 H.hash128) bytes.now handles.now
        (λ blocks. MatchResult result (λ s. s ≡ summary_of blocks) (λ e. e ≡ Error.Memory)) }
{
    let mut source = BorrowedSource::new(bytes);
    check::<H, BorrowedSource<'_>>(alloc, &mut source, handles)
}

// Where the first match of a sound run is, by its index.
pub(crate) fn item_by_index<H: BlockHash>(
    bytes: &[u8],
    handles: &RunHandles,
    index: &IndexSearch<'_>,
    needle: &[u8],
    seqno: SeqNo,
    steps: &mut Steps,
) -> Option<(BlockHandle, DataBlockParsedItem)>
    requires sound { IsSoundRun (hashes H.hash64 H.hash128) bytes.now handles.now }
    requires index { IsIndexIn bytes.now handles.now.index index.now.items index.now.interval }
    ensures found { ForSound (hashes H.hash64 H.hash128) bytes.now handles.now
        (λ blocks. found_entry bytes.now result ≡ first_match entries needle.now seqno
        (joined blocks)) }
    ensures place { IsFoundIn bytes.now result }
    ensures counts { CountsRead bytes.now handles.now needle.now seqno steps.old steps.new }
    ensures looked { steps.old.heads < steps.new.heads }
{
    sound_opens();
    match index.find(needle, seqno, steps) {
        None => None,
        Some(handle) => item_in::<H>(bytes, handle, needle, seqno, steps),
    }
}
