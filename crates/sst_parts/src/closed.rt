//! The parts of a parted table that are closed while it is written.
ghost use Rattle.std.specs.Prelude.{◌≡◌, ◌⊎◌, ◌+◌, ◌++◌, ◌∷◌, [], ◌≤◌, ◌<◌, ◌^◌, IfErr, IfOk};
ghost use Rattle.std.specs.Prelude.{IsErrOf};
ghost use Rattle.std.specs.Prelude.{IfSome, IsNone, IsOkUnless, None, length, map};
ghost use Rattle.std.specs.Prelude.{◌↔◌, IsTrue};
ghost use Rattle.std.specs.Option.{option_map};
ghost use Rattle.sst_parts.specs.PartCopies.{AppendsOpenCopies, ClosedEnds, ClosedTopFits, Closes};
ghost use Rattle.sst_parts.specs.PartCopies.{CopyFits, IsBetween, IsCurrent, IsLastKey};
ghost use Rattle.sst_parts.specs.PartCopies.{known_parts};
ghost use Rattle.sst_parts.specs.PartWriting.{AppendsPart, AppendsTop, IsLastOf, PartFileFits};
ghost use Rattle.sst_parts.specs.declared.closed.PartOrigin.TheVariants.{Copied, Made};
ghost use Rattle.sstable_blocks.specs.Blocks.{joined};
ghost use Rattle.sstable_blocks.specs.Footer.{run_end};
ghost use Rattle.sstable_blocks.specs.Prelude.{IsRefusal};
ghost use Rattle.sstable_blocks.specs.Results.{Io, TooLong};
ghost use Rattle.sstable_blocks.specs.Run.{IsWritable, form};
ghost use Rattle.sstable_blocks.specs.Writing.{IsWriteRefusal, PartFits, UsesWriter};

use sstable_blocks::ghost_state::{Contents, History};
use sstable_blocks::run::footer::FOOTER_LEN;
use sstable_blocks::run::{RunConfig, RunHandles, RunWriter, encode_footer};
use sstable_blocks::table::block::header::HEADER_LEN;
use sstable_blocks::{
    AsEntry, Block, BlockHandle, BlockHash, BlockOffset, BlockType, Error, IndexBlock,
    InternalValue, KeyedBlockHandle, Output, Result, SeqNo, UserKey,
};
use std::alloc::Global;
use std::collections::LinkedList;
use std::marker::{Model, PhantomData};

// The greatest length of a payload after a handle: its frame has at most 2^32 - 1 bytes.
const MAX_PAYLOAD: usize = 4294967262;

/// What a part that was closed was written from. No value is made of it: only clauses speak of it.
#[derive(Drop)]
pub enum PartOrigin {
    /// The blocks that it was made of.
    Made(LinkedList<LinkedList<InternalValue>>),
    /// The bytes of a part of another table, which were copied, and its handle there.
    Copied(LinkedList<u8>, KeyedBlockHandle),
}

/// The key and the sequence number of the last entry of a part.
#[derive(Drop)]
pub(crate) struct PartEnd {
    pub(crate) key: UserKey,
    pub(crate) seqno: SeqNo,
}

// The length of the table file of a run with these handles, if it fits a handle at an offset.
fn part_size(handles: &RunHandles, offset: u64) -> Result<u32>
    ensures size { IfOk result (λ n. n ≡ run_end handles.now + 24) }
    ensures end { IfOk result (λ n. offset + n < 2 ^ 64) }
    ensures small { IfOk result (λ n. n < 2 ^ 32) }
    ensures too_long { IfErr result (λ e. (e ≡ TooLong)
        × ((2 ^ 32 ≤ run_end handles.now + 24) ⊎ (2 ^ 64 ≤ offset + (run_end handles.now + 24)))) }
{
    let last = handles.filter.as_ref().unwrap_or(&handles.index);
    let behind = u64::from(last.size()) + FOOTER_LEN as u64;
    let Some(len) = last.offset().checked_add(behind) else {
        return Err(Error::TooLong);
    };
    let Ok(size) = u32::try_from(len) else {
        return Err(Error::TooLong);
    };
    match offset.checked_add(len) {
        Some(_) => Ok(size),
        None => Err(Error::TooLong),
    }
}

// Ends a part: writes the index, the filter and the footer. Returns its handle, and the writer.
fn end_part<H: BlockHash, W: Output + Drop>(
    run: RunWriter<H, W>,
    end: PartEnd,
    offset: u64,
) -> Result<(KeyedBlockHandle, W)>
    requires accepting { run.refusal ≡ None }
    requires some { 1 ≤ length run.blocks }
    requires end { IsLastOf (joined run.blocks) end.key end.seqno }
    ensures part { IfOk result (λ r. AppendsPart (form H.hash64 H.hash128 run.config) run.blocks
        offset run.start (W.contents r.1) r.0) }
    ensures reliable { IfOk result (λ r. W.never_fails run.writer → W.never_fails r.1) }
    ensures failed { IsErrOf result Io → W.never_fails run.writer → ⊥ }
    ensures cause { IfErr result (IsWriteRefusal
        (PartFileFits (form H.hash64 H.hash128 run.config) offset run.blocks → ⊥)) }
{
    let (handles, mut writer) = run.finish()?;
    let size = part_size(&handles, offset)?;
    writer.put(&encode_footer(&handles))?;
    let place = BlockHandle::new(BlockOffset(offset), size);
    let PartEnd { key, seqno } = end;
    Ok((KeyedBlockHandle::new(key, seqno, place), writer))
}

// The handle of a part at an offset, with its length and its end, and the offset after it.
fn moved(end: &KeyedBlockHandle, offset: u64) -> Result<(KeyedBlockHandle, u64)>
    ensures handle { IfOk result (λ r. r.0 ≡ record end.now { offset = offset }) }
    ensures next { IfOk result (λ r. r.1 ≡ offset + end.now.size) }
    ensures end { IfOk result (λ r. r.1 < 2 ^ 64) }
    ensures cause { IfErr result (IsRefusal None (2 ^ 64 ≤ offset + end.now.size)) }
{
    let Some(next) = offset.checked_add(u64::from(end.size())) else {
        return Err(Error::TooLong);
    };
    let key = end.end_key().clone()?;
    let place = BlockHandle::new(BlockOffset(offset), end.size());
    Ok((KeyedBlockHandle::new(key, end.seqno(), place), next))
}

// Writes the frame of the index of the parts at an offset.
fn write_index<H: BlockHash, W: Output>(
    writer: &mut W,
    payload: &[u8],
    offset: u64,
) -> Result<BlockHandle>
    ensures top { IfOk result (λ top. AppendsTop H.hash128 offset payload.now
        (W.contents writer.old) (W.contents writer.new) top) }
    ensures writer { UsesWriter W.never_fails writer.old writer.new result }
    ensures cause { IfErr result
        (λ e. (e ≡ Io) ⊎ ((e ≡ TooLong) × (PartFits offset payload.now → ⊥))) }
{
    let Some(top) = top_handle(payload.len(), offset) else {
        return Err(Error::TooLong);
    };
    let _header = Block::write_into::<H, W>(writer, payload, BlockType::Meta)?;
    Ok(top)
}

// The handle of the frame of a payload of this length at an offset, if it fits.
fn top_handle(payload_len: usize, offset: u64) -> Option<BlockHandle>
    ensures offset { IfSome result (λ h. h.offset ≡ offset) }
    ensures size { IfSome result (λ h. h.size ≡ 33 + payload_len) }
    ensures framed { IfSome result (λ h. payload_len ≤ 4294967262) }
    ensures end { IfSome result (λ h. offset + (33 + payload_len) < 2 ^ 64) }
    ensures none { IsNone result
        → (4294967262 < payload_len) ⊎ (2 ^ 64 ≤ offset + (33 + payload_len)) }
{
    if payload_len > MAX_PAYLOAD {
        return None;
    }
    let size = (HEADER_LEN + payload_len) as u32;
    match offset.checked_add(u64::from(size)) {
        Some(_) => Some(BlockHandle::new(BlockOffset(offset), size)),
        None => None,
    }
}

/// What is kept of the parts closed: a handle of each. Calls that write take the writer.
///
/// Clauses see the configuration, what the parts were written from, their handles, the offset after
/// them, what the writer held when this was made, and after the last part.
#[derive(Drop)]
pub(crate) struct ClosedParts<H: BlockHash> {
    hash: PhantomData<H>,
    config: RunConfig,
    tops: Vec<KeyedBlockHandle>,
    offset: u64,
    parts: History<PartOrigin>,
    start: Contents,
    after: Contents,
}

impl<H: BlockHash> Model for ClosedParts<H> {
    ghost use Rattle.sst_parts.specs.PartCopies.{AreClosed, ClosedView};
    ghost use Rattle.sstable_blocks.specs.Run.{form};

    ghost Value = { ClosedView };

    ghost view = { λ c. record {
      config = c.config;
      parts = c.parts;
      tops = c.tops.items;
      offset = c.offset;
      start = c.start;
      after = c.after;
    } };

    ghost invariant = { λ c. AreClosed (form H.hash64 H.hash128 c.config) c.parts c.start c.after
        c.tops.items c.offset };
}

impl<H: BlockHash> ClosedParts<H> {
    /// Begins a parted table without parts.
    pub(crate) fn new<W: Output>(alloc: Global, writer: &W, config: RunConfig) -> ClosedParts<H>
        ensures { result ≡ record {
          config = config;
          parts = [];
          tops = [];
          offset = 0;
          start = W.contents writer.now;
          after = W.contents writer.now;
        } }
    {
        ClosedParts {
            hash: PhantomData,
            config,
            tops: Vec::new(alloc),
            offset: 0,
            parts: History::new(),
            start: Contents::of(writer),
            after: Contents::of(writer),
        }
    }

    /// Returns the key and the sequence number of the last of some entries.
    ///
    /// # Errors
    ///
    /// `Error::Memory` if an allocation fails.
    pub(crate) fn end_of<T: AsEntry>(&self, items: &[T]) -> Result<PartEnd>
        requires { 1 ≤ length items.now }
        ensures ok { IfOk result (λ e. IsLastOf (map T.entry items.now) e.key e.seqno) }
        ensures memory { IsOkUnless result Error.Memory }
    {
        let last = items[items.len() - 1].view();
        // The entry is within its limits.
        let _limits = last.key_parts();
        let key = last.to_user_key(*self.tops.allocator())?;
        Ok(PartEnd {
            key,
            seqno: last.seqno(),
        })
    }

    /// Returns a writer of the run of the next part.
    pub(crate) fn next_run<W: Output>(&self, writer: W) -> RunWriter<H, W>
        requires { IsWritable self.now.config }
        ensures { result ≡ record {
          config = self.now.config;
          blocks = [];
          refusal = None;
          start = W.contents writer;
          writer = writer;
        } }
    {
        RunWriter::new(*self.tops.allocator(), writer, self.config)
    }

    /// Ends a part, whose blocks these are: writes the index, the filter and the footer of its run.
    /// Returns the parts with it, and the writer.
    ///
    /// # Errors
    ///
    /// `Error::TooLong` only where the part does not fit, `Error::Memory` if an allocation fails,
    /// `Error::Io` if the writer fails.
    pub(crate) fn close<W: Output + Drop>(
        self,
        run: RunWriter<H, W>,
        blocks: &History<LinkedList<InternalValue>>,
        end: PartEnd,
    ) -> Result<(ClosedParts<H>, W)>
        requires { IsCurrent self run blocks.now (Some end) }
        ensures closed { IfOk result (λ r. Closes self (Made run.blocks) r.0 (W.contents r.1)) }
        ensures reliable { IfOk result (λ r. W.never_fails run.writer → W.never_fails r.1) }
        ensures failed { IsErrOf result Io → W.never_fails run.writer → ⊥ }
        ensures cause { IfErr result (IsWriteRefusal (ClosedEnds
            (form H.hash64 H.hash128 self.config) self.parts run.blocks → ⊥)) }
    {
        let ClosedParts {
            hash: _,
            config,
            mut tops,
            offset,
            mut parts,
            start,
            after: _,
        } = self;
        parts.push_chosen(blocks);
        let (handle, writer) = end_part(run, end, offset)?;
        let next = offset + u64::from(handle.size());
        tops.push(handle)?;
        let after = Contents::of(&writer);
        let closed = ClosedParts {
            hash: PhantomData,
            config,
            tops,
            offset: next,
            parts,
            start,
            after,
        };
        Ok((closed, writer))
    }

    /// Writes the bytes of a part of another table as they are, with its handle there. Returns the
    /// parts with it.
    ///
    /// # Errors
    ///
    /// `Error::TooLong` only where the part ends at 2^64 or above, `Error::Memory` if an allocation
    /// fails, `Error::Io` if the writer fails.
    pub(crate) fn copy<W: Output>(
        self,
        writer: &mut W,
        part: &[u8],
        end: &KeyedBlockHandle,
    ) -> Result<ClosedParts<H>>
        requires size { end.now.size ≡ length part.now }
        requires after { W.contents writer.old ≡ self.after }
        ensures copied { IfOk result (λ r. Closes self (Copied part.now end.now) r
            (W.contents writer.new)) }
        ensures writer { UsesWriter W.never_fails writer.old writer.new result }
        ensures cause { IfErr result (IsWriteRefusal (CopyFits
            (form H.hash64 H.hash128 self.config) self.parts part.now → ⊥)) }
    {
        let ClosedParts {
            hash: _,
            config,
            mut tops,
            offset,
            mut parts,
            start,
            after: _,
        } = self;
        let (copied, next) = moved(end, offset)?;
        parts.push_chosen(&(part, end));
        tops.push(copied)?;
        writer.put(part)?;
        Ok(ClosedParts {
            hash: PhantomData,
            config,
            tops,
            offset: next,
            parts,
            start,
            after: Contents::of(&*writer),
        })
    }

    /// Returns whether a part is closed.
    pub(crate) fn has_parts(&self) -> bool
        ensures { IsTrue result ↔ (1 ≤ length self.now.parts) }
    {
        !self.tops.is_empty()
    }

    /// Returns the key and the sequence number of the last entry of the last part, if there is one.
    pub(crate) fn last_end(&self) -> Option<(&[u8], SeqNo)>
        ensures { IsLastKey (joined (joined (known_parts self.now.parts)))
            (option_map (λ e. (e.0.now, e.1)) result) }
    {
        match self.tops.last() {
            None => None,
            Some(end) => Some((end.end_key().as_slice(), end.seqno())),
        }
    }

    /// Writes the index of the parts. Returns its handle.
    ///
    /// # Errors
    ///
    /// `Error::TooLong` only where the index does not fit, `Error::Memory` if an allocation fails,
    /// `Error::Io` if the writer fails.
    pub(crate) fn write_top<W: Output>(&self, writer: &mut W) -> Result<BlockHandle>
        requires some { 1 ≤ length self.now.parts }
        requires between { IsBetween self.now (W.contents writer.old) }
        ensures parts { IfOk result (λ top. AppendsOpenCopies
            (form H.hash64 H.hash128 self.now.config) self.now.parts self.now.start
            (W.contents writer.new) top) }
        ensures writer { UsesWriter W.never_fails writer.old writer.new result }
        ensures cause { IfErr result (IsWriteRefusal
            (ClosedTopFits (form H.hash64 H.hash128 self.now.config) self.now.parts → ⊥)) }
    {
        let (alloc, interval) = (*self.tops.allocator(), self.config.index_interval);
        let payload = IndexBlock::encode_into_vec_with(alloc, &self.tops, interval)?;
        write_index::<H, W>(writer, &payload, self.offset)
    }
}
