//! The part of a parted table that blocks are written to, after parts that are closed.
ghost use Rattle.std.specs.Prelude.{◌≡◌, ◌↔◌, ◌-◌, ◌++◌, ◌∷◌, [], ◌≤◌, IfErr, IfOk, IsErrOf};
ghost use Rattle.std.specs.Prelude.{IsTrue, List, ℕ};
ghost use Rattle.std.specs.Prelude.{OnErr, if◌then◌else◌};
ghost use Rattle.std.specs.Prelude.{length, map, true};
ghost use Rattle.std.specs.Option.{option_map};
ghost use Rattle.sst_parts.specs.PartCopies.{BlockFits, ClosedEnds, ClosesCurrent, CurrentFits};
ghost use Rattle.sst_parts.specs.PartCopies.{IsBetween, IsCurrent, IsLastKey, IsNextPart};
ghost use Rattle.sst_parts.specs.PartCopies.{SortsBehind, WritesBlock, end_entry, known_so_far};
ghost use Rattle.sst_parts.specs.PartWriting.{data_len, is_full, reaches};
ghost use Rattle.sstable_blocks.specs.Blocks.{joined};
ghost use Rattle.sstable_blocks.specs.Prelude.{Entry, entries, IsOrdered};
ghost use Rattle.sstable_blocks.specs.Results.{Io};
ghost use Rattle.sstable_blocks.specs.Run.{IsWritable, form};
ghost use Rattle.sstable_blocks.specs.Writing.{Follows, IsWriteRefusal};

use crate::closed::{ClosedParts, PartEnd};
use crate::writer::PartSizes;
use sstable_blocks::ghost_state::History;
use sstable_blocks::run::RunWriter;
use sstable_blocks::{
    AsEntry, BlockHash, EntryView, InternalValue, KeyedBlockHandle, Output, Result, SeqNo,
};
use std::collections::LinkedList;
use std::marker::Model;

// How much of a number of bytes is left after the keys and values of entries.
fn spend<T: AsEntry>(left: u64, items: &[T]) -> u64
    ensures { result ≡ left - data_len (map T.entry items.now) }
{
    let mut rest = left;
    for item in items {
        let entry = item.view();
        let key_rest = rest.saturating_sub(entry.key_len() as u64);
        rest = key_rest.saturating_sub(entry.value().len() as u64);
    }
    rest
}

// Whether a number reaches a limit, which 0 is none.
fn reached(limit: usize, n: usize) -> bool
    ensures { result ≡ reaches limit n }
{
    limit >= 1 && limit <= n
}

// The same of a number by how much of the limit it leaves.
fn spent(limit: u64, left: u64) -> bool
    ensures { (n : ℕ) → left ≡ limit - n → result ≡ reaches limit n }
{
    limit >= 1 && left == 0
}

// How many bytes are left to the part that the next block is added to, where the current one is
// full or not.
fn left_before(full: bool, bytes: u64, left: u64) -> u64
    ensures { result ≡ (if full then bytes else left) }
{
    if full { bytes } else { left }
}

// The blocks of that part.
fn blocks_before(
    full: bool,
    blocks: History<LinkedList<InternalValue>>,
) -> History<LinkedList<InternalValue>>
    ensures { result ≡ (if full then [] else blocks) }
{
    if full { History::new() } else { blocks }
}

// Whether an entry does not sort before the last one, if there is one.
fn is_behind(last: &Option<(&[u8], SeqNo)>, item: &EntryView<'_>) -> bool
    ensures { IsTrue result ↔ SortsBehind (option_map (λ e. (e.0.now, e.1)) last.now) item.now }
{
    match last {
        None => true,
        Some((key, seqno)) => {
            let by_key = item.compare_key(key);
            by_key.then(seqno.cmp(&item.seqno())).is_ge()
        }
    }
}

// Whether entries can be a block after a list of blocks, by the key and the sequence number of its
// last entry.
pub(crate) fn fits_behind<T: AsEntry>(last: &Option<(&[u8], SeqNo)>, items: &[T]) -> bool
    ensures { (blocks : List (List Entry))
        → IsLastKey (joined blocks) (option_map (λ e. (e.0.now, e.1)) last.now)
        → IsOrdered entries (joined blocks)
        → (IsTrue result ↔ Follows blocks (map T.entry items.now)) }
{
    match items.first() {
        None => false,
        Some(first) => T::are_ordered(items) && is_behind(last, &first.view()),
    }
}

// Whether the last entry of a part can be after a list of blocks.
pub(crate) fn end_fits_behind(last: &Option<(&[u8], SeqNo)>, end: &KeyedBlockHandle) -> bool
    ensures { (blocks : List (List Entry))
        → IsLastKey (joined blocks) (option_map (λ e. (e.0.now, e.1)) last.now)
        → IsOrdered entries (joined blocks)
        → (IsTrue result ↔ Follows blocks (end_entry end.now ∷ [])) }
{
    match last {
        None => true,
        Some((key, seqno)) => {
            let by_key = end.end_key().as_slice().cmp(key);
            by_key.then(seqno.cmp(&end.seqno())).is_ge()
        }
    }
}

// The parts closed, and the run that the next block is added to: the current part's, or, where that
// is full, the next one's.
fn next_part<H: BlockHash, W: Output + Drop>(
    closed: ClosedParts<H>,
    run: RunWriter<H, W>,
    blocks: &History<LinkedList<InternalValue>>,
    end: Option<PartEnd>,
    full: bool,
) -> Result<(ClosedParts<H>, RunWriter<H, W>)>
    requires writable { IsWritable closed.config }
    requires current { IsCurrent closed run blocks.now end }
    requires some { full ≡ true → 1 ≤ length run.blocks }
    ensures next { IfOk result (λ r. IsNextPart closed run full r.0 r.1) }
    ensures full { OnErr result (full ≡ true) }
    ensures reliable { IfOk result (λ r. W.never_fails run.writer → W.never_fails r.1.writer) }
    ensures failed { IsErrOf result Io → W.never_fails run.writer → ⊥ }
    ensures cause { IfErr result (IsWriteRefusal (ClosedEnds
        (form H.hash64 H.hash128 closed.config) closed.parts run.blocks → ⊥)) }
{
    if !full {
        return Ok((closed, run));
    }
    let Some(end) = end else { unreachable!() };
    let (closed, writer) = closed.close(run, blocks, end)?;
    let run = closed.next_run(writer);
    Ok((closed, run))
}

/// Writes blocks into parts, which it closes by their sizes, after parts that are closed. What is
/// kept are the handles of the blocks and the hashes of the keys of the part that is written, and a
/// handle of each part before.
///
/// Clauses see the configuration and the sizes, what the parts closed were written from, the blocks
/// of the part that is current, what the writer held when the table was begun, and the writer.
#[derive(Drop)]
pub(crate) struct PartCore<H: BlockHash, W: Output> {
    closed: ClosedParts<H>,
    run: RunWriter<H, W>,
    sizes: PartSizes,
    // The blocks of the current part.
    blocks: History<LinkedList<InternalValue>>,
    // The last entry of the current part, if it has one.
    end: Option<PartEnd>,
    // The bytes that are left to the current part.
    left: u64,
}

impl<H: BlockHash, W: Output> Model for PartCore<H, W> {
    ghost use Rattle.sst_parts.specs.PartCopies.{IsOpenPart, PartsSoFar};

    ghost Value = { PartsSoFar W };

    ghost view = { λ w. record {
      config = w.closed.config;
      sizes = w.sizes;
      closed = w.closed.parts;
      current = w.run.blocks;
      start = w.closed.start;
      writer = w.run.writer;
    } };

    ghost invariant = { λ w. IsOpenPart w.closed w.run w.sizes w.blocks w.end w.left };
}

impl<H: BlockHash, W: Output> PartCore<H, W> {
    /// Begins a part without blocks.
    pub(crate) fn new(closed: ClosedParts<H>, writer: W, sizes: PartSizes) -> PartCore<H, W>
        requires { IsBetween closed (W.contents writer) }
        ensures { result ≡ record {
          config = closed.config;
          sizes = sizes;
          closed = closed.parts;
          current = [];
          start = closed.start;
          writer = writer;
        } }
    {
        let run = closed.next_run(writer);
        PartCore {
            closed,
            run,
            sizes,
            blocks: History::new(),
            end: None,
            left: sizes.bytes,
        }
    }

    /// Returns the key and the sequence number of the last entry so far, as far as it is known.
    pub(crate) fn last_end(&self) -> Option<(&[u8], SeqNo)>
        ensures last { IsLastKey (joined (known_so_far self.now))
            (option_map (λ e. (e.0.now, e.1)) result) }
        ensures ordered { IsOrdered entries (joined (known_so_far self.now)) }
    {
        match &self.end {
            None => self.closed.last_end(),
            Some(end) => Some((end.key.as_slice(), end.seqno)),
        }
    }

    /// Returns whether the current part has a block.
    pub(crate) fn has_blocks(&self) -> bool
        ensures { IsTrue result ↔ (1 ≤ length self.now.current) }
    {
        self.run.block_count() > 0
    }

    /// Returns the sizes of parts.
    pub(crate) fn sizes(&self) -> PartSizes
        ensures { result ≡ self.now.sizes }
    {
        self.sizes
    }

    // Whether the current part ends before the next block.
    fn is_full(&self) -> bool
        ensures { result ≡ is_full self.now.sizes self.now.current }
    {
        let by_blocks = reached(self.sizes.blocks, self.run.block_count());
        let by_bytes = spent(self.sizes.bytes, self.left);
        if by_blocks { true } else { by_bytes }
    }
}

impl<H: BlockHash, W: Output + Drop> PartCore<H, W> {
    /// Writes one more block, which follows those before: to the current part, or, where that has
    /// reached one of its sizes, to the next one.
    ///
    /// # Errors
    ///
    /// Those of [`PartWriter::add_block`](crate::PartWriter::add_block).
    pub(crate) fn add_block<T: AsEntry>(self, items: &[T]) -> Result<PartCore<H, W>>
        requires { Follows (known_so_far self) (map T.entry items.now) }
        ensures added { IfOk result (λ w. WritesBlock self w (map T.entry items.now)) }
        ensures reliable { IfOk result (λ w. W.never_fails self.writer → W.never_fails w.writer) }
        ensures failed { IsErrOf result Io → W.never_fails self.writer → ⊥ }
        ensures cause { IfErr result (IsWriteRefusal (BlockFits
            (form H.hash64 H.hash128 self.config) self (map T.entry items.now) → ⊥)) }
    {
        let last = self.closed.end_of(items)?;
        let full = self.is_full();
        let PartCore {
            closed,
            run,
            sizes,
            blocks,
            end,
            left,
        } = self;
        let left = left_before(full, sizes.bytes, left);
        let (closed, mut run) = next_part(closed, run, &blocks, end, full)?;
        run.add_block(items)?;
        let mut blocks = blocks_before(full, blocks);
        blocks.push_chosen(&items);
        Ok(PartCore {
            closed,
            run,
            sizes,
            blocks,
            end: Some(last),
            left: spend(left, items),
        })
    }

    /// Ends the current part, which has a block. Returns the parts closed, and the writer.
    ///
    /// # Errors
    ///
    /// `Error::TooLong` only where the part does not fit, `Error::Memory` if an allocation fails,
    /// `Error::Io` if the writer fails.
    pub(crate) fn close(self) -> Result<(ClosedParts<H>, W)>
        requires { 1 ≤ length self.current }
        ensures closed { IfOk result (λ r. ClosesCurrent self r.0 (W.contents r.1)) }
        ensures reliable { IfOk result (λ r. W.never_fails self.writer → W.never_fails r.1) }
        ensures failed { IsErrOf result Io → W.never_fails self.writer → ⊥ }
        ensures cause { IfErr result (IsWriteRefusal
            (CurrentFits (form H.hash64 H.hash128 self.config) self → ⊥)) }
    {
        let PartCore {
            closed,
            run,
            sizes: _,
            blocks,
            end,
            left: _,
        } = self;
        let Some(end) = end else { unreachable!() };
        closed.close(run, &blocks, end)
    }
}
