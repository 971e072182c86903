//! Writing a parted table from blocks and from whole parts of other parted tables.
ghost use Rattle.std.specs.Prelude.{◌≡◌, ◌↔◌, ◌∷◌, [], ◌≤◌, IfErr, IfOk, IsErrOf, IsTrue};
ghost use Rattle.std.specs.Prelude.{length, map};
ghost use Rattle.std.specs.Option.{option_map};
ghost use Rattle.sst_parts.specs.PartCopies.{AppendsCopies, AppendsFileFrom, BlockFits};
ghost use Rattle.sst_parts.specs.PartCopies.{ClosesCurrent, CopiedPartFits, CopiesEndFits};
ghost use Rattle.sst_parts.specs.PartCopies.{CurrentFits, IsBetween, IsLastKey, WritesBlock};
ghost use Rattle.sst_parts.specs.PartCopies.{WritesPart, end_entry, known_so_far, parts_so_far};
ghost use Rattle.sstable_blocks.specs.Blocks.{joined};
ghost use Rattle.sstable_blocks.specs.Prelude.{entries, IsOrdered};
ghost use Rattle.sstable_blocks.specs.Results.{Io};
ghost use Rattle.sstable_blocks.specs.Run.{IsWritable, form};
ghost use Rattle.sstable_blocks.specs.RunReading.{hashes};
ghost use Rattle.sstable_blocks.specs.Writing.{Follows, IsWriteRefusal};

use crate::closed::ClosedParts;
use crate::laws::copied_layout_is_parted;
use crate::part_core::{PartCore, end_fits_behind, fits_behind};
use crate::writer::{PartSizes, footer_handles};
use sstable_blocks::run::{RunConfig, encode_footer};
use sstable_blocks::{AsEntry, BlockHandle, BlockHash, KeyedBlockHandle, Output, Result, SeqNo};
use std::alloc::Global;
use std::marker::Model;

/// Where a copier is: between parts, with the writer and the sizes of parts, or in a part of
/// blocks.
#[derive(Drop)]
pub(crate) enum CopyState<H: BlockHash, W: Output> {
    Between(ClosedParts<H>, W, PartSizes),
    Open(PartCore<H, W>),
}

/// Writes a parted table into a writer of bytes, from blocks and from whole parts of other parted
/// tables, in any mixture. Blocks are written as [`PartWriter`](crate::PartWriter) writes them. A
/// part of another table is written as it is: its bytes are neither verified nor decoded. Each
/// frame of it carries its checksum still, and [`PartedTable::verify`](crate::PartedTable::verify)
/// checks a table before or after its parts are copied.
///
/// Clauses see the configuration and the sizes, what the parts closed were written from, the blocks
/// of the current part, what the writer held when this was made, and the writer.
#[derive(Drop)]
pub struct PartCopier<H: BlockHash, W: Output> {
    state: CopyState<H, W>,
}

impl<H: BlockHash, W: Output> Model for PartCopier<H, W> {
    ghost use Rattle.sst_parts.specs.CopyStates.{IsCopyState, parts_of_state};
    ghost use Rattle.sst_parts.specs.PartCopies.{PartsSoFar};

    ghost Value = { PartsSoFar W };

    ghost view = { λ w. parts_of_state w.state };

    ghost invariant = { λ w. IsCopyState W.contents w.state };
}

impl<H: BlockHash, W: Output> PartCopier<H, W> {
    /// Makes a writer of a parted table. Both intervals of the configuration and the denominator of
    /// its ratio are at least 1.
    pub fn new(alloc: Global, writer: W, config: RunConfig, sizes: PartSizes) -> PartCopier<H, W>
        requires writable { IsWritable config }
        ensures { result ≡ record {
          config = config;
          sizes = sizes;
          closed = [];
          current = [];
          start = W.contents writer;
          writer = writer;
        } }
    {
        let closed = ClosedParts::new(alloc, &writer, config);
        PartCopier {
            state: CopyState::Between(closed, writer, sizes),
        }
    }

    // The key and the sequence number of the last entry so far, as far as it is known.
    fn last_end(&self) -> Option<(&[u8], SeqNo)>
        ensures last { IsLastKey (joined (known_so_far self.now))
            (option_map (λ e. (e.0.now, e.1)) result) }
        ensures ordered { IsOrdered entries (joined (known_so_far self.now)) }
    {
        match &self.state {
            CopyState::Between(closed, _, _) => closed.last_end(),
            CopyState::Open(core) => core.last_end(),
        }
    }

    /// Returns whether entries can be the next block: there is one, none sorts before its
    /// predecessor, and the first not before the last entry so far, which after a part that was
    /// copied is that of its handle.
    pub fn fits_after<T: AsEntry>(&self, items: &[T]) -> bool
        ensures { IsTrue result ↔ Follows (known_so_far self.now) (map T.entry items.now) }
    {
        fits_behind(&self.last_end(), items)
    }

    /// Returns whether the part of a handle can be the next one as far as the handle tells: its end
    /// does not sort before the last entry so far.
    pub fn part_fits_after(&self, end: &KeyedBlockHandle) -> bool
        ensures { IsTrue result ↔ Follows (known_so_far self.now) (end_entry end.now ∷ []) }
    {
        end_fits_behind(&self.last_end(), end)
    }

    /// Returns whether a block was written, or a part.
    pub fn has_parts(&self) -> bool
        ensures { IsTrue result ↔ (1 ≤ length (parts_so_far self.now)) }
    {
        match &self.state {
            CopyState::Between(closed, _, _) => closed.has_parts(),
            CopyState::Open(core) => core.has_blocks(),
        }
    }

    // The sizes of parts.
    fn sizes(&self) -> PartSizes
        ensures { result ≡ self.now.sizes }
    {
        match &self.state {
            CopyState::Between(_, _, sizes) => *sizes,
            CopyState::Open(core) => core.sizes(),
        }
    }

    // The part that the next block is written to.
    fn into_core(self) -> PartCore<H, W>
        ensures { result ≡ self }
    {
        match self.state {
            CopyState::Between(closed, writer, sizes) => PartCore::new(closed, writer, sizes),
            CopyState::Open(core) => core,
        }
    }
}

impl<H: BlockHash, W: Output + Drop> PartCopier<H, W> {
    /// Writes one more block, which [`PartCopier::fits_after`] what is before, as
    /// [`PartWriter::add_block`](crate::PartWriter::add_block) does.
    ///
    /// # Errors
    ///
    /// Those of [`PartWriter::add_block`](crate::PartWriter::add_block). The writer is gone then,
    /// and may hold a partial write.
    pub fn add_block<T: AsEntry>(self, items: &[T]) -> Result<PartCopier<H, W>>
        requires { Follows (known_so_far self) (map T.entry items.now) }
        ensures added { IfOk result (λ w. WritesBlock self w (map T.entry items.now)) }
        ensures reliable { IfOk result (λ w. W.never_fails self.writer → W.never_fails w.writer) }
        ensures failed { IsErrOf result Io → W.never_fails self.writer → ⊥ }
        ensures cause { IfErr result (IsWriteRefusal (BlockFits
            (form H.hash64 H.hash128 self.config) self (map T.entry items.now) → ⊥)) }
    {
        let core = self.into_core().add_block(items)?;
        Ok(PartCopier {
            state: CopyState::Open(core),
        })
    }

    /// Writes a whole part of another parted table as it is, after the current part, which is
    /// closed, if it has blocks. The bytes are those that the handle names in that table, as
    /// [`PartedTable::part_at`](crate::PartedTable::part_at) returns them, and the handle that of
    /// its index. Of the handle the length and the end are kept. Nothing of the bytes is verified
    /// or decoded, and no byte of them is copied in memory.
    ///
    /// # Errors
    ///
    /// `Error::TooLong` only where the part that is closed does not fit, as
    /// [`PartWriter::add_block`](crate::PartWriter::add_block) says, or the copy ends at 2^64 or
    /// above. `Error::Memory` if an allocation fails, `Error::Io` if the writer fails. The writer
    /// is gone then, and may hold a partial write.
    pub fn add_part(self, part: &[u8], end: &KeyedBlockHandle) -> Result<PartCopier<H, W>>
        requires size { end.now.size ≡ length part.now }
        requires behind { Follows (known_so_far self) (end_entry end.now ∷ []) }
        ensures added { IfOk result (λ w. WritesPart self w part.now end.now) }
        ensures reliable { IfOk result (λ w. W.never_fails self.writer → W.never_fails w.writer) }
        ensures failed { IsErrOf result Io → W.never_fails self.writer → ⊥ }
        ensures cause { IfErr result (IsWriteRefusal (CopiedPartFits
            (form H.hash64 H.hash128 self.config) self part.now → ⊥)) }
    {
        let sizes = self.sizes();
        let (closed, mut writer) = self.close()?;
        let closed = closed.copy(&mut writer, part, end)?;
        Ok(PartCopier {
            state: CopyState::Between(closed, writer, sizes),
        })
    }

    // Ends the current part, if it has blocks.
    fn close(self) -> Result<(ClosedParts<H>, W)>
        ensures closed { IfOk result (λ r. ClosesCurrent self r.0 (W.contents r.1)) }
        ensures reliable { IfOk result (λ r. W.never_fails self.writer → W.never_fails r.1) }
        ensures failed { IsErrOf result Io → W.never_fails self.writer → ⊥ }
        ensures cause { IfErr result (IsWriteRefusal
            (CurrentFits (form H.hash64 H.hash128 self.config) self → ⊥)) }
    {
        match self.state {
            CopyState::Between(closed, writer, _) => Ok((closed, writer)),
            CopyState::Open(core) => core.close(),
        }
    }

    /// Ends the table: the current part, if it has blocks, the index of the parts and the footer.
    /// Returns the handle of the index, and the writer, which is not flushed or synced. A block or
    /// a part was written.
    ///
    /// # Errors
    ///
    /// `Error::TooLong` only where the current part does not fit, as
    /// [`PartWriter::add_block`](crate::PartWriter::add_block) says, or the payload of the index
    /// has more than 4294967262 bytes, or its frame ends at 2^64 or above. `Error::Memory` if an
    /// allocation fails, `Error::Io` if the writer fails.
    pub fn finish(self) -> Result<(BlockHandle, W)>
        requires { 1 ≤ length (parts_so_far self) }
        ensures layout { IfOk result (λ r. AppendsCopies (form H.hash64 H.hash128 self.config)
            (parts_so_far self) self.start (W.contents r.1) r.0) }

        // It is a parted table wherever the copies are parts, and all entries are ordered.
        ensures sound { IfOk result (λ r. AppendsFileFrom (hashes H.hash64 H.hash128)
            (parts_so_far self) self.start (W.contents r.1) r.0) }
        ensures reliable { IfOk result (λ r. W.never_fails self.writer → W.never_fails r.1) }
        ensures failed { IsErrOf result Io → W.never_fails self.writer → ⊥ }
        ensures cause { IfErr result (IsWriteRefusal
            (CopiesEndFits (form H.hash64 H.hash128 self.config) self → ⊥)) }
    {
        copied_layout_is_parted();
        let (closed, mut writer) = self.close()?;
        let top = closed.write_top(&mut writer)?;
        writer.put(&encode_footer(&footer_handles(top)))?;
        Ok((top, writer))
    }
}
