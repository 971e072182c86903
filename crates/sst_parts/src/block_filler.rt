//! Entries that are written into a parted table one by one, in blocks of a size.
ghost use Rattle.std.specs.Prelude.{◌≡◌, ◌∷◌, [], IfErr, IfOk, List, length};
ghost use Rattle.sst_parts.specs.PartMerges.{AddsEntries, BlockRefused, IsFault, IsPartBytes};
ghost use Rattle.sst_parts.specs.PartMerges.{IsRefused, IsSameCopier, PartRefused, RefusesUpTo};
ghost use Rattle.sst_parts.specs.PartMerges.{decoded};
ghost use Rattle.sstable_blocks.specs.Blocks.{joined};
ghost use Rattle.sstable_blocks.specs.Prelude.{Entry, plain};
ghost use Rattle.sstable_blocks.specs.RunReading.{hashes};

use crate::copier::PartCopier;
use sstable_blocks::{AsEntry, BlockHash, Error, InternalValue, KeyedBlockHandle, Output, Result};
use std::alloc::Global;
use std::marker::Model;

// Writes entries as a block, if there are any.
fn write_block<H: BlockHash, W: Output + Drop>(
    copier: PartCopier<H, W>,
    block: &[InternalValue],
) -> Result<PartCopier<H, W>>
    ensures added { IfOk result
        (λ w. AddsEntries (hashes H.hash64 H.hash128) copier w (decoded block.now)) }
    ensures same { IfOk result (IsSameCopier W.never_fails copier) }
    ensures cause { IfErr result (IsFault (W.never_fails copier.writer)
        (BlockRefused (hashes H.hash64 H.hash128) copier block.now)) }
{
    if block.is_empty() {
        return Ok(copier);
    }
    if !copier.fits_after(block) {
        return Err(Error::OutOfOrder);
    }
    copier.add_block(block)
}

// Copies a part of another table.
fn copy_part<H: BlockHash, W: Output + Drop>(
    copier: PartCopier<H, W>,
    part: &[u8],
    end: &KeyedBlockHandle,
) -> Result<PartCopier<H, W>>
    ensures added { IfOk result (λ w. (blocks : List (List Entry))
        → IsPartBytes (hashes H.hash64 H.hash128) part.now blocks end.now
        → AddsEntries (hashes H.hash64 H.hash128) copier w (decoded (joined blocks))) }
    ensures same { IfOk result (IsSameCopier W.never_fails copier) }
    ensures cause { end.now.size ≡ length part.now → IfErr result
        (IsFault (W.never_fails copier.writer)
        (PartRefused (hashes H.hash64 H.hash128) copier part.now end.now)) }
{
    if end.size() as usize != part.len() {
        return Err(Error::BadHandle);
    }
    if !copier.part_fits_after(end) {
        return Err(Error::OutOfOrder);
    }
    copier.add_part(part, end)
}

// How many bytes the key and the value of an entry have.
fn len_of(entry: &InternalValue) -> usize {
    let view = entry.view();
    view.key_len().saturating_add(view.value().len())
}

/// Writes entries one by one into a parted table, in blocks that end with the entry with which
/// their keys and values reach a size, and copies parts after them.
///
/// Clauses see the copier, with the entries that are not written yet as a block more of its current
/// part.
#[derive(Drop)]
pub(crate) struct BlockFiller<H: BlockHash, W: Output> {
    copier: PartCopier<H, W>,
    block: Vec<InternalValue>,
    // The bytes of its keys and values.
    len: usize,
    size: usize,
}

impl<H: BlockHash, W: Output> Model for BlockFiller<H, W> {
    ghost use Rattle.sst_parts.specs.PartCopies.{PartsSoFar};
    ghost use Rattle.sst_parts.specs.PartMerges.{with_block};

    ghost Value = { PartsSoFar W };

    ghost view = { λ f. with_block f.copier f.block.items };
}

impl<H: BlockHash, W: Output + Drop> BlockFiller<H, W> {
    /// Writes after what a copier has.
    pub(crate) fn new(alloc: Global, copier: PartCopier<H, W>, size: usize) -> BlockFiller<H, W>
        ensures added { AddsEntries (hashes H.hash64 H.hash128) copier result [] }
        ensures same { IsSameCopier W.never_fails copier result }
        ensures writer { result.writer ≡ copier.writer }
    {
        BlockFiller {
            copier,
            block: Vec::new(alloc),
            len: 0,
            size,
        }
    }

    /// Adds an entry.
    ///
    /// # Errors
    ///
    /// Those of [`PartCopier::add_block`]; `Error::OutOfOrder` if the entries are not in order.
    pub(crate) fn push(self, entry: InternalValue) -> Result<BlockFiller<H, W>>
        ensures added { IfOk result
            (λ f. AddsEntries (hashes H.hash64 H.hash128) self f (plain entry ∷ [])) }
        ensures same { IfOk result (IsSameCopier W.never_fails self) }
        ensures cause { IfErr result (IsFault (W.never_fails self.writer)
            (IsRefused W.never_fails (hashes H.hash64 H.hash128) self (plain entry ∷ []))) }
    {
        let BlockFiller {
            copier,
            mut block,
            len,
            size,
        } = self;
        let len = len.saturating_add(len_of(&entry));
        block.push(entry)?;
        let filler = BlockFiller {
            copier,
            block,
            len,
            size,
        };
        if len < size {
            return Ok(filler);
        }
        filler.flushed()
    }

    // Writes the entries that are not written yet.
    fn flushed(self) -> Result<BlockFiller<H, W>>
        ensures added { IfOk result
            (λ f. AddsEntries (hashes H.hash64 H.hash128) self f []) }
        ensures same { IfOk result (IsSameCopier W.never_fails self) }
        ensures cause { IfErr result (IsFault (W.never_fails self.writer)
            (IsRefused W.never_fails (hashes H.hash64 H.hash128) self [])) }
    {
        let BlockFiller {
            copier,
            mut block,
            len: _,
            size,
        } = self;
        let copier = write_block(copier, &block)?;
        block.clear();
        Ok(BlockFiller {
            copier,
            block,
            len: 0,
            size,
        })
    }

    /// Copies a part of another table after what was added.
    ///
    /// # Errors
    ///
    /// Those of [`PartCopier::add_block`] and [`PartCopier::add_part`]; `Error::OutOfOrder` if the
    /// entries and the part's end are not in order, `Error::BadHandle` if the handle names another
    /// number of bytes.
    pub(crate) fn copy(self, part: &[u8], end: &KeyedBlockHandle) -> Result<BlockFiller<H, W>>
        ensures added { IfOk result (λ f. (blocks : List (List Entry))
            → IsPartBytes (hashes H.hash64 H.hash128) part.now blocks end.now
            → AddsEntries (hashes H.hash64 H.hash128) self f (decoded (joined blocks))) }
        ensures same { IfOk result (IsSameCopier W.never_fails self) }
        ensures cause { IfErr result (λ e. (blocks : List (List Entry))
            → IsPartBytes (hashes H.hash64 H.hash128) part.now blocks end.now
            → IsFault (W.never_fails self.writer) (RefusesUpTo W.never_fails
            (hashes H.hash64 H.hash128) self (decoded (joined blocks))) e) }
    {
        let BlockFiller {
            copier,
            mut block,
            len: _,
            size,
        } = self;
        let copier = write_block(copier, &block)?;
        let copier = copy_part(copier, part, end)?;
        block.clear();
        Ok(BlockFiller {
            copier,
            block,
            len: 0,
            size,
        })
    }

    /// Writes the entries that are not written yet. Returns the copier.
    ///
    /// # Errors
    ///
    /// Those of [`BlockFiller::push`].
    pub(crate) fn finish(self) -> Result<PartCopier<H, W>>
        ensures added { IfOk result
            (λ w. AddsEntries (hashes H.hash64 H.hash128) self w []) }
        ensures same { IfOk result (IsSameCopier W.never_fails self) }
        ensures cause { IfErr result (IsFault (W.never_fails self.writer)
            (IsRefused W.never_fails (hashes H.hash64 H.hash128) self [])) }
    {
        let BlockFiller {
            copier,
            block,
            len: _,
            size: _,
        } = self;
        write_block(copier, &block)
    }
}
