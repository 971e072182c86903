//! Writing a parted table, a block at a time.
ghost use Rattle.std.specs.Prelude.{◌≡◌, ◌↔◌, ◌++◌, ◌∷◌, [], ◌≤◌, IfErr, IfOk, IsErrOf};
ghost use Rattle.std.specs.Prelude.{IsTrue, OnOk, length, map};
ghost use Rattle.sst_parts.specs.PartWriting.{AddsTo, AppendsOpen, AppendsParted};
ghost use Rattle.sst_parts.specs.PartWriting.{AppendsPartedFile, AreCut, EndFits, NextFits};
ghost use Rattle.sst_parts.specs.PartWriting.{blocks_so_far, top_handles};
ghost use Rattle.sstable_blocks.specs.Results.{Io};
ghost use Rattle.sstable_blocks.specs.Run.{IsWritable, form};
ghost use Rattle.sstable_blocks.specs.RunReading.{hashes};
ghost use Rattle.sstable_blocks.specs.Writing.{Follows, IsWriteRefusal};

use crate::closed::ClosedParts;
use crate::laws::parted_layout_is_parted;
use crate::part_core::{PartCore, fits_behind};
use sstable_blocks::run::{RunConfig, RunHandles, TableWriter, encode_footer};
use sstable_blocks::{AsEntry, BlockHandle, BlockHash, Output, Result};
use std::alloc::Global;
use std::marker::Model;

/// Where the parts of a parted table end: a part ends as soon as it reaches one of these sizes,
/// with the block with which it does. A size of 0 is no limit.
#[derive(Clone, Copy, Debug, PartialEq, Eq)]
pub struct PartSizes {
    /// The number of blocks of a part.
    pub blocks: usize,
    /// The number of bytes of a part, of which those of keys and values are counted.
    pub bytes: u64,
}

/// Writes a parted table into a writer of bytes, a block at a time. What is kept are the handles of
/// the blocks and the hashes of the keys of the part that is written, and a handle of each part
/// before.
///
/// Clauses see the configuration and the sizes, the blocks of the parts closed, those of the part
/// that is current, what the writer held when this was made, and the writer.
#[derive(Drop)]
pub struct PartWriter<H: BlockHash, W: Output> {
    // Copies no part.
    core: PartCore<H, W>,
}

impl<H: BlockHash, W: Output> Model for PartWriter<H, W> {
    ghost use Rattle.sst_parts.specs.PartCopies.{AreCutBlocks, known_parts};
    ghost use Rattle.sst_parts.specs.PartWriting.{PartWriting};

    ghost Value = { PartWriting W };

    ghost view = { λ w. record {
      config = w.core.config;
      sizes = w.core.sizes;
      parts = known_parts w.core.closed;
      current = w.core.current;
      start = w.core.start;
      writer = w.core.writer;
    } };

    ghost invariant = { λ w. AreCutBlocks w.core.sizes w.core.closed w.core.current };
}

impl<H: BlockHash, W: Output> PartWriter<H, W> {
    /// Makes a writer of a parted table. Both intervals of the configuration and the denominator of
    /// its ratio are at least 1.
    pub fn new(alloc: Global, writer: W, config: RunConfig, sizes: PartSizes) -> PartWriter<H, W>
        requires writable { IsWritable config }
        ensures { result ≡ record {
          config = config;
          sizes = sizes;
          parts = [];
          current = [];
          start = W.contents writer;
          writer = writer;
        } }
    {
        let closed = ClosedParts::new(alloc, &writer, config);
        PartWriter {
            core: PartCore::new(closed, writer, sizes),
        }
    }

    /// Returns whether entries can be the next block: there is one, none sorts before its
    /// predecessor, and the first not before the last entry of the blocks written.
    pub fn fits_after<T: AsEntry>(&self, items: &[T]) -> bool
        ensures { IsTrue result ↔ Follows (blocks_so_far self.now) (map T.entry items.now) }
    {
        fits_behind(&self.core.last_end(), items)
    }

    /// Returns whether a block was written.
    pub fn has_blocks(&self) -> bool
        ensures { IsTrue result ↔ (1 ≤ length self.now.current) }
    {
        self.core.has_blocks()
    }

    // Tells that the parts are cut by the sizes.
    fn tell_cut(&self)
        ensures { AreCut self.now.sizes self.now.parts self.now.current }
    {
        let _blocks = self.core.has_blocks();
    }
}

impl<H: BlockHash, W: Output + Drop> PartWriter<H, W> {
    /// Writes one more block, which [`PartWriter::fits_after`] those before: to the current part,
    /// or, where that has reached one of its sizes, to the next one, after the index, the filter
    /// and the footer of the part that ends. A part may end between versions of one key.
    ///
    /// # Errors
    ///
    /// `Error::TooLong` only where a part that ends does not fit: its run as `write_run` says, its
    /// table file below 2^32 bytes, and the end of that below 2^64; or where the block does not
    /// fit, as [`RunWriter::add_block`](sstable_blocks::run::RunWriter::add_block) says.
    /// `Error::Memory` if an allocation fails, `Error::Io` if the writer fails. The writer is gone
    /// then, and may hold a partial write.
    pub fn add_block<T: AsEntry>(self, items: &[T]) -> Result<PartWriter<H, W>>
        requires { Follows (blocks_so_far self) (map T.entry items.now) }
        ensures added { IfOk result (λ w. AddsTo self w (map T.entry items.now)) }
        ensures reliable { IfOk result (λ w. W.never_fails self.writer → W.never_fails w.writer) }
        ensures failed { IsErrOf result Io → W.never_fails self.writer → ⊥ }
        ensures cause { IfErr result (IsWriteRefusal (NextFits
            (form H.hash64 H.hash128 self.config) self (map T.entry items.now) → ⊥)) }
    {
        let core = self.core.add_block(items)?;
        Ok(PartWriter { core })
    }

    /// Ends the last part, and writes the index of the parts. Returns its handle, and the writer,
    /// into which no footer is written. A block was written.
    ///
    /// # Errors
    ///
    /// `Error::TooLong` only where the last part does not fit, as [`PartWriter::add_block`] says,
    /// or the payload of the index has more than 4294967262 bytes, or its frame ends at 2^64 or
    /// above. `Error::Memory` if an allocation fails, `Error::Io` if the writer fails.
    pub fn finish_parts(self) -> Result<(BlockHandle, W)>
        requires { 1 ≤ length self.current }
        ensures cut { OnOk result (AreCut self.sizes self.parts self.current) }
        ensures parts { IfOk result (λ r. AppendsOpen (form H.hash64 H.hash128 self.config)
            (self.parts ++ self.current ∷ []) self.start (W.contents r.1) r.0) }
        ensures reliable { IfOk result (λ r. W.never_fails self.writer → W.never_fails r.1) }
        ensures failed { IsErrOf result Io → W.never_fails self.writer → ⊥ }
        ensures cause { IfErr result (IsWriteRefusal
            (EndFits (form H.hash64 H.hash128 self.config) self → ⊥)) }
    {
        let (closed, mut writer) = self.core.close()?;
        let top = closed.write_top(&mut writer)?;
        Ok((top, writer))
    }

    /// Ends the table: the last part, the index of the parts and the footer. Returns the handle of
    /// the index, and the writer, which is not flushed or synced. A block was written.
    ///
    /// # Errors
    ///
    /// Those of [`PartWriter::finish_parts`].
    pub fn finish(self) -> Result<(BlockHandle, W)>
        requires { 1 ≤ length self.current }
        ensures layout { IfOk result (λ r. AppendsParted (form H.hash64 H.hash128 self.config)
            (self.parts ++ self.current ∷ []) self.start (W.contents r.1) r.0) }
        ensures sound { IfOk result (λ r. AppendsPartedFile (hashes H.hash64 H.hash128)
            (self.parts ++ self.current ∷ []) self.start (W.contents r.1) r.0) }
        ensures reliable { IfOk result (λ r. W.never_fails self.writer → W.never_fails r.1) }
        ensures failed { IsErrOf result Io → W.never_fails self.writer → ⊥ }
        ensures cause { IfErr result (IsWriteRefusal
            (EndFits (form H.hash64 H.hash128 self.config) self → ⊥)) }
    {
        parted_layout_is_parted();
        let (top, mut writer) = self.finish_parts()?;
        writer.put(&encode_footer(&footer_handles(top)))?;
        Ok((top, writer))
    }
}

// The handles in the footer of a parted table, whose index has this handle.
pub(crate) fn footer_handles(top: BlockHandle) -> RunHandles
    ensures { result ≡ top_handles top }
{
    RunHandles {
        index: top,
        filter: None,
    }
}

/// How a parted table is written.
#[derive(Clone, Copy, Debug, PartialEq, Eq)]
pub struct PartForm {
    /// How the run of each part is encoded.
    pub config: RunConfig,
    /// Where parts end.
    pub sizes: PartSizes,
}

/// A parted table.
impl<H: BlockHash, W: Output + Drop, T: AsEntry> TableWriter<T> for PartWriter<H, W> {
    ghost use Rattle.sst_parts.specs.PartKinds.{parted_kind};

    type Form = PartForm;

    type Writer = W;

    ghost writable = { λ f. IsWritable f.config };

    ghost kind = { λ f. parted_kind (form H.hash64 H.hash128 f.config) f.sizes };

    ghost so_far = { λ w. record {
      form = record { config = w.config; sizes = w.sizes };
      blocks = blocks_so_far w;
      start = w.start;
    } };

    ghost accepts = { λ _. Unit {0} };

    ghost is_reliable = { λ w. W.never_fails w.writer };

    fn restart_interval(form: &PartForm) -> u8 {
        form.config.restart_interval
    }

    fn begin(alloc: Global, writer: W, form: PartForm) -> PartWriter<H, W> {
        PartWriter::new(alloc, writer, form.config, form.sizes)
    }

    fn fits_after(&self, items: &[T]) -> bool {
        self.fits_after(items)
    }

    fn with_block(self, items: &[T]) -> Result<PartWriter<H, W>> {
        self.tell_cut();
        self.add_block(items)
    }

    fn finish(self) -> Result<(RunHandles, W)> {
        self.tell_cut();
        let (top, writer) = self.finish_parts()?;
        Ok((footer_handles(top), writer))
    }
}
