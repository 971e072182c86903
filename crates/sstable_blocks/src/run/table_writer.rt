//! What a table is written with.
ghost use Rattle.std.specs.Prelude.{◌≡◌, ◌↔◌, ◌≤◌, ◌++◌, ◌∷◌, [], ℕ, None, length, map};
ghost use Rattle.std.specs.Prelude.{IfErr, IfOk, IsErrOf, IsTrue};
ghost use Rattle.sst_base.specs.declared.error.Error.TheVariants.{Io};
ghost use Rattle.sstable_blocks.specs.Run.{IsWritable, form};
ghost use Rattle.sstable_blocks.specs.TableKinds.{AddsBlock, SoFar, TableKind, run_kind};
ghost use Rattle.sstable_blocks.specs.Writing.{Follows, IsWriteRefusal};

use super::writer::RunWriter;
use super::{RunConfig, RunHandles};
use sst_base::{BlockHash, Output, Result};
use sst_block_core::AsEntry;
use std::alloc::Global;

/// Writes a table block by block into a writer of bytes: as a run, or in parts. The footer, which
/// says where its index and its filter are, is not written.
pub trait TableWriter<T: AsEntry>: Sized + Drop {
    /// How a table is encoded.
    type Form: Copy;

    /// What its bytes are written into.
    type Writer: Output + Drop;

    // Whether a form is within its limits, and the tables of a form.
    ghost writable: { Self.Form → Type 0 };

    ghost kind: { Self.Form → TableKind };

    // The form, the blocks written, and what the writer of bytes held before them.
    ghost so_far: { Self → SoFar Self.Form };

    // Whether a block may be added: no error ended the table.
    ghost accepts: { Self → Type 0 };

    // Whether no write fails.
    ghost is_reliable: { Self → Type 0 };

    /// Returns the restart interval of the blocks of a form.
    fn restart_interval(form: &Self::Form) -> u8
        requires { writable form.now }
        ensures interval { result ≡ (kind form.now).interval }
        ensures some { 1 ≤ result };

    /// Begins a table.
    fn begin(alloc: Global, writer: Self::Writer, form: Self::Form) -> Self
        requires { writable form }
        ensures so_far { so_far result ≡ record {
          form = form;
          blocks = [];
          start = Self.Writer.contents writer;
        } }
        ensures accepts { accepts result }
        ensures reliable { Self.Writer.never_fails writer → is_reliable result };

    /// Returns whether entries can be the next block: there is one, none sorts before its
    /// predecessor, and the first not before the last entry of the blocks written.
    fn fits_after(&self, items: &[T]) -> bool
        ensures { IsTrue result ↔ Follows (so_far self.now).blocks (map T.entry items.now) };

    /// Writes one more block, which [`TableWriter::fits_after`] those before.
    ///
    /// # Errors
    ///
    /// `Error::TooLong` only where the blocks with this one do not fit a table, `Error::Memory` if
    /// an allocation fails, `Error::Io` if the writer fails.
    fn with_block(self, items: &[T]) -> Result<Self>
        requires accepts { accepts self }
        requires follows { Follows (so_far self).blocks (map T.entry items.now) }
        ensures added { IfOk result
            (λ w. AddsBlock (so_far self) (so_far w) (map T.entry items.now)) }
        ensures accepts { IfOk result accepts }
        ensures reliable { IfOk result (λ w. is_reliable self → is_reliable w) }
        ensures failed { IsErrOf result Io → is_reliable self → ⊥ }
        ensures cause { IfErr result (IsWriteRefusal ((kind (so_far self).form).fits
            ((so_far self).blocks ++ map T.entry items.now ∷ []) → ⊥)) };

    /// Ends the table: writes what is after its blocks. Returns the handles for its footer, and
    /// the writer. A block was written.
    ///
    /// # Errors
    ///
    /// `Error::TooLong` only where the blocks do not fit a table, `Error::Memory` if an allocation
    /// fails, `Error::Io` if the writer fails.
    fn finish(self) -> Result<(RunHandles, Self::Writer)>
        requires accepts { accepts self }
        requires some { 1 ≤ length (so_far self).blocks }
        ensures table { IfOk result (λ r. (kind (so_far self).form).appends (so_far self).blocks
            (so_far self).start (Self.Writer.contents r.1) r.0) }
        ensures failed { IsErrOf result Io → is_reliable self → ⊥ }
        ensures cause { IfErr result (IsWriteRefusal
            ((kind (so_far self).form).fits (so_far self).blocks → ⊥)) };
}

/// A run.
impl<H: BlockHash, W: Output + Drop, T: AsEntry> TableWriter<T> for RunWriter<H, W> {
    type Form = RunConfig;

    type Writer = W;

    ghost writable = { IsWritable };

    ghost kind = { λ config. run_kind (form H.hash64 H.hash128 config) };

    ghost so_far = { λ w. record { form = w.config; blocks = w.blocks; start = w.start } };

    ghost accepts = { λ w. w.refusal ≡ None };

    ghost is_reliable = { λ w. W.never_fails w.writer };

    fn restart_interval(form: &RunConfig) -> u8 {
        form.restart_interval
    }

    fn begin(alloc: Global, writer: W, form: RunConfig) -> RunWriter<H, W> {
        RunWriter::new(alloc, writer, form)
    }

    fn fits_after(&self, items: &[T]) -> bool {
        self.fits_after(items)
    }

    fn with_block(self, items: &[T]) -> Result<RunWriter<H, W>> {
        let mut run = self;
        run.add_block(items)?;
        Ok(run)
    }

    fn finish(self) -> Result<(RunHandles, W)> {
        self.finish()
    }
}
