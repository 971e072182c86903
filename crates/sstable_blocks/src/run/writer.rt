//! Writing a run block by block.
ghost use Rattle.std.specs.Prelude.{◌≡◌, ◌≢◌, ◌↔◌, ◌+◌, ◌^◌, ◌≤◌, [], ◌∷◌, ◌++◌, length, map};
ghost use Rattle.std.specs.Prelude.{IsTrue, None, Some, OnOk, IfOk, IfErr, IfSome, MatchResult};
ghost use Rattle.std.specs.Prelude.{Err, IsErrOf};
ghost use Rattle.std.specs.Io.KnownBytes.{Appends};
ghost use Rattle.sst_base.specs.declared.error.Error.TheVariants.{Io, TooLong};
ghost use Rattle.sstable_blocks.specs.Footer.{run_end};
ghost use Rattle.sstable_blocks.specs.Run.{form, block_frame, block_frames, IsWritable, RunFits};
ghost use Rattle.sstable_blocks.specs.RunReading.{hashes};
ghost use Rattle.sstable_blocks.specs.Writing.{Follows, FrameFits, IsWriteRefusal, AppendsLayout};
ghost use Rattle.sstable_blocks.specs.Writing.{AppendsSound, AppendsTable, TableFits, IsSameRun};
ghost use Rattle.sstable_blocks.specs.Writing.{RepeatsError, WritesLast};

use super::footer::{FOOTER_LEN, end_table};
use super::run_core::RunCore;
use super::sync::SyncWrite;
use super::{RunConfig, RunHandles};
use sst_base::{BlockHash, Contents, Error, Output, Result};
use sst_block_core::AsEntry;
use std::alloc::Global;
use std::marker::Model;

/// Writes a run block by block into a writer of bytes.
///
/// Clauses see the configuration, the blocks accepted, the error that is returned from now on, if
/// there is one, what the writer held when this was made, and the writer.
#[derive(Drop)]
pub struct RunWriter<H: BlockHash, W: Output> {
    core: RunCore<H>,
    writer: W,
    refusal: Option<Error>,
    start: Contents,
}

impl<H: BlockHash, W: Output> Model for RunWriter<H, W> {
    ghost use Rattle.sstable_blocks.specs.Run.{form};
    ghost use Rattle.sstable_blocks.specs.Writing.{Writing, IsUnderWay};

    ghost Value = { Writing W };

    ghost view = { λ w. record {
      config = w.core.config;
      blocks = w.core.blocks;
      refusal = w.refusal;
      start = w.start;
      writer = w.writer;
    } };

    ghost invariant = { λ w.
        IsUnderWay (form H.hash64 H.hash128 w.core.config) w.core.blocks w.refusal
        w.start (W.contents w.writer) };
}

impl<H: BlockHash, W: Output> RunWriter<H, W> {
    /// Makes a writer of a run. Both intervals and the denominator of the ratio are at least 1.
    pub fn new(alloc: Global, writer: W, config: RunConfig) -> RunWriter<H, W>
        requires writable { IsWritable config }
        ensures { result ≡ record {
          config = config;
          blocks = [];
          refusal = None;
          start = W.contents writer;
          writer = writer;
        } }
    {
        let start = Contents::of(&writer);
        RunWriter {
            core: RunCore::new(alloc, config),
            writer,
            refusal: None,
            start,
        }
    }

    /// Returns whether entries can be the next block: there is one, none sorts before its
    /// predecessor, and the first not before the last entry of the blocks accepted.
    pub fn fits_after<T: AsEntry>(&self, items: &[T]) -> bool
        ensures { IsTrue result ↔ Follows self.now.blocks (map T.entry items.now) }
    {
        self.core.fits_after(items)
    }

    /// Returns the number of blocks accepted.
    pub fn block_count(&self) -> usize
        ensures { result ≡ length self.now.blocks }
    {
        self.core.block_count()
    }

    /// Writes one more block, which [`RunWriter::fits_after`] the blocks before.
    ///
    /// # Errors
    ///
    /// `Error::TooLong` only where the payload of the block has more than 4294967262 bytes or the
    /// frames of all blocks 2^64 bytes or more, `Error::Memory` if an allocation fails; nothing is
    /// written then. `Error::Io` if the writer fails. The block is not accepted, and from then on
    /// every call returns the same error, and does not touch the writer.
    pub fn add_block<T: AsEntry>(&mut self, items: &[T]) -> Result<()>
        requires { Follows self.old.blocks (map T.entry items.now) }
        ensures run { IsSameRun self.old self.new }
        ensures blocks { MatchResult result
            (λ ok. self.new.blocks ≡ self.old.blocks ++ map T.entry items.now ∷ [])
            (λ e. self.new.blocks ≡ self.old.blocks) }
        ensures refusal { MatchResult result (λ ok. self.new.refusal ≡ None)
            (λ e. self.new.refusal ≡ Some e) }
        ensures repeated { IfSome self.old.refusal (RepeatsError self.old self.new result) }
        ensures bytes { OnOk result
            (Appends (W.contents self.old.writer) (W.contents self.new.writer)
            (block_frame (form H.hash64 H.hash128 self.old.config) (map T.entry items.now))) }
        ensures writer { self.old.refusal ≡ None
            → WritesLast W.never_fails self.old.writer self.new.writer result }
        ensures cause { let f = form H.hash64 H.hash128 self.old.config in self.old.refusal ≡ None
            → IfErr result (IsWriteRefusal (FrameFits f (length (block_frames f self.old.blocks))
            (map T.entry items.now) → ⊥)) }
    {
        if let Some(refusal) = self.refusal {
            return Err(refusal);
        }
        let added = self.core.add_block(&mut self.writer, items);
        if let Err(e) = &added {
            self.refusal = Some(*e);
        }
        added
    }
}

impl<H: BlockHash, W: Output + Drop> RunWriter<H, W> {
    /// Writes the index and the filter. Returns their handles, and the writer. A block was
    /// accepted, or one was refused.
    ///
    /// # Errors
    ///
    /// That of `add_block`, if it refused. Else `Error::TooLong` only where the run does not fit:
    /// see `write_run`; `Error::Memory` if an allocation fails, `Error::Io` if the writer fails.
    pub fn finish(self) -> Result<(RunHandles, W)>
        requires { self.refusal ≡ None → 1 ≤ length self.blocks }
        ensures layout { IfOk result (λ r. AppendsLayout (form H.hash64 H.hash128 self.config)
            self.blocks self.start (W.contents r.1) r.0) }
        ensures sound { IfOk result (λ r. AppendsSound (hashes H.hash64 H.hash128) self.blocks
            self.start (W.contents r.1) r.0) }
        ensures reliable { IfOk result (λ r. W.never_fails self.writer → W.never_fails r.1) }
        ensures repeated { IfSome self.refusal (λ e. result ≡ Err e) }
        ensures failed { self.refusal ≡ None → IsErrOf result Io → W.never_fails self.writer → ⊥ }
        ensures cause { self.refusal ≡ None
            → IfErr result
            (IsWriteRefusal (RunFits (form H.hash64 H.hash128 self.config) self.blocks → ⊥)) }
    {
        let RunWriter {
            core,
            mut writer,
            refusal,
            start: _,
        } = self;
        if let Some(refusal) = refusal {
            return Err(refusal);
        }
        let handles = core.finish(&mut writer)?;
        Ok((handles, writer))
    }
}

// The length of the table of a run with these handles.
fn table_len(handles: &RunHandles) -> Result<u64>
    ensures len { IfOk result (λ len. len ≡ run_end handles.now + 24) }
    ensures too_long { IfErr result (λ e. (e ≡ TooLong) × (2 ^ 64 ≤ run_end handles.now + 24)) }
{
    let last = handles.filter.as_ref().unwrap_or(&handles.index);
    let behind = u64::from(last.size()) + FOOTER_LEN as u64;
    match last.offset().checked_add(behind) {
        Some(len) => Ok(len),
        None => Err(Error::TooLong),
    }
}

impl<H: BlockHash, W: SyncWrite + Drop> RunWriter<H, W> {
    /// Ends a table file: writes the index, the filter and the footer, and waits until all is where
    /// it stays. Returns the handles, the length of the table in bytes, and the writer. A block was
    /// accepted, or one was refused.
    ///
    /// A file of its own for a table is a [`super::NewFile`], whose writer this one is made of, and
    /// which is put in place when the table is ended.
    ///
    /// # Errors
    ///
    /// Those of [`RunWriter::finish`], `Error::TooLong` too where the table has 2^64 bytes or more.
    pub fn finish_table(self) -> Result<(RunHandles, u64, W)>
        requires { self.refusal ≡ None → 1 ≤ length self.blocks }
        ensures table { IfOk result (λ r. AppendsTable (form H.hash64 H.hash128 self.config)
            self.blocks self.start (W.contents r.2) r.0 r.1) }
        ensures synced { IfOk result (λ r. W.is_synced r.2) }
        ensures repeated { IfSome self.refusal (λ e. result ≡ Err e) }
        ensures failed { self.refusal ≡ None → IsErrOf result Io → W.never_fails self.writer → ⊥ }
        ensures cause { self.refusal ≡ None → IfErr result
            (IsWriteRefusal (TableFits (form H.hash64 H.hash128 self.config) self.blocks → ⊥)) }
    {
        let (handles, mut writer) = self.finish()?;
        let len = table_len(&handles)?;
        end_table(&mut writer, &handles)?;
        Ok((handles, len, writer))
    }
}
