//! What opens the blocks of a scan, each cut by the bounds.
ghost use Rattle.std.specs.Prelude.{◌≡◌, ◌<◌, ◌^◌, length, IfOk};
ghost use Rattle.sst_base.specs.declared.error.Error.TheVariants.{Memory};
ghost use Rattle.sst_block_core.specs.Window.{items_left};
ghost use Rattle.sstable_blocks.specs.ReadCosts.{CountsHandle};
ghost use Rattle.sstable_blocks.specs.ReadingLaws.{run_laws, table_laws};
ghost use Rattle.sstable_blocks.specs.Readings.{run_reading, table_reading};
ghost use Rattle.sstable_blocks.specs.RunReading.{hashes};
ghost use Rattle.sstable_blocks.specs.Scans.{AllWithin, AtHandle, block_within};
ghost use Rattle.sstable_blocks.specs.Sources.{AsksExactly, GivesOr, UsesSource};
ghost use Rattle.sstable_blocks.specs.Tables.{kept_parts};
ghost use Rattle.sstable_blocks.specs.Tallies.{IsUpTo, cut_cost_in, scan_tally};

use super::blocks::{Blocks, Ended, add_steps};
use super::bounds::Bounds;
use super::open_block::{OpenBlock, count_of, open_at};
use super::run_ref::RunRef;
use super::source::FrameSource;
use super::table::Table;
use sst_base::{BlockHash, InternalValue, Result, Steps};
use sst_block_core::table::data_block::{EntryView, IntoEntries};
use std::alloc::Global;
use std::marker::Model;

/// A run whose blocks are opened and cut by bounds. Clauses see the run, the range of keys, and
/// what was counted: of the index, and of the blocks that are no longer open.
#[derive(Drop)]
pub(crate) struct Cut<'k, R> {
    pub(crate) run: R,
    pub(crate) bounds: Bounds<'k>,
    pub(crate) steps: Steps,
}

impl<'k, R> Model for Cut<'k, R> {
    ghost use Rattle.sstable_blocks.specs.Scans.{CutParts};

    ghost Value = { CutParts R };

    ghost view = { λ c. record { run = c.run; range = c.bounds; steps = c.steps } };
}

/// The entries of a block are made when they are taken.
impl<H: BlockHash> Ended for IntoEntries<H> {
    type Item = InternalValue;

    type Room = Global;

    ghost items = { λ e. items_left e.window };

    ghost tally = { λ e. scan_tally e };

    ghost Lacks = { λ e. e ≡ Memory };

    #[inline(always)]
    fn count_left(&self) -> usize {
        IntoEntries::count_left(self)
    }

    #[inline(always)]
    fn steps(&self) -> &Steps {
        IntoEntries::steps(self)
    }

    #[inline(always)]
    fn next(&mut self, alloc: Global) -> Result<Option<InternalValue>> {
        self.next_entry(alloc)
    }

    #[inline(always)]
    fn next_back(&mut self, alloc: Global) -> Result<Option<InternalValue>> {
        // The end lies within the block.
        let _count = IntoEntries::count_left(self);
        self.next_entry_back(alloc)
    }
}

/// An entry borrows its block. None is ever wanting.
impl<'a> Ended for OpenBlock<'a> {
    type Item = EntryView<'a>;

    type Room = ();

    ghost items = { λ b. items_left b.window };

    ghost tally = { λ b. scan_tally b };

    ghost Lacks = { λ e. ⊥ };

    #[inline(always)]
    fn count_left(&self) -> usize {
        OpenBlock::count_left(self)
    }

    #[inline(always)]
    fn steps(&self) -> &Steps {
        OpenBlock::steps(self)
    }

    #[inline(always)]
    fn next(&mut self, _room: ()) -> Result<Option<EntryView<'a>>> {
        Ok(OpenBlock::next(self))
    }

    #[inline(always)]
    fn next_back(&mut self, _room: ()) -> Result<Option<EntryView<'a>>> {
        Ok(OpenBlock::next_back(self))
    }
}

// Opens the block of the handle at an index, and cuts it by the bounds. The handles that are
// decoded are added to `steps`, also where the block is refused.
#[tactic(auto, using(crate::proofs::Scans::ScanCounts::few_within))]
fn cut_block<H: BlockHash, S: FrameSource>(
    alloc: Global,
    table: &mut Table<H, S>,
    bounds: &Bounds<'_>,
    index: usize,
    steps: &mut Steps,
) -> Result<IntoEntries<H>>
    requires { index < length table.old.index }
    ensures kept { kept_parts table.new ≡ kept_parts table.old }
    ensures source { UsesSource S.bytes S.failures S.reads S.is_reliable
        (AsksExactly 1) table.old.source table.new.source result }
    ensures all { IfOk result (λ e. AllWithin bounds.now (items_left e.window)) }
    ensures few { IfOk result (λ e. length (items_left e.window) < 2 ^ 32) }
    ensures exact { AtHandle (S.bytes table.old.source) table.old.index index (λ all h.
        GivesOr (S.failures table.old.source < S.failures table.new.source)
        (S.is_reliable table.old.source) (λ e. items_left e.window) result
        (block_within (hashes H.hash64 H.hash128) all bounds.now h)) }
    ensures cost { AtHandle (S.bytes table.old.source) table.old.index index
        (λ all h. IfOk result (λ e. IsUpTo (scan_tally e) (cut_cost_in all h))) }
    ensures counts { CountsHandle steps.old steps.new table.old.interval index }
{
    let block = table.block_at(alloc, index, steps)?;
    // The payload is an encoding, of fewer than 2^32 bytes.
    let payload = block.as_slice();
    let _len = payload.len();
    let mut entries = block.into_entries();
    bounds.cut(&mut entries);
    Ok(entries)
}

/// Verifies and checks each block.
impl<'k, H: BlockHash, S: FrameSource> Blocks<IntoEntries<H>> for Cut<'k, Table<H, S>> {
    ghost reading = { table_reading (hashes H.hash64 H.hash128) S.bytes S.failures S.reads
        S.is_reliable };

    fn open(
        &mut self,
        alloc: Global,
        index: usize,
        block: &mut Option<IntoEntries<H>>,
    ) -> Result<()> {
        let entries = cut_block::<H, S>(
            alloc,
            &mut self.run,
            &self.bounds,
            index,
            &mut self.steps,
        )?;
        add_steps::<IntoEntries<H>>(&mut self.steps, block);
        *block = Some(entries);
        Ok(())
    }

    ghost laws = { table_laws (hashes H.hash64 H.hash128) S.bytes S.failures S.reads
        S.is_reliable };
}

/// Nothing is tested.
impl<'a, 'k, H: BlockHash> Blocks<OpenBlock<'a>> for Cut<'k, RunRef<'a, H>> {
    ghost reading = { run_reading };

    fn open(&mut self, _room: (), index: usize, block: &mut Option<OpenBlock<'a>>) -> Result<()> {
        add_steps::<OpenBlock<'a>>(&mut self.steps, block);
        open_at::<H>(&self.run, &self.bounds, index, block, &mut self.steps);
        // A slice has fewer than 2^63 items.
        let _count = count_of(block);
        Ok(())
    }

    ghost laws = { run_laws };
}
