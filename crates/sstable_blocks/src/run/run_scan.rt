//! Scans of sound runs over borrowed bytes: without checks, and without memory.
ghost use Rattle.std.specs.Prelude.{◌≡◌, ◌≤◌, None, Ok, IsOk, length, map, refl};
ghost use Rattle.std.specs.Iterator.{YieldsFirst, YieldsLast, item_count};
ghost use Rattle.sstable_blocks.specs.BlockReading.{AddsUpTo};
ghost use Rattle.sstable_blocks.specs.Ends.{AreEnds, ends};
ghost use Rattle.sstable_blocks.specs.Readings.{run_reading};
ghost use Rattle.std.specs.declared.ops.Bound.TheVariants.{Unbounded};
ghost use Rattle.sst_base.specs.Entry.{Entry, plain};
ghost use Rattle.sstable_blocks.specs.Blocks.{joined};
ghost use Rattle.sstable_blocks.specs.RunReading.{hashes};
ghost use Rattle.sst_base.specs.Counted.{found_item};
ghost use Rattle.sst_block_core.specs.Window.{items_left};
ghost use Rattle.sstable_blocks.specs.Opened.{index_in};
ghost use Rattle.sstable_blocks.specs.Scans.{BeginsScan, ScansFirst, ScansLast, handles_within};
ghost use Rattle.sstable_blocks.specs.Scans.{run_between};
ghost use Rattle.sstable_blocks.specs.Scans.{run_interval, run_search_cost};
ghost use Rattle.sstable_blocks.specs.Scans.{left_by, within, range_by};
ghost use Rattle.sstable_blocks.specs.Tallies.{Adds, CountsFirst, CountsLast, scan_tally};
ghost use Rattle.sstable_blocks.specs.Tallies.{tally_all, tally_by};
ghost use Rattle.sstable_blocks.specs.Sound.{ForSound};

use super::blocks::add_steps;
use super::bounds::Bounds;
use super::cut::Cut;
use super::ends::{self, Between};
use super::laws::sound_is_scanned;
use super::open_block::OpenBlock;
use super::run_ref::RunRef;
use sst_base::double_ended_peekable::ListIterator;
use sst_base::{BlockHash, InternalValue, Result, Steps};
use sst_block_core::table::data_block::EntryView;
use std::marker::Model;
use std::ops::Bound;

/// A scan of a sound run over borrowed bytes: gives its entries within a range of user keys, in
/// order, from both ends in any mixture. Each borrows the bytes; no step takes memory, and none
/// fails.
///
/// A block is opened when it is reached, without a checksum and a check, and those that the index
/// shows to be outside the range are not opened. At most two blocks are open, one for each end.
///
/// Clauses see the bytes and the handles, the range, the entries left, the handles of the blocks
/// that were not opened, and what was counted since the scan was made.
#[derive(Drop)]
pub struct RunScan<'a, 'k, H: BlockHash> {
    cut: Cut<'k, RunRef<'a, H>>,
    front: Option<OpenBlock<'a>>,
    middle: Between,
    back: Option<OpenBlock<'a>>,
}

impl<'a, 'k, H: BlockHash> Model for RunScan<'a, 'k, H> {
    ghost use Rattle.sst_base.specs.Entry.{Entry};
    ghost use Rattle.sstable_blocks.specs.Ends.{AreEnds, ends};
    ghost use Rattle.sstable_blocks.specs.Readings.{run_reading};
    ghost use Rattle.sst_block_core.specs.Scan.{Scan};
    ghost use Rattle.sst_block_core.specs.Window.{items_left};
    ghost use Rattle.sstable_blocks.specs.Scans.{RunScanParts, left_by, run_between};
    ghost use Rattle.sstable_blocks.specs.Tallies.{scan_tally, tally_all, tally_by};

    ghost Value = { RunScanParts };

    ghost view = { λ s. record {
      run = s.cut.run;
      range = s.cut.range;
      left = left_by s.cut.run s.cut.range s.front s.middle.lo s.middle.hi s.back;
      handles = run_between s.cut.run s.middle.lo s.middle.hi;
      counted = tally_all scan_tally (tally_by s.cut.steps) s.front s.back;
    } };

    ghost invariant = { λ s. AreEnds run_reading s.cut
        (ends (λ (b : Scan Entry). items_left b.window) s.front s.middle s.back) };
}

impl<'a, 'k, H: BlockHash> RunScan<'a, 'k, H> {
    /// Returns what was counted since the scan was made: the heads that were compared, and the
    /// entries that were decoded, of the index and of the blocks. Of the index these are the
    /// handles of a restart interval up to that of each block that was opened, and what the search
    /// for the ends of the range examined.
    pub fn steps(&self) -> Steps
        ensures heads { result.heads ≡ self.now.counted.heads }
        ensures entries { result.entries ≡ self.now.counted.entries }
    {
        let mut steps = Steps::new();
        steps.add(&self.cut.steps);
        add_steps::<OpenBlock<'a>>(&mut steps, &self.front);
        add_steps::<OpenBlock<'a>>(&mut steps, &self.back);
        steps
    }
}

// What a step that can't fail gave.
#[inline(always)]
fn without_error<T>(found: Result<Option<T>>) -> Option<T>
    requires { IsOk found }
    ensures { found ≡ Ok result }
{
    match found {
        Ok(item) => item,
        Err(_) => None,
    }
}

// Takes the first entry left of a scan.
#[inline(always)]
fn step_front<'a, 'k, H: BlockHash>(
    cut: &mut Cut<'k, RunRef<'a, H>>,
    front: &mut Option<OpenBlock<'a>>,
    middle: &mut Between,
    back: &mut Option<OpenBlock<'a>>,
) -> Option<EntryView<'a>>
    requires { AreEnds run_reading cut.old
        (ends (λ b. items_left b.window) front.old middle.old back.old) }
    ensures same { (cut.new.run ≡ cut.old.run) × (cut.new.range ≡ cut.old.range) }
    ensures ends { AreEnds run_reading cut.new
        (ends (λ b. items_left b.window) front.new middle.new back.new) }
    ensures first { YieldsFirst (λ xs. xs)
        (left_by cut.old.run cut.old.range front.old middle.old.lo middle.old.hi back.old) result
        (left_by cut.old.run cut.old.range front.new middle.new.lo middle.new.hi back.new) }
    ensures looked { Adds (tally_all scan_tally (tally_by cut.old.steps) front.old back.old)
        (tally_all scan_tally (tally_by cut.new.steps) front.new back.new) (found_item result) }
    ensures counts { CountsFirst cut.old.run.bytes (run_interval cut.old.run)
        (tally_all scan_tally (tally_by cut.old.steps) front.old back.old)
        (run_between cut.old.run middle.old.lo middle.old.hi)
        (tally_all scan_tally (tally_by cut.new.steps) front.new back.new)
        (run_between cut.old.run middle.new.lo middle.new.hi) (found_item result) }
{
    let mut ended = None;
    without_error(ends::step_front::<OpenBlock<'a>, Cut<'k, RunRef<'a, H>>>(
        (),
        cut,
        front,
        middle,
        back,
        &mut ended,
    ))
}

// Takes the last entry left of a scan.
#[inline(always)]
fn step_back<'a, 'k, H: BlockHash>(
    cut: &mut Cut<'k, RunRef<'a, H>>,
    front: &mut Option<OpenBlock<'a>>,
    middle: &mut Between,
    back: &mut Option<OpenBlock<'a>>,
) -> Option<EntryView<'a>>
    requires { AreEnds run_reading cut.old
        (ends (λ b. items_left b.window) front.old middle.old back.old) }
    ensures same { (cut.new.run ≡ cut.old.run) × (cut.new.range ≡ cut.old.range) }
    ensures ends { AreEnds run_reading cut.new
        (ends (λ b. items_left b.window) front.new middle.new back.new) }
    ensures last { YieldsLast (λ xs. xs)
        (left_by cut.old.run cut.old.range front.old middle.old.lo middle.old.hi back.old) result
        (left_by cut.old.run cut.old.range front.new middle.new.lo middle.new.hi back.new) }
    ensures looked { Adds (tally_all scan_tally (tally_by cut.old.steps) front.old back.old)
        (tally_all scan_tally (tally_by cut.new.steps) front.new back.new) (found_item result) }
    ensures counts { CountsLast cut.old.run.bytes (run_interval cut.old.run)
        (tally_all scan_tally (tally_by cut.old.steps) front.old back.old)
        (run_between cut.old.run middle.old.lo middle.old.hi)
        (tally_all scan_tally (tally_by cut.new.steps) front.new back.new)
        (run_between cut.old.run middle.new.lo middle.new.hi) (found_item result) }
{
    let mut ended = None;
    without_error(ends::step_back::<OpenBlock<'a>, Cut<'k, RunRef<'a, H>>>(
        (),
        cut,
        back,
        middle,
        front,
        &mut ended,
    ))
}

/// Takes the first entry left, if there is one.
impl<'a, 'k, H: BlockHash> Iterator for RunScan<'a, 'k, H> {
    type Item = EntryView<'a>;

    ghost next_gives = { ScansFirst };

    ghost remaining = { item_count (λ s. s.left) };

    #[inline(always)]
    fn next(&mut self) -> Option<EntryView<'a>> {
        step_front::<H>(
            &mut self.cut,
            &mut self.front,
            &mut self.middle,
            &mut self.back,
        )
    }
}

/// Takes the last entry left, if there is one.
impl<'a, 'k, H: BlockHash> DoubleEndedIterator for RunScan<'a, 'k, H> {
    ghost next_back_gives = { ScansLast };

    #[inline(always)]
    fn next_back(&mut self) -> Option<EntryView<'a>> {
        step_back::<H>(
            &mut self.cut,
            &mut self.front,
            &mut self.middle,
            &mut self.back,
        )
    }
}

/// The entries left, so that the scan may be peeked at.
impl<'a, 'k, H: BlockHash> ListIterator for RunScan<'a, 'k, H> {
    type Value = InternalValue;

    ghost value_of = { λ _ entry. entry };

    ghost items = { λ s. s.left };

    ghost may_next = { λ _. tt };

    ghost may_next_back = { λ _. tt };

    ghost gives_first = { λ s r t step. step.first };

    ghost gives_last = { λ s r t step. step.last };

    ghost keeps_values = { λ s r t step. refl };

    ghost keeps_values_back = { λ s r t step. refl };
}

impl<'a, H: BlockHash> RunRef<'a, H> {
    /// Scans all entries: see [`RunScan`].
    pub fn scan<'k>(&self) -> RunScan<'a, 'k, H>
        ensures { BeginsScan (hashes H.hash64 H.hash128) self.now
            (record { from = Unbounded; to = Unbounded }) result }
    {
        self.scan_range(Bound::Unbounded, Bound::Unbounded)
    }

    /// Scans the entries whose user keys are between two bounds: see [`RunScan`]. A range that ends
    /// before it starts has no keys.
    pub fn scan_range<'k>(&self, from: Bound<&'k [u8]>, to: Bound<&'k [u8]>) -> RunScan<'a, 'k, H>
        ensures { BeginsScan (hashes H.hash64 H.hash128) self.now
            (range_by (λ k. k.now) from.entry to.entry) result }
    {
        let bounds = Bounds { from, to };
        let mut steps = Steps::new();
        let middle = self.blocks_within(&bounds, &mut steps);
        RunScan {
            cut: Cut {
                run: self.again(),
                bounds,
                steps,
            },
            front: None,
            middle,
            back: None,
        }
    }

    // The blocks that can have a key in a range, of which none is opened.
    pub(super) fn blocks_within(&self, bounds: &Bounds<'_>, steps: &mut Steps) -> Between
        ensures inside { result.hi ≤ length (index_in self.now.bytes self.now.handles.index) }
        ensures left { ForSound (hashes H.hash64 H.hash128) self.now.bytes self.now.handles
            (λ blocks. left_by self.now bounds.now None result.lo result.hi None
            ≡ within bounds.now (map plain (joined blocks))) }
        ensures handles { run_between self.now result.lo result.hi ≡ handles_within bounds.now
            (index_in self.now.bytes self.now.handles.index) }
        ensures counts { AddsUpTo (tally_by steps.old) (tally_by steps.new)
            (run_search_cost self.now) }
    {
        sound_is_scanned();
        self.note_read();
        let index = self.index();
        Between {
            lo: bounds.first_block(index, steps),
            hi: bounds.end_block(index, steps),
        }
    }
}
