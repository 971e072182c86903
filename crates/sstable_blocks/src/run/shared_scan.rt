//! Scans of sound runs whose bytes are owned: each entry is made, and shares these bytes.
ghost use Rattle.std.specs.Prelude.{◌≡◌, ◌<◌, ◌^◌, false, length, IfOk, None};
ghost use Rattle.std.specs.declared.ops.Bound.TheVariants.{Unbounded};
ghost use Rattle.sst_base.specs.declared.error.Error.TheVariants.{Memory};
ghost use Rattle.sst_block_core.specs.DataBlock.{data_ref_of};
ghost use Rattle.sst_block_core.specs.Window.{items_left};
ghost use Rattle.sstable_blocks.specs.Opened.{index_in, payload_in, range_of};
ghost use Rattle.sstable_blocks.specs.ReadCosts.{CountsHandle};
ghost use Rattle.sstable_blocks.specs.ReadingLaws.{shared_laws};
ghost use Rattle.sstable_blocks.specs.Readings.{shared_reading};
ghost use Rattle.sstable_blocks.specs.RunReading.{hashes};
ghost use Rattle.sstable_blocks.specs.Scans.{AtRunHandle, BeginsScan, EndsBy, MakesFirst};
ghost use Rattle.sstable_blocks.specs.Scans.{MakesLast, left_in, range_by, run_interval, within};
ghost use Rattle.sstable_blocks.specs.Tallies.{IsUpTo, cut_cost, scan_tally, tally_of};

use super::blocks::{Blocks, Ended, add_steps};
use super::bounds::Bounds;
use super::cut::Cut;
use super::ends::{Between, step_back, step_front};
use super::read::{block_over, shared_payload};
use super::run_ref::RunRef;
use sst_base::{AllocResult, BlockHash, Error, InternalValue, Result, Slice, Steps};
use sst_block_core::ParsedItem;
use sst_block_core::table::data_block::{DataBlockRef, Iter};
use std::alloc::Global;
use std::marker::Model;
use std::ops::Bound;

// A sound run, and the byte string that has its bytes. Clauses see the run.
#[derive(Drop)]
struct SharedRun<'a, H: BlockHash> {
    run: RunRef<'a, H>,
    bytes: &'a Slice,
}

impl<'a, H: BlockHash> Model for SharedRun<'a, H> {
    ghost use Rattle.std.specs.Prelude.{◌≡◌};
    ghost use Rattle.sstable_blocks.specs.Sound.{RunParts};

    ghost Value = { RunParts };

    ghost view = { λ r. r.run };

    ghost invariant = { λ r. r.bytes.now ≡ r.run.bytes };
}

impl<'a, H: BlockHash> SharedRun<'a, H> {
    // The block of the handle at an index of the index, and its payload, which shares the bytes.
    // The handles that are decoded are added to `steps`, also where the payload is not made.
    fn block_at(&self, index: usize, steps: &mut Steps) -> AllocResult<(DataBlockRef<'a, H>, Slice)>
        requires { index < length (index_in self.now.bytes self.now.handles.index) }
        ensures block { IfOk result (λ d. AtRunHandle self.now index
            (λ h. d.0 ≡ data_ref_of (payload_in self.now.bytes (range_of h)) false)) }
        ensures payload { IfOk result (λ d. d.1 ≡ d.0.payload) }
        ensures counts { CountsHandle steps.old steps.new (run_interval self.now) index }
    {
        let frame = self.run.frame_at(index, steps);
        let payload = shared_payload(self.bytes, &frame)?;
        Ok((block_over::<H>(self.bytes.as_slice(), &frame), payload))
    }
}

// A block that such a scan has opened, and its payload, which the entries share. Clauses see what
// they see of its iterator.
#[derive(Drop)]
struct SharedBlock<'a> {
    iter: Iter<'a>,
    payload: Slice,
}

impl<'a> Model for SharedBlock<'a> {
    ghost use Rattle.std.specs.Prelude.{◌≡◌};
    ghost use Rattle.sst_base.specs.Entry.{Entry};
    ghost use Rattle.sst_block_core.specs.Scan.{Scan};

    ghost Value = { Scan Entry };

    ghost view = { λ b. b.iter };

    ghost invariant = { λ b. b.payload ≡ b.iter.payload };
}

impl<'a> SharedBlock<'a> {
    // Opens a block: its entries in a range.
    fn new<H: BlockHash>(
        block: &DataBlockRef<'a, H>,
        payload: Slice,
        bounds: &Bounds<'_>,
    ) -> SharedBlock<'a>
        requires { payload ≡ block.now.payload }
        ensures left { items_left result.window ≡ within bounds.now block.now.items }
        ensures cost { IsUpTo (scan_tally result)
            (cut_cost block.now.interval (length block.now.items)) }
    {
        let mut iter = block.iter();
        bounds.cut_iter(&mut iter);
        SharedBlock { iter, payload }
    }

    // Opens another block in its place.
    fn reopen<H: BlockHash>(
        &mut self,
        block: &DataBlockRef<'a, H>,
        payload: Slice,
        bounds: &Bounds<'_>,
    )
        requires { payload ≡ block.now.payload }
        ensures left { items_left self.new.window ≡ within bounds.now block.now.items }
        ensures cost { IsUpTo (scan_tally self.new)
            (cut_cost block.now.interval (length block.now.items)) }
    {
        self.iter.restart(block);
        bounds.cut_iter(&mut self.iter);
        self.payload = payload;
    }
}

// Opens a block, in the place of one that was opened before.
fn open_in<'a, H: BlockHash>(
    block: &DataBlockRef<'a, H>,
    payload: Slice,
    bounds: &Bounds<'_>,
    opened: &mut Option<SharedBlock<'a>>,
)
    requires { payload ≡ block.now.payload }
    ensures left { left_in opened.new ≡ within bounds.now block.now.items }
    ensures few { length (left_in opened.new) < 2 ^ 64 }
    ensures cost { IsUpTo (tally_of scan_tally opened.new)
        (cut_cost block.now.interval (length block.now.items)) }
{
    match opened {
        Some(opened) => opened.reopen(block, payload, bounds),
        None => *opened = Some(SharedBlock::new(block, payload, bounds)),
    }
    // A slice has fewer than 2^63 items.
    let _count = count_left(opened);
}

// How many entries are left of an opened block.
fn count_left(opened: &Option<SharedBlock<'_>>) -> usize
    ensures { result ≡ length (left_in opened.now) }
{
    match opened {
        Some(opened) => opened.iter.count_left(),
        None => 0,
    }
}

/// An entry is made when it is taken.
impl<'a> Ended for SharedBlock<'a> {
    type Item = InternalValue;

    type Room = Global;

    ghost items = { λ b. items_left b.window };

    ghost tally = { λ b. scan_tally b };

    ghost Lacks = { λ e. e ≡ Memory };

    #[inline(always)]
    fn count_left(&self) -> usize {
        self.iter.count_left()
    }

    #[inline(always)]
    fn steps(&self) -> &Steps {
        self.iter.steps()
    }

    #[inline(always)]
    fn next(&mut self, alloc: Global) -> Result<Option<InternalValue>> {
        let Some(item) = self.iter.next() else {
            return Ok(None);
        };
        match item.materialize(alloc, &self.payload) {
            Ok(entry) => Ok(Some(entry)),
            Err(_) => Err(Error::Memory),
        }
    }

    #[inline(always)]
    fn next_back(&mut self, alloc: Global) -> Result<Option<InternalValue>> {
        let Some(item) = self.iter.next_back() else {
            return Ok(None);
        };
        match item.materialize(alloc, &self.payload) {
            Ok(entry) => Ok(Some(entry)),
            Err(_) => Err(Error::Memory),
        }
    }
}

/// Nothing is tested; only an allocation may fail.
impl<'a, 'k, H: BlockHash> Blocks<SharedBlock<'a>> for Cut<'k, SharedRun<'a, H>> {
    ghost reading = { shared_reading };

    fn open(
        &mut self,
        _alloc: Global,
        index: usize,
        block: &mut Option<SharedBlock<'a>>,
    ) -> Result<()> {
        let (data, payload) = self.run.block_at(index, &mut self.steps)?;
        add_steps::<SharedBlock<'a>>(&mut self.steps, block);
        open_in::<H>(&data, payload, &self.bounds, block);
        Ok(())
    }

    ghost laws = { shared_laws };
}

/// A scan of a sound run whose bytes a [`Slice`] has: makes its entries within a range of user
/// keys, in order, from both ends in any mixture. Long values, and long keys that are encoded in
/// full, share the bytes.
///
/// A block is opened when it is reached, without a checksum and a check, and those that the index
/// shows to be outside the range are not opened. At most two blocks are held, one for each end. An
/// error ends the scan: each later step returns it again.
///
/// Clauses see what they see of a [`RunScan`](super::RunScan), and the error that ended the scan,
/// if one did.
#[derive(Drop)]
pub struct SharedScan<'a, 'k, H: BlockHash> {
    cut: Cut<'k, SharedRun<'a, H>>,
    front: Option<SharedBlock<'a>>,
    middle: Between,
    back: Option<SharedBlock<'a>>,
    ended: Option<Error>,
}

impl<'a, 'k, H: BlockHash> Model for SharedScan<'a, 'k, H> {
    ghost use Rattle.std.specs.Prelude.{◌≡◌, IfSome};
    ghost use Rattle.sst_base.specs.declared.error.Error.TheVariants.{Memory};
    ghost use Rattle.sst_block_core.specs.Window.{items_left};
    ghost use Rattle.sstable_blocks.specs.Ends.{AreEnds, ends};
    ghost use Rattle.sstable_blocks.specs.Readings.{shared_reading};
    ghost use Rattle.sstable_blocks.specs.Scans.{SharedScanParts, left_by, run_between};
    ghost use Rattle.sstable_blocks.specs.Tallies.{scan_tally, tally_all, tally_by};

    ghost Value = { SharedScanParts };

    ghost view = { λ s. record {
      scan = record {
        run = s.cut.run;
        range = s.cut.range;
        left = left_by s.cut.run s.cut.range s.front s.middle.lo s.middle.hi s.back;
        handles = run_between s.cut.run s.middle.lo s.middle.hi;
        counted = tally_all scan_tally (tally_by s.cut.steps) s.front s.back;
      };
      ended = s.ended;
    } };

    ghost invariant = { λ s. AreEnds shared_reading s.cut
        (ends (λ e. items_left e.window) s.front s.middle s.back)
        × IfSome s.ended (λ e. e ≡ Memory) };
}

impl<'a, 'k, H: BlockHash> SharedScan<'a, 'k, H> {
    /// Returns what was counted since the scan was made, as
    /// [`RunScan::steps`](super::RunScan::steps) does.
    pub fn steps(&self) -> Steps
        ensures heads { result.heads ≡ self.now.scan.counted.heads }
        ensures entries { result.entries ≡ self.now.scan.counted.entries }
    {
        let mut steps = Steps::new();
        steps.add(&self.cut.steps);
        add_steps::<SharedBlock<'a>>(&mut steps, &self.front);
        add_steps::<SharedBlock<'a>>(&mut steps, &self.back);
        steps
    }

    /// Takes the first entry left, or returns `None` if none is left.
    ///
    /// # Errors
    ///
    /// `Error::Memory` if an allocation fails. After an error each step returns that error.
    #[inline(always)]
    pub fn next_entry(&mut self, alloc: Global) -> Result<Option<InternalValue>>
        ensures first { MakesFirst self.old.scan result self.new.scan }
        ensures ended { EndsBy self.old.ended self.new.ended result }
    {
        if let Some(error) = self.ended {
            return Err(error);
        }
        step_front::<SharedBlock<'a>, Cut<'k, SharedRun<'a, H>>>(
            alloc,
            &mut self.cut,
            &mut self.front,
            &mut self.middle,
            &mut self.back,
            &mut self.ended,
        )
    }

    /// Takes the last entry left, or returns `None` if none is left.
    ///
    /// # Errors
    ///
    /// `Error::Memory` if an allocation fails. After an error each step returns that error.
    #[inline(always)]
    pub fn next_entry_back(&mut self, alloc: Global) -> Result<Option<InternalValue>>
        ensures last { MakesLast self.old.scan result self.new.scan }
        ensures ended { EndsBy self.old.ended self.new.ended result }
    {
        if let Some(error) = self.ended {
            return Err(error);
        }
        step_back::<SharedBlock<'a>, Cut<'k, SharedRun<'a, H>>>(
            alloc,
            &mut self.cut,
            &mut self.back,
            &mut self.middle,
            &mut self.front,
            &mut self.ended,
        )
    }
}

impl<'a, H: BlockHash> RunRef<'a, H> {
    /// Scans all entries, and makes each of them: see [`SharedScan`]. The bytes are those of the
    /// run.
    pub fn scan_shared<'k>(&self, bytes: &'a Slice) -> SharedScan<'a, 'k, H>
        requires { bytes.now ≡ self.now.bytes }
        ensures begins { BeginsScan (hashes H.hash64 H.hash128) self.now
            (record { from = Unbounded; to = Unbounded }) result.scan }
        ensures fresh { result.ended ≡ None }
    {
        self.scan_range_shared(bytes, Bound::Unbounded, Bound::Unbounded)
    }

    /// Scans the entries whose user keys are between two bounds, and makes each of them: see
    /// [`SharedScan`]. The bytes are those of the run. A range that ends before it starts has no
    /// keys.
    pub fn scan_range_shared<'k>(
        &self,
        bytes: &'a Slice,
        from: Bound<&'k [u8]>,
        to: Bound<&'k [u8]>,
    ) -> SharedScan<'a, 'k, H>
        requires { bytes.now ≡ self.now.bytes }
        ensures begins { BeginsScan (hashes H.hash64 H.hash128) self.now
            (range_by (λ k. k.now) from.entry to.entry) result.scan }
        ensures fresh { result.ended ≡ None }
    {
        let bounds = Bounds { from, to };
        let mut steps = Steps::new();
        let middle = self.blocks_within(&bounds, &mut steps);
        let run = SharedRun {
            run: self.again(),
            bytes,
        };
        SharedScan {
            cut: Cut { run, bounds, steps },
            front: None,
            middle,
            back: None,
            ended: None,
        }
    }
}
