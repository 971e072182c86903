//! The blocks that a scan over borrowed bytes has opened.
ghost use Rattle.std.specs.Prelude.{◌≡◌, ◌+◌, ◌<◌, length};
ghost use Rattle.std.specs.Iterator.{YieldsFirst, YieldsLast};
ghost use Rattle.sst_base.specs.Counted.{found_item};
ghost use Rattle.sst_block_core.specs.Entries.{entries};
ghost use Rattle.sst_block_core.specs.Stages.{items_in};
ghost use Rattle.sst_block_core.specs.Window.{items_left};
ghost use Rattle.sstable_blocks.specs.Opened.{index_in, payload_in, range_of};
ghost use Rattle.sstable_blocks.specs.ReadCosts.{CountsHandle};
ghost use Rattle.sstable_blocks.specs.Scans.{AtRunHandle, left_in, run_interval, within};
ghost use Rattle.sstable_blocks.specs.Tallies.{AddsTaken, IsUpTo, cut_cost, cut_cost_in};
ghost use Rattle.sstable_blocks.specs.Tallies.{scan_tally, tally_of};

use super::bounds::Bounds;
use super::run_ref::RunRef;
use sst_base::{BlockHash, Steps};
use sst_block_core::table::data_block::{DataBlockRef, EntryView, Iter};
use std::marker::Model;

/// A block that a scan has opened. Clauses see what they see of its iterator.
///
/// An iterator has a KiB of room for offsets. So the scan opens its next block in the same place.
#[derive(Drop)]
pub(super) struct OpenBlock<'a> {
    iter: Iter<'a>,
    payload: &'a [u8],
}

impl<'a> Model for OpenBlock<'a> {
    ghost use Rattle.std.specs.Prelude.{◌≡◌};
    ghost use Rattle.sst_base.specs.Entry.{Entry};
    ghost use Rattle.sst_block_core.specs.Scan.{Scan};

    ghost Value = { Scan Entry };

    ghost view = { λ b. b.iter };

    ghost invariant = { λ b. b.payload.now ≡ b.iter.payload };
}

impl<'a> OpenBlock<'a> {
    // Opens a block: its entries in a range.
    fn new<H: BlockHash>(block: &DataBlockRef<'a, H>, bounds: &Bounds<'_>) -> OpenBlock<'a>
        ensures left { items_left result.window ≡ within bounds.now block.now.items }
        ensures cost { IsUpTo (scan_tally result)
            (cut_cost block.now.interval (length block.now.items)) }
    {
        let mut iter = block.iter();
        bounds.cut_iter(&mut iter);
        OpenBlock {
            iter,
            payload: block.as_slice(),
        }
    }

    // Opens another block in its place.
    fn reopen<H: BlockHash>(&mut self, block: &DataBlockRef<'a, H>, bounds: &Bounds<'_>)
        ensures left { items_left self.new.window ≡ within bounds.now block.now.items }
        ensures cost { IsUpTo (scan_tally self.new)
            (cut_cost block.now.interval (length block.now.items)) }
    {
        self.iter.restart(block);
        bounds.cut_iter(&mut self.iter);
        self.payload = block.as_slice();
    }

    // Returns the number of entries left.
    #[inline(always)]
    pub(super) fn count_left(&self) -> usize
        ensures { result ≡ length (items_left self.now.window) }
    {
        self.iter.count_left()
    }

    // Returns what was counted since the block was opened.
    #[inline(always)]
    pub(super) fn steps(&self) -> &Steps
        ensures { result.now ≡ self.now.steps }
    {
        self.iter.steps()
    }

    // Takes the first entry left.
    #[inline(always)]
    pub(super) fn next(&mut self) -> Option<EntryView<'a>>
        ensures first { YieldsFirst (λ s. items_left s.window) self.old result self.new }
        ensures counts { AddsTaken (scan_tally self.old) (scan_tally self.new)
            (found_item result) (found_item result) }
        ensures once { self.new.steps.entries ≡ self.old.steps.entries + found_item result }
    {
        let Some(item) = self.iter.next() else {
            return None;
        };
        Some(EntryView::new(self.payload, item))
    }

    // Takes the last entry left.
    #[inline(always)]
    pub(super) fn next_back(&mut self) -> Option<EntryView<'a>>
        ensures last { YieldsLast (λ s. items_left s.window) self.old result self.new }
        ensures counts { AddsTaken (scan_tally self.old) (scan_tally self.new)
            (found_item result) (found_item result) }
    {
        let Some(item) = self.iter.next_back() else {
            return None;
        };
        Some(EntryView::new(self.payload, item))
    }
}

/// Opens the block of the handle at an index in the place of one that was opened before: its
/// entries in the range. The handles that are decoded are added to `steps`.
pub(super) fn open_at<'a, H: BlockHash>(
    run: &RunRef<'a, H>,
    bounds: &Bounds<'_>,
    index: usize,
    opened: &mut Option<OpenBlock<'a>>,
    steps: &mut Steps,
)
    requires { index < length (index_in run.now.bytes run.now.handles.index) }
    ensures left { AtRunHandle run.now index (λ h. left_in opened.new
        ≡ within bounds.now (items_in entries (payload_in run.now.bytes (range_of h)))) }
    ensures cost { AtRunHandle run.now index
        (λ h. IsUpTo (tally_of scan_tally opened.new) (cut_cost_in run.now.bytes h)) }
    ensures counts { CountsHandle steps.old steps.new (run_interval run.now) index }
{
    let block = run.block_at(index, steps);
    if let Some(opened) = opened {
        opened.reopen(&block, bounds);
        return;
    }
    *opened = Some(OpenBlock::new(&block, bounds));
}

/// Returns how many entries are left of an opened block.
#[inline(always)]
pub(super) fn count_of(opened: &Option<OpenBlock<'_>>) -> usize
    ensures { result ≡ length (left_in opened.now) }
{
    match opened {
        Some(opened) => opened.count_left(),
        None => 0,
    }
}
