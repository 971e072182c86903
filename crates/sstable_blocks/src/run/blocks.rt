//! What a scan asks of a run: that it opens the block at an index, and of a block that its items
//! are taken from both ends. A cache of blocks is a second thing that opens them.
ghost use Rattle.std.specs.Prelude.{◌≡◌, ◌+◌, ◌<◌, ◌≤◌, List, [], None, false, length, true};
ghost use Rattle.sstable_blocks.specs.BlockReading.{AreBlocks, Opens, OpensPaid, Reading};
ghost use Rattle.sstable_blocks.specs.BlockReading.{TakesEnd, items_of};
ghost use Rattle.sstable_blocks.specs.Tallies.{AddsTaken, Tally, least_taken, most_taken};
ghost use Rattle.sstable_blocks.specs.Tallies.{tally_all, tally_of};
ghost use Rattle.sst_base.specs.Counted.{CountsExactly};
ghost use Rattle.sst_base.specs.declared.error.Error.{Error};

use sst_base::{Result, Steps};

/// A block that was opened: a list that is taken from both ends.
pub trait Ended: Drop {
    /// What is taken.
    type Item: Drop;

    /// What making an item needs: an allocator, or nothing.
    type Room: Copy + Drop;

    // the items left
    ghost items: { Self → List Self.Item };

    // what was counted, with the items that steps from the back may decode again
    ghost tally: { Self → Tally };

    // the errors with which an item is not made, though it is taken
    ghost Lacks: { Error → Type 0 };

    /// Returns the number of items left.
    fn count_left(&self) -> usize
        ensures { result ≡ length (items self.now) };

    /// Returns what was counted.
    fn steps(&self) -> &Steps
        ensures heads { result.now.heads ≡ (tally self.now).heads }
        ensures entries { result.now.entries ≡ (tally self.now).entries };

    /// Takes the first item left.
    ///
    /// # Errors
    ///
    /// If the item is not made.
    fn next(&mut self, room: Self::Room) -> Result<Option<Self::Item>>
        ensures taken { TakesEnd false Lacks (items self.old) result (items self.new) }
        ensures counts { AddsTaken (tally self.old) (tally self.new) (least_taken result)
            (most_taken result) }
        ensures once { (tally self.new).entries
            ≤ (tally self.old).entries + most_taken result };

    /// Takes the last item left.
    ///
    /// # Errors
    ///
    /// If the item is not made.
    fn next_back(&mut self, room: Self::Room) -> Result<Option<Self::Item>>
        ensures taken { TakesEnd true Lacks (items self.old) result (items self.new) }
        ensures counts { AddsTaken (tally self.old) (tally self.new) (least_taken result)
            (most_taken result) };
}

/// Adds what was counted in a block, if one was opened.
#[inline(always)]
pub fn add_steps<B: Ended>(steps: &mut Steps, block: &Option<B>)
    ensures { CountsExactly steps.old steps.new (tally_of B.tally block.now).heads
        (tally_of B.tally block.now).entries }
{
    if let Some(block) = block {
        steps.add(block.steps());
    }
}

/// The blocks of a list, each of which is opened by its index.
pub trait Blocks<B: Ended> {
    // what a block is read as, and what an opening does
    ghost reading: { Reading Self B.Item };

    /// Opens a block, in the place of one that was opened before, whose counts are kept. What
    /// finding the block examines is counted, also where it is refused.
    ///
    /// # Errors
    ///
    /// If the block is refused.
    fn open(&mut self, room: B::Room, index: usize, block: &mut Option<B>) -> Result<()>
        requires inside { index < reading.len self.old }
        requires none { items_of B.items block.old ≡ [] }
        ensures opens { Opens reading self.old index result self.new (items_of B.items block.new) }
        ensures counts { OpensPaid reading self.old index
            (tally_all B.tally (reading.tally self.old) block.old None)
            (tally_all B.tally (reading.tally self.new) block.new None) };

    ghost laws: { AreBlocks reading };
}
