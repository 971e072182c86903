//! How blocks are cut and encoded where keys are long.
ghost use Rattle.std.specs.Prelude.{◌≤◌};

use sstable_blocks::IndexBlock;
use std::cell::Cell;

// At how many bytes of encoded entries a block ends, unless keys are longer.
const BLOCK: u64 = 4096;

// How many entries a restart interval has, unless keys are longer than a block.
const INTERVAL: u8 = 16;

/// The length of the longest key that a block ends with, of the tables whose index was seen. A
/// block holds the first key of each restart interval whole, and the index its last one: where they
/// are longer than a block, each entry would have a block of its own, and be twice in the table,
/// whatever it shares with the others.
#[derive(Drop)]
pub struct LongestKey {
    len: Cell<u64>,
}

// The length of the longest key that a block ends with, by the index.
fn longest_end(index: &IndexBlock) -> u64 {
    let mut longest = 0;
    for view in index.by_ref().handles() {
        let (shared, rest) = view.key_parts();
        longest = longest.max(shared.len().saturating_add(rest.len()));
    }
    longest as u64
}

// At how many bytes a block ends where the longest key has a length: at 4 KiB, or at two such keys.
fn size_for(longest: u64) -> u64
    ensures { 4096 ≤ result }
{
    longest.saturating_mul(2).max(BLOCK)
}

impl LongestKey {
    /// No index was seen.
    pub fn new() -> LongestKey {
        LongestKey { len: Cell::new(0) }
    }

    /// Sees the index of a table.
    pub fn see(&self, index: &IndexBlock) {
        self.len.set(longest_end(index).max(self.len.get()));
    }

    /// At how many bytes of encoded entries a block of a new table ends: at 4 KiB, or at twice the
    /// longest key.
    pub fn block_size(&self) -> u64
        ensures { 4096 ≤ result }
    {
        size_for(self.len.get())
    }

    /// How many entries a restart interval of a new table has: 16, or 255 where a key is longer
    /// than a block.
    pub fn interval(&self) -> u8
        ensures { 1 ≤ result }
    {
        if self.len.get() > BLOCK {
            u8::MAX
        } else {
            INTERVAL
        }
    }
}
