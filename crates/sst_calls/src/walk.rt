//! Walks over what a window of a run has left, from item to item.
ghost use Rattle.std.specs.Prelude.{◌≡◌, ◌⊎◌, ℕ, ◌+◌, ◌<◌, ◌≤◌, length, drop};
ghost use Rattle.sst_calls.specs.Runs.{IsSomeRun};
ghost use Rattle.sst_calls.specs.Walks.{IsAtWindow, TakesItem, walk_left};
ghost use Rattle.sst_calls.specs.Windows.{IsWindow, blocks_in};
ghost use Rattle.sstable_blocks.specs.Prelude.{items_left};

use crate::run_scan::entries_from;
use crate::window::{RunBlock, SstWindow, block_at};
use sstable_blocks::RunHandles;
use sstable_blocks::table::data_block::{DataBlockParsedItem, Iter};

/// A window of a run, and an iterator over the entries of its first block. No step takes memory.
#[derive(Drop)]
pub(crate) struct Walk<'a> {
    pub(crate) bytes: &'a [u8],
    pub(crate) handles: RunHandles,
    pub(crate) window: SstWindow,
    pub(crate) part: RunBlock<'a>,
    /// The number of entries of the block.
    pub(crate) len: usize,
    pub(crate) items: Iter<'a>,
}

// An iterator over the entries of a block from the one at an index on; at the end of the block it
// is over any of them.
fn items_from<'a>(part: &RunBlock<'a>, index: usize) -> Iter<'a>
    ensures payload { result.payload ≡ part.now.block.payload }
    ensures left { index < length part.now.block.items
        → items_left result.window ≡ drop index part.now.block.items }
{
    if index < part.block.len() {
        return entries_from(part, index);
    }
    part.block.iter()
}

/// Opens a run at the first place of a window.
pub(crate) fn open<'a>(bytes: &'a [u8], handles: RunHandles, window: SstWindow) -> Walk<'a>
    requires sound { IsSomeRun bytes.now handles }
    requires window { IsWindow (blocks_in bytes.now handles) window }
    ensures there { IsAtWindow result }
    ensures bytes { result.bytes.now ≡ bytes.now }
    ensures handles { result.handles ≡ handles }
    ensures window { result.window ≡ window }
{
    let part = block_at(bytes, &handles, window.first_block);
    let items = items_from(&part, window.first_index);
    Walk {
        bytes,
        handles,
        window,
        len: part.block.len(),
        part,
        items,
    }
}

// Goes on from the end of a block to the next one.
fn next_block(walk: &mut Walk<'_>)
    requires there { IsAtWindow walk.old }
    requires more { walk.old.window.first_block < walk.old.window.end_block }
    requires end { walk.old.len ≤ walk.old.window.first_index }
    ensures there { IsAtWindow walk.new }
    ensures left { (run : ℕ) → walk_left run walk.new ≡ walk_left run walk.old }
    ensures step { walk.new.window.first_block ≡ walk.old.window.first_block + 1 }
    ensures end { walk.new.window.end_block ≡ walk.old.window.end_block }
{
    // The index of a block has 64 bits.
    let _end = walk.window.end_block;
    walk.window.first_block += 1;
    walk.window.first_index = 0;
    walk.part = block_at(walk.bytes, &walk.handles, walk.window.first_block);
    walk.len = walk.part.block.len();
    walk.items = items_from(&walk.part, 0);
}

// Goes on to the first entry that is left, if there is one.
fn settle(walk: &mut Walk<'_>)
    requires there { IsAtWindow walk.old }
    ensures there { IsAtWindow walk.new }
    ensures left { (run : ℕ) → walk_left run walk.new ≡ walk_left run walk.old }
    ensures settled { (walk.new.window.end_block ≤ walk.new.window.first_block)
        ⊎ (walk.new.window.first_index < walk.new.len) }
{
    while walk.window.first_block < walk.window.end_block {
        if walk.window.first_index < walk.len {
            return;
        }
        next_block(walk);
    }
}

/// Takes the first item that is left, if there is one: it is one of the block where the walk then
/// is, and the window then begins after it.
#[inline(always)]
pub(crate) fn next_item(walk: &mut Walk<'_>) -> Option<DataBlockParsedItem>
    requires there { IsAtWindow walk.old }
    ensures there { IsAtWindow walk.new }
    ensures first { TakesItem walk.old result walk.new }
{
    settle(walk);
    if walk.window.end_block <= walk.window.first_block
        && walk.window.end_index <= walk.window.first_index
    {
        return None;
    }
    // A block has fewer than 2^64 entries.
    let _len = walk.len;
    let Some(item) = walk.items.next() else {
        return None;
    };
    walk.window.first_index += 1;
    Some(item)
}
