//! Ordered lists of entries in blocks, as sources that are moved.
ghost use Rattle.std.specs.Prelude.{◌≡◌, ◌+◌, ◌<◌, ◌≤◌, count_by, drop, length, slice_get};
ghost use Rattle.std.specs.Prelude.{false, take, true, ℕ};
ghost use Rattle.sst_merge.specs.Movable.{is_sought, item_before};
ghost use Rattle.sst_merge.specs.MovableBlocks.{AreEntryBlocks, HoldsBack, HoldsFront};
ghost use Rattle.sst_merge.specs.MovableBlocks.{TakesFirstOf};
ghost use Rattle.sst_merge.specs.MovableBlocks.{TakesLastOf, back_place, entries_before, entry_key};
ghost use Rattle.sst_merge.specs.MovableBlocks.{block_lists, front_place, is_block_sought};
ghost use Rattle.sst_merge.specs.Moved.{in_memory};
ghost use Rattle.sstable_blocks.specs.Blocks.{joined};
ghost use Rattle.sstable_blocks.specs.Prelude.{found_item, whole};

use crate::movable::Movable;
use crate::movable_list::passes;
use sstable_blocks::table::data_block::{DataBlockRef, EntryViews};
use sstable_blocks::{BlockHash, EntryView, Result};
use std::alloc::Global;
use std::marker::Model;

// A block that was opened at an end, and the entry that is held there.
#[derive(Drop)]
struct Open<'a> {
    block: usize,
    at: usize,
    views: EntryViews<'a>,
    held: EntryView<'a>,
}

// Holds the first of the entries that are left of a block, if there is one.
fn hold_first<'a, H: BlockHash>(
    index: usize,
    block: &DataBlockRef<'a, H>,
    mut views: EntryViews<'a>,
) -> Option<Open<'a>>
    requires { length views ≤ length block.now.items }
    ensures { TakesFirstOf index block.now.items views.entry result }
{
    let at = block.len() - views.count_left();
    match views.next() {
        Some(held) => Some(Open {
            block: index,
            at,
            views,
            held,
        }),
        None => None,
    }
}

// Holds the last of the entries that are left of a block, if there is one.
fn hold_last<'a>(index: usize, mut views: EntryViews<'a>) -> Option<Open<'a>>
    ensures { TakesLastOf index views.entry result }
{
    match views.next_back() {
        Some(held) => Some(Open {
            block: index,
            at: views.count_left(),
            views,
            held,
        }),
        None => None,
    }
}

// Opens the block at an index at its first entry, if there is such a block.
fn open_front<'a, H: BlockHash>(blocks: &[DataBlockRef<'a, H>], index: usize) -> Option<Open<'a>>
    requires { AreEntryBlocks (block_lists blocks.now) }
    ensures holds { HoldsFront (block_lists blocks.now) result }
    ensures place { front_place (block_lists blocks.now) result
        ≡ entries_before (block_lists blocks.now) index }
{
    if index >= blocks.len() {
        return None;
    }
    let block = &blocks[index];
    hold_first::<H>(index, block, block.entries())
}

// Opens the block before an index at its last entry, if there is such a block.
fn open_back<'a, H: BlockHash>(blocks: &[DataBlockRef<'a, H>], index: usize) -> Option<Open<'a>>
    requires inside { index ≤ length blocks.now }
    requires blocks { AreEntryBlocks (block_lists blocks.now) }
    ensures holds { HoldsBack (block_lists blocks.now) result }
    ensures place { back_place (block_lists blocks.now) result
        ≡ entries_before (block_lists blocks.now) index }
{
    if index == 0 {
        return None;
    }
    hold_last(index - 1, blocks[index - 1].entries())
}

// Opens a block at its first entry whose user key is at least a key, if there is one.
fn hold_from<'a, H: BlockHash>(
    index: usize,
    block: &DataBlockRef<'a, H>,
    key: &[u8],
) -> Option<Open<'a>>
    ensures { (n : ℕ) → n ≡ count_by (is_sought entry_key key.now false) block.now.items
        → TakesFirstOf index block.now.items (drop n block.now.items) result }
{
    let mut iter = block.iter();
    iter.seek(key);
    hold_first::<H>(index, block, EntryViews::new(block, iter))
}

// Whether a search for a user key passes a block: its last key sorts before it, or, with `at_most`,
// does not sort after it.
fn passes_block<H: BlockHash>(block: &DataBlockRef<'_, H>, key: &[u8], at_most: bool) -> bool
    ensures { result ≡ is_block_sought key.now at_most block.now.items }
{
    match block.entries().next_back() {
        Some(last) => passes(&last, key, at_most),
        None => false,
    }
}

// How many blocks a search for a user key passes.
fn blocks_passed<H: BlockHash>(blocks: &[DataBlockRef<'_, H>], key: &[u8], at_most: bool) -> usize
    requires { AreEntryBlocks (block_lists blocks.now) }
    ensures count { result
        ≡ count_by (is_block_sought key.now at_most) (block_lists blocks.now) }
    ensures inside { result ≤ length blocks.now }
{
    let mut lo = 0;
    let mut hi = blocks.len();
    while lo < hi {
        let mid = lo + (hi - lo) / 2;
        if passes_block::<H>(&blocks[mid], key, at_most) {
            lo = mid + 1;
        } else {
            hi = mid;
        }
    }
    lo
}

// Opens the block of the first entry whose user key is at least a key, at that entry, if there is
// one.
fn seek_front<'a, H: BlockHash>(blocks: &[DataBlockRef<'a, H>], key: &[u8]) -> Option<Open<'a>>
    requires { AreEntryBlocks (block_lists blocks.now) }
    ensures holds { HoldsFront (block_lists blocks.now) result }
    ensures place { front_place (block_lists blocks.now) result
        ≡ count_by (is_sought entry_key key.now false) (joined (block_lists blocks.now)) }
{
    let index = blocks_passed::<H>(blocks, key, false);
    if index >= blocks.len() {
        return None;
    }
    hold_from::<H>(index, &blocks[index], key)
}

// Opens the block at an index at the last of its entries whose user keys are at most a key, if
// there is one.
fn hold_up_to<'a, H: BlockHash>(
    index: usize,
    block: &DataBlockRef<'a, H>,
    key: &[u8],
) -> Option<Open<'a>>
    ensures { (n : ℕ) → n ≡ count_by (is_sought entry_key key.now true) block.now.items →
        TakesLastOf index (take n block.now.items) result }
{
    let mut iter = block.iter();
    iter.seek_upper(key);
    hold_last(index, EntryViews::new(block, iter))
}

// Opens the block of the last entry whose user key is at most a key, at that entry, if there is
// one.
fn seek_back<'a, H: BlockHash>(blocks: &[DataBlockRef<'a, H>], key: &[u8]) -> Option<Open<'a>>
    requires { AreEntryBlocks (block_lists blocks.now) }
    ensures holds { HoldsBack (block_lists blocks.now) result }
    ensures place { back_place (block_lists blocks.now) result
        ≡ count_by (is_sought entry_key key.now true) (joined (block_lists blocks.now)) }
{
    let index = blocks_passed::<H>(blocks, key, true);
    if index >= blocks.len() {
        return open_back::<H>(blocks, index);
    }
    match hold_up_to::<H>(index, &blocks[index], key) {
        Some(open) => Some(open),
        None => open_back::<H>(blocks, index),
    }
}

// Takes the entry at the front, and moves the front after it.
fn go_forth<'a, H: BlockHash>(
    blocks: &[DataBlockRef<'a, H>],
    front: &mut Option<Open<'a>>,
) -> Option<EntryView<'a>>
    requires blocks { AreEntryBlocks (block_lists blocks.now) }
    requires held { HoldsFront (block_lists blocks.now) front.old }
    ensures holds { HoldsFront (block_lists blocks.now) front.new }
    ensures item { result
        ≡ slice_get (joined (block_lists blocks.now)) (front_place (block_lists blocks.now)
        front.old) }
    ensures place { front_place (block_lists blocks.now) front.new
        ≡ front_place (block_lists blocks.now) front.old + found_item result }
{
    let _count = blocks.len();
    let Some(open) = front else {
        return None;
    };
    let held = open.held.again();
    match open.views.next() {
        Some(next) => {
            open.at += 1;
            open.held = next;
            Some(held)
        }
        None => {
            let index = open.block + 1;
            *front = open_front::<H>(blocks, index);
            Some(held)
        }
    }
}

// Takes the entry before the back, and moves the back before it.
fn go_back<'a, H: BlockHash>(
    blocks: &[DataBlockRef<'a, H>],
    back: &mut Option<Open<'a>>,
) -> Option<EntryView<'a>>
    requires blocks { AreEntryBlocks (block_lists blocks.now) }
    requires held { HoldsBack (block_lists blocks.now) back.old }
    ensures holds { HoldsBack (block_lists blocks.now) back.new }
    ensures item { result
        ≡ item_before (joined (block_lists blocks.now)) (back_place (block_lists blocks.now)
        back.old) }
    ensures place { back_place (block_lists blocks.now) back.new + found_item result
        ≡ back_place (block_lists blocks.now) back.old }
{
    let Some(open) = back else {
        return None;
    };
    let held = open.held.again();
    match open.views.next_back() {
        Some(last) => {
            open.at -= 1;
            open.held = last;
            Some(held)
        }
        None => {
            let index = open.block;
            *back = open_back::<H>(blocks, index);
            Some(held)
        }
    }
}

/// An ordered list of entries in data blocks over borrowed bytes, whose ends are moved over it. It
/// gives views of the entries; at most two blocks are open, one for each end. Never fails. Clauses
/// see the list and the places of the ends.
#[derive(Drop)]
pub struct MovableBlocks<'a, H: BlockHash> {
    blocks: &'a [DataBlockRef<'a, H>],
    front: Option<Open<'a>>,
    back: Option<Open<'a>>,
}

impl<'a, H: BlockHash> Model for MovableBlocks<'a, H> {
    ghost use Rattle.sst_merge.specs.MovableBlocks.{AreEnds, block_lists, window_of};
    ghost use Rattle.sstable_blocks.specs.Prelude.{Entry, Window};

    ghost Value = { Window Entry };

    ghost view = { λ s. window_of (block_lists s.blocks.now) s.front s.back };

    ghost invariant = { λ s. AreEnds (block_lists s.blocks.now) s.front s.back };
}

impl<'a, H: BlockHash> MovableBlocks<'a, H> {
    /// Opens the first and the last block. The ends are those of the list.
    pub fn new(blocks: &'a [DataBlockRef<'a, H>]) -> MovableBlocks<'a, H>
        requires { AreEntryBlocks (block_lists blocks.now) }
        ensures { result ≡ whole (joined (block_lists blocks.now)) }
    {
        MovableBlocks {
            blocks,
            front: open_front::<H>(blocks, 0),
            back: open_back::<H>(blocks, blocks.len()),
        }
    }
}

impl<'a, H: BlockHash> Movable<EntryView<'a>> for MovableBlocks<'a, H> {
    ghost moved = { λ s. in_memory s };

    ghost may_fail = { λ _. ⊥ };

    fn first(&self) -> Option<&EntryView<'a>> {
        match &self.front {
            Some(open) => Some(&open.held),
            None => None,
        }
    }

    fn last(&self) -> Option<&EntryView<'a>> {
        match &self.back {
            Some(open) => Some(&open.held),
            None => None,
        }
    }

    fn has_left(&self) -> bool {
        match (&self.front, &self.back) {
            (Some(front), Some(back)) => {
                front.block < back.block || front.block == back.block && front.at <= back.at
            }
            _ => false,
        }
    }

    fn next(&mut self, _alloc: Global) -> Result<Option<EntryView<'a>>> {
        Ok(go_forth::<H>(self.blocks, &mut self.front))
    }

    fn next_back(&mut self, _alloc: Global) -> Result<Option<EntryView<'a>>> {
        Ok(go_back::<H>(self.blocks, &mut self.back))
    }

    fn seek(&mut self, _alloc: Global, key: &[u8]) -> Result<()> {
        self.front = seek_front::<H>(self.blocks, key);
        Ok(())
    }

    fn seek_upper(&mut self, _alloc: Global, key: &[u8]) -> Result<()> {
        self.back = seek_back::<H>(self.blocks, key);
        Ok(())
    }
}
