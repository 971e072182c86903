//! Tables as sources that are moved.
ghost use Rattle.std.specs.Prelude.{◌≡◌, ◌+◌, ◌<◌, ◌≤◌, ◌^◌, length, slice_get, IfErr, IfOk};
ghost use Rattle.std.specs.Prelude.{IfSome};
ghost use Rattle.std.specs.Prelude.{◌*◌, IsOkUnless, None, OnOk, Some, false, min, true};
ghost use Rattle.std.specs.List.{count_by};
ghost use Rattle.std.specs.Option.{option_map};
ghost use Rattle.sst_sources.specs.Merge.{entry_cmp};
ghost use Rattle.sst_merge.specs.Movable.{is_sought};
ghost use Rattle.sst_merge.specs.MovableBlocks.{HoldsBack, HoldsFront, TakesFirstOf, TakesLastOf};
ghost use Rattle.sst_merge.specs.MovableBlocks.{entries_before, entry_key, is_block_sought};
ghost use Rattle.sst_merge.specs.MovableTables.{AnyStepFails, AsksByEnds, AsksWhere, GoesBack};
ghost use Rattle.sst_merge.specs.MovableTables.{GoesForth, IsBackAt, IsFrontAt, IsWholeBlock};
ghost use Rattle.sst_merge.specs.MovableTables.{KeepsTable, OfBlocks, TableStops, end_in};
ghost use Rattle.sst_merge.specs.MovableTables.{later_starts, search_from, table_blocks};
ghost use Rattle.sst_merge.specs.MovableTables.{table_errors, table_moved};
ghost use Rattle.sst_merge.specs.Moved.{IsFreshSource, back_frames, front_frames, seek_frames};
ghost use Rattle.sst_merge.specs.Moved.{seek_upper_frames};
ghost use Rattle.sstable_blocks.specs.Blocks.{joined};
ghost use Rattle.sstable_blocks.specs.Prelude.{items_left, whole};
ghost use Rattle.sstable_blocks.specs.Results.{Memory};
ghost use Rattle.sstable_blocks.specs.RunReading.{hashes};
ghost use Rattle.sstable_blocks.specs.Sources.{AsksUpTo};

use crate::movable::Movable;
use crate::open_end::{OpenEnd, set_end};
use sst_sources::{keep_error, note_error};
use sstable_blocks::run::{FrameSource, Table};
use sstable_blocks::table::block::bound::Bound;
use sstable_blocks::table::data_block::IntoEntries;
use sstable_blocks::{BlockHash, Error, InternalValue, Result, Steps};
use std::alloc::Global;
use std::marker::Model;
use std::mem;

// Holds the first of the entries that are left of a block, if there is one.
fn hold_first<H: BlockHash>(
    alloc: Global,
    index: usize,
    mut left: IntoEntries<H>,
) -> Result<Option<OpenEnd<IntoEntries<H>>>>
    requires few { index + 1 < 2 ^ 64 }
    requires end { left.window.hi ≡ length left.window.list }
    ensures held { IfOk result
        (λ o. TakesFirstOf index left.window.list (items_left left.window) (end_in o)) }
    ensures whole { IfOk result (λ o. IfSome o (λ e. e.left.window.list ≡ left.window.list)) }
    ensures memory { IsOkUnless result Memory }
{
    let Some(held) = left.next_entry(alloc)? else {
        return Ok(None);
    };
    let at = left.block().len() - left.count_left() - 1;
    Ok(Some(OpenEnd {
        block: index,
        at,
        left,
        held,
    }))
}

// Holds the last of the entries that are left of a block, if there is one.
fn hold_last<H: BlockHash>(
    alloc: Global,
    index: usize,
    mut left: IntoEntries<H>,
) -> Result<Option<OpenEnd<IntoEntries<H>>>>
    requires { index + 1 < 2 ^ 64 }
    ensures held { IfOk result (λ o. TakesLastOf index (items_left left.window) (end_in o)) }
    ensures memory { IsOkUnless result Memory }
{
    let Some(held) = left.next_entry_back(alloc)? else {
        return Ok(None);
    };
    let at = left.count_left();
    Ok(Some(OpenEnd {
        block: index,
        at,
        left,
        held,
    }))
}

// The entry that was held at an end.
fn held_of<H: BlockHash>(end: Option<OpenEnd<IntoEntries<H>>>) -> Option<InternalValue>
    ensures { result ≡ option_map (λ e. e.held) end }
{
    match end {
        Some(open) => Some(open.held),
        None => None,
    }
}

// The entries of the block at an index, whose frame is asked for.
fn entries_at<H: BlockHash, S: FrameSource>(
    alloc: Global,
    table: &mut Table<H, S>,
    index: usize,
) -> Result<IntoEntries<H>>
    requires { index < length table.old.index }
    ensures same { KeepsTable S.bytes table.old table.new }
    ensures block { IfOk result (λ e. OfBlocks (hashes H.hash64 H.hash128) S.bytes table.old
        (λ blocks. slice_get blocks index ≡ Some e.window.list)) }
    ensures whole { IfOk result (λ e. e.window ≡ whole e.window.list) }
    ensures cause { IfErr result
        (TableStops (hashes H.hash64 H.hash128) S.bytes S.is_reliable table.old) }
    ensures asks { S.reads table.new.source ≡ S.reads table.old.source + 1 }
{
    match table.block_at(alloc, index, &mut Steps::new()) {
        Ok(block) => Ok(block.into_entries()),
        Err(error) => Err(error),
    }
}

// Opens the block at an index at its first entry, if there is such a block.
fn open_front<H: BlockHash, S: FrameSource>(
    alloc: Global,
    table: &mut Table<H, S>,
    index: usize,
) -> Result<Option<OpenEnd<IntoEntries<H>>>>
    ensures same { KeepsTable S.bytes table.old table.new }
    ensures front { IfOk result (λ o. OfBlocks (hashes H.hash64 H.hash128) S.bytes table.old
        (λ blocks. IsFrontAt blocks (entries_before blocks index) o)) }
    ensures cause { IfErr result
        (TableStops (hashes H.hash64 H.hash128) S.bytes S.is_reliable table.old) }
    ensures asks { AsksWhere (index < length table.old.index) (S.reads table.old.source)
        (S.reads table.new.source) }
{
    if index >= table.index().len() {
        return Ok(None);
    }
    let left = entries_at(alloc, table, index)?;
    hold_first(alloc, index, left)
}

// Opens the block before an index at its last entry, if there is such a block.
fn open_back<H: BlockHash, S: FrameSource>(
    alloc: Global,
    table: &mut Table<H, S>,
    index: usize,
) -> Result<Option<OpenEnd<IntoEntries<H>>>>
    ensures same { KeepsTable S.bytes table.old table.new }
    ensures back { IfOk result (λ o. OfBlocks (hashes H.hash64 H.hash128) S.bytes table.old
        (λ blocks. index ≤ length blocks → IsBackAt blocks (entries_before blocks index) o)) }
    ensures cause { IfErr result
        (TableStops (hashes H.hash64 H.hash128) S.bytes S.is_reliable table.old) }
    ensures asks { AsksWhere ((1 ≤ index) × (index ≤ length table.old.index))
        (S.reads table.old.source) (S.reads table.new.source) }
{
    if index == 0 {
        return Ok(None);
    }
    if index > table.index().len() {
        return Ok(None);
    }
    let left = entries_at(alloc, table, index - 1)?;
    hold_last(alloc, index - 1, left)
}

// The bound of a search for a user key, which passes the keys below it, or, with `at_most`, it too.
fn bound_of(key: &[u8], at_most: bool) -> Bound<'_>
    ensures needle { result.needle.now ≡ key.now }
    ensures from { result.from ≡ search_from at_most }
{
    if at_most {
        Bound::up_to(key)
    } else {
        Bound::below(key)
    }
}

// How many blocks a search for a user key passes: those whose last key sorts before it, or, with
// `at_most`, does not sort after it.
fn blocks_passed<H: BlockHash, S: FrameSource>(
    table: &Table<H, S>,
    key: &[u8],
    at_most: bool,
) -> usize
    ensures { OfBlocks (hashes H.hash64 H.hash128) S.bytes table.now
        (λ blocks. result ≡ count_by (is_block_sought key.now at_most) blocks) }
{
    table
        .index()
        .position(&bound_of(key, at_most), &mut Steps::new())
}

// Opens the block of the first entry whose user key is at least a key, at that entry, if there is
// one.
fn seek_front<H: BlockHash, S: FrameSource>(
    alloc: Global,
    table: &mut Table<H, S>,
    key: &[u8],
) -> Result<Option<OpenEnd<IntoEntries<H>>>>
    ensures same { KeepsTable S.bytes table.old table.new }
    ensures front { IfOk result (λ o. OfBlocks (hashes H.hash64 H.hash128) S.bytes table.old
        (λ blocks. IsFrontAt blocks
        (count_by (is_sought entry_key key.now false) (joined blocks)) o)) }
    ensures cause { IfErr result
        (TableStops (hashes H.hash64 H.hash128) S.bytes S.is_reliable table.old) }
    ensures most { AsksUpTo 1 result (S.reads table.old.source) (S.reads table.new.source) }
    ensures asks { IfOk result (λ o. AsksByEnds (hashes H.hash64 H.hash128) S.bytes S.reads
        seek_frames table.old table.new o None) }
{
    let index = blocks_passed(table, key, false);
    if index >= table.index().len() {
        return Ok(None);
    }
    let mut left = entries_at(alloc, table, index)?;
    left.seek(key);
    hold_first(alloc, index, left)
}

// Opens the block of the last entry whose user key is at most a key, at that entry, if there is
// one.
fn seek_back<H: BlockHash, S: FrameSource>(
    alloc: Global,
    table: &mut Table<H, S>,
    key: &[u8],
) -> Result<Option<OpenEnd<IntoEntries<H>>>>
    ensures same { KeepsTable S.bytes table.old table.new }
    ensures back { IfOk result (λ o. OfBlocks (hashes H.hash64 H.hash128) S.bytes table.old
        (λ blocks. IsBackAt blocks
        (count_by (is_sought entry_key key.now true) (joined blocks)) o)) }
    ensures cause { IfErr result
        (TableStops (hashes H.hash64 H.hash128) S.bytes S.is_reliable table.old) }
    ensures most { AsksUpTo 2 result (S.reads table.old.source) (S.reads table.new.source) }
    ensures asks { IfOk result (λ o. AsksByEnds (hashes H.hash64 H.hash128) S.bytes S.reads
        seek_upper_frames table.old table.new None o) }
{
    let index = blocks_passed(table, key, true);
    if index >= table.index().len() {
        return open_back(alloc, table, index);
    }
    let mut left = entries_at(alloc, table, index)?;
    left.seek_upper(key);
    let held = hold_last(alloc, index, left)?;
    match held {
        Some(open) => Ok(Some(open)),
        None => open_back(alloc, table, index),
    }
}

// Takes the entry at the front, and moves the front after it.
fn go_forth<H: BlockHash, S: FrameSource>(
    alloc: Global,
    table: &mut Table<H, S>,
    front: &mut Option<OpenEnd<IntoEntries<H>>>,
) -> Result<Option<InternalValue>>
    requires holds { OfBlocks (hashes H.hash64 H.hash128) S.bytes table.old
        (λ blocks. HoldsFront blocks (end_in front.old)) }
    requires whole { OfBlocks (hashes H.hash64 H.hash128) S.bytes table.old
        (λ blocks. IsWholeBlock blocks front.old) }
    ensures same { KeepsTable S.bytes table.old table.new }
    ensures step { IfOk result (λ r. OfBlocks (hashes H.hash64 H.hash128) S.bytes table.old
        (GoesForth front.old front.new r)) }
    ensures cause { IfErr result
        (TableStops (hashes H.hash64 H.hash128) S.bytes S.is_reliable table.old) }
    ensures most { AsksUpTo 1 result (S.reads table.old.source) (S.reads table.new.source) }
    ensures asks { OnOk result (AsksByEnds (hashes H.hash64 H.hash128) S.bytes S.reads
        front_frames table.old table.new front.new None) }
{
    let Some(open) = front else {
        return Ok(None);
    };
    if let Some(next) = open.left.next_entry(alloc)? {
        open.at = open.left.block().len() - open.left.count_left() - 1;
        return Ok(Some(mem::replace(&mut open.held, next)));
    }
    let next = open_front(alloc, table, open.block + 1)?;
    Ok(held_of(mem::replace(front, next)))
}

// Takes the entry before the back, and moves the back before it.
fn go_back<H: BlockHash, S: FrameSource>(
    alloc: Global,
    table: &mut Table<H, S>,
    back: &mut Option<OpenEnd<IntoEntries<H>>>,
) -> Result<Option<InternalValue>>
    requires { OfBlocks (hashes H.hash64 H.hash128) S.bytes table.old
        (λ blocks. HoldsBack blocks (end_in back.old)) }
    ensures same { KeepsTable S.bytes table.old table.new }
    ensures step { IfOk result (λ r. OfBlocks (hashes H.hash64 H.hash128) S.bytes table.old
        (GoesBack back.old back.new r)) }
    ensures cause { IfErr result
        (TableStops (hashes H.hash64 H.hash128) S.bytes S.is_reliable table.old) }
    ensures most { AsksUpTo 1 result (S.reads table.old.source) (S.reads table.new.source) }
    ensures asks { OnOk result (AsksByEnds (hashes H.hash64 H.hash128) S.bytes S.reads
        back_frames table.old table.new None back.new) }
{
    let Some(open) = back else {
        return Ok(None);
    };
    if let Some(last) = open.left.next_entry_back(alloc)? {
        open.at = open.left.count_left();
        return Ok(Some(mem::replace(&mut open.held, last)));
    }
    let last = open_back(alloc, table, open.block)?;
    Ok(held_of(mem::replace(back, last)))
}

/// A table whose ends are moved over its entries: each end holds an entry of a block that it has
/// open. A block is read, verified and checked when an end reaches it; at most two are held, one
/// for each end. An error ends it: each later step and search returns it again.
///
/// Clauses see the list of its entries with the places of the ends, where the table's bytes are
/// known, each of its blocks is read, and these are in order and end as the index says, as those of
/// a sound run do; the errors that reading the blocks may give, and the error that ended it, if one
/// did; how many frames its source was asked for, and the places at which its blocks begin.
#[derive(Drop)]
pub struct MovableTable<H: BlockHash, S: FrameSource> {
    table: Table<H, S>,
    front: Option<OpenEnd<IntoEntries<H>>>,
    back: Option<OpenEnd<IntoEntries<H>>>,
    ended: Option<Error>,
}

impl<H: BlockHash, S: FrameSource> Model for MovableTable<H, S> {
    ghost use Rattle.std.specs.Prelude.{IfSome};
    ghost use Rattle.sst_merge.specs.MovableTables.{AreTableEnds, table_blocks, table_moved};
    ghost use Rattle.sst_merge.specs.Moved.{Moved, unless_ended};
    ghost use Rattle.sstable_blocks.specs.Prelude.{Entry};
    ghost use Rattle.sstable_blocks.specs.RunReading.{hashes};

    ghost Value = { Moved Entry };

    ghost view = { λ t. table_moved (hashes H.hash64 H.hash128) S.bytes S.reads t.table t.front
        t.back t.ended };

    ghost invariant = { λ t. IfSome (unless_ended t.ended
        (table_blocks (hashes H.hash64 H.hash128) (S.bytes t.table.source) t.table.index))
        (AreTableEnds t.front t.back) };
}

// Opens the first and the last block, if there is one.
fn open_ends<H: BlockHash, S: FrameSource>(
    alloc: Global,
    table: &mut Table<H, S>,
) -> Result<
    (
        Option<OpenEnd<IntoEntries<H>>>,
        Option<OpenEnd<IntoEntries<H>>>,
    ),
>
    ensures same { KeepsTable S.bytes table.old table.new }
    ensures front { IfOk result (λ ends. OfBlocks (hashes H.hash64 H.hash128) S.bytes table.old
        (λ blocks. IsFrontAt blocks 0 ends.0)) }
    ensures back { IfOk result (λ ends. OfBlocks (hashes H.hash64 H.hash128) S.bytes table.old
        (λ blocks. IsBackAt blocks (length (joined blocks)) ends.1)) }
    ensures cause { IfErr result
        (TableStops (hashes H.hash64 H.hash128) S.bytes S.is_reliable table.old) }
    ensures asks { OnOk result (S.reads table.new.source
        ≡ S.reads table.old.source + 2 * min 1 (length table.old.index)) }
{
    let front = open_front(alloc, table, 0)?;
    let count = table.index().len();
    let back = open_back(alloc, table, count)?;
    Ok((front, back))
}

impl<H: BlockHash, S: FrameSource + Drop> MovableTable<H, S> {
    /// Opens the first and the last block of a table. The ends are those of its list. Two frames
    /// are asked for, also where it has one block, and none where it has no block.
    ///
    /// # Errors
    ///
    /// Those of [`Table::block_at`] for these blocks, and `Error::Memory` if an allocation fails.
    /// The table is then dropped.
    pub fn new(alloc: Global, table: Table<H, S>) -> Result<MovableTable<H, S>>
        ensures list { IfOk result (λ t. t.window ≡ option_map (λ blocks. whole (joined blocks))
            (table_blocks (hashes H.hash64 H.hash128) (S.bytes table.source) table.index)) }
        ensures fresh { IfOk result (IsFreshSource entry_cmp) }
        ensures errors { IfOk result (λ t. t.errors
            ≡ table_errors (hashes H.hash64 H.hash128) (S.bytes table.source) table.index) }
        ensures going { IfOk result (λ t. t.ended ≡ None) }
        ensures cause { IfErr result
            (TableStops (hashes H.hash64 H.hash128) S.bytes S.is_reliable table) }
        ensures tables { IfOk result (λ t. t.tables ≡ 1) }
        ensures starts { IfOk result (λ t. t.starts ≡ later_starts
            (table_blocks (hashes H.hash64 H.hash128) (S.bytes table.source) table.index)) }
        ensures asks { IfOk result
            (λ t. t.reads ≡ S.reads table.source + 2 * min 1 (length table.index)) }
    {
        let mut table = table;
        let (front, back) = open_ends(alloc, &mut table)?;
        Ok(MovableTable {
            table,
            front,
            back,
            ended: None,
        })
    }
}

impl<H: BlockHash, S: FrameSource> Movable<InternalValue> for MovableTable<H, S> {
    ghost moved = { λ t. t };

    ghost may_fail = { AnyStepFails S.is_reliable };

    fn first(&self) -> Option<&InternalValue> {
        match &self.front {
            Some(open) => Some(&open.held),
            None => None,
        }
    }

    fn last(&self) -> Option<&InternalValue> {
        match &self.back {
            Some(open) => Some(&open.held),
            None => None,
        }
    }

    fn has_left(&self) -> bool {
        match (&self.front, &self.back) {
            (Some(front), Some(back)) => {
                front.block < back.block || front.block == back.block && front.at <= back.at
            }
            _ => false,
        }
    }

    fn next(&mut self, alloc: Global) -> Result<Option<InternalValue>> {
        if let Some(error) = self.ended {
            return Err(error);
        }
        let taken = go_forth(alloc, &mut self.table, &mut self.front);
        keep_error(&mut self.ended, &taken);
        taken
    }

    fn next_back(&mut self, alloc: Global) -> Result<Option<InternalValue>> {
        if let Some(error) = self.ended {
            return Err(error);
        }
        let taken = go_back(alloc, &mut self.table, &mut self.back);
        keep_error(&mut self.ended, &taken);
        taken
    }

    fn seek(&mut self, alloc: Global, key: &[u8]) -> Result<()> {
        if let Some(error) = self.ended {
            return Err(error);
        }
        match seek_front(alloc, &mut self.table, key) {
            Ok(front) => {
                set_end(&mut self.front, front);
                Ok(())
            }
            Err(error) => Err(note_error(&mut self.ended, &error)),
        }
    }

    fn seek_upper(&mut self, alloc: Global, key: &[u8]) -> Result<()> {
        if let Some(error) = self.ended {
            return Err(error);
        }
        match seek_back(alloc, &mut self.table, key) {
            Ok(back) => {
                set_end(&mut self.back, back);
                Ok(())
            }
            Err(error) => Err(note_error(&mut self.ended, &error)),
        }
    }
}
