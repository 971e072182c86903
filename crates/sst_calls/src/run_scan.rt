//! Scans of runs from both ends, by batches.
ghost use Rattle.std.specs.Prelude.{◌≡◌, ◌⊎◌, ◌+◌, ◌-◌, ◌≤◌, ◌<◌, List, [], ◌∷◌, Some, drop};
ghost use Rattle.std.specs.Prelude.{length, false, true, nat_lt, reverse, slice_get};
ghost use Rattle.sst_calls.specs.Batches.{IsScan, Lists, Passes, is_under, number_given, IsRunScan};
ghost use Rattle.sst_calls.specs.Blocks.{IsPartAt};
ghost use Rattle.sst_calls.specs.Runs.{IsSomeRun, handles_given};
ghost use Rattle.sst_calls.specs.Windows.{IsUpToPlace, IsWindow, blocks_in, left_in};
ghost use Rattle.sstable_blocks.specs.Prelude.{Entry, IsParsedEntry, entry_of, items_left};

use crate::codes::Status;
use crate::data_block::{SstPlace, place_at};
use crate::items_from::items_from;
use crate::run::{SstRunHandles, run_handles};
use crate::window::{RunBlock, SstWindow, block_at, is_window};
use sstable_blocks::run::laws::sound_opens;
use sstable_blocks::table::data_block::{DataBlockParsedItem, Iter};
use sstable_blocks::{RunHandles, SeqNo};

/// Whether a sequence number is strictly below one, if there is one.
#[inline(always)]
pub(crate) fn is_under(below: Option<SeqNo>, seqno: SeqNo) -> bool
    ensures { result ≡ is_under below seqno }
{
    match below {
        Some(below) => seqno < below,
        None => true,
    }
}

// Lists the entry of an item after those that are listed, if it is below a number.
fn list_one(
    bytes: &[u8],
    part: &RunBlock<'_>,
    item: &DataBlockParsedItem,
    below: Option<SeqNo>,
    places: &mut [SstPlace],
    count: &mut usize,
)
    requires part { IsPartAt bytes.now part.now.start part.now.block.payload }
    requires item { IsParsedEntry part.now.block.payload item.now }
    requires room { count.old < length places.old }
    ensures { Lists bytes.now below (entry_of part.now.block.payload item.now ∷ []) places.old
        places.new count.old count.new }
{
    if is_under(below, item.seqno) {
        places[*count] = place_at(bytes, part.start, part.block.as_slice(), item);
        *count += 1;
    }
}

/// An iterator over the entries of a block from the one at an index on. It decodes those before it
/// in its restart interval.
pub(crate) fn entries_from<'a>(part: &RunBlock<'a>, index: usize) -> Iter<'a>
    requires { index < length part.now.block.items }
    ensures payload { result.payload ≡ part.now.block.payload }
    ensures left { items_left result.window ≡ drop index part.now.block.items }
{
    let (intervals, interval) = (part.block.intervals(), part.block.interval());
    Iter::new(items_from(intervals, interval, index))
}

// Lists entries of a block, from an index on up to before another, while there is room. Returns the
// index of the first entry that it did not examine, or the end.
fn list_front(
    bytes: &[u8],
    part: &RunBlock<'_>,
    from: usize,
    to: usize,
    below: Option<SeqNo>,
    places: &mut [SstPlace],
    count: &mut usize,
) -> usize
    requires part { IsPartAt bytes.now part.now.start part.now.block.payload }
    requires range { (from ≤ to) × (to ≤ length part.now.block.items) }
    requires room { count.old ≤ length places.old }
    ensures range { (from ≤ result) × (result ≤ to) }
    ensures all { (result ≡ to) ⊎ (count.new ≡ length places.old) }
    ensures lists { Lists bytes.now below
        (items_left (record { list = part.now.block.items; lo = from; hi = result })) places.old
        places.new count.old count.new }
{
    if from == to {
        return to;
    }
    let mut items = entries_from(part, from);
    for at in from..to {
        if *count == places.len() {
            return at;
        }
        let Some(item) = items.next() else {
            return at;
        };
        list_one(bytes, part, &item, below, places, count);
    }
    to
}

// Lists a few entries of a block for which there is room, the last one first.
fn list_turned(
    bytes: &[u8],
    part: &RunBlock<'_>,
    from: usize,
    to: usize,
    below: Option<SeqNo>,
    places: &mut [SstPlace],
    count: &mut usize,
)
    requires part { IsPartAt bytes.now part.now.start part.now.block.payload }
    requires range { (from ≤ to) × (to ≤ length part.now.block.items) }
    requires room { count.old + (to - from) ≤ length places.old }
    ensures { Lists bytes.now below
        (reverse (items_left (record { list = part.now.block.items; lo = from; hi = to })))
        places.old places.new count.old count.new }
{
    let listed = *count;
    list_front(bytes, part, from, to, below, places, count);
    places[listed..*count].reverse();
}

// Where the entries before an index begin that are listed at once: those of its restart interval,
// from an index on, as many as there is room for.
fn begin_before(from: usize, to: usize, interval: usize, room: usize) -> usize
    requires some { from < to }
    requires interval { 0 < interval }
    requires room { 0 < room }
    ensures range { (from ≤ result) × (result < to) }
    ensures fits { to ≤ result + room }
{
    let head = (to - 1) / interval * interval;
    from.max(head).max(to.saturating_sub(room))
}

// Lists entries of a block from the back, the last one first, and at once those of a restart
// interval.
fn list_back(
    bytes: &[u8],
    part: &RunBlock<'_>,
    from: usize,
    to: usize,
    below: Option<SeqNo>,
    places: &mut [SstPlace],
    count: &mut usize,
) -> usize
    requires part { IsPartAt bytes.now part.now.start part.now.block.payload }
    requires range { (from ≤ to) × (to ≤ length part.now.block.items) }
    requires room { count.old ≤ length places.old }
    ensures range { (from ≤ result) × (result ≤ to) }
    ensures all { (result ≡ from) ⊎ (count.new ≡ length places.old) }
    ensures lists { Lists bytes.now below
        (reverse (items_left (record { list = part.now.block.items; lo = result; hi = to })))
        places.old places.new count.old count.new }
{
    let interval = part.block.interval();
    let mut at = to;
    while from < at && *count < places.len() {
        let next = begin_before(from, at, interval, places.len() - *count);
        list_turned(bytes, part, next, at, below, places, count);
        at = next;
    }
    at
}

/// Lists entries of the first block of a window up to an index, while there is room, and moves the
/// front of the window.
pub(crate) fn pass_front(
    bytes: &[u8],
    part: &RunBlock<'_>,
    window: &mut SstWindow,
    to: usize,
    below: Option<SeqNo>,
    places: &mut [SstPlace],
    count: &mut usize,
)
    requires part { IsPartAt bytes.now part.now.start part.now.block.payload }
    requires range { (window.old.first_index ≤ to) × (to ≤ length part.now.block.items) }
    requires room { count.old ≤ length places.old }
    ensures passes { (blocks : List (List Entry)) → IsWindow blocks window.old
        → slice_get blocks window.old.first_block ≡ Some part.now.block.items
        → IsUpToPlace window.old.first_block to window.old.end_block window.old.end_index
        → Passes bytes.now blocks below false window.old window.new places.old places.new count.old
        count.new }
    ensures all { (window.new.first_index ≡ to) ⊎ (count.new ≡ length places.old) }
    ensures block { window.new.first_block ≡ window.old.first_block }
    ensures end { (window.new.end_block ≡ window.old.end_block)
        × (window.new.end_index ≡ window.old.end_index) }
{
    window.first_index = list_front(bytes, part, window.first_index, to, below, places, count);
}

/// Lists entries of the last block of a window from the end down to an index, while there is room,
/// and moves the end of the window.
pub(crate) fn pass_back(
    bytes: &[u8],
    part: &RunBlock<'_>,
    window: &mut SstWindow,
    from: usize,
    below: Option<SeqNo>,
    places: &mut [SstPlace],
    count: &mut usize,
)
    requires part { IsPartAt bytes.now part.now.start part.now.block.payload }
    requires range { (from ≤ window.old.end_index)
        × (window.old.end_index ≤ length part.now.block.items) }
    requires room { count.old ≤ length places.old }
    ensures passes { (blocks : List (List Entry)) → IsWindow blocks window.old
        → slice_get blocks window.old.end_block ≡ Some part.now.block.items
        → IsUpToPlace window.old.first_block window.old.first_index window.old.end_block from
        → Passes bytes.now blocks below true window.old window.new places.old places.new count.old
        count.new }
    ensures all { (window.new.end_index ≡ from) ⊎ (count.new ≡ length places.old) }
    ensures block { window.new.end_block ≡ window.old.end_block }
    ensures first { (window.new.first_block ≡ window.old.first_block)
        × (window.new.first_index ≡ window.old.first_index) }
{
    window.end_index = list_back(bytes, part, from, window.end_index, below, places, count);
}

// Lists entries of a window from the front, block by block, while there is room.
fn scan_front(
    bytes: &[u8],
    handles: &RunHandles,
    window: &mut SstWindow,
    below: Option<SeqNo>,
    places: &mut [SstPlace],
    count: &mut usize,
)
    requires sound { IsSomeRun bytes.now handles.now }
    requires window { IsWindow (blocks_in bytes.now handles.now) window.old }
    requires room { count.old ≤ length places.old }
    ensures passes { Passes bytes.now (blocks_in bytes.now handles.now) below false window.old
        window.new places.old places.new count.old count.new }
    ensures all { (count.new ≡ length places.old)
        ⊎ (left_in (blocks_in bytes.now handles.now) window.new ≡ []) }
{
    while window.first_block < window.end_block {
        let part = block_at(bytes, handles, window.first_block);
        let end = part.block.len();
        pass_front(bytes, &part, window, end, below, places, count);
        if *count == places.len() {
            return;
        }
        window.first_block += 1;
        window.first_index = 0;
    }
    let part = block_at(bytes, handles, window.first_block);
    let end = window.end_index;
    pass_front(bytes, &part, window, end, below, places, count);
}

// Lists entries of a window from the back, block by block, while there is room.
fn scan_back(
    bytes: &[u8],
    handles: &RunHandles,
    window: &mut SstWindow,
    below: Option<SeqNo>,
    places: &mut [SstPlace],
    count: &mut usize,
)
    requires sound { IsSomeRun bytes.now handles.now }
    requires window { IsWindow (blocks_in bytes.now handles.now) window.old }
    requires room { count.old ≤ length places.old }
    ensures passes { Passes bytes.now (blocks_in bytes.now handles.now) below true window.old
        window.new places.old places.new count.old count.new }
    ensures all { (count.new ≡ length places.old)
        ⊎ (left_in (blocks_in bytes.now handles.now) window.new ≡ []) }
{
    while window.first_block < window.end_block {
        let part = block_at(bytes, handles, window.end_block);
        pass_back(bytes, &part, window, 0, below, places, count);
        if *count == places.len() {
            return;
        }
        window.end_block -= 1;
        window.end_index = block_at(bytes, handles, window.end_block).block.len();
    }
    let part = block_at(bytes, handles, window.end_block);
    let first = window.first_index;
    pass_back(bytes, &part, window, first, below, places, count);
}

// Lists the next entries of a window that are below a number, if it is one of the run.
fn scan(
    bytes: &[u8],
    handles: &RunHandles,
    window: &mut SstWindow,
    below: Option<SeqNo>,
    back: bool,
    places: &mut [SstPlace],
    count: &mut usize,
) -> Status
    requires { IsSomeRun bytes.now handles.now }
    ensures { IsScan bytes.now (blocks_in bytes.now handles.now) below back window.old window.new
        places.old places.new count.old count.new result }
{
    if !is_window(bytes, handles, window) {
        return Status::BadArgument;
    }
    *count = 0;
    if back {
        scan_back(bytes, handles, window, below, places, count);
        return Status::Done;
    }
    scan_front(bytes, handles, window, below, places, count);
    Status::Done
}

/// A number that is given, if a flag says so.
pub(crate) fn number_of(has: u8, number: u64) -> Option<u64>
    ensures { result ≡ number_given has number }
{
    if has == 0 { None } else { Some(number) }
}

/// Lists the next entries of a window of a run, of those with a sequence number strictly below one
/// if `has_below` is not 0: the first of them, or from the back where `reverse` is not 0, the last
/// one first. The run is one that a check accepted or the library wrote, by whatever hash function.
/// No memory is taken, and nothing is copied. The end of the window that it goes from is moved over
/// the entries that it went past.
///
/// Returns 0 and the number of entries, each of which has its place then, and leaves the places
/// after them: all of the window's, or as many as there are places. Or 17 where the window is none
/// of the run's: a place is not there, or the first is after the end; and leaves all.
pub fn scan_run(
    bytes: &[u8],
    handles: &SstRunHandles,
    window: &mut SstWindow,
    has_below: u8,
    below_seqno: u64,
    reverse: u8,
    places: &mut [SstPlace],
    count: &mut usize,
) -> Status
    requires { IsSomeRun bytes.now (handles_given handles.now) }
    ensures { IsRunScan bytes.now handles.now (number_given has_below below_seqno) (nat_lt 0
        reverse) window.old window.new places.old places.new count.old count.new result }
{
    sound_opens();
    scan(
        bytes,
        &run_handles(handles),
        window,
        number_of(has_below, below_seqno),
        reverse > 0,
        places,
        count,
    )
}
