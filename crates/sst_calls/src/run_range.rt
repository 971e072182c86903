//! Windows of the entries of a run, or of a data block, with keys in a range.
ghost use Rattle.std.specs.Prelude.{◌≡◌, ◌≤◌, List, length};
ghost use Rattle.std.specs.declared.ops.Bound.TheVariants.{Included};
ghost use Rattle.sst_calls.specs.Blocks.{IsSomeDataBlock};
ghost use Rattle.sst_calls.specs.Ranges.{IsBlockRange, IsRangeOf, IsWindowOf, before_key, from_key};
ghost use Rattle.sst_calls.specs.Ranges.{key_given, keys_between};
ghost use Rattle.sst_calls.specs.Runs.{ForSomeRun, IsSomeRun, handles_given};
ghost use Rattle.sst_calls.specs.Windows.{IsPlaceIn, IsWindow, blocks_in, count_before, left_in};
ghost use Rattle.sstable_blocks.specs.Prelude.{Entry, entries, items_left};
ghost use Rattle.sstable_blocks.specs.Blocks.{joined};
ghost use Rattle.sstable_blocks.specs.RisingLaws.{counted};
ghost use Rattle.sstable_blocks.specs.Scans.{is_before, is_up_to};

use crate::block_view::BlockView;
use crate::run::{SstRunHandles, run_handles};
use crate::window::{SstWindow, block_at, index_of, is_uncrossed};
use sstable_blocks::laws::{data_block_is_read, index_block_is_read};
use sstable_blocks::run::laws::sound_opens;
use sstable_blocks::table::block::bound::Bound;
use sstable_blocks::{RunHandles, Steps};

// A place of a run: a block, and the index of an entry in it, or the end of the block.
#[derive(Drop)]
struct Place {
    block: usize,
    index: usize,
}

// The end of a run: that of its last block.
fn end_of(bytes: &[u8], handles: &RunHandles) -> Place
    requires { IsSomeRun bytes.now handles.now }
    ensures place { IsPlaceIn (blocks_in bytes.now handles.now) result.block result.index }
    ensures all { count_before (blocks_in bytes.now handles.now) result.block result.index
        ≡ length (joined (blocks_in bytes.now handles.now)) }
{
    let block = index_of(bytes, handles).len() - 1;
    Place {
        block,
        index: block_at(bytes, handles, block).block.len(),
    }
}

// How many entries of a block are before a key.
fn keys_before(block: &BlockView<'_>, key: &[u8]) -> usize
    ensures { result ≡ counted entries.key (is_before (Included key.now)) block.now.items }
{
    block.intervals().position(&Bound::below(key))
}

// The place of the first entry of a run whose key is not below one.
fn place_of(bytes: &[u8], handles: &RunHandles, key: &[u8]) -> Place
    requires { IsSomeRun bytes.now handles.now }
    ensures place { IsPlaceIn (blocks_in bytes.now handles.now) result.block result.index }
    ensures before { count_before (blocks_in bytes.now handles.now) result.block result.index
        ≡ counted entries.key (is_before (Included key.now))
        (joined (blocks_in bytes.now handles.now)) }
{
    sound_opens();
    index_block_is_read();
    let index = index_of(bytes, handles);
    let block = index.position(&Bound::below(key), &mut Steps::new());
    if block >= index.len() {
        return end_of(bytes, handles);
    }
    Place {
        block,
        index: keys_before(&block_at(bytes, handles, block).block, key),
    }
}

// The place where a range begins: that of its first key, or the start of the run.
fn first_of(bytes: &[u8], handles: &RunHandles, has: u8, from: &[u8]) -> Place
    requires { IsSomeRun bytes.now handles.now }
    ensures place { IsPlaceIn (blocks_in bytes.now handles.now) result.block result.index }
    ensures before { count_before (blocks_in bytes.now handles.now) result.block result.index
        ≡ counted entries.key (is_before (from_key (key_given has from.now)))
        (joined (blocks_in bytes.now handles.now)) }
{
    if has == 0 {
        // A run has a block.
        let _end = end_of(bytes, handles);
        return Place { block: 0, index: 0 };
    }
    place_of(bytes, handles, from)
}

// The place where a range ends: that of the key before which it does, or the end of the run.
fn last_of(bytes: &[u8], handles: &RunHandles, has: u8, to: &[u8]) -> Place
    requires { IsSomeRun bytes.now handles.now }
    ensures place { IsPlaceIn (blocks_in bytes.now handles.now) result.block result.index }
    ensures before { count_before (blocks_in bytes.now handles.now) result.block result.index
        ≡ counted entries.key (is_up_to (before_key (key_given has to.now)))
        (joined (blocks_in bytes.now handles.now)) }
{
    if has == 0 {
        return end_of(bytes, handles);
    }
    place_of(bytes, handles, to)
}

// The window between two places. It is empty where the end is before the first.
fn window_between(first: &Place, end: &Place) -> SstWindow
    ensures window { (blocks : List (List Entry)) → IsPlaceIn blocks first.now.block first.now.index
        → IsPlaceIn blocks end.now.block end.now.index → IsWindow blocks result }
    ensures left { (blocks : List (List Entry)) → IsPlaceIn blocks first.now.block first.now.index
        → IsPlaceIn blocks end.now.block end.now.index
        → left_in blocks result ≡ items_left (record {
          list = joined blocks;
          lo = count_before blocks first.now.block first.now.index;
          hi = count_before blocks end.now.block end.now.index;
        }) }
{
    let window = SstWindow {
        first_block: first.block,
        first_index: first.index,
        end_block: end.block,
        end_index: end.index,
    };
    if !is_uncrossed(&window) {
        return SstWindow {
            first_block: first.block,
            first_index: first.index,
            end_block: first.block,
            end_index: first.index,
        };
    }
    window
}

/// The keys of a range as C gives them: from a key on, if its flag is not 0, and up to before
/// another, if its flag is not 0.
#[derive(Clone, Copy)]
pub(crate) struct KeysGiven<'k> {
    pub(crate) has_from: u8,
    pub(crate) from: &'k [u8],
    pub(crate) has_to: u8,
    pub(crate) to: &'k [u8],
}

/// The window of the entries of a run with keys in a range.
pub(crate) fn window_in(bytes: &[u8], handles: &RunHandles, keys: &KeysGiven<'_>) -> SstWindow
    requires { IsSomeRun bytes.now handles.now }
    ensures { ForSomeRun bytes.now handles.now (λ blocks. IsWindowOf blocks
        (keys_between (key_given keys.now.has_from keys.now.from.now)
        (key_given keys.now.has_to keys.now.to.now)) result) }
{
    sound_opens();
    let first = first_of(bytes, handles, keys.has_from, keys.from);
    let end = last_of(bytes, handles, keys.has_to, keys.to);
    window_between(&first, &end)
}

/// Writes the window of the entries of a run with keys in a range: from a key on, if `has_from` is
/// not 0, and up to before another, if `has_to` is not 0. The run is one that a check accepted or
/// the library wrote, by whatever hash function. The window is empty where no key is in the range.
/// No memory is taken.
pub fn write_range(
    bytes: &[u8],
    handles: &SstRunHandles,
    has_from: u8,
    from: &[u8],
    has_to: u8,
    to: &[u8],
    window: &mut SstWindow,
)
    requires { IsSomeRun bytes.now (handles_given handles.now) }
    ensures { IsRangeOf bytes.now handles.now
        (keys_between (key_given has_from from.now) (key_given has_to to.now)) window.new }
{
    let keys = KeysGiven {
        has_from,
        from,
        has_to,
        to,
    };
    *window = window_in(bytes, &run_handles(handles), &keys);
}

// The index in a block of the entry with which a range begins: that of its first key, or 0.
fn first_in(block: &BlockView<'_>, has: u8, from: &[u8]) -> usize
    ensures before { result
        ≡ counted entries.key (is_before (from_key (key_given has from.now))) block.now.items }
    ensures inside { result ≤ length block.now.items }
{
    if has == 0 {
        return 0;
    }
    keys_before(block, from)
}

// The index in a block before which a range ends: that of the key before which it does, or the
// number of entries.
fn last_in(block: &BlockView<'_>, has: u8, to: &[u8]) -> usize
    ensures before { result
        ≡ counted entries.key (is_up_to (before_key (key_given has to.now))) block.now.items }
    ensures inside { result ≤ length block.now.items }
{
    if has == 0 {
        return block.len();
    }
    keys_before(block, to)
}

/// Writes the window of the entries of a data block with keys in a range, as [`write_range`] does
/// of a run that has this one block: both places are in block 0. The bytes are known to be a data
/// block, by whatever hash function. No memory is taken.
pub fn write_block_range(
    payload: &[u8],
    has_from: u8,
    from: &[u8],
    has_to: u8,
    to: &[u8],
    window: &mut SstWindow,
)
    requires { IsSomeDataBlock payload.now }
    ensures { IsBlockRange payload.now
        (keys_between (key_given has_from from.now) (key_given has_to to.now)) window.new }
{
    data_block_is_read();
    let block = BlockView::new(payload);
    let first = Place {
        block: 0,
        index: first_in(&block, has_from, from),
    };
    let end = Place {
        block: 0,
        index: last_in(&block, has_to, to),
    };
    *window = window_between(&first, &end);
}
