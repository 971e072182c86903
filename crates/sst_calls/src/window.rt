//! Windows of runs: what a scan has left, as numbers that the caller keeps.
ghost use Rattle.std.specs.Prelude.{◌≡◌, ◌↔◌, ◌<◌, ◌≤◌, ℕ, List, IsTrue, length, slice_get, Some};
ghost use Rattle.std.specs.Prelude.{false};
ghost use Rattle.sst_calls.specs.Blocks.{IsPartAt, IsSomeDataBlock};
ghost use Rattle.sst_calls.specs.Runs.{IsSomeRun};
ghost use Rattle.sst_calls.specs.Windows.{IsPlaceIn, IsUpToPlace, IsWindow, blocks_in};
ghost use Rattle.sstable_blocks.specs.Opened.{IsFrameRange, index_in, payload_in};
ghost use Rattle.sstable_blocks.specs.Prelude.{data_ref_of, entries, items_in};

use crate::block_view::BlockView;
use crate::run::start_of;
use sstable_blocks::run::laws::sound_opens;
use sstable_blocks::run::read::payload_at;
use sstable_blocks::table::index_block::IndexBlockRef;
use sstable_blocks::{BlockHandle, RunHandles, Steps};

/// What a scan of a run has left: the entries from a first place on up to, not including, an end.
/// A place is the index of a block, and the index of an entry in it, or the number of its entries
/// for the end of the block.
#[repr(C)]
#[derive(Drop)]
pub struct SstWindow {
    /// The index of the block of the first entry that is left.
    pub first_block: usize,
    /// The index of that entry in its block.
    pub first_index: usize,
    /// The index of the block where the end is.
    pub end_block: usize,
    /// The index in that block of the entry before which the end is.
    pub end_index: usize,
}

/// A block of a run, and where its payload begins in the run.
#[derive(Drop)]
pub(crate) struct RunBlock<'a> {
    pub(crate) start: usize,
    pub(crate) block: BlockView<'a>,
    ghost read: { block ≡ data_ref_of block.payload false },
}

/// The index of a sound run.
#[tactic(auto, using(sstable_blocks::specs::RunLaws::payload_fits))]
pub(crate) fn index_of<'a>(bytes: &'a [u8], handles: &RunHandles) -> IndexBlockRef<'a>
    requires { IsSomeRun bytes.now handles.now }
    ensures items { result.items ≡ index_in bytes.now handles.now.index }
    ensures payload { result.payload ≡ payload_in bytes.now handles.now.index }
{
    sound_opens();
    // A size has 32 bits.
    let _fits = handles.index.size();
    IndexBlockRef::new(payload_at(bytes, &handles.index))
}

// The frame of the block at an index of a run.
fn frame_of(bytes: &[u8], handles: &RunHandles, block: usize) -> BlockHandle
    requires sound { IsSomeRun bytes.now handles.now }
    requires inside { block < length (index_in bytes.now handles.now.index) }
    ensures range { IsFrameRange bytes.now result }
    ensures is_block { IsSomeDataBlock (payload_in bytes.now result) }
    ensures items { slice_get (blocks_in bytes.now handles.now) block
        ≡ Some (items_in entries (payload_in bytes.now result)) }
{
    sound_opens();
    let frame = index_of(bytes, handles).handle_at(block, &mut Steps::new());
    // A size has 32 bits.
    let _fits = frame.size();
    frame
}

/// The block at an index of a run.
#[tactic(auto, using(sstable_blocks::specs::RunLaws::payload_fits))]
pub(crate) fn block_at<'a>(bytes: &'a [u8], handles: &RunHandles, block: usize) -> RunBlock<'a>
    requires sound { IsSomeRun bytes.now handles.now }
    requires inside { block < length (index_in bytes.now handles.now.index) }
    ensures part { IsPartAt bytes.now result.start result.block.payload }
    ensures items { slice_get (blocks_in bytes.now handles.now) block ≡ Some result.block.items }
{
    let frame = frame_of(bytes, handles, block);
    RunBlock {
        start: start_of(bytes, &frame),
        block: BlockView::new(payload_at(bytes, &frame)),
    }
}

// Whether a run has a place.
fn has_place(bytes: &[u8], handles: &RunHandles, block: usize, index: usize) -> bool
    requires { IsSomeRun bytes.now handles.now }
    ensures { IsTrue result ↔ IsPlaceIn (blocks_in bytes.now handles.now) block index }
{
    if index_of(bytes, handles).len() <= block {
        return false;
    }
    index <= block_at(bytes, handles, block).block.len()
}

/// Whether the first place of a window is not after the end.
pub(crate) fn is_uncrossed(window: &SstWindow) -> bool
    ensures { IsTrue result ↔ IsUpToPlace window.now.first_block window.now.first_index
        window.now.end_block window.now.end_index }
{
    window.first_block < window.end_block
        || window.first_block == window.end_block && window.first_index <= window.end_index
}

/// Whether numbers are a window of a run.
pub(crate) fn is_window(bytes: &[u8], handles: &RunHandles, window: &SstWindow) -> bool
    requires { IsSomeRun bytes.now handles.now }
    ensures { IsTrue result ↔ IsWindow (blocks_in bytes.now handles.now) window.now }
{
    is_uncrossed(window)
        && has_place(bytes, handles, window.first_block, window.first_index)
        && has_place(bytes, handles, window.end_block, window.end_index)
}
