//! Scans of data blocks from both ends, by batches, as those of a run of one block.
ghost use Rattle.std.specs.Prelude.{◌↔◌, IsTrue, nat_lt};
ghost use Rattle.sst_calls.specs.Batches.{IsBlockScan, number_given};
ghost use Rattle.sst_calls.specs.Blocks.{IsSomeDataBlock};
ghost use Rattle.sst_calls.specs.Windows.{IsWindowIn};

use crate::block_view::BlockView;
use crate::codes::Status;
use crate::data_block::SstPlace;
use crate::run_scan::{number_of, pass_back, pass_front};
use crate::window::{RunBlock, SstWindow};
use sstable_blocks::SeqNo;

// Whether numbers are a window of one block of so many entries.
fn is_window_in(window: &SstWindow, len: usize) -> bool
    ensures { IsTrue result ↔ IsWindowIn len window.now }
{
    window.first_block == 0
        && window.end_block == 0
        && window.first_index <= window.end_index
        && window.end_index <= len
}

// Lists the next entries of a window of a block that are below a number, if it is one.
fn scan(
    payload: &[u8],
    window: &mut SstWindow,
    below: Option<SeqNo>,
    back: bool,
    places: &mut [SstPlace],
    count: &mut usize,
) -> Status
    requires { IsSomeDataBlock payload.now }
    ensures { IsBlockScan payload.now below back window.old
        window.new places.old places.new count.old count.new result }
{
    let part = RunBlock {
        start: 0,
        block: BlockView::new(payload),
    };
    if !is_window_in(window, part.block.len()) {
        return Status::BadArgument;
    }
    *count = 0;
    if back {
        let first = window.first_index;
        pass_back(payload, &part, window, first, below, places, count);
        return Status::Done;
    }
    let end = window.end_index;
    pass_front(payload, &part, window, end, below, places, count);
    Status::Done
}

/// Lists the next entries of a window of a data block, as
/// [`run_scan::scan_run`](crate::run_scan::scan_run) does of a run that has this one block: both
/// places of the window are in block 0. The bytes are known to be a data block, by whatever hash
/// function.
pub fn scan_block(
    payload: &[u8],
    window: &mut SstWindow,
    has_below: u8,
    below_seqno: u64,
    reverse: u8,
    places: &mut [SstPlace],
    count: &mut usize,
) -> Status
    requires { IsSomeDataBlock payload.now }
    ensures { IsBlockScan payload.now (number_given has_below
        below_seqno) (nat_lt 0 reverse) window.old window.new places.old places.new count.old
        count.new result }
{
    let below = number_of(has_below, below_seqno);
    scan(payload, window, below, reverse > 0, places, count)
}
