//! Scans of runs and of data blocks, and merges of runs.
ghost use Rattle.std.specs.List.{All};
ghost use Rattle.std.specs.Prelude.{nat_lt};
ghost use Rattle.sst_calls.specs.Batches.{IsBlockScan, IsRunScan, number_given};
ghost use Rattle.sst_calls.specs.Blocks.{IsSomeDataBlock};
ghost use Rattle.sst_calls.specs.Codes.{IsCodeOf};
ghost use Rattle.sst_calls.specs.MergeBatches.{IsMergeOf};
ghost use Rattle.sst_calls.specs.Ranges.{IsBlockRange, IsRangeOf, key_given, keys_between};
ghost use Rattle.sst_calls.specs.Runs.{IsSomeRun, handles_given};

use sst_calls::data_block::SstPlace;
use sst_calls::merge_scan::SstMerged;
use sst_calls::run::{SstRun, SstRunHandles};
use sst_calls::window::SstWindow;
use std::alloc::Global;

/// Calls [`sst_calls::run_range::write_range`].
#[unsafe(no_mangle)]
pub extern "C" fn sst_run_range(
    bytes: &[u8],
    handles: &SstRunHandles,
    has_from: u8,
    from: &[u8],
    has_to: u8,
    to: &[u8],
    window: &mut SstWindow,
)
    requires { IsSomeRun bytes.now (handles_given handles.now) }
    ensures { IsRangeOf bytes.now handles.now
        (keys_between (key_given has_from from.now) (key_given has_to to.now)) window.new }
{
    sst_calls::run_range::write_range(bytes, handles, has_from, from, has_to, to, window);
}

/// Calls [`sst_calls::run_scan::scan_run`].
#[unsafe(no_mangle)]
pub extern "C" fn sst_run_scan(
    bytes: &[u8],
    handles: &SstRunHandles,
    window: &mut SstWindow,
    has_below: u8,
    below_seqno: u64,
    reverse: u8,
    places: &mut [SstPlace],
    count: &mut usize,
) -> u32
    requires { IsSomeRun bytes.now (handles_given handles.now) }
    ensures { IsCodeOf result (IsRunScan bytes.now handles.now (number_given has_below below_seqno)
        (nat_lt 0 reverse) window.old window.new places.old places.new count.old count.new) }
{
    sst_calls::run_scan::scan_run(
        bytes,
        handles,
        window,
        has_below,
        below_seqno,
        reverse,
        places,
        count,
    )
    .code()
}

/// Calls [`sst_calls::run_range::write_block_range`].
#[unsafe(no_mangle)]
pub extern "C" fn sst_data_block_range(
    payload: &[u8],
    has_from: u8,
    from: &[u8],
    has_to: u8,
    to: &[u8],
    window: &mut SstWindow,
)
    requires { IsSomeDataBlock payload.now }
    ensures { IsBlockRange payload.now
        (keys_between (key_given has_from from.now) (key_given has_to to.now)) window.new }
{
    sst_calls::run_range::write_block_range(payload, has_from, from, has_to, to, window);
}

/// Calls [`sst_calls::block_scan::scan_block`].
#[unsafe(no_mangle)]
pub extern "C" fn sst_data_block_scan(
    payload: &[u8],
    window: &mut SstWindow,
    has_below: u8,
    below_seqno: u64,
    reverse: u8,
    places: &mut [SstPlace],
    count: &mut usize,
) -> u32
    requires { IsSomeDataBlock payload.now }
    ensures { IsCodeOf result (IsBlockScan payload.now (number_given has_below below_seqno) (nat_lt
        0 reverse) window.old window.new places.old places.new count.old count.new) }
{
    sst_calls::block_scan::scan_block(
        payload,
        window,
        has_below,
        below_seqno,
        reverse,
        places,
        count,
    )
    .code()
}

/// Calls [`sst_calls::merge_scan::merge_runs`].
#[unsafe(no_mangle)]
pub extern "C" fn sst_merge_scan(
    runs: &[SstRun<'_>],
    windows: &mut [SstWindow],
    has_below: u8,
    below_seqno: u64,
    snapshots: &[u64],
    places: &mut [SstMerged],
    count: &mut usize,
    alloc: Global,
) -> u32
    requires { All (λ r. IsSomeRun r.bytes.now (handles_given r.handles)) runs.now }
    ensures { IsCodeOf result (IsMergeOf runs.now snapshots.now (number_given has_below below_seqno)
        windows.old windows.new places.old places.new count.old count.new) }
{
    sst_calls::merge_scan::merge_runs(
        alloc,
        runs,
        windows,
        has_below,
        below_seqno,
        snapshots,
        places,
        count,
    )
    .code()
}
