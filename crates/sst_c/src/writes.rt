//! Runs that are written: at once, block by block, and by a compaction.
ghost use Rattle.sst_calls.specs.Codes.{IsCodeOf};
ghost use Rattle.sst_calls.specs.Compactions.{IsCompactBy};
ghost use Rattle.sst_calls.specs.Ranges.{key_given, keys_between};
ghost use Rattle.sst_calls.specs.RunWrites.{IsBlockWriteBy, IsEndWriteBy};
ghost use Rattle.sst_calls.specs.Runs.{AreSomeRuns, IsRunWriteBy};

use sst_calls::entries::SstEntry;
use sst_calls::handles::SstKeyedHandle;
use sst_calls::run::{SstRun, SstRunConfig, SstRunHandles};
use std::alloc::Global;

/// Calls [`sst_calls::run::write_by`].
#[unsafe(no_mangle)]
pub extern "C" fn sst_run_write(
    entries: &[SstEntry<'_>],
    cuts: &[usize],
    config: &SstRunConfig,
    out: &mut [u8],
    out_len: &mut usize,
    handles: &mut SstRunHandles,
    alloc: Global,
) -> u32
    ensures { IsCodeOf result (IsRunWriteBy entries.now cuts.now config.now out.old out.new
        out_len.old out_len.new handles.old handles.new) }
{
    sst_calls::run::write_by(alloc, entries, cuts, config, out, out_len, handles).code()
}

/// Calls [`sst_calls::run_write::write_block_by`].
#[unsafe(no_mangle)]
pub extern "C" fn sst_run_block_write(
    entries: &[SstEntry<'_>],
    config: &SstRunConfig,
    out: &mut [u8],
    out_len: &mut usize,
    hashes: &mut [u64],
    alloc: Global,
) -> u32
    ensures { IsCodeOf result (IsBlockWriteBy entries.now config.now out.old out.new out_len.old
        out_len.new hashes.old hashes.new) }
{
    sst_calls::run_write::write_block_by(alloc, entries, config, out, out_len, hashes).code()
}

/// Calls [`sst_calls::run_write::end_run_by`].
#[unsafe(no_mangle)]
pub extern "C" fn sst_run_end_write(
    handles: &[SstKeyedHandle<'_>],
    hashes: &[u64],
    config: &SstRunConfig,
    out: &mut [u8],
    out_len: &mut usize,
    run_handles: &mut SstRunHandles,
    alloc: Global,
) -> u32
    ensures { IsCodeOf result (IsEndWriteBy handles.now hashes.now config.now out.old out.new
        out_len.old out_len.new run_handles.old run_handles.new) }
{
    sst_calls::run_write::end_run_by(
        alloc,
        handles,
        hashes,
        config,
        out,
        out_len,
        run_handles,
    ).code()
}

/// Calls [`sst_calls::compact::compact_runs`].
#[unsafe(no_mangle)]
pub extern "C" fn sst_compact(
    runs: &[SstRun<'_>],
    has_from: u8,
    from: &[u8],
    has_to: u8,
    to: &[u8],
    snapshots: &[u64],
    is_bottom: u8,
    block_size: usize,
    config: &SstRunConfig,
    out: &mut [u8],
    out_len: &mut usize,
    handles: &mut SstRunHandles,
    alloc: Global,
) -> u32
    requires { AreSomeRuns runs.now }
    ensures { IsCodeOf result (IsCompactBy runs.now (keys_between (key_given has_from from.now)
        (key_given has_to to.now)) snapshots.now is_bottom block_size config.now out.old out.new
        out_len.old out_len.new handles.old handles.new) }
{
    sst_calls::compact::compact_runs(
        alloc, runs, has_from, from, has_to, to, snapshots, is_bottom, block_size, config, out,
        out_len, handles,
    )
    .code()
}
