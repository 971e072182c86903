//! Runs: checks, and reads of one key.
ghost use Rattle.sst_calls.specs.CheckEnds.{IsRunCheckAtBy};
ghost use Rattle.sst_calls.specs.Codes.{IsCodeOf};
ghost use Rattle.sst_calls.specs.Fetches.{IsFetchBy};
ghost use Rattle.sst_calls.specs.OpenRuns.{HasTable, IsOpenBy};
ghost use Rattle.sst_calls.specs.Runs.{IsRunBy, IsRunCheckBy, IsRunFindBy};

use sst_calls::data_block::SstPlace;
use sst_calls::open_run::SstOpenRun;
use sst_calls::run::{SstRunHandles, SstSummary};
use sst_calls::run_check::SstCheckEnd;
use sst_calls::run_fetch::SstFound;
use std::alloc::Global;

/// Calls [`sst_calls::run::check_by`].
#[unsafe(no_mangle)]
pub extern "C" fn sst_run_check(
    bytes: &[u8],
    handles: &SstRunHandles,
    hash: u32,
    summary: &mut SstSummary,
    alloc: Global,
) -> u32
    ensures { IsCodeOf result (IsRunCheckBy hash bytes.now handles.now summary.old summary.new) }
{
    sst_calls::run::check_by(alloc, bytes, handles, hash, summary).code()
}

/// Calls [`sst_calls::run_check::check_run_by`].
#[unsafe(no_mangle)]
pub extern "C" fn sst_run_check_at(
    bytes: &[u8],
    handles: &SstRunHandles,
    hash: u32,
    summary: &mut SstSummary,
    end: &mut SstCheckEnd,
    alloc: Global,
) -> u32
    ensures { IsCodeOf result (IsRunCheckAtBy hash bytes.now handles.now summary.old summary.new
        end.old end.new) }
{
    sst_calls::run_check::check_run_by(alloc, bytes, handles, hash, summary, end).code()
}

/// Calls [`sst_calls::run_fetch::fetch_by`].
#[unsafe(no_mangle)]
pub extern "C" fn sst_run_fetch(
    bytes: &[u8],
    handles: &SstRunHandles,
    hash: u32,
    key: &[u8],
    below_seqno: u64,
    found: &mut SstFound,
    value: &mut [u8],
    alloc: Global,
) -> u32
    ensures { IsCodeOf result (IsFetchBy hash bytes.now handles.now key.now below_seqno found.old
        found.new value.old value.new) }
{
    sst_calls::run_fetch::fetch_by(
        alloc,
        bytes,
        handles,
        hash,
        key,
        below_seqno,
        found,
        value,
    ).code()
}

/// Calls [`sst_calls::run::find_by`].
#[unsafe(no_mangle)]
pub extern "C" fn sst_run_get(
    bytes: &[u8],
    handles: &SstRunHandles,
    hash: u32,
    key: &[u8],
    below_seqno: u64,
    place: &mut SstPlace,
) -> u32
    requires { IsRunBy hash bytes.now handles.now }
    ensures { IsCodeOf result (IsRunFindBy hash bytes.now handles.now key.now below_seqno place.old
        place.new) }
{
    sst_calls::run::find_by(bytes, handles, hash, key, below_seqno, place).code()
}

/// Calls [`sst_calls::open_run::open_by`].
#[unsafe(no_mangle)]
pub extern "C" fn sst_run_open(
    bytes: &[u8],
    handles: &SstRunHandles,
    hash: u32,
    numbers: &mut [u64],
    run: &mut SstOpenRun,
) -> u32
    requires { IsRunBy hash bytes.now handles.now }
    ensures { IsCodeOf result (IsOpenBy hash bytes.now handles.now numbers.old numbers.new run.old
        run.new) }
{
    sst_calls::open_run::open_by(bytes, handles, hash, numbers, run).code()
}

/// Calls [`sst_calls::open_run::find_by`].
#[unsafe(no_mangle)]
pub extern "C" fn sst_run_find(
    bytes: &[u8],
    run: &SstOpenRun,
    numbers: &[u64],
    key: &[u8],
    below_seqno: u64,
    place: &mut SstPlace,
) -> u32
    requires sound { IsRunBy run.now.hash bytes.now run.now.handles }
    requires table { HasTable bytes.now run.now numbers.now }
    ensures { IsCodeOf result (IsRunFindBy run.now.hash bytes.now run.now.handles key.now
        below_seqno place.old place.new) }
{
    sst_calls::open_run::find_by(bytes, run, numbers, key, below_seqno, place).code()
}
