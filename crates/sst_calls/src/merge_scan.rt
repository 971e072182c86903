//! Merges of runs, by batches.
ghost use Rattle.std.specs.Prelude.{◌≡◌, ◌⊎◌, ◌↔◌, ◌≤◌, ◌++◌, [], Some, drop, length, map, IfOk};
ghost use Rattle.std.specs.Prelude.{IsOkUnless, IsTrue, OnOk, if◌then◌else◌};
ghost use Rattle.std.specs.List.{All};
ghost use Rattle.sst_calls.specs.Batches.{is_under, number_given};
ghost use Rattle.sst_calls.specs.MergeBatches.{AreWindows, IsMergeScan, PassesMerged, IsMergeOf};
ghost use Rattle.sst_calls.specs.MergeBatches.{lists_in};
ghost use Rattle.sst_calls.specs.MergeSteps.{ListsIf, hides, is_listed, next_last};
ghost use Rattle.sst_calls.specs.Placed.{placed_lists, placed_source, run_blocks};
ghost use Rattle.sst_calls.specs.Runs.{IsSomeRun, handles_given};
ghost use Rattle.sst_calls.specs.Windows.{IsWindow};
ghost use Rattle.sst_merge.specs.Compact.{is_hidden, is_parted, is_seen};
ghost use Rattle.sst_sources.specs.Merge.{entry_cmp, merged};
ghost use Rattle.sst_sources.specs.Sources.{lists_left};
ghost use Rattle.sstable_blocks.specs.Results.{Memory};

use crate::codes::Status;
use crate::data_block::SstPlace;
use crate::placed::{Placed, WindowScan};
use crate::run::{SstRun, run_handles};
use crate::run_scan::{is_under, number_of};
use crate::window::{SstWindow, is_window};
use sst_merge::{Head, Merge, Source};
use sstable_blocks::run::laws::sound_opens;
use sstable_blocks::{EntryView, Error, Result, SeqNo};
use std::alloc::Global;

/// An entry of a merge of runs: the index of its run, and where it is in that run.
#[repr(C)]
#[derive(Drop)]
pub struct SstMerged {
    /// The index of its run.
    pub run: usize,
    /// Where its parts are in the run.
    pub place: SstPlace,
}

// A window with the same numbers.
fn copy_of(window: &SstWindow) -> SstWindow
    ensures { result ≡ window.now }
{
    SstWindow {
        first_block: window.first_block,
        first_index: window.first_index,
        end_block: window.end_block,
        end_index: window.end_index,
    }
}

// Copies windows.
fn copies_of(alloc: Global, windows: &[SstWindow]) -> Result<Vec<SstWindow>>
    ensures same { IfOk result (λ copies. copies.items ≡ windows.now) }
    ensures cause { IsOkUnless result Memory }
{
    let mut copies = Vec::with_capacity(alloc, windows.len())?;
    for window in windows {
        copies.push(copy_of(window))?;
    }
    Ok(copies)
}

// Writes windows over as many others.
fn write_windows(from: &[SstWindow], windows: &mut [SstWindow])
    requires { length from.now ≡ length windows.old }
    ensures { windows.new ≡ from.now }
{
    for i in 0..windows.len() {
        windows[i] = copy_of(&from[i]);
    }
}

// Writes places at the front of an array.
fn write_places(mut listed: Vec<SstMerged>, places: &mut [SstMerged])
    requires { length listed.items ≤ length places.old }
    ensures { places.new ≡ listed.items ++ drop (length listed.items) places.old }
{
    while let Some(merged) = listed.pop() {
        places[listed.len()] = merged;
    }
}

// Whether numbers are windows of runs, one for each.
fn are_windows(runs: &[SstRun<'_>], windows: &[SstWindow]) -> bool
    requires { All (λ r. IsSomeRun r.bytes.now (handles_given r.handles)) runs.now }
    ensures { IsTrue result ↔ AreWindows (map run_blocks runs.now) windows.now }
{
    if runs.len() != windows.len() {
        return false;
    }
    for i in 0..runs.len() {
        if !is_window(runs[i].bytes, &run_handles(&runs[i].handles), &windows[i]) {
            return false;
        }
    }
    true
}

// The source of what a window of the run with an index has left.
fn scan_of<'a>(index: usize, run: &SstRun<'a>, window: &SstWindow) -> WindowScan<'a>
    requires sound { IsSomeRun run.now.bytes.now (handles_given run.now.handles) }
    requires window { IsWindow (run_blocks run.now) window.now }
    ensures { result ≡ placed_source index run.now.bytes.now (run_blocks run.now) window.now }
{
    WindowScan::new(index, run.bytes, run_handles(&run.handles), copy_of(window))
}

// Makes the heads of what windows of runs have left.
fn heads_of<'a>(
    alloc: Global,
    runs: &[SstRun<'a>],
    windows: &[SstWindow],
) -> Result<Vec<Head<Placed<'a>, WindowScan<'a>>>>
    requires sound { All (λ r. IsSomeRun r.bytes.now (handles_given r.handles)) runs.now }
    requires windows { AreWindows (map run_blocks runs.now) windows.now }
    ensures lists { IfOk result (λ heads. lists_left heads.items
        ≡ Some (placed_lists 0 runs.now windows.now)) }
    ensures cause { IsOkUnless result Memory }
{
    let mut heads = Vec::with_capacity(alloc, runs.len())?;
    for i in 0..runs.len() {
        let head = Head::new(alloc, scan_of(i, &runs[i], &windows[i]))?;
        heads.push(head)?;
    }
    Ok(heads)
}

// Whether a snapshot sees an entry with this number.
fn is_seen(snapshots: &[SeqNo], seqno: SeqNo) -> bool
    ensures { result ≡ is_seen snapshots.now seqno }
{
    snapshots.iter().any(|snapshot| seqno < *snapshot)
}

// Whether a snapshot sees an entry with the first number, and not one with the second.
fn is_parted(snapshots: &[SeqNo], seqno: SeqNo, newer: SeqNo) -> bool
    ensures { result ≡ is_parted snapshots.now seqno newer }
{
    snapshots
        .iter()
        .any(|snapshot| seqno < *snapshot && *snapshot <= newer)
}

// Whether an entry has the key of the last one, and no snapshot parts the two.
fn is_hidden_by(snapshots: &[SeqNo], last: &EntryView<'_>, entry: &EntryView<'_>) -> bool
    ensures { result ≡ is_hidden (λ d. d) snapshots.now
        (Some (last.now.key.user_key, last.now.key.seqno)) entry.now }
{
    entry.compare_user_key(last).is_eq() && !is_parted(snapshots, entry.seqno(), last.seqno())
}

// Whether some snapshot sees an entry, and each that does the last one too, which has its key.
fn hides(snapshots: &[SeqNo], last: &Option<EntryView<'_>>, entry: &EntryView<'_>) -> bool
    ensures { result ≡ hides snapshots.now last.now entry.now }
{
    match last {
        Some(last) => is_seen(snapshots, entry.seqno()) && is_hidden_by(snapshots, last, entry),
        None => false,
    }
}

// Notes an entry as the last one, if some snapshot sees it.
fn note<'a>(snapshots: &[SeqNo], last: &mut Option<EntryView<'a>>, entry: &EntryView<'a>)
    ensures { last.new
        ≡ (if is_seen snapshots.now entry.now.key.seqno then Some entry.now else last.old) }
{
    if is_seen(snapshots, entry.seqno()) {
        *last = Some(entry.again());
    }
}

// Lists an entry of a merge after those that are listed, if it is below a number.
fn list(item: &Placed<'_>, below: Option<SeqNo>, listed: &mut Vec<SstMerged>) -> Result<()>
    ensures listed { OnOk result (ListsIf (is_under below item.now.entry.key.seqno) item.now
        listed.old.items listed.new.items) }
    ensures cause { IsOkUnless result Memory }
{
    if is_under(below, item.view().seqno()) {
        listed.push(SstMerged {
            run: item.run(),
            place: item.place(),
        })?;
    }
    Ok(())
}

// Passes an entry of a merge: lists it if it is not hidden and is below a number, and notes it.
fn pass<'a>(
    item: &Placed<'a>,
    snapshots: &[SeqNo],
    below: Option<SeqNo>,
    last: &mut Option<EntryView<'a>>,
    listed: &mut Vec<SstMerged>,
) -> Result<()>
    ensures last { last.new ≡ next_last snapshots.now last.old item.now.entry }
    ensures listed { OnOk result
        (ListsIf (is_listed snapshots.now below last.old item.now.entry) item.now
        listed.old.items listed.new.items) }
    ensures cause { IsOkUnless result Memory }
{
    if hides(snapshots, last, item.view()) {
        return Ok(());
    }
    note(snapshots, last, item.view());
    list(item, below, listed)
}

// Lists the next entries of the merge of what windows of runs have left, of those that some
// snapshot needs and that are below a number, as many as there is room for, and moves the windows,
// also over the entries that follow and are hidden.
fn merge_on<'a>(
    alloc: Global,
    runs: &[SstRun<'a>],
    windows: &mut [SstWindow],
    below: Option<SeqNo>,
    snapshots: &[SeqNo],
    room: usize,
) -> Result<Vec<SstMerged>>
    requires sound { All (λ r. IsSomeRun r.bytes.now (handles_given r.handles)) runs.now }
    requires windows { AreWindows (map run_blocks runs.now) windows.old }
    ensures passes { IfOk result (λ listed. PassesMerged runs.now (map run_blocks runs.now)
        snapshots.now below windows.old windows.new listed.items) }
    ensures room { IfOk result (λ listed. length listed.items ≤ room) }
    ensures all { IfOk result (λ listed. (length listed.items ≡ room)
        ⊎ (merged entry_cmp (lists_in (map run_blocks runs.now) windows.new) ≡ [])) }
    ensures cause { IsOkUnless result Memory }
{
    sound_opens();
    let mut merge = Merge::new(heads_of(alloc, runs, windows)?);
    let mut listed = Vec::new(alloc);
    let mut last = None;
    loop {
        let Some(item) = merge.peek() else {
            return Ok(listed);
        };
        if listed.len() >= room && !hides(snapshots, &last, item.view()) {
            return Ok(listed);
        }
        item.move_front(windows);
        pass(item, snapshots, below, &mut last, &mut listed)?;
        // No window fails, so an error is that of an allocation.
        let Ok(_) = merge.advance(alloc) else {
            return Err(Error::Memory);
        };
    }
}

// Lists the next entries of a merge, if the windows are those of the runs.
fn scan(
    alloc: Global,
    runs: &[SstRun<'_>],
    windows: &mut [SstWindow],
    below: Option<SeqNo>,
    snapshots: &[SeqNo],
    places: &mut [SstMerged],
    count: &mut usize,
) -> Status
    requires { All (λ r. IsSomeRun r.bytes.now (handles_given r.handles)) runs.now }
    ensures { IsMergeScan runs.now (map run_blocks runs.now) snapshots.now below windows.old
        windows.new places.old places.new count.old count.new result }
{
    if !are_windows(runs, windows) {
        return Status::BadArgument;
    }
    let mut moved = match copies_of(alloc, windows) {
        Ok(moved) => moved,
        Err(error) => return Status::Failed(error),
    };
    let room = places.len();
    match merge_on(alloc, runs, moved.as_mut_slice(), below, snapshots, room) {
        Ok(listed) => {
            *count = listed.len();
            write_windows(moved.as_slice(), windows);
            write_places(listed, places);
            Status::Done
        }
        Err(error) => Status::Failed(error),
    }
}

/// Lists the next entries of what windows of runs have left together, of those with a sequence
/// number strictly below one if `has_below` is not 0: by key rising, then by sequence number
/// falling, and of equal entries those of the earlier run first. The runs are ones that a check
/// accepted or the library wrote, by whatever hash functions.
///
/// An entry that some of the snapshots see is passed and not listed where each snapshot that sees
/// it sees a newer one of its key too, or one before it with the same number; without snapshots all
/// are listed. A snapshot sees the entries with a number strictly below its own.
///
/// The front of each window is moved over the entries of its run that were passed, and the ends
/// stay. So calls with the same windows and snapshots list each entry once, in order. Nothing of
/// the entries is copied; memory is taken for the call.
///
/// Returns 0 and the number of entries, each of which has its place then, and leaves the places
/// after them: all that are left, or as many as there are places. Or 17 exactly where there are not
/// as many windows as runs, or a window is none of its run's; or 15 if an allocation fails. But for
/// 0 windows, places and count are left.
pub fn merge_runs(
    alloc: Global,
    runs: &[SstRun<'_>],
    windows: &mut [SstWindow],
    has_below: u8,
    below_seqno: u64,
    snapshots: &[u64],
    places: &mut [SstMerged],
    count: &mut usize,
) -> Status
    requires { All (λ r. IsSomeRun r.bytes.now (handles_given r.handles)) runs.now }
    ensures { IsMergeOf runs.now snapshots.now (number_given has_below below_seqno) windows.old
        windows.new places.old places.new count.old count.new result }
{
    sound_opens();
    scan(
        alloc,
        runs,
        windows,
        number_of(has_below, below_seqno),
        snapshots,
        places,
        count,
    )
}
