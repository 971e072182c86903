//! Compacting runs into one run.
ghost use Rattle.std.specs.Prelude.{◌≡◌, ◌⊎◌, ◌<◌, List, [], Some, None, map, IfErr, IfOk, IfSome};
ghost use Rattle.std.specs.Prelude.{IsOkUnless};
ghost use Rattle.std.specs.List.{AllByRecursion};
ghost use Rattle.sst_calls.specs.Compactions.{IsCompact, IsCutRun, IsTooMuch, IsCompactBy, left_of};
ghost use Rattle.sst_calls.specs.Compactions.{run_entries, runs_left};
ghost use Rattle.sst_calls.specs.Given.{AreKept};
ghost use Rattle.sst_calls.specs.Hashing.{IsHashed, hashes_of};
ghost use Rattle.sst_calls.specs.Ranges.{key_given, keys_between};
ghost use Rattle.sst_calls.specs.Runs.{AreSomeRuns, IsSomeRun, handles_given, run_form};
ghost use Rattle.sst_sources.specs.Sources.{MayMeet, lists_left, step_errors};
ghost use Rattle.sstable_blocks.specs.Prelude.{Entry, hashes};
ghost use Rattle.sstable_blocks.specs.Results.{Error, Memory, TooLong};
ghost use Rattle.sstable_blocks.specs.Run.{IsWritable};

use crate::codes::Status;
use crate::hash::Hash;
use crate::run::{SstRun, SstRunConfig, SstRunHandles, config_of, run_handles, tell};
use crate::run_entries::RunEntries;
use crate::run_range::{KeysGiven, window_in};
use sst_merge::{Compact, Head, Merge, Sizes, write_table};
use sstable_blocks::run::laws::{layout_is_sound, sound_opens};
use sstable_blocks::{
    BlockHash, EntryView, Error, Poly31, Result, RunConfig, RunHandles, RunWriter, SeqNo, Xxh3,
};
use std::alloc::Global;

// The entries of a run, of which the first is held.
type RunHead<'a> = Head<EntryView<'a>, RunEntries<'a>>;

// What a compaction of runs leaves, and the same where the first of it is held.
type Kept<'a> = Compact<EntryView<'a>, Merge<EntryView<'a>, RunEntries<'a>>, bool>;

type KeptHead<'a> = Head<EntryView<'a>, Kept<'a>>;

// What is compacted, and how: the runs, the keys, the snapshots, whether no older versions are
// elsewhere, and the size of a block.
#[derive(Clone, Copy)]
struct Given<'r, 'a> {
    runs: &'r [SstRun<'a>],
    keys: KeysGiven<'r>,
    snapshots: &'r [SeqNo],
    is_bottom: bool,
    block_size: usize,
}

// The entries of a run with keys in a range.
fn entries_of<'a>(run: &SstRun<'a>, keys: &KeysGiven<'_>) -> RunEntries<'a>
    requires { IsSomeRun run.now.bytes.now (handles_given run.now.handles) }
    ensures { result ≡ run_entries (keys_between (key_given keys.now.has_from keys.now.from.now)
        (key_given keys.now.has_to keys.now.to.now)) run.now }
{
    sound_opens();
    let handles = run_handles(&run.handles);
    let window = window_in(run.bytes, &handles, keys);
    RunEntries::new(run.bytes, handles, window)
}

// The entries of each run with keys in a range.
fn sources_of<'a>(
    alloc: Global,
    runs: &[SstRun<'a>],
    keys: &KeysGiven<'_>,
) -> Result<Vec<RunHead<'a>>>
    requires { AreSomeRuns runs.now }
    ensures lists { IfOk result (λ heads. lists_left heads.items
        ≡ Some (map (run_entries (keys_between (key_given keys.now.has_from keys.now.from.now)
        (key_given keys.now.has_to keys.now.to.now))) runs.now)) }
    ensures errors { IfOk result
        (λ heads. AllByRecursion (λ s. step_errors s ≡ Some []) heads.items) }
    ensures cause { IsOkUnless result Memory }
{
    let mut sources = Vec::new(alloc);
    for run in runs {
        sources.push(Head::new(alloc, entries_of(run, keys))?)?;
    }
    Ok(sources)
}

// What a compaction of sources leaves.
fn left_of<'a>(
    alloc: Global,
    sources: Vec<RunHead<'a>>,
    snapshots: Vec<SeqNo>,
    is_bottom: bool,
) -> Result<KeptHead<'a>>
    requires { AllByRecursion (λ s. step_errors s ≡ Some []) sources.items }
    ensures list { (lists : List (List Entry)) → lists_left sources.entry.items ≡ Some lists
        → IfOk result (λ head. head.list ≡ Some (left_of snapshots.items is_bottom lists)) }
    ensures errors { IfOk result (λ head. (e : Error) → MayMeet head e → ⊥) }
    ensures cause { IsOkUnless result Memory }
{
    Head::new(
        alloc,
        Compact::new(Merge::new(sources), snapshots, is_bottom),
    )
}

// What a compaction of the runs that are given leaves.
fn kept_of<'a>(alloc: Global, given: &Given<'_, 'a>) -> Result<KeptHead<'a>>
    requires { AreSomeRuns given.now.runs.now }
    ensures list { IfOk result (λ head. head.list ≡ Some (runs_left
        (keys_between (key_given given.now.keys.has_from given.now.keys.from.now)
        (key_given given.now.keys.has_to given.now.keys.to.now))
        given.now.snapshots.now given.now.is_bottom given.now.runs.now)) }
    ensures errors { IfOk result (λ head. (e : Error) → MayMeet head e → ⊥) }
    ensures cause { IsOkUnless result Memory }
{
    let sources = sources_of(alloc, given.runs, &given.keys)?;
    let mut snapshots = Vec::new(alloc);
    snapshots.extend_from_slice(given.snapshots)?;
    left_of(alloc, sources, snapshots, given.is_bottom)
}

// Why a run is not written: a vector fails as a writer where its allocation does, and what is
// compacted is in order.
fn too_long_or_memory(error: Error) -> Error
    ensures { (result ≡ Memory) ⊎ ((result ≡ TooLong) × (error ≡ TooLong)) }
{
    match error {
        Error::TooLong => Error::TooLong,
        _ => Error::Memory,
    }
}

// Writes what a compaction leaves as one run, if it leaves anything.
fn run_of<'a, H: BlockHash>(
    alloc: Global,
    kept: KeptHead<'a>,
    block_size: usize,
    config: RunConfig,
) -> Result<Option<(Vec<u8>, RunHandles)>>
    requires writable { IsWritable config }
    requires errors { (e : Error) → MayMeet kept e → ⊥ }
    ensures none { (items : List Entry) → kept.entry.list ≡ Some items
        → IfOk result (λ run. run ≡ None → items ≡ []) }
    ensures run { (items : List Entry) → kept.entry.list ≡ Some items
        → IfOk result (λ run. IfSome run (λ r. IsCutRun
        (run_form (hashes H.hash64 H.hash128) config) block_size items r.0.items r.1)) }
    ensures filter { IfOk result (λ run. IfSome run (λ r. IfSome r.1.filter (λ f. 0 < f.size))) }
    ensures cause { (items : List Entry) → kept.entry.list ≡ Some items
        → IfErr result (λ e. (e ≡ Memory) ⊎ ((e ≡ TooLong)
        × IsTooMuch (run_form (hashes H.hash64 H.hash128) config) block_size items)) }
{
    layout_is_sound();
    sound_opens();
    let sizes = Sizes {
        block: block_size,
        table: usize::MAX,
    };
    let mut kept = kept;
    let out = Vec::new(alloc);
    let written = write_table::<RunWriter<H, Vec<u8>>, EntryView<'a>, Kept<'a>>(
        alloc, &mut kept, out, config, sizes,
    );
    let (written, bytes) = match written {
        Ok(written) => written,
        Err(error) => return Err(too_long_or_memory(error)),
    };
    let Some(handles) = written else {
        return Ok(None);
    };
    if kept.peek().is_some() {
        return Err(Error::TooLong);
    }
    Ok(Some((bytes, handles)))
}

// Compacts what is given into one run, which is written into a buffer.
fn compact_with<H: BlockHash>(
    alloc: Global,
    given: &Given<'_, '_>,
    config: RunConfig,
    out: &mut [u8],
    out_len: &mut usize,
    handles: &mut SstRunHandles,
) -> Status
    requires { AreSomeRuns given.now.runs.now }
    ensures { IsCompact (hashes H.hash64 H.hash128) config given.now.block_size (runs_left
        (keys_between (key_given given.now.keys.has_from given.now.keys.from.now)
        (key_given given.now.keys.has_to given.now.keys.to.now))
        given.now.snapshots.now given.now.is_bottom given.now.runs.now)
        out.old out.new out_len.old out_len.new handles.old handles.new result }
{
    if config.restart_interval == 0 || config.index_interval == 0 || config.ratio.den == 0 {
        return Status::BadArgument;
    }
    let kept = match kept_of(alloc, given) {
        Ok(kept) => kept,
        Err(error) => return Status::Failed(error),
    };
    let made = match run_of::<H>(alloc, kept, given.block_size, config) {
        Ok(made) => made,
        Err(error) => return Status::Failed(error),
    };
    let Some((bytes, found)) = made else {
        return Status::NotFound;
    };
    tell(bytes.as_slice(), &found, out, out_len, handles)
}

// Compacts by the hash function that is given.
fn compact_by(
    hash: Option<Hash>,
    alloc: Global,
    given: &Given<'_, '_>,
    config: RunConfig,
    out: &mut [u8],
    out_len: &mut usize,
    handles: &mut SstRunHandles,
) -> Status
    requires { AreSomeRuns given.now.runs.now }
    ensures { IsHashed hash result
        (AreKept out.old out.new out_len.old out_len.new × (handles.new ≡ handles.old))
        (λ h. IsCompact (hashes_of h) config given.now.block_size (runs_left
        (keys_between (key_given given.now.keys.has_from given.now.keys.from.now)
        (key_given given.now.keys.has_to given.now.keys.to.now))
        given.now.snapshots.now given.now.is_bottom given.now.runs.now)
        out.old out.new out_len.old out_len.new handles.old handles.new result) }
{
    match hash {
        Some(Hash::Xxh3) => compact_with::<Xxh3>(alloc, given, config, out, out_len, handles),
        Some(Hash::Poly31) => compact_with::<Poly31>(alloc, given, config, out, out_len, handles),
        None => Status::BadArgument,
    }
}

/// Compacts runs into one run, which is written into a buffer. Their entries are merged, the newest
/// run first: of equal entries those of the earlier run come first. Of each run only those are
/// taken with keys in a range: from a key on, if `has_from` is not 0, and up to before another, if
/// `has_to` is not 0. The runs are ones that a check accepted or the library wrote, each by
/// whatever hash function.
///
/// Of the versions of a key that are below some snapshot only the first below each of `snapshots`
/// stays; the others stay all, so without snapshots all do. Where `is_bottom` is not 0, no older
/// versions are elsewhere, and a tombstone below a snapshot goes too, unless a snapshot that does
/// not see it sees a version under it. A block ends at the latest with the entry with which its
/// entries have `block_size` bytes.
///
/// Returns 0, and the length of the run, which is then the front of `out`, and its handles; 18
/// where `out` is too short, and the length that is needed; 16 exactly where no entry stays; 17
/// exactly where runs can't be written so: an interval or a denominator of 0, or the number of no
/// hash function; 6 only where what stays does not fit a run, as
/// [`run::write_by`](crate::run::write_by) says, or has 2^64 - 1 bytes or more; 15 if an allocation
/// fails. But for 0 `out` and `handles` are left, and but for 0 and 18 `out_len`.
pub fn compact_runs(
    alloc: Global,
    runs: &[SstRun<'_>],
    has_from: u8,
    from: &[u8],
    has_to: u8,
    to: &[u8],
    snapshots: &[u64],
    is_bottom: u8,
    block_size: usize,
    config: &SstRunConfig,
    out: &mut [u8],
    out_len: &mut usize,
    handles: &mut SstRunHandles,
) -> Status
    requires { AreSomeRuns runs.now }
    ensures { IsCompactBy runs.now (keys_between (key_given has_from from.now) (key_given has_to
        to.now)) snapshots.now is_bottom block_size config.now out.old out.new out_len.old
        out_len.new handles.old handles.new result }
{
    sound_opens();
    let keys = KeysGiven {
        has_from,
        from,
        has_to,
        to,
    };
    let given = Given {
        runs,
        keys,
        snapshots,
        is_bottom: is_bottom > 0,
        block_size,
    };
    compact_by(
        Hash::of_number(u32::from(config.hash)),
        alloc,
        &given,
        config_of(config),
        out,
        out_len,
        handles,
    )
}
