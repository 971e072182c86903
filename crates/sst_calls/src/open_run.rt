//! Runs that are opened once: a table of numbers in memory of the caller decides most of a search
//! in their index.
ghost use Rattle.std.specs.Prelude.{◌≡◌, ◌<◌, ◌≤◌, ℕ, length, IfSome};
ghost use Rattle.sst_calls.specs.Blocks.{IsFind};
ghost use Rattle.sst_calls.specs.OpenRuns.{HasTable, OpensRun, IsOpenBy};
ghost use Rattle.sst_calls.specs.Runs.{IsSomeRun, handles_given, IsRunBy, IsRunFindBy};
ghost use Rattle.sstable_blocks.specs.Blocks.{joined};
ghost use Rattle.sstable_blocks.specs.Lookup.{place_for};
ghost use Rattle.sstable_blocks.specs.Opened.{IsFoundIn, found_entry, index_in};
ghost use Rattle.sstable_blocks.specs.Prelude.{entries, first_match, handles, hashes};
ghost use Rattle.sstable_blocks.specs.Sound.{ForSound, IsSoundRun};

use crate::codes::Status;
use crate::data_block::SstPlace;
use crate::fronts::{place_by, write_fronts};
use crate::hash::Hash;
use crate::run::{SstRunHandles, note, run_handles};
use crate::window::index_of;
use sstable_blocks::run::RunRef;
use sstable_blocks::run::laws::sound_opens;
use sstable_blocks::table::block::key_ranges::bytes_of;
use sstable_blocks::table::data_block::DataBlockParsedItem;
use sstable_blocks::table::index_block::IndexBlockRef;
use sstable_blocks::table::util::{SliceIndexes, longest_shared_prefix_length};
use sstable_blocks::{BlockHandle, BlockHash, Poly31, RunHandles, SeqNo, Steps, Xxh3};

/// What is known of a run that was opened, for [`find_by`].
#[repr(C)]
#[derive(Drop)]
pub struct SstOpenRun {
    /// Where the frames of the index and of the filter are.
    pub handles: SstRunHandles,
    /// The number of blocks, which is how many numbers a table has.
    pub blocks: usize,
    /// How many numbers the table has: one for each block, or none.
    pub fronts: usize,
    /// Where in the payload of the index the bytes are with which all end keys begin.
    pub prefix_offset: usize,
    /// How many bytes these are.
    pub prefix_len: usize,
    /// The number of the hash function.
    pub hash: u32,
}

// How many bytes of two keys are left out of their fronts: those that they share, but for keys of
// at least eight bytes no more than leave eight.
fn prefix_between(first: &[u8], last: &[u8]) -> usize
    ensures { result ≤ length first.now }
{
    let room = first.len().min(last.len());
    let most = if room < 8 { room } else { room - 8 };
    longest_shared_prefix_length(first, last).min(most)
}

// The range in its payload of the bytes with which the first and the last end key of an index
// begin, if both lie whole in their handles.
fn prefix_in(index: &IndexBlockRef<'_>) -> Option<SliceIndexes>
    ensures { IfSome result (λ r. (r.0 ≤ r.1) × (r.1 ≤ length index.now.payload)) }
{
    let payload = index.as_slice();
    let (Some(first), Some(last)) = (index.iter().next(), index.iter().next_back()) else {
        return None;
    };
    if first.prefix.is_some() || last.prefix.is_some() {
        return None;
    }
    let len = prefix_between(
        bytes_of(payload, &first.end_key),
        bytes_of(payload, &last.end_key),
    );
    let start = first.end_key.0;
    Some(SliceIndexes(start, start + len))
}

// A run that was opened without a table.
fn without_table(handles: &SstRunHandles, hash: u32, blocks: usize) -> SstOpenRun
    ensures { result ≡ record {
      handles = handles.now;
      blocks = blocks;
      fronts = 0;
      prefix_offset = 0;
      prefix_len = 0;
      hash = hash;
    } }
{
    SstOpenRun {
        handles: SstRunHandles {
            index_offset: handles.index_offset,
            filter_offset: handles.filter_offset,
            index_size: handles.index_size,
            filter_size: handles.filter_size,
        },
        blocks,
        fronts: 0,
        prefix_offset: 0,
        prefix_len: 0,
        hash,
    }
}

// Opens a run, and writes its table where there is room for it.
fn open(bytes: &[u8], handles: &SstRunHandles, hash: u32, numbers: &mut [u64]) -> SstOpenRun
    requires { IsSomeRun bytes.now (handles_given handles.now) }
    ensures { OpensRun bytes.now handles.now hash numbers.old numbers.new result }
{
    let index = index_of(bytes, &run_handles(handles));
    let blocks = index.len();
    let mut run = without_table(handles, hash, blocks);
    if numbers.len() < blocks {
        return run;
    }
    let Some(prefix) = prefix_in(&index) else {
        return run;
    };
    let shared = &index.as_slice()[prefix.0..prefix.1];
    if write_fronts(index.handles(), shared, numbers) {
        run.fronts = blocks;
        run.prefix_offset = prefix.0;
        run.prefix_len = prefix.1 - prefix.0;
    }
    run
}

/// Opens a run by the hash function of a number, for [`find_by`]: bytes and handles that
/// [`run::check_by`](crate::run::check_by) accepted or [`run::write_by`](crate::run::write_by)
/// wrote with this number. Where `numbers` has room for one for each block, the table that a find
/// searches is written there: the fronts of the end keys of the index, if each lies whole in its
/// handle, as at index interval 1. Takes no memory.
///
/// Returns 0, or 17 exactly where no hash function has the number. But for 0 `run` and `numbers`
/// are left; numbers behind those for the blocks are left too, and all where there is no room.
pub fn open_by(
    bytes: &[u8],
    handles: &SstRunHandles,
    hash: u32,
    numbers: &mut [u64],
    run: &mut SstOpenRun,
) -> Status
    requires { IsRunBy hash bytes.now handles.now }
    ensures { IsOpenBy hash bytes.now handles.now numbers.old numbers.new run.old run.new result }
{
    match Hash::of_number(hash) {
        Some(_) => {
            *run = open(bytes, handles, hash, numbers);
            Status::Done
        }
        None => Status::BadArgument,
    }
}

// Where a search in the index for a key stops, whatever the sequence number, if the table of a run
// that has one says it.
fn place_of(
    bytes: &[u8],
    frames: &RunHandles,
    run: &SstOpenRun,
    numbers: &[u64],
    key: &[u8],
) -> Option<usize>
    requires some { 0 < run.now.fronts }
    requires frames { frames.now ≡ handles_given run.now.handles }
    requires sound { IsSomeRun bytes.now frames.now }
    requires table { HasTable bytes.now run.now numbers.now }
    ensures { (seqno : ℕ) → IfSome result
        (λ n. n ≡ place_for handles key.now seqno (index_in bytes.now frames.now.index)) }
{
    let start = run.prefix_offset;
    let index = index_of(bytes, frames);
    let prefix = &index.as_slice()[start..start + run.prefix_len];
    place_by(prefix, &numbers[..run.fronts], key)
}

// Where the first entry of a key below a sequence number is in a run that was opened: its frame,
// and its parts there.
fn locate<H: BlockHash>(
    bytes: &[u8],
    run: &SstOpenRun,
    numbers: &[u64],
    key: &[u8],
    below: SeqNo,
) -> Option<(BlockHandle, DataBlockParsedItem)>
    requires sound { IsSoundRun (hashes H.hash64 H.hash128) bytes.now
        (handles_given run.now.handles) }
    requires table { HasTable bytes.now run.now numbers.now }
    ensures found { ForSound (hashes H.hash64 H.hash128) bytes.now (handles_given run.now.handles)
        (λ blocks. found_entry bytes.now result
        ≡ first_match entries key.now below (joined blocks)) }
    ensures place { IsFoundIn bytes.now result }
{
    sound_opens();
    let handles = run_handles(&run.handles);
    let sound = RunRef::<H>::new(bytes, &handles);
    if run.fronts > 0 {
        if !sound.may_have(key) {
            return None;
        }
        if let Some(place) = place_of(bytes, &handles, run, numbers, key) {
            return sound.locate_at(place, key, below, &mut Steps::new());
        }
    }
    sound.locate(key, below, &mut Steps::new())
}

// Notes where that entry is.
fn find<H: BlockHash>(
    bytes: &[u8],
    run: &SstOpenRun,
    numbers: &[u64],
    key: &[u8],
    below: SeqNo,
    place: &mut SstPlace,
) -> Status
    requires sound { IsSoundRun (hashes H.hash64 H.hash128) bytes.now
        (handles_given run.now.handles) }
    requires table { HasTable bytes.now run.now numbers.now }
    ensures { ForSound (hashes H.hash64 H.hash128) bytes.now (handles_given run.now.handles)
        (λ blocks. IsFind bytes.now (first_match entries key.now below (joined blocks)) place.old
        place.new result) }
{
    note(bytes, &locate::<H>(bytes, run, numbers, key, below), place)
}

/// Finds what [`run::find_by`](crate::run::find_by) finds, in a run that [`open_by`] opened: these
/// are its bytes, and the numbers that it wrote. Where the table decides it, the index is not
/// searched. No memory is taken, and nothing is copied.
///
/// Returns 0 and where the entry is, a tombstone too; 16 if there is none; or 17 exactly where no
/// hash function has the run's number. But for 0 `place` is left.
pub fn find_by(
    bytes: &[u8],
    run: &SstOpenRun,
    numbers: &[u64],
    key: &[u8],
    below_seqno: u64,
    place: &mut SstPlace,
) -> Status
    requires sound { IsRunBy run.now.hash bytes.now run.now.handles }
    requires table { HasTable bytes.now run.now numbers.now }
    ensures { IsRunFindBy run.now.hash bytes.now run.now.handles key.now below_seqno place.old
        place.new result }
{
    match Hash::of_number(run.hash) {
        Some(Hash::Xxh3) => find::<Xxh3>(bytes, run, numbers, key, below_seqno, place),
        Some(Hash::Poly31) => find::<Poly31>(bytes, run, numbers, key, below_seqno, place),
        None => Status::BadArgument,
    }
}
