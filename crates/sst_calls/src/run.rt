//! Runs: blocks, their index and their filter in one string of bytes.
ghost use Rattle.std.specs.Prelude.{◌≡◌, ◌⊎◌, ◌<◌, List, IfOk, IfErr, IfSome};
ghost use Rattle.sst_calls.specs.Blocks.{IsFind, IsPartAt, IsPlaceOf};
ghost use Rattle.sst_calls.specs.declared.codes.Status.TheVariants.{Failed, BadArgument};
ghost use Rattle.sst_calls.specs.declared.entries.SstEntry.{SstEntry};
ghost use Rattle.sst_calls.specs.Given.{IsWrittenOut};
ghost use Rattle.sst_calls.specs.Runs.{config_given, handles_given, run_form, AreTold, CanWrite};
ghost use Rattle.sst_calls.specs.Runs.{IsRunCheck, IsRunWrite, IsRunBy, IsRunCheckBy, IsRunFindBy};
ghost use Rattle.sst_calls.specs.Runs.{IsRunWriteBy};
ghost use Rattle.sstable_blocks.specs.Blocks.{blocks_of, joined};
ghost use Rattle.sstable_blocks.specs.Opened.{IsFoundIn, IsFrameRange, found_entry, payload_in};
ghost use Rattle.sstable_blocks.specs.Prelude.{Entry, entries, first_match, entry_of, hashes};
ghost use Rattle.sstable_blocks.specs.Prelude.{IsParsedEntry};
ghost use Rattle.sstable_blocks.specs.Results.{Memory, TooLong};
ghost use Rattle.sstable_blocks.specs.Run.{IsLayout, RunFits};
ghost use Rattle.sstable_blocks.specs.Sound.{ForSound, IsSoundRun};

use crate::codes::Status;
use crate::data_block::{SstPlace, place_at};
use crate::entries::{SstEntry, items_of};
use crate::hash::Hash;
use crate::output::write_bytes;
use sstable_blocks::run::RunRef;
use sstable_blocks::run::laws::sound_opens;
use sstable_blocks::run::read::payload_at;
use sstable_blocks::table::block::header::HEADER_LEN;
use sstable_blocks::table::data_block::DataBlockParsedItem;
use sstable_blocks::{
    BlockHandle, BlockHash, BlockOffset, DataBlock, EntryView, Error, HashRatio, Poly31, RunConfig,
    RunHandles, RunSummary, SeqNo, Steps, Xxh3, cuts_fit, write_run,
};
use std::alloc::Global;

/// Where the frames of a run's index and of its filter are.
#[repr(C)]
#[derive(Drop)]
pub struct SstRunHandles {
    /// Where the frame of the index begins in the run, in bytes.
    pub index_offset: u64,
    /// Where the frame of the filter begins.
    pub filter_offset: u64,
    /// The length of the frame of the index in bytes.
    pub index_size: u32,
    /// The length of the frame of the filter; 0 where there is no filter.
    pub filter_size: u32,
}

/// A run that is given: its bytes, and where its index and its filter are in them.
#[repr(C)]
#[derive(Drop)]
pub struct SstRun<'a> {
    /// The bytes.
    pub bytes: &'a [u8],
    /// Where the frames of the index and of the filter are.
    pub handles: SstRunHandles,
}

/// How a run is written.
#[repr(C)]
#[derive(Drop)]
pub struct SstRunConfig {
    /// The number of buckets of a block's hash index is `num / den` for each entry: 0 and 1 for
    /// none.
    pub num: u32,
    /// The denominator, at least 1.
    pub den: u32,
    /// The number of bits of the filter for each entry; 0 for no filter.
    pub bits_per_key: u32,
    /// The number of entries in a restart interval of a data block, at least 1.
    pub restart_interval: u8,
    /// The number of handles in a restart interval of the index, at least 1.
    pub index_interval: u8,
    /// The number of the hash function: 0 for XXH3, 1 for the polynomial hash.
    pub hash: u16,
}

/// What a check of a run counts.
#[repr(C)]
#[derive(Drop)]
pub struct SstSummary {
    /// The number of blocks.
    pub blocks: usize,
    /// The number of entries.
    pub entries: u64,
    /// The least sequence number.
    pub least_seqno: u64,
    /// The greatest sequence number.
    pub greatest_seqno: u64,
}

// The handles that are given.
pub(crate) fn run_handles(given: &SstRunHandles) -> RunHandles
    ensures { result ≡ handles_given given.now }
{
    let filter = if given.filter_size == 0 {
        None
    } else {
        Some(BlockHandle::new(BlockOffset(given.filter_offset), given.filter_size))
    };
    RunHandles {
        index: BlockHandle::new(BlockOffset(given.index_offset), given.index_size),
        filter,
    }
}

/// The numbers of a summary, as C has them.
pub(crate) fn summary_told(found: &RunSummary) -> SstSummary
    ensures { result ≡ record {
      blocks = found.now.blocks;
      entries = found.now.entries;
      least_seqno = found.now.least_seqno;
      greatest_seqno = found.now.greatest_seqno;
    } }
{
    SstSummary {
        blocks: found.blocks,
        entries: found.entries,
        least_seqno: found.least_seqno,
        greatest_seqno: found.greatest_seqno,
    }
}

// Checks any bytes and handles, and notes what is counted.
fn check<H: BlockHash>(
    alloc: Global,
    bytes: &[u8],
    handles: &RunHandles,
    summary: &mut SstSummary,
) -> Status
    ensures { IsRunCheck (hashes H.hash64 H.hash128) bytes.now handles.now summary.old summary.new
        result }
{
    match RunRef::<H>::check(alloc, bytes, handles) {
        Ok((_, found)) => {
            *summary = summary_told(&found);
            Status::Done
        }
        Err(error) => Status::Failed(error),
    }
}

/// Checks any bytes and handles as a run by the hash function of a number. Each frame is copied
/// while it is checked.
///
/// Returns 0 and what was counted exactly if they are a sound run: the frames of the blocks follow
/// each other from offset 0, each with its checksums; each block, the index and the filter are
/// encodings; the entries are in order, within a block and across blocks; each handle of the index
/// has the last entry of its block; and the filter, if there is one, may contain each key. Else the
/// number of the first error, 1 excepted, or 15 if an allocation fails, or 17 exactly where no hash
/// function has the number; and `summary` is left.
pub fn check_by(
    alloc: Global,
    bytes: &[u8],
    handles: &SstRunHandles,
    hash: u32,
    summary: &mut SstSummary,
) -> Status
    ensures { IsRunCheckBy hash bytes.now handles.now summary.old summary.new result }
{
    let handles = run_handles(handles);
    match Hash::of_number(hash) {
        Some(Hash::Xxh3) => check::<Xxh3>(alloc, bytes, &handles, summary),
        Some(Hash::Poly31) => check::<Poly31>(alloc, bytes, &handles, summary),
        None => Status::BadArgument,
    }
}

/// Where the payload of a frame begins.
pub(crate) fn start_of(bytes: &[u8], handle: &BlockHandle) -> usize
    requires { IsFrameRange bytes.now handle.now }
    ensures { IsPartAt bytes.now result (payload_in bytes.now handle.now) }
{
    // A slice has fewer than 2^63 bytes.
    let _len = bytes.len();
    *handle.offset() as usize + HEADER_LEN
}

// Where an item of the block in a frame is in a run.
fn place_in(bytes: &[u8], handle: &BlockHandle, item: &DataBlockParsedItem) -> SstPlace
    requires range { IsFrameRange bytes.now handle.now }
    requires item { IsParsedEntry (payload_in bytes.now handle.now) item.now }
    ensures { IsPlaceOf bytes.now result (entry_of (payload_in bytes.now handle.now) item.now) }
{
    place_at(
        bytes,
        start_of(bytes, handle),
        payload_at(bytes, handle),
        item,
    )
}

/// Notes where an entry is that was found, if one was.
pub(crate) fn note(
    bytes: &[u8],
    found: &Option<(BlockHandle, DataBlockParsedItem)>,
    place: &mut SstPlace,
) -> Status
    requires { IsFoundIn bytes.now found.now }
    ensures { IsFind bytes.now (found_entry bytes.now found.now) place.old place.new result }
{
    match found {
        Some(found) => {
            *place = place_in(bytes, &found.0, &found.1);
            Status::Done
        }
        None => Status::NotFound,
    }
}

// Notes where the first entry of a key below a sequence number is.
fn find<H: BlockHash>(
    bytes: &[u8],
    handles: &RunHandles,
    key: &[u8],
    below: SeqNo,
    place: &mut SstPlace,
) -> Status
    requires { IsSoundRun (hashes H.hash64 H.hash128) bytes.now handles.now }
    ensures { ForSound (hashes H.hash64 H.hash128) bytes.now handles.now (λ blocks. IsFind bytes.now
        (first_match entries key.now below (joined blocks)) place.old place.new result) }
{
    let run = RunRef::<H>::new(bytes, handles);
    note(bytes, &run.locate(key, below, &mut Steps::new()), place)
}

/// Finds the first entry of a key strictly below a sequence number in a run by the hash function of
/// a number, by its filter and its index: in bytes and handles that [`check_by`] accepted or
/// [`write_by`] wrote with this number. No memory is taken, and nothing is copied; the offsets
/// of the place are those in the run.
///
/// Returns 0 and where the entry is, a tombstone too; 16 if there is none; or 17 exactly where no
/// hash function has the number. But for 0 `place` is left.
pub fn find_by(
    bytes: &[u8],
    handles: &SstRunHandles,
    hash: u32,
    key: &[u8],
    below_seqno: u64,
    place: &mut SstPlace,
) -> Status
    requires { IsRunBy hash bytes.now handles.now }
    ensures { IsRunFindBy hash bytes.now handles.now key.now below_seqno place.old place.new result }
{
    let handles = run_handles(handles);
    match Hash::of_number(hash) {
        Some(Hash::Xxh3) => find::<Xxh3>(bytes, &handles, key, below_seqno, place),
        Some(Hash::Poly31) => find::<Poly31>(bytes, &handles, key, below_seqno, place),
        None => Status::BadArgument,
    }
}

/// The configuration that is given.
pub(crate) fn config_of(given: &SstRunConfig) -> RunConfig
    ensures { result ≡ config_given given.now }
{
    RunConfig {
        restart_interval: given.restart_interval,
        ratio: HashRatio {
            num: given.num,
            den: given.den,
        },
        bits_per_key: given.bits_per_key,
        index_interval: given.index_interval,
    }
}

// The entries that are given, if they can be written so.
fn checked_items<'a>(
    alloc: Global,
    entries: &[SstEntry<'a>],
    cuts: &[usize],
    config: &RunConfig,
) -> Result<Vec<EntryView<'a>>, Status>
    ensures ok { IfOk result (λ items. CanWrite entries.now cuts.now config.now items.items) }
    ensures refused { IfErr result (λ s. (s ≡ Failed Memory) ⊎ ((s ≡ BadArgument)
        × ((items : List Entry) → CanWrite entries.now cuts.now config.now items → ⊥))) }
{
    if config.restart_interval == 0 || config.index_interval == 0 || config.ratio.den == 0 {
        return Err(Status::BadArgument);
    }
    if entries.is_empty() {
        return Err(Status::BadArgument);
    }
    let items = items_of(alloc, entries)?;
    let parts = items.as_slice();
    if !cuts_fit(parts.len(), cuts) {
        return Err(Status::BadArgument);
    }
    if !DataBlock::<Xxh3>::are_views_ordered(parts) {
        return Err(Status::BadArgument);
    }
    Ok(items)
}

// Writes the run of entries.
fn run_of<H: BlockHash>(
    alloc: Global,
    items: &[EntryView<'_>],
    cuts: &[usize],
    config: RunConfig,
) -> Result<(Vec<u8>, RunHandles), Error>
    requires { (given : List SstEntry) × CanWrite given cuts.now config items.now }
    ensures ok { IfOk result (λ r. IsLayout (run_form (hashes H.hash64 H.hash128) config)
        (blocks_of cuts.now items.now) r.0.items r.1) }
    ensures filter { IfOk result (λ r. IfSome r.1.filter (λ f. 0 < f.size)) }
    ensures cause { IfErr result (λ e. (e ≡ Memory) ⊎ ((e ≡ TooLong)
        × (RunFits (run_form (hashes H.hash64 H.hash128) config) (blocks_of cuts.now items.now)
        → ⊥))) }
{
    sound_opens();
    let mut bytes = Vec::new(alloc);
    match write_run::<H, EntryView<'_>, Vec<u8>>(alloc, &mut bytes, items, cuts, config) {
        Ok(handles) => Ok((bytes, handles)),
        Err(Error::TooLong) => Err(Error::TooLong),
        // A vector fails as a writer where its allocation does.
        Err(_) => Err(Error::Memory),
    }
}

// The handles as C has them.
pub(crate) fn handles_told(handles: &RunHandles) -> SstRunHandles
    requires { IfSome handles.now.filter (λ f. 0 < f.size) }
    ensures { handles_given result ≡ handles.now }
{
    let (filter_offset, filter_size) = match &handles.filter {
        Some(filter) => (*filter.offset(), filter.size()),
        None => (0, 0),
    };
    SstRunHandles {
        index_offset: *handles.index.offset(),
        filter_offset,
        index_size: handles.index.size(),
        filter_size,
    }
}

/// Writes bytes into a buffer, if it has the capacity, and then notes the handles of their run.
pub(crate) fn tell(
    bytes: &[u8],
    found: &RunHandles,
    out: &mut [u8],
    out_len: &mut usize,
    handles: &mut SstRunHandles,
) -> Status
    requires { IfSome found.now.filter (λ f. 0 < f.size) }
    ensures written { IsWrittenOut bytes.now out.old out.new out_len.new result }
    ensures told { AreTold found.now handles.old handles.new result }
{
    match write_bytes(bytes, out, out_len) {
        Status::Done => {
            *handles = handles_told(found);
            Status::Done
        }
        status => status,
    }
}

// Writes the run of the entries that are given into a buffer.
fn write<H: BlockHash>(
    alloc: Global,
    entries: &[SstEntry<'_>],
    cuts: &[usize],
    config: RunConfig,
    out: &mut [u8],
    out_len: &mut usize,
    handles: &mut SstRunHandles,
) -> Status
    ensures { IsRunWrite (hashes H.hash64 H.hash128) entries.now cuts.now config out.old out.new
        out_len.old out_len.new handles.old handles.new result }
{
    let items = match checked_items(alloc, entries, cuts, &config) {
        Ok(items) => items,
        Err(status) => return status,
    };
    match run_of::<H>(alloc, items.as_slice(), cuts, config) {
        Ok((bytes, found)) => tell(bytes.as_slice(), &found, out, out_len, handles),
        Err(error) => Status::Failed(error),
    }
}

/// Writes entries as a run into a buffer: at least one, in order (by key rising, then by sequence
/// number falling), cut into blocks where `cuts` says: the indexes of the entries that begin a
/// block but the first, rising strictly, at least 1 and below the number of entries.
///
/// Returns 0, and the length of the run, which is then the front of `out`, and its handles; 18
/// where `out` is too short, and the length that is needed; 17 exactly where the entries can't be
/// written so: none, one that is not an entry, out of order, cuts that do not fit, an interval or a
/// denominator of 0, or the number of no hash function; 6 only where a block has more than
/// 4294967262 bytes, the filter more than 34359737920 bits, or all frames 2^64 bytes or more; 15 if
/// an allocation fails. But for 0 `out` and `handles` are left, and but for 0 and 18 `out_len`.
pub fn write_by(
    alloc: Global,
    entries: &[SstEntry<'_>],
    cuts: &[usize],
    config: &SstRunConfig,
    out: &mut [u8],
    out_len: &mut usize,
    handles: &mut SstRunHandles,
) -> Status
    ensures { IsRunWriteBy entries.now cuts.now config.now out.old out.new out_len.old out_len.new
        handles.old handles.new result }
{
    let given = config_of(config);
    match Hash::of_number(u32::from(config.hash)) {
        Some(Hash::Xxh3) => write::<Xxh3>(alloc, entries, cuts, given, out, out_len, handles),
        Some(Hash::Poly31) => write::<Poly31>(alloc, entries, cuts, given, out, out_len, handles),
        None => Status::BadArgument,
    }
}
