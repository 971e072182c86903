//! Runs written block by block: what is known of the blocks is in arrays of the caller.
ghost use Rattle.std.specs.Prelude.{◌≡◌, ◌⊎◌, ◌+◌, ◌≤◌, ◌<◌, ◌++◌, List, length, map, drop, IfOk};
ghost use Rattle.std.specs.Prelude.{IfErr, IfSome, IsNone, OnOk};
ghost use Rattle.std.specs.List.{AllByRecursion};
ghost use Rattle.sst_calls.specs.Given.{CanEncode, IsWrittenOut};
ghost use Rattle.sst_calls.specs.Index.{handle_given};
ghost use Rattle.sst_calls.specs.RunWrites.{frames_length, AreHashedIf, CanEnd, CanWriteBlock};
ghost use Rattle.sst_calls.specs.RunWrites.{EndFitsRun, EndsRun, FilterFits, IsBlockWrite};
ghost use Rattle.sst_calls.specs.RunWrites.{IsEndWrite, IsFilterAppended, IsPartAppended, IsRunEnd};
ghost use Rattle.sst_calls.specs.RunWrites.{IsBlockWriteBy, IsEndWriteBy};
ghost use Rattle.sst_calls.specs.Runs.{run_form};
ghost use Rattle.sst_calls.specs.declared.codes.Status.TheVariants.{Failed, BadArgument};
ghost use Rattle.sst_calls.specs.declared.entries.SstEntry.{SstEntry};
ghost use Rattle.sst_calls.specs.declared.handles.SstKeyedHandle.{SstKeyedHandle};
ghost use Rattle.sstable_blocks.specs.Prelude.{Entry, EndFits, hashes as run_hashes};
ghost use Rattle.sstable_blocks.specs.Results.{Memory, TooLong};
ghost use Rattle.sstable_blocks.specs.Run.{block_frame, block_payload, IsFramed};
ghost use Rattle.sstable_blocks.specs.Sound.{AreContiguous};
ghost use Rattle.sstable_blocks.specs.Writing.{PartFits};

use crate::codes::Status;
use crate::data_block::checked_items;
use crate::entries::SstEntry;
use crate::filter::payload_of_hashes;
use crate::handles::SstKeyedHandle;
use crate::hash::Hash;
use crate::index_block;
use crate::output::write_bytes;
use crate::run::{SstRunConfig, SstRunHandles, config_of, tell};
use sstable_blocks::run::laws::handles_are_ready;
use sstable_blocks::run::write_part;
use sstable_blocks::table::filter::policy::BloomConstructionPolicy;
use sstable_blocks::{
    BlockHandle, BlockHash, BlockType, DataBlock, EntryView, Error, IndexBlock, KeyedBlockHandle,
    Poly31, RunConfig, RunHandles, Xxh3,
};
use std::alloc::Global;

// Appends the frame of a payload, which begins at an offset of the run. Returns its handle, and the
// offset after it.
fn append_frame<H: BlockHash>(
    bytes: &mut Vec<u8>,
    payload: &[u8],
    block_type: BlockType,
    offset: u64,
) -> Result<(BlockHandle, u64), Error>
    ensures appended { IfOk result (λ r. IsPartAppended H.hash128 block_type offset payload.now
        bytes.old.items bytes.new.items r.0) }
    ensures end { IfOk result (λ r. r.1 ≡ offset + (33 + length payload.now)) }
    ensures cause { IfErr result
        (λ e. (e ≡ Memory) ⊎ ((e ≡ TooLong) × (PartFits offset payload.now → ⊥))) }
{
    match write_part::<H, Vec<u8>>(bytes, payload, block_type, offset) {
        Ok(part) => Ok(part),
        Err(Error::TooLong) => Err(Error::TooLong),
        // A vector fails as a writer where its allocation does.
        Err(_) => Err(Error::Memory),
    }
}

// The frame of the block of entries.
#[tactic(auto, unfolding(sstable_blocks::specs::Run::block_payload))]
fn frame_of<H: BlockHash>(
    alloc: Global,
    items: &[EntryView<'_>],
    config: &RunConfig,
) -> Result<Vec<u8>, Error>
    requires { (given : List SstEntry)
        × CanEncode given config.now.restart_interval config.now.ratio.den items.now }
    ensures ok { IfOk result (λ v. v.items
        ≡ block_frame (run_form (run_hashes H.hash64 H.hash128) config.now) items.now) }
    ensures fits { OnOk result (IsFramed
        (block_payload (run_form (run_hashes H.hash64 H.hash128) config.now) items.now)) }
    ensures cause { IfErr result (λ e. (e ≡ Memory) ⊎ ((e ≡ TooLong) × (IsFramed
        (block_payload (run_form (run_hashes H.hash64 H.hash128) config.now) items.now) → ⊥))) }
{
    let mut payload = Vec::new(alloc);
    DataBlock::<H>::encode_into(&mut payload, items, config.restart_interval, config.ratio)?;
    let mut bytes = Vec::new(alloc);
    append_frame::<H>(&mut bytes, payload.as_slice(), BlockType::Data, 0)?;
    Ok(bytes)
}

// Writes the hash of the key of each entry at the front of an array.
fn write_hashes<H: BlockHash>(entries: &[SstEntry<'_>], hashes: &mut [u64])
    requires { length entries.now ≤ length hashes.old }
    ensures { hashes.new ≡ map (λ e. H.hash64 e.key.now) entries.now
        ++ drop (length entries.now) hashes.old }
{
    for i in 0..entries.len() {
        hashes[i] = H::hash64(entries[i].key);
    }
}

// The entries that are given, if they can be written as a block of a run.
fn block_items<'a>(
    alloc: Global,
    entries: &[SstEntry<'a>],
    config: &RunConfig,
    capacity: usize,
) -> Result<Vec<EntryView<'a>>, Status>
    ensures ok { IfOk result (λ items. CanWriteBlock entries.now config.now capacity items.items) }
    ensures refused { IfErr result (λ s. (s ≡ Failed Memory) ⊎ ((s ≡ BadArgument)
        × ((items : List Entry) → CanWriteBlock entries.now config.now capacity items → ⊥))) }
{
    if config.index_interval == 0 || (config.bits_per_key > 0 && capacity < entries.len()) {
        return Err(Status::BadArgument);
    }
    checked_items(alloc, entries, config.restart_interval, config.ratio)
}

// Writes the frame of a block into a buffer, if it has the capacity, and then the hashes of its
// keys.
fn write_hashed<H: BlockHash>(
    frame: &[u8],
    entries: &[SstEntry<'_>],
    bits: u32,
    out: &mut [u8],
    out_len: &mut usize,
    hashes: &mut [u64],
) -> Status
    requires { 1 ≤ bits → length entries.now ≤ length hashes.old }
    ensures written { IsWrittenOut frame.now out.old out.new out_len.new result }
    ensures hashed { AreHashedIf bits (map (λ e. H.hash64 e.key.now) entries.now) hashes.old
        hashes.new result }
{
    match write_bytes(frame, out, out_len) {
        Status::Done => {
            if bits > 0 {
                write_hashes::<H>(entries, hashes);
            }
            Status::Done
        }
        status => status,
    }
}

// Writes the block of the entries that are given into a buffer, and the hashes of their keys.
fn write_block<H: BlockHash>(
    alloc: Global,
    entries: &[SstEntry<'_>],
    config: &RunConfig,
    out: &mut [u8],
    out_len: &mut usize,
    hashes: &mut [u64],
) -> Status
    ensures { IsBlockWrite (run_hashes H.hash64 H.hash128) entries.now config.now out.old out.new
        out_len.old out_len.new hashes.old hashes.new result }
{
    let items = match block_items(alloc, entries, config, hashes.len()) {
        Ok(items) => items,
        Err(status) => return status,
    };
    match frame_of::<H>(alloc, items.as_slice(), config) {
        Ok(frame) => write_hashed::<H>(&frame, entries, config.bits_per_key, out, out_len, hashes),
        Err(error) => Status::Failed(error),
    }
}

/// Writes entries as the next block of a run: the frame that
/// [`run::write_by`](crate::run::write_by) writes of a block of these entries. In the run it
/// begins where the frame of the block before ends, the first one at offset 0. Writes the hashes of
/// the entries' keys too, in their order, at the front of `hashes`, if there are bits for a filter.
///
/// Returns 0, and the length of the frame, which is then the front of `out`; 18 where `out` is too
/// short, and the length that is needed; 17 exactly where the entries can't be written so: none,
/// one that is not an entry, out of order, an interval or a denominator of 0, the number of no hash
/// function, or, if there are bits, fewer elements of `hashes` than entries; 6 only where the block
/// has more than 4294967262 bytes; 15 if an allocation fails. But for 0 `out` and `hashes` are
/// left, and but for 0 and 18 `out_len`.
pub fn write_block_by(
    alloc: Global,
    entries: &[SstEntry<'_>],
    config: &SstRunConfig,
    out: &mut [u8],
    out_len: &mut usize,
    hashes: &mut [u64],
) -> Status
    ensures { IsBlockWriteBy entries.now config.now out.old out.new out_len.old out_len.new
        hashes.old hashes.new result }
{
    let given = config_of(config);
    match Hash::of_number(u32::from(config.hash)) {
        Some(Hash::Xxh3) => write_block::<Xxh3>(alloc, entries, &given, out, out_len, hashes),
        Some(Hash::Poly31) => write_block::<Poly31>(alloc, entries, &given, out, out_len, hashes),
        None => Status::BadArgument,
    }
}

// Appends the frame of the filter of hashes, if there are bits, which begins at an offset of the
// run. Returns its handle.
fn append_filter<H: BlockHash>(
    alloc: Global,
    bytes: &mut Vec<u8>,
    hashes: &[u64],
    bits: u32,
    offset: u64,
) -> Result<Option<BlockHandle>, Error>
    requires { 1 ≤ bits → 1 ≤ length hashes.now }
    ensures appended { IfOk result (λ h. IsFilterAppended H.hash128 bits hashes.now offset
        bytes.old.items bytes.new.items h) }
    ensures cause { IfErr result (λ e. (e ≡ Memory)
        ⊎ ((e ≡ TooLong) × (FilterFits bits (length hashes.now) offset → ⊥))) }
{
    if bits == 0 {
        return Ok(None);
    }
    if !BloomConstructionPolicy::BitsPerKey(bits).fits(hashes.len()) {
        return Err(Error::TooLong);
    }
    let payload = payload_of_hashes(alloc, hashes, bits)?;
    let (handle, _) = append_frame::<H>(bytes, &payload, BlockType::Filter, offset)?;
    Ok(Some(handle))
}

// The index of handles and the filter of hashes, whose frames begin at an offset of the run.
fn end_of<H: BlockHash>(
    alloc: Global,
    items: &[KeyedBlockHandle],
    offset: u64,
    hashes: &[u64],
    config: &RunConfig,
) -> Result<(Vec<u8>, RunHandles), Error>
    requires can { (given : List SstKeyedHandle) × (items.now ≡ map handle_given given)
        × CanEnd given hashes.now config.now }
    requires offset { offset ≡ frames_length items.now }
    ensures ok { IfOk result (λ r. IsRunEnd (run_form (run_hashes H.hash64 H.hash128) config.now)
        items.now hashes.now r.0.items r.1) }
    ensures filter { IfOk result (λ r. IfSome r.1.filter (λ f. 0 < f.size)) }
    ensures cause { IfErr result (λ e. (e ≡ Memory) ⊎ ((e ≡ TooLong)
        × (EndFitsRun (run_form (run_hashes H.hash64 H.hash128) config.now) items.now
        (length hashes.now) → ⊥))) }
{
    let payload = IndexBlock::encode_into_vec_with(alloc, items, config.index_interval)?;
    let mut bytes = Vec::new(alloc);
    let (index, end) = append_frame::<H>(&mut bytes, &payload, BlockType::Index, offset)?;
    let filter = append_filter::<H>(alloc, &mut bytes, hashes, config.bits_per_key, end)?;
    Ok((bytes, RunHandles { index, filter }))
}

// The offset after the frames of handles, if they follow each other from offset 0.
fn frames_end(items: &[KeyedBlockHandle]) -> Option<u64>
    requires { AllByRecursion EndFits items.now }
    ensures some { IfSome result (λ end. AreContiguous 0 items.now) }
    ensures end { IfSome result (λ end. end ≡ frames_length items.now) }
    ensures none { IsNone result → AreContiguous 0 items.now → ⊥ }
{
    let mut end = 0;
    for item in items {
        if *item.offset() != end {
            return None;
        }
        end += u64::from(item.size());
    }
    Some(end)
}

// The handles that are given, and the offset after their frames, if a run can end with them.
fn end_items(
    alloc: Global,
    given: &[SstKeyedHandle<'_>],
    hashes: &[u64],
    config: &RunConfig,
) -> Result<(Vec<KeyedBlockHandle>, u64), Status>
    ensures ok { IfOk result (λ r. r.0.items ≡ map handle_given given.now) }
    ensures can { IfOk result (λ r. CanEnd given.now hashes.now config.now) }
    ensures end { IfOk result (λ r. r.1 ≡ frames_length r.0.items) }
    ensures refused { IfErr result (λ s. (s ≡ Failed Memory)
        ⊎ ((s ≡ BadArgument) × (CanEnd given.now hashes.now config.now → ⊥))) }
{
    if config.restart_interval == 0 || config.ratio.den == 0 {
        return Err(Status::BadArgument);
    }
    if config.bits_per_key > 0 && hashes.is_empty() {
        return Err(Status::BadArgument);
    }
    let items = index_block::checked_items(alloc, given, config.index_interval)?;
    match frames_end(items.as_slice()) {
        Some(end) => Ok((items, end)),
        None => Err(Status::BadArgument),
    }
}

// Writes the end of a run into a buffer.
fn write_end<H: BlockHash>(
    alloc: Global,
    given: &[SstKeyedHandle<'_>],
    hashes: &[u64],
    config: &RunConfig,
    out: &mut [u8],
    out_len: &mut usize,
    run_handles: &mut SstRunHandles,
) -> Status
    ensures { IsEndWrite (run_hashes H.hash64 H.hash128) given.now hashes.now config.now out.old
        out.new out_len.old out_len.new run_handles.old run_handles.new result }
{
    let (items, offset) = match end_items(alloc, given, hashes, config) {
        Ok(found) => found,
        Err(status) => return status,
    };
    match end_of::<H>(alloc, items.as_slice(), offset, hashes, config) {
        Ok((bytes, handles)) => tell(&bytes, &handles, out, out_len, run_handles),
        Err(error) => Status::Failed(error),
    }
}

// Writes the end of a run into a buffer, which after the frames of blocks makes these a run.
fn end_run<H: BlockHash>(
    alloc: Global,
    given: &[SstKeyedHandle<'_>],
    hashes: &[u64],
    config: &RunConfig,
    out: &mut [u8],
    out_len: &mut usize,
    run_handles: &mut SstRunHandles,
) -> Status
    ensures written { IsEndWrite (run_hashes H.hash64 H.hash128) given.now hashes.now config.now
        out.old out.new out_len.old out_len.new run_handles.old run_handles.new result }
    ensures ends { EndsRun (run_form (run_hashes H.hash64 H.hash128) config.now)
        (map handle_given given.now) hashes.now out.new out_len.new run_handles.new result }
{
    handles_are_ready();
    // An interval has 8 bits.
    let (_restart, _index) = (config.restart_interval, config.index_interval);
    write_end::<H>(alloc, given, hashes, config, out, out_len, run_handles)
}

/// Ends a run whose blocks are written: writes the frames of their index and of the filter, which
/// follow the blocks' frames. `handles` has a handle for each block, in their order: the key and
/// the sequence number of its last entry, and where its frame is. `hashes` has the hashes of all
/// keys, in the order of the blocks; without bits for a filter none is examined.
///
/// Where each block is written by [`write_block_by`] with this configuration, and none begins
/// with an entry that sorts before the last one of the block before, the frames of the blocks, and
/// then what this call writes, are the run of these blocks, as
/// [`run::write_by`](crate::run::write_by) writes it.
///
/// Returns 0, the number of bytes, which are then the front of `out`, and the handles of the run;
/// 18 where `out` is too short, and the length that is needed; 17 exactly where no run can end so:
/// no handle, an end key of more than 65535 bytes, handles out of order, frames that do not follow
/// each other from offset 0, one that ends at 2^64 or above, an interval or a denominator of 0, the
/// number of no hash function, or, if there are bits, no hash; 6 only where the index has more than
/// 4294967262 bytes, the filter more than 34359737920 bits, or all frames 2^64 bytes or more; 15 if
/// an allocation fails. But for 0 `out` and `run_handles` are left, and but for 0 and 18 `out_len`.
pub fn end_run_by(
    alloc: Global,
    handles: &[SstKeyedHandle<'_>],
    hashes: &[u64],
    config: &SstRunConfig,
    out: &mut [u8],
    out_len: &mut usize,
    run_handles: &mut SstRunHandles,
) -> Status
    ensures { IsEndWriteBy handles.now hashes.now config.now out.old out.new out_len.old out_len.new
        run_handles.old run_handles.new result }
{
    let given = config_of(config);
    match Hash::of_number(u32::from(config.hash)) {
        Some(Hash::Xxh3) => end_run::<Xxh3>(
            alloc,
            handles,
            hashes,
            &given,
            out,
            out_len,
            run_handles,
        ),
        Some(Hash::Poly31) => end_run::<Poly31>(
            alloc,
            handles,
            hashes,
            &given,
            out,
            out_len,
            run_handles,
        ),
        None => Status::BadArgument,
    }
}
