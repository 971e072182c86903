//! Reading runs.
ghost use Rattle.std.specs.Prelude.{◌≡◌, ◌↔◌, ℕ, ◌+◌, ◌<◌, List, Some, length, IfOk, IfSome};
ghost use Rattle.std.specs.Prelude.{IsOkUnless, OnOk, false};
ghost use Rattle.sst_base.specs.Counted.{CountsExactly, CountsBetween};
ghost use Rattle.sst_base.specs.Entry.{Entry, IsEntry};
ghost use Rattle.sst_block_core.specs.DataBlock.{data_ref_of};
ghost use Rattle.sst_block_core.specs.Entries.{entries};
ghost use Rattle.sst_block_core.specs.Handles.{Handle, IsIndexBlock};
ghost use Rattle.sst_block_core.specs.IndexBlock.{index_ref_of};
ghost use Rattle.sst_block_core.specs.Intervals.{digits};
ghost use Rattle.sst_block_core.specs.ParsedEntry.{entry_of};
ghost use Rattle.sst_block_core.specs.Payload.{IsBlock};
ghost use Rattle.sst_block_core.specs.Pointers.{head_count};
ghost use Rattle.sst_block_core.specs.Stages.{items_in};
ghost use Rattle.sst_block_core.specs.Trailer.{trailer_in};
ghost use Rattle.sst_block_core.specs.Window.{first_match};
ghost use Rattle.sstable_blocks.specs.Blocks.{joined};
ghost use Rattle.sstable_blocks.specs.Opened.{IsDenied, IsFoundIn, IsFrameRange, found_entry};
ghost use Rattle.sstable_blocks.specs.Opened.{payload_in};
ghost use Rattle.sstable_blocks.specs.ReadCosts.{CountsRead};
ghost use Rattle.sstable_blocks.specs.RunReading.{hashes};
ghost use Rattle.sstable_blocks.specs.Sound.{ForSound, IsSoundRun};

use crate::run::RunHandles;
use crate::run::laws::sound_opens;
use crate::run::open_filter::OpenFilter;
use crate::run::run_ref::item_by_index;
use crate::run::search::{DataSearchRef, IndexSearch};
use sst_base::table::block::header::HEADER_LEN;
use sst_base::{
    AllocResult, BlockHandle, BlockHash, Error, InternalValue, Result, SeqNo, Slice, Steps,
};
use sst_block_core::ParsedItem;
use sst_block_core::table::data_block::{DataBlockParsedItem, DataBlockRef};
use sst_block_core::table::index_block::IndexBlockRef;
use std::alloc::Global;

/// Returns the payload of a frame in bytes, which begins after its header. Nothing is tested.
#[tactic(auto, using(crate::specs::PointLaws::payload_range), unfolding(crate::specs::Opened::payload_in))]
pub fn payload_at<'a>(bytes: &'a [u8], handle: &BlockHandle) -> &'a [u8]
    requires { IsFrameRange bytes.now handle.now }
    ensures { result.now ≡ payload_in bytes.now handle.now }
{
    let size = handle.size();
    let start = *handle.offset() as usize;
    &bytes[start + HEADER_LEN..start + size as usize]
}

// Whether a run can have a key of this hash, by its filter. It can where there is none.
fn is_allowed(bytes: &[u8], filter: &Option<BlockHandle>, hash: u64) -> bool
    requires { IfSome filter.now (IsFrameRange bytes.now) }
    ensures { (result ≡ false) ↔ IsDenied bytes.now filter.now hash }
{
    OpenFilter::new(bytes, filter).allows(hash)
}

/// Returns the index block in a frame of bytes, which it borrows. Nothing is tested, and it has no
/// table of its heads.
#[tactic(auto, using(crate::specs::RunLaws::payload_fits))]
pub fn index_over<'a>(bytes: &'a [u8], handle: &BlockHandle) -> IndexBlockRef<'a>
    requires range { IsFrameRange bytes.now handle.now }
    requires index { (items : List Handle) × (r : ℕ)
        × IsIndexBlock (payload_in bytes.now handle.now) items r }
    ensures parts { result ≡ index_ref_of (payload_in bytes.now handle.now) false }
    ensures read { (items : List Handle) (r : ℕ) → IsIndexBlock (payload_in bytes.now handle.now)
        items r
        → (result.items ≡ items) × (result.interval ≡ r) }
{
    // A size has 32 bits.
    let _fits = handle.size();
    IndexBlockRef::new(payload_at(bytes, handle))
}

// The data block in a frame, over the same bytes.
#[tactic(auto, using(crate::specs::RunLaws::payload_fits))]
pub(crate) fn block_over<'a, H: BlockHash>(
    bytes: &'a [u8],
    handle: &BlockHandle,
) -> DataBlockRef<'a, H>
    requires range { IsFrameRange bytes.now handle.now }
    requires block { (items : List Entry) × (r : ℕ) × (b : ℕ)
        × IsBlock entries IsEntry H.hash64 (payload_in bytes.now handle.now) items r b }
    ensures { result ≡ data_ref_of (payload_in bytes.now handle.now) false }
{
    // A size has 32 bits.
    let _fits = handle.size();
    DataBlockRef::new(payload_at(bytes, handle))
}

// The same, to be searched.
fn search_over<'a, H: BlockHash>(bytes: &'a [u8], handle: &BlockHandle) -> DataSearchRef<'a, H>
    requires range { IsFrameRange bytes.now handle.now }
    requires block { (items : List Entry) × (r : ℕ) × (b : ℕ)
        × IsBlock entries IsEntry H.hash64 (payload_in bytes.now handle.now) items r b }
    ensures { result ≡ data_ref_of (payload_in bytes.now handle.now) false }
{
    DataSearchRef::new(block_over::<H>(bytes, handle))
}

// Where the first match in the block in a frame is.
#[tactic(auto, using(crate::specs::PointLaws::ref_heads, crate::specs::PointLaws::ref_entries))]
pub(crate) fn item_in<H: BlockHash>(
    bytes: &[u8],
    handle: BlockHandle,
    needle: &[u8],
    seqno: SeqNo,
    steps: &mut Steps,
) -> Option<(BlockHandle, DataBlockParsedItem)>
    requires range { IsFrameRange bytes.now handle }
    requires block { (items : List Entry) × (r : ℕ) × (b : ℕ)
        × IsBlock entries IsEntry H.hash64 (payload_in bytes.now handle) items r b }
    ensures found { found_entry bytes.now result ≡ first_match entries needle.now seqno
        (items_in entries (payload_in bytes.now handle)) }
    ensures place { IsFoundIn bytes.now result }
    ensures counts { let p = payload_in bytes.now handle in CountsBetween steps.old steps.new (0, 0) (
      digits (head_count (trailer_in p).interval (length (items_in entries p))),
      (trailer_in p).interval + 1,
    ) }
{
    match search_over::<H>(bytes, &handle).find(needle, seqno, steps) {
        Some(item) => Some((handle, item)),
        None => None,
    }
}

/// The payload in a frame, which shares the bytes.
#[tactic(auto, using(crate::specs::PointLaws::payload_range), unfolding(crate::specs::Opened::payload_in))]
pub(crate) fn shared_payload(bytes: &Slice, handle: &BlockHandle) -> AllocResult<Slice>
    requires { IsFrameRange bytes.now handle.now }
    ensures { IfOk result (λ p. p ≡ payload_in bytes.now handle.now) }
{
    // A slice has fewer than 2^63 bytes.
    let _fits = bytes.len();
    let start = *handle.offset() as usize;
    bytes.part(start + HEADER_LEN..start + handle.size() as usize)
}

/// Makes the entry at a place in these bytes that [`RunRef::locate`](super::RunRef::locate)
/// returned. Its value, and its key where that is encoded in full, share the bytes.
///
/// # Errors
///
/// `Error::Memory` if an allocation fails.
#[inline(never)]
pub fn shared_entry(
    alloc: Global,
    bytes: &Slice,
    place: &(BlockHandle, DataBlockParsedItem),
) -> Result<InternalValue>
    requires { IsFoundIn bytes.now (Some place.now) }
    ensures ok { IfOk result
        (λ entry. entry ≡ entry_of (payload_in bytes.now place.now.0) place.now.1) }
    ensures memory { IsOkUnless result Error.Memory }
{
    let payload = shared_payload(bytes, &place.0)?;
    Ok(place.1.materialize(alloc, &payload)?)
}

/// Returns the first entry of a run with this key whose sequence number is strictly below `seqno`.
/// A tombstone has no value.
///
/// The bytes and the handles are a sound run, as `write_run` writes one of any configuration.
/// Nothing of it is tested, and no checksum is computed: the frames are taken by their ranges, and
/// their payloads are sub-slices of the bytes.
///
/// The filter is queried first. Where it rules the key out, nothing else is read. Else the index
/// leads to the one block that can hold the key. What is examined is added to `steps`: at least a
/// head of the index, and at most as many heads as the numbers of heads of the index and of the
/// block have binary digits; one handle, and those of a restart interval of the index where not
/// each handle is a head; and the entries of a restart interval of the block, and one more.
///
/// # Errors
///
/// `Error::Memory` if an allocation fails.
pub fn read_entry<H: BlockHash>(
    alloc: Global,
    bytes: &Slice,
    handles: &RunHandles,
    needle: &[u8],
    seqno: SeqNo,
    steps: &mut Steps,
) -> Result<Option<InternalValue>>
    requires sound { IsSoundRun (hashes H.hash64 H.hash128) bytes.now handles.now }
    ensures found { ForSound (hashes H.hash64 H.hash128) bytes.now handles.now
        (λ blocks. IfOk result (λ item. item ≡ first_match entries needle.now seqno
        (joined blocks))) }
    ensures memory { IsOkUnless result Error.Memory }
    ensures counts { CountsRead bytes.now handles.now needle.now seqno steps.old steps.new }
    ensures looked { OnOk result ((IsDenied bytes.now handles.now.filter (H.hash64 needle.now) → ⊥)
        → steps.old.heads < steps.new.heads) }
    ensures denied { IsDenied bytes.now handles.now.filter (H.hash64 needle.now)
        → CountsExactly steps.old steps.new 0 0 }
{
    sound_opens();
    let data = bytes.as_slice();
    if !is_allowed(data, &handles.filter, H::hash64(needle)) {
        return Ok(None);
    }
    let index = IndexSearch::new(index_over(data, &handles.index));
    match item_by_index::<H>(data, handles, &index, needle, seqno, steps) {
        None => Ok(None),
        Some(place) => Ok(Some(shared_entry(alloc, bytes, &place)?)),
    }
}
