//! Data blocks.
ghost use Rattle.std.specs.Prelude.{◌≡◌, ◌⊎◌, ◌+◌, ◌≤◌, ◌<◌, ◌^◌, List, length, IfOk, IfErr};
ghost use Rattle.sst_calls.specs.Blocks.{bytes_behind, IsAnswer, IsDataBlock, IsFind, IsPartAt};
ghost use Rattle.sst_calls.specs.Blocks.{IsPlaceOf, IsBlockBy, IsFindBy};
ghost use Rattle.sst_calls.specs.Checks.{IsCheck, IsRefusedOrLacks, IsDataCheckBy};
ghost use Rattle.sst_calls.specs.declared.codes.Status.TheVariants.{Failed, BadArgument};
ghost use Rattle.sst_calls.specs.Given.{CanEncode, IsEncode, IsEncodeBy};
ghost use Rattle.sstable_blocks.specs.Prelude.{Entry, entries, IsOptionalRange, optional_range};
ghost use Rattle.sstable_blocks.specs.Prelude.{items_in, first_match, data_check, trailer_in};
ghost use Rattle.sstable_blocks.specs.Prelude.{entry_of, IsParsedEntry};
ghost use Rattle.sstable_blocks.specs.Results.{Memory};

use crate::codes::Status;
use crate::entries::{SstEntry, items_of};
use crate::hash::Hash;
use crate::output::write_bytes;
use sstable_blocks::table::data_block::{DataBlockParsedItem, DataBlockRef};
use sstable_blocks::table::util::SliceIndexes;
use sstable_blocks::{BlockHash, DataBlock, EntryView, HashRatio, Poly31, SeqNo, Steps, Xxh3};
use std::alloc::Global;

/// Where the parts of an entry are in a payload: its user key is the prefix and then the key's own
/// bytes. An offset counts bytes from the start of the payload.
#[repr(C)]
#[derive(Drop)]
pub struct SstPlace {
    /// The sequence number.
    pub seqno: u64,
    /// Where the prefix begins that the key shares with another entry's.
    pub prefix_offset: usize,
    /// The length of the prefix; 0 for a key that is stored whole.
    pub prefix_len: usize,
    /// Where the key's own bytes begin.
    pub key_offset: usize,
    /// The number of the key's own bytes.
    pub key_len: usize,
    /// Where the value begins.
    pub value_offset: usize,
    /// The length of the value; 0 for a tombstone.
    pub value_len: usize,
    /// The byte of the value type: 0 value, 1 tombstone, 2 weak tombstone, 4 indirection.
    pub value_type: u8,
}

/// The offset and the length of a range, if there is one.
pub(crate) fn place_of_range(payload: &[u8], range: &Option<SliceIndexes>) -> (usize, usize)
    requires { IsOptionalRange payload.now range.now }
    ensures bytes { bytes_behind payload.now result.0 result.1 ≡ optional_range payload.now
        range.now }
    ensures inside { result.0 + result.1 ≤ length payload.now }
{
    match range {
        Some(range) => (range.0, range.1 - range.0),
        None => (0, 0),
    }
}

// Where a parsed item's parts are.
fn place_of(payload: &[u8], item: &DataBlockParsedItem) -> SstPlace
    requires { IsParsedEntry payload.now item.now }
    ensures { IsPlaceOf payload.now result (entry_of payload.now item.now) }
{
    let prefix = place_of_range(payload, &item.prefix);
    let value = place_of_range(payload, &item.value);
    SstPlace {
        seqno: item.seqno,
        prefix_offset: prefix.0,
        prefix_len: prefix.1,
        key_offset: item.key.0,
        key_len: item.key.1 - item.key.0,
        value_offset: value.0,
        value_len: value.1,
        value_type: u8::from(item.value_type),
    }
}

// A place in bytes, by that in a part of them which begins at an offset.
fn place_behind(start: usize, place: SstPlace) -> SstPlace
    requires prefix { start + place.prefix_offset < 2 ^ 64 }
    requires key { start + place.key_offset < 2 ^ 64 }
    requires value { start + place.value_offset < 2 ^ 64 }
    ensures { result ≡ record place {
      prefix_offset = start + place.prefix_offset;
      key_offset = start + place.key_offset;
      value_offset = start + place.value_offset;
    } }
{
    SstPlace {
        prefix_offset: start + place.prefix_offset,
        key_offset: start + place.key_offset,
        value_offset: start + place.value_offset,
        ..place
    }
}

/// Where the parts of a payload's item are in the bytes that have the payload in them.
pub(crate) fn place_at(
    bytes: &[u8],
    start: usize,
    payload: &[u8],
    item: &DataBlockParsedItem,
) -> SstPlace
    requires part { IsPartAt bytes.now start payload.now }
    requires item { IsParsedEntry payload.now item.now }
    ensures { IsPlaceOf bytes.now result (entry_of payload.now item.now) }
{
    // A slice has fewer than 2^63 bytes.
    let _len = bytes.len();
    place_behind(start, place_of(payload, item))
}

// Where the first entry of a key below a sequence number is.
fn find<H: BlockHash>(payload: &[u8], key: &[u8], below: SeqNo) -> Option<SstPlace>
    requires { IsDataBlock H.hash64 payload.now }
    ensures { IsAnswer payload.now result
        (first_match entries key.now below (items_in entries payload.now)) }
{
    let block = DataBlockRef::<H>::new(payload);
    match block.find(key, below, &mut Steps::new()) {
        Some(item) => Some(place_of(payload, &item)),
        None => None,
    }
}

// Notes where the first entry of a key below a sequence number is.
fn note_found<H: BlockHash>(
    payload: &[u8],
    key: &[u8],
    below: SeqNo,
    place: &mut SstPlace,
) -> Status
    requires { IsDataBlock H.hash64 payload.now }
    ensures { IsFind payload.now
        (first_match entries key.now below (items_in entries payload.now)) place.old place.new
        result }
{
    match find::<H>(payload, key, below) {
        Some(found) => {
            *place = found;
            Status::Done
        }
        None => Status::NotFound,
    }
}

/// Finds the first entry of a key strictly below a sequence number, in bytes that are known to be a
/// data block by the hash function of a number: those that [`check_by`] accepted or
/// [`encode_by`] wrote with this number. No memory is taken, and nothing is copied.
///
/// Returns 0 and where the entry is, a tombstone too; 16 if there is none; or 17 exactly where no
/// hash function has the number. But for 0 `place` is left.
pub fn find_by(
    payload: &[u8],
    hash: u32,
    key: &[u8],
    below_seqno: u64,
    place: &mut SstPlace,
) -> Status
    requires { IsBlockBy hash payload.now }
    ensures { IsFindBy hash payload.now key.now below_seqno place.old place.new result }
{
    match Hash::of_number(hash) {
        Some(Hash::Xxh3) => note_found::<Xxh3>(payload, key, below_seqno, place),
        Some(Hash::Poly31) => note_found::<Poly31>(payload, key, below_seqno, place),
        None => Status::BadArgument,
    }
}

// Checks any bytes, and notes the number of entries.
fn check<H: BlockHash>(alloc: Global, payload: &[u8], count: &mut usize) -> Status
    ensures { IsCheck (IsDataBlock H.hash64 payload.now)
        (IsRefusedOrLacks (0 < (trailer_in payload.now).hash_len) payload.now
        (data_check H.hash64 payload.now) count.old count.new)
        (length (items_in entries payload.now)) count.new result }
{
    match DataBlockRef::<H>::check(alloc, payload) {
        Ok(block) => {
            *count = block.len();
            Status::Done
        }
        Err(error) => Status::Failed(error),
    }
}

/// Checks any bytes as a data block, whose hash index is by the hash function of a number.
///
/// Returns 0 and the number of entries exactly if they are the encoding of some ordered, non-empty
/// list of entries; 6 exactly if there are 2^32 bytes or more; 7 to 12 for the first stage of the
/// check that fails; 15 only if an allocation fails, which is made where buckets are stored; 17
/// exactly where no hash function has the number. But for 0 `count` is left.
pub fn check_by(alloc: Global, payload: &[u8], hash: u32, count: &mut usize) -> Status
    ensures { IsDataCheckBy hash payload.now count.old count.new result }
{
    match Hash::of_number(hash) {
        Some(Hash::Xxh3) => check::<Xxh3>(alloc, payload, count),
        Some(Hash::Poly31) => check::<Poly31>(alloc, payload, count),
        None => Status::BadArgument,
    }
}

/// The entries that are given, if they can be encoded, over the same bytes.
pub(crate) fn checked_items<'a>(
    alloc: Global,
    entries: &[SstEntry<'a>],
    interval: u8,
    ratio: HashRatio,
) -> Result<Vec<EntryView<'a>>, Status>
    ensures ok { IfOk result (λ items. CanEncode entries.now interval ratio.den items.items) }
    ensures refused { IfErr result (λ s. (s ≡ Failed Memory) ⊎ ((s ≡ BadArgument)
        × ((items : List Entry) → CanEncode entries.now interval ratio.den items → ⊥))) }
{
    if interval == 0 || ratio.den == 0 || entries.is_empty() {
        return Err(Status::BadArgument);
    }
    let items = items_of(alloc, entries)?;
    if !DataBlock::<Xxh3>::are_views_ordered(items.as_slice()) {
        return Err(Status::BadArgument);
    }
    Ok(items)
}

// Encodes the entries that are given into a buffer.
fn encode<H: BlockHash>(
    alloc: Global,
    entries: &[SstEntry<'_>],
    interval: u8,
    ratio: HashRatio,
    out: &mut [u8],
    out_len: &mut usize,
) -> Status
    ensures { IsEncode H.hash64 entries.now interval ratio.num ratio.den out.old out.new
        out_len.old out_len.new result }
{
    let items = match checked_items(alloc, entries, interval, ratio) {
        Ok(items) => items,
        Err(status) => return status,
    };
    let mut payload = Vec::new(alloc);
    match DataBlock::<H>::encode_into(&mut payload, items.as_slice(), interval, ratio) {
        Ok(()) => write_bytes(payload.as_slice(), out, out_len),
        Err(error) => Status::Failed(error),
    }
}

/// Encodes entries as a data block into a buffer: at least one, in order (by key rising, then by
/// sequence number falling), at a restart interval of at least 1, with `num / den` buckets of the
/// hash index for each entry (0 and 1 for none), which are by the hash function of a number.
///
/// Returns 0, and the length of the block, which is then the front of `out`; 18 where `out` is too
/// short, and the length that is needed; 17 exactly where the entries can't be encoded: none, one
/// that is not an entry, out of order, an interval or a denominator of 0, or the number of no hash
/// function; 6 only where the block has 2^32 bytes or more; 15 if an allocation fails. But for 0
/// `out` is left, and but for 0 and 18 `out_len`.
pub fn encode_by(
    alloc: Global,
    entries: &[SstEntry<'_>],
    interval: u8,
    num: u32,
    den: u32,
    hash: u32,
    out: &mut [u8],
    out_len: &mut usize,
) -> Status
    ensures { IsEncodeBy hash entries.now interval num den out.old out.new out_len.old out_len.new
        result }
{
    let ratio = HashRatio { num, den };
    match Hash::of_number(hash) {
        Some(Hash::Xxh3) => encode::<Xxh3>(alloc, entries, interval, ratio, out, out_len),
        Some(Hash::Poly31) => encode::<Poly31>(alloc, entries, interval, ratio, out, out_len),
        None => Status::BadArgument,
    }
}
