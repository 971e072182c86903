//! The handles of an index block, by their indexes.
ghost use Rattle.std.specs.Prelude.{◌≡◌, ◌+◌, ◌≤◌, ◌<◌, length, drop, take};
ghost use Rattle.sst_calls.specs.Blocks.{bytes_behind};
ghost use Rattle.sst_calls.specs.Index.{IsIndexPayload};
ghost use Rattle.sst_calls.specs.IndexScans.{IsHandlePlace, IsHandleScan};
ghost use Rattle.sst_calls.specs.Listing.{AreAt};
ghost use Rattle.sstable_blocks.specs.Prelude.{IsParsedHandle, handles, items_in, items_left};
ghost use Rattle.sstable_blocks.specs.Prelude.{parsed_handle};

use crate::codes::Status;
use crate::data_block::place_of_range;
use crate::items_from::items_from;
use sstable_blocks::KeyedBlockHandle;
use sstable_blocks::laws::index_block_is_read;
use sstable_blocks::table::block::intervals::Intervals;
use sstable_blocks::table::block::{Decoder, Trailer};
use sstable_blocks::table::index_block::{IndexBlockParsedItem, IndexBlockRef};

/// Where a handle is in the payload of an index block, and where the frame is that it names. Its
/// end key is the prefix and then the key's own bytes.
#[repr(C)]
#[derive(Drop)]
pub struct SstHandlePlace {
    /// The sequence number of the block's last entry.
    pub seqno: u64,
    /// Where the prefix begins that the end key shares with another handle's.
    pub prefix_offset: usize,
    /// The length of the prefix; 0 for an end key that is stored whole.
    pub prefix_len: usize,
    /// Where the end key's own bytes begin.
    pub key_offset: usize,
    /// The number of the end key's own bytes.
    pub key_len: usize,
    /// Where the frame begins in the file of the table, in bytes.
    pub offset: u64,
    /// The length of the frame in bytes.
    pub size: u32,
}

// Where a parsed item's parts are.
fn place_of(payload: &[u8], item: &IndexBlockParsedItem) -> SstHandlePlace
    requires { IsParsedHandle payload.now item.now }
    ensures { IsHandlePlace payload.now result (parsed_handle payload.now item.now) }
{
    let prefix = place_of_range(payload, &item.prefix);
    SstHandlePlace {
        seqno: item.seqno,
        prefix_offset: prefix.0,
        prefix_len: prefix.1,
        key_offset: item.end_key.0,
        key_len: item.end_key.1 - item.end_key.0,
        offset: *item.offset,
        size: item.size,
    }
}

// The handles of an index block from the one at an index on.
fn handles_from<'a>(
    payload: &'a [u8],
    index: usize,
) -> Decoder<'a, KeyedBlockHandle, IndexBlockParsedItem>
    requires block { IsIndexPayload payload.now }
    requires index { index < length (items_in handles payload.now) }
    ensures payload { result.payload ≡ payload.now }
    ensures left { items_left result.window ≡ drop index (items_in handles payload.now) }
{
    index_block_is_read();
    let interval = usize::from(Trailer::new(payload).interval());
    items_from(Intervals::new(payload), interval, index)
}

// Writes where so many handles from an index on are, at the front of an array.
fn list(payload: &[u8], from: usize, count: usize, places: &mut [SstHandlePlace])
    requires block { IsIndexPayload payload.now }
    requires inside { from + count ≤ length (items_in handles payload.now) }
    requires room { count ≤ length places.old }
    ensures { AreAt (IsHandlePlace payload.now)
        (take count (drop from (items_in handles payload.now))) places.old places.new }
{
    if count == 0 {
        return;
    }
    let mut items = handles_from(payload, from);
    for at in 0..count {
        let Some(item) = items.next() else {
            return;
        };
        places[at] = place_of(payload, &item);
    }
}

/// Writes where the handles of an index block from an index on are, in order, in bytes that are
/// known to be an index block. No memory is taken, and nothing is copied. Handles before the first
/// one are decoded only in its restart interval.
///
/// Returns 0 and the number of handles, each of which has its place then: all from the index on, or
/// as many as there are places; the places after them are left. Or 17 exactly where the index is
/// greater than the number of handles; and leaves all.
pub fn scan(payload: &[u8], from: usize, places: &mut [SstHandlePlace], count: &mut usize) -> Status
    requires { IsIndexPayload payload.now }
    ensures { IsHandleScan payload.now from places.old places.new count.old count.new result }
{
    let len = IndexBlockRef::new(payload).len();
    if from > len {
        return Status::BadArgument;
    }
    *count = places.len().min(len - from);
    list(payload, from, *count, places);
    Status::Done
}
