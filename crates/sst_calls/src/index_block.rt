//! Index blocks.
ghost use Rattle.std.specs.Prelude.{◌≡◌, ◌⊎◌, map, IfOk, IfErr};
ghost use Rattle.sst_calls.specs.Checks.{IsIndexCheck};
ghost use Rattle.sst_calls.specs.declared.codes.Status.TheVariants.{Failed, BadArgument};
ghost use Rattle.sst_calls.specs.Index.{first_for, handle_given, CanEncodeHandles, IsHandleAnswer};
ghost use Rattle.sst_calls.specs.Index.{IsIndexEncode, IsIndexFind, IsIndexPayload, IsIndexSeek};
ghost use Rattle.sstable_blocks.specs.Prelude.{items_in, handles};
ghost use Rattle.sstable_blocks.specs.Results.{Memory};

use crate::codes::Status;
use crate::handles::{SstKeyedHandle, items_of};
use crate::output::write_bytes;
use sstable_blocks::table::block::bound::Bound;
use sstable_blocks::table::index_block::IndexBlockRef;
use sstable_blocks::{BlockHandle, IndexBlock, KeyedBlockHandle, SeqNo, Steps};
use std::alloc::Global;

/// Where the frame of a block is.
#[repr(C)]
#[derive(Drop)]
pub struct SstHandle {
    /// Where the frame begins in the file of the table, in bytes.
    pub offset: u64,
    /// The length of the frame in bytes.
    pub size: u32,
}

/// Returns the index of the first handle whose block can hold an entry of a key strictly below a
/// sequence number, in bytes that are known to be an index block, or the number of handles if there
/// is none. No memory is taken, and nothing is copied.
pub fn seek(payload: &[u8], key: &[u8], below_seqno: u64) -> usize
    requires { IsIndexPayload payload.now }
    ensures { IsIndexSeek payload.now key.now below_seqno result }
{
    let passed = Bound {
        needle: key,
        from: Some(below_seqno),
    };
    IndexBlockRef::new(payload).position(&passed, &mut Steps::new())
}

// The range of that handle.
fn find(payload: &[u8], key: &[u8], below: SeqNo) -> Option<BlockHandle>
    requires { IsIndexPayload payload.now }
    ensures { IsHandleAnswer result (first_for key.now below (items_in handles payload.now)) }
{
    let index = seek(payload, key, below);
    let block = IndexBlockRef::new(payload);
    if index < block.len() {
        Some(block.handle_at(index, &mut Steps::new()))
    } else {
        None
    }
}

/// Finds the one block that can hold the first entry of a key strictly below a sequence number, in
/// bytes that are known to be an index block: those that [`check`] accepted or the
/// library wrote. No memory is taken, and nothing is copied.
///
/// Returns 0 and the handle of the first block whose last entry does not sort before the key below
/// that number; or 16 if there is none, and leaves `handle`.
pub fn note_found(payload: &[u8], key: &[u8], below_seqno: u64, handle: &mut SstHandle) -> Status
    requires { IsIndexPayload payload.now }
    ensures { IsIndexFind payload.now key.now below_seqno handle.old
        handle.new result }
{
    match find(payload, key, below_seqno) {
        Some(found) => {
            *handle = SstHandle {
                offset: *found.offset(),
                size: found.size(),
            };
            Status::Done
        }
        None => Status::NotFound,
    }
}

/// Checks any bytes as an index block. No memory is taken.
///
/// Returns 0 and the number of handles exactly if they are the encoding of some ordered, non-empty
/// list of handles, each of whose blocks ends below 2^64; 6 exactly if there are 2^32 bytes or
/// more; 7 to 11 or 14 for the first stage of the check that fails. But for 0 `count` is left.
pub fn check(payload: &[u8], count: &mut usize) -> Status
    ensures { IsIndexCheck payload.now count.old count.new result }
{
    match IndexBlockRef::check(payload) {
        Ok(block) => {
            *count = block.len();
            Status::Done
        }
        Err(error) => Status::Failed(error),
    }
}

/// The handles that are given, if they can be encoded.
pub(crate) fn checked_items(
    alloc: Global,
    given: &[SstKeyedHandle<'_>],
    interval: u8,
) -> Result<Vec<KeyedBlockHandle>, Status>
    ensures ok { IfOk result (λ items. items.items ≡ map handle_given given.now) }
    ensures can { IfOk result (λ _. CanEncodeHandles given.now interval) }
    ensures refused { IfErr result (λ s. (s ≡ Failed Memory)
        ⊎ ((s ≡ BadArgument) × (CanEncodeHandles given.now interval → ⊥))) }
{
    if interval == 0 || given.is_empty() {
        return Err(Status::BadArgument);
    }
    let items = items_of(alloc, given)?;
    if !IndexBlock::is_ordered(items.as_slice()) || !IndexBlock::ends_fit(items.as_slice()) {
        return Err(Status::BadArgument);
    }
    Ok(items)
}

/// Encodes handles as an index block into a buffer: at least one, in order (by end key rising, then
/// by sequence number falling), at a restart interval of at least 1.
///
/// Returns 0, and the length of the block, which is then the front of `out`; 18 where `out` is too
/// short, and the length that is needed; 17 exactly where the handles can't be encoded: none, an
/// end key of more than 65535 bytes, out of order, a frame that ends at 2^64 or above, an interval
/// of 0; 6 only where the block has 2^32 bytes or more; 15 if an allocation fails. But for 0 `out`
/// is left, and but for 0 and 18 `out_len`.
pub fn encode(
    alloc: Global,
    handles: &[SstKeyedHandle<'_>],
    interval: u8,
    out: &mut [u8],
    out_len: &mut usize,
) -> Status
    ensures { IsIndexEncode handles.now interval out.old out.new out_len.old out_len.new result }
{
    let items = match checked_items(alloc, handles, interval) {
        Ok(items) => items,
        Err(status) => return status,
    };
    match IndexBlock::encode_into_vec_with(alloc, items.as_slice(), interval) {
        Ok(payload) => write_bytes(payload.as_slice(), out, out_len),
        Err(error) => Status::Failed(error),
    }
}
