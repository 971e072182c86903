//! Handles as C gives them.
ghost use Rattle.std.specs.Prelude.{◌≡◌, ◌⊎◌, length, map, IfOk, IfErr};
ghost use Rattle.std.specs.List.{AllByRecursion};
ghost use Rattle.sst_calls.specs.declared.codes.Status.TheVariants.{Failed, BadArgument};
ghost use Rattle.sst_calls.specs.Index.{handle_given, HasEndKey};
ghost use Rattle.sstable_blocks.specs.Results.{Memory};

use crate::codes::Status;
use sstable_blocks::key::MAX_KEY_LEN;
use sstable_blocks::{BlockHandle, BlockOffset, Error, KeyedBlockHandle, Slice};
use std::alloc::Global;

/// A handle of a data block: the key and the sequence number of its last entry, and where its frame
/// is.
#[repr(C)]
#[derive(Drop)]
pub struct SstKeyedHandle<'a> {
    /// The user key of the block's last entry, of at most 65535 bytes.
    pub end_key: &'a [u8],
    /// The sequence number of the block's last entry.
    pub seqno: u64,
    /// Where the frame begins in the file of the table, in bytes.
    pub offset: u64,
    /// The length of the frame in bytes.
    pub size: u32,
}

// The handle that is given.
fn item_of(alloc: Global, given: &SstKeyedHandle<'_>) -> Result<KeyedBlockHandle, Status>
    ensures ok { IfOk result (λ item. item ≡ handle_given given.now) }
    ensures refused { IfErr result (λ s. (s ≡ Failed Memory)
        ⊎ ((s ≡ BadArgument) × (HasEndKey given.now → ⊥))) }
{
    if given.end_key.len() > MAX_KEY_LEN {
        return Err(Status::BadArgument);
    }
    let end_key = match Slice::new(alloc, given.end_key) {
        Ok(end_key) => end_key,
        Err(error) => return Err(Status::Failed(error)),
    };
    let handle = BlockHandle::new(BlockOffset(given.offset), given.size);
    Ok(KeyedBlockHandle::new(end_key, given.seqno, handle))
}

/// Makes the handles that are given. Refuses those of which one has too long an end key.
pub(crate) fn items_of(
    alloc: Global,
    given: &[SstKeyedHandle<'_>],
) -> Result<Vec<KeyedBlockHandle>, Status>
    ensures ok { IfOk result (λ items. items.items ≡ map handle_given given.now) }
    ensures end_keys { IfOk result (λ _. AllByRecursion HasEndKey given.now) }
    ensures refused { IfErr result (λ s. (s ≡ Failed Memory)
        ⊎ ((s ≡ BadArgument) × (AllByRecursion HasEndKey given.now → ⊥))) }
{
    let mut items = Vec::new(alloc);
    for handle in given {
        let item = match item_of(alloc, handle) {
            Ok(item) => item,
            Err(status) => return Err(status),
        };
        if items.push(item).is_err() {
            return Err(Status::Failed(Error::Memory));
        }
    }
    Ok(items)
}
