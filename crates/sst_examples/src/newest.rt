//! Writes entries as a block, and reads one of them by its key.
ghost use Rattle.sstable_blocks.specs.Prelude.{IsEncodable, GivesNewest, FailsAsEncoding};

use sstable_blocks::{
    Block, BlockType, DataBlock, HashRatio, InternalValue, Result, SeqNo, Slice, Steps, Xxh3,
};
use std::alloc::Global;

/// Writes a non-empty, ordered list of entries as a block, and returns the newest version of a key
/// with a sequence number below `seqno`. `DataBlock::is_ordered` tests the order.
///
/// # Errors
///
/// `Error::TooLong` if the block would have 2^32 bytes or more; `Error::Memory` if an allocation
/// fails.
pub fn newest_below(
    alloc: Global,
    items: &[InternalValue],
    key: &[u8],
    seqno: SeqNo,
) -> Result<Option<InternalValue>>
    requires { IsEncodable items.now }
    ensures newest { GivesNewest result items.now key.now seqno }
    ensures errors { FailsAsEncoding result }
{
    let no_buckets = HashRatio { num: 0, den: 1 };
    let payload = DataBlock::<Xxh3>::encode_into_vec(alloc, items, 16, no_buckets)?;
    let block = Block::from_payload(BlockType::Data, Slice::from_vec(payload)?);
    DataBlock::<Xxh3>::new(block).point_read(alloc, key, seqno, &mut Steps::new())
}
