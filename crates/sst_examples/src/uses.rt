//! Ten lines that use the library, proved: a block is encoded, its entries are counted and made,
//! one is read by key.
ghost use Rattle.std.specs.Prelude.{◌≡◌, ◌≤◌, ◌++◌, length, map};
ghost use Rattle.std.specs.Prelude.{nat_lt, count_by, IfOk};
ghost use Rattle.std.specs.Prelude.{IsOkUnless};
ghost use Rattle.sstable_blocks.specs.Prelude.{plain, entries, IsOrdered, first_match};

use sstable_blocks::{
    Block, BlockType, DataBlock, Error, HashRatio, InternalValue, Result, SeqNo, Slice, Steps, Xxh3,
};
use std::alloc::Global;

/// Items per restart interval.
const INTERVAL: u8 = 16;

/// No hash index.
const NO_BUCKETS: HashRatio = HashRatio { num: 0, den: 1 };

/// Encodes a non-empty, ordered list of entries, and opens the block.
///
/// # Errors
///
/// `Error::TooLong` if the block would have 2^32 bytes or more; `Error::Memory` if an allocation
/// fails.
pub fn open_block(alloc: Global, items: &[InternalValue]) -> Result<DataBlock<Xxh3>>
    requires some { 1 ≤ length items.now }
    requires ordered { IsOrdered entries items.now }
    ensures { IfOk result (λ block. block.items ≡ map plain items.now) }
{
    let payload = DataBlock::<Xxh3>::encode_into_vec(alloc, items, INTERVAL, NO_BUCKETS)?;
    Ok(DataBlock::new(Block::from_payload(BlockType::Data, Slice::from_vec(payload)?)))
}

/// Counts the entries of a block with a sequence number below another.
pub fn count_below(block: &DataBlock<Xxh3>, seqno: SeqNo) -> usize
    ensures { result ≡ count_by (λ entry. nat_lt entry.key.seqno seqno) block.now.items }
{
    block
        .entries()
        .filter(|entry| entry.seqno() < seqno)
        .count()
}

/// Appends the entries of a block to a vector.
///
/// # Errors
///
/// `Error::Memory` if an allocation fails.
pub fn append_entries(
    alloc: Global,
    block: &DataBlock<Xxh3>,
    out: &mut Vec<InternalValue>,
) -> Result<()>
    ensures ok { IfOk result (λ _. out.new.items ≡ out.old.items ++ block.now.items) }
    ensures memory { IsOkUnless result Error.Memory }
{
    for entry in block.entries() {
        out.push(entry.to_entry(alloc)?)?;
    }
    Ok(())
}

/// Reads the newest version of a key below a sequence number.
///
/// # Errors
///
/// `Error::Memory` if an allocation fails.
pub fn read(
    alloc: Global,
    block: &DataBlock<Xxh3>,
    key: &[u8],
    seqno: SeqNo,
) -> Result<Option<InternalValue>>
    ensures { IfOk result (λ found. found ≡ first_match entries key.now seqno block.now.items) }
{
    block.point_read(alloc, key, seqno, &mut Steps::new())
}
