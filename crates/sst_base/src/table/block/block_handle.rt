//! Handles of blocks.
ghost use Rattle.std.specs.Prelude.{◌≡◌, ◌≤◌, ℕ, List, Some, IfOk};
ghost use Rattle.sst_base.specs.BlockHandle.{handle_bytes, handle_at, handle_number_at};
ghost use Rattle.sst_base.specs.Inputs.{Reads};

use crate::coding::{Decode, Encode, MAX_VARINT_LEN, encode_varint, varint_digits};
use crate::error::{Error, Result};
use crate::input::{Input, array_from};
use crate::output::Output;
use crate::table::block::offset::BlockOffset;
use std::alloc::Global;
use std::marker::Model;

/// Where the frame of a block is in its file: its offset, and its length in bytes, header included.
#[derive(Clone, Copy, Debug, Default, PartialEq, Eq)]
pub struct BlockHandle {
    offset: BlockOffset,
    size: u32,
}

impl Model for BlockHandle {
    ghost use Rattle.sst_base.specs.BlockHandle.{HandleParts};

    ghost Value = { HandleParts };

    ghost view = { λ h. record { offset = h.offset.0; size = h.size } };

    ghost inverse = { λ h. record { offset = record { 0 = h.offset }; size = h.size } };
}

impl BlockHandle {
    /// Makes the handle of a frame.
    pub fn new(offset: BlockOffset, size: u32) -> BlockHandle
        ensures { result ≡ record { offset = offset.0; size = size } }
    {
        BlockHandle { offset, size }
    }

    /// Returns the length of the frame in bytes.
    pub fn size(&self) -> u32
        ensures { result ≡ self.now.size }
    {
        self.size
    }

    /// Returns the offset of the frame.
    pub fn offset(&self) -> BlockOffset
        ensures { result.0 ≡ self.now.offset }
    {
        self.offset
    }
}

/// The offset (varint 64), and the size (varint 32).
impl Encode for BlockHandle {
    ghost encoding = { handle_bytes };

    fn encode_into<W: Output>(&self, writer: &mut W) -> Result<()> {
        let (offset, len) = varint_digits(self.offset.0);
        writer.put(&offset[..len])?;
        let (size, len) = varint_digits(u64::from(self.size));
        writer.put(&size[..len])?;
        Ok(())
    }

    fn encode_into_vec(&self, alloc: Global) -> Result<Vec<u8>> {
        let mut bytes = Vec::with_capacity(alloc, 2 * MAX_VARINT_LEN)?;
        encode_varint(&mut bytes, self.offset.0)?;
        encode_varint(&mut bytes, u64::from(self.size))?;
        Ok(bytes)
    }
}

/// `Error::BadHandle` at the first byte with which no minimal encoding of a number within its width
/// continues; the byte after it is not read.
impl Decode for BlockHandle {
    ghost decoded = { handle_at };

    #[tactic(auto, unfolding(crate::specs::BlockHandle::handle_at))]
    fn decode_from<R: Input>(reader: &mut R) -> Result<BlockHandle> {
        let offset = number_from(reader, u64::MAX)?;
        let size = number_from(reader, u64::from(u32::MAX))?;
        Ok(BlockHandle {
            offset: BlockOffset(offset),
            size: size as u32,
        })
    }
}

// The next number of at most `max`.
#[tactic(auto, unfolding(crate::specs::BlockHandle::handle_number_at))]
fn number_from<R: Input>(reader: &mut R, max: u64) -> Result<u64>
    ensures read { (bytes : List ℕ) → R.remaining reader.old ≡ Some bytes
        → Reads (R.is_memory reader.old) result (R.remaining reader.new)
        (handle_number_at max bytes) }
    ensures fits { IfOk result (λ n. n ≤ max) }
    ensures kept { R.is_memory reader.old → R.is_memory reader.new }
{
    let [byte] = array_from::<1, R>(reader)?;
    let digit = u64::from(byte);
    if digit < 128 {
        return if digit <= max {
            Ok(digit)
        } else {
            Err(Error::BadHandle)
        };
    }
    if max < 128 {
        return Err(Error::BadHandle);
    }
    let high = number_from(reader, (max - (digit - 128)) / 128)?;
    if high == 0 {
        return Err(Error::BadHandle);
    }
    Ok(digit - 128 + 128 * high)
}
