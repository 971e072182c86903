//! Frames: a header of 33 bytes with checksums, and a payload.
ghost use Rattle.std.specs.Prelude.{◌≡◌, ◌⊎◌, ◌≤◌, ◌^◌, length, IfOk, IfErr};
ghost use Rattle.sst_calls.specs.Frames.{IsFrameCheck, IsFrameWrite, IsFrameCheckBy};
ghost use Rattle.sst_calls.specs.Frames.{IsFrameWriteBy};
ghost use Rattle.sstable_blocks.specs.Prelude.{frame};
ghost use Rattle.sstable_blocks.specs.Results.{Memory, TooLong};

use crate::codes::Status;
use crate::hash::Hash;
use crate::output::write_bytes;
use sstable_blocks::{Block, BlockHash, BlockType, Error, Poly31, Result, Slice, Xxh3};
use std::alloc::Global;

// The frame of a payload.
fn frame_of<H: BlockHash>(alloc: Global, payload: &[u8], block_type: BlockType) -> Result<Vec<u8>>
    ensures ok { IfOk result (λ v. v.items ≡ frame H.hash128 block_type payload.now) }
    ensures cause { IfErr result
        (λ e. (e ≡ Memory) ⊎ ((e ≡ TooLong) × (2 ^ 32 ≤ length payload.now))) }
{
    let mut bytes = Vec::new(alloc);
    match Block::write_into::<H, Vec<u8>>(&mut bytes, payload, block_type) {
        Ok(_) => Ok(bytes),
        Err(Error::TooLong) => Err(Error::TooLong),
        // A vector fails as a writer where its allocation does.
        Err(_) => Err(Error::Memory),
    }
}

// Writes the frame of a payload into a buffer.
fn write<H: BlockHash>(
    alloc: Global,
    payload: &[u8],
    block_type: u8,
    out: &mut [u8],
    out_len: &mut usize,
) -> Status
    ensures { IsFrameWrite H.hash128 payload.now block_type out.old out.new out_len.old
        out_len.new result }
{
    let Ok(block_type) = BlockType::try_from(block_type) else {
        return Status::BadArgument;
    };
    match frame_of::<H>(alloc, payload, block_type) {
        Ok(bytes) => write_bytes(bytes.as_slice(), out, out_len),
        Err(error) => Status::Failed(error),
    }
}

/// Writes the frame of a payload into a buffer: its header with type, lengths and checksums, 33
/// bytes, and the payload. The byte of the type is 0 for a data block, 1 for an index block, 2 for
/// a filter, 3 for anything else. The checksums are by the hash function of a number.
///
/// Returns 0, and the length of the frame, which is then the front of `out`; 18 where `out` is too
/// short, and the length that is needed; 17 exactly where the byte is that of no type, or no hash
/// function has the number; 6 only where the payload has 2^32 bytes or more; 15 if an allocation
/// fails. But for 0 `out` is left, and but for 0 and 18 `out_len`.
pub fn write_by(
    alloc: Global,
    payload: &[u8],
    block_type: u8,
    hash: u32,
    out: &mut [u8],
    out_len: &mut usize,
) -> Status
    ensures { IsFrameWriteBy hash payload.now block_type out.old out.new out_len.old out_len.new
        result }
{
    match Hash::of_number(hash) {
        Some(Hash::Xxh3) => write::<Xxh3>(alloc, payload, block_type, out, out_len),
        Some(Hash::Poly31) => write::<Poly31>(alloc, payload, block_type, out, out_len),
        None => Status::BadArgument,
    }
}

// Checks bytes as a frame, and notes what it says.
fn check<H: BlockHash>(
    alloc: Global,
    bytes: &[u8],
    block_type: &mut u8,
    payload_len: &mut usize,
) -> Status
    ensures { IsFrameCheck H.hash128 bytes.now block_type.old block_type.new payload_len.old
        payload_len.new result }
{
    let bytes = match Slice::new(alloc, bytes) {
        Ok(bytes) => bytes,
        Err(error) => return Status::Failed(error),
    };
    match Block::from_frame::<H>(bytes) {
        Ok(block) => {
            *block_type = u8::from(block.header().block_type);
            *payload_len = block.data().len();
            Status::Done
        }
        Err(error) => Status::Failed(error),
    }
}

/// Checks any bytes as a whole frame, whose checksums are by the hash function of a number. The
/// bytes are copied.
///
/// Returns 0, the byte of the type, and the length of the payload, which is the rest of the bytes
/// after the first 33; or the first error: 7 below 33 bytes, 2 if they begin with another magic, 3
/// for the byte of no type, 4 if header or payload do not have their checksums, 5 if the lengths do
/// not fit the bytes; 15 if an allocation fails; 17 exactly where no hash function has the number.
/// But for 0 `block_type` and `payload_len` are left.
pub fn check_by(
    alloc: Global,
    bytes: &[u8],
    hash: u32,
    block_type: &mut u8,
    payload_len: &mut usize,
) -> Status
    ensures { IsFrameCheckBy hash bytes.now block_type.old block_type.new payload_len.old
        payload_len.new result }
{
    match Hash::of_number(hash) {
        Some(Hash::Xxh3) => check::<Xxh3>(alloc, bytes, block_type, payload_len),
        Some(Hash::Poly31) => check::<Poly31>(alloc, bytes, block_type, payload_len),
        None => Status::BadArgument,
    }
}
