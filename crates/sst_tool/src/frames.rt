//! Data blocks of a file, found without its index: by their headers.
ghost use Rattle.std.specs.Prelude.{◌≤◌, ◌<◌, IfOk};

use sstable_blocks::table::block::header::{HEADER_LEN, MAGIC};
use sstable_blocks::{
    Block, BlockHandle, BlockHash, BlockOffset, BlockType, Error, FrameSource, Header, Result,
};
use std::alloc::Global;

/// How many bytes are searched for the beginning of a header at once.
pub const PIECE_LEN: u32 = 4096;

// A frame that a header names: its bytes, and its type.
#[derive(Clone, Copy)]
struct Frame {
    len: u32,
    block_type: BlockType,
}

/// Reads the bytes at an offset, as many as there are up to a length and the end of the file.
///
/// # Errors
///
/// Those of the source.
pub fn bytes_at<S: FrameSource>(
    alloc: Global,
    source: &mut S,
    at: u64,
    len: u32,
    file_len: u64,
) -> Result<sstable_blocks::Slice> {
    let left = file_len.saturating_sub(at).min(u64::from(len));
    source.read_frame(alloc, &BlockHandle::new(BlockOffset(at), left as u32))
}

// The frame whose header bytes begin with, if they do, and its length fits a handle.
fn frame_in<H: BlockHash>(bytes: &[u8]) -> Option<Frame> {
    let mut reader = bytes;
    let header = Header::decode_from::<H, &[u8]>(&mut reader).ok()?;
    let len = header.data_length.checked_add(HEADER_LEN as u32)?;
    Some(Frame {
        len,
        block_type: header.block_type,
    })
}

/// Returns the number of bytes before the first that may begin a header, after the first byte.
pub fn bytes_before_magic(bytes: &[u8]) -> usize
    ensures { 1 ≤ result }
{
    for at in 1..bytes.len() {
        let (_, rest) = bytes.split_at(at);
        let begins = rest.len().min(MAGIC.len());
        if rest[..begins] == MAGIC[..begins] {
            return at;
        }
    }
    bytes.len().max(1)
}

// What is found at an offset: the frame of a data block or nothing, up to the next offset, how many
// of the bytes are in no whole frame, and how many were read for a header that is not one of such.
#[derive(Clone, Copy)]
struct Found {
    block: Option<BlockHandle>,
    next: u64,
    passed: u64,
    spent: u64,
}

// Whether a frame at an offset is whole: its payload has its length and its checksum.
fn is_whole<H: BlockHash, S: FrameSource>(
    alloc: Global,
    source: &mut S,
    handle: &BlockHandle,
) -> Result<bool> {
    let bytes = source.read_frame(alloc, handle)?;
    match Block::from_frame::<H>(bytes) {
        Ok(_) => Ok(true),
        Err(Error::Memory) => Err(Error::Memory),
        Err(_) => Ok(false),
    }
}

// What is found at an offset whose bytes begin with these, where no whole frame begins. A data block
// whose header is whole is lost, and found as such.
fn found_passing(bytes: &[u8], at: u64, end: u64, block: Option<BlockHandle>, spent: u64) -> Found
    requires { at < end }
    ensures { at < result.next }
{
    let passed = bytes_before_magic(bytes) as u64;
    Found {
        block,
        next: at.saturating_add(passed),
        passed,
        spent,
    }
}

// Finds what is at an offset of a file. A header whose frame the file ends in, or whose payload has
// another checksum, says nothing of what follows.
fn found_at<H: BlockHash, S: FrameSource>(
    alloc: Global,
    source: &mut S,
    at: u64,
    end: u64,
) -> Result<Found>
    requires { at < end }
    ensures { IfOk result (λ found. at < found.next) }
{
    let bytes = bytes_at(alloc, source, at, PIECE_LEN, end)?;
    let Some(frame) = frame_in::<H>(bytes.as_slice()) else {
        return Ok(found_passing(bytes.as_slice(), at, end, None, 0));
    };
    let block = block_of(frame, at);
    let len = u64::from(frame.len);
    if len > end - at {
        return Ok(found_passing(bytes.as_slice(), at, end, block, 0));
    }
    let handle = BlockHandle::new(BlockOffset(at), frame.len);
    if !is_whole::<H, S>(alloc, source, &handle)? {
        return Ok(found_passing(bytes.as_slice(), at, end, block, len));
    }
    Ok(Found {
        block,
        next: at.saturating_add(len.max(1)),
        passed: 0,
        spent: 0,
    })
}

// The handle of a frame at an offset, if it is that of a data block.
fn block_of(frame: Frame, at: u64) -> Option<BlockHandle> {
    if frame.block_type == BlockType::Data {
        Some(BlockHandle::new(BlockOffset(at), frame.len))
    } else {
        None
    }
}

/// Finds the frames of the data blocks of a file by their headers, from an offset on up to another,
/// and adds their handles; those of blocks of which the header alone is whole, too. Returns the
/// number of bytes that are in no whole frame.
///
/// What a header claims is passed at once only where the payload has its checksum; else the search
/// goes on behind the header's first byte. It ends where false headers claimed four times as many
/// bytes as there are, which no damage does.
///
/// # Errors
///
/// `Error::Io` if the file fails, `Error::Memory` if an allocation fails.
pub fn add_frames<H: BlockHash, S: FrameSource>(
    alloc: Global,
    source: &mut S,
    from: u64,
    end: u64,
    frames: &mut Vec<BlockHandle>,
) -> Result<u64> {
    let most = end.saturating_sub(from).saturating_mul(4);
    let (mut at, mut passed, mut spent) = (from, 0u64, 0u64);
    while at < end {
        if spent > most {
            return Ok(passed.saturating_add(end - at));
        }
        let found = found_at::<H, S>(alloc, source, at, end)?;
        if let Some(block) = found.block {
            frames.push(block)?;
        }
        at = found.next;
        passed = passed.saturating_add(found.passed);
        spent = spent.saturating_add(found.spent);
    }
    Ok(passed)
}
