//! A payload as a frame, and read again.
ghost use Rattle.std.specs.Prelude.{◌≡◌, IfOk};

use sstable_blocks::{Block, BlockType, Result, Slice, Xxh3};
use std::alloc::Global;

/// Writes a payload as a frame, and reads the frame.
///
/// # Errors
///
/// `Error::TooLong` if the payload has 2^32 bytes or more; `Error::Memory`, or `Error::Io` where
/// the vector cannot grow, if an allocation fails.
pub fn framed(alloc: Global, payload: &Slice) -> Result<Block>
    ensures { IfOk result (λ block. block.payload ≡ payload.now) }
{
    let mut frame = Vec::new(alloc);
    Block::write_into::<Xxh3, Vec<u8>>(&mut frame, payload.as_slice(), BlockType::Data)?;
    Block::from_frame::<Xxh3>(Slice::from_vec(frame)?)
}
