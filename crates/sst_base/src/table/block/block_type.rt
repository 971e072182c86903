//! Block types.
ghost use Rattle.std.specs.Prelude.{◌≡◌};
ghost use Rattle.sst_base.specs.BlockType.{block_type_byte, block_type_of};

use crate::error::{Error, TagName};

/// The type of a block. Its byte in a header is given beside each.
#[derive(Clone, Copy, Debug, PartialEq, Eq)]
pub enum BlockType {
    /// A data block: entries. Byte 0.
    Data,
    /// An index block: handles. Byte 1.
    Index,
    /// A filter. Byte 2.
    Filter,
    /// Anything else. Byte 3.
    Meta,
}

/// The block type of a byte: 0 to 3, else `Error::InvalidTag` with that byte.
impl TryFrom<u8> for BlockType {
    type Error = Error;

    ghost try_from_gives = { λ byte r. r ≡ block_type_of byte };

    fn try_from(byte: u8) -> Result<BlockType, Error> {
        match byte {
            0 => Ok(BlockType::Data),
            1 => Ok(BlockType::Index),
            2 => Ok(BlockType::Filter),
            3 => Ok(BlockType::Meta),
            _ => Err(Error::InvalidTag(TagName::BlockType, byte)),
        }
    }
}

/// The byte of a block type.
impl From<BlockType> for u8 {
    ghost from_gives = { λ block_type byte. byte ≡ block_type_byte block_type };

    fn from(block_type: BlockType) -> u8 {
        match block_type {
            BlockType::Data => 0,
            BlockType::Index => 1,
            BlockType::Filter => 2,
            BlockType::Meta => 3,
        }
    }
}
