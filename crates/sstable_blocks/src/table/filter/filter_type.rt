//! Filter types.
ghost use Rattle.std.specs.Prelude.{◌≡◌};
ghost use Rattle.sstable_blocks.specs.FilterType.{filter_type_byte, filter_type_of};

use sst_base::{Error, TagName};

/// The type of a filter. Its byte in a filter's payload is given beside each.
#[derive(Clone, Copy, Debug, PartialEq, Eq)]
pub enum FilterType {
    /// A standard Bloom filter. Byte 0.
    StandardBloom,
    /// A blocked Bloom filter, which is neither written nor read. Byte 1.
    BlockedBloom,
}

/// The filter type of a byte: 0 or 1, else `Error::InvalidTag` with that byte.
impl TryFrom<u8> for FilterType {
    type Error = Error;

    ghost try_from_gives = { λ byte r. r ≡ filter_type_of byte };

    fn try_from(byte: u8) -> Result<FilterType, Error> {
        match byte {
            0 => Ok(FilterType::StandardBloom),
            1 => Ok(FilterType::BlockedBloom),
            _ => Err(Error::InvalidTag(TagName::FilterType, byte)),
        }
    }
}

/// The byte of a filter type.
impl From<FilterType> for u8 {
    ghost from_gives = { λ filter_type byte. byte ≡ filter_type_byte filter_type };

    fn from(filter_type: FilterType) -> u8 {
        match filter_type {
            FilterType::StandardBloom => 0,
            FilterType::BlockedBloom => 1,
        }
    }
}
