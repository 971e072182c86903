//! The error type.
ghost use Rattle.std.specs.Prelude.{◌≡◌};
ghost use Rattle.sst_base.specs.declared.error.Error.TheVariants.{Memory, Io};

use crate::checksum::Checksum;
use std::alloc::{AllocError, AllocFailed};
use std::io;
use thiserror::Error;

/// The kind of header that was expected.
#[derive(Clone, Copy, Debug, PartialEq, Eq)]
pub enum HeaderName {
    /// The header of a block's frame.
    Block,
    /// The header of a Bloom filter.
    BloomFilter,
}

/// The kind of tag that was expected.
#[derive(Clone, Copy, Debug, PartialEq, Eq)]
pub enum TagName {
    /// A block type.
    BlockType,
    /// A filter type.
    FilterType,
    /// A hash function of a filter.
    HashType,
}

/// The errors of the block layer. Each has a number, which programs print beside its name.
#[derive(Clone, Copy, Debug, PartialEq, Eq, Error)]
pub enum Error {
    /// E1: the reader, writer, file or source failed, or an input ended before the requested bytes.
    #[error("input or output failed")]
    Io,
    /// E2: the magic bytes differ.
    #[error("not a header of a {0:?}")]
    InvalidHeader(HeaderName),
    /// E3: a tag is not allowed there.
    #[error("{1} is no tag of a {0:?}")]
    InvalidTag(TagName, u8),
    /// E4: the computed and the stored checksum differ.
    #[error("checksum is {got:?}, expected {expected:?}")]
    ChecksumMismatch {
        /// The computed checksum.
        got: Checksum,
        /// The stored checksum.
        expected: Checksum,
    },
    /// E5: the two lengths of a header, or the length of a frame and its data length, differ.
    #[error("lengths differ")]
    LengthMismatch,
    /// E6: a length passes its limit.
    #[error("too long")]
    TooLong,
    /// E7: bytes in memory are shorter than a header, trailer, filter or footer.
    #[error("truncated")]
    Truncated,
    /// E8: the trailer does not fit the block.
    #[error("bad trailer")]
    BadTrailer,
    /// E9: the bytes before the end marker are not the forms of items.
    #[error("bad entry")]
    BadEntry,
    /// E10: an item sorts before its predecessor.
    #[error("out of order")]
    OutOfOrder,
    /// E11: a pointer of the binary index, or the pointer width, does not match the items.
    #[error("bad binary index")]
    BadIndex,
    /// E12: a bucket of the hash index does not match the items.
    #[error("bad hash index")]
    BadHashIndex,
    /// E13: the number of bits or of probes does not fit the filter.
    #[error("bad filter")]
    BadFilter,
    /// E14: a handle is not minimally encoded, or names no range of bytes of its source.
    #[error("bad handle")]
    BadHandle,
    /// E15: an allocation failed.
    #[error("out of memory")]
    Memory,
}

/// A result of the block layer.
pub type Result<T> = std::result::Result<T, Error>;

/// A result whose only error is a failed allocation.
pub type AllocResult<T> = std::result::Result<T, AllocError>;

impl From<AllocError> for Error {
    ghost from_gives = { λ _ e. e ≡ Memory };

    fn from(_error: AllocError) -> Error {
        Error::Memory
    }
}

impl<T: Drop> From<AllocFailed<T>> for Error {
    ghost from_gives = { λ _ e. e ≡ Memory };

    fn from(_error: AllocFailed<T>) -> Error {
        Error::Memory
    }
}

impl From<io::Error> for Error {
    ghost from_gives = { λ _ e. e ≡ Io };

    fn from(_error: io::Error) -> Error {
        Error::Io
    }
}
