//! The hash index of a block: a bucket of one byte for keys of equal hash, which names their
//! restart interval.
pub mod builder;
pub mod reader;

pub use builder::{Builder, MAX_POINTERS_FOR_HASH_INDEX};
pub use reader::{Lookup, Reader};

/// The byte of a bucket into which no key falls.
pub const MARKER_FREE: u8 = 254;

/// The byte of a bucket into which keys of several restart intervals fall.
pub const MARKER_CONFLICT: u8 = 255;
