//! Bit arrays of a fixed size. The highest bit of a byte comes first.
pub mod builder;
pub mod reader;

pub use builder::{Builder, enable_bit};
pub use reader::BitArrayReader;

// The first bit of a byte.
const BIT_MASK: u8 = 0b1000_0000;
