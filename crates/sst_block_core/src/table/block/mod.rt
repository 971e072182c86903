//! Blocks: the block encoder and decoder, the binary and the hash index, the check, and searches.
pub(crate) mod back;
pub mod binary_index;
pub mod bound;
pub mod candidate;
pub mod check;
pub mod decoder;
pub mod encoder;
pub mod ends;
pub(crate) mod form_reader;
pub mod hash_index;
pub mod heads;
pub mod intervals;
pub mod key_parts;
pub mod key_ranges;
pub(crate) mod place;
pub(crate) mod positions;
pub mod reading;
pub(crate) mod search;
pub(crate) mod seeks;
pub mod trailer;

pub use decoder::{Decodable, Decoder, ParsedItem};
pub use encoder::{Encodable, Encoder};
pub use trailer::Trailer;
