//! Blocks: header and payload, encoder and decoder, binary index and trailer.
pub use sst_base::table::block::{Block, BlockHandle, BlockOffset, BlockType, Header, header};
pub use sst_block_core::BlockItem;
pub use sst_block_core::table::block::{
    Decodable, Decoder, Encodable, Encoder, ParsedItem, Trailer, binary_index, bound, check,
    decoder, encoder, hash_index, heads, intervals, key_ranges, trailer,
};
