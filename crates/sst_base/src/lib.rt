//! Byte strings, keys, values, hashes, varints, block headers and errors: the base of the block
//! layer.
#![tactic(auto)]

pub mod checksum;
pub mod coding;
pub mod config;
pub mod divisor;
pub mod double_ended_peekable;
pub mod error;
pub mod ghost_state;
pub mod hash;
pub mod in_place;
pub mod input;
pub mod key;
pub mod laws;
pub mod output;
pub mod slice;
pub mod table;
pub mod value;
pub mod value_type;

pub use checksum::{Checksum, ChecksumType, ChecksummedReader, ChecksummedWriter};
pub use coding::{Decode, Encode, decode_varint, encode_varint};
pub use config::HashRatio;
pub use divisor::Divisor;
pub use error::{AllocResult, Error, HeaderName, Result, TagName};
pub use ghost_state::{Contents, Count, History, Steps};
pub use hash::{BlockHash, ByteSum, Poly31};
pub use input::{Input, SeekInput, append_exact};
pub use key::{InternalKey, SeqNo, UserKey};
pub use output::Output;
pub use slice::Slice;
pub use table::block::{Block, BlockHandle, BlockOffset, BlockType, Header};
pub use table::util::{
    SliceIndexes, compare_bytes, compare_prefixed_slice, longest_shared_prefix_length,
};
pub use value::{InternalValue, UserValue};
pub use value_type::{TypeWord, ValueType};
