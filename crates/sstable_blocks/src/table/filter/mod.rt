//! Bloom filters: whether a key may be there, by a few bits for each key.
pub mod bit_array;
pub mod block;
pub mod filter_type;
pub mod policy;
pub mod standard_bloom;

pub use block::FilterBlock;
pub use filter_type::FilterType;
pub use policy::BloomConstructionPolicy;
