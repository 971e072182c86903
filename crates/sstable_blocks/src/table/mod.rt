//! Table modules.
pub mod block;
pub mod filter;

pub use sst_base::table::util;
pub use sst_block_core::table::{data_block, index_block};
