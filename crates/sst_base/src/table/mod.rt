//! Table modules.
pub mod block;
pub mod util;
