//! XXH3, the hash function of xxHash 0.8, with the seed 0: of 64 bits, of 128 bits, and of a
//! stream.
#![tactic(auto)]

mod hash128;
mod hash64;
mod secret;
mod state;
mod stream;
mod sums;
mod window;
mod words;

pub use hash64::xxh3_64;
pub use hash128::xxh3_128;
pub use stream::Stream;
