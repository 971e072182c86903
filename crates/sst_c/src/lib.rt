//! The calls for C of the block layer: `examples/c/sst.h` is the document for callers.
//!
//! Each call is one of a function of `sst_calls`, and returns the code of the status that it
//! returns. A static library exports no function of another crate.
#![tactic(auto)]

mod blocks;
mod filters;
mod frames;
mod runs;
mod scans;
mod version;
mod writes;
