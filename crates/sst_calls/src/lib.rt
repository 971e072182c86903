//! What the calls for C do: `sst_c` has the calls, and `examples/c/sst.h` is the document for
//! callers.
//!
//! Bytes and arrays are borrowed for the call; nothing that owns memory crosses, and nothing is
//! kept between calls, so any thread may call. A function returns a status; where its comment says
//! a number, that is the status's code: see [`codes`].
#![tactic(auto)]

pub mod block_scan;
mod block_view;
pub mod codes;
pub mod compact;
pub mod data_block;
pub mod entries;
pub mod filter;
pub mod footer;
pub mod frame;
mod fronts;
pub mod handles;
pub mod hash;
pub mod index_block;
pub mod index_scan;
mod items_from;
pub mod merge_scan;
pub mod open_run;
mod output;
mod placed;
pub mod run;
pub mod run_check;
mod run_entries;
pub mod run_fetch;
pub mod run_range;
pub mod run_scan;
pub mod run_write;
mod source;
mod walk;
pub mod window;
