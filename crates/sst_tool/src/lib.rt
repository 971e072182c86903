//! What the commands of `sstool` are made of: its words, its faults, the hash function of a table,
//! the numbers and lines that it shows, frames that are found in any bytes, sources that are
//! limited, ordered or seen at a number, and tables that are written.
#![tactic(auto)]

pub mod fault;
pub mod frames;
pub mod hash;
pub mod keys;
pub mod limited;
pub mod lines;
pub mod long_keys;
pub mod new_tables;
pub mod observed;
pub mod ordered;
pub mod place;
pub mod probes;
pub mod progress;
pub mod seen_back;
pub mod show;
pub mod sizes;
pub mod tidy;
pub mod whole;
pub mod words;

pub use fault::Fault;
pub use progress::Progress;
pub use words::{command, is_list};
