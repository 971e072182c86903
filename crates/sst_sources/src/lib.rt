//! What merges and reads of several tables are over: ordered lists of versions that are taken one
//! after the other, and what is read by key. Scans and tables of `sstable_blocks` are such, and so
//! is what an engine holds in memory.
#![tactic(auto)]

mod front;
pub mod head;
pub mod memory;
pub mod ranked;
pub mod reader;
pub mod rev;
pub mod source;
pub mod stored;

pub use head::{Head, goes_first};
pub use ranked::Ranked;
pub use reader::Reader;
pub use rev::{Rev, Reversed};
pub use source::{Source, keep_error, note_error};
