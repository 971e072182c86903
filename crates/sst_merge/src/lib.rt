//! Reads and merges of a storage engine over tables: ordered merges of any number of sources, what
//! a snapshot sees, and compaction. It stands on the public contracts of the block layer alone.
#![tactic(auto)]

mod block_len;
pub mod bottom;
pub mod compact;
pub mod compaction;
pub mod kept_key;
pub mod laws;
pub mod merge;
pub mod movable;
pub mod movable_blocks;
pub mod movable_list;
pub mod movable_table;
mod open_end;
pub mod output;
pub mod ranged;
pub mod reader;
pub mod snapshot;
pub mod writing;

pub use bottom::{Bottom, OlderRanges};
pub use compact::Compact;
pub use compaction::{compact_tables, write_tables};
pub use kept_key::KeepsKey;
pub use merge::Merge;
pub use movable::{Keyed, Movable, MovableMerge};
pub use movable_blocks::MovableBlocks;
pub use movable_list::MovableList;
pub use movable_table::MovableTable;
pub use output::Outputs;
pub use ranged::Ranged;
pub use reader::{read_levels, read_tables};
pub use snapshot::Snapshot;
pub use sst_sources::{Head, Ranked, Reader, Rev, Reversed, Source, keep_error, note_error};
pub use writing::{Sizes, write_table};
