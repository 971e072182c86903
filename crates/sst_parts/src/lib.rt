//! Over `sstable_blocks` and `sst_sources`: parted tables, which are table files one after the other
//! and an index over them, of which a read reads of one part the footer, the filter, the index and
//! one block, and whose parts are copied into other tables as they are; scans of them from both
//! ends, a part at a time, also over borrowed bytes without checks; tables of either kind, as
//! sources and readers of merges; reads of many keys of a table, each block once; and caches of
//! blocks and of open parts, which tables share.
#![tactic(auto)]

pub mod any_ref_scan;
pub mod any_scan;
pub mod any_table;
pub mod block_cache;
mod block_filler;
pub mod cache;
pub mod cached_parted;
pub mod cached_table;
pub mod checking;
mod closed;
pub mod copier;
pub mod laws;
pub mod merging;
mod part;
pub mod part_cache;
mod part_core;
mod part_range;
pub mod parted_ref;
pub mod parts_reader;
pub mod ref_scan;
pub mod scan;
mod scan_end;
pub mod stored;
pub mod table;
pub mod writer;

pub use any_ref_scan::AnyRefScan;
pub use any_scan::AnyScan;
pub use any_table::AnyTable;
pub use block_cache::BlockCache;
pub use cache::Cache;
pub use cached_parted::CachedParted;
pub use cached_table::CachedTable;
pub use checking::PartedSummary;
pub use copier::PartCopier;
pub use merging::{merge_parts, write_rest};
pub use part_cache::{Numbers, PartCache};
pub use parted_ref::PartedRef;
pub use parts_reader::PartsReader;
pub use ref_scan::PartedRefScan;
pub use scan::PartedScan;
pub use table::PartedTable;
pub use writer::{PartForm, PartSizes, PartWriter};
