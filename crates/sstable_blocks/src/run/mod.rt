//! Runs: an ordered list of entries in blocks, written as frames with an index and a filter.
ghost use Rattle.std.specs.Prelude.{◌≡◌};

pub mod blocks;
mod bounds;
pub mod checked;
pub mod checking;
mod cut;
pub mod ends;
pub mod footer;
mod kept_filter;
pub mod laws;
pub mod many;
pub mod new_file;
mod open_block;
mod open_filter;
pub mod open_run;
mod opened_blocks;
pub mod place;
pub mod read;
pub mod round_trip;
mod run_core;
pub mod run_ref;
pub mod run_scan;
pub mod scan;
mod search;
pub mod shared_scan;
pub mod source;
pub mod sync;
pub mod table;
pub mod table_writer;
pub mod write;
pub mod writer;

pub use checked::read_entry_checked;
pub use checking::{RunSummary, check};
pub use footer::{decode_footer, encode_footer, end_table};
pub use many::{KeyReader, LastBlock, Needle, RunReader, read_many};
pub use new_file::{LockFiles, NewFile, NotMade};
pub use open_run::OpenRun;
pub use place::RunPlace;
pub use read::{read_entry, shared_entry};
pub use round_trip::write_and_read;
pub use run_core::write_part;
pub use run_ref::RunRef;
pub use run_scan::RunScan;
pub use scan::Scan;
pub use shared_scan::SharedScan;
pub use source::{FileSource, FrameSource, MemorySource, SizedSource};
use sst_base::{BlockHandle, HashRatio};
pub use sync::{BufferedFile, SyncWrite};
pub use table::{OpenError, Table};
pub use table_writer::TableWriter;
pub use write::{cuts_fit, write_run};
pub use writer::RunWriter;

/// How a run is written.
#[derive(Clone, Copy, Debug, PartialEq, Eq)]
pub struct RunConfig {
    /// The number of entries in a restart interval of a data block, at least 1.
    pub restart_interval: u8,
    /// The number of buckets for each entry of a data block. The denominator is at least 1.
    pub ratio: HashRatio,
    /// The number of bits of the filter for each entry; 0 for no filter.
    pub bits_per_key: u32,
    /// The number of handles in a restart interval of the index, at least 1.
    pub index_interval: u8,
}

impl RunConfig {
    /// Makes a configuration in which each handle of the index is a head.
    pub fn new(restart_interval: u8, ratio: HashRatio, bits_per_key: u32) -> RunConfig
        ensures { result ≡ record {
          restart_interval = restart_interval;
          ratio = ratio;
          bits_per_key = bits_per_key;
          index_interval = 1;
        } }
    {
        RunConfig {
            restart_interval,
            ratio,
            bits_per_key,
            index_interval: 1,
        }
    }
}

/// Where the index and the filter of a run are.
#[derive(Clone, Copy, Debug, PartialEq, Eq)]
pub struct RunHandles {
    /// The frame of the index.
    pub index: BlockHandle,
    /// The frame of the filter, if there is one.
    pub filter: Option<BlockHandle>,
}
