//! The block layer of a log-structured storage engine: sorted entries in blocks with restart
//! intervals, prefix truncation, a binary index and a hash index; Bloom filters; and runs.
//!
//! This crate has the filters and the runs, and names what users need of the crates below it, in
//! the modules of the Rust crate that it ports.
#![tactic(auto)]

pub mod laws;
pub mod run;
pub mod table;
pub mod xxh3_hash;

pub use run::{
    BufferedFile, FileSource, FrameSource, LockFiles, MemorySource, Needle, NewFile, NotMade,
    OpenError, OpenRun, RunConfig, RunHandles, RunRef, RunScan, RunSummary, RunWriter, Scan,
    SharedScan, SizedSource, SyncWrite, Table, TableWriter, cuts_fit, decode_footer, encode_footer,
    end_table, read_entry, read_entry_checked, shared_entry, write_and_read, write_run,
};
pub use sst_base::{
    Block, BlockHandle, BlockHash, BlockOffset, BlockType, ByteSum, Checksum, ChecksumType,
    ChecksummedReader, ChecksummedWriter, Decode, Encode, Error, HashRatio, Header, HeaderName,
    Input, InternalKey, InternalValue, Output, Poly31, Result, SeekInput, SeqNo, Slice, Steps,
    TagName, UserKey, UserValue, ValueType, append_exact, checksum, coding, config,
    double_ended_peekable, error, ghost_state, hash, in_place, input, key, output, slice, value,
    value_type,
};
pub use sst_block_core::{AsEntry, DataBlock, EntryView, IndexBlock, KeyedBlockHandle};
pub use table::filter::{self, FilterBlock};
pub use xxh3_hash::Xxh3;
