//! Scans of tables of either kind over borrowed bytes, without checks and without memory.
ghost use Rattle.std.specs.Prelude.{◌≡◌, List, map};
ghost use Rattle.sst_parts.specs.AnyScans.{ref_left};
ghost use Rattle.sst_parts.specs.AnyTables.{HasEntries, source_in};
ghost use Rattle.sstable_blocks.specs.Prelude.{Entry, plain};
ghost use Rattle.sstable_blocks.specs.RunReading.{hashes};

use crate::any_table::AnyTable;
use crate::ref_scan::PartedRefScan;
use sstable_blocks::BlockHash;
use sstable_blocks::run::{MemorySource, RunScan};

/// A scan of a table of either kind over borrowed bytes. Each entry borrows them; no step takes
/// memory, and none fails. It is a source of `sst_sources`.
#[derive(Drop)]
pub enum AnyRefScan<'a, 'k, H: BlockHash> {
    /// A block at a time.
    Plain(RunScan<'a, 'k, H>),
    /// A part at a time, and of that a block.
    Parted(PartedRefScan<'a, 'k, H>),
}

impl<H: BlockHash> AnyTable<H, MemorySource> {
    /// Scans all entries of a table in memory that is one, as [`Table::verify`] or
    /// [`PartedTable::verify`] finds out, without checks and checksums. Nothing is tested.
    ///
    /// [`Table::verify`]: sstable_blocks::run::Table::verify
    /// [`PartedTable::verify`]: crate::PartedTable::verify
    pub fn trusted_scan<'k>(&self) -> AnyRefScan<'_, 'k, H>
        requires { (items : List Entry) × HasEntries (hashes H.hash64 H.hash128) self.now
            (source_in self.now).inner items }
        ensures { (items : List Entry) → HasEntries (hashes H.hash64 H.hash128) self.now
            (source_in self.now).inner items → ref_left result ≡ map plain items }
    {
        match self {
            AnyTable::Plain(table) => AnyRefScan::Plain(table.trusted().scan()),
            AnyTable::Parted(table) => AnyRefScan::Parted(table.trusted().scan()),
        }
    }
}
