//! Scans of tables of either kind.
ghost use Rattle.std.specs.Prelude.{◌≡◌, ◌<◌, true, IfOk, IfSome, None};
ghost use Rattle.std.specs.declared.ops.Bound.TheVariants.{Unbounded};
ghost use Rattle.sst_parts.specs.AnyScans.{BeginsAnyScan, CountsFirstOfAny, CountsLastOfAny};
ghost use Rattle.sst_parts.specs.AnyScans.{GivesFirstOfAny, GivesLastOfAny, IsSameAnyScan};
ghost use Rattle.sst_parts.specs.AnyScans.{LooksInAnyScan, UsesAnyScan, ended_in, most_in};
ghost use Rattle.sst_parts.specs.AnyScans.{range_in};
ghost use Rattle.sstable_blocks.specs.Ends.{IsFewer};
ghost use Rattle.sstable_blocks.specs.RunReading.{hashes};
ghost use Rattle.sstable_blocks.specs.Scans.{EndsBy, in_range, range_by};

use crate::any_table::AnyTable;
use crate::scan::PartedScan;
use sstable_blocks::run::{FrameSource, Scan};
use sstable_blocks::{BlockHash, InternalValue, Result};
use std::alloc::Global;
use std::ops::Bound;

/// A scan of a range of keys of a table, plain or parted, from both ends.
#[derive(Drop)]
pub enum AnyScan<'k, H: BlockHash, S: FrameSource> {
    /// A block at a time.
    Plain(Scan<'k, H, S>),
    /// A part at a time.
    Parted(PartedScan<'k, H, S>),
}

impl<'k, H: BlockHash, S: FrameSource> AnyScan<'k, H, S> {
    /// Takes the first entry that is left, as [`Scan::next_entry`] or [`PartedScan::next_entry`]
    /// does.
    ///
    /// # Errors
    ///
    /// Those of [`Scan::next_entry`] or [`PartedScan::next_entry`]. An error ends the scan.
    pub fn next_entry(&mut self, alloc: Global) -> Result<Option<InternalValue>>
        ensures same { IsSameAnyScan self.old self.new }
        ensures source { UsesAnyScan S.bytes S.failures S.reads S.is_reliable
            self.old self.new result }
        ensures in_range { IfOk result (λ x. IfSome x
            (λ entry. in_range (range_in self.old) entry.key.user_key ≡ true)) }
        ensures first { GivesFirstOfAny (hashes H.hash64 H.hash128) S.bytes S.failures S.is_reliable
            self.old self.new result }
        ensures ended { EndsBy (ended_in self.old) (ended_in self.new) result }
        ensures fewer { IfOk result (IsFewer (most_in self.old) (most_in self.new)) }
        ensures looked { LooksInAnyScan self.old self.new result }
        ensures counts { CountsFirstOfAny S.bytes self.old self.new result }
    {
        match self {
            AnyScan::Plain(scan) => scan.next_entry(alloc),
            AnyScan::Parted(scan) => scan.next_entry(alloc),
        }
    }

    /// Takes the last entry that is left, as [`Scan::next_entry_back`] or
    /// [`PartedScan::next_entry_back`] does.
    ///
    /// # Errors
    ///
    /// Those of [`AnyScan::next_entry`].
    pub fn next_entry_back(&mut self, alloc: Global) -> Result<Option<InternalValue>>
        ensures same { IsSameAnyScan self.old self.new }
        ensures source { UsesAnyScan S.bytes S.failures S.reads S.is_reliable
            self.old self.new result }
        ensures in_range { IfOk result (λ x. IfSome x
            (λ entry. in_range (range_in self.old) entry.key.user_key ≡ true)) }
        ensures last { GivesLastOfAny (hashes H.hash64 H.hash128) S.bytes S.failures S.is_reliable
            self.old self.new result }
        ensures ended { EndsBy (ended_in self.old) (ended_in self.new) result }
        ensures fewer { IfOk result (IsFewer (most_in self.old) (most_in self.new)) }
        ensures looked { LooksInAnyScan self.old self.new result }
        ensures counts { CountsLastOfAny S.bytes self.old self.new result }
    {
        match self {
            AnyScan::Plain(scan) => scan.next_entry_back(alloc),
            AnyScan::Parted(scan) => scan.next_entry_back(alloc),
        }
    }
}

impl<H: BlockHash, S: FrameSource> AnyTable<H, S> {
    /// Scans all entries.
    pub fn scan<'k>(self) -> AnyScan<'k, H, S>
        ensures { BeginsAnyScan (hashes H.hash64 H.hash128) S.bytes self
            (record { from = Unbounded; to = Unbounded }) result }
    {
        match self {
            AnyTable::Plain(table) => AnyScan::Plain(table.scan()),
            AnyTable::Parted(table) => AnyScan::Parted(table.scan()),
        }
    }

    /// Scans the entries whose keys are in a range.
    pub fn scan_range<'k>(self, from: Bound<&'k [u8]>, to: Bound<&'k [u8]>) -> AnyScan<'k, H, S>
        ensures { BeginsAnyScan (hashes H.hash64 H.hash128) S.bytes self
            (range_by (λ k. k.now) from.entry to.entry) result }
    {
        match self {
            AnyTable::Plain(table) => AnyScan::Plain(table.scan_range(from, to)),
            AnyTable::Parted(table) => AnyScan::Parted(table.scan_range(from, to)),
        }
    }
}
