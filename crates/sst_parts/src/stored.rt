//! Stored tables, parted or of either kind: scans as sources, tables as readers.
ghost use Rattle.std.specs.Option.{option_map};
ghost use Rattle.std.specs.Prelude.{IfSome};
ghost use Rattle.sst_sources.specs.Stored.{MayFailAnyTime, read_errors, scan_list};
ghost use Rattle.sst_parts.specs.AnyScans.{ref_left};
ghost use Rattle.sst_parts.specs.PartScans.{parts_left};
ghost use Rattle.sst_parts.specs.Parts.{parted_most, read_by_top};
ghost use Rattle.sst_parts.specs.StoredLaws.{any_ordered, parted_ordered};
ghost use Rattle.sst_parts.specs.StoredParts.{MayFailIn, any_left, any_list, any_most};
ghost use Rattle.sst_parts.specs.StoredParts.{known_left, parted_list};
ghost use Rattle.sstable_blocks.specs.Lookup.{handle_for};
ghost use Rattle.sstable_blocks.specs.Prelude.{handles};
ghost use Rattle.sstable_blocks.specs.RunReading.{hashes};
ghost use Rattle.sstable_blocks.specs.Sources.{FailsAs};

use crate::any_ref_scan::AnyRefScan;
use crate::any_scan::AnyScan;
use crate::any_table::AnyTable;
use crate::laws::{accepted_parted_is_sound, parted_is_scanned};
use crate::ref_scan::PartedRefScan;
use crate::scan::PartedScan;
use crate::table::PartedTable;
use sst_sources::{Reader, Source};
use sstable_blocks::laws::first_match_of_plain;
use sstable_blocks::run::FrameSource;
use sstable_blocks::{BlockHash, EntryView, InternalValue, Result, SeqNo, Steps};
use std::alloc::Global;

/// A scan of a parted table. Its entries are known where the bytes of the table are, every part
/// left is read without an error, and the scan has not ended with one.
impl<'k, H: BlockHash, S: FrameSource> Source<InternalValue> for PartedScan<'k, H, S> {
    ghost left = { λ s. record {
      list = scan_list s.ended (S.bytes s.table.source)
          (λ all. parts_left (hashes H.hash64 H.hash128) all s);
      most = s.most;
      errors = option_map
          (λ all. read_errors (parts_left (hashes H.hash64 H.hash128) all s))
          (S.bytes s.table.source);
      ended = s.ended;
    } };

    ghost may_fail = { MayFailAnyTime S.is_reliable };

    #[inline(always)]
    fn next_entry(&mut self, alloc: Global) -> Result<Option<InternalValue>> {
        self.next_entry(alloc)
    }
}

/// A scan of a table of either kind. Its entries are known where the bytes of the table are, all
/// that is left is read without an error, and the scan has not ended with one.
impl<'k, H: BlockHash, S: FrameSource> Source<InternalValue> for AnyScan<'k, H, S> {
    ghost left = { any_left (hashes H.hash64 H.hash128) S.bytes };

    ghost may_fail = { MayFailAnyTime S.is_reliable };

    #[inline(always)]
    fn next_entry(&mut self, alloc: Global) -> Result<Option<InternalValue>> {
        self.next_entry(alloc)
    }
}

/// A scan of a parted table over borrowed bytes, whose entries are known. It gives entries that
/// borrow these bytes, takes no memory, and never fails.
impl<'a, 'k, H: BlockHash> Source<EntryView<'a>> for PartedRefScan<'a, 'k, H> {
    ghost left = { λ s. known_left s.left };

    ghost may_fail = { λ _. ⊥ };

    #[inline(always)]
    fn next_entry(&mut self, _alloc: Global) -> Result<Option<EntryView<'a>>> {
        Ok(self.next())
    }
}

/// The same of a table of either kind.
impl<'a, 'k, H: BlockHash> Source<EntryView<'a>> for AnyRefScan<'a, 'k, H> {
    ghost left = { λ s. known_left (ref_left s) };

    ghost may_fail = { λ _. ⊥ };

    #[inline(always)]
    fn next_entry(&mut self, alloc: Global) -> Result<Option<EntryView<'a>>> {
        match self {
            AnyRefScan::Plain(scan) => scan.next_entry(alloc),
            AnyRefScan::Parted(scan) => scan.next_entry(alloc),
        }
    }
}

/// A parted table. Its entries are known where its bytes are, and the check of a parted table
/// accepts them; a read counts at most as many heads and entries as [`PartedTable::get`] says.
impl<H: BlockHash, S: FrameSource> Reader for PartedTable<H, S> {
    ghost list = { λ t. parted_list (hashes H.hash64 H.hash128) (S.bytes t.source) t.top t.tops };

    ghost ordered = { λ t. parted_ordered (hashes H.hash64 H.hash128) (S.bytes t.source) t.top
        t.tops };

    ghost most = { λ t needle seqno. option_map
        (λ all. parted_most all t.tops t.interval needle seqno) (S.bytes t.source) };

    ghost may_fail = { λ t needle seqno e. IfSome (S.bytes t.source) (λ all.
        FailsAs (Unit {0}) (S.is_reliable t.source)
        (read_by_top (hashes H.hash64 H.hash128) all (handle_for handles needle seqno t.tops)
        needle seqno) e) };

    fn get(
        &mut self,
        alloc: Global,
        needle: &[u8],
        seqno: SeqNo,
        steps: &mut Steps,
    ) -> Result<Option<InternalValue>> {
        accepted_parted_is_sound();
        parted_is_scanned();
        first_match_of_plain();
        // It is that of the bytes.
        let _index = self.index();
        self.get(alloc, needle, seqno, steps)
    }
}

/// A table of either kind. Its entries are known where its bytes are, and the check of its kind
/// accepts them.
impl<H: BlockHash, S: FrameSource> Reader for AnyTable<H, S> {
    ghost list = { any_list (hashes H.hash64 H.hash128) S.bytes };

    ghost ordered = { any_ordered (hashes H.hash64 H.hash128) S.bytes };

    ghost most = { any_most S.bytes };

    ghost may_fail = { MayFailIn (hashes H.hash64 H.hash128) S.bytes S.is_reliable };

    fn get(
        &mut self,
        alloc: Global,
        needle: &[u8],
        seqno: SeqNo,
        steps: &mut Steps,
    ) -> Result<Option<InternalValue>> {
        match self {
            AnyTable::Plain(table) => Reader::get(table, alloc, needle, seqno, steps),
            AnyTable::Parted(table) => Reader::get(table, alloc, needle, seqno, steps),
        }
    }
}
