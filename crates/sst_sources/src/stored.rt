//! Stored tables: scans as sources, tables as readers.
ghost use Rattle.sstable_blocks.specs.RunReading.{hashes, read_checked};
ghost use Rattle.sstable_blocks.specs.Sources.{FailsAs};
ghost use Rattle.sstable_blocks.specs.Scans.{most_left, reads_left};
ghost use Rattle.std.specs.Option.{option_map};
ghost use Rattle.std.specs.Prelude.{[], IfSome, None, Some, length, reverse};
ghost use Rattle.sstable_blocks.specs.ReadCosts.{heads_most_in, entries_most_in};
ghost use Rattle.sst_sources.specs.Stored.{MayFailAnyTime, read_errors, scan_list, table_list};
ghost use Rattle.sst_sources.specs.TableReads.{table_ordered};

use crate::reader::Reader;
use crate::rev::{Rev, Reversed, in_reverse};
use crate::source::Source;
use sstable_blocks::laws::first_match_of_plain;
use sstable_blocks::run::laws::{accepted_run_is_sound, sound_is_scanned};
use sstable_blocks::run::{FrameSource, RunScan, Scan, SharedScan, Table};
use sstable_blocks::{BlockHash, EntryView, InternalValue, Result, SeqNo, Steps};
use std::alloc::Global;

/// A scan of a stored table. Its entries are known where the bytes of the table are, every block
/// left is read without an error, and the scan has not ended with one.
impl<'k, H: BlockHash, S: FrameSource> Source<InternalValue> for Scan<'k, H, S> {
    ghost left = { λ s. record {
      list = scan_list s.ended (S.bytes s.table.source)
          (λ all. reads_left (hashes H.hash64 H.hash128) all s);
      most = most_left s;
      errors = option_map
          (λ all. read_errors (reads_left (hashes H.hash64 H.hash128) all s))
          (S.bytes s.table.source);
      ended = s.ended;
    } };

    ghost may_fail = { MayFailAnyTime S.is_reliable };

    #[inline(always)]
    fn next_entry(&mut self, alloc: Global) -> Result<Option<InternalValue>> {
        self.next_entry(alloc)
    }
}

/// The same scan, from the back.
impl<'k, H: BlockHash, S: FrameSource> Source<Reversed<InternalValue>> for Rev<Scan<'k, H, S>> {
    ghost left = { λ s. record {
      list = scan_list s.source.ended (S.bytes s.source.table.source)
          (λ all. reverse (reads_left (hashes H.hash64 H.hash128) all s.source));
      most = most_left s.source;
      errors = option_map
          (λ all. read_errors (reads_left (hashes H.hash64 H.hash128) all s.source))
          (S.bytes s.source.table.source);
      ended = s.source.ended;
    } };

    ghost may_fail = { MayFailAnyTime S.is_reliable };

    #[inline(always)]
    fn next_entry(&mut self, alloc: Global) -> Result<Option<Reversed<InternalValue>>> {
        match self.source.next_entry_back(alloc) {
            Ok(entry) => Ok(in_reverse(entry)),
            Err(error) => Err(error),
        }
    }
}

/// A scan of a run over borrowed bytes, whose entries are known. It gives entries that borrow these
/// bytes, takes no memory, and never fails.
impl<'a, 'k, H: BlockHash> Source<EntryView<'a>> for RunScan<'a, 'k, H> {
    ghost left = { λ s. record {
      list = Some s.left;
      most = length s.left;
      errors = Some [];
      ended = None;
    } };

    ghost may_fail = { λ _. ⊥ };

    #[inline(always)]
    fn next_entry(&mut self, _alloc: Global) -> Result<Option<EntryView<'a>>> {
        Ok(self.next())
    }
}

/// The same scan, from the back.
impl<'a, 'k, H: BlockHash> Source<Reversed<EntryView<'a>>> for Rev<RunScan<'a, 'k, H>> {
    ghost left = { λ s. record {
      list = Some (reverse s.source.left);
      most = length s.source.left;
      errors = Some [];
      ended = None;
    } };

    ghost may_fail = { λ _. ⊥ };

    #[inline(always)]
    fn next_entry(&mut self, _alloc: Global) -> Result<Option<Reversed<EntryView<'a>>>> {
        Ok(in_reverse(self.source.next_back()))
    }
}

/// A scan of a run that makes the entries, which are known. An error is a failed allocation.
impl<'a, 'k, H: BlockHash> Source<InternalValue> for SharedScan<'a, 'k, H> {
    ghost left = { λ s. record {
      list = Some s.scan.left;
      most = length s.scan.left;
      errors = Some [];
      ended = s.ended;
    } };

    ghost may_fail = { λ _. ⊥ };

    #[inline(always)]
    fn next_entry(&mut self, alloc: Global) -> Result<Option<InternalValue>> {
        self.next_entry(alloc)
    }
}

/// The same scan, from the back.
impl<'a, 'k, H: BlockHash> Source<Reversed<InternalValue>> for Rev<SharedScan<'a, 'k, H>> {
    ghost left = { λ s. record {
      list = Some (reverse s.source.scan.left);
      most = length s.source.scan.left;
      errors = Some [];
      ended = s.source.ended;
    } };

    ghost may_fail = { λ _. ⊥ };

    #[inline(always)]
    fn next_entry(&mut self, alloc: Global) -> Result<Option<Reversed<InternalValue>>> {
        let taken = self.source.next_entry_back(alloc);
        match taken {
            Ok(entry) => Ok(in_reverse(entry)),
            Err(error) => Err(error),
        }
    }
}

/// A stored table. Its entries are known where its bytes are, and the check of a run accepts them;
/// a read counts at most as many heads and entries as a read of the run does.
impl<H: BlockHash, S: FrameSource> Reader for Table<H, S> {
    ghost list = { λ t. table_list (hashes H.hash64 H.hash128) (S.bytes t.source) t.handles
        t.index };

    ghost ordered = { λ t. table_ordered (hashes H.hash64 H.hash128) (S.bytes t.source) t.handles
        t.index };

    ghost most = { λ t needle seqno. option_map
        (λ all. (
          heads_most_in all t.handles needle seqno,
          entries_most_in all t.handles needle seqno,
        )) (S.bytes t.source) };

    ghost may_fail = { λ t needle seqno e. IfSome (S.bytes t.source) (λ all.
        FailsAs (Unit {0}) (S.is_reliable t.source)
        (read_checked (hashes H.hash64 H.hash128) all t.handles needle seqno) e) };

    fn get(
        &mut self,
        alloc: Global,
        needle: &[u8],
        seqno: SeqNo,
        steps: &mut Steps,
    ) -> Result<Option<InternalValue>> {
        accepted_run_is_sound();
        sound_is_scanned();
        first_match_of_plain();
        // The index is that of the bytes.
        let _index = self.index();
        self.get(alloc, needle, seqno, steps)
    }
}
