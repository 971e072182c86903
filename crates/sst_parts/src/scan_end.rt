//! The part at an end of a scan: its bytes were read whole, and are scanned as a table in memory.
ghost use Rattle.std.specs.Prelude.{◌≡◌, ◌≢◌, ◌≤◌, ◌^◌, [], ◌∷◌, Err, IfErr, IfOk, IfSome, None};
ghost use Rattle.std.specs.Prelude.{OnErr, OnOk, true};
ghost use Rattle.std.specs.Option.{option_map};
ghost use Rattle.std.specs.Result.{result_err};
ghost use Rattle.sst_parts.specs.PartScans.{IsGoing, file_reads, most_in, reads_in};
ghost use Rattle.sstable_blocks.specs.BlockReading.{seen_from};
ghost use Rattle.sstable_blocks.specs.Ends.{IsFewer};
ghost use Rattle.sstable_blocks.specs.Results.{Io, Memory};
ghost use Rattle.sstable_blocks.specs.RunReading.{hashes};
ghost use Rattle.sstable_blocks.specs.Scans.{GivesFirst, KeyRange, in_range, most_left, range_by};
ghost use Rattle.sstable_blocks.specs.Scans.{reads_left};

use sstable_blocks::run::{MemorySource, Scan, Table};
use sstable_blocks::{BlockHash, InternalValue, Result, Slice};
use std::alloc::Global;
use std::marker::Model;
use std::ops::Bound;

// Takes the first entry left of a part, or the last one, or returns `None` if none is left.
fn take_from<'k, H: BlockHash>(
    alloc: Global,
    scan: &mut Scan<'k, H, MemorySource>,
    back: bool,
) -> Result<Option<InternalValue>>
    requires { scan.old.ended ≡ None }
    ensures exact { GivesFirst ⊥ ⊥
        (seen_from back (reads_left (hashes H.hash64 H.hash128) scan.old.table.source.inner
        scan.old))
        (seen_from back (reads_left (hashes H.hash64 H.hash128) scan.new.table.source.inner
        scan.new)) result }
    ensures range { scan.new.range ≡ scan.old.range }
    ensures ended { scan.new.ended ≡ result_err result }
    ensures in_range { IfOk result (λ x. IfSome x
        (λ entry. in_range scan.old.range entry.key.user_key ≡ true)) }
    ensures fewer { IfOk result (IsFewer (most_left scan.old) (most_left scan.new)) }
    ensures not_io { IfErr result (λ e. e ≢ Io) }
{
    if back {
        scan.next_entry_back(alloc)
    } else {
        scan.next_entry(alloc)
    }
}

// Puts a value in the place of another.
fn put<T: Drop>(place: &mut T, value: T)
    ensures { place.new ≡ value }
{
    *place = value;
}

// The same where a part was opened. One that returns an error is let go.
fn take_of<'k, H: BlockHash>(
    alloc: Global,
    opened: &mut Option<Scan<'k, H, MemorySource>>,
    back: bool,
) -> Result<Option<InternalValue>>
    requires { IfSome opened.old (λ s. s.ended ≡ None) }
    ensures exact { GivesFirst ⊥ ⊥
        (seen_from back (reads_in (hashes H.hash64 H.hash128) opened.old))
        (seen_from back (reads_in (hashes H.hash64 H.hash128) opened.new)) result }
    ensures going { (r : KeyRange) → IfSome opened.old (IsGoing r)
        → IfSome opened.new (IsGoing r) }
    ensures in_range { (r : KeyRange) → IfSome opened.old (IsGoing r) → IfOk result
        (λ x. IfSome x (λ entry. in_range r entry.key.user_key ≡ true)) }
    ensures fewer { IfOk result (IsFewer (most_in opened.old) (most_in opened.new)) }
    ensures not_io { IfErr result (λ e. e ≢ Io) }
{
    let Some(scan) = opened else {
        return Ok(None);
    };
    match take_from(alloc, scan, back) {
        Ok(found) => Ok(found),
        Err(error) => {
            put(opened, None);
            Err(error)
        }
    }
}

// An end of a scan: its bounds, and the part that was opened there, if one was. Clauses see the
// range of keys, what is left to read of the part, and at most how many entries that are.
#[derive(Drop)]
pub(crate) struct ScanEnd<'k, H: BlockHash> {
    from: Bound<&'k [u8]>,
    to: Bound<&'k [u8]>,
    opened: Option<Scan<'k, H, MemorySource>>,
}

impl<'k, H: BlockHash> Model for ScanEnd<'k, H> {
    ghost use Rattle.sst_parts.specs.PartScans.{IsGoing, ScanEndParts, most_in, reads_in};
    ghost use Rattle.std.specs.Prelude.{IfSome};
    ghost use Rattle.sstable_blocks.specs.RunReading.{hashes};
    ghost use Rattle.sstable_blocks.specs.Scans.{range_by};

    ghost Value = { ScanEndParts };

    ghost view = { λ e. record {
      range = range_by (λ k. k.now) e.from e.to;
      reads = reads_in (hashes H.hash64 H.hash128) e.opened;
      most = most_in e.opened;
    } };

    ghost invariant = { λ e. IfSome e.opened (IsGoing (range_by (λ k. k.now) e.from e.to)) };
}

// Opens a table file in memory, and starts a scan of it.
pub(crate) fn scan_of<'k, H: BlockHash>(
    alloc: Global,
    bytes: Slice,
    from: Bound<&'k [u8]>,
    to: Bound<&'k [u8]>,
) -> Result<Scan<'k, H, MemorySource>>
    ensures reads { IfOk result
        (λ s. reads_left (hashes H.hash64 H.hash128) s.table.source.inner s
        ≡ file_reads (hashes H.hash64 H.hash128) bytes
        (range_by (λ k. k.now) from.entry to.entry)) }
    ensures going { IfOk result (IsGoing (range_by (λ k. k.now) from.entry to.entry)) }
    ensures most { IfOk result (λ s. most_left s ≤ 2 ^ 96) }
    ensures refused { IfErr result (λ e. e ≢ Memory
        → file_reads (hashes H.hash64 H.hash128) bytes (range_by (λ k. k.now) from.entry to.entry)
        ≡ Err e ∷ []) }
    ensures not_io { IfErr result (λ e. e ≢ Io) }
{
    let table = Table::<H, MemorySource>::open_file(alloc, MemorySource::new(bytes))?;
    // A slice has fewer than 2^63 handles.
    let _count = table.index().len();
    Ok(table.scan_range(from, to))
}

impl<'k, H: BlockHash> ScanEnd<'k, H> {
    // An end at which no part was opened.
    pub(crate) fn new(from: Bound<&'k [u8]>, to: Bound<&'k [u8]>) -> ScanEnd<'k, H>
        ensures { result ≡ record {
          range = range_by (λ k. k.now) from.entry to.entry;
          reads = [];
          most = 0;
        } }
    {
        ScanEnd {
            from,
            to,
            opened: None,
        }
    }

    // Opens a part, of which these are the bytes, in the place of one that was opened before. Where
    // its footer, its filter or its index are refused, the end is as it was.
    pub(crate) fn open(&mut self, alloc: Global, bytes: Slice) -> Result<()>
        ensures range { self.new.range ≡ self.old.range }
        ensures reads { OnOk result (self.new.reads
            ≡ file_reads (hashes H.hash64 H.hash128) bytes self.old.range) }
        ensures most { OnOk result (self.new.most ≤ 2 ^ 96) }
        ensures refused { IfErr result (λ e. e ≢ Memory
            → file_reads (hashes H.hash64 H.hash128) bytes self.old.range ≡ Err e ∷ []) }
        ensures unchanged { OnErr result (self.new ≡ self.old) }
        ensures not_io { IfErr result (λ e. e ≢ Io) }
    {
        let scan = scan_of(alloc, bytes, self.from, self.to)?;
        put(&mut self.opened, Some(scan));
        Ok(())
    }

    // The scan of the part that was opened, if one was.
    pub(crate) fn opened(&self) -> Option<&Scan<'k, H, MemorySource>>
        ensures { self.now.reads
            ≡ reads_in (hashes H.hash64 H.hash128) (option_map (λ s. s.now) result) }
    {
        self.opened.as_ref()
    }

    // Takes the first entry left of the part, or the last one, or returns `None` if none is left.
    pub(crate) fn take(&mut self, alloc: Global, back: bool) -> Result<Option<InternalValue>>
        ensures exact { GivesFirst ⊥ ⊥ (seen_from back self.old.reads)
            (seen_from back self.new.reads) result }
        ensures range { self.new.range ≡ self.old.range }
        ensures in_range { IfOk result (λ x. IfSome x
            (λ entry. in_range self.old.range entry.key.user_key ≡ true)) }
        ensures fewer { IfOk result (IsFewer self.old.most self.new.most) }
        ensures not_io { IfErr result (λ e. e ≢ Io) }
    {
        take_of(alloc, &mut self.opened, back)
    }
}
