//! Parted tables over borrowed bytes, read without checks and without memory.
ghost use Rattle.std.specs.Prelude.{◌≡◌, ℕ, ◌+◌, ◌<◌, ◌≤◌, List, IfOk, Ok, Some, length};
ghost use Rattle.std.specs.Prelude.{slice_get};
ghost use Rattle.sst_parts.specs.PartChecks.{ForParted, IsPartedSummary, IsPartedTable};
ghost use Rattle.sst_parts.specs.PartChecks.{check_parted, summary_of_parts};
ghost use Rattle.sst_parts.specs.Parts.{IsStoredPart, most_by_places, parted_most};
ghost use Rattle.sstable_blocks.specs.RunPlaces.{part_in};
ghost use Rattle.sst_parts.specs.Parts.{places_in, tops_at};
ghost use Rattle.sst_parts.specs.PartScans.{part_reads};
ghost use Rattle.sstable_blocks.specs.Blocks.{joined};
ghost use Rattle.sstable_blocks.specs.Footer.{table_handles};
ghost use Rattle.sstable_blocks.specs.Opened.{IsFrameRange, payload_in, range_of};
ghost use Rattle.sstable_blocks.specs.Prelude.{CountsBetween, Entry, entries, Handle, handles};
ghost use Rattle.sstable_blocks.specs.Prelude.{IsIndexBlock, first_match};
ghost use Rattle.sstable_blocks.specs.RunReading.{hashes};
ghost use Rattle.sstable_blocks.specs.Scans.{entries_read, range_by};
ghost use Rattle.sstable_blocks.specs.Sound.{IsSound};
ghost use Rattle.sstable_blocks.specs.Sources.{GivesOr};

use crate::checking::PartedSummary;
use crate::laws::{
    parted_index_is_read, parted_is_accepted, parted_is_found, parted_parts_are_scanned,
};
use crate::part::find_in;
use crate::table::PartedTable;
use sstable_blocks::run::footer::FOOTER_LEN;
use sstable_blocks::run::read::index_over;
use sstable_blocks::run::{MemorySource, RunHandles, RunRef, RunScan, decode_footer};
use sstable_blocks::table::index_block::IndexBlockRef;
use sstable_blocks::{BlockHandle, BlockHash, EntryView, Result, SeqNo, Slice, Steps};
use std::alloc::Global;
use std::marker::{Model, PhantomData};
use std::ops::Bound;

// The bytes of a part.
fn part_of<'a>(bytes: &'a [u8], part: &BlockHandle) -> &'a [u8]
    requires { part.now.offset + part.now.size ≤ length bytes.now }
    ensures { result.now ≡ part_in bytes.now part.now }
{
    let (_, rest) = bytes.split_at(*part.offset() as usize);
    let (file, _) = rest.split_at(part.size() as usize);
    file
}

// The handles in the footer of a table file.
fn places_of(file: &[u8]) -> RunHandles
    requires { (places : RunHandles) × (table_handles file.now ≡ Ok places) }
    ensures { table_handles file.now ≡ Ok result }
{
    let (_, footer) = file.split_at(file.len() - FOOTER_LEN);
    match decode_footer(footer) {
        Ok(places) => places,
        Err(_) => unreachable!(),
    }
}

// The run of the part in a range.
fn run_of<'a, H: BlockHash>(bytes: &'a [u8], part: &BlockHandle) -> RunRef<'a, H>
    requires { (blocks : List (List Entry)) × (h : Handle) × (part.now ≡ range_of h)
        × IsStoredPart (hashes H.hash64 H.hash128) bytes.now blocks h }
    ensures bytes { result.bytes ≡ part_in bytes.now part.now }
    ensures handles { table_handles (part_in bytes.now part.now) ≡ Ok result.handles }
    ensures sound { (blocks : List (List Entry)) (h : Handle) → part.now ≡ range_of h
        → IsStoredPart (hashes H.hash64 H.hash128) bytes.now blocks h
        → IsSound (hashes H.hash64 H.hash128) blocks result.bytes result.handles }
{
    let file = part_of(bytes, part);
    let places = places_of(file);
    RunRef::new(file, &places)
}

// The first match in a part of a parted table.
fn find_in_part<'a, H: BlockHash>(
    bytes: &'a [u8],
    part: &BlockHandle,
    needle: &[u8],
    seqno: SeqNo,
    steps: &mut Steps,
) -> Option<EntryView<'a>>
    requires { (blocks : List (List Entry)) × (h : Handle) × (part.now ≡ range_of h)
        × IsStoredPart (hashes H.hash64 H.hash128) bytes.now blocks h }
    ensures found { (blocks : List (List Entry)) (h : Handle) → part.now ≡ range_of h
        → IsStoredPart (hashes H.hash64 H.hash128) bytes.now blocks h
        → result ≡ first_match entries needle.now seqno (joined blocks) }
    ensures counts { CountsBetween steps.old steps.new (0, 0)
        (most_by_places (part_in bytes.now part.now) (places_in bytes.now part.now) needle.now
        seqno) }
{
    run_of::<H>(bytes, part).find(needle, seqno, steps)
}

// Checks a whole parted table in memory. Nothing of it is copied.
fn summary_in<H: BlockHash>(
    alloc: Global,
    bytes: &Slice,
    top: &BlockHandle,
) -> Result<PartedSummary>
    ensures exact { GivesOr ⊥ ⊥ (λ s. s) result
        (check_parted (hashes H.hash64 H.hash128) bytes.now top.now) }
    ensures sound { IfOk result (IsPartedSummary (hashes H.hash64 H.hash128) bytes.now top.now) }
{
    let source = MemorySource::new(bytes.clone()?);
    let mut table = PartedTable::<H, MemorySource>::open(alloc, source, *top)?;
    table.verify(alloc)
}

/// A parted table over bytes that it borrows, such as a mapped file, which is known to be one: it
/// is read without checks and checksums, nothing is copied, no memory is taken, and no read fails.
/// What it gives borrows these bytes, and may be kept as long as they are borrowed.
///
/// Clauses see the bytes, the handle of the index of the parts, the handles of the parts, and the
/// restart interval of that index.
#[derive(Drop)]
pub struct PartedRef<'a, H: BlockHash> {
    bytes: &'a [u8],
    top: BlockHandle,
    index: IndexBlockRef<'a>,
    hash: PhantomData<H>,
}

impl<'a, H: BlockHash> Model for PartedRef<'a, H> {
    ghost use Rattle.std.specs.Prelude.{◌≡◌, ℕ, List, Ok};
    ghost use Rattle.sst_parts.specs.PartChecks.{IsPartedTable};
    ghost use Rattle.sst_parts.specs.Parts.{PartedParts, tops_at};
    ghost use Rattle.sstable_blocks.specs.RunReading.{hashes};

    ghost Value = { PartedParts (List ℕ) };

    ghost view = { λ r. record {
      source = r.bytes.now;
      top = r.top;
      tops = r.index.items;
      interval = r.index.interval;
    } };

    ghost invariant = { λ r. IsPartedTable (hashes H.hash64 H.hash128) r.bytes.now r.top
        × (tops_at (hashes H.hash64 H.hash128) r.bytes.now r.top ≡ Ok r.index.items) };
}

impl<'a, H: BlockHash> PartedRef<'a, H> {
    /// Reads bytes that are a parted table, as [`PartWriter`](crate::PartWriter) writes one and
    /// [`PartedTable::verify`] accepts it, with the handle of the index
    /// of its parts. Nothing of it is tested, and no checksum is computed.
    pub fn new(bytes: &'a [u8], top: &BlockHandle) -> PartedRef<'a, H>
        requires { IsPartedTable (hashes H.hash64 H.hash128) bytes.now top.now }
        ensures bytes { result.source ≡ bytes.now }
        ensures top { result.top ≡ top.now }
        ensures tops { tops_at (hashes H.hash64 H.hash128) bytes.now top.now ≡ Ok result.tops }
    {
        parted_index_is_read();
        PartedRef {
            bytes,
            top: *top,
            index: index_over(bytes, top),
            hash: PhantomData,
        }
    }

    /// Checks a whole parted table of any bytes, as [`PartedTable::open`] and
    /// [`PartedTable::verify`] do, and returns it with its summary. No byte is copied.
    ///
    /// # Errors
    ///
    /// Those of these two but for `Error::Io`.
    pub fn check(
        alloc: Global,
        bytes: &'a Slice,
        top: &BlockHandle,
    ) -> Result<(PartedRef<'a, H>, PartedSummary)>
        ensures table { IfOk result (λ r. (r.0.source ≡ bytes.now) × (r.0.top ≡ top.now)) }
        ensures exact { GivesOr ⊥ ⊥ (λ r. r.1) result
            (check_parted (hashes H.hash64 H.hash128) bytes.now top.now) }

        // What is accepted is a parted table, and the summary is that of its parts.
        ensures sound { IfOk result (λ r. IsPartedSummary (hashes H.hash64 H.hash128) bytes.now
            top.now r.1) }

        // A parted table is accepted.
        ensures accepts { ForParted (hashes H.hash64 H.hash128) bytes.now top.now
            (λ parts. GivesOr ⊥ ⊥ (λ r. r.1) result (Ok (summary_of_parts parts))) }
    {
        parted_is_accepted();
        match summary_in::<H>(alloc, bytes, top) {
            Ok(summary) => Ok((PartedRef::new(bytes.as_slice(), top), summary)),
            Err(error) => Err(error),
        }
    }

    /// Finds the first entry with this key whose sequence number is strictly below `seqno`, in the
    /// part that can hold it by key and sequence number. Takes no memory.
    ///
    /// What is examined is added to `steps`: as by [`PartedTable::get`].
    pub fn find(&self, needle: &[u8], seqno: SeqNo, steps: &mut Steps) -> Option<EntryView<'a>>
        ensures found { ForParted (hashes H.hash64 H.hash128) self.now.source self.now.top
            (λ parts. result ≡ first_match entries needle.now seqno (joined (joined parts))) }
        ensures counts { CountsBetween steps.old steps.new (1, 0)
            (parted_most self.now.source self.now.tops self.now.interval needle.now seqno) }
    {
        parted_is_found();
        match find_in(&self.index, needle, seqno, steps) {
            None => None,
            Some(part) => find_in_part::<H>(self.bytes, &part, needle, seqno, steps),
        }
    }

    // The same table.
    pub(crate) fn again(&self) -> PartedRef<'a, H>
        ensures { result ≡ self.now }
    {
        PartedRef {
            bytes: self.bytes,
            top: self.top,
            index: IndexBlockRef::new(self.index.as_slice()),
            hash: PhantomData,
        }
    }

    // The index of the parts.
    pub(crate) fn index(&self) -> &IndexBlockRef<'a>
        ensures items { result.now.items ≡ self.now.tops }
        ensures interval { result.now.interval ≡ self.now.interval }
    {
        &self.index
    }

    // States in a proof that the handles of the parts are those of the bytes.
    pub(crate) fn note_tops(&self)
        ensures { tops_at (hashes H.hash64 H.hash128) self.now.source self.now.top
            ≡ Ok self.now.tops }
    {
        let _bytes = self.bytes;
    }

    // Scans the part at an index: its entries between two bounds. The handles that are decoded are
    // added to `steps`.
    pub(crate) fn scan_part<'k>(
        &self,
        index: usize,
        from: Bound<&'k [u8]>,
        to: Bound<&'k [u8]>,
        steps: &mut Steps,
    ) -> RunScan<'a, 'k, H>
        requires { index < length self.now.tops }
        ensures looked { steps.old.heads ≡ steps.new.heads }
        ensures decoded { steps.old.entries + 1 ≤ steps.new.entries }
        ensures left { (h : Handle) → slice_get self.now.tops index ≡ Some h
            → result.left ≡ entries_read (part_reads (hashes H.hash64 H.hash128) self.now.source
            (range_by (λ k. k.now) from.entry to.entry) h) }
    {
        parted_parts_are_scanned();
        let part = self.index.handle_at(index, steps);
        run_of::<H>(self.bytes, &part).scan_range(from, to)
    }
}

impl<H: BlockHash> PartedTable<H, MemorySource> {
    /// Returns a parted table in memory, which is one, as [`PartedTable::verify`] finds out: it is
    /// read without checks and checksums, by the index of the parts and the table of its heads that
    /// were kept. Nothing is tested, and no memory is taken.
    pub fn trusted(&self) -> PartedRef<'_, H>
        requires { IsPartedTable (hashes H.hash64 H.hash128) self.now.source.inner self.now.top }
        ensures { result ≡ record {
          source = self.now.source.inner;
          top = self.now.top;
          tops = self.now.tops;
          interval = self.now.interval;
        } }
    {
        PartedRef {
            bytes: self.source().bytes().as_slice(),
            top: *self.top(),
            index: self.index().by_ref(),
            hash: PhantomData,
        }
    }
}
