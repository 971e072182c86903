//! The tables that are merged, as sources of entries.
ghost use Rattle.std.specs.Prelude.{◌≡◌, ◌+◌, length, None, OnOk, IfOk};
ghost use Rattle.sst_sources.specs.Stored.{MayFailAnyTime};
ghost use Rattle.sst_tool.specs.Orders.{MayMisplace};
ghost use Rattle.sst_tool.specs.Passed.{passed_on};
ghost use Rattle.sstool.specs.Scanned.{scanned_left};
ghost use Rattle.sstable_blocks.specs.RunReading.{hashes};
ghost use Rattle.sstable_blocks.specs.Sources.{SourceParts};

use crate::open::{CountedFile, open, test_frames};
use crate::source::Scanned;
use sst_merge::{Head, Source};
use sst_parts::AnyTable;
use sst_tool::fault::{Fault, Result};
use sst_tool::long_keys::LongestKey;
use sst_tool::ordered::{Direction, Ordered};
use sst_tool::progress::Progress;
use sstable_blocks::{BlockHash, Error, FileSource, InternalValue, SeekInput};
use std::alloc::Global;
use std::cell::Cell;
use std::marker::PhantomData;
use std::ops::Bound;
use std::rt::Clock;
use std::{io, rt};

/// What a merge notes as it goes: the numbers of the entries that were read and written, and why it
/// failed.
#[derive(Drop)]
pub struct Notes {
    /// The entries that were read of the tables.
    pub read: Cell<u64>,
    /// The entries that were given to the new table.
    pub written: Cell<u64>,
    /// The table of which a read failed, by its index.
    pub failed: Cell<Option<usize>>,
    /// The longest key that a block of the tables ends with.
    pub longest: LongestKey,
    /// Why a write of the new table failed, as the system says.
    pub cause: Cell<Option<io::Error>>,
}

impl Notes {
    /// Begins a merge.
    pub fn new() -> Notes {
        Notes {
            read: Cell::new(0),
            written: Cell::new(0),
            failed: Cell::new(None),
            longest: LongestKey::new(),
            cause: Cell::new(None),
        }
    }
}

/// Counts one.
pub fn count(counter: &Cell<u64>) {
    counter.set(counter.get().saturating_add(1));
}

/// The entries of a table that is merged. It counts those that are read, and notes its index where
/// a read fails.
#[derive(Drop)]
pub struct Merged<'n, I> {
    source: I,
    index: usize,
    notes: &'n Notes,
    // where the block is that was read last: of this table, if it was read in this step
    place: &'n Cell<Option<u64>>,
}

impl<'n, I: Source<InternalValue>> Source<InternalValue> for Merged<'n, I> {
    ghost left = { λ s. I.left s.source };

    ghost may_fail = { I.may_fail };

    fn next_entry(&mut self, alloc: Global) -> sstable_blocks::Result<Option<InternalValue>> {
        self.place.set(None);
        let entry = self.source.next_entry(alloc);
        match &entry {
            Ok(Some(_)) => count(&self.notes.read),
            Ok(None) => (),
            Err(_) => self.notes.failed.set(Some(self.index)),
        }
        entry
    }
}

/// What is written of a merge: it counts the entries that it gives.
#[derive(Drop)]
pub struct Written<'n, I> {
    source: I,
    notes: &'n Notes,
}

impl<'n, I> Written<'n, I> {
    /// Counts the entries of a source as written.
    pub fn new(source: I, notes: &'n Notes) -> Written<'n, I>
        ensures { result.source ≡ source }
    {
        Written { source, notes }
    }
}

impl<'n, I: Source<InternalValue>> Source<InternalValue> for Written<'n, I> {
    ghost left = { λ w. I.left w.source };

    ghost may_fail = { I.may_fail };

    fn next_entry(&mut self, alloc: Global) -> sstable_blocks::Result<Option<InternalValue>> {
        let entry = self.source.next_entry(alloc);
        if let Ok(Some(_)) = &entry {
            count(&self.notes.written);
        }
        entry
    }
}

/// Opens the tables that are merged. (So the functions of a merge are generic over what it reads.)
pub trait Tables {
    /// The entries of a table.
    type Entries: Source<InternalValue> + Drop;

    /// Opens a table, which has this index among those that are merged.
    ///
    /// # Errors
    ///
    /// Those of the file.
    fn entries(&self, alloc: Global, file: &str, index: usize) -> Result<Self::Entries>;

    /// Returns the fault of a table of which a block is not read.
    fn fault(&self, alloc: Global, file: &str, error: Error) -> Fault;
}

/// The tables of files.
#[derive(Drop)]
pub struct Files<'p, H: BlockHash, R> {
    progress: &'p Progress<'p, R>,
    notes: &'p Notes,
    hash: PhantomData<H>,
}

impl<'p, H: BlockHash, R> Files<'p, H, R> {
    /// Reads tables that hash by `H`.
    pub fn new(progress: &'p Progress<'p, R>, notes: &'p Notes) -> Files<'p, H, R> {
        Files {
            progress,
            notes,
            hash: PhantomData,
        }
    }

    // The entries of a table from the first on.
    fn entries_of<F: SeekInput + Drop>(
        &self,
        alloc: Global,
        file: &str,
        index: usize,
        table: Result<AnyTable<H, FileSource<F>>>,
    ) -> Result<FileEntries<'p, H, F>> {
        let table = table?;
        match test_frames(alloc, file, &table) {
            Ok(()) => Ok(self.in_order(index, table)),
            Err(fault) => Err(fault),
        }
    }

    // The entries of a table from the first on, whose frames follow each other.
    fn in_order<F: SeekInput + Drop>(
        &self,
        index: usize,
        table: AnyTable<H, FileSource<F>>,
    ) -> FileEntries<'p, H, F> {
        self.progress.expect_blocks(table.index().len() as u64);
        self.notes.longest.see(table.index());
        let place = self.progress.place();
        let scanned = Scanned::new(table.scan(), Bound::Unbounded, Direction::Forward, place);
        let entries = Merged {
            source: Ordered::new(scanned, Direction::Forward),
            index,
            notes: self.notes,
            place,
        };
        FileEntries { entries }
    }
}

/// The entries of a table of a file, in order.
#[derive(Drop)]
pub struct FileEntries<'p, H: BlockHash, F: SeekInput> {
    entries: Merged<'p, Ordered<Scanned<'p, 'p, H, FileSource<F>>>>,
}

impl<'p, H: BlockHash, F: SeekInput> Source<InternalValue> for FileEntries<'p, H, F> {
    ghost left = { λ s. passed_on
        (scanned_left (hashes H.hash64 H.hash128) (λ (f : SourceParts F). F.whole f.inner)
        s.entries.source.source.scan)
        s.entries.source.ended };

    ghost may_fail = { MayMisplace (MayFailAnyTime (λ (s : SourceParts F). F.is_memory s.inner)) };

    fn next_entry(&mut self, alloc: Global) -> sstable_blocks::Result<Option<InternalValue>> {
        self.entries.next_entry(alloc)
    }
}

impl<'p, H: BlockHash, R: rt::Files + Clock + Eprint> Tables for Files<'p, H, R> {
    type Entries = FileEntries<'p, H, CountedFile<'p, R>>;

    fn entries(&self, alloc: Global, file: &str, index: usize) -> Result<Self::Entries> {
        let table = open::<H, R>(self.progress, alloc, file);
        self.entries_of(alloc, file, index, table)
    }

    fn fault(&self, alloc: Global, file: &str, error: Error) -> Fault {
        self.progress.fault(alloc, file, error)
    }
}

// Opens a table, and reads its first entry.
fn head_of<T: Tables>(
    tables: &T,
    alloc: Global,
    file: &str,
    index: usize,
) -> Result<Head<InternalValue, T::Entries>> {
    let entries = tables.entries(alloc, file, index)?;
    match Head::new(alloc, entries) {
        Ok(head) => Ok(head),
        Err(error) => Err(tables.fault(alloc, file, error)),
    }
}

// Adds what was made.
fn push_made<T: Drop>(made: &mut Vec<T>, one: Result<T>) -> Result<()>
    ensures { OnOk result (length made.new.items ≡ length made.old.items + 1) }
{
    made.push(one?)?;
    Ok(())
}

/// Opens tables, the newest first, and reads the first entry of each.
///
/// # Errors
///
/// Those of the files, and of their first blocks.
pub fn heads_of<T: Tables>(
    tables: &T,
    alloc: Global,
    files: &[&str],
) -> Result<Vec<Head<InternalValue, T::Entries>>>
    ensures all { IfOk result (λ heads. length heads.items ≡ length files.now) }
{
    let mut heads = Vec::new(alloc);
    for (index, file) in files.iter().enumerate() {
        push_made(&mut heads, head_of(tables, alloc, file, index))?;
    }
    Ok(heads)
}
