//! `pack`: the entries of an input as new tables.
ghost use Rattle.std.specs.Prelude.{None, IfOk};
ghost use Rattle.sst_sources.specs.Sources.{TakesFirst};

use crate::merge::{TableForm, write_as};
use crate::merged::count;
use clap::ArgMatches;
use sst_merge::{Source, keep_error};
use sst_program::lines::entry_in;
use sst_tool::fault::{Cause, Fault, Result};
use sst_tool::hash::{TableHash, hash_in};
use sst_tool::long_keys::LongestKey;
use sst_tool::new_tables::{Names, NewTables};
use sst_tool::progress::Progress;
use sst_tool::show::Counted;
use sst_tool::words::OUT;
use sstable_blocks::{BlockHash, Error, InternalKey, InternalValue, LockFiles, Poly31, Xxh3};
use std::alloc::Global;
use std::cell::Cell;
use std::io;
use std::io::{BufRead, BufReader, ErrorKind, Read, Split, Write};
use std::rt::Clock;

// The number of bytes that are read of the input at once.
const BUFFER_LEN: usize = 65536;

// Why the input is refused.
#[derive(Clone, Copy)]
enum Refusal {
    // A read failed.
    Read(io::Error),
    // The line is no entry.
    NoEntry,
    // The entry sorts before the one on the line above it.
    Order,
}

// What a pack notes as it goes.
#[derive(Drop)]
struct Notes<'p, R> {
    progress: &'p Progress<'p, R>,
    // The entries that were read.
    entries: Cell<u64>,
    // Why the line after them is refused.
    refused: Cell<Option<Refusal>>,
    // Why a write of the new table failed, as the system says.
    cause: Cell<Option<io::Error>>,
}

impl<'p, R> Notes<'p, R> {
    fn new(progress: &'p Progress<'p, R>) -> Notes<'p, R> {
        Notes {
            progress,
            entries: Cell::new(0),
            refused: Cell::new(None),
            cause: Cell::new(None),
        }
    }

    // Notes why the input is refused. Returns the error of the library for it.
    fn refuse(&self, refusal: Refusal) -> Error {
        self.refused.set(Some(refusal));
        match refusal {
            Refusal::Read(_) => Error::Io,
            Refusal::NoEntry => Error::BadEntry,
            Refusal::Order => Error::OutOfOrder,
        }
    }

    // The fault of an input that is refused, if it is.
    fn fault(&self, alloc: Global) -> Option<Fault> {
        let refusal = self.refused.get()?;
        let number = self.entries.get().saturating_add(1);
        Some(match refusal {
            Refusal::Read(cause) => {
                Fault::of_file(
                    alloc,
                    "standard input",
                    None,
                    Error::Io,
                    Cause::System(cause),
                )
            }
            Refusal::NoEntry => Fault::of_line(alloc, number, "is no entry `C S K V`"),
            Refusal::Order => Fault::of_line(alloc, number, "sorts before the line above it"),
        })
    }
}

// The entries of an input, one a line.
#[derive(Drop)]
struct Lines<'n, 'i, R, I: Read> {
    lines: Split<BufReader<&'i mut I>>,
    // the key of the line above
    last: Option<InternalKey>,
    notes: &'n Notes<'n, R>,
}

impl<'n, 'i, R, I: Read> Lines<'n, 'i, R, I> {
    // Takes the next line, if there is one.
    fn next_line(&mut self) -> sstable_blocks::Result<Option<Vec<u8>>> {
        match self.lines.next() {
            None => Ok(None),
            Some(Ok(line)) => Ok(Some(line)),
            Some(Err(error)) if error.kind() == ErrorKind::OutOfMemory => Err(Error::Memory),
            Some(Err(error)) => Err(self.notes.refuse(Refusal::Read(error))),
        }
    }

    // Whether an entry does not sort before the line above, if there is one.
    fn follows(&self, entry: &InternalValue) -> bool {
        match &self.last {
            Some(last) => last.cmp(entry.key()).is_le(),
            None => true,
        }
    }

    // Takes the entry of the next line.
    fn next_entry(&mut self, alloc: Global) -> sstable_blocks::Result<Option<InternalValue>> {
        let Some(line) = self.next_line()? else {
            return Ok(None);
        };
        let Some(entry) = entry_in(alloc, line.as_slice())? else {
            return Err(self.notes.refuse(Refusal::NoEntry));
        };
        if !self.follows(&entry) {
            return Err(self.notes.refuse(Refusal::Order));
        }
        self.last = Some(entry.key().clone()?);
        Ok(Some(entry))
    }
}

// Takes the next entry of lines, and counts it.
fn next_counted<R: Clock + Eprint, I: Read>(
    alloc: Global,
    lines: &mut Lines<'_, '_, R, I>,
    most: &mut u64,
) -> sstable_blocks::Result<Option<InternalValue>>
    ensures first { IfOk result (λ r. TakesFirst
        (record { list = None; most = most.old; errors = None; ended = None }) r
        (record { list = None; most = most.new; errors = None; ended = None })) }
{
    if *most == 0 {
        return Ok(None);
    }
    let next = lines.next_entry(alloc)?;
    if next.is_some() {
        *most -= 1;
        count(&lines.notes.entries);
        lines.notes.progress.count_entry();
    }
    Ok(next)
}

// The entries of an input, fewer than 2^64.
#[derive(Drop)]
struct Packed<'n, 'i, R, I: Read> {
    lines: Lines<'n, 'i, R, I>,
    most: u64,
    ended: Option<Error>,
}

impl<'n, 'i, R: Clock + Eprint, I: Read> Source<InternalValue> for Packed<'n, 'i, R, I> {
    ghost left = { λ s. record { list = None; most = s.most; errors = None; ended = s.ended } };

    // (the error of an input is any)
    ghost may_fail = { λ _. Unit {0} };

    fn next_entry(&mut self, alloc: Global) -> sstable_blocks::Result<Option<InternalValue>> {
        if let Some(error) = self.ended {
            return Err(error);
        }
        let next = next_counted(alloc, &mut self.lines, &mut self.most);
        keep_error(&mut self.ended, &next);
        next
    }
}

// Writes the entries of an input as tables.
fn fill<'i, H: BlockHash, R: LockFiles + Clock + Eprint, I: Read>(
    alloc: Global,
    words: &ArgMatches<'_>,
    notes: &Notes<'_, R>,
    input: BufReader<&'i mut I>,
    tables: &mut NewTables<'_, '_, '_, R>,
) -> Result<()> {
    let how = TableForm::of_words(words, &LongestKey::new());
    let packed = Packed {
        lines: Lines {
            lines: input.split(alloc, b'\n'),
            last: None,
            notes,
        },
        most: u64::MAX,
        ended: None,
    };
    match write_as::<H, _, _>(alloc, packed, how, tables) {
        Ok(()) if tables.count() == 0 => Err(Fault::NoEntries),
        Ok(()) => Ok(()),
        Err(Error::Memory) => Err(Fault::Memory),
        Err(error) => Err(notes.fault(alloc).unwrap_or(tables.fault(error))),
    }
}

// Writes the entries of an input as tables, and puts these in place. Returns how many.
fn fill_tables<'i, H: BlockHash, R: LockFiles + Clock + Eprint, I: Read>(
    alloc: Global,
    words: &ArgMatches<'_>,
    notes: &Notes<'_, R>,
    input: &'i mut I,
    tables: NewTables<'_, '_, '_, R>,
) -> Result<usize> {
    let mut tables = tables;
    let filled = match BufReader::with_capacity(alloc, BUFFER_LEN, input) {
        Ok(input) => fill::<H, R, I>(alloc, words, notes, input, &mut tables),
        Err(_) => Err(Fault::Memory),
    };
    let count = tables.count();
    match tables.end(filled) {
        Ok(()) => Ok(count),
        Err(fault) => Err(fault),
    }
}

// Writes the entries of an input as tables that hash by `H`. Returns how many.
fn pack<H: BlockHash, R: LockFiles + Clock + Eprint, I: Read>(
    alloc: Global,
    words: &ArgMatches<'_>,
    notes: &Notes<'_, R>,
    input: &mut I,
) -> Result<usize> {
    match NewTables::new(notes.progress.rt(), alloc, words, &notes.cause) {
        Ok(tables) => fill_tables::<H, R, I>(alloc, words, notes, input, tables),
        Err(fault) => Err(fault),
    }
}

/// Writes the entries of an input, one a line, as a new table, or with `--table-size` as several;
/// with `--part` in parts. A block of the new table is held at a time, and what a merge holds of
/// it.
///
/// # Errors
///
/// One where a line is no entry, or sorts before the line above it; those of the input and of the
/// new files; `Fault::NoEntries` where the input is empty; `Fault::Written` if only the last line
/// fails.
pub fn run<R: LockFiles + Clock + Eprint, I: Read, O: Write>(
    progress: &Progress<'_, R>,
    alloc: Global,
    words: &ArgMatches<'_>,
    input: &mut I,
    output: &mut O,
) -> Result<()> {
    let notes = Notes::new(progress);
    let tables = match hash_in(words) {
        Some(TableHash::Poly31) => pack::<Poly31, R, I>(alloc, words, &notes, input)?,
        _ => pack::<Xxh3, R, I>(alloc, words, &notes, input)?,
    };
    progress.clear();
    match print_counts(words, &notes, tables, output) {
        Ok(()) => Ok(()),
        Err(_) => Err(Fault::of_written(alloc, words.get_str(OUT).unwrap_or(""))),
    }
}

// Prints what was packed, into so many tables. It takes no memory: they are in place.
fn print_counts<R, O: Write>(
    words: &ArgMatches<'_>,
    notes: &Notes<'_, R>,
    tables: usize,
    output: &mut O,
) -> io::Result<()> {
    let entries = Counted::entries(notes.entries.get());
    let names = Names::of_words(words).up_to(tables);
    writeln!(output, "packed {entries} into {names}")?;
    output.flush()
}
