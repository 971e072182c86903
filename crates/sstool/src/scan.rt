//! `scan`: the entries of a table in a range of keys.
ghost use Rattle.std.specs.Prelude.{◌≡◌, None, IfSome, OnOk};
ghost use Rattle.std.specs.Io.KnownBytes.{Appends};
ghost use Rattle.sst_program.specs.Outcome.{lines_text_of};
ghost use Rattle.sst_tool.specs.Limits.{limited};
ghost use Rattle.sst_tool.specs.Printed.{printed_in};
ghost use Rattle.sstool.specs.Wanted.{wanted_of};

use crate::open::{open, test_frames};
use crate::parted::test_last;
use crate::source::Scanned;
use clap::ArgMatches;
use sst_merge::{Snapshot, Source};
use sst_parts::AnyTable;
use sst_tool::fault::{Fault, Result};
use sst_tool::keys::{key_in, prefix_end};
use sst_tool::limited::Limited;
use sst_tool::lines::Lines;
use sst_tool::ordered::{Direction, Ordered};
use sst_tool::progress::Progress;
use sst_tool::seen_back::SeenBack;
use sst_tool::show::{EntryForm, Style};
use sst_tool::words::{AT, FILE, FROM, JSON, KEYS_ONLY, LIMIT, PREFIX, REVERSE, TEXT, TO};
use sstable_blocks::{BlockHash, Error, FileSource, FrameSource, InternalValue, SeekInput, SeqNo};
use std::alloc::Global;
use std::io::Write;
use std::ops::Bound;
use std::rt::{Clock, Files};

/// Why entries are not printed to the end.
#[derive(Drop)]
enum Stop {
    /// The next entry is not read.
    Read(Error),
    /// An entry is not printed.
    Print(Fault),
}

impl From<Error> for Stop {
    fn from(error: Error) -> Stop {
        Stop::Read(error)
    }
}

impl From<Fault> for Stop {
    fn from(fault: Fault) -> Stop {
        Stop::Print(fault)
    }
}

// Prints all entries of a source, a line each.
fn print_all<I: Source<InternalValue>, O: Write + Drop>(
    alloc: Global,
    source: &mut I,
    lines: &mut Lines<O>,
) -> std::result::Result<(), Stop>
    ensures printed { OnOk result (lines.old.form ≡ None
        → IfSome (I.left source.old).list (λ items.
        Appends (printed_in O.contents lines.old) (printed_in O.contents lines.new)
        (lines_text_of items))) }
{
    while let Some(entry) = source.next_entry(alloc)? {
        lines.print(&entry)?;
    }
    Ok(())
}

/// Which entries are printed.
#[derive(Clone, Copy)]
pub struct Wanted {
    /// What a read at this sequence number sees; else all.
    pub at: Option<SeqNo>,
    /// In which order.
    pub direction: Direction,
    /// At most how many.
    pub limit: u64,
}

impl Wanted {
    // Those that the words name.
    fn of_words(words: &ArgMatches<'_>) -> Wanted {
        Wanted {
            at: words.get_one::<u64>(AT),
            direction: if words.get_flag(REVERSE) {
                Direction::Backward
            } else {
                Direction::Forward
            },
            limit: words.get_one::<u64>(LIMIT).unwrap_or(u64::MAX),
        }
    }
}

// Prints the entries of a source, no more than so many.
fn print_limited<I: Source<InternalValue> + Drop, O: Write + Drop>(
    alloc: Global,
    limit: u64,
    source: I,
    lines: &mut Lines<O>,
) -> std::result::Result<(), Stop>
    ensures printed { OnOk result (lines.old.form ≡ None
        → IfSome (limited limit (I.left source)).list (λ items.
        Appends (printed_in O.contents lines.old) (printed_in O.contents lines.new)
        (lines_text_of items))) }
{
    print_all(alloc, &mut Limited::new(source, limit), lines)
}

// Prints the wanted entries of what is left of a scan in their order.
fn print_scanned<I: Source<InternalValue> + Drop, O: Write + Drop>(
    alloc: Global,
    wanted: Wanted,
    source: I,
    lines: &mut Lines<O>,
) -> std::result::Result<(), Stop>
    ensures printed { OnOk result (lines.old.form ≡ None
        → IfSome (wanted_of wanted (I.left source)).list (λ items.
        Appends (printed_in O.contents lines.old) (printed_in O.contents lines.new)
        (lines_text_of items))) }
{
    match (wanted.at, wanted.direction) {
        (None, _) => print_limited(alloc, wanted.limit, source, lines),
        (Some(at), Direction::Backward) => {
            print_limited(alloc, wanted.limit, SeenBack::new(source, at), lines)
        }
        (Some(at), Direction::Forward) => {
            print_limited(alloc, wanted.limit, Snapshot::new(source, at), lines)
        }
    }
}

// The key of a word, if it is there.
fn key_of(alloc: Global, words: &ArgMatches<'_>, id: &str) -> Result<Option<Vec<u8>>> {
    match words.get_str(id) {
        Some(word) => Ok(Some(key_in(alloc, word)?)),
        None => Ok(None),
    }
}

// The keys from which a scan begins and before which it ends.
#[derive(Drop)]
struct Range {
    from: Option<Vec<u8>>,
    to: Option<Vec<u8>>,
}

impl Range {
    // The range that the words name.
    fn of_words(alloc: Global, words: &ArgMatches<'_>) -> Result<Range> {
        match key_of(alloc, words, PREFIX)? {
            Some(prefix) => Ok(Range {
                to: prefix_end(alloc, prefix.as_slice())?,
                from: Some(prefix),
            }),
            None => Ok(Range {
                from: key_of(alloc, words, FROM)?,
                to: key_of(alloc, words, TO)?,
            }),
        }
    }

    // The first key.
    fn from(&self) -> Bound<&[u8]> {
        match &self.from {
            Some(key) => Bound::Included(key.as_slice()),
            None => Bound::Unbounded,
        }
    }

    // The key at which to end.
    fn to(&self) -> Bound<&[u8]> {
        match &self.to {
            Some(key) => Bound::Excluded(key.as_slice()),
            None => Bound::Unbounded,
        }
    }
}

// How entries are printed.
fn form_of(words: &ArgMatches<'_>) -> Option<EntryForm> {
    let style = if words.get_flag(JSON) {
        Style::Json
    } else if words.get_flag(TEXT) {
        Style::Text
    } else {
        Style::Hex
    };
    let has_value = !words.get_flag(KEYS_ONLY);
    if style == Style::Hex && has_value {
        return None;
    }
    Some(EntryForm { style, has_value })
}

// The fault of a scan that did not come to its end.
fn fault_of<R>(progress: &Progress<'_, R>, alloc: Global, file: &str, stop: Stop) -> Fault {
    match stop {
        Stop::Print(fault) => fault,
        Stop::Read(error) => progress.fault(alloc, file, error),
    }
}

// Prints the entries of a range of a table, whose frames follow each other.
fn print_table<H: BlockHash, F: SeekInput + Drop, R, O: Write + Drop>(
    progress: &Progress<'_, R>,
    alloc: Global,
    wanted: Wanted,
    table: AnyTable<H, FileSource<F>>,
    range: &Range,
    lines: &mut Lines<O>,
) -> std::result::Result<(), Stop> {
    progress.expect_blocks(table.index().len() as u64);
    let scan = table.scan_range(range.from(), range.to());
    let scanned = Scanned::new(scan, range.to(), wanted.direction, progress.place());
    let source = Ordered::new(scanned, wanted.direction);
    print_scanned(alloc, wanted, source, lines)
}

// A table of which the entries of a range are taken from the last on: where it is in parts, the last
// part of the range is tested.
fn tested<H: BlockHash, S: FrameSource + Drop, R>(
    progress: &Progress<'_, R>,
    alloc: Global,
    file: &str,
    table: AnyTable<H, S>,
    range: &Range,
) -> Result<AnyTable<H, S>> {
    match table {
        AnyTable::Parted(table) => {
            let scan = table.scan_range(range.from(), range.to());
            let (_, end) = scan.unread();
            let mut table = scan.into_table();
            test_last(progress, alloc, file, &mut table, end)?;
            Ok(AnyTable::Parted(table))
        }
        table => Ok(table),
    }
}

// Prints the entries of a range of a table of a file, if its frames follow each other.
fn print_range_in<H: BlockHash, F: SeekInput + Drop, R, O: Write + Drop>(
    progress: &Progress<'_, R>,
    alloc: Global,
    words: &ArgMatches<'_>,
    table: AnyTable<H, FileSource<F>>,
    range: &Range,
    lines: &mut Lines<O>,
) -> std::result::Result<(), Stop> {
    let (file, wanted) = (words.get_str(FILE).unwrap_or(""), Wanted::of_words(words));
    test_frames(alloc, file, &table)?;
    let table = match wanted.direction {
        Direction::Backward => tested(progress, alloc, file, table, range)?,
        Direction::Forward => table,
    };
    print_table(progress, alloc, wanted, table, range, lines)
}

// Prints the entries of a range of a table file.
fn print_range<H: BlockHash, R: Files + Clock + Eprint, O: Write + Drop>(
    progress: &Progress<'_, R>,
    alloc: Global,
    words: &ArgMatches<'_>,
    range: &Range,
    lines: &mut Lines<O>,
) -> Result<()> {
    let file = words.get_str(FILE).unwrap_or("");
    match open::<H, R>(progress, alloc, file) {
        Ok(table) => match print_range_in(progress, alloc, words, table, range, lines) {
            Ok(()) => Ok(()),
            Err(stop) => Err(fault_of(progress, alloc, file, stop)),
        },
        Err(fault) => Err(fault),
    }
}

// Prints the entries of a range of a table file to their end, and passes on all that was printed.
fn print_to<H: BlockHash, R: Files + Clock + Eprint, O: Write + Drop>(
    progress: &Progress<'_, R>,
    alloc: Global,
    words: &ArgMatches<'_>,
    range: &Range,
    lines: Lines<O>,
) -> Result<()> {
    let mut lines = lines;
    let printed = print_range::<H, R, _>(progress, alloc, words, range, &mut lines);
    match lines.flush() {
        Ok(()) => printed,
        Err(fault) => Err(fault),
    }
}

/// Prints the entries of a table from the key of `--from` up to that of `--to`, without it, or of
/// the keys that begin with `--prefix`; with `--at` only what a read at this sequence number sees;
/// with `--limit` no more than so many.
///
/// # Errors
///
/// An error for a word that is not a key, those of the file and of the blocks that are reached, and
/// `Fault::Output`, and one for an entry that does not follow the one before it. The entries before
/// a block that is refused are printed.
pub fn run<H: BlockHash, R: Files + Clock + Eprint, O: Write>(
    progress: &Progress<'_, R>,
    alloc: Global,
    words: &ArgMatches<'_>,
    output: &mut O,
) -> Result<()> {
    let range = Range::of_words(alloc, words)?;
    match Lines::new(alloc, &mut *output, form_of(words)) {
        Ok(lines) => print_to::<H, R, _>(progress, alloc, words, &range, lines),
        Err(fault) => Err(fault),
    }
}
