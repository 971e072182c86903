//! `get`: the newest version of a key.
ghost use Rattle.std.specs.Prelude.{◌≡◌, List, map, slice_get, IfOk, IfSome};
ghost use Rattle.sst_parts.specs.AnyTables.{HasEntries, source_in};
ghost use Rattle.sst_tool.specs.Keys.{only_key, read_of};
ghost use Rattle.sstable_blocks.specs.Prelude.{Entry, plain};
ghost use Rattle.sstable_blocks.specs.RunReading.{hashes};
ghost use Rattle.sstable_blocks.specs.Scans.{within};

use crate::open::open;
use clap::ArgMatches;
use sst_parts::AnyTable;
use sst_tool::fault::{Result, printed};
use sst_tool::keys::key_in;
use sst_tool::progress::Progress;
use sst_tool::show::{EntryForm, Formed, Style};
use sst_tool::words::{AT, FILE, KEY};
use sstable_blocks::{BlockHash, FileSource, FrameSource, InternalValue, SeekInput, SeqNo, Steps};
use std::alloc::Global;
use std::io;
use std::io::Write;
use std::ops::Bound;
use std::rt::{Clock, Files};

// Reads the newest version of a key from a table, whatever its sequence number.
fn newest_in<H: BlockHash, S: FrameSource + Drop>(
    alloc: Global,
    table: AnyTable<H, S>,
    key: &[u8],
) -> sstable_blocks::Result<Option<InternalValue>>
    ensures newest { IfSome (S.bytes (source_in table)) (λ all. (items : List Entry)
        → HasEntries (hashes H.hash64 H.hash128) table all items
        → IfOk result (λ found. found
        ≡ slice_get (within (only_key key.now) (map plain items)) 0)) }
{
    let mut versions = table.scan_range(Bound::Included(key), Bound::Included(key));
    versions.next_entry(alloc)
}

// Reads the newest version of a key from a table: below a sequence number, if there is one.
fn read_in<H: BlockHash, S: FrameSource + Drop>(
    alloc: Global,
    table: AnyTable<H, S>,
    key: &[u8],
    at: Option<SeqNo>,
) -> sstable_blocks::Result<Option<InternalValue>>
    ensures read { IfSome (S.bytes (source_in table)) (λ all. (items : List Entry)
        → HasEntries (hashes H.hash64 H.hash128) table all items
        → IfOk result (λ found. found ≡ read_of at key.now items)) }
{
    let mut table = table;
    match at {
        Some(at) => table.get(alloc, key, at, &mut Steps::new()),
        None => newest_in(alloc, table, key),
    }
}

// Reads the newest version of a key from a table of a file: below a sequence number, if there is
// one.
fn found_in<H: BlockHash, F: SeekInput + Drop, R>(
    progress: &Progress<'_, R>,
    alloc: Global,
    file: &str,
    table: AnyTable<H, FileSource<F>>,
    key: &[u8],
    at: Option<SeqNo>,
) -> Result<Option<InternalValue>> {
    match read_in(alloc, table, key, at) {
        Ok(found) => Ok(found),
        Err(error) => Err(progress.fault(alloc, file, error)),
    }
}

// Reads the newest version of a key from a file: below a sequence number, if there is one.
fn read<H: BlockHash, R: Files + Clock + Eprint>(
    progress: &Progress<'_, R>,
    alloc: Global,
    file: &str,
    key: &[u8],
    at: Option<SeqNo>,
) -> Result<Option<InternalValue>> {
    let table = open::<H, R>(progress, alloc, file)?;
    found_in(progress, alloc, file, table, key, at)
}

// Reads the newest version of the key that the words name.
fn read_named<H: BlockHash, R: Files + Clock + Eprint>(
    progress: &Progress<'_, R>,
    alloc: Global,
    words: &ArgMatches<'_>,
) -> Result<Option<InternalValue>> {
    let (file, at) = (words.get_str(FILE).unwrap_or(""), words.get_one(AT));
    let key = key_in(alloc, words.get_str(KEY).unwrap_or(""))?;
    read::<H, R>(progress, alloc, file, key.as_slice(), at)
}

// Prints a version, or `none`.
fn print<O: Write>(output: &mut O, found: &Option<InternalValue>) -> io::Result<()> {
    match found {
        Some(entry) => {
            let form = EntryForm {
                style: Style::Text,
                has_value: true,
            };
            writeln!(output, "{}", Formed { entry, form })
        }
        None => writeln!(output, "none"),
    }
}

/// Prints the newest version of a key, or `none`: with `--at` the newest with a sequence number
/// below that.
///
/// # Errors
///
/// Those of the file and of its blocks, an error for a word that is not a key, `Fault::Output`.
pub fn run<H: BlockHash, R: Files + Clock + Eprint, O: Write>(
    progress: &Progress<'_, R>,
    alloc: Global,
    words: &ArgMatches<'_>,
    output: &mut O,
) -> Result<()> {
    match read_named::<H, R>(progress, alloc, words) {
        Ok(found) => printed(print(output, &found)),
        Err(fault) => Err(fault),
    }
}
