//! The commands by their names.

use crate::{blocks, check, get, merge, pack, salvage, scan, stat};
use clap::ArgMatches;
use sst_tool::hash::{TableHash, hash_read};
use sst_tool::sizes::test_sizes;
use sst_tool::words::{BLOCKS, CHECK, GET, INDEX, MERGE, PACK, SALVAGE, SCAN, STAT};
use sst_tool::{Fault, Progress};
use sstable_blocks::{BlockHash, LockFiles, Poly31, Xxh3};
use std::alloc::Global;
use std::io::{Read, Write};
use std::rt::Clock;

// Runs a command on tables of this hash function.
fn run_on<H: BlockHash, R: LockFiles + Clock + Eprint, O: Write>(
    progress: &Progress<'_, R>,
    alloc: Global,
    name: &str,
    hash: TableHash,
    words: &ArgMatches<'_>,
    output: &mut O,
) -> Result<(), Fault> {
    match name {
        STAT => stat::run::<H, R, O>(progress, alloc, hash, words, output),
        GET => get::run::<H, R, O>(progress, alloc, words, output),
        SCAN => scan::run::<H, R, O>(progress, alloc, words, output),
        BLOCKS => blocks::run::<H, R, O>(progress, alloc, words, output),
        INDEX => blocks::run_index::<H, R, O>(progress, alloc, words, output),
        MERGE => merge::run::<H, R, O>(progress, alloc, words, output),
        SALVAGE => salvage::run::<H, R, O>(progress, alloc, words, output),
        _ => Ok(()),
    }
}

/// Runs the command of this name, of which these are the words, over an input and an output.
///
/// # Errors
///
/// The fault of a word, of a file, of the output, or of an allocation. What was printed before it
/// stays.
pub fn run_command<R: LockFiles + Clock + Eprint, I: Read, O: Write>(
    progress: &Progress<'_, R>,
    alloc: Global,
    name: &str,
    words: &ArgMatches<'_>,
    input: &mut I,
    output: &mut O,
) -> Result<(), Fault> {
    test_sizes(alloc, words)?;
    if name == CHECK {
        return check::run::<R, O>(progress, alloc, words, output);
    }
    if name == PACK {
        return pack::run::<R, I, O>(progress, alloc, words, input, output);
    }
    let hash = hash_read(progress.rt(), alloc, name, words)?;
    match hash {
        TableHash::Poly31 => run_on::<Poly31, R, O>(progress, alloc, name, hash, words, output),
        TableHash::Xxh3 => run_on::<Xxh3, R, O>(progress, alloc, name, hash, words, output),
    }
}
