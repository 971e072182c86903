//! `check`: whether files are sound tables, plain or parted.
use crate::open::source_of;
use crate::parted::{check_parts, is_parted, open_parts, test_parts};
use clap::ArgMatches;
use sst_tool::fault::{Fault, Result, printed};
use sst_tool::hash::{TableHash, hash_in, hash_of_file};
use sst_tool::progress::Progress;
use sst_tool::show::Counted;
use sst_tool::tidy::{Gap, Gaps};
use sst_tool::whole::{check_whole, handles_of};
use sst_tool::words::FILE;
use sstable_blocks::{
    BlockHash, FileSource, FrameSource, Poly31, RunHandles, RunSummary, SeekInput, Xxh3,
};
use std::alloc::Global;
use std::io::Write;
use std::rt::{Clock, Files};
use std::{fmt, io};

// Warns of bytes that belong to no frame.
fn warn_of<R: Eprint>(rt: &R, file: &str, gap: Gap) {
    let _ = eprintln!(rt; "sstool: warning: {file}: {gap}");
}

// Warns of each gap in the parts.
fn warn_in_parts<R: Eprint>(rt: &R, file: &str, gaps: &[Gap]) {
    for gap in gaps {
        warn_of(rt, file, *gap);
    }
}

// Warns of each gap: the table is sound, and the file is not tidy.
fn warn_of_all<R: Eprint>(rt: &R, file: &str, gaps: &Gaps) {
    for gap in gaps.found() {
        if let Some(gap) = gap {
            warn_of(rt, file, *gap);
        }
    }
}

// What a check of a file counted; the number of parts, if it is in parts, and the bytes of these that
// belong to no frame.
#[derive(Drop)]
struct Checked {
    parts: Option<usize>,
    whole: RunSummary,
    gaps: Vec<Gap>,
}

impl fmt::Display for Checked {
    fn fmt<W: fmt::Write>(&self, f: &mut fmt::Formatter<W>) -> fmt::Result {
        if let Some(parts) = self.parts {
            write!(f, "{} ", Counted::parts(parts as u64))?;
        }
        let blocks = Counted::blocks(self.whole.blocks as u64);
        let entries = Counted::entries(self.whole.entries);
        write!(f, "{blocks} {entries}")
    }
}

// Checks a plain table of a file whole.
fn check_plain<H: BlockHash, S: FrameSource, R: Clock + Eprint>(
    progress: &Progress<'_, R>,
    alloc: Global,
    file: &str,
    source: &mut S,
    handles: &RunHandles,
) -> Result<Checked> {
    match check_whole::<H, S, R>(progress, alloc, file, source, handles) {
        Ok(whole) => Ok(Checked {
            parts: None,
            whole,
            gaps: Vec::new(alloc),
        }),
        Err(fault) => Err(fault),
    }
}

// Checks a parted table of a file whole.
fn check_parted<H: BlockHash, S: FrameSource + Drop, R: Clock + Eprint>(
    progress: &Progress<'_, R>,
    alloc: Global,
    file: &str,
    source: S,
    handles: &RunHandles,
) -> Result<Checked> {
    let mut source = source;
    let gaps = test_parts::<H, S, R>(progress, alloc, file, &mut source, handles)?;
    let mut table = open_parts::<H, S, R>(progress, alloc, file, source, handles)?;
    match check_parts(progress, alloc, file, &mut table) {
        Ok(summary) => Ok(Checked {
            parts: Some(summary.parts),
            whole: summary.whole,
            gaps,
        }),
        Err(fault) => Err(fault),
    }
}

// Checks a table of a file whole, by its footer.
fn check_by<H: BlockHash, S: FrameSource + Drop, R: Clock + Eprint>(
    progress: &Progress<'_, R>,
    alloc: Global,
    file: &str,
    source: S,
    handles: &RunHandles,
) -> Result<Checked> {
    let mut source = source;
    if is_parted::<H, S, R>(progress, alloc, file, &mut source, handles)? {
        check_parted::<H, S, R>(progress, alloc, file, source, handles)
    } else {
        check_plain::<H, S, R>(progress, alloc, file, &mut source, handles)
    }
}

// Checks a table of a file whole.
fn check_in<H: BlockHash, F: SeekInput + Drop, R: Clock + Eprint>(
    progress: &Progress<'_, R>,
    alloc: Global,
    file: &str,
    source: FileSource<F>,
) -> Result<Checked> {
    let mut source = source;
    let handles = handles_of(progress, alloc, file, &mut source)?;
    let checked = check_by::<H, _, R>(progress, alloc, file, source, &handles);
    progress.clear();
    if let Ok(checked) = &checked {
        warn_in_parts(progress.rt(), file, &checked.gaps);
        let gaps = Gaps::new(progress.block_end(), &handles, progress.file_len());
        warn_of_all(progress.rt(), file, &gaps);
    }
    checked
}

// Checks a table file whole.
fn check_as<H: BlockHash, R: Files + Clock + Eprint>(
    progress: &Progress<'_, R>,
    alloc: Global,
    file: &str,
) -> Result<Checked> {
    let source = source_of(progress, alloc, file)?;
    check_in::<H, _, R>(progress, alloc, file, source)
}

// Checks a table file whole, of this hash function, or else of that which it shows.
fn check_file<R: Files + Clock + Eprint>(
    progress: &Progress<'_, R>,
    alloc: Global,
    file: &str,
    hash: Option<TableHash>,
) -> Result<Checked> {
    let hash = match hash {
        Some(hash) => hash,
        None => hash_of_file(progress.rt(), alloc, file)?,
    };
    match hash {
        TableHash::Poly31 => check_as::<Poly31, R>(progress, alloc, file),
        TableHash::Xxh3 => check_as::<Xxh3, R>(progress, alloc, file),
    }
}

// Prints what a check of one of several files came to. Returns whether it is sound.
fn print<R: Eprint, O: Write>(
    progress: &Progress<'_, R>,
    file: &str,
    checked: &Result<Checked>,
    output: &mut O,
) -> Result<bool> {
    match checked {
        Ok(checked) => {
            writeln!(output, "{file}: ok {checked}")?;
            Ok(true)
        }
        Err(fault) => {
            let _ = eprintln!(progress.rt(); "sstool: {fault}");
            Ok(false)
        }
    }
}

// Checks one of several table files whole, and prints what that came to. Returns whether it is
// sound.
fn check_one<R: Files + Clock + Eprint, O: Write>(
    progress: &Progress<'_, R>,
    alloc: Global,
    file: &str,
    hash: Option<TableHash>,
    output: &mut O,
) -> Result<bool> {
    let checked = check_file(progress, alloc, file, hash);
    print(progress, file, &checked, output)
}

// Checks table files whole, each whatever the others are.
fn check_all<R: Files + Clock + Eprint, O: Write>(
    progress: &Progress<'_, R>,
    alloc: Global,
    files: &[&str],
    hash: Option<TableHash>,
    output: &mut O,
) -> Result<()> {
    let mut failed = 0usize;
    for file in files {
        if !check_one(progress, alloc, file, hash, output)? {
            failed = failed.saturating_add(1);
        }
    }
    if failed == 0 {
        return Ok(());
    }
    Err(Fault::of_failed(alloc, failed, files.len()))
}

// Prints the line of the only file, which is sound.
fn print_sound<O: Write>(checked: &Checked, output: &mut O) -> io::Result<()> {
    writeln!(output, "ok {checked}")
}

/// Checks table files whole: each block, the order across blocks, end keys, the filter. Prints the
/// numbers of blocks and entries, of a parted table that of parts too; of several files a line
/// each, also after one that fails. Warns of bytes of a file that belong to no frame.
///
/// # Errors
///
/// Those of the one file and of its check, with the block that was read last and its offset; of
/// several files how many failed. `Fault::Output`.
pub fn run<R: Files + Clock + Eprint, O: Write>(
    progress: &Progress<'_, R>,
    alloc: Global,
    words: &ArgMatches<'_>,
    output: &mut O,
) -> Result<()> {
    let hash = hash_in(words);
    let files = words.get_strs(FILE).unwrap_or(&[]);
    let &[file] = files else {
        return check_all(progress, alloc, files, hash, output);
    };
    match check_file(progress, alloc, file, hash) {
        Ok(checked) => printed(print_sound(&checked, output)),
        Err(fault) => Err(fault),
    }
}
