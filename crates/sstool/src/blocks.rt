//! `blocks` and `index`: a line for each data block, and for each part.
ghost use Rattle.std.specs.Prelude.{◌≡◌, ◌<◌, length};

use crate::open::open;
use crate::parted::open_part;
use clap::ArgMatches;
use sst_parts::{AnyTable, PartedTable};
use sst_tool::fault::{Cause, Fault, Result, Shown as ShownError, printed};
use sst_tool::place::TableBlock;
use sst_tool::progress::Progress;
use sst_tool::show::{Counted, Shown};
use sst_tool::words::FILE;
use sstable_blocks::table::index_block::HandleView;
use sstable_blocks::{
    BlockHandle, BlockHash, DataBlock, EntryView, Error, FileSource, FrameSource, IndexBlock,
    InternalValue, KeyedBlockHandle, SeekInput, Steps, Table,
};
use std::alloc::Global;
use std::io;
use std::io::Write;
use std::rt::{Clock, Files};

/// What a data block holds.
#[derive(Drop)]
pub struct Held {
    /// The number of entries.
    pub entries: usize,
    /// The first entry.
    pub first: InternalValue,
    /// The last one; none where the first is the last.
    pub last: Option<InternalValue>,
}

/// Returns what a data block holds.
///
/// # Errors
///
/// `Error::Memory` if an allocation fails.
pub fn held_in<H: BlockHash>(alloc: Global, block: &DataBlock<H>) -> sstable_blocks::Result<Held> {
    let mut views = block.by_ref().entries();
    match views.next() {
        Some(first) => held_of(alloc, block.len(), &first, views.next_back().as_ref()),
        None => Err(Error::BadEntry),
    }
}

// What a block holds of so many entries, the first one and the last.
fn held_of(
    alloc: Global,
    entries: usize,
    first: &EntryView<'_>,
    last: Option<&EntryView<'_>>,
) -> sstable_blocks::Result<Held> {
    let last = match last {
        Some(last) => Some(last.to_entry(alloc)?),
        None => None,
    };
    Ok(Held {
        entries,
        first: first.to_entry(alloc)?,
        last,
    })
}

// What a data block of a table holds, which is read.
fn held_at<H: BlockHash, S: FrameSource>(
    alloc: Global,
    table: &mut Table<H, S>,
    number: usize,
) -> sstable_blocks::Result<Held>
    requires { number < length table.old.index }
    ensures { table.new.index ≡ table.old.index }
{
    match table.block_at(alloc, number, &mut Steps::new()) {
        Ok(block) => held_in(alloc, &block),
        Err(error) => Err(error),
    }
}

// Prints what a sound block holds.
fn print_sound<O: Write>(output: &mut O, held: &Held) -> io::Result<()> {
    let last = held.last.as_ref().unwrap_or(&held.first);
    writeln!(
        output,
        "ok, {}, {} to {}",
        Counted::entries(held.entries as u64),
        Shown(held.first.key().user_key().as_slice()),
        Shown(last.key().user_key().as_slice())
    )
}

// Prints what a block holds, or why it is not sound. Returns whether it is.
fn print_held<O: Write>(
    output: &mut O,
    number: usize,
    offset: u64,
    size: u32,
    held: &sstable_blocks::Result<Held>,
    cause: Cause,
) -> io::Result<bool> {
    write!(output, "block {number} at offset {offset}: {size} bytes, ")?;
    match held {
        Ok(sound) => print_sound(output, sound)?,
        Err(error) => writeln!(output, "{}", ShownError::new(*error, cause))?,
    }
    Ok(held.is_ok())
}

// Prints the line of a block, of a table that begins at an offset. Returns whether it is sound.
fn print_line<O: Write>(
    output: &mut O,
    number: usize,
    begin: u64,
    handle: BlockHandle,
    held: sstable_blocks::Result<Held>,
    cause: Cause,
) -> io::Result<bool> {
    let offset = handle.offset().saturating_add(begin);
    print_held(output, number, offset, handle.size(), &held, cause)
}

// Prints the line of a data block of a table that begins at an offset. Returns whether it is sound.
fn print_block<H: BlockHash, S: FrameSource, R, O: Write>(
    progress: &Progress<'_, R>,
    alloc: Global,
    table: &mut Table<H, S>,
    begin: u64,
    number: usize,
    output: &mut O,
) -> io::Result<bool>
    requires { number < length table.old.index }
    ensures { table.new.index ≡ table.old.index }
{
    let handle = table.index().handle_at(number, &mut Steps::new());
    let held = held_at(alloc, table, number);
    print_line(output, number, begin, handle, held, progress.cause())
}

// Prints a line for each data block of a table that begins at an offset. Returns how many are not
// sound.
fn print_blocks<H: BlockHash, S: FrameSource, R, O: Write>(
    progress: &Progress<'_, R>,
    alloc: Global,
    table: &mut Table<H, S>,
    begin: u64,
    output: &mut O,
) -> Result<usize> {
    let (mut number, mut failed) = (0usize, 0usize);
    while number < table.index().len() {
        if !print_block(progress, alloc, table, begin, number, output)? {
            failed = failed.saturating_add(1);
        }
        number += 1;
    }
    Ok(failed)
}

// Prints a line for each data block of a table of a file, which is read.
fn lines_in<H: BlockHash, F: SeekInput, R, O: Write>(
    progress: &Progress<'_, R>,
    alloc: Global,
    file: &str,
    table: &mut Table<H, FileSource<F>>,
    output: &mut O,
) -> Result<()> {
    let blocks = table.index().len();
    progress.expect_blocks(blocks as u64);
    match print_blocks(progress, alloc, table, 0, output)? {
        0 => Ok(()),
        failed => Err(Fault::of_blocks(alloc, file, failed, blocks)),
    }
}

// Prints a line for each data block of a table of a file.
fn blocks_in<H: BlockHash, F: SeekInput + Drop, R, O: Write>(
    progress: &Progress<'_, R>,
    alloc: Global,
    file: &str,
    table: Table<H, FileSource<F>>,
    output: &mut O,
) -> Result<()> {
    let mut table = table;
    lines_in(progress, alloc, file, &mut table, output)
}

// Prints the number of the blocks of a part that begins at an offset, and a line for each. Returns
// whether all are sound.
fn print_opened<H: BlockHash, S: FrameSource, R, O: Write>(
    progress: &Progress<'_, R>,
    alloc: Global,
    part: &mut Table<H, S>,
    begin: u64,
    output: &mut O,
) -> Result<bool> {
    writeln!(output, "{}", Counted::blocks(part.index().len() as u64))?;
    let failed = print_blocks(progress, alloc, part, begin, output)?;
    Ok(failed == 0)
}

// Prints what a part that begins at an offset holds, or why it is not opened. Returns whether all
// its blocks are sound.
fn print_held_part<H: BlockHash, S: FrameSource + Drop, R, O: Write>(
    progress: &Progress<'_, R>,
    alloc: Global,
    part: sstable_blocks::Result<Table<H, S>>,
    begin: u64,
    output: &mut O,
) -> Result<bool> {
    match part {
        Ok(mut part) => print_opened(progress, alloc, &mut part, begin, output),
        Err(error) => print_refused(output, error, progress.cause()),
    }
}

// Prints why a part is not opened, so that not all its blocks are sound.
fn print_refused<O: Write>(output: &mut O, error: Error, cause: Cause) -> Result<bool> {
    writeln!(output, "{}", ShownError::new(error, cause))?;
    Ok(false)
}

// Prints a line for the part at an index, and a line for each of its blocks. Returns whether all
// are sound.
fn print_part<H: BlockHash, S: FrameSource, R, O: Write>(
    progress: &Progress<'_, R>,
    alloc: Global,
    table: &mut PartedTable<H, S>,
    number: usize,
    output: &mut O,
) -> Result<bool>
    requires { number < length table.old.tops }
    ensures { table.new.tops ≡ table.old.tops }
{
    let handle = table.index().handle_at(number, &mut Steps::new());
    let (begin, size) = (*handle.offset(), handle.size());
    write!(output, "part {number} at offset {begin}: {size} bytes, ")?;
    print_held_part(
        progress,
        alloc,
        open_part(alloc, table, number),
        begin,
        output,
    )
}

// Prints the lines of each part of a table. Returns how many are not sound.
fn print_parts<H: BlockHash, S: FrameSource, R, O: Write>(
    progress: &Progress<'_, R>,
    alloc: Global,
    table: &mut PartedTable<H, S>,
    output: &mut O,
) -> Result<usize> {
    let (mut number, mut failed) = (0usize, 0usize);
    while number < table.index().len() {
        if !print_part(progress, alloc, table, number, output)? {
            failed = failed.saturating_add(1);
        }
        number += 1;
    }
    Ok(failed)
}

// Prints the lines of each part of a table of a file.
fn parts_in<H: BlockHash, F: SeekInput + Drop, R, O: Write>(
    progress: &Progress<'_, R>,
    alloc: Global,
    file: &str,
    table: PartedTable<H, FileSource<F>>,
    output: &mut O,
) -> Result<()> {
    let mut table = table;
    let parts = table.index().len();
    progress.expect_blocks(parts as u64);
    match print_parts(progress, alloc, &mut table, output)? {
        0 => Ok(()),
        failed => Err(Fault::of_parts(alloc, file, failed, parts)),
    }
}

/// Prints a line for each data block: its number, offset and size, and the number of its entries
/// with the first and the last key, or why it is not sound. Goes on after that. Of a parted table
/// a line for each part stands before those of its blocks: its number, offset and size, and the
/// number of its blocks, or why it is not opened.
///
/// # Errors
///
/// Those of the file, of its filter and its index, or of the index of its parts; how many blocks or
/// parts are not sound; `Fault::Output`.
pub fn run<H: BlockHash, R: Files + Clock + Eprint, O: Write>(
    progress: &Progress<'_, R>,
    alloc: Global,
    words: &ArgMatches<'_>,
    output: &mut O,
) -> Result<()> {
    let file = words.get_str(FILE).unwrap_or("");
    match open::<H, R>(progress, alloc, file)? {
        AnyTable::Plain(table) => blocks_in(progress, alloc, file, table, output),
        AnyTable::Parted(table) => parts_in(progress, alloc, file, table, output),
    }
}

// Prints the line of a handle of a block or a part.
fn print_handle<O: Write>(
    output: &mut O,
    named: TableBlock,
    handle: &KeyedBlockHandle,
) -> io::Result<()> {
    writeln!(
        output,
        "{named} at offset {}: {} bytes, up to {} at {}",
        handle.offset().0,
        handle.size(),
        Shown(handle.end_key().as_slice()),
        handle.seqno()
    )
}

// Prints the line of a handle of an index.
fn print_view<O: Write>(
    alloc: Global,
    output: &mut O,
    named: TableBlock,
    view: &HandleView<'_>,
) -> Result<()> {
    match view.to_handle(alloc) {
        Ok(handle) => printed(print_handle(output, named, &handle)),
        Err(_) => Err(Fault::Memory),
    }
}

// Prints a line for each handle, of blocks or of parts.
fn print_handles<O: Write>(
    alloc: Global,
    index: &IndexBlock,
    is_parted: bool,
    output: &mut O,
) -> Result<()> {
    let mut number = 0usize;
    for view in index.by_ref().handles() {
        print_view(
            alloc,
            output,
            TableBlock::numbered(is_parted, number),
            &view,
        )?;
        number = number.saturating_add(1);
    }
    Ok(())
}

// Prints a line for each handle of the index of a table of a file.
fn index_in<H: BlockHash, S: FrameSource + Drop, O: Write>(
    alloc: Global,
    table: AnyTable<H, S>,
    output: &mut O,
) -> Result<()> {
    let is_parted = matches!(&table, AnyTable::Parted(_));
    print_handles(alloc, table.index(), is_parted, output)
}

/// Prints a line for each data block that the index names, or each part that the index of the parts
/// names, and reads none: its number, offset and size, its last key and the sequence number there.
///
/// # Errors
///
/// Those of the file, of its filter and its index, or of the index of its parts, and
/// `Fault::Output`.
pub fn run_index<H: BlockHash, R: Files + Clock + Eprint, O: Write>(
    progress: &Progress<'_, R>,
    alloc: Global,
    words: &ArgMatches<'_>,
    output: &mut O,
) -> Result<()> {
    match open::<H, R>(progress, alloc, words.get_str(FILE).unwrap_or("")) {
        Ok(table) => index_in(alloc, table, output),
        Err(fault) => Err(fault),
    }
}
