//! Files of parted tables.
ghost use Rattle.std.specs.Prelude.{◌≡◌, ◌<◌, length};

use crate::source::unnamed_in;
use sst_parts::{PartedSummary, PartedTable, any_table};
use sst_tool::fault::{Cause, Fault, Result};
use sst_tool::place::TableBlock;
use sst_tool::probes::{FREE_PROBES, claim_at, may_ask};
use sst_tool::progress::Progress;
use sst_tool::tidy::{Gap, Gaps, data_end, first_astray};
use sst_tool::whole::number_at;
use sstable_blocks::run::check;
use sstable_blocks::run::checked::{block_from, index_block_from};
use sstable_blocks::run::footer::{FOOTER_LEN, read_table_footer};
use sstable_blocks::{
    BlockHandle, BlockHash, BlockOffset, BlockType, Error, FrameSource, IndexBlock, MemorySource,
    RunHandles, SizedSource, Steps, Table, decode_footer,
};
use std::alloc::Global;

// How many bytes at the end of the footer of a parted table are 0: there another table has the
// handle of its filter.
const ZEROS_LEN: usize = 12;

// The fault of the frame that the footer names as index.
fn fault_of_index<R>(
    progress: &Progress<'_, R>,
    alloc: Global,
    file: &str,
    handles: &RunHandles,
    error: Error,
) -> Fault {
    let (index, offset) = (Some(TableBlock::Index), *handles.index.offset());
    match (error, progress.cause()) {
        (Error::Io, Cause::End) => Fault::of_foreign(alloc, file, offset),
        (error, cause) => Fault::of_block(alloc, file, index, offset, error, cause),
    }
}

/// Returns whether a table file is in parts, by the frame that its footer names as index.
///
/// # Errors
///
/// Those of [`any_table::is_parted`], with the file's name and the offset of that frame.
pub fn is_parted<H: BlockHash, S: FrameSource, R>(
    progress: &Progress<'_, R>,
    alloc: Global,
    file: &str,
    source: &mut S,
    handles: &RunHandles,
) -> Result<bool> {
    match any_table::is_parted::<H, S>(alloc, source, &handles.index) {
        Ok(is_parted) => Ok(is_parted),
        Err(error) => Err(fault_of_index(progress, alloc, file, handles, error)),
    }
}

// Whether the bytes at an offset are the end of the footer of a parted table.
fn has_zeros<S: FrameSource>(
    alloc: Global,
    source: &mut S,
    at: u64,
) -> sstable_blocks::Result<bool> {
    let place = BlockHandle::new(BlockOffset(at), ZEROS_LEN as u32);
    Ok(source.read_frame(alloc, &place)?.eq_bytes(&[0; ZEROS_LEN]))
}

/// Tests that the footer of a parted table names no filter.
///
/// # Errors
///
/// Those of the file, and an error where the last bytes of the footer are not 0.
pub fn test_footer<S: FrameSource, R>(
    progress: &Progress<'_, R>,
    alloc: Global,
    file: &str,
    source: &mut S,
) -> Result<()> {
    let at = progress.file_len().saturating_sub(ZEROS_LEN as u64);
    match has_zeros(alloc, source, at) {
        Ok(true) => Ok(()),
        Ok(false) => Err(Fault::of_file(alloc, file, Some(at), Error::BadHandle, Cause::Unknown)),
        Err(error) => Err(progress.fault(alloc, file, error)),
    }
}

/// Tests by the index of a table that its blocks, or its parts, follow each other, as those do that
/// are read in order.
///
/// # Errors
///
/// An error with the file's name and the block or the part that does not begin where the one before
/// it ends.
pub fn test_order(alloc: Global, file: &str, index: &IndexBlock, is_parted: bool) -> Result<()> {
    let Some(number) = first_astray(index) else {
        return Ok(());
    };
    let offset = *index.handle_at(number, &mut Steps::new()).offset();
    let named = Some(TableBlock::numbered(is_parted, number));
    Err(Fault::of_block(alloc, file, named, offset, Error::BadHandle, Cause::Unknown))
}

// What was read, if it is sound: a check says why it is not.
fn if_sound<T>(read: sstable_blocks::Result<T>) -> Result<Option<T>> {
    match read {
        Ok(found) => Ok(Some(found)),
        Err(Error::Memory) => Err(Fault::Memory),
        Err(_) => Ok(None),
    }
}

// Where index and filter of a part are, in the part, by its footer.
fn handles_of<S: FrameSource>(
    alloc: Global,
    source: &mut S,
    part: &BlockHandle,
) -> sstable_blocks::Result<RunHandles> {
    let before = part.size().saturating_sub(FOOTER_LEN as u32);
    let footer = BlockHandle::new(BlockOffset(u64::from(before)), part.size() - before);
    let footer = source.read_frame(alloc, &in_file(part, &footer))?;
    decode_footer(footer.as_slice())
}

// The handle in a file of what a handle names in a part.
fn in_file(part: &BlockHandle, place: &BlockHandle) -> BlockHandle {
    let offset = part.offset().saturating_add(*place.offset());
    BlockHandle::new(BlockOffset(offset), place.size())
}

// Counts the entries of a table file, which is checked but for its filter.
fn entries_in<H: BlockHash, S: SizedSource>(
    alloc: Global,
    file: &mut S,
) -> sstable_blocks::Result<u64> {
    let places = read_table_footer(alloc, file)?;
    let unfiltered = RunHandles {
        index: places.index,
        filter: None,
    };
    let summary = check::<H, S>(alloc, file, &unfiltered)?;
    Ok(summary.entries)
}

// The same of a part.
fn entries_of<H: BlockHash, S: FrameSource>(
    alloc: Global,
    source: &mut S,
    part: &BlockHandle,
) -> sstable_blocks::Result<u64> {
    match source.read_frame(alloc, part) {
        Ok(bytes) => entries_in::<H, MemorySource>(alloc, &mut MemorySource::new(bytes)),
        Err(error) => Err(error),
    }
}

// Refuses a part whose filter, which is there in the file, claims too many probes for the entries of
// the part, which are counted where it claims many.
fn test_filter<H: BlockHash, S: FrameSource, R>(
    progress: &Progress<'_, R>,
    alloc: Global,
    file: &str,
    source: &mut S,
    (number, part): (usize, &BlockHandle),
    filter: &BlockHandle,
) -> Result<()> {
    let claim = match claim_at::<H, S>(alloc, source, filter)? {
        Some(claim) if claim.probes > FREE_PROBES => claim,
        _ => return Ok(()),
    };
    match entries_of::<H, S>(alloc, source, part) {
        Ok(entries) if may_ask(claim, entries) => Ok(()),
        Ok(entries) => Err(Fault::of_filter(alloc, file, *filter.offset(), claim, entries)),
        Err(error) => {
            let (named, offset) = (Some(TableBlock::Part(number)), *part.offset());
            Err(Fault::of_block(alloc, file, named, offset, error, progress.cause()))
        }
    }
}

// The bytes of a part that belong to no frame, by its footer and its index.
fn gaps_in<H: BlockHash, S: FrameSource>(
    alloc: Global,
    source: &mut S,
    part: &BlockHandle,
    handles: &RunHandles,
) -> sstable_blocks::Result<Gaps> {
    let index = index_block_from::<H, S>(alloc, source, &in_file(part, &handles.index))?;
    let gaps = Gaps::new(data_end(&index), handles, u64::from(part.size()));
    Ok(gaps.moved(*part.offset()))
}

// Tests the filter of a part. Returns the bytes of the part that belong to no frame, if its footer
// and its index can be read.
fn test_part<H: BlockHash, S: FrameSource, R>(
    progress: &Progress<'_, R>,
    alloc: Global,
    file: &str,
    source: &mut S,
    number: usize,
    part: &BlockHandle,
) -> Result<Option<Gaps>> {
    let Some(handles) = if_sound(handles_of(alloc, source, part))? else {
        return Ok(None);
    };
    if let Some(filter) = &handles.filter {
        let filter = in_file(part, filter);
        test_filter::<H, S, R>(progress, alloc, file, source, (number, part), &filter)?;
    }
    if_sound(gaps_in::<H, S>(alloc, source, part, &handles))
}

// Tests the filters of parts. Returns the bytes of all that belong to no frame.
fn test_each<H: BlockHash, S: FrameSource, R>(
    progress: &Progress<'_, R>,
    alloc: Global,
    file: &str,
    source: &mut S,
    index: &IndexBlock,
) -> Result<Vec<Gap>> {
    let mut all = Vec::new(alloc);
    let mut number = 0usize;
    while number < index.len() {
        let part = index.handle_at(number, &mut Steps::new());
        if let Some(gaps) = test_part::<H, S, R>(progress, alloc, file, source, number, &part)? {
            gaps.add_to(&mut all)?;
        }
        number += 1;
    }
    Ok(all)
}

// The index of the parts of a file.
fn index_of<H: BlockHash, S: FrameSource>(
    alloc: Global,
    source: &mut S,
    handles: &RunHandles,
) -> sstable_blocks::Result<IndexBlock> {
    let block = block_from::<H, S>(alloc, source, &handles.index, BlockType::Meta)?;
    IndexBlock::check_once(block)
}

/// Tests the parts of a file, before these are checked: its footer, that the parts follow each
/// other, and the numbers of their filters. Of each part the footer, the numbers of the filter and
/// the index are read. Returns the bytes of parts that belong to no frame.
///
/// # Errors
///
/// Those of [`test_footer`] and [`test_order`], and an error for a part whose filter claims more
/// probes for all entries than it has bits, and more than [`FREE_PROBES`] a key.
pub fn test_parts<H: BlockHash, S: FrameSource, R>(
    progress: &Progress<'_, R>,
    alloc: Global,
    file: &str,
    source: &mut S,
    handles: &RunHandles,
) -> Result<Vec<Gap>> {
    test_footer(progress, alloc, file, source)?;
    match if_sound(index_of::<H, S>(alloc, source, handles))? {
        Some(index) => {
            test_order(alloc, file, &index, true)?;
            test_each::<H, S, R>(progress, alloc, file, source, &index)
        }
        None => Ok(Vec::new(alloc)),
    }
}

/// Opens a parted table of a file by its footer: reads the index of its parts.
///
/// # Errors
///
/// Those of [`PartedTable::open`], with the file's name and the offset of that index.
pub fn open_parts<H: BlockHash, S: FrameSource + Drop, R>(
    progress: &Progress<'_, R>,
    alloc: Global,
    file: &str,
    source: S,
    handles: &RunHandles,
) -> Result<PartedTable<H, S>> {
    match PartedTable::open(alloc, source, handles.index) {
        Ok(table) => Ok(table),
        Err(failed) => Err(fault_of_index(progress, alloc, file, handles, failed.error)),
    }
}

/// Opens the part of a table at an index, which is read whole.
///
/// # Errors
///
/// Those of [`PartedTable::part_at`] and of [`Table::open_file`].
pub fn open_part<H: BlockHash, S: FrameSource>(
    alloc: Global,
    table: &mut PartedTable<H, S>,
    number: usize,
) -> sstable_blocks::Result<Table<H, MemorySource>>
    requires { number < length table.old.tops }
    ensures { table.new.tops ≡ table.old.tops }
{
    let bytes = table.part_at(alloc, number)?;
    Ok(Table::open_file(alloc, MemorySource::new(bytes))?)
}

// Where in a file the first bytes of a part are that its own index does not name, or names otherwise.
fn unnamed_at<H: BlockHash, S: FrameSource>(
    alloc: Global,
    table: &mut PartedTable<H, S>,
    number: usize,
) -> sstable_blocks::Result<Option<u64>>
    requires { number < length table.old.tops }
{
    let part = open_part(alloc, table, number)?;
    let begin = *table.index().handle_at(number, &mut Steps::new()).offset();
    Ok(match unnamed_in(part.index(), table.index(), number) {
        Some(offset) => Some(begin.saturating_add(offset)),
        None => None,
    })
}

/// Tests that the index of the last part of a range, if there is one, names all of it. A scan from the
/// back may find nothing of that part in the range, and then passes it.
///
/// # Errors
///
/// Those of [`open_part`], and an error for bytes that are not named.
pub fn test_last<H: BlockHash, S: FrameSource, R>(
    progress: &Progress<'_, R>,
    alloc: Global,
    file: &str,
    table: &mut PartedTable<H, S>,
    end: usize,
) -> Result<()> {
    let number = match end.checked_sub(1) {
        Some(number) if number < table.index().len() => number,
        _ => return Ok(()),
    };
    match unnamed_at(alloc, table, number) {
        Ok(None) => Ok(()),
        Ok(at) => Err(Fault::of_file(alloc, file, at, Error::BadHandle, Cause::Unknown)),
        Err(error) => Err(progress.fault(alloc, file, error)),
    }
}

// The part at an offset, by the index of the parts.
fn part_at(index: &IndexBlock, offset: u64) -> Option<TableBlock> {
    Some(TableBlock::Part(number_at(index, offset)?))
}

// The fault of a table of which the part at an offset was read last.
fn fault_of_part<R>(
    progress: &Progress<'_, R>,
    alloc: Global,
    file: &str,
    index: &IndexBlock,
    error: Error,
) -> Fault {
    let (offset, cause) = (progress.offset(), progress.cause());
    match offset {
        Some(offset) => {
            Fault::of_block(alloc, file, part_at(index, offset), offset, error, cause)
        }
        None => Fault::of_file(alloc, file, None, error, cause),
    }
}

/// Checks all parts of a table of a file.
///
/// # Errors
///
/// Those of [`PartedTable::verify`], with the file's name and the part that was read last.
pub fn check_parts<H: BlockHash, S: FrameSource, R>(
    progress: &Progress<'_, R>,
    alloc: Global,
    file: &str,
    table: &mut PartedTable<H, S>,
) -> Result<PartedSummary> {
    progress.expect_blocks(table.index().len() as u64);
    match table.verify(alloc) {
        Ok(summary) => Ok(summary),
        Err(error) => Err(fault_of_part(progress, alloc, file, table.index(), error)),
    }
}
