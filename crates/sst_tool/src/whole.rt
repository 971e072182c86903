//! Checks of whole table files.
ghost use Rattle.std.specs.Prelude.{◌≡◌, slice_get, IfSome, Some};
ghost use Rattle.std.specs.Option.{option_map};

use crate::fault::{Fault, Result};
use crate::place::{TableBlock, footer_block_at};
use crate::probes::{FREE_PROBES, claim_at, may_ask};
use crate::progress::Progress;
use byteorder::{ByteOrder, LittleEndian};
use sstable_blocks::run::check;
use sstable_blocks::run::checked::index_block_from;
use sstable_blocks::run::footer::read_table_footer;
use sstable_blocks::{
    BlockHandle, BlockHash, BlockOffset, Error, FrameSource, IndexBlock, RunHandles, RunSummary,
    SizedSource, Steps,
};
use std::alloc::Global;

// The length of the number of items, at the end of a block.
const COUNT_LEN: u32 = 4;

/// Returns the number of the block or the part at an offset, by the handles of an index.
pub fn number_at(index: &IndexBlock, offset: u64) -> Option<usize>
    ensures { IfSome result (λ i. option_map (λ h. h.offset) (slice_get index.now.items i) ≡ Some
        offset) }
{
    let mut number = 0usize;
    while number < index.len() {
        let handle = index.handle_at(number, &mut Steps::new());
        if *handle.offset() == offset {
            return Some(number);
        }
        number += 1;
    }
    None
}

// The data block of a number, if there is one.
fn named_by(number: Option<usize>) -> Option<TableBlock> {
    Some(TableBlock::Data(number?))
}

// The data block at an offset, by the index that was read.
fn data_block_in(read: sstable_blocks::Result<IndexBlock>, offset: u64) -> Option<TableBlock> {
    match read {
        Ok(index) => named_by(number_at(&index, offset)),
        Err(_) => None,
    }
}

// The block at an offset, by the footer and by the index, which is read again.
fn block_at<H: BlockHash, S: FrameSource>(
    alloc: Global,
    source: &mut S,
    handles: &RunHandles,
    offset: u64,
) -> Option<TableBlock> {
    if let Some(block) = footer_block_at(handles, offset) {
        return Some(block);
    }
    data_block_in(
        index_block_from::<H, S>(alloc, source, &handles.index),
        offset,
    )
}

// The fault of a table that a check refuses: it names the block that was read last.
fn fault_of<H: BlockHash, S: FrameSource, R>(
    progress: &Progress<'_, R>,
    alloc: Global,
    file: &str,
    source: &mut S,
    handles: &RunHandles,
    error: Error,
) -> Fault {
    let (offset, cause) = (progress.offset(), progress.cause());
    match offset {
        Some(offset) => {
            let block = block_at::<H, S>(alloc, source, handles, offset);
            Fault::of_block(alloc, file, block, offset, error, cause)
        }
        None => Fault::of_file(alloc, file, None, error, cause),
    }
}

/// Reads where the index and the filter of a table file are.
///
/// # Errors
///
/// Those of its footer, with the file's name.
pub fn handles_of<S: SizedSource, R>(
    progress: &Progress<'_, R>,
    alloc: Global,
    file: &str,
    source: &mut S,
) -> Result<RunHandles> {
    match read_table_footer(alloc, source) {
        Ok(handles) => Ok(handles),
        Err(error) => Err(Fault::of_file(alloc, file, None, error, progress.cause())),
    }
}

// Checks a run, or names what the check refuses.
fn check_named<H: BlockHash, S: FrameSource, R>(
    progress: &Progress<'_, R>,
    alloc: Global,
    file: &str,
    source: &mut S,
    handles: &RunHandles,
) -> Result<RunSummary> {
    match check::<H, S>(alloc, source, handles) {
        Ok(summary) => Ok(summary),
        Err(error) => Err(fault_of::<H, S, R>(progress, alloc, file, source, handles, error)),
    }
}

// Refuses a filter that claims too many probes for the entries of the run, which are counted first
// where it claims many.
fn test_filter<H: BlockHash, S: FrameSource, R>(
    progress: &Progress<'_, R>,
    alloc: Global,
    file: &str,
    source: &mut S,
    index: BlockHandle,
    filter: &BlockHandle,
) -> Result<()> {
    let Some(claim) = claim_at::<H, S>(alloc, source, filter)? else {
        return Ok(());
    };
    if claim.probes <= FREE_PROBES {
        return Ok(());
    }
    let unfiltered = RunHandles {
        index,
        filter: None,
    };
    let summary = check_named::<H, S, R>(progress, alloc, file, source, &unfiltered)?;
    if may_ask(claim, summary.entries) {
        return Ok(());
    }
    Err(Fault::of_filter(alloc, file, *filter.offset(), claim, summary.entries))
}

// The number of items in the block at a handle, by the last bytes of its trailer, which are not
// verified; 0 where they cannot be read.
fn items_at<S: FrameSource>(alloc: Global, source: &mut S, handle: &BlockHandle) -> u64 {
    let Some(before) = handle.size().checked_sub(COUNT_LEN) else {
        return 0;
    };
    let offset = handle.offset().saturating_add(u64::from(before));
    match source.read_frame(alloc, &BlockHandle::new(BlockOffset(offset), COUNT_LEN)) {
        Ok(count) => u64::from(LittleEndian::read_u32(count.as_slice())),
        Err(_) => 0,
    }
}

/// Checks the whole run of a file: each block, the order across blocks, end keys, the filter. Each
/// block is read once, but for a filter of more than [`FREE_PROBES`] probes a key.
///
/// # Errors
///
/// Those of the check, with the file's name and the block that was read last, and an error for a
/// filter that claims more probes for all entries than it has bits, and more than [`FREE_PROBES`]
/// a key.
pub fn check_whole<H: BlockHash, S: FrameSource, R>(
    progress: &Progress<'_, R>,
    alloc: Global,
    file: &str,
    source: &mut S,
    handles: &RunHandles,
) -> Result<RunSummary> {
    let others = 1 + u64::from(handles.filter.is_some());
    progress.expect_blocks(items_at(alloc, source, &handles.index).saturating_add(others));
    if let Some(filter) = &handles.filter {
        test_filter::<H, S, R>(progress, alloc, file, source, handles.index, filter)?;
    }
    check_named::<H, S, R>(progress, alloc, file, source, handles)
}
