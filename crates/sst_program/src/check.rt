//! `check`: the frames of a table file, one after the other.
ghost use Rattle.std.specs.Prelude.{◌≡◌, ◌≢◌, ◌⊎◌, ◌<◌, OnOk};
ghost use Rattle.std.specs.Prelude.{IfOk, IfErr, IfSome};
ghost use Rattle.std.specs.Prelude.{IsOkUnless, string_bytes};
ghost use Rattle.std.specs.Io.KnownBytes.{Keeps};
ghost use Rattle.sst_program.specs.Outcome.{checked_text_of, PrintsCounts, PrintsNothing};
ghost use Rattle.sst_program.specs.Outcome.{IsLibraryRefusal};
ghost use Rattle.sst_program.specs.TableReads.{block_count, filter_check, run_filter_check};
ghost use Rattle.sst_program.specs.TableReads.{entries_counted, run_counts, PrintsCountsOf};
ghost use Rattle.sst_program.specs.TableReads.{FailsAround, IsRefusalOf};
ghost use Rattle.sst_program.specs.TableReads.{table_counts, IsTableFault};
ghost use Rattle.sstable_blocks.specs.Results.{Io, Memory};
ghost use Rattle.sstable_blocks.specs.Sources.{AsksAny, AsksExactly, KeepsSource, ReadsAs};
ghost use Rattle.sstable_blocks.specs.Sources.{UsesSource};
ghost use Rattle.sstable_blocks.specs.Sources.{filter_frames};

use crate::fault;
use crate::output::print_text;
use crate::table::{data_block_at, index_at, open_file, open_run};
use sstable_blocks::filter::standard_bloom::StandardBloomFilterReader;
use sstable_blocks::run::checked::block_from;
use sstable_blocks::{
    BlockHandle, BlockType, Error, FrameSource, IndexBlock, Poly31, Result, RunHandles, SeekInput,
};
use std::alloc::Global;
use std::io::Write;
use std::rt::Files;

// Checks a filter: its type and its fields.
#[tactic(auto, unfolding(crate::specs::TableReads::filter_check))]
fn check_filter<S: FrameSource>(alloc: Global, source: &mut S, handle: &BlockHandle) -> Result<()>
    ensures source { UsesSource S.bytes S.failures S.reads S.is_reliable
        (AsksExactly 1) source.old source.new result }
    ensures exact { ReadsAs S.bytes S.failures S.is_reliable source.old source.new
        (λ u. u) result (λ all. filter_check all handle.now) }
{
    let block = block_from::<Poly31, S>(alloc, source, handle, BlockType::Filter)?;
    StandardBloomFilterReader::new(block.data().as_slice())?;
    Ok(())
}

// Checks the filter of a run, if it has one.
fn check_run_filter<S: FrameSource>(
    alloc: Global,
    source: &mut S,
    filter: &Option<BlockHandle>,
) -> Result<()>
    ensures source { UsesSource S.bytes S.failures S.reads S.is_reliable
        (AsksExactly (filter_frames filter.now)) source.old source.new result }
    ensures exact { ReadsAs S.bytes S.failures S.is_reliable source.old source.new
        (λ u. u) result (λ all. run_filter_check all filter.now) }
{
    match filter {
        Some(filter) => check_filter(alloc, source, filter),
        None => Ok(()),
    }
}

// Checks the block of a handle. Returns the number of its entries.
fn check_block<S: FrameSource>(alloc: Global, source: &mut S, handle: &BlockHandle) -> Result<usize>
    ensures source { UsesSource S.bytes S.failures S.reads S.is_reliable
        (AsksExactly 1) source.old source.new result }
    ensures exact { ReadsAs S.bytes S.failures S.is_reliable source.old source.new
        (λ n. n) result (λ all. block_count all handle.now) }
{
    let block = data_block_at(alloc, source, handle)?;
    Ok(block.len())
}

// Checks the blocks of an index. Returns the number of their entries.
fn check_blocks<S: FrameSource>(alloc: Global, source: &mut S, index: &IndexBlock) -> Result<u64>
    ensures source { UsesSource S.bytes S.failures S.reads S.is_reliable
        AsksAny source.old source.new result }
    ensures exact { ReadsAs S.bytes S.failures S.is_reliable source.old source.new
        (λ n. n) result (λ all. entries_counted all index.now.items) }
{
    let mut entries = 0u64;
    for item in index.iter() {
        let handle = BlockHandle::new(item.offset, item.size);
        let count = check_block(alloc, source, &handle)?;
        entries = entries.saturating_add(count as u64);
    }
    Ok(entries)
}

// Checks all frames of a run. Returns the number of its blocks and of their entries.
#[tactic(auto, unfolding(crate::specs::TableReads::run_counts))]
fn check_run<S: FrameSource>(
    alloc: Global,
    source: &mut S,
    handles: &RunHandles,
) -> Result<(usize, u64)>
    ensures source { UsesSource S.bytes S.failures S.reads S.is_reliable
        AsksAny source.old source.new result }
    ensures exact { ReadsAs S.bytes S.failures S.is_reliable source.old source.new
        (λ counts. counts) result (λ all. run_counts all handles.now) }
{
    check_run_filter(alloc, source, &handles.filter)?;
    let index = index_at(alloc, source, &handles.index)?;
    let entries = check_blocks(alloc, source, &index)?;
    Ok((index.len(), entries))
}

// The line of the numbers of blocks and of entries, with its line feed.
fn counts_text(alloc: Global, blocks: usize, entries: u64) -> Result<String>
    ensures ok { IfOk result (λ text. string_bytes text ≡ checked_text_of blocks entries) }
    ensures memory { IsOkUnless result Error.Memory }
{
    Ok(format!(in alloc; "ok {blocks} blocks {entries} entries\n")?)
}

/// Checks a run, and prints the number of its blocks and of their entries.
///
/// # Errors
///
/// As [`check`], once the file is open.
pub fn print_counts<S: FrameSource, O: Write>(
    alloc: Global,
    source: &mut S,
    handles: &RunHandles,
    output: &mut O,
) -> Result<()>
    ensures source { KeepsSource S.bytes S.failures S.is_reliable source.old source.new }
    ensures printed { OnOk result (PrintsCounts (O.contents output.old) (O.contents output.new)) }
    ensures kept { IfErr result
        (λ e. (e ≡ Io) ⊎ Keeps (O.contents output.old) (O.contents output.new)) }
    ensures exact { IfSome (S.bytes source.old) (λ all. OnOk result
        (PrintsCountsOf (run_counts all handles.now) (O.contents output.old)
        (O.contents output.new))) }
    ensures refused { IfSome (S.bytes source.old)
        (λ all. IfErr result (λ e. e ≢ Memory → e ≢ Io
        → IsRefusalOf (S.failures source.old < S.failures source.new)
        (run_counts all handles.now) e)) }
    ensures io { IfSome (S.bytes source.old) (λ all. IfErr result (λ e. e ≡ Io
        → FailsAround (S.failures source.old < S.failures source.new) (S.is_reliable source.old)
        (run_counts all handles.now))) }
{
    let (blocks, entries) = check_run(alloc, source, handles)?;
    let text = counts_text(alloc, blocks, entries)?;
    print_text(output, text.as_bytes())
}

/// Checks a table file, and prints the number of its blocks and of their entries. A block is
/// counted as often as the index names it. End keys and the bits of the filter are not compared
/// with the entries.
///
/// # Errors
///
/// `Error::Io` if the file or the output fails, `Error::Truncated` if the file is shorter than a
/// footer, then those of the filter, if there is one, of the index, and of its blocks in order.
/// `Error::Memory` if an allocation fails.
pub fn check_from<F: SeekInput + Drop, O: Write>(
    alloc: Global,
    file: F,
    output: &mut O,
) -> fault::Result<()>
    ensures printed { OnOk result (PrintsCounts (O.contents output.old) (O.contents output.new)) }
    ensures err { IfErr result IsLibraryRefusal }
    ensures kept { IfErr result (PrintsNothing (O.contents output.old) (O.contents output.new)) }

    // Of a file whose bytes are known.
    ensures exact { IfSome (F.whole file) (λ all. OnOk result
        (PrintsCountsOf (table_counts all) (O.contents output.old) (O.contents output.new))) }
    ensures fault { IfSome (F.whole file) (λ all. IfErr result
        (IsTableFault (F.is_memory file) (table_counts all))) }
{
    let mut table = open_run(alloc, file)?;
    print_counts(alloc, &mut table.source, &table.handles, output)?;
    Ok(())
}

/// Opens a table file, and checks it: see [`check_from`].
///
/// # Errors
///
/// `Error::Io` if the file cannot be opened; then those of [`check_from`].
pub fn check<R: Files, O: Write>(
    rt: &R,
    alloc: Global,
    file: &str,
    output: &mut O,
) -> fault::Result<()>
    ensures printed { OnOk result (PrintsCounts (O.contents output.old) (O.contents output.new)) }
    ensures err { IfErr result IsLibraryRefusal }
    ensures kept { IfErr result (PrintsNothing (O.contents output.old) (O.contents output.new)) }
{
    check_from(alloc, open_file(rt, file)?, output)
}
