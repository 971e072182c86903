//! `walk`: all entries of a table file.
ghost use Rattle.std.specs.Prelude.{◌≡◌, ◌≢◌, ◌⊎◌, ◌<◌, None};
ghost use Rattle.std.specs.Prelude.{OnOk, IfErr};
ghost use Rattle.std.specs.Prelude.{IfSome};
ghost use Rattle.std.specs.Io.KnownBytes.{Keeps};
ghost use Rattle.sst_program.specs.declared.fault.Fault.TheVariants.{Refused};
ghost use Rattle.sst_program.specs.Outcome.{PrintsLines, IsLibraryRefusal};
ghost use Rattle.sst_program.specs.TableReads.{block_read, blocks_listed, run_blocks};
ghost use Rattle.sst_program.specs.TableReads.{FailsAround, FailsAmong, table_blocks, IsWalkFault};
ghost use Rattle.sst_program.specs.TableReads.{IsRefusalOf, PrintsLinesOf, PrintsUntil};
ghost use Rattle.sst_program.specs.TableReads.{PrintsBefore, PrintsFirst};
ghost use Rattle.sstable_blocks.specs.Results.{Io, Memory};
ghost use Rattle.sstable_blocks.specs.Sources.{KeepsSource};

use crate::entry_printer::print_entries_of;
use crate::fault;
use crate::table::{data_block_at, index_at, open_file, open_run};
use sstable_blocks::{BlockHandle, Error, FrameSource, IndexBlock, Poly31, Result, SeekInput};
use std::alloc::Global;
use std::io::Write;
use std::rt::Files;

// Prints the entries of the block of a handle, after its check.
fn print_block<S: FrameSource, O: Write>(
    alloc: Global,
    source: &mut S,
    handle: &BlockHandle,
    output: &mut O,
) -> Result<()>
    ensures source { KeepsSource S.bytes S.failures S.is_reliable source.old source.new }
    ensures printed { OnOk result (PrintsLines (O.contents output.old) (O.contents output.new)) }
    ensures kept { IfErr result
        (λ e. (e ≡ Io) ⊎ Keeps (O.contents output.old) (O.contents output.new)) }
    ensures exact { IfSome (S.bytes source.old) (λ all. OnOk result
        (PrintsLinesOf (block_read all handle.now) (O.contents output.old)
        (O.contents output.new))) }
    ensures refused { IfSome (S.bytes source.old)
        (λ all. IfErr result (λ e. e ≢ Memory → e ≢ Io
        → IsRefusalOf (S.failures source.old < S.failures source.new)
        (block_read all handle.now) e)) }
    ensures io { IfSome (S.bytes source.old) (λ all. IfErr result (λ e. e ≡ Io
        → FailsAround (S.failures source.old < S.failures source.new) (S.is_reliable source.old)
        (block_read all handle.now))) }
{
    let block = data_block_at(alloc, source, handle)?;
    print_entries_of(alloc, &block, output)
}

// Prints the entries of the blocks of an index, each after its check.
#[tactic(auto, using(crate::proofs::Results::Outcomes::prints_kept))]
fn print_blocks<S: FrameSource, O: Write>(
    alloc: Global,
    source: &mut S,
    index: &IndexBlock,
    output: &mut O,
) -> Result<()>
    ensures source { KeepsSource S.bytes S.failures S.is_reliable source.old source.new }
    ensures printed { OnOk result (PrintsLines (O.contents output.old) (O.contents output.new)) }
    ensures kept { IfErr result
        (λ e. (e ≡ Io) ⊎ PrintsLines (O.contents output.old) (O.contents output.new)) }
    ensures exact { IfSome (S.bytes source.old) (λ all. OnOk result
        (PrintsUntil (O.contents output.old) (O.contents output.new)
        (blocks_listed all index.now.items) None)) }
    ensures refused { IfSome (S.bytes source.old)
        (λ all. IfErr result (λ e. e ≢ Memory → e ≢ Io
        → PrintsBefore (S.failures source.old < S.failures source.new)
        (O.contents output.old) (O.contents output.new)
        (blocks_listed all index.now.items) e)) }
    ensures first { IfSome (S.bytes source.old) (λ all. IfErr result (λ e. (e ≡ Io)
        ⊎ PrintsFirst (O.contents output.old) (O.contents output.new)
        (blocks_listed all index.now.items))) }
    ensures io { IfSome (S.bytes source.old) (λ all. IfErr result (λ e. e ≡ Io
        → FailsAmong (S.failures source.old < S.failures source.new) (S.is_reliable source.old)
        (blocks_listed all index.now.items))) }
{
    for item in index.iter() {
        let handle = BlockHandle::new(item.offset, item.size);
        print_block(alloc, source, &handle, output)?;
    }
    Ok(())
}

/// Prints all entries of a run in order, by the handle of its index.
///
/// # Errors
///
/// As [`walk`], once the file is open.
pub fn print_entries<S: FrameSource, O: Write>(
    alloc: Global,
    source: &mut S,
    index: &BlockHandle,
    output: &mut O,
) -> Result<()>
    ensures source { KeepsSource S.bytes S.failures S.is_reliable source.old source.new }
    ensures printed { OnOk result (PrintsLines (O.contents output.old) (O.contents output.new)) }
    ensures kept { IfErr result
        (λ e. (e ≡ Io) ⊎ PrintsLines (O.contents output.old) (O.contents output.new)) }
    ensures exact { IfSome (S.bytes source.old) (λ all. OnOk result
        (PrintsUntil (O.contents output.old) (O.contents output.new)
        (run_blocks all index.now) None)) }
    ensures refused { IfSome (S.bytes source.old)
        (λ all. IfErr result (λ e. e ≢ Memory → e ≢ Io
        → PrintsBefore (S.failures source.old < S.failures source.new)
        (O.contents output.old) (O.contents output.new) (run_blocks all index.now) e)) }
    ensures first { IfSome (S.bytes source.old) (λ all. IfErr result (λ e. (e ≡ Io)
        ⊎ PrintsFirst (O.contents output.old) (O.contents output.new)
        (run_blocks all index.now))) }
    ensures io { IfSome (S.bytes source.old) (λ all. IfErr result (λ e. e ≡ Io
        → FailsAmong (S.failures source.old < S.failures source.new) (S.is_reliable source.old)
        (run_blocks all index.now))) }
{
    let index = index_at(alloc, source, index)?;
    print_blocks(alloc, source, &index, output)
}

/// Prints all entries of a table file in order, a line each, block by block. The filter is not
/// read.
///
/// # Errors
///
/// `Error::Io` if the file or the output fails, `Error::Truncated` if the file is shorter than a
/// footer, then those of the index and of its blocks in order: see `index_at` and `data_block_at`.
/// `Error::Memory` if an allocation fails. The entries of the blocks before are printed, unless the
/// output failed.
pub fn walk_from<F: SeekInput + Drop, O: Write>(
    alloc: Global,
    file: F,
    output: &mut O,
) -> fault::Result<()>
    ensures printed { OnOk result (PrintsLines (O.contents output.old) (O.contents output.new)) }
    ensures err { IfErr result IsLibraryRefusal }
    ensures kept { IfErr result
        (λ fault. (fault ≡ Refused Io)
        ⊎ PrintsLines (O.contents output.old) (O.contents output.new)) }

    // Of a file whose bytes are known.
    ensures exact { IfSome (F.whole file) (λ all. OnOk result
        (PrintsUntil (O.contents output.old) (O.contents output.new) (table_blocks all) None)) }
    ensures fault { IfSome (F.whole file) (λ all. IfErr result
        (IsWalkFault (F.is_memory file) (O.contents output.old) (O.contents output.new)
        (table_blocks all))) }
{
    let mut table = open_run(alloc, file)?;
    print_entries(alloc, &mut table.source, &table.handles.index, output)?;
    Ok(())
}

/// Opens a table file, and prints all its entries: see [`walk_from`].
///
/// # Errors
///
/// `Error::Io` if the file cannot be opened; then those of [`walk_from`].
pub fn walk<R: Files, O: Write>(
    rt: &R,
    alloc: Global,
    file: &str,
    output: &mut O,
) -> fault::Result<()>
    ensures printed { OnOk result (PrintsLines (O.contents output.old) (O.contents output.new)) }
    ensures err { IfErr result IsLibraryRefusal }
    ensures kept { IfErr result
        (λ fault. (fault ≡ Refused Io)
        ⊎ PrintsLines (O.contents output.old) (O.contents output.new)) }
{
    walk_from(alloc, open_file(rt, file)?, output)
}
