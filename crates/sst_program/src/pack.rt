//! `pack`: a table file of all entries.
ghost use Rattle.std.specs.Prelude.{◌≡◌, ◌≤◌, OnOk, IfOk, IfErr};
ghost use Rattle.std.specs.Prelude.{IsErrOf, IsOkUnless, length};
ghost use Rattle.std.specs.Prelude.{None, string_bytes};
ghost use Rattle.sst_program.specs.Outcome.{packed_text_of, PrintsPacked, PrintsNothing};
ghost use Rattle.sst_program.specs.Outcome.{IsPackFault};
ghost use Rattle.sst_program.specs.Table.{AppendsPacked, IsCutBy, IsFreshRun, IsWriteFault};
ghost use Rattle.sstable_blocks.specs.Prelude.{entries, IsOrdered};
ghost use Rattle.sstable_blocks.specs.Results.{Io};
ghost use Rattle.sstable_blocks.specs.Run.{IsWritable};
ghost use Rattle.sstable_blocks.specs.Writing.{IsSameRun, UsesWriter};

use crate::fault::{self, Fault};
use crate::input::ordered_entries;
use crate::output::print_text;
use crate::replace::write_file;
use crate::words::PackWords;
use sstable_blocks::{
    Error, InternalValue, LockFiles, Output, Poly31, Result, RunConfig, RunWriter, SyncWrite,
};
use std::alloc::Global;
use std::io::{Read, Write};

/// What was written of a table.
#[derive(Clone, Copy, Debug, PartialEq, Eq)]
pub struct Packed {
    /// The number of blocks.
    pub blocks: usize,
    /// The number of bytes, those of the footer included.
    pub len: u64,
}

// Writes the blocks of a run, each of `per_block` entries, the last perhaps of fewer.
fn add_blocks<W: Output>(
    run: &mut RunWriter<Poly31, W>,
    items: &[InternalValue],
    per_block: usize,
) -> Result<()>
    requires fresh { IsFreshRun run.old }
    requires per_block { 1 ≤ per_block }
    requires ordered { IsOrdered entries items.now }
    ensures cut { OnOk result (IsCutBy per_block items.now run.new.blocks) }
    ensures accepting { OnOk result (run.new.refusal ≡ None) }
    ensures run { IsSameRun run.old run.new }
    ensures writer { UsesWriter W.never_fails run.old.writer run.new.writer result }
    ensures cause { IfErr result (IsWriteFault run.old.config per_block items.now) }
{
    let mut rest = items;
    while !rest.is_empty() {
        let (block, behind) = rest.split_at(per_block.min(rest.len()));
        run.add_block(block)?;
        rest = behind;
    }
    Ok(())
}

/// Writes a table: the run of ordered entries, in blocks of `per_block` entries, the last perhaps
/// of fewer, and its footer. Returns what was written, and the writer, which is synced.
///
/// # Errors
///
/// `Error::Io` if the writer fails, `Error::TooLong` only where the blocks of a front of the
/// entries make a table that does not fit (see `RunWriter`), `Error::Memory` if an allocation
/// fails.
pub fn write_table<W: SyncWrite + Drop>(
    alloc: Global,
    writer: W,
    items: &[InternalValue],
    config: RunConfig,
    per_block: usize,
) -> Result<(Packed, W)>
    requires writable { IsWritable config }
    requires per_block { 1 ≤ per_block }
    requires some { 1 ≤ length items.now }
    requires ordered { IsOrdered entries items.now }
    ensures table { IfOk result
        (λ r. AppendsPacked config per_block items.now (W.contents writer) (W.contents r.1) r.0) }
    ensures synced { IfOk result (λ r. W.is_synced r.1) }
    ensures failed { IsErrOf result Io → W.never_fails writer → ⊥ }
    ensures cause { IfErr result (IsWriteFault config per_block items.now) }
{
    let mut run = RunWriter::<Poly31, W>::new(alloc, writer, config);
    add_blocks(&mut run, items, per_block)?;
    let blocks = run.block_count();
    let (_, len, writer) = run.finish_table()?;
    Ok((Packed { blocks, len }, writer))
}

// The line of what was packed, with its line feed.
fn packed_text(alloc: Global, entries: usize, packed: &Packed) -> Result<String>
    ensures ok { IfOk result
        (λ text. string_bytes text ≡ packed_text_of entries packed.now.blocks packed.now.len) }
    ensures memory { IsOkUnless result Error.Memory }
{
    let Packed { blocks, len } = *packed;
    Ok(format!(in alloc; "packed {entries} entries in {blocks} blocks, {len} bytes\n")?)
}

/// Reads entries, writes their table file, and prints how much was packed.
///
/// # Errors
///
/// `Fault::NoEntries`, `Fault::Entry` and `Fault::Order` if the input is refused; the file is not
/// touched then. `Error::Io` if the input, the file or the output fails, `Error::TooLong` if the
/// run does not fit: see `RunWriter`. `Error::Memory` if an allocation fails.
pub fn pack<R: LockFiles, I: Read, O: Write>(
    rt: &R,
    alloc: Global,
    words: &PackWords<'_>,
    input: &mut I,
    output: &mut O,
) -> fault::Result<()>
    ensures printed { OnOk result (PrintsPacked words.now (I.remaining input.old)
        (O.contents output.old) (O.contents output.new)) }
    ensures err { IfErr result (IsPackFault words.now (I.remaining input.old)) }
    ensures kept { IfErr result (PrintsNothing (O.contents output.old) (O.contents output.new)) }
{
    let items = ordered_entries(alloc, input)?;
    let packed = write_file(rt, alloc, words, items.as_slice())?;
    let text = packed_text(alloc, items.len(), &packed)?;
    print_text(output, text.as_bytes())?;
    Ok(())
}
