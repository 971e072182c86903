//! Writing a run and reading from it, as one call.
ghost use Rattle.std.specs.Prelude.{◌≡◌, ◌≤◌, length, IfOk, IfErr};
ghost use Rattle.sst_block_core.specs.Entries.{entries};
ghost use Rattle.sst_block_core.specs.Kind.{IsOrdered};
ghost use Rattle.sst_block_core.specs.Window.{first_match};
ghost use Rattle.sstable_blocks.specs.Blocks.{CutsFit, blocks_of};
ghost use Rattle.sstable_blocks.specs.Run.{form, IsWritable, RunFits};
ghost use Rattle.sstable_blocks.specs.Writing.{IsWriteRefusal};

use super::laws::blocks_are_the_list;
use super::{RunConfig, read_entry, write_run};
use sst_base::{BlockHash, InternalValue, Result, SeqNo, Slice, Steps};
use std::alloc::Global;

/// Writes a run into memory, and reads the first entry with this key whose sequence number is
/// strictly below `seqno`: it is the first match of these entries, however they are cut, and
/// however the run is configured. The conditions are those of `write_run`.
///
/// # Errors
///
/// Those of `write_run`, and `Error::Memory` if an allocation fails.
pub fn write_and_read<H: BlockHash>(
    alloc: Global,
    items: &[InternalValue],
    cuts: &[usize],
    config: RunConfig,
    needle: &[u8],
    seqno: SeqNo,
) -> Result<Option<InternalValue>>
    requires some { 1 ≤ length items.now }
    requires ordered { IsOrdered entries items.now }
    requires cuts { CutsFit 0 (length items.now) cuts.now }
    requires writable { IsWritable config }
    ensures found { IfOk result (λ found. found ≡ first_match entries needle.now seqno items.now) }
    ensures cause { IfErr result (IsWriteRefusal
        (RunFits (form H.hash64 H.hash128 config) (blocks_of cuts.now items.now) → ⊥)) }
{
    blocks_are_the_list::<InternalValue>();
    let mut bytes = Vec::new(alloc);
    let handles = write_run::<H, InternalValue, Vec<u8>>(alloc, &mut bytes, items, cuts, config)?;
    let bytes = Slice::from_vec(bytes)?;
    read_entry::<H>(alloc, &bytes, &handles, needle, seqno, &mut Steps::new())
}
