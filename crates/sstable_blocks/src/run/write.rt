//! Writing a run whose entries are all in memory.
ghost use Rattle.std.specs.Prelude.{◌↔◌, ◌≤◌, length, map, IsTrue, IfOk, IfErr};
ghost use Rattle.sst_block_core.specs.Entries.{entries};
ghost use Rattle.sst_block_core.specs.Kind.{IsOrdered};
ghost use Rattle.sstable_blocks.specs.Blocks.{CutsFit, blocks_of};
ghost use Rattle.sstable_blocks.specs.Run.{form, IsWritable, RunFits};
ghost use Rattle.sstable_blocks.specs.RunReading.{hashes};
ghost use Rattle.sstable_blocks.specs.Writing.{AppendsLayout, AppendsSound, IsWriteRefusal};
ghost use Rattle.sstable_blocks.specs.Writing.{UsesWriter};

use super::laws::blocks_are_the_list;
use super::run_core::RunCore;
use super::{RunConfig, RunHandles};
use sst_base::{BlockHash, InternalValue, Output, Result};
use sst_block_core::AsEntry;
use std::alloc::Global;

/// Returns whether a list of this length can be cut at these indexes into blocks that are not
/// empty: they rise strictly, and are at least 1 and below the length. No cuts fit every list; one
/// that is not empty is then one block.
pub fn cuts_fit(len: usize, cuts: &[usize]) -> bool
    ensures { IsTrue result ↔ CutsFit 0 len cuts.now }
{
    let mut start = 0;
    for cut in cuts {
        if *cut <= start || len <= *cut {
            return false;
        }
        start = *cut;
    }
    true
}

/// Writes a run: an ordered list of entries or of views, at least one, cut into blocks where `cuts`
/// says. The frames of the blocks come first, then that of the index, then, if there are bits for
/// it, that of the filter.
///
/// Both intervals and the denominator of the ratio are at least 1. See [`cuts_fit`] and
/// `DataBlock::is_ordered`.
///
/// # Errors
///
/// `Error::TooLong` only where a payload has more than 4294967262 bytes, the filter more than
/// 34359737920 bits, or all frames 2^64 bytes or more; `Error::Memory` if an allocation fails;
/// `Error::Io` if the writer fails, as a vector does whose allocation fails. The writer may then
/// hold a partial write of the run.
pub fn write_run<H: BlockHash, T: AsEntry, W: Output>(
    alloc: Global,
    writer: &mut W,
    items: &[T],
    cuts: &[usize],
    config: RunConfig,
) -> Result<RunHandles>
    requires some { 1 ≤ length items.now }
    requires ordered { IsOrdered entries (map T.entry items.now) }
    requires cuts { CutsFit 0 (length items.now) cuts.now }
    requires writable { IsWritable config }
    ensures layout { IfOk result (AppendsLayout (form H.hash64 H.hash128 config)
        (blocks_of cuts.now (map T.entry items.now)) (W.contents writer.old)
        (W.contents writer.new)) }
    ensures sound { IfOk result
        (AppendsSound (hashes H.hash64 H.hash128) (blocks_of cuts.now (map T.entry items.now))
        (W.contents writer.old) (W.contents writer.new)) }
    ensures writer { UsesWriter W.never_fails writer.old writer.new result }
    ensures cause { IfErr result (IsWriteRefusal
        (RunFits (form H.hash64 H.hash128 config) (blocks_of cuts.now (map T.entry items.now))
        → ⊥)) }
{
    blocks_are_the_list::<InternalValue>();
    let mut core = RunCore::<H>::new(alloc, config);
    let mut start = 0;
    let mut rest = items;
    for cut in cuts {
        let (block, behind) = rest.split_at(*cut - start);
        core.add_block(writer, block)?;
        rest = behind;
        start = *cut;
    }
    core.add_block(writer, rest)?;
    core.finish(writer)
}
