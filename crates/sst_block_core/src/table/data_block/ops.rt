//! Lists of seeks and steps over a data block, performed one after the other.
ghost use Rattle.std.specs.Prelude.{◌≡◌, map, IfOk, IsOk, IsOkUnless, []};
ghost use Rattle.sst_block_core.specs.Window.{answers, whole};
ghost use Rattle.sst_block_core.specs.Answers.{answer_of, Performs};
ghost use Rattle.sst_block_core.specs.Ops.{step_of};

use crate::table::answer::{Answer, materialized};
use crate::table::data_block::DataBlock;
use crate::table::data_block::iter::Iter;
use sst_base::{BlockHash, Error, InternalValue, Result, Slice};
use std::alloc::Global;

/// A step or a seek of an iterator over a data block.
#[derive(Debug, Drop)]
pub enum Op {
    /// Takes the first entry left.
    Next,
    /// Takes the last entry left.
    NextBack,
    /// Moves the front to the first key that is at least this one.
    Seek(Slice),
    /// Moves the back after the last key that is at most this one.
    SeekUpper(Slice),
    /// Moves the front to the first key above this one.
    SeekExclusive(Slice),
    /// Moves the back after the last key below this one.
    SeekUpperExclusive(Slice),
}

// Performs one operation.
fn perform(
    alloc: Global,
    iter: &mut Iter<'_>,
    payload: &Slice,
    op: &Op,
) -> Result<Answer<InternalValue>>
    requires { iter.old.payload ≡ payload.now }
    ensures payload { iter.new.payload ≡ iter.old.payload }
    ensures ok { IfOk result (λ a. Performs (step_of op.now) iter.old.window a iter.new.window) }
    ensures memory { IsOkUnless result Error.Memory }
{
    match op {
        Op::Next => materialized(alloc, payload, iter.next()),
        Op::NextBack => materialized(alloc, payload, iter.next_back()),
        Op::Seek(key) => Ok(Answer::Found(iter.seek(key.as_slice()))),
        Op::SeekUpper(key) => Ok(Answer::Found(iter.seek_upper(key.as_slice()))),
        Op::SeekExclusive(key) => Ok(Answer::Found(iter.seek_exclusive(key.as_slice()))),
        Op::SeekUpperExclusive(key) => {
            Ok(Answer::Found(iter.seek_upper_exclusive(key.as_slice())))
        }
    }
}

/// Performs a list of operations, one after the other, with a new iterator over a block, and
/// returns their results.
///
/// # Errors
///
/// `Error::Memory` if an allocation fails, which is possible only where there is an operation.
pub fn walk<H: BlockHash>(
    alloc: Global,
    block: &DataBlock<H>,
    ops: &[Op],
) -> Result<Vec<Answer<InternalValue>>>
    ensures ok { IfOk result
        (λ all. map answer_of all.items
        ≡ answers (map step_of ops.now) (whole block.now.items)) }
    ensures memory { IsOkUnless result Error.Memory }
    ensures none { ops.now ≡ [] → IsOk result }
{
    let payload = block.as_slice();
    let mut iter = block.iter();
    let mut all = Vec::with_capacity(alloc, ops.len())?;
    for op in ops {
        all.push(perform(alloc, &mut iter, payload, op)?)?;
    }
    Ok(all)
}
