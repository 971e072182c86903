//! Lists of seeks and steps over an index block, performed one after the other.
ghost use Rattle.std.specs.Prelude.{◌≡◌, map, IfOk, IsOk, IsOkUnless, []};
ghost use Rattle.sst_block_core.specs.Window.{answers, whole};
ghost use Rattle.sst_block_core.specs.Answers.{answer_of, Performs};
ghost use Rattle.sst_block_core.specs.IndexOps.{step_of};

use crate::table::answer::{Answer, materialized};
use crate::table::index_block::IndexBlock;
use crate::table::index_block::block_handle::KeyedBlockHandle;
use crate::table::index_block::iter::Iter;
use sst_base::{Error, Result, SeqNo, Slice};
use std::alloc::Global;

/// A step or a seek of an iterator over an index block.
#[derive(Debug, Drop)]
pub enum IndexOp {
    /// Takes the first handle left.
    Next,
    /// Takes the last handle left.
    NextBack,
    /// Moves the front to the first handle that can lead to this key below this sequence number.
    Seek(Slice, SeqNo),
    /// Moves the back after the first handle whose end key is above this one.
    SeekUpper(Slice, SeqNo),
}

// Performs one operation.
fn perform(
    alloc: Global,
    iter: &mut Iter<'_>,
    payload: &Slice,
    op: &IndexOp,
) -> Result<Answer<KeyedBlockHandle>>
    requires { iter.old.payload ≡ payload.now }
    ensures payload { iter.new.payload ≡ iter.old.payload }
    ensures ok { IfOk result (λ a. Performs (step_of op.now) iter.old.window a iter.new.window) }
    ensures memory { IsOkUnless result Error.Memory }
{
    match op {
        IndexOp::Next => materialized(alloc, payload, iter.next()),
        IndexOp::NextBack => materialized(alloc, payload, iter.next_back()),
        IndexOp::Seek(key, seqno) => Ok(Answer::Found(iter.seek(key.as_slice(), *seqno))),
        IndexOp::SeekUpper(key, seqno) => {
            Ok(Answer::Found(iter.seek_upper(key.as_slice(), *seqno)))
        }
    }
}

/// Performs a list of operations, one after the other, with a new iterator over a block, and
/// returns their results.
///
/// # Errors
///
/// `Error::Memory` if an allocation fails, which is possible only where there is an operation.
pub fn walk(
    alloc: Global,
    block: &IndexBlock,
    ops: &[IndexOp],
) -> Result<Vec<Answer<KeyedBlockHandle>>>
    ensures ok { IfOk result
        (λ all. map answer_of all.items
        ≡ answers (map step_of ops.now) (whole block.now.items)) }
    ensures memory { IsOkUnless result Error.Memory }
    ensures none { ops.now ≡ [] → IsOk result }
{
    let payload = block.as_slice();
    let mut iter = block.iter();
    let mut all = Vec::with_capacity(alloc, ops.len())?;
    for op in ops {
        all.push(perform(alloc, &mut iter, payload, op)?)?;
    }
    Ok(all)
}
