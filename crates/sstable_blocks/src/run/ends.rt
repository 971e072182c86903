//! The steps of a scan, from either end: which blocks are opened, and which items are taken.
//!
//! What opens blocks is one function for both ends, to which they are passed as near and far. What
//! takes an item is a function for each end: inlined into its callers, one of both would be too
//! long.
ghost use Rattle.std.specs.Prelude.{◌≡◌, ◌+◌, ◌<◌, ◌≤◌, None, false, length, nat_lt, true};
ghost use Rattle.sstable_blocks.specs.BlockReading.{TakesEnd, items_of};
ghost use Rattle.sstable_blocks.specs.Ends.{AreEnds, IsReady, Pays, PaysOnce, TakesNear, counts_of};
ghost use Rattle.sstable_blocks.specs.Ends.{ends, hi_at, index_at, lo_at};
ghost use Rattle.std.specs.Result.{result_err};
ghost use Rattle.sstable_blocks.specs.Tallies.{AddsTaken, least_taken, most_taken, tally_of};

use super::blocks::{Blocks, Ended};
use sst_base::{Error, Result};
use std::mem;

/// The indexes of the blocks that were not opened: from the first up to the second, without it.
#[derive(Drop)]
pub struct Between {
    /// The index of the first of them.
    pub lo: usize,
    /// The index after the last of them.
    pub hi: usize,
}

// Takes the index at an end.
#[inline(always)]
fn take_index<const BACK: bool>(between: &mut Between) -> usize
    requires { between.old.lo < between.old.hi }
    ensures index { result ≡ index_at BACK between.old.lo between.old.hi }
    ensures rest { (between.new.lo ≡ lo_at BACK between.old.lo)
        × (between.new.hi ≡ hi_at BACK between.old.hi) }
{
    if BACK {
        between.hi -= 1;
        between.hi
    } else {
        between.lo += 1;
        between.lo - 1
    }
}

// Whether an opened block has an item left.
#[inline(always)]
fn has_item<B: Ended>(block: &Option<B>) -> bool
    ensures { result ≡ nat_lt 0 (length (items_of B.items block.now)) }
{
    match block {
        Some(block) => block.count_left() > 0,
        None => false,
    }
}

// Keeps the error of a step, if it is one. No step before it failed.
#[inline(always)]
fn keep_error<T>(ended: &mut Option<Error>, found: &Result<T>)
    requires { ended.old ≡ None }
    ensures { ended.new ≡ result_err found.now }
{
    if let Err(error) = found {
        *ended = Some(*error);
    }
}

// Takes the first item left of an opened block, and keeps the error.
#[inline(always)]
fn take_first<B: Ended>(
    room: B::Room,
    block: &mut Option<B>,
    ended: &mut Option<Error>,
) -> Result<Option<B::Item>>
    requires { ended.old ≡ None }
    ensures taken { TakesEnd false B.Lacks (items_of B.items block.old) result
        (items_of B.items block.new) }
    ensures ended { ended.new ≡ result_err result }
    ensures counts { AddsTaken (tally_of B.tally block.old) (tally_of B.tally block.new)
        (least_taken result) (most_taken result) }
    ensures once { (tally_of B.tally block.new).entries
        ≤ (tally_of B.tally block.old).entries + most_taken result }
{
    let Some(block) = block else {
        return Ok(None);
    };
    let item = block.next(room);
    keep_error(ended, &item);
    item
}

// Takes the last item left of an opened block, and keeps the error.
#[inline(always)]
fn take_last<B: Ended>(
    room: B::Room,
    block: &mut Option<B>,
    ended: &mut Option<Error>,
) -> Result<Option<B::Item>>
    requires { ended.old ≡ None }
    ensures taken { TakesEnd true B.Lacks (items_of B.items block.old) result
        (items_of B.items block.new) }
    ensures ended { ended.new ≡ result_err result }
    ensures counts { AddsTaken (tally_of B.tally block.old) (tally_of B.tally block.new)
        (least_taken result) (most_taken result) }
{
    let Some(block) = block else {
        return Ok(None);
    };
    let item = block.next_back(room);
    keep_error(ended, &item);
    item
}

// Opens blocks from an end on until one has an item. Where none is left between the ends, the ends
// change their blocks.
#[inline(never)]
fn turn<B: Ended, S: Blocks<B>, const BACK: bool>(
    room: B::Room,
    blocks: &mut S,
    near: &mut Option<B>,
    between: &mut Between,
    far: &mut Option<B>,
) -> Result<()>
    requires { AreEnds S.reading blocks.old (ends B.items near.old between.old far.old) }
    ensures ready { IsReady S.reading BACK blocks.old (ends B.items near.old between.old far.old)
        result blocks.new (ends B.items near.new between.new far.new) }
    ensures counts { PaysOnce S.reading blocks.old
        (counts_of S.reading B.tally blocks.old near.old between.old far.old)
        (counts_of S.reading B.tally blocks.new near.new between.new far.new) 0 0 }
{
    'open: while between.lo < between.hi && !has_item::<B>(near) {
        let index = take_index::<BACK>(between);
        blocks.open(room, index, near)?;
    }
    if has_item::<B>(near) {
        return Ok(());
    }
    mem::swap(near, far);
    Ok(())
}

// Leaves a block with an item at an end, if there is one.
#[inline(always)]
fn ready<B: Ended, S: Blocks<B>, const BACK: bool>(
    room: B::Room,
    blocks: &mut S,
    near: &mut Option<B>,
    between: &mut Between,
    far: &mut Option<B>,
) -> Result<()>
    requires { AreEnds S.reading blocks.old (ends B.items near.old between.old far.old) }
    ensures ready { IsReady S.reading BACK blocks.old (ends B.items near.old between.old far.old)
        result blocks.new (ends B.items near.new between.new far.new) }
    ensures counts { PaysOnce S.reading blocks.old
        (counts_of S.reading B.tally blocks.old near.old between.old far.old)
        (counts_of S.reading B.tally blocks.new near.new between.new far.new) 0 0 }
{
    if has_item::<B>(near) {
        return Ok(());
    }
    turn::<B, S, BACK>(room, blocks, near, between, far)
}

/// Takes the first item left: `near` is the block that was opened from the front, `far` that from
/// the back. The error of a step that fails is kept; no step before it failed.
///
/// # Errors
///
/// That of [`Blocks::open`] where a block is refused, and that of [`Ended`] where the item is not
/// made.
#[inline(always)]
pub fn step_front<B: Ended, S: Blocks<B>>(
    room: B::Room,
    blocks: &mut S,
    near: &mut Option<B>,
    between: &mut Between,
    far: &mut Option<B>,
    ended: &mut Option<Error>,
) -> Result<Option<B::Item>>
    requires ends { AreEnds S.reading blocks.old (ends B.items near.old between.old far.old) }
    requires going { ended.old ≡ None }
    ensures taken { TakesNear S.reading B.Lacks false blocks.old
        (ends B.items near.old between.old far.old) result blocks.new
        (ends B.items near.new between.new far.new) }
    ensures ended { ended.new ≡ result_err result }
    ensures counts { PaysOnce S.reading blocks.old
        (counts_of S.reading B.tally blocks.old near.old between.old far.old)
        (counts_of S.reading B.tally blocks.new near.new between.new far.new)
        (least_taken result) (most_taken result) }
{
    let ready = ready::<B, S, false>(room, blocks, near, between, far);
    keep_error(ended, &ready);
    ready?;
    take_first::<B>(room, near, ended)
}

/// Takes the last item left: `near` is the block that was opened from the back, `far` that from the
/// front. The error of a step that fails is kept; no step before it failed.
///
/// # Errors
///
/// That of [`Blocks::open`] where a block is refused, and that of [`Ended`] where the item is not
/// made.
#[inline(always)]
pub fn step_back<B: Ended, S: Blocks<B>>(
    room: B::Room,
    blocks: &mut S,
    near: &mut Option<B>,
    between: &mut Between,
    far: &mut Option<B>,
    ended: &mut Option<Error>,
) -> Result<Option<B::Item>>
    requires ends { AreEnds S.reading blocks.old (ends B.items near.old between.old far.old) }
    requires going { ended.old ≡ None }
    ensures taken { TakesNear S.reading B.Lacks true blocks.old
        (ends B.items near.old between.old far.old) result blocks.new
        (ends B.items near.new between.new far.new) }
    ensures ended { ended.new ≡ result_err result }
    ensures counts { Pays S.reading blocks.old
        (counts_of S.reading B.tally blocks.old near.old between.old far.old)
        (counts_of S.reading B.tally blocks.new near.new between.new far.new)
        (least_taken result) (most_taken result) }
{
    let ready = ready::<B, S, true>(room, blocks, near, between, far);
    keep_error(ended, &ready);
    ready?;
    take_last::<B>(room, near, ended)
}
