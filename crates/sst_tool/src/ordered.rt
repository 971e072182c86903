//! Sources of which the order is tested.
ghost use Rattle.std.specs.Prelude.{◌≡◌, None, IfErr, IfOk, OnOk};
ghost use Rattle.sst_sources.specs.Sources.{MayGive, MeetsNoMore, TakesFirst};
ghost use Rattle.sst_tool.specs.Orders.{may_follow, FailsInOrder, GivesInOrder, MayMisplace};
ghost use Rattle.sst_tool.specs.Passed.{passed_on};
ghost use Rattle.sstable_blocks.specs.Scans.{EndsBy};

use sst_sources::{Source, keep_error};
use sstable_blocks::{Error, InternalKey, InternalValue, Result};
use std::alloc::Global;

/// The order in which entries are taken.
#[derive(Clone, Copy)]
pub enum Direction {
    /// From the first to the last.
    Forward,
    /// From the last to the first.
    Backward,
}

/// A source of entries that lie in blocks, each of which ends with an entry that an index names.
pub trait InBlocks: Source<InternalValue> {
    /// Returns whether the block that the last step left, or from the back the one that it came to,
    /// ends with the entry that the index names. The step gave `next`, the one before it a `last`
    /// key.
    fn ends_fit(&self, last: &Option<InternalKey>, next: &Option<InternalValue>) -> bool;
}

/// The entries of a source, each of which has to follow the one before it. One that does not ends
/// the source with `Error::OutOfOrder`, and a block that ends with another entry than the index
/// names with `Error::BadHandle`.
#[derive(Drop)]
pub struct Ordered<I> {
    source: I,
    direction: Direction,
    // the key of the entry that was given last
    last: Option<InternalKey>,
    ended: Option<Error>,
}

// Whether an entry with a key may follow one with the last key, if there is one.
fn may_follow(direction: Direction, last: &Option<InternalKey>, key: &InternalKey) -> bool
    ensures { result ≡ may_follow direction last.now key.now }
{
    match (last, direction) {
        (None, _) => true,
        (Some(last), Direction::Forward) => last.cmp(key).is_le(),
        (Some(last), Direction::Backward) => key.cmp(last).is_le(),
    }
}

impl<I> Ordered<I> {
    /// Tests the order of a source, of which no entry was taken.
    pub fn new(source: I, direction: Direction) -> Ordered<I>
        ensures { result
            ≡ record { source = source; direction = direction; last = None; ended = None } }
    {
        Ordered {
            source,
            direction,
            last: None,
            ended: None,
        }
    }
}

// Tests the entry that a step of a source gave, which has to follow one with the last key, and
// notes its key.
fn follow<I: InBlocks>(
    source: &I,
    direction: Direction,
    last: &mut Option<InternalKey>,
    next: &Option<InternalValue>,
) -> Result<()>
    ensures order { OnOk result (GivesInOrder direction last.old last.new next.now) }
    ensures cause { IfErr result FailsInOrder }
{
    if let Some(entry) = next
        && !may_follow(direction, last, entry.key())
    {
        return Err(Error::OutOfOrder);
    }
    if !source.ends_fit(last, next) {
        return Err(Error::BadHandle);
    }
    if let Some(entry) = next {
        *last = Some(entry.key().clone()?);
    }
    Ok(())
}

// Takes the next entry of a source, which has to follow one with the last key, and notes its key.
fn next_following<I: InBlocks>(
    alloc: Global,
    source: &mut I,
    direction: Direction,
    last: &mut Option<InternalKey>,
) -> Result<Option<InternalValue>>
    ensures first { IfOk result (λ r. TakesFirst (I.left source.old) r (I.left source.new)) }
    ensures order { IfOk result (GivesInOrder direction last.old last.new) }
    ensures cause { IfErr result (MayGive (MayMisplace I.may_fail) (I.left source.old)) }
    ensures no_more { OnOk result (MeetsNoMore (I.left source.old) (I.left source.new)) }
{
    let next = source.next_entry(alloc)?;
    match follow(source, direction, last, &next) {
        Ok(()) => Ok(next),
        Err(error) => Err(error),
    }
}

/// Takes the next entry, if it follows the one before.
impl<I: InBlocks> Source<InternalValue> for Ordered<I> {
    ghost left = { λ o. passed_on (I.left o.source) o.ended };

    ghost may_fail = { MayMisplace I.may_fail };

    fn next_entry(&mut self, alloc: Global) -> Result<Option<InternalValue>>
        ensures first { IfOk result (λ r.
            TakesFirst (I.left self.old.source) r (I.left self.new.source)) }
        ensures ended { EndsBy self.old.ended self.new.ended result }
        ensures order { IfOk result (GivesInOrder self.old.direction self.old.last self.new.last) }
        ensures cause { IfErr result (MayGive (MayMisplace I.may_fail)
            (passed_on (I.left self.old.source) self.old.ended)) }
        ensures no_more { OnOk result
            (MeetsNoMore (passed_on (I.left self.old.source) self.old.ended)
            (passed_on (I.left self.new.source) self.new.ended)) }
    {
        if let Some(error) = self.ended {
            return Err(error);
        }
        let next = next_following(alloc, &mut self.source, self.direction, &mut self.last);
        keep_error(&mut self.ended, &next);
        next
    }
}
