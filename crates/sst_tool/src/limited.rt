//! The first entries of a source.
ghost use Rattle.std.specs.Prelude.{◌≡◌, None, IfErr, IfOk, OnOk};
ghost use Rattle.sst_sources.specs.Sources.{MayGive, MeetsNoMore, TakesFirst};
ghost use Rattle.sst_tool.specs.Limits.{limited};
ghost use Rattle.sst_tool.specs.Passed.{passed_on};

use sst_sources::{Source, keep_error};
use sstable_blocks::{Error, InternalValue, Result};
use std::alloc::Global;

/// At most so many entries of a source.
#[derive(Drop)]
pub struct Limited<I> {
    source: I,
    count: u64,
    ended: Option<Error>,
}

impl<I> Limited<I> {
    /// Takes at most `count` entries of a source.
    pub fn new(source: I, count: u64) -> Limited<I>
        ensures { result ≡ record { source = source; count = count; ended = None } }
    {
        Limited {
            source,
            count,
            ended: None,
        }
    }
}

// Takes the next entry of a source, if some may be taken, and counts it.
#[tactic(auto, using(crate::proofs::Scanning::Limits::limited_takes))]
fn next_counted<I: Source<InternalValue>>(
    alloc: Global,
    source: &mut I,
    count: &mut u64,
) -> Result<Option<InternalValue>>
    ensures first { IfOk result (λ r. TakesFirst (limited count.old (I.left source.old)) r
        (limited count.new (I.left source.new))) }
    ensures cause { IfErr result (MayGive I.may_fail (I.left source.old)) }
    ensures no_more { OnOk result (MeetsNoMore (I.left source.old) (I.left source.new)) }
{
    if *count == 0 {
        return Ok(None);
    }
    match source.next_entry(alloc)? {
        Some(entry) => {
            *count -= 1;
            Ok(Some(entry))
        }
        None => Ok(None),
    }
}

/// Takes the next entry, if the count is not reached.
impl<I: Source<InternalValue>> Source<InternalValue> for Limited<I> {
    ghost left = { λ l. passed_on (limited l.count (I.left l.source)) l.ended };

    ghost may_fail = { I.may_fail };

    fn next_entry(&mut self, alloc: Global) -> Result<Option<InternalValue>> {
        if let Some(error) = self.ended {
            return Err(error);
        }
        let next = next_counted(alloc, &mut self.source, &mut self.count);
        keep_error(&mut self.ended, &next);
        next
    }
}
