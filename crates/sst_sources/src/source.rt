//! Sources of versions.
ghost use Rattle.std.specs.Prelude.{◌≡◌, IfErr, IfOk, OnOk, None, Some};
ghost use Rattle.sst_sources.specs.Sources.{Left, MayGive, MeetsNoMore, TakesFirst};
ghost use Rattle.sstable_blocks.specs.Results.{Error};
ghost use Rattle.sstable_blocks.specs.Scans.{EndsBy};
ghost use Rattle.std.specs.Result.{result_err};

use sstable_blocks::{Error, Result};
use std::alloc::Global;

/// An ordered list of versions, which are taken one after the other: a scan of a table, what an
/// engine holds in memory, or a merge of others; or the same from the back ([`Rev`](crate::Rev)).
///
/// An error ends the source: each later step returns it again.
pub trait Source<T> {
    // The versions left, where they are known (those of a file whose bytes nothing is known of are
    // not), at most how many they are, the errors that reading them may give, and the error that
    // ended the source, if one did.
    ghost left: { Self → Left T };

    // The errors that any step may give, whatever is left: those of a device, or of a test.
    ghost may_fail: { Error → Type 0 };

    /// Takes the first version left, or returns `None` where none is left.
    ///
    /// # Errors
    ///
    /// Those of what the versions are read from, and `Error::Memory` if an allocation fails. An
    /// error ends the source: each later step returns it again.
    fn next_entry(&mut self, alloc: Global) -> Result<Option<T>>
        ensures first { IfOk result (λ r. TakesFirst (left self.old) r (left self.new)) }
        ensures ended { EndsBy (left self.old).ended (left self.new).ended result }
        ensures cause { IfErr result (MayGive may_fail (left self.old)) }
        ensures no_more { OnOk result (MeetsNoMore (left self.old) (left self.new)) };
}

/// Keeps the error of a step of a source, if it is one: it ends the source. No step before it
/// failed.
#[inline(always)]
pub fn keep_error<T>(ended: &mut Option<Error>, step: &Result<T>)
    requires { ended.old ≡ None }
    ensures { ended.new ≡ result_err step.now }
{
    if let Err(error) = step {
        *ended = Some(*error);
    }
}

/// Notes the error that ends a source, and returns it.
#[inline(always)]
pub fn note_error(ended: &mut Option<Error>, error: &Error) -> Error
    ensures ended { ended.new ≡ Some error.now }
    ensures same { result ≡ error.now }
{
    *ended = Some(*error);
    *error
}
