//! Readers whose range of user keys is known.
ghost use Rattle.std.specs.Prelude.{◌≡◌, ◌⊎◌, Some, None, true, false, if◌then◌else◌};
ghost use Rattle.std.specs.Prelude.{IfErr, IfOk, IfSome, Ok};
ghost use Rattle.std.specs.List.{AllByRecursion};
ghost use Rattle.std.specs.Option.{option_map};
ghost use Rattle.sst_sources.specs.RangeLaws.{ranged_if_ordered};
ghost use Rattle.sst_sources.specs.Ranges.{covers, ranged};
ghost use Rattle.sstable_blocks.specs.Prelude.{CountsBetween, entries, first_match};
ghost use Rattle.sstable_blocks.specs.Results.{Memory};

use sst_sources::Reader;
use sstable_blocks::{InternalValue, Result, SeqNo, Steps, UserKey};
use std::alloc::Global;

// Whether a user key is between two, which belong to the range.
pub(crate) fn is_between(first: &UserKey, last: &UserKey, needle: &[u8]) -> bool
    ensures { result ≡ covers first.now last.now needle.now }
{
    first.cmp_bytes(needle).is_le() && last.cmp_bytes(needle).is_ge()
}

/// A reader with the first and the last of its user keys. A read of a key outside that range reads
/// and examines nothing. What it has are the reader's entries with a key in the range, so all of
/// them where the range is right.
#[derive(Drop)]
pub struct Ranged<R: Reader> {
    reader: R,
    first: UserKey,
    last: UserKey,
}

impl<R: Reader> Ranged<R> {
    /// Notes the range of a reader: its first and its last user key.
    pub fn new(reader: R, first: UserKey, last: UserKey) -> Ranged<R>
        ensures range { result ≡ record { reader = reader; first = first; last = last } }
        ensures whole { IfSome (R.list reader) (λ all.
            AllByRecursion (λ e. covers first last e.key.user_key ≡ true) all
            → ⟦<Ranged<R> as Reader>⟧.list result ≡ Some all) }
    {
        Ranged {
            reader,
            first,
            last,
        }
    }

    /// Returns whether a key is in the range.
    pub fn covers(&self, needle: &[u8]) -> bool
        ensures { result ≡ covers self.now.first self.now.last needle.now }
    {
        is_between(&self.first, &self.last, needle)
    }
}

impl<R: Reader> Reader for Ranged<R> {
    ghost list = { λ s. option_map (ranged s.first s.last) (R.list s.reader) };

    ghost ordered = { λ s. ranged_if_ordered s.first s.last (R.list s.reader) (R.ordered s.reader) };

    ghost most = { λ s needle seqno.
        if covers s.first s.last needle then R.most s.reader needle seqno else Some (0, 0) };

    ghost may_fail = { λ s needle seqno e.
        (covers s.first s.last needle ≡ true) × R.may_fail s.reader needle seqno e };

    fn get(
        &mut self,
        alloc: Global,
        needle: &[u8],
        seqno: SeqNo,
        steps: &mut Steps,
    ) -> Result<Option<InternalValue>>
        ensures found { IfSome (option_map (ranged self.old.first self.old.last)
            (R.list self.old.reader))
            (λ all. IfOk result (λ found. found ≡ first_match entries needle.now seqno all)) }
        ensures kept { option_map (ranged self.new.first self.new.last) (R.list self.new.reader)
            ≡ option_map (ranged self.old.first self.old.last) (R.list self.old.reader) }
        ensures counts { IfSome (if covers self.old.first self.old.last needle.now
            then R.most self.old.reader needle.now seqno else Some (0, 0))
            (CountsBetween steps.old steps.new (0, 0)) }
        ensures cause { IfErr result (λ e. (e ≡ Memory)
            ⊎ ((covers self.old.first self.old.last needle.now ≡ true)
            × R.may_fail self.old.reader needle.now seqno e)) }
        ensures outside { covers self.old.first self.old.last needle.now ≡ false
            → (result ≡ Ok None) × (self.new ≡ self.old) × (steps.new ≡ steps.old) }
    {
        if self.covers(needle) {
            self.reader.get(alloc, needle, seqno, steps)
        } else {
            Ok(None)
        }
    }
}
