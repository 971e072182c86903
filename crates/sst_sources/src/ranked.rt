//! Items in an order, with a number that decides it mostly.
ghost use Rattle.std.specs.Prelude.{◌≡◌, ◌<◌, ℕ, false, true};
ghost use Rattle.std.specs.Cmp.{IsTotalOrder};
ghost use Rattle.std.specs.Ordering.{is_lt};
ghost use Rattle.std.specs.declared.cmp.Ordering.{Ordering};
ghost use Rattle.sst_sources.specs.FrontLaws.{entry_tells};
ghost use Rattle.sst_sources.specs.Fronts.{key_front};
ghost use Rattle.sst_sources.specs.Merge.{entry_cmp};
ghost use Rattle.sstable_blocks.specs.BlockLaws.{versions_cmp_total};
ghost use Rattle.sstable_blocks.specs.Prelude.{IsBytes, entries};

use crate::front::front_of_key;
use sstable_blocks::{EntryView, InternalValue};
use std::cmp::Ordering;

/// An item of a merge. Of two items whose fronts differ, that of the lesser front goes first.
pub trait Ranked: Sized {
    // the order
    ghost cmp: { Self → Self → Ordering };

    // the number of an item
    ghost number: { Self → ℕ };

    // what is known of an item whose number was made
    ghost IsNumbered: { Self → Type 0 };

    // it is an order
    ghost ordered: { IsTotalOrder cmp };

    /// Compares with another item.
    fn compare(&self, other: &Self) -> Ordering
        ensures { result ≡ cmp self.now other.now };

    /// Returns a number by which most items are compared.
    fn front(&self) -> u128
        ensures value { result ≡ number self.now }
        ensures numbered { IsNumbered self.now };

    // the numbers tell the order where they differ
    ghost tells: { (x y : Self) → IsNumbered x → IsNumbered y → number x < number y
        → (is_lt (cmp y x) ≡ false) × (is_lt (cmp x y) ≡ true) };
}

/// Entries are ordered by user key rising, then by sequence number falling. The front of an entry
/// is that of its key: its first 16 bytes as a big-endian number.
impl Ranked for InternalValue {
    ghost cmp = { entry_cmp };

    ghost number = { λ e. key_front e.key.user_key };

    ghost IsNumbered = { λ e. IsBytes e.key.user_key };

    ghost ordered = { versions_cmp_total entries.key entries.seqno };

    fn compare(&self, other: &InternalValue) -> Ordering {
        self.key().cmp(other.key())
    }

    #[inline(always)]
    fn front(&self) -> u128 {
        front_of_key(self.key().user_key().as_slice(), &[])
    }

    ghost tells = { entry_tells };
}

/// The same of an entry that borrows the bytes of its block.
impl<'a> Ranked for EntryView<'a> {
    ghost cmp = { entry_cmp };

    ghost number = { λ e. key_front e.key.user_key };

    ghost IsNumbered = { λ e. IsBytes e.key.user_key };

    ghost ordered = { versions_cmp_total entries.key entries.seqno };

    #[inline(always)]
    fn compare(&self, other: &EntryView<'a>) -> Ordering {
        EntryView::compare(self, other)
    }

    #[inline(always)]
    fn front(&self) -> u128 {
        let (prefix, rest) = self.key_parts();
        front_of_key(prefix, rest)
    }

    ghost tells = { entry_tells };
}
