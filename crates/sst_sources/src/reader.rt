//! What is read by key.
ghost use Rattle.std.specs.Prelude.{◌≡◌, ◌⊎◌, ℕ, List, Option, IfErr, IfOk, IfSome};
ghost use Rattle.sstable_blocks.specs.Prelude.{CountsBetween, Entry, entries, IsOrdered};
ghost use Rattle.sstable_blocks.specs.Prelude.{first_match};
ghost use Rattle.sstable_blocks.specs.Results.{Error, Memory};

use sstable_blocks::{InternalValue, Result, SeqNo, Steps};
use std::alloc::Global;

/// What is read by key: a table, or what an engine holds in memory.
pub trait Reader {
    // Its entries, where they are known.
    ghost list: { Self → Option (List Entry) };

    // They are in order.
    ghost ordered: { (s : Self) → IfSome (list s) (IsOrdered entries) };

    // The most heads and entries that a read of a key below a sequence number counts, where they
    // are known.
    ghost most: { Self → List ℕ → ℕ → Option (ℕ × ℕ) };

    // The errors that a read of a key below a sequence number may give, where no allocation fails.
    ghost may_fail: { Self → List ℕ → ℕ → Error → Type 0 };

    /// Returns the first entry with this key whose sequence number is strictly below `seqno`. What
    /// is examined is added to `steps`.
    ///
    /// # Errors
    ///
    /// Those of what is read, and `Error::Memory` if an allocation fails.
    fn get(
        &mut self,
        alloc: Global,
        needle: &[u8],
        seqno: SeqNo,
        steps: &mut Steps,
    ) -> Result<Option<InternalValue>>
        ensures found { IfSome (list self.old)
            (λ all. IfOk result (λ found. found ≡ first_match entries needle.now seqno all)) }
        ensures kept { list self.new ≡ list self.old }
        ensures counts { IfSome (most self.old needle.now seqno)
            (CountsBetween steps.old steps.new (0, 0)) }
        ensures cause { IfErr result
            (λ e. (e ≡ Memory) ⊎ may_fail self.old needle.now seqno e) };
}
