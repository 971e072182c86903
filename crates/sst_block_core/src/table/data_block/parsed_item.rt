//! Entries by their ranges of a payload.
ghost use Rattle.std.specs.Prelude.{◌≡◌, ℕ, ◌+◌, ◌≤◌, List, length, take, drop};
ghost use Rattle.sst_block_core.specs.ParsedEntry.{entry_of, IsParsedEntry};

use crate::table::block::ParsedItem;
use crate::table::block::key_ranges::{bytes_of, compare_ranges, join_ranges, prefix_len};
use sst_base::table::util::SliceIndexes;
use sst_base::{AllocResult, InternalKey, InternalValue, SeqNo, Slice, ValueType};
use std::alloc::Global;
use std::cmp::Ordering;

/// An entry by its ranges of a payload: its key is the prefix, if there is one, and the key's own
/// bytes after it.
#[derive(Clone, Copy, Debug, PartialEq, Eq)]
pub struct DataBlockParsedItem {
    /// The value type.
    pub value_type: ValueType,
    /// The sequence number.
    pub seqno: SeqNo,
    /// The bytes that the key shares with the key of its interval's head. `None` in a full form.
    pub prefix: Option<SliceIndexes>,
    /// The key's own bytes.
    pub key: SliceIndexes,
    /// The value. `None` for a tombstone.
    pub value: Option<SliceIndexes>,
}

impl DataBlockParsedItem {
    /// Returns where its value is in the payload in which it was found: the offset, and the length,
    /// both in bytes. The length of a tombstone's value is 0.
    pub fn value_range(&self) -> (usize, usize)
        ensures { (payload : List ℕ) → IsParsedEntry payload self.now
            → (result.0 + result.1 ≤ length payload)
            × (take result.1 (drop result.0 payload) ≡ (entry_of payload self.now).value) }
    {
        match &self.value {
            Some(value) => (value.0, value.1.saturating_sub(value.0)),
            None => (0, 0),
        }
    }
}

impl ParsedItem<InternalValue> for DataBlockParsedItem {
    ghost use Rattle.sst_base.specs.Entry.{IsShort};
    ghost use Rattle.sst_block_core.specs.ParsedEntry.{entry_of, IsParsedEntry, prefix_len};

    ghost item_of = { entry_of };

    ghost is_found = { IsParsedEntry };

    ghost key_start = { λ p. p.key.0 };

    ghost shared_len = { prefix_len };

    ghost is_short = { λ payload p. IsShort (entry_of payload p) };

    fn compare_key(&self, needle: &[u8], payload: &[u8]) -> Ordering {
        compare_ranges(payload, &self.prefix, &self.key, needle)
    }

    fn seqno(&self) -> u64 {
        self.seqno
    }

    fn key_offset(&self) -> usize {
        self.key.0
    }

    #[inline(always)]
    fn prefix_len(&self, payload: &[u8]) -> usize {
        prefix_len(payload, &self.prefix)
    }

    #[inline(always)]
    #[tactic(auto, using(crate::proofs::Items::OwnKeys::own_key))]
    fn own_key<'a>(&self, payload: &'a [u8]) -> &'a [u8] {
        bytes_of(payload, &self.key)
    }

    #[inline(always)]
    fn materialize(&self, alloc: Global, payload: &Slice) -> AllocResult<InternalValue> {
        // (a `?` would copy what it passes on)
        let user_key = match join_ranges(alloc, payload, &self.prefix, &self.key) {
            Ok(user_key) => user_key,
            Err(error) => return Err(error),
        };
        let key = InternalKey::new(user_key, self.seqno, self.value_type);
        let Some(range) = &self.value else {
            return Ok(InternalValue::new(key, Slice::empty(alloc)));
        };
        match payload.part(range.0..range.1) {
            Ok(value) => Ok(InternalValue::new(key, value)),
            Err(error) => Err(error),
        }
    }
}
