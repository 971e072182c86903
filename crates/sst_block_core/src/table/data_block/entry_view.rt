//! Entries that borrow the bytes of their block, and the iterator over them.
ghost use Rattle.std.specs.Prelude.{◌≡◌, ◌↔◌, ◌++◌, IfOk, IfSome, IsOk, IsOkUnless, IsSome, IsTrue};
ghost use Rattle.std.specs.Prelude.{length, refl, take, ◌≤◌};
ghost use Rattle.std.specs.Ordering.{nat_cmp};
ghost use Rattle.std.specs.Cmp.Lexicographic.{slice_cmp};
ghost use Rattle.std.specs.Iterator.{YieldsFirst, YieldsLast, item_count};
ghost use Rattle.sst_base.specs.Entry.{IsEntry, IsShort};
ghost use Rattle.sst_base.specs.SharedPrefix.{shared_prefix_length};
ghost use Rattle.sst_base.specs.ValueType.{IsTombstone};
ghost use Rattle.sst_block_core.specs.Entries.{entries, entry_with};
ghost use Rattle.sst_block_core.specs.Found.{IsOptionalRange, IsRange, optional_range, range_bytes};
ghost use Rattle.sst_block_core.specs.Kind.{item_cmp};
ghost use Rattle.sst_block_core.specs.Window.{items_left};
ghost use Rattle.sst_block_core.specs.ParsedEntry.{entry_of, IsParsedEntry};
ghost use Rattle.sst_block_core.specs.Tombstones.{is_tombstone};

use crate::table::block::key_parts::{KeyParts, compare_parts, hash_parts, shared_len};
use crate::table::data_block::block_ref::DataBlockRef;
use crate::table::data_block::iter::Iter;
use crate::table::data_block::parsed_item::DataBlockParsedItem;
use sst_base::double_ended_peekable::ListIterator;
use sst_base::key::MAX_KEY_LEN;
use sst_base::table::util::{SliceIndexes, compare_prefixed_slice};
use sst_base::{
    AllocResult, BlockHash, Error, InternalValue, Result, SeqNo, Slice, TypeWord, UserKey,
    ValueType,
};
use std::alloc::Global;
use std::cmp::Ordering;
use std::marker::Model;

/// The greatest length of a value in bytes.
const MAX_VALUE_LEN: usize = 4_294_967_295;

/// An entry whose key and value are borrowed: from the payload of a block, from an
/// [`InternalValue`], or from wherever else an entry is held, such as a memory table. Takes no
/// memory. Clauses see the entry.
#[derive(Drop)]
pub struct EntryView<'a> {
    // Begins with the bytes that the key shares with the head of its restart interval, none where
    // it is held whole. Here and below, of an entry of a block, what follows in the payload is
    // borrowed too: a few bytes are copied faster where more follow.
    prefix: &'a [u8],
    // Begins with the key's own bytes.
    rest: &'a [u8],
    // Begins with the value; of an entry of a block, empty for a tombstone.
    value: &'a [u8],
    seqno: SeqNo,
    value_type: TypeWord,
    prefix_len: u16,
    rest_len: u16,
    value_len: u32,
}

impl<'a> Model for EntryView<'a> {
    ghost use Rattle.std.specs.Prelude.{◌++◌, ◌≤◌, length, take};
    ghost use Rattle.sst_base.specs.Entry.{Entry, IsEntry};

    ghost Value = { Entry };

    ghost view = { λ e. record {
      key = record {
        user_key = take e.prefix_len e.prefix.now ++ take e.rest_len e.rest.now;
        seqno = e.seqno;
        value_type = e.value_type;
      };
      value = take e.value_len e.value.now;
    } };

    ghost invariant = { λ e. (e.prefix_len ≤ length e.prefix.now)
        × (e.rest_len ≤ length e.rest.now)
        × (e.value_len ≤ length e.value.now)
        × IsEntry (record {
          key = record {
            user_key = take e.prefix_len e.prefix.now ++ take e.rest_len e.rest.now;
            seqno = e.seqno;
            value_type = e.value_type;
          };
          value = take e.value_len e.value.now;
        }) };
}

// The bytes from the start of a range on, and the length of the range.
#[inline(always)]
fn from_range<'a>(payload: &'a [u8], range: &SliceIndexes) -> (&'a [u8], usize)
    requires { IsRange payload.now range.now }
    ensures bytes { take result.1 result.0.now ≡ range_bytes payload.now range.now }
    ensures len { result.1 ≡ length (range_bytes payload.now range.now) }
    ensures inside { result.1 ≤ length result.0.now }
{
    let (_, from_start) = payload.split_at(range.0);
    (from_start, range.1 - range.0)
}

// The same, and no byte where there is no range.
#[inline(always)]
fn from_optional<'a>(payload: &'a [u8], range: &Option<SliceIndexes>) -> (&'a [u8], usize)
    requires { IsOptionalRange payload.now range.now }
    ensures bytes { take result.1 result.0.now ≡ optional_range payload.now range.now }
    ensures len { result.1 ≡ length (optional_range payload.now range.now) }
    ensures inside { result.1 ≤ length result.0.now }
{
    match range {
        Some(range) => from_range(payload, range),
        None => (payload, 0),
    }
}

// The first bytes of a byte string.
#[inline(always)]
fn front_of(bytes: &[u8], len: usize) -> &[u8]
    requires { len ≤ length bytes.now }
    ensures { result.now ≡ take len bytes.now }
{
    let (front, _) = bytes.split_at(len);
    front
}

impl<'a> EntryView<'a> {
    /// Views the entry of a parsed item of a payload.
    #[inline(always)]
    pub fn new(payload: &'a [u8], item: DataBlockParsedItem) -> EntryView<'a>
        requires { IsParsedEntry payload.now item }
        ensures { result ≡ entry_of payload.now item }
    {
        let (prefix, prefix_len) = from_optional(payload, &item.prefix);
        let (rest, rest_len) = from_range(payload, &item.key);
        let (value, value_len) = from_optional(payload, &item.value);
        EntryView {
            prefix,
            rest,
            value,
            seqno: item.seqno,
            value_type: TypeWord::new(item.value_type),
            prefix_len: prefix_len as u16,
            rest_len: rest_len as u16,
            value_len: value_len as u32,
        }
    }

    /// Returns the entry of its parts, or `None` if they are not within the limits of an entry: a
    /// user key of 1 to 65535 bytes, and a value of at most 2^32 - 1 bytes.
    pub fn of_parts(
        user_key: &'a [u8],
        value: &'a [u8],
        seqno: SeqNo,
        value_type: ValueType,
    ) -> Option<EntryView<'a>>
        ensures entry { IfSome result
            (λ e. e ≡ entry_with user_key.now value.now seqno value_type) }
        ensures limits { IsSome result
            ↔ IsEntry (entry_with user_key.now value.now seqno value_type) }
    {
        if user_key.is_empty() || user_key.len() > MAX_KEY_LEN || value.len() > MAX_VALUE_LEN {
            return None;
        }
        Some(EntryView {
            prefix: &[],
            rest: user_key,
            value,
            seqno,
            value_type: TypeWord::new(value_type),
            prefix_len: 0,
            rest_len: user_key.len() as u16,
            value_len: value.len() as u32,
        })
    }

    /// Views an entry.
    #[inline(always)]
    pub fn of(entry: &'a InternalValue) -> EntryView<'a>
        ensures { result ≡ entry.now }
    {
        let key = entry.key();
        let user_key = key.user_key().as_slice();
        let value = entry.value().as_slice();
        EntryView {
            prefix: &[],
            rest: user_key,
            value,
            seqno: key.seqno(),
            value_type: TypeWord::new(key.value_type()),
            prefix_len: 0,
            rest_len: user_key.len() as u16,
            value_len: value.len() as u32,
        }
    }

    /// Returns another view of the same entry, which borrows the same bytes.
    #[inline(always)]
    pub fn again(&self) -> EntryView<'a>
        ensures { result ≡ self.now }
    {
        EntryView {
            prefix: self.prefix,
            rest: self.rest,
            value: self.value,
            seqno: self.seqno,
            value_type: self.value_type.again(),
            prefix_len: self.prefix_len,
            rest_len: self.rest_len,
            value_len: self.value_len,
        }
    }

    /// Returns its sequence number.
    #[inline(always)]
    pub fn seqno(&self) -> SeqNo
        ensures { result ≡ self.now.key.seqno }
    {
        self.seqno
    }

    /// Returns its value type.
    #[inline(always)]
    pub fn value_type(&self) -> ValueType
        ensures { result ≡ self.now.key.value_type }
    {
        self.value_type.get()
    }

    /// Returns whether it is a tombstone of either kind.
    pub fn is_tombstone(&self) -> bool
        ensures value { result ≡ is_tombstone self.now.key.value_type }
        ensures tombstone { IsTrue result ↔ IsTombstone self.now.key.value_type }
    {
        self.value_type.get().is_tombstone()
    }

    /// Returns the two parts of its user key: the bytes that it shares with the head of its
    /// restart interval, none in a full form, and the key's own bytes. Joined they are the user
    /// key.
    #[inline(always)]
    pub fn key_parts(&self) -> KeyParts<'a>
        ensures value { result.0.now ++ result.1.now ≡ self.now.key.user_key }
        ensures fits { IsEntry self.now }
    {
        // A sequence number has 64 bits.
        let _range = self.seqno;
        (
            front_of(self.prefix, self.prefix_len as usize),
            front_of(self.rest, self.rest_len as usize),
        )
    }

    /// Returns the length of its user key in bytes, 1 to 65535.
    #[inline(always)]
    pub fn key_len(&self) -> usize
        ensures value { result ≡ length self.now.key.user_key }
        ensures limit { result ≤ 65535 }
    {
        self.prefix_len as usize + self.rest_len as usize
    }

    /// Returns the length of the longest prefix that its user key shares with that of another
    /// entry.
    #[inline(always)]
    pub fn shared_key_len(&self, other: &EntryView<'_>) -> usize
        ensures { result
            ≡ shared_prefix_length self.now.key.user_key other.now.key.user_key }
    {
        shared_len(self.key_parts(), other.key_parts())
    }

    /// Makes its user key: copies it. The error has no parts, so that a hot caller needs no space
    /// for one.
    ///
    /// # Errors
    ///
    /// If an allocation fails. A key of up to 40 bytes needs none.
    #[inline(always)]
    pub fn to_user_key(&self, alloc: Global) -> AllocResult<UserKey>
        ensures ok { IfOk result (λ user_key. user_key ≡ self.now.key.user_key) }
        ensures few { length self.now.key.user_key ≤ 40 → IsOk result }
    {
        let (prefix_len, rest_len) = (self.prefix_len as usize, self.rest_len as usize);
        if prefix_len == 0 {
            Slice::front(alloc, self.rest, rest_len)
        } else {
            Slice::fused_fronts(alloc, self.prefix, prefix_len, self.rest, rest_len)
        }
    }

    /// Returns its value, which is empty for a tombstone of a block.
    #[inline(always)]
    pub fn value(&self) -> &'a [u8]
        ensures { result.now ≡ self.now.value }
    {
        front_of(self.value, self.value_len as usize)
    }

    /// Compares its user key with a needle, without joining prefix and rest.
    pub fn compare_key(&self, needle: &[u8]) -> Ordering
        ensures { result ≡ slice_cmp nat_cmp self.now.key.user_key needle.now }
    {
        let (prefix, rest) = self.key_parts();
        compare_prefixed_slice(prefix, rest, needle)
    }

    /// Compares its user key with that of another entry, which may be of another block. Nothing is
    /// joined.
    pub fn compare_user_key(&self, other: &EntryView<'_>) -> Ordering
        ensures { result ≡ slice_cmp nat_cmp self.now.key.user_key other.now.key.user_key }
    {
        compare_parts(self.key_parts(), other.key_parts())
    }

    /// Compares it with another entry, which may be of another block: by user key rising, then by
    /// sequence number falling. The value type plays no part.
    pub fn compare(&self, other: &EntryView<'_>) -> Ordering
        ensures { result ≡ item_cmp entries self.now other.now }
    {
        self.compare_user_key(other)
            .then(other.seqno.cmp(&self.seqno))
    }

    /// Returns the 64-bit hash of its user key. A key is joined only where it is prefix-truncated
    /// and the hash function cannot be continued.
    ///
    /// # Errors
    ///
    /// `Error::Memory` if an allocation fails.
    pub fn hash_key<H: BlockHash>(&self, alloc: Global) -> Result<u64>
        ensures ok { IfOk result (λ hash. hash ≡ H.hash64 self.now.key.user_key) }
        ensures memory { IsOkUnless result Error.Memory }
    {
        Ok(hash_parts::<H>(alloc, self.key_parts())?)
    }

    /// Makes the entry: copies its user key and its value. The error has no parts, so that a hot
    /// caller needs no space for one.
    ///
    /// # Errors
    ///
    /// If an allocation fails. A key and a value of up to 40 bytes each need none.
    #[inline(always)]
    pub fn to_entry(&self, alloc: Global) -> AllocResult<InternalValue>
        ensures ok { IfOk result (λ entry. entry ≡ self.now) }
        ensures few { IsShort self.now → IsOk result }
    {
        // (a `?` would copy what it passes on)
        let user_key = match self.to_user_key(alloc) {
            Ok(user_key) => user_key,
            Err(error) => return Err(error),
        };
        let value = match Slice::front(alloc, self.value, self.value_len as usize) {
            Ok(value) => value,
            Err(error) => return Err(error),
        };
        let value_type = self.value_type.get();
        Ok(InternalValue::from_components(user_key, value, self.seqno, value_type))
    }
}

/// A copy borrows the same bytes. No memory is taken.
impl<'a> Clone for EntryView<'a> {
    ghost is_clone = { λ entry copy. copy ≡ entry };

    fn clone(&self) -> AllocResult<EntryView<'a>> {
        Ok(self.again())
    }
}

/// An iterator over the entries of a data block whose payload is borrowed. Clauses see the list of
/// the entries left. No step takes memory.
#[derive(Drop)]
pub struct EntryViews<'a> {
    iter: Iter<'a>,
    payload: &'a [u8],
}

impl<'a> Model for EntryViews<'a> {
    ghost use Rattle.std.specs.Prelude.{◌≡◌, List};
    ghost use Rattle.sst_base.specs.Entry.{Entry};
    ghost use Rattle.sst_block_core.specs.Window.{items_left};

    ghost Value = { List Entry };

    ghost view = { λ e. items_left e.iter.window };

    ghost invariant = { λ e. e.payload.now ≡ e.iter.payload };
}

impl<'a> EntryViews<'a> {
    /// Returns an iterator over the entries that an iterator over the same block has left, where
    /// its seeks have left it. Takes no memory.
    pub fn new<H: BlockHash>(block: &DataBlockRef<'a, H>, iter: Iter<'a>) -> EntryViews<'a>
        requires { iter.payload ≡ block.now.payload }
        ensures { result ≡ items_left iter.entry.window }
    {
        EntryViews {
            iter,
            payload: block.as_slice(),
        }
    }

    /// Returns the number of entries left.
    #[inline(always)]
    pub fn count_left(&self) -> usize
        ensures { result ≡ length self.now }
    {
        self.iter.count_left()
    }
}

/// Returns the first entry left, if there is one.
impl<'a> Iterator for EntryViews<'a> {
    type Item = EntryView<'a>;

    ghost next_gives = { YieldsFirst (λ s. s) };

    ghost remaining = { item_count (λ s. s) };

    #[inline(always)]
    fn next(&mut self) -> Option<EntryView<'a>> {
        let Some(item) = self.iter.next() else {
            return None;
        };
        Some(EntryView::new(self.payload, item))
    }
}

/// Returns the last entry left, if there is one.
impl<'a> DoubleEndedIterator for EntryViews<'a> {
    ghost next_back_gives = { YieldsLast (λ s. s) };

    #[inline(always)]
    fn next_back(&mut self) -> Option<EntryView<'a>> {
        let Some(item) = self.iter.next_back() else {
            return None;
        };
        Some(EntryView::new(self.payload, item))
    }
}

/// The entries left, so that the iterator may be peeked at.
impl<'a> ListIterator for EntryViews<'a> {
    type Value = InternalValue;

    ghost value_of = { λ _ entry. entry };

    ghost items = { λ entries. entries };

    ghost may_next = { λ _. tt };

    ghost may_next_back = { λ _. tt };

    ghost gives_first = { λ s r t step. step };

    ghost gives_last = { λ s r t step. step };

    ghost keeps_values = { λ s r t step. refl };

    ghost keeps_values_back = { λ s r t step. refl };
}
