//! The one way from the bytes of a block to its heads and items.
ghost use Rattle.std.specs.Prelude.{◌≡◌, ℕ, ◌+◌, ◌≤◌, ◌<◌, ◌++◌, List, [], ◌∷◌, length, drop};
ghost use Rattle.std.specs.Prelude.{slice_get, Some};
ghost use Rattle.std.specs.Prelude.{IsSome, min};
ghost use Rattle.std.specs.Ordering.{nat_cmp};
ghost use Rattle.std.specs.Cmp.Lexicographic.{slice_cmp};
ghost use Rattle.sst_base.specs.Counted.{IsZero, CountsExactly, CountsBetween};
ghost use Rattle.sst_base.specs.SharedPrefix.{shared_prefix_length};
ghost use Rattle.sst_block_core.specs.Found.{Takes, IsEncodedAt, IsRange, range_bytes};
ghost use Rattle.sst_block_core.specs.Heads.{IsHeadTable, key_in, heads_before, Begins};
ghost use Rattle.sst_block_core.specs.Heads.{IsNextHead, KeepsPrefixAndRoom};
ghost use Rattle.sst_block_core.specs.Intervals.{digits};
ghost use Rattle.sst_block_core.specs.declared.table.block.heads.Head.{Head};

use crate::table::block::bound::Bound;
use crate::table::block::decoder::{Decodable, ParsedItem};
use crate::table::block::heads::HeadTable;
use crate::table::block::key_ranges::bytes_of;
use sst_base::Steps;
use sst_base::table::util::{SliceIndexes, longest_shared_prefix_length};
use std::cmp::Ordering;
use std::marker::{Model, PhantomData};

// The length to take of a prefix that two keys of these lengths share: where the keys have one
// length, at least eight bytes follow it if the keys have that many.
fn prefix_before(shared: usize, left: usize, right: usize) -> usize
    ensures { result ≤ shared }
{
    if left == right {
        shared.min(left.saturating_sub(8))
    } else {
        shared
    }
}

/// Reads the heads and items of a block where their forms are known to be, by the calls of
/// [`Decodable`], which count them.
///
/// It keeps payload and counters together, and the payload to itself: code that has a reader can
/// read nothing that isn't counted. Clauses see both.
pub(crate) struct FormReader<'a, Item: Decodable<Parsed>, Parsed: ParsedItem<Item>> {
    kinds: PhantomData<(Item, Parsed)>,
    payload: &'a [u8],
    steps: Steps,
}

impl<'a, Item: Decodable<Parsed>, Parsed: ParsedItem<Item>> Model for FormReader<'a, Item, Parsed> {
    ghost use Rattle.sst_block_core.specs.Intervals.{FormReaderParts};

    ghost Value = { FormReaderParts };

    ghost view = { λ r. record { payload = r.payload.now; steps = r.steps } };
}

impl<'a, Item: Decodable<Parsed>, Parsed: ParsedItem<Item>> FormReader<'a, Item, Parsed> {
    /// Makes a reader of a payload that has counted nothing.
    #[inline(always)]
    pub(crate) fn new(payload: &'a [u8]) -> FormReader<'a, Item, Parsed>
        ensures payload { result.payload ≡ payload.now }
        ensures counts { IsZero result.steps }
    {
        FormReader {
            kinds: PhantomData,
            payload,
            steps: Steps::new(),
        }
    }

    /// Returns what was counted so far.
    pub(crate) fn steps(&self) -> &Steps
        ensures { result.now ≡ self.now.steps }
    {
        &self.steps
    }

    /// Decodes the key and the sequence number of the head at an offset. Counts a head.
    #[inline(always)]
    pub(crate) fn read_head(&mut self, offset: usize) -> (&'a [u8], u64)
        requires { IsSome (Item.kind.full_at (drop offset self.old.payload)) }
        ensures payload { self.new.payload ≡ self.old.payload }
        ensures head { (x : Item) (rest : List ℕ)
            → Item.kind.full_at (drop offset self.old.payload) ≡ Some (x, rest)
            → (result.0.now ≡ Item.kind.key x) × (result.1 ≡ Item.kind.seqno x) }
        ensures counts { CountsExactly self.old.steps self.new.steps 1 0 }
    {
        Item::read_head(self.payload, offset, &mut self.steps)
    }

    /// Returns the key and the sequence number of head j of a table. Counts a head.
    #[inline(always)]
    pub(crate) fn head_of(&mut self, table: &HeadTable, j: usize) -> (&'a [u8], u64)
        requires table { IsHeadTable self.old.payload table.now }
        requires inside { j < length table.now.heads }
        ensures payload { self.new.payload ≡ self.old.payload }
        ensures head { (h : Head) → slice_get table.now.heads j ≡ Some h
            → (result.0.now ≡ key_in self.old.payload h) × (result.1 ≡ h.seqno) }
        ensures counts { CountsExactly self.old.steps self.new.steps 1 0 }
    {
        table.head(self.payload, j, &mut self.steps)
    }

    /// Returns how many heads of a table a bound passes. Counts the heads that it examines.
    #[inline(always)]
    pub(crate) fn count_heads(&mut self, table: &HeadTable, bound: &Bound<'_>) -> usize
        requires { IsHeadTable self.old.payload table.now }
        ensures payload { self.new.payload ≡ self.old.payload }
        ensures value { result
            ≡ heads_before self.old.payload bound.now.needle.now bound.now.from table.now.heads }
        ensures counts { CountsBetween self.old.steps self.new.steps
            (min 1 (length table.now.heads), 0) (digits (length table.now.heads), 0) }
    {
        table.count(self.payload, bound, &mut self.steps)
    }

    /// Decodes the item in full form at an offset; the second result is where the form ends. Counts
    /// an entry.
    #[inline(always)]
    pub(crate) fn read_full(&mut self, offset: usize) -> (Parsed, usize)
        requires { IsSome (Item.kind.full_at (drop offset self.old.payload)) }
        ensures payload { self.new.payload ≡ self.old.payload }
        ensures exact { Takes (Parsed.item_of self.old.payload) self.old.payload result
            (Item.kind.full_at (drop offset self.old.payload)) }
        ensures found { Parsed.is_found self.old.payload result.0 }
        ensures key { IsEncodedAt self.old.payload (Parsed.key_start result.0)
            (Item.kind.key (Parsed.item_of self.old.payload result.0)) }
        ensures shared { Parsed.shared_len result.0 ≡ 0 }
        ensures counts { CountsExactly self.old.steps self.new.steps 0 1 }
    {
        Item::read_full(self.payload, offset, &mut self.steps)
    }

    /// Decodes the item in truncated form at an offset, after a head whose key begins at
    /// `base_key_offset`; the second result is where the form ends. Counts an entry.
    #[inline(always)]
    pub(crate) fn read_truncated(
        &mut self,
        offset: usize,
        base_key_offset: usize,
    ) -> (Parsed, usize)
        requires { (base : List ℕ) × IsEncodedAt self.old.payload base_key_offset base
            × IsSome (Item.kind.truncated_at base (drop offset self.old.payload)) }
        ensures payload { self.new.payload ≡ self.old.payload }
        ensures inside { result.1 ≤ length self.old.payload }
        ensures item { (base : List ℕ) (x : Item) (rest : List ℕ)
            → IsEncodedAt self.old.payload base_key_offset base
            → Item.kind.truncated_at base (drop offset self.old.payload) ≡ Some (x, rest)
            → (Parsed.item_of self.old.payload result.0 ≡ x)
            × (drop result.1 self.old.payload ≡ rest)
            × (Parsed.shared_len result.0 ≡ shared_prefix_length base (Item.kind.key x)) }
        ensures found { Parsed.is_found self.old.payload result.0 }
        ensures counts { CountsExactly self.old.steps self.new.steps 0 1 }
    {
        Item::read_truncated(self.payload, offset, base_key_offset, &mut self.steps)
    }

    /// Returns the length of an item's shared prefix.
    #[inline(always)]
    pub(crate) fn prefix_len(&self, item: &Parsed) -> usize
        requires { Parsed.is_found self.now.payload item.now }
        ensures { result ≡ Parsed.shared_len item.now }
    {
        item.prefix_len(self.payload)
    }

    /// Returns an item's own bytes of the key.
    #[inline(always)]
    pub(crate) fn own_key(&self, item: &Parsed) -> &'a [u8]
        requires { Parsed.is_found self.now.payload item.now }
        ensures { result.now
            ≡ drop (Parsed.shared_len item.now)
            (Item.kind.key (Parsed.item_of self.now.payload item.now)) }
    {
        item.own_key(self.payload)
    }

    /// Compares an item's key with a needle, without joining prefix and rest.
    #[inline(always)]
    pub(crate) fn compare_key(&self, item: &Parsed, needle: &[u8]) -> Ordering
        requires { Parsed.is_found self.now.payload item.now }
        ensures { result
            ≡ slice_cmp nat_cmp (Item.kind.key (Parsed.item_of self.now.payload item.now))
            needle.now }
    {
        item.compare_key(needle, self.payload)
    }
}

impl<'a, Item: Decodable<Parsed>, Parsed: ParsedItem<Item> + Drop> FormReader<'a, Item, Parsed> {
    // Returns the range of the key, and the sequence number, of the item in full form at an offset.
    // Counts an entry.
    #[inline(always)]
    fn key_range(&mut self, offset: usize) -> (SliceIndexes, u64)
        requires { IsSome (Item.kind.full_at (drop offset self.old.payload)) }
        ensures payload { self.new.payload ≡ self.old.payload }
        ensures range { IsRange self.old.payload result.0 }
        ensures key { (x : Item) (rest : List ℕ)
            → Item.kind.full_at (drop offset self.old.payload) ≡ Some (x, rest)
            → (range_bytes self.old.payload result.0 ≡ Item.kind.key x)
            × (result.1 ≡ Item.kind.seqno x) }
    {
        let (item, _) = Item::read_full(self.payload, offset, &mut self.steps);
        let start = item.key_offset();
        let key = SliceIndexes(start, start + item.own_key(self.payload).len());
        (key, item.seqno())
    }

    /// Returns the range of a prefix that the keys of two heads share: the longest one, but for
    /// keys of one length a shorter one, so that eight bytes follow it, which a head's number then
    /// holds.
    pub(crate) fn shared_prefix(&mut self, first: usize, last: usize) -> SliceIndexes
        requires first { IsSome (Item.kind.full_at (drop first self.old.payload)) }
        requires last { IsSome (Item.kind.full_at (drop last self.old.payload)) }
        ensures payload { self.new.payload ≡ self.old.payload }
        ensures range { IsRange self.old.payload result }
        ensures first { (x : Item) (rest : List ℕ)
            → Item.kind.full_at (drop first self.old.payload) ≡ Some (x, rest)
            → Begins (range_bytes self.old.payload result) (Item.kind.key x) }
        ensures last { (x : Item) (rest : List ℕ)
            → Item.kind.full_at (drop last self.old.payload) ≡ Some (x, rest)
            → Begins (range_bytes self.old.payload result) (Item.kind.key x) }
    {
        let (first, _) = self.key_range(first);
        let (last, _) = self.key_range(last);
        let left = bytes_of(self.payload, &first);
        let right = bytes_of(self.payload, &last);
        let shared = longest_shared_prefix_length(left, right);
        let length = prefix_before(shared, left.len(), right.len());
        SliceIndexes(first.0, first.0 + length)
    }

    /// Adds to a table the head whose full form is at an offset.
    #[inline(always)]
    pub(crate) fn push_head(&mut self, table: &mut HeadTable, offset: usize)
        requires head { IsSome (Item.kind.full_at (drop offset self.old.payload)) }
        requires room { length table.old.heads < table.old.room }
        requires next { (x : Item) (rest : List ℕ)
            → Item.kind.full_at (drop offset self.old.payload) ≡ Some (x, rest)
            → IsNextHead Item.kind self.old.payload table.old x }
        requires table { IsHeadTable self.old.payload table.old }
        ensures payload { self.new.payload ≡ self.old.payload }
        ensures pushed { (x : Item) (rest : List ℕ)
            → Item.kind.full_at (drop offset self.old.payload) ≡ Some (x, rest)
            → (h : Head) × (table.new.heads ≡ table.old.heads ++ h ∷ [])
            × (key_in self.old.payload h ≡ Item.kind.key x) × (h.seqno ≡ Item.kind.seqno x)
            × (h.offset ≡ offset) }
        ensures kept { KeepsPrefixAndRoom table.old table.new }
        ensures table { IsHeadTable self.old.payload table.new }
    {
        let (key, seqno) = self.key_range(offset);
        table.push(self.payload, offset, seqno, key);
    }
}

impl<'a, Item: Decodable<Parsed>, Parsed: ParsedItem<Item>> Drop for FormReader<'a, Item, Parsed> {
    fn drop(self) {
        let Self {
            kinds: _,
            payload: _,
            steps: _,
        } = self;
    }
}
