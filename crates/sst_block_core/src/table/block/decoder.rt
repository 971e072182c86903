//! The block decoder.
ghost use Rattle.std.specs.Prelude.{◌≡◌, ℕ, ◌-◌, ◌*◌, ◌^◌, ◌<◌};
ghost use Rattle.std.specs.Prelude.{◌≤◌, List, [], ◌∷◌};
ghost use Rattle.std.specs.Prelude.{length, take, drop, Some, None, IfSome, IfOk};
ghost use Rattle.std.specs.Prelude.{IsOk, IsSome, IsSomeAnd};
ghost use Rattle.std.specs.Option.{option_map};
ghost use Rattle.std.specs.Ordering.{nat_cmp};
ghost use Rattle.std.specs.Cmp.Lexicographic.{slice_cmp};
ghost use Rattle.std.specs.Iterator.{at_most};
ghost use Rattle.std.proofs.Common.{ap};
ghost use Rattle.sst_base.specs.Counted.{found_item, IsZero, CountsExactly, CountsBetween};
ghost use Rattle.sst_base.specs.SharedPrefix.{shared_prefix_length};
ghost use Rattle.sst_block_core.specs.Found.{Finds, Takes, IsEncodedAt};
ghost use Rattle.sst_block_core.specs.Payload.{IsEncoding};
ghost use Rattle.sst_block_core.specs.Stages.{items_in};
ghost use Rattle.sst_block_core.specs.Body.{place_offset};
ghost use Rattle.sst_block_core.specs.Pointers.{head_count};
ghost use Rattle.sst_block_core.specs.Intervals.{Splits, digits, seek_picked};
ghost use Rattle.sst_block_core.specs.ListSteps.{scan_gives_first, scan_gives_last};
ghost use Rattle.sst_block_core.specs.Window.{Window, Answer, found, items_left, whole};
ghost use Rattle.sst_block_core.specs.Window.{picked_head};
ghost use Rattle.sst_block_core.specs.Scan.{GivesScanned};
ghost use Rattle.sst_block_core.specs.Backs.{GivesNextBack, seek_upper_picked};
ghost use Rattle.sst_block_core.specs.Trailer.{trailer_in};
ghost use Rattle.sst_block_core.specs.Heads.{IsHeadTableOf, listed_in};

use crate::block_item::BlockItem;
use crate::table::block::ends::Ends;
use crate::table::block::heads::HeadTable;
use crate::table::block::intervals::Intervals;
use sst_base::double_ended_peekable::ListIterator;
use sst_base::{AllocResult, Slice, Steps};
use std::alloc::Global;
use std::cmp::Ordering;
use std::marker::Model;

/// The result of a parser: an item by its ranges of a payload.
pub trait ParsedItem<Item: BlockItem> {
    /// The item of its ranges in a payload.
    ghost item_of: { List ℕ → Self → Item };

    /// It was found in a payload: its ranges lie there, and the item is valid.
    ghost is_found: { List ℕ → Self → Type 0 };

    /// The offset of its key, if it is a head.
    ghost key_start: { Self → ℕ };

    /// The length of the shared prefix; 0 in a full form.
    ghost shared_len: { Self → ℕ };

    /// Its byte strings are held in place once it is made.
    ghost is_short: { List ℕ → Self → Type 0 };

    /// Compares its key with a needle, without joining prefix and rest.
    fn compare_key(&self, needle: &[u8], payload: &[u8]) -> Ordering
        requires { is_found payload.now self.now }
        ensures { result
            ≡ slice_cmp nat_cmp (Item.kind.key (item_of payload.now self.now)) needle.now };

    /// Returns its sequence number.
    fn seqno(&self) -> u64
        ensures { (payload : List ℕ) → result ≡ Item.kind.seqno (item_of payload self.now) };

    /// Returns the offset of its key, if it is a head.
    fn key_offset(&self) -> usize
        ensures { result ≡ key_start self.now };

    /// Returns the length of its shared prefix: 0 in a full form.
    fn prefix_len(&self, payload: &[u8]) -> usize
        requires { is_found payload.now self.now }
        ensures { result ≡ shared_len self.now };

    /// Returns the key's own bytes: those after the shared prefix.
    fn own_key<'a>(&self, payload: &'a [u8]) -> &'a [u8]
        requires { is_found payload.now self.now }
        ensures { result.now
            ≡ drop (shared_len self.now) (Item.kind.key (item_of payload.now self.now)) };

    /// Makes the item. Only a truncated key is joined and copied. The error has no parts, so that a
    /// hot caller needs no space for one.
    ///
    /// # Errors
    ///
    /// If an allocation fails. Byte strings of up to 40 bytes need none.
    fn materialize(&self, alloc: Global, payload: &Slice) -> AllocResult<Item>
        requires { is_found payload.now self.now }
        ensures ok { IfOk result (λ x. x ≡ item_of payload.now self.now) }
        ensures few { is_short payload.now self.now → IsOk result };
}

/// Items that can be read from a block.
///
/// The parsers whose names begin with `parse` take any bytes. The others are for the bytes of a
/// block, where a form is known to be: they test nothing.
pub trait Decodable<Parsed: ParsedItem<Self>>: BlockItem + Sized {
    /// Decodes the key and the sequence number of the head whose full form is at an offset. Returns
    /// `None` at the marker, and wherever no full form is encoded. Counts a head.
    fn parse_restart_key<'a>(
        payload: &'a [u8],
        offset: usize,
        steps: &mut Steps,
    ) -> Option<(&'a [u8], u64)>
        requires { offset ≤ length payload.now }
        ensures exact { option_map {U = List ℕ × ℕ} (λ f. (f.0.now, f.1)) result
            ≡ option_map {U = List ℕ × ℕ} (λ f. (Self.kind.key f.0, Self.kind.seqno f.0))
            (Self.kind.full_at (drop offset payload.now)) }
        ensures marker { IsEncodedAt payload.now offset (255 ∷ []) → result ≡ None }
        ensures counts { CountsExactly steps.old steps.new 1 0 };

    /// Decodes the item in full form at an offset; the second result is where the form ends.
    /// Returns `None` at the marker, and wherever no full form is encoded. Counts an entry where it
    /// returns an item.
    fn parse_full(payload: &[u8], offset: usize, steps: &mut Steps) -> Option<(Parsed, usize)>
        requires { offset ≤ length payload.now }
        ensures exact { Finds (Parsed.item_of payload.now) payload.now result
            (Self.kind.full_at (drop offset payload.now)) }
        ensures found { IfSome result (λ f. Parsed.is_found payload.now f.0) }
        ensures key { IfSome result
            (λ f. IsEncodedAt payload.now (Parsed.key_start f.0)
            (Self.kind.key (Parsed.item_of payload.now f.0))) }
        ensures shared { IfSome result (λ f. Parsed.shared_len f.0 ≡ 0) }
        ensures marker { IsEncodedAt payload.now offset (255 ∷ []) → result ≡ None }
        ensures counts { CountsExactly steps.old steps.new 0 (found_item result) };

    /// Decodes the item in truncated form at an offset, after a head whose key begins at
    /// `base_key_offset`; the second result is where the form ends. Returns `None` at the marker,
    /// and wherever no truncated form is encoded. How long the head's key is, is not tested: the
    /// form is read as one after a head whose key ends with the shared prefix. Counts an entry
    /// where it returns an item.
    fn parse_truncated(
        payload: &[u8],
        offset: usize,
        base_key_offset: usize,
        steps: &mut Steps,
    ) -> Option<(Parsed, usize)>
        requires { offset ≤ length payload.now }
        ensures item { (base : List ℕ) → IsEncodedAt payload.now base_key_offset base
            → (x : Self) (rest : List ℕ)
            → Self.kind.truncated_at base (drop offset payload.now) ≡ Some (x, rest)
            → IsSomeAnd result
            (λ f. (f.1 ≤ length payload.now) × (Parsed.item_of payload.now f.0 ≡ x)
            × (drop f.1 payload.now ≡ rest)) }
        ensures read { (base : List ℕ) → IsEncodedAt payload.now base_key_offset base
            → IfSome result
            (λ f. Parsed.shared_len f.0
            ≡ shared_prefix_length base (Self.kind.key (Parsed.item_of payload.now f.0))
            → Self.kind.truncated_at base (drop offset payload.now)
            ≡ Some (Parsed.item_of payload.now f.0, drop f.1 payload.now)) }
        ensures encoded { IfSome result
            (λ f. Self.kind.truncated_at
            (take (Parsed.shared_len f.0) (drop base_key_offset payload.now))
            (drop offset payload.now)
            ≡ Some (Parsed.item_of payload.now f.0, drop f.1 payload.now)) }
        ensures within { IfSome result (λ f. f.1 ≤ length payload.now) }
        ensures found { IfSome result (λ f. Parsed.is_found payload.now f.0) }
        ensures marker { IsEncodedAt payload.now offset (255 ∷ []) → result ≡ None }
        ensures counts { CountsExactly steps.old steps.new 0 (found_item result) };

    /// Decodes the item whose full form is at an offset; the second result is where the form
    /// ends. Tests nothing. Counts an entry.
    fn read_full(payload: &[u8], offset: usize, steps: &mut Steps) -> (Parsed, usize)
        requires { IsSome (Self.kind.full_at (drop offset payload.now)) }
        ensures exact { Takes (Parsed.item_of payload.now) payload.now result
            (Self.kind.full_at (drop offset payload.now)) }
        ensures found { Parsed.is_found payload.now result.0 }
        ensures key { IsEncodedAt payload.now (Parsed.key_start result.0)
            (Self.kind.key (Parsed.item_of payload.now result.0)) }
        ensures shared { Parsed.shared_len result.0 ≡ 0 }
        ensures counts { CountsExactly steps.old steps.new 0 1 };

    /// Decodes the item whose truncated form is at an offset, after a head whose key begins at
    /// `base_key_offset`; the second result is where the form ends. Tests nothing. Counts an entry.
    fn read_truncated(
        payload: &[u8],
        offset: usize,
        base_key_offset: usize,
        steps: &mut Steps,
    ) -> (Parsed, usize)
        requires { (base : List ℕ) × IsEncodedAt payload.now base_key_offset base
            × IsSome (Self.kind.truncated_at base (drop offset payload.now)) }
        ensures inside { result.1 ≤ length payload.now }
        ensures item { (base : List ℕ) (x : Self) (rest : List ℕ)
            → IsEncodedAt payload.now base_key_offset base
            → Self.kind.truncated_at base (drop offset payload.now) ≡ Some (x, rest)
            → (Parsed.item_of payload.now result.0 ≡ x) × (drop result.1 payload.now ≡ rest)
            × (Parsed.shared_len result.0 ≡ shared_prefix_length base (Self.kind.key x)) }
        ensures found { Parsed.is_found payload.now result.0 }
        ensures counts { CountsExactly steps.old steps.new 0 1 };

    /// Decodes the key and the sequence number of the head at an offset. Tests nothing.
    /// Counts a head.
    fn read_head<'a>(payload: &'a [u8], offset: usize, steps: &mut Steps) -> (&'a [u8], u64)
        requires { IsSome (Self.kind.full_at (drop offset payload.now)) }
        ensures head { (x : Self) (rest : List ℕ)
            → Self.kind.full_at (drop offset payload.now) ≡ Some (x, rest)
            → (result.0.now ≡ Self.kind.key x) × (result.1 ≡ Self.kind.seqno x) }
        ensures counts { CountsExactly steps.old steps.new 1 0 };
}

/// The block decoder: an iterator over the items of a block, as ranges of its payload.
///
/// Clauses see the payload, the restart interval, a window over the items, and the counters. No
/// step takes memory.
pub struct Decoder<'a, Item: Decodable<Parsed>, Parsed: ParsedItem<Item>> {
    pub(crate) intervals: Intervals<'a, Item, Parsed>,
    pub(crate) ends: Ends,
}

impl<'a, Item: Decodable<Parsed>, Parsed: ParsedItem<Item>> Model for Decoder<'a, Item, Parsed> {
    ghost use Rattle.sst_block_core.specs.Scan.{Scan};
    ghost use Rattle.sst_block_core.specs.Ends.{AreBlockEnds, scan_between};

    ghost Value = { Scan Item };

    ghost view = { λ d. scan_between d.intervals d.ends };

    ghost invariant = { λ d. AreBlockEnds Item.kind d.intervals.list d.ends };
}

impl<'a, Item: Decodable<Parsed>, Parsed: ParsedItem<Item>> Decoder<'a, Item, Parsed> {
    /// Makes a decoder of the payload of a block, which is the encoding of some list of items,
    /// ordered or not, and shorter than 2^32 bytes. Takes no memory.
    pub fn new(payload: &'a [u8]) -> Decoder<'a, Item, Parsed>
        requires fits { length payload.now < 2 ^ 32 }
        requires encoding { (hash : List ℕ → ℕ) × (items : List Item) × (r : ℕ) × (b : ℕ)
            × IsEncoding Item.kind Item.valid hash payload.now items r b }
        ensures payload { result.payload ≡ payload.now }
        ensures interval { result.interval ≡ (trailer_in payload.now).interval }
        ensures window { result.window ≡ whole (items_in Item.kind payload.now) }
        ensures counts { IsZero result.steps }
    {
        Decoder::over(Intervals::new(payload))
    }

    /// Makes a decoder of a payload as [`Decoder::new`] does, with the block's own table of heads.
    /// Its seeks take keys and sequence numbers from the table, and decode no head for a predicate.
    pub fn with_table(payload: &'a [u8], table: &'a HeadTable) -> Decoder<'a, Item, Parsed>
        requires fits { length payload.now < 2 ^ 32 }
        requires encoding { (hash : List ℕ → ℕ) × (items : List Item) × (r : ℕ) × (b : ℕ)
            × IsEncoding Item.kind Item.valid hash payload.now items r b }
        requires table { IsHeadTableOf Item.kind (listed_in Item.kind payload.now) table.now }
        ensures payload { result.payload ≡ payload.now }
        ensures interval { result.interval ≡ (trailer_in payload.now).interval }
        ensures window { result.window ≡ whole (items_in Item.kind payload.now) }
        ensures counts { IsZero result.steps }
    {
        Decoder::over(Intervals::with_table(payload, Some(table)))
    }

    /// Makes a decoder of all items of opened intervals.
    pub fn over(intervals: Intervals<'a, Item, Parsed>) -> Decoder<'a, Item, Parsed>
        ensures payload { result.payload ≡ intervals.entry.list.payload }
        ensures interval { result.interval ≡ intervals.entry.list.interval }
        ensures window { result.window ≡ whole intervals.entry.list.items }
        ensures steps { result.steps ≡ intervals.entry.steps }
    {
        let ends = intervals.ends();
        Decoder { intervals, ends }
    }

    /// Starts again with all items of other intervals. The room for offsets stays where it is: a
    /// decoder has a KiB of it, which a new one would move.
    pub fn restart(&mut self, intervals: Intervals<'a, Item, Parsed>)
        ensures payload { self.new.payload ≡ intervals.entry.list.payload }
        ensures interval { self.new.interval ≡ intervals.entry.list.interval }
        ensures window { self.new.window ≡ whole intervals.entry.list.items }
        ensures steps { self.new.steps ≡ intervals.entry.steps }
    {
        intervals.reset(&mut self.ends);
        self.intervals = intervals;
    }

    /// Moves the front to a head. A predicate over keys and sequence numbers, true of the first
    /// heads and false of the others, picks it: the last head of which it is true, or the first
    /// head where it is true of none. With `second_partition` it picks the first head of which it
    /// is false, or the last head where it is true of all.
    ///
    /// Returns `true`. But with `second_partition`, where each item is a head and the predicate is
    /// true of all, the front is emptied, and the result is `false`. The back stays. Counts at most
    /// as many heads as their number has binary digits, and no entry.
    pub fn seek<F: Fn(&[u8], u64) -> bool>(&mut self, pred: &F, second_partition: bool) -> bool
        requires callable { F.IsAlwaysCallable pred.now }
        ensures payload { self.new.payload ≡ self.old.payload }
        ensures interval { self.new.interval ≡ self.old.interval }
        ensures list { self.new.window.list ≡ self.old.window.list }
        ensures back { self.new.window.hi ≡ self.old.window.hi }
        ensures step { (p : ℕ)
            → Splits Item.kind (F.post pred.now) self.old.interval self.old.window.list
            (head_count self.old.interval (length self.old.window.list)) p
            → ◌≡◌ {A = Window Item × Answer Item} (self.new.window, found result)
            (seek_picked self.old.interval second_partition p self.old.window) }
        ensures counts { CountsBetween self.old.steps self.new.steps (1, 0)
            (digits (head_count self.old.interval (length self.old.window.list)), 0) }
    {
        let passed = self.intervals.partition_point(pred);
        let count = self.intervals.count();
        if second_partition && passed == count && self.intervals.interval() == 1 {
            self.ends.front = self.intervals.end();
            return false;
        }
        self.ends.front = self
            .intervals
            .start(picked_head(second_partition, passed, count));
        true
    }

    /// Moves the back after the interval of a head, which a predicate picks as [`Decoder::seek`]
    /// says. Returns `true`. The front stays. Counts at most as many heads as their number has
    /// binary digits, and no entry.
    pub fn seek_upper<F: Fn(&[u8], u64) -> bool>(
        &mut self,
        pred: &F,
        second_partition: bool,
    ) -> bool
        requires callable { F.IsAlwaysCallable pred.now }
        ensures payload { self.new.payload ≡ self.old.payload }
        ensures interval { self.new.interval ≡ self.old.interval }
        ensures list { self.new.window.list ≡ self.old.window.list }
        ensures front { self.new.window.lo ≡ self.old.window.lo }
        ensures step { (p : ℕ)
            → Splits Item.kind (F.post pred.now) self.old.interval self.old.window.list
            (head_count self.old.interval (length self.old.window.list)) p
            → ◌≡◌ {A = Window Item × Answer Item} (self.new.window, found result)
            (seek_upper_picked self.old.interval second_partition p self.old.window) }
        ensures counts { CountsBetween self.old.steps self.new.steps (1, 0)
            (digits (head_count self.old.interval (length self.old.window.list)), 0) }
    {
        let passed = self.intervals.partition_point(pred);
        let count = self.intervals.count();
        let end = self
            .intervals
            .interval_end(picked_head(second_partition, passed, count));
        self.ends.back.hi = end;
        self.ends.back.stack.clear();
        true
    }

    /// Moves the front to the head at an offset. The back stays, and nothing is counted.
    pub fn set_lo_offset(&mut self, offset: usize)
        requires { (j : ℕ) × (j * self.old.interval < length self.old.window.list)
            × (offset
            ≡ place_offset Item.kind self.old.interval self.old.window.list
            (j * self.old.interval)) }
        ensures payload { self.new.payload ≡ self.old.payload }
        ensures interval { self.new.interval ≡ self.old.interval }
        ensures window { (j : ℕ) → j * self.old.interval < length self.old.window.list
            → offset
            ≡ place_offset Item.kind self.old.interval self.old.window.list
            (j * self.old.interval)
            → self.new.window
            ≡ record {
              list = self.old.window.list;
              lo = j * self.old.interval;
              hi = self.old.window.hi;
            } }
        ensures counts { CountsExactly self.old.steps self.new.steps 0 0 }
    {
        self.ends.front = self.intervals.place_at(offset);
    }

    /// Returns the number of items left.
    pub fn count_left(&self) -> usize
        ensures count { result ≡ length (items_left self.now.window) }
        ensures within { self.now.window.hi ≤ length self.now.window.list }
    {
        self.intervals.count_left(&self.ends)
    }

    /// Returns what was counted since the decoder was made.
    pub fn steps(&self) -> &Steps
        ensures { result.now ≡ self.now.steps }
    {
        self.intervals.steps()
    }
}

/// Returns the next item, if one is left. Counts an entry for an item.
impl<'a, Item: Decodable<Parsed>, Parsed: ParsedItem<Item> + Drop> Iterator
    for Decoder<'a, Item, Parsed> {
    type Item = Parsed;

    ghost next_gives = { λ s r t. GivesScanned Parsed.item_of Parsed.is_found s r t };

    ghost remaining = { λ s. at_most (s.window.hi - s.window.lo) };

    #[inline(always)]
    fn next(&mut self) -> Option<Parsed> {
        self.intervals.next(&mut self.ends)
    }
}

/// Returns the last item, if one is left. Counts an entry for an item, and the entries of its
/// interval where it is the last of it.
impl<'a, Item: Decodable<Parsed>, Parsed: ParsedItem<Item> + Drop> DoubleEndedIterator
    for Decoder<'a, Item, Parsed> {
    ghost next_back_gives = { λ s r t. GivesNextBack Parsed.item_of Parsed.is_found s r t };

    #[inline(always)]
    fn next_back(&mut self) -> Option<Parsed> {
        self.intervals.next_back(&mut self.ends)
    }
}

/// The items left, so that a decoder may be peeked at. Clauses see the items that the ranges stand
/// for.
impl<'a, Item: Decodable<Parsed>, Parsed: ParsedItem<Item> + Drop> ListIterator
    for Decoder<'a, Item, Parsed> {
    type Value = Item;

    ghost value_of = { λ d. Parsed.item_of d.payload };

    ghost items = { λ d. items_left d.window };

    ghost may_next = { λ _. tt };

    ghost may_next_back = { λ _. tt };

    ghost gives_first = { scan_gives_first Parsed.item_of Parsed.is_found };

    ghost gives_last = { scan_gives_last Parsed.item_of Parsed.is_found };

    ghost keeps_values = { λ s r t step. ap Parsed.item_of step.payload };

    ghost keeps_values_back = { λ s r t step. ap Parsed.item_of step.payload };
}

impl<'a, Item: Decodable<Parsed>, Parsed: ParsedItem<Item>> Drop for Decoder<'a, Item, Parsed> {
    fn drop(self) {
        let Self {
            intervals: _,
            ends: _,
        } = self;
    }
}

// The head that is picked where a predicate holds of the first `passed` of `count` heads.
#[inline(always)]
fn picked_head(second_partition: bool, passed: usize, count: usize) -> usize
    requires { 0 < count }
    ensures { result ≡ picked_head second_partition passed count }
{
    if second_partition {
        passed.min(count - 1)
    } else {
        passed.saturating_sub(1)
    }
}
