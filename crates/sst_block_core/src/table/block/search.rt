//! The search for an item over the heads of a block and within one interval.
ghost use Rattle.std.specs.Prelude.{◌≡◌, ℕ, ◌+◌, ◌-◌, ◌*◌, ◌<◌, ◌≤◌};
ghost use Rattle.std.specs.Prelude.{length, slice_get, Some, min};
ghost use Rattle.std.specs.Prelude.{true, false, MatchOption, None, filter, IfSome};
ghost use Rattle.std.specs.Prelude.{if◌then◌else◌};
ghost use Rattle.std.specs.Ordering.{nat_cmp, is_eq};
ghost use Rattle.std.specs.Cmp.Lexicographic.{slice_cmp};
ghost use Rattle.sst_base.specs.SharedPrefix.{shared_prefix_length};
ghost use Rattle.std.specs.Option.{option_map};
ghost use Rattle.sst_base.specs.Counted.{found_item, CountsExactly, CountsBetween};
ghost use Rattle.sst_block_core.specs.Kind.{IsOrdered};
ghost use Rattle.sst_block_core.specs.Places.{IsItemPlace, IsItemAt};
ghost use Rattle.sst_block_core.specs.Pointers.{head_count};
ghost use Rattle.sst_block_core.specs.Scan.{IsPlace, IsPlaceAfter};
ghost use Rattle.sst_block_core.specs.Window.{count_passed, is_version};
ghost use Rattle.sst_block_core.specs.Intervals.{Answered, Splits, digits, IsEntered, IsFoundAt};
ghost use Rattle.sst_block_core.specs.Candidates.{IsHeldAt, IsCandidateAt, with_needle, scan_cost};

use crate::table::block::bound::Bound;
use crate::table::block::candidate::Candidate;
use crate::table::block::decoder::{Decodable, ParsedItem};
use crate::table::block::intervals::Intervals;
use crate::table::block::place::Place;
use sst_base::SeqNo;
use sst_base::table::util::longest_shared_prefix_length;
use std::cmp::Ordering;

impl<'a, Item: Decodable<Parsed>, Parsed: ParsedItem<Item>> Intervals<'a, Item, Parsed> {
    /// Returns how many heads a predicate over keys and sequence numbers holds of, if it is true
    /// and then false over the heads. By halves.
    #[inline(always)]
    pub(crate) fn partition_point<F: Fn(&[u8], u64) -> bool>(&mut self, pred: &F) -> usize
        requires callable { F.IsAlwaysCallable pred.now }
        ensures list { self.new.list ≡ self.old.list }
        ensures within { result ≤ head_count self.old.list.interval (length self.old.list.items) }
        ensures before { 0 < result
            → Answered Item.kind (F.post pred.now) self.old.list.interval self.old.list.items
            (result - 1) true }
        ensures after { result < head_count self.old.list.interval (length self.old.list.items)
            → Answered Item.kind (F.post pred.now) self.old.list.interval self.old.list.items
            result false }
        ensures point { (p : ℕ)
            → Splits Item.kind (F.post pred.now) self.old.list.interval self.old.list.items
            (head_count self.old.list.interval (length self.old.list.items)) p
            → result ≡ p }
        ensures counts { CountsBetween self.old.steps self.new.steps (1, 0)
            (digits (head_count self.old.list.interval (length self.old.list.items)), 0) }
    {
        let mut left = 0;
        let mut right = self.count();
        while left < right {
            let mid = left + (right - left) / 2;
            let (key, seqno) = self.read_head(mid);
            if pred(key, seqno) {
                left = mid + 1;
            } else {
                right = mid;
            }
        }
        left
    }

    /// Returns how many heads a bound passes: the first item after it is in the
    /// interval before, or the next head.
    #[inline(always)]
    pub(crate) fn heads_passed(&mut self, bound: &Bound<'_>) -> usize
        requires { IsOrdered Item.kind self.old.list.items }
        ensures list { self.new.list ≡ self.old.list }
        ensures within { result ≤ head_count self.old.list.interval (length self.old.list.items) }
        ensures low { 0 < result
            → (result - 1) * self.old.list.interval
            < count_passed Item.kind bound.now.needle.now bound.now.from self.old.list.items }
        ensures high { count_passed Item.kind bound.now.needle.now bound.now.from
            self.old.list.items
            ≤ result * self.old.list.interval }
        ensures start { (result - 1) * self.old.list.interval < length self.old.list.items }
        ensures counts { CountsBetween self.old.steps self.new.steps (1, 0)
            (digits (head_count self.old.list.interval (length self.old.list.items)), 0) }
    {
        // Each interval but the last is full.
        let _ = self.count();
        match self.table {
            Some(table) => self.forms.count_heads(table, bound),
            None => self.partition_point(&|key: &[u8], seqno: u64| bound.passes(key, seqno)),
        }
    }
}

impl<'a, Item: Decodable<Parsed>, Parsed: ParsedItem<Item> + Drop> Intervals<'a, Item, Parsed> {
    // The first place, from one on and before an end, whose item is after a bound, with that
    // item; or the end. No head is among these places. The bound passes the head before them, which
    // shares `alike` bytes with the needle.
    #[inline(always)]
    fn scan_interval(
        &mut self,
        from: Place,
        end: usize,
        alike: usize,
        bound: &Bound<'_>,
    ) -> (Place, Option<Candidate<Parsed>>)
        requires ordered { IsOrdered Item.kind self.old.list.items }
        requires entered { IsEntered Item.kind bound.now.needle.now bound.now.from self.old.list
            from alike end }
        ensures list { self.new.list ≡ self.old.list }
        ensures place { result.0.index
            ≡ min end
            (count_passed Item.kind bound.now.needle.now bound.now.from self.old.list.items) }
        ensures is_place { IsPlace Item.kind self.old.list result.0 }
        ensures candidate { MatchOption result.1 (result.0.index ≡ end)
            (λ l.
            IsCandidateAt Parsed.item_of Parsed.is_found Item.kind bound.now.needle.now
            self.old.list
            result.0.index l
            × (result.0.index < end)) }
        ensures counts { CountsBetween self.old.steps self.new.steps (0, found_item result.1)
            (0, end - from.index) }
    {
        let mut at = from;
        while at.index < end {
            let here = at;
            let item = self.take_rest(&mut at);
            let shared = self.prefix_len(&item);
            let order = bound.compare_behind(shared, self.own_key(&item), alike);
            if !bound.passes_order(order, item.seqno()) {
                let after = at;
                return (here, Some(Candidate { item, order, after }));
            }
        }
        (at, None)
    }

    // Reads the head of interval j, which exists, and moves after it. The number is how many bytes
    // its key shares with the needle.
    #[inline(always)]
    fn enter(&mut self, j: usize, needle: &[u8]) -> (Place, Parsed, usize)
        requires { j * self.old.list.interval < length self.old.list.items }
        ensures list { self.new.list ≡ self.old.list }
        ensures item { IsItemAt Parsed.item_of Parsed.is_found self.old.list
            (j * self.old.list.interval) result.1 }
        ensures shared { Parsed.shared_len result.1 ≡ 0 }
        ensures place { result.0.index ≡ j * self.old.list.interval + 1 }
        ensures is_place { IsPlaceAfter Item.kind self.old.list result.0
            (Item.kind.key (Parsed.item_of self.old.list.payload result.1)) }
        ensures alike { result.2
            ≡ shared_prefix_length (Item.kind.key (Parsed.item_of self.old.list.payload result.1))
            needle.now }
        ensures counts { CountsExactly self.old.steps self.new.steps 0 1 }
    {
        let mut at = self.start(j);
        let head = self.take_head(&mut at);
        let alike = longest_shared_prefix_length(self.own_key(&head), needle);
        (at, head, alike)
    }

    // The first place of interval j whose item is after a bound, with that item; or the end of
    // the interval. The bound passes its head.
    #[inline(always)]
    fn seek_in_interval(
        &mut self,
        j: usize,
        bound: &Bound<'_>,
    ) -> (Place, Option<Candidate<Parsed>>)
        requires ordered { IsOrdered Item.kind self.old.list.items }
        requires inside { j * self.old.list.interval < length self.old.list.items }
        requires passed { j * self.old.list.interval
            < count_passed Item.kind bound.now.needle.now bound.now.from self.old.list.items }
        ensures list { self.new.list ≡ self.old.list }
        ensures place { result.0.index
            ≡ min (min (length self.old.list.items) ((j + 1) * self.old.list.interval))
            (count_passed Item.kind bound.now.needle.now bound.now.from self.old.list.items) }
        ensures is_place { IsPlace Item.kind self.old.list result.0 }
        ensures candidate { MatchOption result.1
            (result.0.index ≡ min (length self.old.list.items) ((j + 1) * self.old.list.interval))
            (λ l.
            IsCandidateAt Parsed.item_of Parsed.is_found Item.kind bound.now.needle.now
            self.old.list
            result.0.index l
            × (result.0.index
            < min (length self.old.list.items) ((j + 1) * self.old.list.interval))) }
        ensures counts { CountsBetween self.old.steps self.new.steps (0, found_item result.1)
            (0, self.old.list.interval) }
    {
        let end = self.interval_end(j);
        let (from, _, alike) = self.enter(j, bound.needle);
        self.scan_interval(from, end, alike, bound)
    }

    // An item, if it has a key.
    #[inline(always)]
    fn with_key(&self, item: Parsed, needle: &[u8]) -> Option<Parsed>
        requires { Parsed.is_found self.now.list.payload item }
        ensures { result
            ≡ (if is_eq
            (slice_cmp nat_cmp (Item.kind.key (Parsed.item_of self.now.list.payload item))
            needle.now) then Some item else None) }
    {
        if_equal(self.compare_key(&item, needle), item)
    }

    // The item of a head, if it has a key.
    #[inline(always)]
    fn head_with_key(&mut self, at: Place, needle: &[u8]) -> Option<Parsed>
        requires place { IsItemPlace Item.kind self.old.list at }
        requires head { at.phase ≡ 0 }
        ensures list { self.new.list ≡ self.old.list }
        ensures item { MatchOption result
            ((x : Item) → slice_get self.old.list.items at.index ≡ Some x
            → is_eq (slice_cmp nat_cmp (Item.kind.key x) needle.now) ≡ false)
            (IsFoundAt Parsed.item_of Parsed.is_found Item.kind needle.now self.old.list at.index) }
        ensures counts { CountsExactly self.old.steps self.new.steps 0 1 }
    {
        let mut at = at;
        let item = self.take_head(&mut at);
        self.with_key(item, needle)
    }

    // The place after this many heads where each item is a head, with the item there if its key is
    // the needle.
    #[inline(always)]
    fn head_behind(&mut self, heads: usize, needle: &[u8]) -> (Place, Option<Parsed>)
        requires interval { self.old.list.interval ≡ 1 }
        requires within { heads ≤ head_count self.old.list.interval (length self.old.list.items) }
        ensures list { self.new.list ≡ self.old.list }
        ensures place { result.0.index ≡ heads }
        ensures is_place { IsPlace Item.kind self.old.list result.0 }
        ensures item { MatchOption result.1
            ((x : Item) → slice_get self.old.list.items result.0.index ≡ Some x
            → is_eq (slice_cmp nat_cmp (Item.kind.key x) needle.now) ≡ false)
            (IsFoundAt Parsed.item_of Parsed.is_found Item.kind needle.now self.old.list
            result.0.index) }
        ensures counts { CountsBetween self.old.steps self.new.steps (0, found_item result.1)
            (0, 1) }
    {
        if heads >= self.count() {
            return (self.end(), None);
        }
        let at = self.start(heads);
        (at, self.head_with_key(at, needle))
    }

    /// Returns the place of the first item after a bound, with that item if its key is
    /// the needle.
    #[inline(always)]
    pub(crate) fn seek_key(&mut self, bound: &Bound<'_>) -> (Place, Option<Parsed>)
        requires { IsOrdered Item.kind self.old.list.items }
        ensures list { self.new.list ≡ self.old.list }
        ensures place { result.0.index
            ≡ count_passed Item.kind bound.now.needle.now bound.now.from self.old.list.items }
        ensures is_place { IsPlace Item.kind self.old.list result.0 }
        ensures item { MatchOption result.1
            ((x : Item) → slice_get self.old.list.items result.0.index ≡ Some x
            → is_eq (slice_cmp nat_cmp (Item.kind.key x) bound.now.needle.now) ≡ false)
            (IsFoundAt Parsed.item_of Parsed.is_found Item.kind bound.now.needle.now self.old.list
            result.0.index) }
        ensures counts { CountsBetween self.old.steps self.new.steps (1, found_item result.1) (
          digits (head_count self.old.list.interval (length self.old.list.items)),
          self.old.list.interval + 1,
        ) }
    {
        let heads = self.heads_passed(bound);
        if self.interval() == 1 {
            return self.head_behind(heads, bound.needle);
        }
        if heads > 0 {
            let (at, candidate) = self.seek_in_interval(heads - 1, bound);
            if at.index < self.interval_end(heads - 1) || at.index >= self.item_count() {
                return (at, with_needle(candidate));
            }
        }
        let at = self.start(heads);
        (at, self.head_with_key(at, bound.needle))
    }

    /// Returns the place of the first item after a bound, with that item where it was
    /// decoded. Where each item is a head, none is decoded.
    #[inline(always)]
    pub(crate) fn seek_item(&mut self, bound: &Bound<'_>) -> (Place, Option<Candidate<Parsed>>)
        requires { IsOrdered Item.kind self.old.list.items }
        ensures list { self.new.list ≡ self.old.list }
        ensures place { result.0.index
            ≡ count_passed Item.kind bound.now.needle.now bound.now.from self.old.list.items }
        ensures is_place { IsPlace Item.kind self.old.list result.0 }
        ensures candidate { IfSome result.1
            (IsHeldAt Parsed.item_of Parsed.is_found Item.kind self.old.list result.0.index) }
        ensures counts { CountsBetween self.old.steps self.new.steps (1, 0) (
          digits (head_count self.old.list.interval (length self.old.list.items)),
          scan_cost self.old.list.interval,
        ) }
    {
        let heads = self.heads_passed(bound);
        if heads > 0 && self.interval() > 1 {
            let (first, candidate) = self.seek_in_interval(heads - 1, bound);
            if first.index < self.interval_end(heads - 1) || first.index >= self.item_count() {
                return (first, candidate);
            }
        }
        (self.start_or_end(heads), None)
    }

    /// Finds the first item with a key whose sequence number is strictly below `seqno`, by a search
    /// over the heads.
    #[inline(always)]
    pub fn first_version(&mut self, needle: &[u8], seqno: SeqNo) -> Option<Parsed>
        requires { IsOrdered Item.kind self.old.list.items }
        ensures list { self.new.list ≡ self.old.list }
        ensures item { option_map (Parsed.item_of self.old.list.payload) result
            ≡ slice_get (filter (is_version Item.kind needle.now seqno) self.old.list.items) 0 }
        ensures found { IfSome result (Parsed.is_found self.old.list.payload) }
        ensures counts { CountsBetween self.old.steps self.new.steps (1, found_item result) (
          digits (head_count self.old.list.interval (length self.old.list.items)),
          self.old.list.interval + 1,
        ) }
    {
        let bound = Bound {
            needle,
            from: Some(seqno),
        };
        let (_, item) = self.seek_key(&bound);
        item
    }

    /// Finds the first item with a key whose sequence number is strictly below `seqno`, in interval
    /// j, where all items with this key are.
    #[inline(always)]
    pub fn first_version_in(&mut self, j: usize, needle: &[u8], seqno: SeqNo) -> Option<Parsed>
        requires ordered { IsOrdered Item.kind self.old.list.items }
        requires inside { j * self.old.list.interval < length self.old.list.items }
        requires alone { (i : ℕ) (x : Item) → slice_get self.old.list.items i ≡ Some x
            → Item.kind.key x ≡ needle.now
            → (j * self.old.list.interval ≤ i) × (i < (j + 1) * self.old.list.interval) }
        ensures list { self.new.list ≡ self.old.list }
        ensures item { option_map (Parsed.item_of self.old.list.payload) result
            ≡ slice_get (filter (is_version Item.kind needle.now seqno) self.old.list.items) 0 }
        ensures found { IfSome result (Parsed.is_found self.old.list.payload) }
        ensures counts { CountsBetween self.old.steps self.new.steps (0, 1)
            (0, self.old.list.interval) }
    {
        let bound = Bound {
            needle,
            from: Some(seqno),
        };
        let end = self.interval_end(j);
        let (from, head, alike) = self.enter(j, needle);
        if !bound.passes(self.own_key(&head), head.seqno()) {
            return self.with_key(head, needle);
        }
        let (_, candidate) = self.scan_interval(from, end, alike, &bound);
        with_needle(candidate)
    }
}

// The item at which a search stopped, if its key is the needle.
#[inline(always)]
fn with_needle<T: Drop>(candidate: Option<Candidate<T>>) -> Option<T>
    ensures { result ≡ with_needle candidate }
{
    match candidate {
        Some(candidate) => if_equal(candidate.order, candidate.item),
        None => None,
    }
}

// An item, if a comparison says equal.
#[inline(always)]
fn if_equal<T: Drop>(order: Ordering, item: T) -> Option<T>
    ensures { result ≡ (if is_eq order then Some item else None) }
{
    if order.is_eq() { Some(item) } else { None }
}
