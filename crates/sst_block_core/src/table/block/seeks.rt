//! Seeks of a decoder by key.
ghost use Rattle.std.specs.Prelude.{◌≡◌, ◌+◌, ◌*◌, length, min, nat_lt};
ghost use Rattle.std.specs.Prelude.{IfSome};
ghost use Rattle.sst_base.specs.Counted.{CountsBetween};
ghost use Rattle.sst_block_core.specs.Kind.{IsOrdered};
ghost use Rattle.sst_block_core.specs.Pointers.{head_count};
ghost use Rattle.sst_block_core.specs.Window.{count_passed, has_key, first_left, last_left};
ghost use Rattle.sst_block_core.specs.Window.{some_left};
ghost use Rattle.sst_block_core.specs.Intervals.{digits};
ghost use Rattle.sst_block_core.specs.Candidates.{IsHeldAt, GivesNextHeld, listed_of, scan_cost};

use crate::table::block::bound::Bound;
use crate::table::block::candidate::Candidate;
use crate::table::block::decoder::{Decodable, Decoder, ParsedItem};

impl<'a, Item: Decodable<Parsed>, Parsed: ParsedItem<Item> + Drop> Decoder<'a, Item, Parsed> {
    /// Returns whether an item is left.
    #[inline(always)]
    pub fn has_left(&self) -> bool
        ensures { result ≡ some_left self.now.window }
    {
        self.ends.has_left()
    }

    /// Returns whether the front is at an item of the block, wherever the back is.
    #[inline(always)]
    pub fn is_at_item(&self) -> bool
        ensures { result ≡ nat_lt self.now.window.lo (length self.now.window.list) }
    {
        self.ends.front.index < self.intervals.item_count()
    }

    /// Moves the front to the first item after a bound. Returns that item where it was
    /// decoded.
    #[inline(always)]
    pub fn seek_item(&mut self, bound: &Bound<'_>) -> Option<Candidate<Parsed>>
        requires { IsOrdered Item.kind self.old.window.list }
        ensures payload { self.new.payload ≡ self.old.payload }
        ensures interval { self.new.interval ≡ self.old.interval }
        ensures window { self.new.window ≡ record {
          list = self.old.window.list;
          lo = count_passed Item.kind bound.now.needle.now bound.now.from self.old.window.list;
          hi = self.old.window.hi;
        } }
        ensures candidate { IfSome result
            (IsHeldAt Parsed.item_of Parsed.is_found Item.kind (listed_of self.old)
            (count_passed Item.kind bound.now.needle.now bound.now.from self.old.window.list)) }
        ensures counts { CountsBetween self.old.steps self.new.steps (1, 0) (
          digits (head_count self.old.interval (length self.old.window.list)),
          scan_cost self.old.interval,
        ) }
    {
        let (first, candidate) = self.intervals.seek_item(bound);
        self.ends.front = first;
        candidate
    }

    /// Moves the back after the first item after a bound, or after the last item.
    #[inline(always)]
    pub fn seek_upper_item(&mut self, bound: &Bound<'_>)
        requires { IsOrdered Item.kind self.old.window.list }
        ensures payload { self.new.payload ≡ self.old.payload }
        ensures interval { self.new.interval ≡ self.old.interval }
        ensures window { self.new.window ≡ record {
          list = self.old.window.list;
          lo = self.old.window.lo;
          hi = min (length self.old.window.list)
              (count_passed Item.kind bound.now.needle.now bound.now.from self.old.window.list + 1);
        } }
        ensures counts { CountsBetween self.old.steps self.new.steps (1, 0) (
          digits (head_count self.old.interval (length self.old.window.list)),
          2 * scan_cost self.old.interval,
        ) }
    {
        let (place, _) = self.intervals.seek_item(bound);
        let end = self.intervals.item_count().min(place.index + 1);
        self.intervals.move_back(&mut self.ends.back, end);
    }

    /// Returns the item at the front, which is held, if it is left. Counts nothing.
    #[inline(always)]
    pub fn next_held(&mut self, held: Candidate<Parsed>) -> Option<Parsed>
        requires { IsHeldAt Parsed.item_of Parsed.is_found Item.kind (listed_of self.old)
            self.old.window.lo held }
        ensures { GivesNextHeld Parsed.item_of Parsed.is_found self.old result self.new }
    {
        if !self.ends.has_left() {
            return None;
        }
        self.ends.front = held.after;
        Some(held.item)
    }

    /// Moves the front to the first item after a bound. Returns whether an item is
    /// left, and the first has the needle as its key.
    #[inline(always)]
    pub fn seek_key(&mut self, bound: &Bound<'_>) -> bool
        requires { IsOrdered Item.kind self.old.window.list }
        ensures payload { self.new.payload ≡ self.old.payload }
        ensures interval { self.new.interval ≡ self.old.interval }
        ensures window { self.new.window ≡ record {
          list = self.old.window.list;
          lo = count_passed Item.kind bound.now.needle.now bound.now.from self.old.window.list;
          hi = self.old.window.hi;
        } }
        ensures answer { result
            ≡ has_key Item.kind bound.now.needle.now (first_left self.new.window) }
        ensures counts { CountsBetween self.old.steps self.new.steps (1, 0) (
          digits (head_count self.old.interval (length self.old.window.list)),
          self.old.interval + 1,
        ) }
    {
        self.intervals.seek_front(&mut self.ends, bound)
    }

    /// Moves the back to the first item after a bound, which is left out. Returns whether an
    /// item is left, and the last has the needle as its key.
    #[inline(always)]
    pub fn seek_upper_key(&mut self, bound: &Bound<'_>) -> bool
        requires { IsOrdered Item.kind self.old.window.list }
        ensures payload { self.new.payload ≡ self.old.payload }
        ensures interval { self.new.interval ≡ self.old.interval }
        ensures window { self.new.window ≡ record {
          list = self.old.window.list;
          lo = self.old.window.lo;
          hi = count_passed Item.kind bound.now.needle.now bound.now.from self.old.window.list;
        } }
        ensures answer { result
            ≡ has_key Item.kind bound.now.needle.now (last_left self.new.window) }
        ensures counts { CountsBetween self.old.steps self.new.steps (1, 0) (
          digits (head_count self.old.interval (length self.old.window.list)),
          2 * self.old.interval + 2,
        ) }
    {
        self.intervals.seek_back(&mut self.ends, bound)
    }
}
