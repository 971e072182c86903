//! The two ends of an iterator over a block, and the steps and seeks that move them.
ghost use Rattle.std.specs.Prelude.{◌≡◌, ◌+◌, ◌*◌, ◌≤◌, length};
ghost use Rattle.sst_base.specs.Counted.{CountsBetween};
ghost use Rattle.sst_block_core.specs.Backs.{GivesNextBack};
ghost use Rattle.sst_block_core.specs.Ends.{AreBlockEnds, some_between, window_between};
ghost use Rattle.sst_block_core.specs.Ends.{scan_between};
ghost use Rattle.sst_block_core.specs.Intervals.{digits};
ghost use Rattle.sst_block_core.specs.Kind.{IsOrdered};
ghost use Rattle.sst_block_core.specs.Pointers.{head_count};
ghost use Rattle.sst_block_core.specs.Scan.{GivesScanned};
ghost use Rattle.sst_block_core.specs.Window.{count_passed, has_key, first_left, last_left};
ghost use Rattle.sst_block_core.specs.Window.{items_left, whole};

use crate::table::block::back::Back;
use crate::table::block::bound::Bound;
use crate::table::block::decoder::{Decodable, ParsedItem};
use crate::table::block::intervals::Intervals;
use crate::table::block::place::Place;

/// The two ends of an iterator over a block, apart from the block: a place for the front, and for
/// the back an index with the offsets of the forms before it, as far as they are known.
///
/// The intervals of the block make them ([`Intervals::ends`]) and move them, so an iterator may
/// open the block anew for each step.
#[derive(Drop)]
pub struct Ends {
    pub(crate) front: Place,
    pub(crate) back: Back,
}

impl Ends {
    /// Returns whether an item is left between the ends.
    #[inline(always)]
    pub fn has_left(&self) -> bool
        ensures { result ≡ some_between self.now }
    {
        self.front.index < self.back.hi
    }
}

impl<'a, Item: Decodable<Parsed>, Parsed: ParsedItem<Item>> Intervals<'a, Item, Parsed> {
    /// Returns the two ends of all items. Takes no memory.
    pub fn ends(&self) -> Ends
        ensures ends { AreBlockEnds Item.kind self.now.list result }
        ensures window { window_between self.now.list.items result ≡ whole self.now.list.items }
    {
        Ends {
            front: self.first(),
            back: Back::new(self.item_count()),
        }
    }

    /// Makes ends those of all items, whatever block they were of. Takes no memory.
    pub fn reset(&self, ends: &mut Ends)
        ensures ends { AreBlockEnds Item.kind self.now.list ends.new }
        ensures window { window_between self.now.list.items ends.new
            ≡ whole self.now.list.items }
    {
        ends.front = self.first();
        ends.back.hi = self.item_count();
        ends.back.stack.clear();
    }

    /// Returns the number of items left between two ends of the block.
    pub fn count_left(&self, ends: &Ends) -> usize
        requires { AreBlockEnds Item.kind self.now.list ends.now }
        ensures count { result
            ≡ length (items_left (window_between self.now.list.items ends.now)) }
        ensures within { (window_between self.now.list.items ends.now).hi
            ≤ length self.now.list.items }
    {
        ends.back.hi.saturating_sub(ends.front.index)
    }
}

impl<'a, Item: Decodable<Parsed>, Parsed: ParsedItem<Item> + Drop> Intervals<'a, Item, Parsed> {
    /// Takes the first item left, if there is one. Counts an entry for an item.
    #[inline(always)]
    pub fn next(&mut self, ends: &mut Ends) -> Option<Parsed>
        requires { AreBlockEnds Item.kind self.old.list ends.old }
        ensures list { self.new.list ≡ self.old.list }
        ensures ends { AreBlockEnds Item.kind self.old.list ends.new }
        ensures step { GivesScanned Parsed.item_of Parsed.is_found (scan_between self.old ends.old)
            result (scan_between self.new ends.new) }
    {
        if ends.front.index >= ends.back.hi {
            return None;
        }
        Some(self.take(&mut ends.front))
    }

    /// Takes the last item left, if there is one. Counts an entry for an item, and the entries of
    /// its interval where it is the last of it.
    #[inline(always)]
    pub fn next_back(&mut self, ends: &mut Ends) -> Option<Parsed>
        requires { AreBlockEnds Item.kind self.old.list ends.old }
        ensures list { self.new.list ≡ self.old.list }
        ensures ends { AreBlockEnds Item.kind self.old.list ends.new }
        ensures step { GivesNextBack Parsed.item_of Parsed.is_found
            (scan_between self.old ends.old) result (scan_between self.new ends.new) }
    {
        if ends.back.hi <= ends.front.index {
            return None;
        }
        Some(self.take_back(&mut ends.back))
    }

    /// Moves the front to the first item after a bound. Returns whether an item is
    /// left, and the first has the needle as its key.
    #[inline(always)]
    pub fn seek_front(&mut self, ends: &mut Ends, bound: &Bound<'_>) -> bool
        requires ordered { IsOrdered Item.kind self.old.list.items }
        requires ends { AreBlockEnds Item.kind self.old.list ends.old }
        ensures list { self.new.list ≡ self.old.list }
        ensures ends { AreBlockEnds Item.kind self.old.list ends.new }
        ensures window { window_between self.old.list.items ends.new ≡ record {
          list = self.old.list.items;
          lo = count_passed Item.kind bound.now.needle.now bound.now.from self.old.list.items;
          hi = (window_between self.old.list.items ends.old).hi;
        } }
        ensures answer { result
            ≡ has_key Item.kind bound.now.needle.now
            (first_left (window_between self.old.list.items ends.new)) }
        ensures counts { CountsBetween self.old.steps self.new.steps (1, 0) (
          digits (head_count self.old.list.interval (length self.old.list.items)),
          self.old.list.interval + 1,
        ) }
    {
        let (place, item) = self.seek_key(bound);
        ends.front = place;
        match item {
            Some(_) => ends.front.index < ends.back.hi,
            None => false,
        }
    }

    /// Moves the back to the first item after a bound, which is left out. Returns whether an
    /// item is left, and the last has the needle as its key.
    #[inline(always)]
    pub fn seek_back(&mut self, ends: &mut Ends, bound: &Bound<'_>) -> bool
        requires ordered { IsOrdered Item.kind self.old.list.items }
        requires ends { AreBlockEnds Item.kind self.old.list ends.old }
        ensures list { self.new.list ≡ self.old.list }
        ensures ends { AreBlockEnds Item.kind self.old.list ends.new }
        ensures window { window_between self.old.list.items ends.new ≡ record {
          list = self.old.list.items;
          lo = (window_between self.old.list.items ends.old).lo;
          hi = count_passed Item.kind bound.now.needle.now bound.now.from self.old.list.items;
        } }
        ensures answer { result
            ≡ has_key Item.kind bound.now.needle.now
            (last_left (window_between self.old.list.items ends.new)) }
        ensures counts { CountsBetween self.old.steps self.new.steps (1, 0) (
          digits (head_count self.old.list.interval (length self.old.list.items)),
          2 * self.old.list.interval + 2,
        ) }
    {
        let (place, _) = self.seek_key(bound);
        self.set_back(&mut ends.back, place.index);
        if ends.front.index >= ends.back.hi {
            return false;
        }
        let item = self.peek_back(&ends.back);
        self.compare_key(&item, bound.needle).is_eq()
    }
}
