//! Items of a block by their index.
ghost use Rattle.std.specs.Prelude.{◌≡◌, ◌+◌, ◌%◌, ◌<◌, ◌≤◌, length, slice_get, IfSome};
ghost use Rattle.std.specs.Option.{option_map};
ghost use Rattle.sst_base.specs.Counted.{CountsExactly, CountsBetween};
ghost use Rattle.sst_block_core.specs.Candidates.{scan_cost};
ghost use Rattle.sst_block_core.specs.Intervals.{digits};
ghost use Rattle.sst_block_core.specs.Kind.{IsOrdered};
ghost use Rattle.sst_block_core.specs.Places.{IsItemAt};
ghost use Rattle.sst_block_core.specs.Scan.{IsPlace};
ghost use Rattle.sst_block_core.specs.Pointers.{head_count};
ghost use Rattle.sst_block_core.specs.Window.{count_passed};

use crate::table::block::bound::Bound;
use crate::table::block::decoder::{Decodable, ParsedItem};
use crate::table::block::intervals::Intervals;
use crate::table::block::place::Place;

impl<'a, Item: Decodable<Parsed>, Parsed: ParsedItem<Item> + Drop> Intervals<'a, Item, Parsed> {
    /// Returns how many items a bound passes, which is the index of the first one that it doesn't
    /// pass.
    pub fn position(&mut self, bound: &Bound<'_>) -> usize
        requires { IsOrdered Item.kind self.old.list.items }
        ensures list { self.new.list ≡ self.old.list }
        ensures count { result
            ≡ count_passed Item.kind bound.now.needle.now bound.now.from self.old.list.items }
        ensures counts { CountsBetween self.old.steps self.new.steps (1, 0) (
          digits (head_count self.old.list.interval (length self.old.list.items)),
          scan_cost self.old.list.interval,
        ) }
    {
        let (place, _) = self.seek_item(bound);
        place.index
    }

    // Decodes the item at a place, if it isn't the place after the last item.
    #[inline(always)]
    fn item_from(&mut self, at: Place) -> Option<Parsed>
        requires { IsPlace Item.kind self.old.list at }
        ensures list { self.new.list ≡ self.old.list }
        ensures item { option_map (Parsed.item_of self.old.list.payload) result
            ≡ slice_get self.old.list.items at.index }
        ensures found { IfSome result (Parsed.is_found self.old.list.payload) }
        ensures counts { CountsBetween self.old.steps self.new.steps (0, 0) (0, 1) }
    {
        if at.index >= self.item_count() {
            return None;
        }
        let mut at = at;
        Some(self.take(&mut at))
    }

    /// Decodes the first item after a bound, if there is one.
    #[inline(always)]
    pub(crate) fn first_behind(&mut self, bound: &Bound<'_>) -> Option<Parsed>
        requires { IsOrdered Item.kind self.old.list.items }
        ensures list { self.new.list ≡ self.old.list }
        ensures item { option_map (Parsed.item_of self.old.list.payload) result
            ≡ slice_get self.old.list.items (count_passed Item.kind bound.now.needle.now
            bound.now.from self.old.list.items) }
        ensures found { IfSome result (Parsed.is_found self.old.list.payload) }
        ensures counts { CountsBetween self.old.steps self.new.steps (1, 0) (
          digits (head_count self.old.list.interval (length self.old.list.items)),
          scan_cost self.old.list.interval + 1,
        ) }
    {
        let (place, candidate) = self.seek_item(bound);
        match candidate {
            Some(candidate) => Some(candidate.item),
            None => self.item_from(place),
        }
    }

    /// Decodes the item at an index: goes from the head of its interval to the item. Counts the
    /// entries up to it.
    pub fn item_at(&mut self, index: usize) -> Parsed
        requires { index < length self.old.list.items }
        ensures list { self.new.list ≡ self.old.list }
        ensures item { IsItemAt Parsed.item_of Parsed.is_found self.old.list index result }
        ensures counts { CountsExactly self.old.steps self.new.steps 0
            (index % self.old.list.interval + 1) }
    {
        let interval = usize::from(self.interval());
        let mut at = self.start(index / interval);
        while at.index < index {
            self.take(&mut at);
        }
        self.take(&mut at)
    }
}
