//! The back of an iterator over a block.
ghost use Rattle.std.specs.Prelude.{◌≡◌, ◌+◌, ◌-◌, ◌<◌, ◌≤◌, [], length};
ghost use Rattle.std.specs.Prelude.{slice_get, Some};
ghost use Rattle.sst_base.specs.Counted.{CountsExactly, CountsBetween};
ghost use Rattle.sst_block_core.specs.Backs.{first_of, back_cost, ArePlaces, IsBack};
ghost use Rattle.sst_block_core.specs.Candidates.{scan_cost};

use crate::table::block::decoder::{Decodable, ParsedItem};
use crate::table::block::intervals::Intervals;
use crate::table::block::place::Place;
use arrayvec::ArrayVec;

/// The greatest number of items in a restart interval.
const MAX_INTERVAL: usize = 255;

/// The end of an iterator, and the offsets of the items before it, from the head of their interval
/// on, as far as they are known.
#[derive(Drop)]
pub(crate) struct Back {
    /// The index after the last item.
    pub(crate) hi: usize,
    /// The offsets of the forms.
    pub(crate) stack: ArrayVec<u32, MAX_INTERVAL>,
    /// The offset of the key of the interval's head.
    pub(crate) base: usize,
}

impl Back {
    /// Makes a back at the end of a block. No offsets are known.
    #[inline(always)]
    pub(crate) fn new(hi: usize) -> Back
        ensures hi { result.hi ≡ hi }
        ensures empty { result.stack.items ≡ [] }
    {
        Back {
            hi,
            stack: ArrayVec::new(),
            base: 0,
        }
    }
}

impl<'a, Item: Decodable<Parsed>, Parsed: ParsedItem<Item> + Drop> Intervals<'a, Item, Parsed> {
    // Puts the offsets of the interval's items before an end on an empty stack. Returns where the
    // key of their head begins.
    fn fill(&mut self, end: usize, stack: &mut ArrayVec<u32, MAX_INTERVAL>) -> usize
        requires some { 0 < end }
        requires inside { end ≤ length self.old.list.items }
        requires empty { stack.old.items ≡ [] }
        ensures list { self.new.list ≡ self.old.list }
        ensures places { ArePlaces Item.kind self.old.list stack.new.items result
            (first_of self.old.list.interval end) }
        ensures count { first_of self.old.list.interval end + length stack.new.items ≡ end }
        ensures bounded { self.new.steps.entries
            ≤ self.old.steps.entries + self.old.list.interval }
        ensures counts { CountsExactly self.old.steps self.new.steps 0
            (end - first_of self.old.list.interval end) }
    {
        let number = (end - 1) / usize::from(self.interval());
        let mut at = self.start(number);
        stack.push(at.offset as u32);
        let _head = self.take_head(&mut at);
        while at.index < end {
            stack.push(at.offset as u32);
            let _item = self.take_rest(&mut at);
        }
        at.base
    }

    /// Moves a back to an end, and fills its offsets.
    pub(crate) fn set_back(&mut self, back: &mut Back, end: usize)
        requires { end ≤ length self.old.list.items }
        ensures list { self.new.list ≡ self.old.list }
        ensures hi { back.new.hi ≡ end }
        ensures back { IsBack Item.kind self.old.list back.new.hi back.new.stack.items
            back.new.base }
        ensures some { 0 < end → 0 < length back.new.stack.items }
        ensures bounded { self.new.steps.entries
            ≤ self.old.steps.entries + self.old.list.interval }
        ensures counts { CountsExactly self.old.steps self.new.steps 0
            (end - first_of self.old.list.interval end) }
    {
        back.hi = end;
        back.stack.clear();
        if end > 0 {
            back.base = self.fill(end, &mut back.stack);
        }
    }

    /// Moves a back to an end, and fills its offsets where the end is within an interval.
    pub(crate) fn move_back(&mut self, back: &mut Back, end: usize)
        requires { end ≤ length self.old.list.items }
        ensures list { self.new.list ≡ self.old.list }
        ensures hi { back.new.hi ≡ end }
        ensures back { IsBack Item.kind self.old.list back.new.hi back.new.stack.items
            back.new.base }
        ensures counts { CountsBetween self.old.steps self.new.steps (0, 0)
            (0, scan_cost self.old.list.interval) }
    {
        if end == self.item_count() || end % usize::from(self.interval()) == 0 {
            back.hi = end;
            back.stack.clear();
        } else {
            self.set_back(back, end);
        }
    }

    // Fills the offsets of a back, if there are none.
    #[inline(always)]
    fn load(&mut self, back: &mut Back)
        requires some { 0 < back.old.hi }
        requires back { IsBack Item.kind self.old.list back.old.hi back.old.stack.items
            back.old.base }
        ensures list { self.new.list ≡ self.old.list }
        ensures hi { back.new.hi ≡ back.old.hi }
        ensures back { IsBack Item.kind self.old.list back.new.hi back.new.stack.items
            back.new.base }
        ensures some { 0 < length back.new.stack.items }
        ensures counts { CountsBetween self.old.steps self.new.steps (0, 0)
            (0, back_cost self.old.list.interval (length self.old.list.items) back.old.hi) }
    {
        if back.stack.is_empty() {
            self.set_back(back, back.hi);
        }
    }

    /// Decodes the last item of a back whose offsets are known. Counts an entry.
    #[inline(always)]
    pub(crate) fn peek_back(&mut self, back: &Back) -> Parsed
        requires back { IsBack Item.kind self.old.list back.now.hi back.now.stack.items
            back.now.base }
        requires some { 0 < length back.now.stack.items }
        ensures list { self.new.list ≡ self.old.list }
        ensures item { slice_get self.old.list.items (back.now.hi - 1)
            ≡ Some (Parsed.item_of self.old.list.payload result) }
        ensures found { Parsed.is_found self.old.list.payload result }
        ensures counts { CountsExactly self.old.steps self.new.steps 0 1 }
    {
        let last = back.stack.len() - 1;
        let mut at = Place {
            index: back.hi - 1,
            phase: last as u8,
            offset: back.stack[last] as usize,
            base: back.base,
        };
        self.take(&mut at)
    }

    /// Decodes the last item of a back, and takes it off. Counts an entry, and those of the item's
    /// interval where its offsets are not known yet.
    #[inline(always)]
    pub(crate) fn take_back(&mut self, back: &mut Back) -> Parsed
        requires some { 0 < back.old.hi }
        requires back { IsBack Item.kind self.old.list back.old.hi back.old.stack.items
            back.old.base }
        ensures list { self.new.list ≡ self.old.list }
        ensures item { slice_get self.old.list.items (back.old.hi - 1)
            ≡ Some (Parsed.item_of self.old.list.payload result) }
        ensures found { Parsed.is_found self.old.list.payload result }
        ensures hi { back.new.hi ≡ back.old.hi - 1 }
        ensures back { IsBack Item.kind self.old.list back.new.hi back.new.stack.items
            back.new.base }
        ensures counts { CountsBetween self.old.steps self.new.steps (0, 1)
            (0, 1 + back_cost self.old.list.interval (length self.old.list.items) back.old.hi) }
    {
        self.load(back);
        let item = self.peek_back(back);
        let Some(_) = back.stack.pop() else {
            unreachable!()
        };
        back.hi -= 1;
        item
    }
}
