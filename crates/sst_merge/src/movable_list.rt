//! Ordered lists in memory, as sources that are moved.
ghost use Rattle.std.specs.Prelude.{◌≡◌, ◌+◌, ◌<◌, ◌≤◌, length, map, slice_get, slice_index};
ghost use Rattle.std.specs.Prelude.{count_by, suc};
ghost use Rattle.sst_merge.specs.Movable.{is_sought, item_before};
ghost use Rattle.sst_merge.specs.Moved.{in_memory};
ghost use Rattle.sstable_blocks.specs.Prelude.{entries, IsOrdered, whole};

use crate::movable::Movable;
use sstable_blocks::{AsEntry, EntryView, Result};
use std::alloc::Global;
use std::marker::Model;
use std::mem;

// Whether a search for a key passes an entry: its user key sorts before the key, or also where it
// is the key.
pub(crate) fn passes(entry: &EntryView<'_>, key: &[u8], at_most: bool) -> bool
    ensures { result ≡ is_sought (λ e. e.key.user_key) key.now at_most entry.now }
{
    let order = entry.compare_key(key);
    if at_most {
        order.is_le()
    } else {
        order.is_lt()
    }
}

// How many of ordered entries a search for a key passes.
fn count_passed<T: AsEntry>(items: &[T], key: &[u8], at_most: bool) -> usize
    requires { IsOrdered entries (map T.entry items.now) }
    ensures count { result
        ≡ count_by (is_sought (λ e. e.key.user_key) key.now at_most) (map T.entry items.now) }
    ensures inside { result ≤ length items.now }
{
    let mut lo = 0;
    let mut hi = items.len();
    while lo < hi {
        let mid = lo + (hi - lo) / 2;
        if passes(&items[mid].view(), key, at_most) {
            lo = mid + 1;
        } else {
            hi = mid;
        }
    }
    lo
}

// The entry at an index, if there is one.
fn entry_at<T: AsEntry>(items: &[T], index: usize) -> Option<EntryView<'_>>
    ensures { result ≡ slice_get (map T.entry items.now) index }
{
    match items.get(index) {
        Some(item) => Some(item.view()),
        None => None,
    }
}

// The entry before an index, if there is one.
fn entry_before<T: AsEntry>(items: &[T], index: usize) -> Option<EntryView<'_>>
    ensures { result ≡ item_before (map T.entry items.now) index }
{
    if index == 0 {
        return None;
    }
    entry_at(items, index - 1)
}

/// An ordered list of entries in memory, whose ends are moved over it: what an engine has not
/// written yet. It gives views of the entries. Never fails. Clauses see the list and the places of
/// the ends.
#[derive(Drop)]
pub struct MovableList<'a, T: AsEntry> {
    items: &'a [T],
    lo: usize,
    hi: usize,
    // The entries at the ends.
    first: Option<EntryView<'a>>,
    last: Option<EntryView<'a>>,
}

impl<'a, T: AsEntry> Model for MovableList<'a, T> {
    ghost use Rattle.std.specs.Prelude.{map};
    ghost use Rattle.sst_merge.specs.Movable.{HoldsEnds};
    ghost use Rattle.sstable_blocks.specs.Prelude.{Entry, Window};

    ghost Value = { Window Entry };

    ghost view = { λ l. record { list = map T.entry l.items.now; lo = l.lo; hi = l.hi } };

    ghost invariant = { λ l. HoldsEnds (map T.entry l.items.now) l.lo l.hi l.first l.last };
}

impl<'a, T: AsEntry> MovableList<'a, T> {
    /// Borrows an ordered list. The ends are those of the list.
    pub fn new(items: &'a [T]) -> MovableList<'a, T>
        requires { IsOrdered entries (map T.entry items.now) }
        ensures { result ≡ whole (map T.entry items.now) }
    {
        MovableList {
            items,
            lo: 0,
            hi: items.len(),
            first: entry_at(items, 0),
            last: entry_before(items, items.len()),
        }
    }
}

impl<'a, T: AsEntry> Movable<EntryView<'a>> for MovableList<'a, T> {
    ghost moved = { λ l. in_memory l };

    ghost may_fail = { λ _. ⊥ };

    #[inline(always)]
    fn first(&self) -> Option<&EntryView<'a>> {
        self.first.as_ref()
    }

    #[inline(always)]
    fn last(&self) -> Option<&EntryView<'a>> {
        self.last.as_ref()
    }

    #[inline(always)]
    fn has_left(&self) -> bool {
        self.lo < self.hi
    }

    fn next(&mut self, _alloc: Global) -> Result<Option<EntryView<'a>>> {
        if self.lo >= self.items.len() {
            return Ok(None);
        }
        self.lo += 1;
        Ok(mem::replace(&mut self.first, entry_at(self.items, self.lo)))
    }

    fn next_back(&mut self, _alloc: Global) -> Result<Option<EntryView<'a>>> {
        if self.hi == 0 {
            return Ok(None);
        }
        self.hi -= 1;
        Ok(mem::replace(&mut self.last, entry_before(self.items, self.hi)))
    }

    fn seek(&mut self, _alloc: Global, key: &[u8]) -> Result<()> {
        self.lo = count_passed(self.items, key, false);
        self.first = entry_at(self.items, self.lo);
        Ok(())
    }

    fn seek_upper(&mut self, _alloc: Global, key: &[u8]) -> Result<()> {
        self.hi = count_passed(self.items, key, true);
        self.last = entry_before(self.items, self.hi);
        Ok(())
    }
}
