//! Peeking at both ends of an iterator.
ghost use Rattle.std.specs.Prelude.{◌≡◌, ◌⊎◌, List, [], ◌∷◌, Option};
ghost use Rattle.std.specs.Prelude.{Some, None, option_map, refl};
ghost use Rattle.std.specs.Prelude.{IsNone, IfSome, IfNone, slice_get, true, false};
ghost use Rattle.std.specs.Iterator.{YieldsFirstBy, YieldsLastBy, item_count};
ghost use Rattle.std.specs.List.{last_or};
ghost use Rattle.std.specs.Option.{option_copied};
ghost use Rattle.std.specs.Fn.{FnOnceReturnsAt};
ghost use Rattle.std.specs.Slice.Iter.{iter_rest};
ghost use Rattle.std.specs.Vec.Iter.{into_iter_items};
ghost use Rattle.std.specs.Borrow.{sem, Lends};
ghost use Rattle.sst_base.specs.contracts.double_ended_peekable.DoubleEndedPeekable.{the_row};
ghost use Rattle.sst_base.specs.ListIterators.{slice_gives_first, slice_gives_last};
ghost use Rattle.sst_base.specs.ListIterators.{vec_gives_first, vec_gives_last};
ghost use Rattle.sst_base.specs.Peekable.{peekable_items, inner_of, peeked_front, peeked_back};
ghost use Rattle.sst_base.specs.Peekable.{with_inner, KeepsItems, LeavesBack, LeavesFront};

use std::alloc::Allocator;
use std::{slice, vec};

/// A double-ended iterator over a finite list, of which `next` takes the first item and `next_back`
/// the last. At the end of the list both return `None`, however often they are called.
pub trait ListIterator: DoubleEndedIterator {
    /// What clauses see of an item.
    type Value;

    // the value of an item of the iterator
    ghost value_of: { Self → Self.Item → Self.Value };

    // the values of the items left, front to back
    ghost items: { Self → List Self.Value };

    // `next` may always be called
    ghost may_next: { (s : Self) → Self.can_next s };

    // `next_back` may always be called
    ghost may_next_back: { (s : Self) → Self.can_next_back s };

    // `next` takes the first item, or there is none
    ghost gives_first: { (s : Self) (r : Option Self.Item) (t : Self)
        → Self.next_gives s r t → YieldsFirstBy (value_of s) items s r t };

    // `next_back` takes the last item, or there is none
    ghost gives_last: { (s : Self) (r : Option Self.Item) (t : Self)
        → Self.next_back_gives s r t → YieldsLastBy (value_of s) items s r t };

    // the value of an item stays as the iterator moves
    ghost keeps_values: { (s : Self) (r : Option Self.Item) (t : Self)
        → Self.next_gives s r t → value_of t ≡ value_of s };

    // also at the back
    ghost keeps_values_back: { (s : Self) (r : Option Self.Item) (t : Self)
        → Self.next_back_gives s r t → value_of t ≡ value_of s };
}

/// An iterator over a slice. Clauses see the elements that the references borrow.
impl<'a, T> ListIterator for slice::Iter<'a, T> {
    type Value = T;

    ghost value_of = { λ _ x. x.now };

    ghost items = { iter_rest };

    ghost may_next = { λ _. tt };

    ghost may_next_back = { λ _. tt };

    ghost gives_first = { slice_gives_first };

    ghost gives_last = { slice_gives_last };

    ghost keeps_values = { λ _ _ _ _. refl };

    ghost keeps_values_back = { λ _ _ _ _. refl };
}

/// An iterator that owns the elements of a vector.
impl<T: Drop, A: Allocator> ListIterator for vec::IntoIter<T, A> {
    type Value = T;

    ghost value_of = { λ _ x. x };

    ghost items = { into_iter_items };

    ghost may_next = { λ _. tt };

    ghost may_next_back = { λ _. tt };

    ghost gives_first = { vec_gives_first };

    ghost gives_last = { vec_gives_last };

    ghost keeps_values = { λ _ _ _ _. refl };

    ghost keeps_values_back = { λ _ _ _ _. refl };
}

/// Makes a [`DoubleEndedPeekable`] of each [`ListIterator`].
pub trait DoubleEndedPeekableExt: ListIterator {
    /// Wraps the iterator, with nothing peeked.
    fn double_ended_peekable(self) -> DoubleEndedPeekable<Self::Item, Self>
        ensures items { peekable_items Self.value_of Self.items result ≡ Self.items self }
        ensures inner { inner_of result ≡ self }
        ensures front { peeked_front result ≡ None }
        ensures back { peeked_back result ≡ None };
}

impl<I: ListIterator<Item: Drop>> DoubleEndedPeekableExt for I {
    fn double_ended_peekable(self) -> DoubleEndedPeekable<I::Item, I> {
        DoubleEndedPeekable {
            iter: self,
            front: None,
            back: None,
        }
    }
}

/// An iterator whose first and last item can be peeked at before they are taken. Clauses see the
/// items left: the peeked front item, if any, those of the inner iterator, and the peeked back
/// item, if any. No item is taken from the inner iterator before it is requested. That the inner
/// iterator ended is not remembered.
#[derive(Drop)]
pub struct DoubleEndedPeekable<T, I> {
    iter: I,
    front: Option<T>,
    back: Option<T>,
}

impl<T: Drop, I: ListIterator<Item = T>> DoubleEndedPeekable<T, I> {
    /// Returns the inner iterator. Peeked items stay.
    pub fn inner_mut(&mut self) -> &mut I
        ensures value { result.now ≡ inner_of self.old }
        ensures* writes_back { sem 𝓛 (Lends (the_row T.row I.row) I.row self.entry result
            (with_inner self.old)) }
    {
        &mut self.iter
    }

    /// Returns the first item, which stays.
    pub fn peek(&mut self) -> Option<&T>
        ensures first { option_map (I.value_of (inner_of self.old)) (option_copied result)
            ≡ slice_get (peekable_items I.value_of I.items self.old) 0 }
        ensures* same { sem 𝓛 (KeepsItems (the_row T.row I.row)
            (peekable_items I.value_of I.items) peeked_back self.entry) }
    {
        self.fill_front();
        self.first_peeked()
    }

    /// Returns the last item, which stays.
    pub fn peek_back(&mut self) -> Option<&T>
        ensures last { option_map (I.value_of (inner_of self.old)) (option_copied result)
            ≡ last_or None (peekable_items I.value_of I.items self.old) }
        ensures* same { sem 𝓛 (KeepsItems (the_row T.row I.row)
            (peekable_items I.value_of I.items) peeked_front self.entry) }
    {
        self.fill_back();
        self.last_peeked()
    }

    /// Takes and returns the first item if there is one and `func` returns true of it.
    pub fn next_if<F: FnOnce(&T) -> bool>(&mut self, func: F) -> Option<T>
        requires { F.IsAlwaysCallable func }
        ensures taken { IfSome result (λ x. peekable_items I.value_of I.items self.old
            ≡ I.value_of (inner_of self.old) x ∷ peekable_items I.value_of I.items self.new) }
        ensures accepted { IfSome result (λ x. FnOnceReturnsAt F.FnOnce func x true) }
        ensures same { IfNone result (peekable_items I.value_of I.items self.new
            ≡ peekable_items I.value_of I.items self.old) }
        ensures refused { IfNone result ((peekable_items I.value_of I.items self.old ≡ [])
            ⊎ ((x : T)
            × (slice_get (peekable_items I.value_of I.items self.old) 0
            ≡ Some (I.value_of (inner_of self.old) x))
            × FnOnceReturnsAt F.FnOnce func x false)) }
        ensures back { LeavesBack I.items self.old self.new }
    {
        let item = self.take_first()?;
        if func(&item) {
            return Some(item);
        }
        self.front = Some(item);
        None
    }

    // Peeks at the first item, unless one is peeked. At None the inner iterator is at its end.
    fn fill_front(&mut self)
        ensures same { peekable_items I.value_of I.items self.new
            ≡ peekable_items I.value_of I.items self.old }
        ensures filled { IsNone self.new.front → I.items self.new.iter ≡ [] }
        ensures values { I.value_of self.new.iter ≡ I.value_of self.old.iter }
        ensures back { self.new.back ≡ self.old.back }
    {
        if self.front.is_none() {
            self.front = self.iter.next();
        }
    }

    // Peeks at the last item, unless one is peeked. At None the inner iterator is at its end.
    fn fill_back(&mut self)
        ensures same { peekable_items I.value_of I.items self.new
            ≡ peekable_items I.value_of I.items self.old }
        ensures filled { IsNone self.new.back → I.items self.new.iter ≡ [] }
        ensures values { I.value_of self.new.iter ≡ I.value_of self.old.iter }
        ensures front { self.new.front ≡ self.old.front }
    {
        if self.back.is_none() {
            self.back = self.iter.next_back();
        }
    }

    // The first item, once the front is filled.
    fn first_peeked(&self) -> Option<&T>
        requires { IsNone self.now.front → I.items self.now.iter ≡ [] }
        ensures { option_map (I.value_of (inner_of self.now)) (option_copied result)
            ≡ slice_get (peekable_items I.value_of I.items self.now) 0 }
    {
        match &self.front {
            Some(item) => Some(item),
            None => self.back.as_ref(),
        }
    }

    // The last item, once the back is filled.
    fn last_peeked(&self) -> Option<&T>
        requires { IsNone self.now.back → I.items self.now.iter ≡ [] }
        ensures { option_map (I.value_of (inner_of self.now)) (option_copied result)
            ≡ last_or None (peekable_items I.value_of I.items self.now) }
    {
        match &self.back {
            Some(item) => Some(item),
            None => self.front.as_ref(),
        }
    }

    // Takes the first item, after which none is peeked at the front.
    fn take_first(&mut self) -> Option<T>
        ensures first { YieldsFirstBy (I.value_of self.old.iter)
            (peekable_items I.value_of I.items) self.old result self.new }
        ensures unpeeked { self.new.front ≡ None }
        ensures values { I.value_of self.new.iter ≡ I.value_of self.old.iter }
        ensures back { LeavesBack I.items self.old self.new }
    {
        if let Some(item) = self.front.take() {
            return Some(item);
        }
        match self.iter.next() {
            Some(item) => Some(item),
            None => self.back.take(),
        }
    }

    // Takes the last item, after which none is peeked at the back.
    fn take_last(&mut self) -> Option<T>
        ensures last { YieldsLastBy (I.value_of self.old.iter) (peekable_items I.value_of I.items)
            self.old result self.new }
        ensures unpeeked { self.new.back ≡ None }
        ensures values { I.value_of self.new.iter ≡ I.value_of self.old.iter }
        ensures front { LeavesFront I.items self.old self.new }
    {
        if let Some(item) = self.back.take() {
            return Some(item);
        }
        match self.iter.next_back() {
            Some(item) => Some(item),
            None => self.front.take(),
        }
    }
}

/// Takes items from the front. The peeked back item stays, unless it is the last one left.
impl<T: Drop, I: ListIterator<Item = T>> Iterator for DoubleEndedPeekable<T, I> {
    type Item = T;

    ghost next_gives = { λ s r t. YieldsFirstBy (I.value_of (inner_of s))
        (peekable_items I.value_of I.items) s r t
        × (I.value_of (inner_of t) ≡ I.value_of (inner_of s))
        × (peeked_front t ≡ None) × LeavesBack I.items s t };

    ghost remaining = { item_count (peekable_items I.value_of I.items) };

    fn next(&mut self) -> Option<T> {
        self.take_first()
    }
}

/// Takes items from the back. The peeked front item stays, unless it is the last one left.
impl<T: Drop, I: ListIterator<Item = T>> DoubleEndedIterator for DoubleEndedPeekable<T, I> {
    ghost next_back_gives = { λ s r t. YieldsLastBy (I.value_of (inner_of s))
        (peekable_items I.value_of I.items) s r t
        × (I.value_of (inner_of t) ≡ I.value_of (inner_of s))
        × (peeked_back t ≡ None) × LeavesFront I.items s t };

    fn next_back(&mut self) -> Option<T> {
        self.take_last()
    }
}

/// The items left, so that a peekable iterator may be wrapped again.
impl<T: Drop, I: ListIterator<Item = T>> ListIterator for DoubleEndedPeekable<T, I> {
    type Value = I::Value;

    ghost value_of = { λ p. I.value_of (inner_of p) };

    ghost items = { peekable_items I.value_of I.items };

    ghost may_next = { λ _. tt };

    ghost may_next_back = { λ _. tt };

    ghost gives_first = { λ s r t h. h.0 };

    ghost gives_last = { λ s r t h. h.0 };

    ghost keeps_values = { λ s r t h. h.1 };

    ghost keeps_values_back = { λ s r t h. h.1 };
}
