//! Histories as ghost state.
ghost use Rattle.std.specs.Prelude.{◌≡◌, [], ◌∷◌, ◌++◌};

use crate::ghost_state::note::{Note, chosen_note};
use std::collections::LinkedList;
use std::marker::Model;

/// A list of what came so far, in order. Ghost state, zero-sized: only clauses read it.
pub struct History<T> {
    items: Note<LinkedList<T>>,
}

impl<T> Model for History<T> {
    ghost use Rattle.std.specs.Prelude.{List};

    ghost Value = { List T };

    ghost view = { λ h. h.items.value };
}

impl<T> History<T> {
    /// Makes an empty history.
    pub fn new() -> History<T>
        ensures { result ≡ [] }
    {
        History {
            items: chosen_note(&(), &()),
        }
    }

    /// Appends an item.
    pub fn push(&mut self, item: &T)
        ensures { self.new ≡ self.old ++ item.now ∷ [] }
    {
        self.items = chosen_note(&self.items, item);
    }

    /// Appends an item that the caller's proof picks, from what the reference shows.
    pub fn push_chosen<S>(&mut self, shown: &S)
        ghost chosen: { T }
        ensures { self.new ≡ self.old ++ chosen ∷ [] }
    {
        self.items = chosen_note(&self.items, shown);
    }

    /// Appends some items.
    pub fn extend_from_slice(&mut self, items: &[T])
        ensures { self.new ≡ self.old ++ items.now }
    {
        self.items = chosen_note(&self.items, &items);
    }
}

impl<T> Drop for History<T> {
    fn drop(self) {
        let Self { items: _ } = self;
    }
}

/// An empty history.
impl<T> Default for History<T> {
    ghost is_default = { λ h. h ≡ [] };

    fn default() -> History<T> {
        History::new()
    }
}
