//! The back of a source as its front.
ghost use Rattle.std.specs.Prelude.{◌≡◌, ◌-◌};
ghost use Rattle.sst_sources.specs.Flips.{front_flipped};
ghost use Rattle.std.specs.Cmp.{back_total};
ghost use Rattle.std.specs.Ordering.{flip_args};

use crate::ranked::Ranked;
use std::cmp::Ordering;
use std::marker::Model;

/// An item in the opposite order. Clauses see the item.
#[derive(Drop)]
pub struct Reversed<T> {
    item: T,
}

impl<T> Model for Reversed<T> {
    ghost Value = { T };

    ghost view = { λ r. r.item };
}

impl<T> Reversed<T> {
    /// Reverses the order of an item.
    #[inline(always)]
    pub fn new(item: T) -> Reversed<T>
        ensures { result ≡ item }
    {
        Reversed { item }
    }

    /// Returns the item.
    #[inline(always)]
    pub fn into_inner(self) -> T
        ensures { result ≡ self }
    {
        self.item
    }
}

// Reverses the order of an item that was taken, if there is one.
#[inline(always)]
pub(crate) fn in_reverse<T>(item: Option<T>) -> Option<Reversed<T>>
    ensures { result ≡ item }
{
    match item {
        Some(item) => Some(Reversed::new(item)),
        None => None,
    }
}

/// The order from the last to the first.
impl<T: Ranked> Ranked for Reversed<T> {
    ghost cmp = { flip_args T.cmp };

    ghost number = { λ x. 340282366920938463463374607431768211455 - T.number x };

    ghost IsNumbered = { T.IsNumbered };

    ghost ordered = { back_total T.ordered };

    fn compare(&self, other: &Reversed<T>) -> Ordering {
        other.item.compare(&self.item)
    }

    #[inline(always)]
    fn front(&self) -> u128 {
        u128::MAX - self.item.front()
    }

    ghost tells = { λ x y p q less.
        T.tells y x q p (front_flipped (T.number x) (T.number y) less) };
}

/// A source that is taken from the back.
#[derive(Drop)]
pub struct Rev<I> {
    pub(crate) source: I,
}

impl<I> Rev<I> {
    /// Takes a source from the back.
    pub fn new(source: I) -> Rev<I>
        ensures { result ≡ record { source = source } }
    {
        Rev { source }
    }

    /// Returns the source.
    pub fn into_inner(self) -> I
        ensures { result ≡ self.source }
    {
        self.source
    }
}
