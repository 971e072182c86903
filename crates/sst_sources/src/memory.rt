//! Versions in memory, as a source.
ghost use Rattle.std.specs.Prelude.{[], None, Some, length, reverse};
ghost use Rattle.std.specs.Vec.Iter.{into_iter_items};

use crate::rev::{Rev, Reversed, in_reverse};
use crate::source::Source;
use sstable_blocks::Result;
use std::alloc::Global;
use std::vec;

/// What an engine holds in memory and has not written yet: its versions in order. Never fails.
impl<T: Drop> Source<T> for vec::IntoIter<T, Global> {
    ghost left = { λ s. record {
      list = Some (into_iter_items s);
      most = length (into_iter_items s);
      errors = Some [];
      ended = None;
    } };

    ghost may_fail = { λ _. ⊥ };

    fn next_entry(&mut self, _alloc: Global) -> Result<Option<T>> {
        Ok(self.next())
    }
}

/// The same versions, from the last to the first. Never fails.
impl<T: Drop> Source<Reversed<T>> for Rev<vec::IntoIter<T, Global>> {
    ghost left = { λ s. record {
      list = Some (reverse (into_iter_items s.source));
      most = length (into_iter_items s.source);
      errors = Some [];
      ended = None;
    } };

    ghost may_fail = { λ _. ⊥ };

    fn next_entry(&mut self, _alloc: Global) -> Result<Option<Reversed<T>>> {
        Ok(in_reverse(self.source.next_back()))
    }
}
