//! The iterator over the handles of an index block, as ranges of its payload.
ghost use Rattle.std.specs.Prelude.{◌≡◌, ◌-◌, ◌*◌, ◌≤◌, length};
ghost use Rattle.std.specs.Iterator.{at_most};
ghost use Rattle.std.proofs.Common.{ap};
ghost use Rattle.sst_base.specs.Counted.{CountsBetween};
ghost use Rattle.sst_block_core.specs.Backs.{GivesStep, GivesNextBack};
ghost use Rattle.sst_block_core.specs.Handles.{handles};
ghost use Rattle.sst_block_core.specs.Intervals.{digits};
ghost use Rattle.sst_block_core.specs.Kind.{IsOrdered};
ghost use Rattle.sst_block_core.specs.Candidates.{GivesNextHeld, scan_cost};
ghost use Rattle.sst_block_core.specs.ListSteps.{held_gives_first, scan_gives_last};
ghost use Rattle.sst_block_core.specs.ParsedHandle.{parsed_handle, IsParsedHandle};
ghost use Rattle.sst_block_core.specs.Pointers.{head_count};
ghost use Rattle.sst_block_core.specs.Window.{found, items_left, seek_index, seek_upper_index};

use crate::table::block::Decoder;
use crate::table::block::bound::Bound;
use crate::table::block::candidate::Candidate;
use crate::table::index_block::block_handle::KeyedBlockHandle;
use crate::table::index_block::parsed_item::IndexBlockParsedItem;
use sst_base::double_ended_peekable::ListIterator;
use sst_base::{SeqNo, Steps};
use std::marker::Model;

/// An iterator over the handles of an index block, as ranges of its payload.
///
/// Clauses see the payload, the restart interval, a window over the handles, and the counters.
/// Every call, at any moment, is a step of the window: a seek moves its own end, wherever that was,
/// and leaves the other end. The handle that a seek decodes is held for the next step. No step
/// takes memory.
#[derive(Drop)]
pub struct Iter<'a> {
    decoder: Decoder<'a, KeyedBlockHandle, IndexBlockParsedItem>,
    held: Option<Candidate<IndexBlockParsedItem>>,
}

impl<'a> Model for Iter<'a> {
    ghost use Rattle.std.specs.Prelude.{IfSome};
    ghost use Rattle.sst_block_core.specs.Kind.{IsOrdered};
    ghost use Rattle.sst_block_core.specs.Handles.{Handle, handles};
    ghost use Rattle.sst_block_core.specs.Candidates.{IsHeldAt, listed_of};
    ghost use Rattle.sst_block_core.specs.ParsedHandle.{parsed_handle, IsParsedHandle};
    ghost use Rattle.sst_block_core.specs.Scan.{Scan};

    ghost Value = { Scan Handle };

    ghost view = { λ i. i.decoder };

    ghost invariant = { λ i. IsOrdered handles i.decoder.window.list
        × IfSome i.held
        (IsHeldAt parsed_handle IsParsedHandle handles (listed_of i.decoder) i.decoder.window.lo) };
}

impl<'a> Iter<'a> {
    /// Wraps a decoder of an index block, whose handles are ordered.
    pub fn new(decoder: Decoder<'a, KeyedBlockHandle, IndexBlockParsedItem>) -> Iter<'a>
        requires { IsOrdered handles decoder.window.list }
        ensures { result ≡ decoder.entry }
    {
        Iter {
            decoder,
            held: None,
        }
    }

    /// Returns what was counted since the iterator was made.
    pub fn steps(&self) -> &Steps
        ensures { result.now ≡ self.now.steps }
    {
        self.decoder.steps()
    }

    /// Returns the number of handles left.
    pub fn count_left(&self) -> usize
        ensures count { result ≡ length (items_left self.now.window) }
        ensures within { self.now.window.hi ≤ length self.now.window.list }
        ensures ordered { IsOrdered handles self.now.window.list }
    {
        self.decoder.count_left()
    }

    /// Moves the front to the first handle that can lead to the needle below the sequence number:
    /// it passes over end keys below the needle, and over those equal to it whose sequence number
    /// is at least `seqno`. Returns whether the block has such a handle, wherever the back is.
    #[inline(always)]
    pub fn seek(&mut self, needle: &[u8], seqno: SeqNo) -> bool
        ensures step { GivesStep self.old self.new (found result)
            (seek_index handles needle.now seqno self.old.window) }
        ensures counts { CountsBetween self.old.steps self.new.steps (1, 0) (
          digits (head_count self.old.interval (length self.old.window.list)),
          scan_cost self.old.interval,
        ) }
    {
        let passed = Bound {
            needle,
            from: Some(seqno),
        };
        self.held = self.decoder.seek_item(&passed);
        self.decoder.is_at_item()
    }

    /// Moves the back after the first handle whose end key is above the needle, or after the last
    /// handle. Returns `true`. The sequence number is not examined.
    pub fn seek_upper(&mut self, needle: &[u8], _seqno: SeqNo) -> bool
        ensures step { GivesStep self.old self.new (found result)
            (seek_upper_index handles needle.now self.old.window) }
        ensures counts { CountsBetween self.old.steps self.new.steps (1, 0) (
          digits (head_count self.old.interval (length self.old.window.list)),
          2 * scan_cost self.old.interval,
        ) }
    {
        let passed = Bound::up_to(needle);
        self.decoder.seek_upper_item(&passed);
        true
    }
}

/// Returns the next handle, if one is left. Counts an entry for a handle that was not held.
impl<'a> Iterator for Iter<'a> {
    type Item = IndexBlockParsedItem;

    ghost next_gives = { λ s r t. GivesNextHeld parsed_handle IsParsedHandle s r t };

    ghost remaining = { λ s. at_most (s.window.hi - s.window.lo) };

    #[inline(always)]
    fn next(&mut self) -> Option<IndexBlockParsedItem> {
        match self.held.take() {
            Some(held) => self.decoder.next_held(held),
            None => self.decoder.next(),
        }
    }
}

/// Returns the last handle, if one is left. Counts an entry for a handle, and the entries of its
/// interval where the handle is the last of its interval.
impl<'a> DoubleEndedIterator for Iter<'a> {
    ghost next_back_gives = { λ s r t. GivesNextBack parsed_handle IsParsedHandle s r t };

    #[inline(always)]
    fn next_back(&mut self) -> Option<IndexBlockParsedItem> {
        self.decoder.next_back()
    }
}

/// The handles left, so that the iterator may be peeked at.
impl<'a> ListIterator for Iter<'a> {
    type Value = KeyedBlockHandle;

    ghost value_of = { λ i. parsed_handle i.payload };

    ghost items = { λ i. items_left i.window };

    ghost may_next = { λ _. tt };

    ghost may_next_back = { λ _. tt };

    ghost gives_first = { held_gives_first parsed_handle IsParsedHandle };

    ghost gives_last = { scan_gives_last parsed_handle IsParsedHandle };

    ghost keeps_values = { λ s r t step. ap parsed_handle step.payload };

    ghost keeps_values_back = { λ s r t step. ap parsed_handle step.payload };
}
