//! Ordered merges that are moved: taken from both ends, and sought in.
ghost use Rattle.std.specs.Prelude.{◌≡◌, ◌+◌, ◌<◌, ℕ, List, length, map, slice_get, true};
ghost use Rattle.std.specs.Prelude.{◌*◌, IfErr, IfOk, IfSome, None, OnErr, OnOk, Some, false, min};
ghost use Rattle.std.specs.Cmp.Lexicographic.{slice_cmp};
ghost use Rattle.std.specs.List.{AllByRecursion};
ghost use Rattle.std.specs.Option.{option_map};
ghost use Rattle.std.specs.Ordering.{is_lt, nat_cmp};
ghost use Rattle.sst_merge.specs.KeyedLaws.{entry_by_key};
ghost use Rattle.sst_sources.specs.Merge.{merged};
ghost use Rattle.sst_merge.specs.Movable.{IsBackAmong, IsBackPick, IsFrontAmong, IsFrontPick};
ghost use Rattle.sst_merge.specs.Movable.{goes_after, goes_before, is_at_most, is_below};
ghost use Rattle.sst_merge.specs.Movable.{item_before, lists_in, seek_to, seek_up_to};
ghost use Rattle.sst_merge.specs.Moved.{AsksAtMost, AsksByPlace, IsFreshSource, IsSought, IsStep};
ghost use Rattle.sst_merge.specs.Moved.{MayStop, Moved, StopsBy, are_known, back_frames, but_reads};
ghost use Rattle.sst_merge.specs.Moved.{front_frames, merged_moved, seek_frames, seek_upper_frames};
ghost use Rattle.sst_merge.specs.Moved.{sought, step_back, step_front, windows};
ghost use Rattle.sstable_blocks.specs.Prelude.{first_left, last_left, next, next_back, some_left};
ghost use Rattle.sstable_blocks.specs.Prelude.{whole};
ghost use Rattle.sstable_blocks.specs.Results.{Error};

use sst_sources::{Ranked, note_error};
use sstable_blocks::{EntryView, Error, InternalValue, Result};
use std::alloc::Global;
use std::cmp::Ordering;
use std::marker::Model;

/// An item that has a user key, by which items are ordered first.
pub trait Keyed: Ranked {
    // the user key
    ghost key: { Self → List ℕ };

    // items of a lesser key come first
    ghost by_key: { (x y : Self) → is_lt (slice_cmp nat_cmp (key x) (key y)) ≡ true
        → is_lt (Self.cmp x y) ≡ true };
}

impl Keyed for InternalValue {
    ghost key = { λ e. e.key.user_key };

    ghost by_key = { entry_by_key };
}

impl<'a> Keyed for EntryView<'a> {
    ghost key = { λ e. e.key.user_key };

    ghost by_key = { entry_by_key };
}

/// An ordered list with a front and a back, each of which is moved over the whole list, whatever
/// the other one is.
///
/// An error ends the source: each later step and search returns it again.
pub trait Movable<T: Keyed> {
    // its list with the indexes from which the front goes on and up to which the back does, where
    // they are known; the errors that reading it may give, and the error that ended it, if one did;
    // how many frames it asked for, and where its blocks begin
    ghost moved: { Self → Moved T };

    // The errors that any step may give, whatever the list: those of an allocation, where a step
    // takes memory, and of a device.
    ghost may_fail: { Error → Type 0 };

    /// Returns the item after the front, whatever the back is.
    fn first(&self) -> Option<&T>
        ensures { IfSome (moved self.now).window
            (λ w. option_map (λ r. r.now) result ≡ slice_get w.list w.lo) };

    /// Returns the item before the back, whatever the front is.
    fn last(&self) -> Option<&T>
        ensures { IfSome (moved self.now).window
            (λ w. option_map (λ r. r.now) result ≡ item_before w.list w.hi) };

    /// Returns whether an item is left between front and back.
    fn has_left(&self) -> bool
        ensures { IfSome (moved self.now).window (λ w. result ≡ some_left w) };

    /// Takes the item after the front, if there is one, whatever the back is.
    ///
    /// In memory no frame is asked for; over a table one where it brings the front to another
    /// block, else none, and at most one where its list is not known or the step fails. A source
    /// that has ended asks for none.
    ///
    /// # Errors
    ///
    /// Those of what the list is read from, and of an allocation where a step takes memory.
    fn next(&mut self, alloc: Global) -> Result<Option<T>>
        ensures step { IfOk result
            (λ r. IsStep step_front (moved self.old) r (moved self.new)) }
        ensures ended { StopsBy (moved self.old) (moved self.new) result }
        ensures cause { IfErr result (MayStop may_fail (moved self.old)) }
        ensures most { AsksAtMost (min 1 (moved self.old).tables) (moved self.old) (moved self.new) }
        ensures asks { OnOk result (AsksByPlace front_frames (moved self.old) (moved self.new)) };

    /// Takes the item before the back, if there is one, whatever the front is. Frames are asked for
    /// as by [`Movable::next`].
    ///
    /// # Errors
    ///
    /// Those of [`Movable::next`].
    fn next_back(&mut self, alloc: Global) -> Result<Option<T>>
        ensures step { IfOk result
            (λ r. IsStep step_back (moved self.old) r (moved self.new)) }
        ensures ended { StopsBy (moved self.old) (moved self.new) result }
        ensures cause { IfErr result (MayStop may_fail (moved self.old)) }
        ensures most { AsksAtMost (min 1 (moved self.old).tables) (moved self.old) (moved self.new) }
        ensures asks { OnOk result (AsksByPlace back_frames (moved self.old) (moved self.new)) };

    /// Moves the front before the first item of the whole list whose user key is at least `key`.
    ///
    /// In memory no frame is asked for; over a table one where a block can have such a key, else
    /// none, and at most one where its list is not known or the search fails.
    ///
    /// # Errors
    ///
    /// Those of [`Movable::next`].
    fn seek(&mut self, alloc: Global, key: &[u8]) -> Result<()>
        ensures sought { OnOk result
            (IsSought (seek_to (is_below T.key key.now)) (moved self.old) (moved self.new)) }
        ensures ended { StopsBy (moved self.old) (moved self.new) result }
        ensures cause { IfErr result (MayStop may_fail (moved self.old)) }
        ensures most { AsksAtMost (moved self.old).tables (moved self.old) (moved self.new) }
        ensures asks { OnOk result (AsksByPlace seek_frames (moved self.old) (moved self.new)) };

    /// Moves the back after the last item of the whole list whose user key is at most `key`.
    ///
    /// In memory no frame is asked for; over a table that has a block one, and the one before it
    /// too where the block at which the search stops has no such key. At most two are asked for
    /// where its list is not known or the search fails.
    ///
    /// # Errors
    ///
    /// Those of [`Movable::next`].
    fn seek_upper(&mut self, alloc: Global, key: &[u8]) -> Result<()>
        ensures sought { OnOk result
            (IsSought (seek_up_to (is_at_most T.key key.now)) (moved self.old) (moved self.new)) }
        ensures ended { StopsBy (moved self.old) (moved self.new) result }
        ensures cause { IfErr result (MayStop may_fail (moved self.old)) }
        ensures most { AsksAtMost (2 * (moved self.old).tables) (moved self.old) (moved self.new) }
        ensures asks { OnOk result
            (AsksByPlace seek_upper_frames (moved self.old) (moved self.new)) };
}

// Whether an item sorts before another.
#[inline(always)]
fn is_before<T: Ranked>(x: &T, y: &T) -> bool
    ensures { result ≡ is_lt (T.cmp x.now y.now) }
{
    let first = x.front();
    let second = y.front();
    if first != second {
        return first < second;
    }
    x.compare(y) == Ordering::Less
}

// Whether an item, if there is one, goes before the one that is the first so far.
#[inline(always)]
fn precedes<T: Ranked>(x: Option<&T>, first: Option<&T>) -> bool
    ensures { result ≡ goes_before T.cmp (option_map (λ r. r.now) x.entry) (option_map (λ r. r.now)
        first.entry) }
{
    match (x, first) {
        (Some(x), Some(first)) => is_before(x, first),
        (Some(_), None) => true,
        (None, _) => false,
    }
}

// Whether an item, if there is one, goes after the one that is the last so far.
#[inline(always)]
fn follows<T: Ranked>(x: Option<&T>, last: Option<&T>) -> bool
    ensures { result ≡ goes_after T.cmp (option_map (λ r. r.now) x.entry) (option_map (λ r. r.now)
        last.entry) }
{
    match (x, last) {
        (Some(x), Some(last)) => !is_before(x, last),
        (Some(_), None) => true,
        (None, _) => false,
    }
}

// Of the sources up to this index the one whose first item comes first, of equal ones the earliest,
// where that of the sources before it is known.
#[inline(always)]
fn first_up_to<T: Keyed, I: Movable<T>>(sources: &[I], first: usize, i: usize) -> usize
    requires inside { i < length sources.now }
    requires first { first < length sources.now }
    requires before { are_known (map I.moved sources.now) ≡ true
        → IsFrontAmong T.cmp (windows (map I.moved sources.now)) i first }
    ensures inside { result < length sources.now }
    ensures among { are_known (map I.moved sources.now) ≡ true
        → IsFrontAmong T.cmp (windows (map I.moved sources.now)) (i + 1) result }
{
    if precedes(sources[i].first(), sources[first].first()) {
        i
    } else {
        first
    }
}

// Of the sources up to this index the one whose last item comes last, of equal ones the latest.
#[inline(always)]
fn last_up_to<T: Keyed, I: Movable<T>>(sources: &[I], last: usize, i: usize) -> usize
    requires inside { i < length sources.now }
    requires last { last < length sources.now }
    requires before { are_known (map I.moved sources.now) ≡ true
        → IsBackAmong T.cmp (windows (map I.moved sources.now)) i last }
    ensures inside { result < length sources.now }
    ensures among { are_known (map I.moved sources.now) ≡ true
        → IsBackAmong T.cmp (windows (map I.moved sources.now)) (i + 1) result }
{
    if follows(sources[i].last(), sources[last].last()) {
        i
    } else {
        last
    }
}

// The source whose first item comes first.
fn first_source<T: Keyed, I: Movable<T>>(sources: &[I]) -> usize
    requires { 0 < length sources.now }
    ensures inside { result < length sources.now }
    ensures pick { are_known (map I.moved sources.now) ≡ true
        → IsFrontPick T.cmp (windows (map I.moved sources.now)) result }
{
    let mut first = 0;
    let mut i = 1;
    while i < sources.len() {
        first = first_up_to::<T, I>(sources, first, i);
        i += 1;
    }
    first
}

// The source whose last item comes last.
fn last_source<T: Keyed, I: Movable<T>>(sources: &[I]) -> usize
    requires { 0 < length sources.now }
    ensures inside { result < length sources.now }
    ensures pick { are_known (map I.moved sources.now) ≡ true
        → IsBackPick T.cmp (windows (map I.moved sources.now)) result }
{
    let mut last = 0;
    let mut i = 1;
    while i < sources.len() {
        last = last_up_to::<T, I>(sources, last, i);
        i += 1;
    }
    last
}

// Moves the front of each source.
fn seek_all<T: Keyed, I: Movable<T>>(alloc: Global, sources: &mut Vec<I>, key: &[u8]) -> Result<()>
    ensures sought { OnOk result (map (λ s. but_reads (I.moved s)) sources.new.items
        ≡ map (sought (seek_to (is_below T.key key.now)))
        (map (λ s. but_reads (I.moved s)) sources.old.items)) }
    ensures lost { OnErr result (are_known (map I.moved sources.new.items) ≡ false) }
    ensures cause { IfErr result
        (MayStop I.may_fail (merged_moved T.cmp None (map I.moved sources.old.items))) }
    ensures most { let before = merged_moved T.cmp None (map I.moved sources.old.items) in
        AsksAtMost before.tables before (merged_moved T.cmp None (map I.moved sources.new.items)) }
{
    let mut i = 0;
    while i < sources.len() {
        match sources[i].seek(alloc, key) {
            Ok(()) => i += 1,
            Err(error) => return Err(error),
        }
    }
    Ok(())
}

// Moves the back of each source.
fn seek_upper_all<T: Keyed, I: Movable<T>>(
    alloc: Global,
    sources: &mut Vec<I>,
    key: &[u8],
) -> Result<()>
    ensures sought { OnOk result (map (λ s. but_reads (I.moved s)) sources.new.items
        ≡ map (sought (seek_up_to (is_at_most T.key key.now)))
        (map (λ s. but_reads (I.moved s)) sources.old.items)) }
    ensures lost { OnErr result (are_known (map I.moved sources.new.items) ≡ false) }
    ensures cause { IfErr result
        (MayStop I.may_fail (merged_moved T.cmp None (map I.moved sources.old.items))) }
    ensures most { let before = merged_moved T.cmp None (map I.moved sources.old.items) in
        AsksAtMost (2 * before.tables) before
        (merged_moved T.cmp None (map I.moved sources.new.items)) }
{
    let mut i = 0;
    while i < sources.len() {
        match sources[i].seek_upper(alloc, key) {
            Ok(()) => i += 1,
            Err(error) => return Err(error),
        }
    }
    Ok(())
}

/// The ordered merge of sources that are moved: of equal versions, those of the earlier source come
/// first. It is taken from both ends, and each end may be moved to a key, also over what was taken.
/// Where the ends cross nothing is left, until one is moved again. An error ends the merge: each
/// later step and search returns it again.
///
/// Clauses see the merged list and how many of its items are before the front and before the back,
/// where those of all sources are known, the errors that reading these may give, the error that
/// ended the merge, if one did, and how many frames its sources asked for. A step compares one item
/// of each source, and takes no memory beside what its source takes.
#[derive(Drop)]
pub struct MovableMerge<T: Keyed, I: Movable<T>> {
    sources: Vec<I>,
    ended: Option<Error>,
    // None is ever held: it names the type of the items, and the lifetimes in it.
    item: Option<T>,
}

impl<T: Keyed, I: Movable<T>> Model for MovableMerge<T, I> {
    ghost use Rattle.std.specs.Prelude.{◌≡◌, map, true};
    ghost use Rattle.sst_merge.specs.Movable.{AreMoved};
    ghost use Rattle.sst_merge.specs.Moved.{Moved, are_known, merged_moved, windows};

    ghost Value = { Moved T };

    ghost view = { λ m. merged_moved T.cmp m.ended (map I.moved m.sources.items) };

    ghost invariant = { λ m. are_known (map I.moved m.sources.items) ≡ true
        → AreMoved T.cmp (windows (map I.moved m.sources.items)) };
}

impl<T: Keyed, I: Movable<T>> MovableMerge<T, I> {
    /// Merges sources that were not moved.
    pub fn new(sources: Vec<I>) -> MovableMerge<T, I>
        requires { AllByRecursion (IsFreshSource T.cmp) (map I.moved sources.items) }
        ensures all { result ≡ merged_moved T.cmp None (map I.moved sources.items) }
        ensures whole { are_known (map I.moved sources.items) ≡ true → result.window
            ≡ Some (whole (merged T.cmp (lists_in (windows (map I.moved sources.items))))) }
    {
        MovableMerge {
            sources,
            ended: None,
            item: None,
        }
    }

    /// Returns the first item left, if there is one. After an error it is any item that a source
    /// holds, or none.
    pub fn first(&self) -> Option<&T>
        ensures { IfSome self.now.window (λ w. option_map (λ r. r.now) result ≡ first_left w) }
    {
        if self.sources.is_empty() {
            return None;
        }
        let first = first_source::<T, I>(&self.sources);
        if !self.sources[first].has_left() {
            return None;
        }
        self.sources[first].first()
    }

    /// Returns the last item left, if there is one. After an error it is any item that a source
    /// holds, or none.
    pub fn last(&self) -> Option<&T>
        ensures { IfSome self.now.window (λ w. option_map (λ r. r.now) result ≡ last_left w) }
    {
        if self.sources.is_empty() {
            return None;
        }
        let last = last_source::<T, I>(&self.sources);
        if !self.sources[last].has_left() {
            return None;
        }
        self.sources[last].last()
    }

    /// Takes the first item left, if there is one. Asks for at most one frame, in memory for none.
    ///
    /// # Errors
    ///
    /// Those of the source's step. An error ends the merge: each later step returns it again.
    pub fn next(&mut self, alloc: Global) -> Result<Option<T>>
        ensures step { IfOk result (λ r. IsStep next self.old r self.new) }
        ensures ended { StopsBy self.old self.new result }
        ensures cause { IfErr result (MayStop I.may_fail self.old) }
        ensures most { AsksAtMost (min 1 self.old.tables) self.old self.new }
    {
        if let Some(error) = self.ended {
            return Err(error);
        }
        if self.sources.is_empty() {
            return Ok(None);
        }
        let first = first_source::<T, I>(&self.sources);
        if !self.sources[first].has_left() {
            return Ok(None);
        }
        match self.sources[first].next(alloc) {
            Ok(taken) => Ok(taken),
            Err(error) => Err(note_error(&mut self.ended, &error)),
        }
    }

    /// Takes the last item left, if there is one. Asks for at most one frame, in memory for none.
    ///
    /// # Errors
    ///
    /// Those of [`MovableMerge::next`].
    pub fn next_back(&mut self, alloc: Global) -> Result<Option<T>>
        ensures step { IfOk result (λ r. IsStep next_back self.old r self.new) }
        ensures ended { StopsBy self.old self.new result }
        ensures cause { IfErr result (MayStop I.may_fail self.old) }
        ensures most { AsksAtMost (min 1 self.old.tables) self.old self.new }
    {
        if let Some(error) = self.ended {
            return Err(error);
        }
        if self.sources.is_empty() {
            return Ok(None);
        }
        let last = last_source::<T, I>(&self.sources);
        if !self.sources[last].has_left() {
            return Ok(None);
        }
        match self.sources[last].next_back(alloc) {
            Ok(taken) => Ok(taken),
            Err(error) => Err(note_error(&mut self.ended, &error)),
        }
    }

    /// Moves the front before the first item of the whole list whose user key is at least `key`,
    /// also over what was taken. The back stays. Asks for at most one frame of each table.
    ///
    /// # Errors
    ///
    /// Those of the sources' searches. An error ends the merge, also for steps from the back.
    pub fn seek(&mut self, alloc: Global, key: &[u8]) -> Result<()>
        ensures sought { OnOk result
            (IsSought (seek_to (is_below T.key key.now)) self.old self.new) }
        ensures ended { StopsBy self.old self.new result }
        ensures cause { IfErr result (MayStop I.may_fail self.old) }
        ensures most { AsksAtMost self.old.tables self.old self.new }
    {
        if let Some(error) = self.ended {
            return Err(error);
        }
        match seek_all::<T, I>(alloc, &mut self.sources, key) {
            Ok(()) => Ok(()),
            Err(error) => Err(note_error(&mut self.ended, &error)),
        }
    }

    /// Moves the back after the last item of the whole list whose user key is at most `key`, also
    /// over what was taken. The front stays. Asks for at most two frames of each table.
    ///
    /// # Errors
    ///
    /// Those of [`MovableMerge::seek`].
    pub fn seek_upper(&mut self, alloc: Global, key: &[u8]) -> Result<()>
        ensures sought { OnOk result
            (IsSought (seek_up_to (is_at_most T.key key.now)) self.old self.new) }
        ensures ended { StopsBy self.old self.new result }
        ensures cause { IfErr result (MayStop I.may_fail self.old) }
        ensures most { AsksAtMost (2 * self.old.tables) self.old self.new }
    {
        if let Some(error) = self.ended {
            return Err(error);
        }
        match seek_upper_all::<T, I>(alloc, &mut self.sources, key) {
            Ok(()) => Ok(()),
            Err(error) => Err(note_error(&mut self.ended, &error)),
        }
    }
}
