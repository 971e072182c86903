//! Sources whose first version is held.
ghost use Rattle.std.specs.Prelude.{◌≡◌, ◌+◌, ◌*◌, ◌<◌, ◌≤◌, List, length, slice_get, slice_index};
ghost use Rattle.std.specs.Prelude.{Err, IfErr, IfOk, IfSome, IsOkUnless, None, OnOk, Some};
ghost use Rattle.std.specs.Option.{option_map};
ghost use Rattle.sst_sources.specs.Fronts.{IsFrontOf};
ghost use Rattle.sst_sources.specs.Picks.{goes};
ghost use Rattle.sst_sources.specs.Sources.{TakesFirst, PassesFirst};
ghost use Rattle.sst_sources.specs.Sources.{MayGive, MeetsNoMore};
ghost use Rattle.sstable_blocks.specs.Scans.{EndsBy};

use crate::ranked::Ranked;
use crate::source::{Source, note_error};
use sstable_blocks::{Error, Result};
use std::alloc::Global;
use std::cmp::Ordering;
use std::marker::Model;
use std::mem;

/// A source whose first version is held. An error ends it: each later step returns it again.
///
/// Clauses see the versions left, that one included, and the error that ended it, if one did.
#[derive(Drop)]
pub struct Head<T: Ranked, I: Source<T>> {
    held: Option<T>,
    // The front of the version that is held, the greatest number where none is, if it was made: a
    // merge makes it.
    front: Option<u128>,
    source: I,
    ended: Option<Error>,
}

impl<T: Ranked, I: Source<T>> Model for Head<T, I> {
    ghost use Rattle.std.specs.Prelude.{IfSome};
    ghost use Rattle.sst_sources.specs.Fronts.{IsFrontOf};
    ghost use Rattle.sst_sources.specs.Sources.{Left, left_held, IsHeld};

    ghost Value = { Left T };

    ghost view = { λ h. left_held h.held h.ended (I.left h.source) };

    ghost invariant = { λ h. IsHeld h.held (I.left h.source).list
        × IfSome h.front (IsFrontOf T.number T.IsNumbered h.held) };
}

// The front of a version that may be held.
#[inline(always)]
fn front_of_held<T: Ranked>(held: &Option<T>) -> u128
    ensures { IsFrontOf T.number T.IsNumbered held.now result }
{
    match held {
        Some(version) => version.front(),
        None => u128::MAX,
    }
}

// The front of a version that may be held, if it is wanted.
#[inline(always)]
fn front_if<T: Ranked>(is_ranked: bool, held: &Option<T>) -> Option<u128>
    ensures { IfSome result (IsFrontOf T.number T.IsNumbered held.now) }
{
    if is_ranked {
        Some(front_of_held(held))
    } else {
        None
    }
}

impl<T: Ranked + Drop, I: Source<T> + Drop> Head<T, I> {
    /// Takes the first version of a source, and holds it.
    ///
    /// # Errors
    ///
    /// Those of the source's step. The source is then dropped.
    #[tactic(auto, using(crate::specs::SourceLaws::held_before, crate::specs::SourceLaws::held_is, crate::specs::SourceLaws::held_most))]
    pub fn new(alloc: Global, mut source: I) -> Result<Head<T, I>>
        ensures list { IfOk result (λ head. head.list ≡ (I.left source).list) }
        ensures most { IfOk result (λ head. head.most ≤ (I.left source).most) }
        ensures fresh { IfOk result (λ head. head.ended ≡ None) }
        ensures repeated { IfSome (I.left source).ended (λ e. result ≡ Err e) }
        ensures cause { IfErr result (MayGive I.may_fail (I.left source)) }
        ensures no_more { IfOk result (λ head. MeetsNoMore (I.left source) head) }
    {
        let held = source.next_entry(alloc)?;
        let front = Some(front_of_held(&held));
        Ok(Head {
            held,
            front,
            source,
            ended: None,
        })
    }
}

impl<T: Ranked, I: Source<T>> Head<T, I> {
    /// Returns the version that is held: the first one left, if there is one. An error that ends
    /// the source leaves it, so it is still shown, though no later step gives it.
    #[inline(always)]
    pub fn peek(&self) -> Option<&T>
        ensures first { IfSome self.now.list
            (λ xs. option_map (λ r. r.now) result ≡ slice_get xs 0) }
        ensures some { IfSome result (λ _. 1 ≤ self.now.most) }
    {
        self.held.as_ref()
    }

    /// Returns the error that ended the source, if one did.
    #[inline(always)]
    pub fn end(&self) -> Option<Error>
        ensures { result ≡ self.now.ended }
    {
        self.ended
    }

    /// Ends the source with an error, which is returned: so does each later step.
    pub fn end_with(&mut self, error: &Error) -> Error
        ensures ended { self.new ≡ record self.old { ended = Some error.now } }
        ensures same { result ≡ error.now }
    {
        note_error(&mut self.ended, error)
    }
}

impl<T: Ranked + Drop, I: Source<T>> Head<T, I> {
    /// Takes the first version left, if there is one, and makes the front of the next one, if that is
    /// wanted: a merge compares by it.
    ///
    /// # Errors
    ///
    /// Those of the source's step. An error ends the source: each later step returns it again.
    #[inline(always)]
    pub fn take_next(&mut self, alloc: Global, is_ranked: bool) -> Result<Option<T>>
        ensures first { IfOk result (λ r. TakesFirst self.old r self.new) }
        ensures ended { EndsBy self.old.ended self.new.ended result }
        ensures cause { IfErr result (MayGive I.may_fail self.old) }
        ensures no_more { OnOk result (MeetsNoMore self.old self.new) }
    {
        if let Some(error) = self.ended {
            return Err(error);
        }
        if self.held.is_none() {
            return Ok(None);
        }
        // (a `?` would copy what it passes on)
        match self.source.next_entry(alloc) {
            Ok(next) => {
                self.front = front_if(is_ranked, &next);
                Ok(mem::replace(&mut self.held, next))
            }
            Err(error) => Err(note_error(&mut self.ended, &error)),
        }
    }

    /// Takes the first version left, if there is one.
    ///
    /// # Errors
    ///
    /// Those of the source's step. An error ends the source: each later step returns it again.
    #[inline(always)]
    pub fn take(&mut self, alloc: Global) -> Result<Option<T>>
        ensures first { IfOk result (λ r. TakesFirst self.old r self.new) }
        ensures ended { EndsBy self.old.ended self.new.ended result }
        ensures cause { IfErr result (MayGive I.may_fail self.old) }
        ensures no_more { OnOk result (MeetsNoMore self.old self.new) }
    {
        self.take_next(alloc, false)
    }

    /// Passes the first version left, if there is one: the next one is then held in its place.
    /// Returns whether there was one.
    ///
    /// # Errors
    ///
    /// Those of the source's step. An error ends the source: each later step returns it again.
    #[inline(always)]
    pub fn advance(&mut self, alloc: Global) -> Result<bool>
        ensures first { IfOk result (λ passed. PassesFirst self.old passed self.new) }
        ensures ended { EndsBy self.old.ended self.new.ended result }
        ensures cause { IfErr result (MayGive I.may_fail self.old) }
        ensures no_more { OnOk result (MeetsNoMore self.old self.new) }
    {
        if let Some(error) = self.ended {
            return Err(error);
        }
        if self.held.is_none() {
            return Ok(false);
        }
        match self.source.next_entry(alloc) {
            Ok(next) => {
                self.front = Some(front_of_held(&next));
                self.held = next;
                Ok(true)
            }
            Err(error) => Err(note_error(&mut self.ended, &error)),
        }
    }
}

/// Returns whether what one source holds comes before what another holds; of equal versions that of
/// the earlier source does. Where their fronts differ, nothing else is compared.
#[inline(always)]
pub fn goes_first<T: Ranked, I: Source<T>>(
    first: &Head<T, I>,
    second: &Head<T, I>,
    is_later: bool,
) -> bool
    ensures { (xs ys : List T) → first.now.list ≡ Some xs → second.now.list ≡ Some ys
        → result ≡ goes T.cmp is_later xs ys }
{
    match (first.front, second.front) {
        (Some(front), Some(other)) if front != other => front < other,
        // (out of line, so that the rest of a tournament has no branches)
        _ => goes_first_held(first, second, is_later),
    }
}

// Whether one source goes first, by the versions that are held.
#[inline(never)]
fn goes_first_held<T: Ranked, I: Source<T>>(
    first: &Head<T, I>,
    second: &Head<T, I>,
    is_later: bool,
) -> bool
    ensures { (xs ys : List T) → first.now.list ≡ Some xs → second.now.list ≡ Some ys
        → result ≡ goes T.cmp is_later xs ys }
{
    match (&first.held, &second.held) {
        (Some(_), None) => true,
        (None, Some(_)) => false,
        (None, None) => !is_later,
        (Some(x), Some(y)) if is_later => x.compare(y) == Ordering::Less,
        (Some(x), Some(y)) => y.compare(x) != Ordering::Less,
    }
}
