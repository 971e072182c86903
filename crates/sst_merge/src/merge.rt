//! Ordered merges of any number of sources.
ghost use Rattle.std.specs.Prelude.{◌≡◌, ◌+◌, ◌*◌, ◌<◌, ◌≤◌, List, length, slice_get, slice_index};
ghost use Rattle.std.specs.Prelude.{Err, IfErr, IfOk, IfSome, IsOkUnless, None, OnOk, Some};
ghost use Rattle.std.specs.Option.{option_map};
ghost use Rattle.sst_sources.specs.Merge.{merged};
ghost use Rattle.sst_sources.specs.Picks.{IsPick, goes};
ghost use Rattle.sst_sources.specs.Sources.{TakesFirst, PassesFirst, all_left};
ghost use Rattle.sst_sources.specs.Sources.{MayGive, MeetsNoMore};
ghost use Rattle.sst_merge.specs.Tournament.{AreWinners, AreSeats, IsFirstOf, IsTournament};
ghost use Rattle.sst_merge.specs.Tournament.{MayBeTournament};
ghost use Rattle.sstable_blocks.specs.Results.{Memory};
ghost use Rattle.sstable_blocks.specs.Scans.{EndsBy};

use sst_sources::{Head, Ranked, Source, goes_first, keep_error, note_error};
use sstable_blocks::{Error, Result};
use std::alloc::Global;
use std::marker::Model;

// Of two sources the one whose version comes first.
#[inline(always)]
fn better<T: Ranked, I: Source<T>>(heads: &[Head<T, I>], i: usize, j: usize) -> usize
    requires first { i < length heads.now }
    requires second { j < length heads.now }
    ensures { IsFirstOf T.cmp heads.now i j result }
{
    if goes_first(&heads[i], &heads[j], j < i) {
        i
    } else {
        j
    }
}

// Of the two sources after a place of a tournament the one whose version comes first.
#[inline(always)]
fn play<T: Ranked, I: Source<T>>(heads: &[Head<T, I>], places: &[usize], k: usize) -> usize
    requires here { k < length heads.now }
    requires size { length places.now ≡ length heads.now + length heads.now }
    requires first { slice_index places.now (2 * k) < length heads.now }
    requires second { slice_index places.now (2 * k + 1) < length heads.now }
    ensures { IsFirstOf T.cmp heads.now (slice_index places.now (2 * k))
        (slice_index places.now (2 * k + 1)) result }
{
    better(heads, places[2 * k], places[2 * k + 1])
}

// Makes a stale place of a tournament and those above it, and returns the source whose version
// comes first.
#[inline(always)]
fn play_up<T: Ranked, I: Source<T>>(
    heads: &[Head<T, I>],
    places: &mut [usize],
    stale: usize,
) -> usize
    requires { IsTournament T.cmp heads.now places.old stale }
    ensures kept { IsTournament T.cmp heads.now places.new 0 }
    ensures first { IsPick T.cmp heads.now result }
{
    let mut k = stale;
    while k > 0 {
        places[k] = play(heads, places, k);
        k /= 2;
    }
    places[1]
}

// Makes all places of a tournament, from the last to the first.
fn play_all<T: Ranked, I: Source<T>>(heads: &[Head<T, I>], places: &mut [usize])
    requires some { 0 < length heads.now }
    requires places { AreWinners T.cmp heads.now places.old (λ k. k < length heads.now) }
    ensures { IsTournament T.cmp heads.now places.new 0 }
{
    let mut k = heads.len();
    while k > 1 {
        k -= 1;
        places[k] = play(heads, places, k);
    }
}

// Gives each of some sources its last place in a tournament. The places before are not made.
fn seats(alloc: Global, count: usize) -> Result<Vec<usize>>
    ensures seats { IfOk result (λ places. AreSeats count places.items) }
    ensures cause { IsOkUnless result Memory }
{
    let mut places = vec![in alloc; 0; count]?;
    let mut source = 0;
    while source < count {
        places.push(source)?;
        source += 1;
    }
    Ok(places)
}

// Makes the tournament of sources, if there is none yet.
#[inline(always)]
fn ready_places<T: Ranked, I: Source<T>>(
    alloc: Global,
    heads: &[Head<T, I>],
    places: &mut Vec<usize>,
    stale: &mut usize,
) -> Result<()>
    requires some { 0 < length heads.now }
    requires places { MayBeTournament T.cmp heads.now places.old.items stale.old }
    ensures kept { MayBeTournament T.cmp heads.now places.new.items stale.new }
    ensures made { OnOk result (IsTournament T.cmp heads.now places.new.items stale.new) }
    ensures cause { IsOkUnless result Memory }
{
    if !places.is_empty() {
        return Ok(());
    }
    *places = first_places(alloc, heads)?;
    *stale = 0;
    Ok(())
}

// Makes the tournament of sources.
#[inline(never)]
fn first_places<T: Ranked, I: Source<T>>(alloc: Global, heads: &[Head<T, I>]) -> Result<Vec<usize>>
    requires { 0 < length heads.now }
    ensures made { IfOk result (λ places. IsTournament T.cmp heads.now places.items 0) }
    ensures cause { IsOkUnless result Memory }
{
    let mut places = seats(alloc, heads.len())?;
    play_all(heads, places.as_mut_slice());
    Ok(places)
}

// Makes the places that are stale, and returns the source whose version comes first.
#[inline(always)]
fn first_of<T: Ranked, I: Source<T>>(
    heads: &[Head<T, I>],
    places: &mut Vec<usize>,
    stale: &mut usize,
) -> usize
    requires { IsTournament T.cmp heads.now places.old.items stale.old }
    ensures kept { IsTournament T.cmp heads.now places.new.items stale.new }
    ensures fresh { stale.new ≡ 0 }
    ensures first { IsPick T.cmp heads.now result }
{
    let first = play_up(heads, places.as_mut_slice(), *stale);
    *stale = 0;
    first
}

// The source whose version comes first, where the places of a tournament are stale.
fn first_anew<T: Ranked, I: Source<T>>(heads: &[Head<T, I>]) -> usize
    requires { 0 < length heads.now }
    ensures { IsPick T.cmp heads.now result }
{
    let mut first = 0;
    let mut i = 1;
    while i < heads.len() {
        first = better(heads, first, i);
        i += 1;
    }
    first
}

// The source whose version comes first.
#[inline(always)]
fn first_now<T: Ranked, I: Source<T>>(heads: &[Head<T, I>], places: &[usize], stale: usize) -> usize
    requires some { 0 < length heads.now }
    requires places { MayBeTournament T.cmp heads.now places.now stale }
    ensures { IsPick T.cmp heads.now result }
{
    if stale > 0 || places.len() < 2 {
        return first_anew(heads);
    }
    places[1]
}

/// The ordered merge of any number of sources: of equal versions, those of the earlier source come
/// first. An error ends the merge: each later step returns it again. Clauses see the versions left,
/// where those of all sources are known, and the error that ended the merge, if one did.
///
/// The sources play a tournament, so a step compares some log2 n of n of them; the first step
/// compares all, and allocates.
#[derive(Drop)]
pub struct Merge<T: Ranked, I: Source<T>> {
    heads: Vec<Head<T, I>>,
    // Of n sources, source i stands at place n + i, and at place k before that the one of the
    // sources at places 2 k and 2 k + 1 whose version comes first; before the first step there are
    // no places. What stands at a stale place and at those above it (half of it, and so on) is
    // still to be made; 0 is no place.
    places: Vec<usize>,
    stale: usize,
    ended: Option<Error>,
}

impl<T: Ranked, I: Source<T>> Model for Merge<T, I> {
    ghost use Rattle.sst_sources.specs.Merge.{merged};
    ghost use Rattle.sst_sources.specs.Sources.{Left, all_left};
    ghost use Rattle.sst_merge.specs.Tournament.{MayBeTournament};

    ghost Value = { Left T };

    ghost view = { λ m. all_left (merged T.cmp) m.ended m.heads.items };

    ghost invariant = { λ m.
        MayBeTournament T.cmp m.heads.items m.places.items m.stale };
}

impl<T: Ranked, I: Source<T>> Merge<T, I> {
    /// Merges sources, of which the first versions are held.
    pub fn new(heads: Vec<Head<T, I>>) -> Merge<T, I>
        ensures { result ≡ all_left (merged T.cmp) None heads.items }
    {
        let places = Vec::new(*heads.allocator());
        Merge {
            heads,
            places,
            stale: 0,
            ended: None,
        }
    }
}

impl<T: Ranked, I: Source<T>> Merge<T, I> {
    /// Returns the first version left, if there is one, where its source holds it: it is not moved,
    /// as [`Merge::advance`] passes it and [`Source::next_entry`] takes it.
    ///
    /// Where the last step was an `advance`, nothing is compared. An error that ends the merge
    /// leaves what its sources hold, so the first of it is still shown, though no later step gives
    /// it.
    pub fn peek(&self) -> Option<&T>
        ensures first { IfSome self.now.list
            (λ xs. option_map (λ x. x.now) result ≡ slice_get xs 0) }
    {
        if self.heads.is_empty() {
            return None;
        }
        self.heads[first_now(&self.heads, &self.places, self.stale)].peek()
    }
}

impl<T: Ranked + Drop, I: Source<T> + Drop> Merge<T, I> {
    /// Passes the first version left, if there is one. Returns whether there was one.
    ///
    /// # Errors
    ///
    /// Those of the source's step, and `Error::Memory` if an allocation fails. An error ends the
    /// merge: each later step returns it again.
    pub fn advance(&mut self, alloc: Global) -> Result<bool>
        ensures first { IfOk result (λ passed. PassesFirst self.old passed self.new) }
        ensures ended { EndsBy self.old.ended self.new.ended result }
        ensures cause { IfErr result (MayGive I.may_fail self.old) }
        ensures no_more { OnOk result (MeetsNoMore self.old self.new) }
    {
        if let Some(error) = self.ended {
            return Err(error);
        }
        if self.heads.is_empty() {
            return Ok(false);
        }
        let ready = ready_places(alloc, &self.heads, &mut self.places, &mut self.stale);
        keep_error(&mut self.ended, &ready);
        ready?;
        let first = first_of(&self.heads, &mut self.places, &mut self.stale);
        self.stale = (self.heads.len() + first) / 2;
        match self.heads[first].advance(alloc) {
            Ok(passed) => {
                first_of(&self.heads, &mut self.places, &mut self.stale);
                Ok(passed)
            }
            Err(error) => Err(note_error(&mut self.ended, &error)),
        }
    }
}

/// Takes the first version of the merge.
impl<T: Ranked + Drop, I: Source<T> + Drop> Source<T> for Merge<T, I> {
    ghost left = { λ m. m };

    ghost may_fail = { I.may_fail };

    fn next_entry(&mut self, alloc: Global) -> Result<Option<T>> {
        if let Some(error) = self.ended {
            return Err(error);
        }
        if self.heads.is_empty() {
            return Ok(None);
        }
        let ready = ready_places(alloc, &self.heads, &mut self.places, &mut self.stale);
        keep_error(&mut self.ended, &ready);
        ready?;
        let first = first_of(&self.heads, &mut self.places, &mut self.stale);
        self.stale = (self.heads.len() + first) / 2;
        // (what a `?` or a variable passes on is copied)
        match self.heads[first].take_next(alloc, true) {
            Ok(taken) => Ok(taken),
            Err(error) => Err(note_error(&mut self.ended, &error)),
        }
    }
}
