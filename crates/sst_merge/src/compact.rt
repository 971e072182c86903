//! Compaction of ordered versions.
ghost use Rattle.std.specs.Prelude.{◌≡◌, ◌&&◌, false, not, List, IfErr, IfOk, OnOk, Some, None};
ghost use Rattle.std.specs.Prelude.{IsOkUnless};
ghost use Rattle.sst_merge.specs.Compact.{compact_from, compacted};
ghost use Rattle.sst_merge.specs.Compact.{is_below_all, is_hidden, is_parted, is_seen};
ghost use Rattle.sst_merge.specs.Compact.{PassesHidden, is_left_under, is_parted_from};
ghost use Rattle.sst_sources.specs.Sources.{MayGive, MeetsNoMore, TakesFirst, left_as, with_held};
ghost use Rattle.sstable_blocks.specs.Prelude.{is_tombstone};
ghost use Rattle.sstable_blocks.specs.Results.{Memory};

use crate::bottom::Bottom;
use crate::kept_key::{KeepsKey, LastKey};
use sst_sources::{Source, keep_error};
use sstable_blocks::{AsEntry, Error, Result, SeqNo};
use std::alloc::Global;
use std::marker::{Model, PhantomData};

/// Ordered versions without those that no read at one of some snapshots, or at or above all of
/// them, can see. A snapshot sees the versions strictly below its number. Of the versions that some
/// snapshot sees one stays only if a snapshot sees it that sees no newer one of its key; so of each
/// key one for each gap between two neighbouring snapshots. Of a key at the bottom, of which no
/// older version is elsewhere, a tombstone goes too, unless a snapshot that does not see it sees an
/// older version of the key. Where not every snapshot sees the tombstone, the next version that it
/// does not hide is taken ahead, and held for the next step. Of the last version that some snapshot
/// sees the user key is kept ([`KeepsKey`]): of a view where it is, so nothing is copied. An error
/// ends the compaction, also one of a look ahead: each later step returns it again. Clauses see the
/// versions left, where those of the source are known, and the error that ended the compaction, if
/// one did.
#[derive(Drop)]
pub struct Compact<T: KeepsKey, I: Source<T>, B: Bottom> {
    source: Ahead<T, I>,
    snapshots: Vec<SeqNo>,
    bottom: B,
    // The user key and the number of the last version that some snapshot sees and none newer hides.
    last: Option<(LastKey<T>, SeqNo)>,
    ended: Option<Error>,
    versions: PhantomData<T>,
}

impl<T: KeepsKey, I: Source<T>, B: Bottom> Model for Compact<T, I, B> {
    ghost use Rattle.sst_merge.specs.Compact.{compact_from};
    ghost use Rattle.sst_sources.specs.Sources.{Left, left_as, with_held};

    ghost Value = { Left T };

    ghost view = { λ c. left_as
        (compact_from T.entry c.snapshots.items (B.at_bottom c.bottom) c.last) c.ended
        (with_held c.source.held (I.left c.source.source)) };
}

impl<T: KeepsKey, I: Source<T>, B: Bottom> Compact<T, I, B> {
    /// Compacts ordered versions for the reads at these snapshots, in any order, and at or above
    /// all of them; no other read may be wanted any more. `bottom` says of which keys no older
    /// version is elsewhere.
    pub fn new(source: I, snapshots: Vec<SeqNo>, bottom: B) -> Compact<T, I, B>
        ensures { result ≡ left_as
            (compacted T.entry snapshots.items (B.at_bottom bottom)) None (I.left source) }
    {
        Compact {
            source: Ahead { source, held: None },
            snapshots,
            bottom,
            last: None,
            ended: None,
            versions: PhantomData,
        }
    }
}

// Whether a snapshot sees a version with this number.
fn is_seen(snapshots: &[SeqNo], seqno: SeqNo) -> bool
    ensures { result ≡ is_seen snapshots.now seqno }
{
    snapshots.iter().any(|snapshot| seqno < *snapshot)
}

// Whether a snapshot sees a version with the first number, and not one with the second.
fn is_parted(snapshots: &[SeqNo], seqno: SeqNo, newer: SeqNo) -> bool
    ensures { result ≡ is_parted snapshots.now seqno newer }
{
    snapshots
        .iter()
        .any(|snapshot| seqno < *snapshot && *snapshot <= newer)
}

// Whether every snapshot sees a version with this number.
fn is_below_all(snapshots: &[SeqNo], seqno: SeqNo) -> bool
    ensures { result ≡ is_below_all snapshots.now seqno }
{
    snapshots.iter().all(|snapshot| seqno < *snapshot)
}

// Whether every snapshot that sees a version sees the last one, which is newer and has its key.
fn is_hidden<T: KeepsKey>(snapshots: &[SeqNo], last: &(LastKey<T>, SeqNo), item: &T) -> bool
    ensures { result ≡ is_hidden T.entry snapshots.now (Some last.now) item.now }
{
    last.0.is_of(item) && !is_parted(snapshots, item.view().seqno(), last.1)
}

// The same where there may be no last one yet.
fn is_hidden_by<T: KeepsKey>(
    snapshots: &[SeqNo],
    last: &Option<(LastKey<T>, SeqNo)>,
    item: &T,
) -> bool
    ensures { result ≡ is_hidden T.entry snapshots.now last.now item.now }
{
    match last {
        Some(last) => is_hidden(snapshots, last, item),
        None => false,
    }
}

// Whether a version has the key of the last one, and a snapshot sees it and not the last one.
fn is_parted_from<T: KeepsKey>(snapshots: &[SeqNo], last: &(LastKey<T>, SeqNo), item: &T) -> bool
    ensures { result ≡ is_parted_from T.entry snapshots.now last.now item.now }
{
    last.0.is_of(item) && is_parted(snapshots, item.view().seqno(), last.1)
}

// A source of which a version may be held that was taken ahead.
#[derive(Drop)]
struct Ahead<T: AsEntry, I: Source<T>> {
    source: I,
    held: Option<T>,
}

impl<T: AsEntry + Drop, I: Source<T>> Ahead<T, I> {
    // Takes the version that is held, else the first one left.
    #[inline(always)]
    fn take(&mut self, alloc: Global) -> Result<Option<T>>
        ensures first { IfOk result (λ r. TakesFirst
            (with_held self.old.held (I.left self.old.source)) r
            (with_held self.new.held (I.left self.new.source))) }
        ensures free { self.new.held ≡ None }
        ensures cause { IfErr result (MayGive I.may_fail (I.left self.old.source)) }
        ensures no_more { OnOk result
            (MeetsNoMore (I.left self.old.source) (I.left self.new.source)) }
    {
        if self.held.is_none() {
            return self.source.next_entry(alloc);
        }
        Ok(self.held.take())
    }
}

// Whether a version of the last one's key is left under it. Passes the versions that the last one
// hides, and holds the first other one.
#[inline(never)]
fn is_left_under<T: KeepsKey + Drop, I: Source<T>>(
    alloc: Global,
    source: &mut Ahead<T, I>,
    snapshots: &[SeqNo],
    last: &(LastKey<T>, SeqNo),
) -> Result<bool>
    ensures found { IfOk result (λ is_left. (xs : List T)
        → (with_held source.old.held (I.left source.old.source)).list ≡ Some xs
        → is_left ≡ is_left_under T.entry snapshots.now last.now xs) }
    ensures passed { OnOk result (PassesHidden T.entry snapshots.now last.now
        (with_held source.old.held (I.left source.old.source))
        (with_held source.new.held (I.left source.new.source))) }
    ensures cause { IfErr result (MayGive I.may_fail (I.left source.old.source)) }
    ensures no_more { OnOk result
        (MeetsNoMore (I.left source.old.source) (I.left source.new.source)) }
{
    while let Some(item) = source.take(alloc)? {
        if is_seen(snapshots, item.view().seqno()) && is_hidden(snapshots, last, &item) {
            continue;
        }
        let is_left = is_parted_from(snapshots, last, &item);
        source.held = Some(item);
        return Ok(is_left);
    }
    Ok(false)
}

// Whether a version is a tombstone at the bottom. Of a tombstone the user key is made.
#[inline(always)]
fn may_go<T: AsEntry, B: Bottom>(alloc: Global, bottom: &B, item: &T) -> Result<bool>
    ensures value { IfOk result (λ may_go. may_go
        ≡ (is_tombstone (T.entry item.now).key.value_type
        && B.at_bottom bottom.now (T.entry item.now).key.user_key)) }
    ensures memory { IsOkUnless result Memory }
{
    if !item.view().is_tombstone() {
        return Ok(false);
    }
    let user_key = item.view().to_user_key(alloc)?;
    Ok(bottom.is_bottom(user_key.as_slice()))
}

// Whether a version goes that is the last one: it is a tombstone at the bottom, and none of its key
// is left under it. Where every snapshot sees it, that needs no look ahead.
#[tactic(auto, using(crate::specs::CompactLaws::none_under))]
#[inline(always)]
fn goes<T: KeepsKey + Drop, I: Source<T>, B: Bottom>(
    alloc: Global,
    source: &mut Ahead<T, I>,
    snapshots: &[SeqNo],
    bottom: &B,
    last: &(LastKey<T>, SeqNo),
    item: &T,
) -> Result<bool>
    requires same { last.now.0 ≡ (T.entry item.now).key.user_key }
    ensures found { IfOk result (λ goes. (xs : List T)
        → (with_held source.old.held (I.left source.old.source)).list ≡ Some xs
        → goes ≡ (is_tombstone (T.entry item.now).key.value_type
        && (B.at_bottom bottom.now last.now.0
        && not (is_left_under T.entry snapshots.now last.now xs)))) }
    ensures passed { OnOk result (PassesHidden T.entry snapshots.now last.now
        (with_held source.old.held (I.left source.old.source))
        (with_held source.new.held (I.left source.new.source))) }
    ensures looks { (is_tombstone (T.entry item.now).key.value_type
        && (B.at_bottom bottom.now last.now.0
        && not (is_below_all snapshots.now last.now.1))) ≡ false → source.new ≡ source.old }
    ensures cause { IfErr result (MayGive I.may_fail (I.left source.old.source)) }
    ensures no_more { OnOk result
        (MeetsNoMore (I.left source.old.source) (I.left source.new.source)) }
{
    if !may_go(alloc, bottom, item)? {
        return Ok(false);
    }
    if is_below_all(snapshots, last.1) {
        return Ok(true);
    }
    let is_left = is_left_under(alloc, source, snapshots, last)?;
    Ok(!is_left)
}

// Takes versions from a source up to the first that stays, and notes the last one that is not
// hidden.
#[inline(always)]
fn next_staying<T: KeepsKey + Drop, I: Source<T>, B: Bottom>(
    alloc: Global,
    source: &mut Ahead<T, I>,
    snapshots: &[SeqNo],
    bottom: &B,
    last: &mut Option<(LastKey<T>, SeqNo)>,
) -> Result<Option<T>>
    ensures first { IfOk result (λ r. TakesFirst
        (left_as (compact_from T.entry snapshots.now (B.at_bottom bottom.now) last.old) None
        (with_held source.old.held (I.left source.old.source))) r
        (left_as (compact_from T.entry snapshots.now (B.at_bottom bottom.now) last.new) None
        (with_held source.new.held (I.left source.new.source)))) }
    ensures cause { IfErr result (MayGive I.may_fail (I.left source.old.source)) }
    ensures no_more { OnOk result
        (MeetsNoMore (I.left source.old.source) (I.left source.new.source)) }
{
    loop {
        // (what a `?` passes on is copied)
        let item = match source.take(alloc) {
            Ok(Some(item)) => item,
            Ok(None) => return Ok(None),
            Err(error) => return Err(error),
        };
        let seqno = item.view().seqno();
        if !is_seen(snapshots, seqno) {
            return Ok(Some(item));
        }
        if is_hidden_by(snapshots, last, &item) {
            continue;
        }
        let newest = (LastKey::of(alloc, &item)?, seqno);
        let goes = goes(alloc, source, snapshots, bottom, &newest, &item)?;
        *last = Some(newest);
        if !goes {
            return Ok(Some(item));
        }
    }
}

/// Takes the first version that stays.
impl<T: KeepsKey + Drop, I: Source<T> + Drop, B: Bottom + Drop> Source<T> for Compact<T, I, B> {
    ghost left = { λ c. c };

    ghost may_fail = { I.may_fail };

    fn next_entry(&mut self, alloc: Global) -> Result<Option<T>> {
        if let Some(error) = self.ended {
            return Err(error);
        }
        let step = next_staying(
            alloc,
            &mut self.source,
            self.snapshots.as_slice(),
            &self.bottom,
            &mut self.last,
        );
        keep_error(&mut self.ended, &step);
        step
    }
}
