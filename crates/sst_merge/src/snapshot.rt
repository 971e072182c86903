//! What a snapshot sees of ordered versions.
ghost use Rattle.std.specs.Prelude.{◌≡◌, IfErr, IfOk, OnOk, None};
ghost use Rattle.sst_merge.specs.Snapshot.{snapshot, visible_from, has_last_key};
ghost use Rattle.sst_sources.specs.Sources.{MayGive, MeetsNoMore, TakesFirst, left_as};

use crate::kept_key::{KeepsKey, LastKey};
use sst_sources::{Source, keep_error};
use sstable_blocks::{Error, Result, SeqNo};
use std::alloc::Global;
use std::marker::{Model, PhantomData};

/// Of each user key the newest version with a sequence number strictly below the snapshot's, unless
/// it is a tombstone. The last user key is kept ([`KeepsKey`]): of a view where it is, so nothing is
/// copied. An error ends the view: each later step returns it again. Clauses see the versions left,
/// where those of the source are known, and the error that ended the view, if one did.
#[derive(Drop)]
pub struct Snapshot<T: KeepsKey, I: Source<T>> {
    source: I,
    seqno: SeqNo,
    last: Option<LastKey<T>>,
    ended: Option<Error>,
    versions: PhantomData<T>,
}

impl<T: KeepsKey, I: Source<T>> Model for Snapshot<T, I> {
    ghost use Rattle.sst_merge.specs.Snapshot.{visible_from};
    ghost use Rattle.sst_sources.specs.Sources.{Left, left_as};

    ghost Value = { Left T };

    ghost view = { λ s. left_as (visible_from T.entry s.seqno s.last) s.ended
        (I.left s.source) };
}

// Whether a version has the last key.
pub(crate) fn has_last_key<T: KeepsKey>(last: &Option<LastKey<T>>, item: &T) -> bool
    ensures { result ≡ has_last_key T.entry last.now item.now }
{
    match last {
        Some(last) => last.is_of(item),
        None => false,
    }
}

impl<T: KeepsKey, I: Source<T>> Snapshot<T, I> {
    /// Makes the view of ordered versions at a sequence number: what a read at it sees.
    pub fn new(source: I, seqno: SeqNo) -> Snapshot<T, I>
        ensures { result ≡ left_as (snapshot T.entry seqno) None (I.left source) }
    {
        Snapshot {
            source,
            seqno,
            last: None,
            ended: None,
            versions: PhantomData,
        }
    }
}

// Takes versions from a source up to the first that a snapshot sees, and notes the key of the
// newest one below its sequence number.
#[inline(always)]
fn next_seen<T: KeepsKey + Drop, I: Source<T>>(
    alloc: Global,
    source: &mut I,
    seqno: SeqNo,
    last: &mut Option<LastKey<T>>,
) -> Result<Option<T>>
    ensures first { IfOk result (λ r.
        TakesFirst (left_as (visible_from T.entry seqno last.old) None (I.left source.old)) r
        (left_as (visible_from T.entry seqno last.new) None (I.left source.new))) }
    ensures cause { IfErr result (MayGive I.may_fail (I.left source.old)) }
    ensures no_more { OnOk result (MeetsNoMore (I.left source.old) (I.left source.new)) }
{
    while let Some(item) = source.next_entry(alloc)? {
        if item.view().seqno() >= seqno || has_last_key(last, &item) {
            continue;
        }
        *last = Some(LastKey::of(alloc, &item)?);
        if !item.view().is_tombstone() {
            return Ok(Some(item));
        }
    }
    Ok(None)
}

/// Takes the first version that the snapshot sees.
impl<T: KeepsKey + Drop, I: Source<T> + Drop> Source<T> for Snapshot<T, I> {
    ghost left = { λ s. s };

    ghost may_fail = { I.may_fail };

    fn next_entry(&mut self, alloc: Global) -> Result<Option<T>> {
        if let Some(error) = self.ended {
            return Err(error);
        }
        let step = next_seen(alloc, &mut self.source, self.seqno, &mut self.last);
        keep_error(&mut self.ended, &step);
        step
    }
}
