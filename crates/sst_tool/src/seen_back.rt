//! What a read sees, from the last key to the first.
ghost use Rattle.std.specs.Prelude.{◌≡◌, ◌+◌, ◌≤◌, if◌then◌else◌, None, Some};
ghost use Rattle.std.specs.Prelude.{IfErr, IfOk, OnOk};
ghost use Rattle.sst_sources.specs.Sources.{MayGive, MeetsNoMore, step_errors};
ghost use Rattle.sst_tool.specs.Back.{is_same_key, newest_below};
ghost use Rattle.sstable_blocks.specs.Prelude.{found_item};

use sst_sources::{Source, keep_error};
use sstable_blocks::{Error, InternalValue, Result, SeqNo};
use std::alloc::Global;

/// What a read below a sequence number sees of a source from the back, where the versions of a key
/// come from the oldest to the newest.
#[derive(Drop)]
pub struct SeenBack<I> {
    source: I,
    at: SeqNo,
    // the newest version so far, below the sequence number, of the key that is passed
    newest: Option<InternalValue>,
    ended: Option<Error>,
}

// Whether an entry is a version of the key of the one kept, if one is.
fn is_same_key(kept: &Option<InternalValue>, entry: &InternalValue) -> bool
    ensures { result ≡ is_same_key kept.now entry.now }
{
    match kept {
        Some(kept) => entry.key().user_key().cmp(kept.key().user_key()).is_eq(),
        None => true,
    }
}

// Notes an entry as the newest one, if a read sees it.
fn note_seen(newest: &mut Option<InternalValue>, entry: InternalValue, is_seen: bool)
    ensures { newest.new ≡ (if is_seen then Some entry else newest.old) }
{
    if is_seen {
        *newest = Some(entry);
    }
}

// Passes an entry: notes the newest version so far of its key below a sequence number. Returns that
// of the key before, if this is another key.
fn pass_back(
    at: SeqNo,
    newest: &mut Option<InternalValue>,
    entry: InternalValue,
) -> Option<InternalValue>
    ensures newest { newest.new ≡ newest_below at newest.old entry }
    ensures passed { result ≡ (if is_same_key newest.old entry then None else newest.old) }
{
    let is_seen = entry.key().seqno() < at;
    if is_same_key(newest, &entry) {
        note_seen(newest, entry, is_seen);
        return None;
    }
    let passed = newest.take();
    note_seen(newest, entry, is_seen);
    passed
}

// A version that a read sees, if it is not a tombstone.
fn value_of(newest: Option<InternalValue>) -> Option<InternalValue>
    ensures { found_item result ≤ found_item newest }
{
    match newest {
        Some(entry) if entry.is_tombstone() => None,
        newest => newest,
    }
}

// Takes entries of a source up to one of a key after one of which a read sees a value.
fn next_seen<I: Source<InternalValue>>(
    alloc: Global,
    source: &mut I,
    at: SeqNo,
    newest: &mut Option<InternalValue>,
) -> Result<Option<InternalValue>>
    ensures less { IfOk result (λ r. found_item newest.new + (I.left source.new).most
        + found_item r ≤ found_item newest.old + (I.left source.old).most) }
    ensures cause { IfErr result (MayGive I.may_fail (I.left source.old)) }
    ensures no_more { OnOk result (MeetsNoMore (I.left source.old) (I.left source.new)) }
{
    while let Some(entry) = source.next_entry(alloc)? {
        let passed = value_of(pass_back(at, newest, entry));
        if passed.is_some() {
            return Ok(passed);
        }
    }
    Ok(value_of(newest.take()))
}

impl<I> SeenBack<I> {
    /// Reads below a sequence number.
    pub fn new(source: I, at: SeqNo) -> SeenBack<I> {
        SeenBack {
            source,
            at,
            newest: None,
            ended: None,
        }
    }
}

/// Takes the next value that the read sees.
impl<I: Source<InternalValue>> Source<InternalValue> for SeenBack<I> {
    ghost left = { λ s. record {
      list = None;
      most = found_item s.newest + (I.left s.source).most;
      errors = step_errors (I.left s.source);
      ended = s.ended;
    } };

    ghost may_fail = { I.may_fail };

    fn next_entry(&mut self, alloc: Global) -> Result<Option<InternalValue>> {
        if let Some(error) = self.ended {
            return Err(error);
        }
        let next = next_seen(alloc, &mut self.source, self.at, &mut self.newest);
        keep_error(&mut self.ended, &next);
        next
    }
}
