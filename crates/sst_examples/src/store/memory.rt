//! The versions in memory, an ordered list.
ghost use Rattle.std.specs.Prelude.{◌≡◌, ◌≤◌, ◌∷◌, [], length};
ghost use Rattle.std.specs.List.{insert};
ghost use Rattle.std.specs.Option.{option_map};
ghost use Rattle.sst_examples.specs.Levels.{ArePlain};
ghost use Rattle.sst_sources.specs.Merge.{entry_cmp, merge};
ghost use Rattle.sst_merge.specs.Snapshot.{seen};
ghost use Rattle.sstable_blocks.specs.Prelude.{entries, first_match, is_version};

use sst_merge::Ranked;
use sstable_blocks::{AsEntry, InternalValue, SeqNo};

// The index at which a version goes into an ordered list: before the first one that does not sort
// before it.
pub(crate) fn place_of(memory: &[InternalValue], entry: &InternalValue) -> usize
    ensures inside { result ≤ length memory.now }
    ensures place { insert memory.now result entry.now
        ≡ merge entry_cmp (entry.now ∷ []) memory.now }
{
    for (at, held) in memory.iter().enumerate() {
        if !held.compare(entry).is_lt() {
            return at;
        }
    }
    memory.len()
}

// Whether an entry is a version of a key below a sequence number.
fn is_version(entry: &InternalValue, key: &[u8], seqno: SeqNo) -> bool
    ensures { result ≡ is_version entries key.now seqno entry.now }
{
    entry.key().seqno() < seqno && entry.key().user_key().cmp_bytes(key).is_eq()
}

// The first version of a key below a sequence number.
pub(crate) fn newest<'a>(
    memory: &'a [InternalValue],
    key: &[u8],
    seqno: SeqNo,
) -> Option<&'a InternalValue>
    requires { ArePlain memory.now }
    ensures { option_map (λ r. r.now) result ≡ first_match entries key.now seqno memory.now }
{
    for entry in memory {
        if is_version(entry, key, seqno) {
            return Some(entry);
        }
    }
    None
}

// What a read sees of the first match: none of a tombstone.
pub(crate) fn shown(found: Option<InternalValue>) -> Option<InternalValue>
    ensures { result ≡ seen found }
{
    match found {
        Some(entry) if !entry.view().is_tombstone() => Some(entry),
        _ => None,
    }
}
