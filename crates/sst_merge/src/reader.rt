//! Point reads over several tables.
ghost use Rattle.std.specs.Prelude.{◌≡◌, ◌⊎◌, ℕ, List, Option, Some, map, take, drop, IfErr, IfOk};
ghost use Rattle.std.specs.Prelude.{IfSome};
ghost use Rattle.sst_merge.specs.Counts.{OneFails, most_of};
ghost use Rattle.sst_merge.specs.Levels.{AreLevels, asked};
ghost use Rattle.sst_sources.specs.Merge.{entry_cmp, lesser, merged};
ghost use Rattle.sst_sources.specs.Sources.{all_known};
ghost use Rattle.sstable_blocks.specs.Prelude.{CountsBetween, Entry, entries, IsOrdered};
ghost use Rattle.sstable_blocks.specs.Prelude.{first_match};
ghost use Rattle.sstable_blocks.specs.Results.{Error, Memory};

use sst_sources::Reader;
use sstable_blocks::{InternalValue, Result, SeqNo, Steps};
use std::alloc::Global;

// Of two first matches, either of which may be wanting, the lesser, and of equal ones the first.
fn lesser(first: Option<InternalValue>, second: Option<InternalValue>) -> Option<InternalValue>
    ensures { result ≡ lesser entry_cmp first second }
{
    match (first, second) {
        (Some(a), Some(b)) => {
            if b.key().cmp(a.key()).is_lt() {
                Some(b)
            } else {
                Some(a)
            }
        }
        (Some(a), None) => Some(a),
        (None, b) => b,
    }
}

/// Returns the first entry with this key whose sequence number is strictly below `seqno`, of all
/// readers: that of their ordered merge. Of equal entries that of the earlier reader is returned,
/// so newer tables come first. What is examined is added to `steps`: at most what the readers may
/// count together, also where one fails.
///
/// # Errors
///
/// The first one met, from the last reader to the first.
pub fn read_tables<R: Reader>(
    alloc: Global,
    readers: &mut [R],
    needle: &[u8],
    seqno: SeqNo,
    steps: &mut Steps,
) -> Result<Option<InternalValue>>
    ensures found { (lists : List (List Entry)) → all_known (map R.list readers.old) ≡ Some lists
        → IfOk result (λ found. found
        ≡ first_match entries needle.now seqno (merged entry_cmp lists)) }
    ensures kept { map R.list readers.new ≡ map R.list readers.old }
    ensures counts { (mosts : List (ℕ × ℕ))
        → all_known (map (λ r. R.most r needle.now seqno) readers.old) ≡ Some mosts
        → CountsBetween steps.old steps.new (0, 0) (most_of mosts) }
    ensures cause { IfErr result (λ e. (e ≡ Memory)
        ⊎ OneFails (λ r. R.may_fail r needle.now seqno e) readers.old) }
{
    let mut best = None;
    let mut i = readers.len();
    while i > 0 {
        i -= 1;
        let found = readers[i].get(alloc, needle, seqno, steps)?;
        best = lesser(found, best);
    }
    Ok(best)
}

/// Returns the first entry with this key whose sequence number is strictly below `seqno`, of
/// readers that are levels: of no key has a reader a version newer than one of a reader before it,
/// as newer tables of a store that come first. So the first reader that has such an entry decides,
/// and none after it is asked. What is examined is added to `steps`.
///
/// # Errors
///
/// The first one met, from the first reader on.
pub fn read_levels<R: Reader>(
    alloc: Global,
    readers: &mut [R],
    needle: &[u8],
    seqno: SeqNo,
    steps: &mut Steps,
) -> Result<Option<InternalValue>>
    requires { (lists : List (List Entry)) → all_known (map R.list readers.old) ≡ Some lists
        → AreLevels lists }
    ensures found { (lists : List (List Entry)) → all_known (map R.list readers.old) ≡ Some lists
        → IfOk result (λ found. found
        ≡ first_match entries needle.now seqno (merged entry_cmp lists)) }
    ensures kept { map R.list readers.new ≡ map R.list readers.old }
    ensures stops { (lists : List (List Entry)) → all_known (map R.list readers.old) ≡ Some lists
        → drop (asked needle.now seqno lists) readers.new
        ≡ drop (asked needle.now seqno lists) readers.old }
    ensures counts { (lists : List (List Entry)) (mosts : List (ℕ × ℕ))
        → all_known (map R.list readers.old) ≡ Some lists
        → all_known (map (λ r. R.most r needle.now seqno) readers.old) ≡ Some mosts
        → CountsBetween steps.old steps.new (0, 0)
        (most_of (take (asked needle.now seqno lists) mosts)) }
    ensures cause { IfErr result (λ e. (e ≡ Memory)
        ⊎ OneFails (λ r. R.may_fail r needle.now seqno e) readers.old) }
{
    for i in 0..readers.len() {
        if let Some(found) = readers[i].get(alloc, needle, seqno, steps)? {
            return Ok(Some(found));
        }
    }
    Ok(None)
}
