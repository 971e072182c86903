//! How many bytes entries take in a data block.
ghost use Rattle.std.specs.Prelude.{◌≡◌, ◌+◌, ◌%◌, ◌<◌, ◌≤◌, ◌^◌, ◌++◌, ◌∷◌, [], ℕ, length, map};
ghost use Rattle.sstable_blocks.specs.Prelude.{varint, item_form, truncated_against, entries, full};
ghost use Rattle.sstable_blocks.specs.Prelude.{truncated, value_part};

use sstable_blocks::coding::MAX_VARINT_LEN;
use sstable_blocks::in_place::put_varint;
use sstable_blocks::{AsEntry, EntryView, ValueType};

// How many bytes a number takes as a varint.
#[inline(always)]
#[tactic(auto, using(crate::specs::SizeLaws::one_byte, crate::specs::SizeLaws::two_bytes, crate::specs::SizeLaws::three_bytes))]
fn varint_len(n: u64) -> usize
    ensures value { result ≡ length (varint n) }
    ensures most { result ≤ 10 }
{
    if n < 1 << 7 {
        1
    } else if n < 1 << 14 {
        2
    } else if n < 1 << 21 {
        3
    } else {
        put_varint(&mut [0u8; MAX_VARINT_LEN], 0, n)
    }
}

// How many bytes an entry's value takes, with its length: none for a tombstone.
#[inline(always)]
fn value_len(entry: &EntryView<'_>) -> usize
    ensures value { result ≡ length (value_part entry.now.key.value_type entry.now.value) }
    ensures most { result < 2 ^ 33 }
{
    // The entry is within its limits.
    let _limits = entry.key_parts();
    match entry.value_type() {
        ValueType::Tombstone | ValueType::WeakTombstone => 0,
        ValueType::Value | ValueType::Indirection => {
            let len = entry.value().len();
            varint_len(len as u64) + len
        }
    }
}

// How many bytes an entry takes at the head of a restart interval.
#[inline(always)]
#[tactic(auto, unfolding(sst_block_core::specs::Entries::full))]
fn full_len(entry: &EntryView<'_>) -> usize
    ensures value { result ≡ length (full entry.now) }
    ensures most { result < 2 ^ 34 }
{
    let key_len = entry.key_len();
    let fields = 1 + varint_len(entry.seqno());
    fields + varint_len(key_len as u64) + key_len + value_len(entry)
}

// How many bytes an entry takes after a head with which its key shares so many bytes.
#[inline(always)]
#[tactic(auto, unfolding(sst_block_core::specs::Entries::truncated))]
fn truncated_len(entry: &EntryView<'_>, shared: usize) -> usize
    requires { shared ≤ length entry.now.key.user_key }
    ensures value { result ≡ length (truncated entry.now shared) }
    ensures most { result < 2 ^ 34 }
{
    let rest = entry.key_len() - shared;
    let fields = 1 + varint_len(entry.seqno()) + varint_len(shared as u64);
    fields + varint_len(rest as u64) + rest + value_len(entry)
}

// How many bytes an entry takes after a head, without what their keys share.
#[inline(always)]
#[tactic(auto, using(sst_base::specs::SharedPrefixLaws::shared_prefix_inside))]
fn len_behind(head: &EntryView<'_>, entry: &EntryView<'_>) -> usize
    ensures value { result ≡ length (truncated_against entries head.now entry.now) }
    ensures most { result < 2 ^ 34 }
{
    truncated_len(entry, head.shared_key_len(entry))
}

/// Returns the index in its restart interval of the entry after one with this index.
#[inline(always)]
#[tactic(auto, using(sstable_blocks::specs::BlockLaws::next_in_interval))]
pub(crate) fn next_phase(phase: u8, interval: u8) -> u8
    requires { phase < interval }
    ensures phase { (n : ℕ) → phase ≡ n % interval → result ≡ (n + 1) % interval }
    ensures below { result < interval }
{
    if phase + 1 == interval { 0 } else { phase + 1 }
}

/// Returns how many bytes an entry takes in a data block with this restart interval, after these
/// entries: of its key those that the head of its interval has not. `phase` is its index in the
/// interval.
#[inline(always)]
pub(crate) fn form_len<T: AsEntry>(block: &[T], entry: &T, phase: u8, interval: u8) -> usize
    requires phase { phase ≡ length block.now % interval }
    requires interval { phase < interval }
    ensures value { result ≡ length (item_form entries interval
        (map T.entry block.now ++ T.entry entry.now ∷ []) (length block.now) (T.entry entry.now)) }
    ensures most { result < 2 ^ 34 }
{
    if phase == 0 {
        return full_len(&entry.view());
    }
    match block.get(block.len() - usize::from(phase)) {
        Some(head) => len_behind(&head.view(), &entry.view()),
        None => full_len(&entry.view()),
    }
}
