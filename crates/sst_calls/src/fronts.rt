//! Tables of the fronts of an index: numbers that decide most of a search in it.
ghost use Rattle.std.specs.Prelude.{◌≡◌, ℕ, ◌*◌, ◌^◌, ◌<◌, ◌≤◌, List, length, take, drop, true};
ghost use Rattle.std.specs.Prelude.{IfSome, nat_lt, if◌then◌else◌, slice_index, slice_index_or};
ghost use Rattle.std.specs.List.Sorted.{IsNonDecreasingBy};
ghost use Rattle.sst_calls.specs.Fronts.{AreFronts, IsFront};
ghost use Rattle.sstable_blocks.specs.Lookup.{place_for};
ghost use Rattle.sstable_blocks.specs.Prelude.{Handle, IsOrdered, handles};

use sstable_blocks::table::block::heads::front_of;
use sstable_blocks::table::index_block::{HandleView, HandleViews};

// The front of what follows a prefix in a key, if the key begins with it. It has 63 bits.
fn front_behind(prefix: &[u8], key: &[u8]) -> Option<u64>
    ensures { IfSome result (λ n. IsFront prefix.now n key.now) }
{
    match key.strip_prefix(prefix) {
        Some(rest) => Some(front_of(rest) / 2),
        None => None,
    }
}

// The front of what follows a prefix in the end key of a handle that has it whole.
fn front_of_end(prefix: &[u8], handle: &HandleView<'_>) -> Option<u64>
    ensures { IfSome result (λ n. IsFront prefix.now n handle.now.end_key) }
{
    let (shared, own) = handle.key_parts();
    if !shared.is_empty() {
        return None;
    }
    front_behind(prefix, own)
}

/// Writes the fronts of the end keys of handles at the front of an array that has room for them.
/// Returns whether each begins with the prefix and lies whole in its handle: else they are not.
pub(crate) fn write_fronts(handles: HandleViews<'_>, prefix: &[u8], fronts: &mut [u64]) -> bool
    requires { length handles ≤ length fronts.old }
    ensures written { result ≡ true
        → AreFronts prefix.now (take (length handles.entry) fronts.new) handles.entry }
    ensures rest { drop (length handles.entry) fronts.new ≡ drop (length handles.entry) fronts.old }
    ensures len { length fronts.new ≡ length fronts.old }
{
    let mut at = 0;
    for handle in handles {
        let Some(front) = front_of_end(prefix, &handle) else {
            return false;
        };
        fronts[at] = front;
        at += 1;
    }
    true
}

// 1 if one number is below another, and else 0: the sign of their difference. A search that
// branched on it would mispredict every other step.
#[inline(always)]
fn is_below(a: u64, b: u64) -> u64
    requires left { a < 2 ^ 63 }
    requires right { b < 2 ^ 63 }
    ensures { result ≡ (if nat_lt a b then 1 else 0) }
{
    a.wrapping_sub(b) >> 63
}

// A number where a bit is 1, and 0 where it is 0, without a branch.
#[inline(always)]
fn times(number: usize, bit: u64) -> usize
    requires { bit ≤ 1 }
    ensures { result ≡ number * bit }
{
    number * bit as usize
}

// How many numbers that do not fall are below one.
fn count_below(numbers: &[u64], number: u64) -> usize
    requires rising { IsNonDecreasingBy (λ n. n) numbers.now }
    requires small { (i : ℕ) → i < length numbers.now → slice_index numbers.now i < 2 ^ 63 }
    requires number { number < 2 ^ 63 }
    ensures within { result ≤ length numbers.now }
    ensures below { (i d : ℕ) → i < result → slice_index_or numbers.now i d < number }
    ensures others { (i d : ℕ) → result ≤ i → i < length numbers.now
        → number ≤ slice_index_or numbers.now i d }
{
    let mut base = 0;
    let mut size = numbers.len();
    while size > 0 {
        let half = size / 2;
        base += times(size - half, is_below(numbers[base + half], number));
        size = half;
    }
    base
}

/// Returns where a search in an index for a key stops, whatever the sequence number, if the fronts
/// of its end keys say it: if none of them is the key's own.
pub(crate) fn place_by(prefix: &[u8], fronts: &[u64], key: &[u8]) -> Option<usize>
    requires { (hs : List Handle) × IsOrdered handles hs × AreFronts prefix.now fronts.now hs }
    ensures { (hs : List Handle) (seqno : ℕ) → IsOrdered handles hs
        → AreFronts prefix.now fronts.now hs
        → IfSome result (λ n. n ≡ place_for handles key.now seqno hs) }
{
    let Some(front) = front_behind(prefix, key) else {
        return None;
    };
    let place = count_below(fronts, front);
    if place < fronts.len() && fronts[place] == front {
        return None;
    }
    Some(place)
}
