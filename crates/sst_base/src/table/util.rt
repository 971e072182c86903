//! Comparisons of byte strings.
ghost use Rattle.std.specs.Prelude.{◌≡◌, ◌+◌, ◌-◌, ◌≤◌, ◌++◌, length, take, drop, min};
ghost use Rattle.std.specs.Ordering.{nat_cmp};
ghost use Rattle.std.specs.Cmp.Lexicographic.{slice_cmp};
ghost use Rattle.byteorder.specs.Endian.{big_number};
ghost use Rattle.sst_base.specs.SharedPrefix.{shared_prefix_length};

use byteorder::{BigEndian, ByteOrder};
use std::cmp::Ordering;

/// A range of a byte string: its start and its end, the end not included.
#[derive(Clone, Copy, Debug, PartialEq, Eq)]
pub struct SliceIndexes(pub usize, pub usize);

// The eight bytes at an offset as a big-endian number.
#[inline(always)]
fn word_at(bytes: &[u8], at: usize) -> u64
    requires { at + 8 ≤ length bytes.now }
    ensures { result ≡ big_number 8 (drop at bytes.now) }
{
    let (_, rest) = bytes.split_at(at);
    BigEndian::read_u64(rest)
}

// The same as `compare_bytes`, a byte a step: for strings one of which has less than eight bytes.
#[tactic(auto, using(crate::proofs::Strings::Orders::tails_same, crate::proofs::Strings::Orders::tails_differ, crate::proofs::Strings::Orders::tails_end))]
fn compare_tails(a: &[u8], b: &[u8]) -> Ordering
    ensures { result ≡ slice_cmp nat_cmp a.now b.now }
{
    let end = a.len().min(b.len());
    for i in 0..end {
        if a[i] != b[i] {
            return a[i].cmp(&b[i]);
        }
    }
    a.len().cmp(&b.len())
}

// Compares two byte strings of at least eight bytes by the last eight of the shorter length, where
// those before them are the same.
#[inline(always)]
fn compare_last_words(a: &[u8], b: &[u8], end: usize) -> Ordering
    requires end { end ≡ min (length a.now) (length b.now) }
    requires word { 8 ≤ end }
    requires same { take (end - 8) a.now ≡ take (end - 8) b.now }
    ensures { result ≡ slice_cmp nat_cmp a.now b.now }
{
    let x = word_at(a, end - 8);
    let y = word_at(b, end - 8);
    if x != y {
        return x.cmp(&y);
    }
    a.len().cmp(&b.len())
}

/// Compares two byte strings bytewise: by the first byte in which they differ, else by length.
pub fn compare_bytes(a: &[u8], b: &[u8]) -> Ordering
    ensures { result ≡ slice_cmp nat_cmp a.now b.now }
{
    let end = a.len().min(b.len());
    let words = end / 8;
    for i in 0..words {
        let x = word_at(a, 8 * i);
        let y = word_at(b, 8 * i);
        if x != y {
            return x.cmp(&y);
        }
    }
    if words == 0 {
        compare_tails(a, b)
    } else {
        compare_last_words(a, b, end)
    }
}

// The same as `longest_shared_prefix_length`, a byte a step.
#[tactic(auto, using(crate::proofs::Strings::Shared::shared_step, crate::proofs::Strings::Shared::shared_stop, crate::proofs::Strings::Shared::shared_end))]
fn shared_bytes(a: &[u8], b: &[u8]) -> usize
    ensures value { result ≡ shared_prefix_length a.now b.now }
    ensures inside { result ≤ length a.now }
{
    let end = a.len().min(b.len());
    for i in 0..end {
        if a[i] != b[i] {
            return i;
        }
    }
    end
}

/// Returns the length of the longest shared prefix of two byte strings.
pub fn longest_shared_prefix_length(a: &[u8], b: &[u8]) -> usize
    ensures { result ≡ shared_prefix_length a.now b.now }
{
    let words = a.len().min(b.len()) / 8;
    for i in 0..words {
        let difference = word_at(a, 8 * i) ^ word_at(b, 8 * i);
        if difference != 0 {
            return 8 * i + (difference.leading_zeros() / 8) as usize;
        }
    }
    let (_, left) = a.split_at(8 * words);
    let (_, right) = b.split_at(8 * words);
    8 * words + shared_bytes(left, right)
}

/// Compares a prefix followed by a suffix with a needle, bytewise, without joining the two. Takes
/// no memory.
pub fn compare_prefixed_slice(prefix: &[u8], suffix: &[u8], needle: &[u8]) -> Ordering
    ensures { result ≡ slice_cmp nat_cmp (prefix.now ++ suffix.now) needle.now }
{
    if needle.len() <= prefix.len() {
        let (front, rest) = prefix.split_at(needle.len());
        let longer = rest.len() + suffix.len();
        return compare_bytes(front, needle).then(longer.cmp(&0));
    }
    let (front, rest) = needle.split_at(prefix.len());
    match compare_bytes(prefix, front) {
        Ordering::Equal => compare_bytes(suffix, rest),
        decided => decided,
    }
}
