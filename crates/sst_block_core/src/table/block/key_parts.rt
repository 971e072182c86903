//! Keys in two parts, the first of which may be empty: nothing is joined to compare them.
ghost use Rattle.std.specs.Prelude.{◌≡◌, ◌≤◌, ◌++◌, length, IfOk};
ghost use Rattle.std.specs.Ordering.{nat_cmp};
ghost use Rattle.std.specs.Cmp.Lexicographic.{slice_cmp};
ghost use Rattle.sst_base.specs.SharedPrefix.{shared_prefix_length};

use sst_base::table::util::{compare_bytes, compare_prefixed_slice, longest_shared_prefix_length};
use sst_base::{AllocResult, BlockHash, Slice};
use std::alloc::{AllocError, Global};
use std::cmp::Ordering;

/// The bytes that a key shares with the head of its restart interval, none where it is held whole,
/// and the bytes after them.
pub type KeyParts<'a> = (&'a [u8], &'a [u8]);

// Compares two keys. The first one's first part is at least as long as the second's.
fn compare_longer(longer: KeyParts<'_>, shorter: KeyParts<'_>) -> Ordering
    requires { length shorter.0.now ≤ length longer.0.now }
    ensures { result
        ≡ slice_cmp nat_cmp (longer.entry.0.now ++ longer.entry.1.now) (shorter.entry.0.now ++
        shorter.entry.1.now) }
{
    let (front, more) = longer.0.split_at(shorter.0.len());
    match compare_bytes(front, shorter.0) {
        Ordering::Equal => compare_prefixed_slice(more, longer.1, shorter.1),
        decided => decided,
    }
}

/// Compares two keys bytewise.
pub fn compare_parts(key: KeyParts<'_>, other: KeyParts<'_>) -> Ordering
    ensures { result
        ≡ slice_cmp nat_cmp (key.entry.0.now ++ key.entry.1.now) (other.entry.0.now ++
        other.entry.1.now) }
{
    if key.0.len() < other.0.len() {
        compare_longer(other, key).reverse()
    } else {
        compare_longer(key, other)
    }
}

// The length of the longest prefix that a key shares with a byte string.
#[tactic(auto, using(crate::proofs::Writing::SharedParts::shared_before, crate::proofs::Writing::SharedParts::shared_behind, sst_base::specs::SharedPrefixLaws::shared_prefix_inside))]
fn shared_with(key: KeyParts<'_>, whole: &[u8]) -> usize
    ensures { result ≡ shared_prefix_length (key.entry.0.now ++ key.entry.1.now) whole.now }
{
    // A slice has fewer than 2^63 bytes.
    let _fits = whole.len();
    let shared = longest_shared_prefix_length(key.0, whole);
    if shared < key.0.len() {
        return shared;
    }
    let (_, behind) = whole.split_at(shared);
    shared + longest_shared_prefix_length(key.1, behind)
}

// The length of the longest prefix that two keys share. The first one's first part is at least as
// long as the second's.
#[tactic(auto, using(crate::proofs::Writing::SharedParts::cut_before, crate::proofs::Writing::SharedParts::cut_behind, sst_base::specs::SharedPrefixLaws::shared_prefix_inside))]
fn shared_longer(longer: KeyParts<'_>, shorter: KeyParts<'_>) -> usize
    requires { length shorter.0.now ≤ length longer.0.now }
    ensures { result ≡ shared_prefix_length (longer.entry.0.now ++ longer.entry.1.now)
        (shorter.entry.0.now ++ shorter.entry.1.now) }
{
    // A slice has fewer than 2^63 bytes.
    let _fits = shorter.1.len();
    let (front, more) = longer.0.split_at(shorter.0.len());
    let shared = longest_shared_prefix_length(front, shorter.0);
    if shared < front.len() {
        return shared;
    }
    shared + shared_with((more, longer.1), shorter.1)
}

// The length of the longest prefix that two keys share, of which one is in two parts.
#[inline(never)]
#[tactic(auto, using(crate::proofs::Writing::SharedParts::shared_turned))]
fn shared_apart(key: KeyParts<'_>, other: KeyParts<'_>) -> usize
    ensures { result
        ≡ shared_prefix_length (key.entry.0.now ++ key.entry.1.now) (other.entry.0.now ++
        other.entry.1.now) }
{
    if key.0.len() < other.0.len() {
        shared_longer(other, key)
    } else {
        shared_longer(key, other)
    }
}

/// Returns the length of the longest prefix that two keys share.
#[inline(always)]
pub fn shared_len(key: KeyParts<'_>, other: KeyParts<'_>) -> usize
    ensures { result
        ≡ shared_prefix_length (key.entry.0.now ++ key.entry.1.now) (other.entry.0.now ++
        other.entry.1.now) }
{
    if key.0.is_empty() && other.0.is_empty() {
        return longest_shared_prefix_length(key.1, other.1);
    }
    shared_apart(key, other)
}

/// Returns the 64-bit hash of a key. It is joined only where its first part is not empty and the
/// hash function can't be continued, and takes memory only where it is then too long for a short
/// byte string.
///
/// # Errors
///
/// `AllocError` if an allocation fails.
#[inline(always)]
pub fn hash_parts<H: BlockHash>(alloc: Global, key: KeyParts<'_>) -> AllocResult<u64>
    ensures { IfOk result (λ hash. hash ≡ H.hash64 (key.entry.0.now ++ key.entry.1.now)) }
{
    if key.0.is_empty() {
        return Ok(H::hash64(key.1));
    }
    if let Some(hash) = H::hash64_behind(H::hash64(key.0), key.1) {
        return Ok(hash);
    }
    match Slice::fused(alloc, key.0, key.1) {
        Ok(key) => Ok(H::hash64(key.as_slice())),
        Err(_) => Err(AllocError),
    }
}
