//! The order of two keys by their ranges of a payload.
ghost use Rattle.std.specs.Prelude.{◌≡◌, ◌≢◌, ◌↔◌, ◌+◌, ◌≤◌, ◌++◌};
ghost use Rattle.std.specs.Prelude.{[], ℕ, List, length, take, drop, IsTrue, IfSome};
ghost use Rattle.std.specs.Ordering.{nat_cmp};
ghost use Rattle.std.specs.Cmp.Lexicographic.{slice_cmp};
ghost use Rattle.std.specs.declared.cmp.Ordering.TheVariants.{Less};
ghost use Rattle.sst_block_core.specs.KeyRanges.{key_by, IsKeyRanges, version_cmp, least_version};

use crate::table::block::key_ranges::bytes_of;
use byteorder::{BigEndian, ByteOrder};
use sst_base::table::util::{SliceIndexes, compare_bytes, compare_prefixed_slice};
use std::cmp::Ordering;

/// A key by its ranges of a payload: the bytes that it shares with its interval's head, none in a
/// full form, and its own bytes after them.
#[derive(Clone, Copy)]
pub struct KeyRanges {
    pub prefix: SliceIndexes,
    pub rest: SliceIndexes,
}

/// The key and the sequence number of an item, which decide its place in the order.
#[derive(Clone, Copy)]
pub struct KeyVersion {
    pub key: KeyRanges,
    pub seqno: u64,
}

// The same as `compare_bytes`, out of line.
#[cold]
#[inline(never)]
fn compare_whole(a: &[u8], b: &[u8]) -> Ordering
    ensures { result ≡ slice_cmp nat_cmp a.now b.now }
{
    compare_bytes(a, b)
}

// Compares a byte string that begins with these bytes with another by their first bytes. Returns
// `None` where these do not decide.
#[inline(always)]
#[tactic(auto, using(crate::proofs::Check::KeyOrders::first_decides))]
fn compare_first(more: &[u8], rest: &[u8]) -> Option<Ordering>
    ensures { IfSome result
        (λ o. (tail : List ℕ) → o ≡ slice_cmp nat_cmp (more.now ++ tail) rest.now) }
{
    if more.is_empty() || rest.is_empty() {
        return None;
    }
    if more[0] == rest[0] {
        return None;
    }
    Some(more[0].cmp(&rest[0]))
}

// Compares two byte strings bytewise. The first four bytes mostly decide, or the first of fewer.
#[inline(always)]
fn compare_rests(a: &[u8], b: &[u8]) -> Ordering
    ensures { result ≡ slice_cmp nat_cmp a.now b.now }
{
    if a.len() >= 4 && b.len() >= 4 {
        let x = BigEndian::read_u32(a);
        let y = BigEndian::read_u32(b);
        if x != y {
            return x.cmp(&y);
        }
    } else if let Some(decided) = compare_first(a, b) {
        return decided;
    }
    compare_whole(a, b)
}

// Compares two byte strings of one length at these offsets. At one offset they are the same and are
// not compared.
#[inline(always)]
fn compare_prefixes(payload: &[u8], a: usize, b: usize, len: usize) -> Ordering
    requires left { a + len ≤ length payload.now }
    requires right { b + len ≤ length payload.now }
    ensures { result
        ≡ slice_cmp nat_cmp (take len (drop a payload.now)) (take len (drop b payload.now)) }
{
    if a == b {
        return Ordering::Equal;
    }
    if len == 0 {
        return Ordering::Equal;
    }
    let (_, left) = payload.split_at(a);
    let (left, _) = left.split_at(len);
    let (_, right) = payload.split_at(b);
    let (right, _) = right.split_at(len);
    compare_bytes(left, right)
}

// The same as `compare_keys`, whatever the prefixes are. Out of line.
#[cold]
#[inline(never)]
fn compare_apart(payload: &[u8], a: KeyRanges, b: KeyRanges) -> Ordering
    requires left { IsKeyRanges payload.now a }
    requires right { IsKeyRanges payload.now b }
    ensures { result ≡ slice_cmp nat_cmp (key_by payload.now a) (key_by payload.now b) }
{
    let left = a.prefix.1 - a.prefix.0;
    let right = b.prefix.1 - b.prefix.0;
    let left_rest = bytes_of(payload, &a.rest);
    let right_rest = bytes_of(payload, &b.rest);
    if left == right {
        return match compare_prefixes(payload, a.prefix.0, b.prefix.0, left) {
            Ordering::Equal => compare_bytes(left_rest, right_rest),
            decided => decided,
        };
    }
    if left < right {
        match compare_prefixes(payload, a.prefix.0, b.prefix.0, left) {
            Ordering::Equal => {
                let more = bytes_of(payload, &SliceIndexes(b.prefix.0 + left, b.prefix.1));
                compare_prefixed_slice(more, right_rest, left_rest).reverse()
            }
            decided => decided,
        }
    } else {
        match compare_prefixes(payload, a.prefix.0, b.prefix.0, right) {
            Ordering::Equal => {
                let more = bytes_of(payload, &SliceIndexes(a.prefix.0 + right, a.prefix.1));
                compare_prefixed_slice(more, left_rest, right_rest)
            }
            decided => decided,
        }
    }
}

// Compares two keys whose prefixes begin at one place, by the bytes after the shorter prefix.
// Returns `None` where these do not decide.
#[inline(always)]
fn compare_behind(payload: &[u8], a: &KeyRanges, b: &KeyRanges) -> Option<Ordering>
    requires left { IsKeyRanges payload.now a.now }
    requires right { IsKeyRanges payload.now b.now }
    requires place { a.now.prefix.0 ≡ b.now.prefix.0 }
    ensures { IfSome result
        (λ o. o ≡ slice_cmp nat_cmp (key_by payload.now a.now) (key_by payload.now b.now)) }
{
    if a.prefix.1 < b.prefix.1 {
        let more = bytes_of(payload, &SliceIndexes(a.prefix.1, b.prefix.1));
        let decided = compare_first(more, bytes_of(payload, &a.rest))?;
        Some(decided.reverse())
    } else {
        let more = bytes_of(payload, &SliceIndexes(b.prefix.1, a.prefix.1));
        compare_first(more, bytes_of(payload, &b.rest))
    }
}

/// Compares two keys by their ranges. Nothing is joined, and what both share with one head is not
/// compared.
#[inline(always)]
pub(crate) fn compare_keys(payload: &[u8], a: &KeyRanges, b: &KeyRanges) -> Ordering
    requires left { IsKeyRanges payload.now a.now }
    requires right { IsKeyRanges payload.now b.now }
    ensures { result ≡ slice_cmp nat_cmp (key_by payload.now a.now) (key_by payload.now b.now) }
{
    if a.prefix.0 == b.prefix.0 {
        if a.prefix.1 == b.prefix.1 {
            return compare_rests(bytes_of(payload, &a.rest), bytes_of(payload, &b.rest));
        }
        if let Some(decided) = compare_behind(payload, a, b) {
            return decided;
        }
    }
    compare_apart(payload, *a, *b)
}

impl KeyVersion {
    /// Returns the empty key with the greatest sequence number: no item sorts before it.
    #[inline(always)]
    pub(crate) fn least() -> KeyVersion
        ensures { result ≡ least_version }
    {
        KeyVersion {
            key: KeyRanges {
                prefix: SliceIndexes(0, 0),
                rest: SliceIndexes(0, 0),
            },
            seqno: u64::MAX,
        }
    }

    // Returns `true` only if this is the version of `least`, before which no item sorts.
    #[inline(always)]
    fn is_least(&self) -> bool
        ensures key { IsTrue result → (payload : List ℕ)
            → key_by payload self.now.key ≡ [] }
        ensures seqno { IsTrue result → self.now.seqno ≡ 18446744073709551615 }
    {
        self.key.prefix.1 == 0 && self.key.rest.1 == 0 && self.seqno == u64::MAX
    }
}

/// Returns whether a version does not sort before the last one.
#[inline(always)]
#[tactic(auto, using(crate::proofs::Check::KeyOrders::decided))]
pub(crate) fn keeps_order(payload: &[u8], last: &KeyVersion, version: &KeyVersion) -> bool
    requires last { IsKeyRanges payload.now last.now.key }
    requires version { IsKeyRanges payload.now version.now.key }
    ensures { IsTrue result ↔ (version_cmp payload.now version.now last.now ≢ Less) }
{
    match compare_keys(payload, &version.key, &last.key) {
        Ordering::Less => false,
        Ordering::Equal => version.seqno <= last.seqno,
        Ordering::Greater => true,
    }
}

// The same for a head after any item: where that is a head too, by the whole keys.
#[inline(always)]
#[tactic(auto, using(crate::proofs::Check::KeyOrders::head_key, crate::proofs::Check::KeyOrders::decided))]
fn head_follows(payload: &[u8], last: &KeyVersion, version: &KeyVersion) -> bool
    requires last { IsKeyRanges payload.now last.now.key }
    requires version { IsKeyRanges payload.now version.now.key }
    ensures { IsTrue result ↔ (version_cmp payload.now version.now last.now ≢ Less) }
{
    if last.key.rest.0 != last.key.rest.1 || version.key.rest.0 != version.key.rest.1 {
        return keeps_order(payload, last, version);
    }
    let key = bytes_of(payload, &version.key.prefix);
    match compare_bytes(key, bytes_of(payload, &last.key.prefix)) {
        Ordering::Less => false,
        Ordering::Equal => version.seqno <= last.seqno,
        Ordering::Greater => true,
    }
}

/// The same for the head of a restart interval: at once where no item is before it.
#[inline(always)]
pub(crate) fn head_keeps_order(payload: &[u8], last: &KeyVersion, version: KeyVersion) -> bool
    requires last { IsKeyRanges payload.now last.now.key }
    requires version { IsKeyRanges payload.now version.key }
    ensures { IsTrue result ↔ (version_cmp payload.now version last.now ≢ Less) }
{
    last.is_least() || head_follows(payload, last, &version)
}
