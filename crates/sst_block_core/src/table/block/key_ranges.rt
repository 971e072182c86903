//! Keys by their ranges of a payload: a prefix, if there is one, and the bytes after it.
ghost use Rattle.std.specs.Prelude.{◌≡◌, ◌+◌, ◌≤◌, ◌++◌, length, IfOk, IsOk};
ghost use Rattle.std.specs.Ordering.{nat_cmp};
ghost use Rattle.std.specs.Cmp.Lexicographic.{slice_cmp};
ghost use Rattle.sst_block_core.specs.Found.{IsRange, IsOptionalRange, range_bytes, optional_range};
ghost use Rattle.sst_block_core.specs.Found.{range_len};

use sst_base::table::util::{SliceIndexes, compare_bytes, compare_prefixed_slice};
use sst_base::{AllocResult, Slice};
use std::alloc::Global;
use std::cmp::Ordering;

/// Returns the bytes of a range.
#[inline(always)]
pub fn bytes_of<'a>(payload: &'a [u8], range: &SliceIndexes) -> &'a [u8]
    requires { IsRange payload.now range.now }
    ensures { result.now ≡ range_bytes payload.now range.now }
{
    &payload[range.0..range.1]
}

/// Returns the length of a prefix: 0 where there is none.
#[inline(always)]
pub fn prefix_len(payload: &[u8], prefix: &Option<SliceIndexes>) -> usize
    requires { IsOptionalRange payload.now prefix.now }
    ensures { result ≡ range_len prefix.now }
{
    match prefix {
        Some(prefix) => prefix.1 - prefix.0,
        None => 0,
    }
}

/// Compares a key with a needle, without joining prefix and rest.
#[inline(always)]
pub fn compare_ranges(
    payload: &[u8],
    prefix: &Option<SliceIndexes>,
    rest: &SliceIndexes,
    needle: &[u8],
) -> Ordering
    requires prefix { IsOptionalRange payload.now prefix.now }
    requires rest { IsRange payload.now rest.now }
    ensures { result
        ≡ slice_cmp nat_cmp
        (optional_range payload.now prefix.now ++ range_bytes payload.now rest.now) needle.now }
{
    let rest = bytes_of(payload, rest);
    match prefix {
        Some(prefix) => compare_prefixed_slice(bytes_of(payload, prefix), rest, needle),
        None => compare_bytes(rest, needle),
    }
}

/// Makes the key: a sub-slice of the payload, or prefix and rest joined.
///
/// # Errors
///
/// If an allocation fails.
#[inline(always)]
pub fn join_ranges(
    alloc: Global,
    payload: &Slice,
    prefix: &Option<SliceIndexes>,
    rest: &SliceIndexes,
) -> AllocResult<Slice>
    requires prefix { IsOptionalRange payload.now prefix.now }
    requires rest { IsRange payload.now rest.now }
    ensures ok { IfOk result
        (λ key. key ≡ optional_range payload.now prefix.now ++ range_bytes payload.now rest.now) }
    ensures few { length (optional_range payload.now prefix.now)
        + length (range_bytes payload.now rest.now) ≤ 40 → IsOk result }
{
    match prefix {
        Some(prefix) => {
            let (_, left) = payload.as_slice().split_at(prefix.0);
            let (_, right) = payload.as_slice().split_at(rest.0);
            Slice::fused_fronts(alloc, left, prefix.1 - prefix.0, right, rest.1 - rest.0)
        }
        None => payload.part(rest.0..rest.1),
    }
}
