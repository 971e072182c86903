//! Fronts of keys: their first bytes as numbers, by which a merge compares most versions.
ghost use Rattle.std.specs.Prelude.{◌≡◌, ◌+◌, ◌<◌, ◌≤◌, ◌++◌, length, drop};
ghost use Rattle.sst_sources.specs.Fronts.{HasOrderOf, key_front};
ghost use Rattle.sstable_blocks.specs.Prelude.{IsBytes, front};

use sstable_blocks::table::block::heads::front_of;

// The front of two byte strings joined: their first 8 bytes.
#[inline(always)]
fn front_of_parts(left: &[u8], right: &[u8]) -> u64
    ensures { result ≡ front (left.now ++ right.now) }
{
    if left.len() >= 8 {
        return front_of(left);
    }
    front_of(left) + (front_of(right) >> (8 * left.len()))
}

// The front of what follows a place in a byte string, which is at most 7 of its last 8 bytes: these
// are read at once.
#[inline(always)]
fn front_of_last(bytes: &[u8], from: usize) -> u64
    requires long { 8 ≤ length bytes.now }
    requires inside { from ≤ length bytes.now }
    requires few { length bytes.now < from + 8 }
    ensures { result ≡ front (drop from bytes.now) }
{
    let (_, last) = bytes.split_at(bytes.len() - 8);
    let more = bytes.len() - from;
    (front_of(last) << (8 * (7 - more))) << 8
}

// The front of what follows the first 8 bytes of two byte strings joined, of which the first has 8
// to 15.
#[inline(always)]
fn front_between(left: &[u8], right: &[u8]) -> u64
    requires long { 8 ≤ length left.now }
    requires short { length left.now < 16 }
    ensures { result ≡ front (drop 8 (left.now ++ right.now)) }
{
    front_of_last(left, 8) + (front_of(right) >> (8 * (left.len() - 8)))
}

// The front of what follows the first 8 bytes of two byte strings joined.
#[inline(always)]
fn front_behind(left: &[u8], right: &[u8]) -> u64
    ensures { result ≡ front (drop 8 (left.now ++ right.now)) }
{
    if left.len() >= 16 {
        let (_, rest) = left.split_at(8);
        return front_of(rest);
    }
    if left.len() >= 8 {
        return front_between(left, right);
    }
    let passed = (8 - left.len()).min(right.len());
    let (_, rest) = right.split_at(passed);
    front_of(rest)
}

/// Returns the first 16 bytes of a key in two parts as a big-endian number; fewer are filled with
/// 00. Nothing is joined.
///
/// Where the numbers of two keys differ, the keys have the order of the numbers.
#[inline(always)]
pub fn front_of_key(left: &[u8], right: &[u8]) -> u128
    ensures value { result ≡ key_front (left.now ++ right.now) }
    ensures order { HasOrderOf (left.now ++ right.now) result }
    ensures bytes { IsBytes (left.now ++ right.now) }
{
    let high = front_of_parts(left, right);
    let low = front_behind(left, right);
    u128::from(high) * 18446744073709551616 + u128::from(low)
}
