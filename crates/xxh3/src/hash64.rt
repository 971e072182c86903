//! The hash of 64 bits.
ghost use Rattle.std.specs.Prelude.{◌≡◌, ◌+◌, ◌*◌, ◌≤◌, ◌<◌, length};
ghost use Rattle.xxh3.specs.Xxh3.{few_bytes, hash64_to_3, hash64_to_8, hash64_to_16, hash64_to_128};
ghost use Rattle.xxh3.specs.Xxh3.{hash64_to_240};
ghost use Rattle.xxh3.specs.Xxh3.{run_sum, hash64_long, hash64_by, xxh3_64};

use crate::secret::{SECRET_LEN, secret};
use crate::sums::{merged, message_sums};
use crate::words::{
    PRIME_MX2, avalanche, folded_product, half_word, length_sum, mixed, old_avalanche, pair, word,
};

// The length of 1 to 3 bytes, and the first, the middle and the last of them.
#[inline(always)]
#[tactic(auto, unfolding(crate::specs::Xxh3::few_bytes))]
pub(crate) fn few_bytes(bytes: &[u8]) -> u32
    requires some { 1 ≤ length bytes.now }
    requires few { length bytes.now ≤ 3 }
    ensures { result ≡ few_bytes bytes.now }
{
    let len = bytes.len();
    let first = u32::from(bytes[0]);
    let middle = u32::from(bytes[len / 2]);
    let last = u32::from(bytes[len - 1]);
    (first << 16) + (middle << 24) + last + ((len as u32) << 8)
}

#[inline(always)]
#[tactic(auto, unfolding(crate::specs::Xxh3::hash64_to_3))]
pub(crate) fn hash64_to_3(secret: &[u8; SECRET_LEN], bytes: &[u8]) -> u64
    requires some { 1 ≤ length bytes.now }
    requires few { length bytes.now ≤ 3 }
    ensures { result ≡ hash64_to_3 secret.now bytes.now }
{
    let key = half_word(secret, 0) ^ half_word(secret, 4);
    old_avalanche(u64::from(few_bytes(bytes) ^ key))
}

#[inline(always)]
#[tactic(auto, unfolding(crate::specs::Xxh3::hash64_to_8))]
fn hash64_to_8(secret: &[u8; SECRET_LEN], bytes: &[u8]) -> u64
    requires some { 4 ≤ length bytes.now }
    requires few { length bytes.now ≤ 8 }
    ensures { result ≡ hash64_to_8 secret.now bytes.now }
{
    let len = bytes.len();
    let first = u64::from(half_word(bytes, 0));
    let last = u64::from(half_word(bytes, len - 4));
    let x = (last + (first << 32)) ^ pair(secret, 8);
    let y = (x ^ x.rotate_left(49) ^ x.rotate_left(24)).wrapping_mul(PRIME_MX2);
    let z = (y ^ ((y >> 35) + len as u64)).wrapping_mul(PRIME_MX2);
    z ^ (z >> 28)
}

#[inline(always)]
#[tactic(auto, unfolding(crate::specs::Xxh3::hash64_to_16))]
fn hash64_to_16(secret: &[u8; SECRET_LEN], bytes: &[u8]) -> u64
    requires some { 8 ≤ length bytes.now }
    ensures { result ≡ hash64_to_16 secret.now bytes.now }
{
    let len = bytes.len();
    let low = word(bytes, 0) ^ pair(secret, 24);
    let high = word(bytes, len - 8) ^ pair(secret, 40);
    avalanche(
        (len as u64)
            .wrapping_add(low.swap_bytes())
            .wrapping_add(high)
            .wrapping_add(folded_product(low, high)),
    )
}

#[inline(always)]
#[tactic(auto, using(crate::proofs::Steps::ends_steps), unfolding(crate::specs::Xxh3::hash64_to_128, crate::specs::Xxh3::ends_sum))]
fn hash64_to_128(secret: &[u8; SECRET_LEN], bytes: &[u8]) -> u64
    requires some { 17 ≤ length bytes.now }
    requires few { length bytes.now ≤ 128 }
    ensures { result ≡ hash64_to_128 secret.now bytes.now }
{
    let len = bytes.len();
    let mut sum = length_sum(bytes);
    'ends: for i in 0..(len - 1) / 32 + 1 {
        sum = sum
            .wrapping_add(mixed(secret, bytes, 16 * i, 32 * i))
            .wrapping_add(mixed(secret, bytes, len - 16 * (i + 1), 32 * i + 16));
    }
    avalanche(sum)
}

// A sum with `count` sixteens of bytes from `at` on, by the secret from `key_at` on.
#[inline(always)]
#[tactic(auto, using(crate::proofs::Steps::run_steps), unfolding(crate::specs::Xxh3::run_sum))]
fn run_sum(
    secret: &[u8; SECRET_LEN],
    bytes: &[u8],
    start: u64,
    at: usize,
    key_at: usize,
    count: usize,
) -> u64
    requires inside { at + 16 * count ≤ length bytes.now }
    requires keyed { key_at + 16 * count ≤ 192 }
    ensures { result ≡ run_sum secret.now bytes.now start at key_at count }
{
    let mut sum = start;
    'run: for i in 0..count {
        sum = sum.wrapping_add(mixed(secret, bytes, at + 16 * i, key_at + 16 * i));
    }
    sum
}

#[tactic(auto, unfolding(crate::specs::Xxh3::hash64_to_240))]
fn hash64_to_240(secret: &[u8; SECRET_LEN], bytes: &[u8]) -> u64
    requires some { 129 ≤ length bytes.now }
    requires few { length bytes.now ≤ 240 }
    ensures { result ≡ hash64_to_240 secret.now bytes.now }
{
    let len = bytes.len();
    let front = avalanche(run_sum(secret, bytes, length_sum(bytes), 0, 0, 8));
    let end = mixed(secret, bytes, len - 16, 119);
    avalanche(front.wrapping_add(run_sum(secret, bytes, end, 128, 3, len / 16 - 8)))
}

#[tactic(auto, unfolding(crate::specs::Xxh3::hash64_long))]
fn hash64_long(secret: &[u8; SECRET_LEN], bytes: &[u8]) -> u64
    requires { 240 < length bytes.now }
    ensures { result ≡ hash64_long secret.now bytes.now }
{
    let sums = message_sums(secret, bytes).to_array();
    merged(secret, &sums, 11, length_sum(bytes))
}

#[inline(always)]
#[tactic(auto, unfolding(crate::specs::Xxh3::hash64_by))]
pub(crate) fn hash64_by(secret: &[u8; SECRET_LEN], bytes: &[u8]) -> u64
    ensures { result ≡ hash64_by secret.now bytes.now }
{
    match bytes.len() {
        0 => old_avalanche(pair(secret, 56)),
        1..=3 => hash64_to_3(secret, bytes),
        4..=8 => hash64_to_8(secret, bytes),
        9..=16 => hash64_to_16(secret, bytes),
        17..=128 => hash64_to_128(secret, bytes),
        129..=240 => hash64_to_240(secret, bytes),
        _ => hash64_long(secret, bytes),
    }
}

/// Returns the hash of the bytes, of 64 bits.
#[tactic(auto, unfolding(crate::specs::Xxh3::xxh3_64))]
pub fn xxh3_64(bytes: &[u8]) -> u64
    ensures { result ≡ xxh3_64 bytes.now }
{
    hash64_by(secret(), bytes)
}
