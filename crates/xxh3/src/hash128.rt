//! The hash of 128 bits.
ghost use Rattle.std.specs.Prelude.{◌≡◌, ◌+◌, ◌*◌, ◌^◌, ◌≤◌, ◌<◌, length};
ghost use Rattle.xxh3.specs.Xxh3.{hash128_of_none, hash128_to_3, hash128_to_8, hash128_to_16};
ghost use Rattle.xxh3.specs.Xxh3.{with_both, finished};
ghost use Rattle.xxh3.specs.Xxh3.{hash128_to_128, run_sums, hash128_to_240, hash128_long};
ghost use Rattle.xxh3.specs.Xxh3.{hash128_by, xxh3_128};

use crate::hash64::{few_bytes, hash64_to_3};
use crate::secret::{SECRET_LEN, secret};
use crate::sums::{merged, message_sums};
use crate::words::{
    Halves, PRIME_MX2, PRIME64_1, PRIME64_2, PRIME64_4, avalanche, half_word, length_sum, mixed,
    old_avalanche, pair, product, word,
};

#[inline(always)]
#[tactic(auto, unfolding(crate::specs::Xxh3::hash128_of_none))]
fn hash128_of_none(secret: &[u8; SECRET_LEN]) -> Halves
    ensures { result ≡ hash128_of_none secret.now }
{
    Halves {
        low: old_avalanche(pair(secret, 64)),
        high: old_avalanche(pair(secret, 80)),
    }
}

#[inline(always)]
#[tactic(auto, unfolding(crate::specs::Xxh3::hash128_to_3))]
fn hash128_to_3(secret: &[u8; SECRET_LEN], bytes: &[u8]) -> Halves
    requires some { 1 ≤ length bytes.now }
    requires few { length bytes.now ≤ 3 }
    ensures { result ≡ hash128_to_3 secret.now bytes.now }
{
    let key = half_word(secret, 8) ^ half_word(secret, 12);
    let turned = few_bytes(bytes).swap_bytes().rotate_left(13);
    Halves {
        low: hash64_to_3(secret, bytes),
        high: old_avalanche(u64::from(turned ^ key)),
    }
}

#[inline(always)]
#[tactic(auto, unfolding(crate::specs::Xxh3::hash128_to_8))]
fn hash128_to_8(secret: &[u8; SECRET_LEN], bytes: &[u8]) -> Halves
    requires some { 4 ≤ length bytes.now }
    requires few { length bytes.now ≤ 8 }
    ensures { result ≡ hash128_to_8 secret.now bytes.now }
{
    let len = bytes.len();
    let first = u64::from(half_word(bytes, 0));
    let last = u64::from(half_word(bytes, len - 4));
    let x = (first + (last << 32)) ^ pair(secret, 16);
    let product = product(x, PRIME64_1 + 4 * len as u64);
    let high = product.high.wrapping_add(product.low.wrapping_mul(2));
    let low = product.low ^ (high >> 3);
    let shifted = (low ^ (low >> 35)).wrapping_mul(PRIME_MX2);
    Halves {
        low: shifted ^ (shifted >> 28),
        high: avalanche(high),
    }
}

#[inline(always)]
#[tactic(auto, unfolding(crate::specs::Xxh3::hash128_to_16))]
fn hash128_to_16(secret: &[u8; SECRET_LEN], bytes: &[u8]) -> Halves
    requires some { 9 ≤ length bytes.now }
    requires few { length bytes.now ≤ 16 }
    ensures { result ≡ hash128_to_16 secret.now bytes.now }
{
    let len = bytes.len();
    let first = word(bytes, 0);
    let last = word(bytes, len - 8);
    let mixed = product(first ^ last ^ pair(secret, 32), PRIME64_1);
    let keyed = last ^ pair(secret, 48);
    let high = mixed
        .high
        .wrapping_add(keyed)
        .wrapping_add((keyed & 0xffff_ffff).wrapping_mul(0x85EB_CA76));
    let low = mixed.low.wrapping_add((len as u64 - 1) << 54) ^ high.swap_bytes();
    let last_product = product(low, PRIME64_2);
    Halves {
        low: avalanche(last_product.low),
        high: avalanche(last_product.high.wrapping_add(high.wrapping_mul(PRIME64_2))),
    }
}

// Two sums with sixteen bytes at `i` and sixteen at `j`, by the secret at `key_at`.
#[inline(always)]
#[tactic(auto, unfolding(crate::specs::Xxh3::with_both))]
fn with_both(
    secret: &[u8; SECRET_LEN],
    bytes: &[u8],
    sums: Halves,
    i: usize,
    j: usize,
    key_at: usize,
) -> Halves
    requires first { i + 16 ≤ length bytes.now }
    requires second { j + 16 ≤ length bytes.now }
    requires keyed { key_at + 32 ≤ 192 }
    ensures { result ≡ with_both secret.now bytes.now sums i j key_at }
{
    let of_first = word(bytes, i).wrapping_add(word(bytes, i + 8));
    let of_second = word(bytes, j).wrapping_add(word(bytes, j + 8));
    Halves {
        low: sums.low.wrapping_add(mixed(secret, bytes, i, key_at)) ^ of_second,
        high: sums.high.wrapping_add(mixed(secret, bytes, j, key_at + 16)) ^ of_first,
    }
}

// What two sums give.
#[inline(always)]
#[tactic(auto, unfolding(crate::specs::Xxh3::finished))]
fn finished(bytes: &[u8], sums: Halves) -> Halves
    ensures { result ≡ finished bytes.now sums }
{
    let high = sums
        .low
        .wrapping_mul(PRIME64_1)
        .wrapping_add(sums.high.wrapping_mul(PRIME64_4))
        .wrapping_add((bytes.len() as u64).wrapping_mul(PRIME64_2));
    Halves {
        low: avalanche(sums.low.wrapping_add(sums.high)),
        high: 0u64.wrapping_sub(avalanche(high)),
    }
}

#[inline(always)]
#[tactic(auto, using(crate::proofs::Steps::both_steps), unfolding(crate::specs::Xxh3::hash128_to_128, crate::specs::Xxh3::ends_sums))]
fn hash128_to_128(secret: &[u8; SECRET_LEN], bytes: &[u8]) -> Halves
    requires some { 17 ≤ length bytes.now }
    requires few { length bytes.now ≤ 128 }
    ensures { result ≡ hash128_to_128 secret.now bytes.now }
{
    let len = bytes.len();
    let mut sums = Halves {
        low: length_sum(bytes),
        high: 0,
    };
    'ends: for i in (0..(len - 1) / 32 + 1).rev() {
        sums = with_both(secret, bytes, sums, 16 * i, len - 16 * (i + 1), 32 * i);
    }
    finished(bytes, sums)
}

// Two sums with `count` times thirty-two bytes from `at` on, by the secret from `key_at` on.
#[inline(always)]
#[tactic(auto, using(crate::proofs::Steps::runs_steps), unfolding(crate::specs::Xxh3::run_sums))]
fn run_sums(
    secret: &[u8; SECRET_LEN],
    bytes: &[u8],
    start: Halves,
    at: usize,
    key_at: usize,
    count: usize,
) -> Halves
    requires inside { at + 32 * count ≤ length bytes.now }
    requires keyed { key_at + 32 * count ≤ 192 }
    ensures { result ≡ run_sums secret.now bytes.now start at key_at count }
{
    let mut sums = start;
    'run: for i in 0..count {
        sums = with_both(
            secret,
            bytes,
            sums,
            at + 32 * i,
            at + 32 * i + 16,
            key_at + 32 * i,
        );
    }
    sums
}

#[tactic(auto, unfolding(crate::specs::Xxh3::hash128_to_240))]
fn hash128_to_240(secret: &[u8; SECRET_LEN], bytes: &[u8]) -> Halves
    requires some { 129 ≤ length bytes.now }
    requires few { length bytes.now ≤ 240 }
    ensures { result ≡ hash128_to_240 secret.now bytes.now }
{
    let len = bytes.len();
    let start = Halves {
        low: length_sum(bytes),
        high: 0,
    };
    let front = run_sums(secret, bytes, start, 0, 0, 4);
    let between = Halves {
        low: avalanche(front.low),
        high: avalanche(front.high),
    };
    let rest = run_sums(secret, bytes, between, 128, 3, len / 32 - 4);
    finished(
        bytes,
        with_both(secret, bytes, rest, len - 16, len - 32, 103),
    )
}

#[tactic(auto, unfolding(crate::specs::Xxh3::hash128_long))]
fn hash128_long(secret: &[u8; SECRET_LEN], bytes: &[u8]) -> Halves
    requires { 240 < length bytes.now }
    ensures { result ≡ hash128_long secret.now bytes.now }
{
    let sums = message_sums(secret, bytes).to_array();
    let start = u64::MAX - (bytes.len() as u64).wrapping_mul(PRIME64_2);
    Halves {
        low: merged(secret, &sums, 11, length_sum(bytes)),
        high: merged(secret, &sums, 117, start),
    }
}

#[inline(always)]
#[tactic(auto, unfolding(crate::specs::Xxh3::hash128_by))]
pub(crate) fn hash128_by(secret: &[u8; SECRET_LEN], bytes: &[u8]) -> Halves
    ensures { result ≡ hash128_by secret.now bytes.now }
{
    match bytes.len() {
        0 => hash128_of_none(secret),
        1..=3 => hash128_to_3(secret, bytes),
        4..=8 => hash128_to_8(secret, bytes),
        9..=16 => hash128_to_16(secret, bytes),
        17..=128 => hash128_to_128(secret, bytes),
        129..=240 => hash128_to_240(secret, bytes),
        _ => hash128_long(secret, bytes),
    }
}

// The number of two words.
#[inline(always)]
pub(crate) fn joined(hash: Halves) -> u128
    ensures { result ≡ hash.low + hash.high * 2 ^ 64 }
{
    (u128::from(hash.high) << 64) + u128::from(hash.low)
}

/// Returns the hash of the bytes, of 128 bits.
#[tactic(auto, unfolding(crate::specs::Xxh3::xxh3_128))]
pub fn xxh3_128(bytes: &[u8]) -> u128
    ensures { result ≡ xxh3_128 bytes.now }
{
    joined(hash128_by(secret(), bytes))
}
