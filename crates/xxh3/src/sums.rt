//! Messages of more than 240 bytes: eight sums over stripes of 64 bytes, in blocks of 16 stripes.
ghost use Rattle.std.specs.Prelude.{◌≡◌, ◌+◌, ◌-◌, ◌*◌, ◌≤◌, ◌<◌, length};
ghost use Rattle.xxh3.specs.Xxh3.{words, with_stripe, scrambled, with_stripes, message_sums};
ghost use Rattle.xxh3.specs.Xxh3.{merged_sums, first_sums};

use crate::secret::SECRET_LEN;
use crate::words::{self, avalanche, folded_product, word};
use std::simd::prelude::*;

// The length of a stripe in bytes, of a block in stripes and in bytes.
pub(crate) const STRIPE_LEN: usize = 64;

pub(crate) const BLOCK_STRIPES: usize = 16;

const BLOCK_LEN: usize = 1024;

// Where the eight sums begin.
const FIRST_SUMS: [u64; 8] = [
    words::PRIME32_3,
    words::PRIME64_1,
    words::PRIME64_2,
    words::PRIME64_3,
    words::PRIME64_4,
    words::PRIME32_2,
    words::PRIME64_5,
    words::PRIME32_1,
];

#[inline(always)]
pub(crate) fn first_sums() -> u64x8
    ensures { result ≡ first_sums }
{
    u64x8::from_array(FIRST_SUMS)
}

// Eight words from `at` on.
#[inline(always)]
#[tactic(auto, unfolding(crate::specs::Xxh3::words))]
fn words(bytes: &[u8], at: usize) -> u64x8
    requires { at + 64 ≤ length bytes.now }
    ensures { result ≡ words bytes.now at }
{
    u64x8::from_array([
        word(bytes, at),
        word(bytes, at + 8),
        word(bytes, at + 16),
        word(bytes, at + 24),
        word(bytes, at + 32),
        word(bytes, at + 40),
        word(bytes, at + 48),
        word(bytes, at + 56),
    ])
}

// The sums with the stripe at `at`, by the secret at `key_at`.
#[inline(always)]
#[tactic(auto, unfolding(crate::specs::Xxh3::with_stripe))]
pub(crate) fn with_stripe(
    secret: &[u8; SECRET_LEN],
    sums: u64x8,
    bytes: &[u8],
    at: usize,
    key_at: usize,
) -> u64x8
    requires inside { at + 64 ≤ length bytes.now }
    requires keyed { key_at + 64 ≤ 192 }
    requires eight { length sums ≡ 8 }
    ensures value { result ≡ with_stripe secret.now sums bytes.now at key_at }
    ensures eight { length result ≡ 8 }
{
    let stripe = words(bytes, at);
    let keyed = stripe ^ words(secret, key_at);
    let products = (keyed & u64x8::splat(0xffff_ffff)) * (keyed >> u64x8::splat(32));
    sums + stripe.swizzle([1, 0, 3, 2, 5, 4, 7, 6]) + products
}

// The sums at the end of a block.
#[inline(always)]
#[tactic(auto, unfolding(crate::specs::Xxh3::scrambled))]
fn scrambled(secret: &[u8; SECRET_LEN], sums: u64x8) -> u64x8
    requires { length sums ≡ 8 }
    ensures value { result ≡ scrambled secret.now sums }
    ensures eight { length result ≡ 8 }
{
    let shifted = sums ^ (sums >> u64x8::splat(47));
    (shifted ^ words(secret, 128)) * u64x8::splat(words::PRIME32_1)
}

// The sums with `count` stripes from `at` on, the first of which is the stripe `first` of its block
// and none of which is the last.
#[inline(always)]
#[tactic(auto, using(crate::proofs::Steps::stripe_steps), unfolding(crate::specs::Xxh3::with_stripes))]
fn with_run(
    secret: &[u8; SECRET_LEN],
    start: u64x8,
    bytes: &[u8],
    at: usize,
    first: usize,
    count: usize,
) -> u64x8
    requires inside { at + 64 * count ≤ length bytes.now }
    requires in_block { first + count < 16 }
    requires eight { length start ≡ 8 }
    ensures value { result ≡ with_stripes secret.now start bytes.now at first count }
    ensures eight { length result ≡ 8 }
{
    let mut sums = start;
    'run: for i in 0..count {
        sums = with_stripe(secret, sums, bytes, at + STRIPE_LEN * i, 8 * (first + i));
    }
    sums
}

// The sums with the rest of a block, from its stripe `first` on.
#[inline(always)]
fn with_block(
    secret: &[u8; SECRET_LEN],
    start: u64x8,
    bytes: &[u8],
    at: usize,
    first: usize,
) -> u64x8
    requires in_block { first < 16 }
    requires inside { at + 64 * (16 - first) ≤ length bytes.now }
    requires eight { length start ≡ 8 }
    ensures value { result ≡ with_stripes secret.now start bytes.now at first (16 - first) }
    ensures eight { length result ≡ 8 }
{
    let before = BLOCK_STRIPES - 1 - first;
    let sums = with_run(secret, start, bytes, at, first, before);
    let last = with_stripe(secret, sums, bytes, at + STRIPE_LEN * before, 120);
    scrambled(secret, last)
}

// The sums with `count` blocks from `at` on.
#[inline(always)]
#[tactic(auto, unfolding(crate::specs::Xxh3::with_stripes))]
fn with_blocks(
    secret: &[u8; SECRET_LEN],
    start: u64x8,
    bytes: &[u8],
    at: usize,
    count: usize,
) -> u64x8
    requires inside { at + 1024 * count ≤ length bytes.now }
    requires eight { length start ≡ 8 }
    ensures value { result ≡ with_stripes secret.now start bytes.now at 0 (16 * count) }
    ensures eight { length result ≡ 8 }
{
    let mut sums = start;
    'each: for i in 0..count {
        sums = with_block(secret, sums, bytes, at + BLOCK_LEN * i, 0);
    }
    sums
}

// The sums with `count` stripes from `at` on, the first of which begins a block.
#[inline(always)]
fn with_whole(
    secret: &[u8; SECRET_LEN],
    start: u64x8,
    bytes: &[u8],
    at: usize,
    count: usize,
) -> u64x8
    requires inside { at + 64 * count ≤ length bytes.now }
    requires eight { length start ≡ 8 }
    ensures value { result ≡ with_stripes secret.now start bytes.now at 0 count }
    ensures eight { length result ≡ 8 }
{
    let blocks = count / BLOCK_STRIPES;
    let sums = with_blocks(secret, start, bytes, at, blocks);
    with_run(
        secret,
        sums,
        bytes,
        at + BLOCK_LEN * blocks,
        0,
        count % BLOCK_STRIPES,
    )
}

// The sums with `count` stripes from `at` on, the first of which is the stripe `first` of its
// block.
#[inline(always)]
pub(crate) fn with_stripes(
    secret: &[u8; SECRET_LEN],
    start: u64x8,
    bytes: &[u8],
    at: usize,
    first: usize,
    count: usize,
) -> u64x8
    requires inside { at + 64 * count ≤ length bytes.now }
    requires in_block { first < 16 }
    requires eight { length start ≡ 8 }
    ensures value { result ≡ with_stripes secret.now start bytes.now at first count }
    ensures eight { length result ≡ 8 }
{
    let rest = BLOCK_STRIPES - first;
    if count < rest {
        return with_run(secret, start, bytes, at, first, count);
    }
    let sums = with_block(secret, start, bytes, at, first);
    with_whole(secret, sums, bytes, at + STRIPE_LEN * rest, count - rest)
}

// The sums of a message.
#[tactic(auto, unfolding(crate::specs::Xxh3::message_sums))]
pub(crate) fn message_sums(secret: &[u8; SECRET_LEN], bytes: &[u8]) -> u64x8
    requires { 64 < length bytes.now }
    ensures value { result ≡ message_sums secret.now bytes.now }
    ensures eight { length result ≡ 8 }
{
    let len = bytes.len();
    let stripes = (len - 1) / STRIPE_LEN;
    let sums = with_whole(secret, first_sums(), bytes, 0, stripes);
    with_stripe(secret, sums, bytes, len - STRIPE_LEN, 121)
}

// The sums as one word, by the secret at `key_at`.
#[inline(always)]
#[tactic(auto, unfolding(crate::specs::Xxh3::merged_sums))]
pub(crate) fn merged(secret: &[u8; SECRET_LEN], sums: &[u64; 8], key_at: usize, start: u64) -> u64
    requires { key_at + 64 ≤ 192 }
    ensures { result ≡ merged_sums secret.now sums.now key_at start }
{
    let [a, b, c, d, e, f, g, h] = *sums;
    let first = folded_product(a ^ word(secret, key_at), b ^ word(secret, key_at + 8));
    let second = folded_product(c ^ word(secret, key_at + 16), d ^ word(secret, key_at + 24));
    let third = folded_product(e ^ word(secret, key_at + 32), f ^ word(secret, key_at + 40));
    let fourth = folded_product(g ^ word(secret, key_at + 48), h ^ word(secret, key_at + 56));
    avalanche(
        start
            .wrapping_add(first)
            .wrapping_add(second)
            .wrapping_add(third)
            .wrapping_add(fourth),
    )
}
