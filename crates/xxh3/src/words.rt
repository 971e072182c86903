//! Words of 64 bits: how they are read and mixed.
ghost use Rattle.std.specs.Prelude.{◌≡◌, ◌+◌, ◌*◌, ◌/◌, ◌%◌, ◌^◌, ◌≤◌, ◌<◌, length};
ghost use Rattle.xxh3.specs.Xxh3.{word, half_word, pair, folded_product, avalanche, old_avalanche};
ghost use Rattle.xxh3.specs.Xxh3.{mixed};
ghost use Rattle.xxh3.specs.Xxh3.{negated, length_sum, xorshift};

use crate::secret::SECRET_LEN;
use byteorder::{ByteOrder, LittleEndian};

// What words are multiplied by.
pub(crate) const PRIME32_1: u64 = 0x9E37_79B1;

pub(crate) const PRIME32_2: u64 = 0x85EB_CA77;

pub(crate) const PRIME32_3: u64 = 0xC2B2_AE3D;

pub(crate) const PRIME64_1: u64 = 0x9E37_79B1_85EB_CA87;

pub(crate) const PRIME64_2: u64 = 0xC2B2_AE3D_27D4_EB4F;

pub(crate) const PRIME64_3: u64 = 0x1656_67B1_9E37_79F9;

pub(crate) const PRIME64_4: u64 = 0x85EB_CA77_C2B2_AE63;

pub(crate) const PRIME64_5: u64 = 0x27D4_EB2F_1656_67C5;

pub(crate) const PRIME_MX1: u64 = 0x1656_6791_9E37_79F9;

pub(crate) const PRIME_MX2: u64 = 0x9FB2_1C65_1E98_DF25;

/// A number of 128 bits in two words.
#[derive(Clone, Copy)]
pub(crate) struct Halves {
    pub(crate) low: u64,
    pub(crate) high: u64,
}

// The word at `at`, low byte first.
#[inline(always)]
#[tactic(auto, unfolding(crate::specs::Xxh3::word))]
pub(crate) fn word(bytes: &[u8], at: usize) -> u64
    requires { at + 8 ≤ length bytes.now }
    ensures { result ≡ word bytes.now at }
{
    LittleEndian::read_u64(&bytes[at..])
}

// The half of a word at `at`, low byte first.
#[inline(always)]
#[tactic(auto, unfolding(crate::specs::Xxh3::half_word))]
pub(crate) fn half_word(bytes: &[u8], at: usize) -> u32
    requires { at + 4 ≤ length bytes.now }
    ensures { result ≡ half_word bytes.now at }
{
    LittleEndian::read_u32(&bytes[at..])
}

// The word at `at` and the one after it, joined.
#[inline(always)]
#[tactic(auto, unfolding(crate::specs::Xxh3::pair))]
pub(crate) fn pair(bytes: &[u8], at: usize) -> u64
    requires { at + 16 ≤ length bytes.now }
    ensures { result ≡ pair bytes.now at }
{
    word(bytes, at) ^ word(bytes, at + 8)
}

// The product of two words, in two words.
#[inline(always)]
pub(crate) fn product(x: u64, y: u64) -> Halves
    ensures low { result.low ≡ (x * y) % 2 ^ 64 }
    ensures high { result.high ≡ (x * y) / 2 ^ 64 }
{
    let product = u128::from(x).wrapping_mul(u128::from(y));
    Halves {
        low: (product & 0xffff_ffff_ffff_ffff) as u64,
        high: (product >> 64) as u64,
    }
}

// The two words of a product, joined.
#[inline(always)]
#[tactic(auto, unfolding(crate::specs::Xxh3::folded_product))]
pub(crate) fn folded_product(x: u64, y: u64) -> u64
    ensures { result ≡ folded_product x y }
{
    let product = product(x, y);
    product.low ^ product.high
}

#[inline(always)]
#[tactic(auto, unfolding(crate::specs::Xxh3::avalanche))]
pub(crate) fn avalanche(x: u64) -> u64
    ensures { result ≡ avalanche x }
{
    let y = (x ^ (x >> 37)).wrapping_mul(PRIME_MX1);
    y ^ (y >> 32)
}

#[inline(always)]
#[tactic(auto, unfolding(crate::specs::Xxh3::old_avalanche))]
pub(crate) fn old_avalanche(x: u64) -> u64
    ensures { result ≡ old_avalanche x }
{
    let y = (x ^ (x >> 33)).wrapping_mul(PRIME64_2);
    let z = (y ^ (y >> 29)).wrapping_mul(PRIME64_3);
    z ^ (z >> 32)
}

// Sixteen bytes at `at`, mixed with those of the secret at `key_at`.
#[inline(always)]
#[tactic(auto, unfolding(crate::specs::Xxh3::mixed))]
pub(crate) fn mixed(secret: &[u8; SECRET_LEN], bytes: &[u8], at: usize, key_at: usize) -> u64
    requires inside { at + 16 ≤ length bytes.now }
    requires keyed { key_at + 16 ≤ 192 }
    ensures { result ≡ mixed secret.now bytes.now at key_at }
{
    folded_product(
        word(bytes, at) ^ word(secret, key_at),
        word(bytes, at + 8) ^ word(secret, key_at + 8),
    )
}

// What the sums of long messages begin with.
#[inline(always)]
pub(crate) fn length_sum(bytes: &[u8]) -> u64
    ensures { result ≡ length_sum bytes.now }
{
    (bytes.len() as u64).wrapping_mul(PRIME64_1)
}
