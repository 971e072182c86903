//! Hash functions of byte strings.
ghost use Rattle.std.specs.Prelude.{◌≡◌, ◌+◌, ◌%◌, ◌<◌, ◌≤◌, ◌^◌};
ghost use Rattle.std.specs.Prelude.{◌++◌, ℕ, List, [], length, take, drop};
ghost use Rattle.std.specs.Prelude.{fold, IfSome};
ghost use Rattle.byteorder.specs.Endian.{big_number};
ghost use Rattle.sst_base.specs.Bytes.{IsBytes};
ghost use Rattle.sst_base.specs.Hashes.{times31, poly31, poly31_from, byte_sum, byte_sum_from};
ghost use Rattle.sst_base.specs.Hashes.{IsFours};
ghost use Rattle.sst_base.specs.HashLaws.{poly31-below, byte_sum-below};

use byteorder::{BigEndian, ByteOrder};
use std::simd::prelude::*;

/// The hash function of hash index and checksums, and a stream that hashes bytes as they come.
pub trait BlockHash: Drop {
    // the hash of 64 bits
    ghost hash64: { List ℕ → ℕ };

    // the hash of 128 bits
    ghost hash128: { List ℕ → ℕ };

    // the bytes that a stream was given since its start
    ghost has_taken: { Self → List ℕ → Type 0 };

    /// Returns the hash of the bytes in 64 bits.
    fn hash64(bytes: &[u8]) -> u64
        ensures { result ≡ hash64 bytes.now };

    /// Continues a hash: given the hash of any byte string, returns the hash of that string
    /// followed by these bytes, in 64 bits. Returns `None` if the hash function cannot be
    /// continued, as the provided body does.
    fn hash64_behind(so_far: u64, rest: &[u8]) -> Option<u64>
        ensures { IfSome result
            (λ hash. (bytes : List ℕ) → hash64 bytes ≡ so_far
            → hash ≡ hash64 (bytes ++ rest.now)) }
    {
        let _ = so_far;
        let _ = rest;
        None
    }

    /// Returns the hash of the bytes in 128 bits.
    fn hash128(bytes: &[u8]) -> u128
        ensures { result ≡ hash128 bytes.now };

    /// Starts a stream.
    fn start() -> Self
        ensures { has_taken result [] };

    /// Adds bytes to a stream.
    fn update(&mut self, bytes: &[u8])
        ensures { (taken : List ℕ) → has_taken self.old taken
            → has_taken self.new (taken ++ bytes.now) };

    /// Returns the hash of all bytes added, in 128 bits.
    fn digest128(&self) -> u128
        ensures { (taken : List ℕ) → has_taken self.now taken → result ≡ hash128 taken };

    // a hash of 128 bits fits them
    ghost hash128_fits: { (bytes : List ℕ) → hash128 bytes < 2 ^ 128 };
}

/// The polynomial hash: from 0, times 31 plus each byte in turn, modulo 2^64 or 2^128. Not
/// collision-resistant.
#[derive(Clone, Copy, Debug, PartialEq, Eq)]
pub struct Poly31 {
    so_far: u128,
}

// What each byte but the last is multiplied by, and its powers.
const BASE: u64 = 31;

const BASE_2: u64 = 961;

const BASE_4: u64 = 923521;

const BASE_8: u64 = 852891037441;

const BASE_16: u128 = 727423121747185263828481;

// What each byte of four is multiplied by in the hash of the first two, and in that of the others.
const FIRST_PAIRS: [u8; 16] = [31, 1, 0, 0, 31, 1, 0, 0, 31, 1, 0, 0, 31, 1, 0, 0];

const SECOND_PAIRS: [u8; 16] = [0, 0, 31, 1, 0, 0, 31, 1, 0, 0, 31, 1, 0, 0, 31, 1];

// Every other byte of a word, and every other pair of bytes.
const BYTE_LANES: u64 = 0x00ff_00ff_00ff_00ff;

const PAIR_LANES: u64 = 0x0000_ffff_0000_ffff;

// The hash of the eight bytes of a big-endian word: of pairs, of fours, and of all, side by side.
#[inline(always)]
fn word_hash(word: u64) -> u64
    ensures { (bytes : List ℕ) → IsBytes bytes → 8 ≤ length bytes
        → word ≡ big_number 8 bytes
        → result ≡ fold times31 0 (take 8 bytes) }
{
    let pairs = ((word >> 8) & BYTE_LANES) * BASE + (word & BYTE_LANES);
    let fours = ((pairs >> 16) & PAIR_LANES) * BASE_2 + (pairs & PAIR_LANES);
    (fours >> 32) * BASE_4 + (fours & 0xffff_ffff)
}

// The hash of eight bytes alone.
#[inline(always)]
fn eight_at(bytes: &[u8], at: usize) -> u64
    requires { at + 8 ≤ length bytes.now }
    ensures { result ≡ fold times31 0 (take 8 (drop at bytes.now)) }
{
    let (_, rest) = bytes.split_at(at);
    word_hash(BigEndian::read_u64(rest))
}

// Continues a hash of 64 bits by a byte.
#[inline(always)]
fn with_byte(so_far: u64, byte: u8) -> u64
    ensures { result ≡ times31 so_far byte % 2 ^ 64 }
{
    so_far.wrapping_mul(BASE).wrapping_add(u64::from(byte))
}

// Continues a hash of 64 bits by fewer than four bytes.
#[inline(always)]
fn continued64_by_few(so_far: u64, bytes: &[u8]) -> u64
    requires { length bytes.now < 4 }
    ensures { result ≡ poly31_from 64 so_far bytes.now }
{
    match bytes {
        [a] => with_byte(so_far, *a),
        [a, b] => with_byte(with_byte(so_far, *a), *b),
        [a, b, c] => with_byte(with_byte(with_byte(so_far, *a), *b), *c),
        _ => so_far,
    }
}

// The hash of the first four bytes alone.
#[inline(always)]
fn first_four(bytes: &[u8]) -> u64
    requires { 4 ≤ length bytes.now }
    ensures { result ≡ fold times31 0 (take 4 bytes.now) }
{
    word_hash(u64::from(BigEndian::read_u32(bytes)))
}

// Continues a hash of 64 bits by fewer than eight bytes, the first four in one step.
#[inline(always)]
fn continued64_by_four(so_far: u64, bytes: &[u8]) -> u64
    requires { length bytes.now < 8 }
    ensures { result ≡ poly31_from 64 so_far bytes.now }
{
    if bytes.len() < 4 {
        return continued64_by_few(so_far, bytes);
    }
    let hash = so_far.wrapping_mul(BASE_4).wrapping_add(first_four(bytes));
    let (_, tail) = bytes.split_at(4);
    continued64_by_few(hash, tail)
}

// Continues a hash of 64 bits, eight bytes a step.
#[inline(always)]
fn continued64_by_eight(so_far: u64, bytes: &[u8]) -> u64
    ensures { result ≡ poly31_from 64 so_far bytes.now }
{
    let words = bytes.len() / 8;
    let mut hash = so_far;
    for i in 0..words {
        hash = hash
            .wrapping_mul(BASE_8)
            .wrapping_add(eight_at(bytes, 8 * i));
    }
    let (_, tail) = bytes.split_at(8 * words);
    continued64_by_four(hash, tail)
}

// Continues a hash of 128 bits, a byte a step.
fn continued128(so_far: u128, bytes: &[u8]) -> u128
    ensures { result ≡ poly31_from 128 so_far bytes.now }
{
    bytes.iter().fold(so_far, |hash, byte| {
        hash.wrapping_mul(u128::from(BASE))
            .wrapping_add(u128::from(*byte))
    })
}

// The hashes of the first four bytes, of the next four, and so on, of sixteen. The weights are
// those of the first two bytes of each four, and of the other two.
#[inline(always)]
fn four_hashes(bytes: &[u8]) -> [u32; 4]
    requires { 16 ≤ length bytes.now }
    ensures { IsFours bytes.now result }
{
    let lanes = u8x16::from_slice(bytes);
    let first = lanes.dot4(u8x16::from_array(FIRST_PAIRS));
    let second = lanes.dot4(u8x16::from_array(SECOND_PAIRS));
    (first * u32x4::splat(BASE_2 as u32) + second).to_array()
}

// The hash of sixteen bytes alone.
#[inline(always)]
fn sixteen_at(bytes: &[u8], at: usize) -> u128
    requires { at + 16 ≤ length bytes.now }
    ensures { result ≡ fold times31 0 (take 16 (drop at bytes.now)) }
{
    let (_, rest) = bytes.split_at(at);
    let [a, b, c, d] = four_hashes(rest);
    let high = u64::from(a) * BASE_4 + u64::from(b);
    let low = u64::from(c) * BASE_4 + u64::from(d);
    u128::from(high) * u128::from(BASE_8) + u128::from(low)
}

// The same, eight bytes a step.
fn continued128_by_eight(so_far: u128, bytes: &[u8]) -> u128
    ensures { result ≡ poly31_from 128 so_far bytes.now }
{
    let words = bytes.len() / 8;
    let mut hash = so_far;
    for i in 0..words {
        hash = hash
            .wrapping_mul(BASE_8 as u128)
            .wrapping_add(u128::from(eight_at(bytes, 8 * i)));
    }
    let (_, tail) = bytes.split_at(8 * words);
    continued128(hash, tail)
}

// The same, sixteen bytes a step.
fn continued128_by_sixteen(so_far: u128, bytes: &[u8]) -> u128
    ensures { result ≡ poly31_from 128 so_far bytes.now }
{
    let steps = bytes.len() / 16;
    let mut hash = so_far;
    for i in 0..steps {
        hash = hash
            .wrapping_mul(BASE_16)
            .wrapping_add(sixteen_at(bytes, 16 * i));
    }
    let (_, tail) = bytes.split_at(16 * steps);
    continued128_by_eight(hash, tail)
}

impl BlockHash for Poly31 {
    ghost hash64 = { poly31 64 };

    ghost hash128 = { poly31 128 };

    ghost has_taken = { λ stream taken. stream.so_far ≡ poly31 128 taken };

    ghost hash128_fits = { poly31-below 128 };

    fn hash64(bytes: &[u8]) -> u64 {
        continued64_by_eight(0, bytes)
    }

    #[inline(always)]
    fn hash64_behind(so_far: u64, rest: &[u8]) -> Option<u64> {
        Some(continued64_by_eight(so_far, rest))
    }

    fn hash128(bytes: &[u8]) -> u128 {
        continued128_by_sixteen(0, bytes)
    }

    fn start() -> Poly31 {
        Poly31 { so_far: 0 }
    }

    fn update(&mut self, bytes: &[u8]) {
        self.so_far = continued128_by_sixteen(self.so_far, bytes);
    }

    fn digest128(&self) -> u128 {
        self.so_far
    }
}

/// The sum of the bytes, modulo 2^64 or 2^128. Not collision-resistant.
#[derive(Clone, Copy, Debug, PartialEq, Eq)]
pub struct ByteSum {
    so_far: u128,
}

// Continues a sum of 64 bits.
fn sum64_from(so_far: u64, bytes: &[u8]) -> u64
    ensures { result ≡ byte_sum_from 64 so_far bytes.now }
{
    bytes
        .iter()
        .fold(so_far, |sum, byte| sum.wrapping_add(u64::from(*byte)))
}

// Continues a sum of 128 bits.
fn sum128_from(so_far: u128, bytes: &[u8]) -> u128
    ensures { result ≡ byte_sum_from 128 so_far bytes.now }
{
    bytes
        .iter()
        .fold(so_far, |sum, byte| sum.wrapping_add(u128::from(*byte)))
}

impl BlockHash for ByteSum {
    ghost hash64 = { byte_sum 64 };

    ghost hash128 = { byte_sum 128 };

    ghost has_taken = { λ stream taken. stream.so_far ≡ byte_sum 128 taken };

    ghost hash128_fits = { byte_sum-below 128 };

    fn hash64(bytes: &[u8]) -> u64 {
        sum64_from(0, bytes)
    }

    fn hash64_behind(so_far: u64, rest: &[u8]) -> Option<u64> {
        Some(sum64_from(so_far, rest))
    }

    fn hash128(bytes: &[u8]) -> u128 {
        sum128_from(0, bytes)
    }

    fn start() -> ByteSum {
        ByteSum { so_far: 0 }
    }

    fn update(&mut self, bytes: &[u8]) {
        self.so_far = sum128_from(self.so_far, bytes);
    }

    fn digest128(&self) -> u128 {
        self.so_far
    }
}
