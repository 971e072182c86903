//! What a stream keeps of the bytes that it was given.
ghost use Rattle.std.specs.Prelude.{◌≡◌, ◌≤◌, ◌<◌, length};

use crate::hash64::hash64_by;
use crate::hash128::{hash128_by, joined};
use crate::secret::secret;
use crate::sums::{BLOCK_STRIPES, STRIPE_LEN, first_sums, merged, with_stripe, with_stripes};
use crate::window::{put, put_last};
use crate::words::{Halves, PRIME64_1, PRIME64_2};
use std::simd::prelude::*;

// The greatest number of bytes that wait.
const BUFFER_LEN: usize = 256;

// The length of a stripe and of those bytes.
const WINDOW_LEN: usize = 320;

/// The sums of the stripes of the bytes given so far, and the bytes that wait.
#[derive(Drop)]
pub(crate) struct State {
    // The sums of all stripes but those that wait.
    sums: [u64; 8],
    // The last stripe in the sums, and the bytes that wait.
    window: [u8; WINDOW_LEN],
    // How many bytes wait.
    filled: usize,
    // How many stripes of the block that is not full the sums have.
    place: usize,
    // Whether the sums have a stripe.
    has_stripes: bool,
    // The length of all bytes, modulo 2^64.
    total: u64,
    ghost in_window: { filled ≤ 256 },
    ghost in_block: { place < 16 },
}

impl State {
    ghost use Rattle.std.specs.Prelude.{ℕ, ◌+◌, ◌-◌, ◌*◌, ◌/◌, List, [], ◌++◌};
    ghost use Rattle.std.specs.Prelude.{true};
    ghost use Rattle.xxh3.specs.Xxh3.{default_secret, xxh3_64, xxh3_128, message_sums, hash64_by};
    ghost use Rattle.xxh3.specs.Xxh3.{hash128_by};
    ghost use Rattle.xxh3.specs.Held.{IsFedAt, IsFed};

    /// Starts with no bytes.
    #[inline(always)]
    pub(crate) fn new() -> State
        ensures { IsFed result [] }
    {
        State {
            sums: first_sums().to_array(),
            window: [0; WINDOW_LEN],
            filled: 0,
            place: 0,
            has_stripes: false,
            total: 0,
        }
    }

    /// Adds bytes.
    pub(crate) fn update(&mut self, bytes: &[u8])
        ensures { (message : List ℕ) → IsFed self.old message → IsFed self.new (message ++
            bytes.now) }
    {
        let room = BUFFER_LEN - self.filled;
        if bytes.len() <= room {
            self.wait(bytes);
        } else {
            let (front, rest) = bytes.split_at(room);
            self.wait(front);
            self.add_buffer();
            self.add_stripes(rest);
        }
    }

    // Puts bytes after those that wait.
    #[inline(always)]
    fn wait(&mut self, bytes: &[u8])
        requires { self.old.filled + length bytes.now ≤ 256 }
        ensures filled { self.new.filled ≡ self.old.filled + length bytes.now }
        ensures stripes { self.new.has_stripes ≡ self.old.has_stripes }
        ensures held { (message : List ℕ) (n : ℕ) → IsFedAt self.old message n
            → IsFedAt self.new (message ++ bytes.now) n }
    {
        put(&mut self.window, STRIPE_LEN + self.filled, bytes);
        self.filled += bytes.len();
        self.total = self.total.wrapping_add(bytes.len() as u64);
    }

    // Adds the four stripes that wait.
    fn add_buffer(&mut self)
        requires { self.old.filled ≡ 256 }
        ensures filled { self.new.filled ≡ 0 }
        ensures stripes { self.new.has_stripes ≡ true }
        ensures held { (message : List ℕ) (n : ℕ) → IsFedAt self.old message n
            → IsFedAt self.new message (n + 4) }
    {
        let sums = u64x8::from_array(self.sums);
        self.sums = with_stripes(
            secret(),
            sums,
            &self.window,
            STRIPE_LEN,
            self.place,
            4,
        ).to_array();
        let mut last = [0; STRIPE_LEN];
        last.copy_from_slice(&self.window[BUFFER_LEN..]);
        put(&mut self.window, 0, &last);
        self.filled = 0;
        self.place = (self.place + 4) % BLOCK_STRIPES;
        self.has_stripes = true;
    }

    // Adds the stripes of the bytes but the last one, which waits.
    fn add_stripes(&mut self, bytes: &[u8])
        requires empty { self.old.filled ≡ 0 }
        requires stripes { self.old.has_stripes ≡ true }
        requires some { 0 < length bytes.now }
        ensures filled { 0 < self.new.filled }
        ensures held { (message : List ℕ) (n : ℕ) → IsFedAt self.old message n
            → IsFedAt self.new (message ++ bytes.now) (n + (length bytes.now - 1) / 64) }
    {
        let count = (bytes.len() - 1) / STRIPE_LEN;
        let sums = u64x8::from_array(self.sums);
        self.sums = with_stripes(secret(), sums, bytes, 0, self.place, count).to_array();
        let (stripes, rest) = bytes.split_at(STRIPE_LEN * count);
        put_last(&mut self.window, stripes);
        put(&mut self.window, STRIPE_LEN, rest);
        self.filled = rest.len();
        self.place = (self.place + count) % BLOCK_STRIPES;
        self.total = self.total.wrapping_add(bytes.len() as u64);
    }

    // The sums of all bytes.
    #[inline(always)]
    fn message_sums(&self) -> [u64; 8]
        requires { 0 < self.now.filled }
        ensures { (message : List ℕ) (n : ℕ) → IsFedAt self.now message n → 4 ≤ n
            → result ≡ message_sums default_secret message }
    {
        let count = (self.filled - 1) / STRIPE_LEN;
        let start = u64x8::from_array(self.sums);
        let sums = with_stripes(secret(), start, &self.window, STRIPE_LEN, self.place, count);
        with_stripe(secret(), sums, &self.window, self.filled, 121).to_array()
    }

    /// Returns the hash of all bytes, of 64 bits.
    pub(crate) fn digest64(&self) -> u64
        ensures { (message : List ℕ) → IsFed self.now message → result ≡ xxh3_64 message }
    {
        if !self.has_stripes || self.filled == 0 {
            return hash64_by(secret(), &self.window[STRIPE_LEN..STRIPE_LEN + self.filled]);
        }
        let sums = self.message_sums();
        merged(secret(), &sums, 11, self.total.wrapping_mul(PRIME64_1))
    }

    /// Returns the hash of all bytes, of 128 bits.
    pub(crate) fn digest128(&self) -> u128
        ensures { (message : List ℕ) → IsFed self.now message → result ≡ xxh3_128 message }
    {
        if !self.has_stripes || self.filled == 0 {
            return joined(hash128_by(secret(), &self.window[STRIPE_LEN..STRIPE_LEN + self.filled]));
        }
        let sums = self.message_sums();
        let low = merged(secret(), &sums, 11, self.total.wrapping_mul(PRIME64_1));
        let start = u64::MAX - self.total.wrapping_mul(PRIME64_2);
        let high = merged(secret(), &sums, 117, start);
        joined(Halves { low, high })
    }
}
