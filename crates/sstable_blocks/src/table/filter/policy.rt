//! How large a filter is.
ghost use Rattle.std.specs.Prelude.{◌≡◌, ◌↔◌, ◌*◌, ◌/◌, ◌≤◌, ◌<◌};
ghost use Rattle.std.specs.Prelude.{◌^◌, [], IsTrue, IfOk};
ghost use Rattle.std.specs.Prelude.{IsOkUnless};
ghost use Rattle.sstable_blocks.specs.Filter.{empty_filter, IsFilterOf};
ghost use Rattle.sstable_blocks.specs.Policy.{bits_per_key};

use super::standard_bloom::Builder;
use sst_base::{Error, Result};
use std::alloc::Global;

/// The greatest number of bits of a filter: its frame has at most 2^32 - 1 bytes.
pub const MAX_BITS: u64 = 34359737920;

/// How large a filter is.
#[derive(Clone, Copy, Debug, PartialEq, Eq)]
pub enum BloomConstructionPolicy {
    /// This many bits for each key; 0 for no filter.
    BitsPerKey(u32),
}

/// 10 bits for each key.
impl Default for BloomConstructionPolicy {
    fn default() -> BloomConstructionPolicy
        ensures { bits_per_key result ≡ 10 }
    {
        BloomConstructionPolicy::BitsPerKey(10)
    }
}

impl BloomConstructionPolicy {
    // The bits for each key.
    fn bits_per_key(&self) -> u32
        ensures { result ≡ bits_per_key self.now }
    {
        let BloomConstructionPolicy::BitsPerKey(bits) = self;
        *bits
    }

    /// Makes a builder of a filter for `n` keys, at least 1. The policy is active, and the bits
    /// fit.
    ///
    /// # Errors
    ///
    /// `Error::Memory` if an allocation fails.
    pub fn init(&self, alloc: Global, n: usize) -> Result<Builder>
        requires some { 1 ≤ n }
        requires active { 1 ≤ bits_per_key self.now }
        requires fits { n * bits_per_key self.now ≤ MAX_BITS }
        ensures ok { IfOk result (λ b. b ≡ empty_filter n (bits_per_key self.now)) }
        ensures empty { IfOk result (λ b. IsFilterOf [] b) }
        ensures memory { IsOkUnless result Error.Memory }
    {
        Builder::with_bpk(alloc, n, self.bits_per_key())
    }

    /// Returns whether there is a filter at all.
    pub fn is_active(&self) -> bool
        ensures { IsTrue result ↔ (1 ≤ bits_per_key self.now) }
    {
        self.bits_per_key() > 0
    }

    /// Returns whether the bits for `n` keys are at most [`MAX_BITS`].
    pub fn fits(&self, n: usize) -> bool
        ensures { IsTrue result ↔ (n * bits_per_key self.now ≤ MAX_BITS) }
    {
        match (n as u64).checked_mul(u64::from(self.bits_per_key())) {
            Some(bits) => bits <= MAX_BITS,
            None => false,
        }
    }

    /// Returns the number of bytes of the bits for `n` keys, rounded down. There are fewer than
    /// 2^64 bits.
    pub fn estimated_filter_size(&self, n: usize) -> usize
        requires { n * bits_per_key self.now < 2 ^ 64 }
        ensures { result ≡ n * bits_per_key self.now / 8 }
    {
        n * self.bits_per_key() as usize / 8
    }
}
