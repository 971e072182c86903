//! Building a standard Bloom filter.
ghost use Rattle.std.specs.Prelude.{◌≡◌, ◌↔◌, ◌⊎◌, ℕ, ◌*◌, ◌≤◌, List};
ghost use Rattle.std.specs.Prelude.{[], ◌∷◌, ◌++◌, length, IfOk};
ghost use Rattle.std.specs.Prelude.{IsOkUnless};
ghost use Rattle.sstable_blocks.specs.Bits.{HasBit};
ghost use Rattle.sstable_blocks.specs.Probes.{secondary_hash, IsProbe};
ghost use Rattle.sstable_blocks.specs.Filter.{empty_filter, filter_payload, IsFilterOf};

use super::HASH_TYPE;
use crate::table::filter::bit_array;
use crate::table::filter::filter_type::FilterType;
use crate::table::filter::policy::MAX_BITS;
use sst_base::table::block::header::MAGIC;
use sst_base::{BlockHash, Divisor, Error, Result};
use std::alloc::Global;
use std::marker::Model;

// The second hash is the high half of the first, times this number.
const MULTIPLIER: u64 = 0x51_7c_c1_b7_27_22_0a_95;

// The number of probes for a million bits per key: a million times the logarithm of 2.
const PROBES_PER_MILLION_BITS: u64 = 693147;

const MILLION: u64 = 1000000;

/// Returns the second hash, from the high 32 bits of the first.
#[inline(always)]
pub fn secondary_hash(hash: u64) -> u64
    ensures { result ≡ secondary_hash hash }
{
    (hash >> 32).wrapping_mul(MULTIPLIER)
}

/// Builds a standard Bloom filter. Clauses see a `Filter`: the number of bits, that of probes, and
/// the bits.
#[derive(Drop)]
pub struct Builder {
    inner: bit_array::Builder,
    m: Divisor,
    k: u64,
}

impl Model for Builder {
    ghost use Rattle.sstable_blocks.specs.Filter.{Filter, HasProbes};

    ghost Value = { Filter };

    ghost view = { λ b. record { m = b.m; k = b.k; bits = b.inner } };

    ghost invariant = { λ b. HasProbes (record { m = b.m; k = b.k; bits = b.inner }) };
}

impl Builder {
    /// Makes a builder of a filter for `n` keys at `bpk` bits each, both at least 1, with at most
    /// [`MAX_BITS`] bits.
    ///
    /// # Errors
    ///
    /// `Error::Memory` if an allocation fails.
    #[tactic(auto, using(crate::proofs::Filters::Counts::probes_below_bits))]
    pub fn with_bpk(alloc: Global, n: usize, bpk: u32) -> Result<Builder>
        requires some { 1 ≤ n }
        requires active { 1 ≤ bpk }
        requires fits { n * bpk ≤ MAX_BITS }
        ensures ok { IfOk result (λ b. b ≡ empty_filter n bpk) }
        ensures empty { IfOk result (λ b. IsFilterOf [] b) }
        ensures memory { IsOkUnless result Error.Memory }
    {
        let bytes = (n as u64 * u64::from(bpk)).div_ceil(8);
        let k = (u64::from(bpk) * PROBES_PER_MILLION_BITS / MILLION).max(1);
        Ok(Builder {
            inner: bit_array::Builder::with_capacity(alloc, bytes as usize)?,
            m: Divisor::new(bytes * 8),
            k,
        })
    }

    /// Inserts a hash: sets the bits of its probes.
    pub fn set_with_hash(&mut self, hash: u64)
        ensures m { self.new.m ≡ self.old.m }
        ensures k { self.new.k ≡ self.old.k }
        ensures bits { (bit : ℕ) → HasBit self.new.bits bit
            ↔ (HasBit self.old.bits bit ⊎ IsProbe self.old.m self.old.k hash bit) }
        ensures inserted { (hashes : List ℕ) → IsFilterOf hashes self.old
            → IsFilterOf (hashes ++ hash ∷ []) self.new }
    {
        enable_probes(&mut self.inner, &self.m, self.k, hash);
    }

    /// Returns the hash of a key.
    #[inline(always)]
    pub fn get_hash<H: BlockHash>(key: &[u8]) -> u64
        ensures { result ≡ H.hash64 key.now }
    {
        H::hash64(key)
    }

    /// Returns the payload of the filter.
    ///
    /// # Errors
    ///
    /// `Error::Memory` if an allocation fails.
    #[tactic(auto, unfolding(crate::specs::Filter::filter_payload))]
    pub fn build(&self, alloc: Global) -> Result<Vec<u8>>
        ensures ok { IfOk result (λ v. v.items ≡ filter_payload self.now) }
        ensures memory { IsOkUnless result Error.Memory }
    {
        let mut payload = Vec::new(alloc);
        payload.extend_from_slice(&MAGIC)?;
        payload.push(u8::from(FilterType::StandardBloom))?;
        payload.push(HASH_TYPE)?;
        payload.extend_from_slice(&self.m.get().to_le_bytes())?;
        payload.extend_from_slice(&self.k.to_le_bytes())?;
        payload.extend_from_slice(self.inner.bytes())?;
        Ok(payload)
    }
}

// Sets the bits of the first k probes of a hash.
#[inline(always)]
fn enable_probes(bits: &mut bit_array::Builder, m: &Divisor, k: u64, hash: u64)
    requires m { m.now ≡ 8 * length bits.old }
    requires some { 1 ≤ m.now }
    ensures length { length bits.new ≡ length bits.old }
    ensures bits { (bit : ℕ) → HasBit bits.new bit
        ↔ (HasBit bits.old bit ⊎ IsProbe m.now k hash bit) }
{
    let mut first = hash;
    let mut second = secondary_hash(hash);
    for i in 0..k {
        bits.enable_bit(m.remainder(first) as usize);
        first = first.wrapping_add(second);
        second = second.wrapping_mul(i + 1);
    }
}
