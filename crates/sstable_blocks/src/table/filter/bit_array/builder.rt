//! Building a bit array.
ghost use Rattle.std.specs.Prelude.{◌≡◌, ◌↔◌, ◌⊎◌, ◌-◌, ◌*◌, ◌^◌};
ghost use Rattle.std.specs.Prelude.{◌<◌, ℕ, length, replicate};
ghost use Rattle.std.specs.Prelude.{bit_or, IfOk, IsOkUnless};
ghost use Rattle.sstable_blocks.specs.Bits.{HasBit};

use super::BIT_MASK;
use sst_base::{Error, Result};
use std::alloc::Global;
use std::marker::Model;

/// Sets a bit of a byte. Its index is below 8; 0 is the highest bit.
#[tactic(auto, using(crate::proofs::Filters::Bits::mask_is))]
#[inline(always)]
pub fn enable_bit(byte: u8, index: usize) -> u8
    requires { index < 8 }
    ensures { result ≡ bit_or byte (2 ^ (7 - index)) }
{
    byte | (BIT_MASK >> index)
}

/// A bit array of a fixed size. Clauses see its bytes.
#[derive(Drop)]
pub struct Builder {
    bytes: Vec<u8>,
}

impl Model for Builder {
    ghost use Rattle.std.specs.Prelude.{ℕ, List};

    ghost Value = { List ℕ };

    ghost view = { λ b. b.bytes.items };
}

impl Builder {
    /// Makes an array of this many bytes, all zero.
    ///
    /// # Errors
    ///
    /// `Error::Memory` if an allocation fails.
    pub fn with_capacity(alloc: Global, bytes: usize) -> Result<Builder>
        ensures ok { IfOk result (λ b. b ≡ replicate bytes 0) }
        ensures memory { IsOkUnless result Error.Memory }
    {
        Ok(Builder {
            bytes: vec![in alloc; 0u8; bytes]?,
        })
    }

    /// Makes an array of these bytes.
    pub fn from_bytes(bytes: Vec<u8>) -> Builder
        ensures { result ≡ bytes.items }
    {
        Builder { bytes }
    }

    /// Returns the bytes.
    pub fn bytes(&self) -> &[u8]
        ensures { result.now ≡ self.now }
    {
        &self.bytes
    }

    /// Sets the bit at an index, which lies within the array.
    #[tactic(auto, using(crate::proofs::Filters::Bits::enabled))]
    #[inline(always)]
    pub fn enable_bit(&mut self, index: usize)
        requires { index < 8 * length self.old }
        ensures length { length self.new ≡ length self.old }
        ensures bits { (i : ℕ) → HasBit self.new i ↔ (HasBit self.old i ⊎ (i ≡ index)) }
    {
        let byte = self.bytes[index / 8];
        self.bytes[index / 8] = enable_bit(byte, index % 8);
    }
}
