//! Reading a bit array.
ghost use Rattle.std.specs.Prelude.{◌≡◌, ◌↔◌, ◌-◌, ◌*◌, ◌<◌, length};
ghost use Rattle.std.specs.Prelude.{IsTrue};
ghost use Rattle.std.specs.Int.{bit_at};
ghost use Rattle.sstable_blocks.specs.Bits.{HasBit};

use super::BIT_MASK;
use std::marker::Model;

// Whether a bit of a byte is set. 0 is the highest bit.
#[inline(always)]
fn get_bit(byte: u8, index: usize) -> bool
    requires { index < 8 }
    ensures { IsTrue result ↔ (bit_at byte (7 - index) ≡ 1) }
{
    byte & (BIT_MASK >> index) > 0
}

/// A view of bytes as a bit array. Clauses see the bytes.
#[derive(Drop)]
pub struct BitArrayReader<'a> {
    bytes: &'a [u8],
}

impl<'a> Model for BitArrayReader<'a> {
    ghost use Rattle.std.specs.Prelude.{ℕ, List};

    ghost Value = { List ℕ };

    ghost view = { λ r. r.bytes.now };
}

impl<'a> BitArrayReader<'a> {
    /// Returns a view of these bytes.
    pub fn new(bytes: &'a [u8]) -> BitArrayReader<'a>
        ensures { result ≡ bytes.now }
    {
        BitArrayReader { bytes }
    }

    /// Returns the bytes.
    pub fn bytes(&self) -> &[u8]
        ensures { result.now ≡ self.now }
    {
        self.bytes
    }

    /// Returns whether the bit at an index, which lies within the array, is set.
    #[inline(always)]
    pub fn get(&self, index: usize) -> bool
        requires { index < 8 * length self.now }
        ensures { IsTrue result ↔ HasBit self.now index }
    {
        get_bit(self.bytes[index / 8], index % 8)
    }
}
