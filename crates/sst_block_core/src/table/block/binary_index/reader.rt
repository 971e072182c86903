//! Reading the binary index of a block.
ghost use Rattle.std.specs.Prelude.{◌≡◌, ◌+◌, ◌*◌, ◌≤◌, ◌<◌};
ghost use Rattle.std.specs.Prelude.{◌⊎◌, take, drop, length};
ghost use Rattle.std.specs.Prelude.{slice_index, nat_eq};
ghost use Rattle.sst_block_core.specs.Pointers.{pointers_in};

use byteorder::{ByteOrder, LittleEndian};
use std::marker::Model;

/// The pointers of a binary index, in 2 or 4 bytes each. Clauses see the list of pointers.
#[derive(Drop)]
pub struct Reader<'a> {
    bytes: &'a [u8],
    width: u8,
}

impl<'a> Model for Reader<'a> {
    ghost use Rattle.std.specs.Prelude.{ℕ, List, ◌≡◌, ◌⊎◌};
    ghost use Rattle.sst_block_core.specs.Pointers.{pointers_in};

    ghost Value = { List ℕ };

    ghost view = { λ r. pointers_in r.width r.bytes.now };

    ghost invariant = { λ r. (r.width ≡ 2) ⊎ (r.width ≡ 4) };
}

impl<'a> Reader<'a> {
    /// Returns a view of `len` pointers of `width` bytes, 2 or 4, from an offset on. All lie within
    /// the bytes.
    #[inline(always)]
    pub fn new(bytes: &'a [u8], offset: u32, len: u32, width: u8) -> Reader<'a>
        requires width { (width ≡ 2) ⊎ (width ≡ 4) }
        requires inside { offset + len * width ≤ length bytes.now }
        ensures { result ≡ pointers_in width (take (len * width) (drop offset bytes.now)) }
    {
        // A slice has fewer than 2^63 bytes.
        let _size = bytes.len();
        let (_, rest) = bytes.split_at(offset as usize);
        let (bytes, _) = rest.split_at(len as usize * usize::from(width));
        Reader { bytes, width }
    }

    /// Returns the number of pointers.
    #[tactic(auto, using(crate::proofs::Places::PointerReads::pointers_count))]
    pub fn len(&self) -> usize
        ensures { result ≡ length self.now }
    {
        self.bytes.len() / usize::from(self.width)
    }

    /// Returns whether there are no pointers.
    pub fn is_empty(&self) -> bool
        ensures { result ≡ nat_eq (length self.now) 0 }
    {
        self.len() == 0
    }

    /// Returns the pointer at an index, which is below the number of pointers.
    #[tactic(auto, using(crate::proofs::Places::PointerReads::pointer_inside, crate::proofs::Places::PointerReads::pointer_is))]
    pub fn get(&self, index: usize) -> usize
        requires { index < length self.now }
        ensures { result ≡ slice_index self.now index }
    {
        // A slice has fewer than 2^63 bytes.
        let _size = self.bytes.len();
        let (_, rest) = self.bytes.split_at(index * usize::from(self.width));
        if self.width == 2 {
            usize::from(LittleEndian::read_u16(rest))
        } else {
            LittleEndian::read_u32(rest) as usize
        }
    }
}
