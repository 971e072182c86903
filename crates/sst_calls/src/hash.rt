//! Hash functions as C gives them.
ghost use Rattle.std.specs.Prelude.{◌≡◌};
ghost use Rattle.sst_calls.specs.Hashing.{hash_given};

/// The hash function of hash index, filter and checksums.
#[derive(Clone, Copy, Debug)]
pub enum Hash {
    /// XXH3 with the seed 0, of 64 bits for keys and of 128 bits for checksums, as lsm-tree stores
    /// it.
    Xxh3,
    /// The polynomial hash of 64 and of 128 bits: from 0, times 31 plus each byte in turn.
    Poly31,
}

impl Hash {
    /// Returns the hash function of a number: 0 for XXH3, 1 for the polynomial hash.
    pub fn of_number(number: u32) -> Option<Hash>
        ensures { result ≡ hash_given number }
    {
        match number {
            0 => Some(Hash::Xxh3),
            1 => Some(Hash::Poly31),
            _ => None,
        }
    }
}
