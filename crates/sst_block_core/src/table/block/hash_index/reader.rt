//! Reading the hash index of a block.
ghost use Rattle.std.specs.Prelude.{◌≡◌, ◌+◌, ◌==◌, ◌≤◌, ◌<◌, ◌%◌};
ghost use Rattle.std.specs.Prelude.{take, drop, length, slice_index};
ghost use Rattle.std.specs.Prelude.{count_by};
ghost use Rattle.sst_block_core.specs.Lookups.{lookup_in};

use super::builder::bucket_index;
use super::{MARKER_CONFLICT, MARKER_FREE};
use sst_base::BlockHash;
use std::marker::{Model, PhantomData};

/// Where the items with a key can be, by the key's bucket.
#[derive(Clone, Copy, Debug, PartialEq, Eq)]
pub enum Lookup {
    /// The bucket is free: there are none.
    Nowhere,
    /// In the restart interval with this number alone.
    Interval(u8),
    /// The bucket has a conflict, or there is none: in any interval.
    Anywhere,
}

/// The buckets of a hash index. Clauses see their bytes.
#[derive(Drop)]
pub struct Reader<'a, H: BlockHash> {
    hash: PhantomData<H>,
    buckets: &'a [u8],
}

impl<'a, H: BlockHash> Model for Reader<'a, H> {
    ghost use Rattle.std.specs.Prelude.{ℕ, List};

    ghost Value = { List ℕ };

    ghost view = { λ r. r.buckets.now };
}

impl<'a, H: BlockHash> Reader<'a, H> {
    /// Returns a view of `len` buckets from an offset on. All lie within the bytes.
    pub fn new(bytes: &'a [u8], offset: u32, len: u32) -> Reader<'a, H>
        requires { offset + len ≤ length bytes.now }
        ensures { result ≡ take len (drop offset bytes.now) }
    {
        let (_, rest) = bytes.split_at(offset as usize);
        let (buckets, _) = rest.split_at(len as usize);
        Reader {
            hash: PhantomData,
            buckets,
        }
    }

    /// Returns the number of buckets.
    pub fn bucket_count(&self) -> usize
        ensures { result ≡ length self.now }
    {
        self.buckets.len()
    }

    /// Returns the number of buckets with a conflict.
    pub fn conflict_count(&self) -> usize
        ensures { result ≡ count_by (λ byte. byte == 255) self.now }
    {
        self.buckets
            .iter()
            .filter(|byte| **byte == MARKER_CONFLICT)
            .count()
    }

    /// Returns the byte of a key's bucket. There is at least one bucket.
    pub fn get(&self, key: &[u8]) -> u8
        requires { 0 < length self.now }
        ensures { result ≡ slice_index self.now (H.hash64 key.now % length self.now) }
    {
        self.buckets[bucket_index::<H>(key, self.buckets.len())]
    }

    /// Returns what the bucket of a key says. There is at least one bucket.
    pub fn lookup(&self, key: &[u8]) -> Lookup
        requires { 0 < length self.now }
        ensures { result ≡ lookup_in H.hash64 self.now key.now }
    {
        match self.get(key) {
            MARKER_FREE => Lookup::Nowhere,
            MARKER_CONFLICT => Lookup::Anywhere,
            number => Lookup::Interval(number),
        }
    }
}
