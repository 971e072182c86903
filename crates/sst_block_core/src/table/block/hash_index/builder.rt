//! Collecting the hash index of a block.
ghost use Rattle.std.specs.Prelude.{◌≡◌, ◌≢◌, ◌↔◌, ◌++◌, ◌≤◌, ◌<◌};
ghost use Rattle.std.specs.Prelude.{◌%◌, ◌^◌, length, slice_index, slice_set};
ghost use Rattle.std.specs.Prelude.{replicate, IsTrue, IfOk, OnOk, IsOkUnless, []};
ghost use Rattle.sst_block_core.specs.Buckets.{bucket_count, bucket_byte_with, begun, noted};
ghost use Rattle.sst_block_core.specs.Buckets.{AreFew};

use super::{MARKER_CONFLICT, MARKER_FREE};
use crate::table::block::key_parts::{KeyParts, hash_parts};
use sst_base::{AllocResult, BlockHash, Error, HashRatio, Result};
use std::alloc::Global;
use std::marker::{Model, PhantomData};

/// The greatest number of heads for which a hash index is stored.
pub const MAX_POINTERS_FOR_HASH_INDEX: usize = 254;

/// Collects the buckets of a hash index. Clauses see their bytes.
#[derive(Drop)]
pub struct Builder<H: BlockHash> {
    hash: PhantomData<H>,
    buckets: Vec<u8>,
}

impl<H: BlockHash> Model for Builder<H> {
    ghost use Rattle.std.specs.Prelude.{ℕ, List, length, ◌<◌, ◌^◌};

    ghost Value = { List ℕ };

    ghost view = { λ b. b.buckets.items };

    ghost invariant = { λ b. length b.buckets.items < 2 ^ 32 };
}

impl<H: BlockHash> Builder<H> {
    /// Makes a builder without buckets. Takes no memory.
    pub(crate) fn new(alloc: Global) -> Builder<H>
        ensures { result ≡ [] }
    {
        Builder {
            hash: PhantomData,
            buckets: Vec::new(alloc),
        }
    }

    /// Makes a builder of this many buckets, all free.
    ///
    /// # Errors
    ///
    /// `Error::Memory` if an allocation fails.
    pub fn with_bucket_count(alloc: Global, bucket_count: u32) -> Result<Builder<H>>
        ensures ok { IfOk result (λ b. b ≡ replicate bucket_count 254) }
        ensures memory { IsOkUnless result Error.Memory }
    {
        let buckets = vec![in alloc; MARKER_FREE; bucket_count as usize]?;
        Ok(Builder {
            hash: PhantomData,
            buckets,
        })
    }

    /// Makes a builder of the number of buckets that a ratio gives for a number of items, all free.
    /// The denominator is at least 1.
    ///
    /// # Errors
    ///
    /// `Error::Memory` if an allocation fails.
    pub fn with_hash_ratio(alloc: Global, item_count: usize, ratio: HashRatio) -> Result<Builder<H>>
        requires { 1 ≤ ratio.den }
        ensures ok { IfOk result
            (λ b. b ≡ replicate (bucket_count ratio.num ratio.den item_count) 254) }
        ensures memory { IsOkUnless result Error.Memory }
    {
        Builder::with_bucket_count(alloc, bucket_count(item_count, ratio))
    }

    /// Returns the number of buckets.
    pub fn bucket_count(&self) -> u32
        ensures { result ≡ length self.now }
    {
        self.buckets.len() as u32
    }

    /// Notes that a key is in the restart interval with this number, at most 253. There is at
    /// least one bucket. Returns `false` exactly if the key's bucket has a conflict now.
    pub fn set(&mut self, key: &[u8], interval_number: u8) -> bool
        requires some { 0 < length self.old }
        requires number { interval_number ≤ 253 }
        ensures bytes { self.new
            ≡ slice_set self.old (H.hash64 key.now % length self.old)
            (bucket_byte_with (slice_index self.old (H.hash64 key.now % length self.old))
            interval_number) }
        ensures free { IsTrue result
            ↔ (slice_index self.new (H.hash64 key.now % length self.old) ≢ 255) }
    {
        let index = bucket_index::<H>(key, self.buckets.len());
        self.set_at(index, interval_number)
    }

    /// Notes that a key of the bucket at this index is in the restart interval with this
    /// number. Returns `false` exactly if the bucket has a conflict now.
    #[inline(always)]
    pub(crate) fn set_at(&mut self, index: usize, interval_number: u8) -> bool
        requires { index < length self.old }
        ensures bytes { self.new
            ≡ slice_set self.old index
            (bucket_byte_with (slice_index self.old index) interval_number) }
        ensures free { IsTrue result ↔ (slice_index self.new index ≢ 255) }
    {
        let byte = byte_with(self.buckets[index], interval_number);
        self.buckets[index] = byte;
        byte != MARKER_CONFLICT
    }

    /// Begins the last of this many restart intervals, for the encoder: makes this many buckets,
    /// all free, at the first interval, and drops them at the first for which no bucket has a
    /// number.
    ///
    /// # Errors
    ///
    /// `AllocError` if an allocation fails.
    #[inline(always)]
    pub(crate) fn begin_interval(&mut self, heads: usize, bucket_count: u32) -> AllocResult<()>
        ensures { OnOk result (self.new ≡ begun heads bucket_count self.old) }
    {
        let alloc = *self.buckets.allocator();
        if heads == 1 {
            self.buckets = vec![in alloc; MARKER_FREE; bucket_count as usize]?;
        } else if heads == MAX_POINTERS_FOR_HASH_INDEX + 1 {
            self.buckets = Vec::new(alloc);
        }
        Ok(())
    }

    /// Notes that a key is in the last of this many restart intervals, if there are buckets.
    ///
    /// # Errors
    ///
    /// `AllocError` if an allocation fails.
    #[inline(always)]
    pub(crate) fn note_key(&mut self, key: KeyParts<'_>, heads: usize) -> AllocResult<()>
        requires { AreFew heads self.old }
        ensures { OnOk result
            (self.new ≡ noted H.hash64 (key.entry.0.now ++ key.entry.1.now) heads self.old) }
    {
        let count = self.buckets.len();
        if count == 0 {
            return Ok(());
        }
        let alloc = *self.buckets.allocator();
        let hash = hash_parts::<H>(alloc, key)?;
        self.set_at(index_of(hash, count), (heads - 1) as u8);
        Ok(())
    }

    /// Returns the bytes of the buckets, borrowed.
    pub(crate) fn as_slice(&self) -> &[u8]
        ensures { result.now ≡ self.now }
    {
        self.buckets.as_slice()
    }

    /// Returns the bytes of the buckets.
    pub fn into_inner(self) -> Vec<u8>
        ensures { result.items ≡ self }
    {
        self.buckets
    }

    /// Appends the bytes of the buckets.
    ///
    /// # Errors
    ///
    /// `Error::Memory` if an allocation fails. The vector may then hold a partial write.
    pub fn write(self, writer: &mut Vec<u8>) -> Result<()>
        ensures ok { OnOk result (writer.new.items ≡ writer.old.items ++ self) }
        ensures memory { IsOkUnless result Error.Memory }
    {
        writer.extend_from_slice(self.buckets.as_slice())?;
        Ok(())
    }
}

/// Returns the index of a key's bucket, of at least one.
pub(crate) fn bucket_index<H: BlockHash>(key: &[u8], bucket_count: usize) -> usize
    requires { 0 < bucket_count }
    ensures index { result ≡ H.hash64 key.now % bucket_count }
    ensures range { result < bucket_count }
{
    index_of(H::hash64(key), bucket_count)
}

// The index of the bucket of a hash, of at least one.
#[inline(always)]
fn index_of(hash: u64, bucket_count: usize) -> usize
    requires { 0 < bucket_count }
    ensures index { result ≡ hash % bucket_count }
    ensures range { result < bucket_count }
{
    (hash % bucket_count as u64) as usize
}

// The byte of a bucket into which one interval number more falls.
fn byte_with(byte: u8, interval_number: u8) -> u8
    ensures { result ≡ bucket_byte_with byte interval_number }
{
    if byte == MARKER_FREE {
        interval_number
    } else if byte == interval_number {
        byte
    } else {
        MARKER_CONFLICT
    }
}

/// Returns the number of buckets that a ratio gives for a number of items: none for a numerator of
/// 0, else the product rounded down, at least 1 and at most 2^32 - 1. The denominator is at least
/// 1.
pub fn bucket_count(item_count: usize, ratio: HashRatio) -> u32
    requires { 1 ≤ ratio.den }
    ensures { result ≡ bucket_count ratio.num ratio.den item_count }
{
    if ratio.num == 0 {
        return 0;
    }
    let buckets = item_count as u128 * u128::from(ratio.num) / u128::from(ratio.den);
    u32::try_from(buckets).unwrap_or(u32::MAX).max(1)
}
