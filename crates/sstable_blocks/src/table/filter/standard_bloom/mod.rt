//! Standard Bloom filters: two hashes make all probes of a key.
ghost use Rattle.std.specs.Prelude.{◌≡◌, ◌↔◌, ◌+◌, ◌≤◌, length, drop, IsTrue, Ok};
ghost use Rattle.byteorder.specs.Endian.{little_number};
ghost use Rattle.sstable_blocks.specs.Filter.{filter_at, HasProbes, MayContain};
ghost use Rattle.sstable_blocks.specs.RunReading.{filter_answer};

pub mod builder;

use super::bit_array::BitArrayReader;
use super::filter_type::FilterType;
pub use builder::{Builder, secondary_hash};
use byteorder::{ByteOrder, LittleEndian};
use sst_base::table::block::header::MAGIC;
use sst_base::{BlockHash, Divisor, Error, HeaderName, Result, TagName};
use std::marker::Model;

// The only hash type.
const HASH_TYPE: u8 = 0;

// Where the fields of a payload are: see the table at `StandardBloomFilterReader`.
const TYPE_AT: usize = 4;

const HASH_TYPE_AT: usize = 5;

const M_AT: usize = 6;

const K_AT: usize = 14;

const BITS_AT: usize = 22;

/// The numbers of a filter. Clauses see them.
#[derive(Drop)]
pub(crate) struct FilterShape {
    // The number of bits.
    pub(crate) m: Divisor,
    // The number of probes of a hash.
    pub(crate) k: u64,
}

// Whether the bit of each probe of a hash is set.
#[inline(always)]
fn has_probes(bits: &BitArrayReader<'_>, shape: &FilterShape, hash: u64) -> bool
    requires { HasProbes (record { m = shape.now.m; k = shape.now.k; bits = bits.now }) }
    ensures { IsTrue result
        ↔ MayContain (record { m = shape.now.m; k = shape.now.k; bits = bits.now }) hash }
{
    let mut first = hash;
    let mut second = secondary_hash(hash);
    for i in 0..shape.k {
        if !bits.get(shape.m.remainder(first) as usize) {
            return false;
        }
        first = first.wrapping_add(second);
        second = second.wrapping_mul(i + 1);
    }
    true
}

impl FilterShape {
    /// Returns whether a filter with these numbers, whose payload this is, may contain a hash.
    #[inline(always)]
    pub(crate) fn allows(&self, payload: &[u8], hash: u64) -> bool
        requires { filter_at payload.now
            ≡ Ok (record { m = self.now.m; k = self.now.k; bits = drop 22 payload.now }) }
        ensures { Ok result ≡ filter_answer payload.now hash }
    {
        let (_, bits) = payload.split_at(BITS_AT);
        has_probes(&BitArrayReader::new(bits), self, hash)
    }
}

/// Reads a standard Bloom filter from its payload.
///
/// | At | Bytes | Content |
/// |---|---|---|
/// | 0 | 4 | magic 4c534d03 |
/// | 4 | 1 | filter type, 0 |
/// | 5 | 1 | hash type, 0 |
/// | 6 | 8 | m, the number of bits |
/// | 14 | 8 | k, the number of probes |
/// | 22 | m / 8 | bits; bit i is mask 128 >> (i mod 8) of byte i / 8 |
///
/// Numbers are little-endian. Clauses see a `Filter`: m, k and the bits.
#[derive(Drop)]
pub struct StandardBloomFilterReader<'a> {
    inner: BitArrayReader<'a>,
    shape: FilterShape,
}

impl<'a> Model for StandardBloomFilterReader<'a> {
    ghost use Rattle.sstable_blocks.specs.Filter.{Filter, HasProbes};

    ghost Value = { Filter };

    ghost view = { λ r. record { m = r.shape.m; k = r.shape.k; bits = r.inner } };

    ghost invariant = { λ r. HasProbes (record { m = r.shape.m; k = r.shape.k; bits = r.inner }) };
}

// The number of eight bytes at an offset.
fn number_at(bytes: &[u8], at: usize) -> u64
    requires { at + 8 ≤ length bytes.now }
    ensures { result ≡ little_number 8 (drop at bytes.now) }
{
    let (_, rest) = bytes.split_at(at);
    LittleEndian::read_u64(rest)
}

impl<'a> StandardBloomFilterReader<'a> {
    /// Reads a payload. Takes no memory.
    ///
    /// # Errors
    ///
    /// In this order: `Error::Truncated` below 22 bytes, `Error::InvalidHeader` if the magic
    /// differs, `Error::InvalidTag` if the filter type or the hash type is not 0,
    /// `Error::BadFilter` if m is not 8 times the number of bytes that follow, or k is not 1 to m.
    #[tactic(auto, unfolding(crate::specs::Filter::filter_at))]
    pub fn new(bytes: &'a [u8]) -> Result<StandardBloomFilterReader<'a>>
        ensures { result ≡ filter_at bytes.now }
    {
        if bytes.len() < BITS_AT {
            return Err(Error::Truncated);
        }
        let (magic, _) = bytes.split_at(TYPE_AT);
        if magic != MAGIC.as_slice() {
            return Err(Error::InvalidHeader(HeaderName::BloomFilter));
        }
        if bytes[TYPE_AT] != u8::from(FilterType::StandardBloom) {
            return Err(Error::InvalidTag(TagName::FilterType, bytes[TYPE_AT]));
        }
        if bytes[HASH_TYPE_AT] != HASH_TYPE {
            return Err(Error::InvalidTag(TagName::HashType, bytes[HASH_TYPE_AT]));
        }
        let m = number_at(bytes, M_AT);
        let k = number_at(bytes, K_AT);
        let (_, bits) = bytes.split_at(BITS_AT);
        if m / 8 != bits.len() as u64 || m % 8 != 0 || k == 0 || m < k {
            return Err(Error::BadFilter);
        }
        Ok(StandardBloomFilterReader {
            inner: BitArrayReader::new(bits),
            shape: FilterShape {
                m: Divisor::new(m),
                k,
            },
        })
    }

    /// Returns the length of the bits in bytes.
    pub fn len(&self) -> usize
        ensures { result ≡ length self.now.bits }
    {
        self.inner.bytes().len()
    }

    /// Returns the number of probes of a hash.
    pub fn probe_count(&self) -> u64
        ensures { result ≡ self.now.k }
    {
        self.shape.k
    }

    /// Returns the bytes of the bits.
    pub fn bits(&self) -> &[u8]
        ensures { result.now ≡ self.now.bits }
    {
        self.inner.bytes()
    }

    /// Returns whether the bit of each probe of a hash is set. `true` for each hash that was
    /// inserted, and for some that were not.
    pub fn contains_hash(&self, hash: u64) -> bool
        ensures { IsTrue result ↔ MayContain self.now hash }
    {
        has_probes(&self.inner, &self.shape, hash)
    }

    /// Returns its numbers.
    pub(crate) fn into_shape(self) -> FilterShape
        ensures { result ≡ record { m = self.entry.m; k = self.entry.k } }
    {
        self.shape
    }

    /// Returns the same for the hash of a key.
    #[inline(always)]
    pub fn contains<H: BlockHash>(&self, key: &[u8]) -> bool
        ensures { IsTrue result ↔ MayContain self.now (H.hash64 key.now) }
    {
        self.contains_hash(Builder::get_hash::<H>(key))
    }
}
