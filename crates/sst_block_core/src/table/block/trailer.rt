//! The trailer of a block: the 31 bytes at its end that say where its parts are.
#![tactic(auto, unfolding(crate::specs::Trailer::trailer_from))]

ghost use Rattle.std.specs.Prelude.{◌≡◌, ◌+◌, ◌-◌, ◌≤◌, ◌++◌, drop, length};
ghost use Rattle.std.specs.Prelude.{OnOk, IsOkUnless};
ghost use Rattle.byteorder.specs.Endian.{little_number};
ghost use Rattle.sst_block_core.specs.Passes.{trailer_by};
ghost use Rattle.sst_block_core.specs.Trailer.{trailer, trailer_bytes, trailer_in};

use byteorder::{ByteOrder, LittleEndian};
use sst_base::{Error, Result};
use std::marker::Model;

/// The byte after the items of a block. No item begins with it.
pub const TRAILER_START_MARKER: u8 = 255;

/// The length of a trailer in bytes.
pub const TRAILER_SIZE: usize = 31;

// Where the fields of a trailer are: see the table at `Trailer`.
const WIDTH_AT: usize = 1;

const HEADS_AT: usize = 2;

const INDEX_OFFSET_AT: usize = 6;

const HASH_LEN_AT: usize = 10;

const HASH_OFFSET_AT: usize = 14;

pub(crate) const TRUNCATION_FLAG_AT: usize = 18;

pub(crate) const ITEM_COUNT_AT: usize = 27;

/// A view of the trailer of a block.
///
/// | At | Bytes | Content |
/// |---|---|---|
/// | 0 | 1 | restart interval |
/// | 1 | 1 | pointer width in bytes |
/// | 2 | 4 | number of heads |
/// | 6 | 4 | offset of the binary index |
/// | 10 | 4 | length of the hash index |
/// | 14 | 4 | offset of the hash index |
/// | 18 | 9 | 01 00 0000 00 00000000 |
/// | 27 | 4 | number of items |
///
/// Numbers are little-endian. Clauses see the payload of the block.
#[derive(Drop)]
pub struct Trailer<'a> {
    payload: &'a [u8],
}

impl<'a> Model for Trailer<'a> {
    ghost use Rattle.std.specs.Prelude.{ℕ, List, ◌≤◌, length};

    ghost Value = { List ℕ };

    ghost view = { λ t. t.payload.now };

    ghost invariant = { λ t. 31 ≤ length t.payload.now };
}

/// The numbers of a trailer.
#[derive(Clone, Copy, Debug, PartialEq, Eq)]
pub struct TrailerNumbers {
    /// Items per restart interval; the last may hold fewer.
    pub interval: u8,
    /// The width of a pointer in bytes.
    pub width: u8,
    /// The number of heads.
    pub heads: u32,
    /// The offset of the binary index.
    pub index_offset: u32,
    /// The number of buckets in the hash index, 0 where there is none.
    pub hash_len: u32,
    /// The offset of the hash index, 0 where there is none.
    pub hash_offset: u32,
    /// The number of items.
    pub item_count: u32,
}

impl<'a> Trailer<'a> {
    /// Returns a view of the trailer of a block's payload, which has at least 31 bytes.
    pub fn new(payload: &'a [u8]) -> Trailer<'a>
        requires { 31 ≤ length payload.now }
        ensures { result ≡ payload.now }
    {
        Trailer { payload }
    }

    /// Returns the offset of the trailer in the payload.
    pub fn trailer_offset(&self) -> usize
        ensures value { result ≡ length self.now - 31 }
        ensures inside { result + 31 ≡ length self.now }
    {
        self.payload.len() - TRAILER_SIZE
    }

    /// Returns the bytes of the trailer.
    pub fn as_slice(&self) -> &[u8]
        ensures value { result.now ≡ trailer_bytes self.now }
        ensures len { length result.now ≡ 31 }
    {
        &self.payload[self.trailer_offset()..]
    }

    // The four bytes at an offset of the trailer, as a number.
    #[inline(always)]
    fn number_at(&self, at: usize) -> u32
        requires { at + 4 ≤ 31 }
        ensures { result ≡ little_number 4 (drop at (trailer_bytes self.now)) }
    {
        let (_, rest) = self.as_slice().split_at(at);
        LittleEndian::read_u32(rest)
    }

    /// Returns the number of items per restart interval; the last may hold fewer.
    pub fn interval(&self) -> u8
        ensures { result ≡ (trailer_in self.now).interval }
    {
        self.as_slice()[0]
    }

    /// Returns the width of a pointer in bytes.
    pub fn width(&self) -> u8
        ensures { result ≡ (trailer_in self.now).width }
    {
        self.as_slice()[WIDTH_AT]
    }

    /// Returns the number of heads.
    pub fn heads(&self) -> u32
        ensures { result ≡ (trailer_in self.now).heads }
    {
        self.number_at(HEADS_AT)
    }

    /// Returns the offset of the binary index.
    pub fn index_offset(&self) -> u32
        ensures { result ≡ (trailer_in self.now).index_offset }
    {
        self.number_at(INDEX_OFFSET_AT)
    }

    /// Returns the number of buckets in the hash index.
    pub fn hash_len(&self) -> u32
        ensures { result ≡ (trailer_in self.now).hash_len }
    {
        self.number_at(HASH_LEN_AT)
    }

    /// Returns the offset of the hash index.
    pub fn hash_offset(&self) -> u32
        ensures { result ≡ (trailer_in self.now).hash_offset }
    {
        self.number_at(HASH_OFFSET_AT)
    }

    /// Returns the number of items.
    pub fn item_count(&self) -> usize
        ensures { result ≡ (trailer_in self.now).item_count }
    {
        self.number_at(ITEM_COUNT_AT) as usize
    }

    /// Returns all numbers.
    pub(crate) fn numbers(&self) -> TrailerNumbers
        ensures { trailer_by result ≡ trailer_in self.now }
    {
        TrailerNumbers {
            interval: self.interval(),
            width: self.width(),
            heads: self.heads(),
            index_offset: self.index_offset(),
            hash_len: self.hash_len(),
            hash_offset: self.hash_offset(),
            item_count: self.number_at(ITEM_COUNT_AT),
        }
    }

    /// Appends the trailer with these numbers, 31 bytes.
    ///
    /// # Errors
    ///
    /// `Error::Memory` if an allocation fails. The vector may then hold a partial write.
    pub fn write(writer: &mut Vec<u8>, numbers: TrailerNumbers) -> Result<()>
        ensures ok { OnOk result (writer.new.items ≡ writer.old.items ++ trailer (record {
          interval = numbers.interval;
          width = numbers.width;
          heads = numbers.heads;
          index_offset = numbers.index_offset;
          hash_len = numbers.hash_len;
          hash_offset = numbers.hash_offset;
          item_count = numbers.item_count;
        })) }
        ensures memory { IsOkUnless result Error.Memory }
    {
        let bytes = trailer_of(numbers);
        writer.extend_from_slice(&bytes)?;
        Ok(())
    }
}

// The bytes of a trailer with these numbers.
#[tactic(auto, unfolding(crate::specs::Trailer::trailer))]
fn trailer_of(numbers: TrailerNumbers) -> [u8; TRAILER_SIZE]
    ensures { result ≡ trailer (record {
      interval = numbers.interval;
      width = numbers.width;
      heads = numbers.heads;
      index_offset = numbers.index_offset;
      hash_len = numbers.hash_len;
      hash_offset = numbers.hash_offset;
      item_count = numbers.item_count;
    }) }
{
    let mut bytes = [0u8; TRAILER_SIZE];
    bytes[0] = numbers.interval;
    bytes[WIDTH_AT] = numbers.width;
    LittleEndian::write_u32(&mut bytes[HEADS_AT..], numbers.heads);
    LittleEndian::write_u32(&mut bytes[INDEX_OFFSET_AT..], numbers.index_offset);
    LittleEndian::write_u32(&mut bytes[HASH_LEN_AT..], numbers.hash_len);
    LittleEndian::write_u32(&mut bytes[HASH_OFFSET_AT..], numbers.hash_offset);
    bytes[TRUNCATION_FLAG_AT] = 1;
    LittleEndian::write_u32(&mut bytes[ITEM_COUNT_AT..], numbers.item_count);
    bytes
}
