//! Block headers.
ghost use Rattle.std.specs.Prelude.{◌≡◌, ◌+◌, ◌%◌, ◌^◌, ℕ, List};
ghost use Rattle.std.specs.Prelude.{◌∷◌, ◌++◌, length, drop, Some, OnOk};
ghost use Rattle.std.specs.Prelude.{IsOkUnless, OnErr, take};
ghost use Rattle.byteorder.specs.Endian.{little_number};
ghost use Rattle.std.specs.Io.KnownBytes.{Appends};
ghost use Rattle.sst_base.specs.BlockType.{block_type_byte};
ghost use Rattle.sst_base.specs.Bytes.{IsBytes};
ghost use Rattle.sst_base.specs.Header.{magic, header, header_start, header_at, header_of};
ghost use Rattle.sst_base.specs.Header.{header_with};
ghost use Rattle.sst_base.specs.Header.{magic_at, block_type_at};
ghost use Rattle.sst_base.specs.Frame.{has_length};
ghost use Rattle.sst_base.specs.Inputs.{Reads};

use crate::checksum::Checksum;
use crate::error::{Error, HeaderName, Result};
use crate::hash::BlockHash;
use crate::input::{Input, array_from, note_bytes};
use crate::output::Output;
use crate::table::block::block_type::BlockType;
use byteorder::{ByteOrder, LittleEndian};

/// The length of a header in bytes.
pub const HEADER_LEN: usize = 33;

/// The bytes that begin a header, and the payload of a filter: `LSM` and 3.
pub const MAGIC: [u8; 4] = [76, 83, 77, 3];

// The bytes that the header's own checksum covers.
const FRONT_LEN: usize = 29;

// Where the fields of a header are: see the table at `Header`.
const TYPE_AT: usize = 4;

const CHECKSUM_AT: usize = 5;

const DATA_LENGTH_AT: usize = 21;

const UNCOMPRESSED_LENGTH_AT: usize = 25;

/// The header of a block, 33 bytes before its payload.
///
/// | At | Bytes | Content |
/// |---|---|---|
/// | 0 | 4 | magic 4c534d03 |
/// | 4 | 1 | block type |
/// | 5 | 16 | checksum of the payload |
/// | 21 | 4 | data length |
/// | 25 | 4 | uncompressed length |
/// | 29 | 4 | low 32 bits of the `hash128` of the 29 bytes before |
///
/// Numbers are little-endian.
#[derive(Clone, Copy, Debug, PartialEq, Eq)]
pub struct Header {
    /// The type of the payload.
    pub block_type: BlockType,
    /// The checksum of the payload.
    pub checksum: Checksum,
    /// The length of the payload in bytes.
    pub data_length: u32,
    /// The same, since nothing is compressed.
    pub uncompressed_length: u32,
}

impl Header {
    /// Returns the length of a header in bytes, 33.
    pub fn serialized_len() -> usize
        ensures { result ≡ 33 }
    {
        HEADER_LEN
    }

    /// Writes the header, 33 bytes.
    ///
    /// # Errors
    ///
    /// `Error::Io` if the writer fails. It may then hold a partial write.
    pub fn encode_into<H: BlockHash, W: Output>(&self, writer: &mut W) -> Result<()>
        ensures ok { OnOk result
            (Appends (W.contents writer.old) (W.contents writer.new) (header H.hash128 self.now)) }
        ensures io { IsOkUnless result Error.Io }
        ensures failed { OnErr result (W.never_fails writer.old → ⊥) }
        ensures kept { W.never_fails writer.old → W.never_fails writer.new }
    {
        let bytes = self.encoded::<H>();
        writer.put(&bytes)?;
        Ok(())
    }

    // Whether both lengths are this one.
    pub(crate) fn has_length(&self, len: usize) -> bool
        ensures { result ≡ has_length self.now len }
    {
        self.data_length == self.uncompressed_length && self.data_length as usize == len
    }

    // The bytes of the header.
    #[tactic(auto, unfolding(crate::specs::Header::header, crate::specs::Header::header_start))]
    fn encoded<H: BlockHash>(&self) -> [u8; HEADER_LEN]
        ensures { result ≡ header H.hash128 self.now }
    {
        let front = self.front();
        let mut bytes = [0u8; HEADER_LEN];
        bytes[..FRONT_LEN].copy_from_slice(&front);
        let sum = low_bits(H::hash128(&front));
        LittleEndian::write_u32(&mut bytes[FRONT_LEN..], sum);
        bytes
    }

    // The bytes that the header's own checksum covers.
    #[tactic(auto, unfolding(crate::specs::Header::header_start))]
    fn front(&self) -> [u8; FRONT_LEN]
        ensures { result ≡ header_start self.now }
    {
        let mut bytes = [0u8; FRONT_LEN];
        bytes[..TYPE_AT].copy_from_slice(&MAGIC);
        bytes[TYPE_AT] = u8::from(self.block_type);
        LittleEndian::write_u128(&mut bytes[CHECKSUM_AT..], self.checksum.into_u128());
        LittleEndian::write_u32(&mut bytes[DATA_LENGTH_AT..], self.data_length);
        LittleEndian::write_u32(
            &mut bytes[UNCOMPRESSED_LENGTH_AT..],
            self.uncompressed_length,
        );
        bytes
    }

    /// Reads a header, field by field. The lengths are not checked.
    ///
    /// # Errors
    ///
    /// In the order of the bytes: `Error::InvalidHeader` if the magic differs, `Error::InvalidTag`
    /// if the byte of the block type has no type, `Error::ChecksumMismatch` if the header's own
    /// checksum differs. `Error::Io` if the reader fails, or ends inside a field.
    #[tactic(auto, unfolding(crate::specs::Header::header_at))]
    pub fn decode_from<H: BlockHash, R: Input>(reader: &mut R) -> Result<Header>
        ensures read { (bytes : List ℕ) → R.remaining reader.old ≡ Some bytes
            → Reads (R.is_memory reader.old) result (R.remaining reader.new)
            (header_at H.hash128 bytes) }
        ensures cells { OnOk result ((bytes : List ℕ) → R.remaining reader.old ≡ Some bytes
            → IsBytes (take 28 (drop 5 bytes))) }
        ensures kept { R.is_memory reader.old → R.is_memory reader.new }
    {
        magic_from(reader)?;
        let block_type = block_type_from(reader)?;
        let tail = array_from::<28, R>(reader)?;
        note_bytes(&tail);
        header_of::<H>(block_type, &tail)
    }
}

// The low 32 bits of a hash.
fn low_bits(hash: u128) -> u32
    ensures { result ≡ hash % 2 ^ 32 }
{
    (hash % (1 << 32)) as u32
}

// The magic.
fn magic_from<R: Input>(reader: &mut R) -> Result<[u8; 4]>
    ensures read { (bytes : List ℕ) → R.remaining reader.old ≡ Some bytes
        → Reads (R.is_memory reader.old) result (R.remaining reader.new) (magic_at bytes) }
    ensures kept { R.is_memory reader.old → R.is_memory reader.new }
{
    let found = array_from::<4, R>(reader)?;
    if found != MAGIC {
        return Err(Error::InvalidHeader(HeaderName::Block));
    }
    Ok(found)
}

// The type of a block.
fn block_type_from<R: Input>(reader: &mut R) -> Result<BlockType>
    ensures read { (bytes : List ℕ) → R.remaining reader.old ≡ Some bytes
        → Reads (R.is_memory reader.old) result (R.remaining reader.new) (block_type_at bytes) }
    ensures kept { R.is_memory reader.old → R.is_memory reader.new }
{
    let tag = array_from::<1, R>(reader)?;
    BlockType::try_from(tag[0])
}

// The header of a type and the 28 bytes after it.
#[tactic(auto, unfolding(crate::specs::Header::header_of))]
fn header_of<H: BlockHash>(block_type: BlockType, tail: &[u8; 28]) -> Result<Header>
    ensures { result ≡ header_of H.hash128 block_type (take 24 tail.now)
        (little_number 4 (drop 24 tail.now)) }
{
    let (fields, stored) = tail.split_at(24);
    let got = front_sum::<H>(block_type, fields);
    let expected = LittleEndian::read_u32(stored);
    if got != expected {
        return Err(Error::ChecksumMismatch {
            got: Checksum::from_raw(u128::from(got)),
            expected: Checksum::from_raw(u128::from(expected)),
        });
    }
    Ok(header_with(block_type, fields))
}

// The header of a type and the 24 bytes of its checksum and lengths.
fn header_with(block_type: BlockType, fields: &[u8]) -> Header
    requires { length fields.now ≡ 24 }
    ensures { result ≡ header_with block_type fields.now }
{
    let (_, lengths) = fields.split_at(16);
    let (_, uncompressed) = fields.split_at(20);
    Header {
        block_type,
        checksum: Checksum::from_raw(LittleEndian::read_u128(fields)),
        data_length: LittleEndian::read_u32(lengths),
        uncompressed_length: LittleEndian::read_u32(uncompressed),
    }
}

// The header's own checksum, of the 29 bytes before it: one hash of an array, since a stream of so
// few bytes costs more than their hash.
fn front_sum<H: BlockHash>(block_type: BlockType, fields: &[u8]) -> u32
    requires { length fields.now ≡ 24 }
    ensures { result ≡ H.hash128 (magic ++ (block_type_byte block_type ∷ fields.now)) % 2 ^ 32 }
{
    let mut front = [0u8; FRONT_LEN];
    front[..TYPE_AT].copy_from_slice(&MAGIC);
    front[TYPE_AT] = u8::from(block_type);
    front[CHECKSUM_AT..].copy_from_slice(fields);
    low_bits(H::hash128(&front))
}
