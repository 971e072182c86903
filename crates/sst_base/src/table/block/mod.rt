//! Blocks: a header and a payload.
ghost use Rattle.std.specs.Prelude.{◌≡◌, ◌≢◌, ◌↔◌, ℕ, ◌+◌, ◌^◌};
ghost use Rattle.std.specs.Prelude.{◌<◌, ◌≤◌, List, ◌++◌, length, Some, OnOk};
ghost use Rattle.std.specs.Prelude.{drop, take, IfOk, IfErr, IsErrOf, MatchResult};
ghost use Rattle.std.specs.Io.KnownBytes.{Appends};
ghost use Rattle.sst_base.specs.Block.{BlockParts};
ghost use Rattle.sst_base.specs.Bytes.{IsBytes};
ghost use Rattle.sst_base.specs.Frame.{header_for, frame_block, frame, frame_at, frame_in};
ghost use Rattle.sst_base.specs.Frame.{block_at};
ghost use Rattle.sst_base.specs.Frame.{verified_block, frame_in_file};
ghost use Rattle.sst_base.specs.declared.table.block.block_type.BlockType.{BlockType};
ghost use Rattle.sst_base.specs.Inputs.{ReadsAllocating, Gives, GivesOrFails};

pub mod block_handle;
pub mod block_type;
pub mod header;
pub mod offset;

use crate::checksum::Checksum;
use crate::error::{AllocResult, Error, Result};
use crate::hash::BlockHash;
use crate::input::{Input, SeekInput};
use crate::output::Output;
use crate::slice::Slice;
pub use block_handle::BlockHandle;
pub use block_type::BlockType;
use header::HEADER_LEN;
pub use header::Header;
pub use offset::BlockOffset;
use std::alloc::Global;
use std::fmt;
use std::marker::Model;

/// A block in memory: a header, and a payload of at most 2^32 - 1 bytes.
#[derive(Drop)]
pub struct Block {
    header: Header,
    payload: Slice,
}

impl Model for Block {
    ghost use Rattle.std.specs.Prelude.{◌^◌, ◌<◌, length};
    ghost use Rattle.sst_base.specs.Block.{BlockParts};
    ghost use Rattle.sst_base.specs.Bytes.{IsBytes};

    ghost Value = { BlockParts };

    ghost view = { λ b. record { header = b.header; payload = b.payload } };

    ghost invariant = { λ b. (length b.payload < 2 ^ 32) × IsBytes b.payload };
}

impl Block {
    /// Makes a block. The payload has at most 2^32 - 1 bytes.
    pub fn from_parts(header: Header, payload: Slice) -> Block
        requires { length payload < 2 ^ 32 }
        ensures { result ≡ record { header = header; payload = payload } }
    {
        Block { header, payload }
    }

    /// Makes the block of a payload that was read from no frame: its header has the payload's
    /// length, and the checksum 0, which no call compares. The payload has at most 2^32 - 1 bytes.
    /// `write_into` writes a payload as a frame.
    pub fn from_payload(block_type: BlockType, payload: Slice) -> Block
        requires { length payload < 2 ^ 32 }
        ensures { result ≡ frame_block (λ _. 0) block_type payload }
    {
        let len = payload.len() as u32;
        let header = Header {
            block_type,
            checksum: Checksum::from_raw(0),
            data_length: len,
            uncompressed_length: len,
        };
        Block { header, payload }
    }

    /// Returns the length of the payload in bytes.
    pub fn size(&self) -> u32
        ensures value { result ≡ length self.now.payload }
        ensures fits { length self.now.payload < 2 ^ 32 }
        ensures cells { IsBytes self.now.payload }
    {
        self.payload.len() as u32
    }

    /// Returns the header.
    pub fn header(&self) -> &Header
        ensures { result.now ≡ self.now.header }
    {
        &self.header
    }

    /// Returns the payload.
    pub fn data(&self) -> &Slice
        ensures value { result.now ≡ self.now.payload }
        ensures fits { length self.now.payload < 2 ^ 32 }
        ensures cells { IsBytes self.now.payload }
    {
        &self.payload
    }
}

impl Block {
    /// Writes the frame of a payload: its header, and the payload. Returns the header.
    ///
    /// # Errors
    ///
    /// `Error::TooLong` if the payload has 2^32 bytes or more; nothing is written then. `Error::Io`
    /// if the writer fails. It may then hold a partial write.
    #[tactic(auto, unfolding(crate::specs::Frame::frame))]
    pub fn write_into<H: BlockHash, W: Output>(
        writer: &mut W,
        payload: &[u8],
        block_type: BlockType,
    ) -> Result<Header>
        ensures ok { OnOk result (Appends (W.contents writer.old) (W.contents writer.new)
            (frame H.hash128 block_type payload.now)) }
        ensures header { IfOk result (λ h. h ≡ header_for H.hash128 block_type payload.now) }
        ensures too_long { IsErrOf result Error.TooLong ↔ (2 ^ 32 ≤ length payload.now) }
        ensures untouched { IsErrOf result Error.TooLong → writer.new ≡ writer.old }
        ensures io { IfErr result (λ e. e ≢ Error.TooLong → e ≡ Error.Io) }
        ensures failed { IsErrOf result Error.Io → W.never_fails writer.old → ⊥ }
        ensures kept { W.never_fails writer.old → W.never_fails writer.new }
    {
        let Ok(len) = u32::try_from(payload.len()) else {
            return Err(Error::TooLong);
        };
        let header = Header {
            block_type,
            checksum: Checksum::from_raw(H::hash128(payload)),
            data_length: len,
            uncompressed_length: len,
        };
        header.encode_into::<H, W>(writer)?;
        writer.put(payload)?;
        Ok(header)
    }

    /// Reads a frame. What follows it is left unread.
    ///
    /// # Errors
    ///
    /// In the order of the bytes: those of `Header::decode_from`, `Error::LengthMismatch` if the
    /// two lengths of the header differ, `Error::ChecksumMismatch` if the payload's checksum
    /// differs.
    /// `Error::Io` if the reader fails, or ends before the end of the frame, `Error::Memory` if an
    /// allocation fails.
    pub fn from_reader<H: BlockHash, R: Input>(alloc: Global, reader: &mut R) -> Result<Block>
        ensures read { (bytes : List ℕ) → R.remaining reader.old ≡ Some bytes
            → ReadsAllocating (R.is_memory reader.old) result (R.remaining reader.new)
            (frame_at H.hash128 bytes) }

        // What is read is a prefix of the input that is a frame, and the rest is left.
        ensures found { (bytes : List ℕ) → R.remaining reader.old ≡ Some bytes
            → IfOk result (λ b. (rest : List ℕ) × (R.remaining reader.new ≡ Some rest)
            × (bytes ≡ frame H.hash128 b.header.block_type b.payload ++ rest)
            × (b ≡ frame_block H.hash128 b.header.block_type b.payload)) }

        // Over memory a prefix that is a frame is read.
        ensures only { (t : BlockType) (payload rest : List ℕ) → length payload < 2 ^ 32
            → R.remaining reader.old ≡ Some (frame H.hash128 t payload ++ rest)
            → R.is_memory reader.old
            → MatchResult result
            (λ b. (b ≡ frame_block H.hash128 t payload) × (R.remaining reader.new ≡ Some rest))
            (λ e. e ≡ Error.Memory) }

        // Of any reader.
        ensures own { IfOk result (λ b. b ≡ frame_block H.hash128 b.header.block_type b.payload) }
        ensures kept { R.is_memory reader.old → R.is_memory reader.new }
    {
        Block::read_from::<H, R>(alloc, reader)
    }

    // The block of the frame at the start.
    #[tactic(auto, unfolding(crate::specs::Frame::frame_at))]
    fn read_from<H: BlockHash, R: Input>(alloc: Global, reader: &mut R) -> Result<Block>
        ensures read { (bytes : List ℕ) → R.remaining reader.old ≡ Some bytes
            → ReadsAllocating (R.is_memory reader.old) result (R.remaining reader.new)
            (frame_at H.hash128 bytes) }
        ensures cells { OnOk result ((bytes : List ℕ) → R.remaining reader.old ≡ Some bytes
            → IsBytes (take 28 (drop 5 bytes))) }
        ensures own { IfOk result (λ b. b ≡ frame_block H.hash128 b.header.block_type b.payload) }
        ensures kept { R.is_memory reader.old → R.is_memory reader.new }
    {
        let header = Header::decode_from::<H, R>(reader)?;
        Block::behind_header::<H, R>(alloc, reader, header)
    }

    // Reads what is after a header.
    #[tactic(auto, unfolding(crate::specs::Frame::block_at))]
    fn behind_header<H: BlockHash, R: Input>(
        alloc: Global,
        reader: &mut R,
        header: Header,
    ) -> Result<Block>
        ensures read { (bytes : List ℕ) → R.remaining reader.old ≡ Some bytes
            → ReadsAllocating (R.is_memory reader.old) result (R.remaining reader.new)
            (block_at H.hash128 header bytes) }
        ensures own { IfOk result (λ b. b ≡ frame_block H.hash128 b.header.block_type b.payload) }
        ensures kept { R.is_memory reader.old → R.is_memory reader.new }
    {
        if header.data_length != header.uncompressed_length {
            return Err(Error::LengthMismatch);
        }
        let payload = Slice::from_reader(alloc, reader, header.data_length as usize)?;
        Block::checked::<H>(header, payload)
    }

    // The block of a header and a payload whose checksum is the header's.
    #[tactic(auto, unfolding(crate::specs::Frame::verified_block))]
    fn checked<H: BlockHash>(header: Header, payload: Slice) -> Result<Block>
        requires { length payload < 2 ^ 32 }
        ensures { result ≡ verified_block H.hash128 header payload }
    {
        let got = Checksum::from_raw(H::hash128(payload.as_slice()));
        if got != header.checksum {
            return Err(Error::ChecksumMismatch {
                got,
                expected: header.checksum,
            });
        }
        Ok(Block::from_parts(header, payload))
    }

    /// Reads a frame in memory. The payload is a sub-slice of its bytes.
    ///
    /// # Errors
    ///
    /// In this order: `Error::Truncated` below 33 bytes, `Error::InvalidHeader`,
    /// `Error::InvalidTag` and `Error::ChecksumMismatch` of the header, `Error::LengthMismatch` if
    /// its two lengths differ or the payload has another length, `Error::ChecksumMismatch` of the
    /// payload. `Error::Memory` if an allocation fails.
    pub fn from_frame<H: BlockHash>(bytes: Slice) -> Result<Block>
        ensures read { Gives result (frame_in H.hash128 bytes) }

        ensures not_io { IfErr result (λ e. e ≢ Error.Io) }

        // What is read is a frame.
        ensures found { IfOk result (λ b. (bytes ≡ frame H.hash128 b.header.block_type b.payload)
            × (b ≡ frame_block H.hash128 b.header.block_type b.payload)) }

        // A frame is read.
        ensures only { (t : BlockType) (payload : List ℕ) → length payload < 2 ^ 32
            → bytes ≡ frame H.hash128 t payload
            → MatchResult result (λ b. b ≡ frame_block H.hash128 t payload)
            (λ e. e ≡ Error.Memory) }
    {
        Block::in_frame::<H>(&bytes)
    }

    /// Reads the frame that a handle names: moves the file to its offset, and reads as many bytes
    /// as its size says.
    ///
    /// # Errors
    ///
    /// `Error::Io` if the file fails, or ends before (over memory only that), `Error::Memory` if an
    /// allocation fails; else those of `from_frame`.
    pub fn from_file<H: BlockHash, F: SeekInput>(
        alloc: Global,
        file: &mut F,
        handle: BlockHandle,
    ) -> Result<Block>
        // Of a file whose bytes are known.
        ensures read { (at : ℕ) (bytes : List ℕ) → F.stream_position file.old ≡ Some at
            → F.stream_bytes file.old ≡ Some bytes
            → GivesOrFails (F.is_memory file.old) result
            (frame_in_file H.hash128 handle.offset handle.size bytes) }

        // Of any file.
        ensures size { IfOk result (λ b. 33 + length b.payload ≡ handle.size) }
        ensures own { IfOk result (λ b. b ≡ frame_block H.hash128 b.header.block_type b.payload) }
    {
        file.move_to(*handle.offset())?;
        let bytes = Slice::from_reader(alloc, file, handle.size() as usize)?;
        Block::from_frame::<H>(bytes)
    }

    // The block of a frame.
    #[tactic(auto, unfolding(crate::specs::Frame::frame_in))]
    fn in_frame<H: BlockHash>(bytes: &Slice) -> Result<Block>
        ensures read { Gives result (frame_in H.hash128 bytes.now) }
        ensures bytes { IsBytes bytes.now }
    {
        let mut rest = bytes.as_slice();
        if rest.len() < HEADER_LEN {
            return Err(Error::Truncated);
        }
        let header = Header::decode_from::<H, &[u8]>(&mut rest)?;
        if !header.has_length(rest.len()) {
            return Err(Error::LengthMismatch);
        }
        let payload = bytes.slice(HEADER_LEN..)?;
        Block::checked::<H>(header, payload)
    }
}

impl Clone for Block {
    ghost is_clone = { λ b copy. copy ≡ b };

    fn clone(&self) -> AllocResult<Block> {
        Ok(Block {
            header: self.header,
            payload: self.payload.clone()?,
        })
    }
}

impl fmt::Debug for Block {
    fn fmt<W: fmt::Write>(&self, f: &mut fmt::Formatter<W>) -> fmt::Result {
        write!(f, "{:?} {:?}", self.header, self.payload)
    }
}
