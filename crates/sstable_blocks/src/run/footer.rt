//! The footer of a table file.
ghost use Rattle.std.specs.Prelude.{◌≡◌, ◌⊎◌, ◌≤◌, ◌<◌, length, OnErr, OnOk, IfErr, IfSome};
ghost use Rattle.std.specs.Io.KnownBytes.{Appends};
ghost use Rattle.sst_base.specs.declared.error.Error.TheVariants.{Io, Truncated, BadHandle, Memory};
ghost use Rattle.sstable_blocks.specs.Footer.{footer, footer_handles, parts_of, parts_at};
ghost use Rattle.sstable_blocks.specs.Footer.{footer_place, table_handles};
ghost use Rattle.sstable_blocks.specs.Sources.{AsksAs, AsksExactly, AsksIfOk, GivesOr, ReadsAs};
ghost use Rattle.sstable_blocks.specs.Sources.{UsesSource};

use super::RunHandles;
use super::source::{FrameSource, SizedSource};
use super::sync::SyncWrite;
use byteorder::{ByteOrder, LittleEndian};
use sst_base::{BlockHandle, BlockOffset, Error, Output, Result};
use std::alloc::Global;
use std::io;

/// The length of a footer in bytes.
pub const FOOTER_LEN: usize = 24;

// Where the fields of a footer are: see the table at `encode_footer`.
const INDEX_SIZE_AT: usize = 8;

const FILTER_AT: usize = 12;

const FILTER_SIZE_AT: usize = 20;

/// Encodes the footer of a run with these handles: the last 24 bytes of its table file.
///
/// | At | Bytes | Content |
/// |---|---|---|
/// | 0 | 8 | offset of the index frame |
/// | 8 | 4 | size of the index frame |
/// | 12 | 8 | offset of the filter frame, 0 if there is none |
/// | 20 | 4 | size of the filter frame, 0 if there is none |
///
/// Numbers are little-endian.
#[tactic(auto, unfolding(crate::specs::Footer::footer))]
pub fn encode_footer(handles: &RunHandles) -> [u8; FOOTER_LEN]
    ensures { result ≡ footer handles.now }
{
    let (index, filter) = (handles.index, filter_parts(&handles.filter));
    let mut bytes = [0u8; FOOTER_LEN];
    LittleEndian::write_u64(&mut bytes[..], *index.offset());
    LittleEndian::write_u32(&mut bytes[INDEX_SIZE_AT..], index.size());
    LittleEndian::write_u64(&mut bytes[FILTER_AT..], *filter.offset());
    LittleEndian::write_u32(&mut bytes[FILTER_SIZE_AT..], filter.size());
    bytes
}

// The handle of a filter, and 0 and 0 for none.
fn filter_parts(filter: &Option<BlockHandle>) -> BlockHandle
    ensures { result ≡ parts_of filter.now }
{
    match filter {
        Some(handle) => *handle,
        None => BlockHandle::new(BlockOffset(0), 0),
    }
}

/// Decodes the footer at the start of these bytes. If the size of the filter is 0 there is none,
/// wherever its offset is.
///
/// # Errors
///
/// `Error::Truncated` below 24 bytes.
#[tactic(auto, unfolding(crate::specs::Footer::footer_handles))]
pub fn decode_footer(bytes: &[u8]) -> Result<RunHandles>
    ensures { result ≡ footer_handles bytes.now }
{
    if bytes.len() < FOOTER_LEN {
        return Err(Error::Truncated);
    }
    let (_, filter) = bytes.split_at(FILTER_AT);
    let filter = handle_in(filter);
    Ok(RunHandles {
        index: handle_in(bytes),
        filter: if filter.size() == 0 {
            None
        } else {
            Some(filter)
        },
    })
}

// The handle in the first 12 bytes: its offset and its size.
fn handle_in(bytes: &[u8]) -> BlockHandle
    requires { 12 ≤ length bytes.now }
    ensures { result ≡ parts_at bytes.now }
{
    let (_, size) = bytes.split_at(INDEX_SIZE_AT);
    BlockHandle::new(
        BlockOffset(LittleEndian::read_u64(bytes)),
        LittleEndian::read_u32(size),
    )
}

/// Reads the footer of a table of this length: its last 24 bytes.
///
/// # Errors
///
/// Those of `FrameSource::read_frame`, then `Error::Truncated` below 24 bytes.
pub fn read_footer<S: FrameSource>(alloc: Global, source: &mut S, len: u64) -> Result<RunHandles>
    ensures source { UsesSource S.bytes S.failures S.reads S.is_reliable
        (AsksExactly 1) source.old source.new result }
    ensures exact { IfSome (S.bytes source.old) (λ all. len ≡ length all
        → GivesOr ((S.failures source.old < S.failures source.new)
        × (S.is_reliable source.old → ⊥)) ⊥ (λ h. h) result (table_handles all)) }
    ensures errors { IfErr result (λ e. (e ≡ Io) ⊎ (e ≡ Truncated) ⊎ (e ≡ Memory)
        ⊎ ((e ≡ BadHandle) × S.may_refuse source.old (footer_place len))) }
{
    let size = len.min(FOOTER_LEN as u64);
    let footer = BlockHandle::new(BlockOffset(len - size), size as u32);
    let footer = source.read_frame(alloc, &footer)?;
    decode_footer(footer.as_slice())
}

/// Reads the footer of a table file, whose length the source knows.
///
/// # Errors
///
/// Those of [`SizedSource::byte_len`] and of [`read_footer`].
pub fn read_table_footer<S: SizedSource>(alloc: Global, source: &mut S) -> Result<RunHandles>
    ensures source { UsesSource S.bytes S.failures S.reads S.is_reliable
        (AsksIfOk (λ _. 1)) source.old source.new result }
    ensures asked { AsksAs S.bytes S.failures S.reads source.old source.new result (λ _. 1) }
    ensures exact { ReadsAs S.bytes S.failures S.is_reliable source.old source.new (λ h. h) result
        (λ all. table_handles all) }
{
    let len = source.byte_len()?;
    read_footer(alloc, source, len)
}

/// Ends a table file after the run of these handles: writes the footer, and waits until all is
/// where it stays.
///
/// # Errors
///
/// That of the writer.
pub fn end_table<W: SyncWrite>(writer: &mut W, handles: &RunHandles) -> io::Result<()>
    ensures bytes { OnOk result
        (Appends (W.contents writer.old) (W.contents writer.new) (footer handles.now)) }
    ensures synced { OnOk result (W.is_synced writer.new) }
    ensures failed { OnErr result (W.never_fails writer.old → ⊥) }
{
    writer.put(&encode_footer(handles))?;
    writer.sync()
}
