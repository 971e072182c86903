//! How many probes a filter may claim.
ghost use Rattle.std.specs.Prelude.{◌≡◌, ◌≤◌, drop, length};
ghost use Rattle.byteorder.specs.Endian.{little_number};
ghost use Rattle.sst_tool.specs.Probes.{may_ask};

use crate::fault;
use crate::fault::Fault;
use byteorder::{ByteOrder, LittleEndian};
use sstable_blocks::run::checked::block_from;
use sstable_blocks::table::block::header::HEADER_LEN;
use sstable_blocks::{
    BlockHandle, BlockHash, BlockOffset, BlockType, Error, FrameSource, Result, Slice,
};
use std::alloc::Global;

/// The number of probes of a key that any filter may have.
pub const FREE_PROBES: u64 = 1000;

// Where the number of probes is in the frame of a filter.
const PROBES_AT: usize = HEADER_LEN + 14;

// Where the bits begin.
const BITS_AT: usize = HEADER_LEN + 22;

/// What a filter claims, before it was read.
#[derive(Clone, Copy)]
pub struct Claim {
    /// The number of probes of a key.
    pub probes: u64,
    /// The number of bits.
    pub bits: u64,
}

// The number of probes in the first bytes of a filter's frame.
fn probes_in(head: &[u8]) -> u64
    requires { 55 ≤ length head.now }
    ensures { result ≡ little_number 8 (drop 47 head.now) }
{
    let (_, rest) = head.split_at(PROBES_AT);
    LittleEndian::read_u64(rest)
}

// What a filter of so many bits claims in the first bytes of its frame, which were read.
fn claim_in(read: Result<Slice>, bits: u64) -> Option<Claim> {
    match read {
        Ok(head) if head.as_slice().len() >= BITS_AT => Some(Claim {
            probes: probes_in(head.as_slice()),
            bits,
        }),
        _ => None,
    }
}

// What a filter claims in its first bytes, which are not verified.
fn claim_of<S: FrameSource>(alloc: Global, source: &mut S, filter: &BlockHandle) -> Option<Claim> {
    let bits = (filter.size() as usize).checked_sub(BITS_AT)?;
    let head = BlockHandle::new(BlockOffset(*filter.offset()), BITS_AT as u32);
    claim_in(source.read_frame(alloc, &head), bits as u64 * 8)
}

/// Reads what a filter claims. There is none where its first bytes cannot be read, and none where
/// it claims more than [`FREE_PROBES`] and its frame, which is verified then, is refused.
///
/// # Errors
///
/// `Fault::Memory` if an allocation fails.
pub fn claim_at<H: BlockHash, S: FrameSource>(
    alloc: Global,
    source: &mut S,
    filter: &BlockHandle,
) -> fault::Result<Option<Claim>> {
    match claim_of(alloc, source, filter) {
        Some(claim) if claim.probes > FREE_PROBES => {
            match block_from::<H, S>(alloc, source, filter, BlockType::Filter) {
                Ok(_) => Ok(Some(claim)),
                Err(Error::Memory) => Err(Fault::Memory),
                Err(_) => Ok(None),
            }
        }
        claim => Ok(claim),
    }
}

/// Returns whether a filter may be asked for each of so many entries: its probes of a key are not
/// many, or those of all are no more than its bits.
pub fn may_ask(claim: Claim, entries: u64) -> bool
    ensures { result ≡ may_ask claim.probes claim.bits entries }
{
    if claim.probes <= FREE_PROBES {
        return true;
    }
    match claim.probes.checked_mul(entries) {
        Some(probes) => probes <= claim.bits,
        None => false,
    }
}
