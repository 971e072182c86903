//! Reads of one key in a run of any bytes.
ghost use Rattle.sst_calls.specs.Fetches.{IsFetch, IsFetchBy, IsTold};
ghost use Rattle.sstable_blocks.specs.Prelude.{hashes};

use crate::codes::Status;
use crate::hash::Hash;
use crate::output::write_bytes;
use crate::run::{SstRunHandles, run_handles};
use crate::source::CountedSource;
use sstable_blocks::run::read_entry_checked;
use sstable_blocks::{BlockHash, InternalValue, Poly31, RunHandles, SeqNo, Xxh3};
use std::alloc::Global;

/// What is told of an entry that was read, beside its value.
#[repr(C)]
#[derive(Drop)]
pub struct SstFound {
    /// The sequence number.
    pub seqno: u64,
    /// The length of the value; 0 for a tombstone.
    pub value_len: usize,
    /// The byte of the value type: 0 value, 1 tombstone, 2 weak tombstone, 4 indirection.
    pub value_type: u8,
}

// Tells an entry, and writes its value at the front of a buffer, if it has room for it.
fn tell(entry: &InternalValue, found: &mut SstFound, value: &mut [u8]) -> Status
    ensures { IsTold entry.now found.new value.old value.new result }
{
    found.seqno = entry.key().seqno();
    found.value_type = u8::from(entry.key().value_type());
    write_bytes(entry.value().as_slice(), value, &mut found.value_len)
}

// Reads the first entry of a key below a sequence number.
fn fetch<H: BlockHash>(
    alloc: Global,
    bytes: &[u8],
    handles: &RunHandles,
    key: &[u8],
    below: SeqNo,
    found: &mut SstFound,
    value: &mut [u8],
) -> Status
    ensures { IsFetch (hashes H.hash64 H.hash128) bytes.now handles.now key.now below found.old
        found.new value.old value.new result }
{
    let mut source = CountedSource::new(bytes);
    match read_entry_checked::<H, CountedSource<'_>>(alloc, &mut source, handles, key, below) {
        Ok(Some(entry)) => tell(&entry, found, value),
        Ok(None) => Status::NotFound,
        Err(error) => Status::Failed(error),
    }
}

/// Reads the first entry of a key strictly below a sequence number in a run of any bytes and
/// handles, by the hash function of a number: the frame of the filter, if there is one, that of the
/// index and that of the one block. Each is copied, compared with its checksums, and checked. Where
/// the filter rules the key out, only its own frame is.
///
/// Returns 0, and tells the entry, a tombstone too, whose value is then the front of `value`; 18
/// where `value` is too short, and tells the entry; 16 if there is none; 17 exactly where no hash
/// function has the number; else the number of the first error that is met, 1 excepted, or 15 if an
/// allocation fails. But for 0 `value` is left, and but for 0 and 18 `found`.
pub fn fetch_by(
    alloc: Global,
    bytes: &[u8],
    handles: &SstRunHandles,
    hash: u32,
    key: &[u8],
    below_seqno: u64,
    found: &mut SstFound,
    value: &mut [u8],
) -> Status
    ensures { IsFetchBy hash bytes.now handles.now key.now below_seqno found.old found.new
        value.old value.new result }
{
    let handles = run_handles(handles);
    match Hash::of_number(hash) {
        Some(Hash::Xxh3) => fetch::<Xxh3>(alloc, bytes, &handles, key, below_seqno, found, value),
        Some(Hash::Poly31) => {
            fetch::<Poly31>(alloc, bytes, &handles, key, below_seqno, found, value)
        }
        None => Status::BadArgument,
    }
}
