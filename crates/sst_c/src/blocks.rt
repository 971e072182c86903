//! Data blocks and index blocks.
ghost use Rattle.sst_calls.specs.Blocks.{IsBlockBy, IsFindBy};
ghost use Rattle.sst_calls.specs.Checks.{IsDataCheckBy, IsIndexCheck};
ghost use Rattle.sst_calls.specs.Codes.{IsCodeOf};
ghost use Rattle.sst_calls.specs.Given.{IsEncodeBy};
ghost use Rattle.sst_calls.specs.Index.{IsIndexEncode, IsIndexFind, IsIndexPayload, IsIndexSeek};
ghost use Rattle.sst_calls.specs.IndexScans.{IsHandleScan};

use sst_calls::data_block::SstPlace;
use sst_calls::entries::SstEntry;
use sst_calls::handles::SstKeyedHandle;
use sst_calls::index_block::SstHandle;
use sst_calls::index_scan::SstHandlePlace;
use std::alloc::Global;

/// Calls [`sst_calls::data_block::encode_by`].
#[unsafe(no_mangle)]
pub extern "C" fn sst_data_block_encode(
    entries: &[SstEntry<'_>],
    interval: u8,
    num: u32,
    den: u32,
    hash: u32,
    out: &mut [u8],
    out_len: &mut usize,
    alloc: Global,
) -> u32
    ensures { IsCodeOf result (IsEncodeBy hash entries.now interval num den out.old out.new
        out_len.old out_len.new) }
{
    sst_calls::data_block::encode_by(alloc, entries, interval, num, den, hash, out, out_len).code()
}

/// Calls [`sst_calls::data_block::check_by`].
#[unsafe(no_mangle)]
pub extern "C" fn sst_data_block_check(
    payload: &[u8],
    hash: u32,
    count: &mut usize,
    alloc: Global,
) -> u32
    ensures { IsCodeOf result (IsDataCheckBy hash payload.now count.old count.new) }
{
    sst_calls::data_block::check_by(alloc, payload, hash, count).code()
}

/// Calls [`sst_calls::data_block::find_by`].
#[unsafe(no_mangle)]
pub extern "C" fn sst_data_block_find(
    payload: &[u8],
    hash: u32,
    key: &[u8],
    below_seqno: u64,
    place: &mut SstPlace,
) -> u32
    requires { IsBlockBy hash payload.now }
    ensures { IsCodeOf result (IsFindBy hash payload.now key.now below_seqno place.old place.new) }
{
    sst_calls::data_block::find_by(payload, hash, key, below_seqno, place).code()
}

/// Calls [`sst_calls::index_block::encode`].
#[unsafe(no_mangle)]
pub extern "C" fn sst_index_block_encode(
    handles: &[SstKeyedHandle<'_>],
    interval: u8,
    out: &mut [u8],
    out_len: &mut usize,
    alloc: Global,
) -> u32
    ensures { IsCodeOf result (IsIndexEncode handles.now interval out.old out.new out_len.old
        out_len.new) }
{
    sst_calls::index_block::encode(alloc, handles, interval, out, out_len).code()
}

/// Calls [`sst_calls::index_block::check`].
#[unsafe(no_mangle)]
pub extern "C" fn sst_index_block_check(payload: &[u8], count: &mut usize) -> u32
    ensures { IsCodeOf result (IsIndexCheck payload.now count.old count.new) }
{
    sst_calls::index_block::check(payload, count).code()
}

/// Calls [`sst_calls::index_block::note_found`].
#[unsafe(no_mangle)]
pub extern "C" fn sst_index_block_find(
    payload: &[u8],
    key: &[u8],
    below_seqno: u64,
    handle: &mut SstHandle,
) -> u32
    requires { IsIndexPayload payload.now }
    ensures { IsCodeOf result (IsIndexFind payload.now key.now below_seqno handle.old handle.new) }
{
    sst_calls::index_block::note_found(payload, key, below_seqno, handle).code()
}

/// Calls [`sst_calls::index_block::seek`].
#[unsafe(no_mangle)]
pub extern "C" fn sst_index_block_seek(payload: &[u8], key: &[u8], below_seqno: u64) -> usize
    requires { IsIndexPayload payload.now }
    ensures { IsIndexSeek payload.now key.now below_seqno result }
{
    sst_calls::index_block::seek(payload, key, below_seqno)
}

/// Calls [`sst_calls::index_scan::scan`].
#[unsafe(no_mangle)]
pub extern "C" fn sst_index_block_scan(
    payload: &[u8],
    from: usize,
    places: &mut [SstHandlePlace],
    count: &mut usize,
) -> u32
    requires { IsIndexPayload payload.now }
    ensures { IsCodeOf result (IsHandleScan payload.now from places.old places.new count.old
        count.new) }
{
    sst_calls::index_scan::scan(payload, from, places, count).code()
}
