//! Frames, and footers of table files.
ghost use Rattle.sst_calls.specs.Codes.{IsCodeOf};
ghost use Rattle.sst_calls.specs.Footers.{IsFooterRead, IsFooterWrite};
ghost use Rattle.sst_calls.specs.Frames.{IsFrameCheckBy, IsFrameWriteBy};

use sst_calls::run::SstRunHandles;
use std::alloc::Global;

/// Calls [`sst_calls::frame::write_by`].
#[unsafe(no_mangle)]
pub extern "C" fn sst_frame_write(
    payload: &[u8],
    block_type: u8,
    hash: u32,
    out: &mut [u8],
    out_len: &mut usize,
    alloc: Global,
) -> u32
    ensures { IsCodeOf result (IsFrameWriteBy hash payload.now block_type out.old out.new
        out_len.old out_len.new) }
{
    sst_calls::frame::write_by(alloc, payload, block_type, hash, out, out_len).code()
}

/// Calls [`sst_calls::frame::check_by`].
#[unsafe(no_mangle)]
pub extern "C" fn sst_frame_check(
    bytes: &[u8],
    hash: u32,
    block_type: &mut u8,
    payload_len: &mut usize,
    alloc: Global,
) -> u32
    ensures { IsCodeOf result (IsFrameCheckBy hash bytes.now block_type.old block_type.new
        payload_len.old payload_len.new) }
{
    sst_calls::frame::check_by(alloc, bytes, hash, block_type, payload_len).code()
}

/// Calls [`sst_calls::footer::read`].
#[unsafe(no_mangle)]
pub extern "C" fn sst_footer_read(file: &[u8], handles: &mut SstRunHandles) -> u32
    ensures { IsCodeOf result (IsFooterRead file.now handles.old handles.new) }
{
    sst_calls::footer::read(file, handles).code()
}

/// Calls [`sst_calls::footer::write`].
#[unsafe(no_mangle)]
pub extern "C" fn sst_footer_write(
    handles: &SstRunHandles,
    out: &mut [u8],
    out_len: &mut usize,
) -> u32
    ensures { IsCodeOf result (IsFooterWrite handles.now out.old out.new out_len.new) }
{
    sst_calls::footer::write(handles, out, out_len).code()
}
