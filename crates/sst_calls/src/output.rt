//! Bytes that are written into a caller's buffer.
ghost use Rattle.sst_calls.specs.Given.{IsWrittenOut};

use crate::codes::Status;

/// Writes bytes at the front of a buffer, if it has room for them, and notes their number.
pub(crate) fn write_bytes(bytes: &[u8], out: &mut [u8], out_len: &mut usize) -> Status
    ensures { IsWrittenOut bytes.now out.old out.new out_len.new result }
{
    *out_len = bytes.len();
    if out.len() < bytes.len() {
        return Status::NoRoom;
    }
    out[..bytes.len()].copy_from_slice(bytes);
    Status::Done
}
