//! Footers of table files: their last 24 bytes, which say where the index and the filter of the run
//! before them are.
ghost use Rattle.sst_calls.specs.Footers.{IsFooterRead, IsFooterWrite};

use crate::codes::Status;
use crate::output::write_bytes;
use crate::run::{SstRunHandles, handles_told, run_handles};
use sstable_blocks::run::footer::FOOTER_LEN;
use sstable_blocks::{decode_footer, encode_footer};

/// Reads where the index and the filter are in the run of a table file, from its last 24 bytes. The
/// run is the bytes before these.
///
/// Returns 0 and the handles, whose filter has size 0 where there is none; or 7 if the file has
/// fewer than 24 bytes, and leaves `handles`.
#[tactic(auto, unfolding(sstable_blocks::specs::Footer::table_handles, sstable_blocks::specs::Footer::footer_handles))]
pub fn read(file: &[u8], handles: &mut SstRunHandles) -> Status
    ensures { IsFooterRead file.now handles.old handles.new result }
{
    let (_, footer) = file.split_at(file.len().saturating_sub(FOOTER_LEN));
    match decode_footer(footer) {
        Ok(found) => {
            *handles = handles_told(&found);
            Status::Done
        }
        Err(error) => Status::Failed(error),
    }
}

/// Writes the footer of a run with these handles, which ends its table file: 24 bytes.
///
/// Returns 0, and 24, which are then the front of `out`; or 18 where `out` is shorter, and 24.
pub fn write(handles: &SstRunHandles, out: &mut [u8], out_len: &mut usize) -> Status
    ensures { IsFooterWrite handles.now out.old out.new out_len.new result }
{
    write_bytes(&encode_footer(&run_handles(handles)), out, out_len)
}
