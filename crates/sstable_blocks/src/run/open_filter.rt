//! The filter of a run in memory, read once.
ghost use Rattle.std.specs.Prelude.{◌≡◌, ◌↔◌, IfSome, false};
ghost use Rattle.sstable_blocks.specs.Opened.{IsDenied, IsFilterIn, IsFrameRange};

use super::read::payload_at;
use crate::table::filter::standard_bloom::StandardBloomFilterReader;
use sst_base::BlockHandle;
use std::marker::Model;

/// The filter of a run in memory, if it has one, as its reader. It is not looked up by the bytes
/// again.
///
/// Clauses see the bytes of the run and the handle of the filter, if it has one.
#[derive(Drop)]
pub(crate) struct OpenFilter<'a> {
    bytes: &'a [u8],
    handle: Option<BlockHandle>,
    reader: Option<StandardBloomFilterReader<'a>>,
}

impl<'a> Model for OpenFilter<'a> {
    ghost use Rattle.sstable_blocks.specs.Opened.{FilterPlace, IsFilterIn};

    ghost Value = { FilterPlace };

    ghost view = { λ f. record { bytes = f.bytes.now; handle = f.handle } };

    ghost invariant = { λ f. IsFilterIn f.bytes.now f.handle f.reader };
}

// The reader of a filter, if there is one that can be read.
fn reader_in<'a>(
    bytes: &'a [u8],
    handle: &Option<BlockHandle>,
) -> Option<StandardBloomFilterReader<'a>>
    requires { IfSome handle.now (IsFrameRange bytes.now) }
    ensures { IsFilterIn bytes.now handle.now result }
{
    match handle {
        None => None,
        Some(handle) => match StandardBloomFilterReader::new(payload_at(bytes, handle)) {
            Ok(reader) => Some(reader),
            Err(_) => None,
        },
    }
}

impl<'a> OpenFilter<'a> {
    /// Reads the filter in the range of a handle, if there is one.
    pub(crate) fn new(bytes: &'a [u8], handle: &Option<BlockHandle>) -> OpenFilter<'a>
        requires { IfSome handle.now (IsFrameRange bytes.now) }
        ensures { result ≡ record { bytes = bytes.now; handle = handle.now } }
    {
        OpenFilter {
            bytes,
            handle: *handle,
            reader: reader_in(bytes, handle),
        }
    }

    /// Returns whether the run can have a key of this hash. It can where there is no filter.
    #[tactic(auto, using(crate::specs::PointLaws::rules_out))]
    pub(crate) fn allows(&self, hash: u64) -> bool
        ensures { (result ≡ false) ↔ IsDenied self.now.bytes self.now.handle hash }
    {
        match &self.reader {
            Some(reader) => reader.contains_hash(hash),
            None => true,
        }
    }
}
