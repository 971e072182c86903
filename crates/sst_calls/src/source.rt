//! Runs in borrowed bytes as sources of frames.
ghost use Rattle.std.specs.Prelude.{◌≡◌, ◌+◌, ◌-◌, ◌<◌, ◌^◌, length, min, Some};

use sstable_blocks::ghost_state::Count;
use sstable_blocks::{BlockHandle, Error, FrameSource, Result, Slice};
use std::alloc::Global;
use std::marker::Model;

/// A run in bytes that are borrowed, and how many frames were requested, at most 2^64 - 1. A frame
/// is copied where it is read.
#[derive(Drop)]
pub(crate) struct CountedSource<'a> {
    bytes: &'a [u8],
    reads: Count,
    count: u64,
}

impl<'a> Model for CountedSource<'a> {
    ghost use Rattle.std.specs.Prelude.{◌≡◌, ◌-◌, ◌^◌, ℕ, List, min};
    ghost use Rattle.sstable_blocks.specs.Prelude.{IsBytes};
    ghost use Rattle.sstable_blocks.specs.Sources.{SourceParts};

    ghost Value = { SourceParts (List ℕ) };

    ghost view = { λ s. record { inner = s.bytes.now; failures = 0; reads = s.reads } };

    ghost invariant = { λ s. IsBytes s.bytes.now × (s.count ≡ min s.reads (2 ^ 64 - 1)) };
}

impl<'a> CountedSource<'a> {
    /// Wraps the bytes of a run.
    pub(crate) fn new(bytes: &'a [u8]) -> CountedSource<'a>
        ensures { result ≡ record { inner = bytes.now; failures = 0; reads = 0 } }
    {
        CountedSource {
            bytes,
            reads: Count::new(),
            count: 0,
        }
    }

    /// The number of frames that were requested.
    pub(crate) fn count(&self) -> u64
        ensures { result ≡ min self.now.reads (2 ^ 64 - 1) }
    {
        self.count
    }
}

/// `Error::BadHandle` and `Error::Memory` alone.
impl<'a> FrameSource for CountedSource<'a> {
    ghost bytes = { λ s. Some s.inner };

    ghost failures = { λ s. 0 };

    ghost reads = { λ s. s.reads };

    ghost is_reliable = { λ s. Unit {0} };

    ghost may_refuse = { λ s h. length s.inner < h.offset + h.size };

    #[tactic(auto, unfolding(sstable_blocks::specs::RunReading::range_at))]
    fn read_frame(&mut self, alloc: Global, handle: &BlockHandle) -> Result<Slice> {
        self.reads.add_one();
        self.count = self.count.saturating_add(1);
        let len = self.bytes.len() as u64;
        let (offset, size) = (*handle.offset(), u64::from(handle.size()));
        if size > len || offset > len - size {
            return Err(Error::BadHandle);
        }
        Slice::new(
            alloc,
            &self.bytes[offset as usize..(offset + size) as usize],
        )
    }
}
