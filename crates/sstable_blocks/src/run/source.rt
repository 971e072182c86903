//! Sources of frames: memory and files.
ghost use Rattle.std.specs.Prelude.{◌≡◌, ◌⊎◌, ℕ, ◌+◌, ◌≤◌, ◌<◌, ◌^◌, List, Option, Some, length};
ghost use Rattle.std.specs.Prelude.{OnOk, OnErr, IfOk, IfErr, IfSome, IsOk, IsOkUnless};
ghost use Rattle.std.specs.Prelude.{MatchResult};
ghost use Rattle.sst_base.specs.BlockHandle.{HandleParts};
ghost use Rattle.sst_base.specs.Bytes.{IsBytes};
ghost use Rattle.sst_base.specs.declared.error.Error.TheVariants.{Io, Truncated, BadHandle, Memory};
ghost use Rattle.sstable_blocks.specs.RunReading.{range_at};
ghost use Rattle.sstable_blocks.specs.Sources.{AsksExactly, GivesOr, IsRangeRead, IsRangeRefused};
ghost use Rattle.sstable_blocks.specs.Sources.{UsesSource};

use sst_base::{BlockHandle, Count, Error, Result, SeekInput, Slice};
use std::alloc::Global;
use std::marker::Model;

/// Where the frames of a run are read from.
///
/// Clauses see the bytes, if they are known, how often the source failed, and how many frames were
/// requested. A reliable source, as one over memory, fails only at a range that is not inside.
pub trait FrameSource {
    // the bytes of the source, if they are known
    ghost bytes: { Self → Option (List ℕ) };

    // how often the source failed
    ghost failures: { Self → ℕ };

    // how many frames were requested
    ghost reads: { Self → ℕ };

    // does it fail only at a range that is not inside?
    ghost is_reliable: { Self → Type 0 } = { λ _. ⊥ };

    // may the range of a handle not be inside?
    ghost may_refuse: { Self → HandleParts → Type 0 } = { λ _ _. Unit {0} };

    // may the range of a handle be reported as truncated?
    ghost may_truncate: { Self → HandleParts → Type 0 } = { λ _ _. ⊥ };

    /// Reads the bytes that a handle names.
    ///
    /// # Errors
    ///
    /// `Error::BadHandle` if the range of the handle is not inside, `Error::Io` if the source
    /// fails, or ends before the last byte, `Error::Truncated` if a file ends before the range of
    /// a handle of no bytes, `Error::Memory` if an allocation fails.
    fn read_frame(&mut self, alloc: Global, handle: &BlockHandle) -> Result<Slice>
        ensures source { UsesSource bytes failures reads is_reliable
            (AsksExactly 1) self.old self.new result }
        ensures requested { IfSome (bytes self.old) (λ all. IfErr result (λ e. e ≡ Io
            → is_reliable self.old → 0 < handle.now.size)) }
        ensures errors { IfErr result (λ e. (e ≡ Io) ⊎ (e ≡ Memory)
            ⊎ ((e ≡ BadHandle) × may_refuse self.old handle.now)
            ⊎ ((e ≡ Truncated) × may_truncate self.old handle.now)) }
        ensures size { IfOk result (λ s. length s ≡ handle.now.size) }
        ensures cells { OnOk result (IfSome (bytes self.old) IsBytes) }
        ensures range { IfSome (bytes self.old)
            (λ all. GivesOr (failures self.old < failures self.new) (is_reliable self.old)
            (λ s. s) result (range_at all handle.now)) };
}

/// A source of frames that knows its length, as one over memory or a file does.
pub trait SizedSource: FrameSource {
    /// Returns the length in bytes. No frame is read.
    ///
    /// # Errors
    ///
    /// `Error::Io` if the source fails, which a reliable one never does.
    fn byte_len(&mut self) -> Result<u64>
        ensures source { UsesSource Self.bytes Self.failures Self.reads Self.is_reliable
            (AsksExactly 0) self.old self.new result }
        ensures len { IfOk result (λ len. IfSome (Self.bytes self.old) (λ all. len ≡ length all)) }
        ensures io { IsOkUnless result Error.Io }
        ensures failed { OnErr result (Self.failures self.old < Self.failures self.new) }
        ensures reliable { Self.is_reliable self.old → IsOk result };
}

/// A run in memory. Frames are cut from its bytes, and not copied.
#[derive(Drop)]
pub struct MemorySource {
    bytes: Slice,
    reads: Count,
}

impl Model for MemorySource {
    ghost use Rattle.std.specs.Prelude.{ℕ, List};
    ghost use Rattle.sst_base.specs.Bytes.{IsBytes};
    ghost use Rattle.sstable_blocks.specs.Sources.{SourceParts};

    ghost Value = { SourceParts (List ℕ) };

    ghost view = { λ s. record { inner = s.bytes; failures = 0; reads = s.reads } };

    ghost invariant = { λ s. IsBytes s.bytes };
}

impl MemorySource {
    /// Wraps the bytes of a run.
    pub fn new(bytes: Slice) -> MemorySource
        ensures { result ≡ record { inner = bytes; failures = 0; reads = 0 } }
    {
        // Each cell is a byte.
        let _len = bytes.len();
        MemorySource {
            bytes,
            reads: Count::new(),
        }
    }

    /// Returns the bytes of the run.
    pub fn into_inner(self) -> Slice
        ensures { result ≡ self.inner }
    {
        self.bytes
    }

    /// Returns the bytes of the run, which are borrowed.
    pub fn bytes(&self) -> &Slice
        ensures { result.now ≡ self.now.inner }
    {
        &self.bytes
    }
}

/// `Error::BadHandle` and `Error::Memory` alone.
impl FrameSource for MemorySource {
    ghost bytes = { λ s. Some s.inner };

    ghost failures = { λ s. 0 };

    ghost reads = { λ s. s.reads };

    ghost is_reliable = { λ s. Unit {0} };

    ghost may_refuse = { λ s h. length s.inner < h.offset + h.size };

    #[tactic(auto, unfolding(crate::specs::RunReading::range_at))]
    fn read_frame(&mut self, alloc: Global, handle: &BlockHandle) -> Result<Slice> {
        let _ = alloc;
        self.reads.add_one();
        let len = self.bytes.len() as u64;
        let (offset, size) = (*handle.offset(), u64::from(handle.size()));
        if offset > len || size > len - offset {
            return Err(Error::BadHandle);
        }
        self.bytes.slice(offset as usize..(offset + size) as usize)
    }
}

impl SizedSource for MemorySource {
    fn byte_len(&mut self) -> Result<u64> {
        Ok(self.bytes.len() as u64)
    }
}

// A run in bytes that are borrowed, as [`RunRef::check`](super::RunRef::check) reads it. A frame is
// copied where it is read.
#[derive(Drop)]
pub(crate) struct BorrowedSource<'a> {
    bytes: &'a [u8],
    reads: Count,
}

impl<'a> Model for BorrowedSource<'a> {
    ghost use Rattle.std.specs.Prelude.{ℕ, List};
    ghost use Rattle.sst_base.specs.Bytes.{IsBytes};
    ghost use Rattle.sstable_blocks.specs.Sources.{SourceParts};

    ghost Value = { SourceParts (List ℕ) };

    ghost view = { λ s. record { inner = s.bytes.now; failures = 0; reads = s.reads } };

    ghost invariant = { λ s. IsBytes s.bytes.now };
}

impl<'a> BorrowedSource<'a> {
    // Wraps the bytes of a run.
    pub(crate) fn new(bytes: &'a [u8]) -> BorrowedSource<'a>
        ensures { result ≡ record { inner = bytes.now; failures = 0; reads = 0 } }
    {
        BorrowedSource {
            bytes,
            reads: Count::new(),
        }
    }
}

/// `Error::BadHandle` and `Error::Memory` alone.
impl<'a> FrameSource for BorrowedSource<'a> {
    ghost bytes = { λ s. Some s.inner };

    ghost failures = { λ s. 0 };

    ghost reads = { λ s. s.reads };

    ghost is_reliable = { λ s. Unit {0} };

    ghost may_refuse = { λ s h. length s.inner < h.offset + h.size };

    #[tactic(auto, unfolding(crate::specs::RunReading::range_at))]
    fn read_frame(&mut self, alloc: Global, handle: &BlockHandle) -> Result<Slice> {
        self.reads.add_one();
        let len = self.bytes.len() as u64;
        let (offset, size) = (*handle.offset(), u64::from(handle.size()));
        if size > len || offset > len - size {
            return Err(Error::BadHandle);
        }
        Slice::new(
            alloc,
            &self.bytes[offset as usize..(offset + size) as usize],
        )
    }
}

/// A run in a file, or in anything else that can be read and moved.
///
/// Clauses see the file, with its bytes where they are known, how often it failed, and how many
/// frames were requested.
#[derive(Drop)]
pub struct FileSource<F> {
    file: F,
    failures: Count,
    reads: Count,
}

impl<F> Model for FileSource<F> {
    ghost use Rattle.sstable_blocks.specs.Sources.{SourceParts};

    ghost Value = { SourceParts F };

    ghost view = { λ s. record { inner = s.file; failures = s.failures; reads = s.reads } };
}

impl<F: SeekInput> FileSource<F> {
    /// Wraps a file. It has not failed yet.
    pub fn new(file: F) -> FileSource<F>
        ensures { result ≡ record { inner = file; failures = 0; reads = 0 } }
    {
        FileSource {
            file,
            failures: Count::new(),
            reads: Count::new(),
        }
    }
}

/// `Error::BadHandle` if the range ends at 2^64 or above, and `Error::Truncated`, which counts as a
/// failure, for a handle of no bytes after the end of the file.
impl<F: SeekInput> FrameSource for FileSource<F> {
    ghost bytes = { λ s. F.whole s.inner };

    ghost failures = { λ s. s.failures };

    ghost reads = { λ s. s.reads };

    ghost is_reliable = { λ s. F.is_memory s.inner };

    ghost may_refuse = { λ s h. 2 ^ 64 ≤ h.offset + h.size };

    ghost may_truncate = { λ s h. h.size ≡ 0 };

    fn read_frame(&mut self, alloc: Global, handle: &BlockHandle) -> Result<Slice> {
        self.reads.add_one();
        let read = read_at(alloc, &mut self.file, handle);
        if let Err(Error::Io | Error::Truncated) = &read {
            self.failures.add_one();
        }
        read
    }
}

impl<F: SeekInput> SizedSource for FileSource<F> {
    fn byte_len(&mut self) -> Result<u64> {
        let len = self.file.stream_len();
        if len.is_err() {
            self.failures.add_one();
        }
        len
    }
}

// Refuses the range of a handle that ends at 2^64 or above, and one of no bytes after the end.
fn check_range<F: SeekInput>(file: &mut F, handle: &BlockHandle) -> Result<()>
    ensures whole { F.whole file.new ≡ F.whole file.old }
    ensures kept { F.is_memory file.old → F.is_memory file.new }
    ensures errors { IfErr result (λ e. (e ≡ Io)
        ⊎ ((e ≡ BadHandle) × (2 ^ 64 ≤ handle.now.offset + handle.now.size))
        ⊎ ((e ≡ Truncated) × (handle.now.size ≡ 0))) }
    ensures range { IfSome (F.whole file.old)
        (λ all. MatchResult result (λ _. handle.now.size ≡ 0 → handle.now.offset ≤ length all)
        (λ e. IsRangeRefused (F.is_memory file.old) handle.now.size e (range_at all handle.now))) }
{
    let (offset, size) = (*handle.offset(), handle.size());
    if offset.checked_add(u64::from(size)).is_none() {
        file.stream_len()?;
        return Err(Error::BadHandle);
    }
    if size > 0 {
        return Ok(());
    }
    // An offset that no seek reaches is `Error::Io`, as that of any other handle.
    file.move_to(offset)?;
    if file.stream_len()? < offset {
        return Err(Error::Truncated);
    }
    Ok(())
}

// Reads the bytes of a file that a handle names.
fn read_at<F: SeekInput>(alloc: Global, file: &mut F, handle: &BlockHandle) -> Result<Slice>
    ensures whole { F.whole file.new ≡ F.whole file.old }
    ensures kept { F.is_memory file.old → F.is_memory file.new }
    ensures size { IfOk result (λ s. length s ≡ handle.now.size) }
    ensures errors { IfErr result (λ e. (e ≡ Io) ⊎ (e ≡ Memory)
        ⊎ ((e ≡ BadHandle) × (2 ^ 64 ≤ handle.now.offset + handle.now.size))
        ⊎ ((e ≡ Truncated) × (handle.now.size ≡ 0))) }
    ensures cells { OnOk result (IfSome (F.whole file.old) IsBytes) }
    ensures range { IfSome (F.whole file.old)
        (λ all. IsRangeRead (F.is_memory file.old) handle.now.size result
        (range_at all handle.now)) }
{
    check_range(file, handle)?;
    file.move_to(*handle.offset())?;
    Slice::from_reader(alloc, file, handle.size() as usize)
}
