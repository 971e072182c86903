//! Tables of either kind in a file.
ghost use Rattle.std.specs.Prelude.{◌≡◌, IfSome, Ok, true};
ghost use Rattle.sst_parts.specs.AnyTables.{AsksOfAny, CountsAny, FindsAllInAny, FindsInAny};
ghost use Rattle.sst_parts.specs.AnyTables.{LooksInAny, OpensAs};
ghost use Rattle.sst_parts.specs.AnyTables.{any_by_footer, any_by_handles, any_by_kind};
ghost use Rattle.sst_parts.specs.AnyTables.{any_error_after, any_frames, any_source_after};
ghost use Rattle.sst_parts.specs.AnyTables.{handles_frames, index_at, index_of};
ghost use Rattle.sst_parts.specs.AnyTables.{is_parted_at, is_top, kind_frames};
ghost use Rattle.sst_parts.specs.AnyTables.{needles_frames_of_any};
ghost use Rattle.sst_parts.specs.AnyTables.{parted_by, plain_by, read_any, read_open_any};
ghost use Rattle.sst_parts.specs.AnyTables.{source_in, with_source};
ghost use Rattle.sstable_blocks.specs.Prelude.{header_at};
ghost use Rattle.sstable_blocks.specs.FrameCounts.{open_frames};
ghost use Rattle.sstable_blocks.specs.ManyReads.{read_each};
ghost use Rattle.sstable_blocks.specs.RunReading.{hashes};
ghost use Rattle.sstable_blocks.specs.Sources.{AsksAny, AsksAs, AsksExactly, AsksUpTo, ReadsAs};
ghost use Rattle.sstable_blocks.specs.Sources.{UsesSource};

use crate::table::PartedTable;
use sstable_blocks::run::footer::read_table_footer;
use sstable_blocks::run::{FrameSource, OpenError, RunHandles, SizedSource, Table};
use sstable_blocks::table::block::header::HEADER_LEN;
use sstable_blocks::{
    BlockHandle, BlockHash, BlockType, Header, IndexBlock, InternalValue, Needle, Result, SeqNo,
    Steps,
};
use std::alloc::Global;

/// A table in a source: plain, or parted.
#[derive(Drop)]
pub enum AnyTable<H: BlockHash, S: FrameSource> {
    /// A run, and its footer.
    Plain(Table<H, S>),
    /// Table files one after the other, and an index over them.
    Parted(PartedTable<H, S>),
}

// Whether bytes begin with the header of an index of parts.
fn is_top<H: BlockHash>(bytes: &[u8]) -> bool
    ensures { result ≡ is_top (header_at H.hash128 bytes.now) }
{
    let mut rest = bytes;
    match Header::decode_from::<H, &[u8]>(&mut rest) {
        Ok(header) => matches!(header.block_type, BlockType::Meta),
        Err(_) => false,
    }
}

/// Returns whether a table is in parts, by the frame that its footer names as index: it is where
/// that begins with a whole header, of type `Meta`. Any other table is plain, and opening it says
/// what its index is refused for.
///
/// # Errors
///
/// Those of `FrameSource::read_frame` for the header.
pub fn is_parted<H: BlockHash, S: FrameSource>(
    alloc: Global,
    source: &mut S,
    index: &BlockHandle,
) -> Result<bool>
    ensures source { UsesSource S.bytes S.failures S.reads S.is_reliable
        (AsksExactly 1) source.old source.new result }
    ensures exact { ReadsAs S.bytes S.failures S.is_reliable source.old source.new (λ b. b) result
        (λ all. is_parted_at (hashes H.hash64 H.hash128) all index.now) }
{
    let size = index.size().min(HEADER_LEN as u32);
    let header = source.read_frame(alloc, &BlockHandle::new(index.offset(), size))?;
    Ok(is_top::<H>(header.as_slice()))
}

// Opens a plain table.
fn open_plain<H: BlockHash, S: FrameSource>(
    alloc: Global,
    source: S,
    handles: RunHandles,
) -> std::result::Result<AnyTable<H, S>, OpenError<S>>
    ensures source { UsesSource S.bytes S.failures S.reads S.is_reliable AsksAny
        source (any_source_after result) (any_error_after result) }
    ensures asked { AsksAs S.bytes S.failures S.reads source (any_source_after result)
        (any_error_after result) (λ all. open_frames (hashes H.hash64 H.hash128) all handles) }
    ensures exact { OpensAs S.bytes S.failures S.is_reliable source result
        (λ all. plain_by (hashes H.hash64 H.hash128) all handles) }
{
    match Table::open(alloc, source, handles) {
        Ok(table) => Ok(AnyTable::Plain(table)),
        Err(failed) => Err(failed),
    }
}

// Opens a parted table.
fn open_parted<H: BlockHash, S: FrameSource>(
    alloc: Global,
    source: S,
    top: BlockHandle,
) -> std::result::Result<AnyTable<H, S>, OpenError<S>>
    ensures source { UsesSource S.bytes S.failures S.reads S.is_reliable AsksAny
        source (any_source_after result) (any_error_after result) }
    ensures asked { AsksAs S.bytes S.failures S.reads source (any_source_after result)
        (any_error_after result) (λ _. 1) }
    ensures exact { OpensAs S.bytes S.failures S.is_reliable source result
        (λ all. parted_by (hashes H.hash64 H.hash128) all top) }
{
    match PartedTable::open(alloc, source, top) {
        Ok(table) => Ok(AnyTable::Parted(table)),
        Err(failed) => Err(failed),
    }
}

// Opens a table that is in parts, or is not.
fn open_by_kind<H: BlockHash, S: FrameSource>(
    alloc: Global,
    source: S,
    handles: RunHandles,
    is_parted: bool,
) -> std::result::Result<AnyTable<H, S>, OpenError<S>>
    ensures source { UsesSource S.bytes S.failures S.reads S.is_reliable AsksAny
        source (any_source_after result) (any_error_after result) }
    ensures asked { AsksAs S.bytes S.failures S.reads source (any_source_after result)
        (any_error_after result)
        (λ all. kind_frames (hashes H.hash64 H.hash128) all handles is_parted) }
    ensures exact { OpensAs S.bytes S.failures S.is_reliable source result
        (λ all. any_by_kind (hashes H.hash64 H.hash128) all handles is_parted) }
{
    if is_parted {
        open_parted(alloc, source, handles.index)
    } else {
        open_plain(alloc, source, handles)
    }
}

impl<H: BlockHash, S: FrameSource> AnyTable<H, S> {
    /// Opens a table in a source: where it [`is_parted`], as [`PartedTable::open`] does, else as
    /// [`Table::open`] does. Of the frame of its index the header is read first.
    ///
    /// # Errors
    ///
    /// Those of [`is_parted`], then those of [`PartedTable::open`] or [`Table::open`]. The source is
    /// returned with the error.
    pub fn open(
        alloc: Global,
        source: S,
        handles: RunHandles,
    ) -> std::result::Result<AnyTable<H, S>, OpenError<S>>
        ensures source { UsesSource S.bytes S.failures S.reads S.is_reliable AsksAny
            source (any_source_after result) (any_error_after result) }
        ensures asked { AsksAs S.bytes S.failures S.reads source (any_source_after result)
            (any_error_after result)
            (λ all. handles_frames (hashes H.hash64 H.hash128) all handles) }
        ensures exact { OpensAs S.bytes S.failures S.is_reliable source result
            (λ all. any_by_handles (hashes H.hash64 H.hash128) all handles) }
    {
        let mut source = source;
        match is_parted::<H, S>(alloc, &mut source, &handles.index) {
            Ok(is_parted) => open_by_kind(alloc, source, handles, is_parted),
            Err(error) => Err(OpenError { error, source }),
        }
    }
}

impl<H: BlockHash, S: SizedSource> AnyTable<H, S> {
    /// Opens a table file, by the frame that its footer names as index: reads the footer, and opens
    /// the table as [`AnyTable::open`] does.
    ///
    /// # Errors
    ///
    /// `Error::Io` if the source fails, `Error::Truncated` if it is shorter than a footer, then
    /// those of [`AnyTable::open`]. The source is returned with the error.
    pub fn open_file(alloc: Global, source: S) -> std::result::Result<AnyTable<H, S>, OpenError<S>>
        ensures source { UsesSource S.bytes S.failures S.reads S.is_reliable AsksAny
            source (any_source_after result) (any_error_after result) }
        ensures asked { AsksAs S.bytes S.failures S.reads source (any_source_after result)
            (any_error_after result) (λ all. any_frames (hashes H.hash64 H.hash128) all) }
        ensures exact { OpensAs S.bytes S.failures S.is_reliable source result
            (λ all. any_by_footer (hashes H.hash64 H.hash128) all) }
    {
        let mut source = source;
        match read_table_footer(alloc, &mut source) {
            Ok(handles) => AnyTable::open(alloc, source, handles),
            Err(error) => Err(OpenError { error, source }),
        }
    }
}

impl<H: BlockHash, S: FrameSource> AnyTable<H, S> {
    /// Returns the first entry with this key whose sequence number is strictly below `seqno`, as
    /// [`Table::get`] or [`PartedTable::get`] does, and adds to `steps` what that does.
    ///
    /// # Errors
    ///
    /// Those of [`Table::get`] or [`PartedTable::get`].
    pub fn get(
        &mut self,
        alloc: Global,
        needle: &[u8],
        seqno: SeqNo,
        steps: &mut Steps,
    ) -> Result<Option<InternalValue>>
        ensures kept { self.new ≡ with_source self.old (source_in self.new) }
        ensures source { UsesSource S.bytes S.failures S.reads S.is_reliable
            (AsksOfAny H.hash64 self.old needle.now seqno) (source_in self.old) (source_in self.new)
            result }
        ensures exact { ReadsAs S.bytes S.failures S.is_reliable (source_in self.old)
            (source_in self.new) (λ x. x) result (λ all. read_any (hashes H.hash64 H.hash128) all
            self.old needle.now seqno) }
        ensures sound { IfSome (S.bytes (source_in self.old))
            (FindsInAny (hashes H.hash64 H.hash128) self.old needle.now seqno result) }
        ensures counts { IfSome (S.bytes (source_in self.old))
            (λ all. CountsAny all self.old needle.now seqno steps.old steps.new) }
        ensures looked { LooksInAny H.hash64 self.old needle.now steps.old steps.new }
    {
        match self {
            AnyTable::Plain(table) => table.get(alloc, needle, seqno, steps),
            AnyTable::Parted(table) => table.get(alloc, needle, seqno, steps),
        }
    }

    /// Returns for each needle the first entry with its key below its bound, in the order of the
    /// needles, as [`Table::get_many`] or [`PartedTable::get_many`] does.
    ///
    /// # Errors
    ///
    /// Those of [`Table::get_many`] or [`PartedTable::get_many`].
    pub fn get_many(
        &mut self,
        alloc: Global,
        needles: &[Needle<'_>],
        steps: &mut Steps,
    ) -> Result<Vec<Option<InternalValue>>>
        ensures kept { self.new ≡ with_source self.old (source_in self.new) }
        ensures source { UsesSource S.bytes S.failures S.reads S.is_reliable
            (AsksUpTo (needles_frames_of_any H.hash64 self.old needles.now)) (source_in self.old)
            (source_in self.new) result }
        ensures exact { ReadsAs S.bytes S.failures S.is_reliable (source_in self.old)
            (source_in self.new) (λ v. v.items) result (λ all. read_each
            (read_open_any (hashes H.hash64 H.hash128) all self.old) needles.now) }
        ensures sound { IfSome (S.bytes (source_in self.old)) (FindsAllInAny
            (hashes H.hash64 H.hash128) self.old needles.now (λ v. v.items) result) }
    {
        match self {
            AnyTable::Plain(table) => table.get_many(alloc, needles, steps),
            AnyTable::Parted(table) => table.get_many(alloc, needles, steps),
        }
    }

    /// Returns the index, of the blocks or of the parts, with the table of its heads.
    pub fn index(&self) -> &IndexBlock
        ensures items { result.now.items ≡ index_of self.now }
        ensures heads { result.now.heads ≡ true }
        ensures kept { IfSome (S.bytes (source_in self.now)) (λ all.
            index_at (hashes H.hash64 H.hash128) all self.now ≡ Ok (index_of self.now)) }
    {
        match self {
            AnyTable::Plain(table) => table.index(),
            AnyTable::Parted(table) => table.index(),
        }
    }
}
