//! Table files: a run and its footer. The library's `Table` is not used: to open it reads the
//! filter and the index always, and errors would come in another order than that of a read.
ghost use Rattle.std.specs.Prelude.{◌≡◌, ◌⊎◌, ◌<◌, IfErr};
ghost use Rattle.std.specs.Prelude.{IfSome, IfOk, IsOkUnless};
ghost use Rattle.sst_program.specs.TableReads.{index_read, block_read};
ghost use Rattle.sstable_blocks.specs.Footer.{table_handles};
ghost use Rattle.sstable_blocks.specs.Results.{Io, Truncated, Memory};
ghost use Rattle.sstable_blocks.specs.Sources.{AsksExactly, GivesOr, ReadsAs, UsesSource};

use sstable_blocks::run::checked::block_from;
use sstable_blocks::run::footer::read_footer;
use sstable_blocks::{
    BlockHandle, BlockType, DataBlock, Error, FileSource, FrameSource, IndexBlock, Input, Poly31,
    Result, RunHandles, SeekInput, append_exact,
};
use std::alloc::Global;
use std::io::{Read, Seek, SeekFrom};
use std::rt::Files;
use std::{fs, io};

/// An open file. Of its bytes clauses see those that are left, if they are known.
#[derive(Drop)]
pub struct TableFile<F> {
    file: F,
}

impl<F: Read> Read for TableFile<F> {
    ghost remaining = { λ t. F.remaining t.file };

    fn read(&mut self, buf: &mut [u8]) -> io::Result<usize> {
        self.file.read(buf)
    }
}

impl<F: Seek> Seek for TableFile<F> {
    fn seek(&mut self, to: SeekFrom) -> io::Result<u64> {
        self.file.seek(to)
    }
}

impl<F: Read> Input for TableFile<F> {
    fn fill(&mut self, buf: &mut [u8]) -> Result<()> {
        Ok(self.read_exact(buf)?)
    }

    fn append(&mut self, buf: &mut Vec<u8>, len: usize) -> Result<()> {
        append_exact(self, buf, len)
    }
}

impl<F: Read + Seek> SeekInput for TableFile<F> {
    ghost whole_is_known = { λ s at bytes position. Prim.cc };

    fn move_to(&mut self, offset: u64) -> Result<()> {
        self.seek(SeekFrom::Start(offset))?;
        Ok(())
    }

    fn stream_len(&mut self) -> Result<u64> {
        Ok(self.seek(SeekFrom::End(0))?)
    }
}

impl<F> TableFile<F> {
    /// Reads tables from a file.
    pub fn new(file: F) -> TableFile<F>
        ensures { result ≡ record { file = file } }
    {
        TableFile { file }
    }
}

/// The frames of a table file, and where its index and its filter are.
#[derive(Drop)]
pub struct Table<F> {
    /// The frames.
    pub source: FileSource<F>,
    /// The frames of the index and of the filter, as the footer says.
    pub handles: RunHandles,
}

/// Opens a file.
///
/// # Errors
///
/// `Error::Io` if it cannot be opened.
pub fn open_file<R: Files>(rt: &R, name: &str) -> Result<TableFile<R::File>>
    ensures { IsOkUnless result Error.Io }
{
    Ok(TableFile::new(fs::open(rt, name)?))
}

/// Reads the footer of a table file.
///
/// # Errors
///
/// `Error::Io` if the file fails, `Error::Truncated` below 24 bytes, and `Error::Memory` if an
/// allocation fails.
pub fn open_run<F: SeekInput + Drop>(alloc: Global, file: F) -> Result<Table<F>>
    ensures whole { IfOk result (λ t. F.whole t.source.inner ≡ F.whole file) }
    ensures kept { F.is_memory file → IfOk result (λ t. F.is_memory t.source.inner) }
    ensures exact { IfSome (F.whole file) (λ all.
        GivesOr (F.is_memory file → ⊥) ⊥ (λ t. t.handles) result (table_handles all)) }
    ensures err { IfErr result (λ e. (e ≡ Io) ⊎ (e ≡ Truncated) ⊎ (e ≡ Memory)) }
{
    let mut file = file;
    let len = file.stream_len()?;
    let mut source = FileSource::new(file);
    let handles = read_footer(alloc, &mut source, len)?;
    Ok(Table { source, handles })
}

/// Reads and checks the index of a run.
///
/// # Errors
///
/// Those of its frame, then `Error::InvalidTag` if it is of another type, then those of
/// `IndexBlock::check_once`. `Error::Memory` if an allocation fails.
#[tactic(auto, unfolding(crate::specs::TableReads::index_read))]
pub fn index_at<S: FrameSource>(
    alloc: Global,
    source: &mut S,
    handle: &BlockHandle,
) -> Result<IndexBlock>
    ensures source { UsesSource S.bytes S.failures S.reads S.is_reliable
        (AsksExactly 1) source.old source.new result }
    ensures exact { ReadsAs S.bytes S.failures S.is_reliable source.old source.new
        (λ b. b.items) result (λ all. index_read all handle.now) }
{
    let block = block_from::<Poly31, S>(alloc, source, handle, BlockType::Index)?;
    IndexBlock::check_once(block)
}

/// Reads and checks a data block of a run.
///
/// # Errors
///
/// Those of its frame, then `Error::InvalidTag` if it is of another type, then those of
/// `DataBlock::check_once`. `Error::Memory` if an allocation fails.
#[tactic(auto, unfolding(crate::specs::TableReads::block_read))]
pub fn data_block_at<S: FrameSource>(
    alloc: Global,
    source: &mut S,
    handle: &BlockHandle,
) -> Result<DataBlock<Poly31>>
    ensures source { UsesSource S.bytes S.failures S.reads S.is_reliable
        (AsksExactly 1) source.old source.new result }
    ensures exact { ReadsAs S.bytes S.failures S.is_reliable source.old source.new
        (λ b. b.items) result (λ all. block_read all handle.now) }
{
    let block = block_from::<Poly31, S>(alloc, source, handle, BlockType::Data)?;
    DataBlock::<Poly31>::check_once(alloc, block)
}
