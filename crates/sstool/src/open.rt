//! Opening table files.
use crate::parted::{is_parted, open_parts, test_footer, test_order};
use sst_parts::AnyTable;
use sst_program::table::TableFile;
use sst_tool::fault::{Fault, Result};
use sst_tool::place::footer_block_at;
use sst_tool::progress::Progress;
use sst_tool::whole::handles_of;
use sstable_blocks::{
    BlockHash, FileSource, FrameSource, Input, RunHandles, SeekInput, SizedSource, Table,
    append_exact,
};
use std::alloc::Global;
use std::io::{Read, Seek, SeekFrom};
use std::rt::{Clock, Files};
use std::{fs, io};

/// A table file, of which each block that is read is counted. Clauses know nothing of its bytes.
#[derive(Drop)]
pub struct CountedFile<'p, R: Files> {
    file: TableFile<R::File>,
    progress: &'p Progress<'p, R>,
}

impl<'p, R: Files> Read for CountedFile<'p, R> {
    fn read(&mut self, buf: &mut [u8]) -> io::Result<usize> {
        let read = self.progress.noted(self.file.read(buf));
        if let Ok(len) = read {
            self.progress.count_bytes(len);
        }
        read
    }
}

impl<'p, R: Files> Seek for CountedFile<'p, R> {
    fn seek(&mut self, to: SeekFrom) -> io::Result<u64> {
        self.progress.noted(self.file.seek(to))
    }
}

impl<'p, R: Files> Input for CountedFile<'p, R> {
    fn fill(&mut self, buf: &mut [u8]) -> sstable_blocks::Result<()> {
        Ok(self.read_exact(buf)?)
    }

    fn append(&mut self, buf: &mut Vec<u8>, len: usize) -> sstable_blocks::Result<()> {
        append_exact(self, buf, len)
    }
}

impl<'p, R: Files + Clock + Eprint> SeekInput for CountedFile<'p, R> {
    ghost whole_is_known = { λ s at bytes position. Prim.cc };

    // A block is read from where it begins. An offset that no file has is beyond the end.
    fn move_to(&mut self, offset: u64) -> sstable_blocks::Result<()> {
        self.progress.count_block(offset);
        self.file.move_to(offset)
    }

    fn stream_len(&mut self) -> sstable_blocks::Result<u64> {
        let len = self.seek(SeekFrom::End(0))?;
        self.progress.set_file_len(len);
        Ok(len)
    }
}

/// A table in a file, plain or parted.
pub type FileTable<'p, H, R> = AnyTable<H, FileSource<CountedFile<'p, R>>>;

// Opens a plain table of a file: reads its filter and its index. A fault names the one that was read
// last.
fn open_plain<H: BlockHash, S: FrameSource + Drop, R>(
    progress: &Progress<'_, R>,
    alloc: Global,
    name: &str,
    source: S,
    handles: &RunHandles,
) -> Result<Table<H, S>> {
    match Table::open(alloc, source, *handles) {
        Ok(table) => Ok(table),
        Err(failed) => {
            let offset = progress.offset().unwrap_or(0);
            let (block, cause) = (footer_block_at(handles, offset), progress.cause());
            Err(Fault::of_block(alloc, name, block, offset, failed.error, cause))
        }
    }
}

// Opens a table of a file, plain or parted.
fn open_source<H: BlockHash, S: SizedSource + Drop, R>(
    progress: &Progress<'_, R>,
    alloc: Global,
    name: &str,
    source: S,
) -> Result<AnyTable<H, S>> {
    let mut source = source;
    let handles = handles_of(progress, alloc, name, &mut source)?;
    if is_parted::<H, S, R>(progress, alloc, name, &mut source, &handles)? {
        test_footer(progress, alloc, name, &mut source)?;
        let table = open_parts(progress, alloc, name, source, &handles)?;
        Ok(AnyTable::Parted(table))
    } else {
        let table = open_plain(progress, alloc, name, source, &handles)?;
        Ok(AnyTable::Plain(table))
    }
}

/// Opens a file, to read the blocks of its table.
///
/// # Errors
///
/// The cause that the system gives, with the file's name.
pub fn source_of<'p, R: Files + Clock + Eprint>(
    progress: &'p Progress<'p, R>,
    alloc: Global,
    name: &str,
) -> Result<FileSource<CountedFile<'p, R>>> {
    match fs::open(progress.rt(), name) {
        Ok(file) => {
            progress.begin_file();
            let file = TableFile::new(file);
            Ok(FileSource::new(CountedFile { file, progress }))
        }
        Err(cause) => Err(Fault::of_open(alloc, name, cause)),
    }
}

/// Opens a table file, plain or parted: reads its footer, then filter and index, or the index of
/// its parts.
///
/// # Errors
///
/// Those of the library, with the file's name and the block that was read last.
pub fn open<'p, H: BlockHash, R: Files + Clock + Eprint>(
    progress: &'p Progress<'p, R>,
    alloc: Global,
    name: &str,
) -> Result<FileTable<'p, H, R>> {
    match source_of(progress, alloc, name) {
        Ok(source) => open_source(progress, alloc, name, source),
        Err(fault) => Err(fault),
    }
}

/// Tests by the index of a table that its blocks, or its parts, follow each other, as those do that
/// are read in order.
///
/// # Errors
///
/// Those of [`test_order`].
pub fn test_frames<H: BlockHash, S: FrameSource>(
    alloc: Global,
    name: &str,
    table: &AnyTable<H, S>,
) -> Result<()> {
    let is_parted = matches!(table, AnyTable::Parted(_));
    test_order(alloc, name, table.index(), is_parted)
}
