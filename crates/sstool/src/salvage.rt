//! `salvage`: what the whole blocks of a damaged table hold, as a new table.
ghost use Rattle.std.specs.Prelude.{[], None, Some, IfOk, IsOkUnless};
ghost use Rattle.sst_sources.specs.Sources.{TakesFirst};

use crate::blocks::{Held, held_in};
use crate::merge::{TableForm, write_as};
use crate::merged::count;
use crate::open::source_of;
use clap::ArgMatches;
use sst_merge::{Source, keep_error};
use sst_parts::any_table::is_parted;
use sst_tool::fault::{Fault, Result, Shown};
use sst_tool::frames::add_frames;
use sst_tool::long_keys::LongestKey;
use sst_tool::new_tables::NewTables;
use sst_tool::progress::Progress;
use sst_tool::show::Counted;
use sst_tool::words::{FILE, OUT};
use sstable_blocks::run::checked::{block_from, data_block_from, index_block_from};
use sstable_blocks::run::footer::read_footer;
use sstable_blocks::table::data_block::IntoEntries;
use sstable_blocks::{
    BlockHandle, BlockHash, BlockOffset, BlockType, DataBlock, Error, FileSource, FrameSource,
    IndexBlock, InternalValue, LockFiles, SeekInput, SizedSource,
};
use std::alloc::Global;
use std::cell::Cell;
use std::io;
use std::io::Write;
use std::rt::Clock;

// What a salvage notes as it goes.
#[derive(Drop)]
struct Notes {
    entries: Cell<u64>,
    blocks: Cell<u64>,
    lost: Cell<u64>,
    // the longest key that a block ends with, where the index is read
    longest: LongestKey,
    // why a write of the new table failed, as the system says
    cause: Cell<Option<io::Error>>,
}

impl Notes {
    // Begins a salvage.
    fn new() -> Notes {
        Notes {
            entries: Cell::new(0),
            blocks: Cell::new(0),
            lost: Cell::new(0),
            longest: LongestKey::new(),
            cause: Cell::new(None),
        }
    }
}

// The blocks of a table that are whole and follow each other.
#[derive(Drop)]
struct WholeBlocks<'p, 'w, H: BlockHash, S, R> {
    source: S,
    // the blocks that were not read, from the last to the first
    handles: Vec<BlockHandle>,
    // the block of which entries are left
    block: Option<IntoEntries<H>>,
    // the last entry of the blocks that were kept
    last: Option<InternalValue>,
    file: &'w str,
    notes: &'p Notes,
    progress: &'p Progress<'p, R>,
}

// Whether what a block holds does not sort before the last entry, if there is one.
fn follows(last: &Option<InternalValue>, held: &Held) -> bool {
    match last {
        Some(last) => last.key().cmp(held.first.key()).is_le(),
        None => true,
    }
}

// Notes the last entry of a block that is whole and does not sort before the last entry.
fn keep_last<H: BlockHash>(
    alloc: Global,
    block: &DataBlock<H>,
    last: &mut Option<InternalValue>,
) -> sstable_blocks::Result<()> {
    let held = held_in(alloc, block)?;
    if !follows(last, &held) {
        return Err(Error::OutOfOrder);
    }
    *last = Some(held.last.unwrap_or(held.first));
    Ok(())
}

// The entries of a block that was read, if it is whole and does not sort before the last entry.
fn kept_entries<H: BlockHash>(
    alloc: Global,
    read: sstable_blocks::Result<DataBlock<H>>,
    last: &mut Option<InternalValue>,
) -> sstable_blocks::Result<IntoEntries<H>> {
    let block = read?;
    match keep_last(alloc, &block, last) {
        Ok(()) => Ok(block.into_entries()),
        Err(error) => Err(error),
    }
}

impl<'p, 'w, H: BlockHash, S: FrameSource, R: Clock + Eprint> WholeBlocks<'p, 'w, H, S, R> {
    // Says that a block is lost, and why.
    fn lose(&self, handle: &BlockHandle, error: Error) {
        count(&self.notes.lost);
        let (file, at) = (self.file, *handle.offset());
        let cause = Shown::new(error, self.progress.cause());
        self.progress.clear();
        let _ = eprintln!(self.progress.rt();
            "sstool: {file}: lost: block at offset {at}: {cause}"
        );
    }

    // Opens the next block that is whole and follows the one before. Returns whether there is one.
    fn next_block(&mut self, alloc: Global) -> sstable_blocks::Result<bool>
        ensures { IsOkUnless result Error.Memory }
    {
        while let Some(handle) = self.handles.pop() {
            let read = data_block_from::<H, S>(alloc, &mut self.source, &handle);
            match kept_entries(alloc, read, &mut self.last) {
                Ok(entries) => {
                    count(&self.notes.blocks);
                    self.block = Some(entries);
                    return Ok(true);
                }
                Err(Error::Memory) => return Err(Error::Memory),
                Err(error) => self.lose(&handle, error),
            }
        }
        Ok(false)
    }

    // Takes the next entry of the block that is open.
    fn next_in_block(&mut self, alloc: Global) -> sstable_blocks::Result<Option<InternalValue>>
        ensures { IsOkUnless result Error.Memory }
    {
        match &mut self.block {
            Some(entries) => entries.next_entry(alloc),
            None => Ok(None),
        }
    }

    // Takes the next entry.
    fn next_entry(&mut self, alloc: Global) -> sstable_blocks::Result<Option<InternalValue>>
        ensures { IsOkUnless result Error.Memory }
    {
        if let Some(entry) = self.next_in_block(alloc)? {
            return Ok(Some(entry));
        }
        if self.next_block(alloc)? {
            return self.next_in_block(alloc);
        }
        Ok(None)
    }
}

// Takes the next entry of whole blocks, and counts it.
fn next_counted<H: BlockHash, S: FrameSource, R: Clock + Eprint>(
    alloc: Global,
    blocks: &mut WholeBlocks<'_, '_, H, S, R>,
    most: &mut u64,
) -> sstable_blocks::Result<Option<InternalValue>>
    ensures first { IfOk result (λ r. TakesFirst
        (record { list = None; most = most.old; errors = None; ended = None }) r
        (record { list = None; most = most.new; errors = None; ended = None })) }
    ensures cause { IsOkUnless result Error.Memory }
{
    if *most == 0 {
        return Ok(None);
    }
    let next = blocks.next_entry(alloc)?;
    if next.is_some() {
        *most -= 1;
        count(&blocks.notes.entries);
    }
    Ok(next)
}

// The entries of the blocks of a table that are whole, fewer than 2^64.
#[derive(Drop)]
struct Salvaged<'p, 'w, H: BlockHash, S, R> {
    blocks: WholeBlocks<'p, 'w, H, S, R>,
    most: u64,
    ended: Option<Error>,
}

impl<'p, 'w, H: BlockHash, S: FrameSource, R: Clock + Eprint> Source<InternalValue>
    for Salvaged<'p, 'w, H, S, R> {
    ghost left = { λ s. record { list = None; most = s.most; errors = Some []; ended = s.ended } };

    ghost may_fail = { λ _. ⊥ };

    fn next_entry(&mut self, alloc: Global) -> sstable_blocks::Result<Option<InternalValue>> {
        if let Some(error) = self.ended {
            return Err(error);
        }
        let next = next_counted(alloc, &mut self.blocks, &mut self.most);
        keep_error(&mut self.ended, &next);
        next
    }
}

// The frame of a handle in a part that begins at an offset.
fn placed(begin: u64, handle: &BlockHandle) -> sstable_blocks::Result<BlockHandle> {
    match begin.checked_add(*handle.offset()) {
        Some(offset) => Ok(BlockHandle::new(BlockOffset(offset), handle.size())),
        None => Err(Error::BadHandle),
    }
}

// The first offset behind a frame.
fn end_of(handle: &BlockHandle) -> u64 {
    handle.offset().saturating_add(u64::from(handle.size()))
}

// Adds the frames that an index names, of a run that begins at an offset. One that begins before
// the end of the one before is none of a table: so a frame is never taken twice.
fn add_named(
    index: &IndexBlock,
    begin: u64,
    frames: &mut Vec<BlockHandle>,
) -> sstable_blocks::Result<()> {
    let mut next = begin;
    for view in index.by_ref().handles() {
        let handle = placed(begin, &view.handle())?;
        if *handle.offset() < next {
            return Err(Error::BadHandle);
        }
        next = end_of(&handle);
        frames.push(handle)?;
    }
    Ok(())
}

// A search for the frames of the data blocks of a file.
#[derive(Drop)]
struct Search<'p, 'w, R> {
    progress: &'p Progress<'p, R>,
    alloc: Global,
    file: &'w str,
    longest: &'p LongestKey,
}

impl<R: Eprint> Search<'_, '_, R> {
    // Adds the frames of a run between two offsets, by its footer and its index.
    fn add_run<H: BlockHash, S: FrameSource>(
        &self,
        source: &mut S,
        begin: u64,
        end: u64,
        frames: &mut Vec<BlockHandle>,
    ) -> sstable_blocks::Result<()> {
        let handles = read_footer(self.alloc, source, end)?;
        let index = placed(begin, &handles.index)?;
        let index = index_block_from::<H, S>(self.alloc, source, &index)?;
        self.longest.see(&index);
        add_named(&index, begin, frames)
    }

    // Adds the frames between two offsets by their headers, and warns of bytes that are in no whole
    // block.
    fn add_by_headers<H: BlockHash, S: FrameSource>(
        &self,
        source: &mut S,
        begin: u64,
        end: u64,
        frames: &mut Vec<BlockHandle>,
    ) -> sstable_blocks::Result<()> {
        let passed = add_frames::<H, S>(self.alloc, source, begin, end, frames)?;
        if passed > 0 {
            let _ = eprintln!(self.progress.rt();
                "sstool: {}: {passed} bytes are in no whole block",
                self.file
            );
        }
        Ok(())
    }

    // Adds the frames of a part: by its index, or, where that cannot be read, by their headers.
    fn add_part<H: BlockHash, S: FrameSource>(
        &self,
        source: &mut S,
        number: usize,
        part: &BlockHandle,
        frames: &mut Vec<BlockHandle>,
    ) -> sstable_blocks::Result<()> {
        let (begin, before) = (*part.offset(), frames.len());
        match self.add_run::<H, S>(source, begin, end_of(part), frames) {
            Err(error) if error != Error::Memory => {
                let shown = Shown::new(error, self.progress.cause());
                let _ = eprintln!(self.progress.rt();
                    "sstool: {}: part {number} at offset {begin}: {shown}; its blocks are found by their headers",
                    self.file
                );
                frames.truncate(before);
                self.add_by_headers::<H, S>(source, begin, end_of(part), frames)
            }
            added => added,
        }
    }

    // Adds the frames of each part that an index names, in the order of the file.
    fn add_parts<H: BlockHash, S: FrameSource>(
        &self,
        source: &mut S,
        parts: &IndexBlock,
        frames: &mut Vec<BlockHandle>,
    ) -> sstable_blocks::Result<()> {
        let (mut next, mut number) = (0u64, 0usize);
        for view in parts.by_ref().handles() {
            let part = view.handle();
            if *part.offset() < next {
                return Err(Error::BadHandle);
            }
            self.add_part::<H, S>(source, number, &part, frames)?;
            next = end_of(&part);
            number = number.saturating_add(1);
        }
        Ok(())
    }

    // Adds the frames of a table of this length, by its index, or by those of its parts.
    fn add_by_index<H: BlockHash, S: FrameSource>(
        &self,
        source: &mut S,
        len: u64,
        frames: &mut Vec<BlockHandle>,
    ) -> sstable_blocks::Result<()> {
        let top = read_footer(self.alloc, source, len)?.index;
        if !is_parted::<H, S>(self.alloc, source, &top)? {
            return self.add_run::<H, S>(source, 0, len, frames);
        }
        let block = block_from::<H, S>(self.alloc, source, &top, BlockType::Meta)?;
        let parts = IndexBlock::check_once(block)?;
        self.add_parts::<H, S>(source, &parts, frames)
    }

    // Finds all frames: by the index, or, where that cannot be read, by their headers; a failed
    // allocation says nothing of it.
    fn frames<H: BlockHash, S: SizedSource>(
        &self,
        source: &mut S,
    ) -> sstable_blocks::Result<Vec<BlockHandle>> {
        let len = source.byte_len()?;
        let mut frames = Vec::new(self.alloc);
        match self.add_by_index::<H, S>(source, len, &mut frames) {
            Ok(()) => Ok(frames),
            Err(Error::Memory) => Err(Error::Memory),
            Err(error) => {
                let fault = self.progress.fault(self.alloc, self.file, error);
                let _ = eprintln!(self.progress.rt();
                    "sstool: {fault}; blocks are found by their headers"
                );
                frames.truncate(0);
                self.add_by_headers::<H, S>(source, 0, len, &mut frames)?;
                Ok(frames)
            }
        }
    }
}

// The whole blocks of a file, of which none was read.
fn blocks_of<'p, 'w, H: BlockHash, S: SizedSource + Drop, R: Clock + Eprint>(
    progress: &'p Progress<'p, R>,
    alloc: Global,
    file: &'w str,
    source: S,
    notes: &'p Notes,
) -> sstable_blocks::Result<WholeBlocks<'p, 'w, H, S, R>> {
    let mut source = source;
    let search = Search {
        progress,
        alloc,
        file,
        longest: &notes.longest,
    };
    let mut handles = search.frames::<H, S>(&mut source)?;
    handles.reverse();
    progress.expect_blocks(handles.len() as u64);
    Ok(WholeBlocks {
        source,
        handles,
        block: None,
        last: None,
        file,
        notes,
        progress,
    })
}

// Writes the entries of whole blocks.
fn write_blocks<H: BlockHash, S: FrameSource + Drop, R: LockFiles + Clock + Eprint>(
    alloc: Global,
    blocks: WholeBlocks<'_, '_, H, S, R>,
    words: &ArgMatches<'_>,
    tables: &mut NewTables<'_, '_, '_, R>,
) -> Result<()> {
    let how = TableForm::of_words(words, &blocks.notes.longest);
    let salvaged = Salvaged {
        blocks,
        most: u64::MAX,
        ended: None,
    };
    match write_as::<H, _, _>(alloc, salvaged, how, tables) {
        Ok(()) if tables.count() == 0 => Err(Fault::NoEntries),
        Ok(()) => Ok(()),
        Err(error) => Err(tables.fault(error)),
    }
}

// Writes what the whole blocks of a file hold, which is opened.
fn fill_from<'p, H: BlockHash, F: SeekInput + Drop, R: LockFiles + Clock + Eprint>(
    progress: &'p Progress<'p, R>,
    alloc: Global,
    words: &ArgMatches<'_>,
    notes: &'p Notes,
    source: FileSource<F>,
    tables: &mut NewTables<'_, '_, '_, R>,
) -> Result<()> {
    let file = words.get_str(FILE).unwrap_or("");
    match blocks_of::<H, _, R>(progress, alloc, file, source, notes) {
        Ok(blocks) => write_blocks(alloc, blocks, words, tables),
        Err(error) => Err(progress.fault(alloc, file, error)),
    }
}

// Writes what the whole blocks of a file hold.
fn fill<'p, H: BlockHash, R: LockFiles + Clock + Eprint>(
    progress: &'p Progress<'p, R>,
    alloc: Global,
    words: &ArgMatches<'_>,
    notes: &'p Notes,
    tables: &mut NewTables<'_, '_, '_, R>,
) -> Result<()> {
    let file = words.get_str(FILE).unwrap_or("");
    match source_of(progress, alloc, file) {
        Ok(source) => fill_from::<H, _, R>(progress, alloc, words, notes, source, tables),
        Err(fault) => Err(fault),
    }
}

// Writes what the whole blocks of a file hold into new tables, and puts them in place.
fn fill_tables<'p, H: BlockHash, R: LockFiles + Clock + Eprint>(
    progress: &'p Progress<'p, R>,
    alloc: Global,
    words: &ArgMatches<'_>,
    notes: &'p Notes,
    tables: NewTables<'_, '_, '_, R>,
) -> Result<()> {
    let mut tables = tables;
    let filled = fill::<H, R>(progress, alloc, words, notes, &mut tables);
    progress.clear();
    tables.end(filled)
}

// Writes what the whole blocks of a file hold as a new table.
fn salvage<'p, H: BlockHash, R: LockFiles + Clock + Eprint>(
    progress: &'p Progress<'p, R>,
    alloc: Global,
    words: &ArgMatches<'_>,
    notes: &'p Notes,
) -> Result<()> {
    match NewTables::new(progress.rt(), alloc, words, &notes.cause) {
        Ok(tables) => fill_tables::<H, R>(progress, alloc, words, notes, tables),
        Err(fault) => Err(fault),
    }
}

/// Writes the entries of those data blocks of a table that are whole, and that do not sort before
/// those in front of them, as a new table. Says of each other block that it is lost, and why. The
/// blocks are those that the index names, or that of each part, or, where it cannot be read, those
/// whose headers are found in the file, or in the part.
///
/// # Errors
///
/// Those of the file that is read, of the new file, and `Fault::NoEntries` if no block is whole;
/// `Fault::Written` if only the last line fails.
pub fn run<H: BlockHash, R: LockFiles + Clock + Eprint, O: Write>(
    progress: &Progress<'_, R>,
    alloc: Global,
    words: &ArgMatches<'_>,
    output: &mut O,
) -> Result<()> {
    let notes = Notes::new();
    salvage::<H, R>(progress, alloc, words, &notes)?;
    let out = words.get_str(OUT).unwrap_or("");
    match print_counts(&notes, out, output) {
        Ok(()) => Ok(()),
        Err(_) => Err(Fault::of_written(alloc, out)),
    }
}

// Prints what was salvaged.
fn print_counts<O: Write>(notes: &Notes, out: &str, output: &mut O) -> io::Result<()> {
    let entries = Counted::entries(notes.entries.get());
    let blocks = Counted::blocks(notes.blocks.get());
    let lost = Counted::blocks(notes.lost.get());
    writeln!(
        output,
        "salvaged {entries} of {blocks} into {out}: {lost} lost"
    )?;
    output.flush()
}
