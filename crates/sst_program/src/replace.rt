//! Table files that `sst` writes: a new one, which then takes the place of the old one, or, where
//! the name is no regular file's, in place.
ghost use Rattle.std.specs.Prelude.{◌≡◌, ◌≤◌, length, IfOk, IfErr, IsErrOf};
ghost use Rattle.sst_program.specs.Table.{IsPacked, IsWriteFault};
ghost use Rattle.sstable_blocks.specs.Prelude.{entries, IsOrdered};
ghost use Rattle.sstable_blocks.specs.Results.{Io};

use crate::pack::{Packed, write_table};
use crate::words::PackWords;
use sstable_blocks::{
    BufferedFile, Error, InternalValue, LockFiles, NewFile, NotMade, Result, SyncWrite,
};
use std::alloc::Global;
use std::fs::{OpenFile, OpenOptions};
use std::io;

// Writes a table to an empty file, and syncs it.
fn write_to<W: SyncWrite + Drop>(
    alloc: Global,
    writer: W,
    words: &PackWords<'_>,
    items: &[InternalValue],
) -> Result<Packed>
    requires some { 1 ≤ length items.now }
    requires ordered { IsOrdered entries items.now }
    ensures table { IfOk result (IsPacked words.now.config words.now.per_block items.now) }
    ensures failed { IsErrOf result Io → W.never_fails writer → ⊥ }
    ensures cause { IfErr result
        (IsWriteFault words.now.config words.now.per_block items.now) }
{
    let (packed, _) = write_table(alloc, writer, items, words.config(), words.per_block())?;
    Ok(packed)
}

// Writes a table to a new file.
fn fill<R: LockFiles>(
    alloc: Global,
    file: &NewFile<'_, R>,
    words: &PackWords<'_>,
    items: &[InternalValue],
) -> Result<Packed>
    requires some { 1 ≤ length items.now }
    requires ordered { IsOrdered entries items.now }
    ensures table { IfOk result (IsPacked words.now.config words.now.per_block items.now) }
    ensures cause { IfErr result
        (IsWriteFault words.now.config words.now.per_block items.now) }
{
    let writer = file.writer(alloc)?;
    write_to(alloc, writer, words, items)
}

// Writes a table to a new file, which then takes its place. On any failure it is removed.
fn replace<R: LockFiles>(
    alloc: Global,
    file: NewFile<'_, R>,
    words: &PackWords<'_>,
    items: &[InternalValue],
) -> Result<Packed>
    requires some { 1 ≤ length items.now }
    requires ordered { IsOrdered entries items.now }
    ensures table { IfOk result (IsPacked words.now.config words.now.per_block items.now) }
    ensures cause { IfErr result
        (IsWriteFault words.now.config words.now.per_block items.now) }
{
    match fill(alloc, &file, words, items) {
        Ok(packed) => {
            file.put_in_place()?;
            Ok(packed)
        }
        Err(error) => {
            file.discard();
            Err(error)
        }
    }
}

// Writes a table in place, once all that can be refused has been: a table of the same entries was
// written to nowhere.
fn write_in_place<R: LockFiles>(
    rt: &R,
    alloc: Global,
    words: &PackWords<'_>,
    items: &[InternalValue],
) -> Result<Packed>
    requires some { 1 ≤ length items.now }
    requires ordered { IsOrdered entries items.now }
    ensures table { IfOk result (IsPacked words.now.config words.now.per_block items.now) }
    ensures cause { IfErr result
        (IsWriteFault words.now.config words.now.per_block items.now) }
{
    write_table(alloc, io::sink(), items, words.config(), words.per_block())?;
    let file = OpenOptions::new()
        .write(true)
        .create(true)
        .open(rt, words.file())?;
    if file.metadata()?.is_file() {
        rt.lock(&file)?;
        file.set_len(0)?;
    }
    write_to(alloc, BufferedFile::new(alloc, file)?, words, items)
}

/// Writes a table file, which replaces the one of that name.
///
/// The table is written to a new file (see [`NewFile`]), synced, and then put in place; so the file
/// is the old one or the new one, whole, and on any failure the old one. Where something other than
/// a regular file has the name, or the folder takes no new file, the table is written in place.
///
/// # Errors
///
/// Those of `write_table`. `Error::Io` too if the file may not be written, or another run is
/// writing it.
pub fn write_file<R: LockFiles>(
    rt: &R,
    alloc: Global,
    words: &PackWords<'_>,
    items: &[InternalValue],
) -> Result<Packed>
    requires some { 1 ≤ length items.now }
    requires ordered { IsOrdered entries items.now }
    ensures table { IfOk result (IsPacked words.now.config words.now.per_block items.now) }
    ensures cause { IfErr result
        (IsWriteFault words.now.config words.now.per_block items.now) }
{
    match NewFile::create(rt, alloc, words.file()) {
        Ok(file) => replace(alloc, file, words, items),
        Err(NotMade::NotRegular | NotMade::ClosedFolder(_)) => {
            write_in_place(rt, alloc, words, items)
        }
        Err(NotMade::Memory) => Err(Error::Memory),
        Err(_) => Err(Error::Io),
    }
}
