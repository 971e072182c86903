//! The table files that a command writes.
ghost use Rattle.std.specs.Prelude.{◌≡◌};

use crate::fault::{Cause, Fault, Result};
use crate::words::{FORCE, OUT, TABLE_SIZE};
use clap::ArgMatches;
use sst_merge::Outputs;
use sstable_blocks::{
    BufferedFile, Error, LockFiles, NewFile, Output, RunHandles, SyncWrite, end_table,
};
use std::alloc::{AllocError, Global};
use std::cell::Cell;
use std::io::Write;
use std::{fmt, io};

/// A file that a table is written into. It notes why a call failed. Clauses know nothing of its
/// bytes.
#[derive(Drop)]
pub struct NotedFile<'c, W: SyncWrite + Drop> {
    file: W,
    cause: &'c Cell<Option<io::Error>>,
}

// Notes why a call failed, if it did.
fn noted<T>(cause: &Cell<Option<io::Error>>, done: io::Result<T>) -> io::Result<T>
    ensures { result ≡ done }
{
    if let Err(error) = &done {
        cause.set(Some(*error));
    }
    done
}

impl<'c, W: SyncWrite + Drop> Write for NotedFile<'c, W> {
    fn write(&mut self, buf: &[u8]) -> io::Result<usize> {
        noted(self.cause, self.file.write(buf))
    }

    fn flush(&mut self) -> io::Result<()> {
        noted(self.cause, self.file.flush())
    }
}

impl<'c, W: SyncWrite + Drop> Output for NotedFile<'c, W> {
    fn put(&mut self, bytes: &[u8]) -> io::Result<()> {
        noted(self.cause, self.file.put(bytes))
    }
}

impl<'c, W: SyncWrite + Drop> SyncWrite for NotedFile<'c, W> {
    ghost is_synced = { λ n. W.is_synced n.file };

    fn sync(&mut self) -> io::Result<()> {
        noted(self.cause, self.file.sync())
    }
}

/// The names of the files that a command writes.
#[derive(Clone, Copy)]
pub struct Names<'w> {
    out: &'w str,
    // whether there may be several, which are numbered
    is_numbered: bool,
}

impl<'w> Names<'w> {
    /// Takes the names from the words.
    pub fn of_words(words: &ArgMatches<'w>) -> Names<'w> {
        Names {
            out: words.get_str(OUT).unwrap_or(""),
            is_numbered: words.get_str(TABLE_SIZE).is_some(),
        }
    }

    /// Returns the names of the files up to this number, to be displayed.
    pub fn up_to(&self, count: usize) -> NamesUpTo<'w> {
        NamesUpTo {
            names: *self,
            count,
        }
    }

    /// Returns the name of the file of this number, which begins at 1, to be displayed.
    pub fn numbered(&self, number: usize) -> Name<'w> {
        Name {
            names: *self,
            number,
        }
    }

    /// Returns the name of the file of this number.
    ///
    /// # Errors
    ///
    /// If an allocation fails.
    pub fn name(&self, alloc: Global, number: usize) -> std::result::Result<String, AllocError> {
        let name = self.numbered(number);
        format!(in alloc; "{name}")
    }
}

/// The name of one of the files: its number is in the place of `{}`, or after a dot at the end.
/// It is displayed without memory.
#[derive(Clone, Copy)]
pub struct Name<'w> {
    names: Names<'w>,
    number: usize,
}

impl fmt::Display for Name<'_> {
    fn fmt<W: fmt::Write>(&self, f: &mut fmt::Formatter<W>) -> fmt::Result {
        let (out, number) = (self.names.out, self.number);
        if !self.names.is_numbered {
            return f.write_str(out);
        }
        let (front, dot, end) = match out.split_once("{}") {
            Some((front, end)) => (front, "", end),
            None => (out, ".", ""),
        };
        write!(f, "{front}{dot}{number}{end}")
    }
}

/// The names of the files up to a number: how many, the first and the last, where there may be
/// several. They are displayed without memory.
#[derive(Clone, Copy)]
pub struct NamesUpTo<'w> {
    names: Names<'w>,
    count: usize,
}

impl fmt::Display for NamesUpTo<'_> {
    fn fmt<W: fmt::Write>(&self, f: &mut fmt::Formatter<W>) -> fmt::Result {
        let (first, last) = (self.names.numbered(1), self.names.numbered(self.count));
        if !self.names.is_numbered {
            return first.fmt(f);
        }
        write!(f, "{}, {first} to {last}", self.count)
    }
}

/// The tables that a command writes, each into a new file, which are put in place when all are
/// whole.
#[derive(Drop)]
pub struct NewTables<'r, 'w, 'c, R: LockFiles> {
    rt: &'r R,
    alloc: Global,
    names: Names<'w>,
    is_forced: bool,
    // the file of the next table, where it is made
    next: Option<NewFile<'r, R>>,
    // the file that is written
    opened: Option<NewFile<'r, R>>,
    closed: Vec<(RunHandles, NewFile<'r, R>)>,
    cause: &'c Cell<Option<io::Error>>,
    // why a file is not made
    refused: Option<Fault>,
}

// A new file, unless it replaces one of its name where that is not forced.
fn kept<'r, R: LockFiles>(
    alloc: Global,
    name: &str,
    is_forced: bool,
    file: NewFile<'r, R>,
) -> Result<NewFile<'r, R>> {
    if is_forced || !file.is_replacement() {
        return Ok(file);
    }
    file.discard();
    Err(Fault::of_present(alloc, name))
}

// Makes the new file of a name, unless it replaces one where that is not forced.
fn created<'r, R: LockFiles>(
    rt: &'r R,
    alloc: Global,
    name: &str,
    is_forced: bool,
) -> Result<NewFile<'r, R>> {
    match NewFile::create(rt, alloc, name) {
        Ok(file) => kept(alloc, name, is_forced, file),
        Err(cause) => Err(Fault::of_new_file(alloc, name, cause)),
    }
}

// Makes the new file of a number. A file of its name is replaced where that is forced alone.
fn new_file<'r, R: LockFiles>(
    rt: &'r R,
    alloc: Global,
    names: &Names<'_>,
    number: usize,
    is_forced: bool,
) -> Result<NewFile<'r, R>> {
    let name = names.name(alloc, number)?;
    created(rt, alloc, name.as_str(), is_forced)
}

// Removes a new file, if there is one.
fn discard<R: LockFiles>(file: Option<NewFile<'_, R>>) {
    if let Some(file) = file {
        file.discard();
    }
}

impl<'r, 'w, 'c, R: LockFiles> NewTables<'r, 'w, 'c, R> {
    /// Makes the file of the first table. Why a write fails is noted in `cause`.
    ///
    /// # Errors
    ///
    /// Those of a new file, and one where a file of its name is there and not to be replaced.
    pub fn new(
        rt: &'r R,
        alloc: Global,
        words: &ArgMatches<'w>,
        cause: &'c Cell<Option<io::Error>>,
    ) -> Result<NewTables<'r, 'w, 'c, R>> {
        let names = Names::of_words(words);
        let is_forced = words.get_flag(FORCE);
        match new_file(rt, alloc, &names, 1, is_forced) {
            Ok(first) => Ok(NewTables {
                rt,
                alloc,
                names,
                is_forced,
                next: Some(first),
                opened: None,
                closed: Vec::new(alloc),
                cause,
                refused: None,
            }),
            Err(fault) => Err(fault),
        }
    }

    /// Returns the number of tables that are whole.
    pub fn count(&self) -> usize {
        self.closed.len()
    }

    // The number of the table that is written.
    fn open_number(&self) -> usize {
        self.closed.len().saturating_add(1)
    }

    // Takes the file of the next table, which is made if it is not there. Notes why there is none.
    fn take_next(&mut self) -> Option<NewFile<'r, R>>
        ensures { self.new.closed ≡ self.old.closed }
    {
        if let Some(file) = self.next.take() {
            return Some(file);
        }
        let number = self.open_number();
        match new_file(self.rt, self.alloc, &self.names, number, self.is_forced) {
            Ok(file) => Some(file),
            Err(fault) => {
                self.refused = Some(fault);
                None
            }
        }
    }

    // Begins to write a file.
    fn open_file(
        &mut self,
        file: NewFile<'r, R>,
    ) -> sstable_blocks::Result<NotedFile<'c, BufferedFile<R::File>>>
        ensures { self.new.closed ≡ self.old.closed }
    {
        let written = file.writer(self.alloc);
        self.opened = Some(file);
        match written {
            Ok(file) => Ok(NotedFile {
                file,
                cause: self.cause,
            }),
            Err(error) => Err(error),
        }
    }

    // Why a write of the table that is written failed, by the error of the call.
    fn fault_of_write(&self, error: Error) -> Fault {
        let cause = match self.cause.get() {
            Some(cause) => Cause::System(cause),
            None => Cause::Unknown,
        };
        match self.names.name(self.alloc, self.open_number()) {
            Ok(name) => Fault::of_file(self.alloc, name.as_str(), None, error, cause),
            Err(_) => Fault::Memory,
        }
    }

    /// Returns why a table is not written, by the error of the call: its file was not made, or a
    /// write failed.
    pub fn fault(&mut self, error: Error) -> Fault {
        match self.refused.take() {
            Some(fault) => fault,
            None => self.fault_of_write(error),
        }
    }

    /// Puts all tables in place, in order, if they were filled. Where they were not, and after the
    /// first that is not put in place, the files of these names are as they were.
    ///
    /// # Errors
    ///
    /// That of the filling, or that of the system for the first table that it refuses.
    pub fn end(self, filled: Result<()>) -> Result<()> {
        let names = self.names;
        discard(self.next);
        discard(self.opened);
        place_all(self.alloc, &names, self.closed, filled)
    }
}

// Puts tables in place, in order, if they were filled.
fn place_all<R: LockFiles>(
    alloc: Global,
    names: &Names<'_>,
    files: Vec<(RunHandles, NewFile<'_, R>)>,
    filled: Result<()>,
) -> Result<()> {
    let mut number = 0usize;
    let mut placed = filled;
    for (_, file) in files {
        number = number.saturating_add(1);
        place(alloc, names, number, file, &mut placed);
    }
    placed
}

// Puts the table of a number in place, if those before it are; else removes it.
fn place<R: LockFiles>(
    alloc: Global,
    names: &Names<'_>,
    number: usize,
    file: NewFile<'_, R>,
    placed: &mut Result<()>,
) {
    if placed.is_ok() {
        *placed = put_in_place(alloc, names, number, file);
    } else {
        file.discard();
    }
}

// Puts the table of a number in place.
fn put_in_place<R: LockFiles>(
    alloc: Global,
    names: &Names<'_>,
    number: usize,
    file: NewFile<'_, R>,
) -> Result<()> {
    let Err(cause) = file.put_in_place() else {
        return Ok(());
    };
    let name = names.name(alloc, number)?;
    Err(Fault::of_open(alloc, name.as_str(), cause))
}

// Ends the table in a writer.
fn end_writer<W: SyncWrite + Drop>(writer: W, handles: &RunHandles) -> io::Result<()> {
    let mut writer = writer;
    end_table(&mut writer, handles)
}

impl<'r, 'w, 'c, R: LockFiles> Outputs for NewTables<'r, 'w, 'c, R> {
    ghost use Rattle.std.specs.Prelude.{map, None};

    type Writer = NotedFile<'c, BufferedFile<R::File>>;

    ghost tables = { λ s. map (λ c. record { handles = c.0; bytes = None }) s.closed.items };

    ghost start = { None };

    // (the error of a file that is not made or opened is any)
    ghost may_fail = { λ _. Unit {0} };

    fn open(&mut self) -> sstable_blocks::Result<NotedFile<'c, BufferedFile<R::File>>> {
        match self.take_next() {
            Some(file) => self.open_file(file),
            None => Err(Error::Io),
        }
    }

    fn close(
        &mut self,
        handles: RunHandles,
        writer: NotedFile<'c, BufferedFile<R::File>>,
    ) -> sstable_blocks::Result<()> {
        end_writer(writer, &handles)?;
        self.closed.reserve(1)?;
        match self.opened.take() {
            Some(file) => Ok(self.closed.push((handles, file))?),
            None => Err(Error::Io),
        }
    }
}
