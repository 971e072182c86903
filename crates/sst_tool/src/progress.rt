//! The progress of a command.
ghost use Rattle.std.specs.Prelude.{◌≡◌};

use crate::fault::{Cause, Fault};
use sstable_blocks::Error;
use std::alloc::Global;
use std::cell::Cell;
use std::io;
use std::time::{Clock, Duration, Instant};

// How long a command runs before its progress is shown, in milliseconds.
const FIRST_MILLIS: u64 = 1000;

// How long the progress stays as it was shown, in milliseconds.
const NEXT_MILLIS: u64 = 250;

// After how many entries it is seen whether it is time to show their number.
const ENTRIES_SHOWN: u64 = 1024;

/// What a command has read: the number of blocks, of how many, the offset of the last one, and why
/// it was not read. The numbers are shown on one line of standard error, for a command of more than
/// a second.
#[derive(Drop)]
pub struct Progress<'r, R> {
    rt: &'r R,
    // when the command began, or the line was shown last; `None` if no line is shown
    since: Cell<Option<Instant>>,
    is_shown: Cell<bool>,
    blocks: Cell<u64>,
    // how many blocks there are to read, of the files whose number of blocks is known
    total: Cell<u64>,
    // whether that of this file is known
    is_counted: Cell<bool>,
    offset: Cell<Option<u64>>,
    cause: Cell<Option<io::Error>>,
    file_len: Cell<u64>,
    // how many bytes of the last block were read
    read_len: Cell<u64>,
}

impl<'r, R> Progress<'r, R> {
    /// Returns the runtime.
    pub fn rt(&self) -> &'r R {
        self.rt
    }

    /// Begins a file, of which no block is read.
    pub fn begin_file(&self) {
        self.offset.set(None);
        self.cause.set(None);
        self.is_counted.set(false);
    }

    /// Notes how many blocks of this file are to be read from now on.
    pub fn expect_blocks(&self, count: u64) {
        self.total.set(self.total.get().saturating_add(count));
        self.is_counted.set(true);
    }

    /// Notes why a call failed, if it did.
    pub fn noted<T>(&self, done: io::Result<T>) -> io::Result<T>
        ensures { result ≡ done }
    {
        if let Err(error) = &done {
            self.cause.set(Some(*error));
        }
        done
    }

    /// Notes the length of the file in bytes.
    pub fn set_file_len(&self, len: u64) {
        self.file_len.set(len);
    }

    /// Returns the length of the file in bytes, which a table is opened by.
    pub fn file_len(&self) -> u64 {
        self.file_len.get()
    }

    /// Returns the offset of the file's block that was read last, if one was.
    pub fn offset(&self) -> Option<u64> {
        self.offset.get()
    }

    /// Counts bytes of the block that is read.
    pub fn count_bytes(&self, len: usize) {
        self.read_len
            .set(self.read_len.get().saturating_add(len as u64));
    }

    /// Returns the offset after the block that was read last.
    pub fn block_end(&self) -> u64 {
        self.offset
            .get()
            .unwrap_or(0)
            .saturating_add(self.read_len.get())
    }

    /// Returns where that offset is kept.
    pub fn place(&self) -> &Cell<Option<u64>> {
        &self.offset
    }

    /// Returns why the block was not read, where it was not: a read that the system did not refuse
    /// met the end of the file.
    pub fn cause(&self) -> Cause {
        match self.cause.get() {
            Some(error) => Cause::System(error),
            None => Cause::End,
        }
    }

    /// Returns the fault of a file, of which the block was read last.
    pub fn fault(&self, alloc: Global, file: &str, error: Error) -> Fault {
        Fault::of_file(alloc, file, self.offset(), error, self.cause())
    }
}

impl<'r, R: Clock + Eprint> Progress<'r, R> {
    /// Begins, with no block read. No line is shown unless `is_visible`.
    pub fn new(rt: &'r R, is_visible: bool) -> Progress<'r, R> {
        let since = if is_visible {
            Instant::now(rt).ok()
        } else {
            None
        };
        Progress {
            rt,
            since: Cell::new(since),
            is_shown: Cell::new(false),
            blocks: Cell::new(0),
            total: Cell::new(0),
            is_counted: Cell::new(false),
            offset: Cell::new(None),
            cause: Cell::new(None),
            file_len: Cell::new(0),
            read_len: Cell::new(0),
        }
    }

    /// Counts a block at this offset, and shows the number if it is time to.
    pub fn count_block(&self, offset: u64) {
        self.offset.set(Some(offset));
        self.cause.set(None);
        self.read_len.set(0);
        if self.is_counted.get() {
            self.blocks.set(self.blocks.get().saturating_add(1));
            self.show();
        }
    }

    /// Counts an entry of an input, and shows the number if it is time to.
    pub fn count_entry(&self) {
        let entries = self.blocks.get().saturating_add(1);
        self.blocks.set(entries);
        if entries % ENTRIES_SHOWN == 0 && self.is_due() {
            self.is_shown.set(true);
            let _ = eprint!(self.rt; "\r{entries} entries read");
        }
    }

    // Shows the numbers if it is time to.
    fn show(&self) {
        if self.is_due() {
            self.is_shown.set(true);
            let (blocks, total) = (self.blocks.get(), self.total.get());
            let _ = eprint!(self.rt; "\r{blocks} of {total} blocks read");
        }
    }

    // Whether it is time to show the number. If so, it was shown now.
    fn is_due(&self) -> bool {
        let Some(since) = self.since.get() else {
            return false;
        };
        let Ok(now) = Instant::now(self.rt) else {
            return false;
        };
        let wait = if self.is_shown.get() {
            NEXT_MILLIS
        } else {
            FIRST_MILLIS
        };
        let is_due = now.duration_since(since) >= Duration::from_millis(wait);
        if is_due {
            self.since.set(Some(now));
        }
        is_due
    }

    /// Clears the line, if it is shown.
    pub fn clear(&self) {
        if self.is_shown.replace(false) {
            let _ = eprint!(self.rt; "\r\x1b[K");
        }
    }
}
