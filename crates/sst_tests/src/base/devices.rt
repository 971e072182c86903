//! Devices: a reader, a writer and a file that move a byte a call, and fail at a call by a fault
//! that is no interruption.
ghost use Rattle.std.specs.Prelude.{◌≤◌, length};

use sst_base::error::Result;
use sst_base::input::{Input, SeekInput, append_exact};
use sst_base::output::Output;
use std::io;
use std::io::{ErrorKind, Read, Seek, SeekFrom, Write};

/// Gives a byte a call, counts the calls, and keeps the greatest number of bytes requested. The
/// call `fails_at` fails.
#[derive(Drop)]
pub struct SlowReader<'a> {
    /// The bytes that are left.
    pub bytes: &'a [u8],
    /// The number of calls that did not fail.
    pub calls: usize,
    /// The call that fails, from 0.
    pub fails_at: usize,
    /// The greatest number of bytes that a call requested.
    pub most: usize,
}

impl SlowReader<'_> {
    /// Makes a reader of these bytes, whose call of this number fails.
    pub fn new(bytes: &[u8], fails_at: usize) -> SlowReader<'_> {
        SlowReader {
            bytes,
            calls: 0,
            fails_at,
            most: 0,
        }
    }
}

/// Gives the first of the bytes, if there is one.
fn give(byte: Option<&u8>, buf: &mut [u8]) -> usize
    ensures { result ≤ length buf.old }
{
    match (byte, buf.first_mut()) {
        (Some(byte), Some(place)) => {
            *place = *byte;
            1
        }
        _ => 0,
    }
}

impl Read for SlowReader<'_> {
    fn read(&mut self, buf: &mut [u8]) -> io::Result<usize> {
        if self.most < buf.len() {
            self.most = buf.len();
        }
        if self.calls == self.fails_at {
            return Err(io::Error::from(ErrorKind::Other));
        }
        self.calls = self.calls.wrapping_add(1);
        let given = give(self.bytes.first(), buf);
        self.bytes = self.bytes.get(given..).unwrap_or(b"");
        Ok(given)
    }
}

impl Input for SlowReader<'_> {
    fn fill(&mut self, buf: &mut [u8]) -> Result<()> {
        Ok(self.read_exact(buf)?)
    }

    fn append(&mut self, buf: &mut Vec<u8>, len: usize) -> Result<()> {
        append_exact(self, buf, len)
    }
}

/// How a writer fails.
#[derive(Clone, Copy)]
pub enum Failure {
    /// A call returns an error.
    Error,
    /// A call takes no byte.
    NoByte,
}

/// Takes a byte a call, counts the flushes, and fails at the call `fails_at`.
#[derive(Drop)]
pub struct SlowWriter {
    /// The bytes that it took.
    pub taken: Vec<u8>,
    /// The number of calls that did not fail.
    pub calls: usize,
    /// The call that fails, from 0.
    pub fails_at: usize,
    /// How it fails.
    pub failure: Failure,
    /// The number of flushes.
    pub flushes: usize,
}

impl SlowWriter {
    /// Makes a writer that holds these bytes, and whose call of this number fails like this.
    pub fn new(taken: Vec<u8>, fails_at: usize, failure: Failure) -> SlowWriter {
        SlowWriter {
            taken,
            calls: 0,
            fails_at,
            failure,
            flushes: 0,
        }
    }
}

impl Output for SlowWriter {
    fn put(&mut self, bytes: &[u8]) -> io::Result<()> {
        self.write_all(bytes)
    }
}

impl Write for SlowWriter {
    fn write(&mut self, buf: &[u8]) -> io::Result<usize> {
        if self.calls == self.fails_at {
            return match self.failure {
                Failure::Error => Err(io::Error::from(ErrorKind::Other)),
                Failure::NoByte => Ok(0),
            };
        }
        self.calls = self.calls.wrapping_add(1);
        match buf.first() {
            None => Ok(0),
            Some(byte) => match self.taken.push(*byte) {
                Ok(()) => Ok(1),
                Err(_) => Err(io::Error::from(ErrorKind::OutOfMemory)),
            },
        }
    }

    fn flush(&mut self) -> io::Result<()> {
        self.flushes = self.flushes.wrapping_add(1);
        Ok(())
    }
}

/// A file that gives a byte a call. Moves are calls too, and the call `fails_at` fails.
#[derive(Drop)]
pub struct SlowFile<'a> {
    bytes: &'a [u8],
    at: u64,
    /// The number of calls that did not fail.
    pub calls: usize,
    /// The call that fails, from 0.
    pub fails_at: usize,
}

impl SlowFile<'_> {
    /// Makes a file of these bytes, whose call of this number fails.
    pub fn new(bytes: &[u8], fails_at: usize) -> SlowFile<'_> {
        SlowFile {
            bytes,
            at: 0,
            calls: 0,
            fails_at,
        }
    }

    /// Counts a call, unless it fails.
    fn count(&mut self) -> io::Result<()> {
        if self.calls == self.fails_at {
            return Err(io::Error::from(ErrorKind::Other));
        }
        self.calls = self.calls.wrapping_add(1);
        Ok(())
    }
}

impl Read for SlowFile<'_> {
    fn read(&mut self, buf: &mut [u8]) -> io::Result<usize> {
        self.count()?;
        let given = give(self.bytes.get(self.at as usize), buf);
        self.at = self.at.wrapping_add(given as u64);
        Ok(given)
    }
}

impl Seek for SlowFile<'_> {
    fn seek(&mut self, to: SeekFrom) -> io::Result<u64> {
        self.count()?;
        self.at = match to {
            SeekFrom::Start(at) => at,
            SeekFrom::End(_) => self.bytes.len() as u64,
            SeekFrom::Current(_) => self.at,
        };
        Ok(self.at)
    }
}

impl Input for SlowFile<'_> {
    fn fill(&mut self, buf: &mut [u8]) -> Result<()> {
        Ok(self.read_exact(buf)?)
    }

    fn append(&mut self, buf: &mut Vec<u8>, len: usize) -> Result<()> {
        append_exact(self, buf, len)
    }
}

impl SeekInput for SlowFile<'_> {
    ghost whole_is_known = { λ s at bytes position. Prim.cc };

    fn move_to(&mut self, offset: u64) -> Result<()> {
        self.seek(SeekFrom::Start(offset))?;
        Ok(())
    }

    fn stream_len(&mut self) -> Result<u64> {
        Ok(self.seek(SeekFrom::End(0))?)
    }
}
