//! A standard output whose reader may have gone, as that of `sst walk FILE | head`.
ghost use Rattle.std.specs.Prelude.{◌≡◌, None};
ghost use Rattle.std.specs.Io.{WritesAtMost};
ghost use Rattle.std.specs.Io.KnownBytes.{WriteAppends};

use std::cell::Cell;
use std::io;
use std::io::{ErrorKind, Write};

/// An output that notes whether it is a pipe that was closed.
#[derive(Drop)]
pub struct PipeOutput<'a, W> {
    inner: W,
    is_closed: &'a Cell<bool>,
}

impl<'a, W: Write> PipeOutput<'a, W> {
    /// Wraps an output, which notes in `is_closed` that its reader has gone.
    pub fn new(inner: W, is_closed: &'a Cell<bool>) -> PipeOutput<'a, W> {
        PipeOutput { inner, is_closed }
    }

    // Notes whether a call failed since the pipe is closed.
    fn note<T>(&self, outcome: io::Result<T>) -> io::Result<T>
        ensures { result ≡ outcome }
    {
        if let Err(error) = &outcome {
            if error.kind() == ErrorKind::BrokenPipe {
                self.is_closed.set(true);
            }
        }
        outcome
    }
}

impl<W: Write> Write for PipeOutput<'_, W> {
    ghost contents = { λ o. W.contents o.inner };

    fn write(&mut self, buf: &[u8]) -> io::Result<usize> {
        let written = self.inner.write(buf);
        self.note(written)
    }

    fn flush(&mut self) -> io::Result<()> {
        let flushed = self.inner.flush();
        self.note(flushed)
    }

    fn write_all(&mut self, buf: &[u8]) -> io::Result<()> {
        let written = self.inner.write_all(buf);
        self.note(written)
    }
}

/// A place for the lines of faults, which drops them once the output is closed: nobody who closed
/// it waits for more.
#[derive(Drop)]
pub struct QuietFaults<'a, W> {
    inner: W,
    is_closed: &'a Cell<bool>,
}

impl<'a, W: Write> QuietFaults<'a, W> {
    /// Wraps a place for faults, which `is_closed` silences.
    pub fn new(inner: W, is_closed: &'a Cell<bool>) -> QuietFaults<'a, W> {
        QuietFaults { inner, is_closed }
    }
}

impl<W: Write> Write for QuietFaults<'_, W> {
    fn write(&mut self, buf: &[u8]) -> io::Result<usize>
        ensures bound { WritesAtMost result buf.now }
        ensures bytes { WriteAppends None None result buf.now }
    {
        if self.is_closed.get() {
            return Ok(buf.len());
        }
        self.inner.write(buf)
    }

    fn flush(&mut self) -> io::Result<()> {
        self.inner.flush()
    }
}
