//! Writers that take whole byte strings.
ghost use Rattle.std.specs.Prelude.{OnErr, OnOk};
ghost use Rattle.std.specs.Io.KnownBytes.{Appends};

use std::alloc::Allocator;
use std::fs::File;
use std::io::{self, BufWriter, Sink, Stdout, Write};

/// A writer that takes whole byte strings.
///
/// Clauses know of some writers that they never fail. What is written to any writer by a call that
/// knows no more of it returns [`Error::Io`](crate::Error::Io) only where that writer failed in
/// that call: it has no other way to show that the writer may fail.
pub trait Output: Write {
    // a writer that never fails
    ghost never_fails: { Self → Type 0 } = { λ _. ⊥ };

    /// Writes all bytes, as `write_all` does.
    ///
    /// # Errors
    ///
    /// That of the writer, as of a vector whose allocation fails. It may then hold a part of the
    /// bytes.
    fn put(&mut self, bytes: &[u8]) -> io::Result<()>
        ensures ok { OnOk result
            (Appends (Self.contents self.old) (Self.contents self.new) bytes.now) }
        ensures failed { OnErr result (never_fails self.old → ⊥) }
        ensures kept { never_fails self.old → never_fails self.new };
}

/// It fails where an allocation fails.
impl<A: Allocator> Output for Vec<u8, A> {
    fn put(&mut self, bytes: &[u8]) -> io::Result<()> {
        self.write_all(bytes)
    }
}

/// It never fails.
impl Output for Sink {
    ghost never_fails = { λ _. Unit {0} };

    fn put(&mut self, bytes: &[u8]) -> io::Result<()> {
        let _ = bytes;
        Ok(())
    }
}

impl<W: Output> Output for &mut W {
    ghost never_fails = { λ w. W.never_fails w.now };

    fn put(&mut self, bytes: &[u8]) -> io::Result<()> {
        Output::put(&mut **self, bytes)
    }
}

impl Output for File {
    fn put(&mut self, bytes: &[u8]) -> io::Result<()> {
        self.write_all(bytes)
    }
}

impl Output for Stdout {
    fn put(&mut self, bytes: &[u8]) -> io::Result<()> {
        self.write_all(bytes)
    }
}

impl<W: Write + Drop, A: Allocator> Output for BufWriter<W, A> {
    fn put(&mut self, bytes: &[u8]) -> io::Result<()> {
        self.write_all(bytes)
    }
}
