//! Writers that can make durable what was written to them.
ghost use Rattle.std.specs.Prelude.{◌≡◌, [], OnErr, OnOk, IfOk, IsTrue, IsOkUnless};
ghost use Rattle.std.specs.Io.KnownBytes.{Keeps};
ghost use Rattle.std.specs.Io.Buffered.{writer_contents, writer_buffer, writer_inner};
ghost use Rattle.sst_base.specs.declared.error.Error.TheVariants.{Memory};

use sst_base::{Error, Output, Result};
use std::alloc::{Allocator, Global};
use std::fs::OpenFile;
use std::io;
use std::io::{BufWriter, ErrorKind, Sink, Write};

/// A writer that can make durable what was written to it.
pub trait SyncWrite: Output {
    // all that was written is where it stays
    ghost is_synced: { Self → Type 0 };

    /// Passes on all that was written, and waits until it is where it stays.
    ///
    /// # Errors
    ///
    /// That of the system.
    fn sync(&mut self) -> io::Result<()>
        ensures synced { OnOk result (is_synced self.new) }
        ensures kept { Keeps (Self.contents self.old) (Self.contents self.new) }
        ensures failed { OnErr result (Self.never_fails self.old → ⊥) };
}

// What is written to memory is there.
impl<A: Allocator> SyncWrite for Vec<u8, A> {
    ghost is_synced = { λ _. Unit {0} };

    fn sync(&mut self) -> io::Result<()> {
        Ok(())
    }
}

// Nothing is kept.
impl SyncWrite for Sink {
    ghost is_synced = { λ _. Unit {0} };

    fn sync(&mut self) -> io::Result<()> {
        Ok(())
    }
}

/// A file that is written through a buffer.
#[derive(Drop)]
pub struct BufferedFile<F: Write + Drop> {
    buffered: BufWriter<F>,
    // whether the system has synced the file, and no byte was written since then
    is_synced: bool,
}

impl<F: Write + Drop> BufferedFile<F> {
    /// Wraps a file in a buffer.
    ///
    /// # Errors
    ///
    /// `Error::Memory` if an allocation fails.
    pub fn new(alloc: Global, file: F) -> Result<BufferedFile<F>>
        ensures file { IfOk result (λ w. writer_inner w.buffered ≡ file) }
        ensures empty { IfOk result (λ w. writer_buffer w.buffered ≡ []) }
        ensures memory { IsOkUnless result Error.Memory }
    {
        let buffered = BufWriter::new(alloc, file).map_err(|_| Error::Memory)?;
        Ok(BufferedFile {
            buffered,
            is_synced: false,
        })
    }
}

impl<F: Write + Drop> Write for BufferedFile<F> {
    ghost contents = { λ w. writer_contents F.contents w.buffered };

    fn write(&mut self, buf: &[u8]) -> io::Result<usize> {
        self.is_synced = false;
        self.buffered.write(buf)
    }

    fn flush(&mut self) -> io::Result<()> {
        self.buffered.flush()
    }

    fn write_all(&mut self, buf: &[u8]) -> io::Result<()> {
        self.is_synced = false;
        self.buffered.write_all(buf)
    }
}

impl<F: Write + Drop> Output for BufferedFile<F> {
    fn put(&mut self, bytes: &[u8]) -> io::Result<()> {
        self.write_all(bytes)
    }
}

impl<F: Write + OpenFile + Drop> SyncWrite for BufferedFile<F> {
    ghost is_synced = { λ w. IsTrue w.is_synced × (writer_buffer w.buffered ≡ []) };

    fn sync(&mut self) -> io::Result<()> {
        self.buffered.flush()?;
        sync_file(self.buffered.get_ref())?;
        self.is_synced = true;
        Ok(())
    }
}

// Waits until a file is where it stays. A pipe and most devices hold nothing that could be synced,
// which the system reports as an invalid argument.
fn sync_file<F: OpenFile>(file: &F) -> io::Result<()> {
    match file.sync_all() {
        Err(error) if error.kind() == ErrorKind::InvalidInput => Ok(()),
        synced => synced,
    }
}
