//! Readers whose end over memory is known exactly.
ghost use Rattle.std.specs.Prelude.{◌≡◌, ◌<◌, ℕ, List, length, drop, Some, IfSome};
ghost use Rattle.std.specs.Prelude.{None, OnOk, OnErr, IfOk, IsOk, Option};
ghost use Rattle.std.specs.Prelude.{IsOkUnless, IfErr, ◌+◌, ◌≤◌, ◌++◌, ◌⊎◌, take};
ghost use Rattle.sst_base.specs.declared.error.Error.TheVariants.{Io, Memory};
ghost use Rattle.std.specs.Vec.{vec_len, vec_capacity};
ghost use Rattle.std.specs.Io.Cursor.{cursor_inner};
ghost use Rattle.std.specs.Io.KnownBytes.{Consumes};
ghost use Rattle.sst_base.specs.Bytes.{IsBytes};
ghost use Rattle.sst_base.specs.Header.{bytes_at};
ghost use Rattle.sst_base.specs.Inputs.{Reads};

use crate::error::{Error, Result};
use std::alloc::Allocator;
use std::fs::File;
use std::io::{AsBytes, BufReader, Cursor, Read, Seek, SeekFrom, Stdin, StdinLock};

/// A reader that fills whole buffers.
///
/// A reader over memory fails only where its bytes end; any other may fail at any call.
pub trait Input: Read {
    // a reader over memory
    ghost is_memory: { Self → Type 0 } = { λ _. ⊥ };

    // all bytes from position 0 on, also those read already, where they are known
    ghost whole: { Self → Option (List ℕ) } = { λ _. None };

    /// Fills the buffer with the next bytes.
    ///
    /// # Errors
    ///
    /// `Error::Io` if the reader fails, or ends before the buffer is full.
    fn fill(&mut self, buf: &mut [u8]) -> Result<()>
        ensures ok { OnOk result
            (Consumes (Self.remaining self.old) (Self.remaining self.new) buf.new) }
        ensures io { IsOkUnless result Error.Io }
        ensures end { OnErr result (is_memory self.old
            → IfSome (Self.remaining self.old) (λ bytes. length bytes < length buf.old)) }
        ensures kept { is_memory self.old → is_memory self.new }
        ensures whole { whole self.new ≡ whole self.old };

    /// Appends the next `len` bytes to a vector.
    ///
    /// # Errors
    ///
    /// `Error::Io` if the reader fails, or ends before `len` bytes. `Error::Memory` if an
    /// allocation fails. What the vector holds is then unspecified.
    fn append(&mut self, buf: &mut Vec<u8>, len: usize) -> Result<()>
        ensures ok { OnOk result ((bytes : List ℕ)
            × Consumes (Self.remaining self.old) (Self.remaining self.new) bytes
            × (buf.new.items ≡ buf.old.items ++ bytes)) }
        ensures len { OnOk result (length buf.new.items ≡ length buf.old.items + len) }
        ensures errors { IfErr result (λ e. (e ≡ Io) ⊎ (e ≡ Memory)) }
        ensures room { vec_len buf.old + len ≤ vec_capacity buf.old → IsOkUnless result Error.Io }
        ensures end { IfErr result (λ e. e ≡ Io → is_memory self.old
            → IfSome (Self.remaining self.old) (λ bytes. length bytes < len)) }
        ensures kept { is_memory self.old → is_memory self.new }
        ensures whole { whole self.new ≡ whole self.old };
}

/// Appends the next `len` bytes of any reader to a vector, which it first makes longer by zeros:
/// what [`Input::append`] is for a reader whose bytes are not in memory.
///
/// # Errors
///
/// `Error::Io` if the reader fails, or ends before `len` bytes. `Error::Memory` if an allocation
/// fails. What the vector holds is then unspecified.
pub fn append_exact<R: Read>(reader: &mut R, buf: &mut Vec<u8>, len: usize) -> Result<()>
    ensures ok { OnOk result ((bytes : List ℕ)
        × Consumes (R.remaining reader.old) (R.remaining reader.new) bytes
        × (buf.new.items ≡ buf.old.items ++ bytes)) }
    ensures len { OnOk result (length buf.new.items ≡ length buf.old.items + len) }
    ensures errors { IfErr result (λ e. (e ≡ Io) ⊎ (e ≡ Memory)) }
    ensures room { vec_len buf.old + len ≤ vec_capacity buf.old → IsOkUnless result Error.Io }
{
    let start = buf.as_slice().len();
    let Some(end) = start.checked_add(len) else {
        return Err(Error::Memory);
    };
    buf.resize(end, 0)?;
    fill_behind(reader, buf, start)
}

// Fills what is after an index.
fn fill_behind<R: Read>(reader: &mut R, room: &mut [u8], start: usize) -> Result<()>
    requires { start ≤ length room.old }
    ensures ok { OnOk result
        (Consumes (R.remaining reader.old) (R.remaining reader.new) (drop start room.new)) }
    ensures front { take start room.new ≡ take start room.old }
    ensures len { length room.new ≡ length room.old }
    ensures io { IsOkUnless result Error.Io }
{
    Ok(reader.read_exact(&mut room[start..])?)
}

impl Input for &[u8] {
    ghost is_memory = { λ _. Unit {0} };

    fn fill(&mut self, buf: &mut [u8]) -> Result<()> {
        let all: &[u8] = *self;
        if all.len() < buf.len() {
            return Err(Error::Io);
        }
        let (front, rest) = all.split_at(buf.len());
        buf.copy_from_slice(front);
        *self = rest;
        Ok(())
    }

    fn append(&mut self, buf: &mut Vec<u8>, len: usize) -> Result<()> {
        let all: &[u8] = *self;
        if all.len() < len {
            return Err(Error::Io);
        }
        let (front, rest) = all.split_at(len);
        buf.extend_from_slice(front)?;
        *self = rest;
        Ok(())
    }
}

impl<R: Input> Input for &mut R {
    ghost is_memory = { λ r. R.is_memory r.now };

    ghost whole = { λ r. R.whole r.now };

    fn fill(&mut self, buf: &mut [u8]) -> Result<()> {
        Input::fill(&mut **self, buf)
    }

    fn append(&mut self, buf: &mut Vec<u8>, len: usize) -> Result<()> {
        Input::append(&mut **self, buf, len)
    }
}

impl Input for File {
    fn fill(&mut self, buf: &mut [u8]) -> Result<()> {
        Ok(self.read_exact(buf)?)
    }

    fn append(&mut self, buf: &mut Vec<u8>, len: usize) -> Result<()> {
        append_exact(self, buf, len)
    }
}

impl Input for Stdin {
    fn fill(&mut self, buf: &mut [u8]) -> Result<()> {
        Ok(self.read_exact(buf)?)
    }

    fn append(&mut self, buf: &mut Vec<u8>, len: usize) -> Result<()> {
        append_exact(self, buf, len)
    }
}

impl Input for StdinLock<'_> {
    fn fill(&mut self, buf: &mut [u8]) -> Result<()> {
        Ok(self.read_exact(buf)?)
    }

    fn append(&mut self, buf: &mut Vec<u8>, len: usize) -> Result<()> {
        append_exact(self, buf, len)
    }
}

impl<R: Read, A: Allocator> Input for BufReader<R, A> {
    fn fill(&mut self, buf: &mut [u8]) -> Result<()> {
        Ok(self.read_exact(buf)?)
    }

    fn append(&mut self, buf: &mut Vec<u8>, len: usize) -> Result<()> {
        append_exact(self, buf, len)
    }
}

/// A reader over memory.
impl<T: AsBytes> Input for Cursor<T> {
    ghost is_memory = { λ _. Unit {0} };

    ghost whole = { λ c. T.bytes (cursor_inner c) };

    fn fill(&mut self, buf: &mut [u8]) -> Result<()> {
        let rest = bytes_from(self.get_ref().as_byte_slice(), self.position());
        if rest.len() < buf.len() {
            return Err(Error::Io);
        }
        let (front, _) = rest.split_at(buf.len());
        buf.copy_from_slice(front);
        self.set_position(self.position() + buf.len() as u64);
        Ok(())
    }

    fn append(&mut self, buf: &mut Vec<u8>, len: usize) -> Result<()> {
        let rest = bytes_from(self.get_ref().as_byte_slice(), self.position());
        if rest.len() < len {
            return Err(Error::Io);
        }
        let (front, _) = rest.split_at(len);
        buf.extend_from_slice(front)?;
        self.set_position(self.position() + len as u64);
        Ok(())
    }
}

// The bytes from a position on: none where it is after the end.
fn bytes_from(bytes: &[u8], position: u64) -> &[u8]
    ensures { result.now ≡ drop position bytes.now }
{
    let start = bytes.len().min(position as usize);
    let (_, rest) = bytes.split_at(start);
    rest
}

/// A reader that can be moved, as a file.
pub trait SeekInput: Input + Seek {
    /// Moves to an offset from the beginning.
    ///
    /// # Errors
    ///
    /// `Error::Io` if the reader fails, which one over memory never does.
    fn move_to(&mut self, offset: u64) -> Result<()>
        ensures left { OnOk result (IfSome (Self.whole self.old)
            (λ bytes. Self.remaining self.new ≡ Some (drop offset bytes))) }
        ensures whole { Self.whole self.new ≡ Self.whole self.old }
        ensures cells { OnOk result (IfSome (Self.whole self.old) IsBytes) }
        ensures io { IsOkUnless result Error.Io }
        ensures memory { Self.is_memory self.old → IsOk result }
        ensures kept { Self.is_memory self.old → Self.is_memory self.new };

    /// Returns the length in bytes. The reader may then be anywhere.
    ///
    /// # Errors
    ///
    /// `Error::Io` if the reader fails, which one over memory never does.
    fn stream_len(&mut self) -> Result<u64>
        ensures len { IfOk result (λ len. IfSome (Self.whole self.old)
            (λ bytes. len ≡ length bytes)) }
        ensures whole { Self.whole self.new ≡ Self.whole self.old }
        ensures io { IsOkUnless result Error.Io }
        ensures memory { Self.is_memory self.old → IsOk result }
        ensures kept { Self.is_memory self.old → Self.is_memory self.new };

    // where position and bytes are known, so is the whole
    ghost whole_is_known: { (s : Self) (at : ℕ) (bytes : List ℕ)
        → Self.Seek.stream_position s ≡ Some at → Self.Seek.stream_bytes s ≡ Some bytes
        → Self.Input.whole s ≡ Some bytes };
}

impl<R: SeekInput> SeekInput for &mut R {
    ghost whole_is_known = { λ r at bytes. R.whole_is_known r.now at bytes };

    fn move_to(&mut self, offset: u64) -> Result<()> {
        SeekInput::move_to(&mut **self, offset)
    }

    fn stream_len(&mut self) -> Result<u64> {
        SeekInput::stream_len(&mut **self)
    }
}

impl SeekInput for File {
    ghost whole_is_known = { λ s at bytes position. Prim.cc };

    fn move_to(&mut self, offset: u64) -> Result<()> {
        self.seek(SeekFrom::Start(offset))?;
        Ok(())
    }

    fn stream_len(&mut self) -> Result<u64> {
        Ok(self.seek(SeekFrom::End(0))?)
    }
}

impl<T: AsBytes> SeekInput for Cursor<T> {
    ghost whole_is_known = { λ c at bytes position known. known };

    fn move_to(&mut self, offset: u64) -> Result<()> {
        note_bytes(self.get_ref().as_byte_slice());
        self.set_position(offset);
        Ok(())
    }

    fn stream_len(&mut self) -> Result<u64> {
        Ok(self.get_ref().as_byte_slice().len() as u64)
    }
}

// The next bytes of a reader.
pub(crate) fn array_from<const N: usize, R: Input>(reader: &mut R) -> Result<[u8; N]>
    ensures read { (bytes : List ℕ) → R.remaining reader.old ≡ Some bytes
        → Reads (R.is_memory reader.old) result (R.remaining reader.new) (bytes_at N bytes) }
    ensures kept { R.is_memory reader.old → R.is_memory reader.new }
{
    let mut bytes = [0u8; N];
    reader.fill(&mut bytes)?;
    Ok(bytes)
}

/// States for a proof that the cells of a slice are bytes. Does nothing.
#[inline(always)]
pub fn note_bytes(bytes: &[u8])
    ensures { IsBytes bytes.now }
{
    let _ = bytes;
}
