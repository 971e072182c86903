//! Checksums of 128 bits, and streams with a checksum of the bytes that pass.
ghost use Rattle.std.specs.Prelude.{◌≡◌, ℕ, [], ◌++◌, take, IfOk, OnOk, OnErr};
ghost use Rattle.std.specs.Io.{WritesAtMost, ReadsAtMost};
ghost use Rattle.std.specs.Io.KnownBytes.{WriteAppends, Appends, ReadConsumes, Consumes, Keeps};
ghost use Rattle.std.specs.Io.Seek.{SeekMoves};

use crate::error::{Error, Result};
use crate::ghost_state::history::History;
use crate::hash::BlockHash;
use crate::input::Input;
use crate::output::Output;
use std::io::{ErrorKind, Read, Seek, SeekFrom, Write};
use std::marker::Model;
use std::{fmt, io};

/// The hash function of a checksum.
#[derive(Clone, Copy, Debug, PartialEq, Eq)]
pub enum ChecksumType {
    /// XXH3 with 128 bits. Byte 0.
    Xxh3,
}

/// The byte of a hash function.
impl From<ChecksumType> for u8 {
    ghost from_gives = { λ _ byte. byte ≡ 0 };

    fn from(checksum_type: ChecksumType) -> u8 {
        match checksum_type {
            ChecksumType::Xxh3 => 0,
        }
    }
}

/// A checksum of 128 bits. Clauses see the number.
#[derive(Clone, Copy, Debug, PartialEq, Eq)]
pub struct Checksum(u128);

impl Model for Checksum {
    ghost use Rattle.std.specs.Prelude.{ℕ};

    ghost Value = { ℕ };

    ghost view = { λ c. c.0 };

    ghost inverse = { λ n. record { 0 = n } };
}

impl Checksum {
    /// Makes the checksum of a number.
    pub fn from_raw(value: u128) -> Checksum
        ensures { result ≡ value }
    {
        Checksum(value)
    }

    /// Returns the number.
    pub fn into_u128(self) -> u128
        ensures { result ≡ self }
    {
        self.0
    }
}

/// Writes `Checksum(5)` for 5.
impl fmt::Display for Checksum {
    fn fmt<W: fmt::Write>(&self, f: &mut fmt::Formatter<W>) -> fmt::Result {
        write!(f, "Checksum({})", self.0)
    }
}

// A stream of a hash function, and the bytes that it was given. Clauses see these bytes.
#[derive(Drop)]
struct Hashing<H: BlockHash> {
    stream: H,
    taken: History<u8>,
}

impl<H: BlockHash> Model for Hashing<H> {
    ghost use Rattle.std.specs.Prelude.{List, ℕ};

    ghost Value = { List ℕ };

    ghost view = { λ s. s.taken };

    ghost invariant = { λ s. H.has_taken s.stream s.taken };
}

impl<H: BlockHash> Hashing<H> {
    // Starts a stream.
    fn new() -> Hashing<H>
        ensures { result ≡ [] }
    {
        Hashing {
            stream: H::start(),
            taken: History::new(),
        }
    }

    // Adds bytes.
    fn update(&mut self, bytes: &[u8])
        ensures { self.new ≡ self.old ++ bytes.now }
    {
        self.stream.update(bytes);
        self.taken.extend_from_slice(bytes);
    }

    // The checksum of the bytes.
    fn checksum(&self) -> Checksum
        ensures { result ≡ H.hash128 self.now }
    {
        Checksum::from_raw(self.stream.digest128())
    }
}

/// A writer with a checksum of the bytes that it accepted.
#[derive(Drop)]
pub struct ChecksummedWriter<W, H: BlockHash> {
    inner: W,
    accepted: Hashing<H>,
}

impl<W, H: BlockHash> Model for ChecksummedWriter<W, H> {
    ghost use Rattle.sst_base.specs.Streams.{HashedStream};

    ghost Value = { HashedStream W };

    ghost view = { λ w. record { inner = w.inner; passed = w.accepted } };
}

impl<W, H: BlockHash> ChecksummedWriter<W, H> {
    ghost use Rattle.std.specs.Borrow.{sem, Lends};
    ghost use Rattle.sst_base.specs.contracts.checksum.ChecksummedWriter.{the_row};

    /// Wraps a writer. No byte was accepted yet.
    pub fn new(writer: W) -> ChecksummedWriter<W, H>
        ensures { result ≡ record { inner = writer; passed = [] } }
    {
        ChecksummedWriter {
            inner: writer,
            accepted: Hashing::new(),
        }
    }

    /// Returns the checksum of the bytes accepted.
    pub fn checksum(&self) -> Checksum
        ensures { result ≡ H.hash128 self.now.passed }
    {
        self.accepted.checksum()
    }

    /// Returns the writer, borrowed. What is written to it directly is not part of the checksum.
    pub fn inner_mut(&mut self) -> &mut W
        ensures value { result.now ≡ self.old.inner }
        ensures* writes_back { sem 𝓛
            (Lends (the_row W.row H.row H.BlockHash) W.row self.entry result
            (λ w. record { inner = w; passed = self.old.passed })) }
    {
        &mut self.inner
    }
}

impl<W: Write, H: BlockHash> Write for ChecksummedWriter<W, H> {
    ghost contents = { λ w. W.contents w.inner };

    fn write(&mut self, buf: &[u8]) -> io::Result<usize>
        ensures bound { WritesAtMost result buf.now }
        ensures bytes { WriteAppends (W.contents self.old.inner) (W.contents self.new.inner) result
            buf.now }
        ensures accepted { IfOk result
            (λ n. self.new.passed ≡ self.old.passed ++ take n buf.now) }
        ensures refused { OnErr result (self.new.passed ≡ self.old.passed) }
    {
        let n = self.inner.write(buf)?;
        self.accepted.update(&buf[..n]);
        Ok(n)
    }

    fn flush(&mut self) -> io::Result<()>
        ensures bytes { Keeps (W.contents self.old.inner) (W.contents self.new.inner) }
        ensures accepted { self.new.passed ≡ self.old.passed }
    {
        self.inner.flush()
    }

    fn write_all(&mut self, buf: &[u8]) -> io::Result<()>
        ensures bytes { OnOk result
            (Appends (W.contents self.old.inner) (W.contents self.new.inner) buf.now) }
        ensures accepted { OnOk result (self.new.passed ≡ self.old.passed ++ buf.now) }
        ensures cut_short { OnErr result
            ((n : ℕ)
            × Appends (W.contents self.old.inner) (W.contents self.new.inner) (take n buf.now)
            × (self.new.passed ≡ self.old.passed ++ take n buf.now)) }
    {
        let mut at = 0usize;
        for _ in 0..u64::MAX {
            if at >= buf.len() {
                return Ok(());
            }
            match self.write(&buf[at..]) {
                Ok(0) => return Err(io::Error::from(ErrorKind::WriteZero)),
                Ok(n) => at += n,
                Err(e) => {
                    if e.kind() != ErrorKind::Interrupted {
                        return Err(e);
                    }
                }
            }
        }
        Err(io::Error::from(ErrorKind::Other))
    }
}

impl<W: Write, H: BlockHash> Output for ChecksummedWriter<W, H> {
    fn put(&mut self, bytes: &[u8]) -> io::Result<()> {
        self.write_all(bytes)
    }
}

impl<W: Seek, H: BlockHash> Seek for ChecksummedWriter<W, H> {
    ghost stream_position = { λ w. W.stream_position w.inner };

    ghost stream_bytes = { λ w. W.stream_bytes w.inner };

    fn seek(&mut self, to: SeekFrom) -> io::Result<u64>
        ensures moves { SeekMoves (W.stream_position self.old.inner)
            (W.stream_position self.new.inner) (W.stream_bytes self.old.inner) to result }
        ensures bytes { Keeps (W.stream_bytes self.old.inner) (W.stream_bytes self.new.inner) }
        ensures accepted { self.new.passed ≡ self.old.passed }
    {
        self.inner.seek(to)
    }
}

/// A reader with a checksum of the bytes that it gave.
#[derive(Drop)]
pub struct ChecksummedReader<R, H: BlockHash> {
    inner: R,
    given: Hashing<H>,
}

impl<R, H: BlockHash> Model for ChecksummedReader<R, H> {
    ghost use Rattle.sst_base.specs.Streams.{HashedStream};

    ghost Value = { HashedStream R };

    ghost view = { λ r. record { inner = r.inner; passed = r.given } };
}

impl<R, H: BlockHash> ChecksummedReader<R, H> {
    /// Wraps a reader. No byte was given yet.
    pub fn new(reader: R) -> ChecksummedReader<R, H>
        ensures { result ≡ record { inner = reader; passed = [] } }
    {
        ChecksummedReader {
            inner: reader,
            given: Hashing::new(),
        }
    }

    /// Returns the checksum of the bytes given.
    pub fn checksum(&self) -> Checksum
        ensures { result ≡ H.hash128 self.now.passed }
    {
        self.given.checksum()
    }

    /// Returns the reader.
    pub fn into_inner(self) -> R
        ensures { result ≡ self.inner }
    {
        self.inner
    }
}

impl<R: Read, H: BlockHash> Read for ChecksummedReader<R, H> {
    ghost remaining = { λ r. R.remaining r.inner };

    fn read(&mut self, buf: &mut [u8]) -> io::Result<usize>
        ensures bound { ReadsAtMost result buf.new }
        ensures bytes { ReadConsumes (R.remaining self.old.inner) (R.remaining self.new.inner)
            result buf.new }
        ensures given { IfOk result (λ n. self.new.passed ≡ self.old.passed ++ take n buf.new) }
        ensures refused { OnErr result (self.new.passed ≡ self.old.passed) }
    {
        let n = self.inner.read(buf)?;
        self.given.update(&buf[..n]);
        Ok(n)
    }
}

impl<R: Input, H: BlockHash> Input for ChecksummedReader<R, H> {
    ghost use Rattle.std.specs.Prelude.{◌<◌, ◌≤◌, ◌+◌, ◌⊎◌, List, length, drop, IfSome, IfErr};
    ghost use Rattle.std.specs.Vec.{vec_len, vec_capacity};
    ghost use Rattle.std.specs.Prelude.{IsOkUnless, MatchResult};
    ghost use Rattle.sst_base.specs.declared.error.Error.TheVariants.{Io, Memory};

    ghost is_memory = { λ r. R.is_memory r.inner };

    ghost whole = { λ r. R.whole r.inner };

    fn fill(&mut self, buf: &mut [u8]) -> Result<()>
        ensures ok { OnOk result
            (Consumes (R.remaining self.old.inner) (R.remaining self.new.inner) buf.new) }
        ensures io { IsOkUnless result Error.Io }
        ensures end { OnErr result (R.is_memory self.old.inner
            → IfSome (R.remaining self.old.inner) (λ bytes. length bytes < length buf.old)) }
        ensures kept { R.is_memory self.old.inner → R.is_memory self.new.inner }
        ensures whole { R.whole self.new.inner ≡ R.whole self.old.inner }
        ensures given { OnOk result (self.new.passed ≡ self.old.passed ++ buf.new) }
        ensures refused { OnErr result (self.new.passed ≡ self.old.passed) }
    {
        self.inner.fill(buf)?;
        self.given.update(buf);
        Ok(())
    }

    fn append(&mut self, buf: &mut Vec<u8>, len: usize) -> Result<()>
        ensures ok { OnOk result ((bytes : List ℕ)
            × Consumes (R.remaining self.old.inner) (R.remaining self.new.inner) bytes
            × (buf.new.items ≡ buf.old.items ++ bytes)) }
        ensures len { OnOk result (length buf.new.items ≡ length buf.old.items + len) }
        ensures errors { IfErr result (λ e. (e ≡ Io) ⊎ (e ≡ Memory)) }
        ensures room { vec_len buf.old + len ≤ vec_capacity buf.old → IsOkUnless result Error.Io }
        ensures end { IfErr result (λ e. e ≡ Io → R.is_memory self.old.inner
            → IfSome (R.remaining self.old.inner) (λ bytes. length bytes < len)) }
        ensures kept { R.is_memory self.old.inner → R.is_memory self.new.inner }
        ensures whole { R.whole self.new.inner ≡ R.whole self.old.inner }
        ensures given { MatchResult result
            (λ _. self.new.passed ≡ self.old.passed ++ drop (length buf.old.items) buf.new.items)
            (λ _. self.new.passed ≡ self.old.passed) }
    {
        let start = buf.as_slice().len();
        self.inner.append(buf, len)?;
        self.given.update(&buf[start..]);
        Ok(())
    }
}
