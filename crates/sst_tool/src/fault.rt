//! Why a run of the program fails.
ghost use Rattle.std.specs.Prelude.{◌≡◌};
ghost use Rattle.sst_tool.specs.Statuses.{status_of};
ghost use Rattle.sst_tool.specs.declared.fault.Fault.TheVariants.{Memory, Output};

use crate::hash::TableHash;
use crate::place::TableBlock;
use crate::probes::Claim;
use sstable_blocks::{Error, NotMade};
use std::alloc::{AllocError, AllocFailed, Global};
use std::{fmt, io};

/// Why a run fails. It is displayed as its line, without the program's name and the line feed.
#[derive(Debug, Drop, thiserror::Error)]
pub enum Fault {
    /// A file is refused, for the reason in the text.
    #[error("{0}")]
    Refused(String),
    /// A word is not what it has to be, for the reason in the text.
    #[error("{0}")]
    Word(String),
    /// No entry is left of the tables that are merged.
    #[error("no entries are left")]
    NoEntries,
    /// A file was written, and the output failed then.
    #[error("{0}: written, but the output failed")]
    Written(String),
    /// The output failed.
    #[error("the output failed")]
    Output,
    /// An allocation failed.
    #[error("out of memory")]
    Memory,
}

/// A result whose error ends the run.
pub type Result<T> = std::result::Result<T, Fault>;

/// Returns what printing came to, as what ends a run.
///
/// # Errors
///
/// `Fault::Output`.
pub fn printed(done: io::Result<()>) -> Result<()> {
    Ok(done?)
}

/// Why a call on a file failed.
#[derive(Clone, Copy)]
pub enum Cause {
    /// The system says so.
    System(io::Error),
    /// The file ends before the bytes that are read.
    End,
    /// It is not known.
    Unknown,
}

/// An error of the library, displayed with checksums in hex, and with its cause where a call on a
/// file failed.
#[derive(Drop)]
pub struct Shown {
    error: Error,
    cause: Cause,
}

impl Shown {
    /// Displays an error with its cause.
    pub fn new(error: Error, cause: Cause) -> Shown {
        Shown { error, cause }
    }
}

impl fmt::Display for Shown {
    fn fmt<W: fmt::Write>(&self, f: &mut fmt::Formatter<W>) -> fmt::Result {
        match (self.error, self.cause) {
            (Error::ChecksumMismatch { got, expected }, _) => {
                let found = got.into_u128();
                let expected = expected.into_u128();
                write!(f, "checksum is {found:032x}, expected {expected:032x}")
            }
            (Error::Io, Cause::System(cause)) => write!(f, "{cause}"),
            (Error::Io, Cause::End) => f.write_str("beyond the end of the file"),
            (error, _) => write!(f, "{error}"),
        }
    }
}

impl Fault {
    /// Returns the fault of a word that is not a key: what follows `hex:` is not pairs of hex
    /// digits.
    pub fn of_key(alloc: Global, word: &str) -> Fault {
        match format!(in alloc; "{word}: no pairs of hex digits after `hex:`") {
            Ok(text) => Fault::Word(text),
            Err(_) => Fault::Memory,
        }
    }

    /// Returns the fault of a word that is no number of bytes, for an option of this name.
    pub fn of_size(alloc: Global, name: &str, word: &str) -> Fault {
        match format!(in alloc;
            "--{name} {word}: no number of bytes, with K, M or G behind it or not"
        ) {
            Ok(text) => Fault::Word(text),
            Err(_) => Fault::Memory,
        }
    }

    /// Returns the status of a run that fails so: 2 for a word, 3 where no entry is left, and else 1.
    pub fn status(&self) -> u8
        ensures { result ≡ status_of self.now }
    {
        match self {
            Fault::Word(_) => 2,
            Fault::NoEntries => 3,
            _ => 1,
        }
    }

    /// Returns the fault of a file that is not replaced.
    pub fn of_present(alloc: Global, name: &str) -> Fault {
        Fault::with_text(format!(in alloc; "{name}: exists, and is replaced with --force alone"))
    }

    /// Returns the fault of a new file that is not made.
    pub fn of_new_file(alloc: Global, name: &str, cause: NotMade) -> Fault {
        match cause {
            NotMade::Memory => Fault::Memory,
            cause => Fault::with_text(format!(in alloc; "{name}: {cause}")),
        }
    }

    /// Returns the fault of a file that was written before the output failed.
    pub fn of_written(alloc: Global, name: &str) -> Fault {
        match String::from_str(alloc, name) {
            Ok(name) => Fault::Written(name),
            Err(_) => Fault::Memory,
        }
    }

    /// Returns the fault of a table whose hash function is not that of the first one.
    pub fn of_hash(
        alloc: Global,
        name: &str,
        hash: TableHash,
        first: &str,
        wanted: TableHash,
    ) -> Fault {
        Fault::with_text(format!(in alloc;
            "{name}: its hash is {hash}, that of {first} is {wanted}"
        ))
    }

    /// Returns the fault of a file that is not opened.
    pub fn of_open(alloc: Global, name: &str, cause: io::Error) -> Fault {
        Fault::of_file(alloc, name, None, Error::Io, Cause::System(cause))
    }

    /// Returns the fault of a file, whose block at an offset, if there is one, was read last.
    pub fn of_file(
        alloc: Global,
        name: &str,
        offset: Option<u64>,
        error: Error,
        cause: Cause,
    ) -> Fault {
        let error = Shown { error, cause };
        Fault::with_text(match offset {
            Some(offset) => format!(in alloc; "{name}: at offset {offset}: {error}"),
            None => format!(in alloc; "{name}: {error}"),
        })
    }

    /// Returns the fault of a file, whose block at an offset was read last. It is named, if it is
    /// known.
    pub fn of_block(
        alloc: Global,
        name: &str,
        block: Option<TableBlock>,
        offset: u64,
        error: Error,
        cause: Cause,
    ) -> Fault {
        let Some(block) = block else {
            return Fault::of_file(alloc, name, Some(offset), error, cause);
        };
        let error = Shown { error, cause };
        Fault::with_text(format!(in alloc; "{name}: {block} at offset {offset}: {error}"))
    }

    /// Returns the fault of a file whose footer names an index that is beyond its end.
    pub fn of_foreign(alloc: Global, name: &str, offset: u64) -> Fault {
        Fault::with_text(format!(in alloc;
            "{name}: no table, or one that was cut: index at offset {offset}: beyond the end of the file"
        ))
    }

    /// Returns the fault of a line of the input.
    pub fn of_line(alloc: Global, number: u64, why: &str) -> Fault {
        Fault::with_text(format!(in alloc; "line {number} {why}"))
    }

    /// Returns the fault of several files of which some failed.
    pub fn of_failed(alloc: Global, failed: usize, files: usize) -> Fault {
        Fault::with_text(format!(in alloc; "{failed} of {files} files failed"))
    }

    /// Returns the fault of a table of which some blocks failed.
    pub fn of_blocks(alloc: Global, name: &str, failed: usize, blocks: usize) -> Fault {
        Fault::with_text(format!(in alloc; "{name}: {failed} of {blocks} blocks failed"))
    }

    /// Returns the fault of a table of which some parts failed.
    pub fn of_parts(alloc: Global, name: &str, failed: usize, parts: usize) -> Fault {
        Fault::with_text(format!(in alloc; "{name}: {failed} of {parts} parts failed"))
    }

    /// Returns the fault of a filter at an offset that claims too many probes for so many entries.
    pub fn of_filter(alloc: Global, name: &str, at: u64, claim: Claim, count: u64) -> Fault {
        let Claim { probes, bits } = claim;
        Fault::with_text(format!(in alloc;
            "{name}: filter at offset {at}: {probes} probes a key, with {bits} bits for {count} entries"
        ))
    }

    // The fault with a text, if there was memory for it.
    fn with_text(text: std::result::Result<String, AllocError>) -> Fault {
        match text {
            Ok(text) => Fault::Refused(text),
            Err(_) => Fault::Memory,
        }
    }
}

impl From<AllocError> for Fault {
    ghost from_gives = { λ _ fault. fault ≡ Memory };

    fn from(_error: AllocError) -> Fault {
        Fault::Memory
    }
}

impl<T: Drop> From<AllocFailed<T>> for Fault {
    ghost from_gives = { λ _ fault. fault ≡ Memory };

    fn from(_error: AllocFailed<T>) -> Fault {
        Fault::Memory
    }
}

impl From<io::Error> for Fault {
    ghost from_gives = { λ _ fault. fault ≡ Output };

    fn from(_error: io::Error) -> Fault {
        Fault::Output
    }
}
