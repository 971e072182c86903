//! Why a run fails, and the line that reports it.
ghost use Rattle.std.specs.Prelude.{◌≡◌};
ghost use Rattle.sst_program.specs.declared.fault.Fault.TheVariants.{Refused};
ghost use Rattle.sst_program.specs.Refusal.{refusal_name_of};
ghost use Rattle.sstable_blocks.specs.Results.{Memory};

use sstable_blocks::Error;
use std::alloc::{AllocError, AllocFailed};

/// Why a run fails. It is displayed as its line without the line feed, as in `sst:
/// line 2: order`.
#[derive(Clone, Copy, Debug, PartialEq, Eq, thiserror::Error)]
pub enum Fault {
    /// The words after the program's name are not a command.
    #[error("sst: usage")]
    Usage,
    /// The input is empty.
    #[error("sst: no entries")]
    NoEntries,
    /// The line with this number, counted from 1, is not an entry. It is the first such line.
    #[error("sst: line {0}: entry")]
    Entry(usize),
    /// The entry on this line sorts before the one on the line above it. It is the first such
    /// entry.
    #[error("sst: line {0}: order")]
    Order(usize),
    /// The library, the input or the output refused.
    #[error("sst: {}", refusal_name(*.0))]
    Refused(Error),
}

/// A result whose error is the fault that ends the run.
pub type Result<T> = std::result::Result<T, Fault>;

/// Returns the number and the bare name of a refusal, as in `E15 Memory`.
pub fn refusal_name(error: Error) -> &'static str
    ensures { result.now ≡ refusal_name_of error }
{
    match error {
        Error::Io => "E1 Io",
        Error::InvalidHeader(_) => "E2 InvalidHeader",
        Error::InvalidTag(_, _) => "E3 InvalidTag",
        Error::ChecksumMismatch { .. } => "E4 ChecksumMismatch",
        Error::LengthMismatch => "E5 LengthMismatch",
        Error::TooLong => "E6 TooLong",
        Error::Truncated => "E7 Truncated",
        Error::BadTrailer => "E8 BadTrailer",
        Error::BadEntry => "E9 BadEntry",
        Error::OutOfOrder => "E10 OutOfOrder",
        Error::BadIndex => "E11 BadIndex",
        Error::BadHashIndex => "E12 BadHashIndex",
        Error::BadFilter => "E13 BadFilter",
        Error::BadHandle => "E14 BadHandle",
        Error::Memory => "E15 Memory",
    }
}

impl From<Error> for Fault {
    ghost from_gives = { λ error fault. fault ≡ Refused error };

    fn from(error: Error) -> Fault {
        Fault::Refused(error)
    }
}

impl From<AllocError> for Fault {
    ghost from_gives = { λ _ fault. fault ≡ Refused Memory };

    fn from(_error: AllocError) -> Fault {
        Fault::Refused(Error::Memory)
    }
}

impl<T: Drop> From<AllocFailed<T>> for Fault {
    ghost from_gives = { λ _ fault. fault ≡ Refused Memory };

    fn from(_error: AllocFailed<T>) -> Fault {
        Fault::Refused(Error::Memory)
    }
}
