//! What calls return.
ghost use Rattle.std.specs.Prelude.{◌≡◌};
ghost use Rattle.sst_calls.specs.Codes.{code_of, error_number};

use sstable_blocks::Error;

/// What became of a call.
#[derive(Clone, Copy, Debug)]
pub enum Status {
    /// The call did what it is for.
    Done,
    /// The library's error.
    Failed(Error),
    /// There is no entry of this key below the sequence number.
    NotFound,
    /// An argument is not one that the call takes.
    BadArgument,
    /// The buffer is too short. The call says how long it has to be.
    NoRoom,
}

impl Status {
    /// Returns its code: 0 where the call did what it is for, 1 to 15 for E1 to E15, 16 where there
    /// is no such entry, 17 for an argument that the call does not take, 18 for a buffer that is
    /// too short.
    pub fn code(self) -> u32
        ensures { result ≡ code_of self }
    {
        match self {
            Status::Done => 0,
            Status::Failed(error) => error_number(error),
            Status::NotFound => 16,
            Status::BadArgument => 17,
            Status::NoRoom => 18,
        }
    }
}

// The number of an error.
fn error_number(error: Error) -> u32
    ensures { result ≡ error_number error }
{
    match error {
        Error::Io => 1,
        Error::InvalidHeader(_) => 2,
        Error::InvalidTag(_, _) => 3,
        Error::ChecksumMismatch { .. } => 4,
        Error::LengthMismatch => 5,
        Error::TooLong => 6,
        Error::Truncated => 7,
        Error::BadTrailer => 8,
        Error::BadEntry => 9,
        Error::OutOfOrder => 10,
        Error::BadIndex => 11,
        Error::BadHashIndex => 12,
        Error::BadFilter => 13,
        Error::BadHandle => 14,
        Error::Memory => 15,
    }
}
