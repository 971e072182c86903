//! Reading all entries of an input.
ghost use Rattle.std.specs.Prelude.{◌≡◌, ◌≢◌, ◌⊎◌, ◌≤◌, length, IfOk};
ghost use Rattle.std.specs.Prelude.{IfErr};
ghost use Rattle.sst_program.specs.Lines.{entries_of_input};
ghost use Rattle.sst_program.specs.Outcome.{IsOutcomeOf, IsFaultOf, run_of_input};
ghost use Rattle.sstable_blocks.specs.Prelude.{IsOrdered, entries};
ghost use Rattle.sstable_blocks.specs.Results.{Memory, Io};

use crate::fault::{self, Fault};
use crate::lines::entry_in;
use crate::order::fault_of;
use sstable_blocks::{Error, InternalValue, Result};
use std::alloc::Global;
use std::io;
use std::io::{BufRead, BufReader, ErrorKind, Read};

// The number of bytes that are read of an input at once.
const BUFFER_LEN: usize = 65536;

// The error for a reader's failure of this kind.
fn error_of(kind: ErrorKind) -> Error
    ensures memory { kind ≡ ErrorKind.OutOfMemory → result ≡ Error.Memory }
    ensures io { kind ≢ ErrorKind.OutOfMemory → result ≡ Error.Io }
{
    if kind == ErrorKind::OutOfMemory {
        Error::Memory
    } else {
        Error::Io
    }
}

// What a reader gave, unless it failed.
fn read_part<T>(outcome: io::Result<T>) -> Result<T>
    ensures ok { IfOk result (λ part. outcome ≡ Ok part) }
    ensures cause { IfErr result (λ e. (e ≡ Memory) ⊎ (e ≡ Io)) }
{
    match outcome {
        Ok(part) => Ok(part),
        Err(error) => Err(error_of(error.kind())),
    }
}

/// Returns the entries of an input, one a line. The last line may lack its line feed. Of the text a
/// buffer of 64 KiB and a line are held at a time.
///
/// # Errors
///
/// `Fault::Entry` with the number of the first line that is no entry; the input is not read past
/// its buffer then. `Error::Memory` if an allocation fails or the reader returns
/// `ErrorKind::OutOfMemory`, and `Error::Io` if the reader fails in another way.
pub fn read_entries<I: Read>(alloc: Global, input: &mut I) -> fault::Result<Vec<InternalValue>>
    ensures ok { IfOk result
        (λ items. IsOutcomeOf entries_of_input (I.remaining input.old) items.items) }
    ensures err { IfErr result (IsFaultOf entries_of_input (I.remaining input.old)) }
{
    let mut items = Vec::new(alloc);
    let reader = read_part(BufReader::with_capacity(alloc, BUFFER_LEN, input))?;
    for line in reader.split(alloc, b'\n') {
        let line = read_part(line)?;
        match entry_in(alloc, line.as_slice())? {
            Some(item) => items.push(item)?,
            None => return Err(Fault::Entry(items.len() + 1)),
        }
    }
    Ok(items)
}

/// Returns the entries of an input, one a line, of which there is at least one, and none sorts
/// before its predecessor.
///
/// # Errors
///
/// `Fault::NoEntries`, `Fault::Entry` and `Fault::Order` if the input is refused, `Error::Memory`
/// if an allocation fails, and `Error::Io` if the input fails.
pub fn ordered_entries<I: Read>(alloc: Global, input: &mut I) -> fault::Result<Vec<InternalValue>>
    ensures ok { IfOk result
        (λ items. IsOutcomeOf run_of_input (I.remaining input.old) items.items) }
    ensures err { IfErr result (IsFaultOf run_of_input (I.remaining input.old)) }
    ensures some { IfOk result (λ items. 1 ≤ length items.items) }
    ensures ordered { IfOk result (λ items. IsOrdered entries items.items) }
{
    let items = read_entries(alloc, input)?;
    match fault_of(items.as_slice()) {
        Some(fault) => Err(fault),
        None => Ok(items),
    }
}
