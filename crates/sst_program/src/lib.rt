//! The program `sst` as a library: its commands, over any streams and files.
#![tactic(auto)]

pub mod check;
pub mod entry_printer;
pub mod fault;
pub mod get;
pub mod input;
pub mod lines;
pub mod order;
pub mod output;
pub mod pack;
pub mod pipe;
pub mod point;
pub mod replace;
pub mod table;
pub mod text;
pub mod walk;
pub mod words;

ghost use Rattle.std.specs.Prelude.{◌≡◌, ◌≤◌, map, OnOk, IfErr, is_ok};
ghost use Rattle.std.specs.Prelude.{if◌then◌else◌};
ghost use Rattle.sst_program.specs.Commands.{command_of_words};
ghost use Rattle.sst_program.specs.Outcome.{HasPrinted, IsReported, HasKept};

use check::check;
use fault::Fault;
use get::get;
pub use lines::entry_line;
use pack::pack;
use point::point;
pub use sstable_blocks::LockFiles;
use std::alloc::Global;
use std::convert::AsSlice;
use std::io::{Read, Write};
use walk::walk;
use words::{Command, command_in};

/// Runs the program on these words, which are those after its name, and returns its status: 0, or 1
/// after one line on `faults`.
pub fn sst_main<R: LockFiles, W: AsSlice<u8>, I: Read, O: Write, F: Write>(
    rt: &R,
    alloc: Global,
    words: &[W],
    input: &mut I,
    output: &mut O,
    faults: &mut F,
) -> u8
    ensures status { result ≤ 1 }
    ensures printed { result ≡ 0 → HasPrinted (command_of_words (map W.items words.now))
        (I.remaining input.old) (O.contents output.old) (O.contents output.new) }
{
    let outcome = run(rt, alloc, words, input, output);
    status_of(outcome, faults)
}

/// Runs the program on these words, which are those after its name.
///
/// # Errors
///
/// `Fault::Usage` if the words are no command, then those of the command, and `Error::Memory` if an
/// allocation fails.
pub fn run<R: LockFiles, W: AsSlice<u8>, I: Read, O: Write>(
    rt: &R,
    alloc: Global,
    words: &[W],
    input: &mut I,
    output: &mut O,
) -> Result<(), Fault>
    ensures printed { OnOk result (HasPrinted (command_of_words (map W.items words.now))
        (I.remaining input.old) (O.contents output.old) (O.contents output.new)) }
    ensures err { IfErr result
        (IsReported (command_of_words (map W.items words.now)) (I.remaining input.old)) }
    ensures kept { IfErr result (HasKept (command_of_words (map W.items words.now))
        (O.contents output.old) (O.contents output.new)) }
{
    match command_in(alloc, words)? {
        Some(Command::Point(words)) => point(alloc, &words, input, output),
        Some(Command::Pack(words)) => pack(rt, alloc, &words, input, output),
        Some(Command::Get(words)) => get(rt, alloc, &words, output),
        Some(Command::Walk(file)) => walk(rt, alloc, file.as_str(), output),
        Some(Command::Check(file)) => check(rt, alloc, file.as_str(), output),
        None => Err(Fault::Usage),
    }
}

/// Returns the status of a run, 0 or 1, after one line on `faults` if it has a fault.
pub fn status_of<F: Write>(outcome: Result<(), Fault>, faults: &mut F) -> u8
    ensures status { result ≡ (if is_ok outcome then 0 else 1) }
{
    match outcome {
        Ok(()) => 0,
        Err(fault) => {
            let _ = writeln!(faults, "{fault}");
            1
        }
    }
}
