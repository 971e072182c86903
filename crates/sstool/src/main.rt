//! The program `sstool`: shows, checks, scans and merges table files, for people.
#![tactic(auto)]

mod blocks;
mod check;
mod commands;
mod get;
mod merge;
mod merged;
mod open;
mod pack;
mod parted;
mod salvage;
mod scan;
mod source;
mod stat;

use commands::run_command;
use sst_program::pipe::{PipeOutput, QuietFaults};
use sst_tool::fault::printed;
use sst_tool::{Progress, command, is_list};
use std::cell::Cell;
use std::env;
use std::io::{BufWriter, ErrorKind, IsTerminal, Write};
use std::process::ExitCode;

// Begins the progress of a command. It is shown where standard error is a terminal, and standard
// output is not one that the command prints lines on as it reads.
fn progress_of<'r>(rt: &'r HostRuntime, name: &str) -> Progress<'r, HostRuntime> {
    let is_visible = rt.stderr().is_terminal() && (!is_list(name) || !rt.stdout().is_terminal());
    Progress::new(rt, is_visible)
}

// Parses the words, and runs their command. Returns the status: 0, that of the fault after a line
// on `faults`, or 2 after words that are refused.
fn run<O: Write, F: Write>(
    rt: &HostRuntime,
    words: &[String],
    output: &mut O,
    faults: &mut F,
) -> anyhow::Result<u8> {
    let alloc = rt.alloc();
    let matches = match command(alloc)?.try_get_matches_from(words) {
        Ok(matches) => matches,
        Err(error) => {
            let printed = error.print(rt);
            if error.use_stderr() {
                return Ok(2);
            }
            printed?;
            return Ok(0);
        }
    };
    let Some((name, words)) = matches.subcommand() else {
        return Ok(2);
    };
    let progress = progress_of(rt, name);
    let (mut input, mut lines) = (rt.stdin(), BufWriter::new(alloc, output)?);
    let outcome = run_command(&progress, alloc, name, words, &mut input, &mut lines);
    // (what was printed stands before the fault)
    let flushed = printed(lines.flush());
    progress.clear();
    match outcome.and(flushed) {
        Ok(()) => Ok(0),
        Err(fault) => {
            let _ = writeln!(faults, "sstool: {fault}");
            Ok(fault.status())
        }
    }
}

fn main(rt: HostRuntime) -> anyhow::Result<ExitCode> {
    let is_closed = Cell::new(false);
    let mut output = PipeOutput::new(rt.stdout(), &is_closed);
    let mut faults = QuietFaults::new(rt.stderr(), &is_closed);
    let words: Vec<String> = match env::args(&rt) {
        Ok(words) => words.collect(rt.alloc())?,
        Err(error) if error.kind() == ErrorKind::InvalidData => {
            let _ = writeln!(faults, "sstool: a word is not UTF-8");
            return Ok(ExitCode::from(2));
        }
        Err(error) => return Err(error.into()),
    };
    let status = run(&rt, words.as_slice(), &mut output, &mut faults)?;
    Ok(ExitCode::from(status))
}
