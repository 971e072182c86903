//! The program `sst`: blocks of entries and table files from the command line.
#![tactic(auto)]

use sst_program::fault::Fault;
use sst_program::output::print_text;
use sst_program::pipe::{PipeOutput, QuietFaults};
use sst_program::status_of;
use sst_program::words::words_of;
pub use sst_program::{entry_line, sst_main};
use std::cell::Cell;
use std::io::Write;
use std::process::ExitCode;

const VERSION: &str = "sst 0.1.0\n";

const HELP: &str = "\
Reads and writes blocks and table files of sorted entries.

sst point INTERVAL KEYHEX SEQNO    encode the entries of standard input as a block, print it, and read a key
sst pack FILE INTERVAL NUM DEN BITS PER_BLOCK [INDEX_INTERVAL]
                                   write the entries of standard input as a table file
sst get FILE KEYHEX SEQNO          print the newest version of a key below a sequence number, or `none`
sst walk FILE                      print all entries
sst check FILE                     check each frame

An entry is a line `C S K V`: V, T, W or I for a value, a tombstone, a weak tombstone or an indirection, the
sequence number, and key and value in hex, `-` for an empty one. INTERVAL, entries in a restart interval, and
INDEX_INTERVAL are 1 to 255; NUM / DEN is the number of buckets for an entry, BITS the filter's bits for a key,
PER_BLOCK the entries of a block.

The status is 0, or 1 after a line on standard error; where the reader of the output has gone it is 1 with none.
";

// What is printed of the program itself, where the only word asks for it.
fn text_of(word: &str) -> Option<&'static str> {
    match word {
        "help" | "--help" | "-h" => Some(HELP),
        "--version" | "-V" => Some(VERSION),
        _ => None,
    }
}

// Runs the program on these words. Returns its status.
fn run<O: Write, F: Write>(
    rt: &HostRuntime,
    words: &[String],
    output: &mut O,
    faults: &mut F,
) -> u8 {
    if let [word] = words
        && let Some(text) = text_of(word.as_str())
    {
        let printed = print_text(output, text.as_bytes());
        return status_of(printed.map_err(Fault::from), faults);
    }
    sst_main(rt, rt.alloc(), words, &mut rt.stdin(), output, faults)
}

fn main(rt: HostRuntime) -> ExitCode {
    let is_closed = Cell::new(false);
    let mut output = PipeOutput::new(rt.stdout(), &is_closed);
    let mut faults = QuietFaults::new(rt.stderr(), &is_closed);
    let status = match words_of(&rt) {
        Ok(words) => run(&rt, words.as_slice(), &mut output, &mut faults),
        Err(fault) => status_of(Err(fault), &mut faults),
    };
    ExitCode::from(status)
}
