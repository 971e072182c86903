//! The words of the program.
use crate::hash::NAMES;
use clap::builder::ValueParser;
use clap::{Arg, ArgAction, Command};
use std::alloc::{AllocError, Global};

/// The name of the command that prints what a table holds.
pub const STAT: &str = "stat";

/// The name of the command that prints the entries of a table.
pub const SCAN: &str = "scan";

/// The name of the command that reads a key.
pub const GET: &str = "get";

/// The name of the command that checks a table.
pub const CHECK: &str = "check";

/// The name of the command that prints a line for each block.
pub const BLOCKS: &str = "blocks";

/// The name of the command that prints a line for each handle of the index.
pub const INDEX: &str = "index";

/// The name of the command that merges tables.
pub const MERGE: &str = "merge";

/// The name of the command that writes the entries of the input.
pub const PACK: &str = "pack";

/// The name of the command that writes what a damaged table still holds.
pub const SALVAGE: &str = "salvage";

/// The name of the word for a table file.
pub const FILE: &str = "FILE";

/// The name of the option for the table file that is written.
pub const OUT: &str = "output";

/// The name of the word for a key.
pub const KEY: &str = "KEY";

/// The name of the option for the sequence number of a read.
pub const AT: &str = "at";

/// The name of the option for the first key of a range.
pub const FROM: &str = "from";

/// The name of the option for the key at which a range ends.
pub const TO: &str = "to";

/// The name of the option for the bytes that all keys of a range begin with.
pub const PREFIX: &str = "prefix";

/// The name of the option for how many entries are printed at most.
pub const LIMIT: &str = "limit";

/// The name of the flag for keys without values.
pub const KEYS_ONLY: &str = "keys-only";

/// The name of the option for the size at which a block ends.
pub const BLOCK: &str = "block";

/// The name of the option for the size at which a table ends.
pub const TABLE_SIZE: &str = "table-size";

/// The name of the option for the size at which a part ends.
pub const PART_SIZE: &str = "part";

/// The name of the option for the restart interval.
pub const INTERVAL: &str = "interval";

/// The name of the option for the filter's bits for a key.
pub const BITS: &str = "bits";

/// The name of the option for a sequence number that is read at after a merge.
pub const SNAPSHOT: &str = "snapshot";

/// The name of the option for a hash function.
pub const HASH: &str = "hash";

/// The name of the flag for output as JSON.
pub const JSON: &str = "json";

/// The name of the flag for the order from the last entry to the first.
pub const REVERSE: &str = "reverse";

/// The name of the flag for keys and values as text.
pub const TEXT: &str = "text";

/// The name of the flag for a merge with no older table below it.
pub const BOTTOM: &str = "bottom";

/// The name of the flag for a merge after which only the newest versions are read.
pub const LATEST: &str = "latest";

/// The name of the flag for a file that may be replaced.
pub const FORCE: &str = "force";

/// Returns whether a command prints lines as it reads.
pub fn is_list(name: &str) -> bool {
    matches!(name, SCAN | BLOCKS | INDEX)
}

// The group of the words that say which reads may come after a merge.
const READS: &str = "reads";

// What a word is.
#[derive(Clone, Copy)]
enum Kind {
    // A word without a name, which has to be there.
    Plain,
    // Several of these.
    Several,
    // An option without a value.
    Flag,
    // The option for the file that is written, which has to be there.
    Out,
    // An option with a key.
    Key,
    // An option with a number of entries.
    Count,
    // An option with a number of bytes: see `sizes`.
    Size,
    // An option with a sequence number.
    SeqNo,
    // The same, which may be given several times.
    SeqNos,
    // An option with a restart interval.
    Interval,
    // An option with a number of bits.
    Bits,
    // An option with a hash function.
    Hash,
}

// A word of a command: its name, what it is, and its help.
type Word = (&'static str, Kind, &'static str);

// A command: its name, its help, its words, and what is said after them.
type Rules = (&'static str, &'static str, &'static [Word], &'static str);

const TABLE: Word = (FILE, Kind::Plain, "A table file");

const TABLE_HASH: Word = (
    HASH,
    Kind::Hash,
    "The hash function of the table; else what a header of it shows",
);

const READ_AT: Word = (
    AT,
    Kind::SeqNo,
    "Read at this sequence number: versions below it",
);

const TABLE_WORDS: [Word; 2] = [TABLE, TABLE_HASH];

const STAT_WORDS: [Word; 3] = [
    TABLE,
    TABLE_HASH,
    (JSON, Kind::Flag, "Print one line of JSON"),
];

const SCAN_WORDS: [Word; 11] = [
    TABLE,
    TABLE_HASH,
    (FROM, Kind::Key, "The first key"),
    (TO, Kind::Key, "The key at which to end, without it"),
    (PREFIX, Kind::Key, "The bytes that the keys begin with"),
    READ_AT,
    (LIMIT, Kind::Count, "At most this many entries"),
    (REVERSE, Kind::Flag, "From the last entry to the first"),
    (KEYS_ONLY, Kind::Flag, "Entries without their values"),
    (
        TEXT,
        Kind::Flag,
        "Keys and values as text where they are printable",
    ),
    (JSON, Kind::Flag, "A line of JSON for each entry"),
];

const GET_WORDS: [Word; 4] = [
    TABLE,
    TABLE_HASH,
    (KEY, Kind::Plain, "The user key, as text or as hex:DIGITS"),
    READ_AT,
];

const CHECK_WORDS: [Word; 2] = [(FILE, Kind::Several, "Table files"), TABLE_HASH];

const NEW_TABLE: Word = (OUT, Kind::Out, "The table file to write");

const REPLACED: Word = (FORCE, Kind::Flag, "Replace OUT where it is there");

const BLOCK_SIZE: Word = (
    BLOCK,
    Kind::Size,
    "The encoded bytes at which a block ends; else 4096, or twice the longest end key",
);

const RESTARTS: Word = (
    INTERVAL,
    Kind::Interval,
    "The entries of a restart interval, 1 to 255; else 16, or 255 for keys above 4096",
);

const FILTER_BITS: Word = (
    BITS,
    Kind::Bits,
    "The filter's bits for a key, 0 for no filter; else 10",
);

const PARTS: Word = (
    PART_SIZE,
    Kind::Size,
    "Write tables in parts, each of which ends at this many bytes of keys and values; 0 for \
    none",
);

const TABLES: Word = (
    TABLE_SIZE,
    Kind::Size,
    "Write several tables, each of which ends at this many bytes of encoded entries; their \
    numbers, from 1 on, are in OUT in the place of {}, or behind a dot at its end",
);

const PACK_WORDS: [Word; 8] = [
    NEW_TABLE,
    REPLACED,
    (
        HASH,
        Kind::Hash,
        "The hash function of the new table; else xxh3, as lsm-tree has",
    ),
    TABLES,
    PARTS,
    BLOCK_SIZE,
    RESTARTS,
    FILTER_BITS,
];

const MERGE_WORDS: [Word; 12] = [
    NEW_TABLE,
    (FILE, Kind::Several, "Table files, the newest first"),
    REPLACED,
    (
        HASH,
        Kind::Hash,
        "The hash function of the new table; else that of the tables",
    ),
    (
        SNAPSHOT,
        Kind::SeqNos,
        "Keep what reads at this number see, and reads above all that are given; else all versions",
    ),
    (
        LATEST,
        Kind::Flag,
        "Keep the newest version of each key alone",
    ),
    (
        BOTTOM,
        Kind::Flag,
        "Drop the tombstones that no read sees past: no older table is below",
    ),
    TABLES,
    PARTS,
    BLOCK_SIZE,
    RESTARTS,
    FILTER_BITS,
];

const SALVAGE_WORDS: [Word; 8] = [
    NEW_TABLE,
    TABLE,
    REPLACED,
    TABLE_HASH,
    PARTS,
    BLOCK_SIZE,
    RESTARTS,
    FILTER_BITS,
];

const COMMANDS: [Rules; 9] = [
    (STAT, "Prints what a table holds", &STAT_WORDS, ""),
    (SCAN, "Prints the entries of a table", &SCAN_WORDS, ""),
    (GET, "Prints the newest version of a key", &GET_WORDS, ""),
    (
        CHECK,
        "Checks tables whole",
        &CHECK_WORDS,
        "Each table is checked, also after one that fails. A filter is refused that has more than \
        1000 probes a key, and more probes for all entries than bits.",
    ),
    (
        BLOCKS,
        "Prints a line for each data block, also after one that is damaged",
        &TABLE_WORDS,
        "",
    ),
    (
        INDEX,
        "Prints a line for each data block that the index names, and reads none",
        &TABLE_WORDS,
        "",
    ),
    (
        MERGE,
        "Merges tables into one",
        &MERGE_WORDS,
        "OUT is put in place whole, or stays as it was. The status is 3 where no entry is left.",
    ),
    (
        PACK,
        "Packs the entries of standard input, one a line and in order, into a table",
        &PACK_WORDS,
        "A line is C S K V: the type (V, T, W or I), the sequence number, key and value in hex, - \
        for an empty one. OUT is put in place whole, or stays as it was.",
    ),
    (
        SALVAGE,
        "Writes what the whole blocks of a damaged table hold as a new one",
        &SALVAGE_WORDS,
        "Each block that is lost is named, and the status is 0 all the same; it is 3 where no block is whole.",
    ),
];

// The name of the value of an option.
fn value_name_of(kind: Kind) -> &'static str {
    match kind {
        Kind::Key => KEY,
        Kind::Size => "SIZE",
        Kind::SeqNo | Kind::SeqNos => "SEQNO",
        Kind::Hash => "HASH",
        _ => "N",
    }
}

// What the value of an option has to be.
fn parser_of(kind: Kind) -> ValueParser<'static> {
    match kind {
        Kind::Count | Kind::SeqNo | Kind::SeqNos => ValueParser::Unsigned(0, u64::MAX),
        Kind::Interval => ValueParser::Unsigned(1, u64::from(u8::MAX)),
        Kind::Bits => ValueParser::Unsigned(0, u64::from(u32::MAX)),
        Kind::Hash => ValueParser::Names(&NAMES),
        _ => ValueParser::String,
    }
}

// What is done with the values of an option.
fn action_of(kind: Kind) -> ArgAction {
    match kind {
        Kind::SeqNos => ArgAction::Append,
        _ => ArgAction::Set,
    }
}

// Makes a word.
fn arg_of<'a>(alloc: Global, word: &Word) -> Arg<'a> {
    let (name, kind, help) = *word;
    let arg = Arg::new(alloc, name).help(help);
    match kind {
        Kind::Plain => arg.required(true),
        Kind::Several => arg.required(true).num_args(1..),
        Kind::Flag => arg.long(name).action(ArgAction::SetTrue),
        Kind::Out => arg.short('o').long(name).value_name("OUT").required(true),
        _ => arg
            .long(name)
            .value_name(value_name_of(kind))
            .value_parser(parser_of(kind))
            .action(action_of(kind)),
    }
}

// The words that may not stand beside one of this name.
fn conflicts_of(name: &str) -> &'static [&'static str] {
    match name {
        PREFIX => &[FROM, TO],
        TEXT => &[JSON],
        _ => &[],
    }
}

// The groups that a word of this name is in.
fn groups_of(name: &str) -> &'static [&'static str] {
    match name {
        SNAPSHOT | LATEST => &[READS],
        _ => &[],
    }
}

// The groups of which a word of this name needs one.
fn needs_of(name: &str) -> &'static [&'static str] {
    match name {
        // (which tombstones are dropped depends on the reads that may come)
        BOTTOM => &[READS],
        _ => &[],
    }
}

// Makes a word, and says what it has to do with others: which of two there can be, and which needs
// another.
fn related<'a>(alloc: Global, word: &Word) -> Result<Arg<'a>, AllocError> {
    let name = word.0;
    arg_of(alloc, word)
        .conflicts_with_all(conflicts_of(name))?
        .groups(groups_of(name))?
        .requires_all(needs_of(name))
}

// Adds what was made.
fn push<T: Drop>(made: &mut Vec<T>, one: Result<T, AllocError>) -> Result<(), AllocError> {
    made.push(one?)?;
    Ok(())
}

// Makes words.
fn args_of<'a>(alloc: Global, words: &[Word]) -> Result<Vec<Arg<'a>>, AllocError> {
    let mut args = Vec::new(alloc);
    for word in words {
        push(&mut args, related(alloc, word))?;
    }
    Ok(args)
}

// Makes a command.
fn command_of<'a>(alloc: Global, rules: &Rules) -> Result<Command<'a>, AllocError> {
    let (name, help, words, after) = *rules;
    let args = args_of(alloc, words)?;
    Command::new(alloc, name)
        .about(help)
        .after_help(after)
        .args(args)
}

// Makes the commands.
fn commands_of<'a>(alloc: Global, all: &[Rules]) -> Result<Vec<Command<'a>>, AllocError> {
    let mut commands = Vec::new(alloc);
    for rules in all {
        push(&mut commands, command_of(alloc, rules))?;
    }
    Ok(commands)
}

// Makes the program, without its commands.
fn program<'a>(alloc: Global) -> Command<'a> {
    Command::new(alloc, "sstool")
        .version("0.1.0")
        .about("Shows, checks, scans and merges table files")
        .after_help(
            "The status is 1 after a line on standard error, and, with none, where the reader of the \
            output has gone; 2 after words that are refused. A SIZE is a number of bytes; K, M or G behind \
            it stands for 2^10, 2^20 or 2^30 of them.",
        )
        .subcommand_required(true)
        .arg_required_else_help(true)
}

/// Makes the command that parses the program's words.
///
/// # Errors
///
/// If an allocation fails.
pub fn command<'a>(alloc: Global) -> Result<Command<'a>, AllocError> {
    let commands = commands_of(alloc, &COMMANDS)?;
    program(alloc).subcommands(commands)
}
