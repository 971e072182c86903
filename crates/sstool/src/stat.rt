//! `stat`: what a table holds.
use crate::open::source_of;
use crate::parted::{check_parts, is_parted, open_parts, test_parts};
use clap::ArgMatches;
use sst_tool::fault::{Fault, Result, printed};
use sst_tool::hash::TableHash;
use sst_tool::observed::{Bits, Observed, ObservedParts, Seen};
use sst_tool::progress::Progress;
use sst_tool::show::{Hex, Shown};
use sst_tool::tidy::{Gaps, byte_len};
use sst_tool::whole::{check_whole, handles_of};
use sst_tool::words::{FILE, JSON};
use sstable_blocks::run::footer::FOOTER_LEN;
use sstable_blocks::{BlockHash, FileSource, FrameSource, RunHandles, RunSummary, SeekInput};
use std::alloc::Global;
use std::cell::Cell;
use std::io;
use std::io::Write;
use std::rt::{Clock, Files};

/// What a table has.
#[derive(Drop)]
struct Stat {
    hash: TableHash,
    // The number of parts, if it is in parts.
    parts: Option<usize>,
    summary: RunSummary,
    seen: Seen,
    file_len: u64,
    // The number of bytes that belong to no frame.
    unused: u64,
}

impl Stat {
    // The length of the footers in bytes: the file's, and one of each part.
    fn footers_len(&self) -> u64 {
        let footers = self.parts.unwrap_or(0).saturating_add(1);
        (footers as u64).saturating_mul(FOOTER_LEN as u64)
    }

    // The length of the frames of the data blocks in bytes: of all that is nothing else.
    fn blocks_len(&self) -> u64 {
        self.file_len
            .saturating_sub(self.seen.index_len)
            .saturating_sub(self.seen.filter_len)
            .saturating_sub(self.unused)
            .saturating_sub(self.footers_len())
    }

    // Prints what the table has, as lines or as JSON.
    fn print_as<O: Write>(&self, is_json: bool, output: &mut O) -> io::Result<()> {
        if is_json {
            self.print_json(output)
        } else {
            self.print(output)
        }
    }

    // Prints lines, each of a name and a value.
    fn print<O: Write>(&self, output: &mut O) -> io::Result<()> {
        self.print_entries(output)?;
        self.print_intervals(output)?;
        self.print_bits(output)?;
        self.print_bytes(output)
    }

    // Prints the lines of the intervals and of the buckets.
    fn print_intervals<O: Write>(&self, output: &mut O) -> io::Result<()> {
        let blocks = &self.seen.blocks;
        writeln!(
            output,
            "intervals  {} to {} in blocks, {} in the index\n\
            buckets    {}",
            blocks.least_interval,
            blocks.greatest_interval,
            self.seen.index_interval,
            blocks.buckets
        )
    }

    // Prints the lines of the bytes: those of the file, those in no block and the longest payload.
    fn print_bytes<O: Write>(&self, output: &mut O) -> io::Result<()> {
        writeln!(
            output,
            "bytes      {}: {} of blocks, {} of index, {} of filter, {} of footer\n\
            in none    {} bytes belong to no block\n\
            longest    {} bytes of payload",
            self.file_len,
            self.blocks_len(),
            self.seen.index_len,
            self.seen.filter_len,
            self.footers_len(),
            self.unused,
            self.seen.blocks.longest
        )
    }

    // Prints the lines of the hash function and of the entries.
    fn print_entries<O: Write>(&self, output: &mut O) -> io::Result<()> {
        let (summary, blocks) = (&self.summary, &self.seen.blocks);
        writeln!(output, "hash       {}", self.hash)?;
        if let Some(parts) = self.parts {
            writeln!(output, "parts      {parts}")?;
        }
        writeln!(
            output,
            "blocks     {}\n\
            entries    {}\n\
            tombstones {}\n\
            keys       {} to {}\n\
            seqnos     {} to {}\n\
            key size   {}\n\
            value size {}",
            summary.blocks,
            summary.entries,
            blocks.tombstones,
            Shown(summary.first_key.as_slice()),
            Shown(summary.last_key.as_slice()),
            summary.least_seqno,
            summary.greatest_seqno,
            blocks.keys,
            blocks.values
        )
    }

    // Prints the line of the filter.
    fn print_bits<O: Write>(&self, output: &mut O) -> io::Result<()> {
        match &self.seen.bits {
            Some(Bits { bits, set, probes }) => {
                let percent = set.saturating_mul(100).checked_div(*bits).unwrap_or(0);
                writeln!(
                    output,
                    "filter     {bits} bits, {set} set ({percent} %), {probes} probes a key"
                )
            }
            None => writeln!(output, "filter     none"),
        }
    }

    // Prints a line of JSON. Keys are in hex; where there is no filter, what is of it is null.
    fn print_json<O: Write>(&self, output: &mut O) -> io::Result<()> {
        self.print_entries_json(output)?;
        self.print_blocks_json(output)?;
        self.print_bits_json(output)?;
        self.print_bytes_json(output)
    }

    // Prints the last members of the line of JSON: those of the bytes.
    fn print_bytes_json<O: Write>(&self, output: &mut O) -> io::Result<()> {
        writeln!(
            output,
            ",\"buckets\":{},\"longest_payload\":{},\"index_bytes\":{},\"filter_bytes\":{},\
            \"unused_bytes\":{},\"bytes\":{}}}",
            self.seen.blocks.buckets,
            self.seen.blocks.longest,
            self.seen.index_len,
            self.seen.filter_len,
            self.unused,
            self.file_len
        )
    }

    // Prints the members of the line of JSON that are of the lengths of keys and values, and of the
    // intervals.
    fn print_blocks_json<O: Write>(&self, output: &mut O) -> io::Result<()> {
        let blocks = &self.seen.blocks;
        let (keys, values) = (&blocks.keys, &blocks.values);
        write!(
            output,
            ",\"tombstones\":{},\"key_bytes\":{},\"least_key_bytes\":{},\"greatest_key_bytes\":{},\
            \"value_bytes\":{},\"least_value_bytes\":{},\"greatest_value_bytes\":{},\
            \"least_interval\":{},\"greatest_interval\":{},\"index_interval\":{}",
            blocks.tombstones,
            keys.sum,
            keys.least,
            keys.greatest,
            values.sum,
            values.least,
            values.greatest,
            blocks.least_interval,
            blocks.greatest_interval,
            self.seen.index_interval
        )
    }

    // Prints the members of the line of JSON that are of the filter's bits.
    fn print_bits_json<O: Write>(&self, output: &mut O) -> io::Result<()> {
        let Some(Bits { bits, set, probes }) = &self.seen.bits else {
            return output.write_all(
                b",\"filter_bits\":null,\"filter_bits_set\":null,\"filter_probes\":null",
            );
        };
        write!(
            output,
            ",\"filter_bits\":{bits},\"filter_bits_set\":{set},\"filter_probes\":{probes}"
        )
    }

    // Prints the first members of the line of JSON: those of the entries.
    fn print_entries_json<O: Write>(&self, output: &mut O) -> io::Result<()> {
        let summary = &self.summary;
        write!(output, "{{\"hash\":\"{}\",\"parts\":", self.hash)?;
        match self.parts {
            Some(parts) => write!(output, "{parts}")?,
            None => output.write_all(b"null")?,
        }
        write!(
            output,
            ",\"blocks\":{},\"entries\":{},\"first_key\":\"{}\",\"last_key\":\"{}\",\
            \"least_seqno\":{},\"greatest_seqno\":{}",
            summary.blocks,
            summary.entries,
            Hex(summary.first_key.as_slice()),
            Hex(summary.last_key.as_slice()),
            summary.least_seqno,
            summary.greatest_seqno
        )
    }
}

// What was counted of a table that was checked whole: the number of parts, if it is in parts, and
// the number of their bytes that belong to no frame.
#[derive(Drop)]
struct Counted {
    parts: Option<usize>,
    summary: RunSummary,
    unused: u64,
}

// What a table has that was checked whole, and seen as it was.
fn stat_of<R>(
    progress: &Progress<'_, R>,
    hash: TableHash,
    handles: &RunHandles,
    seen: &Seen,
    counted: Counted,
) -> Result<Stat> {
    if seen.is_partial {
        return Err(Fault::Memory);
    }
    let file_len = progress.file_len();
    let gaps = Gaps::new(progress.block_end(), handles, file_len);
    Ok(Stat {
        hash,
        parts: counted.parts,
        summary: counted.summary,
        seen: *seen,
        file_len,
        unused: gaps.byte_len().saturating_add(counted.unused),
    })
}

// Checks a plain table of a file whole: what was counted, and what was seen.
fn count_plain<H: BlockHash, S: FrameSource + Drop, R: Clock + Eprint>(
    progress: &Progress<'_, R>,
    alloc: Global,
    file: &str,
    source: S,
    handles: &RunHandles,
) -> Result<(Counted, Seen)> {
    let mut source = Observed::<H, S>::new(source, *handles);
    match check_whole::<H, _, R>(progress, alloc, file, &mut source, handles) {
        Ok(summary) => {
            let counted = Counted {
                parts: None,
                summary,
                unused: 0,
            };
            Ok((counted, *source.seen()))
        }
        Err(fault) => Err(fault),
    }
}

// Checks a parted table of a file whole: what was counted, and what was seen.
fn count_parted<H: BlockHash, S: FrameSource + Drop, R: Clock + Eprint>(
    progress: &Progress<'_, R>,
    alloc: Global,
    file: &str,
    source: S,
    handles: &RunHandles,
) -> Result<(Counted, Seen)> {
    let mut source = source;
    let gaps = test_parts::<H, S, R>(progress, alloc, file, &mut source, handles)?;
    let seen = Cell::new(Seen::none());
    let source = ObservedParts::<H, S>::new(source, handles.index, &seen);
    let mut table = open_parts::<H, _, R>(progress, alloc, file, source, handles)?;
    match check_parts(progress, alloc, file, &mut table) {
        Ok(summary) => {
            let counted = Counted {
                parts: Some(summary.parts),
                summary: summary.whole,
                unused: byte_len(&gaps),
            };
            Ok((counted, seen.get()))
        }
        Err(fault) => Err(fault),
    }
}

// Checks a table of a file whole, plain or parted.
fn count_in<H: BlockHash, S: FrameSource + Drop, R: Clock + Eprint>(
    progress: &Progress<'_, R>,
    alloc: Global,
    file: &str,
    source: S,
    handles: &RunHandles,
) -> Result<(Counted, Seen)> {
    let mut source = source;
    if is_parted::<H, S, R>(progress, alloc, file, &mut source, handles)? {
        count_parted::<H, S, R>(progress, alloc, file, source, handles)
    } else {
        count_plain::<H, S, R>(progress, alloc, file, source, handles)
    }
}

// Checks a table of a file whole: what it has.
fn stat_in<H: BlockHash, S: FrameSource + Drop, R: Clock + Eprint>(
    progress: &Progress<'_, R>,
    alloc: Global,
    hash: TableHash,
    file: &str,
    source: S,
    handles: RunHandles,
) -> Result<Stat> {
    let counted = count_in::<H, S, R>(progress, alloc, file, source, &handles);
    progress.clear();
    match counted {
        Ok((counted, seen)) => stat_of(progress, hash, &handles, &seen, counted),
        Err(fault) => Err(fault),
    }
}

// Checks a table of a file whole, from its footer on: what it has.
fn read_in<H: BlockHash, F: SeekInput + Drop, R: Clock + Eprint>(
    progress: &Progress<'_, R>,
    alloc: Global,
    hash: TableHash,
    file: &str,
    source: FileSource<F>,
) -> Result<Stat> {
    let mut source = source;
    match handles_of(progress, alloc, file, &mut source) {
        Ok(handles) => stat_in::<H, _, R>(progress, alloc, hash, file, source, handles),
        Err(fault) => Err(fault),
    }
}

// Checks a table file whole: what it has.
fn read<H: BlockHash, R: Files + Clock + Eprint>(
    progress: &Progress<'_, R>,
    alloc: Global,
    hash: TableHash,
    file: &str,
) -> Result<Stat> {
    let source = source_of(progress, alloc, file)?;
    read_in::<H, _, R>(progress, alloc, hash, file, source)
}

/// Checks a table whole, and prints what it holds, as lines or as JSON.
///
/// # Errors
///
/// The first error of the check, with the file's name, and `Fault::Output`.
pub fn run<H: BlockHash, R: Files + Clock + Eprint, O: Write>(
    progress: &Progress<'_, R>,
    alloc: Global,
    hash: TableHash,
    words: &ArgMatches<'_>,
    output: &mut O,
) -> Result<()> {
    let file = words.get_str(FILE).unwrap_or("");
    match read::<H, R>(progress, alloc, hash, file) {
        Ok(stat) => printed(stat.print_as(words.get_flag(JSON), output)),
        Err(fault) => Err(fault),
    }
}
