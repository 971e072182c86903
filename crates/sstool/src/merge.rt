//! `merge`: several tables as one.
ghost use Rattle.std.specs.Prelude.{◌≡◌, [], Some, OnOk};
ghost use Rattle.std.specs.Option.{option_map};
ghost use Rattle.sst_merge.specs.Outputs.{AreWritten};
ghost use Rattle.sstool.specs.Merged.{kind_of, staying_of};
ghost use Rattle.sstable_blocks.specs.Run.{form, IsWritable};

use crate::merged::{Files, Notes, Tables, Written, heads_of};
use clap::ArgMatches;
use sst_merge::{Compact, Head, Merge, Outputs, Sizes, Source, write_tables};
use sst_parts::{PartForm, PartSizes, PartWriter};
use sst_tool::fault::{Fault, Result};
use sst_tool::hash::{TableHash, hash_in};
use sst_tool::long_keys::LongestKey;
use sst_tool::new_tables::{Names, NewTables};
use sst_tool::progress::Progress;
use sst_tool::show::Counted;
use sst_tool::sizes::size_in;
use sst_tool::words::{
    BITS, BLOCK, BOTTOM, FILE, INTERVAL, LATEST, OUT, PART_SIZE, SNAPSHOT, TABLE_SIZE,
};
use sstable_blocks::{
    BlockHash, Error, HashRatio, InternalValue, LockFiles, Poly31, RunConfig, RunWriter, SeqNo,
    TableWriter, Xxh3,
};
use std::alloc::Global;
use std::io;
use std::io::Write;
use std::rt::Clock;

// The filter bits a key, unless words say otherwise.
const DEFAULT_BITS: u32 = 10;

// There is no hash index.
const NO_BUCKETS: HashRatio = HashRatio { num: 0, den: 1 };

/// How tables are written.
#[derive(Clone, Copy)]
pub struct TableForm {
    /// How a run is encoded.
    pub config: RunConfig,
    /// Where a block and a table end.
    pub sizes: Sizes,
    /// The bytes of keys and values at which a part ends; 0 for tables without parts.
    pub part_size: u64,
}

impl TableForm {
    /// Takes the form from the words. With no size of a table it ends when all is written; with
    /// none of a block and no interval they are those that are fit for the longest key.
    pub fn of_words(words: &ArgMatches<'_>, longest: &LongestKey) -> TableForm
        ensures { IsWritable result.config }
    {
        let interval = words.get_one::<u8>(INTERVAL).unwrap_or(longest.interval());
        let bits = words.get_one::<u32>(BITS).unwrap_or(DEFAULT_BITS);
        let block = size_in(words, BLOCK).unwrap_or(longest.block_size());
        let table = size_in(words, TABLE_SIZE).unwrap_or(u64::MAX);
        TableForm {
            config: RunConfig::new(interval.max(1), NO_BUCKETS, bits),
            sizes: Sizes {
                block: block as usize,
                table: table as usize,
            },
            part_size: size_in(words, PART_SIZE).unwrap_or(0),
        }
    }

    // How tables in parts are written.
    fn parted(&self) -> PartForm
        ensures { result ≡ record {
          config = self.now.config;
          sizes = record { blocks = 0; bytes = self.now.part_size };
        } }
    {
        PartForm {
            config: self.config,
            sizes: PartSizes {
                blocks: 0,
                bytes: self.part_size,
            },
        }
    }
}

// Which reads may come after a merge.
#[derive(Drop)]
struct Reads {
    // The sequence numbers that are read at, beside those at or above all of them: all versions
    // stay where there are none.
    snapshots: Vec<SeqNo>,
    // Whether no older table is below.
    is_bottom: bool,
}

// Adds the sequence numbers that are read at after a merge, as the words name them.
fn add_snapshots(words: &ArgMatches<'_>, snapshots: &mut Vec<SeqNo>) -> Result<()> {
    if words.get_flag(LATEST) {
        snapshots.push(SeqNo::MAX)?;
    }
    if let Some(numbers) = words.get_many::<u64>(SNAPSHOT) {
        for number in numbers {
            // (the parser of the words has refused what is no number)
            snapshots.push(number.unwrap_or(0))?;
        }
    }
    Ok(())
}

// Which reads may come after a merge, as the words say.
fn reads_of(alloc: Global, words: &ArgMatches<'_>) -> Result<Reads> {
    let mut snapshots = Vec::new(alloc);
    add_snapshots(words, &mut snapshots)?;
    Ok(Reads {
        snapshots,
        is_bottom: words.get_flag(BOTTOM),
    })
}

// Writes what is left of a source as tables of a kind.
fn write_source<
    K: TableWriter<InternalValue, Writer = O::Writer>,
    I: Source<InternalValue> + Drop,
    O: Outputs,
>(
    alloc: Global,
    source: I,
    form: K::Form,
    sizes: Sizes,
    tables: &mut O,
) -> sstable_blocks::Result<()>
    requires writable { K.writable form }
    ensures written { OnOk result (AreWritten (K.kind form) sizes O.start (I.left source).list
        (option_map (λ _. []) (I.left source).list) (O.tables tables.old) (O.tables tables.new)) }
{
    let mut head = Head::new(alloc, source)?;
    write_tables::<K, InternalValue, I, O>(alloc, &mut head, tables, form, sizes)
}

/// Writes what is left of a source as tables of a form: with parts, or without.
///
/// # Errors
///
/// Those of the source and of the tables.
pub fn write_as<H: BlockHash, I: Source<InternalValue> + Drop, O: Outputs>(
    alloc: Global,
    source: I,
    how: TableForm,
    tables: &mut O,
) -> sstable_blocks::Result<()>
    requires writable { IsWritable how.config }
    ensures written { OnOk result (AreWritten
        (kind_of (form H.hash64 H.hash128 how.config) how.part_size) how.sizes O.start
        (I.left source).list (option_map (λ _. []) (I.left source).list) (O.tables tables.old)
        (O.tables tables.new)) }
{
    let (config, sizes) = (how.config, how.sizes);
    if how.part_size == 0 {
        write_source::<RunWriter<H, O::Writer>, I, O>(alloc, source, config, sizes, tables)
    } else {
        let form = how.parted();
        write_source::<PartWriter<H, O::Writer>, I, O>(alloc, source, form, sizes, tables)
    }
}

// Merges tables, and writes what stays of them for the reads that may come.
fn write_merged<H: BlockHash, I: Source<InternalValue> + Drop, O: Outputs>(
    alloc: Global,
    heads: Vec<Head<InternalValue, I>>,
    reads: Reads,
    notes: &Notes,
    how: TableForm,
    tables: &mut O,
) -> sstable_blocks::Result<()>
    requires writable { IsWritable how.config }
    ensures written { OnOk result (AreWritten
        (kind_of (form H.hash64 H.hash128 how.config) how.part_size) how.sizes O.start
        (staying_of reads.snapshots.items reads.is_bottom heads.items)
        (option_map (λ _. []) (staying_of reads.snapshots.items reads.is_bottom heads.items))
        (O.tables tables.old) (O.tables tables.new)) }
{
    let merged = Merge::new(heads);
    let staying = Compact::new(merged, reads.snapshots, reads.is_bottom);
    let written = Written::new(staying, notes);
    write_as::<H, _, O>(alloc, written, how, tables)
}

// Merges tables of which the first entries were read, and writes what stays of them.
fn write_heads<N: BlockHash, I: Source<InternalValue> + Drop, R: LockFiles>(
    alloc: Global,
    words: &ArgMatches<'_>,
    notes: &Notes,
    heads: Result<Vec<Head<InternalValue, I>>>,
    written: &mut NewTables<'_, '_, '_, R>,
) -> Result<sstable_blocks::Result<()>> {
    let heads = heads?;
    match reads_of(alloc, words) {
        Ok(reads) => {
            let how = TableForm::of_words(words, &notes.longest);
            Ok(write_merged::<N, I, _>(alloc, heads, reads, notes, how, written))
        }
        Err(fault) => Err(fault),
    }
}

// Merges tables, and writes what stays of them.
fn write_staying<T: Tables, N: BlockHash, R: LockFiles>(
    tables: &T,
    alloc: Global,
    words: &ArgMatches<'_>,
    notes: &Notes,
    written: &mut NewTables<'_, '_, '_, R>,
) -> Result<sstable_blocks::Result<()>> {
    let heads = heads_of(tables, alloc, words.get_strs(FILE).unwrap_or(&[]));
    write_heads::<N, T::Entries, R>(alloc, words, notes, heads, written)
}

// The fault of a merge: that of the table of which a read failed, or else of the new tables.
fn fault_of<T: Tables, R: LockFiles>(
    tables: &T,
    alloc: Global,
    words: &ArgMatches<'_>,
    notes: &Notes,
    written: &mut NewTables<'_, '_, '_, R>,
    error: Error,
) -> Fault {
    let files = words.get_strs(FILE).unwrap_or(&[]);
    match files.get(notes.failed.get().unwrap_or(files.len())) {
        Some(file) => tables.fault(alloc, file, error),
        None => written.fault(error),
    }
}

// Merges tables into new ones that hash by `N`.
fn fill<T: Tables, N: BlockHash, R: LockFiles>(
    tables: &T,
    alloc: Global,
    words: &ArgMatches<'_>,
    notes: &Notes,
    written: &mut NewTables<'_, '_, '_, R>,
) -> Result<()> {
    match write_staying::<T, N, R>(tables, alloc, words, notes, written)? {
        Ok(()) if written.count() == 0 => Err(Fault::NoEntries),
        Ok(()) => Ok(()),
        Err(error) => Err(fault_of(tables, alloc, words, notes, written, error)),
    }
}

// Merges the tables of files that hash by `H` into new ones that hash by `N`.
fn fill_from<'p, H: BlockHash, N: BlockHash, R: LockFiles + Clock + Eprint>(
    progress: &'p Progress<'p, R>,
    alloc: Global,
    words: &ArgMatches<'_>,
    notes: &'p Notes,
    written: &mut NewTables<'_, '_, '_, R>,
) -> Result<()> {
    let tables = Files::<H, R>::new(progress, notes);
    fill::<_, N, R>(&tables, alloc, words, notes, written)
}

// Merges tables that hash by `H` into new ones that hash by `N`, and puts these in place. Returns
// how many.
fn fill_tables<'p, H: BlockHash, N: BlockHash, R: LockFiles + Clock + Eprint>(
    progress: &'p Progress<'p, R>,
    alloc: Global,
    words: &ArgMatches<'_>,
    notes: &'p Notes,
    written: NewTables<'_, '_, '_, R>,
) -> Result<usize> {
    let mut written = written;
    let filled = fill_from::<H, N, R>(progress, alloc, words, notes, &mut written);
    progress.clear();
    let count = written.count();
    match written.end(filled) {
        Ok(()) => Ok(count),
        Err(fault) => Err(fault),
    }
}

// Merges tables that hash by `H` into new ones that hash by `N`. Returns how many.
fn merge_into<'p, H: BlockHash, N: BlockHash, R: LockFiles + Clock + Eprint>(
    progress: &'p Progress<'p, R>,
    alloc: Global,
    words: &ArgMatches<'_>,
    notes: &'p Notes,
) -> Result<usize> {
    match NewTables::new(progress.rt(), alloc, words, &notes.cause) {
        Ok(written) => fill_tables::<H, N, R>(progress, alloc, words, notes, written),
        Err(fault) => Err(fault),
    }
}

/// Merges tables, the newest first, into one, or with `--table-size` into several of this size,
/// which are put under their names when all are whole; with `--part` each in parts. With
/// `--snapshot`, which may be given several times, only versions stay that a read at one of these
/// sequence numbers, or at or above all of them, sees, with `--latest` of each key the newest; with
/// `--bottom` no tombstones of these that hide nothing; with `--hash` the new tables have this hash
/// function; `--block`, `--interval` and `--bits` say how they are cut and encoded.
///
/// # Errors
///
/// Those of the new files, of the files that are merged and of a block that is reached;
/// `Fault::NoEntries` if no entry is left; `Fault::Written` if only the last line fails.
pub fn run<H: BlockHash, R: LockFiles + Clock + Eprint, O: Write>(
    progress: &Progress<'_, R>,
    alloc: Global,
    words: &ArgMatches<'_>,
    output: &mut O,
) -> Result<()> {
    let notes = Notes::new();
    let count = match hash_in(words) {
        None => merge_into::<H, H, R>(progress, alloc, words, &notes)?,
        Some(TableHash::Poly31) => merge_into::<H, Poly31, R>(progress, alloc, words, &notes)?,
        Some(TableHash::Xxh3) => merge_into::<H, Xxh3, R>(progress, alloc, words, &notes)?,
    };
    match print_counts(words, &notes, count, output) {
        Ok(()) => Ok(()),
        Err(_) => Err(Fault::of_written(alloc, words.get_str(OUT).unwrap_or(""))),
    }
}

// Prints what was merged, into so many tables. It takes no memory: they are in place.
fn print_counts<O: Write>(
    words: &ArgMatches<'_>,
    notes: &Notes,
    count: usize,
    output: &mut O,
) -> io::Result<()> {
    let tables = Counted::tables(words.get_strs(FILE).unwrap_or(&[]).len() as u64);
    let (read, written) = (notes.read.get(), notes.written.get());
    let dropped = read.saturating_sub(written);
    let names = Names::of_words(words).up_to(count);
    writeln!(
        output,
        "merged {tables} into {names}: {} read, {written} written, {dropped} dropped",
        Counted::entries(read)
    )?;
    output.flush()
}
