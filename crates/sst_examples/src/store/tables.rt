//! The tables: written into memory, opened, and scanned.
ghost use Rattle.std.specs.Prelude.{◌≡◌, List, [], Some, map, IfOk, OnOk, OnErr, IsSome};
ghost use Rattle.std.specs.Option.{option_map};
ghost use Rattle.sst_examples.specs.Tables.{HoldsEntries, IsWrittenAs, merged_tables, table_entries};
ghost use Rattle.sst_examples.specs.Tables.{table_hashes};
ghost use Rattle.sst_sources.specs.Sources.{before};
ghost use Rattle.sst_merge.specs.Tables.{entries_in};
ghost use Rattle.sst_parts.specs.AnyScans.{ref_left};
ghost use Rattle.sst_parts.specs.PartWriting.{IsPartedFile};
ghost use Rattle.sstable_blocks.specs.Blocks.{joined};
ghost use Rattle.sstable_blocks.specs.Prelude.{Entry, plain};
ghost use Rattle.sstable_blocks.specs.Run.{IsWritable};
ghost use Rattle.sstable_blocks.specs.Sound.{IsSound};

use crate::store::laws::sound_table_is_known;
use sst_merge::{Head, Merge, Ranked, Sizes, Source, write_table};
use sst_parts::laws::{kind_is_told, parted_is_known, parted_layout_is_parted};
use sst_parts::{AnyRefScan, AnyTable, PartForm, PartSizes, PartWriter};
use sstable_blocks::run::encode_footer;
use sstable_blocks::run::laws::{accepted_run_is_sound, layout_is_sound, sound_is_scanned};
use sstable_blocks::{
    AsEntry, EntryView, Error, HashRatio, MemorySource, Result, RunConfig, RunHandles, RunWriter,
    Slice, TableWriter, Xxh3,
};
use std::alloc::Global;

/// A table in memory, of either kind.
pub type Stored = AnyTable<Xxh3, MemorySource>;

// Scans a table.
fn scan_of<'a>(table: &'a Stored) -> AnyRefScan<'a, 'a, Xxh3>
    requires { IsSome (table_entries table.now) }
    ensures { table_entries table.now ≡ Some (ref_left result) }
{
    accepted_run_is_sound();
    sound_is_scanned();
    parted_is_known();
    // The index is that of the bytes.
    let _index = table.index();
    table.trusted_scan()
}

// The merge of tables: of equal versions, those of the earlier table come first.
pub(crate) fn merge_of<'a>(
    alloc: Global,
    tables: &'a [Stored],
) -> Result<Merge<EntryView<'a>, AnyRefScan<'a, 'a, Xxh3>>>
    requires { IsSome (merged_tables tables.now) }
    ensures { IfOk result (λ merge. merge.list ≡ merged_tables tables.now) }
{
    let mut heads = Vec::new(alloc);
    for table in tables {
        heads.push(Head::new(alloc, scan_of(table))?)?;
    }
    Ok(Merge::new(heads))
}

// Opens a table over a sound run, or over a parted table, which its handles tell.
fn open_table(alloc: Global, bytes: Vec<u8>, handles: RunHandles) -> Result<Stored>
    ensures plain { (blocks : List (List Entry)) → IsSound table_hashes blocks bytes.items handles
        → IfOk result (λ table. table_entries table ≡ Some (map plain (joined blocks))) }
    ensures parted { (parts : List (List (List Entry)))
        → IsPartedFile table_hashes parts bytes.items handles.index
        → IfOk result (λ table. table_entries table ≡ Some (map plain (joined (joined parts)))) }
{
    sound_table_is_known();
    parted_is_known();
    kind_is_told();
    let bytes = Slice::from_vec(bytes)?;
    // Each cell is a byte.
    let _len = bytes.len();
    let table = AnyTable::open(alloc, MemorySource::new(bytes), handles)?;
    let _index = table.index();
    Ok(table)
}

// Writes all that is left of a source as one table of a kind into memory, if something is left.
fn write_as<K: TableWriter<T, Writer = Vec<u8>>, T: Ranked + AsEntry + Drop, I: Source<T> + Drop>(
    alloc: Global,
    source: I,
    form: K::Form,
) -> Result<Option<(RunHandles, Vec<u8>)>>
    requires { K.writable form }
    ensures { (items : List Entry) → entries_in T.entry (I.left source).list ≡ Some items
        → IfOk result (λ w. IsWrittenAs (K.kind form) items
        (option_map (λ r. (r.0, r.1.items)) w)) }
{
    let sizes = Sizes {
        block: 4096,
        table: usize::MAX,
    };
    let mut head = Head::new(alloc, source)?;
    let writer = Vec::new(alloc);
    let (written, bytes) = write_table::<K, T, I>(alloc, &mut head, writer, form, sizes)?;
    let Some(handles) = written else {
        return Ok(None);
    };
    if head.peek().is_some() {
        return Err(Error::TooLong);
    }
    Ok(Some((handles, bytes)))
}

// Writes all that is left of a source as one run, if something is left, and opens it.
fn plain_of<T: Ranked + AsEntry + Drop, I: Source<T> + Drop>(
    alloc: Global,
    source: I,
    config: RunConfig,
) -> Result<Option<Stored>>
    requires { IsWritable config }
    ensures { (items : List Entry) → entries_in T.entry (I.left source).list ≡ Some items
        → IfOk result (λ table. HoldsEntries table (map plain items)) }
{
    layout_is_sound();
    let written = write_as::<RunWriter<Xxh3, Vec<u8>>, T, I>(alloc, source, config)?;
    let Some((handles, bytes)) = written else {
        return Ok(None);
    };
    Ok(Some(open_table(alloc, bytes, handles)?))
}

// The same as a parted table.
fn parted_of<T: Ranked + AsEntry + Drop, I: Source<T> + Drop>(
    alloc: Global,
    source: I,
    form: PartForm,
) -> Result<Option<Stored>>
    requires { IsWritable form.config }
    ensures { (items : List Entry) → entries_in T.entry (I.left source).list ≡ Some items
        → IfOk result (λ table. HoldsEntries table (map plain items)) }
{
    parted_layout_is_parted();
    let written = write_as::<PartWriter<Xxh3, Vec<u8>>, T, I>(alloc, source, form)?;
    let Some((handles, mut bytes)) = written else {
        return Ok(None);
    };
    bytes.extend_from_slice(&encode_footer(&handles))?;
    Ok(Some(open_table(alloc, bytes, handles)?))
}

// Writes all that is left of a source as one table, if something is left: in parts where their
// sizes are given.
pub(crate) fn table_of<T: Ranked + AsEntry + Drop, I: Source<T> + Drop>(
    alloc: Global,
    source: I,
    parts: Option<PartSizes>,
) -> Result<Option<Stored>>
    ensures { (items : List Entry) → entries_in T.entry (I.left source).list ≡ Some items
        → IfOk result (λ table. HoldsEntries table (map plain items)) }
{
    let config = RunConfig::new(16, HashRatio { num: 1, den: 1 }, 10);
    match parts {
        None => plain_of(alloc, source, config),
        Some(sizes) => parted_of(alloc, source, PartForm { config, sizes }),
    }
}

// Adds a table before others, if there is one.
pub(crate) fn add_table(tables: &mut Vec<Stored>, table: Option<Stored>) -> Result<()>
    ensures ok { OnOk result (tables.new.items ≡ before table tables.old.items) }
    ensures err { OnErr result (tables.new.items ≡ tables.old.items) }
{
    if let Some(table) = table {
        tables.insert(0, table)?;
    }
    Ok(())
}
