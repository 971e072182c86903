//! Compacting what is left of a source into tables.
ghost use Rattle.std.specs.Prelude.{◌≡◌, ◌⊎◌, [], Some, IfErr, OnOk};
ghost use Rattle.std.specs.Option.{option_map};
ghost use Rattle.sst_merge.specs.Compact.{compacted};
ghost use Rattle.sst_merge.specs.Outputs.{AreWritten, MayFail, MayNotWriteAll};
ghost use Rattle.sst_sources.specs.Sources.{MayGive};
ghost use Rattle.sst_merge.specs.Tables.{entries_in};
ghost use Rattle.sstable_blocks.specs.Scans.{EndsBy};

use crate::bottom::Bottom;
use crate::compact::Compact;
use crate::kept_key::KeepsKey;
use crate::output::Outputs;
use crate::writing::{Sizes, write_table};
use sst_sources::{Head, Ranked, Source};
use sstable_blocks::{AsEntry, Result, SeqNo, TableWriter};
use std::alloc::Global;

// Writes all that is left of a source as tables, where no error ended it.
fn all_tables<
    K: TableWriter<T, Writer = O::Writer>,
    T: Ranked + AsEntry + Drop,
    I: Source<T>,
    O: Outputs,
>(
    alloc: Global,
    source: &mut Head<T, I>,
    outputs: &mut O,
    form: K::Form,
    sizes: Sizes,
) -> Result<()>
    requires writable { K.writable form }
    ensures written { OnOk result
        (AreWritten (K.kind form) sizes O.start
        (entries_in T.entry source.old.list) (option_map (λ _. []) source.old.list)
        (O.tables outputs.old) (O.tables outputs.new)) }
    ensures ended { OnOk result (source.new.ended ≡ source.old.ended) }
    ensures cause { IfErr result (λ e. MayGive I.may_fail source.old e
        ⊎ MayNotWriteAll O.may_fail (MayFail O.Writer.never_fails) (K.kind form) sizes.block
        (entries_in T.entry source.old.list) e) }
{
    while source.peek().is_some() {
        let writer = outputs.open()?;
        let (table, writer) = write_table::<K, T, I>(alloc, source, writer, form, sizes)?;
        let Some(handles) = table else {
            return Ok(());
        };
        outputs.close(handles, writer)?;
    }
    Ok(())
}

/// Writes all that is left of a source as tables.
///
/// # Errors
///
/// Those of the source, of the outputs and of [`write_table`]. The tables closed before stay. Each
/// of them ends the source, since entries may have been taken of it that are in no table: each
/// later step returns the error again.
pub fn write_tables<
    K: TableWriter<T, Writer = O::Writer>,
    T: Ranked + AsEntry + Drop,
    I: Source<T>,
    O: Outputs,
>(
    alloc: Global,
    source: &mut Head<T, I>,
    outputs: &mut O,
    form: K::Form,
    sizes: Sizes,
) -> Result<()>
    requires writable { K.writable form }
    ensures written { OnOk result
        (AreWritten (K.kind form) sizes O.start
        (entries_in T.entry source.old.list) (option_map (λ _. []) source.old.list)
        (O.tables outputs.old) (O.tables outputs.new)) }
    ensures ended { EndsBy source.old.ended source.new.ended result }
    ensures cause { IfErr result (λ e. MayGive I.may_fail source.old e
        ⊎ MayNotWriteAll O.may_fail (MayFail O.Writer.never_fails) (K.kind form) sizes.block
        (entries_in T.entry source.old.list) e) }
{
    if let Some(error) = source.end() {
        return Err(error);
    }
    match all_tables::<K, T, I, O>(alloc, source, outputs, form, sizes) {
        Ok(()) => Ok(()),
        Err(error) => Err(source.end_with(&error)),
    }
}

/// Compacts what is left of a source, which is in order: writes as tables the versions that a read
/// at one of some snapshots, or at or above all of them, can see. `bottom` says of which keys no
/// older version is elsewhere; their tombstones may go too. See [`Compact`].
///
/// What such a read sees of the tables is what it sees of the source, also together with newer and
/// older lists (the laws `compaction_keeps_reads` and `levels_keep_reads`).
///
/// # Errors
///
/// Those of the source, of the outputs and of [`write_table`]. The tables closed before stay.
pub fn compact_tables<
    K: TableWriter<T, Writer = O::Writer>,
    T: Ranked + KeepsKey + Drop,
    I: Source<T> + Drop,
    B: Bottom + Drop,
    O: Outputs,
>(
    alloc: Global,
    source: I,
    snapshots: Vec<SeqNo>,
    bottom: B,
    outputs: &mut O,
    form: K::Form,
    sizes: Sizes,
) -> Result<()>
    requires writable { K.writable form }
    ensures written { OnOk result
        (AreWritten (K.kind form) sizes O.start
        (entries_in T.entry
        (option_map (compacted T.entry snapshots.items (B.at_bottom bottom)) (I.left source).list))
        (option_map (λ _. []) (I.left source).list) (O.tables outputs.old) (O.tables outputs.new)) }
    ensures cause { IfErr result (λ e. MayGive I.may_fail (I.left source) e
        ⊎ MayNotWriteAll O.may_fail (MayFail O.Writer.never_fails) (K.kind form) sizes.block
        (entries_in T.entry (option_map (compacted T.entry snapshots.items (B.at_bottom bottom))
        (I.left source).list)) e) }
{
    let compacted = Compact::new(source, snapshots, bottom);
    let mut head = Head::new(alloc, compacted)?;
    write_tables::<K, T, Compact<T, I, B>, O>(alloc, &mut head, outputs, form, sizes)
}
