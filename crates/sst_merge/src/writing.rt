//! Writing what is left of a source as tables.
ghost use Rattle.std.specs.Prelude.{◌≡◌, ◌+◌, ◌≤◌, ◌<◌, [], ◌⊎◌, ℕ, false, true};
ghost use Rattle.std.specs.Prelude.{length, map, IfErr, IfOk, OnOk, IfSome, IfNone};
ghost use Rattle.sstable_blocks.specs.Scans.{EndsBy};
ghost use Rattle.sst_sources.specs.Sources.{MayGive, MeetsNoMore};
ghost use Rattle.sstable_blocks.specs.TableKinds.{AddsBlock};
ghost use Rattle.sst_merge.specs.Tables.{IsApart, IsTableOf, MayNotAdd, MayNotWrite};
ghost use Rattle.sst_merge.specs.Tables.{TakesBlock, block_len, capped, entries_in};

use crate::block_len::{form_len, next_phase};
use sst_sources::{Head, Ranked, Source};
use sstable_blocks::{AsEntry, Error, Result, RunHandles, TableWriter};
use std::alloc::Global;

/// How large blocks and tables become, in bytes of entries as they are encoded: of a key that is
/// not the head of its restart interval only those count that the head's key has not, and pointers,
/// buckets, frames, index and filter are not counted. A block ends with the entry with which it
/// reaches its size, and a table with the first block with which it reaches its size and after
/// which another user key comes. Only the last table of a source and its last block may be smaller.
/// So no key has versions in two tables, and a table may be larger by all versions of one.
#[derive(Clone, Copy, Debug, PartialEq, Eq)]
pub struct Sizes {
    /// The size of a block.
    pub block: usize,
    /// The size of a table.
    pub table: usize,
}

// Takes entries until they reach a size, and at least one, if one is left. Returns their size.
#[tactic(auto, using(crate::specs::SizeLaws::len_none))]
fn fill_block<T: Ranked + AsEntry + Drop, I: Source<T>>(
    alloc: Global,
    source: &mut Head<T, I>,
    block: &mut Vec<T>,
    interval: u8,
    size: usize,
) -> Result<usize>
    requires empty { block.old.items ≡ [] }
    requires interval { 1 ≤ interval }
    ensures taken { OnOk result
        (TakesBlock T.entry interval size source.old block.new.items source.new) }
    ensures cause { IfErr result (MayGive I.may_fail source.old) }
    ensures len { IfOk result
        (λ len. len ≡ capped (block_len interval (map T.entry block.new.items))) }
{
    let mut len = 0usize;
    let mut phase = 0u8;
    while block.is_empty() || len < size {
        // (what a `?` passes on is copied)
        match source.take(alloc) {
            Ok(Some(entry)) => {
                len = len.saturating_add(form_len(block, &entry, phase, interval));
                block.push(entry)?;
            }
            Ok(None) => return Ok(len),
            Err(error) => return Err(error),
        }
        phase = next_phase(phase, interval);
    }
    Ok(len)
}

// Writes the next block of a table. Returns the table, and the size of the block.
fn add_block<K: TableWriter<T>, T: Ranked + AsEntry + Drop, I: Source<T>>(
    alloc: Global,
    source: &mut Head<T, I>,
    table: K,
    block: &mut Vec<T>,
    interval: u8,
    size: usize,
) -> Result<(K, usize)>
    requires accepts { K.accepts table }
    requires interval { interval ≡ (K.kind (K.so_far table).form).interval }
    requires some { 1 ≤ interval }
    ensures added { IfOk result
        (λ r. AddsBlock (K.so_far table) (K.so_far r.0) (map T.entry block.new.items)) }
    ensures goes_on { IfOk result
        (λ r. K.accepts r.0 × (K.is_reliable table → K.is_reliable r.0)) }
    ensures taken { OnOk result
        (TakesBlock T.entry interval size source.old block.new.items source.new) }
    ensures cause { IfErr result (MayNotAdd I.may_fail (K.is_reliable table → ⊥) T.entry
        (K.kind (K.so_far table).form) (K.so_far table).blocks size source.old
        block.new.items source.new) }
    ensures len { IfOk result
        (λ r. r.1 ≡ capped (block_len interval (map T.entry block.new.items))) }
{
    block.clear();
    let len = fill_block(alloc, source, block, interval, size)?;
    if !table.fits_after(block) {
        return Err(Error::OutOfOrder);
    }
    let table = table.with_block(block)?;
    Ok((table, len))
}

// Whether a table goes on: an entry is left, and the table has not reached its size, or that entry
// is of the last user key.
fn goes_on<T: Ranked + AsEntry + Drop, I: Source<T>>(
    source: &Head<T, I>,
    block: &[T],
    len: usize,
    size: usize,
) -> bool
    requires { 1 ≤ length block.now }
    ensures apart { result ≡ false
        → IfSome (entries_in T.entry source.now.list) (IsApart (map T.entry block.now)) }
    ensures reaches { result ≡ false
        → (size ≤ len) ⊎ IfSome (entries_in T.entry source.now.list) (λ xs. xs ≡ []) }
    ensures some { result ≡ true → IfSome source.now.list (λ xs. 1 ≤ length xs) }
    ensures goes_on { (total : ℕ) → len ≡ capped total → result ≡ true
        → IfSome (entries_in T.entry source.now.list)
        (λ rest. IsApart (map T.entry block.now) rest → total < size) }
{
    match (source.peek(), block.last()) {
        (Some(next), Some(last)) => {
            len < size || last.view().compare_user_key(&next.view()).is_eq()
        }
        (None, _) => false,
        (Some(_), None) => false,
    }
}

// Writes the next table of a source that no error ended.
fn next_table<K: TableWriter<T>, T: Ranked + AsEntry + Drop, I: Source<T>>(
    alloc: Global,
    source: &mut Head<T, I>,
    writer: K::Writer,
    form: K::Form,
    sizes: Sizes,
) -> Result<(Option<RunHandles>, K::Writer)>
    requires writable { K.writable form }
    ensures table { IfOk result (λ r. IfSome r.0 (λ handles. IsTableOf (K.kind form) sizes
        (K.Writer.contents writer) (K.Writer.contents r.1) handles
        (entries_in T.entry source.old.list) (entries_in T.entry source.new.list))) }
    ensures most { IfOk result (λ r. IfSome r.0 (λ _. source.new.most < source.old.most)) }
    ensures done { IfOk result (λ r. IfNone r.0 (IfSome source.old.list (λ xs. xs ≡ []))) }
    ensures unwritten { IfOk result (λ r. IfNone r.0 (r.1 ≡ writer)) }
    ensures ended { OnOk result (source.new.ended ≡ source.old.ended) }
    ensures cause { IfErr result (MayNotWrite I.may_fail (K.Writer.never_fails writer → ⊥) T.entry
        (K.kind form) sizes.block source.old) }
    ensures no_more { OnOk result (MeetsNoMore source.old source.new) }
{
    if source.peek().is_none() {
        return Ok((None, writer));
    }
    let interval = K::restart_interval(&form);
    let begun = K::begin(alloc, writer, form);
    let mut block = Vec::new(alloc);
    let (mut table, mut len) = add_block(alloc, source, begun, &mut block, interval, sizes.block)?;
    while goes_on(source, &block, len, sizes.table) {
        let (more, added) = add_block(alloc, source, table, &mut block, interval, sizes.block)?;
        table = more;
        len = len.saturating_add(added);
    }
    let (handles, writer) = table.finish()?;
    Ok((Some(handles), writer))
}

/// Writes the next table of a source: entries in blocks, up to a size, by a [`TableWriter`], such
/// as `RunWriter`. Returns its handles, or `None` where nothing is left, and the writer, which is
/// as it was then. Memory is taken for one block, and what the `TableWriter` keeps.
///
/// # Errors
///
/// Those of the source and of the `TableWriter`; `Error::OutOfOrder` if the source is not in order.
/// Each of them ends the source, since entries were taken of it that are in no table: each later
/// step returns the error again.
pub fn write_table<K: TableWriter<T>, T: Ranked + AsEntry + Drop, I: Source<T>>(
    alloc: Global,
    source: &mut Head<T, I>,
    writer: K::Writer,
    form: K::Form,
    sizes: Sizes,
) -> Result<(Option<RunHandles>, K::Writer)>
    requires writable { K.writable form }
    ensures table { IfOk result (λ r. IfSome r.0 (λ handles. IsTableOf (K.kind form) sizes
        (K.Writer.contents writer) (K.Writer.contents r.1) handles
        (entries_in T.entry source.old.list) (entries_in T.entry source.new.list))) }
    ensures most { IfOk result (λ r. IfSome r.0 (λ _. source.new.most < source.old.most)) }
    ensures done { IfOk result (λ r. IfNone r.0 (IfSome source.old.list (λ xs. xs ≡ []))) }
    ensures unwritten { IfOk result (λ r. IfNone r.0 (r.1 ≡ writer)) }
    ensures ended { EndsBy source.old.ended source.new.ended result }
    ensures cause { IfErr result (MayNotWrite I.may_fail (K.Writer.never_fails writer → ⊥) T.entry
        (K.kind form) sizes.block source.old) }
    ensures no_more { OnOk result (MeetsNoMore source.old source.new) }
{
    if let Some(error) = source.end() {
        return Err(error);
    }
    match next_table::<K, T, I>(alloc, source, writer, form, sizes) {
        Ok(table) => Ok(table),
        Err(error) => Err(source.end_with(&error)),
    }
}
