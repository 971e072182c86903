//! Merging a newer source into a parted table, whose parts are copied where nothing else overlaps
//! them.
ghost use Rattle.std.specs.Prelude.{◌≡◌, ◌⊎◌, ◌<◌, ◌∷◌, [], IfErr, IfOk, IfSome, IsOkUnless};
ghost use Rattle.std.specs.Prelude.{List, OnOk, Some, length, slice_get};
ghost use Rattle.sst_sources.specs.Sources.{MayGive, MayMeet, MeetsNoMore};
ghost use Rattle.sst_parts.specs.PartMerges.{IsPartBytes, IsSameCopier, MergeFails, Merges};
ghost use Rattle.sst_parts.specs.PartMerges.{PartsFail, TakesLesser, WritesAll, WritesFail};
ghost use Rattle.sst_parts.specs.PartMerges.{decoded, goes_before, starts_behind};
ghost use Rattle.sst_parts.specs.Parts.{IsParted, IsStoredPart};
ghost use Rattle.sstable_blocks.specs.Blocks.{joined};
ghost use Rattle.sstable_blocks.specs.Prelude.{Entry, Handle};
ghost use Rattle.sstable_blocks.specs.Results.{Memory};
ghost use Rattle.sstable_blocks.specs.RunReading.{hashes};
ghost use Rattle.sstable_blocks.specs.Sources.{AsksExactly, AsksUpTo, KeepsSource};

use crate::block_filler::BlockFiller;
use crate::copier::PartCopier;
use crate::laws::{parted_parts_are_stored, stored_part_is_read};
use crate::scan_end::scan_of;
use crate::table::PartedTable;
use sst_sources::{Head, Source};
use sstable_blocks::run::{FrameSource, MemorySource, Scan};
use sstable_blocks::{
    AsEntry, BlockHash, Error, IndexBlock, InternalValue, KeyedBlockHandle, Output, Result, Slice,
};
use std::alloc::Global;
use std::ops::Bound;

// Whether an entry sorts strictly after the end of a part.
fn is_behind(end: &KeyedBlockHandle, entry: &InternalValue) -> bool
    ensures { result ≡ starts_behind end.now (entry.now ∷ []) }
{
    let key = entry.key();
    let by_key = end.end_key().as_slice().cmp(key.user_key().as_slice());
    by_key.then(key.seqno().cmp(&end.seqno())).is_lt()
}

// Whether what is left of a source begins strictly after the end of a part, or nothing is left.
fn begins_behind<I: Source<InternalValue>>(
    newer: &Head<InternalValue, I>,
    end: &KeyedBlockHandle,
) -> bool
    ensures { (xs : List Entry) → newer.now.list ≡ Some xs → result ≡ starts_behind end.now xs }
{
    match newer.peek() {
        None => true,
        Some(first) => is_behind(end, first),
    }
}

// Whether the first entry of a newer source comes before that of another, or is equal to it.
fn is_first<I: Source<InternalValue>, J: Source<InternalValue>>(
    newer: &Head<InternalValue, I>,
    part: &Head<InternalValue, J>,
) -> bool
    ensures { (xs ys : List Entry) → newer.now.list ≡ Some xs → part.now.list ≡ Some ys
        → result ≡ goes_before xs ys }
{
    match (newer.peek(), part.peek()) {
        (Some(x), Some(y)) => !y.view().compare(&x.view()).is_lt(),
        (Some(_), None) => false,
        (None, _) => false,
    }
}

// Takes the first of the entries left of a newer source and of a part, of equal ones that of the
// newer source, or returns `None` if none is left of the part.
fn take_lesser<I: Source<InternalValue>, J: Source<InternalValue>>(
    alloc: Global,
    newer: &mut Head<InternalValue, I>,
    part: &mut Head<InternalValue, J>,
) -> Result<Option<InternalValue>>
    ensures taken { IfOk result
        (TakesLesser newer.old newer.new part.old part.new) }
    ensures cause { IfErr result
        (λ e. MayGive J.may_fail part.old e ⊎ MayGive I.may_fail newer.old e) }
    ensures no_more { OnOk result
        (MeetsNoMore newer.old newer.new × MeetsNoMore part.old part.new) }
{
    if is_first(newer, part) {
        newer.take(alloc)
    } else {
        part.take(alloc)
    }
}

// Writes the entries of a newer source that come before the first one of a part, or are equal to
// it.
fn write_before<H: BlockHash, W: Output + Drop, I: Source<InternalValue>, J: Source<InternalValue>>(
    alloc: Global,
    newer: &mut Head<InternalValue, I>,
    part: &Head<InternalValue, J>,
    filler: BlockFiller<H, W>,
) -> Result<BlockFiller<H, W>>
    ensures merged { IfOk result (λ f. (ys : List Entry) → part.now.list ≡ Some ys
        → Merges (hashes H.hash64 H.hash128) filler f newer.old.list newer.new.list ys ys) }
    ensures same { IfOk result (IsSameCopier W.never_fails filler) }
    ensures cause { IfErr result (λ e. (ys : List Entry) → part.now.list ≡ Some ys
        → MergeFails W.never_fails I.may_fail (hashes H.hash64 H.hash128) newer.old filler ys e) }
    ensures no_more { OnOk result (MeetsNoMore newer.old newer.new) }
{
    let mut filler = filler;
    'next: while is_first(newer, part) {
        let Some(entry) = newer.take(alloc)? else {
            return Ok(filler);
        };
        filler = filler.push(entry)?;
    }
    Ok(filler)
}

// Writes the merge of a newer source with a part until the part is used up.
fn write_merge<H: BlockHash, W: Output + Drop, I: Source<InternalValue>, J: Source<InternalValue>>(
    alloc: Global,
    newer: &mut Head<InternalValue, I>,
    part: &mut Head<InternalValue, J>,
    filler: BlockFiller<H, W>,
) -> Result<BlockFiller<H, W>>
    ensures merged { IfOk result (λ f. (ys : List Entry) → part.old.list ≡ Some ys
        → Merges (hashes H.hash64 H.hash128) filler f newer.old.list newer.new.list ys []) }
    ensures same { IfOk result (IsSameCopier W.never_fails filler) }
    ensures cause { IfErr result (λ e. (ys : List Entry) → part.old.list ≡ Some ys
        → MayGive J.may_fail part.old e ⊎ MergeFails W.never_fails I.may_fail
        (hashes H.hash64 H.hash128) newer.old filler ys e) }
    ensures no_more { OnOk result (MeetsNoMore newer.old newer.new) }
{
    let mut filler = filler;
    'next: loop {
        let Some(entry) = take_lesser(alloc, newer, part)? else {
            return Ok(filler);
        };
        filler = filler.push(entry)?;
    }
}

// Writes what is left of a source.
fn write_left<H: BlockHash, W: Output + Drop, I: Source<InternalValue>>(
    alloc: Global,
    newer: &mut Head<InternalValue, I>,
    filler: BlockFiller<H, W>,
) -> Result<BlockFiller<H, W>>
    ensures written { IfOk result (λ f. (xs : List Entry) → newer.old.list ≡ Some xs
        → WritesAll (hashes H.hash64 H.hash128) filler f xs newer.new.list) }
    ensures same { IfOk result (IsSameCopier W.never_fails filler) }
    ensures cause { IfErr result (WritesFail W.never_fails I.may_fail (hashes H.hash64 H.hash128)
        newer.old filler) }
{
    let mut filler = filler;
    'next: loop {
        let Some(entry) = newer.take(alloc)? else {
            return Ok(filler);
        };
        filler = filler.push(entry)?;
    }
}

// Opens a part in memory, and holds its first entry.
fn open_head<'k, H: BlockHash>(
    alloc: Global,
    bytes: &Slice,
) -> Result<Head<InternalValue, Scan<'k, H, MemorySource>>>
    ensures opened { IfOk result (λ head. (part : List (List Entry)) (end : Handle)
        → IsPartBytes (hashes H.hash64 H.hash128) bytes.now part end
        → head.list ≡ Some (decoded (joined part))) }
    ensures sound { IfOk result (λ head. (part : List (List Entry)) (end : Handle)
        → IsPartBytes (hashes H.hash64 H.hash128) bytes.now part end
        → (e : Error) → MayMeet head e → ⊥) }
    ensures memory { IfErr result (λ e. (part : List (List Entry)) (end : Handle)
        → IsPartBytes (hashes H.hash64 H.hash128) bytes.now part end → e ≡ Memory) }
{
    let copy = bytes.clone()?;
    let scan = scan_of::<H>(alloc, copy, Bound::Unbounded, Bound::Unbounded)?;
    Head::new(alloc, scan)
}

// Merges a part that was opened in memory, of which these are the bytes.
fn merge_head<H: BlockHash, W: Output + Drop, I: Source<InternalValue>, J: Source<InternalValue>>(
    alloc: Global,
    bytes: &[u8],
    end: &KeyedBlockHandle,
    newer: &mut Head<InternalValue, I>,
    part: &mut Head<InternalValue, J>,
    filler: BlockFiller<H, W>,
) -> Result<BlockFiller<H, W>>
    ensures merged { IfOk result (λ f. (blocks : List (List Entry))
        → IsPartBytes (hashes H.hash64 H.hash128) bytes.now blocks end.now
        → part.old.list ≡ Some (decoded (joined blocks))
        → Merges (hashes H.hash64 H.hash128) filler f newer.old.list newer.new.list
        (joined blocks) []) }
    ensures same { IfOk result (IsSameCopier W.never_fails filler) }
    ensures cause { IfErr result (λ e. (blocks : List (List Entry))
        → IsPartBytes (hashes H.hash64 H.hash128) bytes.now blocks end.now
        → part.old.list ≡ Some (decoded (joined blocks))
        → MayGive J.may_fail part.old e ⊎ MergeFails W.never_fails I.may_fail
        (hashes H.hash64 H.hash128) newer.old filler (joined blocks) e) }
    ensures no_more { OnOk result (MeetsNoMore newer.old newer.new) }
{
    let filler = write_before(alloc, newer, part, filler)?;
    if begins_behind(newer, end) {
        filler.copy(bytes, end)
    } else {
        write_merge(alloc, newer, part, filler)
    }
}

// Merges a part that newer entries may overlap.
fn merge_opened<H: BlockHash, W: Output + Drop, I: Source<InternalValue>>(
    alloc: Global,
    bytes: &Slice,
    end: &KeyedBlockHandle,
    newer: &mut Head<InternalValue, I>,
    filler: BlockFiller<H, W>,
) -> Result<BlockFiller<H, W>>
    ensures merged { IfOk result (λ f. (part : List (List Entry))
        → IsPartBytes (hashes H.hash64 H.hash128) bytes.now part end.now
        → Merges (hashes H.hash64 H.hash128) filler f newer.old.list newer.new.list
        (joined part) []) }
    ensures same { IfOk result (IsSameCopier W.never_fails filler) }
    ensures cause { IfErr result (λ e. (part : List (List Entry))
        → IsPartBytes (hashes H.hash64 H.hash128) bytes.now part end.now
        → MergeFails W.never_fails I.may_fail (hashes H.hash64 H.hash128) newer.old filler
        (joined part) e) }
    ensures no_more { OnOk result (MeetsNoMore newer.old newer.new) }
{
    match open_head::<H>(alloc, bytes) {
        Ok(mut part) => merge_head(alloc, bytes.as_slice(), end, newer, &mut part, filler),
        Err(error) => Err(error),
    }
}

// Copies a part, or merges it with the entries of a newer source that do not sort after its end.
fn merge_bytes<H: BlockHash, W: Output + Drop, I: Source<InternalValue>>(
    alloc: Global,
    bytes: &Slice,
    end: &KeyedBlockHandle,
    newer: &mut Head<InternalValue, I>,
    filler: BlockFiller<H, W>,
) -> Result<BlockFiller<H, W>>
    ensures merged { IfOk result (λ f. (part : List (List Entry))
        → IsPartBytes (hashes H.hash64 H.hash128) bytes.now part end.now
        → Merges (hashes H.hash64 H.hash128) filler f newer.old.list newer.new.list
        (joined part) []) }
    ensures same { IfOk result (IsSameCopier W.never_fails filler) }
    ensures cause { IfErr result (λ e. (part : List (List Entry))
        → IsPartBytes (hashes H.hash64 H.hash128) bytes.now part end.now
        → MergeFails W.never_fails I.may_fail (hashes H.hash64 H.hash128) newer.old filler
        (joined part) e) }
    ensures no_more { OnOk result (MeetsNoMore newer.old newer.new) }
{
    let is_copied = begins_behind(newer, end);
    if is_copied {
        filler.copy(bytes.as_slice(), end)
    } else {
        merge_opened(alloc, bytes, end, newer, filler)
    }
}

// Reads the part at an index, and merges it.
fn merge_part<H: BlockHash, S: FrameSource, W: Output + Drop, I: Source<InternalValue>>(
    alloc: Global,
    base: &mut PartedTable<H, S>,
    index: usize,
    end: &KeyedBlockHandle,
    newer: &mut Head<InternalValue, I>,
    filler: BlockFiller<H, W>,
) -> Result<BlockFiller<H, W>>
    requires inside { slice_get base.old.tops index ≡ Some end.now }
    ensures kept { base.new ≡ record base.old { source = base.new.source } }
    ensures source { KeepsSource S.bytes S.failures S.is_reliable base.old.source
        base.new.source }
    ensures asks { AsksExactly 1 result (S.reads base.old.source) (S.reads base.new.source) }
    ensures merged { IfOk result (λ f. IfSome (S.bytes base.old.source) (λ all.
        (part : List (List Entry))
        → IsStoredPart (hashes H.hash64 H.hash128) all part end.now
        → Merges (hashes H.hash64 H.hash128) filler f newer.old.list newer.new.list
        (joined part) [])) }
    ensures same { IfOk result (IsSameCopier W.never_fails filler) }
    ensures cause { IfErr result (λ e. IfSome (S.bytes base.old.source) (λ all.
        (part : List (List Entry))
        → IsStoredPart (hashes H.hash64 H.hash128) all part end.now
        → PartsFail (S.failures base.old.source < S.failures base.new.source)
        (S.is_reliable base.old.source) W.never_fails I.may_fail (hashes H.hash64 H.hash128)
        newer.old filler (joined part) e)) }
    ensures no_more { OnOk result (MeetsNoMore newer.old newer.new) }
{
    stored_part_is_read();
    match base.part_at(alloc, index) {
        Ok(bytes) => merge_bytes(alloc, &bytes, end, newer, filler),
        Err(error) => Err(error),
    }
}

// The handles of an index.
fn handles_of(alloc: Global, index: &IndexBlock) -> Result<Vec<KeyedBlockHandle>>
    ensures ok { IfOk result (λ handles. handles.items ≡ index.now.items) }
    ensures memory { IsOkUnless result Error.Memory }
{
    let mut handles = Vec::new(alloc);
    for handle in index.handles() {
        handles.push(handle.to_handle(alloc)?)?;
    }
    Ok(handles)
}

// Merges the parts of a table, one after the other.
fn merge_each<H: BlockHash, S: FrameSource, W: Output + Drop, I: Source<InternalValue>>(
    alloc: Global,
    base: &mut PartedTable<H, S>,
    handles: &[KeyedBlockHandle],
    newer: &mut Head<InternalValue, I>,
    filler: BlockFiller<H, W>,
) -> Result<BlockFiller<H, W>>
    requires handles { handles.now ≡ base.old.tops }
    ensures kept { base.new ≡ record base.old { source = base.new.source } }
    ensures source { KeepsSource S.bytes S.failures S.is_reliable base.old.source
        base.new.source }
    ensures asks { AsksUpTo (length handles.now) result (S.reads base.old.source)
        (S.reads base.new.source) }
    ensures merged { IfOk result (λ f. IfSome (S.bytes base.old.source) (λ all.
        (parts : List (List (List Entry)))
        → IsParted (hashes H.hash64 H.hash128) parts all base.old.top
        → Merges (hashes H.hash64 H.hash128) filler f newer.old.list newer.new.list
        (joined (joined parts)) [])) }
    ensures same { IfOk result (IsSameCopier W.never_fails filler) }
    ensures cause { IfErr result (λ e. IfSome (S.bytes base.old.source) (λ all.
        (parts : List (List (List Entry)))
        → IsParted (hashes H.hash64 H.hash128) parts all base.old.top
        → PartsFail (S.failures base.old.source < S.failures base.new.source)
        (S.is_reliable base.old.source) W.never_fails I.may_fail (hashes H.hash64 H.hash128)
        newer.old filler (joined (joined parts)) e)) }
{
    parted_parts_are_stored();
    // The index is that of the bytes.
    let _index = base.index();
    let mut filler = filler;
    let mut index = 0usize;
    'parts: while index < handles.len() {
        filler = merge_part(alloc, base, index, &handles[index], newer, filler)?;
        index += 1;
    }
    Ok(filler)
}

// Merges the parts of these handles into a copier.
fn merge_all<H: BlockHash, S: FrameSource, W: Output + Drop, I: Source<InternalValue>>(
    alloc: Global,
    base: &mut PartedTable<H, S>,
    handles: &[KeyedBlockHandle],
    newer: &mut Head<InternalValue, I>,
    copier: PartCopier<H, W>,
    block_size: usize,
) -> Result<PartCopier<H, W>>
    requires handles { handles.now ≡ base.old.tops }
    ensures kept { base.new ≡ record base.old { source = base.new.source } }
    ensures source { KeepsSource S.bytes S.failures S.is_reliable base.old.source
        base.new.source }
    ensures asks { AsksUpTo (length handles.now) result (S.reads base.old.source)
        (S.reads base.new.source) }
    ensures merged { IfOk result (λ w. IfSome (S.bytes base.old.source) (λ all.
        (parts : List (List (List Entry)))
        → IsParted (hashes H.hash64 H.hash128) parts all base.old.top
        → Merges (hashes H.hash64 H.hash128) copier w newer.old.list newer.new.list
        (joined (joined parts)) [])) }
    ensures same { IfOk result (IsSameCopier W.never_fails copier) }
    ensures cause { IfErr result (λ e. IfSome (S.bytes base.old.source) (λ all.
        (parts : List (List (List Entry)))
        → IsParted (hashes H.hash64 H.hash128) parts all base.old.top
        → PartsFail (S.failures base.old.source < S.failures base.new.source)
        (S.is_reliable base.old.source) W.never_fails I.may_fail (hashes H.hash64 H.hash128)
        newer.old copier (joined (joined parts)) e)) }
{
    let filler = BlockFiller::new(alloc, copier, block_size);
    let filler = merge_each(alloc, base, handles, newer, filler)?;
    filler.finish()
}

/// Writes the merge of a parted table with a newer source into a copier: the parts of the table in
/// order, each with the entries of the source that do not sort after its end. Of equal versions,
/// those of the same key and sequence number, the source's come first. No version is left out: a
/// compaction that drops versions is run over the source that is written.
///
/// A part is read by one frame. It is copied as it is, and not decoded, where the source's next
/// entry sorts strictly after its end, or none is left: that is one comparison. Otherwise it is
/// opened in memory, and the source's entries up to its first entry are written. Where the next one
/// sorts after its end then, it is copied still; otherwise its entries are written with the
/// source's until it has none left. Entries are written in blocks, each of which ends with the
/// entry with which its keys and values reach `block_size` bytes, or before a part that is copied.
///
/// What sorts after the last part is left in the source, so that a next table can follow it, or
/// [`write_rest`].
///
/// # Errors
///
/// Those of [`PartedTable::part_at`] for the bytes of a part; for one that is decoded, those of
/// [`PartedScan::next_entry`](crate::PartedScan::next_entry); those of the source; those of
/// [`PartCopier::add_block`] and [`PartCopier::add_part`]. `Error::OutOfOrder` if what is written
/// is not in order. The copier is gone then, and the source may have lost entries.
pub fn merge_parts<H: BlockHash, S: FrameSource, W: Output + Drop, I: Source<InternalValue>>(
    alloc: Global,
    base: &mut PartedTable<H, S>,
    newer: &mut Head<InternalValue, I>,
    copier: PartCopier<H, W>,
    block_size: usize,
) -> Result<PartCopier<H, W>>
    ensures kept { base.new ≡ record base.old { source = base.new.source } }
    ensures source { KeepsSource S.bytes S.failures S.is_reliable base.old.source
        base.new.source }
    ensures asks { AsksUpTo (length base.old.tops) result (S.reads base.old.source)
        (S.reads base.new.source) }
    ensures merged { IfOk result (λ w. IfSome (S.bytes base.old.source) (λ all.
        (parts : List (List (List Entry)))
        → IsParted (hashes H.hash64 H.hash128) parts all base.old.top
        → Merges (hashes H.hash64 H.hash128) copier w newer.old.list newer.new.list
        (joined (joined parts)) [])) }
    ensures same { IfOk result (IsSameCopier W.never_fails copier) }
    ensures cause { IfErr result (λ e. IfSome (S.bytes base.old.source) (λ all.
        (parts : List (List (List Entry)))
        → IsParted (hashes H.hash64 H.hash128) parts all base.old.top
        → PartsFail (S.failures base.old.source < S.failures base.new.source)
        (S.is_reliable base.old.source) W.never_fails I.may_fail (hashes H.hash64 H.hash128)
        newer.old copier (joined (joined parts)) e)) }
{
    match handles_of(alloc, base.index()) {
        Ok(handles) => merge_all(alloc, base, &handles, newer, copier, block_size),
        Err(error) => Err(error),
    }
}

/// Writes what is left of a source into a copier, in blocks of a size, as [`merge_parts`] does.
///
/// # Errors
///
/// Those of the source, and those of [`PartCopier::add_block`]; `Error::OutOfOrder` if what is
/// written is not in order. The copier is gone then.
pub fn write_rest<H: BlockHash, W: Output + Drop, I: Source<InternalValue>>(
    alloc: Global,
    newer: &mut Head<InternalValue, I>,
    copier: PartCopier<H, W>,
    block_size: usize,
) -> Result<PartCopier<H, W>>
    ensures written { IfOk result (λ w. (xs : List Entry) → newer.old.list ≡ Some xs
        → WritesAll (hashes H.hash64 H.hash128) copier w xs newer.new.list) }
    ensures same { IfOk result (IsSameCopier W.never_fails copier) }
    ensures cause { IfErr result (WritesFail W.never_fails I.may_fail (hashes H.hash64 H.hash128)
        newer.old copier) }
{
    let filler = BlockFiller::new(alloc, copier, block_size);
    let filler = write_left(alloc, newer, filler)?;
    filler.finish()
}
