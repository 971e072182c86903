// Tables in parts as an engine uses them: written, read, scanned, lent, cached, copied and merged.
// No program makes these calls.
ghost use Rattle.sst_parts.specs.CachedParts.{AreAdded};
ghost use Rattle.sstable_blocks.specs.Run.{IsWritable};

use crate::versions::{number_of, push, six_keys};
use sst_base::{
    BlockHandle, BlockHash, ByteSum, Error, HashRatio, InternalValue, Slice, Steps, ValueType,
};
use sst_block_core::KeyedBlockHandle;
use sst_parts::{
    BlockCache, CachedParted, PartCache, PartCopier, PartSizes, PartWriter, PartedRef, PartedTable,
    merge_parts, write_rest,
};
use sst_sources::Head;
use sstable_blocks::run::FrameSource;
use sstable_blocks::{MemorySource, Needle, RunConfig};
use std::alloc::Global;
use std::process::Abort;

// A table in memory.
type InMemory = PartedTable<ByteSum, MemorySource>;

// How blocks are written: two entries in an interval, a bucket and ten bits of a filter for each.
fn config() -> RunConfig
    ensures { IsWritable result }
{
    RunConfig::new(2, HashRatio { num: 1, den: 1 }, 10)
}

// Parts of so many blocks.
fn parts_of(blocks: usize) -> PartSizes {
    PartSizes { blocks, bytes: 0 }
}

// The versions 9 down to 1 of six keys, k1 to k11, in blocks of so many entries and parts of so many
// blocks; and the handle of the index of the parts.
fn written(rt: &impl Abort, alloc: Global, len: usize, blocks: usize) -> (BlockHandle, Slice) {
    let list = six_keys(rt, alloc);
    let sizes = parts_of(blocks);
    let mut writer = PartWriter::<ByteSum, Vec<u8>>::new(alloc, Vec::new(alloc), config(), sizes);
    for block in list.chunks(len.max(1)) {
        assert!(rt; writer.fits_after(block));
        writer = writer.add_block(block).expect(rt, "a block");
    }
    assert!(rt; writer.has_blocks());
    let (top, bytes) = writer.finish().expect(rt, "a table");
    (top, Slice::from_vec(bytes).expect(rt, "a slice"))
}

// Opens a table by its footer.
fn opened(rt: &impl Abort, alloc: Global, bytes: Slice) -> InMemory {
    match InMemory::open_file(alloc, MemorySource::new(bytes)) {
        Ok(table) => table,
        Err(_) => panic!(rt; "no table"),
    }
}

// The table of the versions of six keys.
fn table_of(rt: &impl Abort, alloc: Global, len: usize, blocks: usize) -> InMemory {
    let (_, bytes) = written(rt, alloc, len, blocks);
    opened(rt, alloc, bytes)
}

// The number of the version of a key below one.
fn got(rt: &impl Abort, alloc: Global, table: &mut InMemory, key: &[u8], seqno: u64) -> u64 {
    let found = table.get(alloc, key, seqno, &mut Steps::new());
    number_of(&found.expect(rt, "a read"))
}

// How many parts and entries a check of a table counts.
fn counted(rt: &impl Abort, alloc: Global, table: &mut InMemory) -> (usize, u64) {
    let summary = table.verify(alloc).expect(rt, "a sound table");
    (summary.parts, summary.whole.entries)
}

// Reads a table, checked and as it was checked.
fn check_reads(rt: &impl Abort, alloc: Global, table: &mut InMemory) {
    assert_eq!(rt; got(rt, alloc, table, b"k\x05", 4), 3);
    assert_eq!(rt; got(rt, alloc, table, b"k\x04", 4), 0);
    let summary = table.verify(alloc).expect(rt, "a sound table");
    assert_eq!(rt; (summary.parts, summary.whole.entries), (5, 54));
    let found = table.trusted().find(b"k\x0b", 9, &mut Steps::new());
    assert_eq!(rt; found.map_or(0, |view| view.seqno()), 8);
}

#[test]
fn a_table_in_parts_is_read(rt: HostRuntime) {
    check_reads(&rt, rt.alloc(), &mut table_of(&rt, rt.alloc(), 4, 3));
}

// Reads several keys of a table together.
fn check_many(rt: &impl Abort, alloc: Global, table: &mut InMemory) {
    let needles = [(b"k\x0b", 3), (b"k\x02", 9), (b"k\x01", 1), (b"k\x01", 20)].map(|(
        key,
        seqno,
    )| Needle { key, seqno });
    let found = table.get_many(alloc, &needles, &mut Steps::new());
    let found = found.expect(rt, "reads");
    assert_eq!(rt; found.len(), 4);
    for (found, wanted) in found.iter().zip([2u64, 0, 0, 9].iter()) {
        assert_eq!(rt; number_of(found), *wanted);
    }
}

#[test]
fn many_keys_of_a_table_are_read_together(rt: HostRuntime) {
    check_many(&rt, rt.alloc(), &mut table_of(&rt, rt.alloc(), 4, 3));
}

// Reads and scans a table that is lent.
fn check_lent(rt: &impl Abort, table: &PartedRef<'_, ByteSum>) {
    let found = table.find(b"k\x05", 4, &mut Steps::new());
    assert_eq!(rt; found.map_or(0, |view| view.seqno()), 3);
    let mut scan = table.scan();
    let first = scan.next().map_or(0, |view| view.seqno());
    let last = scan.next_back().map_or(0, |view| view.seqno());
    assert_eq!(rt; (first, last), (9, 1));
}

#[test]
fn a_table_is_lent(rt: HostRuntime) {
    let (top, bytes) = written(&rt, rt.alloc(), 4, 3);
    let checked = PartedRef::<ByteSum>::check(rt.alloc(), &bytes, &top);
    check_lent(&rt, &checked.expect(&rt, "a sound table").0);
}

// Whether a read of a key through caches gives the wrong version.
fn is_wrong<H: BlockHash, S: FrameSource>(
    rt: &impl Abort,
    alloc: Global,
    parts: &mut PartCache<H>,
    blocks: &mut BlockCache<H>,
    table: &mut CachedParted<H, S>,
    key: u8,
    seqno: u64,
) -> bool
    requires { AreAdded S.bytes parts.old blocks.old table.old.numbers table.old.table.source }
    ensures { AreAdded S.bytes parts.new blocks.new table.new.numbers table.new.table.source }
{
    let needle = [b'k', key];
    let newest = if key % 2 == 1 && key < 12 {
        seqno.min(10).saturating_sub(1)
    } else {
        0
    };
    match table.get(parts, blocks, alloc, &needle, seqno, &mut Steps::new()) {
        Ok(Some(entry)) => entry.key().seqno() != newest,
        Ok(None) => newest != 0,
        Err(_) => panic!(rt; "a read"),
    }
}

// How many reads of a table through caches give the wrong version.
fn count_wrong<H: BlockHash, S: FrameSource>(
    rt: &impl Abort,
    alloc: Global,
    parts: &mut PartCache<H>,
    blocks: &mut BlockCache<H>,
    table: &mut CachedParted<H, S>,
) -> u64
    requires { AreAdded S.bytes parts.old blocks.old table.old.numbers table.old.table.source }
{
    let mut wrong = 0u64;
    for key in 0u8..13 {
        for seqno in 0u64..12 {
            if is_wrong(rt, alloc, parts, blocks, table, key, seqno) {
                wrong = wrong.saturating_add(1);
            }
        }
    }
    wrong
}

// What caches of so many bytes count of a table in parts of three blocks: wrong reads, hits and
// misses of parts, hits and misses of blocks.
fn counts(rt: &impl Abort, alloc: Global, parts: u64, blocks: u64) -> (u64, u64, u64, u64, u64) {
    let (_, bytes) = written(rt, alloc, 4, 3);
    let mut parts = PartCache::<ByteSum>::new(alloc, parts).expect(rt, "a cache");
    let mut blocks = BlockCache::<ByteSum>::new(alloc, blocks).expect(rt, "a cache");
    let Ok(mut cached) = CachedParted::new(&mut parts, &mut blocks, opened(rt, alloc, bytes)) else {
        panic!(rt; "no number")
    };
    let wrong = count_wrong(rt, alloc, &mut parts, &mut blocks, &mut cached);
    (
        wrong,
        parts.hits(),
        parts.misses(),
        blocks.hits(),
        blocks.misses(),
    )
}

// Of 156 reads 142 lead to one of five parts, and 68 of these to one of 14 blocks: each is read once
// where all fit, and at each read where none does.
#[test]
fn cached_parts_are_read(rt: HostRuntime) {
    let alloc = rt.alloc();
    assert_eq!(rt; counts(&rt, alloc, 1 << 20, 1 << 20), (0, 137, 5, 54, 14));
    assert_eq!(rt; counts(&rt, alloc, 0, 1 << 20), (0, 0, 142, 54, 14));
    assert_eq!(rt; counts(&rt, alloc, 1 << 20, 0), (0, 137, 5, 0, 68));
}

// Begins a table of parts of one block each, into memory.
fn copier(alloc: Global) -> PartCopier<ByteSum, Vec<u8>> {
    PartCopier::new(alloc, Vec::new(alloc), config(), parts_of(1))
}

// Ends a table, and opens it.
fn finished(rt: &impl Abort, alloc: Global, copier: PartCopier<ByteSum, Vec<u8>>) -> InMemory {
    assert!(rt; copier.has_parts());
    let (_, bytes) = copier.finish().expect(rt, "a table");
    opened(rt, alloc, Slice::from_vec(bytes).expect(rt, "a slice"))
}

// A part of a table, and its handle.
fn part_of(
    alloc: Global,
    table: &mut InMemory,
    index: usize,
) -> sst_base::Result<(Slice, KeyedBlockHandle)> {
    if index >= table.index().len() {
        return Err(Error::BadHandle);
    }
    let part = table.part_at(alloc, index)?;
    match table.index().handles().nth(index) {
        Some(handle) => Ok((part, handle.to_handle(alloc)?)),
        None => Err(Error::BadHandle),
    }
}

// Begins a table with a copy of a part.
fn begin_with(
    rt: &impl Abort,
    alloc: Global,
    part: &[u8],
    end: &KeyedBlockHandle,
) -> PartCopier<ByteSum, Vec<u8>> {
    let copier = copier(alloc);
    assert!(rt; end.size() as usize == part.len());
    assert!(rt; copier.part_fits_after(end));
    copier.add_part(part, end).expect(rt, "a copy")
}

// Adds a block to a table.
fn with_block(
    rt: &impl Abort,
    copier: PartCopier<ByteSum, Vec<u8>>,
    block: &[InternalValue],
) -> PartCopier<ByteSum, Vec<u8>> {
    assert!(rt; copier.fits_after(block));
    copier.add_block(block).expect(rt, "a block")
}

// The table of a copy of a part, and of a block.
fn copied(
    rt: &impl Abort,
    alloc: Global,
    (part, end): (Slice, KeyedBlockHandle),
    block: &[InternalValue],
) -> InMemory {
    let copier = begin_with(rt, alloc, part.as_slice(), &end);
    finished(rt, alloc, with_block(rt, copier, block))
}

// The first part of a table is copied, and the block of the second key is written.
#[test]
fn a_part_and_a_block_are_a_table(rt: HostRuntime) {
    let alloc = rt.alloc();
    let part = part_of(alloc, &mut table_of(&rt, alloc, 9, 1), 0).expect(&rt, "a part");
    let list = six_keys(&rt, alloc);
    let mut copied = copied(&rt, alloc, part, list.chunks(9).nth(1).unwrap_or(&[]));
    assert_eq!(rt; counted(&rt, alloc, &mut copied), (2, 18));
}

// A version of the third of six keys, and one that comes after all.
fn newer(rt: &impl Abort, alloc: Global) -> Vec<InternalValue> {
    let mut newer = Vec::new(alloc);
    push(&mut newer, b"k\x05", b"newer", 4, ValueType::Value).expect(rt, "an entry");
    push(&mut newer, b"z", b"newer", 1, ValueType::Value).expect(rt, "an entry");
    newer
}

// The merge of a table with newer versions.
fn merged(rt: &impl Abort, alloc: Global, table: &mut InMemory) -> InMemory {
    let mut newer = Head::new(alloc, newer(rt, alloc).into_iter()).expect(rt, "a source");
    let merged = merge_parts(alloc, table, &mut newer, copier(alloc), 4096);
    let merged = merged.expect(rt, "a merge");
    assert!(rt; newer.peek().is_some());
    let merged = write_rest(alloc, &mut newer, merged, 4096).expect(rt, "the rest");
    finished(rt, alloc, merged)
}

// Whether a part of two tables has the same bytes.
fn is_same_part(rt: &impl Abort, alloc: Global, a: &mut InMemory, b: &mut InMemory) -> bool {
    let (a, _) = part_of(alloc, a, 5).expect(rt, "a part");
    let (b, _) = part_of(alloc, b, 5).expect(rt, "a part");
    a.as_slice() == b.as_slice()
}

// Merges a table: the part of the third key is written anew; another one is copied, and has its
// bytes.
fn check_merged(rt: &impl Abort, alloc: Global, table: &mut InMemory) {
    let mut merged = merged(rt, alloc, table);
    assert!(rt; is_same_part(rt, alloc, table, &mut merged));
    assert_eq!(rt; counted(rt, alloc, &mut merged), (7, 56));
}

#[test]
fn parts_that_nothing_overlaps_are_copied(rt: HostRuntime) {
    check_merged(&rt, rt.alloc(), &mut table_of(&rt, rt.alloc(), 9, 1));
}
