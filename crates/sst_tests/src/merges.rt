// Merges of many sources, levels that are read in turn, and merges that are moved.
ghost use Rattle.std.specs.Prelude.{IfOk, None};
ghost use Rattle.sst_sources.specs.Merge.{entry_cmp};
ghost use Rattle.sst_merge.specs.MovableBlocks.{AreEntryBlocks, block_lists};
ghost use Rattle.sst_merge.specs.Moved.{IsFreshSource};

use crate::runs::worked::{worked_config, write_in_blocks};
use crate::versions::{Memory, Row, list_of, number_of, push};
use sst_base::{ByteSum, Error, InternalValue, Result, SeqNo, Slice, Steps, ValueType};
use sst_block_core::AsEntry;
use sst_block_core::table::data_block::DataBlockRef;
use sst_merge::{
    Head, Keyed, Merge, Movable, MovableBlocks, MovableList, MovableMerge, MovableTable, Reader,
    Source, read_levels,
};
use sstable_blocks::run::{RunHandles, RunRef};
use sstable_blocks::{MemorySource, Table};
use std::alloc::Global;
use std::process::Abort;

/// More sources than an engine has tables.
const SOURCES: u64 = 3000;

/// Sources of one version each of the same key, of which the last source has the newest.
fn heads_of(rt: &impl Abort, alloc: Global) -> Vec<Head<InternalValue, Memory>> {
    let mut heads = Vec::new(alloc);
    for number in 0..SOURCES {
        let list = list_of(rt, alloc, &[Row(b'a', number)], 0);
        let head = Head::new(alloc, list.into_iter()).expect(rt, "a source");
        heads.push(head).expect(rt, "room for a source");
    }
    heads
}

/// The first number, from the newest on, that is not that of the version that a step takes.
fn first_wrong<I: Source<InternalValue>>(alloc: Global, source: &mut I) -> Result<Option<u64>> {
    for number in (0..SOURCES).rev() {
        match source.next_entry(alloc)? {
            Some(entry) if entry.key().seqno() == number => {}
            _ => return Ok(Some(number)),
        }
    }
    Ok(None)
}

#[test]
fn many_sources_are_merged(rt: HostRuntime) {
    let mut merged = Merge::new(heads_of(&rt, rt.alloc()));
    assert_eq!(rt; first_wrong(rt.alloc(), &mut merged), Ok(None));
    assert!(rt; matches!(merged.next_entry(rt.alloc()), Ok(None)));
}

/// A level of one version, or one that fails.
#[derive(Drop)]
enum Level {
    Held(InternalValue),
    Failing,
}

/// Its list is not known.
impl Reader for Level {
    ghost list = { λ _. None };

    ghost ordered = { λ _. tt };

    ghost most = { λ _ _ _. None };

    ghost may_fail = { λ _ _ _ _. Unit {0} };

    fn get(
        &mut self,
        _alloc: Global,
        needle: &[u8],
        seqno: SeqNo,
        _steps: &mut Steps,
    ) -> Result<Option<InternalValue>> {
        match self {
            Level::Failing => Err(Error::Io),
            Level::Held(entry) => {
                let key = entry.key();
                if key.user_key().as_slice() == needle && key.seqno() < seqno {
                    Ok(Some(entry.clone()?))
                } else {
                    Ok(None)
                }
            }
        }
    }
}

/// The number of the version of a key that a read of two levels finds: a tombstone of the key b at
/// number 5, and a level that fails.
fn read_two(rt: &impl Abort, alloc: Global, key: u8, seqno: SeqNo) -> Result<u64> {
    let mut list = Vec::new(alloc);
    push(&mut list, b"b", b"", 5, ValueType::Tombstone).expect(rt, "a tombstone");
    let newer = list.pop().expect(rt, "an entry");
    let mut levels = [Level::Held(newer), Level::Failing];
    match read_levels(alloc, &mut levels, &[key], seqno, &mut Steps::new()) {
        Ok(found) => Ok(number_of(&found)),
        Err(error) => Err(error),
    }
}

#[test]
fn a_level_behind_a_match_is_not_asked(rt: HostRuntime) {
    assert!(rt; read_two(&rt, rt.alloc(), b'b', 6) == Ok(5));
    assert!(rt; read_two(&rt, rt.alloc(), b'b', 5) == Err(Error::Io));
    assert!(rt; read_two(&rt, rt.alloc(), b'c', 6) == Err(Error::Io));
}

/// A step: 0 from the front, 1 from the back, 2 a search from the front, 3 one from the back; the
/// key that is sought; and the key and the sequence number of what the step gives, the key 0 where
/// it gives nothing.
struct Step(u8, u8, u8, u64);

/// Two lists, in which versions are equal.
const FIRST: [Row; 4] = [Row(2, 4), Row(2, 1), Row(4, 5), Row(6, 2)];

const SECOND: [Row; 5] = [Row(1, 5), Row(3, 2), Row(4, 5), Row(9, 5), Row(9, 1)];

/// Steps, of which some cross the ends, and what they give.
const STEPS: [Step; 16] = [
    Step(1, 0, 9, 1),
    Step(0, 0, 1, 5),
    Step(2, 2, 0, 0),
    Step(0, 0, 2, 4),
    Step(3, 6, 0, 0),
    Step(1, 0, 6, 2),
    Step(1, 0, 4, 5),
    Step(1, 0, 4, 5),
    Step(1, 0, 3, 2),
    Step(0, 0, 2, 1),
    Step(0, 0, 0, 0),
    Step(1, 0, 0, 0),
    Step(2, 9, 0, 0),
    Step(0, 0, 0, 0),
    Step(3, 9, 0, 0),
    Step(0, 0, 9, 5),
];

/// What a step gives.
fn give<T: Keyed, I: Movable<T>>(
    alloc: Global,
    merge: &mut MovableMerge<T, I>,
    step: &Step,
) -> Result<Option<T>> {
    match step.0 {
        0 => merge.next(alloc),
        1 => merge.next_back(alloc),
        2 => {
            merge.seek(alloc, &[step.1])?;
            Ok(None)
        }
        _ => {
            merge.seek_upper(alloc, &[step.1])?;
            Ok(None)
        }
    }
}

/// Whether this is what a step is to give.
fn is_given<T: AsEntry>(found: &Option<T>, step: &Step) -> bool {
    match found {
        Some(entry) => {
            let entry = entry.view();
            entry.compare_key(&[step.2]).is_eq() && entry.seqno() == step.3
        }
        None => step.2 == 0,
    }
}

/// Takes all steps of the merge of two sources that were not moved, up to the first error.
fn check_merge<T: Keyed + AsEntry + Drop, I: Movable<T> + Drop>(
    rt: &impl Abort,
    alloc: Global,
    first: Result<I>,
    second: Result<I>,
) -> Result<()>
    requires first { IfOk first (λ s. IsFreshSource T.cmp (I.moved s)) }
    requires second { IfOk second (λ s. IsFreshSource T.cmp (I.moved s)) }
{
    let mut sources = Vec::new(alloc);
    sources.push(first?)?;
    sources.push(second?)?;
    let mut merge = MovableMerge::new(sources);
    for step in &STEPS {
        let found = give(alloc, &mut merge, step)?;
        assert!(rt; is_given(&found, step));
    }
    Ok(())
}

#[test]
fn a_merge_of_lists_is_moved(rt: HostRuntime) {
    let alloc = rt.alloc();
    let first = list_of(&rt, alloc, &FIRST, 1);
    let second = list_of(&rt, alloc, &SECOND, 2);
    assert!(rt; InternalValue::are_ordered(&first) && InternalValue::are_ordered(&second));
    let (first, second) = (MovableList::new(&first), MovableList::new(&second));
    assert!(rt; check_merge(&rt, alloc, Ok(first), Ok(second)) == Ok(()));
}

/// A run of a list, in blocks of two entries.
fn run_of(rt: &impl Abort, alloc: Global, rows: &[Row]) -> (RunHandles, Vec<u8>) {
    let list = list_of(rt, alloc, rows, 0);
    write_in_blocks(alloc, Vec::new(alloc), &list, 2, worked_config()).expect(rt, "a run")
}

/// The blocks of a run.
fn blocks_of<'a>(alloc: Global, run: &RunRef<'a, ByteSum>) -> Result<Vec<DataBlockRef<'a, ByteSum>>>
    ensures { IfOk result (λ blocks. AreEntryBlocks (block_lists blocks.items)) }
{
    run.open_blocks(alloc)
}

/// Takes all steps of a merge of the blocks of two runs, up to the first error.
fn check_blocks<'x>(
    rt: &impl Abort,
    alloc: Global,
    first: &'x [DataBlockRef<'x, ByteSum>],
    second: &'x [DataBlockRef<'x, ByteSum>],
) -> Result<()>
    requires first { AreEntryBlocks (block_lists first.now) }
    requires second { AreEntryBlocks (block_lists second.now) }
{
    check_merge(
        rt,
        alloc,
        Ok(MovableBlocks::new(first)),
        Ok(MovableBlocks::new(second)),
    )
}

/// Takes all steps of a merge of two runs, up to the first error.
fn check_runs(
    rt: &impl Abort,
    alloc: Global,
    first: &RunRef<'_, ByteSum>,
    second: &RunRef<'_, ByteSum>,
) -> Result<()> {
    let first = blocks_of(alloc, first).expect(rt, "the first blocks");
    let second = blocks_of(alloc, second).expect(rt, "the second blocks");
    check_blocks(rt, alloc, &first, &second)
}

#[test]
fn a_merge_of_runs_is_moved(rt: HostRuntime) {
    let alloc = rt.alloc();
    let (first, first_bytes) = run_of(&rt, alloc, &FIRST);
    let (second, second_bytes) = run_of(&rt, alloc, &SECOND);
    let (first, _) = RunRef::<ByteSum>::check(alloc, &first_bytes, &first).expect(&rt, "a run");
    let (second, _) = RunRef::<ByteSum>::check(alloc, &second_bytes, &second).expect(&rt, "a run");
    assert!(rt; check_runs(&rt, alloc, &first, &second) == Ok(()));
}

/// A table of a list, in blocks of two entries.
fn table_of(
    rt: &impl Abort,
    alloc: Global,
    rows: &[Row],
) -> Result<MovableTable<ByteSum, MemorySource>>
    ensures { IfOk result (IsFreshSource entry_cmp) }
{
    let (handles, bytes) = run_of(rt, alloc, rows);
    let bytes = Slice::from_vec(bytes).expect(rt, "a slice");
    match Table::open(alloc, MemorySource::new(bytes), handles) {
        Ok(table) => MovableTable::new(alloc, table),
        Err(failed) => Err(failed.error),
    }
}

#[test]
fn a_merge_of_tables_is_moved(rt: HostRuntime) {
    let alloc = rt.alloc();
    let (first, second) = (table_of(&rt, alloc, &FIRST), table_of(&rt, alloc, &SECOND));
    assert!(rt; check_merge(&rt, alloc, first, second) == Ok(()));
}
