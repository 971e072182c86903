// The functions that use the library, each with ample memory: it has to succeed.
use crate::versions::push;
use sst_examples::newest::newest_below;
use sst_examples::uses::{append_entries, count_below, open_block, read};
use sstable_blocks::{DataBlock, InternalValue, Result, ValueType, Xxh3};
use std::alloc::Global;
use std::process::Abort;

/// Two versions of a key, and another key.
fn three_entries(alloc: Global) -> Result<Vec<InternalValue>> {
    let mut list = Vec::new(alloc);
    push(&mut list, b"apple", b"red", 7, ValueType::Value)?;
    push(&mut list, b"apple", b"green", 3, ValueType::Value)?;
    push(&mut list, b"pear", b"yellow", 5, ValueType::Value)?;
    Ok(list)
}

/// Whether what was found has a value, or where none is wanted nothing was found.
fn is_value(found: Result<Option<InternalValue>>, value: Option<&[u8]>) -> bool {
    match (found, value) {
        (Ok(Some(found)), Some(value)) => found.value().eq_bytes(value),
        (Ok(None), None) => true,
        _ => false,
    }
}

/// How many entries of a block are appended.
fn count_appended(alloc: Global, block: &DataBlock<Xxh3>) -> Result<usize> {
    let mut all = Vec::new(alloc);
    append_entries(alloc, block, &mut all)?;
    Ok(all.len())
}

/// Reads a block of the three entries.
fn check_block(rt: &impl Abort, alloc: Global, block: &DataBlock<Xxh3>) {
    assert_eq!(rt; count_below(block, 6), 2);
    assert!(rt; count_appended(alloc, block) == Ok(3));
    assert!(rt; is_value(read(alloc, block, b"apple", 7), Some(b"green")));
    assert!(rt; is_value(read(alloc, block, b"plum", 9), None));
}

/// Reads the three entries, in a list and in a block.
fn check_entries(rt: &impl Abort, alloc: Global, list: &[InternalValue]) {
    assert!(rt; !list.is_empty() && DataBlock::<Xxh3>::is_ordered(list));
    assert!(rt; is_value(newest_below(alloc, list, b"apple", 7), Some(b"green")));
    match open_block(alloc, list) {
        Ok(block) => check_block(rt, alloc, &block),
        Err(_) => panic!(rt; "no block"),
    }
}

#[test]
fn entries_are_read_from_lists_and_blocks(rt: HostRuntime) {
    match three_entries(rt.alloc()) {
        Ok(list) => check_entries(&rt, rt.alloc(), &list),
        Err(_) => panic!(rt; "no entries"),
    }
}
