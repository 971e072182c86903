// A small store: what reads at snapshots give through flushes and compactions, with plain tables and with
// tables in parts.
use sst_examples::store::Store;
use sst_parts::PartSizes;
use sstable_blocks::Slice;
use std::alloc::Global;
use std::process::Abort;

// Writes a value of the key `a`. Returns its sequence number.
fn put(rt: &impl Abort, alloc: Global, store: &mut Store, value: u8) -> u64 {
    let key = Slice::new(alloc, b"a").expect(rt, "a key");
    let value = Slice::from_array(alloc, [value]).expect(rt, "a value");
    store.put(key, value).expect(rt, "a write")
}

// Whether a read of the key below a number gives this value.
fn reads(rt: &impl Abort, store: &mut Store, seqno: u64, value: Option<u8>) -> bool {
    match (store.get(b"a", seqno).expect(rt, "a read"), value) {
        (Some(found), Some(value)) => found.value().eq_bytes(&[value]),
        (found, value) => found.is_none() && value.is_none(),
    }
}

// Writes two values, a tombstone and a value of the key `a`, at the numbers 0, 2, 4 and 6, with a snapshot
// after each of the first three.
fn put_four_versions(rt: &impl Abort, alloc: Global, store: &mut Store) {
    for value in [b'x', b'y'] {
        put(rt, alloc, store, value);
        store.snapshot().expect(rt, "a snapshot");
    }
    let key = Slice::new(alloc, b"a").expect(rt, "a key");
    store.delete(key).expect(rt, "a tombstone");
    store.snapshot().expect(rt, "a snapshot");
    assert!(rt; put(rt, alloc, store, b'z') == 6);
}

// Whether reads at the snapshots and after all give these values.
fn reads_all(rt: &impl Abort, store: &mut Store, values: &[Option<u8>; 4]) -> bool {
    reads(rt, store, 1, values[0])
        && reads(rt, store, 3, values[1])
        && reads(rt, store, 5, values[2])
        && reads(rt, store, 7, values[3])
}

// Reads at the snapshots of a new store, which are released one after the other.
fn check_story(rt: &impl Abort, alloc: Global, store: &mut Store) {
    put_four_versions(rt, alloc, store);
    let all = [Some(b'x'), Some(b'y'), None, Some(b'z')];
    assert!(rt; reads_all(rt, store, &all));
    store.flush().expect(rt, "a flush");
    store.compact().expect(rt, "a compaction");
    assert!(rt; reads_all(rt, store, &all));
    store.release(1);
    store.release(3);
    store.compact().expect(rt, "a compaction");
    assert!(rt; reads_all(rt, store, &[None, None, None, all[3]]));
}

#[test]
fn snapshots_of_a_store_are_read(rt: HostRuntime) {
    check_story(&rt, rt.alloc(), &mut Store::new(rt.alloc(), None));
}

#[test]
fn snapshots_of_a_store_in_parts_are_read(rt: HostRuntime) {
    let sizes = PartSizes {
        blocks: 1,
        bytes: 1,
    };
    check_story(&rt, rt.alloc(), &mut Store::new(rt.alloc(), Some(sizes)));
}
