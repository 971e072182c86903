// Texts of entries and checksums, and the sizes of what takes no memory.
use sst_base::{Checksum, History, InternalKey, InternalValue, Slice, Steps, ValueType};
use std::alloc::Global;
use std::mem::size_of;
use std::process::Abort;

// Whether the entry of the key `a` and the value `x`, or of a tombstone none, of this type and at
// this number prints as a text.
fn prints(rt: &impl Abort, alloc: Global, value_type: ValueType, seqno: u64, text: &str) -> bool {
    let key = Slice::new(alloc, b"a").expect(rt, "a key");
    let entry = match value_type {
        ValueType::Tombstone => InternalValue::new_tombstone(alloc, key, seqno),
        ValueType::WeakTombstone => InternalValue::new_weak_tombstone(alloc, key, seqno),
        value_type => {
            let value = Slice::new(alloc, b"x").expect(rt, "a value");
            InternalValue::new(InternalKey::new(key, seqno, value_type), value)
        }
    };
    format!(in alloc; "{entry:?}").expect(rt, "a text").as_str() == text
}

#[test]
fn entries_print(rt: HostRuntime) {
    let alloc = rt.alloc();
    assert!(rt; prints(&rt, alloc, ValueType::Value, 2, "b\"a\":2:Value = b\"x\""));
    assert!(rt;
        prints(
            &rt,
            alloc,
            ValueType::Indirection,
            5,
            "b\"a\":5:Indirection = b\"x\""
        )
    );
    assert!(rt;
        prints(
            &rt,
            alloc,
            ValueType::Tombstone,
            3,
            "b\"a\":3:Tombstone = b\"\""
        )
    );
    assert!(rt;
        prints(
            &rt,
            alloc,
            ValueType::WeakTombstone,
            4,
            "b\"a\":4:WeakTombstone = b\"\""
        )
    );
}

#[test]
fn a_checksum_prints(rt: HostRuntime) {
    let most = Checksum::from_raw(u128::MAX);
    let text = format!(in rt.alloc(); "{} {most}", Checksum::from_raw(5)).expect(&rt, "a text");
    let wanted = "Checksum(5) Checksum(340282366920938463463374607431768211455)";
    assert!(rt; text.as_str() == wanted);
}

#[test]
fn counters_and_histories_take_no_memory(rt: HostRuntime) {
    assert!(rt; size_of::<Steps>() == 0);
    assert!(rt; size_of::<History<u64>>() == 0);
    assert!(rt; size_of::<Slice>() == 48);
}
