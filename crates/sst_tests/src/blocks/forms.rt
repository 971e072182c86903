//! Forms of items, by calls that only an engine of one's own makes.
use crate::runs::worked::{THREE_BLOCKS, worked_handles};
use sst_base::{ByteSum, InternalValue, Slice, Steps, ValueType};
use sst_block_core::{
    DataBlockParsedItem, Decodable, Decoder, Encodable, IndexBlockParsedItem, KeyedBlockHandle,
    ParsedItem,
};
use sstable_blocks::MemorySource;
use sstable_blocks::run::Table;

/// Entries as lsm-tree writes them: the value `x` of `a` at 3 in full form, and the value `y` of
/// `ab` at 2 without the byte that its key shares.
const FORMS: [u8; 13] = [0, 3, 1, b'a', 1, b'x', 0, 2, 1, 1, b'b', 1, b'y'];

#[test]
fn a_head_is_read(rt: HostRuntime) {
    let head = InternalValue::parse_restart_key(&FORMS, 0, &mut Steps::new());
    assert!(rt; matches!(head, Some((b"a", 3))));
}

#[test]
fn a_truncated_form_is_read(rt: HostRuntime) {
    let found: Option<(DataBlockParsedItem, usize)> = InternalValue::parse_truncated(
        &FORMS,
        6,
        3,
        &mut Steps::new(),
    );
    let Some((item, 13)) = found else {
        panic!(rt; "no form")
    };
    assert!(rt; item.compare_key(b"ab", &FORMS).is_eq());
}

#[test]
fn a_truncated_form_is_written(rt: HostRuntime) {
    let alloc = rt.alloc();
    let (key, value) = (
        Slice::from_array(alloc, *b"ab"),
        Slice::from_array(alloc, *b"y"),
    );
    let (key, value) = (key.expect(&rt, "a key"), value.expect(&rt, "a value"));
    let entry = InternalValue::from_components(key, value, 2, ValueType::Value);
    let mut form = Vec::new(alloc);
    entry
        .encode_truncated_into(&mut form, 1)
        .expect(&rt, "a form");
    assert!(rt; Some(form.as_slice()) == FORMS.get(6..));
}

#[test]
fn handles_are_read_with_a_table_of_heads(rt: HostRuntime) {
    let alloc = rt.alloc();
    let bytes = Slice::new(alloc, &THREE_BLOCKS).expect(&rt, "a run");
    let Ok(table) = Table::<ByteSum, _>::open(alloc, MemorySource::new(bytes), worked_handles())
    else {
        panic!(rt; "no table")
    };
    let index = table.index();
    let Some(heads) = index.heads() else {
        panic!(rt; "no heads")
    };
    let handles: Decoder<'_, KeyedBlockHandle, IndexBlockParsedItem> = Decoder::with_table(
        index.as_slice().as_slice(),
        heads,
    );
    assert_eq!(rt; handles.count(), 3);
}
