//! Lists of versions that tests write and read.
ghost use Rattle.std.specs.Prelude.{◌≤◌, length};

use sst_base::{InternalValue, Result, Slice, ValueType};
use std::alloc::Global;
use std::process::Abort;
use std::vec;

/// An entry of parts, of which the key has at least a byte.
fn entry_of(
    alloc: Global,
    key: &[u8],
    value: &[u8],
    seqno: u64,
    value_type: ValueType,
) -> Result<InternalValue>
    requires some { 1 ≤ length key.now }
    requires key { length key.now ≤ 65535 }
    requires value { length value.now ≤ 65535 }
{
    let key = Slice::new(alloc, key)?;
    match Slice::new(alloc, value) {
        Ok(value) => Ok(InternalValue::from_components(key, value, seqno, value_type)),
        Err(error) => Err(error),
    }
}

/// Appends an entry to a list. A key has 1 to 65535 bytes; one that has not is left out.
pub(crate) fn push(
    list: &mut Vec<InternalValue>,
    key: &[u8],
    value: &[u8],
    seqno: u64,
    value_type: ValueType,
) -> Result<()> {
    let alloc = *list.allocator();
    if key.is_empty() || key.len() > 65535 || value.len() > 65535 {
        return Ok(());
    }
    list.push(entry_of(alloc, key, value, seqno, value_type)?)?;
    Ok(())
}

/// A version: the byte that is its key, and its sequence number.
#[derive(Clone, Copy)]
pub(crate) struct Row(pub(crate) u8, pub(crate) u64);

/// The values of rows, each of which is the number of its list.
pub(crate) fn list_of(
    rt: &impl Abort,
    alloc: Global,
    rows: &[Row],
    number: u8,
) -> Vec<InternalValue> {
    let mut list = Vec::new(alloc);
    for row in rows {
        push(&mut list, &[row.0], &[number], row.1, ValueType::Value).expect(rt, "an entry");
    }
    list
}

/// The versions 9 down to 1 of the keys k1 to k11 with odd numbers.
pub(crate) fn six_keys(rt: &impl Abort, alloc: Global) -> Vec<InternalValue> {
    let mut list = Vec::new(alloc);
    for key in 0u8..6 {
        let key = [b'k', 2 * key + 1];
        for passed in 0u64..9 {
            push(&mut list, &key, b"value", 9 - passed, ValueType::Value).expect(rt, "an entry");
        }
    }
    list
}

/// The sequence number of an entry, 0 if there is none.
pub(crate) fn number_of(found: &Option<InternalValue>) -> u64 {
    match found {
        Some(entry) => entry.key().seqno(),
        None => 0,
    }
}

/// A source of entries in memory.
pub(crate) type Memory = vec::IntoIter<InternalValue, Global>;
