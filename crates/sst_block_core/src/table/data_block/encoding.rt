//! Views of entries as items of a block: how they are encoded.
ghost use Rattle.std.specs.Prelude.{◌≡◌, ◌+◌, ◌≤◌, ◌++◌, ◌∷◌, take, drop, length, IfOk};
ghost use Rattle.sst_base.specs.ValueType.{value_type_byte};
ghost use Rattle.sst_base.specs.Varint.{varint};
ghost use Rattle.sst_block_core.specs.Entries.{value_part};

use crate::block_item::BlockItem;
use crate::table::block::Encodable;
use crate::table::block::key_parts::KeyParts;
use crate::table::data_block::entry_view::EntryView;
use crate::table::order::Sorted;
use crate::table::put_bytes::{put_key, put_length_prefixed};
use sst_base::in_place::{PREFIXED_ROOM, make_room, put_byte, put_varint};
use sst_base::{AllocResult, ValueType};

impl<'a> BlockItem for EntryView<'a> {
    ghost use Rattle.sst_base.specs.Entry.{IsEntry};
    ghost use Rattle.sst_block_core.specs.Entries.{entries};
    ghost use Rattle.sst_block_core.specs.EntryLaws.{IsKind-entries};

    ghost kind = { entries };

    ghost valid = { IsEntry };

    ghost is_kind = { IsKind-entries };
}

impl<'a> Sorted for EntryView<'a> {
    fn sorts_before(&self, other: &EntryView<'a>) -> bool {
        self.compare(other).is_lt()
    }
}

// Puts the type and the sequence number of an entry after the first `at` bytes, where there is room
// for them. Returns the length with them.
#[inline(always)]
fn put_fields(form: &mut [u8], at: usize, item: &EntryView<'_>) -> usize
    requires room { at + 11 ≤ length form.old }
    ensures len { result ≤ at + 11 }
    ensures same_room { length form.new ≡ length form.old }
    ensures bytes { take result form.new
        ≡ take at form.old ++ value_type_byte item.now.key.value_type ∷ varint item.now.key.seqno }
{
    let at = put_byte(form, at, u8::from(item.value_type()));
    put_varint(form, at, item.seqno())
}

// Puts the value part of an entry after the first `at` bytes: nothing for a tombstone. Returns the
// length with it.
#[inline(always)]
fn put_value(writer: &mut Vec<u8>, at: usize, item: &EntryView<'_>) -> AllocResult<usize>
    requires { at + 50 ≤ length writer.old.items }
    ensures bytes { IfOk result (λ end. take end writer.new.items
        ≡ take at writer.old.items ++ value_part item.now.key.value_type item.now.value) }
    ensures inside { IfOk result (λ end. end ≤ length writer.new.items) }
{
    match item.value_type() {
        ValueType::Tombstone | ValueType::WeakTombstone => Ok(at),
        ValueType::Value | ValueType::Indirection => {
            put_length_prefixed(writer, at, item.value(), 0)
        }
    }
}

// A key without this many of its first bytes.
#[inline(always)]
fn behind<'a>(key: KeyParts<'a>, shared_len: usize) -> KeyParts<'a>
    requires { shared_len ≤ length (key.0.now ++ key.1.now) }
    ensures { result.0.now ++ result.1.now ≡ drop shared_len (key.entry.0.now ++ key.entry.1.now) }
{
    if shared_len <= key.0.len() {
        let (_, more) = key.0.split_at(shared_len);
        return (more, key.1);
    }
    let (_, rest) = key.1.split_at(shared_len - key.0.len());
    (&[], rest)
}

/// The forms of an entry, as those of an [`InternalValue`](sst_base::InternalValue).
impl<'a> Encodable for EntryView<'a> {
    #[inline(always)]
    fn key_parts(&self) -> KeyParts<'_> {
        EntryView::key_parts(self)
    }

    #[inline(always)]
    #[tactic(auto, unfolding(crate::specs::Entries::full))]
    fn put_full(&self, writer: &mut Vec<u8>, at: usize) -> AllocResult<usize> {
        make_room(writer, at)?;
        let at = put_fields(writer.as_mut_slice(), at, self);
        let at = put_key(writer, at, EntryView::key_parts(self), PREFIXED_ROOM)?;
        put_value(writer, at, self)
    }

    #[inline(always)]
    #[tactic(auto, unfolding(crate::specs::Entries::truncated))]
    fn put_truncated(
        &self,
        writer: &mut Vec<u8>,
        at: usize,
        shared_len: usize,
    ) -> AllocResult<usize> {
        make_room(writer, at)?;
        let at = put_fields(writer.as_mut_slice(), at, self);
        let at = put_varint(writer.as_mut_slice(), at, shared_len as u64);
        let rest = behind(EntryView::key_parts(self), shared_len);
        let at = put_key(writer, at, rest, PREFIXED_ROOM)?;
        put_value(writer, at, self)
    }
}
