//! Entries as items of a block: how they are encoded.
ghost use Rattle.std.specs.Prelude.{◌≡◌, ◌+◌, ◌≤◌, ◌++◌, ◌∷◌, take, length, IfOk};
ghost use Rattle.sst_base.specs.ValueType.{value_type_byte};
ghost use Rattle.sst_base.specs.Varint.{varint};
ghost use Rattle.sst_block_core.specs.Entries.{value_part};

use crate::block_item::BlockItem;
use crate::table::block::Encodable;
use crate::table::block::key_parts::KeyParts;
use sst_base::in_place::{PREFIXED_ROOM, make_room, put_byte, put_length_prefixed, put_varint};
use sst_base::{AllocResult, InternalKey, InternalValue, ValueType};

impl BlockItem for InternalValue {
    ghost use Rattle.sst_base.specs.Entry.{IsEntry};
    ghost use Rattle.sst_block_core.specs.Entries.{entries};
    ghost use Rattle.sst_block_core.specs.EntryLaws.{IsKind-entries};

    ghost kind = { entries };

    ghost valid = { IsEntry };

    ghost is_kind = { IsKind-entries };
}

// Puts the type and the sequence number of an entry after the first `at` bytes, where there is room
// for them. Returns the length with them.
#[inline(always)]
fn put_fields(form: &mut [u8], at: usize, key: &InternalKey) -> usize
    requires room { at + 11 ≤ length form.old }
    ensures len { result ≤ at + 11 }
    ensures same_room { length form.new ≡ length form.old }
    ensures bytes { take result form.new
        ≡ take at form.old ++ value_type_byte key.now.value_type ∷ varint key.now.seqno }
{
    let at = put_byte(form, at, u8::from(key.value_type()));
    put_varint(form, at, key.seqno())
}

// Puts the value part of an entry after the first `at` bytes: nothing for a tombstone. Returns the
// length with it.
#[inline(always)]
fn put_value(writer: &mut Vec<u8>, at: usize, item: &InternalValue) -> AllocResult<usize>
    requires { at + 50 ≤ length writer.old.items }
    ensures bytes { IfOk result (λ end. take end writer.new.items
        ≡ take at writer.old.items ++ value_part item.now.key.value_type item.now.value) }
    ensures inside { IfOk result (λ end. end ≤ length writer.new.items) }
{
    match item.key().value_type() {
        ValueType::Tombstone | ValueType::WeakTombstone => Ok(at),
        ValueType::Value | ValueType::Indirection => {
            put_length_prefixed(writer, at, item.value(), 0, 0)
        }
    }
}

/// The forms of an entry.
///
/// | Form | Parts in order |
/// |---|---|
/// | full | type (1), sequence number (varint 64), key length (varint 16), key, value part |
/// | truncated | type (1), sequence number (varint 64), shared length (varint 16), rest length
/// (varint 16), rest of the key, value part |
///
/// The value part is the value's length (varint 32) and the value; a tombstone has none.
impl Encodable for InternalValue {
    fn key_parts(&self) -> KeyParts<'_> {
        (&[], self.key().user_key().as_slice())
    }

    #[inline(always)]
    #[tactic(auto, unfolding(crate::specs::Entries::full))]
    fn put_full(&self, writer: &mut Vec<u8>, at: usize) -> AllocResult<usize> {
        let key = self.key();
        make_room(writer, at)?;
        let at = put_fields(writer.as_mut_slice(), at, key);
        let at = put_length_prefixed(writer, at, key.user_key(), 0, PREFIXED_ROOM)?;
        put_value(writer, at, self)
    }

    #[inline(always)]
    #[tactic(auto, unfolding(crate::specs::Entries::truncated))]
    fn put_truncated(
        &self,
        writer: &mut Vec<u8>,
        at: usize,
        shared_len: usize,
    ) -> AllocResult<usize> {
        let key = self.key();
        make_room(writer, at)?;
        let at = put_fields(writer.as_mut_slice(), at, key);
        let at = put_varint(writer.as_mut_slice(), at, shared_len as u64);
        let at = put_length_prefixed(writer, at, key.user_key(), shared_len, PREFIXED_ROOM)?;
        put_value(writer, at, self)
    }
}
