//! Handles as items of a block: how they are encoded.
ghost use Rattle.std.specs.Prelude.{◌≡◌, ◌+◌, ◌≤◌, ◌++◌, take, length};
ghost use Rattle.std.specs.Ordering.{is_lt};
ghost use Rattle.sst_block_core.specs.Kind.{item_cmp};
ghost use Rattle.sst_block_core.specs.Handles.{fields, fields_of};

use crate::BlockItem;
use crate::table::block::Encodable;
use crate::table::block::key_parts::KeyParts;
use crate::table::index_block::block_handle::KeyedBlockHandle;
use crate::table::order::Sorted;
use sst_base::AllocResult;
use sst_base::in_place::{make_room, put_byte, put_length_prefixed, put_varint};

/// The byte before each handle.
pub(crate) const HANDLE_MARKER: u8 = 0;

impl BlockItem for KeyedBlockHandle {
    ghost use Rattle.sst_block_core.specs.Handles.{IsHandle, handles};
    ghost use Rattle.sst_block_core.specs.HandleLaws.{IsKind-handles};

    ghost kind = { handles };

    ghost valid = { IsHandle };

    ghost is_kind = { IsKind-handles };
}

impl Sorted for KeyedBlockHandle {
    fn sorts_before(&self, other: &KeyedBlockHandle) -> bool {
        self.compare(other).is_lt()
    }
}

// Writes what precedes an end key after the first `at` bytes, where there is capacity for it.
// Returns the length with it.
#[inline(always)]
#[tactic(auto, unfolding(crate::specs::Handles::fields))]
fn put_fields(form: &mut [u8], at: usize, item: &KeyedBlockHandle) -> usize
    requires room { at + 31 ≤ length form.old }
    ensures len { result ≤ at + 31 }
    ensures same_room { length form.new ≡ length form.old }
    ensures bytes { take result form.new ≡ take at form.old ++ fields (fields_of item.now) }
{
    let at = put_byte(form, at, HANDLE_MARKER);
    let at = put_varint(form, at, *item.offset());
    let at = put_varint(form, at, u64::from(item.size()));
    put_varint(form, at, item.seqno())
}

/// The forms of a handle.
///
/// - Full: 00, offset (varint 64), size (varint 32), sequence number (varint 64), key length
///   (varint 16), end key.
/// - Truncated: 00, offset, size, sequence number, shared length (varint 16), rest length
///   (varint 16), rest of the end key.
impl Encodable for KeyedBlockHandle {
    fn key_parts(&self) -> KeyParts<'_> {
        (&[], self.end_key().as_slice())
    }

    #[inline(always)]
    #[tactic(auto, unfolding(crate::specs::Handles::full))]
    fn put_full(&self, writer: &mut Vec<u8>, at: usize) -> AllocResult<usize> {
        make_room(writer, at)?;
        let at = put_fields(writer.as_mut_slice(), at, self);
        put_length_prefixed(writer, at, self.end_key(), 0, 0)
    }

    #[inline(always)]
    #[tactic(auto, unfolding(crate::specs::Handles::truncated))]
    fn put_truncated(
        &self,
        writer: &mut Vec<u8>,
        at: usize,
        shared_len: usize,
    ) -> AllocResult<usize> {
        make_room(writer, at)?;
        let at = put_fields(writer.as_mut_slice(), at, self);
        let at = put_varint(writer.as_mut_slice(), at, shared_len as u64);
        put_length_prefixed(writer, at, self.end_key(), shared_len, 0)
    }
}
