//! Handles as items of a block: how they are decoded.
ghost use Rattle.std.specs.Prelude.{◌≡◌, ◌≤◌, length, drop};
ghost use Rattle.std.specs.Prelude.{[], ◌∷◌, None, IfSome, IsSome};
ghost use Rattle.sst_block_core.specs.Found.{Finds, Takes, IsEncodedAt, range_bytes};
ghost use Rattle.sst_block_core.specs.Handles.{marker_at, fields_at, full_at};
ghost use Rattle.sst_block_core.specs.ParsedHandle.{fields_by, parsed_handle, IsParsedHandle};

use crate::table::block::Decodable;
use crate::table::block::key_ranges::bytes_of;
use crate::table::block::reading::{
    length_prefixed_from, number_from, prefix_from, read_length_prefixed, read_number,
};
use crate::table::index_block::block_handle::KeyedBlockHandle;
use crate::table::index_block::encoding::HANDLE_MARKER;
use crate::table::index_block::parsed_item::IndexBlockParsedItem;
use sst_base::table::block::BlockOffset;
use sst_base::table::util::SliceIndexes;
use sst_base::{SeqNo, Steps};

// The fields of a form before its end key.
#[derive(Clone, Copy)]
pub(super) struct HandleFields {
    pub(super) offset: u64,
    pub(super) size: u32,
    pub(super) seqno: SeqNo,
}

impl HandleFields {
    // The item of an end key by its ranges.
    #[inline(always)]
    pub(super) fn with_key(
        self,
        prefix: Option<SliceIndexes>,
        end_key: SliceIndexes,
    ) -> IndexBlockParsedItem
        ensures { result ≡ record {
          offset = record { 0 = self.offset };
          size = self.size;
          prefix = prefix;
          end_key = end_key;
          seqno = self.seqno;
        } }
    {
        IndexBlockParsedItem {
            offset: BlockOffset(self.offset),
            size: self.size,
            prefix,
            end_key,
            seqno: self.seqno,
        }
    }
}

// The offset after the marker at an offset, if it is the marker of a handle.
#[inline(always)]
fn marker_from(payload: &[u8], at: usize) -> Option<usize>
    requires { at ≤ length payload.now }
    ensures none { result ≡ None → marker_at (drop at payload.now) ≡ None }
    ensures some { IfSome result
        (λ end. (end ≤ length payload.now)
        × (marker_at (drop at payload.now) ≡ Some (drop end payload.now))) }
{
    if at >= payload.len() || payload[at] != HANDLE_MARKER {
        return None;
    }
    Some(at + 1)
}

// The fields of a handle at an offset, and the offset after them.
#[inline(always)]
#[tactic(auto, unfolding(crate::specs::Handles::fields_at))]
pub(super) fn fields_from(payload: &[u8], at: usize) -> Option<(HandleFields, usize)>
    requires { at ≤ length payload.now }
    ensures { Finds fields_by payload.now result (fields_at (drop at payload.now)) }
{
    let at = marker_from(payload, at)?;
    let (offset, at) = number_from(payload, at, 64)?;
    let (size, at) = number_from(payload, at, 32)?;
    let (seqno, end) = number_from(payload, at, 64)?;
    let fields = HandleFields {
        offset,
        size: size as u32,
        seqno,
    };
    Some((fields, end))
}

// The handle whose full form is at an offset, and the offset after the form.
#[inline(always)]
#[tactic(auto, using(crate::proofs::Items::HandleReads::full_no_front, crate::proofs::Items::HandleReads::full_no_key))]
fn full_form_from(payload: &[u8], offset: usize) -> Option<(IndexBlockParsedItem, usize)>
    requires { offset ≤ length payload.now }
    ensures exact { Finds (parsed_handle payload.now) payload.now result
        (full_at (drop offset payload.now)) }
    ensures found { IfSome result (λ f. IsParsedHandle payload.now f.0) }
    ensures key { IfSome result
        (λ f. IsEncodedAt payload.now f.0.end_key.0 (range_bytes payload.now f.0.end_key)) }
    ensures prefix { IfSome result (λ f. f.0.prefix ≡ None) }
    ensures marker { IsEncodedAt payload.now offset (255 ∷ []) → result ≡ None }
{
    let (fields, at) = fields_from(payload, offset)?;
    let (key, end) = length_prefixed_from(payload, at, 16)?;
    Some((fields.with_key(None, key), end))
}

// The fields of a handle at an offset, and the offset after them.
#[inline(always)]
fn read_fields(payload: &[u8], at: usize) -> (HandleFields, usize)
    requires { IsSome (fields_at (drop at payload.now)) }
    ensures { Takes fields_by payload.now result (fields_at (drop at payload.now)) }
{
    let (offset, at) = read_number(payload, at + 1, 64);
    let (size, at) = read_number(payload, at, 32);
    let (seqno, end) = read_number(payload, at, 64);
    let fields = HandleFields {
        offset,
        size: size as u32,
        seqno,
    };
    (fields, end)
}

/// Decodes the two forms of a handle as ranges of the payload.
impl Decodable<IndexBlockParsedItem> for KeyedBlockHandle {
    fn parse_restart_key<'a>(
        payload: &'a [u8],
        offset: usize,
        steps: &mut Steps,
    ) -> Option<(&'a [u8], u64)> {
        steps.count_head();
        let (item, _) = full_form_from(payload, offset)?;
        Some((bytes_of(payload, &item.end_key), item.seqno))
    }

    #[inline(always)]
    fn parse_full(
        payload: &[u8],
        offset: usize,
        steps: &mut Steps,
    ) -> Option<(IndexBlockParsedItem, usize)> {
        let found = full_form_from(payload, offset)?;
        steps.count_entry();
        Some(found)
    }

    #[inline(always)]
    fn parse_truncated(
        payload: &[u8],
        offset: usize,
        base_key_offset: usize,
        steps: &mut Steps,
    ) -> Option<(IndexBlockParsedItem, usize)> {
        let (fields, at) = fields_from(payload, offset)?;
        let (shared, at) = number_from(payload, at, 16)?;
        let (key, end) = length_prefixed_from(payload, at, 16)?;
        let prefix = prefix_from(payload, base_key_offset, shared, key.1 - key.0)?;
        steps.count_entry();
        Some((fields.with_key(Some(prefix), key), end))
    }

    #[inline(always)]
    fn read_full(
        payload: &[u8],
        offset: usize,
        steps: &mut Steps,
    ) -> (IndexBlockParsedItem, usize) {
        steps.count_entry();
        let (fields, at) = read_fields(payload, offset);
        let (key, end) = read_length_prefixed(payload, at, 16);
        (fields.with_key(None, key), end)
    }

    #[inline(always)]
    fn read_truncated(
        payload: &[u8],
        offset: usize,
        base_key_offset: usize,
        steps: &mut Steps,
    ) -> (IndexBlockParsedItem, usize) {
        steps.count_entry();
        // A payload has fewer than 2^32 bytes.
        let _size = payload.len();
        let (fields, at) = read_fields(payload, offset);
        let (shared, at) = read_number(payload, at, 16);
        let (key, end) = read_length_prefixed(payload, at, 16);
        let prefix = SliceIndexes(base_key_offset, base_key_offset + shared as usize);
        (fields.with_key(Some(prefix), key), end)
    }

    #[inline(always)]
    fn read_head<'a>(payload: &'a [u8], offset: usize, steps: &mut Steps) -> (&'a [u8], u64) {
        steps.count_head();
        let (fields, at) = read_fields(payload, offset);
        let (key, _) = read_length_prefixed(payload, at, 16);
        (bytes_of(payload, &key), fields.seqno)
    }
}
