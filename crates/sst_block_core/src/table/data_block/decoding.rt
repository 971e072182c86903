//! Entries as items of a block: how they are decoded.
ghost use Rattle.std.specs.Prelude.{◌≡◌, ◌+◌, ◌-◌, ◌^◌, ◌<◌, ◌≤◌};
ghost use Rattle.std.specs.Prelude.{length, drop, [], ◌∷◌, IfSome, IfNone, IsSome, None};
ghost use Rattle.sst_block_core.specs.Found.{Finds, Takes, IsRange, IsOptionalRange};
ghost use Rattle.sst_block_core.specs.Found.{optional_range, range_bytes, IsEncodedAt};
ghost use Rattle.sst_block_core.specs.Entries.{value_at, full_at, truncated_form_at};
ghost use Rattle.sst_block_core.specs.ParsedEntry.{entry_of, truncated_of, IsKeyLength};
ghost use Rattle.sst_block_core.specs.ParsedEntry.{IsParsedEntry};

use crate::table::block::Decodable;
use crate::table::block::key_ranges::bytes_of;
use crate::table::block::reading::{
    length_prefixed_from, number_from, prefix_from, prefix_within, read_length_prefixed,
    read_number, read_value_type, value_type_from,
};
use crate::table::data_block::parsed_item::DataBlockParsedItem;
use sst_base::table::util::SliceIndexes;
use sst_base::{InternalValue, Steps, ValueType};

// The range of the value at an offset (none for a tombstone), and the offset after it.
#[inline(always)]
fn value_from(
    payload: &[u8],
    at: usize,
    value_type: ValueType,
) -> Option<(Option<SliceIndexes>, usize)>
    requires { at ≤ length payload.now }
    ensures exact { Finds (optional_range payload.now) payload.now result
        (value_at value_type (drop at payload.now)) }
    ensures range { IfSome result (λ f. IsOptionalRange payload.now f.0) }
    ensures bound { IfSome result (λ f. length (optional_range payload.now f.0) < 2 ^ 32) }
{
    match value_type {
        ValueType::Tombstone | ValueType::WeakTombstone => Some((None, at)),
        ValueType::Value | ValueType::Indirection => {
            let (range, end) = length_prefixed_from(payload, at, 32)?;
            Some((Some(range), end))
        }
    }
}

// The parts of a truncated form, by their ranges.
#[derive(Clone, Copy)]
pub(super) struct TruncatedForm {
    pub(super) value_type: ValueType,
    pub(super) seqno: u64,
    pub(super) shared: u64,
    pub(super) key: SliceIndexes,
    pub(super) value: Option<SliceIndexes>,
}

// The truncated form at an offset, whatever its head, and the offset after it.
#[inline(always)]
#[tactic(auto, unfolding(crate::specs::Entries::truncated_form_at))]
pub(super) fn truncated_form_from(payload: &[u8], offset: usize) -> Option<(TruncatedForm, usize)>
    requires { offset ≤ length payload.now }
    ensures exact { Finds (truncated_of payload.now) payload.now result
        (truncated_form_at (drop offset payload.now)) }
    ensures key { IfSome result (λ f. IsRange payload.now f.0.key) }
    ensures value { IfSome result (λ f. IsOptionalRange payload.now f.0.value) }
    ensures bound { IfSome result (λ f. length (optional_range payload.now f.0.value) < 2 ^ 32) }
{
    let (value_type, at) = value_type_from(payload, offset)?;
    let (seqno, at) = number_from(payload, at, 64)?;
    let (shared, at) = number_from(payload, at, 16)?;
    let (key, at) = length_prefixed_from(payload, at, 16)?;
    let (value, end) = value_from(payload, at, value_type)?;
    Some((
        TruncatedForm {
            value_type,
            seqno,
            shared,
            key,
            value,
        },
        end,
    ))
}

// The range of a prefix of this length at the offset of a head's key, if it lies in the payload and
// the whole key has 1 to 65535 bytes.
#[inline(always)]
pub(super) fn entry_prefix_from(
    payload: &[u8],
    base: usize,
    shared: u64,
    rest: usize,
) -> Option<SliceIndexes>
    ensures found { IfSome result
        (λ p. (p ≡ record { 0 = base; 1 = base + shared }) × IsRange payload.now p
        × IsKeyLength (shared + rest)) }
    ensures none { IfNone result
        (base + shared ≤ length payload.now → IsKeyLength (shared + rest) → ⊥) }
{
    if shared == 0 && rest == 0 {
        return None;
    }
    prefix_from(payload, base, shared, rest)
}

// The same for a length that is at most the length of the head's key.
#[inline(always)]
pub(super) fn entry_prefix_within(
    payload: &[u8],
    base: &SliceIndexes,
    shared: u64,
    rest: usize,
) -> Option<SliceIndexes>
    requires base { IsRange payload.now base.now }
    requires inside { shared ≤ base.now.1 - base.now.0 }
    ensures found { IfSome result
        (λ p. (p ≡ record { 0 = base.now.0; 1 = base.now.0 + shared }) × IsRange payload.now p
        × IsKeyLength (shared + rest)) }
    ensures none { IfNone result
        (base.now.0 + shared ≤ length payload.now → IsKeyLength (shared + rest) → ⊥) }
{
    if shared == 0 && rest == 0 {
        return None;
    }
    prefix_within(payload, base, shared, rest)
}

// The range of the value at an offset (none for a tombstone), and the offset after it.
#[inline(always)]
fn read_value(payload: &[u8], at: usize, value_type: ValueType) -> (Option<SliceIndexes>, usize)
    requires inside { at ≤ length payload.now }
    requires encoded { IsSome (value_at value_type (drop at payload.now)) }
    ensures exact { Takes (optional_range payload.now) payload.now result
        (value_at value_type (drop at payload.now)) }
    ensures range { IsOptionalRange payload.now result.0 }
{
    match value_type {
        ValueType::Tombstone | ValueType::WeakTombstone => (None, at),
        ValueType::Value | ValueType::Indirection => {
            let (range, end) = read_length_prefixed(payload, at, 32);
            (Some(range), end)
        }
    }
}

// The entry whose full form is at an offset, and the offset after the form.
#[inline(always)]
#[tactic(auto, using(crate::specs::FoundLaws::range_some, crate::specs::FoundLaws::range_encoded), unfolding(crate::specs::Entries::full_at))]
fn full_form_from(payload: &[u8], offset: usize) -> Option<(DataBlockParsedItem, usize)>
    requires { offset ≤ length payload.now }
    ensures exact { Finds (entry_of payload.now) payload.now result
        (full_at (drop offset payload.now)) }
    ensures found { IfSome result (λ f. IsParsedEntry payload.now f.0) }
    ensures key { IfSome result
        (λ f. IsEncodedAt payload.now f.0.key.0 (range_bytes payload.now f.0.key)) }
    ensures prefix { IfSome result (λ f. f.0.prefix ≡ None) }
    ensures marker { IsEncodedAt payload.now offset (255 ∷ []) → result ≡ None }
{
    let (value_type, at) = value_type_from(payload, offset)?;
    let (seqno, at) = number_from(payload, at, 64)?;
    let (key, at) = length_prefixed_from(payload, at, 16)?;
    let (value, end) = value_from(payload, at, value_type)?;
    if key.0 == key.1 {
        return None;
    }
    let item = DataBlockParsedItem {
        value_type,
        seqno,
        prefix: None,
        key,
        value,
    };
    Some((item, end))
}

// The entry whose full form is at an offset, and the offset after the form.
#[inline(always)]
fn read_full_form(payload: &[u8], offset: usize) -> (DataBlockParsedItem, usize)
    requires { IsSome (full_at (drop offset payload.now)) }
    ensures exact { Takes (entry_of payload.now) payload.now result
        (full_at (drop offset payload.now)) }
    ensures key { IsRange payload.now result.0.key }
    ensures value { IsOptionalRange payload.now result.0.value }
    ensures prefix { result.0.prefix ≡ None }
{
    let (value_type, at) = read_value_type(payload, offset);
    let (seqno, at) = read_number(payload, at, 64);
    let (key, at) = read_length_prefixed(payload, at, 16);
    let (value, end) = read_value(payload, at, value_type);
    let item = DataBlockParsedItem {
        value_type,
        seqno,
        prefix: None,
        key,
        value,
    };
    (item, end)
}

// The truncated form at an offset, whatever its head, and the offset after it.
#[inline(always)]
fn read_truncated_form(payload: &[u8], offset: usize) -> (TruncatedForm, usize)
    requires { IsSome (truncated_form_at (drop offset payload.now)) }
    ensures exact { Takes (truncated_of payload.now) payload.now result
        (truncated_form_at (drop offset payload.now)) }
    ensures key { IsRange payload.now result.0.key }
    ensures value { IsOptionalRange payload.now result.0.value }
{
    let (value_type, at) = read_value_type(payload, offset);
    let (seqno, at) = read_number(payload, at, 64);
    let (shared, at) = read_number(payload, at, 16);
    let (key, at) = read_length_prefixed(payload, at, 16);
    let (value, end) = read_value(payload, at, value_type);
    let form = TruncatedForm {
        value_type,
        seqno,
        shared,
        key,
        value,
    };
    (form, end)
}

/// Decodes the two forms of an entry as ranges of the payload.
impl Decodable<DataBlockParsedItem> for InternalValue {
    fn parse_restart_key<'a>(
        payload: &'a [u8],
        offset: usize,
        steps: &mut Steps,
    ) -> Option<(&'a [u8], u64)> {
        steps.count_head();
        let (item, _) = full_form_from(payload, offset)?;
        Some((bytes_of(payload, &item.key), item.seqno))
    }

    #[inline(always)]
    fn parse_full(
        payload: &[u8],
        offset: usize,
        steps: &mut Steps,
    ) -> Option<(DataBlockParsedItem, usize)> {
        let found = full_form_from(payload, offset)?;
        steps.count_entry();
        Some(found)
    }

    #[inline(always)]
    fn parse_truncated(
        payload: &[u8],
        offset: usize,
        base_key_offset: usize,
        steps: &mut Steps,
    ) -> Option<(DataBlockParsedItem, usize)> {
        let (form, end) = truncated_form_from(payload, offset)?;
        let rest = form.key.1 - form.key.0;
        let prefix = entry_prefix_from(payload, base_key_offset, form.shared, rest)?;
        steps.count_entry();
        let item = DataBlockParsedItem {
            value_type: form.value_type,
            seqno: form.seqno,
            prefix: Some(prefix),
            key: form.key,
            value: form.value,
        };
        Some((item, end))
    }

    #[inline(always)]
    fn read_full(payload: &[u8], offset: usize, steps: &mut Steps) -> (DataBlockParsedItem, usize) {
        steps.count_entry();
        read_full_form(payload, offset)
    }

    #[inline(always)]
    fn read_truncated(
        payload: &[u8],
        offset: usize,
        base_key_offset: usize,
        steps: &mut Steps,
    ) -> (DataBlockParsedItem, usize) {
        steps.count_entry();
        // A payload has fewer than 2^32 bytes.
        let _size = payload.len();
        let (form, end) = read_truncated_form(payload, offset);
        let prefix = SliceIndexes(base_key_offset, base_key_offset + form.shared as usize);
        let item = DataBlockParsedItem {
            value_type: form.value_type,
            seqno: form.seqno,
            prefix: Some(prefix),
            key: form.key,
            value: form.value,
        };
        (item, end)
    }

    #[inline(always)]
    fn read_head<'a>(payload: &'a [u8], offset: usize, steps: &mut Steps) -> (&'a [u8], u64) {
        steps.count_head();
        let (_, at) = read_value_type(payload, offset);
        let (seqno, at) = read_number(payload, at, 64);
        let (key, _) = read_length_prefixed(payload, at, 16);
        (bytes_of(payload, &key), seqno)
    }
}
