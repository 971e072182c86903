//! The first two stages: a trailer, whose numbers fit each other and the payload.
ghost use Rattle.std.specs.Prelude.{◌≡◌, ◌↔◌, length, IsTrue, OnOk, IfOk, IfErr};
ghost use Rattle.sst_base.specs.Bytes.{IsBytes};
ghost use Rattle.std.specs.Bool.{OnTrue, OnFalse};
ghost use Rattle.sst_block_core.specs.Passes.{trailer_by, IsPartsRefusal};
ghost use Rattle.sst_block_core.specs.Stages.{HasTrailer, HasParts};
ghost use Rattle.sst_block_core.specs.Trailer.{reserved, trailer_in};

use crate::table::block::hash_index::MAX_POINTERS_FOR_HASH_INDEX;
use crate::table::block::trailer::{
    ITEM_COUNT_AT, TRAILER_SIZE, TRAILER_START_MARKER, TRUNCATION_FLAG_AT, Trailer, TrailerNumbers,
};
use sst_base::input::note_bytes;
use sst_base::{Error, Result};

// Returns whether these are the nine fixed bytes of a trailer.
fn is_reserved(bytes: &[u8]) -> bool
    requires { length bytes.now ≡ 9 }
    ensures { IsTrue result ↔ (bytes.now ≡ reserved) }
{
    matches!(bytes, [1, 0, 0, 0, 0, 0, 0, 0, 0])
}

// Returns whether the numbers of a payload's trailer fit each other and the payload.
fn has_parts(payload: &[u8], t: &TrailerNumbers) -> bool
    requires { HasTrailer payload.now }
    ensures yes { OnTrue result (HasParts (trailer_by t.now) payload.now) }
    ensures other { OnFalse result (HasParts (trailer_by t.now) payload.now → ⊥) }
{
    let interval = u64::from(t.interval);
    let heads = u64::from(t.heads);
    if t.interval == 0 || t.item_count == 0 || t.index_offset == 0 {
        return false;
    }
    if t.width != 2 && t.width != 4 {
        return false;
    }
    if heads != (u64::from(t.item_count) + (interval - 1)) / interval {
        return false;
    }
    let (front, tail) = payload.split_at(payload.len() - TRAILER_SIZE);
    let start = t.index_offset as usize;
    if start > front.len() || payload[start - 1] != TRAILER_START_MARKER {
        return false;
    }
    let (_, rest) = tail.split_at(TRUNCATION_FLAG_AT);
    let (rest, _) = rest.split_at(ITEM_COUNT_AT - TRUNCATION_FLAG_AT);
    if !is_reserved(rest) {
        return false;
    }
    let end = u64::from(t.index_offset) + heads * u64::from(t.width);
    if end + u64::from(t.hash_len) != front.len() as u64 {
        return false;
    }
    if t.hash_len == 0 {
        return t.hash_offset == 0;
    }
    heads <= MAX_POINTERS_FOR_HASH_INDEX as u64 && u64::from(t.hash_offset) == end
}

/// Returns the numbers of the trailer of a block's payload, if they fit each other and the payload.
///
/// # Errors
///
/// `Error::Truncated` if the payload has fewer than 31 bytes; `Error::BadTrailer` if the numbers do
/// not fit.
pub fn parts_of(payload: &[u8]) -> Result<TrailerNumbers>
    ensures trailer { IfOk result (λ t. trailer_by t ≡ trailer_in payload.now) }
    ensures long { OnOk result (HasTrailer payload.now) }
    ensures parts { OnOk result (HasParts (trailer_in payload.now) payload.now) }
    ensures bytes { IsBytes payload.now }
    ensures refused { IfErr result (IsPartsRefusal (trailer_in payload.now) payload.now) }
{
    note_bytes(payload);
    if payload.len() < TRAILER_SIZE {
        return Err(Error::Truncated);
    }
    let numbers = Trailer::new(payload).numbers();
    if !has_parts(payload, &numbers) {
        return Err(Error::BadTrailer);
    }
    Ok(numbers)
}
