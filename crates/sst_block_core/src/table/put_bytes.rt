//! Byte strings that are borrowed, whole or in two parts, put in place.
ghost use Rattle.std.specs.Prelude.{◌≡◌, ◌+◌, ◌≤◌, ◌<◌, ◌++◌, take, drop, length, IfOk};
ghost use Rattle.sst_base.specs.Reading.{length_prefixed};

use crate::table::block::key_parts::KeyParts;
use sst_base::AllocResult;
use sst_base::in_place::{make_room, put_varint};

// The greatest length of a byte string that is put where there is room for a short one.
const SHORT_LEN: usize = 32;

// Copies a chunk of a byte string over the bytes from an index. It passes through registers, so
// whether the two overlap is not tested.
#[inline(always)]
fn put_chunk<const N: usize>(form: &mut [u8], at: usize, bytes: &[u8], from: usize)
    requires room { at + N ≤ length form.old }
    requires inside { from + N ≤ length bytes.now }
    ensures same_room { length form.new ≡ length form.old }
    ensures bytes { form.new
        ≡ take at form.old ++ (take N (drop from bytes.now) ++ drop (at + N) form.old) }
{
    let mut chunk = [0u8; N];
    chunk.copy_from_slice(&bytes[from..from + N]);
    form[at..at + N].copy_from_slice(&chunk);
}

// Puts a byte string of one to two chunks after the first `at` bytes, where there is room for it:
// its first chunk and its last, which may overlap. Returns the length with it.
#[inline(always)]
fn put_ends<const N: usize>(form: &mut [u8], at: usize, bytes: &[u8]) -> usize
    requires room { at + length bytes.now ≤ length form.old }
    requires one { N ≤ length bytes.now }
    requires two { length bytes.now ≤ N + N }
    ensures len { result ≡ at + length bytes.now }
    ensures same_room { length form.new ≡ length form.old }
    ensures bytes { take result form.new ≡ take at form.old ++ bytes.now }
{
    let last = bytes.len() - N;
    put_chunk::<N>(form, at, bytes, 0);
    put_chunk::<N>(form, at + last, bytes, last);
    at + bytes.len()
}

// Puts a byte string of up to 32 bytes after the first `at` bytes, where there is room for it.
// Returns the length with it.
#[inline(always)]
fn put_short(form: &mut [u8], at: usize, bytes: &[u8]) -> usize
    requires room { at + length bytes.now ≤ length form.old }
    requires short { length bytes.now ≤ 32 }
    ensures len { result ≡ at + length bytes.now }
    ensures same_room { length form.new ≡ length form.old }
    ensures bytes { take result form.new ≡ take at form.old ++ bytes.now }
{
    if bytes.len() >= 16 {
        return put_ends::<16>(form, at, bytes);
    }
    if bytes.len() >= 8 {
        return put_ends::<8>(form, at, bytes);
    }
    if bytes.len() >= 4 {
        return put_ends::<4>(form, at, bytes);
    }
    match bytes.len() {
        0 => at,
        1 => put_ends::<1>(form, at, bytes),
        _ => put_ends::<2>(form, at, bytes),
    }
}

// Puts a byte string of 33 bytes or more after the first `at` bytes, where there is room for it.
// Returns the length with it.
#[inline(always)]
fn put_bytes(form: &mut [u8], at: usize, bytes: &[u8]) -> usize
    requires room { at + length bytes.now ≤ length form.old }
    requires long { 32 < length bytes.now }
    ensures len { result ≡ at + length bytes.now }
    ensures same_room { length form.new ≡ length form.old }
    ensures bytes { take result form.new ≡ take at form.old ++ bytes.now }
{
    if bytes.len() <= 64 {
        return put_ends::<32>(form, at, bytes);
    }
    let end = at + bytes.len();
    form[at..end].copy_from_slice(bytes);
    end
}

// Puts a byte string after the first `at` bytes, where there is room for it. Returns the length
// with it.
#[inline(always)]
fn put_any(form: &mut [u8], at: usize, bytes: &[u8]) -> usize
    requires room { at + length bytes.now ≤ length form.old }
    ensures len { result ≡ at + length bytes.now }
    ensures same_room { length form.new ≡ length form.old }
    ensures bytes { take result form.new ≡ take at form.old ++ bytes.now }
{
    if bytes.len() > SHORT_LEN {
        put_bytes(form, at, bytes)
    } else {
        put_short(form, at, bytes)
    }
}

// Appends a byte string in two parts after the first `at` bytes, and makes room for a form. Returns
// the length with it.
#[cold]
#[inline(never)]
fn append_long(writer: &mut Vec<u8>, at: usize, parts: KeyParts<'_>) -> AllocResult<usize>
    requires { at ≤ length writer.old.items }
    ensures bytes { IfOk result (λ end. take end writer.new.items
        ≡ take at writer.old.items ++ (parts.entry.0.now ++ parts.entry.1.now)) }
    ensures room { IfOk result (λ end. end + 128 ≤ length writer.new.items) }
{
    writer.truncate(at);
    writer.extend_from_slice(parts.0)?;
    writer.extend_from_slice(parts.1)?;
    let end = writer.len();
    make_room(writer, end)?;
    Ok(end)
}

// Puts the length of a byte string in two parts after the first `at` bytes, where there is room for
// ten more, and the string, in place where there is room for it and for `more` bytes. Returns the
// length with the string, after which there is room for `more` bytes.
#[inline(always)]
fn put_long(writer: &mut Vec<u8>, at: usize, parts: KeyParts<'_>, more: usize) -> AllocResult<usize>
    requires room { at + 10 ≤ length writer.old.items }
    requires few { more ≤ 128 }
    ensures bytes { IfOk result (λ end. take end writer.new.items
        ≡ take at writer.old.items ++ length_prefixed (parts.entry.0.now ++ parts.entry.1.now)) }
    ensures room { IfOk result (λ end. end + more ≤ length writer.new.items) }
{
    let len = parts.0.len() + parts.1.len();
    let at = put_varint(writer.as_mut_slice(), at, len as u64);
    if writer.len() - at < len.saturating_add(more) {
        return append_long(writer, at, parts);
    }
    let at = put_any(writer.as_mut_slice(), at, parts.0);
    Ok(put_any(writer.as_mut_slice(), at, parts.1))
}

/// Puts a byte string with its length as a varint before it after the first `at` bytes, where there
/// is room for 50 and `more` bytes. Returns the length with it, after which there is room for
/// `more` bytes, at most 128. A long string may move the vector.
///
/// # Errors
///
/// `AllocError` if an allocation fails.
#[inline(always)]
pub(crate) fn put_length_prefixed(
    writer: &mut Vec<u8>,
    at: usize,
    bytes: &[u8],
    more: usize,
) -> AllocResult<usize>
    requires room { at + 50 + more ≤ length writer.old.items }
    requires few { more ≤ 128 }
    ensures bytes { IfOk result (λ end. take end writer.new.items
        ≡ take at writer.old.items ++ length_prefixed bytes.now) }
    ensures room { IfOk result (λ end. end + more ≤ length writer.new.items) }
{
    if bytes.len() > SHORT_LEN {
        return put_long(writer, at, (&[], bytes), more);
    }
    let form = writer.as_mut_slice();
    let at = put_varint(form, at, bytes.len() as u64);
    Ok(put_short(form, at, bytes))
}

/// Puts a key with its length as a varint before it, as [`put_length_prefixed`] puts a byte string.
///
/// # Errors
///
/// `AllocError` if an allocation fails.
#[inline(always)]
pub(crate) fn put_key(
    writer: &mut Vec<u8>,
    at: usize,
    key: KeyParts<'_>,
    more: usize,
) -> AllocResult<usize>
    requires room { at + 50 + more ≤ length writer.old.items }
    requires few { more ≤ 128 }
    ensures bytes { IfOk result (λ end. take end writer.new.items
        ≡ take at writer.old.items ++ length_prefixed (key.entry.0.now ++ key.entry.1.now)) }
    ensures room { IfOk result (λ end. end + more ≤ length writer.new.items) }
{
    let len = key.0.len() + key.1.len();
    if len > SHORT_LEN {
        return put_long(writer, at, key, more);
    }
    let form = writer.as_mut_slice();
    let at = put_varint(form, at, len as u64);
    let at = put_short(form, at, key.0);
    Ok(put_short(form, at, key.1))
}
