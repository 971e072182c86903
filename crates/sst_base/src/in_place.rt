//! Forms written in place: room is made at the end of a vector, the parts of a form are put there
//! one after the other, and what is left of the room is cut off. So short parts are copied by
//! registers, and the vector's length is not read and written for each.
ghost use Rattle.std.specs.Prelude.{◌≡◌, ◌+◌, ◌-◌, ◌≤◌, ◌<◌, ◌++◌, ◌∷◌, [], take, drop};
ghost use Rattle.std.specs.Prelude.{length, IfOk, OnOk};
ghost use Rattle.sst_base.specs.Reading.{length_prefixed};
ghost use Rattle.sst_base.specs.Varint.{varint};

use crate::error::AllocResult;
use crate::slice::{SHORT_LEN, Slice};

/// The room that is made for a form.
pub const FORM_ROOM: usize = 128;

/// The room that a length and a short byte string take at most.
pub const PREFIXED_ROOM: usize = 50;

// How much room beside that of some forms is made at most.
const MOST_ROOM: usize = 1 << 20;

// How many bytes are copied at once.
const CHUNK_LEN: usize = 16;

// The last index from which a chunk of a short byte string can be copied.
const LAST_CHUNK: usize = SHORT_LEN - CHUNK_LEN;

// Makes the vector longer by unspecified bytes: room for some forms, and as many as it has, at
// most a mebibyte, so that this is seldom done.
#[cold]
#[inline(never)]
fn add_room(writer: &mut Vec<u8>) -> AllocResult<()>
    ensures bytes { OnOk result
        (take (length writer.old.items) writer.new.items ≡ writer.old.items) }
    ensures room { OnOk result (length writer.old.items + 128 ≤ length writer.new.items) }
{
    let len = writer.len();
    writer.resize(len + len.min(MOST_ROOM) + 4 * FORM_ROOM, 0)
}

/// Makes room for a form after the first `at` bytes: the bytes after them are unspecified.
///
/// # Errors
///
/// `AllocError` if an allocation fails.
#[inline(always)]
pub fn make_room(writer: &mut Vec<u8>, at: usize) -> AllocResult<()>
    requires { at ≤ length writer.old.items }
    ensures bytes { OnOk result (take at writer.new.items ≡ take at writer.old.items) }
    ensures room { OnOk result (at + 128 ≤ length writer.new.items) }
{
    if writer.len() - at >= FORM_ROOM {
        return Ok(());
    }
    add_room(writer)
}

/// Puts a byte after the first `at` bytes, where there is room. Returns the length with it.
#[inline(always)]
pub fn put_byte(form: &mut [u8], at: usize, byte: u8) -> usize
    requires room { at < length form.old }
    ensures len { result ≡ at + 1 }
    ensures same_room { length form.new ≡ length form.old }
    ensures bytes { take result form.new ≡ take at form.old ++ byte ∷ [] }
{
    form[at] = byte;
    at + 1
}

/// Puts the minimal encoding of a number as a varint after the first `at` bytes, where there is
/// room for ten more. Returns the length with it.
#[inline(always)]
pub fn put_varint(form: &mut [u8], at: usize, n: u64) -> usize
    requires room { at + 10 ≤ length form.old }
    ensures start { at ≤ result }
    ensures len { result ≤ at + 10 }
    ensures same_room { length form.new ≡ length form.old }
    ensures bytes { take result form.new ≡ take at form.old ++ varint n }
{
    let mut rest = n;
    let mut end = at;
    for i in 0..9usize {
        if rest < 128 {
            return put_byte(form, end, rest as u8);
        }
        end = put_byte(form, end, (rest % 128) as u8 + 128);
        rest /= 128;
    }
    put_byte(form, end, rest as u8)
}

// The chunk of a short byte string at an index.
#[inline(always)]
fn chunk_at(bytes: &[u8; SHORT_LEN], from: usize) -> [u8; CHUNK_LEN]
    requires { from + 16 ≤ 40 }
    ensures { result ≡ take 16 (drop from bytes.now) }
{
    let mut chunk = [0u8; CHUNK_LEN];
    chunk.copy_from_slice(&bytes[from..from + CHUNK_LEN]);
    chunk
}

// Copies a chunk of a short byte string over the bytes from an index. It passes through registers,
// so whether the two overlap is not tested.
#[inline(always)]
fn put_chunk(form: &mut [u8], at: usize, bytes: &[u8; SHORT_LEN], from: usize)
    requires room { at + 16 ≤ length form.old }
    requires inside { from + 16 ≤ 40 }
    ensures same_room { length form.new ≡ length form.old }
    ensures bytes { form.new ≡ take at form.old
        ++ (take 16 (drop from bytes.now) ++ drop (at + 16) form.old) }
{
    let chunk = chunk_at(bytes, from);
    form[at..at + CHUNK_LEN].copy_from_slice(&chunk);
}

// Copies the bytes of a short byte string from an index on, in three chunks that may overlap.
#[inline(always)]
fn put_chunks(form: &mut [u8], at: usize, bytes: &[u8; SHORT_LEN], from: usize)
    requires room { at + 40 ≤ length form.old }
    requires inside { from ≤ 24 }
    ensures same_room { length form.new ≡ length form.old }
    ensures bytes { take (at + (40 - from)) form.new ≡ take at form.old ++ drop from bytes.now }
{
    let second = (from + CHUNK_LEN).min(LAST_CHUNK);
    put_chunk(form, at, bytes, from);
    put_chunk(form, at + (second - from), bytes, second);
    put_chunk(form, at + (LAST_CHUNK - from), bytes, LAST_CHUNK);
}

// Puts the bytes `from..len` of a short byte string after the first `at` bytes, where there is room
// for 40 more. Returns the length with them.
#[inline(always)]
fn put_part(form: &mut [u8], at: usize, bytes: &[u8; SHORT_LEN], from: usize, len: usize) -> usize
    requires room { at + 40 ≤ length form.old }
    requires order { from ≤ len }
    requires inside { len ≤ 40 }
    ensures len { result ≡ at + (len - from) }
    ensures same_room { length form.new ≡ length form.old }
    ensures bytes { take result form.new
        ≡ take at form.old ++ take (len - from) (drop from bytes.now) }
{
    let end = at + (len - from);
    if from <= LAST_CHUNK {
        put_chunks(form, at, bytes, from);
    } else {
        form[at..end].copy_from_slice(&bytes[from..len]);
    }
    end
}

// Puts a byte string after the first `at` bytes, where there is room for it. Returns the length
// with it.
#[inline(always)]
fn put_bytes(form: &mut [u8], at: usize, bytes: &[u8]) -> usize
    requires { at + length bytes.now ≤ length form.old }
    ensures len { result ≡ at + length bytes.now }
    ensures same_room { length form.new ≡ length form.old }
    ensures bytes { take result form.new ≡ take at form.old ++ bytes.now }
{
    let end = at + bytes.len();
    form[at..end].copy_from_slice(bytes);
    end
}

// Appends a byte string after the first `at` bytes, and makes room for a form. Returns the length
// with it.
#[cold]
#[inline(never)]
fn append_long(writer: &mut Vec<u8>, at: usize, bytes: &[u8]) -> AllocResult<usize>
    requires { at ≤ length writer.old.items }
    ensures bytes { IfOk result
        (λ end. take end writer.new.items ≡ take at writer.old.items ++ bytes.now) }
    ensures room { IfOk result (λ end. end + 128 ≤ length writer.new.items) }
{
    writer.truncate(at);
    writer.extend_from_slice(bytes)?;
    let end = writer.len();
    add_room(writer)?;
    Ok(end)
}

// Puts the length of a long byte string from an index on after the first `at` bytes, where there
// is room for ten more, and the string, in place where there is room for it and for `more` bytes.
// Returns the length with the string, after which there is room for `more` bytes.
#[inline(always)]
fn put_long(
    writer: &mut Vec<u8>,
    at: usize,
    bytes: &Slice,
    from: usize,
    more: usize,
) -> AllocResult<usize>
    requires room { at + 10 ≤ length writer.old.items }
    requires inside { from ≤ length bytes.now }
    requires few { more ≤ 128 }
    ensures bytes { IfOk result (λ end. take end writer.new.items
        ≡ take at writer.old.items ++ length_prefixed (drop from bytes.now)) }
    ensures room { IfOk result (λ end. end + more ≤ length writer.new.items) }
{
    let (_, rest) = bytes.as_slice().split_at(from);
    let at = put_varint(writer.as_mut_slice(), at, rest.len() as u64);
    if writer.len() - at < rest.len() + more {
        return append_long(writer, at, rest);
    }
    Ok(put_bytes(writer.as_mut_slice(), at, rest))
}

/// Puts the rest of a byte string, from an index on, with its length as a varint before it, after
/// the first `at` bytes, where there is room for 50 and `more` bytes. Returns the length with it,
/// after which there is room for `more` bytes. The rest of a long string may move the vector.
///
/// # Errors
///
/// `AllocError` if an allocation fails.
#[inline(always)]
pub fn put_length_prefixed(
    writer: &mut Vec<u8>,
    at: usize,
    bytes: &Slice,
    from: usize,
    more: usize,
) -> AllocResult<usize>
    requires room { at + 50 + more ≤ length writer.old.items }
    requires inside { from ≤ length bytes.now }
    requires few { more ≤ 128 }
    ensures bytes { IfOk result (λ end. take end writer.new.items
        ≡ take at writer.old.items ++ length_prefixed (drop from bytes.now)) }
    ensures room { IfOk result (λ end. end + more ≤ length writer.new.items) }
{
    match bytes.as_short() {
        Some((short, len)) => {
            let form = writer.as_mut_slice();
            let at = put_varint(form, at, (len - from) as u64);
            Ok(put_part(form, at, short, from, len))
        }
        None => put_long(writer, at, bytes, from, more),
    }
}
