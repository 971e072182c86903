//! Entry lines: `C S K V`, the letter of the type, the sequence number, the key and the value.
ghost use Rattle.std.specs.Prelude.{◌≡◌, ◌↔◌, []};
ghost use Rattle.std.specs.Prelude.{◌∷◌, ◌++◌, IfSome, IfNone};
ghost use Rattle.std.specs.Prelude.{IfOk, IsOkUnless, Some, string_bytes};
ghost use Rattle.sst_program.specs.Line.{entry_line_of, letter_of, byte_text_of, joined_by_spaces};
ghost use Rattle.sst_program.specs.Line.{Encodes};
ghost use Rattle.sst_program.specs.Line.{Lacks, type_of_letters, entry_of_parts, entry_of_line};
ghost use Rattle.sst_program.specs.Point.{answer_line_of};
ghost use Rattle.sstable_blocks.specs.Prelude.{Entry, plain_value};

use crate::fault::Fault;
use crate::text::{bytes_in, number_in};
use sstable_blocks::key::MAX_KEY_LEN;
use sstable_blocks::{Error, InternalValue, Result, Slice, ValueType};
use std::alloc::Global;

// The greatest length of a value.
const MAX_VALUE_LEN: usize = u32::MAX as usize;

/// Returns the letter of a type.
pub fn letter_of(value_type: ValueType) -> char
    ensures { result ≡ letter_of value_type }
{
    match value_type {
        ValueType::Value => 'V',
        ValueType::Tombstone => 'T',
        ValueType::WeakTombstone => 'W',
        ValueType::Indirection => 'I',
    }
}

// The type that a letter names.
fn value_type_in(letter: &[u8]) -> Option<ValueType>
    ensures letter { IfSome result (λ value_type. letter.now ≡ letter_of value_type ∷ []) }
    ensures exact { result ≡ type_of_letters letter.now }
{
    match letter {
        b"V" => Some(ValueType::Value),
        b"T" => Some(ValueType::Tombstone),
        b"W" => Some(ValueType::WeakTombstone),
        b"I" => Some(ValueType::Indirection),
        _ => None,
    }
}

// Bytes in lower-case hex, or `-` for none.
fn byte_text(alloc: Global, bytes: &[u8]) -> Result<String>
    ensures ok { IfOk result (λ text. string_bytes text ≡ byte_text_of bytes.now) }
    ensures memory { IsOkUnless result Error.Memory }
{
    if bytes.is_empty() {
        return Ok(String::from_str(alloc, "-")?);
    }
    Ok(hex::encode(alloc, bytes)?)
}

/// Returns the line of an entry, without its line feed.
///
/// # Errors
///
/// `Error::Memory` if an allocation fails.
pub fn entry_line(alloc: Global, item: &InternalValue) -> Result<String>
    ensures ok { IfOk result (λ line. string_bytes line ≡ entry_line_of item.now) }
    ensures memory { IsOkUnless result Error.Memory }
{
    let key = item.key();
    let letter = letter_of(key.value_type());
    let seqno = key.seqno();
    let user_key = hex::encode(alloc, key.user_key().as_slice())?;
    let value = byte_text(alloc, item.value().as_slice())?;
    Ok(format!(in alloc; "{letter} {seqno} {user_key} {value}")?)
}

/// Returns the line of the entry that is found, or `none`.
///
/// # Errors
///
/// `Error::Memory` if an allocation fails.
pub fn answer_line(alloc: Global, found: Option<InternalValue>) -> Result<String>
    ensures ok { IfOk result (λ line. string_bytes line ≡ answer_line_of found) }
    ensures memory { IsOkUnless result Error.Memory }
{
    match found {
        Some(item) => entry_line(alloc, &item),
        None => Ok(String::from_str(alloc, "none")?),
    }
}

// The four parts of a line, between single spaces.
#[derive(Drop)]
struct Parts<'a> {
    letter: &'a [u8],
    seqno: &'a [u8],
    key: &'a [u8],
    value: &'a [u8],
}

// The bytes before the first one of this value, and those after it.
fn cut_at(bytes: &[u8], byte: u8) -> Option<(&[u8], &[u8])>
    ensures joined { IfSome result (λ p. bytes.now ≡ p.0.now ++ (byte ∷ p.1.now)) }
    ensures first { IfSome result (λ p. Lacks byte p.0.now) }
    ensures none { IfNone result (Lacks byte bytes.now) }
{
    let end = bytes.iter().position(|b| *b == byte)?;
    Some((&bytes[..end], &bytes[end + 1..]))
}

// The parts of a line. The last has what is after the third space.
fn parts_of(line: &[u8]) -> Option<Parts<'_>>
    ensures joined { IfSome result (λ p. line.now
        ≡ joined_by_spaces p.letter.now p.seqno.now p.key.now p.value.now) }
    ensures some { IfSome result (λ p. entry_of_line line.now
        ≡ entry_of_parts p.letter.now p.seqno.now p.key.now p.value.now) }
    ensures none { IfNone result (entry_of_line line.now ≡ None) }
{
    let (letter, rest) = cut_at(line, b' ')?;
    let (seqno, rest) = cut_at(rest, b' ')?;
    let (key, value) = cut_at(rest, b' ')?;
    Some(Parts {
        letter,
        seqno,
        key,
        value,
    })
}

// The value of an entry of this type, which is none for a tombstone.
fn value_of(alloc: Global, value_type: ValueType, bytes: Vec<u8>) -> Result<Slice>
    ensures ok { IfOk result (λ value. value ≡ plain_value value_type bytes.items) }
    ensures memory { IsOkUnless result Error.Memory }
{
    if value_type.is_tombstone() {
        Ok(Slice::empty(alloc))
    } else {
        Slice::from_vec(bytes)
    }
}

// The entry that these parts encode, if they encode one.
fn entry_from(alloc: Global, parts: Parts<'_>) -> Result<Option<InternalValue>>
    ensures ok { IfOk result (λ found. found
        ≡ entry_of_parts parts.entry.letter.now parts.entry.seqno.now parts.entry.key.now
        parts.entry.value.now) }
    ensures memory { IsOkUnless result Error.Memory }
{
    let (Some(value_type), Some(seqno)) = (value_type_in(parts.letter), number_in(parts.seqno))
    else {
        return Ok(None);
    };
    let Some(key) = bytes_in(alloc, parts.key)? else {
        return Ok(None);
    };
    let Some(value) = bytes_in(alloc, parts.value)? else {
        return Ok(None);
    };
    if key.is_empty() || key.len() > MAX_KEY_LEN || value.len() > MAX_VALUE_LEN {
        return Ok(None);
    }
    let key = Slice::from_vec(key)?;
    let value = value_of(alloc, value_type, value)?;
    Ok(Some(InternalValue::from_components(key, value, seqno, value_type)))
}

/// Returns the entry that a line without its line feed encodes, or `None` if it encodes none. A
/// tombstone's value is left out.
///
/// # Errors
///
/// `Error::Memory` if an allocation fails.
pub fn entry_in(alloc: Global, line: &[u8]) -> Result<Option<InternalValue>>
    ensures ok { IfOk result (λ found. found ≡ entry_of_line line.now) }
    ensures encoded { IfOk result
        (λ found. (e : Entry) → (found ≡ Some e) ↔ Encodes line.now e) }
    ensures memory { IsOkUnless result Error.Memory }
{
    match parts_of(line) {
        Some(parts) => entry_from(alloc, parts),
        None => Ok(None),
    }
}
