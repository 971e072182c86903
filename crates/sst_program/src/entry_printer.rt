//! Printing entries through a buffer of fixed size. Nothing is allocated but the buffer, so a block
//! is printed whole unless the output fails.
ghost use Rattle.std.specs.Prelude.{◌≡◌, ◌⊎◌, ◌≤◌, [], ◌∷◌, ◌++◌, length, OnOk, IfErr, IsOkUnless};
ghost use Rattle.std.specs.Io.KnownBytes.{Appends, Keeps};
ghost use Rattle.std.specs.Fmt.{decimal};
ghost use Rattle.hex.specs.Hex.{encode_lower};
ghost use Rattle.sst_program.specs.Line.{letter_of, byte_text_of, entry_line_of};
ghost use Rattle.sst_program.specs.Outcome.{Puts, lines_text_of};
ghost use Rattle.sstable_blocks.specs.Results.{Io, Memory};

use crate::lines::letter_of;
use crate::output::print_text;
use itoa::Buffer;
use sstable_blocks::{DataBlock, EntryView, Error, Poly31, Result, SeqNo, ValueType};
use std::alloc::Global;
use std::io::Write;

/// The number of bytes that wait to be printed, at most.
pub const BUFFER_LEN: usize = 65536;

// The number of bytes that are made hex at once, and of their digits.
const PART_LEN: usize = 64;

const DIGITS_LEN: usize = 2 * PART_LEN;

// Puts bytes after those that wait in a buffer. Where they do not fit, both are printed.
fn put<O: Write>(buffer: &mut Vec<u8>, output: &mut O, bytes: &[u8]) -> Result<()>
    ensures put { OnOk result (Puts (O.contents output.old) buffer.old.items
        (O.contents output.new) buffer.new.items bytes.now) }
    ensures io { IsOkUnless result Error.Io }
{
    if bytes.len() > buffer.capacity() - buffer.len() {
        output.write_all(buffer.as_slice())?;
        buffer.clear();
        output.write_all(bytes)?;
        return Ok(());
    }
    if buffer.extend_from_slice(bytes).is_err() {
        unreachable!()
    }
    Ok(())
}

// Puts a few bytes in lower-case hex.
fn put_part<O: Write>(buffer: &mut Vec<u8>, output: &mut O, part: &[u8]) -> Result<()>
    requires { length part.now ≤ 64 }
    ensures put { OnOk result (Puts (O.contents output.old) buffer.old.items
        (O.contents output.new) buffer.new.items (encode_lower part.now)) }
    ensures io { IsOkUnless result Error.Io }
{
    let mut place = [0u8; DIGITS_LEN];
    let digits = &mut place[..2 * part.len()];
    if hex::encode_to_slice(part, digits).is_err() {
        unreachable!()
    }
    put(buffer, output, digits)
}

// Puts bytes in lower-case hex.
fn put_hex<O: Write>(buffer: &mut Vec<u8>, output: &mut O, bytes: &[u8]) -> Result<()>
    ensures put { OnOk result (Puts (O.contents output.old) buffer.old.items
        (O.contents output.new) buffer.new.items (encode_lower bytes.now)) }
    ensures io { IsOkUnless result Error.Io }
{
    let mut rest = bytes;
    while !rest.is_empty() {
        let (part, behind) = rest.split_at(PART_LEN.min(rest.len()));
        put_part(buffer, output, part)?;
        rest = behind;
    }
    Ok(())
}

// Puts the letter of a type and a sequence number, each with the space after it.
fn put_front<O: Write>(
    buffer: &mut Vec<u8>,
    output: &mut O,
    value_type: ValueType,
    seqno: SeqNo,
) -> Result<()>
    ensures put { OnOk result (Puts (O.contents output.old) buffer.old.items
        (O.contents output.new) buffer.new.items
        ((letter_of value_type ∷ 32 ∷ []) ++ decimal seqno ++ (32 ∷ []))) }
    ensures io { IsOkUnless result Error.Io }
{
    let letter = letter_of(value_type) as u8;
    put(buffer, output, &[letter, b' '])?;
    put(buffer, output, Buffer::new().format(seqno).as_bytes())?;
    put(buffer, output, b" ")
}

// Puts the key of an entry.
fn put_key<O: Write>(buffer: &mut Vec<u8>, output: &mut O, entry: &EntryView<'_>) -> Result<()>
    ensures put { OnOk result (Puts (O.contents output.old) buffer.old.items
        (O.contents output.new) buffer.new.items (encode_lower entry.now.key.user_key)) }
    ensures io { IsOkUnless result Error.Io }
{
    let (prefix, rest) = entry.key_parts();
    put_hex(buffer, output, prefix)?;
    put_hex(buffer, output, rest)?;
    Ok(())
}

// Puts a value, or `-` for an empty one.
fn put_value<O: Write>(buffer: &mut Vec<u8>, output: &mut O, value: &[u8]) -> Result<()>
    ensures put { OnOk result (Puts (O.contents output.old) buffer.old.items
        (O.contents output.new) buffer.new.items (byte_text_of value.now)) }
    ensures io { IsOkUnless result Error.Io }
{
    if value.is_empty() {
        return put(buffer, output, b"-");
    }
    put_hex(buffer, output, value)
}

/// Puts the line of an entry, with its line feed, after the bytes that wait in a buffer to be
/// printed. Where they do not fit, they are printed. The buffer does not grow.
///
/// # Errors
///
/// `Error::Io` if the output fails. It may then hold a part of the line.
pub fn put_line<O: Write>(buffer: &mut Vec<u8>, output: &mut O, entry: &EntryView<'_>) -> Result<()>
    ensures put { OnOk result (Puts (O.contents output.old) buffer.old.items
        (O.contents output.new) buffer.new.items (entry_line_of entry.now ++ (10 ∷ []))) }
    ensures io { IsOkUnless result Error.Io }
{
    put_front(buffer, output, entry.value_type(), entry.seqno())?;
    put_key(buffer, output, entry)?;
    put(buffer, output, b" ")?;
    put_value(buffer, output, entry.value())?;
    put(buffer, output, b"\n")?;
    Ok(())
}

// Puts the lines of the entries of a block.
fn put_entries<O: Write>(
    buffer: &mut Vec<u8>,
    output: &mut O,
    block: &DataBlock<Poly31>,
) -> Result<()>
    ensures put { OnOk result (Puts (O.contents output.old) buffer.old.items
        (O.contents output.new) buffer.new.items (lines_text_of block.now.items)) }
    ensures io { IsOkUnless result Error.Io }
{
    let payload = block.as_slice().as_slice();
    for item in block.iter() {
        put_line(buffer, output, &EntryView::new(payload, item))?;
    }
    Ok(())
}

/// Prints the lines of the entries of a block, through a buffer of 64 KiB.
///
/// # Errors
///
/// `Error::Memory` if the buffer cannot be allocated; nothing is printed then. `Error::Io` if the
/// output fails. It may then hold a partial write.
pub fn print_entries_of<O: Write>(
    alloc: Global,
    block: &DataBlock<Poly31>,
    output: &mut O,
) -> Result<()>
    ensures printed { OnOk result (Appends (O.contents output.old) (O.contents output.new)
        (lines_text_of block.now.items)) }
    ensures kept { IfErr result (λ e. (e ≡ Io)
        ⊎ ((e ≡ Memory) × Keeps (O.contents output.old) (O.contents output.new))) }
{
    let mut buffer = Vec::with_capacity(alloc, BUFFER_LEN)?;
    put_entries(&mut buffer, output, block)?;
    print_text(output, buffer.as_slice())
}
