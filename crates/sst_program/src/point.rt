//! `point`: one data block of all entries, and one look-up in it.
ghost use Rattle.std.specs.Prelude.{◌≡◌, ℕ, ◌≤◌, ◌<◌};
ghost use Rattle.std.specs.Prelude.{◌^◌, List, [], ◌∷◌, ◌++◌};
ghost use Rattle.std.specs.Prelude.{length, map, IfOk, IfErr};
ghost use Rattle.std.specs.Prelude.{OnOk, IsOkUnless};
ghost use Rattle.std.specs.Io.KnownBytes.{Appends};
ghost use Rattle.hex.specs.Hex.{encode_lower};
ghost use Rattle.sst_program.specs.Outcome.{outcome_of_query};
ghost use Rattle.sst_program.specs.Outcome.{IsOutcomeOf, IsFaultOf, PrintsNothing};
ghost use Rattle.sst_program.specs.Point.{point_payload, point_text_of};
ghost use Rattle.sstable_blocks.specs.Prelude.{IsOrdered, entries, IsRefusal, plain};

use crate::fault::{self, Fault};
use crate::input::ordered_entries;
use crate::lines::answer_line;
use crate::output::print_text;
use crate::words::PointWords;
use sstable_blocks::{
    Block, BlockType, DataBlock, Error, HashRatio, InternalValue, Poly31, Result, SeqNo, Slice,
    Steps,
};
use std::alloc::Global;
use std::io::{Read, Write};

// The block with this payload.
fn block_of(bytes: Vec<u8>) -> Result<Block>
    requires fits { length bytes.items < 2 ^ 32 }
    ensures payload { IfOk result (λ block. block.payload ≡ bytes.items) }
    ensures memory { IsOkUnless result Error.Memory }
{
    Ok(Block::from_payload(BlockType::Data, Slice::from_vec(bytes)?))
}

// The block of these entries, without buckets.
fn block_with(alloc: Global, items: &[InternalValue], interval: u8) -> Result<DataBlock<Poly31>>
    requires some { 1 ≤ length items.now }
    requires ordered { IsOrdered entries items.now }
    requires interval { 1 ≤ interval }
    ensures payload { IfOk result (λ block. block.payload ≡ point_payload items.now interval) }
    ensures items { IfOk result (λ block. block.items ≡ map plain items.now) }
    ensures fits { OnOk result (length (point_payload items.now interval) < 2 ^ 32) }
    ensures cause { IfErr result
        (IsRefusal None (2 ^ 32 ≤ length (point_payload items.now interval))) }
{
    let ratio = HashRatio { num: 0, den: 1 };
    let bytes = DataBlock::<Poly31>::encode_into_vec(alloc, items, interval, ratio)?;
    Ok(DataBlock::new(block_of(bytes)?))
}

// Bytes in lower-case hex, and a result, a line each. The hex digits are written in place.
fn two_lines(alloc: Global, bytes: &[u8], answer: &str) -> Result<Vec<u8>>
    ensures ok { IfOk result
        (λ text. text.items ≡ encode_lower bytes.now ++ (10 ∷ []) ++ answer.now
        ++ (10 ∷ [])) }
    ensures memory { IsOkUnless result Error.Memory }
{
    let hex_len = 2 * bytes.len();
    let len = hex_len.saturating_add(answer.len()).saturating_add(2);
    let mut text = Vec::with_capacity(alloc, len)?;
    text.resize(hex_len, 0u8)?;
    if hex::encode_to_slice(bytes, text.as_mut_slice()).is_err() {
        unreachable!()
    }
    text.push(b'\n')?;
    text.extend_from_slice(answer.as_bytes())?;
    text.push(b'\n')?;
    Ok(text)
}

/// Returns the two lines that `point` prints for these entries.
///
/// # Errors
///
/// `Error::TooLong` if the block has 2^32 bytes or more, and `Error::Memory` if an allocation
/// fails.
pub fn point_text(
    alloc: Global,
    items: &[InternalValue],
    interval: u8,
    needle: &[u8],
    seqno: SeqNo,
) -> Result<Vec<u8>>
    requires some { 1 ≤ length items.now }
    requires ordered { IsOrdered entries items.now }
    requires interval { 1 ≤ interval }
    ensures ok { IfOk result
        (λ text. text.items ≡ point_text_of items.now interval needle.now seqno) }
    ensures fits { OnOk result (length (point_payload items.now interval) < 2 ^ 32) }
    ensures cause { IfErr result
        (IsRefusal None (2 ^ 32 ≤ length (point_payload items.now interval))) }
{
    let block = block_with(alloc, items, interval)?;
    let found = block.point_read(alloc, needle, seqno, &mut Steps::new())?;
    let answer = answer_line(alloc, found)?;
    two_lines(alloc, block.as_slice().as_slice(), answer.as_str())
}

// What `point` prints for this input.
fn text_for<I: Read>(alloc: Global, words: &PointWords, input: &mut I) -> fault::Result<Vec<u8>>
    ensures ok { IfOk result
        (λ text. IsOutcomeOf (outcome_of_query words.now) (I.remaining input.old) text.items) }
    ensures err { IfErr result (IsFaultOf (outcome_of_query words.now) (I.remaining input.old)) }
{
    let items = ordered_entries(alloc, input)?;
    Ok(point_text(
        alloc,
        items.as_slice(),
        words.interval(),
        words.needle(),
        words.seqno(),
    )?)
}

/// Reads entries, and prints their block and the entry that is found in it.
///
/// # Errors
///
/// `Fault::NoEntries`, `Fault::Entry` and `Fault::Order` if the input is refused, `Error::TooLong`
/// if the block has 2^32 bytes or more, `Error::Memory` if an allocation fails, and `Error::Io` if
/// the input or the output fails. Nothing is printed then, or a beginning if the output failed.
pub fn point<I: Read, O: Write>(
    alloc: Global,
    words: &PointWords,
    input: &mut I,
    output: &mut O,
) -> fault::Result<()>
    ensures printed { OnOk result ((text : List ℕ)
        × IsOutcomeOf (outcome_of_query words.now) (I.remaining input.old) text
        × Appends (O.contents output.old) (O.contents output.new) text) }
    ensures err { IfErr result (IsFaultOf (outcome_of_query words.now) (I.remaining input.old)) }
    ensures kept { IfErr result (PrintsNothing (O.contents output.old) (O.contents output.new)) }
{
    let text = text_for(alloc, words, input)?;
    print_text(output, text.as_slice())?;
    Ok(())
}
