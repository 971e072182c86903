//! Values with an encoding, and varints: numbers in base 128, least significant digit first.
ghost use Rattle.std.specs.Prelude.{◌≡◌, ℕ, ◌+◌, ◌^◌};
ghost use Rattle.std.specs.Prelude.{◌<◌, ◌≤◌, ◌++◌, length, take};
ghost use Rattle.std.specs.Prelude.{OnOk, OnErr, IsOkUnless, IfSome, IfNone, None};
ghost use Rattle.std.specs.Prelude.{List, Some, IfOk, Result as Outcome};
ghost use Rattle.std.specs.Io.KnownBytes.{Appends};
ghost use Rattle.std.specs.Vec.{vec_len, vec_capacity};
ghost use Rattle.sst_base.specs.Inputs.{Reads};
ghost use Rattle.sst_base.specs.declared.error.Error.{Error};
ghost use Rattle.sst_base.specs.Varint.{IsVarint, IsWidth, varint, varint_up_to};
ghost use Rattle.sst_base.specs.Varint.{varint_at};

use crate::error::{Error, Result};
use crate::in_place::put_varint;
use crate::input::Input;
use crate::output::Output;
use std::alloc::Global;

/// A value with an encoding.
pub trait Encode {
    // the bytes of the encoding
    ghost encoding: { Self → List ℕ };

    /// Writes the encoding.
    ///
    /// # Errors
    ///
    /// `Error::Io` if the writer fails. It may then hold a partial write.
    fn encode_into<W: Output>(&self, writer: &mut W) -> Result<()>
        ensures ok { OnOk result
            (Appends (W.contents writer.old) (W.contents writer.new) (encoding self.now)) }
        ensures io { IsOkUnless result Error.Io }
        ensures failed { OnErr result (W.never_fails writer.old → ⊥) };

    /// Returns the encoding.
    ///
    /// # Errors
    ///
    /// `Error::Memory` if an allocation fails.
    fn encode_into_vec(&self, alloc: Global) -> Result<Vec<u8>>
        ensures ok { IfOk result (λ bytes. bytes.items ≡ encoding self.now) }
        ensures memory { IsOkUnless result Error.Memory };
}

/// A value that can be decoded.
pub trait Decode: Sized {
    // what is encoded at the start of bytes and the bytes after it, or the first error
    ghost decoded: { List ℕ → Outcome (Self × List ℕ) Error };

    /// Decodes what is next in a reader.
    ///
    /// # Errors
    ///
    /// `Error::Io` if the reader fails, or ends before; else the first error in the bytes.
    fn decode_from<R: Input>(reader: &mut R) -> Result<Self>
        ensures read { (bytes : List ℕ) → R.remaining reader.old ≡ Some bytes
            → Reads (R.is_memory reader.old) result (R.remaining reader.new) (decoded bytes) }
        ensures kept { R.is_memory reader.old → R.is_memory reader.new };
}

/// The greatest number of bytes that a varint takes.
pub const MAX_VARINT_LEN: usize = 10;

// The varint of a number, and how many bytes it takes. Takes no memory.
pub(crate) fn varint_digits(n: u64) -> ([u8; MAX_VARINT_LEN], usize)
    ensures len { result.1 ≤ 10 }
    ensures bytes { take result.1 result.0 ≡ varint n }
{
    let mut digits = [0u8; MAX_VARINT_LEN];
    let len = put_varint(&mut digits, 0, n);
    (digits, len)
}

/// Appends the minimal encoding of a number as a varint. On an error the vector is unchanged.
///
/// # Errors
///
/// `Error::Memory` if an allocation fails.
pub fn encode_varint(out: &mut Vec<u8>, n: u64) -> Result<()>
    ensures ok { OnOk result (out.new.items ≡ out.old.items ++ varint n) }
    ensures memory { IsOkUnless result Error.Memory }
    ensures unchanged { OnErr result (out.new.items ≡ out.old.items) }
{
    let (digits, len) = varint_digits(n);
    out.extend_from_slice(&digits[..len])?;
    Ok(())
}

// Decodes a varint of any length, a digit a step: the number of at most `max` that a prefix of the
// bytes encodes, and the length of that prefix.
#[tactic(auto, unfolding(crate::specs::Varint::varint_up_to))]
fn decode_digits(bytes: &[u8], max: u64) -> Option<(u64, usize)>
    ensures { result ≡ varint_up_to max bytes.now }
{
    let (first, _) = bytes.split_first()?;
    let first = u64::from(*first);
    if first < 128 {
        return if first <= max { Some((first, 1)) } else { None };
    }
    if max < 128 {
        return None;
    }
    let mut sum = first - 128;
    let mut scale = 128;
    let mut room = (max - sum) / 128;
    for i in 1..bytes.len() {
        let byte = u64::from(bytes[i]);
        if byte < 128 {
            if byte == 0 || room < byte {
                return None;
            }
            return Some((sum + scale * byte, i + 1));
        }
        if room < 128 {
            return None;
        }
        let digit = byte - 128;
        sum += scale * digit;
        scale *= 128;
        room = (room - digit) / 128;
    }
    None
}

// Decodes a varint of any length, out of line, so that callers stay small. The length 0 means
// `None`: a pair of numbers is returned in registers, an `Option` of one by way of memory.
#[cold]
#[inline(never)]
#[tactic(auto, using(crate::proofs::Framing::ShortVarints::takes_some), unfolding(crate::specs::Varint::varint_at))]
fn decode_long(bytes: &[u8], bits: u32) -> (u64, usize)
    requires { IsWidth bits }
    ensures found { 0 < result.1 → varint_at bits bytes.now ≡ Some result }
    ensures none { result.1 ≡ 0 → varint_at bits bytes.now ≡ None }
{
    match decode_digits(bytes, u64::MAX >> (64 - bits)) {
        Some(found) => found,
        None => (0, 0),
    }
}

// The result of `decode_long` as an `Option`, apart from the cases of `decode_short`.
#[inline(always)]
fn decode_by_long(bytes: &[u8], bits: u32) -> Option<(u64, usize)>
    requires { IsWidth bits }
    ensures { result ≡ varint_at bits bytes.now }
{
    let (n, len) = decode_long(bytes, bits);
    if len == 0 {
        return None;
    }
    Some((n, len))
}

// Decodes a varint: of up to four bytes inline, with one test of length, where four bytes are
// there; else out of line. Its one clause is the definition, from which `decode_varint` derives
// its own.
#[inline(always)]
fn decode_short(bytes: &[u8], bits: u32) -> Option<(u64, usize)>
    requires { IsWidth bits }
    ensures { result ≡ varint_at bits bytes.now }
{
    match bytes {
        [a, _, _, _, ..] if *a < 128 => Some((u64::from(*a), 1)),
        [a, b, _, _, ..] if *a >= 128 && 0 < *b && *b < 128 => {
            Some((u64::from(*a - 128) + 128 * u64::from(*b), 2))
        }
        [a, b, c, _, ..] if bits > 16 && *a >= 128 && *b >= 128 && 0 < *c && *c < 128 => {
            let low = u64::from(*a - 128) + 128 * u64::from(*b - 128);
            Some((low + 16384 * u64::from(*c), 3))
        }
        [a, b, c, d, ..]
            if bits > 16 && *a >= 128 && *b >= 128 && *c >= 128 && 0 < *d && *d < 128 => {
            let low = u64::from(*a - 128) + 128 * u64::from(*b - 128);
            let low = low + 16384 * u64::from(*c - 128);
            Some((low + 2_097_152 * u64::from(*d), 4))
        }
        _ => decode_by_long(bytes, bits),
    }
}

/// Decodes the varint at the start of `bytes`: returns its number and how many bytes it takes.
/// Bytes may follow it.
///
/// `bits` is the width: 16, 32 or 64. Returns `None` exactly if no prefix of the bytes is the
/// minimal encoding of a number below 2^`bits`.
#[inline(always)]
pub fn decode_varint(bytes: &[u8], bits: u32) -> Option<(u64, usize)>
    requires { IsWidth bits }
    ensures exact { result ≡ varint_at bits bytes.now }
    ensures length { IfSome result (λ found. found.1 ≤ length bytes.now) }
    ensures width { IfSome result (λ found. found.0 < 2 ^ bits) }
    ensures found { IfSome result (λ found. IsVarint (take found.1 bytes.now) found.0) }
    ensures none { IfNone result
        ((n len : ℕ) → n < 2 ^ bits → IsVarint (take len bytes.now) n → ⊥) }
{
    decode_short(bytes, bits)
}
