//! Keys as words.
ghost use Rattle.std.specs.Prelude.{◌≡◌, ◌≢◌, IfErr, IfOk, None};
ghost use Rattle.std.specs.Option.{option_map};
ghost use Rattle.sst_tool.specs.Keys.{key_of_word, prefix_end};
ghost use Rattle.sst_tool.specs.declared.fault.Fault.TheVariants.{Memory};

use crate::fault::{Fault, Result};
use std::alloc::Global;

/// Returns the user key that a word names: the bytes that the hex digits after `hex:` encode, or
/// the bytes of the word.
///
/// # Errors
///
/// An error if what follows `hex:` is not pairs of hex digits, `Fault::Memory` if an allocation
/// fails.
pub fn key_in(alloc: Global, word: &str) -> Result<Vec<u8>>
    ensures key { IfOk result (λ key. key_of_word word.now ≡ Some key.items) }
    ensures refused { IfErr result (λ e. e ≢ Memory → key_of_word word.now ≡ None) }
{
    let bytes = word.as_bytes();
    let Some(digits) = bytes.strip_prefix(b"hex:") else {
        return Ok(bytes.to_vec(alloc)?);
    };
    match hex::decode(alloc, digits) {
        Ok(key) => Ok(key),
        Err(hex::FromHexError::OutOfMemory) => Err(Fault::Memory),
        Err(_) => Err(Fault::of_key(alloc, word)),
    }
}

/// Returns the least key above all that begin with a prefix: its bytes up to the last that is not
/// 255, and that one greater by 1. There is none where all are 255.
///
/// # Errors
///
/// `Fault::Memory` if an allocation fails.
pub fn prefix_end(alloc: Global, prefix: &[u8]) -> Result<Option<Vec<u8>>>
    ensures { IfOk result (λ end. option_map (λ key. key.items) end ≡ prefix_end prefix.now) }
{
    let mut end = prefix.to_vec(alloc)?;
    while let Some(last) = end.pop() {
        if last < 255 {
            end.push(last + 1)?;
            return Ok(Some(end));
        }
    }
    Ok(None)
}
