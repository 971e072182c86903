//! Numbers and byte strings as words and lines encode them.
ghost use Rattle.std.specs.Prelude.{◌≡◌, ◌↔◌, ◌≤◌, IsSome, IfSome, IfOk};
ghost use Rattle.std.specs.Prelude.{IsOkUnless};
ghost use Rattle.std.specs.Option.{option_map};
ghost use Rattle.std.specs.Str.Parse.{digits_value};
ghost use Rattle.sst_program.specs.Text.{IsNumberText, hex_bytes, number_of, number_within};

use sstable_blocks::{Error, Result};
use std::alloc::Global;

/// Returns the number that decimal digits encode: at least one digit, with any count of leading
/// zeros, and nothing else. `None` too if it is 2^64 or more.
pub fn number_in(digits: &[u8]) -> Option<u64>
    ensures some { IsSome result ↔ IsNumberText digits.now }
    ensures value { IfSome result (λ n. n ≡ digits_value 10 digits.now) }
    ensures exact { result ≡ number_of digits.now }
{
    parsed(digits)
}

// The number that digits without a sign encode.
fn parsed(digits: &[u8]) -> Option<u64>
    ensures some { IsSome result ↔ IsNumberText digits.now }
    ensures value { IfSome result (λ n. n ≡ digits_value 10 digits.now) }
{
    if digits.first() == Some(&b'+') {
        return None;
    }
    std::str::from_utf8(digits).ok()?.parse::<u64>().ok()
}

/// Returns the byte string that pairs of hex digits in either case encode, or the empty one for
/// `-`. `None` if there are no digits, or anything else.
///
/// # Errors
///
/// `Error::Memory` if an allocation fails.
pub fn bytes_in(alloc: Global, digits: &[u8]) -> Result<Option<Vec<u8>>>
    ensures ok { IfOk result
        (λ found. option_map (λ bytes. bytes.items) found ≡ hex_bytes digits.now) }
    ensures memory { IsOkUnless result Error.Memory }
{
    if digits == b"-".as_slice() {
        return Ok(Some(Vec::new(alloc)));
    }
    if digits.is_empty() {
        return Ok(None);
    }
    match hex::decode(alloc, digits) {
        Ok(bytes) => Ok(Some(bytes)),
        Err(hex::FromHexError::OutOfMemory) => Err(Error::Memory),
        Err(_) => Ok(None),
    }
}

/// Returns the number from `least` to `most` that decimal digits encode.
pub fn number_within(digits: &[u8], least: u64, most: u64) -> Option<u64>
    ensures exact { result ≡ number_within least most digits.now }
    ensures range { IfSome result (λ n. (least ≤ n) × (n ≤ most)) }
{
    match number_in(digits) {
        Some(n) if least <= n && n <= most => Some(n),
        _ => None,
    }
}
