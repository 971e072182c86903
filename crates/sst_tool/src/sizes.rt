//! Numbers of bytes as words.
use crate::fault::{Fault, Result};
use crate::words::{BLOCK, PART_SIZE, TABLE_SIZE};
use clap::ArgMatches;
use sst_program::text::number_in;
use std::alloc::Global;

// The number of bytes of a word: digits, and behind them K, M or G for 2^10, 2^20 or 2^30 of them, if
// it is such a word and the number fits 64 bits.
fn bytes_in(word: &str) -> Option<u64> {
    let word = word.as_bytes();
    let (digits, unit) = match word.split_last() {
        Some((b'K', digits)) => (digits, 1u64 << 10),
        Some((b'M', digits)) => (digits, 1u64 << 20),
        Some((b'G', digits)) => (digits, 1u64 << 30),
        _ => (word, 1),
    };
    number_in(digits)?.checked_mul(unit)
}

/// Returns the number of bytes of an option of this name, if it is there: see [`test_sizes`].
pub fn size_in(words: &ArgMatches<'_>, name: &str) -> Option<u64> {
    bytes_in(words.get_str(name)?)
}

/// Tests that each size among the words is one: digits, and K, M or G behind them, or not.
///
/// # Errors
///
/// `Fault::Word` for the first that is none, `Fault::Memory` if an allocation fails.
pub fn test_sizes(alloc: Global, words: &ArgMatches<'_>) -> Result<()> {
    for name in &[BLOCK, TABLE_SIZE, PART_SIZE] {
        if let Some(word) = words.get_str(name)
            && bytes_in(word).is_none()
        {
            return Err(Fault::of_size(alloc, name, word));
        }
    }
    Ok(())
}
