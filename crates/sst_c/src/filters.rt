//! Bloom filters.
ghost use Rattle.sst_calls.specs.Codes.{IsCodeOf};
ghost use Rattle.sst_calls.specs.Filters.{IsFilterAnswerBy, IsFilterBuild, IsFilterBuildBy};
ghost use Rattle.sst_calls.specs.Filters.{IsHashAnswer};

use std::alloc::Global;

/// Calls [`sst_calls::filter::build_by`].
#[unsafe(no_mangle)]
pub extern "C" fn sst_filter_build(
    keys: &[&[u8]],
    bits_per_key: u32,
    hash: u32,
    out: &mut [u8],
    out_len: &mut usize,
    alloc: Global,
) -> u32
    ensures { IsCodeOf result (IsFilterBuildBy hash keys.now bits_per_key out.old out.new
        out_len.old out_len.new) }
{
    sst_calls::filter::build_by(alloc, keys, bits_per_key, hash, out, out_len).code()
}

/// Calls [`sst_calls::filter::build_hashes`].
#[unsafe(no_mangle)]
pub extern "C" fn sst_filter_build_hashes(
    hashes: &[u64],
    bits_per_key: u32,
    out: &mut [u8],
    out_len: &mut usize,
    alloc: Global,
) -> u32
    ensures { IsCodeOf result (IsFilterBuild bits_per_key hashes.now out.old out.new out_len.old
        out_len.new) }
{
    sst_calls::filter::build_hashes(alloc, hashes, bits_per_key, out, out_len).code()
}

/// Calls [`sst_calls::filter::ask_by`].
#[unsafe(no_mangle)]
pub extern "C" fn sst_filter_may_contain(payload: &[u8], hash: u32, key: &[u8]) -> u32
    ensures { IsCodeOf result (IsFilterAnswerBy hash payload.now key.now) }
{
    sst_calls::filter::ask_by(payload, hash, key).code()
}

/// Calls [`sst_calls::filter::ask_hash`].
#[unsafe(no_mangle)]
pub extern "C" fn sst_filter_may_contain_hash(payload: &[u8], key_hash: u64) -> u32
    ensures { IsCodeOf result (IsHashAnswer payload.now key_hash) }
{
    sst_calls::filter::ask_hash(payload, key_hash).code()
}
