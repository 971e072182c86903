//! Bloom filters.
ghost use Rattle.std.specs.Prelude.{◌≡◌, ◌↔◌, [], length, map, IfOk, IsOkUnless, IsTrue};
ghost use Rattle.sst_calls.specs.Filters.{CanBuild, IsFilterAnswerBy, IsHashAnswer, IsFilterBuild};
ghost use Rattle.sst_calls.specs.Filters.{IsFilterBuildBy};
ghost use Rattle.sstable_blocks.specs.Filter.{IsFilterOf};
ghost use Rattle.sstable_blocks.specs.Run.{IsFilterText};

use crate::codes::Status;
use crate::hash::Hash;
use crate::output::write_bytes;
use sstable_blocks::table::filter::policy::BloomConstructionPolicy;
use sstable_blocks::table::filter::standard_bloom::{Builder, StandardBloomFilterReader};
use sstable_blocks::{BlockHash, Error, Poly31, Result, Xxh3};
use std::alloc::Global;

/// Asks the filter in any bytes about the hash of a key. No memory is taken.
///
/// Returns 0 if a key with this hash may have been inserted, as it is returned for each that was;
/// 16 if none was; or the error that refuses the bytes: 7 below 22 bytes, 2 for another magic, 3
/// for another type of filter or of hash, 13 if the numbers of bits and probes do not fit the
/// bytes.
pub fn ask_hash(payload: &[u8], key_hash: u64) -> Status
    ensures { IsHashAnswer payload.now key_hash result }
{
    match StandardBloomFilterReader::new(payload) {
        Ok(filter) => {
            if filter.contains_hash(key_hash) {
                Status::Done
            } else {
                Status::NotFound
            }
        }
        Err(error) => Status::Failed(error),
    }
}

/// Asks the filter in any bytes about a key, by the hash function of a number, by which its keys
/// were hashed. No memory is taken.
///
/// Returns what [`ask_hash`] does of the key's hash; or 17 exactly where no hash function has the
/// number.
pub fn ask_by(payload: &[u8], hash: u32, key: &[u8]) -> Status
    ensures { IsFilterAnswerBy hash payload.now key.now result }
{
    match Hash::of_number(hash) {
        Some(Hash::Xxh3) => ask_hash(payload, Xxh3::hash64(key)),
        Some(Hash::Poly31) => ask_hash(payload, Poly31::hash64(key)),
        None => Status::BadArgument,
    }
}

// Whether a filter for so many keys at so many bits each can be made.
fn can_build(count: usize, bits: u32) -> bool
    ensures { IsTrue result ↔ CanBuild count bits }
{
    count > 0 && bits > 0 && BloomConstructionPolicy::BitsPerKey(bits).fits(count)
}

// Inserts hashes.
fn insert_hashes(builder: &mut Builder, hashes: &[u64])
    requires { IsFilterOf [] builder.old }
    ensures inserted { IsFilterOf hashes.now builder.new }
    ensures m { builder.new.m ≡ builder.old.m }
    ensures k { builder.new.k ≡ builder.old.k }
{
    for hash in hashes {
        builder.set_with_hash(*hash);
    }
}

/// The payload of a filter of hashes.
pub(crate) fn payload_of_hashes(alloc: Global, hashes: &[u64], bits: u32) -> Result<Vec<u8>>
    requires { CanBuild (length hashes.now) bits }
    ensures ok { IfOk result (λ v. IsFilterText hashes.now bits v.items) }
    ensures memory { IsOkUnless result Error.Memory }
{
    let mut builder = Builder::with_bpk(alloc, hashes.len(), bits)?;
    insert_hashes(&mut builder, hashes);
    let payload = builder.build(alloc)?;
    Ok(payload)
}

/// Builds a Bloom filter of hashes of keys, at least one, at so many bits for each, at least 1,
/// into a buffer.
///
/// Returns 0, and the length of the filter's payload, which is then the front of `out`; 18 where
/// `out` is too short, and the length that is needed; 17 exactly where there is no hash, no bit, or
/// more than 34359737920 bits in all; 15 if an allocation fails. But for 0 `out` is left, and but
/// for 0 and 18 `out_len`.
pub fn build_hashes(
    alloc: Global,
    hashes: &[u64],
    bits_per_key: u32,
    out: &mut [u8],
    out_len: &mut usize,
) -> Status
    ensures { IsFilterBuild bits_per_key hashes.now out.old out.new out_len.old out_len.new result }
{
    if !can_build(hashes.len(), bits_per_key) {
        return Status::BadArgument;
    }
    match payload_of_hashes(alloc, hashes, bits_per_key) {
        Ok(payload) => write_bytes(payload.as_slice(), out, out_len),
        Err(error) => Status::Failed(error),
    }
}

// The hashes of keys.
fn hashes_of<H: BlockHash>(alloc: Global, keys: &[&[u8]]) -> Result<Vec<u64>>
    ensures ok { IfOk result (λ v. v.items ≡ map (λ k. H.hash64 k.now) keys.now) }
    ensures memory { IsOkUnless result Error.Memory }
{
    let mut hashes = Vec::with_capacity(alloc, keys.len())?;
    for key in keys {
        hashes.push(H::hash64(key))?;
    }
    Ok(hashes)
}

// Builds a filter of the hashes of keys into a buffer.
fn build<H: BlockHash>(
    alloc: Global,
    keys: &[&[u8]],
    bits: u32,
    out: &mut [u8],
    out_len: &mut usize,
) -> Status
    ensures { IsFilterBuild bits (map (λ k. H.hash64 k.now) keys.now) out.old out.new out_len.old
        out_len.new result }
{
    if !can_build(keys.len(), bits) {
        return Status::BadArgument;
    }
    match hashes_of::<H>(alloc, keys) {
        Ok(hashes) => build_hashes(alloc, hashes.as_slice(), bits, out, out_len),
        Err(error) => Status::Failed(error),
    }
}

/// Builds a Bloom filter of keys, at least one, at so many bits for each, at least 1, by the hash
/// function of a number, into a buffer.
///
/// Returns what [`build_hashes`] does of the keys' hashes; or 17 where no hash function has the
/// number.
pub fn build_by(
    alloc: Global,
    keys: &[&[u8]],
    bits_per_key: u32,
    hash: u32,
    out: &mut [u8],
    out_len: &mut usize,
) -> Status
    ensures { IsFilterBuildBy hash keys.now bits_per_key out.old out.new out_len.old out_len.new
        result }
{
    match Hash::of_number(hash) {
        Some(Hash::Xxh3) => build::<Xxh3>(alloc, keys, bits_per_key, out, out_len),
        Some(Hash::Poly31) => build::<Poly31>(alloc, keys, bits_per_key, out, out_len),
        None => Status::BadArgument,
    }
}
