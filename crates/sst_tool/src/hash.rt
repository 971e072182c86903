//! The hash functions of table files.
ghost use Rattle.std.specs.Prelude.{◌≡◌, is_ok};
ghost use Rattle.sst_tool.specs.Hashes.{hash_shown};
ghost use Rattle.sstable_blocks.specs.Prelude.{header_at};

use crate::fault::{Fault, Result};
use crate::frames::{PIECE_LEN, bytes_at, bytes_before_magic};
use crate::words::{FILE, HASH, MERGE};
use clap::ArgMatches;
use sst_program::table::TableFile;
use sstable_blocks::run::footer::read_footer;
use sstable_blocks::table::block::header::HEADER_LEN;
use sstable_blocks::{BlockHash, FileSource, FrameSource, Header, Poly31, SizedSource, Xxh3};
use std::alloc::Global;
use std::io::{Read, Seek};
use std::rt::Files;
use std::{fmt, fs};

/// The hash function of a table's checksums, hash indexes and filter.
#[derive(Clone, Copy, PartialEq, Eq)]
pub enum TableHash {
    /// `Poly31`, of the tables that `sst` writes.
    Poly31,
    /// `Xxh3`, of lsm-tree.
    Xxh3,
}

/// The words for the hash functions.
pub const NAMES: [&str; 2] = ["poly31", "xxh3"];

impl fmt::Display for TableHash {
    fn fmt<W: fmt::Write>(&self, f: &mut fmt::Formatter<W>) -> fmt::Result {
        f.write_str(match self {
            TableHash::Poly31 => "poly31",
            TableHash::Xxh3 => "xxh3",
        })
    }
}

// Whether bytes begin with a header that has its own checksum.
fn is_header<H: BlockHash>(bytes: &[u8]) -> bool
    ensures { result ≡ is_ok (header_at H.hash128 bytes.now) }
{
    let mut reader = bytes;
    Header::decode_from::<H, &[u8]>(&mut reader).is_ok()
}

// The hash function under which bytes begin with a header.
fn hash_at(bytes: &[u8]) -> Option<TableHash>
    ensures { result ≡ hash_shown bytes.now }
{
    if is_header::<Poly31>(bytes) {
        Some(TableHash::Poly31)
    } else if is_header::<Xxh3>(bytes) {
        Some(TableHash::Xxh3)
    } else {
        None
    }
}

// The hash function under which a header begins at an offset.
fn hash_from<S: FrameSource>(
    alloc: Global,
    source: &mut S,
    at: u64,
    end: u64,
) -> sstable_blocks::Result<Option<TableHash>> {
    let header = bytes_at(alloc, source, at, HEADER_LEN as u32, end)?;
    Ok(hash_at(header.as_slice()))
}

// The hash function of a header that the footer of a table names: of its index, or of its filter.
fn hash_by_footer<S: FrameSource>(
    alloc: Global,
    source: &mut S,
    end: u64,
) -> sstable_blocks::Result<Option<TableHash>> {
    let handles = read_footer(alloc, source, end)?;
    if let Some(hash) = hash_from(alloc, source, *handles.index.offset(), end)? {
        return Ok(Some(hash));
    }
    match &handles.filter {
        Some(filter) => hash_from(alloc, source, *filter.offset(), end),
        None => Ok(None),
    }
}

// The hash function of the first header that is found in a file.
fn hash_found<S: FrameSource>(
    alloc: Global,
    source: &mut S,
    end: u64,
) -> sstable_blocks::Result<Option<TableHash>> {
    let mut at = 0u64;
    while at < end {
        let bytes = bytes_at(alloc, source, at, PIECE_LEN, end)?;
        if let Some(hash) = hash_at(bytes.as_slice()) {
            return Ok(Some(hash));
        }
        at = at.saturating_add(bytes_before_magic(bytes.as_slice()) as u64);
    }
    Ok(None)
}

// The hash function that a header of a file shows: the first one, one that its footer names, or, in
// a file that is damaged, any that is found.
fn hash_in_source<S: SizedSource>(
    alloc: Global,
    source: &mut S,
) -> sstable_blocks::Result<Option<TableHash>> {
    let end = source.byte_len()?;
    if let Some(hash) = hash_from(alloc, source, 0, end)? {
        return Ok(Some(hash));
    }
    if let Ok(Some(hash)) = hash_by_footer(alloc, source, end) {
        return Ok(Some(hash));
    }
    hash_found(alloc, source, end)
}

// The hash function of a file that is opened; what cannot be read shows none.
fn hash_shown_by<F: Read + Seek + Drop>(alloc: Global, file: F) -> TableHash {
    let mut source = FileSource::new(TableFile::new(file));
    match hash_in_source(alloc, &mut source) {
        Ok(Some(hash)) => hash,
        _ => TableHash::Poly31,
    }
}

/// Returns the hash function that a header of a file shows: the first one, one that its footer
/// names, or any that is found; `Poly31` where it has none.
///
/// # Errors
///
/// An error if the file cannot be opened.
pub fn hash_of_file<R: Files>(rt: &R, alloc: Global, name: &str) -> Result<TableHash> {
    match fs::open(rt, name) {
        Ok(file) => Ok(hash_shown_by(alloc, file)),
        Err(cause) => Err(Fault::of_open(alloc, name, cause)),
    }
}

/// Returns the hash function that a word of `--hash` names, if there is one.
pub fn hash_in(words: &ArgMatches<'_>) -> Option<TableHash> {
    match words.get_str(HASH) {
        Some("xxh3") => Some(TableHash::Xxh3),
        Some(_) => Some(TableHash::Poly31),
        None => None,
    }
}

// Tests that a table's hash function is that of the first one.
fn test_hash<R: Files>(
    rt: &R,
    alloc: Global,
    name: &str,
    first: &str,
    wanted: TableHash,
) -> Result<()> {
    let found = hash_of_file(rt, alloc, name)?;
    if found == wanted {
        return Ok(());
    }
    Err(Fault::of_hash(alloc, name, found, first, wanted))
}

// The hash function of all tables that are merged.
fn hash_of_all<R: Files>(rt: &R, alloc: Global, files: &[&str]) -> Result<TableHash> {
    let Some((first, others)) = files.split_first() else {
        return Ok(TableHash::Poly31);
    };
    let hash = hash_of_file(rt, alloc, first)?;
    for other in others {
        test_hash(rt, alloc, other, first, hash)?;
    }
    Ok(hash)
}

/// Returns the hash function of the table that a command reads, or of all the tables: that of
/// `--hash`, which for a merge is that of the new table, or what the first headers show.
///
/// # Errors
///
/// An error if a file cannot be opened, or if tables that are merged differ.
pub fn hash_read<R: Files>(
    rt: &R,
    alloc: Global,
    name: &str,
    words: &ArgMatches<'_>,
) -> Result<TableHash> {
    if name == MERGE {
        return hash_of_all(rt, alloc, words.get_strs(FILE).unwrap_or(&[]));
    }
    match hash_in(words) {
        Some(hash) => Ok(hash),
        None => hash_of_file(rt, alloc, words.get_str(FILE).unwrap_or("")),
    }
}
