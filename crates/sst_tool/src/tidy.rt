//! Bytes of a table file that belong to no frame.
ghost use Rattle.std.specs.Prelude.{◌≡◌, ◌+◌, ◌<◌, length, not, is_some, IfSome};
ghost use Rattle.sst_tool.specs.Frames.{offset_after, follow_from};

use crate::fault::Result;
use sstable_blocks::run::footer::FOOTER_LEN;
use sstable_blocks::{BlockHandle, IndexBlock, RunHandles, Steps};
use std::fmt;

/// A range of bytes that belong to no frame.
#[derive(Clone, Copy)]
pub struct Gap {
    /// The offset of the first.
    pub offset: u64,
    /// How many they are, at least one.
    pub len: u64,
}

impl fmt::Display for Gap {
    fn fmt<W: fmt::Write>(&self, f: &mut fmt::Formatter<W>) -> fmt::Result {
        write!(
            f,
            "{} bytes at offset {} belong to no block",
            self.len, self.offset
        )
    }
}

/// The bytes of a table file that belong to no frame: after the data blocks, after the next
/// frame, and after the last one, before the footer.
#[derive(Clone, Copy)]
pub struct Gaps([Option<Gap>; 3]);

// The bytes from an offset up to another, if there are some.
fn between(from: u64, to: u64) -> Option<Gap>
    ensures { IfSome result (λ gap. (gap.offset ≡ from) × (gap.offset + gap.len ≡ to) × (from < to)) }
{
    if from < to {
        Some(Gap {
            offset: from,
            len: to - from,
        })
    } else {
        None
    }
}

// The offset after a frame.
fn offset_after(handle: &BlockHandle) -> u64
    ensures { result ≡ offset_after handle.now }
{
    handle.offset().saturating_add(u64::from(handle.size()))
}

/// Returns the first data block of which the frame does not begin where the one before it ends, by
/// its number.
pub fn first_astray(index: &IndexBlock) -> Option<usize>
    ensures inside { IfSome result (λ number. number < length index.now.items) }
    ensures follow { is_some result ≡ not (follow_from 0 index.now.items) }
{
    let mut end = 0u64;
    let mut number = 0usize;
    while number < index.len() {
        let handle = index.handle_at(number, &mut Steps::new());
        if *handle.offset() != end {
            return Some(number);
        }
        end = offset_after(&handle);
        number += 1;
    }
    None
}

/// Returns the offset after the last data block of an index.
pub fn data_end(index: &IndexBlock) -> u64 {
    match index.len().checked_sub(1) {
        Some(last) => offset_after(&index.handle_at(last, &mut Steps::new())),
        None => 0,
    }
}

// The frames of index and filter, by their offsets; the same one twice where there is no filter.
fn frames_behind(handles: &RunHandles) -> (&BlockHandle, &BlockHandle) {
    let index = &handles.index;
    match &handles.filter {
        Some(filter) if *filter.offset() < *index.offset() => (filter, index),
        Some(filter) => (index, filter),
        None => (index, index),
    }
}

/// Returns how many bytes ranges have.
pub fn byte_len(gaps: &[Gap]) -> u64 {
    let mut sum = 0u64;
    for gap in gaps {
        sum = sum.saturating_add(gap.len);
    }
    sum
}

impl Gaps {
    /// Finds the bytes in no frame of a sound table, of which the data blocks end at an offset, in
    /// a file of this length.
    pub fn new(data_end: u64, handles: &RunHandles, file_len: u64) -> Gaps {
        let (first, last) = frames_behind(handles);
        Gaps([
            between(data_end, *first.offset()),
            between(offset_after(first), *last.offset()),
            between(
                offset_after(last),
                file_len.saturating_sub(FOOTER_LEN as u64),
            ),
        ])
    }

    /// Returns the same ranges of a table that begins at an offset.
    pub fn moved(&self, begin: u64) -> Gaps {
        let mut gaps = self.0;
        for gap in &mut gaps {
            if let Some(gap) = gap {
                gap.offset = gap.offset.saturating_add(begin);
            }
        }
        Gaps(gaps)
    }

    /// Appends the ranges to others.
    ///
    /// # Errors
    ///
    /// `Fault::Memory` if an allocation fails.
    pub fn add_to(&self, all: &mut Vec<Gap>) -> Result<()> {
        for gap in &self.0 {
            if let Some(gap) = gap {
                all.push(*gap)?;
            }
        }
        Ok(())
    }

    /// Returns the ranges.
    pub fn found(&self) -> &[Option<Gap>] {
        &self.0
    }

    /// Returns how many bytes they are.
    pub fn byte_len(&self) -> u64 {
        let mut sum = 0u64;
        for gap in &self.0 {
            if let Some(gap) = gap {
                sum = sum.saturating_add(gap.len);
            }
        }
        sum
    }
}
