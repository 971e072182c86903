//! Scans of tables as sources of entries.
ghost use Rattle.std.specs.Prelude.{◌≡◌, None};
ghost use Rattle.sst_sources.specs.Stored.{MayFailAnyTime};
ghost use Rattle.sstool.specs.Scanned.{scanned_left};
ghost use Rattle.sstable_blocks.specs.RunReading.{hashes};
ghost use Rattle.sst_tool.specs.Ends.{above, is_end_at};

use sst_merge::Source;
use sst_parts::{AnyScan, PartedScan};
use sst_tool::ordered::{Direction, InBlocks};
use sst_tool::tidy::first_astray;
use sstable_blocks::run::Scan;
use sstable_blocks::table::block::bound::Bound as SeekBound;
use sstable_blocks::{
    BlockHash, FrameSource, IndexBlock, InternalKey, InternalValue, Result, SeqNo, Steps,
};
use std::alloc::Global;
use std::cell::Cell;
use std::ops::Bound;

/// What is left of a scan, from one of its ends.
#[derive(Drop)]
pub struct Scanned<'p, 'k, H: BlockHash, S: FrameSource> {
    scan: AnyScan<'k, H, S>,
    direction: Direction,
    to: Bound<&'k [u8]>,
    // where the block is that a fault names
    place: &'p Cell<Option<u64>>,
    // what was not read before the step that was taken last
    unread: Unread,
}

// What a scan has not read: the parts from one index up to another, and the blocks of the table or of
// the part that is open at its end.
#[derive(Clone, Copy)]
struct Unread {
    parts: (usize, usize),
    blocks: (usize, usize),
}

// A table, or the part of one that is open: its index, and the blocks that were not read; of a part
// also the index of the parts, and its number there.
#[derive(Clone, Copy)]
struct Opened<'a> {
    index: &'a IndexBlock,
    unread: (usize, usize),
    within: Option<(&'a IndexBlock, usize)>,
}

impl<'a> Opened<'a> {
    // What a scan reads.
    fn new<'k, H: BlockHash, S: FrameSource>(
        scan: &'a Scan<'k, H, S>,
        within: Option<(&'a IndexBlock, usize)>,
    ) -> Opened<'a> {
        Opened {
            index: scan.table().index(),
            unread: scan.unread(),
            within,
        }
    }

    // Where it begins in the file.
    fn begin(&self) -> u64 {
        match self.within {
            Some((parts, number)) if number < parts.len() => {
                *parts.handle_at(number, &mut Steps::new()).offset()
            }
            _ => 0,
        }
    }
}

impl<'p, 'k, H: BlockHash, S: FrameSource> Scanned<'p, 'k, H, S> {
    /// Takes the entries of a scan up to a bound in this direction. None was taken. Where a block
    /// that does not end as the index names is, is noted in `place`.
    pub fn new(
        scan: AnyScan<'k, H, S>,
        to: Bound<&'k [u8]>,
        direction: Direction,
        place: &'p Cell<Option<u64>>,
    ) -> Scanned<'p, 'k, H, S> {
        Scanned {
            scan,
            direction,
            to,
            place,
            unread: Unread {
                parts: (0, 0),
                blocks: (0, 0),
            },
        }
    }

    // Whether entries are taken from the last on.
    fn is_back(&self) -> bool {
        matches!(self.direction, Direction::Backward)
    }

    // What is not read now.
    fn unread(&self) -> Unread {
        match &self.scan {
            AnyScan::Plain(scan) => Unread {
                parts: (0, 0),
                blocks: scan.unread(),
            },
            AnyScan::Parted(scan) => Unread {
                parts: scan.unread(),
                blocks: match scan.opened(self.is_back()) {
                    Some(part) => part.unread(),
                    None => (0, 0),
                },
            },
        }
    }

    // Whether a block, or a part, ends with an entry of this key, by the index. The range may leave
    // out the last entries of one that does not end in it.
    fn is_end(&self, opened: &Opened<'_>, number: usize, key: &InternalKey) -> bool {
        let is_end = ends_behind(opened.index, number, &self.to)
            || is_end_in(opened.index, number, key);
        if !is_end {
            self.note(opened, number);
        }
        is_end
    }

    // Notes where a block is, or a part.
    fn note(&self, opened: &Opened<'_>, number: usize) {
        if number < opened.index.len() {
            let handle = opened.index.handle_at(number, &mut Steps::new());
            self.place
                .set(Some(handle.offset().saturating_add(opened.begin())));
        }
    }

    // Whether the block that a step left, or from the back the one that it came to, ends as the index
    // names; or the part, where these are parts.
    fn fits(
        &self,
        opened: &Opened<'_>,
        before: (usize, usize),
        last: &Option<InternalKey>,
        next: &Option<InternalValue>,
    ) -> bool {
        let after = opened.unread;
        match (self.direction, last, next) {
            (Direction::Backward, _, Some(entry)) => {
                before.1 == after.1 || self.is_end(opened, after.1, entry.key())
            }
            (Direction::Forward, Some(last), next) => {
                let is_left = before.0 != after.0 || next.is_none();
                !is_left || before.0 == 0 || self.is_end(opened, before.0 - 1, last)
            }
            _ => true,
        }
    }

    // Whether a step opened the next part, or passed only those that end behind the range.
    fn passes_none(&self, parts: &Opened<'_>) -> bool {
        let (before, after) = (self.unread.parts, parts.unread);
        let (first, end) = if self.is_back() {
            (after.1.saturating_add(1), before.1)
        } else {
            (before.0, after.0.saturating_sub(1))
        };
        let passes_none = first >= end || ends_behind(parts.index, first, &self.to);
        if !passes_none {
            self.note(parts, first);
        }
        passes_none
    }

    // Whether the index of a part, which is of a number in the index of the parts, names all of it.
    fn names_all(&self, part: &Opened<'_>, parts: &IndexBlock, number: usize) -> bool {
        let unnamed = unnamed_in(part.index, parts, number);
        if let Some(offset) = unnamed {
            self.place.set(Some(part.begin().saturating_add(offset)));
        }
        unnamed.is_none()
    }

    // The same as `fits` of a part that a step opened: it is the next one, its index names all of it,
    // and the part that was left, or from the back its own last block, ends as it is named.
    fn opened_fits(
        &self,
        parts: &Opened<'_>,
        (number, part): (usize, &Opened<'_>),
        last: &Option<InternalKey>,
        next: &Option<InternalValue>,
    ) -> bool {
        let is_named = self.names_all(part, parts.index, number)
            && self.passes_none(parts)
            && self.fits(parts, self.unread.parts, last, next);
        let unread = (0, part.index.len());
        is_named && (!self.is_back() || self.fits(part, unread, last, next))
    }

    // The same as `fits` of a table in parts.
    fn part_fits(
        &self,
        scan: &PartedScan<'k, H, S>,
        last: &Option<InternalKey>,
        next: &Option<InternalValue>,
    ) -> bool {
        let parts = Opened {
            index: scan.table().index(),
            unread: scan.unread(),
            within: None,
        };
        let Some((number, part)) = self.part_of(scan) else {
            return true;
        };
        if self.unread.parts == parts.unread {
            self.fits(&part, self.unread.blocks, last, next)
        } else {
            self.opened_fits(&parts, (number, &part), last, next)
        }
    }

    // The part that is open, if one is, and its number.
    fn part_of<'a>(&self, scan: &'a PartedScan<'k, H, S>) -> Option<(usize, Opened<'a>)> {
        let part = scan.opened(self.is_back())?;
        let (parts, unread) = (scan.table().index(), scan.unread());
        let number = if self.is_back() {
            unread.1
        } else {
            unread.0.saturating_sub(1)
        };
        Some((number, Opened::new(part, Some((parts, number)))))
    }
}

/// Returns where in a part, whose number in the index of the parts is given, the first bytes are that
/// its own index does not name, or names otherwise: a block that does not begin where the one before
/// it ends, or the part, if it ends elsewhere.
pub fn unnamed_in(part: &IndexBlock, parts: &IndexBlock, number: usize) -> Option<u64> {
    match first_astray(part) {
        Some(block) => Some(*part.handle_at(block, &mut Steps::new()).offset()),
        None if has_same_end(part, parts, number) => None,
        None => Some(0),
    }
}

// Whether the last handle of an index has the end key and the sequence number of a handle of another.
fn has_same_end(part: &IndexBlock, parts: &IndexBlock, number: usize) -> bool {
    let last = part.by_ref().handles().next_back();
    match (last, parts.by_ref().handles().nth(number)) {
        (Some(last), Some(named)) => {
            let ((a, b), (c, d)) = (last.key_parts(), named.key_parts());
            last.seqno() == named.seqno() && a.iter().chain(b.iter()).eq(c.iter().chain(d.iter()))
        }
        _ => false,
    }
}

// Whether a block ends behind a range.
fn ends_behind(index: &IndexBlock, number: usize, to: &Bound<&[u8]>) -> bool {
    let bound = match to {
        Bound::Unbounded => return false,
        Bound::Included(key) => SeekBound::up_to(key),
        Bound::Excluded(key) => SeekBound::below(key),
    };
    index.position(&bound, &mut Steps::new()) <= number
}

// Whether the handle at an index has an end key and a sequence number.
fn is_end_in(index: &IndexBlock, at: usize, key: &InternalKey) -> bool
    ensures { result ≡ is_end_at index.now.items at key.now }
{
    let needle = key.user_key().as_slice();
    let mut steps = Steps::new();
    let from = above(key.seqno());
    let first = index.position(&SeekBound { needle, from }, &mut steps);
    let from = Some(key.seqno());
    let behind = index.position(&SeekBound { needle, from }, &mut steps);
    first <= at && at < behind
}

// The next greater number, if there is one.
fn above(number: SeqNo) -> Option<SeqNo>
    ensures { result ≡ above number }
{
    if number < SeqNo::MAX {
        Some(number + 1)
    } else {
        None
    }
}

impl<'p, 'k, H: BlockHash, S: FrameSource> InBlocks for Scanned<'p, 'k, H, S> {
    fn ends_fit(&self, last: &Option<InternalKey>, next: &Option<InternalValue>) -> bool {
        match &self.scan {
            AnyScan::Plain(scan) => {
                self.fits(&Opened::new(scan, None), self.unread.blocks, last, next)
            }
            AnyScan::Parted(scan) => self.part_fits(scan, last, next),
        }
    }
}

impl<'p, 'k, H: BlockHash, S: FrameSource> Source<InternalValue> for Scanned<'p, 'k, H, S> {
    ghost left = { λ s. scanned_left (hashes H.hash64 H.hash128) S.bytes s.scan };

    ghost may_fail = { MayFailAnyTime S.is_reliable };

    fn next_entry(&mut self, alloc: Global) -> Result<Option<InternalValue>> {
        self.unread = self.unread();
        match self.direction {
            Direction::Forward => Source::next_entry(&mut self.scan, alloc),
            Direction::Backward => self.scan.next_entry_back(alloc),
        }
    }
}
