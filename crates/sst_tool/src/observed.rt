//! What the blocks of a table have, seen while they are checked.
ghost use Rattle.std.specs.Prelude.{◌≡◌, ◌+◌, min, max};

use crate::place::{TableBlock, footer_block_at};
use sstable_blocks::filter::standard_bloom::StandardBloomFilterReader;
use sstable_blocks::run::check;
use sstable_blocks::run::footer::read_table_footer;
use sstable_blocks::table::block::header::HEADER_LEN;
use sstable_blocks::table::block::trailer::{TRAILER_SIZE, Trailer};
use sstable_blocks::table::data_block::DataBlockRef;
use sstable_blocks::{
    BlockHandle, BlockHash, EntryView, FrameSource, MemorySource, Result, RunHandles, Slice,
};
use std::alloc::Global;
use std::cell::Cell;
use std::fmt;
use std::marker::PhantomData;

/// The lengths of some byte strings.
#[derive(Clone, Copy)]
pub struct Lengths {
    /// The sum, in bytes.
    pub sum: u64,
    /// The least, in bytes.
    pub least: usize,
    /// The greatest, in bytes.
    pub greatest: usize,
}

impl Lengths {
    // Of none.
    fn none() -> Lengths {
        Lengths {
            sum: 0,
            least: usize::MAX,
            greatest: 0,
        }
    }

    // Adds that of one more.
    fn add(&mut self, len: usize)
        ensures least { self.new.least ≡ min self.old.least len }
        ensures greatest { self.new.greatest ≡ max self.old.greatest len }
    {
        self.sum = self.sum.saturating_add(len as u64);
        self.least = self.least.min(len);
        self.greatest = self.greatest.max(len);
    }
}

impl Lengths {
    // Adds those of some more.
    fn add_all(&mut self, others: &Lengths)
        ensures least { self.new.least ≡ min self.old.least others.now.least }
        ensures greatest { self.new.greatest ≡ max self.old.greatest others.now.greatest }
    {
        self.sum = self.sum.saturating_add(others.sum);
        self.least = self.least.min(others.least);
        self.greatest = self.greatest.max(others.greatest);
    }
}

impl fmt::Display for Lengths {
    fn fmt<W: fmt::Write>(&self, f: &mut fmt::Formatter<W>) -> fmt::Result {
        let Lengths {
            sum,
            least,
            greatest,
        } = self;
        write!(f, "{least} to {greatest} bytes, {sum} in all")
    }
}

/// What the data blocks have.
#[derive(Clone, Copy)]
pub struct Blocks {
    /// The least restart interval.
    pub least_interval: u8,
    /// The greatest.
    pub greatest_interval: u8,
    /// The number of buckets of all hash indexes.
    pub buckets: u64,
    /// The length of the longest payload, in bytes.
    pub longest: usize,
    /// The number of tombstones.
    pub tombstones: u64,
    /// The lengths of the user keys.
    pub keys: Lengths,
    /// The lengths of the values; that of a tombstone is 0.
    pub values: Lengths,
}

/// What a filter has.
#[derive(Clone, Copy)]
pub struct Bits {
    /// The number of bits.
    pub bits: u64,
    /// How many of them are set.
    pub set: u64,
    /// The number of probes of a key.
    pub probes: u64,
}

/// What was seen of a table.
#[derive(Clone, Copy)]
pub struct Seen {
    /// What the data blocks have.
    pub blocks: Blocks,
    /// The restart interval of the index.
    pub index_interval: u8,
    /// What the filter has, if there is one; of a parted table the filters of its parts.
    pub bits: Option<Bits>,
    /// The length of the index in bytes, with those of the parts, if there are some.
    pub index_len: u64,
    /// The length of the filter in bytes, or of those of the parts.
    pub filter_len: u64,
    /// Whether a block was seen in part, since there was no memory.
    pub is_partial: bool,
}

// The restart interval and the number of buckets of a block, by its trailer, which each block that
// passes a check has.
fn trailer_of(payload: &[u8]) -> (u8, u32) {
    if payload.len() < TRAILER_SIZE {
        return (0, 0);
    }
    let trailer = Trailer::new(payload);
    (trailer.interval(), trailer.hash_len())
}

// What a filter has, if it is one.
fn bits_of(payload: &[u8]) -> Option<Bits> {
    let reader = StandardBloomFilterReader::new(payload).ok()?;
    let mut set = 0u64;
    for byte in reader.bits().iter() {
        set = set.saturating_add(u64::from(byte.count_ones()));
    }
    Some(Bits {
        bits: (reader.len() as u64).saturating_mul(8),
        set,
        probes: reader.probe_count(),
    })
}

impl Blocks {
    // Of no block.
    fn none() -> Blocks {
        Blocks {
            least_interval: u8::MAX,
            greatest_interval: 0,
            buckets: 0,
            longest: 0,
            tombstones: 0,
            keys: Lengths::none(),
            values: Lengths::none(),
        }
    }

    // Adds what the trailer of a block says.
    fn add_trailer(&mut self, payload: &[u8]) {
        let (interval, buckets) = trailer_of(payload);
        self.least_interval = self.least_interval.min(interval);
        self.greatest_interval = self.greatest_interval.max(interval);
        self.buckets = self.buckets.saturating_add(u64::from(buckets));
        self.longest = self.longest.max(payload.len());
    }

    // Adds an entry.
    fn add_entry(&mut self, entry: &EntryView<'_>) {
        let (prefix, rest) = entry.key_parts();
        self.keys.add(prefix.len().saturating_add(rest.len()));
        self.values.add(entry.value().len());
        if entry.is_tombstone() {
            self.tombstones = self.tombstones.saturating_add(1);
        }
    }

    // Adds those of a part.
    fn add_all(&mut self, others: &Blocks) {
        self.least_interval = self.least_interval.min(others.least_interval);
        self.greatest_interval = self.greatest_interval.max(others.greatest_interval);
        self.buckets = self.buckets.saturating_add(others.buckets);
        self.longest = self.longest.max(others.longest);
        self.tombstones = self.tombstones.saturating_add(others.tombstones);
        self.keys.add_all(&others.keys);
        self.values.add_all(&others.values);
    }

    // Adds the entries of a block.
    fn add_entries<H: BlockHash>(&mut self, block: &DataBlockRef<'_, H>) {
        for entry in block.entries() {
            self.add_entry(&entry);
        }
    }
}

// What two filters have in all, and the greatest number of probes.
fn both(one: Option<Bits>, other: Option<Bits>) -> Option<Bits> {
    match (one, other) {
        (Some(a), Some(b)) => Some(Bits {
            bits: a.bits.saturating_add(b.bits),
            set: a.set.saturating_add(b.set),
            probes: a.probes.max(b.probes),
        }),
        (None, filter) | (filter, None) => filter,
    }
}

impl Seen {
    /// Nothing.
    pub fn none() -> Seen {
        Seen {
            blocks: Blocks::none(),
            index_interval: 0,
            bits: None,
            index_len: 0,
            filter_len: 0,
            is_partial: false,
        }
    }

    // Adds the frames of index and filter of a run.
    fn add_handles(&mut self, handles: &RunHandles) {
        self.index_len = self
            .index_len
            .saturating_add(u64::from(handles.index.size()));
        if let Some(filter) = &handles.filter {
            self.filter_len = self.filter_len.saturating_add(u64::from(filter.size()));
        }
    }

    // Adds what was seen of a part.
    fn add_part(&mut self, part: &Seen) {
        self.blocks.add_all(&part.blocks);
        self.index_interval = self.index_interval.max(part.index_interval);
        self.bits = both(self.bits, part.bits);
        self.index_len = self.index_len.saturating_add(part.index_len);
        self.filter_len = self.filter_len.saturating_add(part.filter_len);
        self.is_partial = self.is_partial || part.is_partial;
    }

    // Adds a data block. One that fails here fails the check too, unless there was no memory.
    fn add_block<H: BlockHash>(&mut self, alloc: Global, payload: &[u8]) {
        self.blocks.add_trailer(payload);
        match DataBlockRef::<H>::check(alloc, payload) {
            Ok(block) => self.blocks.add_entries(&block),
            Err(_) => self.is_partial = true,
        }
    }

    // Adds the block in a frame.
    fn add_frame<H: BlockHash>(&mut self, alloc: Global, block: Option<TableBlock>, frame: &[u8]) {
        if let Some(payload) = frame.get(HEADER_LEN..) {
            self.add::<H>(alloc, block, payload);
        }
    }

    // Adds a block. A check reads the index before the data blocks.
    fn add<H: BlockHash>(&mut self, alloc: Global, block: Option<TableBlock>, payload: &[u8]) {
        match block {
            Some(TableBlock::Filter) => self.bits = bits_of(payload),
            Some(_) => {
                self.blocks = Blocks::none();
                self.index_interval = trailer_of(payload).0;
            }
            None => self.add_block::<H>(alloc, payload),
        }
    }
}

/// The frames of a table, of which is seen what they have as a check reads them.
#[derive(Drop)]
pub struct Observed<H: BlockHash, S> {
    source: S,
    handles: RunHandles,
    seen: Seen,
    hash: PhantomData<H>,
}

impl<H: BlockHash, S> Observed<H, S> {
    /// Reads from a source, whose index and filter are there.
    pub fn new(source: S, handles: RunHandles) -> Observed<H, S> {
        let mut seen = Seen::none();
        seen.add_handles(&handles);
        Observed {
            source,
            handles,
            seen,
            hash: PhantomData,
        }
    }

    /// Returns what was seen.
    pub fn seen(&self) -> &Seen {
        &self.seen
    }
}

impl<H: BlockHash, S: FrameSource> FrameSource for Observed<H, S> {
    ghost bytes = { λ o. S.bytes o.source };

    ghost failures = { λ o. S.failures o.source };

    ghost reads = { λ o. S.reads o.source };

    ghost is_reliable = { λ o. S.is_reliable o.source };

    ghost may_refuse = { λ o h. S.may_refuse o.source h };

    ghost may_truncate = { λ o h. S.may_truncate o.source h };

    fn read_frame(&mut self, alloc: Global, handle: &BlockHandle) -> Result<Slice> {
        let frame = self.source.read_frame(alloc, handle);
        if let Ok(frame) = &frame {
            let block = footer_block_at(&self.handles, *handle.offset());
            self.seen.add_frame::<H>(alloc, block, frame.as_slice());
        }
        frame
    }
}

// What the blocks of a part have, which is checked.
fn seen_in<H: BlockHash>(alloc: Global, file: Slice) -> Result<Seen> {
    let mut source = MemorySource::new(file);
    let handles = read_table_footer(alloc, &mut source)?;
    let mut observed = Observed::<H, MemorySource>::new(source, handles);
    check::<H, _>(alloc, &mut observed, &handles)?;
    Ok(*observed.seen())
}

// The same of bytes that stay.
fn seen_of<H: BlockHash>(alloc: Global, file: &Slice) -> Result<Seen> {
    let file = file.clone()?;
    seen_in::<H>(alloc, file)
}

/// The parts of a table, of which is seen what their blocks have as a check reads them: each is
/// checked once more for it.
#[derive(Drop)]
pub struct ObservedParts<'s, H: BlockHash, S> {
    source: S,
    top: BlockHandle,
    seen: &'s Cell<Seen>,
    hash: PhantomData<H>,
}

impl<'s, H: BlockHash, S> ObservedParts<'s, H, S> {
    /// Reads from a source, whose index of parts is there; what is seen is added in `seen`.
    pub fn new(source: S, top: BlockHandle, seen: &'s Cell<Seen>) -> ObservedParts<'s, H, S> {
        ObservedParts {
            source,
            top,
            seen,
            hash: PhantomData,
        }
    }

    // Adds the frame of the index of the parts, or the bytes of a part. A part that fails here
    // fails the check too, unless there was no memory.
    fn add(&self, alloc: Global, handle: &BlockHandle, frame: &Slice) {
        let mut seen = self.seen.get();
        if handle.offset() == self.top.offset() {
            seen.index_len = seen.index_len.saturating_add(u64::from(handle.size()));
        } else {
            match seen_of::<H>(alloc, frame) {
                Ok(part) => seen.add_part(&part),
                Err(_) => seen.is_partial = true,
            }
        }
        self.seen.set(seen);
    }
}

impl<'s, H: BlockHash, S: FrameSource> FrameSource for ObservedParts<'s, H, S> {
    ghost bytes = { λ o. S.bytes o.source };

    ghost failures = { λ o. S.failures o.source };

    ghost reads = { λ o. S.reads o.source };

    ghost is_reliable = { λ o. S.is_reliable o.source };

    ghost may_refuse = { λ o h. S.may_refuse o.source h };

    ghost may_truncate = { λ o h. S.may_truncate o.source h };

    fn read_frame(&mut self, alloc: Global, handle: &BlockHandle) -> Result<Slice> {
        let frame = self.source.read_frame(alloc, handle);
        if let Ok(frame) = &frame {
            self.add(alloc, handle, frame);
        }
        frame
    }
}
