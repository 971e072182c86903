//! What is kept while a run is written.
ghost use Rattle.std.specs.Prelude.{◌≡◌, ◌≢◌, ◌↔◌, ◌⊎◌, ◌+◌, ◌*◌, ◌≤◌, ◌<◌, [], ◌∷◌, ◌++◌, length};
ghost use Rattle.std.specs.Prelude.{map, take, OnOk, OnErr, IfOk, IfErr, IfSome, IsNone, IsTrue};
ghost use Rattle.std.specs.Prelude.{IsOkUnless, ◌^◌};
ghost use Rattle.std.specs.Io.KnownBytes.{Appends};
ghost use Rattle.sst_base.specs.declared.error.Error.TheVariants.{Io, TooLong};
ghost use Rattle.sst_base.specs.declared.table.block.block_type.BlockType.TheVariants.{Index};
ghost use Rattle.sst_base.specs.Frame.{frame};
ghost use Rattle.sst_block_core.specs.Entries.{entries};
ghost use Rattle.sst_block_core.specs.Kind.{IsOrdered};
ghost use Rattle.sstable_blocks.specs.Blocks.{joined};
ghost use Rattle.sstable_blocks.specs.Policy.{bits_per_key};
ghost use Rattle.sstable_blocks.specs.Run.{form, block_frame, block_frames, key_hashes, RunFits};
ghost use Rattle.sstable_blocks.specs.Run.{block_payload, IsRun, index_frame, index_text};
ghost use Rattle.sstable_blocks.specs.Run.{IsFilterText, IsFramed};
ghost use Rattle.std.specs.List.{AllByRecursion};
ghost use Rattle.sstable_blocks.specs.Writing.{Follows, FollowsLast, FrameFits, PartFits};
ghost use Rattle.sstable_blocks.specs.Writing.{IsFramedBlock, IsWriteRefusal, IsFrameAppended};
ghost use Rattle.sstable_blocks.specs.Writing.{AppendsFilter, AppendsEnd, UsesWriter, WritesLast};

use super::laws::handles_are_ready;
use super::{RunConfig, RunHandles};
use crate::table::filter::BloomConstructionPolicy;
use crate::table::filter::policy::MAX_BITS;
use sst_base::table::block::header::HEADER_LEN;
use sst_base::{
    Block, BlockHandle, BlockHash, BlockOffset, BlockType, Error, History, InternalValue, Output,
    Result,
};
use sst_block_core::{AsEntry, EntryView, IndexBlock, KeyedBlockHandle};
use std::alloc::Global;
use std::collections::LinkedList;
use std::marker::{Model, PhantomData};

// The greatest length of a payload after a handle: its frame has at most 2^32 - 1 bytes.
const MAX_PAYLOAD: usize = 4294967262;

/// What is kept while a run is written block by block. Each call takes the writer.
///
/// Clauses see the configuration and the blocks accepted.
#[derive(Drop)]
pub(crate) struct RunCore<H: BlockHash> {
    hash: PhantomData<H>,
    config: RunConfig,
    handles: Vec<KeyedBlockHandle>,
    hashes: Vec<u64>,
    offset: u64,
    // The payload of the last block, kept for its capacity.
    payload: Vec<u8>,
    accepted: History<LinkedList<InternalValue>>,
}

impl<H: BlockHash> Model for RunCore<H> {
    ghost use Rattle.sstable_blocks.specs.Run.{form};
    ghost use Rattle.sstable_blocks.specs.Writing.{Written, IsKept};

    ghost Value = { Written };

    ghost view = { λ c. record { config = c.config; blocks = c.accepted } };

    ghost invariant = { λ c.
        IsKept (form H.hash64 H.hash128 c.config) c.accepted c.handles.items c.hashes.items
        c.offset };
}

impl<H: BlockHash> RunCore<H> {
    /// Begins a run without blocks. Both intervals are at least 1.
    pub(crate) fn new(alloc: Global, config: RunConfig) -> RunCore<H>
        requires interval { 1 ≤ config.restart_interval }
        requires index_interval { 1 ≤ config.index_interval }
        ensures { result ≡ record { config = config; blocks = [] } }
    {
        RunCore {
            hash: PhantomData,
            config,
            handles: Vec::new(alloc),
            hashes: Vec::new(alloc),
            offset: 0,
            payload: Vec::new(alloc),
            accepted: History::new(),
        }
    }

    /// Returns whether entries can be the next block.
    pub(crate) fn fits_after<T: AsEntry>(&self, items: &[T]) -> bool
        ensures { IsTrue result ↔ Follows self.now.blocks (map T.entry items.now) }
    {
        match items.first() {
            None => false,
            Some(first) => T::are_ordered(items) && self.is_behind(&first.view()),
        }
    }

    // Returns whether an entry does not sort before the last one of the blocks accepted.
    fn is_behind(&self, item: &EntryView<'_>) -> bool
        ensures behind { IsTrue result ↔ FollowsLast self.now.blocks item.now }
        ensures ordered { IsOrdered entries (joined self.now.blocks) }
    {
        match self.handles.last() {
            None => true,
            Some(handle) => {
                let by_key = item.compare_key(handle.end_key().as_slice());
                by_key.then(handle.seqno().cmp(&item.seqno())).is_ge()
            }
        }
    }

    /// Returns the number of blocks accepted.
    pub(crate) fn block_count(&self) -> usize
        ensures { result ≡ length self.now.blocks }
    {
        self.handles.len()
    }

    /// Writes one more block, not empty and ordered after the blocks before. All its own
    /// allocations come before the first byte is written. The denominator of the ratio is at least
    /// 1.
    ///
    /// # Errors
    ///
    /// `Error::TooLong` only where the block does not fit, `Error::Memory` if an allocation fails;
    /// nothing is written then. `Error::Io` if the writer fails. The block is not accepted.
    pub(crate) fn add_block<T: AsEntry, W: Output>(
        &mut self,
        writer: &mut W,
        items: &[T],
    ) -> Result<()>
        requires follows { Follows self.old.blocks (map T.entry items.now) }
        requires den { 1 ≤ self.old.config.ratio.den }
        ensures config { self.new.config ≡ self.old.config }
        ensures accepted { OnOk result
            (self.new.blocks ≡ self.old.blocks ++ map T.entry items.now ∷ []) }
        ensures bytes { OnOk result (Appends (W.contents writer.old) (W.contents writer.new)
            (block_frame (form H.hash64 H.hash128 self.old.config) (map T.entry items.now))) }
        ensures kept { OnErr result (self.new.blocks ≡ self.old.blocks) }
        ensures writer { WritesLast W.never_fails writer.old writer.new result }
        ensures cause { let f = form H.hash64 H.hash128 self.old.config in
            IfErr result (IsWriteRefusal (FrameFits f (length (block_frames f self.old.blocks))
            (map T.entry items.now) → ⊥)) }
    {
        let (config, offset) = (self.config, self.offset);
        let (size, end) = framed_block::<H, T>(&mut self.payload, items, &config, offset)?;
        let handle = handle_at(
            *self.handles.allocator(),
            &items[items.len() - 1],
            offset,
            size,
        )?;
        self.handles.try_reserve(1)?;
        let known = self.hashes.len();
        push_hashes::<H, T>(&mut self.hashes, hashed_items(items, &config))?;
        if let Err(error) = write_frame::<H, W>(writer, &self.payload, BlockType::Data) {
            self.hashes.truncate(known);
            return Err(error);
        }
        let _room = self.handles.push(handle);
        self.offset = end;
        self.accepted.push_chosen(&items);
        Ok(())
    }

    /// Writes the index and the filter. A block was accepted.
    ///
    /// # Errors
    ///
    /// `Error::TooLong` only where the run does not fit, `Error::Memory` if an allocation fails,
    /// `Error::Io` if the writer fails.
    pub(crate) fn finish<W: Output>(&self, writer: &mut W) -> Result<RunHandles>
        requires { 1 ≤ length self.now.blocks }
        ensures layout { IfOk result (AppendsEnd (form H.hash64 H.hash128 self.now.config)
            self.now.blocks (W.contents writer.old) (W.contents writer.new)) }
        ensures writer { UsesWriter W.never_fails writer.old writer.new result }
        ensures cause { IfErr result (IsWriteRefusal
            (RunFits (form H.hash64 H.hash128 self.now.config) self.now.blocks → ⊥)) }
    {
        let (index, end) = self.write_index(writer)?;
        let filter = self.write_filter(writer, end)?;
        Ok(RunHandles { index, filter })
    }

    // Writes the index after the blocks. Returns its handle, and the offset after it.
    fn write_index<W: Output>(&self, writer: &mut W) -> Result<(BlockHandle, u64)>
        requires { 1 ≤ length self.now.blocks }
        ensures written { let f = form H.hash64 H.hash128 self.now.config in
            IfOk result (λ r. IsFrameAppended H.hash128 Index
            (length (block_frames f self.now.blocks)) (index_text f self.now.blocks)
            (W.contents writer.old) (W.contents writer.new) r.0) }
        ensures end { let f = form H.hash64 H.hash128 self.now.config in
            IfOk result (λ r. r.1 ≡ length (block_frames f self.now.blocks)
            + (33 + length (index_text f self.now.blocks))) }
        ensures run { OnOk result
            (IsRun (form H.hash64 H.hash128 self.now.config) self.now.blocks) }
        ensures framed { let f = form H.hash64 H.hash128 self.now.config in
            OnOk result
            (AllByRecursion (λ block. IsFramed (block_payload f block)) self.now.blocks) }
        ensures writer { UsesWriter W.never_fails writer.old writer.new result }
        ensures cause { IfErr result (IsWriteRefusal
            (RunFits (form H.hash64 H.hash128 self.now.config) self.now.blocks → ⊥)) }
    {
        handles_are_ready();
        let alloc = *self.handles.allocator();
        let interval = self.config.index_interval;
        let payload = IndexBlock::encode_into_vec_with(alloc, &self.handles, interval)?;
        write_part::<H, W>(writer, &payload, BlockType::Index, self.offset)
    }

    // Writes the filter, if there are bits, after the index. Returns its handle.
    fn write_filter<W: Output>(&self, writer: &mut W, offset: u64) -> Result<Option<BlockHandle>>
        requires some { 1 ≤ length self.now.blocks }
        requires offset { let f = form H.hash64 H.hash128 self.now.config in
            offset
            ≡ length (block_frames f self.now.blocks) + length (index_frame f self.now.blocks) }
        ensures written { let f = form H.hash64 H.hash128 self.now.config in
            IfOk result (AppendsFilter f self.now.blocks offset (W.contents writer.old)
            (W.contents writer.new)) }
        ensures writer { UsesWriter W.never_fails writer.old writer.new result }
        ensures cause { IfErr result (IsWriteRefusal
            (RunFits (form H.hash64 H.hash128 self.now.config) self.now.blocks → ⊥)) }
    {
        let policy = BloomConstructionPolicy::BitsPerKey(self.config.bits_per_key);
        if !policy.is_active() {
            return Ok(None);
        }
        if !policy.fits(self.hashes.len()) {
            return Err(Error::TooLong);
        }
        let alloc = *self.hashes.allocator();
        let payload = filter_of(alloc, &policy, &self.hashes)?;
        let (handle, _) = write_part::<H, W>(writer, &payload, BlockType::Filter, offset)?;
        Ok(Some(handle))
    }
}

// The handle of a block that ends with this item, whose frame is at an offset and has this many
// bytes.
fn handle_at<T: AsEntry>(
    alloc: Global,
    last: &T,
    offset: u64,
    size: u32,
) -> Result<KeyedBlockHandle>
    ensures ok { IfOk result (λ handle. handle ≡ record {
      offset = offset;
      size = size;
      seqno = (T.entry last.now).key.seqno;
      end_key = (T.entry last.now).key.user_key;
    }) }
    ensures memory { IsOkUnless result Error.Memory }
{
    let last = last.view();
    let end_key = last.to_user_key(alloc)?;
    let place = BlockHandle::new(BlockOffset(offset), size);
    Ok(KeyedBlockHandle::new(end_key, last.seqno(), place))
}

// Makes the payload of a block. Returns the length of its frame, and the offset after it.
fn framed_block<H: BlockHash, T: AsEntry>(
    payload: &mut Vec<u8>,
    items: &[T],
    config: &RunConfig,
    offset: u64,
) -> Result<(u32, u64)>
    requires some { 1 ≤ length items.now }
    requires ordered { IsOrdered entries (map T.entry items.now) }
    requires interval { 1 ≤ config.now.restart_interval }
    requires den { 1 ≤ config.now.ratio.den }
    ensures ok { IfOk result (λ r. IsFramedBlock (form H.hash64 H.hash128 config.now) offset
        (map T.entry items.now) payload.new.items r.0 r.1) }
    ensures cause { IfErr result (IsWriteRefusal (FrameFits (form H.hash64 H.hash128 config.now)
        offset (map T.entry items.now) → ⊥)) }
    ensures not_io { IfErr result (λ e. e ≢ Io) }
{
    payload.clear();
    match T::encode_into::<H>(payload, items, config.restart_interval, config.ratio) {
        Err(e) => Err(e),
        Ok(()) => match frame_end(payload.len(), offset) {
            Some((size, end)) => Ok((size, end)),
            None => Err(Error::TooLong),
        },
    }
}

// The length of the frame of a payload of this length, and its end, if they fit.
fn frame_end(payload_len: usize, offset: u64) -> Option<(u32, u64)>
    ensures framed { IfSome result (λ r. payload_len ≤ 4294967262) }
    ensures size { IfSome result (λ r. r.0 ≡ 33 + payload_len) }
    ensures end { IfSome result (λ r. (r.1 ≡ offset + (33 + payload_len)) × (r.1 < 2 ^ 64)) }
    ensures none { IsNone result
        → (4294967262 < payload_len) ⊎ (2 ^ 64 ≤ offset + (33 + payload_len)) }
{
    if payload_len > MAX_PAYLOAD {
        return None;
    }
    let size = (HEADER_LEN + payload_len) as u32;
    match offset.checked_add(u64::from(size)) {
        Some(end) => Some((size, end)),
        None => None,
    }
}

// Writes a frame whose payload is after a handle.
fn write_frame<H: BlockHash, W: Output>(
    writer: &mut W,
    payload: &[u8],
    block_type: BlockType,
) -> Result<()>
    requires { IsFramed payload.now }
    ensures bytes { OnOk result (Appends (W.contents writer.old) (W.contents writer.new)
        (frame H.hash128 block_type payload.now)) }
    ensures io { IsOkUnless result Error.Io }
    ensures writer { UsesWriter W.never_fails writer.old writer.new result }
{
    Block::write_into::<H, W>(writer, payload, block_type)?;
    Ok(())
}

/// Writes the frame of a payload as the next part of a run, which begins at `offset`. Returns its
/// handle, and the offset after it.
///
/// # Errors
///
/// `Error::TooLong` only where the payload has more than 4294967262 bytes, or the frame ends at 2^64
/// or above; `Error::Io` if the writer fails.
pub fn write_part<H: BlockHash, W: Output>(
    writer: &mut W,
    payload: &[u8],
    block_type: BlockType,
    offset: u64,
) -> Result<(BlockHandle, u64)>
    ensures written { IfOk result (λ r. IsFrameAppended H.hash128 block_type offset payload.now
        (W.contents writer.old) (W.contents writer.new) r.0) }
    ensures end { IfOk result (λ r. r.1 ≡ offset + (33 + length payload.now)) }
    ensures writer { UsesWriter W.never_fails writer.old writer.new result }
    ensures cause { IfErr result
        (λ e. (e ≡ Io) ⊎ ((e ≡ TooLong) × (PartFits offset payload.now → ⊥))) }
{
    let Some((size, end)) = frame_end(payload.len(), offset) else {
        return Err(Error::TooLong);
    };
    write_frame::<H, W>(writer, payload, block_type)?;
    Ok((BlockHandle::new(BlockOffset(offset), size), end))
}

// The entries whose keys the filter takes: all, or none where there is no filter.
fn hashed_items<'a, T>(items: &'a [T], config: &RunConfig) -> &'a [T]
    ensures { 1 ≤ config.now.bits_per_key → result.now ≡ items.now }
{
    if config.bits_per_key == 0 { &[] } else { items }
}

// Keeps the hashes of the keys of entries, or of none of them.
fn push_hashes<H: BlockHash, T: AsEntry>(hashes: &mut Vec<u64>, items: &[T]) -> Result<()>
    ensures ok { OnOk result (hashes.new.items
        ≡ hashes.old.items ++ key_hashes H.hash64 (map T.entry items.now)) }
    ensures err { OnErr result (hashes.new.items ≡ hashes.old.items) }
    ensures memory { IsOkUnless result Error.Memory }
{
    let known = hashes.len();
    let pushed = push_all::<H, T>(hashes, items);
    if pushed.is_err() {
        hashes.truncate(known);
    }
    pushed
}

// Pushes the hashes of the keys of entries, or of the first of them.
fn push_all<H: BlockHash, T: AsEntry>(hashes: &mut Vec<u64>, items: &[T]) -> Result<()>
    ensures ok { OnOk result (hashes.new.items
        ≡ hashes.old.items ++ key_hashes H.hash64 (map T.entry items.now)) }
    ensures kept { take (length hashes.old.items) hashes.new.items ≡ hashes.old.items }
    ensures memory { IsOkUnless result Error.Memory }
{
    let alloc = *hashes.allocator();
    hashes.try_reserve(items.len())?;
    for item in items {
        hashes.push(item.view().hash_key::<H>(alloc)?)?;
    }
    Ok(())
}

// The payload of the filter of hashes.
fn filter_of(alloc: Global, policy: &BloomConstructionPolicy, hashes: &[u64]) -> Result<Vec<u8>>
    requires some { 1 ≤ length hashes.now }
    requires active { 1 ≤ bits_per_key policy.now }
    requires fits { length hashes.now * bits_per_key policy.now ≤ MAX_BITS }
    ensures ok { IfOk result (λ v. IsFilterText hashes.now (bits_per_key policy.now) v.items) }
    ensures memory { IsOkUnless result Error.Memory }
{
    let mut builder = policy.init(alloc, hashes.len())?;
    for hash in hashes {
        builder.set_with_hash(*hash);
    }
    builder.build(alloc)
}
