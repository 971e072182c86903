//! Data blocks: blocks of entries.
ghost use Rattle.std.specs.Prelude.{◌≡◌, ◌↔◌, ℕ, ◌+◌, ◌*◌, ◌^◌, ◌<◌, MatchResult};
ghost use Rattle.std.specs.Prelude.{◌≤◌, List, length, map, [], IsTrue, true, false, is_some};
ghost use Rattle.std.specs.Prelude.{IsOk, IsSome, OnOk, OnErr, IfOk, IfErr, IsOkUnless, None, Some};
ghost use Rattle.std.specs.Prelude.{IfSome, IsNone, take, ◌==◌, if◌then◌else◌, ◌≢◌, Ok, Err};
ghost use Rattle.sst_base.specs.Counted.{IsZero, CountsBetween};
ghost use Rattle.sst_base.specs.Entry.{Entry, IsEntry, IsShort, plain};
ghost use Rattle.sst_block_core.specs.Checks.{data_check};
ghost use Rattle.sst_block_core.specs.Body.{place_offset};
ghost use Rattle.sst_block_core.specs.Kind.{IsOrdered};
ghost use Rattle.sst_block_core.specs.Entries.{entries};
ghost use Rattle.sst_block_core.specs.Pointers.{head_count};
ghost use Rattle.sst_block_core.specs.Buckets.{bucket_count, buckets, stored_count};
ghost use Rattle.sst_block_core.specs.Payload.{IsBlock, payload};
ghost use Rattle.sst_block_core.specs.Heads.{IsHeadTableOf, listed_in};
ghost use Rattle.sst_block_core.specs.Encoders.{IsRefusal, IsBlockPayload};
ghost use Rattle.sst_block_core.specs.PointReads.{read_least, read_most};
ghost use Rattle.sst_block_core.specs.Window.{whole, first_match};
ghost use Rattle.sst_block_core.specs.DataBlock.{data_inner, data_block_of, ref_of_block};
ghost use Rattle.sst_block_core.specs.Disorder.{disorder_from};
ghost use Rattle.sst_block_core.specs.ParsedEntry.{entry_of, IsParsedEntry};
ghost use Rattle.sst_block_core.specs.Trailer.{trailer_in};

pub mod as_entry;
pub mod block_ref;
mod checking;
mod decoding;
mod encoding;
pub mod entry_view;
pub mod into_entries;
pub mod iter;
pub mod ops;
pub mod parsed_item;
mod point_read;

use crate::laws::data_check_is_by_stages;
pub use crate::table::answer::Answer;
use crate::table::block::encoder::encode_all;
use crate::table::block::heads::HeadTable;
use crate::table::block::{ParsedItem, hash_index};
use crate::table::order;
pub use as_entry::AsEntry;
pub use block_ref::DataBlockRef;
pub use entry_view::{EntryView, EntryViews};
pub use into_entries::IntoEntries;
pub use iter::Iter;
pub use ops::{Op, walk};
pub use parsed_item::DataBlockParsedItem;
use sst_base::table::block::Block;
use sst_base::{AllocResult, BlockHash, Error, HashRatio, InternalValue, Result, Slice};
use std::alloc::Global;
use std::fmt;
use std::marker::{Model, PhantomData};
use std::sync::Arc;

/// A block of entries, whose hash index, if it has one, is made by `H`.
///
/// Clauses see its header and payload, its entries (those of tombstones without values), its
/// restart interval and its number of stored buckets. The payload is always the encoding of these
/// entries: see [`DataBlock::as_slice`].
#[derive(Drop)]
pub struct DataBlock<H: BlockHash> {
    hash: PhantomData<H>,
    inner: Block,
    // The table of the heads, if one was made. Clones share it.
    heads: Option<Arc<HeadTable>>,
}

impl<H: BlockHash> Model for DataBlock<H> {
    ghost use Rattle.std.specs.Prelude.{ℕ, List, is_some};
    ghost use Rattle.sst_base.specs.Entry.{Entry, IsEntry};
    ghost use Rattle.sst_block_core.specs.Entries.{entries};
    ghost use Rattle.std.specs.Prelude.{IfSome};
    ghost use Rattle.sst_block_core.specs.Payload.{IsBlock};
    ghost use Rattle.sst_block_core.specs.Heads.{IsHeadTableOf, listed_in};
    ghost use Rattle.sst_block_core.specs.DataBlock.{DataBlockParts, data_block_of};

    ghost Value = { DataBlockParts };

    ghost view = { λ d. data_block_of d.inner (is_some d.heads) };

    ghost invariant = { λ d. ((items : List Entry) × (r : ℕ) × (b : ℕ)
        × IsBlock entries IsEntry H.hash64 d.inner.payload items r b)
        × IfSome d.heads (λ t. IsHeadTableOf entries (listed_in entries d.inner.payload) t.value) };
}

impl<H: BlockHash> DataBlock<H> {
    /// Returns whether no entry sorts before its predecessor: by user key rising, then by sequence
    /// number falling.
    pub fn is_ordered(items: &[InternalValue]) -> bool
        ensures { IsTrue result ↔ IsOrdered entries items.now }
    {
        Self::first_disorder(items).is_none()
    }

    /// Returns the index of the first entry that sorts before its predecessor, or `None` if the
    /// entries are ordered.
    pub fn first_disorder(items: &[InternalValue]) -> Option<usize>
        ensures index { result ≡ disorder_from 0 items.now }
        ensures none { IsNone result ↔ IsOrdered entries items.now }
        ensures range { IfSome result (λ i. (1 ≤ i) × (i < length items.now)) }
        ensures before { IfSome result (λ i. IsOrdered entries (take i items.now)) }
        ensures at { IfSome result (λ i. IsOrdered entries (take (i + 1) items.now) → ⊥) }
    {
        for i in 1..items.len() {
            if items[i].key() < items[i - 1].key() {
                return Some(i);
            }
        }
        None
    }

    /// Encodes a non-empty ordered list of entries, or of views of entries, into an empty vector,
    /// in restart intervals of at least one entry, with the number of buckets that the ratio gives.
    /// The denominator is at least 1. With more than 254 heads no buckets are stored. Of views no
    /// entry is made: keys and values are copied once, into the block.
    ///
    /// # Errors
    ///
    /// `Error::TooLong` only where the block has 2^32 bytes or more; `Error::Memory` if an
    /// allocation fails. The vector is then empty.
    pub fn encode_into<Item: AsEntry>(
        writer: &mut Vec<u8>,
        items: &[Item],
        restart_interval: u8,
        ratio: HashRatio,
    ) -> Result<()>
        requires empty { writer.old.items ≡ [] }
        requires some { 1 ≤ length items.now }
        requires ordered { IsOrdered Item.kind items.now }
        requires interval { 1 ≤ restart_interval }
        requires den { 1 ≤ ratio.den }
        ensures written { OnOk result (IsBlockPayload
            (IsBlock Item.kind Item.valid H.hash64 writer.new.items items.now restart_interval
            (bucket_count ratio.num ratio.den (length items.now)))
            (payload Item.kind H.hash64 restart_interval items.now
            (bucket_count ratio.num ratio.den (length items.now)))
            writer.new.items) }
        ensures empty { OnErr result (writer.new.items ≡ []) }
        ensures cause { IfErr result (IsRefusal None
            (2 ^ 32
            ≤ length
            (payload Item.kind H.hash64 restart_interval items.now
            (bucket_count ratio.num ratio.den (length items.now))))) }
    {
        encode_all::<Item, H>(writer, items, restart_interval, ratio)
    }

    /// Encodes a non-empty ordered list of entries, or of views, as [`DataBlock::encode_into`]
    /// does, into a vector of its own.
    ///
    /// # Errors
    ///
    /// `Error::TooLong` only where the block has 2^32 bytes or more; `Error::Memory` if an
    /// allocation fails.
    pub fn encode_into_vec<Item: AsEntry>(
        alloc: Global,
        items: &[Item],
        restart_interval: u8,
        ratio: HashRatio,
    ) -> Result<Vec<u8>>
        requires some { 1 ≤ length items.now }
        requires ordered { IsOrdered Item.kind items.now }
        requires interval { 1 ≤ restart_interval }
        requires den { 1 ≤ ratio.den }
        ensures payload { IfOk result (λ v. v.items
            ≡ payload Item.kind H.hash64 restart_interval items.now
            (bucket_count ratio.num ratio.den (length items.now))) }
        ensures block { IfOk result
            (λ v. IsBlock Item.kind Item.valid H.hash64 v.items items.now restart_interval
            (bucket_count ratio.num ratio.den (length items.now))) }
        ensures fits { IfOk result (λ v. length v.items < 2 ^ 32) }
        ensures cause { IfErr result (IsRefusal None
            (2 ^ 32
            ≤ length
            (payload Item.kind H.hash64 restart_interval items.now
            (bucket_count ratio.num ratio.den (length items.now))))) }
    {
        let mut writer = Vec::new(alloc);
        DataBlock::<H>::encode_into(&mut writer, items, restart_interval, ratio)?;
        Ok(writer)
    }

    /// Returns whether no entry sorts before its predecessor, as [`DataBlock::is_ordered`] does for
    /// views of entries.
    pub fn are_views_ordered(items: &[EntryView<'_>]) -> bool
        ensures { IsTrue result ↔ IsOrdered entries items.now }
    {
        order::is_ordered(items)
    }

    /// Wraps a block whose payload is the encoding of some ordered, non-empty list of entries.
    /// Takes no memory.
    pub fn new(block: Block) -> DataBlock<H>
        requires { (items : List Entry) × (r : ℕ) × (b : ℕ)
            × IsBlock entries IsEntry H.hash64 block.payload items r b }
        ensures inner { data_inner result ≡ block }
        ensures payload { result.payload ≡ block.payload }
        ensures parts { result ≡ data_block_of block false }
        ensures read { (items : List Entry) (r b : ℕ)
            → IsBlock entries IsEntry H.hash64 block.payload items r b
            → (result.items ≡ map plain items) × (result.interval ≡ r)
            × (result.stored ≡ stored_count r (length items) b) }
    {
        // A payload has fewer than 2^32 bytes.
        let _fits = block.size();
        DataBlock {
            hash: PhantomData,
            inner: block,
            heads: None,
        }
    }

    /// Makes the table of the block's heads: searches then compare numbers of the table, and
    /// examine the payload only where these are equal. It pays for a block that is kept and
    /// searched more than once, such as an index or a cached block. The table has 40 bytes for each
    /// head.
    ///
    /// # Errors
    ///
    /// `Error::Memory` if an allocation fails, with the unchanged block.
    pub fn with_heads(
        self,
        alloc: Global,
    ) -> std::result::Result<DataBlock<H>, (Error, DataBlock<H>)>
        ensures ok { IfOk result (λ b. b ≡ record self { heads = true }) }
        ensures err { IfErr result (λ e. (e.0 ≡ Error.Memory) × (e.1 ≡ self)) }
    {
        match self.make_shared(alloc) {
            Ok(heads) => Ok(DataBlock {
                hash: PhantomData,
                inner: self.inner,
                heads: Some(heads),
            }),
            Err(error) => Err((error, self)),
        }
    }

    /// Returns the table of the block's heads, if one was made: by [`DataBlock::check`] or
    /// [`DataBlock::with_heads`].
    pub fn heads(&self) -> Option<&HeadTable>
        ensures there { is_some result ≡ self.now.heads }
        ensures table { IfSome result
            (λ t. IsHeadTableOf entries (listed_in entries self.now.payload) t.now) }
    {
        match &self.heads {
            Some(heads) => Some(&**heads),
            None => None,
        }
    }

    // Makes the table of the block's heads, which clones of the block will share.
    fn make_shared(&self, alloc: Global) -> Result<Arc<HeadTable>>
        ensures ok { IfOk result
            (λ t. IsHeadTableOf entries (listed_in entries self.now.payload) t.value) }
        ensures memory { IsOkUnless result Error.Memory }
    {
        self.by_ref().make_heads(alloc)?.into_shared(alloc)
    }

    /// Wraps a block of any bytes, if its payload is the encoding of some ordered, non-empty list
    /// of entries, and makes the table of its heads, as [`DataBlock::with_heads`] does. Allocates
    /// for the table, and where buckets are stored also for the buckets and for the longest
    /// truncated key. For a block that is read once use [`DataBlock::check_once`], which makes no
    /// table.
    ///
    /// # Errors
    ///
    /// The error of the first of these stages that fails. `Error::Truncated` if the payload has
    /// fewer than 31 bytes; `Error::BadTrailer` if the numbers of the trailer are not consistent
    /// with each other and the payload; `Error::BadEntry` if the body is not as many entries in
    /// their forms as the trailer says, and nothing else; `Error::OutOfOrder` if an entry sorts
    /// before its predecessor; `Error::BadIndex` if a pointer is not the offset of its head, or the
    /// pointer width is not the smallest that suffices; `Error::BadHashIndex` if a bucket is not
    /// the bucket of the entries. `Error::Memory` if an allocation fails.
    pub fn check(alloc: Global, block: Block) -> Result<DataBlock<H>>
        ensures checked { IfOk result (λ b. data_check H.hash64 block.payload ≡ Ok b.items) }
        ensures parts { IfOk result (λ b. b ≡ data_block_of block true) }
        ensures encoded { IfOk result
            (λ b. IsBlock entries IsEntry H.hash64 block.payload b.items b.interval b.stored) }
        ensures refused { IfErr result
            (λ e. e ≢ Error.Memory → data_check H.hash64 block.payload ≡ Err e) }

        // An encoding is accepted.
        ensures accepts { (items : List Entry) (r b : ℕ)
            → IsBlock entries IsEntry H.hash64 block.payload items r b
            → MatchResult result (λ found. found.items ≡ map plain items)
            (λ e. e ≡ Error.Memory) }
    {
        let block = DataBlock::<H>::check_once(alloc, block)?;
        let heads = block.make_shared(alloc)?;
        Ok(DataBlock {
            hash: PhantomData,
            inner: block.inner,
            heads: Some(heads),
        })
    }

    /// Wraps a block of any bytes as [`DataBlock::check`] does, and makes no table of its heads:
    /// for a block that is read once. Allocates where buckets are stored.
    ///
    /// # Errors
    ///
    /// Those of [`DataBlock::check`].
    pub fn check_once(alloc: Global, block: Block) -> Result<DataBlock<H>>
        ensures checked { IfOk result (λ b. data_check H.hash64 block.payload ≡ Ok b.items) }
        ensures parts { IfOk result (λ b. b ≡ data_block_of block false) }
        ensures encoded { IfOk result
            (λ b. IsBlock entries IsEntry H.hash64 block.payload b.items b.interval b.stored) }
        ensures refused { IfErr result
            (λ e. e ≢ Error.Memory → data_check H.hash64 block.payload ≡ Err e) }
        ensures memory { IfErr result
            (λ e. e ≡ Error.Memory → 0 < (trailer_in block.payload).hash_len) }
        ensures not_io { IfErr result (λ e. e ≢ Error.Io) }

        // An encoding is accepted.
        ensures accepts { (items : List Entry) (r b : ℕ)
            → IsBlock entries IsEntry H.hash64 block.payload items r b
            → MatchResult result (λ found. found.items ≡ map plain items)
            (λ e. e ≡ Error.Memory) }
    {
        data_check_is_by_stages();
        DataBlock::<H>::check_ref(alloc, &block)?;
        Ok(DataBlock::new(block))
    }

    /// Returns the payload, which is the encoding of the block's entries at its interval and stored
    /// number of buckets.
    pub fn as_slice(&self) -> &Slice
        ensures value { result.now ≡ self.now.payload }
        ensures encoded { IsBlock entries IsEntry H.hash64 self.now.payload self.now.items
            self.now.interval self.now.stored }
        ensures fits { length self.now.payload < 2 ^ 32 }
    {
        // A payload has fewer than 2^32 cells, each a byte.
        let _fits = self.inner.size();
        self.inner.data()
    }

    /// Returns the block, with its header.
    pub fn inner(&self) -> &Block
        ensures { result.now ≡ data_inner self.now }
    {
        &self.inner
    }

    /// Returns the block, with its header, by value.
    pub fn into_inner(self) -> Block
        ensures { result ≡ data_inner self }
    {
        self.inner
    }

    /// Returns the block over its payload, which is borrowed, with its table of heads, if it has
    /// one. Takes no memory.
    #[inline(always)]
    pub fn by_ref(&self) -> DataBlockRef<'_, H>
        ensures { result ≡ ref_of_block self.now }
    {
        let payload = self.inner.data().as_slice();
        DataBlockRef::over(payload, self.heads())
    }

    /// Returns the number of entries, which is at least one.
    pub fn len(&self) -> usize
        ensures count { result ≡ length self.now.items }
        ensures some { 1 ≤ result }
    {
        self.by_ref().len()
    }

    /// Returns the number of heads, each of which has a pointer in the binary index.
    pub fn binary_index_len(&self) -> u32
        ensures { result ≡ head_count self.now.interval (length self.now.items) }
    {
        self.by_ref().binary_index_len()
    }

    /// Returns the offset at which the form of a head begins, by the head's pointer in the binary
    /// index: an offset that may be passed to [`Iter::seek_to_offset`].
    pub fn head_offset(&self, index: usize) -> usize
        requires { index < head_count self.now.interval (length self.now.items) }
        ensures value { result
            ≡ place_offset entries self.now.interval self.now.items
            (index * self.now.interval) }
        ensures inside { index * self.now.interval < length self.now.items }
    {
        self.by_ref().head_offset(index)
    }

    /// Returns the number of buckets in the hash index, or `None` if none is stored.
    pub fn hash_bucket_count(&self) -> Option<usize>
        ensures { result ≡ (if self.now.stored == 0 then None else Some self.now.stored) }
    {
        self.by_ref().hash_bucket_count()
    }

    /// Returns a view of the hash index, which has at least one bucket, or `None` if none is
    /// stored. Takes no memory.
    pub fn get_hash_index_reader(&self) -> Option<hash_index::Reader<'_, H>>
        ensures buckets { result
            ≡ (if self.now.stored == 0 then None
            else Some (buckets entries H.hash64 self.now.interval self.now.items self.now.stored)) }
        ensures some { IfSome result (λ reader. 0 < length reader) }
    {
        self.by_ref().get_hash_index_reader()
    }

    /// Returns an iterator over the entries, as ranges of the payload. Takes no memory.
    pub fn iter(&self) -> Iter<'_>
        ensures payload { result.payload ≡ self.now.payload }
        ensures interval { result.interval ≡ self.now.interval }
        ensures window { result.window ≡ whole self.now.items }
        ensures plain { map plain self.now.items ≡ self.now.items }
        ensures counts { IsZero result.steps }
    {
        self.by_ref().iter()
    }

    /// Returns an iterator over the entries, each of which borrows the block. Takes no memory.
    pub fn entries(&self) -> EntryViews<'_>
        ensures { result ≡ self.now.items }
    {
        self.by_ref().entries()
    }

    /// Returns an iterator over the entries that owns the block. Takes no memory.
    pub fn into_entries(self) -> IntoEntries<H>
        ensures payload { result.payload ≡ self.payload }
        ensures interval { result.interval ≡ self.interval }
        ensures window { result.window ≡ whole self.items }
        ensures counts { IsZero result.steps }
    {
        IntoEntries::new(self)
    }

    // Makes the entry that a read returns. It is not inlined, so that a read without a match needs
    // no space for an entry.
    #[inline(never)]
    fn found(&self, alloc: Global, item: &DataBlockParsedItem) -> Result<Option<InternalValue>>
        requires { IsParsedEntry self.now.payload item.now }
        ensures made { IfOk result (λ entry. entry ≡ Some (entry_of self.now.payload item.now)) }
        ensures memory { IsOkUnless result Error.Memory }
        ensures few { IsShort (entry_of self.now.payload item.now) → IsOk result }
    {
        Ok(Some(item.materialize(alloc, self.as_slice())?))
    }
}

impl<H: BlockHash> Clone for DataBlock<H> {
    ghost is_clone = { λ d copy. copy ≡ d };

    fn clone(&self) -> AllocResult<DataBlock<H>> {
        let heads = match &self.heads {
            Some(heads) => Some(heads.clone()?),
            None => None,
        };
        Ok(DataBlock {
            hash: PhantomData,
            inner: self.inner.clone()?,
            heads,
        })
    }
}

impl<H: BlockHash> fmt::Debug for DataBlock<H> {
    fn fmt<W: fmt::Write>(&self, f: &mut fmt::Formatter<W>) -> fmt::Result {
        write!(f, "DataBlock({:?})", self.inner)
    }
}
