//! Data blocks whose payload is borrowed.
ghost use Rattle.std.specs.Prelude.{◌≡◌, ℕ, ◌*◌, ◌^◌, ◌<◌, ◌≤◌, List, length, map, None, Some};
ghost use Rattle.std.specs.Prelude.{IfOk, IfSome, IsOkUnless, is_some, true, false, ◌==◌};
ghost use Rattle.std.specs.Prelude.{if◌then◌else◌};
ghost use Rattle.sst_base.specs.Counted.{IsZero};
ghost use Rattle.sst_base.specs.Entry.{Entry, IsEntry, plain};
ghost use Rattle.sst_block_core.specs.Body.{place_offset};
ghost use Rattle.sst_block_core.specs.Buckets.{buckets, stored_count};
ghost use Rattle.sst_block_core.specs.Entries.{entries};
ghost use Rattle.sst_block_core.specs.Heads.{IsHeadTableOf, listed_in};
ghost use Rattle.sst_block_core.specs.Kind.{IsOrdered};
ghost use Rattle.sst_block_core.specs.Payload.{IsBlock};
ghost use Rattle.sst_block_core.specs.Pointers.{head_count};
ghost use Rattle.sst_block_core.specs.Stages.{HasIndexes};
ghost use Rattle.sst_block_core.specs.Trailer.{trailer_in};
ghost use Rattle.sst_block_core.specs.Window.{whole};
ghost use Rattle.sst_block_core.specs.DataBlock.{data_ref_of};
ghost use Rattle.sst_block_core.specs.ParsedEntry.{entry_of, IsParsedEntry};

use crate::table::block::heads::HeadTable;
use crate::table::block::intervals::Intervals;
use crate::table::block::{Decoder, Trailer, hash_index};
use crate::table::data_block::entry_view::{EntryView, EntryViews};
use crate::table::data_block::iter::Iter;
use crate::table::data_block::parsed_item::DataBlockParsedItem;
use sst_base::{AllocResult, BlockHash, Error, InternalValue, Result};
use std::alloc::Global;
use std::marker::{Model, PhantomData};

/// A block of entries over bytes that it borrows, such as a page of a cache: a data block without a
/// header, whose hash index, if it has one, is made by `H`. What it gives borrows these bytes, and
/// may be kept as long as they are borrowed.
///
/// Clauses see its payload, its entries (those of tombstones without values), its restart interval
/// and its number of stored buckets. The payload is always the encoding of these entries: see
/// [`DataBlockRef::as_slice`].
#[derive(Drop)]
pub struct DataBlockRef<'a, H: BlockHash> {
    hash: PhantomData<H>,
    payload: &'a [u8],
    // The table of the heads, if the block has one.
    heads: Option<&'a HeadTable>,
}

impl<'a, H: BlockHash> Model for DataBlockRef<'a, H> {
    ghost use Rattle.std.specs.Prelude.{ℕ, List, length, ◌<◌, ◌^◌, IfSome, is_some};
    ghost use Rattle.sst_base.specs.Bytes.{IsBytes};
    ghost use Rattle.sst_base.specs.Entry.{Entry, IsEntry};
    ghost use Rattle.sst_block_core.specs.Entries.{entries};
    ghost use Rattle.sst_block_core.specs.Payload.{IsBlock};
    ghost use Rattle.sst_block_core.specs.Heads.{IsHeadTableOf, listed_in};
    ghost use Rattle.sst_block_core.specs.DataBlock.{DataRefParts, data_ref_of};

    ghost Value = { DataRefParts };

    ghost view = { λ d. data_ref_of d.payload.now (is_some d.heads) };

    ghost invariant = { λ d. (length d.payload.now < 2 ^ 32)
        × IsBytes d.payload.now
        × ((items : List Entry) × (r : ℕ) × (b : ℕ)
        × IsBlock entries IsEntry H.hash64 d.payload.now items r b)
        × IfSome d.heads (λ t. IsHeadTableOf entries (listed_in entries d.payload.now) t.now) };
}

impl<'a, H: BlockHash> DataBlockRef<'a, H> {
    /// Reads bytes that are the encoding of some ordered, non-empty list of entries, fewer than
    /// 2^32 of them, as a data block. Takes no memory.
    pub fn new(payload: &'a [u8]) -> DataBlockRef<'a, H>
        requires fits { length payload.now < 2 ^ 32 }
        requires encoding { (items : List Entry) × (r : ℕ) × (b : ℕ)
            × IsBlock entries IsEntry H.hash64 payload.now items r b }
        ensures payload { result.payload ≡ payload.now }
        ensures parts { result ≡ data_ref_of payload.now false }
        ensures read { (items : List Entry) (r b : ℕ)
            → IsBlock entries IsEntry H.hash64 payload.now items r b
            → (result.items ≡ map plain items) × (result.interval ≡ r)
            × (result.stored ≡ stored_count r (length items) b) }
    {
        DataBlockRef::over(payload, None)
    }

    // The block of a payload, with the table of its heads, if there is one.
    #[inline(always)]
    pub(super) fn over(payload: &'a [u8], heads: Option<&'a HeadTable>) -> DataBlockRef<'a, H>
        requires fits { length payload.now < 2 ^ 32 }
        requires encoding { (items : List Entry) × (r : ℕ) × (b : ℕ)
            × IsBlock entries IsEntry H.hash64 payload.now items r b }
        requires heads { IfSome heads
            (λ t. IsHeadTableOf entries (listed_in entries payload.now) t.now) }
        ensures { result ≡ data_ref_of payload.now (is_some heads.entry) }
    {
        DataBlockRef {
            hash: PhantomData,
            payload,
            heads,
        }
    }

    /// Returns the same block with a table of its heads, which the caller keeps: searches then
    /// compare numbers of the table, and examine the payload only where these are equal.
    pub fn with_table(&self, heads: &'a HeadTable) -> DataBlockRef<'a, H>
        requires { IsHeadTableOf entries (listed_in entries self.now.payload) heads.now }
        ensures { result ≡ record self.now { heads = true } }
    {
        DataBlockRef {
            hash: PhantomData,
            payload: self.payload,
            heads: Some(heads),
        }
    }

    /// Makes a table of the block's heads, for [`DataBlockRef::with_table`]. It has 40 bytes for
    /// each head.
    ///
    /// # Errors
    ///
    /// `Error::Memory` if an allocation fails.
    pub fn make_heads(&self, alloc: Global) -> Result<HeadTable>
        ensures ok { IfOk result
            (λ t. IsHeadTableOf entries (listed_in entries self.now.payload) t) }
        ensures memory { IsOkUnless result Error.Memory }
    {
        // The items are those of the payload.
        let _heads = self.heads;
        self.intervals().make_table(alloc)
    }

    /// Returns the table of the block's heads, if it has one.
    pub fn heads(&self) -> Option<&'a HeadTable>
        ensures there { is_some result ≡ self.now.heads }
        ensures table { IfSome result
            (λ t. IsHeadTableOf entries (listed_in entries self.now.payload) t.now) }
    {
        self.heads
    }

    /// Returns the payload, which is the encoding of the block's entries at its interval and stored
    /// number of buckets.
    pub fn as_slice(&self) -> &'a [u8]
        ensures value { result.now ≡ self.now.payload }
        ensures encoded { IsBlock entries IsEntry H.hash64 self.now.payload self.now.items
            self.now.interval self.now.stored }
        ensures fits { length self.now.payload < 2 ^ 32 }
    {
        self.payload
    }

    // The block's trailer.
    #[inline(always)]
    pub(super) fn trailer(&self) -> Trailer<'a>
        ensures payload { result ≡ self.now.payload }
        ensures count { (trailer_in self.now.payload).item_count ≡ length self.now.items }
        ensures some { 1 ≤ length self.now.items }
        ensures indexes { HasIndexes entries H.hash64 self.now.payload self.now.items
            self.now.interval self.now.stored }
    {
        Trailer::new(self.payload)
    }

    /// The block's restart intervals, of which nothing is counted yet.
    #[inline(always)]
    pub(crate) fn intervals(&self) -> Intervals<'a, InternalValue, DataBlockParsedItem>
        ensures payload { result.list.payload ≡ self.now.payload }
        ensures items { result.list.items ≡ self.now.items }
        ensures interval { result.list.interval ≡ self.now.interval }
        ensures some { 0 < self.now.interval }
        ensures ordered { IsOrdered entries self.now.items }
        ensures plain { map plain self.now.items ≡ self.now.items }
        ensures counts { IsZero result.steps }
    {
        Intervals::with_table(self.payload, self.heads)
    }

    /// Returns the number of entries, which is at least one.
    pub fn len(&self) -> usize
        ensures count { result ≡ length self.now.items }
        ensures some { 1 ≤ result }
    {
        self.trailer().item_count()
    }

    /// Returns the number of heads, each of which has a pointer in the binary index.
    pub fn binary_index_len(&self) -> u32
        ensures { result ≡ head_count self.now.interval (length self.now.items) }
    {
        self.trailer().heads()
    }

    /// Returns the offset at which the form of a head begins, by the head's pointer in the binary
    /// index: an offset that may be passed to [`Iter::seek_to_offset`].
    pub fn head_offset(&self, index: usize) -> usize
        requires { index < head_count self.now.interval (length self.now.items) }
        ensures value { result
            ≡ place_offset entries self.now.interval self.now.items
            (index * self.now.interval) }
        ensures inside { index * self.now.interval < length self.now.items }
    {
        self.intervals().head_offset(index)
    }

    /// Returns the number of buckets in the hash index, or `None` if none is stored.
    pub fn hash_bucket_count(&self) -> Option<usize>
        ensures { result ≡ (if self.now.stored == 0 then None else Some self.now.stored) }
    {
        let stored = self.trailer().hash_len() as usize;
        if stored == 0 { None } else { Some(stored) }
    }

    /// Returns a view of the hash index, which has at least one bucket, or `None` if none is
    /// stored. Takes no memory.
    pub fn get_hash_index_reader(&self) -> Option<hash_index::Reader<'a, H>>
        ensures buckets { result
            ≡ (if self.now.stored == 0 then None
            else Some (buckets entries H.hash64 self.now.interval self.now.items self.now.stored)) }
        ensures some { IfSome result (λ reader. 0 < length reader) }
    {
        let trailer = self.trailer();
        let stored = trailer.hash_len();
        if stored == 0 {
            return None;
        }
        Some(hash_index::Reader::new(self.payload, trailer.hash_offset(), stored))
    }

    /// Returns an iterator over the entries, as ranges of the payload. Takes no memory.
    pub fn iter(&self) -> Iter<'a>
        ensures payload { result.payload ≡ self.now.payload }
        ensures interval { result.interval ≡ self.now.interval }
        ensures window { result.window ≡ whole self.now.items }
        ensures plain { map plain self.now.items ≡ self.now.items }
        ensures counts { IsZero result.steps }
    {
        Iter::new(Decoder::over(self.intervals()))
    }

    /// Returns an iterator over the entries, each of which borrows the payload. Takes no memory.
    pub fn entries(&self) -> EntryViews<'a>
        ensures { result ≡ self.now.items }
    {
        EntryViews::new(self, self.iter())
    }

    /// Returns the entry of an item that a search or an iterator over the block gave. It borrows
    /// the payload.
    #[inline(always)]
    pub fn entry(&self, item: DataBlockParsedItem) -> EntryView<'a>
        requires { IsParsedEntry self.now.payload item }
        ensures { result ≡ entry_of self.now.payload item }
    {
        EntryView::new(self.payload, item)
    }
}

/// A copy borrows the same bytes. No memory is taken.
impl<'a, H: BlockHash> Clone for DataBlockRef<'a, H> {
    ghost is_clone = { λ block copy. copy ≡ block };

    fn clone(&self) -> AllocResult<DataBlockRef<'a, H>> {
        Ok(DataBlockRef {
            hash: PhantomData,
            payload: self.payload,
            heads: self.heads,
        })
    }
}
