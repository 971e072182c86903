//! Index blocks whose payload is borrowed.
ghost use Rattle.std.specs.Prelude.{◌≡◌, ℕ, ◌^◌, ◌<◌, ◌≤◌, List, length, None, Some};
ghost use Rattle.std.specs.Prelude.{IfOk, IfSome, IsOkUnless, is_some, true, false};
ghost use Rattle.sst_base.specs.Counted.{IsZero};
ghost use Rattle.sst_block_core.specs.Heads.{IsHeadTableOf, listed_in};
ghost use Rattle.sst_block_core.specs.Kind.{IsOrdered};
ghost use Rattle.sst_block_core.specs.Trailer.{trailer_in};
ghost use Rattle.sst_block_core.specs.Window.{whole};
ghost use Rattle.sst_block_core.specs.Handles.{Handle, handles, IsIndexBlock};
ghost use Rattle.sst_block_core.specs.IndexBlock.{index_ref_of};
ghost use Rattle.sst_block_core.specs.ParsedHandle.{parsed_handle, IsParsedHandle};

use crate::table::block::heads::HeadTable;
use crate::table::block::intervals::Intervals;
use crate::table::block::{Decoder, Trailer};
use crate::table::index_block::block_handle::KeyedBlockHandle;
use crate::table::index_block::handle_view::{HandleView, HandleViews};
use crate::table::index_block::iter::Iter;
use crate::table::index_block::parsed_item::IndexBlockParsedItem;
use sst_base::{AllocResult, Error, Result};
use std::alloc::Global;
use std::marker::Model;

/// A block of handles over bytes that it borrows, such as a page of a cache: an index block without
/// a header. What it gives borrows these bytes, and may be kept as long as they are borrowed.
///
/// Clauses see its payload, its handles and its restart interval. The payload is always the
/// encoding of these handles: see [`IndexBlockRef::as_slice`].
#[derive(Drop)]
pub struct IndexBlockRef<'a> {
    payload: &'a [u8],
    // The table of the heads, if the block has one.
    heads: Option<&'a HeadTable>,
}

impl<'a> Model for IndexBlockRef<'a> {
    ghost use Rattle.std.specs.Prelude.{ℕ, List, length, ◌<◌, ◌^◌, IfSome, is_some};
    ghost use Rattle.sst_base.specs.Bytes.{IsBytes};
    ghost use Rattle.sst_block_core.specs.Heads.{IsHeadTableOf, listed_in};
    ghost use Rattle.sst_block_core.specs.Handles.{Handle, handles, IsIndexBlock};
    ghost use Rattle.sst_block_core.specs.IndexBlock.{IndexRefParts, index_ref_of};

    ghost Value = { IndexRefParts };

    ghost view = { λ b. index_ref_of b.payload.now (is_some b.heads) };

    ghost invariant = { λ b. (length b.payload.now < 2 ^ 32)
        × IsBytes b.payload.now
        × ((items : List Handle) × (r : ℕ) × IsIndexBlock b.payload.now items r)
        × IfSome b.heads (λ t. IsHeadTableOf handles (listed_in handles b.payload.now) t.now) };
}

impl<'a> IndexBlockRef<'a> {
    /// Reads bytes that are the encoding of some ordered, non-empty list of handles, each of whose
    /// blocks ends below 2^64, as an index block. They are fewer than 2^32. Takes no memory.
    pub fn new(payload: &'a [u8]) -> IndexBlockRef<'a>
        requires fits { length payload.now < 2 ^ 32 }
        requires encoding { (items : List Handle) × (r : ℕ) × IsIndexBlock payload.now items r }
        ensures payload { result.payload ≡ payload.now }
        ensures parts { result ≡ index_ref_of payload.now false }
        ensures read { (items : List Handle) (r : ℕ) → IsIndexBlock payload.now items r
            → (result.items ≡ items) × (result.interval ≡ r) }
    {
        IndexBlockRef::over(payload, None)
    }

    // The block of a payload, with the table of its heads, if there is one.
    #[inline(always)]
    pub(super) fn over(payload: &'a [u8], heads: Option<&'a HeadTable>) -> IndexBlockRef<'a>
        requires fits { length payload.now < 2 ^ 32 }
        requires encoding { (items : List Handle) × (r : ℕ) × IsIndexBlock payload.now items r }
        requires heads { IfSome heads
            (λ t. IsHeadTableOf handles (listed_in handles payload.now) t.now) }
        ensures { result ≡ index_ref_of payload.now (is_some heads.entry) }
    {
        IndexBlockRef { payload, heads }
    }

    /// Returns the same block with a table of its heads, which the caller keeps: seeks then compare
    /// numbers of the table, and examine the payload only where these are equal.
    pub fn with_table(&self, heads: &'a HeadTable) -> IndexBlockRef<'a>
        requires { IsHeadTableOf handles (listed_in handles self.now.payload) heads.now }
        ensures { result ≡ record self.now { heads = true } }
    {
        IndexBlockRef {
            payload: self.payload,
            heads: Some(heads),
        }
    }

    /// Makes a table of the block's heads, for [`IndexBlockRef::with_table`]. It has 40 bytes for
    /// each head.
    ///
    /// # Errors
    ///
    /// `Error::Memory` if an allocation fails.
    pub fn make_heads(&self, alloc: Global) -> Result<HeadTable>
        ensures ok { IfOk result
            (λ t. IsHeadTableOf handles (listed_in handles self.now.payload) t) }
        ensures memory { IsOkUnless result Error.Memory }
    {
        // The items are those of the payload.
        let _heads = self.heads;
        self.intervals().make_table(alloc)
    }

    /// Returns the table of the block's heads, if it has one.
    pub fn heads(&self) -> Option<&'a HeadTable>
        ensures there { is_some result ≡ self.now.heads }
        ensures table { IfSome result
            (λ t. IsHeadTableOf handles (listed_in handles self.now.payload) t.now) }
    {
        self.heads
    }

    /// Returns the payload, which is the encoding of the block's handles at its interval.
    pub fn as_slice(&self) -> &'a [u8]
        ensures value { result.now ≡ self.now.payload }
        ensures encoded { IsIndexBlock self.now.payload self.now.items self.now.interval }
        ensures fits { length self.now.payload < 2 ^ 32 }
    {
        self.payload
    }

    // The block's trailer.
    fn trailer(&self) -> Trailer<'a>
        ensures payload { result ≡ self.now.payload }
        ensures count { (trailer_in self.now.payload).item_count ≡ length self.now.items }
        ensures some { 1 ≤ length self.now.items }
    {
        Trailer::new(self.payload)
    }

    /// The block's restart intervals, of which nothing is counted yet.
    #[inline(always)]
    pub(super) fn intervals(&self) -> Intervals<'a, KeyedBlockHandle, IndexBlockParsedItem>
        ensures payload { result.list.payload ≡ self.now.payload }
        ensures items { result.list.items ≡ self.now.items }
        ensures interval { result.list.interval ≡ self.now.interval }
        ensures ordered { IsOrdered handles self.now.items }
        ensures counts { IsZero result.steps }
    {
        Intervals::with_table(self.payload, self.heads)
    }

    /// Returns the number of handles, which is at least one.
    pub fn len(&self) -> usize
        ensures count { result ≡ length self.now.items }
        ensures some { 1 ≤ result }
    {
        self.trailer().item_count()
    }

    /// Returns an iterator over the handles, as ranges of the payload. Takes no memory.
    pub fn iter(&self) -> Iter<'a>
        ensures payload { result.payload ≡ self.now.payload }
        ensures interval { result.interval ≡ self.now.interval }
        ensures window { result.window ≡ whole self.now.items }
        ensures counts { IsZero result.steps }
    {
        Iter::new(Decoder::over(self.intervals()))
    }

    /// Returns an iterator over the handles, each of which borrows the payload. Takes no memory.
    pub fn handles(&self) -> HandleViews<'a>
        ensures { result ≡ self.now.items }
    {
        HandleViews::new(self, self.iter())
    }

    /// Returns the handle of an item that an iterator over the block gave. It borrows the payload.
    #[inline(always)]
    pub fn handle(&self, item: IndexBlockParsedItem) -> HandleView<'a>
        requires { IsParsedHandle self.now.payload item }
        ensures { result ≡ parsed_handle self.now.payload item }
    {
        HandleView::new(self.payload, item)
    }
}

/// A copy borrows the same bytes. No memory is taken.
impl<'a> Clone for IndexBlockRef<'a> {
    ghost is_clone = { λ block copy. copy ≡ block };

    fn clone(&self) -> AllocResult<IndexBlockRef<'a>> {
        Ok(IndexBlockRef {
            payload: self.payload,
            heads: self.heads,
        })
    }
}
