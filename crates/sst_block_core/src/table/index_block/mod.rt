//! Index blocks: blocks of handles.
ghost use Rattle.std.specs.Prelude.{◌≡◌, ◌↔◌, ℕ, ◌^◌, ◌<◌, ◌≤◌, List};
ghost use Rattle.std.specs.Prelude.{length, [], IsTrue, true, false, is_some, IsOkUnless};
ghost use Rattle.std.specs.Prelude.{OnOk, OnErr, IfOk, IfErr, IfSome, MatchResult, None, Ok, Err};
ghost use Rattle.std.specs.Prelude.{◌≢◌};
ghost use Rattle.std.specs.List.{AllByRecursion};
ghost use Rattle.sst_base.specs.Counted.{IsZero};
ghost use Rattle.sst_block_core.specs.Checks.{index_check};
ghost use Rattle.sst_block_core.specs.Encoders.{IsRefusal, IsBlockPayload};
ghost use Rattle.sst_block_core.specs.Handles.{Handle, EndFits, handles, index_payload};
ghost use Rattle.sst_block_core.specs.Handles.{IsIndexBlock};
ghost use Rattle.sst_block_core.specs.IndexBlock.{index_inner, index_block_of, ref_of_block};
ghost use Rattle.sst_block_core.specs.ParsedHandle.{parsed_handle, IsParsedHandle};
ghost use Rattle.sst_block_core.specs.Kind.{IsOrdered};
ghost use Rattle.sst_block_core.specs.Heads.{IsHeadTableOf, listed_in};
ghost use Rattle.sst_block_core.specs.Window.{whole};

pub mod block_handle;
pub mod block_ref;
mod checking;
mod decoding;
mod encoding;
pub mod handle_view;
pub mod iter;
pub mod ops;
pub mod parsed_item;
mod positions;

use crate::laws::index_check_is_by_stages;
pub use crate::table::answer::Answer;
use crate::table::block::encoder::encode_all;
use crate::table::block::heads::HeadTable;
use crate::table::order;
pub use block_handle::{BlockHandle, KeyedBlockHandle};
pub use block_ref::IndexBlockRef;
pub use handle_view::{HandleView, HandleViews};
pub use iter::Iter;
pub use ops::{IndexOp, walk};
pub use parsed_item::IndexBlockParsedItem;
use sst_base::table::block::Block;
use sst_base::{AllocResult, Error, HashRatio, Poly31, Result, Slice};
use std::alloc::Global;
use std::fmt;
use std::marker::Model;
use std::sync::Arc;

/// A block of handles.
///
/// Clauses see its header and payload, its handles and its restart interval. The payload is always
/// the encoding of these handles: see [`IndexBlock::as_slice`].
#[derive(Drop)]
pub struct IndexBlock {
    inner: Block,
    // The table of the heads, if one was made. Clones share it.
    heads: Option<Arc<HeadTable>>,
}

impl Model for IndexBlock {
    ghost use Rattle.std.specs.Prelude.{ℕ, List};
    ghost use Rattle.std.specs.Prelude.{IfSome, is_some};
    ghost use Rattle.sst_block_core.specs.Heads.{IsHeadTableOf, listed_in};
    ghost use Rattle.sst_block_core.specs.Handles.{Handle, handles, IsIndexBlock};
    ghost use Rattle.sst_block_core.specs.IndexBlock.{IndexBlockParts, index_block_of};

    ghost Value = { IndexBlockParts };

    ghost view = { λ b. index_block_of b.inner (is_some b.heads) };

    ghost invariant = { λ b. ((items : List Handle) × (r : ℕ)
        × IsIndexBlock b.inner.payload items r)
        × IfSome b.heads (λ t. IsHeadTableOf handles (listed_in handles b.inner.payload) t.value) };
}

impl IndexBlock {
    /// Returns whether no handle sorts before its predecessor: by end key rising, then by sequence
    /// number falling.
    pub fn is_ordered(items: &[KeyedBlockHandle]) -> bool
        ensures { IsTrue result ↔ IsOrdered handles items.now }
    {
        order::is_ordered(items)
    }

    /// Returns whether the frame of each handle ends below 2^64.
    pub fn ends_fit(items: &[KeyedBlockHandle]) -> bool
        ensures { IsTrue result ↔ AllByRecursion EndFits items.now }
    {
        items.iter().all(|handle| {
            let size = u64::from(handle.size());
            handle.offset().checked_add(size).is_some()
        })
    }

    /// Encodes a non-empty ordered list of handles, each of whose blocks ends below 2^64, into an
    /// empty vector. Each handle is a head.
    ///
    /// # Errors
    ///
    /// `Error::TooLong` only where the block has 2^32 bytes or more; `Error::Memory` if an
    /// allocation fails. The vector is then empty.
    pub fn encode_into(writer: &mut Vec<u8>, items: &[KeyedBlockHandle]) -> Result<()>
        requires empty { writer.old.items ≡ [] }
        requires some { 1 ≤ length items.now }
        requires ordered { IsOrdered handles items.now }
        requires ends { AllByRecursion EndFits items.now }
        ensures written { OnOk result (IsBlockPayload (IsIndexBlock writer.new.items items.now 1)
            (index_payload items.now 1) writer.new.items) }
        ensures empty { OnErr result (writer.new.items ≡ []) }
        ensures cause { IfErr result
            (IsRefusal None (2 ^ 32 ≤ length (index_payload items.now 1))) }
    {
        IndexBlock::encode_into_with(writer, items, 1)
    }

    /// Encodes a list of handles, as [`IndexBlock::encode_into`] does, into a vector of its own.
    ///
    /// # Errors
    ///
    /// `Error::TooLong` only where the block has 2^32 bytes or more; `Error::Memory` if an
    /// allocation fails.
    pub fn encode_into_vec(alloc: Global, items: &[KeyedBlockHandle]) -> Result<Vec<u8>>
        requires some { 1 ≤ length items.now }
        requires ordered { IsOrdered handles items.now }
        requires ends { AllByRecursion EndFits items.now }
        ensures payload { IfOk result (λ v. v.items ≡ index_payload items.now 1) }
        ensures block { IfOk result (λ v. IsIndexBlock v.items items.now 1) }
        ensures fits { IfOk result (λ v. length v.items < 2 ^ 32) }
        ensures cause { IfErr result
            (IsRefusal None (2 ^ 32 ≤ length (index_payload items.now 1))) }
    {
        IndexBlock::encode_into_vec_with(alloc, items, 1)
    }

    /// Encodes a non-empty ordered list of handles, each of whose blocks ends below 2^64, into an
    /// empty vector, in restart intervals of at least one handle.
    ///
    /// # Errors
    ///
    /// `Error::TooLong` only where the block has 2^32 bytes or more; `Error::Memory` if an
    /// allocation fails. The vector is then empty.
    pub fn encode_into_with(
        writer: &mut Vec<u8>,
        items: &[KeyedBlockHandle],
        restart_interval: u8,
    ) -> Result<()>
        requires empty { writer.old.items ≡ [] }
        requires some { 1 ≤ length items.now }
        requires ordered { IsOrdered handles items.now }
        requires ends { AllByRecursion EndFits items.now }
        requires interval { 1 ≤ restart_interval }
        ensures written { OnOk result (IsBlockPayload
            (IsIndexBlock writer.new.items items.now restart_interval)
            (index_payload items.now restart_interval) writer.new.items) }
        ensures empty { OnErr result (writer.new.items ≡ []) }
        ensures cause { IfErr result
            (IsRefusal None (2 ^ 32 ≤ length (index_payload items.now restart_interval))) }
    {
        // No key is hashed, since there are no buckets.
        let no_buckets = HashRatio { num: 0, den: 1 };
        encode_all::<KeyedBlockHandle, Poly31>(writer, items, restart_interval, no_buckets)
    }

    /// Encodes a list of handles, as [`IndexBlock::encode_into_with`] does, into a vector of its
    /// own.
    ///
    /// # Errors
    ///
    /// `Error::TooLong` only where the block has 2^32 bytes or more; `Error::Memory` if an
    /// allocation fails.
    pub fn encode_into_vec_with(
        alloc: Global,
        items: &[KeyedBlockHandle],
        restart_interval: u8,
    ) -> Result<Vec<u8>>
        requires some { 1 ≤ length items.now }
        requires ordered { IsOrdered handles items.now }
        requires ends { AllByRecursion EndFits items.now }
        requires interval { 1 ≤ restart_interval }
        ensures payload { IfOk result (λ v. v.items ≡ index_payload items.now restart_interval) }
        ensures block { IfOk result (λ v. IsIndexBlock v.items items.now restart_interval) }
        ensures fits { IfOk result (λ v. length v.items < 2 ^ 32) }
        ensures cause { IfErr result
            (IsRefusal None (2 ^ 32 ≤ length (index_payload items.now restart_interval))) }
    {
        let mut writer = Vec::new(alloc);
        IndexBlock::encode_into_with(&mut writer, items, restart_interval)?;
        Ok(writer)
    }

    /// Wraps a block whose payload is the encoding of some ordered, non-empty list of handles, each
    /// of whose blocks ends below 2^64. Takes no memory.
    pub fn new(block: Block) -> IndexBlock
        requires { (items : List Handle) × (r : ℕ) × IsIndexBlock block.payload items r }
        ensures inner { index_inner result ≡ block }
        ensures payload { result.payload ≡ block.payload }
        ensures parts { result ≡ index_block_of block false }
        ensures read { (items : List Handle) (r : ℕ) → IsIndexBlock block.payload items r
            → (result.items ≡ items) × (result.interval ≡ r) }
    {
        // A payload has fewer than 2^32 bytes.
        let _fits = block.size();
        IndexBlock {
            inner: block,
            heads: None,
        }
    }

    /// Makes the table of the block's heads: seeks then compare numbers of the table, and examine
    /// the payload only where these are equal. It pays for an index that is kept open. The table
    /// has 40 bytes for each head.
    ///
    /// # Errors
    ///
    /// `Error::Memory` if an allocation fails, with the unchanged block.
    pub fn with_heads(self, alloc: Global) -> std::result::Result<IndexBlock, (Error, IndexBlock)>
        ensures ok { IfOk result (λ b. b ≡ record self { heads = true }) }
        ensures err { IfErr result (λ e. (e.0 ≡ Error.Memory) × (e.1 ≡ self)) }
    {
        match self.make_shared(alloc) {
            Ok(heads) => Ok(IndexBlock {
                inner: self.inner,
                heads: Some(heads),
            }),
            Err(error) => Err((error, self)),
        }
    }

    /// Returns the table of the block's heads, if one was made: by [`IndexBlock::check`] or
    /// [`IndexBlock::with_heads`].
    pub fn heads(&self) -> Option<&HeadTable>
        ensures there { is_some result ≡ self.now.heads }
        ensures table { IfSome result
            (λ t. IsHeadTableOf handles (listed_in handles self.now.payload) t.now) }
    {
        match &self.heads {
            Some(heads) => Some(&**heads),
            None => None,
        }
    }

    // Makes the table of the block's heads, which clones of the block will share.
    fn make_shared(&self, alloc: Global) -> Result<Arc<HeadTable>>
        ensures ok { IfOk result
            (λ t. IsHeadTableOf handles (listed_in handles self.now.payload) t.value) }
        ensures memory { IsOkUnless result Error.Memory }
    {
        self.by_ref().make_heads(alloc)?.into_shared(alloc)
    }

    /// Wraps a block of any bytes, if its payload is the encoding of some ordered, non-empty list
    /// of handles at an interval from 1 to 255, each of whose blocks ends below 2^64, and makes the
    /// table of its heads, as [`IndexBlock::with_heads`] does. For a block that is read once use
    /// [`IndexBlock::check_once`], which makes no table.
    ///
    /// # Errors
    ///
    /// The error of the first of these stages that fails. `Error::Truncated` if the payload has
    /// fewer than 31 bytes; `Error::BadTrailer` if the numbers of the trailer are not consistent
    /// with each other and the payload, or there are buckets; `Error::BadEntry` if the body is not
    /// as many handles in their forms as the trailer says, and nothing else; `Error::BadHandle` if
    /// a block's end is 2^64 or above; `Error::OutOfOrder` if a handle sorts before its
    /// predecessor; `Error::BadIndex` if a pointer is not the offset of its head, or the pointer
    /// width is not the smallest that suffices.
    /// `Error::Memory` if the allocation of the table fails.
    pub fn check(alloc: Global, block: Block) -> Result<IndexBlock>
        ensures checked { IfOk result (λ b. index_check block.payload ≡ Ok b.items) }
        ensures parts { IfOk result (λ b. b ≡ index_block_of block true) }
        ensures encoded { IfOk result (λ b. IsIndexBlock block.payload b.items b.interval) }
        ensures refused { IfErr result
            (λ e. e ≢ Error.Memory → index_check block.payload ≡ Err e) }

        // An encoding is accepted.
        ensures accepts { (items : List Handle) (r : ℕ) → IsIndexBlock block.payload items r
            → MatchResult result (λ found. found.items ≡ items) (λ e. e ≡ Error.Memory) }
    {
        let block = IndexBlock::check_once(block)?;
        let heads = block.make_shared(alloc)?;
        Ok(IndexBlock {
            inner: block.inner,
            heads: Some(heads),
        })
    }

    /// Wraps a block of any bytes as [`IndexBlock::check`] does, and makes no table of its heads:
    /// for a block that is read once. Takes no memory.
    ///
    /// # Errors
    ///
    /// Those of [`IndexBlock::check`] other than `Error::Memory`.
    pub fn check_once(block: Block) -> Result<IndexBlock>
        ensures checked { IfOk result (λ b. index_check block.payload ≡ Ok b.items) }
        ensures parts { IfOk result (λ b. b ≡ index_block_of block false) }
        ensures encoded { IfOk result (λ b. IsIndexBlock block.payload b.items b.interval) }
        ensures refused { IfErr result (λ e. index_check block.payload ≡ Err e) }
        ensures not_io { IfErr result (λ e. e ≢ Error.Io) }

        // An encoding is accepted.
        ensures accepts { (items : List Handle) (r : ℕ) → IsIndexBlock block.payload items r
            → MatchResult result (λ found. found.items ≡ items) (λ e. e ≡ Error.Memory) }
    {
        index_check_is_by_stages();
        IndexBlock::check_ref(&block)?;
        Ok(IndexBlock::new(block))
    }

    /// Returns the payload, which is the encoding of the block's handles at its interval.
    pub fn as_slice(&self) -> &Slice
        ensures value { result.now ≡ self.now.payload }
        ensures encoded { IsIndexBlock self.now.payload self.now.items self.now.interval }
        ensures fits { length self.now.payload < 2 ^ 32 }
    {
        // A payload has fewer than 2^32 bytes.
        let _fits = self.inner.size();
        self.inner.data()
    }

    /// Returns the block, with its header.
    pub fn inner(&self) -> &Block
        ensures { result.now ≡ index_inner self.now }
    {
        &self.inner
    }

    /// Returns the block, with its header, by value.
    pub fn into_inner(self) -> Block
        ensures { result ≡ index_inner self }
    {
        self.inner
    }

    /// Returns the block over its payload, which is borrowed, with its table of heads, if it has
    /// one. Takes no memory.
    #[inline(always)]
    pub fn by_ref(&self) -> IndexBlockRef<'_>
        ensures { result ≡ ref_of_block self.now }
    {
        let payload = self.inner.data().as_slice();
        IndexBlockRef::over(payload, self.heads())
    }

    /// Returns the number of handles, which is at least one.
    pub fn len(&self) -> usize
        ensures count { result ≡ length self.now.items }
        ensures some { 1 ≤ result }
    {
        self.by_ref().len()
    }

    /// Returns an iterator over the handles, as ranges of the payload. Takes no memory.
    pub fn iter(&self) -> Iter<'_>
        ensures payload { result.payload ≡ self.now.payload }
        ensures interval { result.interval ≡ self.now.interval }
        ensures window { result.window ≡ whole self.now.items }
        ensures counts { IsZero result.steps }
    {
        self.by_ref().iter()
    }

    /// Returns an iterator over the handles, each of which borrows the block. Takes no memory.
    pub fn handles(&self) -> HandleViews<'_>
        ensures { result ≡ self.now.items }
    {
        self.by_ref().handles()
    }

    /// Returns the handle of an item that an iterator over the block gave. It borrows the block.
    pub fn handle(&self, item: IndexBlockParsedItem) -> HandleView<'_>
        requires { IsParsedHandle self.now.payload item }
        ensures { result ≡ parsed_handle self.now.payload item }
    {
        self.by_ref().handle(item)
    }
}

impl Clone for IndexBlock {
    ghost is_clone = { λ b copy. copy ≡ b };

    fn clone(&self) -> AllocResult<IndexBlock> {
        let heads = match &self.heads {
            Some(heads) => Some(heads.clone()?),
            None => None,
        };
        Ok(IndexBlock {
            inner: self.inner.clone()?,
            heads,
        })
    }
}

impl fmt::Debug for IndexBlock {
    fn fmt<W: fmt::Write>(&self, f: &mut fmt::Formatter<W>) -> fmt::Result {
        write!(f, "IndexBlock({:?})", self.inner)
    }
}
