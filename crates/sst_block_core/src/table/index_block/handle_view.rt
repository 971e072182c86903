//! Handles that borrow the bytes of their block, and the iterator over them.
ghost use Rattle.std.specs.Prelude.{◌≡◌, ◌++◌, IfOk, IsOkUnless, refl};
ghost use Rattle.std.specs.Ordering.{nat_cmp};
ghost use Rattle.std.specs.Cmp.Lexicographic.{slice_cmp};
ghost use Rattle.std.specs.Iterator.{YieldsFirst, YieldsLast, item_count};
ghost use Rattle.sst_block_core.specs.Window.{items_left};
ghost use Rattle.sst_block_core.specs.ParsedHandle.{parsed_handle, IsParsedHandle};

use crate::table::block::ParsedItem;
use crate::table::block::key_ranges::bytes_of;
use crate::table::index_block::block_handle::{BlockHandle, BlockOffset, KeyedBlockHandle};
use crate::table::index_block::block_ref::IndexBlockRef;
use crate::table::index_block::iter::Iter;
use crate::table::index_block::parsed_item::IndexBlockParsedItem;
use sst_base::double_ended_peekable::ListIterator;
use sst_base::{AllocResult, Error, Result, SeqNo, Slice};
use std::alloc::Global;
use std::cmp::Ordering;
use std::marker::Model;

/// A handle of an index block, over the bytes of the block's payload. Clauses see the handle.
#[derive(Drop)]
pub struct HandleView<'a> {
    payload: &'a [u8],
    item: IndexBlockParsedItem,
}

impl<'a> Model for HandleView<'a> {
    ghost use Rattle.sst_block_core.specs.Handles.{Handle};
    ghost use Rattle.sst_block_core.specs.ParsedHandle.{parsed_handle, IsParsedHandle};

    ghost Value = { Handle };

    ghost view = { λ h. parsed_handle h.payload.now h.item };

    ghost invariant = { λ h. IsParsedHandle h.payload.now h.item };
}

impl<'a> HandleView<'a> {
    // The handle of a parsed item of a payload.
    #[inline(always)]
    pub(super) fn new(payload: &'a [u8], item: IndexBlockParsedItem) -> HandleView<'a>
        requires { IsParsedHandle payload.now item }
        ensures { result ≡ parsed_handle payload.now item }
    {
        HandleView { payload, item }
    }

    /// Returns the offset of the block's frame.
    #[inline(always)]
    pub fn offset(&self) -> BlockOffset
        ensures { result.0 ≡ self.now.offset }
    {
        self.item.offset
    }

    /// Returns the length of the block's frame in bytes.
    #[inline(always)]
    pub fn size(&self) -> u32
        ensures { result ≡ self.now.size }
    {
        self.item.size
    }

    /// Returns the sequence number of the block's last entry.
    #[inline(always)]
    pub fn seqno(&self) -> SeqNo
        ensures { result ≡ self.now.seqno }
    {
        self.item.seqno
    }

    /// Returns the handle without its end key.
    pub fn handle(&self) -> BlockHandle
        ensures { result ≡ record { offset = self.now.offset; size = self.now.size } }
    {
        BlockHandle::new(self.item.offset, self.item.size)
    }

    /// Returns the two parts of its end key: the bytes that it shares with the head of its restart
    /// interval, none in a full form, and the key's own bytes. Joined they are the end key.
    #[inline(always)]
    pub fn key_parts(&self) -> (&'a [u8], &'a [u8])
        ensures { result.0.now ++ result.1.now ≡ self.now.end_key }
    {
        let rest = bytes_of(self.payload, &self.item.end_key);
        match &self.item.prefix {
            Some(prefix) => (bytes_of(self.payload, prefix), rest),
            None => (&rest[..0], rest),
        }
    }

    /// Compares its end key with a needle, without joining prefix and rest.
    pub fn compare_key(&self, needle: &[u8]) -> Ordering
        ensures { result ≡ slice_cmp nat_cmp self.now.end_key needle.now }
    {
        self.item.compare_key(needle, self.payload)
    }

    /// Makes the handle: copies its end key.
    ///
    /// # Errors
    ///
    /// `Error::Memory` if an allocation fails.
    pub fn to_handle(&self, alloc: Global) -> Result<KeyedBlockHandle>
        ensures ok { IfOk result (λ handle. handle ≡ self.now) }
        ensures memory { IsOkUnless result Error.Memory }
    {
        let (prefix, rest) = self.key_parts();
        let end_key = Slice::fused(alloc, prefix, rest)?;
        Ok(KeyedBlockHandle::new(end_key, self.item.seqno, self.handle()))
    }
}

/// A copy borrows the same bytes. No memory is taken.
impl<'a> Clone for HandleView<'a> {
    ghost is_clone = { λ handle copy. copy ≡ handle };

    fn clone(&self) -> AllocResult<HandleView<'a>> {
        Ok(HandleView {
            payload: self.payload,
            item: self.item,
        })
    }
}

/// An iterator over the handles of an index block whose payload is borrowed. Clauses see the list
/// of the handles left. No step takes memory.
#[derive(Drop)]
pub struct HandleViews<'a> {
    iter: Iter<'a>,
    payload: &'a [u8],
}

impl<'a> Model for HandleViews<'a> {
    ghost use Rattle.std.specs.Prelude.{◌≡◌, List};
    ghost use Rattle.sst_block_core.specs.Window.{items_left};
    ghost use Rattle.sst_block_core.specs.Handles.{Handle};

    ghost Value = { List Handle };

    ghost view = { λ h. items_left h.iter.window };

    ghost invariant = { λ h. h.payload.now ≡ h.iter.payload };
}

impl<'a> HandleViews<'a> {
    /// Returns an iterator over the handles that an iterator over the same block has left, where
    /// its seeks have left it. Takes no memory.
    pub fn new(block: &IndexBlockRef<'a>, iter: Iter<'a>) -> HandleViews<'a>
        requires { iter.payload ≡ block.now.payload }
        ensures { result ≡ items_left iter.entry.window }
    {
        HandleViews {
            iter,
            payload: block.as_slice(),
        }
    }
}

/// Returns the first handle left, if there is one.
impl<'a> Iterator for HandleViews<'a> {
    type Item = HandleView<'a>;

    ghost next_gives = { YieldsFirst (λ s. s) };

    ghost remaining = { item_count (λ s. s) };

    #[inline(always)]
    fn next(&mut self) -> Option<HandleView<'a>> {
        let Some(item) = self.iter.next() else {
            return None;
        };
        Some(HandleView {
            payload: self.payload,
            item,
        })
    }
}

/// Returns the last handle left, if there is one.
impl<'a> DoubleEndedIterator for HandleViews<'a> {
    ghost next_back_gives = { YieldsLast (λ s. s) };

    #[inline(always)]
    fn next_back(&mut self) -> Option<HandleView<'a>> {
        let Some(item) = self.iter.next_back() else {
            return None;
        };
        Some(HandleView {
            payload: self.payload,
            item,
        })
    }
}

/// The handles left, so that the iterator may be peeked at.
impl<'a> ListIterator for HandleViews<'a> {
    type Value = KeyedBlockHandle;

    ghost value_of = { λ _ handle. handle };

    ghost items = { λ handles. handles };

    ghost may_next = { λ _. tt };

    ghost may_next_back = { λ _. tt };

    ghost gives_first = { λ s r t step. step };

    ghost gives_last = { λ s r t step. step };

    ghost keeps_values = { λ s r t step. refl };

    ghost keeps_values_back = { λ s r t step. refl };
}
