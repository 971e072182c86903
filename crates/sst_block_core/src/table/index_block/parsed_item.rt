//! Handles by their ranges of a payload.
use crate::table::block::ParsedItem;
use crate::table::block::key_ranges::{bytes_of, compare_ranges, join_ranges, prefix_len};
use crate::table::index_block::block_handle::KeyedBlockHandle;
use sst_base::table::block::{BlockHandle, BlockOffset};
use sst_base::table::util::SliceIndexes;
use sst_base::{AllocResult, SeqNo, Slice};
use std::alloc::Global;
use std::cmp::Ordering;

/// A handle by its ranges of a payload: its end key is the prefix, if there is one, and the key's
/// own bytes after it.
#[derive(Clone, Copy, Debug, PartialEq, Eq)]
pub struct IndexBlockParsedItem {
    /// The offset of the block's frame.
    pub offset: BlockOffset,
    /// The length of the block's frame in bytes.
    pub size: u32,
    /// The bytes that the end key shares with that of its interval's head. `None` in a full form.
    pub prefix: Option<SliceIndexes>,
    /// The end key's own bytes.
    pub end_key: SliceIndexes,
    /// The sequence number of the block's last entry.
    pub seqno: SeqNo,
}

impl ParsedItem<KeyedBlockHandle> for IndexBlockParsedItem {
    ghost use Rattle.std.specs.Prelude.{◌≤◌, length};
    ghost use Rattle.sst_block_core.specs.ParsedHandle.{parsed_handle, IsParsedHandle, prefix_len};

    ghost item_of = { parsed_handle };

    ghost is_found = { IsParsedHandle };

    ghost key_start = { λ p. p.end_key.0 };

    ghost shared_len = { prefix_len };

    ghost is_short = { λ payload p. length (parsed_handle payload p).end_key ≤ 40 };

    fn compare_key(&self, needle: &[u8], payload: &[u8]) -> Ordering {
        compare_ranges(payload, &self.prefix, &self.end_key, needle)
    }

    fn seqno(&self) -> u64 {
        self.seqno
    }

    fn key_offset(&self) -> usize {
        self.end_key.0
    }

    #[inline(always)]
    fn prefix_len(&self, payload: &[u8]) -> usize {
        prefix_len(payload, &self.prefix)
    }

    #[inline(always)]
    #[tactic(auto, using(crate::proofs::Items::OwnKeys::own_end_key))]
    fn own_key<'a>(&self, payload: &'a [u8]) -> &'a [u8] {
        bytes_of(payload, &self.end_key)
    }

    fn materialize(&self, alloc: Global, payload: &Slice) -> AllocResult<KeyedBlockHandle> {
        let end_key = join_ranges(alloc, payload, &self.prefix, &self.end_key)?;
        let handle = BlockHandle::new(self.offset, self.size);
        Ok(KeyedBlockHandle::new(end_key, self.seqno, handle))
    }
}
