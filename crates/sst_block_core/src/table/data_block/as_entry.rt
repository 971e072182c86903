//! What can be read as an entry.
ghost use Rattle.std.specs.Prelude.{◌≡◌, ◌↔◌, ◌^◌, ◌≤◌, [], length, map, OnOk, OnErr, IfErr};
ghost use Rattle.std.specs.Prelude.{IsTrue, None};
ghost use Rattle.sst_base.specs.Entry.{Entry, IsEntry};
ghost use Rattle.sst_block_core.specs.Buckets.{bucket_count};
ghost use Rattle.sst_block_core.specs.Encoders.{IsRefusal, IsBlockPayload};
ghost use Rattle.sst_block_core.specs.Entries.{entries, data_payload};
ghost use Rattle.sst_block_core.specs.Kind.{IsOrdered};
ghost use Rattle.sst_block_core.specs.Payload.{IsBlock};

use crate::table::block::Encodable;
use crate::table::block::encoder::encode_all;
use crate::table::data_block::DataBlock;
use crate::table::data_block::entry_view::EntryView;
use crate::table::order;
use sst_base::{BlockHash, HashRatio, InternalValue, Poly31, Result};

/// An entry, or a view of one that is held elsewhere: runs are written of either, and merges and
/// compactions pass either on.
pub trait AsEntry: Encodable {
    // the entry
    ghost entry: { Self → Entry };

    /// Views the entry.
    fn view(&self) -> EntryView<'_>
        ensures { result ≡ entry self.now };

    /// Returns whether no entry sorts before its predecessor.
    fn are_ordered(items: &[Self]) -> bool
        ensures { IsTrue result ↔ IsOrdered entries (map entry items.now) };

    /// Encodes a non-empty ordered list, as [`DataBlock::encode_into`] does.
    ///
    /// # Errors
    ///
    /// Those of [`DataBlock::encode_into`]. The vector is then empty.
    fn encode_into<H: BlockHash>(
        writer: &mut Vec<u8>,
        items: &[Self],
        restart_interval: u8,
        ratio: HashRatio,
    ) -> Result<()>
        requires empty { writer.old.items ≡ [] }
        requires some { 1 ≤ length items.now }
        requires ordered { IsOrdered entries (map entry items.now) }
        requires interval { 1 ≤ restart_interval }
        requires den { 1 ≤ ratio.den }
        ensures written { OnOk result (IsBlockPayload
            (IsBlock entries IsEntry H.hash64 writer.new.items (map entry items.now)
            restart_interval (bucket_count ratio.num ratio.den (length items.now)))
            (data_payload H.hash64 (map entry items.now) restart_interval
            (bucket_count ratio.num ratio.den (length items.now)))
            writer.new.items) }
        ensures empty { OnErr result (writer.new.items ≡ []) }
        ensures cause { IfErr result (IsRefusal None
            (2 ^ 32
            ≤ length
            (data_payload H.hash64 (map entry items.now) restart_interval
            (bucket_count ratio.num ratio.den (length items.now))))) };
}

impl AsEntry for InternalValue {
    ghost entry = { λ e. e };

    #[inline(always)]
    fn view(&self) -> EntryView<'_> {
        EntryView::of(self)
    }

    fn are_ordered(items: &[InternalValue]) -> bool {
        // The hash plays no part.
        DataBlock::<Poly31>::is_ordered(items)
    }

    fn encode_into<H: BlockHash>(
        writer: &mut Vec<u8>,
        items: &[InternalValue],
        restart_interval: u8,
        ratio: HashRatio,
    ) -> Result<()> {
        encode_all::<InternalValue, H>(writer, items, restart_interval, ratio)
    }
}

impl<'a> AsEntry for EntryView<'a> {
    ghost entry = { λ e. e };

    #[inline(always)]
    fn view(&self) -> EntryView<'_> {
        self.again()
    }

    fn are_ordered(items: &[EntryView<'a>]) -> bool {
        order::is_ordered(items)
    }

    fn encode_into<H: BlockHash>(
        writer: &mut Vec<u8>,
        items: &[EntryView<'a>],
        restart_interval: u8,
        ratio: HashRatio,
    ) -> Result<()> {
        encode_all::<EntryView<'a>, H>(writer, items, restart_interval, ratio)
    }
}
