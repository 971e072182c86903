//! The items of a block from an index on.
ghost use Rattle.std.specs.Prelude.{◌≡◌, ◌<◌, length, drop};
ghost use Rattle.sstable_blocks.specs.Prelude.{items_left};

use sstable_blocks::table::block::intervals::Intervals;
use sstable_blocks::table::block::{Decodable, Decoder, ParsedItem};

/// A decoder of the items of a block from the one at an index on. It decodes those before it in its
/// restart interval.
pub(crate) fn items_from<'a, Item: Decodable<Parsed>, Parsed: ParsedItem<Item> + Drop>(
    intervals: Intervals<'a, Item, Parsed>,
    interval: usize,
    index: usize,
) -> Decoder<'a, Item, Parsed>
    requires interval { interval ≡ intervals.list.interval }
    requires some { 0 < interval }
    requires index { index < length intervals.list.items }
    ensures payload { result.payload ≡ intervals.entry.list.payload }
    ensures list { result.window.list ≡ intervals.entry.list.items }
    ensures left { items_left result.window ≡ drop index intervals.entry.list.items }
{
    let head = index / interval;
    let offset = intervals.head_offset(head);
    let mut items = Decoder::over(intervals);
    items.set_lo_offset(offset);
    for _at in head * interval..index {
        let Some(_) = items.next() else {
            return items;
        };
    }
    items
}
