//! Items in order.
ghost use Rattle.std.specs.Prelude.{◌≡◌, ◌↔◌, IsTrue};
ghost use Rattle.std.specs.Ordering.{is_lt};
ghost use Rattle.sst_block_core.specs.Kind.{item_cmp, IsOrdered};

use crate::block_item::BlockItem;

/// Items that are compared as a block orders them: by key rising, then by sequence number falling.
pub(crate) trait Sorted: BlockItem {
    /// Returns whether an item sorts before another one.
    fn sorts_before(&self, other: &Self) -> bool
        ensures { result ≡ is_lt (item_cmp Self.kind self.now other.now) };
}

/// Returns whether no item sorts before its predecessor.
pub(crate) fn is_ordered<Item: Sorted>(items: &[Item]) -> bool
    ensures { IsTrue result ↔ IsOrdered Item.kind items.now }
{
    for i in 1..items.len() {
        if items[i].sorts_before(&items[i - 1]) {
            return false;
        }
    }
    true
}
