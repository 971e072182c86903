//! The order of entries.
ghost use Rattle.std.specs.Prelude.{◌≡◌, ◌≤◌, length, IsNone};
ghost use Rattle.sst_program.specs.Outcome.{fault_of_items};
ghost use Rattle.sstable_blocks.specs.Prelude.{IsOrdered, entries};

use crate::fault::Fault;
use sstable_blocks::{DataBlock, InternalValue, Poly31};

/// Returns why the entries of an input cannot be written: there is none, or one sorts before its
/// predecessor. `None` if they can.
pub fn fault_of(items: &[InternalValue]) -> Option<Fault>
    ensures fault { result ≡ fault_of_items items.now }
    ensures some { IsNone result → 1 ≤ length items.now }
    ensures ordered { IsNone result → IsOrdered entries items.now }
{
    if items.is_empty() {
        return Some(Fault::NoEntries);
    }
    match DataBlock::<Poly31>::first_disorder(items) {
        Some(index) => Some(Fault::Order(index + 1)),
        None => None,
    }
}
