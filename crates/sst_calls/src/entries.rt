//! Entries as C gives them.
ghost use Rattle.std.specs.Prelude.{◌≡◌, ◌⊎◌, List, IfOk, IfErr, IfSome, IsNone};
ghost use Rattle.sst_calls.specs.declared.codes.Status.TheVariants.{Failed, BadArgument};
ghost use Rattle.sst_calls.specs.Given.{AreGiven, IsGiven};
ghost use Rattle.sstable_blocks.specs.Prelude.{Entry};
ghost use Rattle.sstable_blocks.specs.Results.{Memory};

use crate::codes::Status;
use sstable_blocks::{EntryView, Error, ValueType};
use std::alloc::Global;

/// An entry: its key of 1 to 65535 bytes, its value of at most 2^32 - 1 bytes, its sequence number,
/// and the byte of its type (0, 1, 2 or 4).
#[repr(C)]
#[derive(Drop)]
pub struct SstEntry<'a> {
    /// The user key.
    pub key: &'a [u8],
    /// The value. That of a tombstone is not stored.
    pub value: &'a [u8],
    /// The sequence number.
    pub seqno: u64,
    /// The byte of the value type: 0 value, 1 tombstone, 2 weak tombstone, 4 indirection.
    pub value_type: u8,
}

// The entry that is given, over the same bytes, if it is one.
fn item_of<'a>(entry: &SstEntry<'a>) -> Option<EntryView<'a>>
    ensures given { IfSome result (λ item. IsGiven entry.now item) }
    ensures refused { IsNone result → (e : Entry) → IsGiven entry.now e → ⊥ }
{
    let Ok(value_type) = ValueType::try_from(entry.value_type) else {
        return None;
    };
    EntryView::of_parts(entry.key, entry.value, entry.seqno, value_type)
}

/// Makes the entries that are given, over the same bytes. Refuses those of which one is not an
/// entry.
pub(crate) fn items_of<'a>(
    alloc: Global,
    entries: &[SstEntry<'a>],
) -> Result<Vec<EntryView<'a>>, Status>
    ensures ok { IfOk result (λ items. AreGiven entries.now items.items) }
    ensures refused { IfErr result (λ s. (s ≡ Failed Memory)
        ⊎ ((s ≡ BadArgument) × ((items : List Entry) → AreGiven entries.now items → ⊥))) }
{
    let Ok(mut items) = Vec::with_capacity(alloc, entries.len()) else {
        return Err(Status::Failed(Error::Memory));
    };
    for entry in entries {
        let Some(item) = item_of(entry) else {
            return Err(Status::BadArgument);
        };
        if items.push(item).is_err() {
            return Err(Status::Failed(Error::Memory));
        }
    }
    Ok(items)
}
