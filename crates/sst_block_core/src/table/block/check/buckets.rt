//! The check of the items of a payload and of its hash index, in one pass.
ghost use Rattle.std.specs.Prelude.{OnOk, IfErr};
ghost use Rattle.std.specs.List.{AllByRecursion};
ghost use Rattle.sst_block_core.specs.Passes.{trailer_by, IsPassRefusal};
ghost use Rattle.sst_block_core.specs.Stages.{HasParts, HasForms, HasOrder, HasPointers};
ghost use Rattle.sst_block_core.specs.Stages.{HasBuckets, items_by};

use crate::table::block::ParsedItem;
use crate::table::block::check::Checkable;
use crate::table::block::check::pass::{check_items, check_items_with};
use crate::table::block::check::tally::Tally;
use crate::table::block::trailer::TrailerNumbers;
use sst_base::{BlockHash, Error, Result};
use std::alloc::Global;

/// Checks the items of a payload, whose trailer fits it, their pointers, and the buckets, in one
/// pass. Takes memory for the buckets, and for the longest key if the hash function cannot be
/// continued.
///
/// # Errors
///
/// Those of [`check_items`], and then `Error::BadHashIndex` if a bucket is not that of the items:
/// the first of these that holds. `Error::Memory` if an allocation fails; never where no buckets
/// are stored.
pub fn check_items_and_buckets<
    Item: Checkable<Parsed>,
    Parsed: ParsedItem<Item> + Drop,
    H: BlockHash,
>(alloc: Global, payload: &[u8], t: &TrailerNumbers) -> Result<()>
    requires { HasParts (trailer_by t.now) payload.now }
    ensures forms { OnOk result (HasForms Item.kind (trailer_by t.now) payload.now) }
    ensures fit { OnOk result
        (AllByRecursion Item.fits (items_by Item.kind (trailer_by t.now) payload.now)) }
    ensures order { OnOk result (HasOrder Item.kind (trailer_by t.now) payload.now) }
    ensures pointers { OnOk result (HasPointers Item.kind (trailer_by t.now) payload.now) }
    ensures buckets { OnOk result (HasBuckets Item.kind H.hash64 (trailer_by t.now) payload.now) }
    ensures refused { IfErr result
        (IsPassRefusal Item.kind Item.fits Item.unfit H.hash64 (trailer_by t.now) payload.now) }
{
    if t.hash_len == 0 {
        return check_items::<Item, Parsed>(payload, t);
    }
    let mut tally = Tally::<H>::new(alloc, t.hash_len)?;
    check_items_with::<Item, Parsed, Tally<H>>(payload, t, &mut tally)?;
    if !tally.has_memory() {
        return Err(Error::Memory);
    }
    let (_, behind) = payload.split_at(t.hash_offset as usize);
    let (stored, _) = behind.split_at(t.hash_len as usize);
    if !tally.has_buckets(stored) {
        return Err(Error::BadHashIndex);
    }
    Ok(())
}
