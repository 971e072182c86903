//! The check of a data block, and entries as items that are checked.
ghost use Rattle.std.specs.Prelude.{false, ◌≡◌, ◌≢◌, ◌↔◌, ◌^◌, ◌<◌, ◌≤◌, ℕ, List, length, map};
ghost use Rattle.std.specs.Prelude.{OnOk, IfOk, IfErr, IsErrOf, Ok, Err, MatchResult};
ghost use Rattle.sst_base.specs.Bytes.{IsBytes};
ghost use Rattle.sst_base.specs.Entry.{Entry, IsEntry, plain};
ghost use Rattle.sst_block_core.specs.Checks.{data_check};
ghost use Rattle.sst_block_core.specs.Entries.{entries};
ghost use Rattle.sst_block_core.specs.Payload.{IsBlock};
ghost use Rattle.sst_block_core.specs.Stages.{items_in};
ghost use Rattle.sst_block_core.specs.Trailer.{trailer_in};
ghost use Rattle.sst_block_core.specs.DataBlock.{data_ref_of};

use crate::laws::data_check_is_by_stages;
use crate::table::block::check::Checkable;
use crate::table::block::check::buckets::check_items_and_buckets;
use crate::table::block::check::keys::KeyRanges;
use crate::table::block::check::parts::parts_of;
use crate::table::block::check::truncation::is_greatest;
use crate::table::block::key_ranges::bytes_of;
use crate::table::data_block::DataBlock;
use crate::table::data_block::block_ref::DataBlockRef;
use crate::table::data_block::decoding::{entry_prefix_within, truncated_form_from};
use crate::table::data_block::parsed_item::DataBlockParsedItem;
use sst_base::table::block::Block;
use sst_base::table::util::SliceIndexes;
use sst_base::{BlockHash, Error, InternalValue, Result};
use std::alloc::Global;

/// Every entry fits, so its error is never returned.
impl Checkable<DataBlockParsedItem> for InternalValue {
    ghost use Rattle.sst_base.specs.declared.error.Error.TheVariants.{BadEntry};

    ghost fits = { λ e. Unit {0} };

    ghost unfit = { BadEntry };

    #[inline(always)]
    fn fits(item: &DataBlockParsedItem) -> bool {
        let _ = item;
        true
    }

    fn unfit() -> Error {
        Error::BadEntry
    }

    #[inline(always)]
    fn key_ranges(item: &DataBlockParsedItem) -> KeyRanges {
        let prefix = match &item.prefix {
            Some(prefix) => *prefix,
            None => SliceIndexes(0, 0),
        };
        KeyRanges {
            prefix,
            rest: item.key,
        }
    }

    #[inline(always)]
    fn parse_exactly(
        payload: &[u8],
        offset: usize,
        base: &SliceIndexes,
    ) -> Option<(DataBlockParsedItem, usize)> {
        let (form, end) = truncated_form_from(payload, offset)?;
        let key = bytes_of(payload, &form.key);
        if !is_greatest(bytes_of(payload, base), form.shared, key) {
            return None;
        }
        let rest = form.key.1 - form.key.0;
        let prefix = entry_prefix_within(payload, base, form.shared, rest)?;
        let item = DataBlockParsedItem {
            value_type: form.value_type,
            seqno: form.seqno,
            prefix: Some(prefix),
            key: form.key,
            value: form.value,
        };
        Some((item, end))
    }
}

impl<'a, H: BlockHash> DataBlockRef<'a, H> {
    /// Reads any bytes as a data block, if they are the encoding of some ordered, non-empty list of
    /// entries. Makes no table of the heads. Allocates where buckets are stored: for the buckets,
    /// and for the longest truncated key.
    ///
    /// # Errors
    ///
    /// `Error::TooLong` if there are 2^32 bytes or more, and only then. Else those of
    /// [`DataBlock::check`].
    pub fn check(alloc: Global, payload: &'a [u8]) -> Result<DataBlockRef<'a, H>>
        ensures checked { IfOk result (λ b. data_check H.hash64 payload.now ≡ Ok b.items) }
        ensures parts { IfOk result (λ b. b ≡ data_ref_of payload.now false) }
        ensures encoded { IfOk result
            (λ b. IsBlock entries IsEntry H.hash64 payload.now b.items b.interval b.stored) }
        ensures too_long { IsErrOf result Error.TooLong ↔ (2 ^ 32 ≤ length payload.now) }
        ensures refused { IfErr result
            (λ e. e ≢ Error.Memory → e ≢ Error.TooLong
            → data_check H.hash64 payload.now ≡ Err e) }
        ensures memory { IfErr result
            (λ e. e ≡ Error.Memory → 0 < (trailer_in payload.now).hash_len) }
        ensures not_io { IfErr result (λ e. e ≢ Error.Io) }

        // An encoding is accepted.
        ensures accepts { (items : List Entry) (r b : ℕ) → length payload.now < 2 ^ 32
            → IsBlock entries IsEntry H.hash64 payload.now items r b
            → MatchResult result (λ found. found.items ≡ map plain items)
            (λ e. e ≡ Error.Memory) }
    {
        data_check_is_by_stages();
        if u32::try_from(payload.len()).is_err() {
            return Err(Error::TooLong);
        }
        DataBlockRef::<H>::count_checked(alloc, payload)?;
        Ok(DataBlockRef::new(payload))
    }

    // Checks a payload, and returns the number of its entries.
    pub(super) fn count_checked(alloc: Global, payload: &[u8]) -> Result<usize>
        requires { length payload.now < 2 ^ 32 }
        ensures checked { OnOk result (data_check H.hash64 payload.now
            ≡ Ok (items_in entries payload.now)) }
        ensures count { IfOk result (λ n. n ≡ length (items_in entries payload.now)) }
        ensures block { OnOk result
            (IsBlock entries IsEntry H.hash64 payload.now
            (items_in entries payload.now) (trailer_in payload.now).interval
            (trailer_in payload.now).hash_len) }
        ensures refused { IfErr result
            (λ e. e ≢ Error.Memory → data_check H.hash64 payload.now ≡ Err e) }
        ensures memory { IfErr result
            (λ e. e ≡ Error.Memory → 0 < (trailer_in payload.now).hash_len) }

        // An encoding is accepted.
        ensures accepts { (items : List Entry) (r b : ℕ)
            → IsBlock entries IsEntry H.hash64 payload.now items r b
            → MatchResult result (λ n. n ≡ length items) (λ e. e ≡ Error.Memory) }
    {
        DataBlockRef::<H>::check_stages(alloc, payload)
    }

    // The check, stage after stage.
    fn check_stages(alloc: Global, payload: &[u8]) -> Result<usize>
        ensures checked { OnOk result (data_check H.hash64 payload.now
            ≡ Ok (items_in entries payload.now)) }
        ensures count { IfOk result (λ n. n ≡ length (items_in entries payload.now)) }
        ensures block { OnOk result
            (IsBlock entries IsEntry H.hash64 payload.now
            (items_in entries payload.now) (trailer_in payload.now).interval
            (trailer_in payload.now).hash_len) }
        ensures bytes { IsBytes payload.now }
        ensures refused { IfErr result
            (λ e. e ≢ Error.Memory → data_check H.hash64 payload.now ≡ Err e) }
        ensures memory { IfErr result
            (λ e. e ≡ Error.Memory → 0 < (trailer_in payload.now).hash_len) }
    {
        let numbers = parts_of(payload)?;
        check_items_and_buckets::<InternalValue, DataBlockParsedItem, H>(alloc, payload, &numbers)?;
        Ok(numbers.item_count as usize)
    }
}

impl<H: BlockHash> DataBlock<H> {
    /// Checks a block of any bytes as [`DataBlock::check`] does, but only borrows it. Returns the
    /// number of its entries. A block that passes meets the precondition of [`DataBlock::new`].
    ///
    /// # Errors
    ///
    /// Those of [`DataBlock::check`].
    pub fn check_ref(alloc: Global, block: &Block) -> Result<usize>
        ensures checked { OnOk result (data_check H.hash64 block.now.payload
            ≡ Ok (items_in entries block.now.payload)) }
        ensures count { IfOk result (λ n. n ≡ length (items_in entries block.now.payload)) }
        ensures block { OnOk result
            (IsBlock entries IsEntry H.hash64 block.now.payload
            (items_in entries block.now.payload) (trailer_in block.now.payload).interval
            (trailer_in block.now.payload).hash_len) }
        ensures refused { IfErr result
            (λ e. e ≢ Error.Memory → data_check H.hash64 block.now.payload ≡ Err e) }
        ensures memory { IfErr result
            (λ e. e ≡ Error.Memory → 0 < (trailer_in block.now.payload).hash_len) }

        // An encoding is accepted.
        ensures accepts { (items : List Entry) (r b : ℕ)
            → IsBlock entries IsEntry H.hash64 block.now.payload items r b
            → MatchResult result (λ n. n ≡ length items) (λ e. e ≡ Error.Memory) }
    {
        DataBlockRef::<H>::count_checked(alloc, block.data().as_slice())
    }
}
