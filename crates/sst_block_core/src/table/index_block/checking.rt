//! The check of an index block, and handles as items that are checked.
ghost use Rattle.std.specs.Prelude.{false, ◌≡◌, ◌≢◌, ◌↔◌, ◌^◌, ◌<◌, ◌≤◌, ℕ, List, length};
ghost use Rattle.std.specs.Prelude.{OnOk, IfOk, IfErr, IsErrOf, MatchResult, Ok, Err};
ghost use Rattle.sst_base.specs.Bytes.{IsBytes};
ghost use Rattle.sst_block_core.specs.Checks.{index_check};
ghost use Rattle.sst_block_core.specs.Handles.{Handle, handles, IsIndexBlock};
ghost use Rattle.sst_block_core.specs.Stages.{items_in};
ghost use Rattle.sst_block_core.specs.Trailer.{trailer_in};
ghost use Rattle.sst_block_core.specs.IndexBlock.{index_ref_of};

use crate::laws::index_check_is_by_stages;
use crate::table::block::check::Checkable;
use crate::table::block::check::keys::KeyRanges;
use crate::table::block::check::parts::parts_of;
use crate::table::block::check::pass::check_items;
use crate::table::block::check::truncation::is_greatest;
use crate::table::block::key_ranges::bytes_of;
use crate::table::block::reading::{length_prefixed_from, number_from, prefix_within};
use crate::table::index_block::IndexBlock;
use crate::table::index_block::block_handle::KeyedBlockHandle;
use crate::table::index_block::block_ref::IndexBlockRef;
use crate::table::index_block::decoding::fields_from;
use crate::table::index_block::parsed_item::IndexBlockParsedItem;
use sst_base::table::block::Block;
use sst_base::table::util::SliceIndexes;
use sst_base::{Error, Result};

/// A handle's block has to end within 64 bits.
impl Checkable<IndexBlockParsedItem> for KeyedBlockHandle {
    ghost use Rattle.sst_block_core.specs.Handles.{EndFits};
    ghost use Rattle.sst_base.specs.declared.error.Error.TheVariants.{BadHandle};

    ghost fits = { EndFits };

    ghost unfit = { BadHandle };

    #[inline(always)]
    fn fits(item: &IndexBlockParsedItem) -> bool {
        item.offset.0 <= u64::MAX - u64::from(item.size)
    }

    fn unfit() -> Error {
        Error::BadHandle
    }

    #[inline(always)]
    fn key_ranges(item: &IndexBlockParsedItem) -> KeyRanges {
        let prefix = match &item.prefix {
            Some(prefix) => *prefix,
            None => SliceIndexes(0, 0),
        };
        KeyRanges {
            prefix,
            rest: item.end_key,
        }
    }

    #[inline(always)]
    fn parse_exactly(
        payload: &[u8],
        offset: usize,
        base: &SliceIndexes,
    ) -> Option<(IndexBlockParsedItem, usize)> {
        let (fields, at) = fields_from(payload, offset)?;
        let (shared, at) = number_from(payload, at, 16)?;
        let (key, end) = length_prefixed_from(payload, at, 16)?;
        if !is_greatest(bytes_of(payload, base), shared, bytes_of(payload, &key)) {
            return None;
        }
        let prefix = prefix_within(payload, base, shared, key.1 - key.0)?;
        Some((fields.with_key(Some(prefix), key), end))
    }
}

impl<'a> IndexBlockRef<'a> {
    /// Reads any bytes as an index block, if they are the encoding of some ordered, non-empty list
    /// of handles at an interval from 1 to 255, each of whose blocks ends below 2^64. Makes no
    /// table of the heads. Takes no memory.
    ///
    /// # Errors
    ///
    /// `Error::TooLong` if there are 2^32 bytes or more, and only then. Else those of
    /// [`IndexBlock::check`] other than `Error::Memory`.
    pub fn check(payload: &'a [u8]) -> Result<IndexBlockRef<'a>>
        ensures checked { IfOk result (λ b. index_check payload.now ≡ Ok b.items) }
        ensures parts { IfOk result (λ b. b ≡ index_ref_of payload.now false) }
        ensures encoded { IfOk result (λ b. IsIndexBlock payload.now b.items b.interval) }
        ensures too_long { IsErrOf result Error.TooLong ↔ (2 ^ 32 ≤ length payload.now) }
        ensures refused { IfErr result
            (λ e. e ≢ Error.TooLong → index_check payload.now ≡ Err e) }
        ensures not_io { IfErr result (λ e. e ≢ Error.Io) }

        // An encoding is accepted.
        ensures accepts { (items : List Handle) (r : ℕ) → length payload.now < 2 ^ 32
            → IsIndexBlock payload.now items r
            → MatchResult result (λ found. found.items ≡ items) (λ e. ⊥) }
    {
        index_check_is_by_stages();
        if u32::try_from(payload.len()).is_err() {
            return Err(Error::TooLong);
        }
        IndexBlockRef::count_checked(payload)?;
        Ok(IndexBlockRef::new(payload))
    }

    // Checks a payload, and returns the number of its handles.
    pub(super) fn count_checked(payload: &[u8]) -> Result<usize>
        requires { length payload.now < 2 ^ 32 }
        ensures checked { OnOk result
            (index_check payload.now ≡ Ok (items_in handles payload.now)) }
        ensures count { IfOk result (λ n. n ≡ length (items_in handles payload.now)) }
        ensures block { OnOk result
            (IsIndexBlock payload.now (items_in handles payload.now)
            (trailer_in payload.now).interval) }
        ensures refused { IfErr result (λ e. index_check payload.now ≡ Err e) }

        // An encoding is accepted.
        ensures accepts { (items : List Handle) (r : ℕ) → IsIndexBlock payload.now items r
            → MatchResult result (λ n. n ≡ length items) (λ e. e ≡ Error.Memory) }
    {
        IndexBlockRef::check_stages(payload)
    }

    // The check, stage after stage.
    fn check_stages(payload: &[u8]) -> Result<usize>
        ensures checked { OnOk result
            (index_check payload.now ≡ Ok (items_in handles payload.now)) }
        ensures count { IfOk result (λ n. n ≡ length (items_in handles payload.now)) }
        ensures block { OnOk result
            (IsIndexBlock payload.now (items_in handles payload.now)
            (trailer_in payload.now).interval) }
        ensures bytes { IsBytes payload.now }
        ensures refused { IfErr result (λ e. index_check payload.now ≡ Err e) }
    {
        let numbers = parts_of(payload)?;
        if numbers.hash_len != 0 {
            return Err(Error::BadTrailer);
        }
        check_items::<KeyedBlockHandle, IndexBlockParsedItem>(payload, &numbers)?;
        Ok(numbers.item_count as usize)
    }
}

impl IndexBlock {
    /// Checks a block of any bytes as [`IndexBlock::check`] does, but only borrows it. Returns the
    /// number of its handles. Takes no memory. A block that passes meets the precondition of
    /// [`IndexBlock::new`].
    ///
    /// # Errors
    ///
    /// Those of [`IndexBlock::check`].
    pub fn check_ref(block: &Block) -> Result<usize>
        ensures checked { OnOk result
            (index_check block.now.payload ≡ Ok (items_in handles block.now.payload)) }
        ensures count { IfOk result (λ n. n ≡ length (items_in handles block.now.payload)) }
        ensures block { OnOk result
            (IsIndexBlock block.now.payload (items_in handles block.now.payload)
            (trailer_in block.now.payload).interval) }
        ensures refused { IfErr result (λ e. index_check block.now.payload ≡ Err e) }

        // An encoding is accepted.
        ensures accepts { (items : List Handle) (r : ℕ) → IsIndexBlock block.now.payload items r
            → MatchResult result (λ n. n ≡ length items) (λ e. e ≡ Error.Memory) }
    {
        IndexBlockRef::count_checked(block.data().as_slice())
    }
}
