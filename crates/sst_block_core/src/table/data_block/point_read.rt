//! The look-up of a point read.
ghost use Rattle.std.specs.Prelude.{◌≡◌, ◌+◌, ◌<◌, ◌≤◌, IfSome, IfOk, IsOk, IsSome, OnErr};
ghost use Rattle.std.specs.Prelude.{IsOkUnless, length, map};
ghost use Rattle.std.specs.Option.{option_map};
ghost use Rattle.sst_base.specs.Counted.{found_item, IsZero, CountsBetween};
ghost use Rattle.sst_base.specs.Entry.{IsShort, plain};
ghost use Rattle.sst_block_core.specs.Kind.{IsOrdered};
ghost use Rattle.sst_block_core.specs.Entries.{entries};
ghost use Rattle.sst_block_core.specs.PointReads.{read_least, read_most, ref_lookup};
ghost use Rattle.sst_block_core.specs.PointReads.{ref_read_least, ref_read_most};
ghost use Rattle.sst_block_core.specs.ParsedEntry.{entry_of, IsParsedEntry};
ghost use Rattle.sst_block_core.specs.Pointers.{head_count};
ghost use Rattle.sst_block_core.specs.Window.{first_match};

use crate::table::block::hash_index::Lookup;
use crate::table::block::intervals::Intervals;
use crate::table::data_block::DataBlock;
use crate::table::data_block::block_ref::DataBlockRef;
use crate::table::data_block::parsed_item::DataBlockParsedItem;
use sst_base::{BlockHash, Error, InternalValue, Result, SeqNo, Steps};
use std::alloc::Global;

impl<'a, H: BlockHash> DataBlockRef<'a, H> {
    // What the hash index says of a key, if there is one.
    #[inline(always)]
    fn lookup(&self, needle: &[u8]) -> Lookup
        ensures value { result ≡ ref_lookup H.hash64 self.now needle.now }
        ensures few_heads { 0 < self.now.stored
            → head_count self.now.interval (length self.now.items) ≤ 254 }
    {
        // A block with a hash index has at most 254 heads.
        let _trailer = self.trailer();
        match self.get_hash_index_reader() {
            Some(index) => index.lookup(needle),
            None => Lookup::Anywhere,
        }
    }

    /// Finds the first entry with a key whose sequence number is strictly below `seqno`, and
    /// returns where its parts are in the payload. Takes no memory.
    ///
    /// What is examined is added to `steps`. Where the hash index says that the key is not in the
    /// block, that is nothing. Where it gives a restart interval, that is at least one entry and at
    /// most the entries of the interval. Else it is at least one head and at most as many heads as
    /// their number has binary digits, and at most the entries of one interval and one more.
    #[inline(always)]
    pub fn find(
        &self,
        needle: &[u8],
        seqno: SeqNo,
        steps: &mut Steps,
    ) -> Option<DataBlockParsedItem>
        ensures item { option_map (entry_of self.now.payload) result
            ≡ first_match entries needle.now seqno self.now.items }
        ensures found { IfSome result (IsParsedEntry self.now.payload) }
        ensures counts { CountsBetween steps.old steps.new
            (ref_read_least H.hash64 self.now needle.now)
            (ref_read_most H.hash64 self.now needle.now) }
        ensures counted { steps.old.entries + found_item result ≤ steps.new.entries }
    {
        let mut intervals = self.intervals();
        let found = match self.lookup(needle) {
            Lookup::Nowhere => None,
            Lookup::Interval(number) => {
                intervals.first_version_in(usize::from(number), needle, seqno)
            }
            Lookup::Anywhere => intervals.first_version(needle, seqno),
        };
        steps.add(intervals.steps());
        found
    }
}

impl<H: BlockHash> DataBlock<H> {
    /// The block's restart intervals, of which nothing is counted yet.
    #[inline(always)]
    pub(crate) fn intervals(&self) -> Intervals<'_, InternalValue, DataBlockParsedItem>
        ensures payload { result.list.payload ≡ self.now.payload }
        ensures items { result.list.items ≡ self.now.items }
        ensures interval { result.list.interval ≡ self.now.interval }
        ensures some { 0 < self.now.interval }
        ensures ordered { IsOrdered entries self.now.items }
        ensures plain { map plain self.now.items ≡ self.now.items }
        ensures counts { IsZero result.steps }
    {
        self.by_ref().intervals()
    }

    /// Finds the first entry with a key whose sequence number is strictly below `seqno`. What is
    /// examined is added to `steps`.
    #[inline(always)]
    pub(crate) fn find_version(
        &self,
        needle: &[u8],
        seqno: SeqNo,
        steps: &mut Steps,
    ) -> Option<DataBlockParsedItem>
        ensures item { option_map (entry_of self.now.payload) result
            ≡ first_match entries needle.now seqno self.now.items }
        ensures found { IfSome result (IsParsedEntry self.now.payload) }
        ensures counts { CountsBetween steps.old steps.new
            (read_least H.hash64 self.now needle.now) (read_most H.hash64 self.now needle.now) }
        ensures counted { steps.old.entries + found_item result ≤ steps.new.entries }
    {
        self.by_ref().find(needle, seqno, steps)
    }

    /// Returns the first entry with this key whose sequence number is strictly below `seqno`. A
    /// tombstone has no value.
    ///
    /// What is examined is added to `steps`. Where the hash index says that the key is not in the
    /// block, that is nothing. Where it gives a restart interval, that is at least one entry and at
    /// most the entries of the interval. Else it is at least one head and at most as many heads as
    /// their number has binary digits, and at most the entries of one interval and one more.
    ///
    /// # Errors
    ///
    /// `Error::Memory` if an allocation fails, which is possible only where there is such an entry,
    /// and its key or its value has more than 40 bytes.
    pub fn point_read(
        &self,
        alloc: Global,
        needle: &[u8],
        seqno: SeqNo,
        steps: &mut Steps,
    ) -> Result<Option<InternalValue>>
        ensures found { IfOk result
            (λ item. item ≡ first_match entries needle.now seqno self.now.items) }
        ensures memory { IsOkUnless result Error.Memory }
        ensures only_found { OnErr result
            (IsSome (first_match entries needle.now seqno self.now.items)) }
        ensures few { IfSome (first_match entries needle.now seqno self.now.items) IsShort
            → IsOk result }
        ensures counts { CountsBetween steps.old steps.new
            (read_least H.hash64 self.now needle.now) (read_most H.hash64 self.now needle.now) }
        ensures counted { IsSome (first_match entries needle.now seqno self.now.items)
            → steps.old.entries + 1 ≤ steps.new.entries }
    {
        match self.find_version(needle, seqno, steps) {
            Some(item) => self.found(alloc, &item),
            None => Ok(None),
        }
    }
}
