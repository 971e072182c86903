//! The restart intervals of a block.
ghost use Rattle.std.specs.Prelude.{◌≡◌, ℕ, ◌+◌, ◌-◌, ◌*◌, ◌^◌, ◌<◌, ◌≤◌};
ghost use Rattle.std.specs.Prelude.{List, length, drop, slice_get, Some, min};
ghost use Rattle.std.specs.Prelude.{IfSome, IfOk, IsOkUnless};
ghost use Rattle.sst_base.specs.Counted.{IsZero, CountsExactly};
ghost use Rattle.sst_block_core.specs.Kind.{IsOrdered};
ghost use Rattle.std.specs.Ordering.{nat_cmp};
ghost use Rattle.std.specs.Cmp.Lexicographic.{slice_cmp};
ghost use Rattle.sst_base.specs.SharedPrefix.{shared_prefix_length};
ghost use Rattle.sst_block_core.specs.Body.{place_offset};
ghost use Rattle.sst_block_core.specs.Found.{IsRange, range_bytes};
ghost use Rattle.sst_block_core.specs.Payload.{IsEncoding};
ghost use Rattle.sst_block_core.specs.Places.{IsItemPlace, IsItemAt};
ghost use Rattle.sst_block_core.specs.Pointers.{head_count};
ghost use Rattle.sst_block_core.specs.Scan.{IsPlaceAfter, IsPlace};
ghost use Rattle.sst_block_core.specs.Stages.{items_in};
ghost use Rattle.sst_block_core.specs.Trailer.{trailer_in};
ghost use Rattle.sst_block_core.specs.Intervals.{IsListed};
ghost use Rattle.sst_block_core.specs.Heads.{IsHeadTableOf, IsHeadTableUpto, HeadsBegin, listed_in};
ghost use Rattle.sst_block_core.specs.Heads.{KeepsPrefixAndRoom};

use crate::table::block::binary_index::Reader;
use crate::table::block::decoder::{Decodable, ParsedItem};
use crate::table::block::form_reader::FormReader;
use crate::table::block::heads::HeadTable;
use crate::table::block::place::Place;
use crate::table::block::trailer::Trailer;
use sst_base::table::util::SliceIndexes;
use sst_base::{Error, Result, Steps};
use std::alloc::Global;
use std::cmp::Ordering;
use std::marker::Model;

/// The restart intervals of a block: its items by index, heads by the binary index.
///
/// Clauses see the block's list, and the counters.
pub struct Intervals<'a, Item: Decodable<Parsed>, Parsed: ParsedItem<Item>> {
    pub(crate) forms: FormReader<'a, Item, Parsed>,
    pointers: Reader<'a>,
    restart_interval: u8,
    item_count: usize,
    // The table of the heads, if the block has one.
    pub(crate) table: Option<&'a HeadTable>,
}

impl<'a, Item: Decodable<Parsed>, Parsed: ParsedItem<Item>> Model for Intervals<'a, Item, Parsed> {
    ghost use Rattle.sst_block_core.specs.Stages.{items_in};
    ghost use Rattle.std.specs.Prelude.{IfSome};
    ghost use Rattle.sst_block_core.specs.Intervals.{IntervalsParts, IsIndexed};
    ghost use Rattle.sst_block_core.specs.Heads.{IsHeadTableOf};

    ghost Value = { IntervalsParts Item };

    ghost view = { λ i. record {
      list = record {
        payload = i.forms.payload;
        interval = i.restart_interval;
        items = items_in Item.kind i.forms.payload;
      };
      steps = i.forms.steps;
    } };

    ghost invariant = { λ i. IsIndexed Item.kind
        (record {
          payload = i.forms.payload;
          interval = i.restart_interval;
          items = items_in Item.kind i.forms.payload;
        })
        i.pointers i.item_count
        × IfSome i.table (λ t. IsHeadTableOf Item.kind
        (record {
          payload = i.forms.payload;
          interval = i.restart_interval;
          items = items_in Item.kind i.forms.payload;
        })
        t.now) };
}

impl<'a, Item: Decodable<Parsed>, Parsed: ParsedItem<Item>> Intervals<'a, Item, Parsed> {
    /// Opens the payload of a block, which is the encoding of some list of items, ordered or not,
    /// and shorter than 2^32 bytes. Nothing is counted.
    pub fn new(payload: &'a [u8]) -> Intervals<'a, Item, Parsed>
        requires fits { length payload.now < 2 ^ 32 }
        requires encoding { (hash : List ℕ → ℕ) × (items : List Item) × (r : ℕ) × (b : ℕ)
            × IsEncoding Item.kind Item.valid hash payload.now items r b }
        ensures payload { result.list.payload ≡ payload.now }
        ensures items { result.list.items ≡ items_in Item.kind payload.now }
        ensures interval { result.list.interval ≡ (trailer_in payload.now).interval }
        ensures counts { IsZero result.steps }
    {
        Intervals::with_table(payload, None)
    }

    /// Opens a payload as [`Intervals::new`] does, with the block's own table of heads, if there is
    /// one.
    #[inline(always)]
    pub fn with_table(
        payload: &'a [u8],
        table: Option<&'a HeadTable>,
    ) -> Intervals<'a, Item, Parsed>
        requires fits { length payload.now < 2 ^ 32 }
        requires encoding { (hash : List ℕ → ℕ) × (items : List Item) × (r : ℕ) × (b : ℕ)
            × IsEncoding Item.kind Item.valid hash payload.now items r b }
        requires table { IfSome table (λ t. IsHeadTableOf Item.kind
            (listed_in Item.kind payload.now) t.now) }
        ensures payload { result.list.payload ≡ payload.now }
        ensures items { result.list.items ≡ items_in Item.kind payload.now }
        ensures interval { result.list.interval ≡ (trailer_in payload.now).interval }
        ensures counts { IsZero result.steps }
    {
        let trailer = Trailer::new(payload);
        Intervals {
            forms: FormReader::new(payload),
            pointers: Reader::new(
                payload,
                trailer.index_offset(),
                trailer.heads(),
                trailer.width(),
            ),
            restart_interval: trailer.interval(),
            item_count: trailer.item_count(),
            table,
        }
    }

    /// Returns what was counted so far.
    pub fn steps(&self) -> &Steps
        ensures { result.now ≡ self.now.steps }
    {
        self.forms.steps()
    }

    /// Returns the number of items.
    #[inline(always)]
    pub(crate) fn item_count(&self) -> usize
        ensures value { result ≡ length self.now.list.items }
        ensures listed { IsListed self.now.list }
    {
        self.item_count
    }

    /// Returns the number of intervals, which is the number of heads.
    #[inline(always)]
    pub(crate) fn count(&self) -> usize
        ensures value { result ≡ head_count self.now.list.interval (length self.now.list.items) }
        ensures below { (result - 1) * self.now.list.interval < length self.now.list.items }
        ensures all { length self.now.list.items ≤ result * self.now.list.interval }
        ensures listed { IsListed self.now.list }
    {
        self.pointers.len()
    }

    /// Returns the place of the first item, which is the first head.
    #[inline(always)]
    pub(crate) fn first(&self) -> Place
        ensures place { result.index ≡ 0 }
        ensures is_place { IsPlace Item.kind self.now.list result }
    {
        // The first pointer is 0.
        let _pointers = self.pointers.len();
        Place {
            index: 0,
            phase: 0,
            offset: 0,
            base: 0,
        }
    }

    /// Returns the place of the head of interval j, which exists.
    #[inline(always)]
    pub(crate) fn start(&self, j: usize) -> Place
        requires { j * self.now.list.interval < length self.now.list.items }
        ensures place { result.index ≡ j * self.now.list.interval }
        ensures phase { result.phase ≡ 0 }
        ensures is_place { IsPlace Item.kind self.now.list result }
        ensures offset { result.offset
            ≡ place_offset Item.kind self.now.list.interval self.now.list.items
            (j * self.now.list.interval) }
    {
        Place {
            index: j * usize::from(self.restart_interval),
            phase: 0,
            offset: self.pointers.get(j),
            base: 0,
        }
    }

    /// Returns where the form of the head of interval j begins, which exists.
    pub fn head_offset(&self, j: usize) -> usize
        requires { j < head_count self.now.list.interval (length self.now.list.items) }
        ensures value { result
            ≡ place_offset Item.kind self.now.list.interval self.now.list.items
            (j * self.now.list.interval) }
        ensures inside { j * self.now.list.interval < length self.now.list.items }
    {
        // Each interval but the last is full.
        let _count = self.count();
        self.start(j).offset
    }

    /// Returns the number of items per interval; the last may hold fewer.
    #[inline(always)]
    pub(crate) fn interval(&self) -> u8
        ensures value { result ≡ self.now.list.interval }
        ensures listed { IsListed self.now.list }
    {
        self.restart_interval
    }

    /// Returns the place after the last item.
    #[inline(always)]
    pub(crate) fn end(&self) -> Place
        ensures place { result.index ≡ length self.now.list.items }
        ensures is_place { IsPlace Item.kind self.now.list result }
    {
        let index = self.item_count();
        Place {
            index,
            phase: (index % usize::from(self.restart_interval)) as u8,
            offset: 0,
            base: 0,
        }
    }

    /// Returns the place of the head of interval j, or after the last item where j is the number
    /// of intervals.
    #[inline(always)]
    pub(crate) fn start_or_end(&self, j: usize) -> Place
        requires { j ≤ head_count self.now.list.interval (length self.now.list.items) }
        ensures place { result.index
            ≡ min (length self.now.list.items) (j * self.now.list.interval) }
        ensures is_place { IsPlace Item.kind self.now.list result }
    {
        if j < self.count() {
            self.start(j)
        } else {
            self.end()
        }
    }

    /// Returns the place of the head at an offset, by halves over the pointers.
    pub(crate) fn place_at(&self, offset: usize) -> Place
        requires { (j : ℕ) × (j * self.now.list.interval < length self.now.list.items)
            × (offset
            ≡ place_offset Item.kind self.now.list.interval self.now.list.items
            (j * self.now.list.interval)) }
        ensures place { (j : ℕ) → j * self.now.list.interval < length self.now.list.items
            → offset
            ≡ place_offset Item.kind self.now.list.interval self.now.list.items
            (j * self.now.list.interval)
            → result.index ≡ j * self.now.list.interval }
        ensures is_place { IsPlace Item.kind self.now.list result }
    {
        let mut left = 0;
        let mut right = self.count();
        while right - left > 1 {
            let mid = left + (right - left) / 2;
            if self.start(mid).offset <= offset {
                left = mid;
            } else {
                right = mid;
            }
        }
        self.start(left)
    }

    /// Returns the index after the last item of interval j, which exists.
    #[inline(always)]
    pub(crate) fn interval_end(&self, j: usize) -> usize
        requires { j * self.now.list.interval < length self.now.list.items }
        ensures value { result
            ≡ min (length self.now.list.items) ((j + 1) * self.now.list.interval) }
        ensures listed { IsListed self.now.list }
    {
        let count = self.item_count();
        count.min((j + 1) * usize::from(self.restart_interval))
    }

    /// Decodes the key and the sequence number of the head of interval j, which exists. Counts a
    /// head.
    #[inline(always)]
    pub(crate) fn read_head(&mut self, j: usize) -> (&'a [u8], u64)
        requires { j * self.old.list.interval < length self.old.list.items }
        ensures list { self.new.list ≡ self.old.list }
        ensures head { (x : Item)
            → slice_get self.old.list.items (j * self.old.list.interval) ≡ Some x
            → (result.0.now ≡ Item.kind.key x) × (result.1 ≡ Item.kind.seqno x) }
        ensures counts { CountsExactly self.old.steps self.new.steps 1 0 }
    {
        match self.table {
            Some(table) => self.forms.head_of(table, j),
            None => {
                let at = self.start(j);
                self.forms.read_head(at.offset)
            }
        }
    }

    /// Decodes the item of a head, and moves after it. Counts an entry.
    #[inline(always)]
    pub(crate) fn take_head(&mut self, at: &mut Place) -> Parsed
        requires place { IsItemPlace Item.kind self.old.list at.old }
        requires head { at.old.phase ≡ 0 }
        ensures list { self.new.list ≡ self.old.list }
        ensures item { IsItemAt Parsed.item_of Parsed.is_found self.old.list at.old.index result }
        ensures shared { Parsed.shared_len result ≡ 0 }
        ensures place { at.new.index ≡ at.old.index + 1 }
        ensures is_place { IsPlaceAfter Item.kind self.old.list at.new
            (Item.kind.key (Parsed.item_of self.old.list.payload result)) }
        ensures counts { CountsExactly self.old.steps self.new.steps 0 1 }
    {
        let (item, end) = self.forms.read_full(at.offset);
        at.base = item.key_offset();
        at.move_on(end, self.restart_interval);
        item
    }

    /// Decodes the item at a place that isn't a head's, and moves after it. Counts an entry.
    #[inline(always)]
    pub(crate) fn take_rest(&mut self, at: &mut Place) -> Parsed
        requires place { IsItemPlace Item.kind self.old.list at.old }
        requires rest { 0 < at.old.phase }
        ensures list { self.new.list ≡ self.old.list }
        ensures item { IsItemAt Parsed.item_of Parsed.is_found self.old.list at.old.index result }
        ensures place { at.new.index ≡ at.old.index + 1 }
        ensures base { at.new.base ≡ at.old.base }
        ensures is_place { (head : List ℕ) → IsPlaceAfter Item.kind self.old.list at.old head
            → IsPlaceAfter Item.kind self.old.list at.new head
            × (Parsed.shared_len result
            ≡ shared_prefix_length head
            (Item.kind.key (Parsed.item_of self.old.list.payload result))) }
        ensures counts { CountsExactly self.old.steps self.new.steps 0 1 }
    {
        let (item, end) = self.forms.read_truncated(at.offset, at.base);
        at.move_on(end, self.restart_interval);
        item
    }

    /// Returns the length of an item's shared prefix.
    #[inline(always)]
    pub(crate) fn prefix_len(&self, item: &Parsed) -> usize
        requires { Parsed.is_found self.now.list.payload item.now }
        ensures { result ≡ Parsed.shared_len item.now }
    {
        self.forms.prefix_len(item)
    }

    /// Returns an item's own bytes of the key.
    #[inline(always)]
    pub(crate) fn own_key(&self, item: &Parsed) -> &'a [u8]
        requires { Parsed.is_found self.now.list.payload item.now }
        ensures { result.now
            ≡ drop (Parsed.shared_len item.now)
            (Item.kind.key (Parsed.item_of self.now.list.payload item.now)) }
    {
        self.forms.own_key(item)
    }

    /// Compares an item's key with a needle, without joining prefix and rest.
    #[inline(always)]
    pub(crate) fn compare_key(&self, item: &Parsed, needle: &[u8]) -> Ordering
        requires { Parsed.is_found self.now.list.payload item.now }
        ensures { result
            ≡ slice_cmp nat_cmp (Item.kind.key (Parsed.item_of self.now.list.payload item.now))
            needle.now }
    {
        self.forms.compare_key(item, needle)
    }

    /// Decodes the item at a place, and moves after it. Counts an entry.
    #[inline(always)]
    pub(crate) fn take(&mut self, at: &mut Place) -> Parsed
        requires { IsItemPlace Item.kind self.old.list at.old }
        ensures list { self.new.list ≡ self.old.list }
        ensures item { IsItemAt Parsed.item_of Parsed.is_found self.old.list at.old.index result }
        ensures place { at.new.index ≡ at.old.index + 1 }
        ensures is_place { IsPlace Item.kind self.old.list at.new }
        ensures counts { CountsExactly self.old.steps self.new.steps 0 1 }
    {
        if at.phase == 0 {
            self.take_head(at)
        } else {
            self.take_rest(at)
        }
    }
}

impl<'a, Item: Decodable<Parsed>, Parsed: ParsedItem<Item> + Drop> Intervals<'a, Item, Parsed> {
    // Returns the range of the longest prefix that the keys of the first and of the last head
    // share, with which all between them begin, as they are in order.
    fn shared_prefix(&mut self) -> SliceIndexes
        requires { IsOrdered Item.kind self.old.list.items }
        ensures list { self.new.list ≡ self.old.list }
        ensures range { IsRange self.old.list.payload result }
        ensures begins { HeadsBegin Item.kind self.old.list
            (range_bytes self.old.list.payload result) }
    {
        let count = self.count();
        let first = self.start(0);
        let last = self.start(count - 1);
        self.forms.shared_prefix(first.offset, last.offset)
    }

    // Adds to a table of the first heads the head of interval j, which exists.
    #[inline(always)]
    fn push_head(&mut self, table: &mut HeadTable, j: usize)
        requires ordered { IsOrdered Item.kind self.old.list.items }
        requires inside { j * self.old.list.interval < length self.old.list.items }
        requires table { IsHeadTableUpto Item.kind self.old.list j table.old }
        requires begins { HeadsBegin Item.kind self.old.list
            (range_bytes self.old.list.payload table.old.prefix) }
        requires room { j < table.old.room }
        ensures list { self.new.list ≡ self.old.list }
        ensures table { IsHeadTableUpto Item.kind self.old.list (j + 1) table.new }
        ensures kept { KeepsPrefixAndRoom table.old table.new }
    {
        let at = self.start(j);
        self.forms.push_head(table, at.offset)
    }

    /// Makes the table of the heads.
    ///
    /// # Errors
    ///
    /// `Error::Memory` if an allocation fails.
    pub fn make_table(&mut self, alloc: Global) -> Result<HeadTable>
        requires { IsOrdered Item.kind self.old.list.items }
        ensures ok { IfOk result (λ t. IsHeadTableOf Item.kind self.old.list t) }
        ensures memory { IsOkUnless result Error.Memory }
    {
        let count = self.count();
        let prefix = self.shared_prefix();
        let mut table = HeadTable::with_prefix(alloc, count, prefix)?;
        for j in 0..count {
            self.push_head(&mut table, j);
        }
        Ok(table)
    }
}

impl<'a, Item: Decodable<Parsed>, Parsed: ParsedItem<Item>> Drop for Intervals<'a, Item, Parsed> {
    fn drop(self) {
        let Self {
            forms: _,
            pointers: _,
            restart_interval: _,
            item_count: _,
            table: _,
        } = self;
    }
}
