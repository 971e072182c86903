//! Parted tables that are read through a cache of open parts and one of their blocks.
ghost use Rattle.std.specs.Prelude.{◌≡◌, ◌⊎◌, ◌↔◌, ◌-◌, ◌<◌, ◌^◌, IfErr, IfOk, IfSome, IsErr};
ghost use Rattle.std.specs.Prelude.{OnErr, length};
ghost use Rattle.sst_parts.specs.CachedParts.{AreAdded, LeavesCaches, cached_frames, part_for};
ghost use Rattle.sst_parts.specs.Caches.{IsGiven};
ghost use Rattle.sst_parts.specs.PartReaders.{read_open_by_top};
ghost use Rattle.sst_parts.specs.Parts.{FindsInParts, parted_most};
ghost use Rattle.sstable_blocks.specs.Lookup.{handle_for};
ghost use Rattle.sstable_blocks.specs.Prelude.{CountsBetween, handles};
ghost use Rattle.sstable_blocks.specs.RunReading.{hashes};
ghost use Rattle.sstable_blocks.specs.Sources.{AsksUpTo, ReadsAs, UsesSource};

use crate::block_cache::BlockCache;
use crate::part_cache::{Numbers, PartCache};
use crate::table::PartedTable;
use sstable_blocks::run::FrameSource;
use sstable_blocks::{BlockHash, InternalValue, Result, SeqNo, Steps};
use std::alloc::Global;
use std::marker::Model;

/// A parted table that is read through a cache of parts and a cache of blocks, which gave it
/// numbers.
///
/// Clauses see the table and its numbers.
#[derive(Drop)]
pub struct CachedParted<H: BlockHash, S: FrameSource> {
    table: PartedTable<H, S>,
    numbers: Numbers,
}

impl<H: BlockHash, S: FrameSource> Model for CachedParted<H, S> {
    ghost use Rattle.sst_parts.specs.CachedParts.{CachedPartedParts};

    ghost Value = { CachedPartedParts S };

    ghost view = { λ t. record { table = t.table; numbers = t.numbers } };
}

impl<H: BlockHash, S: FrameSource> CachedParted<H, S> {
    /// Adds a parted table to two caches, each of which gives it a number that no other table of
    /// the cache has.
    ///
    /// # Errors
    ///
    /// The table is returned if a cache has given out all of its 2^64 - 1 numbers.
    pub fn new(
        parts: &mut PartCache<H>,
        blocks: &mut BlockCache<H>,
        table: PartedTable<H, S>,
    ) -> std::result::Result<CachedParted<H, S>, PartedTable<H, S>>
        ensures table { IfOk result (λ t. (t.table ≡ table) × (t.numbers ≡ record {
          of_parts = length parts.old.tables;
          of_blocks = length blocks.old.tables;
        })) }
        ensures caches { IfOk result (λ _.
            IsGiven parts.old (S.bytes table.source) parts.new
            × IsGiven blocks.old (S.bytes table.source) blocks.new) }
        ensures added { IfOk result
            (λ t. AreAdded S.bytes parts.new blocks.new t.numbers t.table.source) }
        ensures full { IsErr result ↔ ((length parts.old.tables ≡ 2 ^ 64 - 1)
            ⊎ (length blocks.old.tables ≡ 2 ^ 64 - 1)) }
        ensures returned { IfErr result (λ t. t ≡ table) }
        ensures unchanged { OnErr result ((parts.new ≡ parts.old) × (blocks.new ≡ blocks.old)) }
    {
        if parts.is_used_up() || blocks.is_used_up() {
            return Err(table);
        }
        match (parts.add(table.source()), blocks.add(table.source())) {
            (Some(of_parts), Some(of_blocks)) => {
                let numbers = Numbers {
                    of_parts,
                    of_blocks,
                };
                Ok(CachedParted { table, numbers })
            }
            _ => unreachable!(),
        }
    }

    /// Returns the first entry with this key whose sequence number is strictly below `seqno`, as
    /// [`PartedTable::get`] does. A part that the cache keeps is not opened again: of it a block is
    /// read at most, and nothing where that is kept too. One that it does not keep is opened, and
    /// kept, as the most recently used, if its filter and its index fit; of blocks the same holds.
    /// What is refused is not kept, so its error is met again. The caches are those that the table
    /// was added to.
    ///
    /// What is examined is added to `steps`, as [`PartedTable::get`] does.
    ///
    /// # Errors
    ///
    /// Those of [`PartedTable::get_many`]. That an allocation of a cache fails is none.
    pub fn get(
        &mut self,
        parts: &mut PartCache<H>,
        blocks: &mut BlockCache<H>,
        alloc: Global,
        needle: &[u8],
        seqno: SeqNo,
        steps: &mut Steps,
    ) -> Result<Option<InternalValue>>
        requires { AreAdded S.bytes parts.old blocks.old self.old.numbers
            self.old.table.source }
        ensures kept { self.new ≡ record self.old {
          table = record self.old.table { source = self.new.table.source };
        } }
        ensures source { UsesSource S.bytes S.failures S.reads S.is_reliable
            (AsksUpTo (cached_frames H.hash64 parts.old.kept blocks.old.kept self.old.numbers
            (part_for self.old.table.tops needle.now seqno) needle.now seqno))
            self.old.table.source self.new.table.source result }
        ensures exact { ReadsAs S.bytes S.failures S.is_reliable self.old.table.source
            self.new.table.source (λ x. x) result
            (λ all. read_open_by_top (hashes H.hash64 H.hash128) all
            (handle_for handles needle.now seqno self.old.table.tops) needle.now seqno) }
        ensures sound { IfSome (S.bytes self.old.table.source) (FindsInParts
            (hashes H.hash64 H.hash128) self.old.table.top needle.now seqno result) }
        ensures counts { IfSome (S.bytes self.old.table.source)
            (λ all. CountsBetween steps.old steps.new (1, 0)
            (parted_most all self.old.table.tops self.old.table.interval needle.now seqno)) }
        ensures looked { steps.old.heads < steps.new.heads }
        ensures caches { LeavesCaches (hashes H.hash64 H.hash128)
            (record { parts = parts.old; blocks = blocks.old }) self.old.numbers
            (part_for self.old.table.tops needle.now seqno) needle.now seqno result
            (record { parts = parts.new; blocks = blocks.new }) }
    {
        let numbers = self.numbers;
        self.table
            .get_through(alloc, parts, blocks, &numbers, needle, seqno, steps)
    }

    /// Returns the table.
    pub fn table(&self) -> &PartedTable<H, S>
        ensures { result.now ≡ self.now.table }
    {
        &self.table
    }
}
