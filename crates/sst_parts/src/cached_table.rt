//! Tables that are read through a cache of their blocks.
ghost use Rattle.std.specs.Prelude.{◌≡◌, ◌-◌, ◌^◌, ◌↔◌, IfOk, IfSome};
ghost use Rattle.std.specs.Prelude.{IfErr, IsErr, OnErr, length};
ghost use Rattle.sst_parts.specs.CachedBlocks.{IsAdded, LeavesBlocks, block_frames};
ghost use Rattle.sst_parts.specs.CachedBlocks.{block_of_table};
ghost use Rattle.sst_parts.specs.Caches.{IsGiven};
ghost use Rattle.sstable_blocks.specs.ReadCosts.{CountsRead};
ghost use Rattle.sstable_blocks.specs.RunReading.{hashes, read_checked};
ghost use Rattle.sstable_blocks.specs.Sound.{FindsFirst};
ghost use Rattle.sstable_blocks.specs.Sources.{AsksExactly, ReadsAs, UsesSource};
ghost use Rattle.sstable_blocks.specs.Tables.{LooksBy, kept_says, kept_parts};

use crate::block_cache::{BlockCache, get_through};
use sstable_blocks::run::laws::sound_is_read;
use sstable_blocks::run::{FrameSource, OpenRun, RunPlace, Table};
use sstable_blocks::{BlockHash, InternalValue, Result, SeqNo, Steps};
use std::alloc::Global;
use std::marker::Model;

/// A table that is read through a cache of blocks, which gave it a number.
///
/// Clauses see the table and its number.
#[derive(Drop)]
pub struct CachedTable<H: BlockHash, S: FrameSource> {
    source: S,
    run: OpenRun<H>,
    number: u64,
}

impl<H: BlockHash, S: FrameSource> Model for CachedTable<H, S> {
    ghost use Rattle.sst_parts.specs.CachedBlocks.{CachedTableParts};
    ghost use Rattle.sstable_blocks.specs.RunReading.{hashes};
    ghost use Rattle.sstable_blocks.specs.Tables.{IsOpenedOf, table_of};

    ghost Value = { CachedTableParts S };

    ghost view = { λ t. record { table = table_of t.source t.run; number = t.number } };

    ghost invariant = { λ t. IsOpenedOf (hashes H.hash64 H.hash128) (S.bytes t.source) t.run };
}

impl<H: BlockHash, S: FrameSource> CachedTable<H, S> {
    /// Adds a table to a cache, which gives it a number that no other table of the cache has.
    ///
    /// # Errors
    ///
    /// The table is returned if the cache has given out all of its 2^64 - 1 numbers.
    pub fn new(
        cache: &mut BlockCache<H>,
        table: Table<H, S>,
    ) -> std::result::Result<CachedTable<H, S>, Table<H, S>>
        ensures table { IfOk result (λ t. (t.table ≡ table)
            × (t.number ≡ length cache.old.tables)) }
        ensures cache { IfOk result
            (λ _. IsGiven cache.old (S.bytes table.source) cache.new) }
        ensures added { IfOk result
            (λ t. IsAdded S.bytes cache.new t.number t.table.source) }
        ensures full { IsErr result ↔ (length cache.old.tables ≡ 2 ^ 64 - 1) }
        ensures returned { IfErr result (λ t. t ≡ table) }
        ensures unchanged { OnErr result (cache.new ≡ cache.old) }
    {
        let (run, source) = table.into_parts();
        match cache.add(&source) {
            Some(number) => Ok(CachedTable {
                source,
                run,
                number,
            }),
            None => Err(Table::from_parts(run, source)),
        }
    }

    /// Returns what [`Table::get`] returns. A block that the cache keeps is not read again: no
    /// frame is read then. One that it does not keep is read, verified and checked, and kept, as
    /// the most recently used, if its payload fits. A block that is refused is not kept, so its
    /// error is met again. The cache is the one that the table was added to.
    ///
    /// What is examined is added to `steps`, as [`Table::get`] does.
    ///
    /// # Errors
    ///
    /// Those of [`Table::get`]. That the cache's own allocation fails is none.
    pub fn get(
        &mut self,
        cache: &mut BlockCache<H>,
        alloc: Global,
        needle: &[u8],
        seqno: SeqNo,
        steps: &mut Steps,
    ) -> Result<Option<InternalValue>>
        requires { IsAdded S.bytes cache.old self.old.number self.old.table.source }
        ensures kept { self.new ≡ record self.old {
          table = record self.old.table { source = self.new.table.source };
        } }
        ensures source { UsesSource S.bytes S.failures S.reads S.is_reliable
            (AsksExactly (block_frames cache.old.kept self.old.number
            (block_of_table H.hash64 self.old.table needle.now seqno)))
            self.old.table.source self.new.table.source result }
        ensures exact { ReadsAs S.bytes S.failures S.is_reliable self.old.table.source
            self.new.table.source (λ x. x) result (λ all. read_checked
            (hashes H.hash64 H.hash128) all self.old.table.handles needle.now seqno) }
        ensures sound { IfSome (S.bytes self.old.table.source)
            (FindsFirst (hashes H.hash64 H.hash128) self.old.table.handles needle.now seqno
            result) }
        ensures counts { IfSome (S.bytes self.old.table.source)
            (λ all. CountsRead all self.old.table.handles needle.now seqno
            steps.old steps.new) }
        ensures looked { LooksBy (kept_says H.hash64 self.old.table.filter needle.now)
            steps.old steps.new }
        ensures cache { LeavesBlocks (hashes H.hash64 H.hash128) cache.old self.old.number
            (block_of_table H.hash64 self.old.table needle.now seqno) result cache.new }
    {
        sound_is_read();
        let place = RunPlace::Whole;
        get_through(
            alloc,
            &mut self.source,
            &place,
            &self.run,
            cache,
            self.number,
            needle,
            seqno,
            steps,
        )
    }

    /// Returns what is kept of the table.
    pub fn run(&self) -> &OpenRun<H>
        ensures { result.now ≡ kept_parts self.now.table }
    {
        &self.run
    }

    /// Returns the source of the table.
    pub fn source(&self) -> &S
        ensures { result.now ≡ self.now.table.source }
    {
        &self.source
    }
}
