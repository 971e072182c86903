//! The filter of a table, read once.
ghost use Rattle.std.specs.Prelude.{◌≡◌, Ok, Err, IfErr, IfOk};
ghost use Rattle.sstable_blocks.specs.Filter.{Filter, filter_at};
ghost use Rattle.sstable_blocks.specs.RunReading.{filter_answer};

use crate::table::filter::FilterBlock;
use crate::table::filter::standard_bloom::{FilterShape, StandardBloomFilterReader};
use sst_base::{Block, Result};
use std::marker::Model;

/// A filter that was read: its block, and the numbers of its payload, so that a query reads nothing
/// but bits. Clauses see the payload.
#[derive(Drop)]
pub(crate) struct KeptFilter {
    block: FilterBlock,
    shape: FilterShape,
}

impl Model for KeptFilter {
    ghost use Rattle.std.specs.Prelude.{◌≡◌, ℕ, List, Ok, drop};
    ghost use Rattle.sstable_blocks.specs.Filter.{filter_at};

    ghost Value = { List ℕ };

    ghost view = { λ f. f.block.payload };

    ghost invariant = { λ f. filter_at f.block.payload
        ≡ Ok (record { m = f.shape.m; k = f.shape.k; bits = drop 22 f.block.payload }) };
}

impl KeptFilter {
    /// Reads the filter of a block.
    ///
    /// # Errors
    ///
    /// Those of [`StandardBloomFilterReader::new`].
    pub(crate) fn read(block: Block) -> Result<KeptFilter>
        ensures kept { IfOk result (λ f. f ≡ block.payload) }
        ensures read { IfOk result (λ f. (x : Filter) × (filter_at block.payload ≡ Ok x)) }
        ensures refused { IfErr result (λ e. filter_at block.payload ≡ Err e) }
    {
        let shape = StandardBloomFilterReader::new(block.data().as_slice())?.into_shape();
        Ok(KeptFilter {
            block: FilterBlock::new(block),
            shape,
        })
    }

    /// Returns whether the filter may contain a hash.
    #[inline(always)]
    pub(crate) fn allows(&self, hash: u64) -> bool
        ensures { Ok result ≡ filter_answer self.now hash }
    {
        self.shape.allows(self.block.as_slice().as_slice(), hash)
    }

    /// Returns the block.
    pub(crate) fn block(&self) -> &FilterBlock
        ensures { result.now.payload ≡ self.now }
    {
        &self.block
    }
}
