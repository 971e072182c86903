//! Filter blocks.
ghost use Rattle.std.specs.Prelude.{◌≡◌, ◌↔◌, length, Ok, Err, IfOk, IfErr, IsTrue};
ghost use Rattle.sstable_blocks.specs.Filter.{Filter, filter_at, MayContain};

use super::standard_bloom::StandardBloomFilterReader;
use sst_base::{AllocResult, Block, Result, Slice};
use std::marker::Model;

/// A block whose payload is read as a filter each time that it is queried. Clauses see the block.
#[derive(Drop)]
pub struct FilterBlock {
    inner: Block,
}

impl Model for FilterBlock {
    ghost use Rattle.sst_base.specs.Block.{BlockParts};

    ghost Value = { BlockParts };

    ghost view = { λ b. b.inner };
}

impl FilterBlock {
    /// Wraps a block. Nothing of it is tested.
    pub fn new(block: Block) -> FilterBlock
        ensures { result ≡ block }
    {
        FilterBlock { inner: block }
    }

    /// Returns whether the filter may contain a hash. Takes no memory.
    ///
    /// # Errors
    ///
    /// Those of `StandardBloomFilterReader::new`.
    pub fn maybe_contains_hash(&self, hash: u64) -> Result<bool>
        ensures ok { IfOk result (λ found. (f : Filter)
            × (filter_at self.now.payload ≡ Ok f) × (IsTrue found ↔ MayContain f hash)) }
        ensures err { IfErr result (λ e. filter_at self.now.payload ≡ Err e) }
    {
        let filter = StandardBloomFilterReader::new(self.inner.data().as_slice())?;
        Ok(filter.contains_hash(hash))
    }

    /// Returns the payload.
    pub fn as_slice(&self) -> &Slice
        ensures { result.now ≡ self.now.payload }
    {
        self.inner.data()
    }

    /// Returns the length of the payload in bytes.
    pub fn size(&self) -> u32
        ensures { result ≡ length self.now.payload }
    {
        self.inner.size()
    }
}

impl Clone for FilterBlock {
    ghost is_clone = { λ b copy. copy ≡ b };

    fn clone(&self) -> AllocResult<FilterBlock> {
        Ok(FilterBlock {
            inner: self.inner.clone()?,
        })
    }
}
