//! The blocks of a run over borrowed bytes, all opened.
ghost use Rattle.std.specs.Prelude.{◌≡◌, IfOk, IsOkUnless, map};
ghost use Rattle.std.specs.List.{AllByRecursion};
ghost use Rattle.sst_base.specs.Entry.{plain};
ghost use Rattle.sst_base.specs.declared.error.Error.TheVariants.{Memory};
ghost use Rattle.sst_block_core.specs.Entries.{entries};
ghost use Rattle.sst_block_core.specs.Kind.{IsOrdered};
ghost use Rattle.sstable_blocks.specs.Blocks.{IsNotEmpty, joined};
ghost use Rattle.sstable_blocks.specs.RunBlocks.{blocks_in};
ghost use Rattle.sstable_blocks.specs.RunReading.{hashes};
ghost use Rattle.sstable_blocks.specs.Sound.{ForSound};

use super::laws::sound_opens;
use super::run_ref::RunRef;
use sst_base::{BlockHash, Result, Steps};
use sst_block_core::table::data_block::DataBlockRef;
use std::alloc::Global;

impl<'a, H: BlockHash> RunRef<'a, H> {
    // Opens all blocks.
    fn blocks_of(&self, alloc: Global) -> Result<Vec<DataBlockRef<'a, H>>>
        ensures blocks { IfOk result
            (λ opened. map (λ d. d.items) opened.items ≡ blocks_in self.now) }
        ensures memory { IsOkUnless result Memory }
    {
        let mut blocks = Vec::new(alloc);
        let mut steps = Steps::new();
        let count = self.index().len();
        let mut i = 0;
        while i < count {
            blocks.push(self.block_at(i, &mut steps))?;
            i += 1;
        }
        Ok(blocks)
    }

    /// Opens all blocks, in order, without a checksum and a check: for a list of blocks whose ends
    /// are moved. Memory is taken for what refers to each block, and no block is copied.
    ///
    /// # Errors
    ///
    /// `Error::Memory` if an allocation fails.
    pub fn open_blocks(&self, alloc: Global) -> Result<Vec<DataBlockRef<'a, H>>>
        ensures blocks { IfOk result (λ opened.
            ForSound (hashes H.hash64 H.hash128) self.now.bytes self.now.handles
            (λ blocks. map (λ d. d.items) opened.items ≡ map (map plain) blocks)) }
        ensures ordered { IfOk result
            (λ opened. IsOrdered entries (joined (map (λ d. d.items) opened.items))) }
        ensures some { IfOk result
            (λ opened. AllByRecursion IsNotEmpty (map (λ d. d.items) opened.items)) }
        ensures memory { IsOkUnless result Memory }
    {
        sound_opens();
        self.note_sound();
        match self.blocks_of(alloc) {
            Ok(blocks) => Ok(blocks),
            Err(error) => Err(error),
        }
    }
}
