//! The entries of a window of a run, one after the other.
ghost use Rattle.std.specs.Prelude.{◌≡◌, [], None, Some, length};
ghost use Rattle.std.specs.Iterator.{YieldsFirst};
ghost use Rattle.sst_calls.specs.Runs.{IsSomeRun};
ghost use Rattle.sst_calls.specs.Windows.{IsWindow, blocks_in, left_in};

use crate::walk::{Walk, next_item, open};
use crate::window::SstWindow;
use sst_merge::Source;
use sstable_blocks::{EntryView, Result, RunHandles};
use std::alloc::Global;
use std::marker::Model;

/// The entries that a window of a run has left, one after the other: each borrows the bytes of the
/// run. The run is one by whatever hash function. No step takes memory, and none fails.
///
/// Clauses see the entries left.
#[derive(Drop)]
pub(crate) struct RunEntries<'a> {
    walk: Walk<'a>,
}

impl<'a> Model for RunEntries<'a> {
    ghost use Rattle.std.specs.Prelude.{List};
    ghost use Rattle.sstable_blocks.specs.Prelude.{Entry};
    ghost use Rattle.sst_calls.specs.Walks.{IsAtWindow};
    ghost use Rattle.sst_calls.specs.Windows.{blocks_in, left_in};

    ghost Value = { List Entry };

    ghost view = { λ e. left_in (blocks_in e.walk.bytes.now e.walk.handles) e.walk.window };

    ghost invariant = { λ e. IsAtWindow e.walk };
}

impl<'a> RunEntries<'a> {
    /// Makes the entries that a window of a run has left.
    pub(crate) fn new(bytes: &'a [u8], handles: RunHandles, window: SstWindow) -> RunEntries<'a>
        requires sound { IsSomeRun bytes.now handles }
        requires window { IsWindow (blocks_in bytes.now handles) window }
        ensures { result ≡ left_in (blocks_in bytes.now handles) window }
    {
        RunEntries {
            walk: open(bytes, handles, window),
        }
    }

    // Takes the first entry left, if there is one.
    fn next(&mut self) -> Option<EntryView<'a>>
        ensures { YieldsFirst (λ left. left) self.old result self.new }
    {
        let Some(item) = next_item(&mut self.walk) else {
            return None;
        };
        let payload = self.walk.part.block.as_slice();
        Some(EntryView::new(payload, item))
    }
}

/// The entries, which are known. No step fails.
impl<'a> Source<EntryView<'a>> for RunEntries<'a> {
    ghost left = { λ s. record {
      list = Some s;
      most = length s;
      errors = Some [];
      ended = None;
    } };

    ghost may_fail = { λ _. ⊥ };

    #[inline(always)]
    fn next_entry(&mut self, _alloc: Global) -> Result<Option<EntryView<'a>>> {
        Ok(self.next())
    }
}
