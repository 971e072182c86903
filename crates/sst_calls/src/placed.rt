//! Entries of runs with where they are, and windows of runs as sources of a merge.
ghost use Rattle.std.specs.Prelude.{◌≡◌, ◌<◌, Some, length, slice_get, slice_set};
ghost use Rattle.sst_calls.specs.Blocks.{IsPlaceOf};
ghost use Rattle.sst_calls.specs.declared.window.SstWindow.{SstWindow};
ghost use Rattle.sst_calls.specs.Placed.{placed_cmp, placed_source, window_after};
ghost use Rattle.sst_calls.specs.PlacedLaws.{placed_tells, placed_total};
ghost use Rattle.sst_calls.specs.Runs.{IsSomeRun};
ghost use Rattle.sst_calls.specs.Windows.{IsWindow, blocks_in};
ghost use Rattle.sst_sources.specs.Fronts.{key_front};
ghost use Rattle.sstable_blocks.specs.Prelude.{IsBytes};

use crate::data_block::{SstPlace, place_at};
use crate::walk::{Walk, next_item, open};
use crate::window::SstWindow;
use sst_merge::{Ranked, Source};
use sstable_blocks::{EntryView, Result, RunHandles};
use std::alloc::Global;
use std::cmp::Ordering;
use std::marker::Model;

/// An entry of a run, and where it is in the run. Clauses see the index of its run, the run's
/// bytes, the index of its block, that of the entry after it, and the entry.
#[derive(Drop)]
pub(crate) struct Placed<'a> {
    run: usize,
    bytes: &'a [u8],
    block: usize,
    next: usize,
    place: SstPlace,
    view: EntryView<'a>,
}

impl<'a> Model for Placed<'a> {
    ghost use Rattle.sst_calls.specs.Blocks.{IsPlaceOf};
    ghost use Rattle.sst_calls.specs.Placed.{PlacedEntry};

    ghost Value = { PlacedEntry };

    ghost view = { λ p. record {
      run = p.run;
      bytes = p.bytes.now;
      block = p.block;
      next = p.next;
      entry = p.view;
    } };

    ghost invariant = { λ p. IsPlaceOf p.bytes.now p.place p.view };
}

impl<'a> Placed<'a> {
    /// Returns the index of its run.
    pub(crate) fn run(&self) -> usize
        ensures value { result ≡ self.now.run }
    {
        self.run
    }

    /// Returns the entry.
    pub(crate) fn view(&self) -> &EntryView<'a>
        ensures value { result.now ≡ self.now.entry }
    {
        &self.view
    }

    /// Moves the front of its run's window behind it.
    pub(crate) fn move_front(&self, windows: &mut [SstWindow])
        requires inside { self.now.run < length windows.old }
        ensures moved { (w : SstWindow) → slice_get windows.old self.now.run ≡ Some w
            → windows.new ≡ slice_set windows.old self.now.run (window_after w self.now) }
    {
        let window = &mut windows[self.run];
        window.first_block = self.block;
        window.first_index = self.next;
    }

    /// Returns where it is in its run.
    pub(crate) fn place(&self) -> SstPlace
        ensures place { IsPlaceOf self.now.bytes result self.now.entry }
    {
        SstPlace { ..self.place }
    }
}

/// Entries are in their order, whatever run they are of.
impl<'a> Ranked for Placed<'a> {
    ghost cmp = { placed_cmp };

    ghost number = { λ p. key_front p.entry.key.user_key };

    ghost IsNumbered = { λ p. IsBytes p.entry.key.user_key };

    ghost ordered = { placed_total };

    #[inline(always)]
    fn compare(&self, other: &Placed<'a>) -> Ordering {
        self.view.compare(&other.view)
    }

    #[inline(always)]
    fn front(&self) -> u128 {
        self.view.front()
    }

    ghost tells = { placed_tells };
}

/// What a window of a run has left, as a source of a merge. Clauses see the entries with where they
/// are.
#[derive(Drop)]
pub(crate) struct WindowScan<'a> {
    run: usize,
    walk: Walk<'a>,
}

impl<'a> Model for WindowScan<'a> {
    ghost use Rattle.sst_calls.specs.Placed.{PlacedEntry};
    ghost use Rattle.sst_calls.specs.Walks.{IsAtWindow, walk_left};
    ghost use Rattle.sst_sources.specs.Sources.{Left};

    ghost Value = { Left PlacedEntry };

    ghost view = { λ s. walk_left s.run s.walk };

    ghost invariant = { λ s. IsAtWindow s.walk };
}

impl<'a> WindowScan<'a> {
    /// Scans a window of the run with an index.
    pub(crate) fn new(
        run: usize,
        bytes: &'a [u8],
        handles: RunHandles,
        window: SstWindow,
    ) -> WindowScan<'a>
        requires sound { IsSomeRun bytes.now handles }
        requires window { IsWindow (blocks_in bytes.now handles) window }
        ensures left { result ≡ placed_source run bytes.now (blocks_in bytes.now handles) window }
    {
        WindowScan {
            run,
            walk: open(bytes, handles, window),
        }
    }
}

/// It takes no memory, and never fails.
impl<'a> Source<Placed<'a>> for WindowScan<'a> {
    ghost left = { λ s. s };

    ghost may_fail = { λ _. ⊥ };

    fn next_entry(&mut self, _alloc: Global) -> Result<Option<Placed<'a>>> {
        let Some(item) = next_item(&mut self.walk) else {
            return Ok(None);
        };
        let payload = self.walk.part.block.as_slice();
        let place = place_at(self.walk.bytes, self.walk.part.start, payload, &item);
        Ok(Some(Placed {
            run: self.run,
            bytes: self.walk.bytes,
            block: self.walk.window.first_block,
            next: self.walk.window.first_index,
            place,
            view: EntryView::new(payload, item),
        }))
    }
}
