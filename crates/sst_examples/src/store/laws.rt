//! Laws of tables, for callers' proofs. Each function states one law, and does nothing.
ghost use Rattle.std.specs.Prelude.{◌≡◌, ◌<◌, ◌^◌, ℕ, List, Some, Ok, map};
ghost use Rattle.sst_sources.specs.Stored.{table_list};
ghost use Rattle.sstable_blocks.specs.Blocks.{joined};
ghost use Rattle.sstable_blocks.specs.declared.run.RunHandles.{RunHandles};
ghost use Rattle.sstable_blocks.specs.Prelude.{IsBytes, Entry, plain, Handle};
ghost use Rattle.sstable_blocks.specs.RunReading.{Hashes, handles_at};
ghost use Rattle.sstable_blocks.specs.Sound.{IsSound};

use sstable_blocks::run::laws::{sound_is_scanned, sound_run_is_accepted};

/// A table over a sound run, as `write_table` writes one, has a known list: the entries that were
/// written, as decoded. The index is the one that `Table::open` keeps.
pub fn sound_table_is_known()
    ensures { (c : Hashes) (blocks : List (List Entry)) (bytes : List ℕ) (h : RunHandles)
        (index : List Handle)
        → ((xs : List ℕ) → c.hash128 xs < 2 ^ 128) → IsBytes bytes → IsSound c blocks bytes h
        → handles_at c bytes h.index ≡ Ok index
        → table_list c (Some bytes) h index ≡ Some (map plain (joined blocks)) }
{
    sound_run_is_accepted();
    sound_is_scanned();
}
