//! Laws of runs. Each function does nothing, and its contract is one law: a caller has it in its
//! proof by calling the function.
ghost use Rattle.std.specs.Prelude.{◌≤◌, ◌≡◌, ℕ, ◌<◌, ◌^◌, List, length, map, slice_get, Ok};
ghost use Rattle.sst_block_core.specs.Entries.{entries};
ghost use Rattle.sstable_blocks.specs.RunReading.{Hashes, hashes, handles_at, read_checked};
ghost use Rattle.sstable_blocks.specs.RunReading.{AnswerMeans};
ghost use Rattle.sst_base.specs.Bytes.{IsBytes};
ghost use Rattle.std.specs.Prelude.{None, Option, IfSome};
ghost use Rattle.std.specs.List.{AllByRecursion, AllZip};
ghost use Rattle.sst_base.specs.Entry.{Entry, plain};
ghost use Rattle.sst_block_core.specs.Handles.{Handle, handles, IsHandle, EndFits};
ghost use Rattle.sst_block_core.specs.Kind.{IsOrdered};
ghost use Rattle.sst_block_core.specs.Window.{first_match};
ghost use Rattle.sstable_blocks.specs.Blocks.{joined, blocks_of, CutsFit, IsNotEmpty};
ghost use Rattle.sstable_blocks.specs.ManyReads.{IsRising, different, indexes, many_frames};
ghost use Rattle.sstable_blocks.specs.Lookup.{IsEnd, first_in, place_for};
ghost use Rattle.sstable_blocks.specs.Opened.{Opened};
ghost use Rattle.sstable_blocks.specs.ReadCosts.{heads_most, entries_most};
ghost use Rattle.sstable_blocks.specs.ReadCosts.{heads_most_in, entries_most_in};
ghost use Rattle.sstable_blocks.specs.RunChecks.{check_run, summary_of};
ghost use Rattle.sstable_blocks.specs.Scans.{IsReadRun, KeyRange, blocks_read};
ghost use Rattle.sstable_blocks.specs.Scans.{handles_within, within};
ghost use Rattle.sstable_blocks.specs.Sound.{IsSound};
ghost use Rattle.sstable_blocks.specs.Run.{Form, IsLayout, IsRun, IsFramed, block_payload};
ghost use Rattle.sstable_blocks.specs.Run.{block_frames, handles_from};
ghost use Rattle.sstable_blocks.specs.declared.run.RunHandles.{RunHandles};
ghost use Rattle.sstable_blocks.specs.declared.run.checking.RunSummary.{RunSummary};

use sst_base::InternalValue;
use sst_block_core::BlockItem;
use sst_block_core::laws::{
    data_block_is_read, data_check_is_by_stages, first_match_of_plain, index_block_is_read,
    index_check_accepts_encodings, index_check_is_by_stages, passing_is_block,
};

/// The blocks of a list, joined, are the list, and none is empty.
pub fn blocks_are_the_list<T>()
    ensures { (items : List T) (cuts : List ℕ) → 1 ≤ length items
        → CutsFit 0 (length items) cuts
        → (joined (blocks_of cuts items) ≡ items)
        × AllByRecursion IsNotEmpty (blocks_of cuts items) }
{}

/// The first match of an ordered list in blocks is that of the one block at which a search over the
/// ends of the blocks stops, and there is none where it passes over all.
pub fn first_match_is_in_one_block<T: BlockItem, E: BlockItem>()
    ensures { (needle : List ℕ) (seqno : ℕ) (blocks : List (List T)) (ends : List E)
        → AllZip (IsEnd T.kind E.kind) blocks ends
        → IsOrdered T.kind (joined blocks)
        → first_match T.kind needle seqno (joined blocks)
        ≡ first_in T.kind needle seqno (slice_get blocks (place_for E.kind needle seqno ends)) }
{}

/// The handles of a run's blocks whose frames end below 2^64 are what an index block is made of: as
/// many as blocks, ordered, within their limits.
pub fn handles_are_ready()
    ensures { (f : Form) (blocks : List (List Entry)) → IsRun f blocks
        → AllByRecursion (λ block. IsFramed (block_payload f block)) blocks
        → length (block_frames f blocks) < 2 ^ 64
        → (length (handles_from f 0 blocks) ≡ length blocks)
        × IsOrdered handles (handles_from f 0 blocks)
        × AllByRecursion IsHandle (handles_from f 0 blocks)
        × AllByRecursion EndFits (handles_from f 0 blocks) }
{}

/// A layout is sound, whatever its configuration.
pub fn layout_is_sound()
    ensures { (f : Form) (blocks : List (List Entry)) (bytes : List ℕ) (h : RunHandles)
        → IsLayout f blocks bytes h → IsSound (hashes f.hash64 f.hash128) blocks bytes h }
{}

/// What a reader finds in a sound run: an index with a handle for each block, the blocks where
/// these say, and a filter that rules out no key of the run.
pub fn sound_opens()
    ensures { (c : Hashes) (blocks : List (List Entry)) (bytes : List ℕ) (h : RunHandles)
        → IsSound c blocks bytes h → Opened c.hash64 blocks bytes h }
{
    data_block_is_read();
    index_block_is_read();
    first_match_of_plain();
}

/// How little a read of a layout examines, by its configuration.
pub fn layout_costs()
    ensures { (f : Form) (blocks : List (List Entry)) (bytes : List ℕ) (h : RunHandles)
        (needle : List ℕ) (seqno : ℕ)
        → IsLayout f blocks bytes h
        → (heads_most_in bytes h needle seqno ≡ heads_most f blocks needle seqno)
        × (entries_most_in bytes h needle seqno ≤ entries_most f) }
{
    data_block_is_read();
    index_block_is_read();
}

/// A checked read of a sound run gives the first match of its blocks.
pub fn sound_is_read()
    ensures { (c : Hashes) (blocks : List (List Entry)) (bytes : List ℕ) (h : RunHandles)
        (needle : List ℕ) (seqno : ℕ)
        → ((xs : List ℕ) → c.hash128 xs < 2 ^ 128) → IsSound c blocks bytes h
        → read_checked c bytes h needle seqno
        ≡ Ok (first_match entries needle seqno (joined blocks)) }
{
    data_check_is_by_stages();
    index_check_is_by_stages();
    data_block_is_read();
    index_block_is_read();
    first_match_of_plain();
}

/// A checked read of a layout gives the first match of its run.
pub fn layout_is_read()
    ensures { (f : Form) (blocks : List (List Entry)) (bytes : List ℕ) (h : RunHandles)
        (needle : List ℕ) (seqno : ℕ)
        → ((xs : List ℕ) → f.hash128 xs < 2 ^ 128) → IsLayout f blocks bytes h
        → read_checked (hashes f.hash64 f.hash128) bytes h needle seqno
        ≡ Ok (first_match entries needle seqno (joined blocks)) }
{
    layout_is_sound();
    sound_is_read();
}

/// What a result of a checked read on any bytes means: each frame met is a frame of the right
/// type, whose payload the filter's reader or the check accepts; there is none where the filter
/// rules the key out, else the result is by the handle at which the index seek stops.
pub fn checked_answer_means()
    ensures { (c : Hashes) (bytes : List ℕ) (h : RunHandles) (needle : List ℕ) (seqno : ℕ)
        (answer : Option Entry)
        → IsBytes bytes
        → read_checked c bytes h needle seqno ≡ Ok answer
        → AnswerMeans c bytes h needle seqno answer }
{
    data_check_is_by_stages();
    index_check_is_by_stages();
}

/// Bytes that the check of a run accepts are a sound run, of whose blocks it returns the summary.
pub fn accepted_run_is_sound()
    ensures { (c : Hashes) (bytes : List ℕ) (h : RunHandles) (s : RunSummary) → IsBytes bytes
        → h.index.size < 2 ^ 32 → IfSome h.filter (λ g. g.size < 2 ^ 32)
        → check_run c bytes h ≡ Ok s
        → (blocks : List (List Entry)) × IsSound c blocks bytes h × (s ≡ summary_of blocks) }
{
    data_check_is_by_stages();
    index_check_accepts_encodings();
    passing_is_block::<InternalValue>();
}

/// The check of a run accepts each sound run.
pub fn sound_run_is_accepted()
    ensures { (c : Hashes) (blocks : List (List Entry)) (bytes : List ℕ) (h : RunHandles)
        → ((xs : List ℕ) → c.hash128 xs < 2 ^ 128) → IsSound c blocks bytes h
        → check_run c bytes h ≡ Ok (summary_of blocks) }
{
    data_check_is_by_stages();
    index_check_is_by_stages();
    data_block_is_read();
    index_block_is_read();
}

/// The index of a sound run is read, and the block of each of its handles.
pub fn sound_run_is_read()
    ensures { (c : Hashes) (blocks : List (List Entry)) (bytes : List ℕ) (h : RunHandles)
        → ((xs : List ℕ) → c.hash128 xs < 2 ^ 128) → IsSound c blocks bytes h
        → IsReadRun c bytes h }
{
    data_check_is_by_stages();
    index_check_is_by_stages();
    data_block_is_read();
    index_block_is_read();
    first_match_of_plain();
}

/// The blocks of a sound run that can have a key in a range, by the index alone, are read as the
/// entries of the run in the range.
pub fn sound_is_scanned()
    ensures { (c : Hashes) (blocks : List (List Entry)) (bytes : List ℕ) (h : RunHandles)
        (r : KeyRange) (hs : List Handle)
        → ((xs : List ℕ) → c.hash128 xs < 2 ^ 128) → IsSound c blocks bytes h
        → handles_at c bytes h.index ≡ Ok hs
        → blocks_read c bytes r (handles_within r hs)
        ≡ map Ok (within r (map plain (joined blocks))) }
{
    data_check_is_by_stages();
    index_check_is_by_stages();
    data_block_is_read();
    index_block_is_read();
    first_match_of_plain();
}

/// Where the indexes of the blocks of needles do not fall, [`Table::get_many`](super::Table::get_many)
/// asks for at most as many frames as there are different blocks among them.
pub fn rising_blocks_are_read_once()
    ensures { (places : List (Option ℕ)) → IsRising (indexes places)
        → many_frames None places ≡ different (indexes places) }
{}
