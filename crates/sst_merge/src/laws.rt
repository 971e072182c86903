//! Laws of merges, snapshots and compaction, for callers' proofs. Each function states one law, and
//! does nothing.
ghost use Rattle.std.specs.Prelude.{◌≡◌, ◌<◌, ◌^◌, ℕ, Bool, true, false, List, [], ◌∷◌, ◌++◌};
ghost use Rattle.std.specs.Prelude.{Some, Ok, filter, map, reverse, slice_get};
ghost use Rattle.std.specs.List.{AllByRecursion};
ghost use Rattle.std.specs.Option.{option_map};
ghost use Rattle.std.specs.Ordering.{flip_args, nat_cmp, is_eq};
ghost use Rattle.std.specs.Cmp.Lexicographic.{slice_cmp};
ghost use Rattle.sst_merge.specs.Compact.{IsKeptRead, compacted, staying};
ghost use Rattle.sst_merge.specs.Levels.{AreWithin, HasNone, IsAbove, is_outside};
ghost use Rattle.sst_sources.specs.Merge.{merged, least_match, entry_cmp};
ghost use Rattle.sst_merge.specs.MovableTables.{table_blocks, table_errors};
ghost use Rattle.sst_merge.specs.Snapshot.{seen, shown, snapshot};
ghost use Rattle.sst_sources.specs.Stored.{known_reads};
ghost use Rattle.sstable_blocks.specs.Blocks.{joined};
ghost use Rattle.sstable_blocks.specs.declared.run.RunHandles.{RunHandles};
ghost use Rattle.sstable_blocks.specs.Prelude.{Entry, plain, entries, Handle, IsOrdered};
ghost use Rattle.sstable_blocks.specs.Prelude.{first_match};
ghost use Rattle.sstable_blocks.specs.RunReading.{Hashes, handles_at};
ghost use Rattle.sstable_blocks.specs.Sound.{IsSound};

use sstable_blocks::laws::{
    data_block_is_read, data_check_is_by_stages, first_match_of_plain, index_block_is_read,
    index_check_is_by_stages,
};

/// A merge of ordered lists is ordered.
pub fn merge_is_ordered()
    ensures { (lists : List (List Entry)) → AllByRecursion (IsOrdered entries) lists
        → IsOrdered entries (merged entry_cmp lists) }
{}

/// The first match of a merge of ordered lists is the least of their first matches, and of equal
/// ones that of the earliest list.
pub fn merge_is_read()
    ensures { (needle : List ℕ) (seqno : ℕ) (lists : List (List Entry))
        → AllByRecursion (IsOrdered entries) lists
        → first_match entries needle seqno (merged entry_cmp lists)
        ≡ least_match entry_cmp (map (first_match entries needle seqno) lists) }
{}

/// The merge of the parts of an ordered list, as a compaction writes them into tables, is the list.
pub fn parts_merge_to_the_whole()
    ensures { (lists : List (List Entry)) → IsOrdered entries (joined lists)
        → merged entry_cmp lists ≡ joined lists }
{}

/// Of each key, a snapshot of an ordered list has what a read of the list at its sequence number
/// sees.
pub fn snapshot_is_read()
    ensures { (needle : List ℕ) (seqno : ℕ) (items : List Entry) → IsOrdered entries items
        → option_map plain
        (slice_get
        (filter (λ e. is_eq (slice_cmp nat_cmp e.key.user_key needle))
        (snapshot (λ e. e) seqno items)) 0)
        ≡ seen (first_match entries needle seqno items) }
{}

/// A compaction of an ordered list changes no read at one of its snapshots, or at or above all of
/// them, and keeps the order. Of a key that is not at the bottom such a read finds the same
/// version, also where it is a tombstone.
pub fn compaction_keeps_reads()
    ensures above { (snapshots : List ℕ) (bottom : List ℕ → Bool) (needle : List ℕ) (seqno : ℕ)
        (items : List Entry)
        → IsKeptRead snapshots seqno → IsOrdered entries items → bottom needle ≡ false
        → first_match entries needle seqno (compacted (λ e. e) snapshots bottom items)
        ≡ first_match entries needle seqno items }
    ensures reads { (snapshots : List ℕ) (bottom : List ℕ → Bool) (needle : List ℕ) (seqno : ℕ)
        (items : List Entry) → IsKeptRead snapshots seqno → IsOrdered entries items
        → seen (first_match entries needle seqno (compacted (λ e. e) snapshots bottom items))
        ≡ seen (first_match entries needle seqno items) }
    ensures ordered { (snapshots : List ℕ) (bottom : List ℕ → Bool) (items : List Entry)
        → IsOrdered entries items
        → IsOrdered entries (compacted (λ e. e) snapshots bottom items) }
{}

/// A compaction of one list among newer and older ones, as the levels of a store are, changes no
/// read of all of them together that it is to keep. Of a key that is not at the bottom the read
/// finds the same version, whatever the other lists have. Of one that is, a reader sees the same,
/// where no older list has the key, and no newer list an older version of a key than this one.
pub fn levels_keep_reads()
    ensures above { (snapshots : List ℕ) (bottom : List ℕ → Bool) (needle : List ℕ) (seqno : ℕ)
        (newer : List (List Entry)) (items : List Entry) (older : List (List Entry))
        → IsKeptRead snapshots seqno
        → AllByRecursion (IsOrdered entries) (newer ++ items ∷ older)
        → bottom needle ≡ false
        → first_match entries needle seqno (merged entry_cmp
        (newer ++ compacted (λ e. e) snapshots bottom items ∷ older))
        ≡ first_match entries needle seqno (merged entry_cmp (newer ++ items ∷ older)) }
    ensures reads { (snapshots : List ℕ) (bottom : List ℕ → Bool) (needle : List ℕ) (seqno : ℕ)
        (newer : List (List Entry)) (items : List Entry) (older : List (List Entry))
        → IsKeptRead snapshots seqno
        → AllByRecursion (IsOrdered entries) (newer ++ items ∷ older)
        → AllByRecursion (λ n. IsAbove n items) newer
        → (bottom needle ≡ true → AllByRecursion (HasNone needle) older)
        → seen (first_match entries needle seqno (merged entry_cmp
        (newer ++ compacted (λ e. e) snapshots bottom items ∷ older)))
        ≡ seen (first_match entries needle seqno (merged entry_cmp (newer ++ items ∷ older))) }
{}

/// A key outside the ranges of the older tables is in none of them, so it is at the bottom.
pub fn keys_outside_the_ranges_are_in_no_table()
    ensures { (ranges : List (List ℕ × List ℕ)) (needle : List ℕ) (older : List Entry)
        → AreWithin ranges older → is_outside ranges needle ≡ true → HasNone needle older }
{}

/// What a snapshot has of an ordered list, said by each version and those before it: it is below
/// the snapshot's sequence number, no version of its key before it is, and it is no tombstone.
pub fn snapshot_shows()
    ensures { (seqno : ℕ) (items : List Entry) → IsOrdered entries items
        → snapshot (λ e. e) seqno items ≡ shown (λ e. e) seqno items }
{}

/// What a compaction leaves of an ordered list, said by each version, those before it and those
/// after it: no snapshot sees it; or one sees it that sees no version of its key before it, and it
/// is no tombstone at the bottom, or a snapshot sees a version of its key after it and not it.
pub fn compaction_leaves()
    ensures { (snapshots : List ℕ) (bottom : List ℕ → Bool) (items : List Entry)
        → IsOrdered entries items
        → compacted (λ e. e) snapshots bottom items ≡ staying (λ e. e) snapshots bottom items }
{}

/// A merge of ordered lists from the last item to the first is the merge of the lists from the
/// back, the last list first, in the opposite order.
pub fn merge_is_reversed()
    ensures { (lists : List (List Entry)) → AllByRecursion (IsOrdered entries) lists
        → merged (flip_args entry_cmp) (reverse (map reverse lists))
        ≡ reverse (merged entry_cmp lists) }
{}

/// Where what is left of a scan is read, as it is of a sound run (`Scan::new`), its entries are
/// known.
pub fn scan_is_known()
    ensures { (items : List Entry) → known_reads (map Ok items) ≡ Some items }
{}

/// The list of a table over the bytes of a sound run is known, so that its ends may be moved: it is
/// the run's entries, as decoded, and reading it gives no error.
pub fn sound_table_is_known()
    ensures { (c : Hashes) (blocks : List (List Entry)) (bytes : List ℕ) (h : RunHandles)
        (index : List Handle) → ((xs : List ℕ) → c.hash128 xs < 2 ^ 128)
        → IsSound c blocks bytes h → handles_at c bytes h.index ≡ Ok index
        → (table_blocks c (Some bytes) index ≡ Some (map (map plain) blocks))
        × (table_errors c (Some bytes) index ≡ Some []) }
{
    data_check_is_by_stages();
    index_check_is_by_stages();
    data_block_is_read();
    index_block_is_read();
    first_match_of_plain();
}
