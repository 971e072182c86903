//! Laws of parted tables. Each function does nothing, and its contract is one law: a caller has it
//! in its proof by calling the function.
ghost use Rattle.std.specs.Prelude.{◌≡◌, ◌++◌, ◌<◌, ◌^◌, ℕ, List, None, Ok, Option, map};
ghost use Rattle.std.specs.Prelude.{Some, false, slice_get, true};
ghost use Rattle.std.specs.List.{AllByRecursion, AllZip};
ghost use Rattle.std.specs.Option.{option_map};
ghost use Rattle.sst_parts.specs.declared.checking.PartedSummary.{PartedSummary};
ghost use Rattle.sst_parts.specs.AnyTables.{is_parted_at};
ghost use Rattle.sst_parts.specs.PartChecks.{check_parted, summary_of_parts};
ghost use Rattle.sst_parts.specs.PartFinds.{FoundPart, IsReadIndex};
ghost use Rattle.sst_parts.specs.PartReaders.{read_open_by_top};
ghost use Rattle.sst_parts.specs.PartCopies.{CopiedTable, IsCopiedTable, IsCopiesLayout};
ghost use Rattle.sst_parts.specs.PartCopies.{IsPartFrom, IsPartOfTable, copied_parts};
ghost use Rattle.sst_parts.specs.PartCopies.{parts_of_tables, sources_of};
ghost use Rattle.sst_parts.specs.PartMerges.{IsPartBytes};
ghost use Rattle.sst_parts.specs.Parts.{IsParted, IsStoredPart, read_by_top, tops_at};
ghost use Rattle.sst_parts.specs.Parts.{tops_by_footer};
ghost use Rattle.sst_parts.specs.PartScans.{parts_read};
ghost use Rattle.sst_parts.specs.RefScans.{IsScannedPart};
ghost use Rattle.sst_parts.specs.StoredParts.{IsKnownParted, parted_list};
ghost use Rattle.sst_parts.specs.PartWriting.{IsPartedFile, IsPartedLayout};
ghost use Rattle.sstable_blocks.specs.Blocks.{joined};
ghost use Rattle.sstable_blocks.specs.Lookup.{IsEnd, first_in, handle_for, place_for};
ghost use Rattle.sst_parts.specs.declared.closed.PartOrigin.{PartOrigin};
ghost use Rattle.sstable_blocks.specs.Opened.{range_of};
ghost use Rattle.sstable_blocks.specs.RunPlaces.{part_in};
ghost use Rattle.sstable_blocks.specs.Prelude.{IsBytes, HandleParts, Entry, plain, entries, Handle};
ghost use Rattle.sstable_blocks.specs.Prelude.{handles, IsOrdered, first_match};
ghost use Rattle.sstable_blocks.specs.Run.{Form};
ghost use Rattle.sstable_blocks.specs.RunReading.{Hashes, hashes};
ghost use Rattle.sstable_blocks.specs.Scans.{KeyRange, handles_within, within};
ghost use Rattle.sstable_blocks.specs.Sound.{IsSound};
ghost use Rattle.sstable_blocks.specs.declared.run.RunHandles.{RunHandles};

use sstable_blocks::laws::{
    index_block_is_read, index_check_accepts_encodings, index_check_is_by_stages,
};
use sstable_blocks::run::laws::{
    accepted_run_is_sound, first_match_is_in_one_block, layout_is_sound, sound_is_read,
    sound_is_scanned, sound_run_is_accepted, sound_run_is_read,
};
use sstable_blocks::table::block::BlockItem;
use sstable_blocks::{InternalValue, KeyedBlockHandle};

/// The first match of an ordered list in parts of blocks is that of the one part at which a search
/// by key and sequence number over the ends of the parts stops, and there is none where it passes
/// over all: so versions of one key may go on over any number of parts.
pub fn first_match_is_in_one_part<T: BlockItem, E: BlockItem>()
    ensures { (needle : List ℕ) (seqno : ℕ) (parts : List (List (List T))) (ends : List E)
        → AllZip (λ part h. IsEnd T.kind E.kind (joined part) h) parts ends
        → IsOrdered T.kind (joined (joined parts))
        → first_match T.kind needle seqno (joined (joined parts))
        ≡ first_in T.kind needle seqno
        (option_map joined (slice_get parts (place_for E.kind needle seqno ends))) }
{
    first_match_is_in_one_block::<T, E>();
}

/// A checked read of a parted table by the handles of its parts gives the first match of the
/// entries of all parts.
pub fn parted_is_read()
    ensures { (c : Hashes) (parts : List (List (List Entry))) (bytes : List ℕ) (top : HandleParts)
        (tops : List Handle) (needle : List ℕ) (seqno : ℕ)
        → ((xs : List ℕ) → c.hash128 xs < 2 ^ 128) → IsParted c parts bytes top
        → tops_at c bytes top ≡ Ok tops
        → read_by_top c bytes (handle_for handles needle seqno tops) needle seqno
        ≡ Ok (first_match entries needle seqno (joined (joined parts))) }
{
    index_check_is_by_stages();
    index_block_is_read();
    sound_is_read();
    first_match_is_in_one_part::<InternalValue, KeyedBlockHandle>();
}

/// The parts of a parted table that can have a key in a range, by the index of the parts alone, are
/// read as the entries of all parts in the range.
pub fn parted_is_scanned()
    ensures { (c : Hashes) (parts : List (List (List Entry))) (bytes : List ℕ) (top : HandleParts)
        (tops : List Handle) (r : KeyRange)
        → ((xs : List ℕ) → c.hash128 xs < 2 ^ 128) → IsParted c parts bytes top
        → tops_at c bytes top ≡ Ok tops
        → parts_read c bytes r (handles_within r tops)
        ≡ map Ok (within r (map plain (joined (joined parts)))) }
{
    index_check_is_by_stages();
    index_block_is_read();
    sound_run_is_read();
    sound_is_scanned();
}

/// The part of each handle of a parted table is stored in its range, and is read as its entries in a
/// range of keys.
pub fn parted_parts_are_scanned()
    ensures { (c : Hashes) (parts : List (List (List Entry))) (bytes : List ℕ) (top : HandleParts)
        (tops : List Handle) (r : KeyRange) (i : ℕ) (h : Handle)
        → ((xs : List ℕ) → c.hash128 xs < 2 ^ 128) → IsParted c parts bytes top
        → tops_at c bytes top ≡ Ok tops → slice_get tops i ≡ Some h
        → IsScannedPart c bytes r h }
{
    index_check_is_by_stages();
    index_block_is_read();
    sound_run_is_read();
    sound_is_scanned();
}

/// The parts of a parted table are stored where its handles name them.
pub fn parted_parts_are_stored()
    ensures { (c : Hashes) (parts : List (List (List Entry))) (bytes : List ℕ) (top : HandleParts)
        (tops : List Handle)
        → ((xs : List ℕ) → c.hash128 xs < 2 ^ 128) → IsParted c parts bytes top
        → tops_at c bytes top ≡ Ok tops → AllZip (IsStoredPart c bytes) parts tops }
{
    index_check_is_by_stages();
    index_block_is_read();
}

/// The bytes of a stored part are a table file of its own, which is read as its entries.
pub fn stored_part_is_read()
    ensures { (c : Hashes) (bytes : List ℕ) (part : List (List Entry)) (h : Handle)
        → ((xs : List ℕ) → c.hash128 xs < 2 ^ 128) → IsStoredPart c bytes part h
        → IsPartBytes c (part_in bytes (range_of h)) part h }
{
    index_check_is_by_stages();
    index_block_is_read();
    sound_run_is_read();
    sound_is_scanned();
}

/// Bytes that the check of a parted table accepts are a parted table, of whose parts it returns the
/// summary.
pub fn accepted_parted_is_sound()
    ensures { (c : Hashes) (bytes : List ℕ) (top : HandleParts) (s : PartedSummary)
        → IsBytes bytes → top.size < 2 ^ 32 → check_parted c bytes top ≡ Ok s
        → (parts : List (List (List Entry))) × IsParted c parts bytes top
        × (s ≡ summary_of_parts parts) }
{
    index_check_accepts_encodings();
    accepted_run_is_sound();
}

/// The check of a parted table accepts each parted table.
pub fn parted_is_accepted()
    ensures { (c : Hashes) (parts : List (List (List Entry))) (bytes : List ℕ) (top : HandleParts)
        → ((xs : List ℕ) → c.hash128 xs < 2 ^ 128) → IsParted c parts bytes top
        → check_parted c bytes top ≡ Ok (summary_of_parts parts) }
{
    index_check_is_by_stages();
    index_block_is_read();
    sound_run_is_accepted();
}

/// A read of a parted table of whose parts one stays open gives the first match of the entries of
/// all parts: the part that can hold it opens.
pub fn open_part_is_read()
    ensures { (c : Hashes) (parts : List (List (List Entry))) (bytes : List ℕ) (top : HandleParts)
        (tops : List Handle) (needle : List ℕ) (seqno : ℕ)
        → ((xs : List ℕ) → c.hash128 xs < 2 ^ 128) → IsParted c parts bytes top
        → tops_at c bytes top ≡ Ok tops
        → read_open_by_top c bytes (handle_for handles needle seqno tops) needle seqno
        ≡ Ok (first_match entries needle seqno (joined (joined parts))) }
{
    index_check_is_by_stages();
    index_block_is_read();
    sound_is_read();
    first_match_is_in_one_part::<InternalValue, KeyedBlockHandle>();
}

/// The index of the parts of a parted table lies where its handle says, and is read.
pub fn parted_index_is_read()
    ensures { (c : Hashes) (parts : List (List (List Entry))) (bytes : List ℕ) (top : HandleParts)
        → ((xs : List ℕ) → c.hash128 xs < 2 ^ 128) → IsParted c parts bytes top
        → IsReadIndex c bytes top }
{
    index_check_is_by_stages();
    index_block_is_read();
}

/// The first match of a parted table is that of the one part at which a search by key and sequence
/// number over the handles of the parts stops, and there is none where it passes over all.
pub fn parted_is_found()
    ensures { (c : Hashes) (parts : List (List (List Entry))) (bytes : List ℕ) (top : HandleParts)
        (tops : List Handle) (needle : List ℕ) (seqno : ℕ)
        → ((xs : List ℕ) → c.hash128 xs < 2 ^ 128) → IsParted c parts bytes top
        → tops_at c bytes top ≡ Ok tops
        → FoundPart c bytes needle seqno
        (first_match entries needle seqno (joined (joined parts)))
        (handle_for handles needle seqno tops) }
{
    index_check_is_by_stages();
    index_block_is_read();
    first_match_is_in_one_part::<InternalValue, KeyedBlockHandle>();
}

/// The layout of a parted table, as [`PartWriter`](crate::PartWriter) writes it, is the file of a
/// parted table of these parts.
pub fn parted_layout_is_parted()
    ensures { (f : Form) (parts : List (List (List Entry))) (bytes : List ℕ) (top : HandleParts)
        → IsPartedLayout f parts bytes top
        → IsPartedFile (hashes f.hash64 f.hash128) parts bytes top }
{
    layout_is_sound();
}

/// The layout of a parted table, as [`PartCopier`](crate::PartCopier) writes it, is the file of a
/// parted table wherever the bytes that were copied are parts and all entries are ordered: of the
/// parts that were made of blocks, and of those copied.
pub fn copied_layout_is_parted()
    ensures { (f : Form) (closed : List PartOrigin) (parts : List (List (List Entry)))
        (bytes : List ℕ) (top : HandleParts) → IsCopiesLayout f closed bytes top
        → AllZip (IsPartFrom (hashes f.hash64 f.hash128)) parts closed
        → IsOrdered entries (joined (joined parts))
        → IsPartedFile (hashes f.hash64 f.hash128) parts bytes top }
{
    layout_is_sound();
}

/// The bytes that a handle names in the bytes of a parted table hold its part alone.
pub fn part_is_cut()
    ensures { (c : Hashes) (bytes : List ℕ) (part : List (List Entry)) (h : Handle)
        → IsStoredPart c bytes part h
        → IsStoredPart c (part_in bytes (range_of h)) part (record h { offset = 0 }) }
{}

/// Parts of parted tables that are copied one after the other are a parted table of these parts,
/// wherever their entries are ordered.
pub fn copied_parts_are_parted()
    ensures { (f : Form) (sources : List (List ℕ × Handle)) (parts : List (List (List Entry)))
        (bytes : List ℕ) (top : HandleParts)
        → AllZip (IsPartOfTable (hashes f.hash64 f.hash128)) parts sources
        → IsOrdered entries (joined (joined parts))
        → IsCopiesLayout f (copied_parts sources) bytes top
        → IsPartedFile (hashes f.hash64 f.hash128) parts bytes top }
{
    copied_layout_is_parted();
}

/// Parted tables, each ordered after the one before, whose parts are copied one after the other,
/// are a parted table of all their parts.
pub fn copied_tables_are_parted()
    ensures { (f : Form) (tables : List CopiedTable) (bytes : List ℕ) (top : HandleParts)
        → ((xs : List ℕ) → f.hash128 xs < 2 ^ 128)
        → AllByRecursion (IsCopiedTable (hashes f.hash64 f.hash128)) tables
        → IsOrdered entries (joined (joined (parts_of_tables tables)))
        → IsCopiesLayout f (copied_parts (sources_of tables)) bytes top
        → IsPartedFile (hashes f.hash64 f.hash128) (parts_of_tables tables) bytes top }
{
    index_check_is_by_stages();
    index_block_is_read();
    copied_parts_are_parted();
}

/// The file of a parted table is opened by its footer: the index of its parts is read, and a read
/// by it is that of [`parted_is_read`].
pub fn parted_file_opens()
    ensures { (c : Hashes) (parts : List (List (List Entry))) (bytes : List ℕ) (top : HandleParts)
        → ((xs : List ℕ) → c.hash128 xs < 2 ^ 128) → IsPartedFile c parts bytes top
        → (tops : List Handle) × (tops_by_footer c bytes ≡ Ok (top, tops))
        × (tops_at c bytes top ≡ Ok tops) }
{
    index_check_is_by_stages();
    index_block_is_read();
}

/// A sound run is told as plain, and a parted table as one: so
/// [`AnyTable::open`](crate::AnyTable::open) opens each as what it is.
pub fn kind_is_told()
    ensures plain { (c : Hashes) (blocks : List (List Entry)) (bytes : List ℕ) (h : RunHandles)
        → IsSound c blocks bytes h → is_parted_at c bytes h.index ≡ Ok false }
    ensures parted { (c : Hashes) (parts : List (List (List Entry))) (bytes : List ℕ)
        (top : HandleParts) → IsParted c parts bytes top → is_parted_at c bytes top ≡ Ok true }
{}

/// The entries of a parted table are known to readers and sources of `sst_sources`: they are those of
/// its parts, as decoded. And where entries of bytes are known, these are a parted table of them.
pub fn parted_is_known()
    ensures known { (c : Hashes) (parts : List (List (List Entry))) (bytes : List ℕ)
        (top : HandleParts) (tops : List Handle) → ((xs : List ℕ) → c.hash128 xs < 2 ^ 128)
        → IsBytes bytes → IsParted c parts bytes top → tops_at c bytes top ≡ Ok tops
        → parted_list c (Some bytes) top tops ≡ Some (map plain (joined (joined parts))) }
    ensures parted { (c : Hashes) (bytes : List ℕ) (top : HandleParts) (tops : List Handle)
        (xs : List Entry) → ((ys : List ℕ) → c.hash128 ys < 2 ^ 128)
        → tops_at c bytes top ≡ Ok tops → parted_list c (Some bytes) top tops ≡ Some xs
        → IsKnownParted c bytes top xs }
{
    accepted_parted_is_sound();
    parted_is_accepted();
    parted_is_scanned();
}
