//! Test vectors: small theorems that compute. Each function does nothing, and its contract is one
//! vector.
ghost use Rattle.std.specs.Prelude.{◌≡◌, None, Some, [], ◌∷◌};
ghost use Rattle.std.specs.Prelude.{length, take};
ghost use Rattle.std.specs.Prelude.{drop, sum, slice_set, true, false, map, replicate, Ok, Err};
ghost use Rattle.sst_base.specs.Entry.{plain};
ghost use Rattle.sst_base.specs.declared.error.Error.TheVariants.{Truncated, BadTrailer, BadEntry};
ghost use Rattle.sst_base.specs.declared.error.Error.TheVariants.{OutOfOrder, BadIndex};
ghost use Rattle.sst_base.specs.declared.error.Error.TheVariants.{BadHashIndex};
ghost use Rattle.sst_base.specs.declared.error.Error.TheVariants.{BadHandle};
ghost use Rattle.sst_block_core.specs.Checks.{data_check, index_check};
ghost use Rattle.sst_tests.specs.Vectors.{ac, far_handle_block, short_prefix_block};
ghost use Rattle.sst_block_core.specs.Body.{body};
ghost use Rattle.sst_block_core.specs.Trailer.{trailer_in};
ghost use Rattle.sst_block_core.specs.Buckets.{bucket_byte, bucket_count};
ghost use Rattle.sst_block_core.specs.Stages.{HasTrailer, HasParts, HasForms, HasOrder};
ghost use Rattle.sst_block_core.specs.Stages.{HasPointers, HasBuckets};
ghost use Rattle.sst_block_core.specs.Entries.{entries, data_payload};
ghost use Rattle.sst_block_core.specs.Handles.{handles, index_payload};
ghost use Rattle.sst_block_core.specs.Window.{found, whole, answers, next, next_back, seek};
ghost use Rattle.sst_block_core.specs.Window.{seek_exclusive, seek_upper, seek_upper_exclusive};
ghost use Rattle.sst_block_core.specs.Window.{seek_to_offset, seek_index, seek_upper_index};
ghost use Rattle.sst_block_core.specs.Window.{seek_head, seek_upper_head, first_match};
ghost use Rattle.sst_tests.specs.Vectors.{put, deleted, handle, gives, nothing, is_below, a};
ghost use Rattle.sst_tests.specs.Vectors.{ab, b, c, d, e, x, z, zzz, bcdef, def, one_entry};
ghost use Rattle.sst_tests.specs.Vectors.{one_entry_block, truncated_pair};
ghost use Rattle.sst_tests.specs.Vectors.{truncated_pair_block, hash_pair_block};
ghost use Rattle.sst_tests.specs.Vectors.{largest_seqno, largest_seqno_body, long_value};
ghost use Rattle.sst_tests.specs.Vectors.{byte_keys, numbers, prefixes, prefixes_block};
ghost use Rattle.sst_tests.specs.Vectors.{letters, older, newer, falling, loose_block};
ghost use Rattle.sst_tests.specs.Vectors.{three_handles, three_handles_block_1};
ghost use Rattle.sst_tests.specs.Vectors.{three_handles_block_2, three_handles_block_3};
ghost use Rattle.sst_tests.specs.Vectors.{prefix_handles, prefix_handles_body, version_handles};

/// One entry at interval 1, and at interval 16, where byte 9 is `10` and the rest is equal.
pub fn one_entry()
    ensures at_1 { data_payload sum one_entry 1 0 ≡ one_entry_block }
    ensures at_16 { data_payload sum one_entry 16 0 ≡ slice_set one_entry_block 9 16 }
{}

/// Three entries at interval 2: the second is truncated and has no value. With three buckets at
/// intervals 2 and 1.
pub fn truncated_pair()
    ensures block { data_payload sum truncated_pair 2 0 ≡ truncated_pair_block }
    ensures hash_block { data_payload sum truncated_pair 2 3 ≡ hash_pair_block }
    ensures hash_at_1 { take 3 (drop 27 (data_payload sum truncated_pair 1 3))
        ≡ 255 ∷ 2 ∷ 254 ∷ [] }
{}

/// The largest sequence number takes ten bytes.
pub fn largest_seqno()
    ensures { body entries 1 largest_seqno ≡ largest_seqno_body }
{}

/// The pointers have 2 bytes where the last head is at offset 65535, and 4 where it is at 65536.
pub fn pointer_widths()
    ensures narrow { length (data_payload sum (long_value 65528) 1 0) ≡ 65576 }
    ensures narrow_pointers { take 4 (drop 65541 (data_payload sum (long_value 65528) 1 0))
        ≡ 0 ∷ 0 ∷ 255 ∷ 255 ∷ [] }
    ensures wide { length (data_payload sum (long_value 65529) 1 0) ≡ 65581 }
    ensures wide_pointers { take 8 (drop 65542 (data_payload sum (long_value 65529) 1 0))
        ≡ 0 ∷ 0 ∷ 0 ∷ 0 ∷ 0 ∷ 0 ∷ 1 ∷ 0 ∷ [] }
{}

/// With 254 heads the buckets are stored, with 255 they are not.
pub fn heads_254()
    ensures length { length (data_payload sum (byte_keys 1 254) 1 254) ≡ 2064 }
    ensures index_offset { (trailer_in (data_payload sum (byte_keys 1 254) 1 254)).index_offset
        ≡ 1271 }
    ensures hash_offset { (trailer_in (data_payload sum (byte_keys 1 254) 1 254)).hash_offset
        ≡ 1779 }
    ensures buckets { take 254 (drop 1779 (data_payload sum (byte_keys 1 254) 1 254))
        ≡ 253 ∷ numbers 0 253 }
    ensures more_length { length (data_payload sum (byte_keys 1 255) 1 255) ≡ 1817 }
    ensures more_index { (trailer_in (data_payload sum (byte_keys 1 255) 1 255)).index_offset
        ≡ 1276 }
    ensures more_hash { ((trailer_in (data_payload sum (byte_keys 1 255) 1 255)).hash_len ≡ 0)
        × ((trailer_in (data_payload sum (byte_keys 1 255) 1 255)).hash_offset ≡ 0) }
{}

/// The number of buckets, and the byte of a bucket for intervals that differ, for one, and for
/// none.
pub fn bucket_counts()
    ensures rounded { bucket_count 133 100 2 ≡ 2 }
    ensures at_least_one { bucket_count 1 1000000 1 ≡ 1 }
    ensures none { bucket_count 0 1 7 ≡ 0 }
    ensures five { bucket_count 133 100 4 ≡ 5 }
    ensures conflict { bucket_byte (5 ∷ 8 ∷ []) ≡ 255 }
    ensures same { bucket_byte (5 ∷ 5 ∷ []) ≡ 5 }
    ensures free { bucket_byte [] ≡ 254 }
{}

/// Keys a, ab, abc at interval 16: each shares a prefix with the head, not with the entry before
/// it.
pub fn prefixes()
    ensures block { data_payload sum prefixes 16 0 ≡ prefixes_block }
    ensures length { length prefixes_block ≡ 53 }
{}

/// Three handles at intervals 1, 2 and 3; and end keys a, ab, abc at interval 3.
pub fn three_handles()
    ensures at_1 { index_payload three_handles 1 ≡ three_handles_block_1 }
    ensures at_2 { index_payload three_handles 2 ≡ three_handles_block_2 }
    ensures at_3 { index_payload three_handles 3 ≡ three_handles_block_3 }
    ensures lengths { (length three_handles_block_1 ≡ 67) × (length three_handles_block_2 ≡ 65)
        × (length three_handles_block_3 ≡ 64) }
    ensures prefixes { body handles 3 prefix_handles ≡ prefix_handles_body }
{}

/// An unknown type byte, and a number encoded in a byte too many: the third stage fails, the stages
/// before it hold.
pub fn damaged_entry()
    ensures type_before { HasTrailer (slice_set one_entry_block 0 3)
        × HasParts (trailer_in (slice_set one_entry_block 0 3)) (slice_set one_entry_block 0 3) }
    ensures type_fails { HasForms entries (trailer_in (slice_set one_entry_block 0 3))
        (slice_set one_entry_block 0 3)
        → ⊥ }
    ensures loose_before { HasTrailer loose_block × HasParts (trailer_in loose_block) loose_block }
    ensures loose_fails { HasForms entries (trailer_in loose_block) loose_block → ⊥ }
{}

/// An interval of 0 fails the second stage, fewer than 31 bytes the first.
pub fn damaged_trailer()
    ensures interval_before { HasTrailer (slice_set one_entry_block 9 0) }
    ensures interval_fails { HasParts (trailer_in (slice_set one_entry_block 9 0))
        (slice_set one_entry_block 9 0)
        → ⊥ }
    ensures short_fails { HasTrailer (take 30 one_entry_block) → ⊥ }
{}

/// Entries out of order fail the fourth stage, and pass the stages before.
pub fn damaged_order()
    ensures trailer { HasTrailer (data_payload sum falling 1 0) }
    ensures parts { HasParts (trailer_in (data_payload sum falling 1 0))
        (data_payload sum falling 1 0) }
    ensures forms { HasForms entries (trailer_in (data_payload sum falling 1 0))
        (data_payload sum falling 1 0) }
    ensures fails { HasOrder entries (trailer_in (data_payload sum falling 1 0))
        (data_payload sum falling 1 0)
        → ⊥ }
{}

/// A pointer that is not the head's offset fails the fifth stage, and the block passes the stages
/// before.
pub fn damaged_pointer()
    ensures trailer { HasTrailer (slice_set one_entry_block 7 1) }
    ensures parts { HasParts (trailer_in (slice_set one_entry_block 7 1))
        (slice_set one_entry_block 7 1) }
    ensures forms { HasForms entries (trailer_in (slice_set one_entry_block 7 1))
        (slice_set one_entry_block 7 1) }
    ensures order { HasOrder entries (trailer_in (slice_set one_entry_block 7 1))
        (slice_set one_entry_block 7 1) }
    ensures fails { HasPointers entries (trailer_in (slice_set one_entry_block 7 1))
        (slice_set one_entry_block 7 1)
        → ⊥ }
{}

/// A bucket that gives an interval where no key of the bucket is fails the sixth stage, and the
/// block passes the stages before.
pub fn damaged_bucket()
    ensures trailer { HasTrailer (slice_set hash_pair_block 26 0) }
    ensures parts { HasParts (trailer_in (slice_set hash_pair_block 26 0))
        (slice_set hash_pair_block 26 0) }
    ensures forms { HasForms entries (trailer_in (slice_set hash_pair_block 26 0))
        (slice_set hash_pair_block 26 0) }
    ensures order { HasOrder entries (trailer_in (slice_set hash_pair_block 26 0))
        (slice_set hash_pair_block 26 0) }
    ensures pointers { HasPointers entries (trailer_in (slice_set hash_pair_block 26 0))
        (slice_set hash_pair_block 26 0) }
    ensures fails { HasBuckets entries sum (trailer_in (slice_set hash_pair_block 26 0))
        (slice_set hash_pair_block 26 0)
        → ⊥ }
{}

/// The check of blocks returns their entries.
pub fn checked_blocks()
    ensures whole { data_check sum one_entry_block ≡ Ok one_entry }
    ensures buckets { data_check sum hash_pair_block ≡ Ok (map plain truncated_pair) }
{}

/// The check of bytes that are too short for a block, or all zero.
pub fn checked_stumps()
    ensures short { data_check sum (take 30 one_entry_block) ≡ Err Truncated }
    ensures nothing { data_check sum [] ≡ Err Truncated }
    ensures zeros { data_check sum (replicate 31 0) ≡ Err BadTrailer }
{}

/// The check of damaged blocks reports the first stage that fails.
pub fn checked_damage()
    ensures value_type { data_check sum (slice_set one_entry_block 0 3) ≡ Err BadEntry }
    ensures interval { data_check sum (slice_set one_entry_block 9 0) ≡ Err BadTrailer }
    ensures pointer { data_check sum (slice_set one_entry_block 7 1) ≡ Err BadIndex }
    ensures loose { data_check sum loose_block ≡ Err BadEntry }
    ensures bucket { data_check sum (slice_set hash_pair_block 26 0) ≡ Err BadHashIndex }
    ensures order { data_check sum (data_payload sum falling 1 0) ≡ Err OutOfOrder }
{}

/// The block of three entries with one byte of a form changed.
pub fn hostile_entries()
    ensures seqno_above { data_check sum (slice_set truncated_pair_block 8 3) ≡ Err OutOfOrder }
    ensures seqno_same { data_check sum (slice_set truncated_pair_block 8 2)
        ≡ Ok (put ab x 2 ∷ deleted ab [] 2 ∷ put ac (121 ∷ []) 300 ∷ []) }
    ensures shares_less { data_check sum (slice_set truncated_pair_block 9 1) ≡ Err OutOfOrder }
    ensures shares_more { data_check sum (slice_set truncated_pair_block 9 3) ≡ Err BadEntry }
    ensures loose { data_check sum (slice_set truncated_pair_block 13 0) ≡ Err BadEntry }
{}

/// The block of three entries with one byte changed after the forms.
pub fn hostile_trailers()
    ensures pointer { data_check sum (slice_set truncated_pair_block 22 12) ≡ Err BadIndex }
    ensures interval { data_check sum (slice_set truncated_pair_block 24 3) ≡ Err BadTrailer }
    ensures width { data_check sum (slice_set truncated_pair_block 25 4) ≡ Err BadTrailer }
    ensures fourth { data_check sum (slice_set truncated_pair_block 51 4) ≡ Err BadEntry }
    ensures fifth { data_check sum (slice_set truncated_pair_block 51 5) ≡ Err BadTrailer }
{}

/// Index blocks: an end beyond 64 bits, an unknown marker, a shared length that is not the
/// longest, and any interval but 0.
pub fn hostile_handles()
    ensures far { index_check far_handle_block ≡ Err BadHandle }
    ensures near { index_check (slice_set far_handle_block 11 0)
        ≡ Ok (handle a 0 18446744073709551615 0 ∷ []) }
    ensures marker { index_check (slice_set (slice_set far_handle_block 11 0) 0 1)
        ≡ Err BadEntry }
    ensures at_2 { index_check three_handles_block_2 ≡ Ok three_handles }
    ensures at_0 { index_check (slice_set three_handles_block_2 35 0) ≡ Err BadTrailer }
    ensures prefix { index_check short_prefix_block ≡ Err BadEntry }
{}

/// Keys a to e: a bound after the upper one empties the window, and a wider upper bound opens it
/// again.
pub fn upper_and_past_seek()
    ensures { answers
        (seek_upper entries b ∷ seek entries d ∷ next ∷ seek_upper entries z ∷ next
        ∷ next_back ∷ next ∷ []) (whole letters)
        ≡ found true ∷ found false ∷ nothing ∷ found false ∷ gives (put d [] 0)
        ∷ gives (put e [] 0) ∷ nothing ∷ [] }
{}

/// Keys a to e: a seek moves the front back after some entries were taken.
pub fn seek_back_after_next()
    ensures { answers (next ∷ next ∷ next ∷ seek entries a ∷ next ∷ next_back ∷ [])
        (whole letters)
        ≡ gives (put a [] 0) ∷ gives (put b [] 0) ∷ gives (put c [] 0) ∷ found true
        ∷ gives (put a [] 0) ∷ gives (put e [] 0) ∷ [] }
{}

/// Both ends meet, and no item is returned twice.
pub fn both_ends()
    ensures two { answers (next_back ∷ next ∷ []) (whole (older ∷ newer ∷ []))
        ≡ gives newer ∷ gives older ∷ [] }
    ensures five { answers
        (next ∷ next_back ∷ next ∷ next_back ∷ next ∷ next_back ∷ next ∷ [])
        (whole letters)
        ≡ gives (put a [] 0) ∷ gives (put e [] 0) ∷ gives (put b [] 0) ∷ gives (put d [] 0)
        ∷ gives (put c [] 0) ∷ nothing ∷ nothing ∷ [] }
    ensures upper_behind { answers
        (next_back ∷ seek_upper entries z ∷ next_back ∷ seek entries e ∷ next ∷ [])
        (whole letters)
        ≡ gives (put e [] 0) ∷ found false ∷ gives (put e [] 0) ∷ found false ∷ nothing
        ∷ [] }
    ensures exclusive { answers
        (seek_exclusive entries b ∷ seek_upper_exclusive entries d ∷ next ∷ next ∷ next_back
        ∷ seek_to_offset entries 2 11 ∷ next ∷ []) (whole letters)
        ≡ found true ∷ found true ∷ gives (put c [] 0) ∷ nothing ∷ nothing ∷ found true
        ∷ gives (put c [] 0) ∷ [] }
    ensures emptied { answers
        (next ∷ seek_upper_exclusive entries a ∷ next ∷ seek_upper entries c ∷ next_back
        ∷ next ∷ []) (whole letters)
        ≡ gives (put a [] 0) ∷ found false ∷ nothing ∷ found true ∷ gives (put c [] 0)
        ∷ gives (put b [] 0) ∷ [] }
{}

/// Handles (a, 3), (a, 1), (b, 4), then b, bcdef, def: a seek finds the first handle that can hold
/// a version of the needle below the sequence number; an upper bound keeps one handle more; a seek
/// that returns false empties only the front.
pub fn handle_seeks()
    ensures all { answers (seek_index handles a 4 ∷ next ∷ next ∷ next ∷ next ∷ [])
        (whole version_handles)
        ≡ found true ∷ gives (handle a 3 0 73) ∷ gives (handle a 1 73 73)
        ∷ gives (handle b 4 146 73) ∷ nothing ∷ [] }
    ensures two { answers (seek_index handles a 3 ∷ next ∷ next ∷ next ∷ [])
        (whole version_handles)
        ≡ found true ∷ gives (handle a 1 73 73) ∷ gives (handle b 4 146 73) ∷ nothing
        ∷ [] }
    ensures one { answers (seek_index handles a 1 ∷ next ∷ next ∷ []) (whole version_handles)
        ≡ found true ∷ gives (handle b 4 146 73) ∷ nothing ∷ [] }
    ensures zero { answers (seek_index handles a 0 ∷ next ∷ next ∷ []) (whole version_handles)
        ≡ found true ∷ gives (handle b 4 146 73) ∷ nothing ∷ [] }
    ensures upper { answers (seek_upper_index handles b ∷ next ∷ next ∷ next ∷ [])
        (whole three_handles)
        ≡ found true ∷ gives (handle b 0 0 6000) ∷ gives (handle bcdef 0 6000 7000)
        ∷ nothing ∷ [] }
    ensures past { answers
        (seek_index handles zzz 0 ∷ next ∷ next_back ∷ seek_index handles b 1 ∷ next_back
        ∷ []) (whole three_handles)
        ≡ found false ∷ nothing ∷ nothing ∷ found true ∷ gives (handle def 0 13000 5000)
        ∷ [] }
{}

/// Keys a to e at interval 2, so the heads are a, c and e: the head that a predicate picks, in both
/// forms.
pub fn picked_heads()
    ensures below_c { answers (seek_head entries 2 (is_below c) false ∷ next ∷ [])
        (whole letters)
        ≡ found true ∷ gives (put a [] 0) ∷ [] }
    ensures from_c { answers (seek_head entries 2 (is_below c) true ∷ next ∷ []) (whole letters)
        ≡ found true ∷ gives (put c [] 0) ∷ [] }
    ensures below_z { answers (seek_head entries 2 (is_below z) false ∷ next ∷ [])
        (whole letters)
        ≡ found true ∷ gives (put e [] 0) ∷ [] }
    ensures from_z { answers (seek_head entries 2 (is_below z) true ∷ next ∷ []) (whole letters)
        ≡ found true ∷ gives (put e [] 0) ∷ [] }
    ensures never { answers (seek_head entries 2 (is_below []) true ∷ next ∷ []) (whole letters)
        ≡ found true ∷ gives (put a [] 0) ∷ [] }
    ensures past_all { answers (seek_head entries 1 (is_below z) true ∷ next ∷ [])
        (whole letters)
        ≡ found false ∷ nothing ∷ [] }
    ensures upper { answers (seek_upper_head entries 2 (is_below c) true ∷ next_back ∷ [])
        (whole letters)
        ≡ found true ∷ gives (put d [] 0) ∷ [] }
{}

/// The newest version of a key strictly below a sequence number, without a tombstone's value.
pub fn first_matches()
    ensures newest { first_match entries ab 3 truncated_pair ≡ Some (put ab x 2) }
    ensures older { first_match entries ab 2 truncated_pair ≡ Some (deleted ab [] 1) }
    ensures oldest { first_match entries ab 1 truncated_pair ≡ None }
    ensures absent { first_match entries c 5 truncated_pair ≡ None }
    ensures largest { first_match entries a 18446744073709551615 largest_seqno ≡ None }
{}
