//! Laws of the definitions that contracts cite, those of bytes and blocks too. Each function does
//! nothing, and its contract is one law: a caller has it in its proof by calling the function.
ghost use Rattle.std.specs.Prelude.{◌≡◌, ℕ, ◌+◌, ◌<◌, ◌^◌, List, length, Ok};
ghost use Rattle.std.specs.List.{Contains};
ghost use Rattle.sst_base.specs.Bytes.{IsBytes};
ghost use Rattle.sstable_blocks.specs.Filter.{Filter, HasProbes, IsFilterOf, MayContain};
ghost use Rattle.sstable_blocks.specs.Filter.{filter_payload, filter_at};

pub use sst_base::laws::{
    block_type_is_read_again, block_type_was_written, bytes_are_equal, bytes_are_equal_in_order,
    equal_keys_compare_alike, fixed_number_was_written, frame_is_read_again,
    frame_takes_33_bytes_more, frame_was_written, handle_is_read_again, handle_was_written,
    header_is_read_again, header_takes_33_bytes, header_was_written, key_order_is_antisymmetric,
    key_order_is_transitive, key_sorts_before, keys_are_equal, value_type_is_read_again,
    value_type_was_written, varint_is_read_again, varint_meets_grammar, varint_was_written,
    varints_are_prefix_free, varints_are_unique, whole_frame_is_read_again,
    whole_frame_was_written,
};
pub use sst_block_core::laws::{
    answers_go_on, back_step_takes_the_last, back_walk_is_cheap, block_is_read, block_is_unique,
    bucket_counts_arise, bucket_grows, bucket_names_an_interval, check_is_exact,
    data_block_is_read, data_block_is_unique, data_check_accepts_encodings,
    data_check_is_by_stages, data_check_is_exact, entries_are_a_kind, first_match_of_plain,
    forms_stage, forms_stage_is_body, free_bucket_has_no_item, front_step_takes_the_first,
    handles_are_a_kind, index_back_step_takes_the_last, index_block_is_read, index_block_is_unique,
    index_check_accepts_encodings, index_check_is_by_stages, index_check_is_exact,
    index_front_step_takes_the_first, index_walk_goes_on, index_window_is_given, passing_is_block,
    read_again, read_was_written, walk_goes_on, window_is_given,
};

/// A filter is read again from its payload.
pub fn filter_is_read_again()
    ensures { (f : Filter) → HasProbes f → f.m < 2 ^ 64
        → filter_at (filter_payload f) ≡ Ok f }
{}

/// Where a filter is read, the bytes are its payload, and its numbers are right.
pub fn filter_was_written()
    ensures { (bytes : List ℕ) (f : Filter) → IsBytes bytes → filter_at bytes ≡ Ok f
        → (bytes ≡ filter_payload f) × HasProbes f }
{}

/// The payload of a filter takes 22 bytes more than its bits.
pub fn filter_takes_22_bytes_more()
    ensures { (f : Filter) → length (filter_payload f) ≡ 22 + length f.bits }
{}

/// An inserted hash is never hidden: the bit of each of its probes is set.
pub fn inserted_hash_is_not_hidden()
    ensures { (hashes : List ℕ) (f : Filter) (hash : ℕ) → IsFilterOf hashes f
        → Contains hashes hash → MayContain f hash }
{}

/// The inserted hashes decide every bit of a filter.
pub fn filter_is_unique()
    ensures { (hashes : List ℕ) (f g : Filter) → IsFilterOf hashes f → IsFilterOf hashes g
        → IsBytes f.bits → IsBytes g.bits → f.m ≡ g.m → f.k ≡ g.k → f ≡ g }
{}
