//! The check of a block's payload, stage by stage.
ghost use Rattle.std.specs.Prelude.{◌≡◌, ◌↔◌, ℕ, ◌-◌, ◌≤◌, List, length};
ghost use Rattle.std.specs.Prelude.{drop, IfSome, IsTrue};
ghost use Rattle.sst_base.specs.declared.error.Error.{Error};
ghost use Rattle.sst_block_core.specs.Found.{Finds, IsRange, range_bytes};
ghost use Rattle.sst_block_core.specs.KeyRanges.{key_by, IsKeyRanges};

pub mod buckets;
mod joined_key;
pub mod keys;
pub mod parts;
pub mod pass;
pub(crate) mod tally;
pub mod truncation;

use crate::table::block::{Decodable, ParsedItem};
use keys::KeyRanges;
use sst_base::Error;
use sst_base::table::util::SliceIndexes;

/// Items whose forms can be checked.
pub trait Checkable<Parsed: ParsedItem<Self>>: Decodable<Parsed> {
    /// What the check requires of an item beyond its form.
    ghost fits: { Self → Type 0 };

    /// The error for an item that does not fit.
    ghost unfit: { Error };

    /// Returns whether an item is what the check requires beyond its form.
    fn fits(item: &Parsed) -> bool
        ensures { (payload : List ℕ) → IsTrue result
            ↔ fits (Parsed.item_of payload item.now) };

    /// Returns the error for an item that does not fit.
    fn unfit() -> Error
        ensures { result ≡ unfit };

    /// Returns the ranges of an item's key.
    fn key_ranges(item: &Parsed) -> KeyRanges
        ensures inside { (payload : List ℕ) → Parsed.is_found payload item.now
            → IsKeyRanges payload result }
        ensures key { (payload : List ℕ)
            → Self.kind.key (Parsed.item_of payload item.now) ≡ key_by payload result }
        ensures prefix { result.prefix.1 - result.prefix.0 ≡ Parsed.shared_len item.now };

    /// Decodes the item in truncated form at an offset, after a head with this key; the second
    /// result is where the form ends. Returns `None` wherever no truncated form is encoded, also
    /// where the shared prefix is not the longest.
    fn parse_exactly(payload: &[u8], offset: usize, base: &SliceIndexes) -> Option<(Parsed, usize)>
        requires inside { offset ≤ length payload.now }
        requires base { IsRange payload.now base.now }
        ensures exact { Finds (Parsed.item_of payload.now) payload.now result
            (Self.kind.truncated_at (range_bytes payload.now base.now) (drop offset payload.now)) }
        ensures found { IfSome result (λ f. Parsed.is_found payload.now f.0) };
}
