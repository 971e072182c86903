//! Which user keys are at the bottom: of them no older version is elsewhere.
ghost use Rattle.std.specs.Prelude.{◌≡◌, ℕ, Bool, List};

use crate::ranged::is_between;
use sstable_blocks::UserKey;

/// Says which user keys are at the bottom: in no list that is read together with the compacted one
/// is an older version of the key.
pub trait Bottom {
    // Is a user key at the bottom?
    ghost at_bottom: { Self → List ℕ → Bool };

    /// Returns whether a user key is at the bottom.
    fn is_bottom(&self, user_key: &[u8]) -> bool
        ensures { result ≡ at_bottom self.now user_key.now };
}

/// All keys are at the bottom, or none.
impl Bottom for bool {
    ghost at_bottom = { λ b _. b };

    fn is_bottom(&self, _user_key: &[u8]) -> bool {
        *self
    }
}

/// Ranges of user keys, of each its first and its last key, in which all versions are that are
/// older than those of the compacted list. A key outside of all is at the bottom (the law
/// `keys_outside_the_ranges_are_in_no_table`).
#[derive(Drop)]
pub struct OlderRanges {
    pub ranges: Vec<(UserKey, UserKey)>,
}

impl Bottom for OlderRanges {
    ghost use Rattle.sst_merge.specs.Levels.{is_outside};

    ghost at_bottom = { λ older. is_outside older.ranges.items };

    fn is_bottom(&self, user_key: &[u8]) -> bool {
        for range in &self.ranges {
            if is_between(&range.0, &range.1, user_key) {
                return false;
            }
        }
        true
    }
}
