//! Counters of heads and entries.
ghost use Rattle.sst_base.specs.Counted.{Counted, IsZero, CountsExactly};

use crate::ghost_state::count::Count;
use std::marker::Model;

/// The numbers of heads and of entries that were examined in blocks. Ghost state, zero-sized: only
/// clauses read it.
#[derive(Drop)]
pub struct Steps {
    heads: Count,
    entries: Count,
}

impl Model for Steps {
    ghost Value = { Counted };

    ghost view = { λ s. record { heads = s.heads; entries = s.entries } };
}

impl Steps {
    /// Makes counters at zero.
    pub fn new() -> Steps
        ensures { IsZero result }
    {
        Steps {
            heads: Count::new(),
            entries: Count::new(),
        }
    }

    /// Counts a head.
    pub fn count_head(&mut self)
        ensures { CountsExactly self.old self.new 1 0 }
    {
        self.heads.add_one();
    }

    /// Counts an entry.
    pub fn count_entry(&mut self)
        ensures { CountsExactly self.old self.new 0 1 }
    {
        self.entries.add_one();
    }

    /// Adds other counters.
    pub fn add(&mut self, other: &Steps)
        ensures { CountsExactly self.old self.new other.now.heads other.now.entries }
    {
        self.heads.add(&other.heads);
        self.entries.add(&other.entries);
    }
}

/// Counters at zero.
impl Default for Steps {
    ghost is_default = { λ s. IsZero s };

    fn default() -> Steps {
        Steps::new()
    }
}
