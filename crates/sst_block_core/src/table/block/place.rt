//! Indices into the items of a block.
ghost use Rattle.std.specs.Prelude.{◌≡◌, ◌+◌, ◌%◌, ◌^◌, ◌<◌, ℕ};

/// An index into a block's items, and where that item's form is.
#[derive(Clone, Copy)]
pub(crate) struct Place {
    /// The index.
    pub(crate) index: usize,
    /// The index in the restart interval: 0 for a head.
    pub(crate) phase: u8,
    /// The offset of the form.
    pub(crate) offset: usize,
    /// The offset of the key of the interval's head.
    pub(crate) base: usize,
}

impl Place {
    /// Moves after the item, whose form ends at this offset.
    #[inline(always)]
    pub(crate) fn move_on(&mut self, end: usize, restart_interval: u8)
        requires phase { self.old.phase < restart_interval }
        requires room { self.old.index + 1 < 2 ^ 64 }
        ensures place { self.new.index ≡ self.old.index + 1 }
        ensures phase { self.old.phase ≡ self.old.index % restart_interval
            → self.new.phase ≡ (self.old.index + 1) % restart_interval }
        ensures offset { self.new.offset ≡ end }
        ensures base { self.new.base ≡ self.old.base }
    {
        self.index += 1;
        self.phase = next_phase(self.phase, restart_interval);
        self.offset = end;
    }
}

/// Returns the index in its interval of the item after one at this index.
#[inline(always)]
#[tactic(auto, using(crate::specs::PlaceLaws::next_in_interval))]
pub(crate) fn next_phase(phase: u8, restart_interval: u8) -> u8
    requires { phase < restart_interval }
    ensures phase { (n : ℕ) → phase ≡ n % restart_interval
        → result ≡ (n + 1) % restart_interval }
    ensures below { result < restart_interval }
{
    let next = phase + 1;
    if next == restart_interval { 0 } else { next }
}
