//! Offsets of blocks.
ghost use Rattle.std.specs.Prelude.{◌≡◌, ◌+◌, ◌^◌, ◌<◌};

use std::ops::{AddAssign, Deref};

/// The offset of a block in its file, in bytes.
#[derive(Clone, Copy, Debug, Default, PartialEq, Eq, PartialOrd, Ord, Hash)]
pub struct BlockOffset(pub u64);

/// Shows the number.
impl Deref for BlockOffset {
    type Target = u64;

    ghost deref_gives = { λ offset n. n ≡ offset.0 };

    fn deref(&self) -> &u64 {
        &self.0
    }
}

/// Adds a number of bytes. The sum is below 2^64.
impl AddAssign<u64> for BlockOffset {
    ghost can_add_assign = { λ offset n. offset.0 + n < 2 ^ 64 };

    ghost add_assign_gives = { λ offset n sum. sum.0 ≡ offset.0 + n };

    fn add_assign(&mut self, rhs: u64) {
        self.0 += rhs;
    }
}

/// Adds an offset. The sum is below 2^64.
impl AddAssign for BlockOffset {
    ghost can_add_assign = { λ offset other. offset.0 + other.0 < 2 ^ 64 };

    ghost add_assign_gives = { λ offset other sum. sum.0 ≡ offset.0 + other.0 };

    fn add_assign(&mut self, rhs: BlockOffset) {
        *self += rhs.0;
    }
}
