//! A block of a table that is open at an end.
ghost use Rattle.std.specs.Prelude.{◌≡◌, ◌+◌, ◌<◌, ◌^◌};

use sstable_blocks::InternalValue;

/// A block that was opened at an end of a table: its index, the index in it of the entry that is
/// held, the entries that are left of it, and that entry.
#[derive(Drop)]
pub(crate) struct OpenEnd<E> {
    pub(crate) block: usize,
    pub(crate) at: usize,
    pub(crate) left: E,
    pub(crate) held: InternalValue,
    ghost few: { block + 1 < 2 ^ 64 },
}

/// Puts an end in place of another, which is dropped with its block.
pub(crate) fn set_end<E: Drop>(end: &mut Option<OpenEnd<E>>, new: Option<OpenEnd<E>>)
    ensures { end.new ≡ new }
{
    *end = new;
}
