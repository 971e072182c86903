//! The bound of a search.
ghost use Rattle.std.specs.Prelude.{◌≡◌, ◌≤◌, ◌==◌, if◌then◌else◌, nat_lt};
ghost use Rattle.std.specs.Prelude.{length, drop};
ghost use Rattle.std.specs.Prelude.{Some, None};
ghost use Rattle.std.specs.Ordering.{nat_cmp};
ghost use Rattle.std.specs.Cmp.Lexicographic.{slice_cmp};
ghost use Rattle.std.specs.declared.cmp.Ordering.TheVariants.{Less, Greater};
ghost use Rattle.sst_block_core.specs.Window.{passes_cmp, passes};

use sst_base::SeqNo;
use sst_base::table::util::compare_bytes;
use std::cmp::Ordering;

/// Passes the keys below a needle, and those equal to it whose sequence number is at least `from`,
/// if there is such a number.
#[derive(Clone, Copy)]
pub struct Bound<'n> {
    pub needle: &'n [u8],
    pub from: Option<SeqNo>,
}

impl<'n> Bound<'n> {
    /// Returns the bound that passes the keys below a needle.
    #[inline(always)]
    pub fn below(needle: &'n [u8]) -> Bound<'n>
        ensures needle { result.needle.now ≡ needle.now }
        ensures from { result.from ≡ None }
    {
        Bound { needle, from: None }
    }

    /// Returns the bound that passes the keys below a needle and those equal to it.
    #[inline(always)]
    pub fn up_to(needle: &'n [u8]) -> Bound<'n>
        ensures needle { result.needle.now ≡ needle.now }
        ensures from { result.from ≡ Some 0 }
    {
        Bound {
            needle,
            from: Some(0),
        }
    }

    /// Returns whether it passes a key that compares with the needle in this way.
    #[inline(always)]
    pub(crate) fn passes_order(&self, order: Ordering, seqno: SeqNo) -> bool
        ensures { result ≡ passes_cmp order self.now.from seqno }
    {
        match order {
            Ordering::Less => true,
            Ordering::Equal => match self.from {
                Some(from) => from <= seqno,
                None => false,
            },
            Ordering::Greater => false,
        }
    }

    /// Returns whether it passes a key with a sequence number.
    #[inline(always)]
    pub(crate) fn passes(&self, key: &[u8], seqno: SeqNo) -> bool
        ensures { result ≡ passes self.now.needle.now self.now.from key.now seqno }
    {
        self.passes_order(compare_bytes(key, self.needle), seqno)
    }

    /// Compares with the needle a prefix-truncated key: `shared` bytes of the key of its interval's
    /// head, and a rest of its own. That head, which the bound passes, shares `alike` bytes
    /// with the needle.
    ///
    /// A key that shares more with the head than the needle does sorts before the needle, one that
    /// shares less after it.
    #[inline(always)]
    pub(crate) fn compare_behind(&self, shared: usize, rest: &[u8], alike: usize) -> Ordering
        requires { alike ≤ length self.now.needle.now }
        ensures { result
            ≡ (if shared == alike then slice_cmp nat_cmp rest.now (drop alike self.now.needle.now)
            else if nat_lt alike shared then Less else Greater) }
    {
        if shared == alike {
            let (_, wanted) = self.needle.split_at(alike);
            compare_bytes(rest, wanted)
        } else if alike < shared {
            Ordering::Less
        } else {
            Ordering::Greater
        }
    }
}
