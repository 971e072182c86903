//! Whether a shared length is the greatest.
ghost use Rattle.std.specs.Prelude.{◌≡◌, ◌++◌, ◌≤◌, length, nat_eq, nat_lt, take};
ghost use Rattle.std.specs.Prelude.{IsTrue};
ghost use Rattle.sst_base.specs.SharedPrefix.{shared_prefix_length};

// Returns whether both begin with one byte.
#[inline(always)]
#[tactic(auto, using(crate::proofs::Check::SharedLengths::alike_first, crate::proofs::Check::SharedLengths::alike_none, crate::proofs::Check::SharedLengths::alike_none_right))]
fn begin_alike(a: &[u8], b: &[u8]) -> bool
    ensures { result ≡ nat_lt 0 (shared_prefix_length a.now b.now) }
{
    if a.is_empty() || b.is_empty() {
        return false;
    }
    a[0] == b[0]
}

/// Returns whether a prefix of a base key, of this length, with these bytes after it, is the
/// longest that the two share.
#[inline(always)]
#[tactic(auto, using(crate::proofs::Check::SharedLengths::greatest_far, crate::proofs::Check::SharedLengths::greatest_alike, crate::proofs::Check::SharedLengths::greatest_is))]
pub fn is_greatest(base: &[u8], shared: u64, rest: &[u8]) -> bool
    ensures greatest { result
        ≡ nat_eq (shared_prefix_length base.now (take shared base.now ++ rest.now)) shared }
    ensures inside { IsTrue result → shared ≤ length base.now }
{
    if shared > base.len() as u64 {
        return false;
    }
    let (_, behind) = base.split_at(shared as usize);
    !begin_alike(behind, rest)
}
