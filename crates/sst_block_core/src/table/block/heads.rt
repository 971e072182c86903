//! Tables of the heads of a block.
ghost use Rattle.std.specs.Prelude.{◌≡◌, ◌≢◌, ◌+◌, ◌*◌, ◌/◌, ◌^◌, ◌≤◌, ◌<◌, ◌++◌};
ghost use Rattle.std.specs.Prelude.{[], ◌∷◌, List, ℕ, length, drop, nat_lt, min, if◌then◌else◌};
ghost use Rattle.std.specs.Prelude.{slice_get, Some, None, slice_index, nat_eq, IfOk, IsOkUnless};
ghost use Rattle.std.specs.Prelude.{IfSome};
ghost use Rattle.std.specs.Ordering.{nat_cmp, ordering_then};
ghost use Rattle.std.specs.Cmp.Lexicographic.{slice_cmp};
ghost use Rattle.std.specs.declared.cmp.Ordering.TheVariants.{Less, Equal};
ghost use Rattle.sst_base.specs.Counted.{CountsExactly, CountsBetween};
ghost use Rattle.sst_base.specs.Order.{versions_cmp};
ghost use Rattle.sst_block_core.specs.Found.{IsRange, range_bytes};
ghost use Rattle.sst_block_core.specs.Heads.{front, key_in, Begins, IsHeadTable, IsHeadPassedBit};
ghost use Rattle.sst_block_core.specs.Heads.{head_of};
ghost use Rattle.sst_block_core.specs.Heads.{heads_before, KeepsPrefixAndRoom};
ghost use Rattle.sst_block_core.specs.Intervals.{digits};
ghost use Rattle.sst_block_core.specs.Passes.{last_passed};
ghost use Rattle.sst_block_core.specs.declared.table.block.heads.Head.{Head};

use crate::table::block::bound::Bound;
use crate::table::block::key_ranges::bytes_of;
use byteorder::{BigEndian, ByteOrder};
use sst_base::table::util::{SliceIndexes, compare_bytes};
use sst_base::{Error, Result, SeqNo, Steps};
use std::alloc::Global;
use std::cmp::Ordering;
use std::marker::Model;
use std::sync::Arc;

/// A head: the offset of its form in the payload, its sequence number, and the range of its key in
/// the payload.
#[derive(Clone, Copy)]
pub struct Head {
    offset: usize,
    seqno: SeqNo,
    key: SliceIndexes,
}

// A byte, or 0 past the end.
#[inline(always)]
fn byte_or_zero(bytes: &[u8], index: usize) -> u64
    ensures { result ≡ slice_index bytes.now index }
{
    if index < bytes.len() {
        u64::from(bytes[index])
    } else {
        0
    }
}

/// Returns the first 8 bytes as a big-endian number; fewer are filled with 00.
///
/// Where the numbers of two byte strings differ, the strings have the order of the numbers.
#[tactic(auto, using(crate::proofs::Heads::Fronts::front_short), unfolding(crate::specs::Heads::front))]
pub fn front_of(bytes: &[u8]) -> u64
    ensures { result ≡ front bytes.now }
{
    if bytes.len() >= 8 {
        return BigEndian::read_u64(bytes);
    }
    let b = [
        byte_or_zero(bytes, 0),
        byte_or_zero(bytes, 1),
        byte_or_zero(bytes, 2),
        byte_or_zero(bytes, 3),
        byte_or_zero(bytes, 4),
        byte_or_zero(bytes, 5),
        byte_or_zero(bytes, 6),
    ];
    let high = (b[0] * 256 + b[1]) * 65536 + b[2] * 256 + b[3];
    let low = (b[4] * 256 + b[5]) * 65536 + b[6] * 256;
    high * 4294967296 + low
}

// Returns 1 if one number is below another, and else 0. Both have at most 63 bits, so the sign of
// their difference is the result. A search that branched on it would mispredict every other step.
#[inline(always)]
fn is_below(a: u64, b: u64) -> u64
    requires left { a < 2 ^ 63 }
    requires right { b < 2 ^ 63 }
    ensures { result ≡ (if nat_lt a b then 1 else 0) }
{
    a.wrapping_sub(b) >> 63
}

// Returns a number where a bit is 1, and 0 where it is 0, without a branch.
#[inline(always)]
fn masked(number: usize, bit: u64) -> usize
    requires { bit ≤ 1 }
    ensures { result ≡ number * bit }
{
    number & 0u64.wrapping_sub(bit) as usize
}

/// A table of the heads of a block, in order. A search over it decides most steps by comparing
/// numbers.
///
/// All keys of a table begin with its prefix. Beside the heads there is an array of numbers: for
/// each head the first 8 bytes after the prefix in its key as a big-endian number ([`front_of`]),
/// without the last bit. A head takes 40 bytes. Clauses see the heads, the prefix, these numbers
/// and the capacity.
#[derive(Drop)]
pub struct HeadTable {
    heads: Vec<Head>,
    prefix: SliceIndexes,
    fronts: Vec<u64>,
}

impl Model for HeadTable {
    ghost use Rattle.std.specs.Prelude.{vec_capacity, min};
    ghost use Rattle.sst_block_core.specs.Heads.{Table};

    ghost Value = { Table };

    ghost view = { λ t. record {
      heads = t.heads.items;
      prefix = t.prefix;
      fronts = t.fronts.items;
      room = min (vec_capacity t.heads) (vec_capacity t.fronts);
    } };
}

impl HeadTable {
    /// Makes an empty table with capacity for this many heads, and with the empty prefix.
    ///
    /// # Errors
    ///
    /// `Error::Memory` if an allocation fails.
    pub fn with_room(alloc: Global, count: usize) -> Result<HeadTable>
        ensures empty { IfOk result (λ t. t.heads ≡ []) }
        ensures fronts { IfOk result (λ t. t.fronts ≡ []) }
        ensures prefix { IfOk result (λ t. t.prefix ≡ record { 0 = 0; 1 = 0 }) }
        ensures room { IfOk result (λ t. t.room ≡ count) }
        ensures memory { IsOkUnless result Error.Memory }
    {
        HeadTable::with_prefix(alloc, count, SliceIndexes(0, 0))
    }

    /// Makes an empty table with capacity for this many heads, and with this range of the payload
    /// as the prefix of all their keys. The longer it is, the more the fronts decide.
    ///
    /// # Errors
    ///
    /// `Error::Memory` if an allocation fails.
    pub fn with_prefix(alloc: Global, count: usize, prefix: SliceIndexes) -> Result<HeadTable>
        ensures empty { IfOk result (λ t. t.heads ≡ []) }
        ensures fronts { IfOk result (λ t. t.fronts ≡ []) }
        ensures prefix { IfOk result (λ t. t.prefix ≡ prefix) }
        ensures room { IfOk result (λ t. t.room ≡ count) }
        ensures memory { IsOkUnless result Error.Memory }
    {
        Ok(HeadTable {
            heads: Vec::with_capacity(alloc, count)?,
            prefix,
            fronts: Vec::with_capacity(alloc, count)?,
        })
    }

    /// Moves the table to where it may have several owners, such as a block and its clones.
    ///
    /// # Errors
    ///
    /// `Error::Memory` if an allocation fails.
    pub fn into_shared(self, alloc: Global) -> Result<Arc<HeadTable>>
        ensures ok { IfOk result (λ t. t.value ≡ self) }
        ensures memory { IsOkUnless result Error.Memory }
    {
        match Arc::new(alloc, self) {
            Ok(table) => Ok(table),
            Err(_) => Err(Error::Memory),
        }
    }

    /// Returns the number of heads.
    pub fn len(&self) -> usize
        ensures { result ≡ length self.now.heads }
    {
        self.heads.len()
    }

    /// Returns whether there are no heads.
    pub fn is_empty(&self) -> bool
        ensures { result ≡ nat_eq (length self.now.heads) 0 }
    {
        self.heads.is_empty()
    }

    // Returns what follows the prefix in a key that begins with it.
    #[inline(always)]
    fn behind_prefix<'k>(&self, payload: &[u8], key: &'k [u8]) -> &'k [u8]
        requires prefix { IsRange payload.now self.now.prefix }
        requires begins { Begins (range_bytes payload.now self.now.prefix) key.now }
        ensures { result.now ≡ drop (length (range_bytes payload.now self.now.prefix)) key.now }
    {
        let (_, rest) = key.split_at(bytes_of(payload, &self.prefix).len());
        rest
    }

    /// Adds a head, for which there is capacity. Its key lies in the payload and begins with the
    /// table's prefix, and it doesn't sort before the last head. Takes no memory.
    #[inline(always)]
    pub fn push(&mut self, payload: &[u8], offset: usize, seqno: SeqNo, key: SliceIndexes)
        requires room { length self.old.heads < self.old.room }
        requires range { IsRange payload.now key }
        requires begins { Begins (range_bytes payload.now self.old.prefix) (range_bytes payload.now
            key) }
        requires order { IfSome (last_passed self.old.heads)
            (λ (last : Head). versions_cmp (key_in payload.now) (λ (h : Head). h.seqno)
            (head_of offset seqno key) last ≢ Less) }
        requires table { IsHeadTable payload.now self.old }
        ensures heads { self.new.heads ≡ self.old.heads ++ head_of offset seqno key ∷ [] }
        ensures kept { KeepsPrefixAndRoom self.old self.new }
        ensures table { IsHeadTable payload.now self.new }
    {
        let number = front_of(self.behind_prefix(payload, bytes_of(payload, &key))) / 2;
        let pushed = self.heads.push(Head { offset, seqno, key });
        match pushed {
            Ok(()) => {}
            Err(_) => unreachable!(),
        }
        let pushed = self.fronts.push(number);
        match pushed {
            Ok(()) => {}
            Err(_) => unreachable!(),
        }
    }

    /// Returns the key and the sequence number of head j. Counts a head.
    #[inline(always)]
    pub fn head<'p>(&self, payload: &'p [u8], j: usize, steps: &mut Steps) -> (&'p [u8], SeqNo)
        requires table { IsHeadTable payload.now self.now }
        requires inside { j < length self.now.heads }
        ensures head { (h : Head) → slice_get self.now.heads j ≡ Some h
            → (result.0.now ≡ key_in payload.now h) × (result.1 ≡ h.seqno) }
        ensures counts { CountsExactly steps.old steps.new 1 0 }
    {
        steps.count_head();
        let head = self.heads[j];
        (bytes_of(payload, &head.key), head.seqno)
    }

    // Compares the prefix with a needle. Where they differ, all keys compare so.
    #[inline(always)]
    fn compare_prefix(&self, payload: &[u8], needle: &[u8]) -> Ordering
        requires { IsRange payload.now self.now.prefix }
        ensures decides { (rest : List ℕ)
            → slice_cmp nat_cmp (range_bytes payload.now self.now.prefix ++ rest) needle.now
            ≡ ordering_then result
            (slice_cmp nat_cmp rest
            (drop (length (range_bytes payload.now self.now.prefix)) needle.now)) }
        ensures equal { result ≡ Equal
            → length (range_bytes payload.now self.now.prefix) ≤ length needle.now }
    {
        let prefix = bytes_of(payload, &self.prefix);
        if needle.len() < prefix.len() {
            return compare_bytes(prefix, needle);
        }
        let (start, _) = needle.split_at(prefix.len());
        compare_bytes(prefix, start)
    }

    // Compares the key of head j with a needle that begins with the prefix, by what follows. Only
    // where the numbers decide nothing may the bytes be compared, which is seldom.
    #[inline(never)]
    fn compare_rest(&self, j: usize, payload: &[u8], rest: &[u8]) -> Ordering
        requires table { IsHeadTable payload.now self.now }
        requires inside { j < length self.now.heads }
        requires undecided { slice_index self.now.fronts j ≡ front rest.now / 2 }
        ensures { (h : Head) → slice_get self.now.heads j ≡ Some h
            → result
            ≡ slice_cmp nat_cmp
            (drop (length (range_bytes payload.now self.now.prefix)) (key_in payload.now h))
            rest.now }
    {
        let head = &self.heads[j];
        compare_bytes(
            self.behind_prefix(payload, bytes_of(payload, &head.key)),
            rest,
        )
    }

    // Returns 1 if a bound passes head j, and else 0. Its needle begins with the prefix, and has
    // this rest after it, whose front without the last bit is `number`. Counts a head.
    #[inline(always)]
    fn passes(
        &self,
        j: usize,
        payload: &[u8],
        bound: &Bound<'_>,
        rest: &[u8],
        number: u64,
        steps: &mut Steps,
    ) -> u64
        requires table { IsHeadTable payload.now self.now }
        requires inside { j < length self.now.heads }
        requires rest { (s : List ℕ)
            → slice_cmp nat_cmp (range_bytes payload.now self.now.prefix ++ s) bound.now.needle.now
            ≡ slice_cmp nat_cmp s rest.now }
        requires number { number ≡ front rest.now / 2 }
        ensures tells { IsHeadPassedBit payload.now bound.now.needle.now bound.now.from
            self.now.heads j
            result }
        ensures counts { CountsExactly steps.old steps.new 1 0 }
    {
        steps.count_head();
        let own = self.fronts[j];
        if own != number {
            return is_below(own, number);
        }
        u64::from(bound.passes_order(self.compare_rest(j, payload, rest), self.heads[j].seqno))
    }

    // Returns how many heads a bound passes, whose needle begins with the prefix and has this rest
    // after it.
    #[inline(always)]
    fn count_behind(
        &self,
        payload: &[u8],
        bound: &Bound<'_>,
        rest: &[u8],
        steps: &mut Steps,
    ) -> usize
        requires table { IsHeadTable payload.now self.now }
        requires rest { (s : List ℕ)
            → slice_cmp nat_cmp (range_bytes payload.now self.now.prefix ++ s) bound.now.needle.now
            ≡ slice_cmp nat_cmp s rest.now }
        ensures value { result
            ≡ heads_before payload.now bound.now.needle.now bound.now.from self.now.heads }
        ensures counts { CountsExactly steps.old steps.new (digits (length self.now.heads)) 0 }
    {
        let number = front_of(rest) / 2;
        let mut base = 0;
        let mut size = self.len();
        // (what is added depends on the comparison, what is searched next doesn't: no branch)
        while size > 0 {
            let half = size / 2;
            let passed = self.passes(base + half, payload, bound, rest, number, steps);
            base += masked(size - half, passed);
            size = half;
        }
        base
    }

    /// Returns how many heads a bound passes. Counts at most as many heads as their number has
    /// binary digits, and one at least if there is any.
    pub(crate) fn count(&self, payload: &[u8], bound: &Bound<'_>, steps: &mut Steps) -> usize
        requires { IsHeadTable payload.now self.now }
        ensures value { result
            ≡ heads_before payload.now bound.now.needle.now bound.now.from self.now.heads }
        ensures counts { CountsBetween steps.old steps.new (min 1 (length self.now.heads), 0)
            (digits (length self.now.heads), 0) }
    {
        if self.is_empty() {
            return 0;
        }
        match self.compare_prefix(payload, bound.needle) {
            Ordering::Less => {
                steps.count_head();
                self.len()
            }
            Ordering::Equal => {
                let (_, rest) = bound.needle.split_at(bytes_of(payload, &self.prefix).len());
                self.count_behind(payload, bound, rest, steps)
            }
            Ordering::Greater => {
                steps.count_head();
                0
            }
        }
    }

    /// Returns the number of heads with a key below the needle.
    pub fn count_below(&self, payload: &[u8], needle: &[u8], steps: &mut Steps) -> usize
        requires { IsHeadTable payload.now self.now }
        ensures value { result ≡ heads_before payload.now needle.now None self.now.heads }
        ensures counts { CountsBetween steps.old steps.new (min 1 (length self.now.heads), 0)
            (digits (length self.now.heads), 0) }
    {
        self.count(payload, &Bound::below(needle), steps)
    }

    /// Returns the number of heads with a key of at most the needle.
    pub fn count_at_most(&self, payload: &[u8], needle: &[u8], steps: &mut Steps) -> usize
        requires { IsHeadTable payload.now self.now }
        ensures value { result ≡ heads_before payload.now needle.now (Some 0) self.now.heads }
        ensures counts { CountsBetween steps.old steps.new (min 1 (length self.now.heads), 0)
            (digits (length self.now.heads), 0) }
    {
        self.count(payload, &Bound::up_to(needle), steps)
    }

    /// Returns the number of heads that an index seek skips: those with a key below the needle, and
    /// those equal to it with a sequence number of at least `seqno`.
    pub fn count_index(
        &self,
        payload: &[u8],
        needle: &[u8],
        seqno: SeqNo,
        steps: &mut Steps,
    ) -> usize
        requires { IsHeadTable payload.now self.now }
        ensures value { result
            ≡ heads_before payload.now needle.now (Some seqno) self.now.heads }
        ensures counts { CountsBetween steps.old steps.new (min 1 (length self.now.heads), 0)
            (digits (length self.now.heads), 0) }
    {
        let bound = Bound {
            needle,
            from: Some(seqno),
        };
        self.count(payload, &bound, steps)
    }
}
