//! Immutable byte strings.
ghost use Rattle.std.specs.Prelude.{◌≡◌, ◌+◌, ◌^◌, ◌<◌, ◌≤◌, ◌==◌};
ghost use Rattle.std.specs.Prelude.{◌++◌, [], length, slice_range, take, drop, ◌-◌};
ghost use Rattle.std.specs.Prelude.{string_bytes, nat_eq, refl, Some, IfOk, IfSome, IsOk};
ghost use Rattle.std.specs.Prelude.{IsOkUnless, IsTrue};
ghost use Rattle.std.specs.Prelude.{◌↔◌, ◌⊎◌, ℕ, List, IfErr};
ghost use Rattle.std.specs.Iterator.{IsFinite, Drains};
ghost use Rattle.std.specs.Ordering.{nat_cmp};
ghost use Rattle.std.specs.Range.Bound.{start_index, end_index};
ghost use Rattle.std.specs.Hash as fed;
ghost use Rattle.std.specs.Cmp.Lexicographic.{pointwise, slice_cmp, nat_list_eq_equiv};
ghost use Rattle.std.specs.Cmp.Lexicographic.{nat_list_cmp_total, texts_ties, texts_po};
ghost use Rattle.std.specs.Cmp.{partial_equiv_from_equiv};
ghost use Rattle.std.specs.Cmp.Rules.{hashing};
ghost use Rattle.std.proofs.Common.{rules};
ghost use Rattle.sst_base.specs.declared.error.Error.TheVariants.{Io, Memory};
ghost use Rattle.sst_base.specs.Bytes.{IsBytes};
ghost use Rattle.sst_base.specs.Header.{bytes_at};
ghost use Rattle.sst_base.specs.Inputs.{ReadsAllocating};

mod shared;
mod short;

use crate::error::{AllocResult, Error, Result};
use crate::input::{Input, note_bytes};
use crate::table::util::compare_bytes;
use bytes::Bytes;
use shared::SharedBytes;
pub use short::SHORT_LEN;
use short::ShortBytes;
use std::alloc::Global;
use std::cmp::Ordering;
use std::hash::{Hash, Hasher};
use std::marker::Model;
use std::ops::{Range, RangeBounds};
use std::{fmt, slice};

// The greatest number of bytes that is read at once.
const PIECE_LEN: usize = 65536;

// Where the bytes of a slice are.
#[derive(Drop)]
enum Held {
    Short(ShortBytes),
    Shared(SharedBytes),
}

/// An immutable byte string. Clauses see its list of bytes.
///
/// A short one, of up to 40 bytes, holds them itself: it is copied, and takes no memory. The bytes
/// of a longer one are shared: a clone or sub-slice copies none of them.
#[derive(Drop)]
pub struct Slice {
    held: Held,
}

impl Model for Slice {
    ghost use Rattle.std.specs.Prelude.{ℕ, List};
    ghost use Rattle.sst_base.specs.Bytes.{IsBytes};
    ghost use Rattle.sst_base.specs.SliceBytes.{held_bytes};

    ghost Value = { List ℕ };

    ghost view = { λ s. held_bytes s.held };

    ghost invariant = { λ s. IsBytes (held_bytes s.held) };
}

impl Slice {
    // A short byte string.
    #[inline(always)]
    fn short(bytes: ShortBytes) -> Slice
        ensures { result ≡ bytes }
    {
        note_bytes(bytes.as_slice());
        Slice {
            held: Held::Short(bytes),
        }
    }

    // A byte string that shares its bytes.
    #[inline(always)]
    fn shared(bytes: SharedBytes) -> Slice
        ensures { result ≡ bytes }
    {
        note_bytes(bytes.as_slice());
        Slice {
            held: Held::Shared(bytes),
        }
    }

    /// Copies the bytes.
    ///
    /// # Errors
    ///
    /// `Error::Memory` if an allocation fails. Here and below, up to 40 bytes need none.
    #[inline(always)]
    pub fn new(alloc: Global, bytes: &[u8]) -> Result<Slice>
        ensures ok { IfOk result (λ s. s ≡ bytes.now) }
        ensures memory { IsOkUnless result Error.Memory }
        ensures few { length bytes.now ≤ 40 → IsOk result }
    {
        if bytes.len() <= SHORT_LEN {
            return Ok(Slice::short(ShortBytes::new(bytes)));
        }
        match SharedBytes::copied(alloc, bytes) {
            Ok(copy) => Ok(Slice::shared(copy)),
            Err(_) => Err(Error::Memory),
        }
    }

    /// Returns the empty byte string. Takes no memory.
    pub fn empty(_alloc: Global) -> Slice
        ensures { result ≡ [] }
    {
        Slice::short(ShortBytes::new(&[]))
    }

    /// Takes the bytes of a vector.
    ///
    /// # Errors
    ///
    /// `Error::Memory` if an allocation fails.
    pub fn from_vec(bytes: Vec<u8>) -> Result<Slice>
        ensures ok { IfOk result (λ s. s ≡ bytes.items) }
        ensures memory { IsOkUnless result Error.Memory }
        ensures few { length bytes.items ≤ 40 → IsOk result }
    {
        if bytes.len() <= SHORT_LEN {
            return Ok(Slice::short(ShortBytes::new(bytes.as_slice())));
        }
        Ok(Slice::shared(SharedBytes::from_vec(bytes)?))
    }

    /// Takes the bytes of a `Bytes`. More than 40 bytes are shared, and none of them is copied.
    ///
    /// # Errors
    ///
    /// `Error::Memory` if an allocation fails.
    pub fn from_bytes(alloc: Global, bytes: Bytes) -> Result<Slice>
        ensures ok { IfOk result (λ s. s ≡ bytes) }
        ensures memory { IsOkUnless result Error.Memory }
        ensures few { length bytes ≤ 40 → IsOk result }
    {
        if bytes.len() <= SHORT_LEN {
            return Ok(Slice::short(ShortBytes::new(bytes.as_slice())));
        }
        Ok(Slice::shared(SharedBytes::from_bytes(alloc, bytes)?))
    }

    /// Returns the bytes as a `Bytes`. Bytes that are held in place are copied, others are shared.
    ///
    /// # Errors
    ///
    /// `Error::Memory` if an allocation fails.
    pub fn to_bytes(&self, alloc: Global) -> Result<Bytes>
        ensures ok { IfOk result (λ b. b ≡ self.now) }
        ensures memory { IsOkUnless result Error.Memory }
    {
        match &self.held {
            Held::Short(bytes) => Ok(Bytes::copy_from_slice(alloc, bytes.as_slice())?),
            Held::Shared(bytes) => Ok(bytes.to_bytes()?),
        }
    }

    /// Takes the bytes of a `String`.
    ///
    /// # Errors
    ///
    /// `Error::Memory` if an allocation fails.
    pub fn from_string(text: String) -> Result<Slice>
        ensures ok { IfOk result (λ s. s ≡ string_bytes text) }
        ensures memory { IsOkUnless result Error.Memory }
        ensures few { length (string_bytes text) ≤ 40 → IsOk result }
    {
        Slice::from_vec(text.into_bytes())
    }

    /// Copies the bytes of a `str`.
    ///
    /// # Errors
    ///
    /// `Error::Memory` if an allocation fails.
    pub fn from_text(alloc: Global, text: &str) -> Result<Slice>
        ensures ok { IfOk result (λ s. s ≡ text.now) }
        ensures memory { IsOkUnless result Error.Memory }
        ensures few { length text.now ≤ 40 → IsOk result }
    {
        Slice::new(alloc, text.as_bytes())
    }

    /// Copies the bytes of an array.
    ///
    /// # Errors
    ///
    /// `Error::Memory` if an allocation fails.
    pub fn from_array<const N: usize>(alloc: Global, bytes: [u8; N]) -> Result<Slice>
        ensures ok { IfOk result (λ s. s ≡ bytes.entry) }
        ensures memory { IsOkUnless result Error.Memory }
        ensures few { length bytes.entry ≤ 40 → IsOk result }
    {
        Slice::new(alloc, &bytes)
    }

    /// Collects the bytes of an iterator, which has to end.
    ///
    /// # Errors
    ///
    /// `Error::Memory` if an allocation fails.
    pub fn collect_bytes<I: IntoIterator<Item = u8>>(alloc: Global, iter: I) -> Result<Slice>
        requires { (it : I.IntoIter) → I.into_iter_gives iter it → I.IntoIter.can_next it
            × IsFinite (I.IntoIter.remaining it) }
        ensures ok { IfOk result
            (λ s. (it : I.IntoIter) × (xs : List ℕ) × I.into_iter_gives iter it
            × Drains I.IntoIter.next_gives it xs × (s ≡ xs)) }
        ensures memory { IsOkUnless result Error.Memory }
    {
        Slice::from_vec(Vec::from_iter(alloc, iter)?)
    }

    /// Reads `len` bytes, in pieces of at most 65536 bytes, so a length that is too great costs
    /// little memory.
    ///
    /// # Errors
    ///
    /// `Error::Io` if the reader fails, or ends before `len` bytes. `Error::Memory` if an
    /// allocation fails.
    pub fn from_reader<R: Input>(alloc: Global, reader: &mut R, len: usize) -> Result<Slice>
        ensures read { (bytes : List ℕ) → R.remaining reader.old ≡ Some bytes
            → ReadsAllocating (R.is_memory reader.old) result (R.remaining reader.new)
            (bytes_at len bytes) }
        ensures whole { R.whole reader.new ≡ R.whole reader.old }
        ensures len { IfOk result (λ s. length s ≡ len) }
        ensures errors { IfErr result (λ e. (e ≡ Io) ⊎ (e ≡ Memory)) }
        ensures kept { R.is_memory reader.old → R.is_memory reader.new }
    {
        let mut bytes = Vec::with_capacity(alloc, PIECE_LEN.min(len))?;
        while bytes.len() < len {
            let piece_len = PIECE_LEN.min(len - bytes.len());
            reader.append(&mut bytes, piece_len)?;
        }
        Slice::from_vec(bytes)
    }

    /// Returns the bytes in a range, which lies inside the bytes. Up to 40 bytes are copied, more
    /// are shared.
    ///
    /// # Errors
    ///
    /// `Error::Memory` if an allocation fails.
    #[inline(always)]
    pub fn slice<R: RangeBounds<usize>>(&self, range: R) -> Result<Slice>
        requires known { R.has_bounds range }
        requires start_le_end { start_index (R.start_bound range)
            ≤ end_index (R.end_bound range) (length self.now) }
        requires in_bounds { end_index (R.end_bound range) (length self.now) ≤ length self.now }
        ensures ok { IfOk result
            (λ s. s ≡ slice_range self.now (start_index (R.start_bound range))
            (end_index (R.end_bound range) (length self.now))) }
        ensures memory { IsOkUnless result Error.Memory }
        ensures few { end_index (R.end_bound range) (length self.now)
            ≤ start_index (R.start_bound range) + 40 → IsOk result }
    {
        Ok(self.part(slice::range(range, ..self.len()))?)
    }

    /// Returns the bytes in a range, as [`Slice::slice`] does. The error has no parts, so that a
    /// hot caller needs no space for one.
    ///
    /// # Errors
    ///
    /// If an allocation fails.
    #[inline(always)]
    #[tactic(auto, using(crate::specs::BytesLaws::length_part))]
    pub fn part(&self, range: Range<usize>) -> AllocResult<Slice>
        requires start_le_end { range.start ≤ range.end }
        requires in_bounds { range.end ≤ length self.now }
        ensures ok { IfOk result (λ s. s ≡ slice_range self.now range.start range.end) }
        ensures few { range.end ≤ range.start + 40 → IsOk result }
    {
        match &self.held {
            Held::Shared(bytes) if range.end - range.start > SHORT_LEN => {
                match bytes.part(range.start, range.end) {
                    Ok(part) => Ok(Slice::shared(part)),
                    Err(error) => Err(error),
                }
            }
            Held::Shared(bytes) => {
                let (_, from_start) = bytes.as_slice().split_at(range.start);
                let cut = ShortBytes::front(from_start, range.end - range.start);
                Ok(Slice::short(cut))
            }
            Held::Short(bytes) => {
                let part = &bytes.as_slice()[range.start..range.end];
                Ok(Slice::short(ShortBytes::new(part)))
            }
        }
    }

    /// Copies two byte strings, the second after the first.
    ///
    /// # Errors
    ///
    /// `Error::Memory` if an allocation fails.
    #[inline(always)]
    pub fn fused(alloc: Global, left: &[u8], right: &[u8]) -> Result<Slice>
        ensures ok { IfOk result (λ s. s ≡ left.now ++ right.now) }
        ensures memory { IsOkUnless result Error.Memory }
        ensures few { length left.now + length right.now ≤ 40 → IsOk result }
    {
        if left.len() + right.len() <= SHORT_LEN {
            return Ok(Slice::short(ShortBytes::joined(left, right)));
        }
        match SharedBytes::fused(alloc, left, right) {
            Ok(both) => Ok(Slice::shared(both)),
            Err(_) => Err(Error::Memory),
        }
    }

    /// Copies the first `len` bytes of a byte string. A few are copied faster where more bytes
    /// follow them.
    ///
    /// # Errors
    ///
    /// If an allocation fails.
    #[inline(always)]
    pub fn front(alloc: Global, bytes: &[u8], len: usize) -> AllocResult<Slice>
        requires { len ≤ length bytes.now }
        ensures ok { IfOk result (λ s. s ≡ take len bytes.now) }
        ensures few { len ≤ 40 → IsOk result }
    {
        if len <= SHORT_LEN {
            return Ok(Slice::short(ShortBytes::front(bytes, len)));
        }
        let (front, _) = bytes.split_at(len);
        match SharedBytes::copied(alloc, front) {
            Ok(copy) => Ok(Slice::shared(copy)),
            Err(error) => Err(error),
        }
    }

    /// Copies the first bytes of two byte strings, the second's after the first's. A few are copied
    /// faster where more bytes follow both.
    ///
    /// # Errors
    ///
    /// If an allocation fails.
    #[inline(always)]
    pub fn fused_fronts(
        alloc: Global,
        left: &[u8],
        left_len: usize,
        right: &[u8],
        right_len: usize,
    ) -> AllocResult<Slice>
        requires left { left_len ≤ length left.now }
        requires right { right_len ≤ length right.now }
        ensures ok { IfOk result (λ s. s ≡ take left_len left.now ++ take right_len right.now) }
        ensures few { left_len + right_len ≤ 40 → IsOk result }
    {
        if left_len + right_len <= SHORT_LEN {
            let both = ShortBytes::joined_fronts(left, left_len, right, right_len);
            return Ok(Slice::short(both));
        }
        let (left, _) = left.split_at(left_len);
        let (right, _) = right.split_at(right_len);
        match SharedBytes::fused(alloc, left, right) {
            Ok(both) => Ok(Slice::shared(both)),
            Err(error) => Err(error),
        }
    }

    /// Returns the bytes.
    #[inline(always)]
    pub fn as_slice(&self) -> &[u8]
        ensures { result.now ≡ self.now }
    {
        match &self.held {
            Held::Short(bytes) => bytes.as_slice(),
            Held::Shared(bytes) => bytes.as_slice(),
        }
    }

    /// Returns the array that holds a short byte string, and how many bytes of it are the string:
    /// the first ones. `None` only where the bytes are shared.
    #[inline(always)]
    pub fn as_short(&self) -> Option<(&[u8; SHORT_LEN], usize)>
        ensures bytes { IfSome result (λ short. take short.1 short.0.now ≡ self.now) }
        ensures len { IfSome result (λ short. short.1 ≤ 40) }
        ensures array { IfSome result (λ short. length short.0.now ≡ 40) }
    {
        match &self.held {
            Held::Short(bytes) => Some(bytes.parts()),
            Held::Shared(_) => None,
        }
    }

    /// Returns the number of bytes.
    pub fn len(&self) -> usize
        ensures value { result ≡ length self.now }
        ensures bound { result < 2 ^ 63 }
        ensures cells { IsBytes self.now }
    {
        let bytes = self.as_slice();
        note_bytes(bytes);
        bytes.len()
    }

    /// Returns whether there is no byte.
    pub fn is_empty(&self) -> bool
        ensures { result ≡ (length self.now == 0) }
    {
        self.as_slice().is_empty()
    }

    /// Returns whether the bytes equal `other`.
    pub fn eq_bytes(&self, other: &[u8]) -> bool
        ensures computed { result ≡ pointwise nat_eq self.now other.now }
        ensures same { IsTrue result ↔ (self.now ≡ other.now) }
    {
        self.as_slice() == other
    }

    /// Compares the bytes with `other`, bytewise.
    pub fn cmp_bytes(&self, other: &[u8]) -> Ordering
        ensures { result ≡ slice_cmp nat_cmp self.now other.now }
    {
        compare_bytes(self.as_slice(), other)
    }
}

impl Clone for Slice {
    ghost is_clone = { λ s copy. copy ≡ s };

    fn clone(&self) -> AllocResult<Slice> {
        match &self.held {
            Held::Short(bytes) => Ok(Slice::short(bytes.again())),
            Held::Shared(bytes) => Ok(Slice::shared(bytes.again()?)),
        }
    }
}

impl PartialEq for Slice {
    ghost eq = { pointwise nat_eq };

    ghost laws = { partial_equiv_from_equiv nat_list_eq_equiv };

    fn eq(&self, other: &Slice) -> bool {
        self.as_slice() == other.as_slice()
    }
}

impl Eq for Slice {
    ghost laws = { nat_list_eq_equiv };
}

impl PartialOrd for Slice {
    ghost partial_cmp = { λ x y. Some (slice_cmp nat_cmp x y) };

    ghost laws = { texts_po };

    fn partial_cmp(&self, other: &Slice) -> Option<Ordering> {
        Some(self.cmp(other))
    }
}

impl Ord for Slice {
    ghost cmp = { slice_cmp nat_cmp };

    ghost total = { nat_list_cmp_total };

    ghost matches_partial_cmp = { λ x y. refl };

    ghost matches_eq = { texts_ties };

    fn cmp(&self, other: &Slice) -> Ordering {
        compare_bytes(self.as_slice(), other.as_slice())
    }
}

impl Hash for Slice {
    ghost hash_input = { fed.slice fed.u8 };

    ghost respects_eq = { Prim.search (hashing, rules) };

    fn hash<H: Hasher>(&self, state: &mut H) {
        self.as_slice().hash(state);
    }
}

impl fmt::Debug for Slice {
    fn fmt<W: fmt::Write>(&self, f: &mut fmt::Formatter<W>) -> fmt::Result {
        write!(f, "b\"{}\"", self.as_slice().escape_ascii())
    }
}
