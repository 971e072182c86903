//! Byte strings whose bytes are shared.
ghost use Rattle.std.specs.Prelude.{◌≡◌, ◌-◌, ◌≤◌, ◌++◌, length, take, drop, slice_range, IfOk};

use crate::error::AllocResult;
use bytes::Bytes;
use std::alloc::Global;
use std::marker::Model;
use std::sync::Arc;

// Words that fill the room of a short byte string.
const FILL: [usize; 2] = [0, 0];

/// A part of the bytes of a `Bytes` that may have several owners. Clauses see the list of its
/// bytes.
///
/// Its room is that of a short byte string's 40 bytes, which are copied as two pieces of 16 bytes
/// and one of 8. The pointer is the last word: where a [`super::Slice`] is moved, its place is
/// moved apart from the others, and these are then the same pieces. A pointer in another place, or
/// a field of one byte, as a `Bytes` has one, would cut the bytes in other pieces, and each read of
/// one of them would wait until those that it lies over are stored. So the `Bytes` lies after the
/// pointer.
#[derive(Drop)]
pub(crate) struct SharedBytes {
    start: usize,
    end: usize,
    fill: [usize; 2],
    owner: Arc<Bytes>,
}

impl Model for SharedBytes {
    ghost use Rattle.std.specs.Prelude.{ℕ, List, ◌-◌, ◌≤◌, ◌<◌, ◌^◌, length, take, drop};

    ghost Value = { List ℕ };

    ghost view = { λ s. take (s.end - s.start) (drop s.start s.owner.value) };

    ghost invariant = { λ s. (s.start ≤ s.end) × (s.end ≤ length s.owner.value)
        × (s.end < 2 ^ 63) };
}

impl SharedBytes {
    /// Shares bytes that a `Bytes` holds. None is copied.
    ///
    /// # Errors
    ///
    /// If an allocation fails.
    pub(crate) fn from_bytes(alloc: Global, bytes: Bytes) -> AllocResult<SharedBytes>
        ensures { IfOk result (λ s. s ≡ bytes) }
    {
        let end = bytes.len();
        match Arc::new(alloc, bytes) {
            Ok(owner) => Ok(SharedBytes {
                start: 0,
                end,
                fill: FILL,
                owner,
            }),
            Err(failed) => Err(failed.into()),
        }
    }

    /// Takes the bytes of a vector.
    ///
    /// # Errors
    ///
    /// If an allocation fails.
    pub(crate) fn from_vec(bytes: Vec<u8>) -> AllocResult<SharedBytes>
        ensures { IfOk result (λ s. s ≡ bytes.items) }
    {
        let alloc = *bytes.allocator();
        match Bytes::from_vec(bytes) {
            Ok(bytes) => SharedBytes::from_bytes(alloc, bytes),
            Err(failed) => Err(failed.into()),
        }
    }

    /// Copies the bytes.
    ///
    /// # Errors
    ///
    /// If an allocation fails.
    pub(crate) fn copied(alloc: Global, bytes: &[u8]) -> AllocResult<SharedBytes>
        ensures { IfOk result (λ s. s ≡ bytes.now) }
    {
        let mut copy = Vec::with_capacity(alloc, bytes.len())?;
        copy.extend_from_slice(bytes)?;
        SharedBytes::from_vec(copy)
    }

    /// Copies two byte strings, the second after the first. It is a call, so that short strings are
    /// joined in registers by those that compile [`super::Slice::fused_fronts`] in.
    ///
    /// # Errors
    ///
    /// If an allocation fails.
    #[inline(never)]
    pub(crate) fn fused(alloc: Global, left: &[u8], right: &[u8]) -> AllocResult<SharedBytes>
        ensures { IfOk result (λ s. s ≡ left.now ++ right.now) }
    {
        let mut both = Vec::with_capacity(alloc, left.len() + right.len())?;
        both.extend_from_slice(left)?;
        both.extend_from_slice(right)?;
        SharedBytes::from_vec(both)
    }

    /// Returns the bytes.
    #[inline(always)]
    pub(crate) fn as_slice(&self) -> &[u8]
        ensures { result.now ≡ self.now }
    {
        &self.owner.as_slice()[self.start..self.end]
    }

    /// Returns the bytes as a `Bytes`, which shares the memory.
    ///
    /// # Errors
    ///
    /// If there are too many owners.
    pub(crate) fn to_bytes(&self) -> AllocResult<Bytes>
        ensures { IfOk result (λ b. b ≡ self.now) }
    {
        self.owner.slice(self.start..self.end)
    }

    /// Returns the bytes from one index to another, which share the memory.
    ///
    /// # Errors
    ///
    /// If there are too many owners.
    #[inline(always)]
    pub(crate) fn part(&self, start: usize, end: usize) -> AllocResult<SharedBytes>
        requires order { start ≤ end }
        requires inside { end ≤ length self.now }
        ensures { IfOk result (λ s. s ≡ slice_range self.now start end) }
    {
        match self.owner.clone() {
            Ok(owner) => Ok(SharedBytes {
                start: self.start + start,
                end: self.start + end,
                fill: FILL,
                owner,
            }),
            Err(error) => Err(error),
        }
    }

    /// Returns another owner of the same bytes.
    ///
    /// # Errors
    ///
    /// If there are too many owners.
    #[inline(always)]
    pub(crate) fn again(&self) -> AllocResult<SharedBytes>
        ensures { IfOk result (λ s. s ≡ self.now) }
    {
        match self.owner.clone() {
            Ok(owner) => Ok(SharedBytes {
                start: self.start,
                end: self.end,
                fill: FILL,
                owner,
            }),
            Err(error) => Err(error),
        }
    }
}
