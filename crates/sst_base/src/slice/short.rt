//! Byte strings that are held in place.
ghost use Rattle.std.specs.Prelude.{◌≡◌, ◌+◌, ◌≤◌, ◌++◌, length, take, drop};

use std::marker::Model;

/// The greatest number of bytes that are held in place.
pub const SHORT_LEN: usize = 40;

// Room for two arrays of that length.
const WIDE_LEN: usize = 2 * SHORT_LEN;

/// At most [`SHORT_LEN`] bytes, held in place. Clauses see the list of bytes.
#[derive(Drop)]
pub(crate) struct ShortBytes {
    len: u32,
    bytes: [u8; SHORT_LEN],
}

impl Model for ShortBytes {
    ghost use Rattle.std.specs.Prelude.{ℕ, List, ◌≤◌, take};

    ghost Value = { List ℕ };

    ghost view = { λ s. take s.len s.bytes };

    ghost invariant = { λ s. s.len ≤ 40 };
}

impl ShortBytes {
    /// Copies the bytes.
    #[inline(always)]
    pub(crate) fn new(bytes: &[u8]) -> ShortBytes
        requires { length bytes.now ≤ 40 }
        ensures { result ≡ bytes.now }
    {
        ShortBytes::joined(bytes, &[])
    }

    /// Copies two byte strings, the second after the first.
    #[inline(always)]
    pub(crate) fn joined(left: &[u8], right: &[u8]) -> ShortBytes
        requires { length left.now + length right.now ≤ 40 }
        ensures { result ≡ left.now ++ right.now }
    {
        let mut bytes = [0u8; SHORT_LEN];
        let len = left.len() + right.len();
        bytes[..left.len()].copy_from_slice(left);
        bytes[left.len()..len].copy_from_slice(right);
        ShortBytes {
            len: len as u32,
            bytes,
        }
    }

    /// Copies the first `len` bytes of a byte string, where more follow as a whole array: so the
    /// copy has one length, and goes by registers.
    #[inline(always)]
    pub(crate) fn front(bytes: &[u8], len: usize) -> ShortBytes
        requires inside { len ≤ length bytes.now }
        requires short { len ≤ 40 }
        ensures { result ≡ take len bytes.now }
    {
        match bytes.first_chunk::<SHORT_LEN>() {
            Some(front) => ShortBytes {
                len: len as u32,
                bytes: *front,
            },
            None => {
                let (part, _) = bytes.split_at(len);
                ShortBytes::new(part)
            }
        }
    }

    /// Copies the first bytes of two byte strings, the second's after the first's, where more
    /// follow both as whole arrays: so both copies have one length, and go by registers.
    #[inline(always)]
    pub(crate) fn joined_fronts(
        left: &[u8],
        left_len: usize,
        right: &[u8],
        right_len: usize,
    ) -> ShortBytes
        requires left_inside { left_len ≤ length left.now }
        requires right_inside { right_len ≤ length right.now }
        requires short { left_len + right_len ≤ 40 }
        ensures { result ≡ take left_len left.now ++ take right_len right.now }
    {
        match (
            left.first_chunk::<SHORT_LEN>(),
            right.first_chunk::<SHORT_LEN>(),
        ) {
            (Some(left), Some(right)) => joined_chunks(left, left_len, right, right_len),
            _ => {
                let (left, _) = left.split_at(left_len);
                let (right, _) = right.split_at(right_len);
                ShortBytes::joined(left, right)
            }
        }
    }

    /// Returns the bytes.
    #[inline(always)]
    pub(crate) fn as_slice(&self) -> &[u8]
        ensures value { result.now ≡ self.now }
        ensures fits { length result.now ≤ 40 }
    {
        &self.bytes[..self.len as usize]
    }

    /// Returns the array that holds the bytes, and their number.
    #[inline(always)]
    pub(crate) fn parts(&self) -> (&[u8; SHORT_LEN], usize)
        ensures bytes { take result.1 result.0.now ≡ self.now }
        ensures len { result.1 ≤ 40 }
        ensures array { length result.0.now ≡ 40 }
    {
        (&self.bytes, self.len as usize)
    }

    /// Returns a copy.
    #[inline(always)]
    pub(crate) fn again(&self) -> ShortBytes
        ensures { result ≡ self.now }
    {
        ShortBytes {
            len: self.len,
            bytes: self.bytes,
        }
    }
}

// Copies an array over the bytes from an index.
#[inline(always)]
fn put_array(wide: &mut [u8; WIDE_LEN], at: usize, chunk: &[u8; SHORT_LEN])
    requires { at ≤ 40 }
    ensures { wide.new ≡ take at wide.old ++ (chunk.now ++ drop (at + 40) wide.old) }
{
    wide[at..at + SHORT_LEN].copy_from_slice(chunk);
}

// The first half of an array.
#[inline(always)]
fn first_half(wide: &[u8; WIDE_LEN]) -> [u8; SHORT_LEN]
    ensures { result ≡ take 40 wide.now }
{
    let mut bytes = [0u8; SHORT_LEN];
    bytes.copy_from_slice(&wide[..SHORT_LEN]);
    bytes
}

// The first bytes of two arrays, joined.
#[inline(always)]
fn joined_chunks(
    left: &[u8; SHORT_LEN],
    left_len: usize,
    right: &[u8; SHORT_LEN],
    right_len: usize,
) -> ShortBytes
    requires { left_len + right_len ≤ 40 }
    ensures { result ≡ take left_len left.now ++ take right_len right.now }
{
    let mut wide = [0u8; WIDE_LEN];
    put_array(&mut wide, 0, left);
    put_array(&mut wide, left_len, right);
    ShortBytes {
        len: (left_len + right_len) as u32,
        bytes: first_half(&wide),
    }
}
