//! Writes into a part of an array.
ghost use Rattle.std.specs.Prelude.{◌≡◌, ◌+◌, ◌-◌, ◌≤◌, ◌<◌, length, drop};
ghost use Rattle.xxh3.specs.Pieces.{IsPut};

use crate::sums::STRIPE_LEN;

// Writes the bytes from `at` on.
#[inline(always)]
pub(crate) fn put(window: &mut [u8], at: usize, bytes: &[u8])
    requires { at + length bytes.now ≤ length window.old }
    ensures { IsPut window.old window.new at bytes.now }
{
    window[at..at + bytes.len()].copy_from_slice(bytes);
}

// Writes the last stripe of the bytes, if they have one, at the front.
#[inline(always)]
pub(crate) fn put_last(window: &mut [u8], bytes: &[u8])
    requires { 64 ≤ length window.old }
    ensures stripe { 64 ≤ length bytes.now
        → IsPut window.old window.new 0 (drop (length bytes.now - 64) bytes.now) }
    ensures none { length bytes.now < 64 → window.new ≡ window.old }
{
    if bytes.len() >= STRIPE_LEN {
        put(window, 0, &bytes[bytes.len() - STRIPE_LEN..]);
    }
}
