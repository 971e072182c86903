//! A key of a body, joined of its prefix and the bytes after it.
ghost use Rattle.std.specs.Prelude.{◌≡◌, ◌+◌, ◌-◌, ◌≤◌, ◌++◌, ℕ, List, length, take, drop, OnSome};
ghost use Rattle.std.specs.Prelude.{IsSome};
ghost use Rattle.sst_block_core.specs.Found.{IsRange};
ghost use Rattle.sst_block_core.specs.KeyRanges.{key_by, IsKeyRanges, HasFront};

use crate::table::block::check::keys::KeyRanges;
use crate::table::block::key_ranges::bytes_of;
use sst_base::table::util::SliceIndexes;
use std::alloc::Global;

/// Room in which a key is joined. It begins with the bytes of a range of a body, so that of a key
/// which begins with them only the rest is copied.
#[derive(Drop)]
pub(crate) struct JoinedKey {
    front: SliceIndexes,
    bytes: Vec<u8>,
    // The length of the key.
    len: usize,
    ghost inside: { len ≤ length bytes.items },
    ghost begun: { front.1 - front.0 ≤ length bytes.items },
}

// Puts bytes over those from an index on.
#[inline(always)]
fn put(room: &mut [u8], at: usize, bytes: &[u8])
    requires { at + length bytes.now ≤ length room.old }
    ensures { room.new ≡ take at room.old
        ++ (bytes.now ++ drop (at + length bytes.now) room.old) }
{
    room[at..at + bytes.len()].copy_from_slice(bytes);
}

impl JoinedKey {
    /// Makes room that begins with a range of no bytes.
    pub(crate) fn new(alloc: Global) -> JoinedKey
        ensures { (body : List ℕ) → HasFront body result.front result.bytes.items }
    {
        JoinedKey {
            front: SliceIndexes(0, 0),
            bytes: Vec::new(alloc),
            len: 0,
        }
    }

    // Makes room for a key of this length, after the bytes that are there. Returns `None` if an
    // allocation fails.
    #[cold]
    #[inline(never)]
    fn add_room(&mut self, len: usize) -> Option<()>
        ensures front { self.new.front ≡ self.old.front }
        ensures bytes { OnSome result (take (length self.old.bytes.items) self.new.bytes.items
            ≡ self.old.bytes.items) }
        ensures room { OnSome result (len ≤ length self.new.bytes.items) }
    {
        let more = len.saturating_sub(self.bytes.len());
        self.bytes.resize(self.bytes.len() + more, 0).ok()
    }

    // The same where there is no room.
    #[inline(always)]
    fn make_room(&mut self, len: usize) -> Option<()>
        ensures begun { OnSome result ((body : List ℕ)
            → HasFront body self.old.front self.old.bytes.items
            → HasFront body self.new.front self.new.bytes.items) }
        ensures room { OnSome result (len ≤ length self.new.bytes.items) }
        ensures some { len ≤ length self.old.bytes.items → IsSome result }
    {
        if self.bytes.len() >= len {
            return Some(());
        }
        self.add_room(len)
    }

    // Has the bytes begin with those of this range, for which there is room.
    #[inline(always)]
    fn begin_with(&mut self, body: &[u8], range: &SliceIndexes)
        requires range { IsRange body.now range.now }
        requires room { range.now.1 - range.now.0 ≤ length self.old.bytes.items }
        ensures front { self.new.front ≡ range.now }
        ensures begun { HasFront body.now self.old.front self.old.bytes.items
            → HasFront body.now self.new.front self.new.bytes.items }
        ensures room { length self.new.bytes.items ≡ length self.old.bytes.items }
    {
        if self.front.0 != range.0 || self.front.1 < range.1 {
            put(&mut self.bytes, 0, bytes_of(body, range));
        }
        self.front = *range;
    }

    /// Joins a key. Returns `None` if an allocation fails; where there is room for the key none is
    /// made.
    #[inline(always)]
    pub(crate) fn join(&mut self, body: &[u8], key: &KeyRanges) -> Option<()>
        requires { IsKeyRanges body.now key.now }
        ensures key { OnSome result (HasFront body.now self.old.front self.old.bytes.items
            → take self.new.len self.new.bytes.items ≡ key_by body.now key.now) }
        ensures begun { OnSome result (HasFront body.now self.old.front self.old.bytes.items
            → HasFront body.now self.new.front self.new.bytes.items) }
        ensures some { length (key_by body.now key.now) ≤ length self.old.bytes.items
            → IsSome result }
    {
        let shared_len = key.prefix.1 - key.prefix.0;
        let len = shared_len + (key.rest.1 - key.rest.0);
        self.make_room(len)?;
        self.begin_with(body, &key.prefix);
        put(&mut self.bytes, shared_len, bytes_of(body, &key.rest));
        self.len = len;
        Some(())
    }

    /// Returns the bytes of the key.
    #[inline(always)]
    pub(crate) fn as_slice(&self) -> &[u8]
        ensures { result.now ≡ take self.now.len self.now.bytes.items }
    {
        &self.bytes[..self.len]
    }
}
