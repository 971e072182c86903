//! Block handles with the end key of their block, which are the items of an index block.
ghost use Rattle.std.specs.Prelude.{◌≡◌, ◌+◌, ◌≤◌, ◌<◌, ◌^◌, length};
ghost use Rattle.std.specs.Prelude.{nat_eq};
ghost use Rattle.std.specs.Cmp.Lexicographic.{pointwise, nat_list_eq_equiv};
ghost use Rattle.std.specs.Cmp.Rules.{comparing};
ghost use Rattle.std.specs.Ordering.{on, eq_of_both};
ghost use Rattle.std.proofs.Common.{rules};
ghost use Rattle.sst_block_core.specs.Handles.{handles, IsHandle};
ghost use Rattle.sst_block_core.specs.Kind.{item_cmp};

pub use sst_base::table::block::{BlockHandle, BlockOffset};
use sst_base::{AllocResult, SeqNo, UserKey};
use std::cmp::Ordering;
use std::fmt;
use std::marker::Model;

/// The handle of a block, with the key and the sequence number of its last entry. The end key has
/// at most 65535 bytes, and may be empty.
#[derive(Drop)]
pub struct KeyedBlockHandle {
    end_key: UserKey,
    seqno: SeqNo,
    inner: BlockHandle,
}

impl Model for KeyedBlockHandle {
    ghost use Rattle.sst_block_core.specs.Handles.{Handle, IsHandle};

    ghost Value = { Handle };

    ghost view = { λ h.
        record {
          offset = h.inner.offset;
          size = h.inner.size;
          seqno = h.seqno;
          end_key = h.end_key;
        } };

    ghost invariant = { λ h. IsHandle
        (record
        { offset = h.inner.offset; size = h.inner.size; seqno = h.seqno; end_key = h.end_key }) };
}

impl KeyedBlockHandle {
    /// Makes a handle of a block whose last entry has this key, of at most 65535 bytes, and this
    /// sequence number.
    pub fn new(end_key: UserKey, seqno: SeqNo, handle: BlockHandle) -> KeyedBlockHandle
        requires { length end_key ≤ 65535 }
        ensures { result
            ≡ record {
              offset = handle.offset;
              size = handle.size;
              seqno = seqno;
              end_key = end_key;
            } }
    {
        // An offset has 64 bits.
        let _offset = handle.offset();
        // A size has 32 bits.
        let _size = handle.size();
        KeyedBlockHandle {
            end_key,
            seqno,
            inner: handle,
        }
    }

    /// Returns the handle without its end key.
    pub fn into_inner(self) -> BlockHandle
        ensures { result ≡ record { offset = self.offset; size = self.size } }
    {
        self.inner
    }

    /// Returns the sequence number of the block's last entry.
    pub fn seqno(&self) -> SeqNo
        ensures { result ≡ self.now.seqno }
    {
        self.seqno
    }

    /// Adds a number of bytes to the block's offset. The sum is below 2^64.
    pub fn shift(&mut self, delta: BlockOffset)
        requires { self.old.offset + delta.0 < 2 ^ 64 }
        ensures offset { self.new.offset ≡ self.old.offset + delta.0 }
        ensures size { self.new.size ≡ self.old.size }
        ensures seqno { self.new.seqno ≡ self.old.seqno }
        ensures end_key { self.new.end_key ≡ self.old.end_key }
    {
        let mut offset = self.inner.offset();
        offset += delta;
        self.inner = BlockHandle::new(offset, self.inner.size());
    }

    /// Returns the length of the block's frame in bytes.
    pub fn size(&self) -> u32
        ensures { result ≡ self.now.size }
    {
        self.inner.size()
    }

    /// Returns the offset of the block's frame.
    pub fn offset(&self) -> BlockOffset
        ensures { result.0 ≡ self.now.offset }
    {
        self.inner.offset()
    }

    /// Returns the key of the block's last entry.
    pub fn end_key(&self) -> &UserKey
        ensures value { result.now ≡ self.now.end_key }
        ensures fits { IsHandle self.now }
    {
        &self.end_key
    }
}

/// Borrows the handle without its end key.
impl AsRef<BlockHandle> for KeyedBlockHandle {
    fn as_ref(&self) -> &BlockHandle
        ensures { result.now ≡ record { offset = self.now.offset; size = self.now.size } }
    {
        &self.inner
    }
}

impl KeyedBlockHandle {
    // Compares two handles: by end key rising, then by sequence number falling.
    pub(crate) fn compare(&self, other: &KeyedBlockHandle) -> Ordering
        ensures { result ≡ item_cmp handles self.now other.now }
    {
        self.end_key
            .cmp(&other.end_key)
            .then(other.seqno.cmp(&self.seqno))
    }
}

/// Two handles are equal where their end keys, sequence numbers, offsets and sizes are.
impl PartialEq for KeyedBlockHandle {
    ghost eq = { eq_of_both (on (λ h. h.end_key) (pointwise nat_eq))
        (eq_of_both (on (λ h. h.seqno) nat_eq)
        (eq_of_both (on (λ h. h.offset) nat_eq) (on (λ h. h.size) nat_eq))) };

    ghost laws = { Prim.search (comparing, rules, nat_list_eq_equiv) depth 12 };

    fn eq(&self, other: &KeyedBlockHandle) -> bool {
        self.end_key == other.end_key
            && self.seqno == other.seqno
            && *self.inner.offset() == *other.inner.offset()
            && self.inner.size() == other.inner.size()
    }
}

impl Eq for KeyedBlockHandle {
    ghost laws = { Prim.search (comparing, rules, nat_list_eq_equiv) depth 12 };
}

impl Clone for KeyedBlockHandle {
    ghost is_clone = { λ h copy. copy ≡ h };

    fn clone(&self) -> AllocResult<KeyedBlockHandle> {
        Ok(KeyedBlockHandle {
            end_key: self.end_key.clone()?,
            seqno: self.seqno,
            inner: self.inner,
        })
    }
}

impl fmt::Debug for KeyedBlockHandle {
    fn fmt<W: fmt::Write>(&self, f: &mut fmt::Formatter<W>) -> fmt::Result {
        write!(f, "{:?}:{} -> {:?}", self.end_key, self.seqno, self.inner)
    }
}
