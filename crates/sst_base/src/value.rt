//! Entries: internal keys with their values.
ghost use Rattle.std.specs.Prelude.{◌≡◌, ◌≤◌, ◌^◌, ◌<◌, ◌↔◌, IsTrue, []};
ghost use Rattle.std.specs.Prelude.{length};
ghost use Rattle.sst_base.specs.Entry.{Entry, IsEntry};
ghost use Rattle.sst_base.specs.ValueType.{IsTombstone};

use crate::key::{InternalKey, SeqNo, UserKey};
use crate::slice::Slice;
use crate::value_type::ValueType;
use std::alloc::{AllocError, Global};
use std::fmt;
use std::marker::Model;

/// A user value.
pub type UserValue = Slice;

/// An entry: an internal key, whose user key has 1 to 65535 bytes, and a value of at most 2^32 - 1
/// bytes.
#[derive(Drop)]
pub struct InternalValue {
    key: InternalKey,
    value: UserValue,
}

impl Model for InternalValue {
    ghost use Rattle.sst_base.specs.Entry.{Entry, IsEntry};

    ghost Value = { Entry };

    ghost view = { λ e. record { key = e.key; value = e.value } };

    ghost invariant = { λ e. IsEntry (record { key = e.key; value = e.value }) };
}

impl InternalValue {
    /// Makes an entry. The user key has at least 1 byte, and the value at most 2^32 - 1.
    pub fn new(key: InternalKey, value: UserValue) -> InternalValue
        requires some { 1 ≤ length key.user_key }
        requires value { length value < 2 ^ 32 }
        ensures { result ≡ record { key = key; value = value } }
    {
        // The key is within its limits.
        let _fits = key.user_key();
        InternalValue { key, value }
    }

    /// Makes an entry of its parts. The user key has 1 to 65535 bytes, and the value at most 2^32 -
    /// 1.
    pub fn from_components(
        user_key: UserKey,
        value: UserValue,
        seqno: SeqNo,
        value_type: ValueType,
    ) -> InternalValue
        requires some { 1 ≤ length user_key }
        requires key { length user_key ≤ 65535 }
        requires value { length value < 2 ^ 32 }
        ensures { result ≡ record {
          key = record { user_key = user_key; seqno = seqno; value_type = value_type };
          value = value;
        } }
    {
        InternalValue::new(InternalKey::new(user_key, seqno, value_type), value)
    }

    /// Makes a tombstone for a user key of 1 to 65535 bytes. Takes no memory.
    pub fn new_tombstone(alloc: Global, user_key: UserKey, seqno: SeqNo) -> InternalValue
        requires some { 1 ≤ length user_key }
        requires key { length user_key ≤ 65535 }
        ensures { result ≡ record {
          key = record { user_key = user_key; seqno = seqno; value_type = ValueType.Tombstone };
          value = [];
        } }
    {
        InternalValue::from_components(user_key, Slice::empty(alloc), seqno, ValueType::Tombstone)
    }

    /// Makes a weak tombstone for a user key of 1 to 65535 bytes. Takes no memory.
    pub fn new_weak_tombstone(alloc: Global, user_key: UserKey, seqno: SeqNo) -> InternalValue
        requires some { 1 ≤ length user_key }
        requires key { length user_key ≤ 65535 }
        ensures { result ≡ record {
          key = record { user_key = user_key; seqno = seqno; value_type = ValueType.WeakTombstone };
          value = [];
        } }
    {
        InternalValue::from_components(
            user_key,
            Slice::empty(alloc),
            seqno,
            ValueType::WeakTombstone,
        )
    }

    /// Returns the internal key.
    pub fn key(&self) -> &InternalKey
        ensures value { result.now ≡ self.now.key }
        ensures fits { IsEntry self.now }
    {
        &self.key
    }

    /// Returns the value.
    pub fn value(&self) -> &UserValue
        ensures { result.now ≡ self.now.value }
    {
        &self.value
    }

    /// Returns whether the entry is a tombstone.
    pub fn is_tombstone(&self) -> bool
        ensures { IsTrue result ↔ IsTombstone self.now.key.value_type }
    {
        self.key.is_tombstone()
    }
}

impl Clone for InternalValue {
    ghost is_clone = { λ e copy. copy ≡ e };

    fn clone(&self) -> Result<InternalValue, AllocError> {
        Ok(InternalValue {
            key: self.key.clone()?,
            value: self.value.clone()?,
        })
    }
}

impl fmt::Debug for InternalValue {
    fn fmt<W: fmt::Write>(&self, f: &mut fmt::Formatter<W>) -> fmt::Result {
        write!(f, "{:?} = {:?}", self.key, self.value)
    }
}
