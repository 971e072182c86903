//! Internal keys: a user key at a sequence number.
ghost use Rattle.std.specs.Prelude.{◌≡◌, ◌≤◌, length, nat_eq, IsTrue, ◌↔◌};
ghost use Rattle.std.specs.Cmp.Lexicographic.{pointwise, nat_list_eq_equiv};
ghost use Rattle.std.specs.Cmp.{partial_order_from_own_ties};
ghost use Rattle.std.specs.Cmp.Rules.{comparing};
ghost use Rattle.std.specs.Ordering.{as_partial_cmp, on, eq_of_both};
ghost use Rattle.std.proofs.Common.{rules};
ghost use Rattle.sst_base.specs.Key.{Key, IsKey};
ghost use Rattle.sst_base.specs.Order.{key_cmp};
ghost use Rattle.sst_base.specs.ValueType.{IsTombstone};

use crate::slice::Slice;
use crate::value_type::{TypeWord, ValueType};
use std::alloc::AllocError;
use std::cmp::Ordering;
use std::fmt;
use std::marker::Model;

/// A user key.
pub type UserKey = Slice;

/// A sequence number: the greater, the newer.
pub type SeqNo = u64;

/// The greatest length of a user key in bytes.
pub const MAX_KEY_LEN: usize = 65535;

/// An internal key: a user key of at most 65535 bytes, a sequence number and a value type.
///
/// Internal keys compare by user key rising, then by sequence number falling. The value type plays
/// no part.
#[derive(Drop)]
pub struct InternalKey {
    user_key: UserKey,
    seqno: SeqNo,
    value_type: TypeWord,
}

impl Model for InternalKey {
    ghost use Rattle.std.specs.Prelude.{◌≤◌, length};
    ghost use Rattle.sst_base.specs.Key.{Key};

    ghost Value = { Key };

    ghost view = { λ k.
        record { user_key = k.user_key; seqno = k.seqno; value_type = k.value_type } };

    ghost invariant = { λ k. length k.user_key ≤ 65535 };
}

impl InternalKey {
    /// Makes an internal key. The user key has at most [`MAX_KEY_LEN`] bytes.
    pub fn new(user_key: UserKey, seqno: SeqNo, value_type: ValueType) -> InternalKey
        requires { length user_key ≤ 65535 }
        ensures { result
            ≡ record { user_key = user_key; seqno = seqno; value_type = value_type } }
    {
        InternalKey {
            user_key,
            seqno,
            value_type: TypeWord::new(value_type),
        }
    }

    /// Returns the user key.
    pub fn user_key(&self) -> &UserKey
        ensures value { result.now ≡ self.now.user_key }
        ensures fits { IsKey self.now }
    {
        // A sequence number has 64 bits.
        let _range = self.seqno;
        &self.user_key
    }

    /// Returns the sequence number.
    pub fn seqno(&self) -> SeqNo
        ensures { result ≡ self.now.seqno }
    {
        self.seqno
    }

    /// Returns the value type.
    pub fn value_type(&self) -> ValueType
        ensures { result ≡ self.now.value_type }
    {
        self.value_type.get()
    }

    /// Returns whether the value type is a tombstone.
    pub fn is_tombstone(&self) -> bool
        ensures { IsTrue result ↔ IsTombstone self.now.value_type }
    {
        self.value_type().is_tombstone()
    }
}

impl PartialEq for InternalKey {
    ghost eq = { eq_of_both (on (λ k. k.user_key) (pointwise nat_eq))
        (on (λ k. k.seqno) nat_eq) };

    ghost laws = { Prim.search (comparing, rules, nat_list_eq_equiv) depth 9 };

    fn eq(&self, other: &InternalKey) -> bool {
        self.user_key == other.user_key && self.seqno == other.seqno
    }
}

impl Eq for InternalKey {
    ghost laws = { Prim.search (comparing, rules, nat_list_eq_equiv) depth 9 };
}

impl PartialOrd for InternalKey {
    ghost partial_cmp = { as_partial_cmp key_cmp };

    ghost laws = { partial_order_from_own_ties (Prim.search (comparing, rules))
        (Prim.search (comparing, rules)) };

    fn partial_cmp(&self, other: &InternalKey) -> Option<Ordering> {
        Some(self.cmp(other))
    }
}

impl Ord for InternalKey {
    ghost cmp = { key_cmp };

    ghost total = { Prim.search (comparing, rules) };

    ghost matches_partial_cmp = { Prim.search (comparing, rules) };

    ghost matches_eq = { Prim.search (comparing, rules) };

    fn cmp(&self, other: &InternalKey) -> Ordering {
        self.user_key
            .cmp(&other.user_key)
            .then(other.seqno.cmp(&self.seqno))
    }
}

impl Clone for InternalKey {
    ghost is_clone = { λ k copy. copy ≡ k };

    fn clone(&self) -> Result<InternalKey, AllocError> {
        Ok(InternalKey {
            user_key: self.user_key.clone()?,
            seqno: self.seqno,
            value_type: self.value_type.again(),
        })
    }
}

impl fmt::Debug for InternalKey {
    fn fmt<W: fmt::Write>(&self, f: &mut fmt::Formatter<W>) -> fmt::Result {
        write!(
            f,
            "{:?}:{}:{:?}",
            self.user_key,
            self.seqno,
            self.value_type()
        )
    }
}
