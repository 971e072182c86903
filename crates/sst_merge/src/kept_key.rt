//! User keys that are kept when their entries are gone.
ghost use Rattle.std.specs.Prelude.{◌≡◌, ◌++◌, ℕ, IfOk, IsOkUnless, List, Some, false, true};
ghost use Rattle.sst_merge.specs.Snapshot.{has_last_key};
ghost use Rattle.std.specs.Cmp.Lexicographic.{slice_cmp};
ghost use Rattle.std.specs.Ordering.{is_eq, nat_cmp};
ghost use Rattle.sstable_blocks.specs.Results.{Memory};

use sstable_blocks::{AsEntry, EntryView, InternalValue, Result, UserKey};
use std::alloc::Global;
use std::marker::Model;

/// An entry whose user key can be kept when the entry is gone: with it later entries are compared.
pub trait KeepsKey: AsEntry {
    /// What is kept.
    type Key: Drop;

    // the bytes of a key that is kept
    ghost bytes: { Self.Key → List ℕ };

    /// Returns what is kept of its user key.
    ///
    /// # Errors
    ///
    /// `Error::Memory` if an allocation fails.
    fn keep_key(&self, alloc: Global) -> Result<Self::Key>
        ensures kept { IfOk result (λ key. bytes key ≡ (Self.entry self.now).key.user_key) }
        ensures memory { IsOkUnless result Memory };

    /// Returns whether its user key is one that is kept.
    fn has_key(&self, key: &Self::Key) -> bool
        ensures { result ≡ is_eq
            (slice_cmp nat_cmp (Self.entry self.now).key.user_key (bytes key.now)) };
}

/// The key itself, which shares its bytes, or copies up to 40.
impl KeepsKey for InternalValue {
    type Key = UserKey;

    ghost bytes = { λ key. key };

    fn keep_key(&self, _alloc: Global) -> Result<UserKey> {
        Ok(self.key().user_key().clone()?)
    }

    fn has_key(&self, key: &UserKey) -> bool {
        self.view().compare_key(key.as_slice()).is_eq()
    }
}

// Whether two byte strings end with the same byte, or one of them has none.
#[inline(always)]
#[tactic(auto, using(crate::specs::KeyedLaws::same_last))]
fn may_end_alike(bytes: &[u8], other: &[u8]) -> bool
    ensures { (front more : List ℕ) → front ++ bytes.now ≡ more ++ other.now → result ≡ true }
{
    match (bytes.last(), other.last()) {
        (Some(byte), Some(other)) => *byte == *other,
        _ => true,
    }
}

// Whether two entries may have the same user key: their keys have one length, and end alike.
#[inline(always)]
fn may_be_alike(entry: &EntryView<'_>, other: &EntryView<'_>) -> bool
    ensures { result ≡ false → entry.now.key.user_key ≡ other.now.key.user_key → ⊥ }
{
    let (_, rest) = entry.key_parts();
    let (_, other_rest) = other.key_parts();
    entry.key_len() == other.key_len() && may_end_alike(rest, other_rest)
}

/// A view, which borrows the bytes of its block: nothing is copied, and no memory is taken.
impl<'a> KeepsKey for EntryView<'a> {
    type Key = EntryView<'a>;

    ghost bytes = { λ e. e.key.user_key };

    #[inline(always)]
    fn keep_key(&self, _alloc: Global) -> Result<EntryView<'a>> {
        Ok(self.again())
    }

    #[inline(always)]
    #[tactic(auto, using(crate::specs::KeyedLaws::not_alike))]
    fn has_key(&self, key: &EntryView<'a>) -> bool {
        may_be_alike(self, key) && self.compare_user_key(key).is_eq()
    }
}

/// The user key of the last version that was met. Clauses see the key.
#[derive(Drop)]
pub struct LastKey<T: KeepsKey> {
    key: T::Key,
}

impl<T: KeepsKey> Model for LastKey<T> {
    ghost use Rattle.std.specs.Prelude.{ℕ, List};

    ghost Value = { List ℕ };

    ghost view = { λ last. T.bytes last.key };
}

impl<T: KeepsKey> LastKey<T> {
    /// Returns the user key of an entry.
    ///
    /// # Errors
    ///
    /// `Error::Memory` if an allocation fails.
    #[inline(always)]
    pub fn of(alloc: Global, item: &T) -> Result<LastKey<T>>
        ensures kept { IfOk result (λ last. last ≡ (T.entry item.now).key.user_key) }
        ensures memory { IsOkUnless result Memory }
    {
        match item.keep_key(alloc) {
            Ok(key) => Ok(LastKey { key }),
            Err(error) => Err(error),
        }
    }

    /// Returns whether an entry has this user key.
    #[inline(always)]
    pub fn is_of(&self, item: &T) -> bool
        ensures { result ≡ has_last_key T.entry (Some self.now) item.now }
    {
        item.has_key(&self.key)
    }
}
