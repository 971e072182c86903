//! What a pass does with the keys of its items: nothing, or the buckets of a hash index.
ghost use Rattle.std.specs.Prelude.{◌≡◌, ◌↔◌, ℕ, ◌+◌, ◌%◌, ◌<◌, ◌++◌};
ghost use Rattle.std.specs.Prelude.{[], ◌∷◌, List, length};
ghost use Rattle.std.specs.Prelude.{◌≤◌, IsTrue, IfOk, IfSome, OnSome, IsOkUnless, replicate, true};
ghost use Rattle.std.specs.Prelude.{None, take, drop};
ghost use Rattle.sst_block_core.specs.Found.{IsRange};
ghost use Rattle.sst_block_core.specs.KeyRanges.{key_by, IsKeyRanges};
ghost use Rattle.sst_block_core.specs.Passes.{IsHashed, IsBegun, HasTallied, joined_key};
ghost use Rattle.sst_block_core.specs.Passes.{with_bucket};

use crate::block_item::BlockItem;
use crate::table::block::check::joined_key::JoinedKey;
use crate::table::block::check::keys::KeyRanges;
use crate::table::block::hash_index::Builder;
use crate::table::block::key_ranges::bytes_of;
use sst_base::table::util::SliceIndexes;
use sst_base::{BlockHash, Divisor, Error, Result};
use std::alloc::Global;
use std::marker::Model;

/// Takes the key of each item of a pass, in turn.
pub(crate) trait KeySink<Item: BlockItem> {
    // in restart intervals of this length, and with this many buckets, it took the keys of these
    // items of a body
    ghost has_taken: { ℕ → ℕ → List ℕ → Self → List Item → Type 0 };

    /// Takes a key, whose item is the head of its restart interval or not.
    fn take(&mut self, body: &[u8], key: &KeyRanges, is_head: bool)
        requires { IsKeyRanges body.now key.now }
        ensures { (r b : ℕ) (items : List Item) (x : Item) → 0 < r
            → has_taken r b body.now self.old items
            → IsTrue is_head ↔ (length items % r ≡ 0)
            → Item.kind.key x ≡ key_by body.now key.now
            → has_taken r b body.now self.new (items ++ x ∷ []) };
}

/// Takes keys and keeps nothing of them.
#[derive(Drop)]
pub(crate) struct NoTally;

impl<Item: BlockItem> KeySink<Item> for NoTally {
    ghost has_taken = { λ _ _ _ _ _. Unit {0} };

    #[inline(always)]
    fn take(&mut self, body: &[u8], key: &KeyRanges, is_head: bool) {
        let _ = body;
        let _ = key;
        let _ = is_head;
    }
}

/// The shared prefix of a key: its range of a body, and its hash where that can be continued.
#[derive(Clone, Copy)]
pub(crate) struct HashedPrefix {
    range: SliceIndexes,
    hash: Option<u64>,
}

/// The buckets of the keys that it took. Clauses see their bytes, the number of heads modulo 2^8,
/// whether all memory that it requested was allocated, the prefix of the last key, and the key that
/// is joined, which a hash function that cannot be continued needs.
///
/// The bucket of a joined key is noted when the next key comes: bytes that were just written in
/// pieces are read as words only after a wait. Clauses see the buckets as if it were noted at once.
#[derive(Drop)]
pub(crate) struct Tally<H: BlockHash> {
    buckets: Builder<H>,
    bucket_count: Divisor,
    prefix: HashedPrefix,
    joined: JoinedKey,
    // The restart interval of the joined key, until its bucket is noted.
    waiting: Option<u8>,
    heads: u8,
    has_memory: bool,
}

impl<H: BlockHash> Model for Tally<H> {
    ghost use Rattle.std.specs.Prelude.{◌≡◌, ◌<◌, length};
    ghost use Rattle.sst_block_core.specs.Passes.{TallyState, joined_key, noted_late};

    ghost Value = { TallyState };

    ghost view = { λ t.
        record {
          table = noted_late H.hash64 t.buckets t.waiting (joined_key t.joined);
          heads = t.heads;
          has_memory = t.has_memory;
          prefix = t.prefix;
          joined = t.joined;
          waiting = t.waiting;
        } };

    ghost invariant = { λ t. (t.bucket_count ≡ length t.buckets) × (0 < length t.buckets) };
}

// The hash of a prefix, where it can be continued.
#[inline(always)]
fn prefix_hash<H: BlockHash>(prefix: &[u8]) -> Option<u64>
    ensures { IfSome result (λ hash. H.hash64 prefix.now ≡ hash) }
{
    H::hash64_behind(0, &[])?;
    Some(H::hash64(prefix))
}

// The shared prefix of a key with its hash, given that of the key before: mostly they are the same.
#[inline(always)]
fn prefix_at<H: BlockHash>(last: &HashedPrefix, body: &[u8], range: &SliceIndexes) -> HashedPrefix
    requires { IsRange body.now range.now }
    ensures range { result.range ≡ range.now }
    ensures hash { IsHashed H.hash64 body.now last.now → IsHashed H.hash64 body.now result }
{
    if last.range.0 == range.0 && last.range.1 == range.1 {
        return *last;
    }
    HashedPrefix {
        range: *range,
        hash: prefix_hash::<H>(bytes_of(body, range)),
    }
}

// The hash of a key with this shared prefix, where the key need not be joined.
#[inline(always)]
fn hash_of<H: BlockHash>(prefix: &HashedPrefix, body: &[u8], key: &KeyRanges) -> Option<u64>
    requires ranges { IsKeyRanges body.now key.now }
    requires prefix { prefix.now.range ≡ key.now.prefix }
    ensures { IfSome result
        (λ hash. IsHashed H.hash64 body.now prefix.now
        → hash ≡ H.hash64 (key_by body.now key.now)) }
{
    if let Some(so_far) = prefix.hash {
        if let Some(hash) = H::hash64_behind(so_far, bytes_of(body, &key.rest)) {
            return Some(hash);
        }
    }
    if key.rest.0 == key.rest.1 {
        return Some(H::hash64(bytes_of(body, &key.prefix)));
    }
    None
}

// The number of heads, modulo 2^8, with an item more.
#[inline(always)]
fn heads_with(heads: u8, is_head: bool) -> u8
    ensures head { IsTrue is_head → result ≡ (heads + 1) % 256 }
    ensures rest { (IsTrue is_head → ⊥) → result ≡ heads }
{
    if is_head {
        heads.wrapping_add(1)
    } else {
        heads
    }
}

// The index of the last restart interval, of their count.
#[inline(always)]
fn last_number(heads: u8) -> u8
    ensures { 0 < heads → result + 1 ≡ heads }
{
    heads.wrapping_sub(1)
}

// Returns whether two byte strings are the same.
#[inline(always)]
fn is_same(a: &[u8], b: &[u8]) -> bool
    ensures { IsTrue result ↔ (a.now ≡ b.now) }
{
    a == b
}

impl<H: BlockHash> Tally<H> {
    /// Makes this many buckets, at least one, all free.
    ///
    /// # Errors
    ///
    /// `Error::Memory` if an allocation fails.
    pub(crate) fn new(alloc: Global, bucket_count: u32) -> Result<Tally<H>>
        requires { 0 < bucket_count }
        ensures buckets { IfOk result (λ t. t.table ≡ replicate bucket_count 254) }
        ensures heads { IfOk result (λ t. t.heads ≡ 0) }
        ensures keys { IfOk result
            (λ t. (body : List ℕ) → IsHashed H.hash64 body t.prefix × IsBegun body t.joined) }
        ensures allocated { IfOk result (λ t. t.has_memory ≡ true) }
        ensures memory { IsOkUnless result Error.Memory }
    {
        Ok(Tally {
            buckets: Builder::with_bucket_count(alloc, bucket_count)?,
            bucket_count: Divisor::new(u64::from(bucket_count)),
            prefix: HashedPrefix {
                range: SliceIndexes(0, 0),
                hash: None,
            },
            joined: JoinedKey::new(alloc),
            waiting: None,
            heads: 0,
            has_memory: true,
        })
    }

    // Notes that a key of this hash is in a restart interval.
    #[inline(always)]
    fn note(&mut self, hash: u64, interval_number: u8)
        requires { self.old.waiting ≡ None }
        ensures { self.new ≡ record {
          table = with_bucket self.old.table hash interval_number;
          heads = self.old.heads;
          has_memory = self.old.has_memory;
          prefix = self.old.prefix;
          joined = self.old.joined;
          waiting = None;
        } }
    {
        let index = self.bucket_count.remainder(hash) as usize;
        self.buckets.set_at(index, interval_number);
    }

    // Notes the joined key that waits.
    #[inline(always)]
    fn note_waiting(&mut self)
        ensures { self.new ≡ record {
          table = self.old.table;
          heads = self.old.heads;
          has_memory = self.old.has_memory;
          prefix = self.old.prefix;
          joined = self.old.joined;
          waiting = None;
        } }
    {
        if let Some(interval_number) = self.waiting {
            self.waiting = None;
            let hash = H::hash64(self.joined.as_slice());
            self.note(hash, interval_number);
        }
    }

    /// Returns whether all memory that it requested was allocated.
    pub(crate) fn has_memory(&self) -> bool
        ensures { result ≡ self.now.has_memory }
    {
        self.has_memory
    }

    /// Returns whether these are the bytes of its buckets.
    pub(crate) fn has_buckets(&mut self, stored: &[u8]) -> bool
        ensures { IsTrue result ↔ (self.old.table ≡ stored.now) }
    {
        self.note_waiting();
        is_same(self.buckets.as_slice(), stored)
    }
}

impl<Item: BlockItem, H: BlockHash> KeySink<Item> for Tally<H> {
    ghost has_taken = { λ r b body tally items.
        HasTallied Item.kind H.hash64 r b body tally items };

    #[inline(always)]
    fn take(&mut self, body: &[u8], key: &KeyRanges, is_head: bool) {
        self.note_waiting();
        let heads = heads_with(self.heads, is_head);
        let prefix = prefix_at::<H>(&self.prefix, body, &key.prefix);
        let interval_number = last_number(heads);
        self.heads = heads;
        self.prefix = prefix;
        if let Some(hash) = hash_of::<H>(&prefix, body, key) {
            self.note(hash, interval_number);
            return;
        }
        match self.joined.join(body, key) {
            Some(()) => self.waiting = Some(interval_number),
            None => self.has_memory = false,
        }
    }
}
