//! A cache, which tables share.
ghost use Rattle.std.specs.Prelude.{◌≡◌, ◌+◌, ◌-◌, ◌^◌, ◌<◌, ◌≤◌, ◌==◌, ◌↔◌, ◌∷◌, ◌++◌, [], ℕ, List};
ghost use Rattle.std.specs.Prelude.{None, IfOk, IfSome, Option};
ghost use Rattle.std.specs.Prelude.{IfNone, IsNone, IsOkUnless, false, is_some, length};
ghost use Rattle.std.specs.Prelude.{option_copied, true};
ghost use Rattle.lru.specs.LruCache.{lru_cache};
ghost use Rattle.sst_parts.specs.Caches.{IsGiven, IsKept, IsLatest, Keeps, Place, empty_cache, fitting};
ghost use Rattle.sst_parts.specs.Caches.{kept_at, kept_bytes, looked_up, place_at};
ghost use Rattle.sstable_blocks.specs.Prelude.{HandleParts};

use lru::LruCache;
use sstable_blocks::ghost_state::History;
use sstable_blocks::run::FrameSource;
use sstable_blocks::{BlockHandle, Error, Result};
use std::alloc::Global;
use std::collections::LinkedList;
use std::marker::Model;

/// What a cache keeps of a range of a table's source: what was read there, verified and checked.
pub trait Cached: Drop {
    // It is what is in a range of a source with these bytes, if they are known.
    ghost is_of: { Option (List ℕ) → HandleParts → Self → Type 0 };

    // How many bytes it is counted for.
    ghost size: { Self → ℕ };

    /// Returns how many bytes it is counted for.
    fn byte_count(&self) -> u64
        ensures { result ≡ size self.now };
}

/// What was read of any number of tables: the most recently used, of which the bytes are limited.
///
/// Clauses see what is kept, each with the number of its table and its range in the source, the
/// most recently used first; the limit; the counts of look-ups and of what was not kept, modulo
/// 2^64; and for each table's number the bytes of its source, if these are known. What is kept is
/// always what is in its range of the source of its table.
#[derive(Drop)]
pub struct Cache<V: Cached> {
    kept: LruCache<(u64, (u64, u32)), V>,
    bytes: u64,
    most: u64,
    hits: u64,
    misses: u64,
    oversized: u64,
    failed: u64,
    next: u64,
    tables: History<Option<LinkedList<u8>>>,
}

impl<V: Cached> Model for Cache<V> {
    ghost use Rattle.sst_parts.specs.Caches.{CacheParts, IsCache};

    ghost Value = { CacheParts V };

    ghost view = { λ c. record {
      kept = c.kept.entries;
      most = c.most;
      hits = c.hits;
      misses = c.misses;
      oversized = c.oversized;
      failed = c.failed;
      tables = c.tables;
    } };

    ghost invariant = { λ c. IsCache V.is_of V.size c.bytes c.next c.kept.cap
        (record {
          kept = c.kept.entries;
          most = c.most;
          hits = c.hits;
          misses = c.misses;
          oversized = c.oversized;
          failed = c.failed;
          tables = c.tables;
        }) };
}

// The key of a range of a table.
#[inline(always)]
fn key_of(number: u64, range: &BlockHandle) -> (u64, (u64, u32))
    ensures { result ≡ place_at number range.now }
{
    (number, (*range.offset(), range.size()))
}

// Removes the least recently used, of what has so many bytes, and returns the bytes of the others.
fn remove_last<V: Cached>(kept: &mut LruCache<(u64, (u64, u32)), V>, bytes: u64) -> u64
    requires bytes { bytes ≡ kept_bytes V.size kept.old.entries }
    requires some { 0 < bytes }
    ensures fitting { (room : ℕ) → room < bytes
        → fitting V.size room kept.new.entries ≡ fitting V.size room kept.old.entries }
    ensures bytes { result ≡ kept_bytes V.size kept.new.entries }
    ensures fewer { length kept.new.entries < length kept.old.entries }
    ensures cap { kept.new.cap ≡ kept.old.cap }
{
    match kept.pop_lru() {
        Some((_, last)) => bytes - last.byte_count(),
        None => unreachable!(),
    }
}

// Removes the least recently used, of what has so many bytes, until the others have at most so
// many, and returns how many these have.
fn evict<V: Cached>(kept: &mut LruCache<(u64, (u64, u32)), V>, bytes: u64, room: u64) -> u64
    requires { bytes ≡ kept_bytes V.size kept.old.entries }
    ensures kept { kept.new ≡ lru_cache (fitting V.size room kept.old.entries) kept.old.cap }
    ensures bytes { result ≡ kept_bytes V.size (fitting V.size room kept.old.entries) }
    ensures fits { result ≤ room }
{
    let mut bytes = bytes;
    while bytes > room {
        bytes = remove_last(kept, bytes);
    }
    bytes
}

// Puts something before others, unless an allocation fails, and returns whether it did.
fn put_first<V: Cached>(
    kept: &mut LruCache<(u64, (u64, u32)), V>,
    number: u64,
    range: &BlockHandle,
    value: V,
) -> bool
    requires absent { kept_at kept.old.entries (place_at number range.now) ≡ None }
    requires unbounded { kept.old.cap ≡ 2 ^ 64 - 1 }
    ensures put { result ≡ true → kept.new
        ≡ lru_cache ((place_at number range.now, value) ∷ kept.old.entries) kept.old.cap }
    ensures failed { result ≡ false → kept.new ≡ kept.old }
{
    // There are fewer than 2^63.
    let _len = kept.len();
    kept.put(key_of(number, range), value).is_ok()
}

impl<V: Cached> Cache<V> {
    /// Makes an empty cache. What it keeps has at most `most` bytes in all: what has more is not
    /// kept.
    ///
    /// # Errors
    ///
    /// `Error::Memory` if an allocation fails.
    pub fn new(alloc: Global, most: u64) -> Result<Cache<V>>
        ensures made { IfOk result (λ c. c ≡ empty_cache most) }
        ensures memory { IsOkUnless result Error.Memory }
    {
        let kept = LruCache::unbounded(alloc)?;
        Ok(Cache {
            kept,
            bytes: 0,
            most,
            hits: 0,
            misses: 0,
            oversized: 0,
            failed: 0,
            next: 0,
            tables: History::new(),
        })
    }

    /// Returns how many it keeps.
    pub fn len(&self) -> usize
        ensures { result ≡ length self.now.kept }
    {
        self.kept.len()
    }

    /// Returns whether it keeps none.
    pub fn is_empty(&self) -> bool
        ensures { result ≡ (length self.now.kept == 0) }
    {
        self.kept.is_empty()
    }

    /// Returns how many bytes all that it keeps has.
    pub fn bytes(&self) -> u64
        ensures value { result ≡ kept_bytes V.size self.now.kept }
        ensures fits { result ≤ self.now.most }
    {
        self.bytes
    }

    /// Returns how many look-ups found what they asked for, modulo 2^64.
    pub fn hits(&self) -> u64
        ensures { result ≡ self.now.hits }
    {
        self.hits
    }

    /// Returns how many look-ups did not find it, modulo 2^64.
    pub fn misses(&self) -> u64
        ensures { result ≡ self.now.misses }
    {
        self.misses
    }

    /// Returns how often something was not kept since it has more bytes than the cache may, modulo
    /// 2^64.
    pub fn oversized(&self) -> u64
        ensures { result ≡ self.now.oversized }
    {
        self.oversized
    }

    /// Returns how often something was not kept since an allocation failed, modulo 2^64.
    pub fn failed(&self) -> u64
        ensures { result ≡ self.now.failed }
    {
        self.failed
    }

    // Whether all numbers were given out.
    pub(crate) fn is_used_up(&self) -> bool
        ensures { result ≡ (length self.now.tables == 2 ^ 64 - 1) }
    {
        self.next == u64::MAX
    }

    // Gives a table with this source a number that no other table has, or `None` if there is none.
    pub(crate) fn add<S: FrameSource>(&mut self, source: &S) -> Option<u64>
        ensures number { IfSome result (λ n. n ≡ length self.old.tables) }
        ensures added { IfSome result (λ _. IsGiven self.old (S.bytes source.now) self.new) }
        ensures full { IsNone result ↔ (length self.old.tables ≡ 2 ^ 64 - 1) }
        ensures unchanged { IfNone result (self.new ≡ self.old) }
    {
        if self.is_used_up() {
            return None;
        }
        let number = self.next;
        self.tables.push_chosen(source);
        self.next = number + 1;
        Some(number)
    }

    // Looks up what is kept of a range of a table, counts whether it is there, and makes it the
    // most recently used.
    pub(crate) fn look_up(&mut self, number: u64, range: &BlockHandle) -> bool
        ensures there { result ≡ is_some (kept_at self.old.kept (place_at number range.now)) }
        ensures new { self.new ≡ looked_up self.old (place_at number range.now)
            (kept_at self.old.kept (place_at number range.now)) }
        ensures same { kept_at self.new.kept (place_at number range.now)
            ≡ kept_at self.old.kept (place_at number range.now) }
        ensures latest { result ≡ true → IsLatest self.new.kept (place_at number range.now) }
    {
        let there = self.kept.promote(&key_of(number, range));
        if there {
            self.hits = self.hits.wrapping_add(1);
        } else {
            self.misses = self.misses.wrapping_add(1);
        }
        there
    }

    // What is the most recently used, such as what the last look-up found: nothing is looked up
    // again.
    pub(crate) fn latest(&self) -> Option<&V>
        ensures value { (place : Place) → IsLatest self.now.kept place
            → option_copied result ≡ kept_at self.now.kept place }
        ensures kept { (place : Place) → IsLatest self.now.kept place
            → IfSome result (λ b. IsKept V.is_of self.now.tables (place, b.now)) }
    {
        match self.kept.peek_mru() {
            Some((_, value)) => Some(value),
            None => None,
        }
    }

    // Keeps what was read of a range of a table, with the most recently used that fit beside it.
    // Where it does not fit, or an allocation fails, it is not kept, and that is counted.
    pub(crate) fn keep(&mut self, number: u64, range: &BlockHandle, value: V)
        requires absent { kept_at self.old.kept (place_at number range.now) ≡ None }
        requires value { IsKept V.is_of self.old.tables (place_at number range.now, value) }
        ensures { Keeps V.size self.old (place_at number range.now) value self.new }
    {
        let size = value.byte_count();
        if size > self.most {
            self.oversized = self.oversized.wrapping_add(1);
            return;
        }
        self.bytes = evict(&mut self.kept, self.bytes, self.most - size);
        if put_first(&mut self.kept, number, range, value) {
            self.bytes += size;
        } else {
            self.failed = self.failed.wrapping_add(1);
        }
    }
}
