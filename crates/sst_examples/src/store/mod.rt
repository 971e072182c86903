//! A small store of versions of keys, over `sst_merge`: writes go into an ordered list in memory,
//! which is flushed into a table, and the tables are compacted into one. Tables are in memory too,
//! whole or in parts.
ghost use Rattle.std.specs.Prelude.{◌≡◌, ◌≤◌, ◌<◌, ◌^◌, ℕ, List, ◌∷◌, [], Some, None, map, length};
ghost use Rattle.std.specs.Prelude.{true};
ghost use Rattle.std.specs.Prelude.{IfErr, IfOk, OnOk, OnErr, ◌+◌, ◌++◌, filter, nat_eq, not};
ghost use Rattle.sst_examples.specs.Levels.{IsFull, IsVersionWritten, read, version, versions};
ghost use Rattle.sst_merge.specs.Compact.{IsKeptRead, compacted};
ghost use Rattle.sst_sources.specs.Merge.{entry_cmp, merge};
ghost use Rattle.sst_merge.specs.Snapshot.{seen};
ghost use Rattle.sstable_blocks.specs.Prelude.{plain, plain_value, entries, first_match};

pub mod laws;
mod memory;
mod tables;

use crate::store::memory::{newest, place_of, shown};
use crate::store::tables::{Stored, add_table, merge_of, table_of};
use sst_merge::laws::compaction_keeps_reads;
use sst_merge::{Compact, read_tables};
use sst_parts::PartSizes;
use sstable_blocks::laws::first_match_of_plain;
use sstable_blocks::{
    Error, InternalValue, Result, SeqNo, Slice, Steps, UserKey, UserValue, ValueType,
};
use std::alloc::Global;
use std::marker::Model;

/// A store of versions of keys, each with a sequence number of its own. A read at a sequence number
/// sees what was written with a lower one.
///
/// Clauses see the versions in memory, those of the tables, the next sequence number, and the open
/// snapshots.
#[derive(Drop)]
pub struct Store {
    alloc: Global,
    memory: Vec<InternalValue>,
    tables: Vec<Stored>,
    next: SeqNo,
    snapshots: Vec<SeqNo>,
    parts: Option<PartSizes>,
}

impl Model for Store {
    ghost use Rattle.sst_examples.specs.Levels.{AreLevels, Levels, levels};
    ghost use Rattle.sst_examples.specs.Tables.{merged_tables};

    ghost Value = { Levels };

    ghost view = { λ s. levels s.memory.items (merged_tables s.tables.items) s.next
        s.snapshots.items };

    ghost invariant = { λ s. AreLevels s.memory.items (merged_tables s.tables.items) s.next };
}

impl Store {
    /// Makes an empty store, whose next sequence number is 0. Its tables are in parts where their
    /// sizes are given.
    pub fn new(alloc: Global, parts: Option<PartSizes>) -> Store
        ensures { result ≡ record { memory = []; stored = []; next = 0; snapshots = [] } }
    {
        Store {
            alloc,
            memory: Vec::new(alloc),
            tables: Vec::new(alloc),
            next: 0,
            snapshots: Vec::new(alloc),
            parts,
        }
    }

    /// Returns the next sequence number: a read at it sees all that was written.
    pub fn next(&self) -> SeqNo
        ensures { result ≡ self.now.next }
    {
        self.next
    }

    /// Writes a value of a key, and returns its sequence number. The key has 1 to 65535 bytes, and
    /// the value at most 2^32 - 1.
    ///
    /// # Errors
    ///
    /// `Error::TooLong` if the sequence numbers are used up, `Error::Memory` if an allocation
    /// fails. The store is then as it was.
    pub fn put(&mut self, key: UserKey, value: UserValue) -> Result<SeqNo>
        requires key { (1 ≤ length key) × (length key ≤ 65535) }
        requires value { length value < 2 ^ 32 }
        ensures number { IfOk result (λ seqno. seqno ≡ self.old.next) }
        ensures written { OnOk result (IsVersionWritten self.old self.new key
            (Some (version key self.old.next ValueType.Value value))) }
        ensures memory { OnOk result (self.new.memory ≡ merge entry_cmp
            (version key self.old.next ValueType.Value value ∷ []) self.old.memory) }
        ensures stored { self.new.stored ≡ self.old.stored }
        ensures cause { IfErr result (IsFull self.old) }
        ensures err { OnErr result (self.new ≡ self.old) }
    {
        self.add(key, value, ValueType::Value)
    }

    /// Deletes a key of 1 to 65535 bytes, and returns the sequence number of its tombstone.
    ///
    /// # Errors
    ///
    /// As [`Store::put`].
    pub fn delete(&mut self, key: UserKey) -> Result<SeqNo>
        requires key { (1 ≤ length key) × (length key ≤ 65535) }
        ensures number { IfOk result (λ seqno. seqno ≡ self.old.next) }
        ensures written { OnOk result (IsVersionWritten self.old self.new key None) }
        ensures memory { OnOk result (self.new.memory ≡ merge entry_cmp
            (version key self.old.next ValueType.Tombstone [] ∷ []) self.old.memory) }
        ensures stored { self.new.stored ≡ self.old.stored }
        ensures cause { IfErr result (IsFull self.old) }
        ensures err { OnErr result (self.new ≡ self.old) }
    {
        let none = Slice::empty(self.alloc);
        self.add(key, none, ValueType::Tombstone)
    }

    // Writes a version of a key with the next sequence number, which it returns.
    fn add(&mut self, key: UserKey, value: UserValue, value_type: ValueType) -> Result<SeqNo>
        requires key { (1 ≤ length key) × (length key ≤ 65535) }
        requires value { (length value < 2 ^ 32) × (plain_value value_type value ≡ value) }
        ensures number { IfOk result (λ seqno. seqno ≡ self.old.next) }
        ensures written { OnOk result (IsVersionWritten self.old self.new key
            (seen (Some (version key self.old.next value_type value)))) }
        ensures memory { OnOk result (self.new.memory ≡ merge entry_cmp
            (version key self.old.next value_type value ∷ []) self.old.memory) }
        ensures stored { self.new.stored ≡ self.old.stored }
        ensures cause { IfErr result (IsFull self.old) }
        ensures err { OnErr result (self.new ≡ self.old) }
    {
        let seqno = self.next;
        let Some(next) = seqno.checked_add(1) else {
            return Err(Error::TooLong);
        };
        let entry = InternalValue::from_components(key, value, seqno, value_type);
        let at = place_of(&self.memory, &entry);
        self.memory.insert(at, entry)?;
        self.next = next;
        Ok(seqno)
    }

    /// Returns the newest version of a key with a sequence number strictly below `seqno`, or `None`
    /// if there is none or it is a tombstone.
    ///
    /// # Errors
    ///
    /// `Error::Memory` if an allocation fails. The store is then as it was. No clause says which
    /// error it is.
    pub fn get(&mut self, key: &[u8], seqno: SeqNo) -> Result<Option<InternalValue>>
        ensures found { IfOk result (λ found. found ≡ read self.old key.now seqno) }
        ensures kept { self.new ≡ self.old }
    {
        Ok(shown(self.find(key, seqno)?))
    }

    // The first version of a key below a sequence number: one in memory, else one of the tables.
    fn find(&mut self, key: &[u8], seqno: SeqNo) -> Result<Option<InternalValue>>
        ensures found { IfOk result
            (λ found. found ≡ first_match entries key.now seqno (versions self.old)) }
        ensures kept { self.new ≡ self.old }
    {
        match newest(&self.memory, key, seqno) {
            Some(entry) => Ok(Some(entry.clone()?)),
            None => read_tables(self.alloc, &mut self.tables, key, seqno, &mut Steps::new()),
        }
    }

    /// Moves all versions in memory into a new table. No read sees a difference.
    ///
    /// # Errors
    ///
    /// `Error::TooLong` if they are too many for a table, `Error::Memory` if an allocation fails.
    /// The store is then as it was. No clause says which error it is.
    pub fn flush(&mut self) -> Result<()>
        ensures ok { OnOk result (self.new
            ≡ record {
              memory = [];
              stored = versions self.old;
              next = self.old.next;
              snapshots = self.old.snapshots;
            }) }
        ensures same { versions self.new ≡ versions self.old }
        ensures err { OnErr result (self.new ≡ self.old) }
    {
        let memory = self.memory.clone()?;
        let table = table_of(self.alloc, memory.into_iter(), self.parts)?;
        add_table(&mut self.tables, table)?;
        self.memory.clear();
        Ok(())
    }

    /// Opens a snapshot: a read at the sequence number that is returned, which nothing else has,
    /// sees what was written before, until the snapshot is released.
    ///
    /// # Errors
    ///
    /// As [`Store::put`].
    pub fn snapshot(&mut self) -> Result<SeqNo>
        ensures number { IfOk result (λ seqno. seqno ≡ self.old.next) }
        ensures opened { OnOk result (self.new ≡ record self.old {
          next = self.old.next + 1;
          snapshots = self.old.snapshots ++ self.old.next ∷ [];
        }) }
        ensures cause { IfErr result (IsFull self.old) }
        ensures err { OnErr result (self.new ≡ self.old) }
    {
        let seqno = self.next;
        let Some(next) = seqno.checked_add(1) else {
            return Err(Error::TooLong);
        };
        self.snapshots.push(seqno)?;
        self.next = next;
        Ok(seqno)
    }

    /// Gives a snapshot up: a compaction no longer keeps what it alone sees.
    pub fn release(&mut self, snapshot: SeqNo)
        ensures { self.new ≡ record self.old {
          snapshots = filter (λ s. not (nat_eq s snapshot)) self.old.snapshots;
        } }
    {
        self.snapshots.retain(|seqno| *seqno != snapshot);
    }

    // The sequence numbers that may be read at: those of the open snapshots, and the next one.
    fn read_numbers(&self) -> Result<Vec<SeqNo>>
        ensures { IfOk result
            (λ all. all.items ≡ self.now.snapshots ++ self.now.next ∷ []) }
    {
        let mut all = self.snapshots.clone()?;
        all.push(self.next)?;
        Ok(all)
    }

    /// Compacts all tables into one, without the versions that no read at an open snapshot, or at
    /// the next sequence number or above, sees. Other reads may see a difference.
    ///
    /// # Errors
    ///
    /// `Error::TooLong` if the versions are too many for a table, `Error::Memory` if an allocation
    /// fails. The store is then as it was. No clause says which error it is.
    pub fn compact(&mut self) -> Result<()>
        ensures reads { OnOk result ((key : List ℕ) (seqno : ℕ)
            → IsKeptRead (self.old.snapshots ++ self.old.next ∷ []) seqno
            → read self.new key seqno ≡ read self.old key seqno) }
        ensures stored { OnOk result (self.new.stored
            ≡ map plain (compacted (λ e. e) (self.old.snapshots ++ self.old.next ∷ [])
            (λ _. true) self.old.stored)) }
        ensures memory { self.new.memory ≡ self.old.memory }
        ensures next { self.new.next ≡ self.old.next }
        ensures snapshots { self.new.snapshots ≡ self.old.snapshots }
        ensures err { OnErr result (self.new ≡ self.old) }
    {
        compaction_keeps_reads();
        first_match_of_plain();
        let snapshots = self.read_numbers()?;
        let merged = merge_of(self.alloc, &self.tables)?;
        let compacted = Compact::new(merged, snapshots, true);
        let table = table_of(self.alloc, compacted, self.parts)?;
        let mut tables = Vec::new(self.alloc);
        add_table(&mut tables, table)?;
        self.tables = tables;
        Ok(())
    }
}
