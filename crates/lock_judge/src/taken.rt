//! The locks that were taken.
ghost use Rattle.std.specs.Prelude.{◌≡◌, ◌||◌, ◌==◌, [], ◌∷◌, ◌++◌, ℕ, List, Bool, IfSome, IfNone, OnOk, OnErr, if◌then◌else◌};
ghost use Rattle.std.specs.List.{list_any};
ghost use Rattle.wal_record.specs.Legal.{held};
ghost use Rattle.wal_record.specs.Locks.{Held, covers, covers_write, taken_locks};
ghost use Rattle.wal_record.specs.declared.entry.Entry.{Entry};
ghost use Rattle.wal_record.specs.declared.entry.Entry.TheVariants.{Lock, Rec};
ghost use Rattle.lock_judge.specs.Taken.{AreTaken, IsFirstInWay, IsRelease, NoneInWay, held_in};

use crate::held::{HeldLock, any_conflicts, any_covers, any_covers_write};
use std::alloc::Global;
use std::collections::BTreeMap;
use store_model::{Key, KeyRange, List, Memory, Mode, TxId};
use wal_record::{Entry, Record};

/// The locks that transactions took and still hold.
#[derive(Drop)]
pub struct TakenLocks {
    alloc: Global,
    held: BTreeMap<TxId, List<HeldLock>>,
}

/// Adds a lock to those of its transaction. Where memory runs out, what is held stays as it was.
fn add(
    alloc: Global,
    locks: &mut BTreeMap<TxId, List<HeldLock>>,
    tx: TxId,
    lock: HeldLock,
) -> Result<(), Memory>
    ensures ok { OnOk result ((t : ℕ) → (p : Held → Bool) → list_any p (held_in locks.new t) ≡ (if tx == t then (p lock || list_any p (held_in locks.old t)) else list_any p (held_in locks.old t))) }
    ensures err { OnErr result ((t : ℕ) → held_in locks.new t ≡ held_in locks.old t) }
{
    if let Some(own) = locks.get_mut(&tx) {
        own.push(lock)?;
        return Ok(());
    }
    let mut own = List::new(alloc);
    own.push(lock)?;
    locks.insert(tx, own)?;
    Ok(())
}

/// The transaction's locks go.
fn release(locks: &mut BTreeMap<TxId, List<HeldLock>>, tx: TxId)
    ensures { (t : ℕ) → held_in locks.new t ≡ (if tx == t then [] else held_in locks.old t) }
{
    locks.remove(&tx);
}

impl TakenLocks {
    /// Those of an empty history.
    pub fn new(alloc: Global) -> TakenLocks
        ensures { AreTaken [] result }
    {
        TakenLocks {
            alloc,
            held: BTreeMap::new(alloc),
        }
    }

    /// Whether the range lies inside one lock of the transaction.
    pub fn covers(&self, tx: TxId, range: &KeyRange) -> bool
        ensures { (h : List Entry) → AreTaken h self.now → result ≡ list_any (covers range.now) (taken_locks h tx) }
    {
        match self.held.get(&tx) {
            Some(own) => any_covers(own.as_slice(), range),
            None => false,
        }
    }

    /// Whether the transaction may write the key under one of its locks.
    pub fn covers_write(&self, tx: TxId, key: &Key) -> bool
        ensures { (h : List Entry) → AreTaken h self.now → result ≡ list_any (covers_write key.now) (taken_locks h tx) }
    {
        match self.held.get(&tx) {
            Some(own) => any_covers_write(own.as_slice(), key),
            None => false,
        }
    }

    /// The least other transaction that holds a lock in conflict with one on this range, if any does.
    pub fn first_in_way(&self, tx: TxId, range: &KeyRange, mode: Mode) -> Option<TxId>
        ensures some { (h : List Entry) → AreTaken h self.now → IfSome result (IsFirstInWay h tx (held range.now mode)) }
        ensures none { (h : List Entry) → AreTaken h self.now → IfNone result (NoneInWay h tx (held range.now mode)) }
    {
        // (The call tells that the numbers rise.)
        let _held = self.held.len();
        for (holder, own) in &self.held {
            if *holder != tx && any_conflicts(own.as_slice(), range, mode) {
                return Some(*holder);
            }
        }
        None
    }

    fn lock(&mut self, tx: TxId, range: &KeyRange, mode: Mode) -> Result<(), Memory>
        ensures ok { (h : List Entry) → AreTaken h self.old → OnOk result (AreTaken (h ++ Lock tx range.now mode ∷ []) self.new) }
        ensures err { (h : List Entry) → AreTaken h self.old → OnErr result (AreTaken h self.new) }
    {
        let lock = HeldLock::on(range, mode)?;
        add(self.alloc, &mut self.held, tx, lock)
    }

    fn release(&mut self, tx: TxId)
        ensures { (h : List Entry) → (e : Entry) → AreTaken h self.old → IsRelease tx e → AreTaken (h ++ e ∷ []) self.new }
    {
        release(&mut self.held, tx);
    }

    /// The next record. It takes no memory.
    pub fn note_record(&mut self, entered: &Record)
        ensures { (h : List Entry) → (lsn : ℕ) → AreTaken h self.old → AreTaken (h ++ Rec lsn entered.now ∷ []) self.new }
    {
        match entered {
            Record::Commit(commit) => self.release(commit.tx),
            Record::End(end) => self.release(end.tx),
            _ => {}
        }
    }

    /// The next entry. Where memory runs out, these are still the locks of the history before it.
    pub fn note(&mut self, entry: &Entry) -> Result<(), Memory>
        ensures ok { (h : List Entry) → AreTaken h self.old → OnOk result (AreTaken (h ++ entry.now ∷ []) self.new) }
        ensures err { (h : List Entry) → AreTaken h self.old → OnErr result (AreTaken h self.new) }
    {
        match entry {
            Entry::Lock { tx, range, mode } => self.lock(*tx, range, *mode)?,
            Entry::Rec { rec, .. } => self.note_record(rec),
            _ => {}
        }
        Ok(())
    }
}
