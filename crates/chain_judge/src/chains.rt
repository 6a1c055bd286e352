//! All transactions of a log.
ghost use Rattle.std.specs.Prelude.{◌≡◌, ◌↔◌, ◌==◌, ◌+◌, [], ◌∷◌, ◌++◌, ℕ, List, length, Some, true, false, IsTrue, OnOk, if◌then◌else◌, is_some, vec_len, vec_capacity, ◌<◌};
ghost use Rattle.std.specs.Ordering.{nat_cmp};
ghost use Rattle.std.specs.BTreeMap.{get};
ghost use Rattle.std.specs.List.{list_any};
ghost use Rattle.store_model.specs.Lists.{last_of};
ghost use Rattle.wal_record.specs.Chains.{Link};
ghost use Rattle.wal_record.specs.OpenWrites.{IsAlone, has_items, open_writes, opens, without_last};
ghost use Rattle.wal_record.specs.Sound.{LinkRule, UndoRule};
ghost use Rattle.wal_record.specs.declared.record.Record.{Record};
ghost use Rattle.chain_judge.specs.Chains.{AreChainsOf, HasRoom, IsReady, TakesLast, is_at_key, is_in, last_in, writes_in};

use crate::chain::{
    Chain, OpenChange, any_of, change_of_apply, change_of_write, is_last_undone, take_last,
};
use std::alloc::Global;
use std::collections::BTreeMap;
use store_model::{Key, Lsn, Memory, TxId};
use wal_record::{Record, Undo};

/// Where the transactions of a log stand.
#[derive(Drop)]
pub struct Chains {
    alloc: Global,
    /// Those that have neither a Commit nor an End.
    running: BTreeMap<TxId, Chain>,
    /// Whether a transaction has one; one without a place here hasn't.
    over: BTreeMap<TxId, bool>,
}

fn push(writes: &mut Vec<OpenChange>, change: OpenChange)
    requires { vec_len writes.old < vec_capacity writes.old }
    ensures { writes.new.items ≡ writes.old.items ++ change ∷ [] }
{
    match writes.push(change) {
        Ok(()) => {}
        Err(_) => unreachable!(),
    }
}

/// Makes room for one more open write of the transaction. Each one stands where it stood.
fn make_room(alloc: Global, running: &mut BTreeMap<TxId, Chain>, tx: TxId) -> Result<(), Memory>
    ensures same { (t : ℕ) → (last_in running.new t ≡ last_in running.old t) × (writes_in running.new t ≡ writes_in running.old t) }
    ensures room { OnOk result (HasRoom running.new tx) }
{
    if let Some(chain) = running.get_mut(&tx) {
        chain.writes.reserve(1)?;
        return Ok(());
    }
    let writes = Vec::with_capacity(alloc, 1)?;
    running.insert(tx, Chain { last: 0, writes })?;
    Ok(())
}

/// A record of the transaction opens a write.
fn open(running: &mut BTreeMap<TxId, Chain>, tx: TxId, lsn: Lsn, change: OpenChange)
    requires { HasRoom running.old tx }
    ensures { (t : ℕ) → (last_in running.new t ≡ (if tx == t then lsn else last_in running.old t)) × (writes_in running.new t ≡ (if tx == t then writes_in running.old t ++ change ∷ [] else writes_in running.old t)) }
{
    match running.get_mut(&tx) {
        Some(chain) => {
            chain.last = lsn;
            push(&mut chain.writes, change);
        }
        None => unreachable!(),
    }
}

/// A record of the transaction takes its last open write back.
fn take_back(running: &mut BTreeMap<TxId, Chain>, tx: TxId, lsn: Lsn)
    requires { HasRoom running.old tx }
    ensures { (t : ℕ) → (last_in running.new t ≡ (if tx == t then lsn else last_in running.old t)) × (writes_in running.new t ≡ (if tx == t then without_last (writes_in running.old t) else writes_in running.old t)) }
{
    match running.get_mut(&tx) {
        Some(chain) => {
            chain.last = lsn;
            take_last(&mut chain.writes);
        }
        None => unreachable!(),
    }
}

/// The transaction is under way no more.
fn drop_chain(running: &mut BTreeMap<TxId, Chain>, tx: TxId)
    ensures last { (t : ℕ) → last_in running.new t ≡ (if tx == t then 0 else last_in running.old t) }
    ensures writes { (t : ℕ) → writes_in running.new t ≡ (if tx == t then [] else writes_in running.old t) }
{
    running.remove(&tx);
}

/// Makes a place for the transaction among those that may be over. Each one is over where it was.
fn make_place(over: &mut BTreeMap<TxId, bool>, tx: TxId) -> Result<(), Memory>
    ensures same { (t : ℕ) → is_in over.new t ≡ is_in over.old t }
    ensures there { OnOk result (IsTrue (is_some (get nat_cmp over.new tx))) }
{
    if over.contains_key(&tx) {
        return Ok(());
    }
    over.insert(tx, false)?;
    Ok(())
}

/// The transaction, which has a place, is over.
fn put_over(over: &mut BTreeMap<TxId, bool>, tx: TxId)
    requires { IsTrue (is_some (get nat_cmp over.old tx)) }
    ensures { (t : ℕ) → is_in over.new t ≡ (if tx == t then true else is_in over.old t) }
{
    match over.insert(tx, true) {
        Ok(_) => {}
        Err(_) => unreachable!(),
    }
}

fn last_in(running: &BTreeMap<TxId, Chain>, tx: TxId) -> Lsn
    ensures { result ≡ last_in running.now tx }
{
    match running.get(&tx) {
        Some(chain) => chain.last,
        None => 0,
    }
}

fn is_in(over: &BTreeMap<TxId, bool>, tx: TxId) -> bool
    ensures { result ≡ is_in over.now tx }
{
    match over.get(&tx) {
        Some(over) => *over,
        None => false,
    }
}

fn count_in(running: &BTreeMap<TxId, Chain>, tx: TxId) -> usize
    ensures { result ≡ length (writes_in running.now tx) }
{
    match running.get(&tx) {
        Some(chain) => chain.writes.len(),
        None => 0,
    }
}

fn opens_in(running: &BTreeMap<TxId, Chain>, tx: TxId, key: &Key) -> bool
    ensures { result ≡ list_any (is_at_key key.now) (writes_in running.now tx) }
{
    match running.get(&tx) {
        Some(chain) => any_of(&chain.writes, key),
        None => false,
    }
}

fn takes_last_in(running: &BTreeMap<TxId, Chain>, undo: &Undo) -> bool
    ensures { IsTrue result ↔ TakesLast undo.now (last_of (writes_in running.now undo.now.tx)) }
{
    match running.get(&undo.tx) {
        Some(chain) => is_last_undone(&chain.writes, undo),
        None => false,
    }
}

/// Whether no other transaction that is under way has an open write of the key.
fn none_opens_in(running: &BTreeMap<TxId, Chain>, key: &Key, tx: TxId) -> bool
    ensures yes { IsTrue result → (t : ℕ) → (t ≡ tx → ⊥) → list_any (is_at_key key.now) (writes_in running.now t) ≡ false }
    ensures no { ((t : ℕ) → (t ≡ tx → ⊥) → list_any (is_at_key key.now) (writes_in running.now t) ≡ false) → IsTrue result }
{
    for (other, _chain) in running {
        if *other != tx && opens_in(running, *other, key) {
            return false;
        }
    }
    true
}

impl Chains {
    /// Those of an empty log.
    pub fn new(alloc: Global) -> Chains
        ensures { AreChainsOf [] result }
    {
        Chains {
            alloc,
            running: BTreeMap::new(alloc),
            over: BTreeMap::new(alloc),
        }
    }

    /// Whether this is the LSN that was noted last of the transaction.
    fn is_last(&self, tx: TxId, prev: Lsn) -> bool
        ensures { IsTrue result ↔ (prev ≡ last_in self.now.running tx) }
    {
        prev == last_in(&self.running, tx)
    }

    /// Whether this is the LSN of the transaction's last record, and it has no Commit and no End.
    pub fn is_linked(&self, tx: TxId, prev: Lsn) -> bool
        ensures { (log : List Record) → AreChainsOf log self.now → IsTrue result ↔ LinkRule log (Some (record { tx = tx; prev = prev })) }
    {
        !is_in(&self.over, tx) && self.is_last(tx, prev)
    }

    /// Whether no other transaction has an open write of the key.
    pub fn is_alone(&self, key: &Key, tx: TxId) -> bool
        ensures { (log : List Record) → AreChainsOf log self.now → IsTrue result ↔ IsAlone log key.now tx }
    {
        none_opens_in(&self.running, key, tx)
    }

    /// Whether the undo takes back the last open write of its transaction.
    pub fn takes_back(&self, undo: &Undo) -> bool
        ensures { (log : List Record) → AreChainsOf log self.now → IsTrue result ↔ UndoRule (open_writes log undo.now.tx) undo.now }
    {
        takes_last_in(&self.running, undo)
    }

    /// How many open writes the transaction has.
    pub fn open_count(&self, tx: TxId) -> usize
        ensures { (log : List Record) → AreChainsOf log self.now → result ≡ length (open_writes log tx) }
    {
        count_in(&self.running, tx)
    }

    fn prepare_running(&mut self, tx: TxId) -> Result<(), Memory>
        ensures same { (log : List Record) → AreChainsOf log self.old → AreChainsOf log self.new }
        ensures ready { OnOk result (HasRoom self.new.running tx) }
    {
        make_room(self.alloc, &mut self.running, tx)
    }

    fn prepare_over(&mut self, tx: TxId) -> Result<(), Memory>
        ensures same { (log : List Record) → AreChainsOf log self.old → AreChainsOf log self.new }
        ensures ready { OnOk result (IsTrue (is_some (get nat_cmp self.new.over tx))) }
    {
        make_place(&mut self.over, tx)
    }

    /// Makes room for a record. Nothing else changes.
    pub fn prepare(&mut self, entered: &Record) -> Result<(), Memory>
        ensures same { (log : List Record) → AreChainsOf log self.old → AreChainsOf log self.new }
        ensures ready { OnOk result (IsReady entered.now self.new) }
    {
        match entered {
            Record::Write(write) => self.prepare_running(write.tx),
            Record::Apply(apply) => self.prepare_running(apply.tx),
            Record::Undo(undo) => self.prepare_running(undo.tx),
            Record::Commit(commit) => self.prepare_over(commit.tx),
            Record::End(end) => self.prepare_over(end.tx),
            _ => Ok(()),
        }
    }

    fn note_open(&mut self, tx: TxId, lsn: Lsn, change: OpenChange)
        requires { HasRoom self.old.running tx }
        ensures kept { (t : ℕ) → (last_in self.new.running t ≡ (if tx == t then lsn else last_in self.old.running t)) × (writes_in self.new.running t ≡ (if tx == t then writes_in self.old.running t ++ change ∷ [] else writes_in self.old.running t)) }
        ensures over { self.new.over ≡ self.old.over }
    {
        open(&mut self.running, tx, lsn, change);
    }

    fn note_undo(&mut self, tx: TxId, lsn: Lsn)
        requires { HasRoom self.old.running tx }
        ensures kept { (t : ℕ) → (last_in self.new.running t ≡ (if tx == t then lsn else last_in self.old.running t)) × (writes_in self.new.running t ≡ (if tx == t then without_last (writes_in self.old.running t) else writes_in self.old.running t)) }
        ensures over { self.new.over ≡ self.old.over }
    {
        take_back(&mut self.running, tx, lsn);
    }

    fn note_over(&mut self, tx: TxId)
        requires { IsTrue (is_some (get nat_cmp self.old.over tx)) }
        ensures last { (t : ℕ) → last_in self.new.running t ≡ (if tx == t then 0 else last_in self.old.running t) }
        ensures writes { (t : ℕ) → writes_in self.new.running t ≡ (if tx == t then [] else writes_in self.old.running t) }
        ensures over { (t : ℕ) → is_in self.new.over t ≡ (if tx == t then true else is_in self.old.over t) }
    {
        put_over(&mut self.over, tx);
        drop_chain(&mut self.running, tx);
    }

    /// The next record, with this LSN. It takes no memory.
    pub fn note(&mut self, lsn: Lsn, entered: &Record)
        requires ready { IsReady entered.now self.old }
        ensures { (log : List Record) → AreChainsOf log self.old → lsn ≡ length log + 1 → AreChainsOf (log ++ entered.now ∷ []) self.new }
    {
        match entered {
            Record::Write(write) => self.note_open(write.tx, lsn, change_of_write(write)),
            Record::Apply(apply) => self.note_open(apply.tx, lsn, change_of_apply(apply)),
            Record::Undo(undo) => self.note_undo(undo.tx, lsn),
            Record::Commit(commit) => self.note_over(commit.tx),
            Record::End(end) => self.note_over(end.tx),
            _ => {}
        }
    }
}
