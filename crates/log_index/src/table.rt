//! The open writes of transactions.
ghost use Rattle.std.specs.Prelude.{◌≡◌, ◌<◌, ◌+◌, ◌-◌, ◌^◌, ◌++◌, ◌∷◌, [], ℕ, Some, None, OnOk, IsSome, vec_len, vec_capacity, ◌==◌, if◌then◌else◌};
ghost use Rattle.std.specs.Ordering.{nat_cmp};
ghost use Rattle.std.specs.BTreeMap.{get};
ghost use Rattle.std.specs.List.{list_any};
ghost use Rattle.store_model.specs.Range.{has_key};
ghost use Rattle.wal_record.specs.Chains.{link_of};
ghost use Rattle.wal_record.specs.OpenWrites.{has_items, without_last};
ghost use Rattle.wal_record.specs.Checkpoints.{last_open, oldest};
ghost use Rattle.wal_record.specs.declared.record.OpenWrite.{OpenWrite};
ghost use Rattle.listing_laws.specs.Summary.{pending_in, put_open, transactions_step, without, writes_in};
ghost use Rattle.log_index.specs.Table.{HasRoom, IsCountOf, listed_in, noted_in, noted_step, oldest_in};
ghost use Rattle.log_index.specs.Ready.{HasPlaceIn};

use crate::copies::last_open;
use std::alloc::{AllocError, Global};
use std::collections::BTreeMap;
use store_model::{Key, KeyRange, Lsn, TxId};
use wal_record::{OpenWrite, Record};

/// A transaction: the LSN of its last record, 0 for none, and its open writes.
#[derive(Drop)]
pub struct Tracked {
    pub last: Lsn,
    pub writes: Vec<OpenWrite>,
}

fn put_at_end(writes: &mut Vec<OpenWrite>, lsn: Lsn, key: Key)
    requires { vec_len writes.old < vec_capacity writes.old }
    ensures { writes.new.items ≡ writes.old.items ++ record { lsn = lsn; key = key } ∷ [] }
{
    match writes.push(OpenWrite { lsn, key }) {
        Ok(()) => {}
        Err(_) => unreachable!(),
    }
}

/// Makes room for one more write of a transaction. It isn't listed by that.
pub fn prepare(
    alloc: Global,
    table: &mut BTreeMap<TxId, Tracked>,
    tx: TxId,
) -> Result<(), AllocError>
    ensures listed { listed_in table.new.entries ≡ listed_in table.old.entries }
    ensures noted { (q : ℕ) → noted_in table.new q ≡ noted_in table.old q }
    ensures room { OnOk result (HasRoom table.new tx) }
    ensures kept { (q : ℕ) → HasRoom table.old q → HasRoom table.new q }
{
    if let Some(found) = table.get_mut(&tx) {
        return found.writes.reserve(1);
    }
    let writes = Vec::with_capacity(alloc, 1)?;
    table.insert(tx, Tracked { last: 0, writes })?;
    Ok(())
}

/// A write is added at the end of its transaction's.
pub fn add(table: &mut BTreeMap<TxId, Tracked>, tx: TxId, lsn: Lsn, key: Key)
    requires { HasRoom table.old tx }
    ensures pending { pending_in (listed_in table.new.entries) ≡ pending_in (listed_in table.old.entries) + 1 }
    ensures listed { listed_in table.new.entries ≡ put_open lsn tx (writes_in tx (listed_in table.old.entries) ++ record { lsn = lsn; key = key } ∷ []) (listed_in table.old.entries) }
    ensures noted { (q : ℕ) → noted_in table.new q ≡ (if tx == q then lsn else noted_in table.old q) }
{
    match table.get_mut(&tx) {
        Some(found) => {
            found.last = lsn;
            put_at_end(&mut found.writes, lsn, key);
        }
        None => unreachable!(),
    }
}

/// The last open write of a transaction is taken back. Answers whether there was one.
pub fn take_back(table: &mut BTreeMap<TxId, Tracked>, tx: TxId, lsn: Lsn) -> bool
    requires { HasRoom table.old tx }
    ensures pending { pending_in (listed_in table.new.entries) + (if result then 1 else 0) ≡ pending_in (listed_in table.old.entries) }
    ensures listed { listed_in table.new.entries ≡ put_open lsn tx (without_last (writes_in tx (listed_in table.old.entries))) (listed_in table.old.entries) }
    ensures noted { (q : ℕ) → noted_in table.new q ≡ (if tx == q then lsn else noted_in table.old q) }
{
    match table.get_mut(&tx) {
        Some(found) => {
            found.last = lsn;
            found.writes.pop().is_some()
        }
        None => unreachable!(),
    }
}

/// A transaction is over. Answers how many open writes it had.
pub fn close(table: &mut BTreeMap<TxId, Tracked>, tx: TxId) -> u64
    ensures pending { pending_in (listed_in table.new.entries) + result ≡ pending_in (listed_in table.old.entries) }
    ensures listed { listed_in table.new.entries ≡ without tx (listed_in table.old.entries) }
    ensures noted { (q : ℕ) → noted_in table.new q ≡ (if tx == q then 0 else noted_in table.old q) }
{
    let _tracked = table.len();
    match table.remove(&tx) {
        Some(tracked) => tracked.writes.len() as u64,
        None => 0,
    }
}

/// Makes room for what a record adds.
pub fn prepare_for(
    alloc: Global,
    table: &mut BTreeMap<TxId, Tracked>,
    entry: &Record,
) -> Result<(), AllocError>
    ensures listed { listed_in table.new.entries ≡ listed_in table.old.entries }
    ensures noted { (q : ℕ) → noted_in table.new q ≡ noted_in table.old q }
    ensures ready { OnOk result (HasPlaceIn entry.now table.new) }
    ensures kept { (q : ℕ) → HasRoom table.old q → HasRoom table.new q }
{
    match entry {
        Record::Write(write) => prepare(alloc, table, write.tx),
        Record::Apply(apply) => prepare(alloc, table, apply.tx),
        Record::Undo(undo) => prepare(alloc, table, undo.tx),
        _ => Ok(()),
    }
}

/// One record more, with this LSN. `pending` counts the open writes.
pub fn note(table: &mut BTreeMap<TxId, Tracked>, pending: &mut u64, lsn: Lsn, entry: &Record)
    requires { HasPlaceIn entry.now table.old }
    ensures listed { listed_in table.new.entries ≡ transactions_step lsn (listed_in table.old.entries) entry.now }
    ensures noted { (q : ℕ) → noted_in table.new q ≡ noted_step lsn q (noted_in table.old q) entry.now }
    ensures kept { link_of entry.now ≡ None → (q : ℕ) → HasRoom table.old q → HasRoom table.new q }
    ensures pending { pending.old < 2 ^ 64 - 1 → IsCountOf (listed_in table.old.entries) pending.old → IsCountOf (listed_in table.new.entries) pending.new }
{
    match entry {
        Record::Write(write) => {
            add(table, write.tx, lsn, write.key.copied());
            *pending = pending.saturating_add(1);
        }
        Record::Apply(apply) => {
            add(table, apply.tx, lsn, apply.key.copied());
            *pending = pending.saturating_add(1);
        }
        Record::Undo(undo) => {
            if take_back(table, undo.tx, lsn) {
                *pending = pending.saturating_sub(1);
            }
        }
        Record::Commit(commit) => {
            let count = close(table, commit.tx);
            *pending = pending.saturating_sub(count);
        }
        Record::End(end) => {
            let count = close(table, end.tx);
            *pending = pending.saturating_sub(count);
        }
        _ => {}
    }
}

/// The LSN that was noted last of a transaction that isn't over, 0 for none.
pub fn noted(table: &BTreeMap<TxId, Tracked>, tx: TxId) -> Lsn
    ensures { result ≡ noted_in table.now tx }
{
    match table.get(&tx) {
        Some(found) => found.last,
        None => 0,
    }
}

/// The LSN of the last open write of a transaction, 0 for none.
pub fn undo_next(table: &BTreeMap<TxId, Tracked>, tx: TxId) -> Lsn
    ensures { result ≡ last_open (writes_in tx (listed_in table.now.entries)) }
{
    let _tracked = table.len();
    match table.get(&tx) {
        Some(found) => last_open(&found.writes),
        None => 0,
    }
}

/// Whether a transaction has open writes.
pub fn has_writes(table: &BTreeMap<TxId, Tracked>, tx: TxId) -> bool
    ensures { result ≡ has_items (writes_in tx (listed_in table.now.entries)) }
{
    let _tracked = table.len();
    match table.get(&tx) {
        Some(found) => has_any(&found.writes),
        None => false,
    }
}

fn has_any(writes: &[OpenWrite]) -> bool
    ensures { result ≡ has_items writes.now }
{
    match writes.first() {
        Some(_) => true,
        None => false,
    }
}

/// Whether the key lies in the range.
fn is_in(range: &KeyRange, key: &Key) -> bool
    ensures { result ≡ has_key range.now key.now }
{
    !range.low().is_above(key) && range.high().is_above(key)
}

fn any_in(writes: &[OpenWrite], range: &KeyRange) -> bool
    ensures { result ≡ list_any (λ (w : OpenWrite). has_key range.now w.key) writes.now }
{
    writes.iter().any(|write| is_in(range, &write.key))
}

/// Whether a transaction has an open write of a key in the range.
pub fn has_open_in(table: &BTreeMap<TxId, Tracked>, tx: TxId, range: &KeyRange) -> bool
    ensures { result ≡ list_any (λ (w : OpenWrite). has_key range.now w.key) (writes_in tx (listed_in table.now.entries)) }
{
    let _tracked = table.len();
    match table.get(&tx) {
        Some(found) => any_in(&found.writes, range),
        None => false,
    }
}

/// The LSN of the first of these writes, or this one if that is less.
fn older(lsn: Lsn, writes: &[OpenWrite]) -> Lsn
    ensures { result ≡ oldest writes.now lsn }
{
    match writes.first() {
        Some(write) => write.lsn.min(lsn),
        None => lsn,
    }
}

/// The least LSN of a transaction's first open write, or this one if that is less.
pub fn oldest_open(table: &BTreeMap<TxId, Tracked>, lsn: Lsn) -> Lsn
    ensures { result ≡ oldest_in lsn (listed_in table.now.entries) }
{
    let mut least = lsn;
    for (_tx, tracked) in table {
        least = older(least, &tracked.writes);
    }
    least
}
