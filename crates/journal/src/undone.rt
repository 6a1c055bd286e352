//! What a life does of the losers of its opening log.
ghost use Rattle.std.specs.Prelude.{◌≡◌, ◌+◌, ◌<◌, ◌≤◌, ◌^◌, ◌++◌, ◌∷◌, [], ℕ, List, Option, suc, map, length, IfOk, IsTrue};
ghost use Rattle.std.specs.List.{list_all};
ghost use Rattle.life_history.specs.Groups.{is_still};
ghost use Rattle.log_index.specs.Listing.{IsListingOf};
ghost use Rattle.loser_laws.specs.Losers.{IsDone, txs_of};
ghost use Rattle.losers.specs.Losers.{untouched};
ghost use Rattle.page_ops.specs.Groups.{Each, group_entries};
ghost use Rattle.page_ops.specs.declared.group.Said.{Said};
ghost use Rattle.wal_record.specs.OpenWrites as writes;
ghost use Rattle.wal_record.specs.declared.analysis.Loser.{Loser};
ghost use Rattle.wal_record.specs.declared.entry.Entry.{Entry};
ghost use Rattle.wal_record.specs.declared.entry.Entry.TheVariants as entries;
ghost use Rattle.wal_record.specs.declared.record.Record.{Record};
ghost use Rattle.journal.specs.Losers.{undone_in};

use log_index::Listing;
use losers::Losers;
use std::alloc::{AllocError, Global};
use store_model::{Memory, Pos, TxId};
use wal_record::{Loser, Record};

/// The transaction of which the record takes a write back, if it takes one back.
fn undone_in(rec: &Record) -> Option<TxId>
    ensures { result ≡ undone_in rec.now }
{
    match rec {
        Record::Undo(undo) => Some(undo.tx),
        _ => None,
    }
}

/// The record stands here. No transaction ends by it.
fn note(losers: &mut Losers, place: Pos, rec: &Record)
    requires { IsTrue (is_still rec.now) }
    ensures txs { txs_of losers.new ≡ txs_of losers.old }
    ensures more { (h : List Entry) (lsn : ℕ) → Each (IsDone h) losers.old → place ≡ suc (length h) → Each (IsDone (h ++ entries.Rec lsn rec.now ∷ [])) losers.new }
{
    match undone_in(rec) {
        Some(tx) => losers.undone(tx, place),
        None => {}
    }
}

/// The records of a group stand behind so many entries. No transaction ends by them.
pub(crate) fn note_undone(losers: &mut Losers, before: u64, recs: &[Record])
    requires few { length recs.now ≤ 2 }
    requires still { IsTrue (list_all is_still recs.now) }
    requires fits { before + 2 < 2 ^ 64 }
    ensures txs { txs_of losers.new ≡ txs_of losers.old }
    ensures more { (h : List Entry) (lsn : ℕ) (said : Option Said) → Each (IsDone h) losers.old → before ≡ length h → Each (IsDone (h ++ group_entries lsn recs.now said)) losers.new }
{
    match recs {
        [] => {}
        [one] => note(losers, before + 1, one),
        [one, two] => {
            note(losers, before + 1, one);
            note(losers, before + 2, two);
        }
        _ => unreachable!(),
    }
}

/// The numbers of these losers.
fn numbers_of(alloc: Global, losers: &[Loser]) -> Result<Vec<TxId>, AllocError>
    ensures { IfOk result (λ txs. txs.items ≡ map (λ (x : Loser). x.tx) losers.now) }
{
    let mut txs = Vec::with_capacity(alloc, losers.len())?;
    for loser in losers {
        txs.push(loser.tx)?;
    }
    Ok(txs)
}

/// The losers of the log of this listing, of which nothing is done yet.
pub fn losers_of(alloc: Global, listing: &Listing) -> Result<Losers, Memory>
    ensures { (log : List Record) → IsListingOf log listing.now → IfOk result (λ found. found ≡ map untouched (writes.losers log)) }
{
    let analysis = listing.analysis(alloc)?;
    let txs = numbers_of(alloc, analysis.losers.as_slice())?;
    Losers::new(alloc, &txs)
}
