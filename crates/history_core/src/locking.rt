//! Whether a lock may be taken, and who may be told to hold one.
ghost use Rattle.std.specs.Prelude.{◌≡◌, ◌↔◌, ℕ, List, Some, None, IsTrue};
ghost use Rattle.std.specs.List.{find};
ghost use Rattle.wal_record.specs.History.{life_log};
ghost use Rattle.wal_record.specs.Legal.{MayLock, MayRefuse, held};
ghost use Rattle.wal_record.specs.OpenWrites.{losers};
ghost use Rattle.wal_record.specs.Sound.{AreLawful};
ghost use Rattle.log_index.specs.Listing.{IsListingOf};
ghost use Rattle.loser_laws.specs.Losers.{has_open_in};
ghost use Rattle.lock_judge.specs.Taken.{IsFirstInWay, NoneInWay};
ghost use Rattle.wal_record.specs.declared.entry.Entry.{Entry};
ghost use Rattle.wal_record.specs.declared.record.Record.{Record};
ghost use Rattle.history_core.specs.Judging.{IsJudgeOf, txs_of};

use crate::judge::Judge;
use log_index::Listing;
use store_model::{KeyRange, Mode, TxId};
use wal_record::Loser;

/// The first of these losers that has an open write of a key in the range, if one has.
fn first_in(losers: &[Loser], listing: &Listing, range: &KeyRange) -> Option<TxId>
    ensures { (log : List Record) → IsListingOf log listing.now → AreLawful log → result ≡ find (has_open_in range.now log) (txs_of losers.now) }
{
    for loser in losers {
        if listing.has_open_in(loser.tx, range) {
            return Some(loser.tx);
        }
    }
    None
}

fn is_none(loser: Option<TxId>) -> bool
    ensures { IsTrue result ↔ (loser ≡ None) }
{
    loser.is_none()
}

impl Judge {
    /// Whether no other transaction took a lock in conflict with one on this range.
    fn is_untaken(&self, tx: TxId, range: &KeyRange, mode: Mode) -> bool
        ensures { (opening : List Record) → (h : List Entry) → IsJudgeOf opening h self.now → IsTrue result ↔ NoneInWay h tx (held range.now mode) }
    {
        is_none(self.locks.first_in_way(tx, range, mode))
    }

    /// Whether no loser of the opening log has an open write of a key in the range.
    fn is_unmet(&self, range: &KeyRange) -> bool
        ensures { (opening : List Record) → (h : List Entry) → IsJudgeOf opening h self.now → IsTrue result ↔ (find (has_open_in range.now (life_log opening h)) (losers opening) ≡ None) }
    {
        is_none(first_in(self.losers.as_slice(), &self.log.listing, range))
    }

    /// Whether neither is in the way of a lock.
    fn is_free(&self, tx: TxId, range: &KeyRange, mode: Mode) -> bool
        ensures { (opening : List Record) → (h : List Entry) → IsJudgeOf opening h self.now → IsTrue result ↔ (NoneInWay h tx (held range.now mode) × (find (has_open_in range.now (life_log opening h)) (losers opening) ≡ None)) }
    {
        self.is_untaken(tx, range, mode) && self.is_unmet(range)
    }

    /// Whether the transaction may lock the range.
    pub(crate) fn may_lock(&self, tx: TxId, range: &KeyRange, mode: Mode) -> bool
        ensures { (opening : List Record) → (h : List Entry) → IsJudgeOf opening h self.now → IsTrue result ↔ MayLock opening h tx (held range.now mode) }
    {
        self.may_act(tx) && self.is_free(tx, range, mode)
    }

    /// Whether this is the least other transaction with a lock in conflict.
    fn is_first(&self, tx: TxId, range: &KeyRange, mode: Mode, holder: TxId) -> bool
        ensures { (opening : List Record) → (h : List Entry) → IsJudgeOf opening h self.now → IsTrue result ↔ IsFirstInWay h tx (held range.now mode) holder }
    {
        match self.locks.first_in_way(tx, range, mode) {
            Some(first) => first == holder,
            None => false,
        }
    }

    /// Whether the transaction may be refused the range, since this one holds a lock in conflict.
    pub(crate) fn may_refuse(&self, tx: TxId, range: &KeyRange, mode: Mode, holder: TxId) -> bool
        ensures { (opening : List Record) → (h : List Entry) → IsJudgeOf opening h self.now → IsTrue result ↔ MayRefuse opening h tx (held range.now mode) holder }
    {
        self.may_act(tx) && self.is_first(tx, range, mode, holder)
    }
}
