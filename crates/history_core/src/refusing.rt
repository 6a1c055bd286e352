//! Whether a request may be declined.
ghost use Rattle.std.specs.Prelude.{◌≡◌, ◌↔◌, ◌+◌, ◌<◌, ℕ, List, None, IsTrue};
ghost use Rattle.std.specs.List.{list_any};
ghost use Rattle.wal_record.specs.Chains.{pages};
ghost use Rattle.wal_record.specs.Checkpoints.{limit_of};
ghost use Rattle.wal_record.specs.Contents.{current};
ghost use Rattle.wal_record.specs.History.{Live, is_owner, life_log, phase};
ghost use Rattle.wal_record.specs.Legal.{IsLocked, MayDecline, WhyRule, Writes, untold, written_key};
ghost use Rattle.wal_record.specs.Locks.{covers_write, taken_locks};
ghost use Rattle.wal_record.specs.OpenWrites.{pending};
ghost use Rattle.wal_record.specs.declared.entry.Entry.{Entry};
ghost use Rattle.wal_record.specs.declared.record.Record.{Record};
ghost use Rattle.history_core.specs.Judging.{IsFull, IsJudgeOf};

use crate::judge::Judge;
use operators::Operators;
use reply_judge::{has_no_meaning, writes};
use store_model::{Outcome, Request, TxId};

/// Whether this much stands in a store with this limit, and a page and a write more don't.
fn is_full(limit: u32, pages: u64, pending: u64, told_pages: u32, told_pending: u32) -> bool
    ensures { IsTrue result ↔ ((told_pages ≡ pages) × (told_pending ≡ pending) × (limit < pages + pending + 2)) }
{
    u64::from(told_pages) == pages
        && u64::from(told_pending) == pending
        && u64::from(limit) < u64::from(told_pages) + u64::from(told_pending) + 2
}

impl Judge {
    /// Whether the transaction may write the key that the request writes.
    fn is_write_locked(&self, tx: TxId, request: &Request) -> bool
        ensures { (opening : List Record) → (h : List Entry) → IsJudgeOf opening h self.now → IsTrue result ↔ IsLocked (taken_locks h tx) (written_key request.now) }
    {
        match request {
            Request::Put(key, _) => self.locks.covers_write(tx, key),
            Request::Del(key) => self.locks.covers_write(tx, key),
            Request::Apply { key, .. } => self.locks.covers_write(tx, key),
            _ => false,
        }
    }

    /// Whether this is why the request is declined.
    fn is_why(&self, operators: &Operators, request: &Request, why: &Outcome) -> bool
        ensures { (opening : List Record) → (h : List Entry) → IsJudgeOf opening h self.now → IsTrue result ↔ WhyRule (life_log opening h) request.now why.now }
    {
        match why {
            Outcome::Full { pages, pending } => {
                self.is_full(*pages, *pending) && writes(&self.log.contents, operators, request)
            }
            Outcome::OpRefused => has_no_meaning(&self.log.contents, operators, request),
            _ => false,
        }
    }

    /// Whether so many pages and pending writes stand, and a page and a write more don't.
    fn is_full(&self, told_pages: u32, told_pending: u32) -> bool
        ensures { (opening : List Record) → (h : List Entry) → IsJudgeOf opening h self.now → IsTrue result ↔ IsFull (life_log opening h) told_pages told_pending }
    {
        is_full(
            self.log.listing.limit(),
            self.log.listing.pages() as u64,
            self.log.listing.pending(),
            told_pages,
            told_pending,
        )
    }

    /// Whether the transaction may write the key, and this is why it doesn't.
    fn is_declined(&self, operators: &Operators, tx: TxId, request: &Request, why: &Outcome) -> bool
        ensures { (opening : List Record) → (h : List Entry) → IsJudgeOf opening h self.now → IsTrue result ↔ (IsLocked (taken_locks h tx) (written_key request.now) × WhyRule (life_log opening h) request.now why.now) }
    {
        self.is_write_locked(tx, request) && self.is_why(operators, request, why)
    }

    /// Whether the session's transaction may act.
    fn may_own(&self, session: u32, tx: TxId) -> bool
        ensures { (opening : List Record) → (h : List Entry) → IsJudgeOf opening h self.now → IsTrue result ↔ (IsTrue (is_owner h session tx) × ((untold h ≡ None) × (phase h tx ≡ Live))) }
    {
        self.phases.is_owner(session, tx) && self.may_act(tx)
    }

    /// Whether the session's request may be declined so.
    pub(crate) fn may_decline(
        &self,
        operators: &Operators,
        session: u32,
        tx: TxId,
        request: &Request,
        why: &Outcome,
    ) -> bool
        ensures { (opening : List Record) → (h : List Entry) → IsJudgeOf opening h self.now → IsTrue result ↔ MayDecline opening h session tx request.now why.now }
    {
        self.may_own(session, tx) && self.is_declined(operators, tx, request, why)
    }
}
