//! Whether a record may be entered.
ghost use Rattle.std.specs.Prelude.{◌≡◌, ◌↔◌, ◌⊎◌, ◌+◌, ◌<◌, ◌≤◌, ◌^◌, ℕ, List, length, None, true, false, IsTrue, IfOk, IfSome};
ghost use Rattle.std.specs.List.{list_any};
ghost use Rattle.wal_record.specs.History.{Live, life_log, phase};
ghost use Rattle.wal_record.specs.Legal.{FollowsSplit, IsAllowed, MayUndo, RecordRule, split_leaf, untold};
ghost use Rattle.wal_record.specs.Locks.{covers_write, locks};
ghost use Rattle.wal_record.specs.OpenWrites.{is_loser};
ghost use Rattle.wal_record.specs.Rules.{HasSpelling};
ghost use Rattle.wal_record.specs.Sound.{IsLawful};
ghost use Rattle.wal_record.specs.declared.entry.Entry.{Entry};
ghost use Rattle.wal_record.specs.declared.entry.Entry.TheVariants.{Rec};
ghost use Rattle.wal_record.specs.declared.record.Record.{Record};
ghost use Rattle.history_core.specs.Judging.{IsJudgeOf, IsVerdictOn, MayComeNext, is_among, is_split, txs_of};

use crate::judge::Judge;
use crate::tests_of::is_none;
use operators::Operators;
use page_judge::{Changed, needs_split};
use store_model::{Key, Lsn, Memory, TxId};
use wal_record::{Loser, Record};

/// Whether the transaction is one of these.
fn has(losers: &[Loser], tx: TxId) -> bool
    ensures { result ≡ list_any (is_among tx) losers.now }
{
    losers.iter().any(|loser| loser.tx == tx)
}

/// Whether a record with this LSN comes directly behind the last one.
fn is_behind(last: Lsn, lsn: Lsn) -> bool
    ensures { IsTrue result ↔ (lsn ≡ last + 1) }
{
    lsn > last && lsn - 1 == last
}

impl Judge {
    /// Whether a record with this LSN is the next one, and no write waits to be told.
    pub(crate) fn is_next(&self, lsn: Lsn) -> bool
        ensures first { IsTrue result → 1 ≤ lsn }
        ensures exact { (opening : List Record) → (h : List Entry) → IsJudgeOf opening h self.now → IsTrue result ↔ ((untold h ≡ None) × (lsn ≡ length (life_log opening h) + 1)) }
    {
        is_none(&self.untold) && is_behind(self.log.listing.last(), lsn)
    }

    /// Whether the transaction is live and may write the key.
    fn may_write(&self, tx: TxId, key: &Key) -> bool
        ensures { (opening : List Record) → (h : List Entry) → IsJudgeOf opening h self.now → IsTrue result ↔ ((phase h tx ≡ Live) × IsTrue (list_any (covers_write key.now) (locks opening h tx))) }
    {
        self.phases.is_live(tx) && self.locks.covers_write(tx, key)
    }

    /// Whether the transaction was a loser of the opening log.
    fn was_loser(&self, tx: TxId) -> bool
        ensures { (opening : List Record) → (h : List Entry) → IsJudgeOf opening h self.now → result ≡ is_loser opening tx }
    {
        has(self.losers.as_slice(), tx)
    }

    /// Whether the transaction is live, or was a loser of the opening log.
    fn may_undo(&self, tx: TxId) -> bool
        ensures { (opening : List Record) → (h : List Entry) → IsJudgeOf opening h self.now → IsTrue result ↔ MayUndo opening h tx }
    {
        self.phases.is_live(tx) || self.was_loser(tx)
    }

    /// Whether the transaction of a record that isn't a split may enter it.
    fn keeps_record_rule(&self, entered: &Record) -> bool
        ensures { (opening : List Record) → (h : List Entry) → IsJudgeOf opening h self.now → is_split entered.now ≡ false → IsTrue result ↔ RecordRule opening h entered.now }
    {
        match entered {
            Record::Write(write) => self.may_write(write.tx, &write.key),
            Record::Apply(apply) => self.may_write(apply.tx, &apply.key),
            Record::Commit(commit) => self.phases.is_live(commit.tx),
            Record::Undo(undo) => self.may_undo(undo.tx),
            Record::End(end) => self.may_undo(end.tx),
            _ => true,
        }
    }

    /// Whether the record's own rule allows it.
    fn keeps_own_rule(&self, entered: &Record) -> bool
        ensures { (opening : List Record) → (h : List Entry) → IsJudgeOf opening h self.now → IsTrue result ↔ RecordRule opening h entered.now }
    {
        match entered {
            Record::Split(split) => self.log.images.may_split(split),
            _ => self.keeps_record_rule(entered),
        }
    }

    /// Whether the record may follow the last entry: behind the split of a leaf only a write that didn't fit into it.
    fn may_follow(&self, operators: &Operators, lsn: Lsn, entered: &Record) -> bool
        ensures { (opening : List Record) → (h : List Entry) → IsJudgeOf opening h self.now → IsTrue result ↔ FollowsSplit (split_leaf opening h) (Rec lsn entered.now) }
    {
        match &self.split {
            Some(leaf) => needs_split(leaf, entered, operators),
            None => true,
        }
    }

    /// Whether the record may follow the last entry, and its own rule allows it.
    fn may_go(&self, operators: &Operators, lsn: Lsn, entered: &Record) -> bool
        ensures { (opening : List Record) → (h : List Entry) → IsJudgeOf opening h self.now → IsTrue result ↔ (FollowsSplit (split_leaf opening h) (Rec lsn entered.now) × RecordRule opening h entered.now) }
    {
        self.may_follow(operators, lsn, entered) && self.keeps_own_rule(entered)
    }

    /// Whether all but the log allows a record.
    fn may_enter(&self, operators: &Operators, lsn: Lsn, entered: &Record) -> bool
        ensures first { IsTrue result → 1 ≤ lsn }
        ensures exact { (opening : List Record) → (h : List Entry) → IsJudgeOf opening h self.now → IsTrue result ↔ MayComeNext opening h lsn entered.now }
    {
        self.is_next(lsn) && self.may_go(operators, lsn, entered)
    }

    /// The verdict on a record: what it makes of the pages that it names, where it is allowed, and else nothing.
    pub(crate) fn allowed(
        &self,
        operators: &Operators,
        lsn: Lsn,
        entered: &Record,
    ) -> Result<Option<Changed>, Memory>
        ensures first { IfOk result (λ found. IfSome found (λ x. 1 ≤ lsn)) }
        ensures spelled { IfOk result (λ found. IfSome found (λ x. HasSpelling entered.now)) }
        ensures place { (opening : List Record) → (h : List Entry) → IsJudgeOf opening h self.now → IfOk result (λ found. IfSome found (λ x. lsn ≡ length (life_log opening h) + 1)) }
        ensures verdict { (opening : List Record) → (h : List Entry) → IsJudgeOf opening h self.now → IfOk result (IsVerdictOn opening h lsn entered.now) }
    {
        if !self.may_enter(operators, lsn, entered) {
            return Ok(None);
        }
        self.log.verdict(operators, entered)
    }
}
