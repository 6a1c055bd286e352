//! Whether a request may be answered so.
ghost use Rattle.std.specs.Prelude.{◌≡◌, ◌↔◌, ℕ, List, IsTrue};
ghost use Rattle.std.specs.List.{list_any};
ghost use Rattle.wal_record.specs.Contents.{current};
ghost use Rattle.wal_record.specs.History.{life_log};
ghost use Rattle.wal_record.specs.Legal.{MaySay, ReplyRule, untold};
ghost use Rattle.wal_record.specs.Locks.{covers, covers_write, taken_locks};
ghost use Rattle.reply_judge.specs.Answers.{IsAnswer};
ghost use Rattle.history_core.specs.Locked.{IsReadLocked};
ghost use Rattle.wal_record.specs.declared.entry.Entry.{Entry};
ghost use Rattle.wal_record.specs.declared.record.Record.{Record};
ghost use Rattle.history_core.specs.Judging.{IsJudgeOf};

use crate::judge::Judge;
use crate::tests_of::is_of;
use reply_judge::{answers, is_told_as};
use store_model::{KeyRange, Reply, Request, TxId};

impl Judge {
    /// Whether the transaction took the lock that the reply rests on.
    fn is_locked_for(&self, tx: TxId, request: &Request) -> bool
        ensures { (opening : List Record) → (h : List Entry) → IsJudgeOf opening h self.now → IsTrue result ↔ IsReadLocked (taken_locks h tx) request.now }
    {
        match request {
            Request::Get(key) => self.locks.covers(tx, &KeyRange::point(key)),
            Request::Scan(range) => self.locks.covers(tx, range),
            Request::Del(key) => self.locks.covers_write(tx, key),
            _ => false,
        }
    }

    /// Whether the contents say so where the transaction has locked them.
    fn is_answer(&self, tx: TxId, request: &Request, reply: &Reply) -> bool
        ensures { (opening : List Record) → (h : List Entry) → IsJudgeOf opening h self.now → IsTrue result ↔ (IsReadLocked (taken_locks h tx) request.now × IsAnswer (current (life_log opening h)) request.now reply.now) }
    {
        self.is_locked_for(tx, request) && answers(&self.log.contents, request, reply)
    }

    /// Whether the reply is right, for a transaction that holds what it took.
    fn is_reply(&self, tx: TxId, request: &Request, reply: &Reply) -> bool
        ensures { (opening : List Record) → (h : List Entry) → IsJudgeOf opening h self.now → IsTrue result ↔ ReplyRule (untold h) (current (life_log opening h)) (taken_locks h tx) tx request.now reply.now }
    {
        match &self.untold {
            Some(told) => is_of(told, tx) && is_told_as(told, request, reply),
            None => self.is_answer(tx, request, reply),
        }
    }

    /// Whether the session may be told so.
    pub(crate) fn may_say(&self, session: u32, tx: TxId, request: &Request, reply: &Reply) -> bool
        ensures { (opening : List Record) → (h : List Entry) → IsJudgeOf opening h self.now → IsTrue result ↔ MaySay opening h session tx request.now reply.now }
    {
        self.phases.is_owner(session, tx) && self.is_reply(tx, request, reply)
    }
}
