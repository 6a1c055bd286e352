//! The judge.
ghost use Rattle.std.specs.Prelude.{◌≡◌, ◌↔◌, ℕ, List, None, false, IsTrue};
ghost use Rattle.wal_record.specs.History.{Committed, Live, is_owner, phase};
ghost use Rattle.wal_record.specs.Legal.{EntryRule, IsAllowed, MayAcknowledge, MayBegin, MayRepair, split_leaf, untold};
ghost use Rattle.wal_record.specs.declared.entry.Entry.{Entry};
ghost use Rattle.wal_record.specs.declared.record.Record.{Record};
ghost use Rattle.history_core.specs.Judging.{IsJudgeOf, is_record};

use crate::tests_of::is_none;
use lock_judge::TakenLocks;
use operators::Operators;
use page_judge::Image;
use phase_judge::Phases;
use record_judge::RecordJudge;
use store_model::{List, PageNo, TxId};
use wal_record::{Entry, Loser, Record};

/// What is kept of a life's history to judge the next entry.
#[derive(Drop)]
pub struct Judge {
    pub(crate) phases: Phases,
    pub(crate) locks: TakenLocks,
    pub(crate) log: RecordJudge,
    /// The losers of the opening log.
    pub(crate) losers: List<Loser>,
    /// The write that its transaction wasn't told of yet, where the last entry is one.
    pub(crate) untold: Option<Record>,
    /// The leaf that the last entry split, as it was before, where it did.
    pub(crate) split: Option<Image>,
}

impl Judge {
    /// Whether no write waits to be told, and the transaction is live.
    pub(crate) fn may_act(&self, tx: TxId) -> bool
        ensures { (opening : List Record) → (h : List Entry) → IsJudgeOf opening h self.now → IsTrue result ↔ ((untold h ≡ None) × (phase h tx ≡ Live)) }
    {
        is_none(&self.untold) && self.phases.is_live(tx)
    }

    fn may_begin(&self, session: u32, tx: TxId) -> bool
        ensures { (opening : List Record) → (h : List Entry) → IsJudgeOf opening h self.now → IsTrue result ↔ MayBegin opening h session tx }
    {
        is_none(&self.untold) && self.phases.may_begin(session, tx)
    }

    fn owns_committed(&self, session: u32, tx: TxId) -> bool
        ensures { (opening : List Record) → (h : List Entry) → IsJudgeOf opening h self.now → IsTrue result ↔ (IsTrue (is_owner h session tx) × (phase h tx ≡ Committed)) }
    {
        self.phases.is_owner(session, tx) && self.phases.is_committed(tx)
    }

    fn may_acknowledge(&self, session: u32, tx: TxId) -> bool
        ensures { (opening : List Record) → (h : List Entry) → IsJudgeOf opening h self.now → IsTrue result ↔ MayAcknowledge h session tx }
    {
        is_none(&self.untold) && self.owns_committed(session, tx)
    }

    fn may_repair(&self, page: PageNo) -> bool
        ensures { (opening : List Record) → (h : List Entry) → IsJudgeOf opening h self.now → IsTrue result ↔ MayRepair opening h page }
    {
        is_none(&self.untold) && self.log.listing.written_lsn(page) > 0
    }

    /// Whether the rule of its kind allows an entry that is no record.
    fn keeps_rule(&self, operators: &Operators, entry: &Entry) -> bool
        ensures { (opening : List Record) → (h : List Entry) → IsJudgeOf opening h self.now → is_record entry.now ≡ false → IsTrue result ↔ EntryRule opening h entry.now }
    {
        match entry {
            Entry::Began { session, tx } => self.may_begin(*session, *tx),
            Entry::Lock { tx, range, mode } => self.may_lock(*tx, range, *mode),
            Entry::Refused {
                tx,
                range,
                mode,
                holder,
            } => self.may_refuse(*tx, range, *mode, *holder),
            Entry::Said {
                session,
                tx,
                request,
                reply,
            } => self.may_say(*session, *tx, request, reply),
            Entry::Declined {
                session,
                tx,
                request,
                why,
            } => self.may_decline(operators, *session, *tx, request, why),
            Entry::Acked { session, tx } => self.may_acknowledge(*session, *tx),
            Entry::Repaired { page } => self.may_repair(*page),
            Entry::Rec { .. } => false,
        }
    }

    /// Whether the last entry split no leaf.
    fn is_whole(&self) -> bool
        ensures { (opening : List Record) → (h : List Entry) → IsJudgeOf opening h self.now → IsTrue result ↔ (split_leaf opening h ≡ None) }
    {
        self.split.is_none()
    }

    /// Whether an entry that is no record is legal here.
    pub(crate) fn allows(&self, operators: &Operators, entry: &Entry) -> bool
        ensures { (opening : List Record) → (h : List Entry) → IsJudgeOf opening h self.now → is_record entry.now ≡ false → IsTrue result ↔ IsAllowed opening h entry.now }
    {
        self.is_whole() && self.keeps_rule(operators, entry)
    }
}
