//! The phases of a life's transactions.
ghost use Rattle.std.specs.Prelude.{◌≡◌, ◌↔◌, ◌==◌, [], ◌∷◌, ◌++◌, ℕ, List, Option, Some, None, IsTrue, OnOk, OnErr, is_some, false, suc, if◌then◌else◌};
ghost use Rattle.std.specs.Ordering.{nat_cmp};
ghost use Rattle.std.specs.BTreeMap.{get};
ghost use Rattle.wal_record.specs.Chains.{greatest};
ghost use Rattle.wal_record.specs.History.{Phase, Live, Committed, Ended, phase, is_owner, is_live, last_begun, IsFree};
ghost use Rattle.wal_record.specs.Legal.{IsAllowed, MayBegin, untold};
ghost use Rattle.wal_record.specs.declared.entry.Entry.{Entry};
ghost use Rattle.wal_record.specs.declared.entry.Entry.TheVariants.{Began, Rec};
ghost use Rattle.wal_record.specs.declared.record.Record.{Record};
ghost use Rattle.phase_judge.specs.Phases.{ArePhasesOf, IsMoveOf, is_by, last_in, live_after, phase_of, started_in};
ghost use Rattle.phase_judge.specs.declared.stage.Started.{Started};

use crate::stage::{Stage, Started, is_committed, is_live, is_over};
use std::alloc::{AllocError, Global};
use std::collections::BTreeMap;
use store_model::{MOST_ACTIVE, Memory, TxId};
use wal_record::{Entry, Record};

/// The phases of the transactions of a life, and which session began which.
#[derive(Drop)]
pub struct Phases {
    transactions: BTreeMap<TxId, Started>,
    /// For each session, the transaction that it began last.
    sessions: BTreeMap<u32, Option<TxId>>,
    /// The greatest number of a transaction, of the opening log or of this life, 0 for none.
    greatest: TxId,
    /// How many transactions are live.
    live: u32,
}

/// Makes a place for what a session begins.
fn make_place(sessions: &mut BTreeMap<u32, Option<TxId>>, session: u32) -> Result<(), Memory>
    ensures same { (s : ℕ) → last_in sessions.new s ≡ last_in sessions.old s }
    ensures there { OnOk result (IsTrue (is_some (get nat_cmp sessions.new session))) }
{
    if sessions.contains_key(&session) {
        return Ok(());
    }
    sessions.insert(session, None)?;
    Ok(())
}

/// The session, which has a place, began this transaction.
fn set_last(sessions: &mut BTreeMap<u32, Option<TxId>>, session: u32, tx: TxId)
    requires { IsTrue (is_some (get nat_cmp sessions.old session)) }
    ensures { (s : ℕ) → last_in sessions.new s ≡ (if session == s then Some tx else last_in sessions.old s) }
{
    match sessions.insert(session, Some(tx)) {
        Ok(_) => {}
        Err(_) => unreachable!(),
    }
}

/// The transaction is this one now. Where memory runs out, each one is as it was.
fn put(transactions: &mut BTreeMap<TxId, Started>, tx: TxId, started: Started) -> Result<(), Memory>
    ensures ok { OnOk result ((t : ℕ) → started_in transactions.new t ≡ (if tx == t then started else started_in transactions.old t)) }
    ensures err { OnErr result ((t : ℕ) → started_in transactions.new t ≡ started_in transactions.old t) }
{
    transactions.insert(tx, started)?;
    Ok(())
}

/// Whether the number is one above the other.
fn is_next(greatest: TxId, tx: TxId) -> bool
    ensures { IsTrue result ↔ (tx ≡ suc greatest) }
{
    tx > greatest && tx - 1 == greatest
}

/// How many are live after one of them, which stood here, is live no more.
fn live_without(live: u32, was: Stage) -> u32
    ensures { result ≡ live_after live (phase_of was) }
{
    if is_live(was) {
        live.saturating_sub(1)
    } else {
        live
    }
}

/// Whether it is this session.
fn is_by(session: u32, other: Option<u32>) -> bool
    ensures { result ≡ is_by session other }
{
    match other {
        Some(other) => other == session,
        None => false,
    }
}

impl Phases {
    /// Those of an empty history, behind an opening log in which this is the greatest number of a transaction.
    pub fn new(alloc: Global, most: TxId) -> Phases
        ensures { (opening : List Record) → most ≡ greatest opening → ArePhasesOf opening [] result }
    {
        Phases {
            transactions: BTreeMap::new(alloc),
            sessions: BTreeMap::new(alloc),
            greatest: most,
            live: 0,
        }
    }

    fn started(&self, tx: TxId) -> Started
        ensures { result ≡ started_in self.now.transactions tx }
    {
        match self.transactions.get(&tx) {
            Some(started) => *started,
            None => Started {
                session: None,
                stage: Stage::Idle,
            },
        }
    }

    fn last_begun(&self, session: u32) -> Option<TxId>
        ensures { result ≡ last_in self.now.sessions session }
    {
        match self.sessions.get(&session) {
            Some(last) => *last,
            None => None,
        }
    }

    /// Where a transaction stands.
    pub fn stage(&self, tx: TxId) -> Stage
        ensures { (opening : List Record) → (h : List Entry) → ArePhasesOf opening h self.now → phase_of result ≡ phase h tx }
    {
        self.started(tx).stage
    }

    /// Whether a transaction is live.
    pub fn is_live(&self, tx: TxId) -> bool
        ensures { (opening : List Record) → (h : List Entry) → ArePhasesOf opening h self.now → IsTrue result ↔ (phase h tx ≡ Live) }
    {
        is_live(self.started(tx).stage)
    }

    /// Whether a transaction is committed, and wasn't acknowledged.
    pub fn is_committed(&self, tx: TxId) -> bool
        ensures { (opening : List Record) → (h : List Entry) → ArePhasesOf opening h self.now → IsTrue result ↔ (phase h tx ≡ Committed) }
    {
        is_committed(self.started(tx).stage)
    }

    /// Whether the session began the transaction.
    pub fn is_owner(&self, session: u32, tx: TxId) -> bool
        ensures { (opening : List Record) → (h : List Entry) → ArePhasesOf opening h self.now → result ≡ is_owner h session tx }
    {
        is_by(session, self.started(tx).session)
    }

    /// Whether the session's last transaction, if it has one, was acknowledged or has ended.
    fn is_free(&self, session: u32) -> bool
        ensures { (opening : List Record) → (h : List Entry) → ArePhasesOf opening h self.now → IsTrue result ↔ IsFree h (last_begun h session) }
    {
        match self.last_begun(session) {
            Some(tx) => is_over(self.started(tx).stage),
            None => true,
        }
    }

    /// Whether the session may begin this transaction, where no write waits to be told.
    pub fn may_begin(&self, session: u32, tx: TxId) -> bool
        ensures { (opening : List Record) → (h : List Entry) → ArePhasesOf opening h self.now → untold h ≡ None → IsTrue result ↔ MayBegin opening h session tx }
    {
        is_next(self.greatest, tx) && self.live < MOST_ACTIVE && self.is_free(session)
    }

    /// The session begins the transaction, where it may.
    fn begin(&mut self, session: u32, tx: TxId) -> Result<(), Memory>
        ensures ok { (opening : List Record) → (h : List Entry) → ArePhasesOf opening h self.old → MayBegin opening h session tx → OnOk result (ArePhasesOf opening (h ++ Began session tx ∷ []) self.new) }
        ensures err { (opening : List Record) → (h : List Entry) → ArePhasesOf opening h self.old → OnErr result (ArePhasesOf opening h self.new) }
    {
        make_place(&mut self.sessions, session)?;
        let started = Started {
            session: Some(session),
            stage: Stage::Live,
        };
        put(&mut self.transactions, tx, started)?;
        set_last(&mut self.sessions, session, tx);
        self.greatest = tx;
        self.live = self.live.saturating_add(1);
        Ok(())
    }

    /// The transaction comes to this stage, in which it isn't live.
    fn come_to(&mut self, tx: TxId, stage: Stage) -> Result<(), Memory>
        requires { is_live (phase_of stage) ≡ false }
        ensures ok { (opening : List Record) → (h : List Entry) → (e : Entry) → ArePhasesOf opening h self.old → IsMoveOf tx (phase_of stage) e → OnOk result (ArePhasesOf opening (h ++ e ∷ []) self.new) }
        ensures err { (opening : List Record) → (h : List Entry) → ArePhasesOf opening h self.old → OnErr result (ArePhasesOf opening h self.new) }
    {
        let was = self.started(tx);
        put(&mut self.transactions, tx, Started { stage, ..was })?;
        self.live = live_without(self.live, was.stage);
        Ok(())
    }

    /// The next record. Where memory runs out, these are still the phases of the history before it.
    pub fn note_record(&mut self, entered: &Record) -> Result<(), Memory>
        ensures ok { (opening : List Record) → (h : List Entry) → (lsn : ℕ) → ArePhasesOf opening h self.old → OnOk result (ArePhasesOf opening (h ++ Rec lsn entered.now ∷ []) self.new) }
        ensures err { (opening : List Record) → (h : List Entry) → ArePhasesOf opening h self.old → OnErr result (ArePhasesOf opening h self.new) }
    {
        match entered {
            Record::Commit(commit) => self.come_to(commit.tx, Stage::Committed),
            Record::End(end) => self.come_to(end.tx, Stage::Ended),
            _ => Ok(()),
        }
    }

    /// The next entry, which is legal there. Where memory runs out, these are still the phases of the history before it.
    pub fn note(&mut self, entry: &Entry) -> Result<(), Memory>
        ensures ok { (opening : List Record) → (h : List Entry) → ArePhasesOf opening h self.old → IsAllowed opening h entry.now → OnOk result (ArePhasesOf opening (h ++ entry.now ∷ []) self.new) }
        ensures err { (opening : List Record) → (h : List Entry) → ArePhasesOf opening h self.old → OnErr result (ArePhasesOf opening h self.new) }
    {
        match entry {
            Entry::Began { session, tx } => self.begin(*session, *tx),
            Entry::Acked { tx, .. } => self.come_to(*tx, Stage::Acknowledged),
            Entry::Rec { rec, .. } => self.note_record(rec),
            _ => Ok(()),
        }
    }
}
