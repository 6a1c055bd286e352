//! The active transactions of a life, by name.
ghost use Rattle.std.specs.Prelude.{◌≡◌, ◌≢◌, ◌<◌, ◌≤◌, [], None, Some, List, ◌++◌, Err, IfErr, IfOk, OnErr, OnOk, false, length, position};
ghost use Rattle.command_laws.specs.Names.{Active, active_of, is_active, without};
ghost use Rattle.engine.specs.Answers.{FailsToAsk};
ghost use Rattle.engine.specs.Applies.{GivesNone};
ghost use Rattle.engine.specs.Requests.{IsRefusal, lock_of};
ghost use Rattle.engine.specs.Writes.{LacksRoom};
ghost use Rattle.log_laws.specs.Right.{IsRight};
ghost use Rattle.maintenance.specs.Marks.{FailsToMark};
ghost use Rattle.page_ops.specs.Causes.{Ends, FailsToBring, FailsToEnter, FailsToFlush, MeetsNoEnd, NoOther, OrTooMany};
ghost use Rattle.page_ops.specs.Desks.{KeepsFaults};
ghost use Rattle.page_ops.specs.Outcomes.{IsConflict, IsCrowd, IsSurvey};
ghost use Rattle.page_ops.specs.Seeing.{Keeps, Looks};
ghost use Rattle.script.specs.Word.{same_text};
ghost use Rattle.store_model.specs.declared.fault.Fault.TheVariants as faults;
ghost use Rattle.wal_record.specs.declared.entry.Entry.{Entry};
ghost use Rattle.wal_record.specs.declared.record.Record.{Record};
ghost use Rattle.store_life.specs.SoFar.{BeginsAs, HasNames, Runs, actives, left_by};
ghost use Rattle.store_life.specs.Turns.{Asks, EndsBy, IsCheckpointed, IsCommitted, IsLost, IsTold};

use crate::asking::ask_session;
use crate::beginning::begin_session;
use crate::ending::{abort_session, commit_session};
use engine::{Answered, Session};
use front::Pass;
use maintenance::{checkpoint, mark_lost};
use operators::Operators;
use page_ops::{Committed, Entering, Journaling, Life, Pages, Rights, Survey};
use script::Name;
use std::alloc::Global;
use std::sync::Wait;
use store_model::{Fault, Lsn, MOST_ACTIVE, Pos, Request, TxId};
use wal_record::Entry;

/// An active transaction: its name, and its session.
#[derive(Drop)]
pub struct Named<N: Life> {
    pub name: Name,
    pub session: Session<N>,
}

/// A life so far: a pass that has seen its whole history, and the active transactions in the order of their beginning.
#[derive(Drop)]
pub struct StoreLife<N: Life> {
    pub pass: Pass<Entry, N>,
    pub named: Vec<Named<N>>,
}

impl<N: Life> StoreLife<N> {
    /// A life of which nobody else enters anything, with no active transaction.
    pub fn new<J: Entering<N>, R: Wait>(
        rt: &R,
        alloc: Global,
        journal: &mut J,
        pass: Pass<Entry, N>,
    ) -> StoreLife<N>
        requires { (J.account journal.old).entries.parts ≡ N.entries.parts }
        ensures runs { Runs N.opens N.entries (J.account journal.new) result }
        ensures seen { Looks N.opens N.entries N.session_entries (J.account journal.old) pass (J.account journal.new) result.pass }
        ensures keeps { Keeps (J.account journal.old) (J.account journal.new) }
        ensures none { result.named.items ≡ [] }
        ensures fresh { (J.account journal.old).entries.amount ≡ 0 → HasNames result }
    {
        let mut pass = pass;
        let mut rights = Rights::none();
        journal.see(rt, &mut rights, &mut pass);
        StoreLife {
            pass,
            named: Vec::new(alloc),
        }
    }

    /// The history of the life so far is legal, its committed transactions are serial, and a stop leaves the first of them.
    /// So it was at each entry before.
    pub fn look<J: Entering<N>>(&self, journal: &J)
        requires { Runs N.opens N.entries (J.account journal.now) self.now }
        ensures right { (opening : List Record) → N.opens opening → IsRight opening self.now.pass.log }
        ensures before { (opening : List Record) (first rest : List Entry) → N.opens opening → self.now.pass.log ≡ first ++ rest → IsRight opening first }
    {}

    /// Where the name stands in the list.
    fn place(&self, name: &Name) -> Option<usize>
        ensures { result ≡ position (λ named. same_text name.now named.name) self.now.named.items }
    {
        self.named.iter().position(|named| is_named(named, name))
    }

    /// Whether a transaction of this name is active.
    pub fn is_active(&self, name: &Name) -> bool
        ensures { result ≡ is_active (actives self.now.named.items) name.now }
    {
        match self.place(name) {
            Some(_) => true,
            None => false,
        }
    }

    /// Begins a transaction of a name that isn't active, in a new session: its number is the least above all that the log and
    /// the history name. `TooManyActive` where 64 names are active. Below that it comes only where a transaction that is live
    /// has no name, or where no log is known with which the life may have begun; and then 64 are live. After a refusal nothing
    /// was entered.
    pub fn begin<J: Journaling<N>, R: Wait>(
        &mut self,
        rt: &R,
        alloc: Global,
        journal: &mut J,
        name: Name,
    ) -> Result<TxId, Fault>
        requires runs { Runs N.opens N.entries (J.account journal.old) self.old }
        requires free { is_active (actives self.old.named.items) name ≡ false }
        ensures runs { Runs N.opens N.entries (J.account journal.new) self.new }
        ensures begins { BeginsAs name result self.old self.new }
        ensures named { HasNames self.old → HasNames self.new }
        ensures room { HasNames self.old → length self.old.named.items < MOST_ACTIVE → (opening : List Record) → N.opens opening → result ≢ Err faults.TooManyActive }
        ensures durable { self.old.pass.durable ≤ self.new.pass.durable }
        ensures crowd { length self.old.named.items < MOST_ACTIVE → IfErr result (IsCrowd self.new.pass.log) }
        ensures few { OnOk result (length self.old.named.items < MOST_ACTIVE) }
        ensures keeps { Keeps (record (J.account journal.old) { made = (J.account journal.new).made }) (J.account journal.new) }
        ensures refused { IfErr result (FailsToEnter OrTooMany) }
        ensures ends { Ends N.opens N.log_faults N.made (record (J.account journal.old) { made = (J.account journal.new).made }) (J.account journal.new) self.new.pass.log result }
    {
        match self.named.reserve(1) {
            Ok(()) => {}
            Err(_) => return Err(Fault::Memory),
        }
        let crowded = self.named.len() >= MOST_ACTIVE as usize;
        let session = match begin_session(rt, alloc, journal, crowded, &mut self.pass) {
            Ok(session) => session,
            Err(fault) => return Err(fault),
        };
        let tx = session.transaction();
        match self.named.push(Named { name, session }) {
            Ok(()) => Ok(tx),
            Err(_) => unreachable!(),
        }
    }

    /// Asks for the active transaction of this name. `NotActive` where there is none, and then all is as before. The answer,
    /// its place and its reply are those that are entered last; beside them stand the request's lock, the undo and the End of
    /// losers in its way, and upkeep.
    pub fn ask<J: Journaling<N>, P: Pages<N, J>, R: Wait>(
        &mut self,
        rt: &R,
        alloc: Global,
        pages: &mut P,
        journal: &mut J,
        operators: &Operators,
        name: &Name,
        request: Request,
    ) -> Result<Answered, Fault>
        requires runs { Runs N.opens N.entries (J.account journal.old) self.old }
        requires none { (P.desk pages.old).out ≡ 0 }
        requires reserved { (P.desk pages.old).reserves ≡ false }
        ensures runs { Runs N.opens N.entries (J.account journal.new) self.new }
        ensures unknown { active_of (actives self.old.named.items) name.now ≡ None → (result ≡ Err faults.NotActive) × (self.new ≡ self.old) × (J.account journal.new ≡ J.account journal.old) }
        ensures asks { (a : Active) → active_of (actives self.old.named.items) name.now ≡ Some a → Asks N.opens a.session a.tx request result self.old.pass.log self.new.pass.log }
        ensures told { (a : Active) → active_of (actives self.old.named.items) name.now ≡ Some a → IfOk result (IsTold N.opens a.session a.tx request self.new.pass.log) }
        ensures names { actives self.new.named.items ≡ actives self.old.named.items }
        ensures named { HasNames self.old → HasNames self.new }
        ensures durable { self.old.pass.durable ≤ self.new.pass.durable }
        ensures conflict { IfErr result (IsConflict N.opens self.new.pass.log (lock_of request)) }
        ensures full { IfErr result (LacksRoom N.opens self.new.pass.log) }
        ensures gives_none { IfErr result (GivesNone N.opens request self.new.pass.log) }
        ensures none { (P.desk pages.new).out ≡ 0 }
        ensures reserved { (P.desk pages.new).reserves ≡ false }
        ensures keeps { Keeps (J.account journal.old) (J.account journal.new) }
        ensures faults { KeepsFaults (P.desk pages.old).faults (P.desk pages.new).faults }
        ensures open { OnOk result (MeetsNoEnd (J.account journal.old) (J.account journal.new)) }
        ensures refused { (a : Active) → active_of (actives self.old.named.items) name.now ≡ Some a → IfErr result (FailsToAsk (IsRefusal request) N.opens N.log_faults N.made
            (P.desk pages.old).faults (P.desk pages.new).faults (J.account journal.old) (J.account journal.new) self.new.pass.log) }
    {
        let place = match self.place(name) {
            Some(place) => place,
            None => return Err(Fault::NotActive),
        };
        let named = &mut self.named[place];
        ask_session(
            rt,
            alloc,
            pages,
            journal,
            operators,
            &mut named.session,
            request,
            &mut self.pass,
        )
    }

    /// Commits the active transaction of this name, which is active no more. `NotActive` where there is none, and then all is
    /// as before. It takes no memory. Where the log fails, or the life has ended, the name stays active; at most its Commit was
    /// entered then, unacknowledged.
    pub fn commit<J: Journaling<N>, R: Wait>(
        &mut self,
        rt: &R,
        journal: &mut J,
        name: &Name,
    ) -> Result<Committed, Fault>
        requires { Runs N.opens N.entries (J.account journal.old) self.old }
        ensures runs { Runs N.opens N.entries (J.account journal.new) self.new }
        ensures unknown { active_of (actives self.old.named.items) name.now ≡ None → (result ≡ Err faults.NotActive) × (self.new ≡ self.old) × (J.account journal.new ≡ J.account journal.old) }
        ensures commits { (a : Active) → active_of (actives self.old.named.items) name.now ≡ Some a → IsCommitted N.opens a.session a.tx (J.account journal.old) result self.old.pass.log self.new.pass }
        ensures names { actives self.new.named.items ≡ left_by result (actives self.old.named.items) name.now }
        ensures named { HasNames self.old → HasNames self.new }
        ensures durable { self.old.pass.durable ≤ self.new.pass.durable }
        ensures keeps { Keeps (J.account journal.old) (J.account journal.new) }
        ensures refused { (a : Active) → active_of (actives self.old.named.items) name.now ≡ Some a → IfErr result FailsToFlush }
        ensures ends { (a : Active) → active_of (actives self.old.named.items) name.now ≡ Some a → Ends N.opens N.log_faults N.made (J.account journal.old) (J.account journal.new) self.new.pass.log result }
    {
        let place = match self.place(name) {
            Some(place) => place,
            None => return Err(Fault::NotActive),
        };
        let named = &mut self.named[place];
        let committed = commit_session(rt, journal, &mut named.session, &mut self.pass);
        if committed.is_ok() {
            self.named.remove(place);
        }
        committed
    }

    /// Undoes the active transaction of this name and ends it: its writes, the last one first, and then it is active no more.
    /// `NotActive` where there is none, and then all is as before. After another refusal what was undone stays so, the
    /// transaction has no End yet, the name stays active, and it may be called again.
    pub fn abort<J: Journaling<N>, P: Pages<N, J>, R: Wait>(
        &mut self,
        rt: &R,
        alloc: Global,
        pages: &mut P,
        journal: &mut J,
        name: &Name,
    ) -> Result<Pos, Fault>
        requires runs { Runs N.opens N.entries (J.account journal.old) self.old }
        requires none { (P.desk pages.old).out ≡ 0 }
        requires reserved { (P.desk pages.old).reserves ≡ false }
        ensures runs { Runs N.opens N.entries (J.account journal.new) self.new }
        ensures unknown { active_of (actives self.old.named.items) name.now ≡ None → (result ≡ Err faults.NotActive) × (self.new ≡ self.old) × (J.account journal.new ≡ J.account journal.old) }
        ensures aborts { (a : Active) → active_of (actives self.old.named.items) name.now ≡ Some a → EndsBy N.opens a.tx result self.old.pass.log self.new.pass.log }
        ensures names { actives self.new.named.items ≡ left_by result (actives self.old.named.items) name.now }
        ensures named { HasNames self.old → HasNames self.new }
        ensures durable { self.old.pass.durable ≤ self.new.pass.durable }
        ensures none { (P.desk pages.new).out ≡ 0 }
        ensures reserved { (P.desk pages.new).reserves ≡ false }
        ensures keeps { Keeps (J.account journal.old) (J.account journal.new) }
        ensures faults { KeepsFaults (P.desk pages.old).faults (P.desk pages.new).faults }
        ensures open { OnOk result (MeetsNoEnd (J.account journal.old) (J.account journal.new)) }
        ensures refused { (a : Active) → active_of (actives self.old.named.items) name.now ≡ Some a → IfErr result (FailsToBring N.opens N.log_faults N.made
            (P.desk pages.old).faults (P.desk pages.new).faults (J.account journal.old) (J.account journal.new) self.new.pass.log) }
    {
        let place = match self.place(name) {
            Some(place) => place,
            None => return Err(Fault::NotActive),
        };
        let named = &mut self.named[place];
        let ended = abort_session(
            rt,
            alloc,
            pages,
            journal,
            &mut named.session,
            &mut self.pass,
        );
        if ended.is_ok() {
            self.named.remove(place);
        }
        ended
    }

    /// Takes a Checkpoint: enters it, and makes the log durable up to it. Gives its LSN.
    pub fn checkpoint<J: Journaling<N>, R: Wait>(
        &mut self,
        rt: &R,
        alloc: Global,
        journal: &mut J,
    ) -> Result<Lsn, Fault>
        requires { Runs N.opens N.entries (J.account journal.old) self.old }
        ensures runs { Runs N.opens N.entries (J.account journal.new) self.new }
        ensures entered { IsCheckpointed result self.old.pass.log self.new.pass.log }
        ensures names { self.new.named ≡ self.old.named }
        ensures named { HasNames self.old → HasNames self.new }
        ensures durable { self.old.pass.durable ≤ self.new.pass.durable }
        ensures flushed { IfOk result (λ lsn. (opening : List Record) → N.opens opening → lsn ≤ self.new.pass.durable) }
        ensures keeps { Keeps (J.account journal.old) (J.account journal.new) }
        ensures refused { IfErr result FailsToMark }
        ensures ends { Ends N.opens N.log_faults N.made (J.account journal.old) (J.account journal.new) self.new.pass.log result }
    {
        checkpoint(rt, alloc, journal, &mut self.pass)
    }

    /// Says in the log that the data device is lost, and makes the log durable up to that. Gives the LSN of the record.
    pub fn mark_lost<J: Journaling<N>, R: Wait>(
        &mut self,
        rt: &R,
        alloc: Global,
        journal: &mut J,
    ) -> Result<Lsn, Fault>
        requires { Runs N.opens N.entries (J.account journal.old) self.old }
        ensures runs { Runs N.opens N.entries (J.account journal.new) self.new }
        ensures entered { IsLost result self.old.pass.log self.new.pass.log }
        ensures names { self.new.named ≡ self.old.named }
        ensures named { HasNames self.old → HasNames self.new }
        ensures durable { self.old.pass.durable ≤ self.new.pass.durable }
        ensures flushed { IfOk result (λ lsn. (opening : List Record) → N.opens opening → lsn ≤ self.new.pass.durable) }
        ensures keeps { Keeps (J.account journal.old) (J.account journal.new) }
        ensures refused { IfErr result FailsToMark }
        ensures ends { Ends N.opens N.log_faults N.made (J.account journal.old) (J.account journal.new) self.new.pass.log result }
    {
        mark_lost(rt, alloc, journal, &mut self.pass)
    }

    /// What the journal knows of the log and of the life. Nothing is entered.
    pub fn survey<J: Journaling<N>, R: Wait>(
        &mut self,
        rt: &R,
        alloc: Global,
        journal: &mut J,
    ) -> Result<Survey, Fault>
        requires { Runs N.opens N.entries (J.account journal.old) self.old }
        ensures runs { Runs N.opens N.entries (J.account journal.new) self.new }
        ensures same { self.new.pass.log ≡ self.old.pass.log }
        ensures names { self.new.named ≡ self.old.named }
        ensures durable { self.old.pass.durable ≤ self.new.pass.durable }
        ensures survey { IfOk result (IsSurvey N.opens self.new.pass) }
        ensures keeps { Keeps (J.account journal.old) (J.account journal.new) }
        ensures refused { IfErr result (FailsToEnter NoOther) }
        ensures ends { Ends N.opens N.log_faults N.made (J.account journal.old) (J.account journal.new) self.new.pass.log result }
    {
        journal.survey(rt, alloc, &mut self.pass)
    }
}

/// Whether this is the name of the transaction.
fn is_named<N: Life>(named: &Named<N>, name: &Name) -> bool
    ensures { result ≡ same_text name.now named.now.name }
{
    name.as_bytes() == named.name.as_bytes()
}
