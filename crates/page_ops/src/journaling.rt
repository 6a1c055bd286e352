//! The part of the journal that sessions, undo and upkeep need.
ghost use Rattle.std.specs.Prelude.{◌≡◌, ℕ, List, [], Some, None, length, ◌+◌, ◌<◌, ◌≤◌, OnOk, OnErr, IfOk, IfErr, IfSome, IfNone, IsTrue};
ghost use Rattle.store_model.specs.Lists.{last_of};
ghost use Rattle.store_model.specs.declared.reply.Outcome.TheVariants as outcomes;
ghost use Rattle.wal_record.specs.History.{life_log};
ghost use Rattle.wal_record.specs.Legal.{MayDecline, held};
ghost use Rattle.wal_record.specs.OpenWrites.{open_writes};
ghost use Rattle.wal_record.specs.Rules.{HasSpelling, is_number};
ghost use Rattle.wal_record.specs.declared.record.Record.{Record};
ghost use Rattle.wal_record.specs.declared.entry.Entry.{Entry};
ghost use Rattle.page_ops.specs.Causes.{Ends, FailsToEnter, FailsToFlush, FailsToRead, IsEnd, MeetsNoFault, NoOther, OrConflict, OrTooMany, with_one};
ghost use Rattle.page_ops.specs.Claims.{SessionAgrees, session_alone};
ghost use Rattle.page_ops.specs.Outcomes.{CommitsOr, IsConflict, IsCrowd, IsGrant, IsSurvey, IsWork, begun, locked, refused};
ghost use Rattle.page_ops.specs.Seeing.{Enters, IsMoment, Looks, known};
ghost use Rattle.wal_record.specs.Checkpoints.{recycle_point};

use crate::entering::Entering;
use crate::life::Life;
use crate::outcome::{Committed, Grant, Survey, Work};
use books::SessionRight;
use front::Pass;
use std::alloc::Global;
use std::sync::Wait;
use store_model::{Fault, KeyRange, Lsn, Mode, Pos, Request, TxId};
use wal_record::{Entry, Record};

/// A thread's way to the journal, for what sessions, undo and upkeep need of it beside `Entering`.
pub trait Journaling<N: Life>: Entering<N> {
    /// The right to a new session. No entry belongs to it yet, and it has no transaction.
    fn session<R: Wait>(
        &mut self,
        rt: &R,
        alloc: Global,
        pass: &mut Pass<Entry, N>,
    ) -> Result<SessionRight<N>, Fault>
        ensures seen { Looks N.opens N.entries N.session_entries (record (Self.account self.old) { made = (Self.account self.new).made }) pass.old (Self.account self.new) pass.new }
        ensures made { (Self.account self.new).made ≡ with_one (Self.account self.old).made result }
        ensures new { IfOk result (λ s. (s.entries ≡ 0) × (s.tx ≡ 0) × SessionAgrees pass.new.log s) }
        ensures refused { IfErr result (FailsToEnter NoOther) }
        ensures ends { Ends N.opens N.log_faults N.made (Self.account self.old) (Self.account self.new) pass.new.log result };

    /// Begins a transaction of the session, with the least number above all that the opening log and the history name. It
    /// makes the room that its commit needs. `TooManyActive` exactly where 64 transactions are live.
    fn begin<R: Wait>(
        &mut self,
        rt: &R,
        alloc: Global,
        s: &mut SessionRight<N>,
        pass: &mut Pass<Entry, N>,
    ) -> Result<TxId, Fault>
        requires free { s.old.tx ≡ 0 }
        ensures entered { Enters N.opens N.entries N.session_entries (known (Self.account self.old) pass.old (session_alone s.old)) (begun s.old.session result) (known (Self.account self.new) pass.new (session_alone s.new)) }
        ensures right { IfOk result (λ tx. s.new ≡ record { session = s.old.session; entries = s.old.entries + 1; tx = tx }) }
        ensures number { IfOk result (λ tx. IsTrue (is_number tx)) }
        ensures same { OnErr result (s.new ≡ s.old) }
        ensures crowd { IfErr result (IsCrowd pass.new.log) }
        ensures refused { IfErr result (FailsToEnter OrTooMany) }
        ensures ends { Ends N.opens N.log_faults N.made (Self.account self.old) (Self.account self.new) pass.new.log result };

    /// Locks a range for the session's transaction. Where a live transaction holds a conflicting lock the request is refused,
    /// which is entered: `Conflict` tells the least such transaction, and the first of its conflicting ranges. Where
    /// only losers do, it tells the least, and enters nothing.
    fn lock<R: Wait>(
        &mut self,
        rt: &R,
        alloc: Global,
        s: &mut SessionRight<N>,
        range: &KeyRange,
        mode: Mode,
        pass: &mut Pass<Entry, N>,
    ) -> Result<Grant, Fault>
        requires active { 0 < s.old.tx }
        ensures entered { Enters N.opens N.entries N.session_entries (known (Self.account self.old) pass.old (session_alone s.old)) (locked s.old.tx range.now mode result) (known (Self.account self.new) pass.new (session_alone s.new)) }
        ensures right { s.new ≡ record { session = s.old.session; entries = s.old.entries + length (locked s.old.tx range.now mode result); tx = s.old.tx } }
        ensures grant { IfOk result (IsGrant N.opens pass.new.log s.old.tx (held range.now mode)) }
        ensures conflict { IfErr result (IsConflict N.opens pass.new.log (held range.now mode)) }
        ensures refused { IfErr result (FailsToEnter OrConflict) }
        ensures ends { Ends N.opens N.log_faults N.made (Self.account self.old) (Self.account self.new) pass.new.log result };

    /// The record of the transaction's last open write, if it has one.
    fn last_open<R: Wait>(
        &mut self,
        rt: &R,
        alloc: Global,
        tx: TxId,
        pass: &mut Pass<Entry, N>,
    ) -> Result<Option<Record>, Fault>
        ensures seen { Looks N.opens N.entries N.session_entries (Self.account self.old) pass.old (Self.account self.new) pass.new }
        ensures last { IfOk result (λ found. (opening : List Record) → N.opens opening → found ≡ last_of (open_writes (life_log opening pass.new.log) tx)) }
        ensures spelling { IfOk result (λ found. IfSome found HasSpelling) }
        ensures refused { IfErr result (FailsToRead N.opens) }
        ensures ends { Ends N.opens N.log_faults N.made (Self.account self.old) (Self.account self.new) pass.new.log result };

    /// Enters that the request is declined, since its operator gives no value.
    fn refuse<R: Wait>(
        &mut self,
        rt: &R,
        alloc: Global,
        s: &mut SessionRight<N>,
        request: Request,
        pass: &mut Pass<Entry, N>,
    ) -> Result<Pos, Fault>
        requires lawful { (opening : List Record) (h : List Entry) → N.opens opening → IsMoment N.opens pass.old.log (session_alone s.old) h → MayDecline opening h s.old.session s.old.tx request outcomes.OpRefused }
        ensures entered { Enters N.opens N.entries N.session_entries (known (Self.account self.old) pass.old (session_alone s.old)) (refused s.old.session s.old.tx request result) (known (Self.account self.new) pass.new (session_alone s.new)) }
        ensures right { s.new ≡ record { session = s.old.session; entries = s.old.entries + length (refused s.old.session s.old.tx request result); tx = s.old.tx } }
        ensures place { IfOk result (λ pos. pos ≡ length pass.new.log) }
        ensures refused { IfErr result (FailsToEnter NoOther) }
        ensures ends { Ends N.opens N.log_faults N.made (Self.account self.old) (Self.account self.new) pass.new.log result };

    /// Commits the session's transaction: enters its Commit, makes the log durable up to it, and enters that it is
    /// acknowledged. It takes no memory. The session has then no transaction. After `LogFault`, and after an `Ended` of which
    /// nothing was known before, the Commit may be there, unacknowledged.
    fn commit<R: Wait>(
        &mut self,
        rt: &R,
        s: &mut SessionRight<N>,
        pass: &mut Pass<Entry, N>,
    ) -> Result<Committed, Fault>
        requires active { 0 < s.old.tx }
        ensures entered { CommitsOr N.opens N.entries N.session_entries s.old result (known (Self.account self.old) pass.old (session_alone s.old)) (known (Self.account self.new) pass.new (session_alone s.new)) }
        ensures right { OnOk result (s.new ≡ record { session = s.old.session; entries = s.old.entries + 2; tx = 0 }) }
        ensures holder { s.new.session ≡ s.old.session }
        ensures refused { IfErr result FailsToFlush }
        ensures ends { Ends N.opens N.log_faults N.made (Self.account self.old) (Self.account self.new) pass.new.log result };

    /// What the journal knows: of the log what an analysis would find in it, and of the life what it has done so far.
    fn survey<R: Wait>(
        &mut self,
        rt: &R,
        alloc: Global,
        pass: &mut Pass<Entry, N>,
    ) -> Result<Survey, Fault>
        ensures seen { Looks N.opens N.entries N.session_entries (Self.account self.old) pass.old (Self.account self.new) pass.new }
        ensures survey { IfOk result (IsSurvey N.opens pass.new) }
        ensures refused { IfErr result (FailsToEnter NoOther) }
        ensures ends { Ends N.opens N.log_faults N.made (Self.account self.old) (Self.account self.new) pass.new.log result };

    /// What a step of help may work on. It takes no memory for itself.
    fn work<R: Wait>(&mut self, rt: &R, pass: &mut Pass<Entry, N>) -> Result<Work, Fault>
        ensures seen { Looks N.opens N.entries N.session_entries (Self.account self.old) pass.old (Self.account self.new) pass.new }
        ensures work { IfOk result (IsWork N.opens pass.new) }
        ensures refused { IfErr result (FailsToEnter NoOther) }
        ensures ends { Ends N.opens N.log_faults N.made (Self.account self.old) (Self.account self.new) pass.new.log result };

    /// Makes the log durable, and forgets the whole blocks of it that nothing needs. Gives the first LSN that it keeps.
    fn recycle<R: Wait>(&mut self, rt: &R, pass: &mut Pass<Entry, N>) -> Result<Lsn, Fault>
        ensures seen { Looks N.opens N.entries N.session_entries (Self.account self.old) pass.old (Self.account self.new) pass.new }
        ensures kept { IfOk result (λ lsn. (opening : List Record) → N.opens opening → lsn ≤ recycle_point (life_log opening pass.new.log)) }
        ensures durable { OnOk result ((opening : List Record) → N.opens opening → length (life_log opening pass.new.log) ≤ pass.new.durable) }
        ensures refused { IfErr result FailsToFlush }
        ensures ends { Ends N.opens N.log_faults N.made (Self.account self.old) (Self.account self.new) pass.new.log result };

    /// How many entries the history has.
    fn length<R: Wait>(&mut self, rt: &R, pass: &mut Pass<Entry, N>) -> Pos
        ensures seen { Looks N.opens N.entries N.session_entries (Self.account self.old) pass.old (Self.account self.new) pass.new }
        ensures count { result ≡ length pass.new.log }
        ensures calm { MeetsNoFault (Self.account self.old) (Self.account self.new) };

    /// The LSN up to which the log was durable when the life ended. None exactly where it hasn't ended.
    fn ended<R: Wait>(&mut self, rt: &R) -> Option<Lsn>
        ensures known { (Self.account self.new) ≡ record (Self.account self.old) { ended = result } }
        ensures still { IfSome (Self.account self.old).ended (λ at. result ≡ Some at) }
        ensures none { IfNone result ((Self.account self.old).log_faults.amount ≡ 0) };

    /// Counts one more desk of this life. It enters nothing.
    fn desk<R: Wait>(&mut self, rt: &R, pass: &mut Pass<Entry, N>) -> Result<(), Fault>
        ensures seen { Looks N.opens N.entries N.session_entries (record (Self.account self.old) { made = (Self.account self.new).made }) pass.old (Self.account self.new) pass.new }
        ensures made { (Self.account self.new).made ≡ with_one (Self.account self.old).made result }
        ensures refused { IfErr result IsEnd }
        ensures ends { Ends N.opens N.log_faults N.made (Self.account self.old) (Self.account self.new) pass.new.log result };
}
