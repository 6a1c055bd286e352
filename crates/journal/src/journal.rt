//! The value behind the lock, and its calls.
ghost use Rattle.std.specs.Prelude.{◌≡◌, ◌+◌, ◌<◌, ◌≤◌, ◌^◌, ℕ, List, [], ◌∷◌, length, map, min, Some, None, IfSome, IfNone, IfOk, IfErr, IsErrAnd, OnOk, OnErr, IsTrue};
ghost use Rattle.std.specs.List.{All};
ghost use Rattle.group_filling.specs.Fitting.{AreInRange};
ghost use Rattle.log_index.specs.GoingOn.{may_go_on};
ghost use Rattle.log_blocks.specs.LogState.{durable_lsn};
ghost use Rattle.log_blocks.specs.Opening.{IsLogFault};
ghost use Rattle.log_manager.specs.Payload.{bytes_of};
ghost use Rattle.listed_log.specs.Listed.{IsLogWith};
ghost use Rattle.page_ops.specs.Causes.{Ends, FailsToEnter, FailsToFlush, NoOther, OrConflict, OrTooMany, with_one};
ghost use Rattle.page_ops.specs.Claims.{SessionAgrees, session_alone};
ghost use Rattle.page_ops.specs.Groups.{Each};
ghost use Rattle.page_ops.specs.Outcomes.{CommitsOr, IsConflict, IsCrowd, IsGrant, begun, locked, refused};
ghost use Rattle.page_ops.specs.Seeing.{Enters, IsMoment, Looks, known};
ghost use Rattle.store_model.specs.declared.reply.Outcome.TheVariants as outcomes;
ghost use Rattle.wal_record.specs.Chains.{pages};
ghost use Rattle.wal_record.specs.History.{life_log};
ghost use Rattle.wal_record.specs.Legal.{MayDecline, held};
ghost use Rattle.wal_record.specs.OpenWrites as writes;
ghost use Rattle.wal_record.specs.OpenWrites.{pending};
ghost use Rattle.losers.specs.Losers.{untouched};
ghost use Rattle.wal_record.specs.Rules.{HasSpelling, is_number};
ghost use Rattle.wal_record.specs.declared.entry.Entry.{Entry};
ghost use Rattle.wal_record.specs.declared.record.Record.{Record};
ghost use Rattle.wal_record.specs.declared.record.Record.TheVariants as kinds;
ghost use Rattle.journal.specs.Kept.{IsTold};
ghost use Rattle.journal.specs.State.{BlamesDisk, IsUntouched, KeepsBlocks, KeepsEnd, KeepsRoom, LearnsEnd, calls_of};
ghost use Rattle.journal.specs.Stops.{AreSafe};
ghost use Rattle.journal.specs.Groups.{EndsSession, GroupFollows, IsNext};

use crate::ends::{check_open, make_room, note_fault, tell_durable};
use crate::filling::{append_all, in_range, number_of};
use crate::in_way::loser_in_way;
use books::{PageRight, SessionRight};
use front::{Mark, Pass};
use group_filling::have_numbers;
use life_history::{Counts, History, MOST_ENTRIES};
use listed_log::ListedLog;
use losers::Losers;
use media::Disk;
use page_ops::{Committed, Grant, Life, LogFaults, Rights};
use range_lock::{LockRefused, RangeLocks};
use std::alloc::Global;
use std::cmp::min;
use std::collections::BTreeMap;
use std::marker::{Brand, Model};
use std::sync::ledger::Book;
use store_model::{Fault, KeyRange, List, Lsn, Memory, Mode, Outcome, Pos, Request, TxId};
use wal_record::{End, Entry, Record};

/// The log, the locks and the history of a life. Contracts see it as the history, the end, and what the log disk tells of its calls.
#[derive(Drop)]
pub struct Journal<'a, L: Disk, N: Life> {
    pub(crate) log: ListedLog<L>,
    pub(crate) locks: RangeLocks,
    pub(crate) history: History<'a, N>,
    pub(crate) mark: Mark<Entry, N>,
    // Up to which LSN passes were told that the log is durable.
    pub(crate) marked: Lsn,
    pub(crate) faults: Book<LogFaults<N>>,
    // The right to the page that the next group makes which makes one, where it was opened already.
    pub(crate) made: Option<PageRight<N>>,
    // Where the last Restored of each segment stands.
    pub(crate) restored: BTreeMap<u32, Pos>,
    // What the life has done of each loser of its opening log.
    pub(crate) losers: Losers,
}

impl<'a, L: Disk, N: Life> Model for Journal<'a, L, N> {
    ghost use Rattle.std.specs.Prelude.{◌≡◌};
    ghost use Rattle.journal.specs.Kept.{IsKept};
    ghost use Rattle.journal.specs.Losers.{HasLosers};
    ghost use Rattle.journal.specs.Restored.{AreRestored};
    ghost use Rattle.journal.specs.State.{JournalState, calls_of};
    ghost use Rattle.journal.specs.Stops.{AreSafe, EndsDurably};

    ghost Value = { JournalState };

    ghost view = { λ j. record { history = j.history; ended = j.log.log.log.ended; calls = calls_of L.passes L.refused L.own j.log.log.log.device; blocks = j.log.log.log.places; room = j.log.log.spare } };

    ghost invariant = { λ j. (j.mark ≡ j.marked) × IsKept N.opens L.tells L.told L.may_leave j.history j.log.log j.log.listing j.locks j.marked j.faults.total × AreRestored j.history j.restored × HasLosers N.opens j.history j.losers × AreSafe N.opens L.told L.may_leave j.history j.log.log.log × EndsDurably j.log.log.log };
}

impl<'a, L: Disk, N: Life> Journal<'a, L, N> {
    /// The journal of a life that has just begun, with a log that hasn't ended and that has the records of the opening log, all
    /// of them durable, and with the losers of that. No fault of the disk was counted, and passes were told of nothing as durable that isn't: the one
    /// that goes on is told now. An opening log is known only where the disk tells what it keeps.
    pub fn start(
        alloc: Global,
        log: ListedLog<L>,
        history: History<'a, N>,
        mark: Mark<Entry, N>,
        faults: Book<LogFaults<N>>,
        losers: Losers,
        pass: &mut Pass<Entry, N>,
    ) -> Journal<'a, L, N>
        requires goes { log.log.log.ended ≡ None }
        requires begins { history ≡ [] }
        requires fresh { (mark ≤ durable_lsn log.log.log.places) × (faults.total ≡ 0) }
        requires few { (opening : List Record) → N.opens opening → length opening ≤ 2 ^ 62 }
        requires records { (opening : List Record) → N.opens opening → IsLogWith L.tells L.told L.may_leave (may_go_on opening) opening log.log log.listing }
        requires losers { (opening : List Record) → N.opens opening → losers ≡ map untouched (writes.losers opening) }
        requires telling { IsTold N.opens L.tells }
        requires safe { AreSafe N.opens L.told L.may_leave [] log.log.log }
        ensures begins { result.history ≡ [] }
        ensures goes { result.ended ≡ None }
        ensures calls { result.calls ≡ calls_of L.passes L.refused L.own log.log.log.device }
        ensures blocks { result.blocks ≡ log.log.log.places }
        ensures durable { (opening : List Record) → N.opens opening → length opening ≤ pass.new.durable }
        ensures log { pass.new.log ≡ pass.old.log }
        ensures before { pass.old.durable ≤ pass.new.durable }
    {
        let mut mark = mark;
        let marked = log.durable();
        mark.store(&history.ground().board, marked, pass);
        Journal {
            log,
            locks: RangeLocks::new(alloc),
            history,
            mark,
            marked,
            faults,
            made: None,
            restored: BTreeMap::new(alloc),
            losers,
        }
    }

    /// As `Entering::see`.
    pub fn see(&mut self, rights: &mut Rights<N>, pass: &mut Pass<Entry, N>, counts: &mut Counts<N>)
        ensures same { self.new ≡ self.old }
        ensures rights { rights.new ≡ rights.old }
        ensures counts { counts.new ≡ counts.old }
        ensures pass { pass.new.log ≡ self.old.history }
        ensures seen { Enters N.opens N.entries N.session_entries (known counts.old pass.old rights.old) [] (known counts.new pass.new rights.new) }
    {
        self.history.see(rights, pass, counts);
    }

    /// As `Journaling::session`. It wants memory where all numbers are given.
    pub fn session(
        &mut self,
        pass: &mut Pass<Entry, N>,
        counts: &mut Counts<N>,
    ) -> Result<SessionRight<N>, Fault>
        ensures seen { Looks N.opens N.entries N.session_entries (record counts.old { made = counts.new.made }) pass.old counts.new pass.new }
        ensures made { counts.new.made ≡ with_one counts.old.made result }
        ensures new { IfOk result (λ s. (s.entries ≡ 0) × (s.tx ≡ 0) × SessionAgrees pass.new.log s) }
        ensures refused { IfErr result (FailsToEnter NoOther) }
        ensures ends { Ends N.opens N.log_faults N.made counts.old counts.new pass.new.log result }
        ensures disk { IsUntouched self.old self.new }
        ensures learns { LearnsEnd counts.old counts.new self.new.ended }
    {
        match check_open(&self.log, &mut self.faults, counts) {
            Ok(()) => self.history.session(pass, counts),
            Err(fault) => {
                self.history.look(pass, counts);
                Err(fault)
            }
        }
    }

    /// As `Journaling::begin`. It makes the room in the log that the commit needs, unless there is room for the commits of as
    /// many transactions as may be live. So begins that are refused never ask the log for more than that.
    pub fn begin(
        &mut self,
        s: &mut SessionRight<N>,
        pass: &mut Pass<Entry, N>,
        counts: &mut Counts<N>,
    ) -> Result<TxId, Fault>
        requires free { s.old.tx ≡ 0 }
        ensures entered { Enters N.opens N.entries N.session_entries (known counts.old pass.old (session_alone s.old)) (begun s.old.session result) (known counts.new pass.new (session_alone s.new)) }
        ensures right { IfOk result (λ tx. s.new ≡ record { session = s.old.session; entries = s.old.entries + 1; tx = tx }) }
        ensures number { IfOk result (λ tx. IsTrue (is_number tx)) }
        ensures same { OnErr result (s.new ≡ s.old) }
        ensures crowd { IfErr result (IsCrowd pass.new.log) }
        ensures refused { IfErr result (FailsToEnter OrTooMany) }
        ensures ends { Ends N.opens N.log_faults N.made counts.old counts.new pass.new.log result }
        ensures room { KeepsRoom self.old.room self.new.room }
        ensures disk { IsUntouched self.old self.new }
        ensures learns { LearnsEnd counts.old counts.new self.new.ended }
    {
        match make_room(&mut self.log, &mut self.faults, counts) {
            Ok(()) => self.history.begin(s, pass, counts),
            Err(fault) => {
                self.history.watch_session(s, pass, counts);
                Err(fault)
            }
        }
    }

    /// As `Journaling::lock`. It wants memory where the history has 2^62 entries.
    pub fn lock(
        &mut self,
        alloc: Global,
        s: &mut SessionRight<N>,
        range: &KeyRange,
        mode: Mode,
        pass: &mut Pass<Entry, N>,
        counts: &mut Counts<N>,
    ) -> Result<Grant, Fault>
        requires active { 0 < s.old.tx }
        ensures entered { Enters N.opens N.entries N.session_entries (known counts.old pass.old (session_alone s.old)) (locked s.old.tx range.now mode result) (known counts.new pass.new (session_alone s.new)) }
        ensures right { s.new ≡ record { session = s.old.session; entries = s.old.entries + length (locked s.old.tx range.now mode result); tx = s.old.tx } }
        ensures grant { IfOk result (IsGrant N.opens pass.new.log s.old.tx (held range.now mode)) }
        ensures conflict { IfErr result (IsConflict N.opens pass.new.log (held range.now mode)) }
        ensures refused { IfErr result (FailsToEnter OrConflict) }
        ensures ends { Ends N.opens N.log_faults N.made counts.old counts.new pass.new.log result }
        ensures disk { IsUntouched self.old self.new }
        ensures learns { LearnsEnd counts.old counts.new self.new.ended }
    {
        self.history.watch_session(s, pass, counts);
        check_open(&self.log, &mut self.faults, counts)?;
        if self.history.length() >= MOST_ENTRIES {
            return Err(Fault::Memory);
        }
        let tx = s.tx();
        let (losers, listing, locks) = (self.losers.all(), self.log.listing(), &self.locks);
        if let Some(loser) = loser_in_way(alloc, losers, listing, locks, tx, range, mode)? {
            return Ok(Grant::Loser(loser));
        }
        match self.locks.acquire(tx, range, mode) {
            Ok(()) => {
                self.history
                    .enter_lock::<Brand>(range, mode, s, pass, counts);
                Ok(Grant::Held(self.history.length()))
            }
            Err(
                LockRefused::Overlap {
                    holder,
                    range: first,
                },
            ) => {
                self.history
                    .enter_refused::<Brand>(range, mode, holder, s, pass, counts);
                Err(Fault::Conflict {
                    holder,
                    range: first,
                    at: self.history.length(),
                })
            }
            Err(LockRefused::Memory) => Err(Fault::Memory),
        }
    }

    /// As `Journaling::refuse`. It wants memory where the history has 2^62 entries.
    pub fn refuse(
        &mut self,
        s: &mut SessionRight<N>,
        request: Request,
        pass: &mut Pass<Entry, N>,
        counts: &mut Counts<N>,
    ) -> Result<Pos, Fault>
        requires lawful { (opening : List Record) (h : List Entry) → N.opens opening → IsMoment N.opens pass.old.log (session_alone s.old) h → MayDecline opening h s.old.session s.old.tx request outcomes.OpRefused }
        ensures entered { Enters N.opens N.entries N.session_entries (known counts.old pass.old (session_alone s.old)) (refused s.old.session s.old.tx request result) (known counts.new pass.new (session_alone s.new)) }
        ensures right { s.new ≡ record { session = s.old.session; entries = s.old.entries + length (refused s.old.session s.old.tx request result); tx = s.old.tx } }
        ensures place { IfOk result (λ pos. pos ≡ length pass.new.log) }
        ensures refused { IfErr result (FailsToEnter NoOther) }
        ensures ends { Ends N.opens N.log_faults N.made counts.old counts.new pass.new.log result }
        ensures disk { IsUntouched self.old self.new }
        ensures learns { LearnsEnd counts.old counts.new self.new.ended }
    {
        self.history.watch_session(s, pass, counts);
        check_open(&self.log, &mut self.faults, counts)?;
        if self.history.length() >= MOST_ENTRIES || s.tx() == 0 {
            return Err(Fault::Memory);
        }
        let why = Outcome::OpRefused;
        self.history
            .enter_declined::<Brand>(&request, &why, s, pass, counts);
        Ok(self.history.length())
    }

    /// As `Journaling::commit`. It takes no memory: the room was made as the transaction began.
    pub fn commit(
        &mut self,
        s: &mut SessionRight<N>,
        pass: &mut Pass<Entry, N>,
        counts: &mut Counts<N>,
    ) -> Result<Committed, Fault>
        requires active { 0 < s.old.tx }
        ensures entered { CommitsOr N.opens N.entries N.session_entries s.old result (known counts.old pass.old (session_alone s.old)) (known counts.new pass.new (session_alone s.new)) }
        ensures right { OnOk result (s.new ≡ record { session = s.old.session; entries = s.old.entries + 2; tx = 0 }) }
        ensures holder { s.new.session ≡ s.old.session }
        ensures refused { IfErr result FailsToFlush }
        ensures ends { Ends N.opens N.log_faults N.made counts.old counts.new pass.new.log result }
        ensures end { KeepsEnd self.old self.new }
        ensures learns { LearnsEnd counts.old counts.new self.new.ended }
        ensures calls { BlamesDisk self.old.calls self.new.calls (IsErrAnd result IsLogFault) }
        ensures blocks { KeepsBlocks N.opens self.old.blocks self.new.blocks }
        ensures stable { OnOk result ((opening : List Record) → N.opens opening → length (life_log opening pass.new.log) ≤ durable_lsn self.new.blocks) }
    {
        self.history.watch_session(s, pass, counts);
        check_open(&self.log, &mut self.faults, counts)?;
        let tx = s.tx();
        let prev = in_range(self.log.last_of(tx));
        let lsn = self.log.commit(tx, prev);
        self.history.enter_commit(lsn, prev, s, counts);
        self.locks.release_all(tx);
        if self.log.flush_to(lsn).is_err() {
            note_fault(&self.log, &mut self.faults, counts);
            self.history.look(pass, counts);
            return Err(Fault::LogFault);
        }
        self.history.acknowledge(s, counts);
        self.history.look(pass, counts);
        tell_durable(
            &self.history.ground().board,
            &mut self.mark,
            &mut self.marked,
            self.log.durable(),
            pass,
        );
        Ok(Committed {
            pos: self.history.length(),
            number: self.log.listing().commits(),
        })
    }

    /// As `Entering::flush`.
    pub fn flush(
        &mut self,
        lsn: Lsn,
        pass: &mut Pass<Entry, N>,
        counts: &mut Counts<N>,
    ) -> Result<(), Fault>
        ensures same { self.new.history ≡ self.old.history }
        ensures pass { pass.new.log ≡ self.old.history }
        ensures seen { Looks N.opens N.entries N.session_entries counts.old pass.old counts.new pass.new }
        ensures durable { OnOk result ((opening : List Record) → N.opens opening → min lsn (length (life_log opening pass.new.log)) ≤ pass.new.durable) }
        ensures refused { IfErr result FailsToFlush }
        ensures ends { Ends N.opens N.log_faults N.made counts.old counts.new pass.new.log result }
        ensures end { KeepsEnd self.old self.new }
        ensures learns { LearnsEnd counts.old counts.new self.new.ended }
        ensures calls { BlamesDisk self.old.calls self.new.calls (IsErrAnd result IsLogFault) }
        ensures blocks { KeepsBlocks N.opens self.old.blocks self.new.blocks }
        ensures stable { OnOk result ((opening : List Record) → N.opens opening → min lsn (length (life_log opening pass.new.log)) ≤ durable_lsn self.new.blocks) }
    {
        self.history.look(pass, counts);
        check_open(&self.log, &mut self.faults, counts)?;
        let upto = min(lsn, self.log.last());
        if upto == 0 {
            return Ok(());
        }
        if self.log.flush_to(upto).is_err() {
            note_fault(&self.log, &mut self.faults, counts);
            return Err(Fault::LogFault);
        }
        tell_durable(
            &self.history.ground().board,
            &mut self.mark,
            &mut self.marked,
            self.log.durable(),
            pass,
        );
        Ok(())
    }

    /// As `Journaling::length`.
    pub fn length(&mut self, pass: &mut Pass<Entry, N>, counts: &mut Counts<N>) -> Pos
        ensures counts { counts.new ≡ counts.old }
        ensures seen { Looks N.opens N.entries N.session_entries counts.old pass.old counts.new pass.new }
        ensures count { result ≡ length pass.new.log }
        ensures disk { IsUntouched self.old self.new }
    {
        self.history.look(pass, counts);
        self.history.length()
    }

    /// As `Journaling::ended`.
    pub fn ended(&mut self, counts: &mut Counts<N>) -> Option<Lsn>
        ensures same { self.new ≡ self.old }
        ensures known { counts.new ≡ record counts.old { ended = result } }
        ensures still { IfSome counts.old.ended (λ at. result ≡ Some at) }
        ensures none { IfNone result (counts.old.log_faults.amount ≡ 0) }
        ensures learns { LearnsEnd counts.old counts.new self.new.ended }
    {
        let _ = check_open(&self.log, &mut self.faults, counts);
        counts.ended()
    }

    /// As `Entering::pages`.
    pub fn pages(&mut self, pass: &mut Pass<Entry, N>, counts: &mut Counts<N>) -> u32
        ensures counts { counts.new ≡ counts.old }
        ensures seen { Looks N.opens N.entries N.session_entries counts.old pass.old counts.new pass.new }
        ensures count { (opening : List Record) → N.opens opening → result ≡ pages (life_log opening pass.new.log) }
        ensures disk { IsUntouched self.old self.new }
    {
        self.history.look(pass, counts);
        number_of(self.log.listing().pages() as u64)
    }

    /// As `Entering::pending`.
    pub fn pending(&mut self, pass: &mut Pass<Entry, N>, counts: &mut Counts<N>) -> u32
        ensures counts { counts.new ≡ counts.old }
        ensures seen { Looks N.opens N.entries N.session_entries counts.old pass.old counts.new pass.new }
        ensures count { (opening : List Record) → N.opens opening → result ≡ pending (life_log opening pass.new.log) }
        ensures disk { IsUntouched self.old self.new }
    {
        self.history.look(pass, counts);
        number_of(self.log.listing().pending())
    }

    /// Enters the End of the session's transaction, which stands alone, and lets go of the transaction's locks.
    pub(crate) fn end_session(
        &mut self,
        alloc: Global,
        end: End,
        s: &mut SessionRight<N>,
        counts: &mut Counts<N>,
    ) -> Result<Lsn, Memory>
        requires spelled { Each AreInRange (kinds.End end ∷ []) → All HasSpelling (kinds.End end ∷ []) × (length (bytes_of (kinds.End end ∷ [])) ≤ 4194304) }
        requires agrees { SessionAgrees self.old.history s.old }
        requires follows { (lsn : ℕ) → IsNext N.opens self.old.history lsn → GroupFollows N.opens self.old.history lsn (kinds.End end ∷ []) None }
        ensures none { OnErr result ((self.new.history ≡ self.old.history) × (s.new ≡ s.old) × (counts.new ≡ counts.old)) }
        ensures ended { IfOk result (EndsSession end s.old s.new counts.old counts.new self.old.history self.new.history) }
        ensures disk { IsUntouched self.old self.new }
    {
        let (last, over, prev) = (self.log.last(), end.tx, end.prev);
        let before = self.history.length();
        if last == 0
            || last >= MOST_ENTRIES
            || before >= MOST_ENTRIES
            || self.log.ended().is_some()
        {
            return Err(Memory);
        }
        let recs = [Record::End(end)];
        if over == 0 || s.tx() != over || !have_numbers(&recs) {
            return Err(Memory);
        }
        let lsn = append_all(&mut self.log, alloc, &recs)?;
        self.history.enter_end(lsn, prev, s, counts);
        self.losers.ended(over, before + 1);
        self.locks.release_all(over);
        Ok(lsn)
    }
}
