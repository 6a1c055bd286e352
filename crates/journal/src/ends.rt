//! How a life ends: by a fault of its log disk. And what a call does before it enters anything.
ghost use Rattle.std.specs.Prelude.{◌≡◌, ◌⊎◌, ◌<◌, ◌≤◌, ◌+◌, ◌-◌, ◌^◌, ℕ, List, Bool, drop, length, Some, None, is_some, true, IfOk, IfErr, IsErrAnd, OnErr, OnOk};
ghost use Rattle.journal.specs.Ends.{EndsCall, IsFailed, IsStopped, IsToldEnd, IsUnread};
ghost use Rattle.journal.specs.Lookups.{HasSpelledRecord, IsFoundBehind, IsFoundIn};
ghost use Rattle.listed_log.specs.Listed.{IsLogWith};
ghost use Rattle.log_blocks.specs.LogState.{durable_lsn};
ghost use Rattle.log_blocks.specs.Opening.{IsLogFault};
ghost use Rattle.log_manager.specs.Managed.{IsNoBadLog, before_lsn, first_kept};
ghost use Rattle.journal.specs.State.{HasOneMore, LearnsEnd};
ghost use Rattle.journal.specs.Stops.{EndsDurably};
ghost use Rattle.media.specs.Counted.{Blames};
ghost use Rattle.page_ops.specs.Causes.{IsOpen};
ghost use Rattle.stop_laws.specs.Stops.{GoesOnOrEnds, WaitsInGroups};
ghost use Rattle.store_model.specs.declared.fault.Fault.TheVariants as answers;
ghost use Rattle.wal_record.specs.Checkpoints.{recycle_point};
ghost use Rattle.wal_record.specs.declared.record.Record.{Record};

use front::{Board, Mark, Pass};
use life_history::{Counts, MOST_ENTRIES};
use listed_log::ListedLog;
use media::Disk;
use page_ops::{Found, Life, LogFaults};
use std::alloc::Global;
use std::sync::ledger::Book;
use store_model::{Fault, Lsn, MOST_ACTIVE};
use wal_record::{Entry, Record};

/// The life goes on, as far as the counts know and the log says. Else it has ended, and the counts know that then.
pub(crate) fn check_open<L: Disk, N: Life>(
    log: &ListedLog<L>,
    faults: &mut Book<LogFaults<N>>,
    counts: &mut Counts<N>,
) -> Result<(), Fault>
    requires none { log.now.log.log.ended ≡ None → faults.old.total ≡ 0 }
    requires one { is_some log.now.log.log.ended ≡ true → 0 < faults.old.total }
    ensures total { faults.new.total ≡ faults.old.total }
    ensures open { OnOk result ((log.now.log.log.ended ≡ None) × (counts.new ≡ counts.old) × IsOpen counts.old) }
    ensures ended { IfErr result (IsToldEnd N.log_faults counts.old counts.new) }
    ensures learns { LearnsEnd counts.old counts.new log.now.log.log.ended }
{
    if let Some(at) = counts.ended() {
        return Err(Fault::Ended { at });
    }
    faults.audit(&mut counts.log_faults);
    if let Some(at) = log.ended() {
        counts.end(at);
        return Err(Fault::Ended { at });
    }
    Ok(())
}

/// Makes room in the log for one more commit, unless it has room for those of as many transactions as may be live.
pub(crate) fn make_room<L: Disk, N: Life>(
    log: &mut ListedLog<L>,
    faults: &mut Book<LogFaults<N>>,
    counts: &mut Counts<N>,
) -> Result<(), Fault>
    requires none { log.old.log.log.ended ≡ None → faults.old.total ≡ 0 }
    requires one { is_some log.old.log.log.ended ≡ true → 0 < faults.old.total }
    ensures total { faults.new.total ≡ faults.old.total }
    ensures log { (log.new.log.log ≡ log.old.log.log) × (log.new.listing ≡ log.old.listing) }
    ensures ok { OnOk result (HasOneMore log.old.log.spare log.new.log.spare) }
    ensures few { OnOk result (log.old.log.log.next - 1 < 2 ^ 62) }
    ensures open { OnOk result ((counts.new ≡ counts.old) × IsOpen counts.old) }
    ensures same { OnErr result (log.new ≡ log.old) }
    ensures stopped { IfErr result (IsStopped N.log_faults counts.old counts.new) }
    ensures learns { LearnsEnd counts.old counts.new log.new.log.log.ended }
{
    check_open(log, faults, counts)?;
    if log.last() >= MOST_ENTRIES {
        return Err(Fault::Memory);
    }
    if log.spare() >= MOST_ACTIVE as usize {
        return Ok(());
    }
    log.reserve_commit()?;
    Ok(())
}

/// The log disk has failed: the counts count that, and know the end.
pub(crate) fn note_fault<L: Disk, N: Life>(
    log: &ListedLog<L>,
    faults: &mut Book<LogFaults<N>>,
    counts: &mut Counts<N>,
)
    requires { is_some log.now.log.log.ended ≡ true }
    ensures total { faults.new.total ≡ faults.old.total + 1 }
    ensures failed { IsFailed counts.old counts.new }
    ensures end { counts.new.ended ≡ log.now.log.log.ended }
{
    let Some(at) = log.ended() else {
        unreachable!()
    };
    counts.fail(faults, at);
}

/// The pass has then seen that the log is durable up to this LSN, or to a higher one that passes were told before.
pub(crate) fn tell_durable<N: Life>(
    board: &Board<Entry, N>,
    mark: &mut Mark<Entry, N>,
    marked: &mut Lsn,
    durable: Lsn,
    pass: &mut Pass<Entry, N>,
)
    requires { mark.old ≡ marked.old }
    ensures same { mark.new ≡ marked.new }
    ensures number { (marked.new ≡ marked.old) ⊎ (marked.new ≡ durable) }
    ensures log { pass.new.log ≡ pass.old.log }
    ensures told { durable ≤ pass.new.durable }
    ensures before { pass.old.durable ≤ pass.new.durable }
{
    if *marked <= durable {
        mark.store(board, durable, pass);
        *marked = durable;
    } else {
        mark.meet(board, pass);
    }
}

/// The record of an LSN that the log keeps, or the standing run that has it where the log has forgotten it. It wants memory
/// where neither has it. A fault of the log's disk is counted.
pub(crate) fn find<L: Disk, N: Life>(
    log: &mut ListedLog<L>,
    faults: &mut Book<LogFaults<N>>,
    counts: &mut Counts<N>,
    alloc: Global,
    lsn: Lsn,
) -> Result<Found, Fault>
    requires runs { log.old.log.log.ended ≡ None }
    ensures found { (goes : ℕ → Bool) (rs : List Record) → IsLogWith L.tells L.told L.may_leave goes rs log.old.log log.old.listing → L.tells → IfOk result (IsFoundIn rs lsn) × IfErr result IsNoBadLog }
    ensures kind { IfOk result (IsFoundBehind log.old.log.log.places lsn) }
    ensures spelling { IfOk result HasSpelledRecord }
    ensures same { (goes : ℕ → Bool) (rs : List Record) → IsLogWith L.tells L.told L.may_leave goes rs log.old.log log.old.listing → IsLogWith L.tells L.told L.may_leave goes rs log.new.log log.new.listing }
    ensures left { (goes : ℕ → Bool) (rs : List Record) → IsLogWith L.tells L.told L.may_leave goes rs log.old.log log.old.listing → L.tells → log.old.log.log.ended ≡ None → WaitsInGroups log.old.log.log rs
        → GoesOnOrEnds L.told L.may_leave rs log.old.log.log log.new.log.log }
    ensures places { (log.new.log.spare ≡ log.old.log.spare) × (log.new.log.log.places ≡ log.old.log.log.places) }
    ensures unread { IfErr result IsUnread }
    ensures ends { EndsCall log.new.log.log.ended faults.old.total faults.new.total counts.old counts.new result }
    ensures durable { EndsDurably log.new.log.log }
    ensures learns { LearnsEnd counts.old counts.new log.new.log.log.ended }
    ensures fuse { Blames L.passes L.refused L.own log.old.log.log.device log.new.log.log.device (IsErrAnd result IsLogFault) }
{
    if lsn == 0 || lsn > log.last() {
        return Err(Fault::Memory);
    }
    if lsn < log.first_kept() {
        return match log.listing().run_at(lsn) {
            Some(run) => Ok(Found::Run(run)),
            None => Err(Fault::Memory),
        };
    }
    match log.read(alloc, lsn) {
        Ok(found) => Ok(Found::Record(found)),
        Err(fault) => {
            if matches!(fault, Fault::LogFault) {
                note_fault(log, faults, counts);
            }
            Err(fault)
        }
    }
}

/// Forgets the blocks of the log that nothing needs. A fault of its disk is counted.
pub(crate) fn recycle_log<L: Disk, N: Life>(
    log: &mut ListedLog<L>,
    faults: &mut Book<LogFaults<N>>,
    counts: &mut Counts<N>,
) -> Result<Lsn, Fault>
    requires runs { log.old.log.log.ended ≡ None }
    ensures needed { (goes : ℕ → Bool) (rs : List Record) → IsLogWith L.tells L.told L.may_leave goes rs log.old.log log.old.listing → IfOk result (λ lsn. (lsn ≡ first_kept log.old.log.log) ⊎ (lsn ≤ recycle_point rs)) }
    ensures forgets { (goes : ℕ → Bool) (rs : List Record) → IsLogWith L.tells L.told L.may_leave goes rs log.old.log log.old.listing → length rs ≤ durable_lsn log.old.log.log.places
        → OnOk result (log.new.log.log.places ≡ drop (before_lsn (recycle_point rs) log.old.log.log.places) log.old.log.log.places) }
    ensures none { OnErr result (log.new.log.log.places ≡ log.old.log.log.places) }
    ensures same { (goes : ℕ → Bool) (rs : List Record) → IsLogWith L.tells L.told L.may_leave goes rs log.old.log log.old.listing → IsLogWith L.tells L.told L.may_leave goes rs log.new.log log.new.listing }
    ensures rises { (goes : ℕ → Bool) (rs : List Record) → IsLogWith L.tells L.told L.may_leave goes rs log.old.log log.old.listing
        → L.tells → log.old.log.log.ended ≡ None → durable_lsn log.old.log.log.places ≤ durable_lsn log.new.log.log.places }
    ensures left { (goes : ℕ → Bool) (rs : List Record) → IsLogWith L.tells L.told L.may_leave goes rs log.old.log log.old.listing → L.tells → log.old.log.log.ended ≡ None → WaitsInGroups log.old.log.log rs
        → GoesOnOrEnds L.told L.may_leave rs log.old.log.log log.new.log.log }
    ensures spare { log.new.log.spare ≡ log.old.log.spare }
    ensures unread { IfErr result (λ fault. fault ≡ answers.LogFault) }
    ensures ends { EndsCall log.new.log.log.ended faults.old.total faults.new.total counts.old counts.new result }
    ensures durable { EndsDurably log.new.log.log }
    ensures learns { LearnsEnd counts.old counts.new log.new.log.log.ended }
    ensures fuse { Blames L.passes L.refused L.own log.old.log.log.device log.new.log.log.device (IsErrAnd result IsLogFault) }
{
    match log.recycle() {
        Ok(lsn) => Ok(lsn),
        Err(_) => {
            note_fault(log, faults, counts);
            Err(Fault::LogFault)
        }
    }
}
