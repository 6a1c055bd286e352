//! What waits for the archive.
ghost use Rattle.std.specs.Prelude.{◌≡◌, ◌⊎◌, ◌+◌, ◌^◌, ◌<◌, ◌≤◌, List, IfErr, IfOk, OnOk, false, length, true};
ghost use Rattle.page_ops.specs.Causes.{EndsBy, FailsToEnter, MeetsNoEnd, NoOther};
ghost use Rattle.page_ops.specs.Seeing.{Looks};
ghost use Rattle.wal_record.specs.History.{life_log};
ghost use Rattle.wal_record.specs.Upkeep.{archived};
ghost use Rattle.wal_record.specs.declared.record.Record.{Record};
ghost use Rattle.archiving.specs.Going.{ComesNext};

use checkpoint_form::MOST_RUNS;
use front::Pass;
use page_ops::{Journaling, Life};
use std::alloc::Global;
use std::sync::Wait;
use store_model::{Fault, HIGHEST, Lsn};
use wal_record::{Entry, Run};

/// How many records wait at least where one run is made ahead of need: runs of fewer would be many small objects.
const WAITING_RECORDS: u64 = 1_000;

/// The number of the next run, the LSN at which it begins, the last LSN that runs are made up to, and how many runs stand.
#[derive(Clone, Copy)]
pub(crate) struct Waiting {
    pub(crate) run: u64,
    pub(crate) first: Lsn,
    pub(crate) upto: Lsn,
    pub(crate) stood: usize,
}

/// The last LSN that these runs cover, 0 for none.
fn archived(runs: &[Run]) -> Lsn
    ensures { result ≡ archived runs.now }
{
    match runs.last() {
        Some(run) => run.last,
        None => 0,
    }
}

/// Whether a run is due ahead of need, where so many stand, which have the records up to an LSN, of a log that is durable up to
/// another one.
pub(crate) fn is_due(stood: usize, archived: Lsn, durable: Lsn) -> bool
    ensures due { result ≡ true → (stood < 1024) × (archived + 1000 ≤ durable) }
    ensures few { result ≡ false → (durable < archived + 1000) ⊎ (1024 ≤ stood) }
{
    stood < MOST_RUNS && durable.saturating_sub(archived) >= WAITING_RECORDS
}

/// What waits behind the runs that stand: the records up to which the log is durable. LSNs above the greatest that a record
/// can name are want of memory.
pub(crate) fn what_waits<N: Life, J: Journaling<N>, R: Wait>(
    rt: &R,
    alloc: Global,
    journal: &mut J,
    pass: &mut Pass<Entry, N>,
) -> Result<Waiting, Fault>
    ensures numbers { IfOk result (λ w. (1 ≤ w.first) × (w.upto < 2 ^ 63)) }
    ensures next { IfOk result (λ w. (opening : List Record) → N.opens opening → ComesNext (life_log opening pass.new.log) w) }
    ensures durable { IfOk result (λ w. w.upto ≡ pass.new.durable) }
    ensures there { IfOk result (λ w. (opening : List Record) → N.opens opening → w.upto ≤ length (life_log opening pass.new.log)) }
    ensures seen { Looks N.opens N.entries N.session_entries (J.account journal.old) pass.old (J.account journal.new) pass.new }
    ensures open { OnOk result (MeetsNoEnd (J.account journal.old) (J.account journal.new)) }
    ensures refused { IfErr result (FailsToEnter NoOther) }
    ensures ends { IfErr result (EndsBy N.opens N.log_faults N.made (J.account journal.old) (J.account journal.new) pass.new.log) }
{
    let survey = journal.survey(rt, alloc, pass)?;
    let runs = survey.analysis.runs.as_slice();
    let last = archived(runs);
    if last >= HIGHEST || survey.durable > HIGHEST {
        return Err(Fault::Memory);
    }
    Ok(Waiting {
        run: survey.analysis.next_run,
        first: last + 1,
        upto: survey.durable,
        stood: runs.len(),
    })
}
