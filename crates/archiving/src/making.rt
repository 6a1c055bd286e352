//! Runs are made.
ghost use Rattle.std.specs.Prelude.{◌≡◌, ◌+◌, ◌^◌, ◌<◌, ◌≤◌, List, IfErr, IfOk, OnOk, length};
ghost use Rattle.page_ops.specs.Causes.{MeetsNoEnd};
ghost use Rattle.page_ops.specs.Claims.{no_claims};
ghost use Rattle.page_ops.specs.Gains.{IsSettled};
ghost use Rattle.page_ops.specs.Seeing.{known};
ghost use Rattle.wal_record.specs.History.{life_log};
ghost use Rattle.wal_record.specs.declared.record.Record.{Record};
ghost use Rattle.archiving.specs.Archives.{ArchivesNextOr, ArchivesOr, FailsToArchive};
ghost use Rattle.archiving.specs.Going.{HasMadeOr, MadeAllOr, MayGoOn};

use crate::gathering::gather;
use crate::waiting::{Waiting, is_due, what_waits};
use checkpoint_form::MOST_RUNS;
use front::Pass;
use named_objects::{Naming, Objects, name_object};
use page_ops::{Journaling, Life};
use std::alloc::Global;
use std::sync::Wait;
use store_model::{Fault, HIGHEST, Lsn};
use wal_record::{Entry, RunDone};

/// Makes the next run of what waits, and then that waits which is behind it. Gives the LSN of the record that names the run. A
/// number above the greatest that a record can name is want of memory.
fn make_next<N: Life, J: Journaling<N>, O: Objects<N>, R: Wait>(
    rt: &R,
    alloc: Global,
    journal: &mut J,
    objects: &mut O,
    waiting: &mut Waiting,
    since: Lsn,
    pass: &mut Pass<Entry, N>,
) -> Result<Lsn, Fault>
    requires numbers { (1 ≤ waiting.old.first) × (waiting.old.first ≤ waiting.old.upto) × (waiting.old.upto < 2 ^ 63) }
    requires room { waiting.old.stood < 1024 }
    requires there { (opening : List Record) → N.opens opening → waiting.old.upto ≤ length (life_log opening pass.old.log) }
    requires next { MayGoOn N.opens since waiting.old pass.old.log }
    ensures entered { HasMadeOr N.opens N.entries N.session_entries result waiting.old waiting.new (known (J.account journal.old) pass.old no_claims) (known (J.account journal.new) pass.new no_claims) }
    ensures next { IfOk result (λ lsn. MayGoOn N.opens lsn waiting.new pass.new.log) }
    ensures more { OnOk result (waiting.new.stood ≡ waiting.old.stood + 1) }
    ensures faults { O.faults objects.old ≤ O.faults objects.new }
    ensures open { OnOk result (MeetsNoEnd (J.account journal.old) (J.account journal.new)) }
    ensures refused { IfErr result (FailsToArchive N.opens N.log_faults N.made (O.faults objects.old) (O.faults objects.new) (J.account journal.old) (J.account journal.new) pass.new.log) }
{
    let run = waiting.run;
    let first = waiting.first;
    let (items, last) = gather(rt, alloc, journal, first, waiting.upto, pass)?;
    if objects.last_named(rt, journal, pass) != since {
        return Err(Fault::Memory);
    }
    if run == 0 || run > HIGHEST {
        return Err(Fault::Memory);
    }
    let bytes = items.bytes(alloc, run, first, last)?;
    let naming = Naming::Run(RunDone { run, first, last });
    let lsn = name_object(rt, alloc, journal, objects, since, naming, &bytes, pass)?;
    waiting.run = run + 1;
    waiting.first = last + 1;
    waiting.stood += 1;
    Ok(lsn)
}

/// Makes one run after the other of what waits, as many as may stand. Gives how many were made.
fn make_runs<N: Life, J: Journaling<N>, O: Objects<N>, R: Wait>(
    rt: &R,
    alloc: Global,
    journal: &mut J,
    objects: &mut O,
    from: Waiting,
    since: Lsn,
    pass: &mut Pass<Entry, N>,
) -> Result<u64, Fault>
    requires numbers { (1 ≤ from.first) × (from.upto < 2 ^ 63) }
    requires there { (opening : List Record) → N.opens opening → from.upto ≤ length (life_log opening pass.old.log) }
    requires next { MayGoOn N.opens since from pass.old.log }
    requires seen { IsSettled N.opens N.entries N.session_entries (J.account journal.old) pass.old.log }
    ensures entered { MadeAllOr N.opens N.entries N.session_entries result from (known (J.account journal.old) pass.old no_claims) (known (J.account journal.new) pass.new no_claims) }
    ensures faults { O.faults objects.old ≤ O.faults objects.new }
    ensures open { OnOk result (MeetsNoEnd (J.account journal.old) (J.account journal.new)) }
    ensures refused { IfErr result (FailsToArchive N.opens N.log_faults N.made (O.faults objects.old) (O.faults objects.new) (J.account journal.old) (J.account journal.new) pass.new.log) }
{
    let mut since = since;
    let mut waiting = from;
    let mut made = 0u64;
    while waiting.first <= waiting.upto && waiting.stood < MOST_RUNS {
        since = make_next(rt, alloc, journal, objects, &mut waiting, since, pass)?;
        made += 1;
    }
    Ok(made)
}

/// Makes the log durable, and then runs of the records that no run has yet, one after the other: each the longest whose items
/// have at most 16 MiB, none where as many runs stand as may. Gives how many were made. Where somebody else makes an object
/// meanwhile, it wants memory.
pub fn archive<N: Life, J: Journaling<N>, O: Objects<N>, R: Wait>(
    rt: &R,
    alloc: Global,
    journal: &mut J,
    objects: &mut O,
    pass: &mut Pass<Entry, N>,
) -> Result<u64, Fault>
    ensures entered { ArchivesOr N.opens N.entries N.session_entries result (known (J.account journal.old) pass.old no_claims) (known (J.account journal.new) pass.new no_claims) }
    ensures faults { O.faults objects.old ≤ O.faults objects.new }
    ensures open { OnOk result (MeetsNoEnd (J.account journal.old) (J.account journal.new)) }
    ensures refused { IfErr result (FailsToArchive N.opens N.log_faults N.made (O.faults objects.old) (O.faults objects.new) (J.account journal.old) (J.account journal.new) pass.new.log) }
{
    journal.flush(rt, Lsn::MAX, pass)?;
    let since = objects.last_named(rt, journal, pass);
    let from = what_waits(rt, alloc, journal, pass)?;
    make_runs(rt, alloc, journal, objects, from, since, pass)
}

/// Makes the next run, the longest whose items have at most 16 MiB, of the records up to which the log is durable, where at least
/// 1,000 of them wait and fewer runs stand than may. Says whether it made one. Where none is made it takes no memory; where
/// somebody else makes an object meanwhile, it wants memory.
pub fn archive_next<N: Life, J: Journaling<N>, O: Objects<N>, R: Wait>(
    rt: &R,
    alloc: Global,
    journal: &mut J,
    objects: &mut O,
    pass: &mut Pass<Entry, N>,
) -> Result<bool, Fault>
    ensures entered { ArchivesNextOr N.opens N.entries N.session_entries result (known (J.account journal.old) pass.old no_claims) (known (J.account journal.new) pass.new no_claims) }
    ensures faults { O.faults objects.old ≤ O.faults objects.new }
    ensures open { OnOk result (MeetsNoEnd (J.account journal.old) (J.account journal.new)) }
    ensures refused { IfErr result (FailsToArchive N.opens N.log_faults N.made (O.faults objects.old) (O.faults objects.new) (J.account journal.old) (J.account journal.new) pass.new.log) }
{
    let since = objects.last_named(rt, journal, pass);
    let work = journal.work(rt, pass)?;
    if !is_due(work.runs as usize, work.archived, work.durable) {
        return Ok(false);
    }
    let mut waiting = what_waits(rt, alloc, journal, pass)?;
    // Somebody else may have made a run since the first look.
    if !is_due(waiting.stood, waiting.first - 1, waiting.upto) {
        return Ok(false);
    }
    make_next(rt, alloc, journal, objects, &mut waiting, since, pass)?;
    Ok(true)
}
