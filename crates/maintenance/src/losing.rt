//! The loss of the data device.
ghost use Rattle.std.specs.Prelude.{◌≡◌, ◌≤◌, ◌∷◌, [], List, length, IfErr, IfOk};
ghost use Rattle.page_ops.specs.Causes.{Ends, FailsToEnter, NoOther};
ghost use Rattle.page_ops.specs.Claims.{no_claims};
ghost use Rattle.page_ops.specs.Seeing.{known};
ghost use Rattle.wal_record.specs.History.{life_log};
ghost use Rattle.wal_record.specs.declared.record.Record.{Record};
ghost use Rattle.maintenance.specs.Losses.{TakesLoss, loss_group};
ghost use Rattle.maintenance.specs.Marks.{FailsToMark};

use front::Pass;
use page_ops::{Entered, Entering, Group, Life, Rights};
use std::alloc::Global;
use std::sync::Wait;
use store_model::{Fault, List, Lsn, Memory};
use wal_record::{Entry, Lost, Record};

/// The group of a loss, with what the journal fills in left open.
fn group_of(alloc: Global) -> Result<Group, Memory>
    ensures { IfOk result (λ group. group ≡ loss_group) }
{
    let mut recs = List::new(alloc);
    recs.push(Record::Lost(Lost { pages: 0 }))?;
    Ok(Group {
        recs,
        said: None,
        room: false,
        lsn: 0,
    })
}

/// Enters the loss, and gives its LSN.
fn enter_loss<N: Life, J: Entering<N>, R: Wait>(
    rt: &R,
    alloc: Global,
    journal: &mut J,
    pass: &mut Pass<Entry, N>,
) -> Result<Lsn, Fault>
    ensures entered { TakesLoss N.opens N.entries N.session_entries result (known (J.account journal.old) pass.old no_claims) (known (J.account journal.new) pass.new no_claims) }
    ensures placed { IfOk result (λ lsn. (opening : List Record) → N.opens opening → lsn ≤ length (life_log opening pass.new.log)) }
    ensures refused { IfErr result (FailsToEnter NoOther) }
    ensures ends { Ends N.opens N.log_faults N.made (J.account journal.old) (J.account journal.new) pass.new.log result }
{
    let mut rights = Rights::none();
    let Ok(mut group) = group_of(alloc) else {
        journal.see(rt, &mut rights, pass);
        return Err(Fault::Memory);
    };
    let entered = journal.enter(rt, alloc, &mut group, &mut rights, pass);
    drop(rights);
    let lsn = group.lsn;
    drop(group);
    match entered {
        Ok(at) => {
            let Entered::At(_) = at else { unreachable!() };
            Ok(lsn)
        }
        Err(fault) => Err(fault),
    }
}

/// Says in the log that the data device is lost, and makes the log durable up to that. Each segment that has a page is then
/// unrestored, and no page counts as written. Gives the LSN of the record.
pub fn mark_lost<N: Life, J: Entering<N>, R: Wait>(
    rt: &R,
    alloc: Global,
    journal: &mut J,
    pass: &mut Pass<Entry, N>,
) -> Result<Lsn, Fault>
    ensures entered { TakesLoss N.opens N.entries N.session_entries result (known (J.account journal.old) pass.old no_claims) (known (J.account journal.new) pass.new no_claims) }
    ensures durable { IfOk result (λ lsn. (opening : List Record) → N.opens opening → lsn ≤ pass.new.durable) }
    ensures refused { IfErr result FailsToMark }
    ensures ends { Ends N.opens N.log_faults N.made (J.account journal.old) (J.account journal.new) pass.new.log result }
{
    let lsn = enter_loss(rt, alloc, journal, pass)?;
    match journal.flush(rt, lsn, pass) {
        Ok(()) => Ok(lsn),
        Err(fault) => Err(fault),
    }
}
