//! The end of a transaction that is undone.
ghost use Rattle.std.specs.Prelude.{◌≡◌, [], IfErr, IfOk, IsTrue, List};
ghost use Rattle.wal_record.specs.History.{life_log};
ghost use Rattle.wal_record.specs.OpenWrites.{open_writes};
ghost use Rattle.wal_record.specs.Rules.{is_number};
ghost use Rattle.wal_record.specs.declared.record.Record.{Record};
ghost use Rattle.page_ops.specs.Causes.{Ends, FailsToEnter, NoOther};
ghost use Rattle.page_ops.specs.Claims.{no_claims};
ghost use Rattle.page_ops.specs.Seeing.{known};
ghost use Rattle.rollback.specs.Endings.{GainsEnd, HasEnded, KeepsUnended, end_of};
ghost use Rattle.rollback.specs.Owners.{IsSameSession, MayRollBack};

use books::SessionRight;
use front::Pass;
use page_ops::{Entered, Entering, Group, Life, Rights};
use smo::ask;
use std::alloc::Global;
use std::sync::Wait;
use store_model::{Fault, List, Memory, TxId};
use wal_record::{End, Entry, Record};

/// Enters the End of a transaction that has no open write left: by the right to its session where it is live, which has
/// then no transaction, by none where it is a loser. Where in the history it stands; or `Late`, where another thread has
/// ended the loser.
pub fn end<N: Life, J: Entering<N>, R: Wait>(
    rt: &R,
    alloc: Global,
    journal: &mut J,
    tx: TxId,
    owner: &mut Option<SessionRight<N>>,
    pass: &mut Pass<Entry, N>,
) -> Result<Entered, Fault>
    requires number { IsTrue (is_number tx) }
    requires owner { MayRollBack N.opens pass.old.log tx owner.old }
    requires nothing { (opening : List Record) → N.opens opening → open_writes (life_log opening pass.old.log) tx ≡ [] }
    ensures ended { IfOk result (HasEnded N.opens pass.new.log tx owner.new) }
    ensures gains { GainsEnd N.opens N.entries N.session_entries tx result (known (J.account journal.old) pass.old no_claims) (known (J.account journal.new) pass.new no_claims) }
    ensures same { KeepsUnended result owner.old owner.new }
    ensures holder { IsSameSession owner.old owner.new }
    ensures refused { IfErr result (FailsToEnter NoOther) }
    ensures ends { Ends N.opens N.log_faults N.made (J.account journal.old) (J.account journal.new) pass.new.log result }
{
    let mut rights = Rights::none();
    rights.s = owner.take();
    journal.see(rt, &mut rights, pass);
    let entered = ask(rt, alloc, journal, group_of(alloc, tx), &mut rights, pass);
    *owner = rights.s.take();
    entered
}

/// The group of the End, with what the journal fills in left open.
fn group_of(alloc: Global, tx: TxId) -> Result<Group, Memory>
    ensures { IfOk result (λ group. group ≡ end_of tx) }
{
    let mut recs = List::new(alloc);
    recs.push(Record::End(End { tx, prev: 0 }))?;
    Ok(Group {
        recs,
        said: None,
        room: false,
        lsn: 0,
    })
}
