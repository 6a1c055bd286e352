//! A group that was made, handed to the journal.
ghost use Rattle.std.specs.Prelude.{IfErr, IfOk};
ghost use Rattle.page_ops.specs.Causes.{Ends, FailsToEnter, OrFull};
ghost use Rattle.page_ops.specs.Outcomes.{IsAnswer, IsFull, KeepsRights, SameHolders};
ghost use Rattle.page_ops.specs.Seeing.{known};
ghost use Rattle.smo.specs.Asked.{AskedIfMade, MayAsk};

use front::Pass;
use page_ops::{Entered, Entering, Group, Life, Rights};
use std::alloc::Global;
use std::sync::Wait;
use store_model::{Fault, Memory};
use wal_record::Entry;

/// Hands the group to the journal. Where there was no memory for it, it only shows the pass the whole history.
pub fn ask<N: Life, J: Entering<N>, R: Wait>(
    rt: &R,
    alloc: Global,
    journal: &mut J,
    made: Result<Group, Memory>,
    rights: &mut Rights<N>,
    pass: &mut Pass<Entry, N>,
) -> Result<Entered, Fault>
    requires { IfOk made (MayAsk N.opens pass.old.log rights.old) }
    ensures asked { AskedIfMade N.opens N.entries N.session_entries made result (known (J.account journal.old) pass.old rights.old) (known (J.account journal.new) pass.new rights.new) }
    ensures answer { IfOk made (λ g. IfOk result (IsAnswer N.opens pass.new.log g)) }
    ensures full { IfOk made (λ g. IfErr result (IsFull N.opens pass.new.log g)) }
    ensures same { KeepsRights result rights.old rights.new }
    ensures holders { SameHolders rights.old rights.new }
    ensures refused { IfErr result (FailsToEnter OrFull) }
    ensures ends { Ends N.opens N.log_faults N.made (J.account journal.old) (J.account journal.new) pass.new.log result }
{
    match made {
        Ok(mut group) => journal.enter(rt, alloc, &mut group, rights, pass),
        Err(_) => {
            journal.see(rt, rights, pass);
            Err(Fault::Memory)
        }
    }
}
