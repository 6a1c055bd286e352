//! The undo of losers, step by step.
ghost use Rattle.std.specs.Prelude.{◌≡◌, IfErr, IfOk, IsTrue, OnOk, false};
ghost use Rattle.wal_record.specs.Rules as rules;
ghost use Rattle.page_ops.specs.Causes.{FailsToBring, MeetsNoEnd};
ghost use Rattle.page_ops.specs.Desks.{IsMade};
ghost use Rattle.rollback.specs.Owners.{IsLoserOf};
ghost use Rattle.rollback.specs.Rolls.{standing};
ghost use Rattle.maintenance.specs.Steps.{Enters, HasStepped, TakesStep, steps_by};

use crate::step::Step;
use front::Pass;
use page_ops::{Entered, Journaling, Life, Pages};
use rollback::{Undid, end, undo_one};
use std::alloc::Global;
use std::sync::Wait;
use store_model::{Fault, HIGHEST, TxId};
use wal_record::Entry;

/// Takes one step to undo the losers of the opening log. Of the least one that has no End the last open write is undone, or,
/// where no write is left, its End is entered. Where another thread ends it meanwhile, the step comes late. Where it is refused,
/// no write was undone and no End entered.
pub fn undo_step<N: Life, J: Journaling<N>, P: Pages<N, J>, R: Wait>(
    rt: &R,
    alloc: Global,
    pages: &mut P,
    journal: &mut J,
    pass: &mut Pass<Entry, N>,
) -> Result<Step, Fault>
    requires none { (P.desk pages.old).out ≡ 0 }
    requires reserved { (P.desk pages.old).reserves ≡ false }
    ensures takes { TakesStep N.opens N.entries N.session_entries result (standing (P.desk pages.old) (J.account journal.old) pass.old) (standing (P.desk pages.new) (J.account journal.new) pass.new) }
    ensures none { (P.desk pages.new).out ≡ 0 }
    ensures reserved { (P.desk pages.new).reserves ≡ false }
    ensures open { OnOk result (MeetsNoEnd (J.account journal.old) (J.account journal.new)) }
    ensures refused { IfErr result (FailsToBring N.opens N.log_faults N.made (P.desk pages.old).faults (P.desk pages.new).faults (J.account journal.old) (J.account journal.new) pass.new.log) }
{
    let work = match journal.work(rt, pass) {
        Ok(work) => work,
        Err(fault) => return Err(fault),
    };
    let Some(loser) = work.loser else {
        return Ok(Step::NoLoser);
    };
    // A loser has a number, in every log that is told.
    if !is_number(loser) {
        return Err(Fault::Memory);
    }
    step_on(rt, alloc, pages, journal, loser, pass)
}

/// The same on this loser.
fn step_on<N: Life, J: Journaling<N>, P: Pages<N, J>, R: Wait>(
    rt: &R,
    alloc: Global,
    pages: &mut P,
    journal: &mut J,
    tx: TxId,
    pass: &mut Pass<Entry, N>,
) -> Result<Step, Fault>
    requires none { (P.desk pages.old).out ≡ 0 }
    requires made { IsMade N.opens pass.old.log 1 }
    requires number { IsTrue (rules.is_number tx) }
    requires loser { IsLoserOf N.opens tx }
    ensures enters { Enters N.opens N.entries N.session_entries tx (steps_by result) (standing (P.desk pages.old) (J.account journal.old) pass.old) (standing (P.desk pages.new) (J.account journal.new) pass.new) }
    ensures stepped { IfOk result (HasStepped N.opens pass.new.log tx) }
    ensures none { (P.desk pages.new).out ≡ 0 }
    ensures reserved { (P.desk pages.new).reserves ≡ false }
    ensures open { OnOk result (MeetsNoEnd (J.account journal.old) (J.account journal.new)) }
    ensures refused { IfErr result (FailsToBring N.opens N.log_faults N.made (P.desk pages.old).faults (P.desk pages.new).faults (J.account journal.old) (J.account journal.new) pass.new.log) }
{
    let mut nobody = None;
    match undo_one(rt, alloc, pages, journal, tx, &mut nobody, pass) {
        Ok(Undid::Undone(pos)) => Ok(Step::Undone(pos)),
        Ok(Undid::Nothing) => match end(rt, alloc, journal, tx, &mut nobody, pass) {
            Ok(Entered::At(pos)) => Ok(Step::Ended(pos)),
            Ok(Entered::Late(pos)) => Ok(Step::Late(pos)),
            Ok(Entered::NoRoom) => unreachable!(),
            Err(fault) => Err(fault),
        },
        Err(fault) => Err(fault),
    }
}

/// Whether it is the number of a transaction.
fn is_number(tx: TxId) -> bool
    ensures { result ≡ rules.is_number tx }
{
    1 <= tx && tx <= HIGHEST
}
