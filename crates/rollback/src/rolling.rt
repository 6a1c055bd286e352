//! The whole undo of a transaction.
ghost use Rattle.std.specs.Prelude.{◌≡◌, IfErr, IfOk, IsSome, IsTrue, List, OnErr, OnOk, false, true};
ghost use Rattle.std.specs.List.{list_any};
ghost use Rattle.wal_record.specs.Chains.{finishes};
ghost use Rattle.wal_record.specs.History.{life_log};
ghost use Rattle.wal_record.specs.Rules.{is_number};
ghost use Rattle.wal_record.specs.declared.record.Record.{Record};
ghost use Rattle.page_ops.specs.Causes.{FailsToBring, MeetsNoEnd};
ghost use Rattle.page_ops.specs.Desks.{IsMade};
ghost use Rattle.rollback.specs.Endings.{HasEnded, IsEndAt, IsFreed, RollsOver, UnlessEnded};
ghost use Rattle.rollback.specs.Owners.{IsLoserOf, IsSameSession, MayRollBack};
ghost use Rattle.rollback.specs.Rolls.{standing};

use crate::ending::end;
use crate::owner::see_owner;
use crate::undid::Undid;
use crate::undoing::undo_one;
use books::SessionRight;
use front::Pass;
use page_ops::{Entered, Journaling, Life, Pages};
use std::alloc::Global;
use std::sync::Wait;
use store_model::{Fault, Pos, TxId};
use wal_record::Entry;

/// Undoes the writes of a session's live transaction, and ends it: the session has then none. Where in the history its End
/// stands. Where it is refused, what was undone stays so, and it may be called again.
pub fn roll_back<N: Life, J: Journaling<N>, P: Pages<N, J>, R: Wait>(
    rt: &R,
    alloc: Global,
    pages: &mut P,
    journal: &mut J,
    tx: TxId,
    owner: &mut Option<SessionRight<N>>,
    pass: &mut Pass<Entry, N>,
) -> Result<Pos, Fault>
    requires none { (P.desk pages.old).out ≡ 0 }
    requires made { IsMade N.opens pass.old.log 1 }
    requires number { IsTrue (is_number tx) }
    requires some { IsSome owner.old }
    requires owner { MayRollBack N.opens pass.old.log tx owner.old }
    ensures ended { IfOk result (IsEndAt tx pass.new.log) }
    ensures freed { OnOk result (IsFreed pass.new.log owner.new) }
    ensures gains { RollsOver N.opens N.entries N.session_entries tx (standing (P.desk pages.old) (J.account journal.old) pass.old) (standing (P.desk pages.new) (J.account journal.new) pass.new) }
    ensures owner { OnErr result (MayRollBack N.opens pass.new.log tx owner.new) }
    ensures holder { IsSameSession owner.old owner.new }
    ensures none { (P.desk pages.new).out ≡ 0 }
    ensures reserved { (P.desk pages.new).reserves ≡ false }
    ensures open { OnOk result (MeetsNoEnd (J.account journal.old) (J.account journal.new)) }
    ensures refused { IfErr result (FailsToBring N.opens N.log_faults N.made (P.desk pages.old).faults (P.desk pages.new).faults (J.account journal.old) (J.account journal.new) pass.new.log) }
{
    match roll_over(rt, alloc, pages, journal, tx, owner, pass)? {
        Entered::At(pos) => Ok(pos),
        // Nobody else ends a live transaction, in every log that is told.
        _ => Err(Fault::Memory),
    }
}

/// Undoes the writes of a loser of the opening log, and ends it, together with whoever else does so: behind it the loser
/// has its End. Where it is refused, what was undone stays so, and it may be called again.
pub fn undo_loser<N: Life, J: Journaling<N>, P: Pages<N, J>, R: Wait>(
    rt: &R,
    alloc: Global,
    pages: &mut P,
    journal: &mut J,
    tx: TxId,
    pass: &mut Pass<Entry, N>,
) -> Result<Entered, Fault>
    requires none { (P.desk pages.old).out ≡ 0 }
    requires made { IsMade N.opens pass.old.log 1 }
    requires number { IsTrue (is_number tx) }
    requires loser { IsLoserOf N.opens tx }
    ensures over { OnOk result ((opening : List Record) → N.opens opening → list_any (finishes tx) (life_log opening pass.new.log) ≡ true) }
    ensures gains { RollsOver N.opens N.entries N.session_entries tx (standing (P.desk pages.old) (J.account journal.old) pass.old) (standing (P.desk pages.new) (J.account journal.new) pass.new) }
    ensures none { (P.desk pages.new).out ≡ 0 }
    ensures reserved { (P.desk pages.new).reserves ≡ false }
    ensures open { OnOk result (MeetsNoEnd (J.account journal.old) (J.account journal.new)) }
    ensures refused { IfErr result (FailsToBring N.opens N.log_faults N.made (P.desk pages.old).faults (P.desk pages.new).faults (J.account journal.old) (J.account journal.new) pass.new.log) }
{
    let mut nobody = None;
    roll_over(rt, alloc, pages, journal, tx, &mut nobody, pass)
}

/// Undoes what is left of a transaction, and ends it.
fn roll_over<N: Life, J: Journaling<N>, P: Pages<N, J>, R: Wait>(
    rt: &R,
    alloc: Global,
    pages: &mut P,
    journal: &mut J,
    tx: TxId,
    owner: &mut Option<SessionRight<N>>,
    pass: &mut Pass<Entry, N>,
) -> Result<Entered, Fault>
    requires none { (P.desk pages.old).out ≡ 0 }
    requires made { IsMade N.opens pass.old.log 1 }
    requires number { IsTrue (is_number tx) }
    requires owner { MayRollBack N.opens pass.old.log tx owner.old }
    ensures ended { IfOk result (HasEnded N.opens pass.new.log tx owner.new) }
    ensures gains { RollsOver N.opens N.entries N.session_entries tx (standing (P.desk pages.old) (J.account journal.old) pass.old) (standing (P.desk pages.new) (J.account journal.new) pass.new) }
    ensures owner { UnlessEnded result (MayRollBack N.opens pass.new.log tx owner.new) }
    ensures holder { IsSameSession owner.old owner.new }
    ensures none { (P.desk pages.new).out ≡ 0 }
    ensures reserved { (P.desk pages.new).reserves ≡ false }
    ensures open { OnOk result (MeetsNoEnd (J.account journal.old) (J.account journal.new)) }
    ensures refused { IfErr result (FailsToBring N.opens N.log_faults N.made (P.desk pages.old).faults (P.desk pages.new).faults (J.account journal.old) (J.account journal.new) pass.new.log) }
{
    see_owner(rt, journal, owner, pass);
    for _ in rt.forever() {
        if let Undid::Nothing = undo_one(rt, alloc, pages, journal, tx, owner, pass)? {
            return end(rt, alloc, journal, tx, owner, pass);
        }
    }
    unreachable!()
}
