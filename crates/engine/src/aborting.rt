//! Aborts.
ghost use Rattle.std.specs.Prelude.{◌≡◌, ◌<◌, Err, IfErr, IfOk, OnErr, OnOk, false};
ghost use Rattle.store_model.specs.declared.fault.Fault.TheVariants as faults;
ghost use Rattle.page_ops.specs.Causes.{FailsToBring, MeetsNoEnd};
ghost use Rattle.page_ops.specs.Claims.{SessionAgrees};
ghost use Rattle.page_ops.specs.Desks.{Faults};
ghost use Rattle.page_ops.specs.Seeing.{Looks};
ghost use Rattle.rollback.specs.Endings.{IsEndAt, RollsOver};
ghost use Rattle.rollback.specs.Rolls.{standing};

use crate::seeing::see_owner;
use crate::session::Session;
use page_ops::{Journaling, Life, Pages};
use rollback::roll_back;
use std::alloc::Global;
use std::sync::Wait;
use store_model::{Fault, Pos};

/// Undoes the writes of the session's transaction, last one first, and ends it: the session has then none. Where in the
/// history its End stands. `NotActive` where the session has no transaction. After another refusal what was undone stays
/// so, and it may be called again. It asks for no room.
pub fn abort<N: Life, J: Journaling<N>, P: Pages<N, J>, R: Wait>(
    rt: &R,
    alloc: Global,
    pages: &mut P,
    journal: &mut J,
    session: &mut Session<N>,
) -> Result<Pos, Fault>
    requires none { (P.desk pages.old).out ≡ 0 }
    requires reserved { (P.desk pages.old).reserves ≡ false }
    ensures idle { session.old.claim.tx ≡ 0 → (result ≡ Err faults.NotActive) × (session.new ≡ session.old) × (J.account journal.new ≡ J.account journal.old) }
    ensures undone { 0 < session.old.claim.tx → RollsOver N.opens N.entries N.session_entries session.old.claim.tx
        (standing (P.desk pages.old) (J.account journal.old) session.old.seen) (standing (P.desk pages.new) (J.account journal.new) session.new.seen) }
    ensures ended { IfOk result (IsEndAt session.old.claim.tx session.new.seen.log) }
    ensures freed { OnOk result ((session.new.claim.tx ≡ 0) × SessionAgrees session.new.seen.log session.new.claim) }
    ensures stays { OnErr result (session.new.claim.tx ≡ session.old.claim.tx) }
    ensures holder { session.new.claim.session ≡ session.old.claim.session }
    ensures none { (P.desk pages.new).out ≡ 0 }
    ensures reserved { (P.desk pages.new).reserves ≡ false }
    ensures open { OnOk result (MeetsNoEnd (J.account journal.old) (J.account journal.new)) }
    ensures refused { 0 < session.old.claim.tx → IfErr result (FailsToBring N.opens N.log_faults N.made (P.desk pages.old).faults (P.desk pages.new).faults (J.account journal.old) (J.account journal.new) session.new.seen.log) }
{
    if !session.is_active() {
        return Err(Fault::NotActive);
    }
    if session.undecided {
        return Err(why_ended(rt, alloc, journal, session));
    }
    let tx = session.transaction();
    see_owner(rt, journal, &mut session.right, &mut session.pass);
    roll_back(
        rt,
        alloc,
        pages,
        journal,
        tx,
        &mut session.right,
        &mut session.pass,
    )
}

/// Why a transaction can't be undone of which a commit was refused: the life has ended then, in every log that is told.
fn why_ended<N: Life, J: Journaling<N>, R: Wait>(
    rt: &R,
    alloc: Global,
    journal: &mut J,
    session: &mut Session<N>,
) -> Fault
    ensures same { session.new.claim ≡ session.old.claim }
    ensures seen { Looks N.opens N.entries N.session_entries (J.account journal.old) session.old.seen (J.account journal.new) session.new.seen }
    ensures refused { (own : Faults) → FailsToBring N.opens N.log_faults N.made own own (J.account journal.old) (J.account journal.new) session.new.seen.log result }
{
    let tx = session.transaction();
    match journal.last_open(rt, alloc, tx, &mut session.pass) {
        Ok(_open) => Fault::Memory,
        Err(fault) => fault,
    }
}
