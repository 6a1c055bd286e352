//! Requests of a session.
ghost use Rattle.std.specs.Prelude.{◌≡◌, ◌<◌, ◌+◌, length, Err, false, IfErr, IfOk, OnOk};
ghost use Rattle.store_model.specs.declared.fault.Fault.TheVariants as faults;
ghost use Rattle.store_model.specs.declared.request.Request.TheVariants as requests;
ghost use Rattle.wal_record.specs.Legal.{held};
ghost use Rattle.page_ops.specs.Causes.{MeetsNoEnd, OrConflict};
ghost use Rattle.page_ops.specs.Claims.{SessionAgrees};
ghost use Rattle.page_ops.specs.Outcomes.{IsConflict};
ghost use Rattle.rollback.specs.Rolls.{standing};
ghost use Rattle.engine.specs.Answers.{Answers, FailsToAsk, HasLocked, IsSaidAt, Locks, lock_answer};
ghost use Rattle.engine.specs.Requests.{IsRefusal, lock_of};

use crate::answered::Answered;
use crate::getting::get_locked;
use crate::locking::lock;
use crate::session::Session;
use page_ops::{Journaling, Life, Pages};
use std::alloc::Global;
use std::sync::Wait;
use store_model::{Fault, Key, KeyRange, Mode, Pos};

/// Answers a get of the session's transaction: the key's value, under a shared lock of the key. `NotActive` where the
/// session has no transaction, and then all is as before. `Conflict` where another live transaction has the key locked for
/// writing. A loser that has it locked is undone first; that stays done behind every refusal, and so does the lock.
pub fn get<N: Life, J: Journaling<N>, P: Pages<N, J>, R: Wait>(
    rt: &R,
    alloc: Global,
    pages: &mut P,
    journal: &mut J,
    session: &mut Session<N>,
    key: &Key,
) -> Result<Answered, Fault>
    requires none { (P.desk pages.old).out ≡ 0 }
    requires reserved { (P.desk pages.old).reserves ≡ false }
    ensures idle { session.old.claim.tx ≡ 0 → (result ≡ Err faults.NotActive) × (session.new ≡ session.old) × (J.account journal.new ≡ J.account journal.old) }
    ensures answers { 0 < session.old.claim.tx → Answers N.opens N.entries N.session_entries session.old.claim (requests.Get key.now) result
        (standing (P.desk pages.old) (J.account journal.old) session.old.seen) (standing (P.desk pages.new) (J.account journal.new) session.new.seen) }
    ensures said { IfOk result (IsSaidAt N.opens session.old.claim (requests.Get key.now) session.new.seen.log) }
    ensures agrees { OnOk result (SessionAgrees session.new.seen.log session.new.claim) }
    ensures holder { (session.new.claim.session ≡ session.old.claim.session) × (session.new.claim.tx ≡ session.old.claim.tx) }
    ensures conflict { IfErr result (IsConflict N.opens session.new.seen.log (lock_of (requests.Get key.now))) }
    ensures none { (P.desk pages.new).out ≡ 0 }
    ensures reserved { (P.desk pages.new).reserves ≡ false }
    ensures open { OnOk result (MeetsNoEnd (J.account journal.old) (J.account journal.new)) }
    ensures refused { 0 < session.old.claim.tx → IfErr result (FailsToAsk (IsRefusal (requests.Get key.now)) N.opens N.log_faults N.made
        (P.desk pages.old).faults (P.desk pages.new).faults (J.account journal.old) (J.account journal.new) session.new.seen.log) }
{
    if !session.is_active() {
        return Err(Fault::NotActive);
    }
    match lock_for(
        rt,
        alloc,
        pages,
        journal,
        session,
        &KeyRange::point(key),
        Mode::Shared,
    ) {
        Ok(_) => get_locked(
            rt,
            alloc,
            pages,
            journal,
            &mut session.right,
            key,
            &mut session.pass,
        ),
        Err(fault) => Err(fault),
    }
}

/// Locks a range for the session's transaction.
pub(crate) fn lock_for<N: Life, J: Journaling<N>, P: Pages<N, J>, R: Wait>(
    rt: &R,
    alloc: Global,
    pages: &mut P,
    journal: &mut J,
    session: &mut Session<N>,
    range: &KeyRange,
    mode: Mode,
) -> Result<Pos, Fault>
    requires none { (P.desk pages.old).out ≡ 0 }
    requires reserved { (P.desk pages.old).reserves ≡ false }
    requires active { 0 < session.old.claim.tx }
    ensures locks { Locks N.opens N.entries N.session_entries session.old.claim.tx (held range.now mode) result
        (standing (P.desk pages.old) (J.account journal.old) session.old.seen) (standing (P.desk pages.new) (J.account journal.new) session.new.seen) }
    ensures right { session.new.claim ≡ record { session = session.old.claim.session; entries = session.old.claim.entries + length (lock_answer session.old.claim.tx (held range.now mode) result); tx = session.old.claim.tx } }
    ensures locked { OnOk result (HasLocked N.opens session.new.seen.log (held range.now mode) session.new.claim) }
    ensures conflict { IfErr result (IsConflict N.opens session.new.seen.log (held range.now mode)) }
    ensures none { (P.desk pages.new).out ≡ 0 }
    ensures reserved { (P.desk pages.new).reserves ≡ false }
    ensures open { OnOk result (MeetsNoEnd (J.account journal.old) (J.account journal.new)) }
    ensures refused { IfErr result (FailsToAsk OrConflict N.opens N.log_faults N.made (P.desk pages.old).faults (P.desk pages.new).faults (J.account journal.old) (J.account journal.new) session.new.seen.log) }
{
    let Some(mut right) = session.right.take() else {
        unreachable!()
    };
    let locked = lock(
        rt,
        alloc,
        pages,
        journal,
        &mut right,
        range,
        mode,
        &mut session.pass,
    );
    session.right = Some(right);
    locked
}
