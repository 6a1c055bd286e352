//! The lock of a request.
ghost use Rattle.std.specs.Prelude.{◌≡◌, ◌<◌, ◌+◌, length, false, IfErr, OnOk};
ghost use Rattle.wal_record.specs.Legal.{held};
ghost use Rattle.page_ops.specs.Causes.{MeetsNoEnd, OrConflict};
ghost use Rattle.page_ops.specs.Outcomes.{IsConflict};
ghost use Rattle.rollback.specs.Rolls.{standing};
ghost use Rattle.engine.specs.Answers.{FailsToAsk, HasLocked, Locks, lock_answer};
ghost use Rattle.engine.specs.Sittings.{IsOwned};

use books::SessionRight;
use front::Pass;
use page_ops::{Grant, Journaling, Life, Pages};
use rollback::undo_loser;
use std::alloc::Global;
use std::sync::Wait;
use store_model::{Fault, KeyRange, Mode, Pos};
use wal_record::Entry;

/// Locks a range for the session's transaction. It is refused at once, with `Conflict`, where a live transaction is in the
/// way; where only losers are, they are undone wholly first, the least one first.
pub(crate) fn lock<N: Life, J: Journaling<N>, P: Pages<N, J>, R: Wait>(
    rt: &R,
    alloc: Global,
    pages: &mut P,
    journal: &mut J,
    s: &mut SessionRight<N>,
    range: &KeyRange,
    mode: Mode,
    pass: &mut Pass<Entry, N>,
) -> Result<Pos, Fault>
    requires none { (P.desk pages.old).out ≡ 0 }
    requires reserved { (P.desk pages.old).reserves ≡ false }
    requires active { 0 < s.old.tx }
    ensures locks { Locks N.opens N.entries N.session_entries s.old.tx (held range.now mode) result (standing (P.desk pages.old) (J.account journal.old) pass.old) (standing (P.desk pages.new) (J.account journal.new) pass.new) }
    ensures right { s.new ≡ record { session = s.old.session; entries = s.old.entries + length (lock_answer s.old.tx (held range.now mode) result); tx = s.old.tx } }
    ensures locked { OnOk result (HasLocked N.opens pass.new.log (held range.now mode) s.new) }
    ensures live { IsOwned N.opens pass.old.log s.old → IsOwned N.opens pass.new.log s.new }
    ensures conflict { IfErr result (IsConflict N.opens pass.new.log (held range.now mode)) }
    ensures none { (P.desk pages.new).out ≡ 0 }
    ensures reserved { (P.desk pages.new).reserves ≡ false }
    ensures open { OnOk result (MeetsNoEnd (J.account journal.old) (J.account journal.new)) }
    ensures refused { IfErr result (FailsToAsk OrConflict N.opens N.log_faults N.made (P.desk pages.old).faults (P.desk pages.new).faults (J.account journal.old) (J.account journal.new) pass.new.log) }
{
    for _ in rt.forever() {
        let loser = match journal.lock(rt, alloc, s, range, mode, pass) {
            Ok(Grant::Held(pos)) => return Ok(pos),
            Ok(Grant::Loser(loser)) => loser,
            Err(fault) => return Err(fault),
        };
        if let Err(fault) = undo_loser(rt, alloc, pages, journal, loser, pass) {
            return Err(fault);
        }
    }
    unreachable!()
}
