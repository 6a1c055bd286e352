//! Commits.
ghost use Rattle.std.specs.Prelude.{◌≡◌, ◌<◌, ◌+◌, Err, IfErr, OnOk};
ghost use Rattle.store_model.specs.declared.fault.Fault.TheVariants as faults;
ghost use Rattle.page_ops.specs.Causes.{Ends, FailsToFlush};
ghost use Rattle.page_ops.specs.Outcomes.{CommitsOr};
ghost use Rattle.engine.specs.Sittings.{known_by};

use crate::session::Session;
use page_ops::{Committed, Journaling, Life};
use std::sync::Wait;
use store_model::Fault;

/// Commits the session's transaction: enters its Commit, makes the log durable up to it, and enters that it is
/// acknowledged. The session has then none. It takes no memory. `NotActive` where the session has no transaction. After
/// `LogFault`, and after an `Ended` of which nothing was known before, the Commit may be there, unacknowledged.
pub fn commit<N: Life, J: Journaling<N>, R: Wait>(
    rt: &R,
    journal: &mut J,
    session: &mut Session<N>,
) -> Result<Committed, Fault>
    ensures idle { session.old.claim.tx ≡ 0 → (result ≡ Err faults.NotActive) × (session.new ≡ session.old) × (J.account journal.new ≡ J.account journal.old) }
    ensures entered { 0 < session.old.claim.tx → CommitsOr N.opens N.entries N.session_entries session.old.claim result (known_by (J.account journal.old) session.old) (known_by (J.account journal.new) session.new) }
    ensures right { OnOk result (session.new.claim ≡ record { session = session.old.claim.session; entries = session.old.claim.entries + 2; tx = 0 }) }
    ensures holder { session.new.claim.session ≡ session.old.claim.session }
    ensures refused { 0 < session.old.claim.tx → IfErr result FailsToFlush }
    ensures ends { 0 < session.old.claim.tx → Ends N.opens N.log_faults N.made (J.account journal.old) (J.account journal.new) session.new.seen.log result }
{
    if !session.is_active() {
        return Err(Fault::NotActive);
    }
    let Some(mut right) = session.right.take() else {
        unreachable!()
    };
    let committed = journal.commit(rt, &mut right, &mut session.pass);
    session.right = Some(right);
    session.undecided = committed.is_err();
    committed
}
