//! New sessions, and the beginning of transactions.
ghost use Rattle.std.specs.Prelude.{◌≡◌, ◌+◌, IfErr, IfOk, OnErr, IsTrue};
ghost use Rattle.wal_record.specs.Rules.{is_number};
ghost use Rattle.page_ops.specs.Causes.{Ends, FailsToEnter, NoOther, OrTooMany, with_one};
ghost use Rattle.page_ops.specs.Claims.{SessionAgrees};
ghost use Rattle.page_ops.specs.Outcomes.{IsCrowd, begun};
ghost use Rattle.page_ops.specs.Seeing.{Enters, Looks};
ghost use Rattle.engine.specs.Sittings.{known_by};

use crate::session::Session;
use front::Pass;
use page_ops::{Journaling, Life};
use std::alloc::Global;
use std::sync::Wait;
use store_model::{Fault, TxId};
use wal_record::Entry;

/// A new session, which has no transaction and no entry yet.
pub fn new_session<N: Life, J: Journaling<N>, R: Wait>(
    rt: &R,
    alloc: Global,
    journal: &mut J,
    pass: &mut Pass<Entry, N>,
) -> Result<Session<N>, Fault>
    ensures seen { Looks N.opens N.entries N.session_entries (record (J.account journal.old) { made = (J.account journal.new).made }) pass.old (J.account journal.new) pass.new }
    ensures made { (J.account journal.new).made ≡ with_one (J.account journal.old).made result }
    ensures new { IfOk result (λ s. (s.claim.entries ≡ 0) × (s.claim.tx ≡ 0) × (s.seen ≡ pass.new)) }
    ensures agrees { IfOk result (λ s. SessionAgrees s.seen.log s.claim) }
    ensures refused { IfErr result (FailsToEnter NoOther) }
    ensures ends { Ends N.opens N.log_faults N.made (J.account journal.old) (J.account journal.new) pass.new.log result }
{
    let right = journal.session(rt, alloc, pass)?;
    Ok(Session {
        right: Some(right),
        pass: pass.copy(&journal.ground().board),
        undecided: false,
    })
}

/// Begins a transaction of the session, which has none: the number of the transaction is the least above all that the log
/// and the history name. `TooManyActive` exactly where 64 transactions are live. After a refusal the session has none.
pub fn begin<N: Life, J: Journaling<N>, R: Wait>(
    rt: &R,
    alloc: Global,
    journal: &mut J,
    session: &mut Session<N>,
) -> Result<TxId, Fault>
    requires idle { session.old.claim.tx ≡ 0 }
    ensures entered { Enters N.opens N.entries N.session_entries (known_by (J.account journal.old) session.old) (begun session.old.claim.session result) (known_by (J.account journal.new) session.new) }
    ensures right { IfOk result (λ tx. session.new.claim ≡ record { session = session.old.claim.session; entries = session.old.claim.entries + 1; tx = tx }) }
    ensures number { IfOk result (λ tx. IsTrue (is_number tx)) }
    ensures same { OnErr result (session.new.claim ≡ session.old.claim) }
    ensures crowd { IfErr result (IsCrowd session.new.seen.log) }
    ensures refused { IfErr result (FailsToEnter OrTooMany) }
    ensures ends { Ends N.opens N.log_faults N.made (J.account journal.old) (J.account journal.new) session.new.seen.log result }
{
    let Some(mut right) = session.right.take() else {
        unreachable!()
    };
    let begun = journal.begin(rt, alloc, &mut right, &mut session.pass);
    session.right = Some(right);
    if begun.is_ok() {
        session.undecided = false;
    }
    begun
}
