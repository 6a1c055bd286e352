//! A transaction begins in a new session, where nobody else enters anything.
ghost use Rattle.std.specs.Prelude.{◌≡◌, ◌≤◌, IfErr, OnOk, false};
ghost use Rattle.command_laws.specs.Alone.{IsAlone};
ghost use Rattle.page_ops.specs.Causes.{Ends, FailsToEnter, OrTooMany};
ghost use Rattle.page_ops.specs.Claims.{SessionAgrees};
ghost use Rattle.page_ops.specs.Outcomes.{IsCrowd};
ghost use Rattle.page_ops.specs.Seeing.{Keeps};
ghost use Rattle.store_life.specs.Turns.{HasBegun, IsBegun};

use engine::{Session, begin, new_session};
use front::Pass;
use page_ops::{Journaling, Life};
use std::alloc::Global;
use std::sync::Wait;
use store_model::{Fault, TxId};
use wal_record::Entry;

/// A new session with a transaction, unless so many are active that no more may be.
pub(crate) fn begin_session<N: Life, J: Journaling<N>, R: Wait>(
    rt: &R,
    alloc: Global,
    journal: &mut J,
    crowded: bool,
    pass: &mut Pass<Entry, N>,
) -> Result<Session<N>, Fault>
    requires { IsAlone N.opens N.entries (J.account journal.old) pass.old.log }
    ensures alone { IsAlone N.opens N.entries (J.account journal.new) pass.new.log }
    ensures begun { IsBegun result pass.old.log pass.new.log }
    ensures durable { pass.old.durable ≤ pass.new.durable }
    ensures crowd { crowded ≡ false → IfErr result (IsCrowd pass.new.log) }
    ensures few { OnOk result (crowded ≡ false) }
    ensures keeps { Keeps (record (J.account journal.old) { made = (J.account journal.new).made }) (J.account journal.new) }
    ensures refused { IfErr result (FailsToEnter OrTooMany) }
    ensures ends { Ends N.opens N.log_faults N.made (record (J.account journal.old) { made = (J.account journal.new).made }) (J.account journal.new) pass.new.log result }
{
    let mut session = match new_session(rt, alloc, journal, pass) {
        Ok(session) => session,
        Err(fault) => return Err(fault),
    };
    if crowded {
        return Err(Fault::TooManyActive);
    }
    match begin_in(rt, alloc, journal, &mut session, pass) {
        Ok(_) => Ok(session),
        Err(fault) => Err(fault),
    }
}

/// Begins a transaction of a new session.
fn begin_in<N: Life, J: Journaling<N>, R: Wait>(
    rt: &R,
    alloc: Global,
    journal: &mut J,
    session: &mut Session<N>,
    pass: &mut Pass<Entry, N>,
) -> Result<TxId, Fault>
    requires alone { IsAlone N.opens N.entries (J.account journal.old) pass.old.log }
    requires idle { session.old.claim.tx ≡ 0 }
    requires none { session.old.claim.entries ≡ 0 }
    requires agrees { SessionAgrees session.old.seen.log session.old.claim }
    requires seen { session.old.seen ≡ pass.old }
    ensures alone { IsAlone N.opens N.entries (J.account journal.new) pass.new.log }
    ensures begun { HasBegun result session.new.claim pass.old.log pass.new.log }
    ensures durable { pass.old.durable ≤ pass.new.durable }
    ensures crowd { IfErr result (IsCrowd pass.new.log) }
    ensures keeps { Keeps (J.account journal.old) (J.account journal.new) }
    ensures refused { IfErr result (FailsToEnter OrTooMany) }
    ensures ends { Ends N.opens N.log_faults N.made (J.account journal.old) (J.account journal.new) pass.new.log result }
    ensures made { (J.account journal.new).made ≡ (J.account journal.old).made }
{
    let begun = begin(rt, alloc, journal, session);
    *pass = session.seen(&journal.ground().board);
    begun
}
