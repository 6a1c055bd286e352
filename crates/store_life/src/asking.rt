//! A request of a session, where nobody else enters anything.
ghost use Rattle.std.specs.Prelude.{◌≡◌, ◌<◌, ◌≤◌, IfErr, IfOk, OnOk, false};
ghost use Rattle.command_laws.specs.Alone.{IsAlone};
ghost use Rattle.engine.specs.Answers.{Answers, FailsToAsk, IsSaidAt};
ghost use Rattle.engine.specs.Applies.{GivesNone};
ghost use Rattle.engine.specs.Requests.{IsRefusal, lock_of};
ghost use Rattle.engine.specs.Writes.{LacksRoom};
ghost use Rattle.page_ops.specs.Causes.{MeetsNoEnd};
ghost use Rattle.page_ops.specs.Desks.{KeepsFaults};
ghost use Rattle.page_ops.specs.Outcomes.{IsConflict};
ghost use Rattle.page_ops.specs.Seeing.{Keeps};
ghost use Rattle.rollback.specs.Rolls.{standing};
ghost use Rattle.store_life.specs.Turns.{Asks, IsTold};

use engine::{Answered, Session, apply, del, get, put, scan};
use front::Pass;
use operators::Operators;
use page_ops::{Journaling, Life, Pages};
use std::alloc::Global;
use std::sync::Wait;
use store_model::{Fault, Request};
use wal_record::Entry;

/// Asks what the request says.
fn ask<N: Life, J: Journaling<N>, P: Pages<N, J>, R: Wait>(
    rt: &R,
    alloc: Global,
    pages: &mut P,
    journal: &mut J,
    operators: &Operators,
    session: &mut Session<N>,
    request: Request,
) -> Result<Answered, Fault>
    requires none { (P.desk pages.old).out ≡ 0 }
    requires reserved { (P.desk pages.old).reserves ≡ false }
    requires active { 0 < session.old.claim.tx }
    ensures answers { Answers N.opens N.entries N.session_entries session.old.claim request result
        (standing (P.desk pages.old) (J.account journal.old) session.old.seen) (standing (P.desk pages.new) (J.account journal.new) session.new.seen) }
    ensures said { IfOk result (IsSaidAt N.opens session.old.claim request session.new.seen.log) }
    ensures holder { (session.new.claim.session ≡ session.old.claim.session) × (session.new.claim.tx ≡ session.old.claim.tx) }
    ensures conflict { IfErr result (IsConflict N.opens session.new.seen.log (lock_of request)) }
    ensures full { IfErr result (LacksRoom N.opens session.new.seen.log) }
    ensures gives_none { IfErr result (GivesNone N.opens request session.new.seen.log) }
    ensures none { (P.desk pages.new).out ≡ 0 }
    ensures reserved { (P.desk pages.new).reserves ≡ false }
    ensures keeps { Keeps (J.account journal.old) (J.account journal.new) }
    ensures faults { KeepsFaults (P.desk pages.old).faults (P.desk pages.new).faults }
    ensures open { OnOk result (MeetsNoEnd (J.account journal.old) (J.account journal.new)) }
    ensures refused { IfErr result (FailsToAsk (IsRefusal request) N.opens N.log_faults N.made
        (P.desk pages.old).faults (P.desk pages.new).faults (J.account journal.old) (J.account journal.new) session.new.seen.log) }
{
    match request {
        Request::Get(key) => get(rt, alloc, pages, journal, session, &key),
        Request::Put(key, value) => put(rt, alloc, pages, journal, session, &key, value),
        Request::Del(key) => del(rt, alloc, pages, journal, session, &key),
        Request::Scan(range) => scan(rt, alloc, pages, journal, session, range),
        Request::Apply {
            operator,
            key,
            argument,
        } => apply(
            rt, alloc, pages, journal, session, operators, operator, &key, argument,
        ),
    }
}

/// The same where nobody else enters anything, with a pass that has seen the whole history.
pub(crate) fn ask_session<N: Life, J: Journaling<N>, P: Pages<N, J>, R: Wait>(
    rt: &R,
    alloc: Global,
    pages: &mut P,
    journal: &mut J,
    operators: &Operators,
    session: &mut Session<N>,
    request: Request,
    pass: &mut Pass<Entry, N>,
) -> Result<Answered, Fault>
    requires none { (P.desk pages.old).out ≡ 0 }
    requires reserved { (P.desk pages.old).reserves ≡ false }
    requires active { 0 < session.old.claim.tx }
    requires alone { IsAlone N.opens N.entries (J.account journal.old) pass.old.log }
    ensures alone { IsAlone N.opens N.entries (J.account journal.new) pass.new.log }
    ensures asks { Asks N.opens session.old.claim.session session.old.claim.tx request result pass.old.log pass.new.log }
    ensures told { IfOk result (IsTold N.opens session.old.claim.session session.old.claim.tx request pass.new.log) }
    ensures durable { pass.old.durable ≤ pass.new.durable }
    ensures holder { (session.new.claim.session ≡ session.old.claim.session) × (session.new.claim.tx ≡ session.old.claim.tx) }
    ensures conflict { IfErr result (IsConflict N.opens pass.new.log (lock_of request)) }
    ensures full { IfErr result (LacksRoom N.opens pass.new.log) }
    ensures gives_none { IfErr result (GivesNone N.opens request pass.new.log) }
    ensures none { (P.desk pages.new).out ≡ 0 }
    ensures reserved { (P.desk pages.new).reserves ≡ false }
    ensures keeps { Keeps (J.account journal.old) (J.account journal.new) }
    ensures faults { KeepsFaults (P.desk pages.old).faults (P.desk pages.new).faults }
    ensures open { OnOk result (MeetsNoEnd (J.account journal.old) (J.account journal.new)) }
    ensures refused { IfErr result (FailsToAsk (IsRefusal request) N.opens N.log_faults N.made
        (P.desk pages.old).faults (P.desk pages.new).faults (J.account journal.old) (J.account journal.new) pass.new.log) }
{
    session.meet(&journal.ground().board, pass);
    let answered = ask(rt, alloc, pages, journal, operators, session, request);
    *pass = session.seen(&journal.ground().board);
    answered
}
