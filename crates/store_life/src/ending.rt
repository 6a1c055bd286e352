//! A session's transaction is committed or undone, where nobody else enters anything.
ghost use Rattle.std.specs.Prelude.{◌≡◌, ◌<◌, ◌≤◌, IfErr, IfOk, OnErr, OnOk, false};
ghost use Rattle.command_laws.specs.Alone.{IsAlone};
ghost use Rattle.page_ops.specs.Causes.{Ends, FailsToBring, FailsToFlush, MeetsNoEnd};
ghost use Rattle.page_ops.specs.Desks.{KeepsFaults};
ghost use Rattle.page_ops.specs.Seeing.{Keeps};
ghost use Rattle.store_life.specs.Turns.{EndsBy, IsCommitted, UndoesBy};

use engine::{Session, abort, commit, see_session};
use front::Pass;
use page_ops::{Committed, Journaling, Life, Pages};
use std::alloc::Global;
use std::sync::Wait;
use store_model::{Fault, Pos};
use wal_record::Entry;

/// Commits the session's transaction.
pub(crate) fn commit_session<N: Life, J: Journaling<N>, R: Wait>(
    rt: &R,
    journal: &mut J,
    session: &mut Session<N>,
    pass: &mut Pass<Entry, N>,
) -> Result<Committed, Fault>
    requires active { 0 < session.old.claim.tx }
    requires alone { IsAlone N.opens N.entries (J.account journal.old) pass.old.log }
    ensures alone { IsAlone N.opens N.entries (J.account journal.new) pass.new.log }
    ensures commits { IsCommitted N.opens session.old.claim.session session.old.claim.tx (J.account journal.old) result pass.old.log pass.new }
    ensures durable { pass.old.durable ≤ pass.new.durable }
    ensures stays { OnErr result (session.new.claim.tx ≡ session.old.claim.tx) }
    ensures holder { session.new.claim.session ≡ session.old.claim.session }
    ensures keeps { Keeps (J.account journal.old) (J.account journal.new) }
    ensures refused { IfErr result FailsToFlush }
    ensures ends { Ends N.opens N.log_faults N.made (J.account journal.old) (J.account journal.new) pass.new.log result }
{
    session.meet(&journal.ground().board, pass);
    let committed = commit(rt, journal, session);
    *pass = session.seen(&journal.ground().board);
    committed
}

/// Undoes the session's transaction, and ends it.
pub(crate) fn abort_session<N: Life, J: Journaling<N>, P: Pages<N, J>, R: Wait>(
    rt: &R,
    alloc: Global,
    pages: &mut P,
    journal: &mut J,
    session: &mut Session<N>,
    pass: &mut Pass<Entry, N>,
) -> Result<Pos, Fault>
    requires none { (P.desk pages.old).out ≡ 0 }
    requires reserved { (P.desk pages.old).reserves ≡ false }
    requires active { 0 < session.old.claim.tx }
    requires alone { IsAlone N.opens N.entries (J.account journal.old) pass.old.log }
    ensures alone { IsAlone N.opens N.entries (J.account journal.new) pass.new.log }
    ensures aborts { EndsBy N.opens session.old.claim.tx result pass.old.log pass.new.log }
    ensures durable { pass.old.durable ≤ pass.new.durable }
    ensures stays { OnErr result (session.new.claim.tx ≡ session.old.claim.tx) }
    ensures holder { session.new.claim.session ≡ session.old.claim.session }
    ensures none { (P.desk pages.new).out ≡ 0 }
    ensures reserved { (P.desk pages.new).reserves ≡ false }
    ensures keeps { Keeps (J.account journal.old) (J.account journal.new) }
    ensures faults { KeepsFaults (P.desk pages.old).faults (P.desk pages.new).faults }
    ensures open { OnOk result (MeetsNoEnd (J.account journal.old) (J.account journal.new)) }
    ensures refused { IfErr result (FailsToBring N.opens N.log_faults N.made (P.desk pages.old).faults (P.desk pages.new).faults (J.account journal.old) (J.account journal.new) pass.new.log) }
{
    let ended = undo_session(rt, alloc, pages, journal, session, pass);
    // The right agrees with the history: so a transaction that the session still has was not ended.
    see_session(rt, journal, session);
    *pass = session.seen(&journal.ground().board);
    ended
}

/// The same, where nothing is said yet of the End of a transaction that stays.
fn undo_session<N: Life, J: Journaling<N>, P: Pages<N, J>, R: Wait>(
    rt: &R,
    alloc: Global,
    pages: &mut P,
    journal: &mut J,
    session: &mut Session<N>,
    pass: &mut Pass<Entry, N>,
) -> Result<Pos, Fault>
    requires none { (P.desk pages.old).out ≡ 0 }
    requires reserved { (P.desk pages.old).reserves ≡ false }
    requires active { 0 < session.old.claim.tx }
    requires alone { IsAlone N.opens N.entries (J.account journal.old) pass.old.log }
    ensures alone { IsAlone N.opens N.entries (J.account journal.new) pass.new.log }
    ensures seen { session.new.seen ≡ pass.new }
    ensures aborts { UndoesBy (Unit {0}) N.opens session.old.claim.tx result pass.old.log pass.new.log }
    ensures durable { pass.old.durable ≤ pass.new.durable }
    ensures stays { OnErr result (session.new.claim.tx ≡ session.old.claim.tx) }
    ensures holder { session.new.claim.session ≡ session.old.claim.session }
    ensures none { (P.desk pages.new).out ≡ 0 }
    ensures reserved { (P.desk pages.new).reserves ≡ false }
    ensures keeps { Keeps (J.account journal.old) (J.account journal.new) }
    ensures faults { KeepsFaults (P.desk pages.old).faults (P.desk pages.new).faults }
    ensures open { OnOk result (MeetsNoEnd (J.account journal.old) (J.account journal.new)) }
    ensures refused { IfErr result (FailsToBring N.opens N.log_faults N.made (P.desk pages.old).faults (P.desk pages.new).faults (J.account journal.old) (J.account journal.new) pass.new.log) }
{
    session.meet(&journal.ground().board, pass);
    see_session(rt, journal, session);
    let ended = abort(rt, alloc, pages, journal, session);
    *pass = session.seen(&journal.ground().board);
    ended
}
