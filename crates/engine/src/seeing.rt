//! The right to a session, shown to the journal.
ghost use Rattle.std.specs.Prelude.{◌≡◌, [], None};
ghost use Rattle.page_ops.specs.Causes.{MeetsNoFault};
ghost use Rattle.page_ops.specs.Seeing.{Enters, known};
ghost use Rattle.rollback.specs.Owners.{claim_of};
ghost use Rattle.engine.specs.Sittings.{known_by};

use crate::session::Session;
use books::SessionRight;
use front::Pass;
use page_ops::{Entering, Life, Rights};
use std::sync::Wait;
use wal_record::Entry;

/// Shows the pass the whole history, with which the right to the session agrees.
pub(crate) fn see_owner<N: Life, J: Entering<N>, R: Wait>(
    rt: &R,
    journal: &mut J,
    owner: &mut Option<SessionRight<N>>,
    pass: &mut Pass<Entry, N>,
)
    ensures same { owner.new ≡ owner.old }
    ensures seen { Enters N.opens N.entries N.session_entries (known (J.account journal.old) pass.old (claim_of owner.old)) [] (known (J.account journal.new) pass.new (claim_of owner.new)) }
    ensures calm { MeetsNoFault (J.account journal.old) (J.account journal.new) }
{
    let mut rights = Rights::none();
    rights.s = owner.take();
    journal.see(rt, &mut rights, pass);
    *owner = rights.s.take();
}

/// Shows a session's pass the whole history, with which its right agrees.
pub fn see_session<N: Life, J: Entering<N>, R: Wait>(
    rt: &R,
    journal: &mut J,
    session: &mut Session<N>,
)
    ensures claim { session.new.claim ≡ session.old.claim }
    ensures seen { Enters N.opens N.entries N.session_entries (known_by (J.account journal.old) session.old) [] (known_by (J.account journal.new) session.new) }
    ensures calm { MeetsNoFault (J.account journal.old) (J.account journal.new) }
{
    see_owner(rt, journal, &mut session.right, &mut session.pass);
}
