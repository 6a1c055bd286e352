//! A request that is declined, since its operator gives no value.
ghost use Rattle.std.specs.Prelude.{◌≡◌, Err, IfSome};
ghost use Rattle.page_ops.specs.Causes.{EndsBy, FailsToEnter};
ghost use Rattle.page_ops.specs.Desks.{Desk};
ghost use Rattle.rollback.specs.Rolls.{standing};
ghost use Rattle.engine.specs.Applies.{GivesNone, MayRefuse, OrNone};
ghost use Rattle.engine.specs.Completes.{CompletesFor};
ghost use Rattle.engine.specs.Saying.{IsSameHolder, MaySpeak};
ghost use Rattle.engine.specs.Sittings.{IsOwned};

use books::SessionRight;
use front::Pass;
use page_ops::{Journaling, Life};
use std::alloc::Global;
use std::sync::Wait;
use store_model::{Fault, Request};
use wal_record::Entry;

/// Enters that a session's request is declined, and tells why: its operator gives no value, or this wasn't entered.
pub(crate) fn decline<N: Life, J: Journaling<N>, R: Wait>(
    rt: &R,
    alloc: Global,
    journal: &mut J,
    owner: &mut Option<SessionRight<N>>,
    request: Request,
    pass: &mut Pass<Entry, N>,
) -> Fault
    requires owner { MaySpeak N.opens pass.old.log owner.old }
    requires may { MayRefuse N.opens pass.old.log owner.old request }
    ensures answers { (d : Desk) → CompletesFor N.opens N.entries N.session_entries owner.old request (Err result) (standing d (J.account journal.old) pass.old) (standing d (J.account journal.new) pass.new) }
    ensures holder { IsSameHolder owner.old owner.new }
    ensures live { IfSome owner.new (IsOwned N.opens pass.new.log) }
    ensures none { GivesNone N.opens request pass.new.log result }
    ensures refused { FailsToEnter OrNone result }
    ensures ends { EndsBy N.opens N.log_faults N.made (J.account journal.old) (J.account journal.new) pass.new.log result }
{
    let Some(mut right) = owner.take() else {
        unreachable!()
    };
    let declined = journal.refuse(rt, alloc, &mut right, request, pass);
    *owner = Some(right);
    match declined {
        Ok(at) => Fault::OpRefused { at },
        Err(fault) => fault,
    }
}
