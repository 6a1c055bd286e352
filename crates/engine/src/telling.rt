//! A request that is answered alone, from its leaf in hand.
ghost use Rattle.std.specs.Prelude.{◌≡◌, IfErr, IfOk, IfSome, OnOk};
ghost use mathlib.Core.List.{IsPrefix};
ghost use Rattle.page_ops.specs.Causes.{Ends, FailsToEnter, MeetsNoEnd, NoOther};
ghost use Rattle.page_ops.specs.Claims.{SessionAgrees};
ghost use Rattle.page_ops.specs.Desks.{Desk};
ghost use Rattle.rollback.specs.Rolls.{standing};
ghost use Rattle.engine.specs.Completes.{CompletesFor, IsSaidFor};
ghost use Rattle.engine.specs.Saying.{KeepsHolder, MaySay, MaySpeak};
ghost use Rattle.engine.specs.Sittings.{IsOwned};

use crate::answered::Answered;
use crate::saying::say;
use books::SessionRight;
use front::Pass;
use page_ops::{Entering, Held, Life};
use std::alloc::Global;
use std::sync::Wait;
use store_model::{Fault, Memory, Reply, Request};
use wal_record::Entry;

/// Answers a request by this reply, of which the history keeps `told`, the same again. Where there was no memory for that,
/// nothing is entered.
pub(crate) fn tell<N: Life, J: Entering<N>, R: Wait>(
    rt: &R,
    alloc: Global,
    journal: &mut J,
    leaf: &mut Held<N>,
    owner: &mut Option<SessionRight<N>>,
    request: Request,
    told: Result<Reply, Memory>,
    reply: Reply,
    pass: &mut Pass<Entry, N>,
) -> Result<Answered, Fault>
    requires begins { IsPrefix leaf.old.pass.log pass.old.log }
    requires owner { MaySpeak N.opens pass.old.log owner.old }
    requires may { IfOk told (MaySay N.opens pass.old.log leaf.old owner.old request) }
    requires same { IfOk told (λ r. r ≡ reply) }
    ensures answers { (d : Desk) → CompletesFor N.opens N.entries N.session_entries owner.old request result (standing d (J.account journal.old) pass.old) (standing d (J.account journal.new) pass.new) }
    ensures said { IfOk result (IsSaidFor N.opens owner.old request pass.new.log) }
    ensures holder { KeepsHolder result owner.old owner.new }
    ensures agrees { OnOk result (IfSome owner.new (SessionAgrees pass.new.log)) }
    ensures live { IfSome owner.new (IsOwned N.opens pass.new.log) }
    ensures open { OnOk result (MeetsNoEnd (J.account journal.old) (J.account journal.new)) }
    ensures refused { IfErr result (FailsToEnter NoOther) }
    ensures ends { Ends N.opens N.log_faults N.made (J.account journal.old) (J.account journal.new) pass.new.log result }
{
    match say(rt, alloc, journal, leaf, owner, request, told, pass) {
        Ok(pos) => Ok(Answered { pos, reply }),
        Err(fault) => Err(fault),
    }
}
