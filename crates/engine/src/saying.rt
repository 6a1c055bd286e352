//! An answer without a record, told from the leaf in hand.
ghost use Rattle.std.specs.Prelude.{◌≡◌, length, Ok, Err, IfErr, IfOk, IsSome};
ghost use Rattle.store_model.specs.declared.fault.Fault.TheVariants as faults;
ghost use mathlib.Core.List.{IsPrefix};
ghost use Rattle.page_ops.specs.Causes.{Ends, FailsToEnter, NoOther};
ghost use Rattle.engine.specs.Saying.{KeepsHolder, MaySay, Says, told_alone};

use books::SessionRight;
use front::Pass;
use page_ops::{Entered, Entering, Group, Held, Life, Rights, Said};
use smo::ask;
use std::alloc::Global;
use std::sync::Wait;
use store_model::{Fault, List, Memory, Pos, Reply, Request};
use wal_record::Entry;

/// Enters the answer of a session's request, by the right to the leaf from which it is read, and tells where it stands.
/// Where there was no memory for the reply, nothing is entered.
pub(crate) fn say<N: Life, J: Entering<N>, R: Wait>(
    rt: &R,
    alloc: Global,
    journal: &mut J,
    leaf: &mut Held<N>,
    owner: &mut Option<SessionRight<N>>,
    request: Request,
    reply: Result<Reply, Memory>,
    pass: &mut Pass<Entry, N>,
) -> Result<Pos, Fault>
    requires begins { IsPrefix leaf.old.pass.log pass.old.log }
    requires owner { IsSome owner.old }
    requires may { IfOk reply (MaySay N.opens pass.old.log leaf.old owner.old request) }
    ensures says { Says N.opens N.entries N.session_entries result request reply leaf.old owner.old owner.new (J.account journal.old) (J.account journal.new) pass.old pass.new }
    ensures made { IfErr reply (λ memory. result ≡ Err faults.Memory) }
    ensures place { IfOk result (λ pos. pos ≡ length pass.new.log) }
    ensures holder { KeepsHolder result owner.old owner.new }
    ensures refused { IfErr result (FailsToEnter NoOther) }
    ensures ends { Ends N.opens N.log_faults N.made (J.account journal.old) (J.account journal.new) pass.new.log result }
{
    let made = group_of(alloc, owner, request, reply);
    let mut rights = Rights::none();
    rights.a = leaf.right.take();
    rights.s = owner.take();
    let answer = ask(rt, alloc, journal, made, &mut rights, pass);
    *owner = rights.s.take();
    let Some(right) = rights.a.take() else {
        unreachable!()
    };
    leaf.lsn = right.lsn();
    leaf.right = Some(right);
    let entered = match answer {
        Ok(entered) => entered,
        Err(fault) => return Err(fault),
    };
    match entered {
        Entered::At(pos) => Ok(pos),
        _ => unreachable!(),
    }
}

/// The group of the answer.
fn group_of<N: Life>(
    alloc: Global,
    owner: &Option<SessionRight<N>>,
    request: Request,
    reply: Result<Reply, Memory>,
) -> Result<Group, Memory>
    ensures made { IfOk reply (λ r. result ≡ Ok (told_alone owner.now request r)) }
    ensures none { IfErr reply (λ memory. result ≡ Err memory) }
{
    let reply = match reply {
        Ok(reply) => reply,
        Err(memory) => return Err(memory),
    };
    let said = match owner {
        Some(owner) => Some(Said {
            session: owner.session(),
            tx: owner.tx(),
            request,
            reply,
        }),
        None => None,
    };
    Ok(Group {
        recs: List::new(alloc),
        said,
        room: false,
        lsn: 0,
    })
}
