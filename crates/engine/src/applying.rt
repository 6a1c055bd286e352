//! Operators.
ghost use Rattle.std.specs.Prelude.{◌≡◌, ◌<◌, Err, IfErr, IfOk, IfSome, OnOk, false, true};
ghost use mathlib.Core.List.{IsPrefix};
ghost use Rattle.store_model.specs.Operator.{meaning};
ghost use Rattle.store_model.specs.declared.fault.Fault.TheVariants as faults;
ghost use Rattle.store_model.specs.declared.request.Request.TheVariants as requests;
ghost use Rattle.wal_record.specs.Images.{IsLeafOf};
ghost use Rattle.page_ops.specs.Causes.{MeetsNoEnd};
ghost use Rattle.page_ops.specs.Claims.{SessionAgrees};
ghost use Rattle.page_ops.specs.Outcomes.{IsConflict};
ghost use Rattle.rollback.specs.Rolls.{standing};
ghost use Rattle.engine.specs.Answers.{Answers, FailsToAsk, IsSaidAt};
ghost use Rattle.engine.specs.Applies.{GivesNone, IsReadBy, OrDeclined};
ghost use Rattle.engine.specs.Completes.{CompletesFor, IsSaidFor, OwnsLock};
ghost use Rattle.engine.specs.Requests.{IsRefusal, lock_of};
ghost use Rattle.engine.specs.Saying.{IsSameHolder};
ghost use Rattle.engine.specs.Sittings.{IsOwned};
ghost use Rattle.engine.specs.Writes.{IsNumbered, LacksRoom, MayWrite, write_lock};

use crate::answered::Answered;
use crate::asking::lock_for;
use crate::changing::{enter_change, transaction_of};
use crate::declining::decline;
use crate::seeing::see_owner;
use crate::session::Session;
use adoption::find_leaf_for_write;
use books::SessionRight;
use foster_tree::lookup;
use front::Pass;
use leaf_writes::{Change, How};
use operators::Operators;
use page_ops::{Entering, Held, Journaling, Life, Pages};
use std::alloc::Global;
use std::sync::Wait;
use store_model::{Fault, Key, KeyRange, Mode, OpValue, Request, Value};
use wal_record::Entry;

/// Gives a key what an operator makes of its value and an argument, for the session's transaction, and answers the value
/// that it had. It is refused as a put is; and with `OpRefused` where the operator gives no value, whether or not there is
/// room: the request is then declined, and the transaction stays.
pub fn apply<N: Life, J: Journaling<N>, P: Pages<N, J>, R: Wait>(
    rt: &R,
    alloc: Global,
    pages: &mut P,
    journal: &mut J,
    session: &mut Session<N>,
    operators: &Operators,
    operator: u8,
    key: &Key,
    argument: OpValue,
) -> Result<Answered, Fault>
    requires none { (P.desk pages.old).out ≡ 0 }
    requires reserved { (P.desk pages.old).reserves ≡ false }
    ensures idle { session.old.claim.tx ≡ 0 → (result ≡ Err faults.NotActive) × (session.new ≡ session.old) × (J.account journal.new ≡ J.account journal.old) }
    ensures answers { 0 < session.old.claim.tx → Answers N.opens N.entries N.session_entries session.old.claim (requests.Apply operator key.now argument) result
        (standing (P.desk pages.old) (J.account journal.old) session.old.seen) (standing (P.desk pages.new) (J.account journal.new) session.new.seen) }
    ensures said { IfOk result (IsSaidAt N.opens session.old.claim (requests.Apply operator key.now argument) session.new.seen.log) }
    ensures agrees { OnOk result (SessionAgrees session.new.seen.log session.new.claim) }
    ensures holder { (session.new.claim.session ≡ session.old.claim.session) × (session.new.claim.tx ≡ session.old.claim.tx) }
    ensures conflict { IfErr result (IsConflict N.opens session.new.seen.log (lock_of (requests.Apply operator key.now argument))) }
    ensures full { IfErr result (LacksRoom N.opens session.new.seen.log) }
    ensures gives_none { IfErr result (GivesNone N.opens (requests.Apply operator key.now argument) session.new.seen.log) }
    ensures none { (P.desk pages.new).out ≡ 0 }
    ensures reserved { (P.desk pages.new).reserves ≡ false }
    ensures open { OnOk result (MeetsNoEnd (J.account journal.old) (J.account journal.new)) }
    ensures refused { 0 < session.old.claim.tx → IfErr result (FailsToAsk (IsRefusal (requests.Apply operator key.now argument)) N.opens N.log_faults N.made
        (P.desk pages.old).faults (P.desk pages.new).faults (J.account journal.old) (J.account journal.new) session.new.seen.log) }
{
    if !session.is_active() {
        return Err(Fault::NotActive);
    }
    match lock_for(
        rt,
        alloc,
        pages,
        journal,
        session,
        &KeyRange::point(key),
        Mode::Exclusive,
    ) {
        Ok(_) => apply_locked(
            rt,
            alloc,
            pages,
            journal,
            &mut session.right,
            operators,
            operator,
            key,
            argument,
            &mut session.pass,
        ),
        Err(fault) => Err(fault),
    }
}

/// The same, where the key is locked.
fn apply_locked<N: Life, J: Journaling<N>, P: Pages<N, J>, R: Wait>(
    rt: &R,
    alloc: Global,
    pages: &mut P,
    journal: &mut J,
    owner: &mut Option<SessionRight<N>>,
    operators: &Operators,
    operator: u8,
    key: &Key,
    argument: OpValue,
    pass: &mut Pass<Entry, N>,
) -> Result<Answered, Fault>
    requires none { (P.desk pages.old).out ≡ 0 }
    requires locked { OwnsLock N.opens pass.old.log (write_lock key.now) owner.old }
    requires number { IsNumbered owner.old }
    ensures answers { CompletesFor N.opens N.entries N.session_entries owner.old (requests.Apply operator key.now argument) result
        (standing (P.desk pages.old) (J.account journal.old) pass.old) (standing (P.desk pages.new) (J.account journal.new) pass.new) }
    ensures said { IfOk result (IsSaidFor N.opens owner.old (requests.Apply operator key.now argument) pass.new.log) }
    ensures holder { IsSameHolder owner.old owner.new }
    ensures agrees { OnOk result (IfSome owner.new (SessionAgrees pass.new.log)) }
    ensures live { IfSome owner.new (IsOwned N.opens pass.new.log) }
    ensures none { (P.desk pages.new).out ≡ 0 }
    ensures reserved { (P.desk pages.new).reserves ≡ false }
    ensures open { OnOk result (MeetsNoEnd (J.account journal.old) (J.account journal.new)) }
    ensures full { IfErr result (LacksRoom N.opens pass.new.log) }
    ensures gives_none { IfErr result (GivesNone N.opens (requests.Apply operator key.now argument) pass.new.log) }
    ensures refused { IfErr result (FailsToAsk OrDeclined N.opens N.log_faults N.made (P.desk pages.old).faults (P.desk pages.new).faults (J.account journal.old) (J.account journal.new) pass.new.log) }
{
    let answered = apply_found(
        rt, alloc, pages, journal, owner, operators, operator, key, argument, pass,
    );
    pages.drop_new(rt);
    answered
}

/// The same, where a frame for a new page may stay reserved.
fn apply_found<N: Life, J: Journaling<N>, P: Pages<N, J>, R: Wait>(
    rt: &R,
    alloc: Global,
    pages: &mut P,
    journal: &mut J,
    owner: &mut Option<SessionRight<N>>,
    operators: &Operators,
    operator: u8,
    key: &Key,
    argument: OpValue,
    pass: &mut Pass<Entry, N>,
) -> Result<Answered, Fault>
    requires none { (P.desk pages.old).out ≡ 0 }
    requires locked { OwnsLock N.opens pass.old.log (write_lock key.now) owner.old }
    requires number { IsNumbered owner.old }
    ensures answers { CompletesFor N.opens N.entries N.session_entries owner.old (requests.Apply operator key.now argument) result
        (standing (P.desk pages.old) (J.account journal.old) pass.old) (standing (P.desk pages.new) (J.account journal.new) pass.new) }
    ensures said { IfOk result (IsSaidFor N.opens owner.old (requests.Apply operator key.now argument) pass.new.log) }
    ensures holder { IsSameHolder owner.old owner.new }
    ensures agrees { OnOk result (IfSome owner.new (SessionAgrees pass.new.log)) }
    ensures live { IfSome owner.new (IsOwned N.opens pass.new.log) }
    ensures none { (P.desk pages.new).out ≡ 0 }
    ensures open { OnOk result (MeetsNoEnd (J.account journal.old) (J.account journal.new)) }
    ensures full { IfErr result (LacksRoom N.opens pass.new.log) }
    ensures gives_none { IfErr result (GivesNone N.opens (requests.Apply operator key.now argument) pass.new.log) }
    ensures refused { IfErr result (FailsToAsk OrDeclined N.opens N.log_faults N.made (P.desk pages.old).faults (P.desk pages.new).faults (J.account journal.old) (J.account journal.new) pass.new.log) }
{
    let mut leaf = match find_leaf_for_write(rt, alloc, pages, journal, key.as_bytes(), pass) {
        Ok(leaf) => leaf,
        Err(fault) => return Err(fault),
    };
    see_owner(rt, journal, owner, pass);
    let answered = apply_on(
        rt, alloc, pages, journal, &mut leaf, owner, operators, operator, key, argument, pass,
    );
    pages.put_back(rt, &mut Some(leaf));
    answered
}

/// Gives a key what the operator makes of its value on its leaf, and answers what it had; or declines that.
fn apply_on<N: Life, J: Journaling<N>, P: Pages<N, J>, R: Wait>(
    rt: &R,
    alloc: Global,
    pages: &mut P,
    journal: &mut J,
    leaf: &mut Held<N>,
    owner: &mut Option<SessionRight<N>>,
    operators: &Operators,
    operator: u8,
    key: &Key,
    argument: OpValue,
    pass: &mut Pass<Entry, N>,
) -> Result<Answered, Fault>
    requires begins { IsPrefix leaf.old.pass.log pass.old.log }
    requires owner { MayWrite N.opens pass.old.log key.now owner.old }
    requires read { IsReadBy N.opens pass.old.log (write_lock key.now) leaf.old owner.old }
    requires leaf { IsLeafOf key.now leaf.old.state }
    requires reserved { (P.desk pages.old).reserves ≡ true }
    ensures answers { CompletesFor N.opens N.entries N.session_entries owner.old (requests.Apply operator key.now argument) result
        (standing (P.desk pages.old) (J.account journal.old) pass.old) (standing (P.desk pages.new) (J.account journal.new) pass.new) }
    ensures said { IfOk result (IsSaidFor N.opens owner.old (requests.Apply operator key.now argument) pass.new.log) }
    ensures holder { IsSameHolder owner.old owner.new }
    ensures agrees { OnOk result (IfSome owner.new (SessionAgrees pass.new.log)) }
    ensures live { IfSome owner.new (IsOwned N.opens pass.new.log) }
    ensures out { (P.desk pages.new).out ≡ (P.desk pages.old).out }
    ensures open { OnOk result (MeetsNoEnd (J.account journal.old) (J.account journal.new)) }
    ensures full { IfErr result (LacksRoom N.opens pass.new.log) }
    ensures gives_none { IfErr result (GivesNone N.opens (requests.Apply operator key.now argument) pass.new.log) }
    ensures refused { IfErr result (FailsToAsk OrDeclined N.opens N.log_faults N.made (P.desk pages.old).faults (P.desk pages.new).faults (J.account journal.old) (J.account journal.new) pass.new.log) }
{
    let old = lookup(&leaf.state, key);
    let named = key.copied();
    let new = made_by(operators, operator, &old, &argument);
    if new.is_some() {
        let change = Change {
            tx: transaction_of(owner),
            key: named,
            new,
            how: How::Apply {
                old,
                operator,
                argument,
            },
        };
        return enter_change(rt, alloc, pages, journal, leaf, owner, &change, pass);
    }
    let request = Request::Apply {
        operator,
        key: named,
        argument,
    };
    Err(decline(rt, alloc, journal, owner, request, pass))
}

/// What the operator makes of a key's value.
fn made_by(
    operators: &Operators,
    operator: u8,
    old: &Option<Value>,
    argument: &OpValue,
) -> Option<Value>
    ensures { result ≡ meaning operator old.now argument.now }
{
    match operators.apply(operator, old.as_ref(), argument) {
        Some(made) => Value::new(made.as_bytes()),
        None => None,
    }
}
