//! A change of a key for a request, on the leaf that has the key.
ghost use Rattle.std.specs.Prelude.{◌≡◌, IfErr, IfOk, IfSome, IsSome, OnOk, true};
ghost use mathlib.Core.List.{IsPrefix};
ghost use Rattle.wal_record.specs.Images.{IsLeafOf};
ghost use Rattle.wal_record.specs.Rules.{is_change};
ghost use Rattle.page_ops.specs.Causes.{MeetsNoEnd, OrFull};
ghost use Rattle.page_ops.specs.Claims.{SessionAgrees};
ghost use Rattle.leaf_writes.specs.Changes.{request_of};
ghost use Rattle.leaf_writes.specs.MayChange.{MayChange};
ghost use Rattle.rollback.specs.Rolls.{standing};
ghost use Rattle.engine.specs.Answers.{FailsToAsk};
ghost use Rattle.engine.specs.Completes.{CompletesFor, IsSaidFor};
ghost use Rattle.engine.specs.Saying.{IsSameHolder};
ghost use Rattle.engine.specs.Sittings.{IsOwned, claim_or_none};
ghost use Rattle.engine.specs.Writes.{LacksRoom, MayWrite, asked_by, old_of};

use crate::answered::Answered;
use crate::getting::copy_of;
use crate::telling::tell;
use books::SessionRight;
use foster_tree::lookup;
use front::Pass;
use leaf_writes::{Change, How, write_key};
use page_ops::{Entered, Entering, Held, Life, Pages};
use std::alloc::Global;
use std::sync::Wait;
use store_model::{Fault, Key, Reply, Request, TxId, Value};
use wal_record::Entry;

/// Gives a key a new value, or a tombstone, and answers what it had. A key without a value isn't deleted; that is told
/// alone.
pub(crate) fn write_on<N: Life, J: Entering<N>, P: Pages<N, J>, R: Wait>(
    rt: &R,
    alloc: Global,
    pages: &mut P,
    journal: &mut J,
    leaf: &mut Held<N>,
    owner: &mut Option<SessionRight<N>>,
    key: &Key,
    new: Option<Value>,
    pass: &mut Pass<Entry, N>,
) -> Result<Answered, Fault>
    requires begins { IsPrefix leaf.old.pass.log pass.old.log }
    requires owner { MayWrite N.opens pass.old.log key.now owner.old }
    requires leaf { IsLeafOf key.now leaf.old.state }
    requires reserved { (P.desk pages.old).reserves ≡ true }
    ensures answers { CompletesFor N.opens N.entries N.session_entries owner.old (request_of key.now new) result (standing (P.desk pages.old) (J.account journal.old) pass.old) (standing (P.desk pages.new) (J.account journal.new) pass.new) }
    ensures said { IfOk result (IsSaidFor N.opens owner.old (request_of key.now new) pass.new.log) }
    ensures holder { IsSameHolder owner.old owner.new }
    ensures agrees { OnOk result (IfSome owner.new (SessionAgrees pass.new.log)) }
    ensures live { IfSome owner.new (IsOwned N.opens pass.new.log) }
    ensures out { (P.desk pages.new).out ≡ (P.desk pages.old).out }
    ensures open { OnOk result (MeetsNoEnd (J.account journal.old) (J.account journal.new)) }
    ensures full { IfErr result (LacksRoom N.opens pass.new.log) }
    ensures refused { IfErr result (FailsToAsk OrFull N.opens N.log_faults N.made (P.desk pages.old).faults (P.desk pages.new).faults (J.account journal.old) (J.account journal.new) pass.new.log) }
{
    let old = lookup(&leaf.state, key);
    let named = key.copied();
    if is_change(&old, &new) {
        let change = Change {
            tx: transaction_of(owner),
            key: named,
            new,
            how: How::Write { old },
        };
        return enter_change(rt, alloc, pages, journal, leaf, owner, &change, pass);
    }
    let request = Request::Del(named);
    let told = Ok(Reply::Was(None));
    tell(
        rt,
        alloc,
        journal,
        leaf,
        owner,
        request,
        told,
        Reply::Was(None),
        pass,
    )
}

/// Whether the key has a value before or behind it.
fn is_change(old: &Option<Value>, new: &Option<Value>) -> bool
    ensures { result ≡ is_change old.now new.now }
{
    old.is_some() || new.is_some()
}

/// The session's transaction.
pub(crate) fn transaction_of<N: Life>(owner: &Option<SessionRight<N>>) -> TxId
    ensures { result ≡ (claim_or_none owner.now).tx }
{
    match owner {
        Some(owner) => owner.tx(),
        None => 0,
    }
}

/// Enters a change with its answer, which is the value that the key had.
pub(crate) fn enter_change<N: Life, J: Entering<N>, P: Pages<N, J>, R: Wait>(
    rt: &R,
    alloc: Global,
    pages: &mut P,
    journal: &mut J,
    leaf: &mut Held<N>,
    owner: &mut Option<SessionRight<N>>,
    change: &Change,
    pass: &mut Pass<Entry, N>,
) -> Result<Answered, Fault>
    requires begins { IsPrefix leaf.old.pass.log pass.old.log }
    requires may { MayChange N.opens pass.old.log leaf.old.state change.now owner.old }
    requires asked { IsSome (asked_by change.now.how change.now.key change.now.new) }
    requires leaf { IsLeafOf change.now.key leaf.old.state }
    requires reserved { (P.desk pages.old).reserves ≡ true }
    ensures answers { IfSome (asked_by change.now.how change.now.key change.now.new) (λ request. CompletesFor N.opens N.entries N.session_entries owner.old request result
        (standing (P.desk pages.old) (J.account journal.old) pass.old) (standing (P.desk pages.new) (J.account journal.new) pass.new)) }
    ensures said { IfOk result (λ a. IfSome (asked_by change.now.how change.now.key change.now.new) (λ request. IsSaidFor N.opens owner.old request pass.new.log a)) }
    ensures holder { IsSameHolder owner.old owner.new }
    ensures agrees { OnOk result (IfSome owner.new (SessionAgrees pass.new.log)) }
    ensures live { IfSome owner.new (IsOwned N.opens pass.new.log) }
    ensures out { (P.desk pages.new).out ≡ (P.desk pages.old).out }
    ensures open { OnOk result (MeetsNoEnd (J.account journal.old) (J.account journal.new)) }
    ensures full { IfErr result (LacksRoom N.opens pass.new.log) }
    ensures refused { IfErr result (FailsToAsk OrFull N.opens N.log_faults N.made (P.desk pages.old).faults (P.desk pages.new).faults (J.account journal.old) (J.account journal.new) pass.new.log) }
{
    let old = old_of(&change.how);
    let entered = match write_key(rt, alloc, pages, journal, leaf, owner, change, pass) {
        Ok(entered) => entered,
        Err(fault) => return Err(fault),
    };
    match entered {
        Entered::At(pos) => Ok(Answered {
            pos,
            reply: Reply::Was(old),
        }),
        // Want of room is a fault for what is told, and only an undo comes late.
        _ => unreachable!(),
    }
}

/// The value that the key had.
fn old_of(how: &How) -> Option<Value>
    ensures { result ≡ old_of how.now }
{
    match how {
        How::Write { old } => copy_of(old),
        How::Apply {
            old,
            operator: _,
            argument: _,
        } => copy_of(old),
        How::Undo { undo_next: _ } => None,
    }
}
