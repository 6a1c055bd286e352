//! Puts and dels.
ghost use Rattle.std.specs.Prelude.{◌≡◌, ◌<◌, Err, IfErr, IfOk, IfSome, None, OnOk, Some, false};
ghost use Rattle.store_model.specs.declared.fault.Fault.TheVariants as faults;
ghost use Rattle.store_model.specs.declared.request.Request.TheVariants as requests;
ghost use Rattle.page_ops.specs.Causes.{MeetsNoEnd, OrFull};
ghost use Rattle.page_ops.specs.Claims.{SessionAgrees};
ghost use Rattle.page_ops.specs.Outcomes.{IsConflict};
ghost use Rattle.leaf_writes.specs.Changes.{request_of};
ghost use Rattle.rollback.specs.Rolls.{standing};
ghost use Rattle.engine.specs.Answers.{Answers, FailsToAsk, IsSaidAt};
ghost use Rattle.engine.specs.Completes.{CompletesFor, IsSaidFor, OwnsLock};
ghost use Rattle.engine.specs.Requests.{IsRefusal, lock_of};
ghost use Rattle.engine.specs.Saying.{IsSameHolder};
ghost use Rattle.engine.specs.Sittings.{IsOwned};
ghost use Rattle.engine.specs.Writes.{IsNumbered, LacksRoom, write_lock};

use crate::answered::Answered;
use crate::asking::lock_for;
use crate::changing::write_on;
use crate::seeing::see_owner;
use crate::session::Session;
use adoption::find_leaf_for_write;
use books::SessionRight;
use front::Pass;
use page_ops::{Entering, Journaling, Life, Pages};
use std::alloc::Global;
use std::sync::Wait;
use store_model::{Fault, Key, KeyRange, Mode, Value};
use wal_record::Entry;

/// Puts a value to a key, for the session's transaction, and answers the value that it had, under an exclusive lock of the
/// key. `NotActive` where the session has no transaction, and then all is as before. `Conflict` where another live
/// transaction has the key locked. `Full` where no room is left for a write and its undo: the request is then declined, and
/// the transaction stays. A loser that has the key locked is undone first; that stays done behind every refusal, and so do
/// the lock and what keeps the tree up.
pub fn put<N: Life, J: Journaling<N>, P: Pages<N, J>, R: Wait>(
    rt: &R,
    alloc: Global,
    pages: &mut P,
    journal: &mut J,
    session: &mut Session<N>,
    key: &Key,
    value: Value,
) -> Result<Answered, Fault>
    requires none { (P.desk pages.old).out ≡ 0 }
    requires reserved { (P.desk pages.old).reserves ≡ false }
    ensures idle { session.old.claim.tx ≡ 0 → (result ≡ Err faults.NotActive) × (session.new ≡ session.old) × (J.account journal.new ≡ J.account journal.old) }
    ensures answers { 0 < session.old.claim.tx → Answers N.opens N.entries N.session_entries session.old.claim (requests.Put key.now value) result
        (standing (P.desk pages.old) (J.account journal.old) session.old.seen) (standing (P.desk pages.new) (J.account journal.new) session.new.seen) }
    ensures said { IfOk result (IsSaidAt N.opens session.old.claim (requests.Put key.now value) session.new.seen.log) }
    ensures agrees { OnOk result (SessionAgrees session.new.seen.log session.new.claim) }
    ensures holder { (session.new.claim.session ≡ session.old.claim.session) × (session.new.claim.tx ≡ session.old.claim.tx) }
    ensures conflict { IfErr result (IsConflict N.opens session.new.seen.log (lock_of (requests.Put key.now value))) }
    ensures full { IfErr result (LacksRoom N.opens session.new.seen.log) }
    ensures none { (P.desk pages.new).out ≡ 0 }
    ensures reserved { (P.desk pages.new).reserves ≡ false }
    ensures open { OnOk result (MeetsNoEnd (J.account journal.old) (J.account journal.new)) }
    ensures refused { 0 < session.old.claim.tx → IfErr result (FailsToAsk (IsRefusal (requests.Put key.now value)) N.opens N.log_faults N.made
        (P.desk pages.old).faults (P.desk pages.new).faults (J.account journal.old) (J.account journal.new) session.new.seen.log) }
{
    write(rt, alloc, pages, journal, session, key, Some(value))
}

/// Deletes a key, for the session's transaction, and answers the value that it had. It is refused as a put is; where the
/// key has no value, nothing is written, and no room is wanted.
pub fn del<N: Life, J: Journaling<N>, P: Pages<N, J>, R: Wait>(
    rt: &R,
    alloc: Global,
    pages: &mut P,
    journal: &mut J,
    session: &mut Session<N>,
    key: &Key,
) -> Result<Answered, Fault>
    requires none { (P.desk pages.old).out ≡ 0 }
    requires reserved { (P.desk pages.old).reserves ≡ false }
    ensures idle { session.old.claim.tx ≡ 0 → (result ≡ Err faults.NotActive) × (session.new ≡ session.old) × (J.account journal.new ≡ J.account journal.old) }
    ensures answers { 0 < session.old.claim.tx → Answers N.opens N.entries N.session_entries session.old.claim (requests.Del key.now) result
        (standing (P.desk pages.old) (J.account journal.old) session.old.seen) (standing (P.desk pages.new) (J.account journal.new) session.new.seen) }
    ensures said { IfOk result (IsSaidAt N.opens session.old.claim (requests.Del key.now) session.new.seen.log) }
    ensures agrees { OnOk result (SessionAgrees session.new.seen.log session.new.claim) }
    ensures holder { (session.new.claim.session ≡ session.old.claim.session) × (session.new.claim.tx ≡ session.old.claim.tx) }
    ensures conflict { IfErr result (IsConflict N.opens session.new.seen.log (lock_of (requests.Del key.now))) }
    ensures full { IfErr result (LacksRoom N.opens session.new.seen.log) }
    ensures none { (P.desk pages.new).out ≡ 0 }
    ensures reserved { (P.desk pages.new).reserves ≡ false }
    ensures open { OnOk result (MeetsNoEnd (J.account journal.old) (J.account journal.new)) }
    ensures refused { 0 < session.old.claim.tx → IfErr result (FailsToAsk (IsRefusal (requests.Del key.now)) N.opens N.log_faults N.made
        (P.desk pages.old).faults (P.desk pages.new).faults (J.account journal.old) (J.account journal.new) session.new.seen.log) }
{
    write(rt, alloc, pages, journal, session, key, None)
}

/// Gives a key a new value, or none.
fn write<N: Life, J: Journaling<N>, P: Pages<N, J>, R: Wait>(
    rt: &R,
    alloc: Global,
    pages: &mut P,
    journal: &mut J,
    session: &mut Session<N>,
    key: &Key,
    new: Option<Value>,
) -> Result<Answered, Fault>
    requires none { (P.desk pages.old).out ≡ 0 }
    requires reserved { (P.desk pages.old).reserves ≡ false }
    ensures idle { session.old.claim.tx ≡ 0 → (result ≡ Err faults.NotActive) × (session.new ≡ session.old) × (J.account journal.new ≡ J.account journal.old) }
    ensures answers { 0 < session.old.claim.tx → Answers N.opens N.entries N.session_entries session.old.claim (request_of key.now new) result
        (standing (P.desk pages.old) (J.account journal.old) session.old.seen) (standing (P.desk pages.new) (J.account journal.new) session.new.seen) }
    ensures said { IfOk result (IsSaidAt N.opens session.old.claim (request_of key.now new) session.new.seen.log) }
    ensures agrees { OnOk result (SessionAgrees session.new.seen.log session.new.claim) }
    ensures holder { (session.new.claim.session ≡ session.old.claim.session) × (session.new.claim.tx ≡ session.old.claim.tx) }
    ensures conflict { IfErr result (IsConflict N.opens session.new.seen.log (write_lock key.now)) }
    ensures full { IfErr result (LacksRoom N.opens session.new.seen.log) }
    ensures none { (P.desk pages.new).out ≡ 0 }
    ensures reserved { (P.desk pages.new).reserves ≡ false }
    ensures open { OnOk result (MeetsNoEnd (J.account journal.old) (J.account journal.new)) }
    ensures refused { 0 < session.old.claim.tx → IfErr result (FailsToAsk (IsRefusal (request_of key.now new)) N.opens N.log_faults N.made
        (P.desk pages.old).faults (P.desk pages.new).faults (J.account journal.old) (J.account journal.new) session.new.seen.log) }
{
    if !session.is_active() {
        return Err(Fault::NotActive);
    }
    match lock_for(
        rt,
        alloc,
        pages,
        journal,
        session,
        &KeyRange::point(key),
        Mode::Exclusive,
    ) {
        Ok(_) => write_locked(
            rt,
            alloc,
            pages,
            journal,
            &mut session.right,
            key,
            new,
            &mut session.pass,
        ),
        Err(fault) => Err(fault),
    }
}

/// The same, where the key is locked.
fn write_locked<N: Life, J: Entering<N>, P: Pages<N, J>, R: Wait>(
    rt: &R,
    alloc: Global,
    pages: &mut P,
    journal: &mut J,
    owner: &mut Option<SessionRight<N>>,
    key: &Key,
    new: Option<Value>,
    pass: &mut Pass<Entry, N>,
) -> Result<Answered, Fault>
    requires none { (P.desk pages.old).out ≡ 0 }
    requires locked { OwnsLock N.opens pass.old.log (write_lock key.now) owner.old }
    requires number { IsNumbered owner.old }
    ensures answers { CompletesFor N.opens N.entries N.session_entries owner.old (request_of key.now new) result (standing (P.desk pages.old) (J.account journal.old) pass.old) (standing (P.desk pages.new) (J.account journal.new) pass.new) }
    ensures said { IfOk result (IsSaidFor N.opens owner.old (request_of key.now new) pass.new.log) }
    ensures holder { IsSameHolder owner.old owner.new }
    ensures agrees { OnOk result (IfSome owner.new (SessionAgrees pass.new.log)) }
    ensures live { IfSome owner.new (IsOwned N.opens pass.new.log) }
    ensures none { (P.desk pages.new).out ≡ 0 }
    ensures reserved { (P.desk pages.new).reserves ≡ false }
    ensures open { OnOk result (MeetsNoEnd (J.account journal.old) (J.account journal.new)) }
    ensures full { IfErr result (LacksRoom N.opens pass.new.log) }
    ensures refused { IfErr result (FailsToAsk OrFull N.opens N.log_faults N.made (P.desk pages.old).faults (P.desk pages.new).faults (J.account journal.old) (J.account journal.new) pass.new.log) }
{
    let answered = write_found(rt, alloc, pages, journal, owner, key, new, pass);
    pages.drop_new(rt);
    answered
}

/// The same, where a frame for a new page may stay reserved.
fn write_found<N: Life, J: Entering<N>, P: Pages<N, J>, R: Wait>(
    rt: &R,
    alloc: Global,
    pages: &mut P,
    journal: &mut J,
    owner: &mut Option<SessionRight<N>>,
    key: &Key,
    new: Option<Value>,
    pass: &mut Pass<Entry, N>,
) -> Result<Answered, Fault>
    requires none { (P.desk pages.old).out ≡ 0 }
    requires locked { OwnsLock N.opens pass.old.log (write_lock key.now) owner.old }
    requires number { IsNumbered owner.old }
    ensures answers { CompletesFor N.opens N.entries N.session_entries owner.old (request_of key.now new) result (standing (P.desk pages.old) (J.account journal.old) pass.old) (standing (P.desk pages.new) (J.account journal.new) pass.new) }
    ensures said { IfOk result (IsSaidFor N.opens owner.old (request_of key.now new) pass.new.log) }
    ensures holder { IsSameHolder owner.old owner.new }
    ensures agrees { OnOk result (IfSome owner.new (SessionAgrees pass.new.log)) }
    ensures live { IfSome owner.new (IsOwned N.opens pass.new.log) }
    ensures none { (P.desk pages.new).out ≡ 0 }
    ensures open { OnOk result (MeetsNoEnd (J.account journal.old) (J.account journal.new)) }
    ensures full { IfErr result (LacksRoom N.opens pass.new.log) }
    ensures refused { IfErr result (FailsToAsk OrFull N.opens N.log_faults N.made (P.desk pages.old).faults (P.desk pages.new).faults (J.account journal.old) (J.account journal.new) pass.new.log) }
{
    let mut leaf = match find_leaf_for_write(rt, alloc, pages, journal, key.as_bytes(), pass) {
        Ok(leaf) => leaf,
        Err(fault) => return Err(fault),
    };
    see_owner(rt, journal, owner, pass);
    let answered = write_on(rt, alloc, pages, journal, &mut leaf, owner, key, new, pass);
    pages.put_back(rt, &mut Some(leaf));
    answered
}
