//! Get.
ghost use Rattle.std.specs.Prelude.{◌≡◌, ◌<◌, false, IfErr, IfOk, IfSome, OnOk};
ghost use Rattle.store_model.specs.declared.request.Request.TheVariants as requests;
ghost use Rattle.page_ops.specs.Causes.{FailsToBring, MeetsNoEnd};
ghost use Rattle.page_ops.specs.Claims.{SessionAgrees};
ghost use Rattle.rollback.specs.Rolls.{standing};
ghost use Rattle.engine.specs.Completes.{CompletesFor, IsSaidFor, OwnsLock};
ghost use Rattle.engine.specs.Requests.{lock_of};
ghost use Rattle.engine.specs.Saying.{KeepsHolder};
ghost use Rattle.engine.specs.Sittings.{IsOwned};

use crate::answered::Answered;
use crate::saying::say;
use crate::seeing::see_owner;
use books::SessionRight;
use foster_tree::{find_leaf, lookup};
use front::Pass;
use page_ops::{Journaling, Life, Pages};
use std::alloc::Global;
use std::sync::Wait;
use store_model::{Fault, Key, Reply, Request, Value};
use wal_record::Entry;

/// Answers a get whose key is locked, by the leaf of the key.
pub(crate) fn get_locked<N: Life, J: Journaling<N>, P: Pages<N, J>, R: Wait>(
    rt: &R,
    alloc: Global,
    pages: &mut P,
    journal: &mut J,
    owner: &mut Option<SessionRight<N>>,
    key: &Key,
    pass: &mut Pass<Entry, N>,
) -> Result<Answered, Fault>
    requires none { (P.desk pages.old).out ≡ 0 }
    requires reserved { (P.desk pages.old).reserves ≡ false }
    requires locked { OwnsLock N.opens pass.old.log (lock_of (requests.Get key.now)) owner.old }
    ensures answers { CompletesFor N.opens N.entries N.session_entries owner.old (requests.Get key.now) result (standing (P.desk pages.old) (J.account journal.old) pass.old) (standing (P.desk pages.new) (J.account journal.new) pass.new) }
    ensures said { IfOk result (IsSaidFor N.opens owner.old (requests.Get key.now) pass.new.log) }
    ensures holder { KeepsHolder result owner.old owner.new }
    ensures agrees { OnOk result (IfSome owner.new (SessionAgrees pass.new.log)) }
    ensures live { IfSome owner.new (IsOwned N.opens pass.new.log) }
    ensures none { (P.desk pages.new).out ≡ 0 }
    ensures reserved { (P.desk pages.new).reserves ≡ false }
    ensures open { OnOk result (MeetsNoEnd (J.account journal.old) (J.account journal.new)) }
    ensures refused { IfErr result (FailsToBring N.opens N.log_faults N.made (P.desk pages.old).faults (P.desk pages.new).faults (J.account journal.old) (J.account journal.new) pass.new.log) }
{
    let mut leaf = match find_leaf(rt, alloc, pages, journal, key.as_bytes(), pass) {
        Ok(leaf) => leaf,
        Err(fault) => return Err(fault),
    };
    see_owner(rt, journal, owner, pass);
    let value = lookup(&leaf.state, key);
    let reply = Reply::Found(copy_of(&value));
    let request = Request::Get(key.copied());
    let said = say(
        rt,
        alloc,
        journal,
        &mut leaf,
        owner,
        request,
        Ok(Reply::Found(value)),
        pass,
    );
    pages.put_back(rt, &mut Some(leaf));
    match said {
        Ok(pos) => Ok(Answered { pos, reply }),
        Err(fault) => Err(fault),
    }
}

/// The same value again, if there is one. It takes no memory.
pub(crate) fn copy_of(value: &Option<Value>) -> Option<Value>
    ensures { result ≡ value.now }
{
    match value {
        Some(value) => Some(value.copied()),
        None => None,
    }
}
