//! Scans.
ghost use Rattle.std.specs.Prelude.{◌≡◌, ◌<◌, ◌++◌, ◌∷◌, [], Err, IfErr, IfOk, IfSome, OnOk, false};
ghost use Rattle.store_model.specs.declared.fault.Fault.TheVariants as faults;
ghost use Rattle.store_model.specs.declared.reply.Reply.TheVariants as replies;
ghost use Rattle.store_model.specs.declared.request.Request.TheVariants as requests;
ghost use Rattle.page_ops.specs.Causes.{MeetsNoEnd, NoOther};
ghost use Rattle.page_ops.specs.Claims.{SessionAgrees};
ghost use Rattle.page_ops.specs.Outcomes.{IsConflict};
ghost use Rattle.rollback.specs.Rolls.{standing};
ghost use Rattle.engine.specs.Answers.{Answers, FailsToAsk, IsSaidAt};
ghost use Rattle.engine.specs.Completes.{CompletesFor, IsSaidFor, OwnsLock};
ghost use Rattle.engine.specs.Requests.{IsRefusal, lock_of};
ghost use Rattle.engine.specs.Saying.{KeepsHolder};
ghost use Rattle.engine.specs.Sittings.{IsOwned};

use crate::answered::Answered;
use crate::asking::lock_for;
use crate::seeing::see_owner;
use crate::session::Session;
use crate::telling::tell;
use books::SessionRight;
use foster_tree::scan_leafs;
use front::Pass;
use page_ops::{Journaling, Life, Pages};
use std::alloc::Global;
use std::sync::Wait;
use store_model::{Fault, KeyRange, List, Memory, Mode, Pair, Reply, Request};
use wal_record::Entry;

/// Answers a scan of the session's transaction: the pairs of a range, in rising key order, under a shared lock of the
/// range. It is refused as a get is.
pub fn scan<N: Life, J: Journaling<N>, P: Pages<N, J>, R: Wait>(
    rt: &R,
    alloc: Global,
    pages: &mut P,
    journal: &mut J,
    session: &mut Session<N>,
    range: KeyRange,
) -> Result<Answered, Fault>
    requires none { (P.desk pages.old).out ≡ 0 }
    requires reserved { (P.desk pages.old).reserves ≡ false }
    ensures idle { session.old.claim.tx ≡ 0 → (result ≡ Err faults.NotActive) × (session.new ≡ session.old) × (J.account journal.new ≡ J.account journal.old) }
    ensures answers { 0 < session.old.claim.tx → Answers N.opens N.entries N.session_entries session.old.claim (requests.Scan range) result
        (standing (P.desk pages.old) (J.account journal.old) session.old.seen) (standing (P.desk pages.new) (J.account journal.new) session.new.seen) }
    ensures said { IfOk result (IsSaidAt N.opens session.old.claim (requests.Scan range) session.new.seen.log) }
    ensures agrees { OnOk result (SessionAgrees session.new.seen.log session.new.claim) }
    ensures holder { (session.new.claim.session ≡ session.old.claim.session) × (session.new.claim.tx ≡ session.old.claim.tx) }
    ensures conflict { IfErr result (IsConflict N.opens session.new.seen.log (lock_of (requests.Scan range))) }
    ensures none { (P.desk pages.new).out ≡ 0 }
    ensures reserved { (P.desk pages.new).reserves ≡ false }
    ensures open { OnOk result (MeetsNoEnd (J.account journal.old) (J.account journal.new)) }
    ensures refused { 0 < session.old.claim.tx → IfErr result (FailsToAsk (IsRefusal (requests.Scan range)) N.opens N.log_faults N.made
        (P.desk pages.old).faults (P.desk pages.new).faults (J.account journal.old) (J.account journal.new) session.new.seen.log) }
{
    if !session.is_active() {
        return Err(Fault::NotActive);
    }
    match lock_for(rt, alloc, pages, journal, session, &range, Mode::Shared) {
        Ok(_) => scan_locked(
            rt,
            alloc,
            pages,
            journal,
            &mut session.right,
            range,
            &mut session.pass,
        ),
        Err(fault) => Err(fault),
    }
}

/// Answers a scan whose range is locked, by the leaf with the range's last part.
fn scan_locked<N: Life, J: Journaling<N>, P: Pages<N, J>, R: Wait>(
    rt: &R,
    alloc: Global,
    pages: &mut P,
    journal: &mut J,
    owner: &mut Option<SessionRight<N>>,
    range: KeyRange,
    pass: &mut Pass<Entry, N>,
) -> Result<Answered, Fault>
    requires none { (P.desk pages.old).out ≡ 0 }
    requires reserved { (P.desk pages.old).reserves ≡ false }
    requires locked { OwnsLock N.opens pass.old.log (lock_of (requests.Scan range)) owner.old }
    ensures answers { CompletesFor N.opens N.entries N.session_entries owner.old (requests.Scan range) result (standing (P.desk pages.old) (J.account journal.old) pass.old) (standing (P.desk pages.new) (J.account journal.new) pass.new) }
    ensures said { IfOk result (IsSaidFor N.opens owner.old (requests.Scan range) pass.new.log) }
    ensures holder { KeepsHolder result owner.old owner.new }
    ensures agrees { OnOk result (IfSome owner.new (SessionAgrees pass.new.log)) }
    ensures live { IfSome owner.new (IsOwned N.opens pass.new.log) }
    ensures none { (P.desk pages.new).out ≡ 0 }
    ensures reserved { (P.desk pages.new).reserves ≡ false }
    ensures open { OnOk result (MeetsNoEnd (J.account journal.old) (J.account journal.new)) }
    ensures refused { IfErr result (FailsToAsk NoOther N.opens N.log_faults N.made (P.desk pages.old).faults (P.desk pages.new).faults (J.account journal.old) (J.account journal.new) pass.new.log) }
{
    let mut pairs = Vec::new(alloc);
    let mut leaf = match scan_leafs(rt, alloc, pages, journal, &range, pass, &mut pairs) {
        Ok(leaf) => leaf,
        Err(fault) => return Err(fault),
    };
    // A page in hand is what its type says of it, once it is read.
    let _last = leaf.page;
    see_owner(rt, journal, owner, pass);
    let told = again(alloc, &pairs);
    let reply = Reply::Pairs(List::from_vec(pairs));
    let request = Request::Scan(range);
    let answered = tell(
        rt, alloc, journal, &mut leaf, owner, request, told, reply, pass,
    );
    pages.put_back(rt, &mut Some(leaf));
    answered
}

/// The reply with these pairs again.
fn again(alloc: Global, pairs: &[Pair]) -> Result<Reply, Memory>
    ensures { IfOk result (λ r. r ≡ replies.Pairs pairs.now) }
{
    let mut copies = Vec::with_capacity(alloc, pairs.len())?;
    for pair in pairs {
        add_again(pair, &mut copies)?;
    }
    Ok(Reply::Pairs(List::from_vec(copies)))
}

/// Adds a pair once more. It is a function of its own since the pair is so moved less often.
fn add_again(pair: &Pair, copies: &mut Vec<Pair>) -> Result<(), Memory>
    ensures { OnOk result (copies.new.items ≡ copies.old.items ++ pair.now ∷ []) }
{
    copies.push(Pair {
        key: pair.key.copied(),
        value: pair.value.copied(),
    })?;
    Ok(())
}
