//! The undo of a transaction's last open write.
ghost use Rattle.std.specs.Prelude.{◌≡◌, IfErr, IfOk, IsTrue, OnOk, false, true};
ghost use Rattle.wal_record.specs.Rules.{is_number};
ghost use Rattle.page_ops.specs.Causes.{FailsToBring, MeetsNoEnd};
ghost use Rattle.page_ops.specs.Desks.{IsMade};
ghost use Rattle.rollback.specs.Owners.{IsSameSession, MayRollBack};
ghost use Rattle.rollback.specs.Rolls.{HasUndone, IfAt, IsUndoAt, Rolls, standing, undone_by, undone_in};
ghost use Rattle.rollback.specs.Undoes.{TakesBackLast};

use crate::owner::see_owner;
use crate::taking_back::taking_back;
use crate::undid::Undid;
use books::SessionRight;
use foster_tree::find_leaf;
use front::Pass;
use leaf_writes::{Change, write_key};
use page_ops::{Entered, Journaling, Life, Pages};
use std::alloc::Global;
use std::sync::Wait;
use store_model::{Fault, TxId};
use wal_record::Entry;

/// Undoes the last open write of a transaction that isn't over, on the leaf that has its key: by the right to its session
/// where it is live, by none where it is a loser. Where another thread has undone a loser's write first, it goes on with
/// the one that is then the last. It asks for no room, and is refused only as a page that is brought may be, or a look at
/// the log; then nothing is undone.
pub fn undo_one<N: Life, J: Journaling<N>, P: Pages<N, J>, R: Wait>(
    rt: &R,
    alloc: Global,
    pages: &mut P,
    journal: &mut J,
    tx: TxId,
    owner: &mut Option<SessionRight<N>>,
    pass: &mut Pass<Entry, N>,
) -> Result<Undid, Fault>
    requires none { (P.desk pages.old).out ≡ 0 }
    requires made { IsMade N.opens pass.old.log 1 }
    requires number { IsTrue (is_number tx) }
    requires owner { MayRollBack N.opens pass.old.log tx owner.old }
    ensures undone { IfOk result (HasUndone N.opens pass.new.log tx) }
    ensures gains { Rolls N.opens N.entries N.session_entries tx (undone_by result) (standing (P.desk pages.old) (J.account journal.old) pass.old) (standing (P.desk pages.new) (J.account journal.new) pass.new) }
    ensures owner { MayRollBack N.opens pass.new.log tx owner.new }
    ensures holder { IsSameSession owner.old owner.new }
    ensures none { (P.desk pages.new).out ≡ 0 }
    ensures reserved { (P.desk pages.new).reserves ≡ false }
    ensures open { OnOk result (MeetsNoEnd (J.account journal.old) (J.account journal.new)) }
    ensures refused { IfErr result (FailsToBring N.opens N.log_faults N.made (P.desk pages.old).faults (P.desk pages.new).faults (J.account journal.old) (J.account journal.new) pass.new.log) }
{
    let undid = undo_last(rt, alloc, pages, journal, tx, owner, pass);
    pages.drop_new(rt);
    undid
}

/// The same, where a frame for a new page may stay reserved.
fn undo_last<N: Life, J: Journaling<N>, P: Pages<N, J>, R: Wait>(
    rt: &R,
    alloc: Global,
    pages: &mut P,
    journal: &mut J,
    tx: TxId,
    owner: &mut Option<SessionRight<N>>,
    pass: &mut Pass<Entry, N>,
) -> Result<Undid, Fault>
    requires none { (P.desk pages.old).out ≡ 0 }
    requires made { IsMade N.opens pass.old.log 1 }
    requires number { IsTrue (is_number tx) }
    requires owner { MayRollBack N.opens pass.old.log tx owner.old }
    ensures undone { IfOk result (HasUndone N.opens pass.new.log tx) }
    ensures gains { Rolls N.opens N.entries N.session_entries tx (undone_by result) (standing (P.desk pages.old) (J.account journal.old) pass.old) (standing (P.desk pages.new) (J.account journal.new) pass.new) }
    ensures owner { MayRollBack N.opens pass.new.log tx owner.new }
    ensures holder { IsSameSession owner.old owner.new }
    ensures none { (P.desk pages.new).out ≡ 0 }
    ensures open { OnOk result (MeetsNoEnd (J.account journal.old) (J.account journal.new)) }
    ensures refused { IfErr result (FailsToBring N.opens N.log_faults N.made (P.desk pages.old).faults (P.desk pages.new).faults (J.account journal.old) (J.account journal.new) pass.new.log) }
{
    see_owner(rt, journal, owner, pass);
    for _ in rt.forever() {
        let Some(write) = journal.last_open(rt, alloc, tx, pass)? else {
            return Ok(Undid::Nothing);
        };
        // An open write writes a key, in every log that is told.
        let Some(change) = taking_back(tx, write) else {
            return Err(Fault::Memory);
        };
        if let Entered::At(pos) = undo_write(rt, alloc, pages, journal, owner, &change, pass)? {
            return Ok(Undid::Undone(pos));
        }
    }
    unreachable!()
}

/// Undoes this write on its leaf, or finds that another thread came first.
fn undo_write<N: Life, J: Journaling<N>, P: Pages<N, J>, R: Wait>(
    rt: &R,
    alloc: Global,
    pages: &mut P,
    journal: &mut J,
    owner: &mut Option<SessionRight<N>>,
    change: &Change,
    pass: &mut Pass<Entry, N>,
) -> Result<Entered, Fault>
    requires none { (P.desk pages.old).out ≡ 0 }
    requires made { IsMade N.opens pass.old.log 1 }
    requires number { IsTrue (is_number change.now.tx) }
    requires owner { MayRollBack N.opens pass.old.log change.now.tx owner.old }
    requires last { TakesBackLast N.opens pass.old.log change.now }
    ensures undone { IfAt result (IsUndoAt change.now.tx pass.new.log) }
    ensures gains { Rolls N.opens N.entries N.session_entries change.now.tx (undone_in result) (standing (P.desk pages.old) (J.account journal.old) pass.old) (standing (P.desk pages.new) (J.account journal.new) pass.new) }
    ensures owner { MayRollBack N.opens pass.new.log change.now.tx owner.new }
    ensures holder { IsSameSession owner.old owner.new }
    ensures none { (P.desk pages.new).out ≡ 0 }
    ensures open { OnOk result (MeetsNoEnd (J.account journal.old) (J.account journal.new)) }
    ensures refused { IfErr result (FailsToBring N.opens N.log_faults N.made (P.desk pages.old).faults (P.desk pages.new).faults (J.account journal.old) (J.account journal.new) pass.new.log) }
{
    pages.reserve_new(rt, alloc, journal, pass)?;
    let mut leaf = find_leaf(rt, alloc, pages, journal, change.key.as_bytes(), pass)?;
    see_owner(rt, journal, owner, pass);
    let entered = write_key(rt, alloc, pages, journal, &mut leaf, owner, change, pass);
    pages.put_back(rt, &mut Some(leaf));
    entered
}
