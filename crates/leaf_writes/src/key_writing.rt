//! A change of a key's row on its leaf, whatever has to be done to the leaf first.
ghost use Rattle.std.specs.Prelude.{◌≡◌, ◌||◌, IfErr, IfOk, IfSome, List, [], None, OnOk, Some, not, true};
ghost use mathlib.Core.List.{IsPrefix};
ghost use Rattle.foster_laws.specs.Purges.{has_tombstone};
ghost use Rattle.page_ops.specs.Causes.{Ends, FailsToEnter, MeetsNoFault, OrFull};
ghost use Rattle.page_ops.specs.Claims.{Claims, SessionAgrees};
ghost use Rattle.page_ops.specs.Outcomes.{IsAnswer, IsFull};
ghost use Rattle.page_ops.specs.Seeing.{Enters, known};
ghost use Rattle.smo.specs.Settled.{claims_of};
ghost use Rattle.wal_record.specs.Images.{IsLeafOf, purged};
ghost use Rattle.leaf_writes.specs.Changes.{change_group};
ghost use Rattle.leaf_writes.specs.KeyWrites.{WritesAlone, WritesKey, desk_on, found, has_room};
ghost use Rattle.leaf_writes.specs.MayChange.{MayChange};
ghost use Rattle.leaf_writes.specs.Owners.{IsDeclined, KeepsOwner};

use crate::change::Change;
use crate::split_writing::split_leaf;
use crate::writing::write_leaf;
use books::SessionRight;
use front::Pass;
use page_halves::{fits_with, has_tombstone};
use page_ops::{Entered, Entering, Held, Life, Pages, Rights};
use smo::purge;
use std::alloc::Global;
use std::sync::Wait;
use store_model::Fault;
use wal_record::Entry;

/// Enters a change of a key's row on its leaf, which is in hand: a put, a del, or an operator, each with its answer, for a
/// transaction that has locked the key; or the undo of a transaction's last open write. It gives the key the new value.
/// Where the leaf has no room for that, the leaf is purged first, in a group of its own, if it has a tombstone; and split
/// in the group of the change, if there is still no room. Where in the history the last entry stands; or `Late`, where
/// another thread has undone the loser's write. A write is refused with `Full` where there is no room for it, whereupon its
/// request is entered as declined. Where the change isn't entered the leaf is as before, or purged.
pub fn write_key<N: Life, J: Entering<N>, P: Pages<N, J>, R: Wait>(
    rt: &R,
    alloc: Global,
    pages: &mut P,
    journal: &mut J,
    leaf: &mut Held<N>,
    owner: &mut Option<SessionRight<N>>,
    change: &Change,
    pass: &mut Pass<Entry, N>,
) -> Result<Entered, Fault>
    requires begins { IsPrefix leaf.old.pass.log pass.old.log }
    requires may { MayChange N.opens pass.old.log leaf.old.state change.now owner.old }
    requires leaf { IsLeafOf change.now.key leaf.old.state }
    requires reserved { (P.desk pages.old).reserves ≡ true }
    ensures written { WritesKey N.opens N.entries N.session_entries change.now owner.old pass.new leaf.old leaf.new result (known (J.account journal.old) pass.old (claims_of leaf.old owner.old)) (known (J.account journal.new) pass.new (claims_of leaf.new owner.new)) }
    ensures owner { KeepsOwner result owner.old owner.new }
    ensures agrees { OnOk result (IfSome owner.new (SessionAgrees pass.new.log)) }
    ensures answer { IfOk result (IsAnswer N.opens pass.new.log (change_group change.now owner.old leaf.old.page)) }
    ensures full { IfErr result (IsFull N.opens pass.new.log (change_group change.now owner.old leaf.old.page)) }
    ensures declined { IfErr result (IsDeclined change.now owner.old owner.new pass.new.log) }
    ensures desk { P.desk pages.new ≡ desk_on (has_room change.now (found change.now leaf.old.state)) (P.desk pages.old) result }
    ensures refused { IfErr result (FailsToEnter OrFull) }
    ensures ends { Ends N.opens N.log_faults N.made (J.account journal.old) (J.account journal.new) pass.new.log result }
{
    let fits = fits_with(&leaf.state, &change.key, &change.new);
    if fits || !has_tombstone(&leaf.state) {
        return write_here(rt, alloc, pages, journal, leaf, owner, change, fits, pass);
    }
    purge(rt, alloc, journal, leaf, pass)?;
    see_owner(rt, journal, owner, pass);
    let fits = fits_with(&leaf.state, &change.key, &change.new);
    write_here(rt, alloc, pages, journal, leaf, owner, change, fits, pass)
}

/// The change where the leaf isn't purged: it has room for the value, which `fits` tells, or no tombstone.
fn write_here<N: Life, J: Entering<N>, P: Pages<N, J>, R: Wait>(
    rt: &R,
    alloc: Global,
    pages: &mut P,
    journal: &mut J,
    leaf: &mut Held<N>,
    owner: &mut Option<SessionRight<N>>,
    change: &Change,
    fits: bool,
    pass: &mut Pass<Entry, N>,
) -> Result<Entered, Fault>
    requires begins { IsPrefix leaf.old.pass.log pass.old.log }
    requires may { MayChange N.opens pass.old.log leaf.old.state change.now owner.old }
    requires leaf { IsLeafOf change.now.key leaf.old.state }
    requires fits { fits ≡ has_room change.now leaf.old.state }
    requires purged { (has_room change.now leaf.old.state || not (has_tombstone leaf.old.state)) ≡ true }
    requires reserved { (P.desk pages.old).reserves ≡ true }
    ensures written { WritesAlone N.opens N.entries N.session_entries change.now owner.old pass.new leaf.old leaf.new result (known (J.account journal.old) pass.old (claims_of leaf.old owner.old)) (known (J.account journal.new) pass.new (claims_of leaf.new owner.new)) }
    ensures owner { KeepsOwner result owner.old owner.new }
    ensures agrees { OnOk result (IfSome owner.new (SessionAgrees pass.new.log)) }
    ensures answer { IfOk result (IsAnswer N.opens pass.new.log (change_group change.now owner.old leaf.old.page)) }
    ensures full { IfErr result (IsFull N.opens pass.new.log (change_group change.now owner.old leaf.old.page)) }
    ensures declined { IfErr result (IsDeclined change.now owner.old owner.new pass.new.log) }
    ensures desk { P.desk pages.new ≡ desk_on (has_room change.now leaf.old.state) (P.desk pages.old) result }
    ensures refused { IfErr result (FailsToEnter OrFull) }
    ensures ends { Ends N.opens N.log_faults N.made (J.account journal.old) (J.account journal.new) pass.new.log result }
{
    if fits {
        write_leaf(rt, alloc, journal, leaf, owner, change, pass)
    } else {
        split_leaf(rt, alloc, pages, journal, leaf, owner, change, pass)
    }
}

/// Shows the pass the whole history, with which the right to the session agrees.
fn see_owner<N: Life, J: Entering<N>, R: Wait>(
    rt: &R,
    journal: &mut J,
    owner: &mut Option<SessionRight<N>>,
    pass: &mut Pass<Entry, N>,
)
    ensures same { owner.new ≡ owner.old }
    ensures seen { Enters N.opens N.entries N.session_entries (known (J.account journal.old) pass.old record { a = None; b = None; c = None; s = owner.old; m = None }) [] (known (J.account journal.new) pass.new record { a = None; b = None; c = None; s = owner.new; m = None }) }
    ensures calm { MeetsNoFault (J.account journal.old) (J.account journal.new) }
{
    let mut rights = Rights::none();
    rights.s = owner.take();
    journal.see(rt, &mut rights, pass);
    *owner = rights.s.take();
}
