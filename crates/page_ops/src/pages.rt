//! The way to the pages of a pool.
ghost use Rattle.std.specs.Prelude.{◌≡◌, ℕ, List, Some, None, IsSome, true, false, ◌+◌, ◌-◌, ◌<◌, ◌^◌, min, OnOk, OnErr, IfOk, IfErr};
ghost use Rattle.wal_record.specs.declared.record.Record.{Record};
ghost use Rattle.page_ops.specs.Causes.{FailsToBring, FailsToReserve, MeetsNoEnd};
ghost use Rattle.page_ops.specs.Claims.{no_claims};
ghost use Rattle.page_ops.specs.Desks.{Desk, IsMade, KeepsFaults};
ghost use Rattle.page_ops.specs.Seeing.{Upholds, is_upkeep, known};
ghost use Rattle.page_ops.specs.Takes.{IfPage, taken_of};

use crate::entering::Entering;
use crate::held::Held;
use crate::life::Life;
use crate::taken::Taken;
use front::Pass;
use std::alloc::Global;
use std::sync::Wait;
use store_model::{Fault, PageNo};
use wal_record::Entry;

/// A thread's way to the pages of a pool. What it takes out it puts back. Whoever holds a page waits for no other one, so
/// the calls that wait for a page ask that none is held.
pub trait Pages<N: Life, J: Entering<N>> {
    /// What it has in hand, and what failed through it.
    ghost desk: { Self → Desk };

    /// How many pages were taken through it and not put back.
    fn out(&self) -> u32
        ensures { result ≡ (desk self.now).out };

    /// How many faults of the log disk came at device calls made through it.
    fn log_faults(&self) -> u64
        ensures { result ≡ min (desk self.now).faults.log (2 ^ 64 - 1) };

    /// How many faults of the vault came at device calls made through it.
    fn vault_faults(&self) -> u64
        ensures { result ≡ min (desk self.now).faults.vault (2 ^ 64 - 1) };

    /// The page, if it is in a frame. `Busy` where somebody holds it, `Away` where it is neither held nor in a frame.
    fn try_take<R: Wait>(&mut self, rt: &R, page: PageNo) -> Taken<Held<N>>
        requires few { (desk self.old).out + 1 < 2 ^ 32 }
        ensures page { IfPage result (λ held. held.page ≡ page) }
        ensures out { desk self.new ≡ record (desk self.old) { out = (desk self.old).out + taken_of result } };

    /// Waits until nobody holds the page.
    fn wait_for<R: Wait>(&mut self, rt: &R, page: PageNo)
        requires none { (desk self.old).out ≡ 0 }
        ensures same { desk self.new ≡ desk self.old };

    /// Brings the page into a frame, from the data device, from its backup or from nothing, and applies the records of
    /// its chain that came later.
    fn bring<R: Wait>(
        &mut self,
        rt: &R,
        alloc: Global,
        journal: &mut J,
        page: PageNo,
        pass: &mut Pass<Entry, N>,
    ) -> Result<(), Fault>
        requires none { (desk self.old).out ≡ 0 }
        requires made { IsMade N.opens pass.old.log page }
        ensures out { ((desk self.new).out ≡ 0) × ((desk self.new).reserves ≡ (desk self.old).reserves) }
        ensures faults { KeepsFaults (desk self.old).faults (desk self.new).faults }
        ensures entered { Upholds N.opens N.entries N.session_entries is_upkeep (known (J.account journal.old) pass.old no_claims) (known (J.account journal.new) pass.new no_claims) }
        ensures open { OnOk result (MeetsNoEnd (J.account journal.old) (J.account journal.new)) }
        ensures refused { IfErr result (FailsToBring N.opens N.log_faults N.made (desk self.old).faults (desk self.new).faults (J.account journal.old) (J.account journal.new) pass.new.log) };

    /// Drops the page in hand and brings it from its backup or from nothing, and its chain, without a look at the data
    /// device. After a refusal it is in no frame.
    fn renew<R: Wait>(
        &mut self,
        rt: &R,
        alloc: Global,
        journal: &mut J,
        held: &mut Option<Held<N>>,
        pass: &mut Pass<Entry, N>,
    ) -> Result<(), Fault>
        requires held { IsSome held.old }
        requires alone { (desk self.old).out ≡ 1 }
        ensures held { held.new ≡ None }
        ensures out { ((desk self.new).out ≡ 0) × ((desk self.new).reserves ≡ (desk self.old).reserves) }
        ensures faults { KeepsFaults (desk self.old).faults (desk self.new).faults }
        ensures entered { Upholds N.opens N.entries N.session_entries is_upkeep (known (J.account journal.old) pass.old no_claims) (known (J.account journal.new) pass.new no_claims) }
        ensures open { OnOk result (MeetsNoEnd (J.account journal.old) (J.account journal.new)) }
        ensures refused { IfErr result (FailsToBring N.opens N.log_faults N.made (desk self.old).faults (desk self.new).faults (J.account journal.old) (J.account journal.new) pass.new.log) };

    /// Puts the page back into its frame. It takes no memory.
    fn put_back<R: Wait>(&mut self, rt: &R, held: &mut Option<Held<N>>)
        requires held { IsSome held.old }
        requires out { 0 < (desk self.old).out }
        ensures held { held.new ≡ None }
        ensures out { desk self.new ≡ record (desk self.old) { out = (desk self.old).out - 1 } };

    /// A frame for one new page. Where one is reserved already it does nothing. It may wait for a frame, and write a page
    /// to free one.
    fn reserve_new<R: Wait>(
        &mut self,
        rt: &R,
        alloc: Global,
        journal: &mut J,
        pass: &mut Pass<Entry, N>,
    ) -> Result<(), Fault>
        ensures reserved { OnOk result ((desk self.new).reserves ≡ true) }
        ensures same { OnErr result ((desk self.new).reserves ≡ (desk self.old).reserves) }
        ensures out { (desk self.new).out ≡ (desk self.old).out }
        ensures faults { KeepsFaults (desk self.old).faults (desk self.new).faults }
        ensures entered { Upholds N.opens N.entries N.session_entries is_upkeep (known (J.account journal.old) pass.old no_claims) (known (J.account journal.new) pass.new no_claims) }
        ensures open { OnOk result (MeetsNoEnd (J.account journal.old) (J.account journal.new)) }
        ensures refused { IfErr result (FailsToReserve N.opens N.log_faults N.made (desk self.old).faults (desk self.new).faults (J.account journal.old) (J.account journal.new) pass.new.log) };

    /// Puts a new page into the reserved frame. It takes no memory.
    fn put_new<R: Wait>(&mut self, rt: &R, held: &mut Option<Held<N>>)
        requires held { IsSome held.old }
        requires reserved { (desk self.old).reserves ≡ true }
        ensures held { held.new ≡ None }
        ensures out { desk self.new ≡ record (desk self.old) { reserves = false } };

    /// Gives the reserved frame up, where there is one. It takes no memory.
    fn drop_new<R: Wait>(&mut self, rt: &R)
        ensures { desk self.new ≡ record (desk self.old) { reserves = false } };
}
