//! What a pool gets from beyond its device.
ghost use Rattle.std.specs.Prelude.{◌≡◌, ◌-◌, ◌^◌, ◌≤◌, ℕ, List, min, IfOk, IfErr, IfSome, OnOk};
ghost use Rattle.page_ops.specs.Causes.{FailsToBring, MeetsNoEnd};
ghost use Rattle.page_ops.specs.Claims.{no_claims};
ghost use Rattle.page_ops.specs.Desks.{Faults, IsMade, KeepsFaults};
ghost use Rattle.page_ops.specs.Seeing.{Upholds, is_none, known};
ghost use Rattle.page_repair.specs.Images.{Spares};
ghost use Rattle.page_repair.specs.Supplies.{IsBase, IsHead, IsReady, IsRebuilt, is_restored};

use crate::images::Images;
use front::Pass;
use page_image::Sealed;
use page_ops::{Entering, Life};
use std::alloc::Global;
use std::sync::Wait;
use store_model::{Fault, Lsn, PageNo};
use wal_record::Entry;

/// What a pool needs beside its data device.
pub trait Supply<N: Life, J: Entering<N>> {
    /// How many faults of the log disk and of the vault came at device calls made through it.
    ghost faults: { Self → Faults };

    /// How many faults of the log disk came at device calls made through it.
    fn log_faults(&self) -> u64
        ensures { result ≡ min (faults self.now).log (2 ^ 64 - 1) };

    /// How many faults of the vault came at device calls made through it.
    fn vault_faults(&self) -> u64
        ensures { result ≡ min (faults self.now).vault (2 ^ 64 - 1) };

    /// Restores the page's segment onto the data device, if it is unrestored, and enters that. Each image that it writes is
    /// one of the log. Of other segments, and where the segment isn't found unrestored, it writes none.
    fn ready<I: Images<N>, R: Wait>(
        &mut self,
        rt: &R,
        alloc: Global,
        journal: &mut J,
        images: &mut I,
        page: PageNo,
        pass: &mut Pass<Entry, N>,
    ) -> Result<(), Fault>
        requires made { IsMade N.opens pass.old.log page }
        ensures ready { OnOk result (IsReady N.opens pass.new.log page) }
        ensures spared { I.tells → Spares N.opens page pass.old.log pass.new.log I.newest images.old images.new }
        ensures images { I.faults images.old ≤ I.faults images.new }
        ensures faults { KeepsFaults (faults self.old) (faults self.new) }
        ensures entered { Upholds N.opens N.entries N.session_entries is_restored (known (J.account journal.old) pass.old no_claims) (known (J.account journal.new) pass.new no_claims) }
        ensures open { OnOk result (MeetsNoEnd (J.account journal.old) (J.account journal.new)) }
        ensures refused { IfErr result (FailsToBring N.opens N.log_faults N.made (faults self.old) (faults self.new) (J.account journal.old) (J.account journal.new) pass.new.log) };

    /// The page at this head, from the base or else from its last backup, or from nothing where it has none, and from
    /// the records of its chain that came later. It enters nothing.
    fn rebuilt<R: Wait>(
        &mut self,
        rt: &R,
        alloc: Global,
        journal: &mut J,
        page: PageNo,
        base: Option<Sealed>,
        head: Lsn,
        pass: &mut Pass<Entry, N>,
    ) -> Result<Sealed, Fault>
        requires base { IfSome base (IsBase N.opens pass.old.log page head) }
        requires head { IsHead N.opens pass.old.log page head }
        ensures rebuilt { IfOk result (IsRebuilt N.opens pass.new.log page head) }
        ensures faults { KeepsFaults (faults self.old) (faults self.new) }
        ensures entered { Upholds N.opens N.entries N.session_entries is_none (known (J.account journal.old) pass.old no_claims) (known (J.account journal.new) pass.new no_claims) }
        ensures open { OnOk result (MeetsNoEnd (J.account journal.old) (J.account journal.new)) }
        ensures refused { IfErr result (FailsToBring N.opens N.log_faults N.made (faults self.old) (faults self.new) (J.account journal.old) (J.account journal.new) pass.new.log) };
}
