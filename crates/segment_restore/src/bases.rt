//! Images that a repair begins from, and records that archive runs have.
ghost use Rattle.std.specs.Prelude.{◌≡◌, ◌-◌, ◌^◌, ◌≤◌, ℕ, min, IfErr, IfOk, IfSome, OnOk};
ghost use Rattle.page_ops.specs.Causes.{FailsToBring, MeetsNoEnd};
ghost use Rattle.page_ops.specs.Claims.{no_claims};
ghost use Rattle.page_ops.specs.Outcomes.{IsFound};
ghost use Rattle.page_ops.specs.Seeing.{Upholds, is_none, known};
ghost use Rattle.page_repair.specs.Supplies.{IsHead};
ghost use Rattle.page_ops.specs.declared.outcome.Found.TheVariants as founds;
ghost use Rattle.segment_restore.specs.Based.{IsBased};
ghost use Rattle.segment_restore.specs.Faults.{of_vault};

use crate::base::Base;
use front::Pass;
use page_ops::{Entering, Life, Rights};
use std::alloc::Global;
use std::sync::Wait;
use store_model::{Fault, Lsn, PageNo};
use wal_record::{Entry, Record, Run};

/// Whoever gives what a repair needs beside the log: images of pages to begin from, and the records that archive runs have.
pub trait Bases<N: Life, J: Entering<N>> {
    /// How many faults of the vault came at calls made through it.
    ghost vault_faults: { Self → ℕ };

    /// How many faults of the vault came at calls made through it.
    fn vault_faults(&self) -> u64
        ensures { result ≡ min (vault_faults self.now) (2 ^ 64 - 1) };

    /// An image of the page that isn't younger than this head; None to begin from nothing. It enters nothing.
    fn base<R: Wait>(
        &mut self,
        rt: &R,
        alloc: Global,
        journal: &mut J,
        page: PageNo,
        head: Lsn,
        pass: &mut Pass<Entry, N>,
    ) -> Result<Option<Base>, Fault>
        requires head { IsHead N.opens pass.old.log page head }
        ensures base { IfOk result (λ base. IfSome base (IsBased N.opens pass.new.log page head)) }
        ensures faults { vault_faults self.old ≤ vault_faults self.new }
        ensures entered { Upholds N.opens N.entries N.session_entries is_none (known (J.account journal.old) pass.old no_claims) (known (J.account journal.new) pass.new no_claims) }
        ensures open { OnOk result (MeetsNoEnd (J.account journal.old) (J.account journal.new)) }
        ensures refused { IfErr result (FailsToBring N.opens N.log_faults N.made (of_vault (vault_faults self.old)) (of_vault (vault_faults self.new)) (J.account journal.old) (J.account journal.new) pass.new.log) };

    /// The record with this LSN, which names the page and which the log has forgotten, from the run that has it. It enters
    /// nothing.
    fn archived<R: Wait>(
        &mut self,
        rt: &R,
        alloc: Global,
        journal: &mut J,
        run: Run,
        page: PageNo,
        lsn: Lsn,
        pass: &mut Pass<Entry, N>,
    ) -> Result<Record, Fault>
        requires run { IsFound N.opens pass.old.log lsn (founds.Run run) }
        requires named { IsHead N.opens pass.old.log page lsn }
        ensures found { IfOk result (λ r. IsFound N.opens pass.new.log lsn (founds.Record r)) }
        ensures faults { vault_faults self.old ≤ vault_faults self.new }
        ensures entered { Upholds N.opens N.entries N.session_entries is_none (known (J.account journal.old) pass.old no_claims) (known (J.account journal.new) pass.new no_claims) }
        ensures open { OnOk result (MeetsNoEnd (J.account journal.old) (J.account journal.new)) }
        ensures refused { IfErr result (FailsToBring N.opens N.log_faults N.made (of_vault (vault_faults self.old)) (of_vault (vault_faults self.new)) (J.account journal.old) (J.account journal.new) pass.new.log) };
}

/// No images and no runs: each repair begins from nothing, and a record that the log has forgotten wants memory.
#[derive(Drop)]
pub struct NoBases;

impl<N: Life, J: Entering<N>> Bases<N, J> for NoBases {
    ghost vault_faults = { λ b. 0 };

    fn vault_faults(&self) -> u64 {
        0
    }

    fn base<R: Wait>(
        &mut self,
        rt: &R,
        _alloc: Global,
        journal: &mut J,
        _page: PageNo,
        _head: Lsn,
        pass: &mut Pass<Entry, N>,
    ) -> Result<Option<Base>, Fault> {
        journal.see(rt, &mut Rights::none(), pass);
        Ok(None)
    }

    fn archived<R: Wait>(
        &mut self,
        rt: &R,
        _alloc: Global,
        journal: &mut J,
        _run: Run,
        _page: PageNo,
        _lsn: Lsn,
        pass: &mut Pass<Entry, N>,
    ) -> Result<Record, Fault> {
        journal.see(rt, &mut Rights::none(), pass);
        Err(Fault::Memory)
    }
}
