//! A page's image from its last backup, and its record from an archive run.
ghost use Rattle.std.specs.Prelude.{◌≤◌, List, IfErr, IfNone, IfOk, IfSome, OnOk};
ghost use Rattle.page_ops.specs.Causes.{FailsToBring, MeetsNoEnd};
ghost use Rattle.page_ops.specs.Claims.{no_claims};
ghost use Rattle.page_ops.specs.Seeing.{Upholds, is_none, known};
ghost use Rattle.page_ops.specs.Outcomes.{IsFound};
ghost use Rattle.page_ops.specs.declared.outcome.Found.TheVariants as founds;
ghost use Rattle.page_repair.specs.Supplies.{IsHead};
ghost use Rattle.segment_restore.specs.Based.{IsBased};
ghost use Rattle.segment_restore.specs.Faults.{of_vault};
ghost use Rattle.wal_record.specs.History.{life_log};
ghost use Rattle.wal_record.specs.declared.record.Record.{Record};
ghost use Rattle.vault_bases.specs.Faults.{IsOfVault};
ghost use Rattle.vault_bases.specs.Last.{HasNone, WasLast};

use crate::bases::VaultBases;
use crate::copies::find_copy;
use crate::runs::{read_whole, record_in};
use backup_set::object_of;
use front::Pass;
use log_archive::run_name;
use named_objects::Objects;
use page_ops::{Entering, Life};
use segment_restore::{Base, Bases};
use std::alloc::Global;
use std::sync::Wait;
use std::sync::ledger::Ledger;
use store_model::{Fault, Lsn, PageNo};
use wal_record::{Entry, Record, Run};

impl<N: Life, J: Entering<N>, O: Objects<N>, L: Ledger> Bases<N, J> for VaultBases<O, L> {
    ghost vault_faults = { λ b. b.faults };

    fn vault_faults(&self) -> u64 {
        self.faults.told()
    }

    /// The image that the page's last backup has, at the LSN that the log tells. An object in which it has another LSN is bad at
    /// its first byte; so it is with none where the opening log is known.
    fn base<R: Wait>(
        &mut self,
        rt: &R,
        alloc: Global,
        journal: &mut J,
        page: PageNo,
        head: Lsn,
        pass: &mut Pass<Entry, N>,
    ) -> Result<Option<Base>, Fault>
        ensures base { IfOk result (λ base. IfSome base (IsBased N.opens pass.new.log page head)) }
        ensures last { IfOk result (λ base. IfSome base (λ b. WasLast N.opens pass.old.log pass.new.log page b.sealed)) }
        ensures none { IfOk result (λ base. IfNone base ((opening : List Record) → N.opens opening → HasNone (life_log opening pass.new.log) page head)) }
        ensures faults { self.old.faults ≤ self.new.faults }
        ensures vault { O.faults self.old.objects ≤ O.faults self.new.objects }
        ensures cause { IfErr result (IsOfVault (O.faults self.old.objects) (O.faults self.new.objects)) }
        ensures entered { Upholds N.opens N.entries N.session_entries is_none (known (J.account journal.old) pass.old no_claims) (known (J.account journal.new) pass.new no_claims) }
        ensures open { OnOk result (MeetsNoEnd (J.account journal.old) (J.account journal.new)) }
        ensures refused { IfErr result (FailsToBring N.opens N.log_faults N.made (of_vault self.old.faults) (of_vault self.new.faults) (J.account journal.old) (J.account journal.new) pass.new.log) }
    {
        let listed = journal.listed(rt, page, pass)?;
        let (backup, lsn) = (listed.ends.backup, listed.ends.backup_lsn);
        if backup == 0 {
            return Ok(None);
        }
        // Others have gone on with the page and backed it up since its head was this one.
        if head < lsn {
            return Ok(None);
        }
        let copy = find_copy(rt, alloc, journal, self, page, backup, pass)?;
        if copy.sealed.lsn != lsn {
            return Err(Fault::VaultBad {
                object: object_of(backup, page),
                byte: 0,
            });
        }
        Ok(Some(copy))
    }

    /// The record that the run's object has. It reads the whole object. In a life whose opening log is known the run has it.
    fn archived<R: Wait>(
        &mut self,
        rt: &R,
        alloc: Global,
        journal: &mut J,
        run: Run,
        page: PageNo,
        lsn: Lsn,
        pass: &mut Pass<Entry, N>,
    ) -> Result<Record, Fault>
        requires run { IsFound N.opens pass.old.log lsn (founds.Run run) }
        requires named { IsHead N.opens pass.old.log page lsn }
        ensures found { IfOk result (λ r. IsFound N.opens pass.new.log lsn (founds.Record r)) }
        ensures faults { self.old.faults ≤ self.new.faults }
        ensures vault { O.faults self.old.objects ≤ O.faults self.new.objects }
        ensures cause { IfErr result (IsOfVault (O.faults self.old.objects) (O.faults self.new.objects)) }
        ensures entered { Upholds N.opens N.entries N.session_entries is_none (known (J.account journal.old) pass.old no_claims) (known (J.account journal.new) pass.new no_claims) }
        ensures open { MeetsNoEnd (J.account journal.old) (J.account journal.new) }
        ensures refused { IfErr result (FailsToBring N.opens N.log_faults N.made (of_vault self.old.faults) (of_vault self.new.faults) (J.account journal.old) (J.account journal.new) pass.new.log) }
    {
        let bytes = read_whole(rt, alloc, journal, self, run_name(run.run), pass)?;
        record_in(alloc, run.run, page, lsn, &bytes)
    }
}
