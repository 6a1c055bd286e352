//! The chain of a page, asked of the journal and of archive runs.
ghost use Rattle.std.specs.Prelude.{◌≡◌, ◌≤◌, List, reverse, IfOk, IfErr, OnOk};
ghost use Rattle.chain_laws.specs.Steps.{named_between, previous};
ghost use Rattle.page_ops.specs.Causes.{FailsToBring, MeetsNoEnd};
ghost use Rattle.page_ops.specs.Claims.{no_claims};
ghost use Rattle.page_ops.specs.Outcomes.{IsFound};
ghost use Rattle.page_ops.specs.Seeing.{IsConsistent, Looks, Upholds, is_none, known};
ghost use Rattle.page_ops.specs.declared.outcome.Found.TheVariants as founds;
ghost use Rattle.page_repair.specs.Rebuild.{AreSpelled};
ghost use Rattle.page_repair.specs.Supplies.{IsHead};
ghost use Rattle.segment_restore.specs.Faults.{of_vault};
ghost use Rattle.wal_record.specs.Chains.{record_with};
ghost use Rattle.wal_record.specs.History.{life_log};
ghost use Rattle.wal_record.specs.Rules.{HasSpelling};
ghost use Rattle.wal_record.specs.declared.record.Record.{Record};

use crate::bases::Bases;
use front::Pass;
use page_ops::{Entering, Found, Life, Rights};
use page_repair::{bad_chain, previous};
use std::alloc::Global;
use std::sync::Wait;
use store_model::{Fault, Lsn, PageNo};
use wal_record::{Entry, Record};

/// The record with this LSN, from the log, or else from the run that has it.
fn record_at<N: Life, J: Entering<N>, B: Bases<N, J>, R: Wait>(
    rt: &R,
    alloc: Global,
    journal: &mut J,
    bases: &mut B,
    page: PageNo,
    lsn: Lsn,
    pass: &mut Pass<Entry, N>,
) -> Result<Record, Fault>
    requires named { IsHead N.opens pass.old.log page lsn }
    ensures found { IfOk result (λ r. IsFound N.opens pass.new.log lsn (founds.Record r)) }
    ensures faults { B.vault_faults bases.old ≤ B.vault_faults bases.new }
    ensures entered { Upholds N.opens N.entries N.session_entries is_none (known (J.account journal.old) pass.old no_claims) (known (J.account journal.new) pass.new no_claims) }
    ensures open { OnOk result (MeetsNoEnd (J.account journal.old) (J.account journal.new)) }
    ensures refused { IfErr result (FailsToBring N.opens N.log_faults N.made (of_vault (B.vault_faults bases.old)) (of_vault (B.vault_faults bases.new)) (J.account journal.old) (J.account journal.new) pass.new.log) }
{
    match journal.read(rt, alloc, lsn, pass) {
        Ok(Found::Record(record)) => Ok(record),
        Ok(Found::Run(run)) => bases.archived(rt, alloc, journal, run, page, lsn, pass),
        Err(fault) => Err(fault),
    }
}

/// The records of the page's chain from the head down to above this LSN, last first. Each has to tell a lower LSN before it, so
/// that an untold chain ends, too. A record is large: room is made for it first, so that it moves once, to its place.
pub(crate) fn follow<N: Life, J: Entering<N>, B: Bases<N, J>, R: Wait>(
    rt: &R,
    alloc: Global,
    journal: &mut J,
    bases: &mut B,
    page: PageNo,
    low: Lsn,
    head: Lsn,
    pass: &mut Pass<Entry, N>,
) -> Result<Vec<Record>, Fault>
    requires consistent { IsConsistent N.opens pass.old.log }
    requires named { IsHead N.opens pass.old.log page head }
    ensures records { (opening : List Record) → N.opens opening → IfOk result (λ records. records.items ≡ reverse (named_between (life_log opening pass.old.log) page low head)) }
    ensures spelled { IfOk result (λ records. AreSpelled records.items) }
    ensures faults { B.vault_faults bases.old ≤ B.vault_faults bases.new }
    ensures entered { Upholds N.opens N.entries N.session_entries is_none (known (J.account journal.old) pass.old no_claims) (known (J.account journal.new) pass.new no_claims) }
    ensures open { OnOk result (MeetsNoEnd (J.account journal.old) (J.account journal.new)) }
    ensures refused { IfErr result (FailsToBring N.opens N.log_faults N.made (of_vault (B.vault_faults bases.old)) (of_vault (B.vault_faults bases.new)) (J.account journal.old) (J.account journal.new) pass.new.log) }
{
    let mut records = Vec::new(alloc);
    let mut lsn = head;
    journal.see(rt, &mut Rights::none(), pass);
    while low < lsn {
        records.reserve(1)?;
        let record = record_at(rt, alloc, journal, bases, page, lsn, pass)?;
        let before = previous(page, &record);
        if lsn <= before {
            return Err(bad_chain());
        }
        records.push_reserved(record);
        lsn = before;
    }
    Ok(records)
}
