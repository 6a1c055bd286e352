//! The records of a run are read from the journal.
ghost use Rattle.std.specs.Prelude.{◌≡◌, ◌+◌, ◌^◌, ◌<◌, ◌≤◌, List, IfErr, IfOk, OnOk, Some, length};
ghost use mathlib.Core.List.{IsPrefix};
ghost use Rattle.log_archive.specs.Shelves.{Gathered};
ghost use Rattle.page_ops.specs.Causes.{EndsBy, FailsToRead, MeetsNoEnd};
ghost use Rattle.page_ops.specs.Claims.{no_claims};
ghost use Rattle.page_ops.specs.Seeing.{Looks, known};
ghost use Rattle.wal_record.specs.Chains.{record_with};
ghost use Rattle.wal_record.specs.History.{life_log};
ghost use Rattle.wal_record.specs.Rules.{HasSpelling};
ghost use Rattle.wal_record.specs.declared.record.Record.{Record};
ghost use Rattle.archiving.specs.Archives.{AddsNone, IsLongest};
ghost use Rattle.archiving.specs.Going.{IsLifeLog};

use front::Pass;
use log_archive::{RUN_BYTES, RunItems};
use page_ops::{Entering, Found, Life, Rights};
use std::alloc::Global;
use std::sync::Wait;
use store_model::{Fault, Lsn};
use wal_record::{Entry, Record};

/// The record of an LSN. One that the log has forgotten wants memory: no run has been made of it.
fn read<N: Life, J: Entering<N>, R: Wait>(
    rt: &R,
    alloc: Global,
    journal: &mut J,
    lsn: Lsn,
    pass: &mut Pass<Entry, N>,
) -> Result<Record, Fault>
    requires there { (opening : List Record) → N.opens opening → (1 ≤ lsn) × (lsn ≤ length (life_log opening pass.old.log)) }
    ensures found { IfOk result (λ r. (opening : List Record) → N.opens opening → record_with (life_log opening pass.new.log) lsn ≡ Some r) }
    ensures spelling { IfOk result HasSpelling }
    ensures seen { Looks N.opens N.entries N.session_entries (J.account journal.old) pass.old (J.account journal.new) pass.new }
    ensures open { OnOk result (MeetsNoEnd (J.account journal.old) (J.account journal.new)) }
    ensures refused { IfErr result (FailsToRead N.opens) }
    ensures ends { IfErr result (EndsBy N.opens N.log_faults N.made (J.account journal.old) (J.account journal.new) pass.new.log) }
{
    match journal.read(rt, alloc, lsn, pass) {
        Ok(Found::Record(record)) => Ok(record),
        Ok(Found::Run(_)) => Err(Fault::Memory),
        Err(fault) => Err(fault),
    }
}

/// The items of the records from an LSN on, up to another one, or to the last one before it with which they have at most
/// 16 MiB; and the LSN of the last of them. Each record is read once, and the one behind them. A record whose items alone have
/// more wants memory.
pub(crate) fn gather<N: Life, J: Entering<N>, R: Wait>(
    rt: &R,
    alloc: Global,
    journal: &mut J,
    first: Lsn,
    upto: Lsn,
    pass: &mut Pass<Entry, N>,
) -> Result<(RunItems, Lsn), Fault>
    requires numbers { (1 ≤ first) × (first ≤ upto) × (upto < 2 ^ 63) }
    requires there { (opening : List Record) → N.opens opening → upto ≤ length (life_log opening pass.old.log) }
    ensures gathered { IfOk result (λ g. Gathered (IsLifeLog N.opens pass.old.log) first (g.1 + 1) g.0) }
    ensures range { IfOk result (λ g. (first ≤ g.1) × (g.1 ≤ upto)) }
    ensures longest { IfOk result (λ g. (opening : List Record) → N.opens opening → IsLongest (life_log opening pass.old.log) first g.1 upto) }
    ensures entered { AddsNone N.opens N.entries N.session_entries (known (J.account journal.old) pass.old no_claims) (known (J.account journal.new) pass.new no_claims) }
    ensures begins { IsPrefix pass.old.log pass.new.log }
    ensures open { OnOk result (MeetsNoEnd (J.account journal.old) (J.account journal.new)) }
    ensures refused { IfErr result (FailsToRead N.opens) }
    ensures ends { IfErr result (EndsBy N.opens N.log_faults N.made (J.account journal.old) (J.account journal.new) pass.new.log) }
{
    journal.see(rt, &mut Rights::none(), pass);
    let mut items = RunItems::new(alloc);
    for lsn in first..upto + 1 {
        let rec = read(rt, alloc, journal, lsn, pass)?;
        if !items.add(alloc, lsn, &rec, RUN_BYTES)? {
            if lsn == first {
                return Err(Fault::Memory);
            }
            return Ok((items, lsn - 1));
        }
    }
    Ok((items, upto))
}
