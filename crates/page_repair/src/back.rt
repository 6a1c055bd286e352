//! The way back: from the head of a page along the previous fields of the records that name it.
ghost use Rattle.std.specs.Prelude.{◌≡◌, ◌↔◌, ◌+◌, ◌≤◌, ◌<◌, ℕ, List, length, reverse, Some, IfOk, IfErr, IfSome};
ghost use Rattle.wal_record.specs.declared.record.Record.{Record};
ghost use Rattle.store_model.specs.declared.fault.Fault.TheVariants as faults;
ghost use Rattle.page_ops.specs.Desks.{KeepsFaults};
ghost use Rattle.page_repair.specs.Chains.{FailsToFollow, IsUnknown, SaysEnd};
ghost use Rattle.chain_laws.specs.Steps.{named_between, previous};
ghost use Rattle.page_repair.specs.Rebuild.{AreSpelled, IsChainOf};

use crate::chain::Chain;
use std::alloc::Global;
use std::sync::Wait;
use store_model::{Fault, Lsn, PageNo};
use wal_record::Record;

/// The fault of a chain that no lawful log has: one that doesn't fall, or a record that can't be redone. It names no block.
pub fn bad_chain() -> Fault
    ensures { result ≡ faults.LogBad 0 0 }
{
    Fault::LogBad { block: 0, byte: 0 }
}

/// The LSN of the record before this one that names the page, as this one tells it; 0 where it makes the page.
pub fn previous(page: PageNo, entry: &Record) -> Lsn
    ensures { result ≡ previous page entry.now }
{
    match entry {
        Record::Write(write) => write.page_prev,
        Record::Apply(apply) => apply.page_prev,
        Record::Undo(undo) => undo.page_prev,
        Record::Split(split) => if page == split.page {
            split.page_prev
        } else {
            0
        },
        Record::Adopt(adopt) => if page == adopt.parent {
            adopt.parent_prev
        } else {
            adopt.fosterer_prev
        },
        Record::Grow(grow) => if page == 1 { grow.page_prev } else { 0 },
        Record::Purge(purge) => purge.page_prev,
        _ => 0,
    }
}

/// The records of the page's chain from the head down to above this LSN, last first. Each has to tell a lower LSN before it, so
/// that an untold chain ends, too. A record is large: room is made for it first, so that it moves once, to its place.
pub(crate) fn follow<C: Chain, R: Wait>(
    rt: &R,
    alloc: Global,
    page: PageNo,
    low: Lsn,
    head: Lsn,
    chain: &mut C,
) -> Result<Vec<Record>, Fault>
    requires chain { IsChainOf (C.answers chain.old) page head }
    ensures records { (log : List Record) → C.answers chain.old log → IfOk result (λ records. records.items ≡ reverse (named_between log page low head)) }
    ensures spelled { IfOk result (λ records. AreSpelled records.items) }
    ensures few { (log : List Record) → C.answers chain.old log → C.calls chain.new ≤ C.calls chain.old + length (named_between log page low head) }
    ensures answers { (log : List Record) → C.answers chain.old log ↔ C.answers chain.new log }
    ensures faults { KeepsFaults (C.faults chain.old) (C.faults chain.new) }
    ensures ended { IfSome (C.ended chain.old) (λ at. C.ended chain.new ≡ Some at) }
    ensures ends { low < head → IfSome (C.ended chain.old) (λ at. SaysEnd at result) }
    ensures refused { IfErr result (FailsToFollow (IsUnknown (C.answers chain.old)) (C.faults chain.old) (C.faults chain.new) (C.ended chain.new)) }
{
    let mut records = Vec::new(alloc);
    let mut lsn = head;
    while low < lsn {
        records.reserve(1)?;
        match chain.record_at(rt, alloc, page, lsn) {
            Ok(record) => {
                let before = previous(page, &record);
                if lsn <= before {
                    return Err(bad_chain());
                }
                records.push_reserved(record);
                lsn = before;
            }
            Err(fault) => return Err(fault),
        }
    }
    Ok(records)
}
