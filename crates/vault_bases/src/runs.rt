//! A record from an archive run.
ghost use Rattle.std.specs.Prelude.{◌≡◌, ◌≤◌, ◌<◌, ◌^◌, ◌∷◌, List, Some, length, IfErr, IfOk, IfSome};
ghost use Rattle.std.specs.List.{All};
ghost use Rattle.page_ops.specs.Causes.{MeetsNoEnd};
ghost use Rattle.page_ops.specs.Claims.{no_claims};
ghost use Rattle.page_ops.specs.Seeing.{Upholds, is_none, known};
ghost use Rattle.wal_record.specs.Rules.{HasSpelling};
ghost use Rattle.wal_record.specs.declared.record.Record.{Record};
ghost use Rattle.log_archive.specs.Run.{IsSpelled};
ghost use Rattle.log_archive.specs.declared.item.Numbered.{Numbered};
ghost use Rattle.vault_bases.specs.Faults.{FailsToGive};
ghost use Rattle.vault_bases.specs.Named.{OfNamed};
ghost use Rattle.vault_bases.specs.Runs.{FailsToTake, GivesRecord, HasRecord};

use crate::bases::VaultBases;
use crate::reading::read_named;
use front::Pass;
use log_archive::{Numbered, records_in, run_name};
use named_objects::Objects;
use page_ops::{Entering, Life, Rights};
use std::alloc::Global;
use std::sync::Wait;
use std::sync::ledger::Ledger;
use store_model::{Fault, Lsn, ObjectName, PageNo};
use vault_objects::{CHUNK, MOST_CHUNKS};
use wal_record::{Entry, Record};

/// All bytes of an object. One above 128 MiB, longer than any run, wants memory.
pub(crate) fn read_whole<N: Life, J: Entering<N>, O: Objects<N>, L: Ledger, R: Wait>(
    rt: &R,
    alloc: Global,
    journal: &mut J,
    bases: &mut VaultBases<O, L>,
    name: ObjectName,
    pass: &mut Pass<Entry, N>,
) -> Result<Vec<u8>, Fault>
    ensures bytes { IfOk result (λ v. OfNamed N.opens pass.old.log name (λ bytes. (v.items ≡ bytes) × (length bytes < 2 ^ 28))) }
    ensures faults { bases.old.faults ≤ bases.new.faults }
    ensures vault { O.faults bases.old.objects ≤ O.faults bases.new.objects }
    ensures entered { Upholds N.opens N.entries N.session_entries is_none (known (J.account journal.old) pass.old no_claims) (known (J.account journal.new) pass.new no_claims) }
    ensures open { MeetsNoEnd (J.account journal.old) (J.account journal.new) }
    ensures refused { IfErr result (FailsToGive N.opens bases.old.faults bases.new.faults (O.faults bases.old.objects) (O.faults bases.new.objects)) }
{
    let mut bytes = Vec::new(alloc);
    journal.see(rt, &mut Rights::none(), pass);
    for _ in 0..MOST_CHUNKS {
        let from = bytes.len() as u64;
        let chunk = read_named(rt, alloc, journal, bases, name, from, CHUNK, pass)?;
        bytes.extend_from_slice(&chunk)?;
        if chunk.len() < CHUNK {
            return Ok(bytes);
        }
    }
    Err(Fault::Memory)
}

/// The first of these records, if it has this LSN.
fn first_at(found: Vec<Numbered>, lsn: Lsn) -> Option<Record>
    ensures first { (r : Record) (behind : List Numbered) → found.items ≡ record { lsn = lsn; rec = r } ∷ behind → result ≡ Some r }
    ensures spelled { All IsSpelled found.items → IfSome result HasSpelling }
{
    let mut found = found;
    if found.is_empty() || found[0].lsn != lsn {
        return None;
    }
    let Numbered { rec, .. } = found.swap_remove(0);
    Some(rec)
}

/// The page's record with this LSN, from a run with these bytes. A run without it is bad at its first byte.
pub(crate) fn record_in(
    alloc: Global,
    run: u64,
    page: PageNo,
    lsn: Lsn,
    bytes: &[u8],
) -> Result<Record, Fault>
    ensures found { (r : Record) → HasRecord run page lsn r bytes.now → GivesRecord r result }
    ensures spelled { IfOk result HasSpelling }
    ensures refused { IfErr result FailsToTake }
{
    let found = records_in(alloc, run, page, lsn, bytes)?;
    match first_at(found, lsn) {
        Some(record) => Ok(record),
        None => Err(Fault::VaultBad {
            object: run_name(run),
            byte: 0,
        }),
    }
}
