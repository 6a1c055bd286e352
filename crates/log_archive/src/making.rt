//! A run is made.
ghost use Rattle.std.specs.Prelude.{◌≡◌, ◌↔◌, ◌≤◌, ◌+◌, ℕ, List, Some, length, OnOk, IfOk, IfErr, IfSome, IsErrAnd, IsTrue};
ghost use Rattle.media.specs.Counted.{Blames};
ghost use Rattle.wal_record.specs.Rules.{is_number};
ghost use Rattle.wal_record.specs.declared.record.Record.{Record};
ghost use Rattle.vault_objects.specs.Causes.{IsVaultFault};
ghost use Rattle.log_archive.specs.Answers.{FailsToMake, SpellsRun, MayMake, StoresRun};
ghost use Rattle.log_archive.specs.Reads.{FailsToRead, IsUnknown};
ghost use Rattle.log_archive.specs.Shelves.{Gathered};

use crate::layout::MOST_BYTES;
use crate::name::run_name;
use crate::reads::Reads;
use crate::run_items::RunItems;
use media::Vault;
use std::alloc::Global;
use std::sync::Wait;
use store_model::{Fault, Lsn};
use vault_objects::store_object;

/// Writes the run of the records with the LSNs from first to last: one put and one sync. Each record is read once. A run
/// whose items have more than 64 MiB wants memory. Where the log refuses, or memory runs out, the vault is as it was.
pub fn make_run<W: Wait, R: Reads, V: Vault>(
    rt: &W,
    alloc: Global,
    log: &mut R,
    vault: &mut V,
    run: u64,
    first: Lsn,
    last: Lsn,
) -> Result<(), Fault>
    requires numbers { IsTrue (is_number run) × IsTrue (is_number first) × IsTrue (is_number last) }
    requires order { first ≤ last }
    requires there { (l : List Record) → R.answers log.old l → last ≤ length l }
    ensures stored { V.tells → OnOk result (StoresRun (R.answers log.old) run first last (V.told vault.old) (V.told vault.new)) }
    // Also after a refusal.
    ensures may_store { V.tells → MayMake run (V.told vault.old) (V.told vault.new) }
    ensures untouched { IfErr result (λ fault. (IsVaultFault fault → ⊥) → vault.new ≡ vault.old) }
    ensures answers { (l : List Record) → R.answers log.old l ↔ R.answers log.new l }
    ensures log_later { (R.log_faults log.old ≤ R.log_faults log.new) × (R.vault_faults log.old ≤ R.vault_faults log.new) }
    ensures ended { IfSome (R.ended log.old) (λ at. R.ended log.new ≡ Some at) }
    ensures refused { IfErr result (FailsToMake (IsUnknown (R.answers log.old)) (R.log_faults log.old) (R.log_faults log.new) (R.ended log.new) (V.faults vault.old) (V.faults vault.new)) }
    ensures later { V.faults vault.old ≤ V.faults vault.new }
    ensures fuse { Blames V.passes V.refused V.own vault.old vault.new (IsErrAnd result IsVaultFault) }
{
    let bytes = run_bytes(rt, alloc, log, run, first, last)?;
    store_object(vault, run_name(run), &bytes)
}

/// The bytes of the run of the records with the LSNs from first to last, for whoever puts them into a vault itself. Each
/// record is read once. A run whose items have more than 64 MiB wants memory.
pub fn run_bytes<W: Wait, R: Reads>(
    rt: &W,
    alloc: Global,
    log: &mut R,
    run: u64,
    first: Lsn,
    last: Lsn,
) -> Result<Vec<u8>, Fault>
    requires numbers { IsTrue (is_number first) × IsTrue (is_number last) }
    requires order { first ≤ last }
    requires there { (l : List Record) → R.answers log.old l → last ≤ length l }
    ensures bytes { IfOk result (λ bytes. SpellsRun (R.answers log.old) run first last bytes.items) }
    ensures answers { (l : List Record) → R.answers log.old l ↔ R.answers log.new l }
    ensures log_later { (R.log_faults log.old ≤ R.log_faults log.new) × (R.vault_faults log.old ≤ R.vault_faults log.new) }
    ensures ended { IfSome (R.ended log.old) (λ at. R.ended log.new ≡ Some at) }
    ensures refused { IfErr result (FailsToRead (IsUnknown (R.answers log.old)) (R.log_faults log.old) (R.log_faults log.new) (R.ended log.new)) }
{
    let items = gather(rt, alloc, log, first, last)?;
    let bytes = items.bytes(alloc, run, first, last)?;
    Ok(bytes)
}

/// The items of the records with the LSNs from first to last.
fn gather<W: Wait, R: Reads>(
    rt: &W,
    alloc: Global,
    log: &mut R,
    first: Lsn,
    last: Lsn,
) -> Result<RunItems, Fault>
    requires numbers { IsTrue (is_number first) × IsTrue (is_number last) }
    requires order { first ≤ last }
    requires there { (l : List Record) → R.answers log.old l → last ≤ length l }
    ensures gathered { IfOk result (Gathered (R.answers log.old) first (last + 1)) }
    ensures answers { (l : List Record) → R.answers log.old l ↔ R.answers log.new l }
    ensures log_later { (R.log_faults log.old ≤ R.log_faults log.new) × (R.vault_faults log.old ≤ R.vault_faults log.new) }
    ensures ended { IfSome (R.ended log.old) (λ at. R.ended log.new ≡ Some at) }
    ensures refused { IfErr result (FailsToRead (IsUnknown (R.answers log.old)) (R.log_faults log.old) (R.log_faults log.new) (R.ended log.new)) }
{
    let mut items = RunItems::new(alloc);
    for lsn in first..last + 1 {
        let rec = log.read(rt, alloc, lsn)?;
        if !items.add(alloc, lsn, &rec, MOST_BYTES)? {
            return Err(Fault::Memory);
        }
    }
    Ok(items)
}
