//! The records of a page are read.
ghost use Rattle.std.specs.Prelude.{◌≡◌, ◌≢◌, ◌≤◌, ◌<◌, ◌^◌, ℕ, List, Ok, IfOk, IfErr, IsErrAnd, IsTrue, MatchOption, OnErr, OnOk, ◌++◌, ⊤};
ghost use Rattle.std.specs.List.{All};
ghost use Rattle.media.specs.Counted.{Blames};
ghost use Rattle.media.specs.Objects.{SameObjects, bytes_of};
ghost use Rattle.store_model.specs.declared.fault.Fault.TheVariants as faults;
ghost use Rattle.wal_record.specs.Rules.{is_number};
ghost use Rattle.vault_objects.specs.Causes.{FailsAtVault, IsVaultFault};
ghost use Rattle.log_archive.specs.Answers.{FailsToFind, GivesItems, GivesSize, HasNone, IsBad, IsBadFor, IsEntryOf, IsFirstFault};
ghost use Rattle.log_archive.specs.Items.{Chunk, from_lsn, items_on};
ghost use Rattle.log_archive.specs.Reading.{run_at};
ghost use Rattle.log_archive.specs.Run.{IsRun, IsSpelled, run_name};
ghost use Rattle.log_archive.specs.declared.directory.Entry.{Entry};

use crate::directory::{Entry, Outline};
use crate::item::Numbered;
use crate::items::collect;
use crate::layout::{DIRECTORY_AT, ENTRY_BYTES, PAGES_AT};
use crate::name::{bad_at, run_name};
use crate::outline::run_at;
use media::Vault;
use state_codec::FieldFault;
use std::alloc::Global;
use store_model::{Fault, Lsn, PageNo};
use vault_objects::read_object;

/// Appends the records of a run that name the page, from an LSN on and by rising LSN. It reads the whole object. A faulty
/// object is named with its first faulty field, and one that has no such record with its number of pages; after any
/// refusal `out` is as before.
pub fn records_of<V: Vault>(
    alloc: Global,
    vault: &mut V,
    run: u64,
    page: PageNo,
    from: Lsn,
    out: &mut Vec<Numbered>,
) -> Result<(), Fault>
    requires run { IsTrue (is_number run) }
    // What was written is read.
    ensures found { V.tells → (first last : ℕ) (chunks : List Chunk) → IsRun run first last chunks (bytes_of (V.told vault.old (run_name run))) → GivesItems out.old.items out.new.items (from_lsn from (items_on page chunks)) result }
    ensures out_same { OnErr result (out.new.items ≡ out.old.items) }
    ensures refused { IfErr result (FailsAtVault (IsBadFor V.tells run page from (bytes_of (V.told vault.old (run_name run)))) (V.faults vault.old) (V.faults vault.new)) }
    ensures same { V.tells → SameObjects (V.told vault.old) (V.told vault.new) }
    ensures later { V.faults vault.old ≤ V.faults vault.new }
    ensures fuse { Blames V.passes V.refused V.own vault.old vault.new (IsErrAnd result IsVaultFault) }
{
    let bytes = read_object(alloc, vault, run_name(run))?;
    match records_in(alloc, run, page, from, &bytes) {
        Ok(found) => append(out, found),
        Err(fault) => Err(fault),
    }
}

/// Appends these items, or none where memory runs out.
fn append(out: &mut Vec<Numbered>, found: Vec<Numbered>) -> Result<(), Fault>
    ensures ok { OnOk result (out.new.items ≡ out.old.items ++ found.items) }
    ensures err { OnErr result (out.new.items ≡ out.old.items) }
    ensures memory { IfErr result (λ fault. fault ≡ faults.Memory) }
{
    let mut more = found;
    out.append(&mut more)?;
    Ok(())
}

/// The head and the directory of the run with these bytes.
pub fn outline_of(alloc: Global, run: u64, bytes: &[u8]) -> Result<Outline, Fault>
    ensures outline { IfOk result (λ o. run_at run bytes.now ≡ Ok o) }
    ensures refused { IfErr result (FailsToFind (λ object byte. (object ≡ run_name run) × IsFirstFault run bytes.now byte)) }
{
    match run_at(alloc, run, bytes) {
        Ok(outline) => Ok(outline),
        Err(FieldFault::Memory) => Err(Fault::Memory),
        Err(FieldFault::Bad { left }) => Err(bad_at(run, bytes.len().saturating_sub(left))),
    }
}

/// The entry of a page.
fn entry_of(entries: &[Entry], page: PageNo) -> Option<Entry>
    ensures { MatchOption result (All (λ (e : Entry). e.page ≢ page) entries.now) (λ e. (e.page ≡ page) × IsEntryOf e entries.now) }
{
    for entry in entries {
        if entry.page == page {
            return Some(*entry);
        }
    }
    None
}

/// The records that name the page, from an LSN on and by rising LSN, of the run with these bytes: at least one. Bytes that are
/// faulty are named with their first faulty field, and a run that has no such record with its number of pages.
pub fn records_in(
    alloc: Global,
    run: u64,
    page: PageNo,
    from: Lsn,
    bytes: &[u8],
) -> Result<Vec<Numbered>, Fault>
    ensures found { (first last : ℕ) (chunks : List Chunk) → IsRun run first last chunks bytes.now → IfOk result (λ found. found.items ≡ from_lsn from (items_on page chunks)) }
    ensures none { (first last : ℕ) (chunks : List Chunk) → IsRun run first last chunks bytes.now → IfErr result (HasNone (from_lsn from (items_on page chunks))) }
    // Also of bytes that no run has.
    ensures spelled { IfOk result (λ found. All IsSpelled found.items) }
    ensures refused { IfErr result (FailsToFind (IsBadFor ⊤ run page from bytes.now)) }
{
    match outline_of(alloc, run, bytes) {
        Ok(outline) => some_of_page(alloc, run, &outline, page, from, bytes),
        Err(fault) => Err(fault),
    }
}

/// The same, in the object with this outline.
fn some_of_page(
    alloc: Global,
    run: u64,
    outline: &Outline,
    page: PageNo,
    from: Lsn,
    bytes: &[u8],
) -> Result<Vec<Numbered>, Fault>
    requires reads { run_at run bytes.now ≡ Ok outline.now }
    ensures found { (first last : ℕ) (chunks : List Chunk) → IsRun run first last chunks bytes.now → IfOk result (λ found. found.items ≡ from_lsn from (items_on page chunks)) }
    ensures none { (first last : ℕ) (chunks : List Chunk) → IsRun run first last chunks bytes.now → IfErr result (HasNone (from_lsn from (items_on page chunks))) }
    ensures spelled { IfOk result (λ found. All IsSpelled found.items) }
    ensures refused { IfErr result (FailsToFind (IsBadFor ⊤ run page from bytes.now)) }
{
    match items_of_page(alloc, outline, page, from, bytes) {
        Ok(found) => if found.as_slice().is_empty() {
            Err(bad_at(run, PAGES_AT))
        } else {
            Ok(found)
        },
        Err(fault) => Err(fault),
    }
}

/// The items of the page from an LSN on, in the object with this outline.
fn items_of_page(
    alloc: Global,
    outline: &Outline,
    page: PageNo,
    from: Lsn,
    bytes: &[u8],
) -> Result<Vec<Numbered>, Fault>
    ensures found { (run first last : ℕ) (chunks : List Chunk) → IsRun run first last chunks bytes.now → run < 2 ^ 64 → run_at run bytes.now ≡ Ok outline.now
        → IfOk result (λ found. found.items ≡ from_lsn from (items_on page chunks)) }
    ensures spelled { IfOk result (λ found. All IsSpelled found.items) }
    ensures memory { IfErr result (λ fault. fault ≡ faults.Memory) }
{
    match entry_of(outline.entries.as_slice(), page) {
        None => Ok(Vec::new(alloc)),
        Some(entry) => {
            let at = (entry.offset as usize).min(bytes.len());
            let (_, rest) = bytes.split_at(at);
            let above = outline.head.first.saturating_sub(1);
            match collect(
                alloc,
                page,
                outline.head.last,
                from,
                entry.count,
                above,
                rest,
            ) {
                Ok(found) => Ok(found),
                // An object with an outline has these items.
                Err(_) => Err(Fault::Memory),
            }
        }
    }
}

/// How many bytes the items of a run have. It reads the whole object; a faulty one is named with its first faulty field.
pub fn items_of<V: Vault>(alloc: Global, vault: &mut V, run: u64) -> Result<u64, Fault>
    requires run { IsTrue (is_number run) }
    ensures found { V.tells → (first last : ℕ) (chunks : List Chunk) → IsRun run first last chunks (bytes_of (V.told vault.old (run_name run))) → GivesSize chunks result }
    ensures refused { IfErr result (FailsAtVault (IsBad V.tells run (bytes_of (V.told vault.old (run_name run)))) (V.faults vault.old) (V.faults vault.new)) }
    ensures same { V.tells → SameObjects (V.told vault.old) (V.told vault.new) }
    ensures later { V.faults vault.old ≤ V.faults vault.new }
    ensures fuse { Blames V.passes V.refused V.own vault.old vault.new (IsErrAnd result IsVaultFault) }
{
    let bytes = read_object(alloc, vault, run_name(run))?;
    size_of(alloc, run, &bytes)
}

/// How many bytes the items of the run with these bytes have.
fn size_of(alloc: Global, run: u64, bytes: &[u8]) -> Result<u64, Fault>
    requires run { IsTrue (is_number run) }
    ensures found { (first last : ℕ) (chunks : List Chunk) → IsRun run first last chunks bytes.now → GivesSize chunks result }
    ensures refused { IfErr result (FailsToFind (IsBad ⊤ run bytes.now)) }
{
    match outline_of(alloc, run, bytes) {
        Ok(outline) => {
            let front = DIRECTORY_AT as u64 + ENTRY_BYTES as u64 * u64::from(outline.head.pages);
            Ok((bytes.len() as u64).saturating_sub(front))
        }
        Err(fault) => Err(fault),
    }
}
