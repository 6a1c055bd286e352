//! Runs are merged.
ghost use Rattle.std.specs.Prelude.{◌≡◌, ◌≤◌, ◌<◌, ◌^◌, ◌++◌, ℕ, List, length, OnOk, IfOk, IfErr, IsErrAnd, IsTrue};
ghost use Rattle.media.specs.Counted.{Blames};
ghost use Rattle.media.specs.Objects.{SameObjects, bytes_of};
ghost use Rattle.store_model.specs.declared.fault.Fault.TheVariants as faults;
ghost use Rattle.wal_record.specs.Rules.{is_number};
ghost use Rattle.wal_record.specs.declared.analysis.Run.{Run};
ghost use Rattle.vault_objects.specs.Causes.{FailsAtVault, IsVaultFault};
ghost use Rattle.vault_objects.specs.Stored.{Stores};
ghost use Rattle.log_archive.specs.Answers.{FailsToFind, IsFirstFault, MayMake};
ghost use Rattle.log_archive.specs.Items.{Chunk, chunks_by, items_on};
ghost use Rattle.log_archive.specs.Merging.{AreParts, HasChunks, IsAdded, IsBadPart, first_in, items_in, last_in};
ghost use Rattle.log_archive.specs.Run.{IsRun, run_bytes, run_name};
ghost use Rattle.log_archive.specs.Shelves.{Holds};
ghost use Rattle.log_archive.specs.declared.item.Numbered.{Numbered};

use crate::directory::{Entry, Head};
use crate::items::behind_items;
use crate::layout::{DIRECTORY_AT, ENTRY_BYTES};
use crate::name::run_name;
use crate::object::object_of;
use crate::records::outline_of;
use crate::shelf::{Shelf, add};
use media::Vault;
use std::alloc::Global;
use store_model::{Fault, MOST_PAGES, Memory};
use vault_objects::{read_object, store_object};
use wal_record::Run;

/// Writes one run of the ranges of these, which follow each other without gaps: one put and one sync, behind which the parts
/// stay as they are. A faulty part is named with its first faulty field; then, and where memory runs out, the vault is as it
/// was.
pub fn merge_runs<V: Vault>(
    alloc: Global,
    vault: &mut V,
    parts: &[Run],
    run: u64,
) -> Result<(), Fault>
    requires run { IsTrue (is_number run) }
    ensures stored { V.tells → (css : List (List Chunk))
        → AreParts (V.told vault.old) parts.now css → OnOk result (Stores (run_name run) (run_bytes run (first_in parts.now) (last_in parts.now) (chunks_by (items_in css))) (V.told vault.old) (V.told vault.new)) }
    // It is short enough to be read again.
    ensures short { V.tells → (css : List (List Chunk))
        → AreParts (V.told vault.old) parts.now css → OnOk result (length (run_bytes run (first_in parts.now) (last_in parts.now) (chunks_by (items_in css))) < 2 ^ 32) }
    // Also after a refusal.
    ensures may_store { V.tells → MayMake run (V.told vault.old) (V.told vault.new) }
    ensures refused { IfErr result (FailsAtVault (IsBadPart V.tells (V.told vault.old) parts.now) (V.faults vault.old) (V.faults vault.new)) }
    ensures later { V.faults vault.old ≤ V.faults vault.new }
    ensures fuse { Blames V.passes V.refused V.own vault.old vault.new (IsErrAnd result IsVaultFault) }
{
    let shelves = gather_parts(alloc, vault, parts)?;
    let bytes = object_of(alloc, run, first_in(parts), last_in(parts), &shelves)?;
    store_object(vault, run_name(run), &bytes)
}

fn first_in(parts: &[Run]) -> u64
    ensures { result ≡ first_in parts.now }
{
    match parts {
        [] => 0,
        [first, ..] => first.first,
    }
}

fn last_in(parts: &[Run]) -> u64
    ensures { result ≡ last_in parts.now }
{
    match parts.last() {
        None => 0,
        Some(last) => last.last,
    }
}

/// The items of all parts, on the shelves of their pages.
fn gather_parts<V: Vault>(alloc: Global, vault: &mut V, parts: &[Run]) -> Result<Vec<Shelf>, Fault>
    ensures held { V.tells → (css : List (List Chunk)) → AreParts (V.told vault.old) parts.now css → IfOk result (λ shelves. Holds shelves.items (items_in css)) }
    ensures few { IfOk result (λ shelves. length shelves.items ≤ 16384) }
    ensures same { V.tells → SameObjects (V.told vault.old) (V.told vault.new) }
    ensures refused { IfErr result (FailsAtVault (IsBadPart V.tells (V.told vault.old) parts.now) (V.faults vault.old) (V.faults vault.new)) }
    ensures later { V.faults vault.old ≤ V.faults vault.new }
    ensures fuse { Blames V.passes V.refused V.own vault.old vault.new (IsErrAnd result IsVaultFault) }
{
    let mut shelves = Vec::new(alloc);
    for part in parts {
        let bytes = read_object(alloc, vault, run_name(part.run))?;
        add_run(alloc, part.run, &bytes, &mut shelves)?;
    }
    Ok(shelves)
}

/// The items of the run with these bytes, on the shelves of their pages.
fn add_run(alloc: Global, run: u64, bytes: &[u8], shelves: &mut Vec<Shelf>) -> Result<(), Fault>
    ensures added { (first last : ℕ) (chunks : List Chunk) → IsRun run first last chunks bytes.now
        → OnOk result ((f : ℕ → List Numbered) → Holds shelves.old.items f → Holds shelves.new.items (λ p. f p ++ items_on p chunks)) }
    ensures few { length shelves.old.items ≤ 16384 → length shelves.new.items ≤ 16384 }
    ensures refused { IfErr result (FailsToFind (λ object byte. (object ≡ run_name run) × IsFirstFault run bytes.now byte)) }
{
    match outline_of(alloc, run, bytes) {
        Ok(outline) => {
            let front = DIRECTORY_AT + ENTRY_BYTES * outline.head.pages as usize;
            let (_, items) = bytes.split_at(front.min(bytes.len()));
            add_chunks(
                alloc,
                outline.head,
                outline.entries.as_slice(),
                items,
                shelves,
            )
        }
        Err(fault) => Err(fault),
    }
}

/// The items of these entries, which are these bytes, on the shelves of their pages.
fn add_chunks(
    alloc: Global,
    head: Head,
    entries: &[Entry],
    bytes: &[u8],
    shelves: &mut Vec<Shelf>,
) -> Result<(), Fault>
    ensures added { (chunks : List Chunk) → HasChunks head entries.now bytes.now chunks → OnOk result ((f : ℕ → List Numbered) → Holds shelves.old.items f → Holds shelves.new.items (λ p. f p ++ items_on p chunks)) }
    ensures few { length shelves.old.items ≤ 16384 → length shelves.new.items ≤ 16384 }
    ensures memory { IfErr result (λ fault. fault ≡ faults.Memory) }
{
    let mut rest = bytes;
    for entry in entries {
        rest = add_chunk(alloc, head, *entry, rest, shelves)?;
    }
    Ok(())
}

/// The items of an entry, which these bytes begin with, on the shelf of its page. It gives what follows them.
fn add_chunk<'a>(
    alloc: Global,
    head: Head,
    entry: Entry,
    bytes: &'a [u8],
    shelves: &mut Vec<Shelf>,
) -> Result<&'a [u8], Memory>
    ensures added { IfOk result (λ rest. IsAdded head entry bytes.now rest.now shelves.old.items shelves.new.items) }
    ensures few { length shelves.old.items ≤ 16384 → length shelves.new.items ≤ 16384 }
{
    if entry.page < 1 || entry.page > MOST_PAGES {
        return Err(Memory);
    }
    let above = head.first.saturating_sub(1);
    match behind_items(alloc, entry.page, head.last, entry.count, above, bytes) {
        Ok(rest) => {
            let (span, _) = bytes.split_at(bytes.len().saturating_sub(rest.len()));
            add(alloc, shelves, entry.page, entry.count, span)?;
            Ok(rest)
        }
        Err(_) => Err(Memory),
    }
}
