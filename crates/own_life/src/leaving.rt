//! The vault of a life that stops.
ghost use Rattle.std.specs.Prelude.{◌≡◌, ◌≤◌};
ghost use mathlib.Core.List.{IsPrefix};
ghost use Rattle.named_objects.specs.Named.{AreNamed};

use front::Pass;
use media::{Disk, Vault};
use named_objects::OwnObjects;
use own_journal::OwnJournal;
use page_ops::{Entering, Life, Rights};
use wal_record::Entry;

/// The vault as the life leaves it: each object that the log of the life names is synced in it. The pass then has seen the whole
/// history, which names no other object than its own pass had seen, since it has had the right to maintenance.
pub(crate) fn leave_vault<L: Disk, V: Vault, N: Life>(
    objects: OwnObjects<V, N>,
    journal: &mut OwnJournal<'_, L, N>,
    pass: &mut Pass<Entry, N>,
) -> V
    ensures vault { result ≡ objects.vault }
    ensures named { V.tells → AreNamed N.opens V.told journal.old.journal.history result }
    ensures same { (journal.new.journal ≡ journal.old.journal) × (journal.new.counts ≡ journal.old.counts) }
    ensures seen { IsPrefix pass.old.log pass.new.log × (pass.old.durable ≤ pass.new.durable) }
{
    let (vault, right, own) = objects.into_parts();
    pass.meet(&journal.ground().board, own);
    let mut rights = Rights::none();
    rights.m = Some(right);
    let OwnJournal { journal, counts } = journal;
    journal.see(&mut rights, pass, counts);
    vault
}
