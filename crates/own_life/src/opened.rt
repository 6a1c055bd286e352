//! A life is opened.
ghost use Rattle.std.specs.Prelude.{◌≡◌, ◌<◌, List, [], None, IfErr, IfOk};
ghost use Rattle.journal.specs.State.{calls_of};
ghost use Rattle.opening.specs.Begins.{MayBegin};
ghost use Rattle.named_objects.specs.Named.{AreNamed};
ghost use Rattle.plain_store.specs.Opens.{AreEarlier};
ghost use Rattle.wal_record.specs.declared.record.Record.{Record};
ghost use Rattle.own_life.specs.State.{HasJustBegun};
ghost use Rattle.store_pages.specs.Pages.{IsIdle};

use crate::life::OwnLife;
use listed_log::ListedLog;
use media::{Disk, PageDevice, Vault};
use named_objects::OwnObjects;
use operators::Operators;
use own_journal::OwnJournal;
use page_ops::{Ground, Life, Tokens, VaultFaults};
use plain_store::{PlainStore, StoreRefused, open_store};
use std::alloc::Global;
use std::sync::ledger::Share;
use store_life::StoreLife;
use store_pages::StorePages;
use vault_bases::{Tally, VaultBases};

/// There was no memory for a life. Here are its devices.
#[derive(Drop)]
pub struct LifeRefused<L, D, V> {
    pub log: L,
    pub device: D,
    pub vault: V,
}

/// A life on this log, in which nothing has happened yet, and its pages over a data device that has images of the log, or none, and
/// a vault in which each object stands that the log names. It is refused only for want of memory, and then the devices are handed
/// back as they were.
pub fn open_life<'a, L: Disk, D: PageDevice, V: Vault, N: Life>(
    alloc: Global,
    operators: &'a Operators,
    ground: &'a Ground<N>,
    tokens: Tokens<N>,
    log: ListedLog<L>,
    device: D,
    vault: V,
) -> Result<(OwnLife<'a, L, N>, StorePages<'a, D, V, N>), LifeRefused<L, D, V>>
    requires opens { (opening : List Record) → N.opens opening → MayBegin L.tells L.told L.may_leave log.log log.listing opening }
    requires goes { log.log.log.ended ≡ None }
    requires told { (opening : List Record) → N.opens opening → D.tells × V.tells }
    requires images { D.tells → AreEarlier N.opens D.told device }
    requires objects { V.tells → AreNamed N.opens V.told [] vault }
    requires parts { (0 < N.entries.parts) × (0 < N.session_entries.parts) × (0 < N.log_faults.parts) × (0 < N.vault_faults.parts) × (0 < N.made.parts) }
    requires history { (tokens.front ≡ []) × (tokens.mark ≡ 0) × (tokens.pass.log ≡ []) }
    requires books { (tokens.books.pages ≡ []) × (tokens.books.sessions ≡ []) × (tokens.books.maint ≡ []) }
    ensures begins { IfOk result (λ opened. HasJustBegun N.opens (calls_of L.passes L.refused L.own log.log.log.device) opened.0) }
    ensures idle { IfOk result (λ opened. IsIdle opened.1.pool.out opened.1.pool.reserves) }
    ensures refused { IfErr result (λ r. r ≡ record { log = log.log.log.device; device = device; vault = vault }) }
{
    match open_store(alloc, ground, tokens, log, device, ()) {
        Ok(store) => {
            let PlainStore {
                mut journal,
                pages,
                mut pass,
                maint,
                vault_faults,
                ..
            } = store;
            let share = vault_share(&mut journal);
            let objects = OwnObjects::new(vault, maint, pass.copy(&ground.board));
            let faults = Tally::new(vault_faults, share);
            let bases = VaultBases { objects, faults };
            let pages = StorePages::new(pages, operators, bases);
            let _ = journal.end_seen(&mut pass);
            let named = Vec::new(alloc);
            let life = StoreLife { pass, named };
            Ok((OwnLife { journal, life }, pages))
        }
        Err(refused) => {
            let StoreRefused { log, device, .. } = refused;
            Err(LifeRefused { log, device, vault })
        }
    }
}

/// A part of the count of the vault's faults, of which none was counted.
fn vault_share<L: Disk, N: Life>(journal: &mut OwnJournal<'_, L, N>) -> Share<VaultFaults<N>>
    requires parts { 0 < journal.old.counts.vault_faults.parts }
    requires none { journal.old.counts.vault_faults.amount ≡ 0 }
    ensures parts { 0 < result.parts }
    ensures journal { journal.new.journal ≡ journal.old.journal }
    ensures entries { journal.new.counts.entries ≡ journal.old.counts.entries }
    ensures log_faults { journal.new.counts.log_faults ≡ journal.old.counts.log_faults }
    ensures ended { journal.new.counts.ended ≡ journal.old.counts.ended }
{
    journal.counts.vault_faults.split_off(1, 0)
}
