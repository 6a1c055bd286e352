//! A supply of pages that owns the vault.
ghost use Rattle.std.specs.Prelude.{◌≡◌, ◌≤◌, List, IfErr, IfOk, OnOk};
ghost use Rattle.claim_laws.specs.Suiting.{Suits};
ghost use Rattle.page_ops.specs.Causes.{FailsToBring, MeetsNoEnd, MeetsNoFault};
ghost use Rattle.page_ops.specs.Claims.{no_claims};
ghost use Rattle.page_ops.specs.Desks.{KeepsFaults};
ghost use Rattle.page_ops.specs.Seeing.{Looks, known};
ghost use Rattle.wal_record.specs.Books.{maintenance_book};
ghost use Rattle.wal_record.specs.History.{life_log};
ghost use Rattle.wal_record.specs.Rules.{HasSpelling};
ghost use Rattle.wal_record.specs.declared.record.Record.{Record};
ghost use Rattle.named_objects.specs.Drafts.{NamesOne, WasNamed};
ghost use Rattle.named_objects.specs.Named.{Tells, record_of};

use front::Pass;
use named_objects::{Naming, Objects, name_object};
use page_ops::{Entering, Life};
use page_repair::Supply;
use segment_restore::LogSupply;
use std::alloc::Global;
use std::sync::Wait;
use std::sync::ledger::Ledger;
use store_model::{Fault, Lsn};
use vault_bases::VaultBases;
use wal_record::Entry;

/// A supply of pages behind which the vault stands. A pool's way to the vault goes by this trait, and not by the types of its
/// supply: for a pool over a named supply that holds a `dyn` the prover admits no trait that stands on another.
pub trait VaultSupply<N: Life, J: Entering<N>>: Supply<N, J> {
    /// The LSN of the life's last record that names an object, 0 for none. It makes no device call.
    fn last_named<R: Wait>(&mut self, rt: &R, journal: &mut J, pass: &mut Pass<Entry, N>) -> Lsn
        ensures place { result ≡ maintenance_book pass.new.log }
        ensures faults { Self.faults self.new ≡ Self.faults self.old }
        ensures seen { Looks N.opens N.entries N.session_entries (J.account journal.old) pass.old (J.account journal.new) pass.new }
        ensures calm { MeetsNoFault (J.account journal.old) (J.account journal.new) };

    /// Makes an object: puts its bytes, syncs them, has the record entered that names it, and makes the log durable up to that
    /// one, whose LSN it gives. Where another object was named since that place, it wants memory.
    fn name_object<R: Wait>(
        &mut self,
        rt: &R,
        alloc: Global,
        journal: &mut J,
        since: Lsn,
        naming: Naming,
        bytes: &[u8],
        pass: &mut Pass<Entry, N>,
    ) -> Result<Lsn, Fault>
        requires since { since ≤ maintenance_book pass.old.log }
        requires spelled { HasSpelling (record_of naming) }
        requires suits { (opening : List Record) → N.opens opening → Suits opening pass.old.log (record_of naming) }
        requires tells { (opening : List Record) → N.opens opening → Tells (life_log opening pass.old.log) naming bytes.now }
        ensures entered { NamesOne N.opens N.entries N.session_entries naming result (known (J.account journal.old) pass.old no_claims) (known (J.account journal.new) pass.new no_claims) }
        ensures named { IfOk result (λ lsn. WasNamed since lsn naming pass.old.log pass.new.log) }
        ensures durable { IfOk result (λ lsn. (opening : List Record) → N.opens opening → lsn ≤ pass.new.durable) }
        ensures sessions { (J.account journal.new).session_entries.amount ≡ (J.account journal.old).session_entries.amount }
        ensures faults { KeepsFaults (Self.faults self.old) (Self.faults self.new) }
        ensures open { OnOk result (MeetsNoEnd (J.account journal.old) (J.account journal.new)) }
        ensures refused { IfErr result (FailsToBring N.opens N.log_faults N.made (Self.faults self.old) (Self.faults self.new) (J.account journal.old) (J.account journal.new) pass.new.log) };
}

impl<'a, N: Life, J: Entering<N>, O: Objects<N>, L: Ledger> VaultSupply<N, J>
    for LogSupply<'a, VaultBases<O, L>> {
    fn last_named<R: Wait>(&mut self, rt: &R, journal: &mut J, pass: &mut Pass<Entry, N>) -> Lsn {
        self.bases.objects.last_named(rt, journal, pass)
    }

    fn name_object<R: Wait>(
        &mut self,
        rt: &R,
        alloc: Global,
        journal: &mut J,
        since: Lsn,
        naming: Naming,
        bytes: &[u8],
        pass: &mut Pass<Entry, N>,
    ) -> Result<Lsn, Fault> {
        let objects = &mut self.bases.objects;
        let named = name_object(rt, alloc, journal, objects, since, naming, bytes, pass);
        if let Err(Fault::VaultFault) = &named {
            self.bases.faults.add();
        }
        named
    }
}
