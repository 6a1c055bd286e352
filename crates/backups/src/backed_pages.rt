//! Pages with a vault behind them.
ghost use Rattle.std.specs.Prelude.{◌≡◌, ◌≤◌, List, IfErr, IfOk, OnOk};
ghost use Rattle.claim_laws.specs.Suiting.{Suits};
ghost use Rattle.foster_tree.specs.Nows.{KeepsDesk};
ghost use Rattle.page_ops.specs.Causes.{FailsToBring, MeetsNoEnd, MeetsNoFault};
ghost use Rattle.page_ops.specs.Claims.{no_claims};
ghost use Rattle.page_ops.specs.Seeing.{Looks, known};
ghost use Rattle.wal_record.specs.Books.{maintenance_book};
ghost use Rattle.wal_record.specs.History.{life_log};
ghost use Rattle.wal_record.specs.Rules.{HasSpelling};
ghost use Rattle.wal_record.specs.declared.record.Record.{Record};
ghost use Rattle.named_objects.specs.Drafts.{NamesOne, WasNamed};
ghost use Rattle.named_objects.specs.Named.{Tells, record_of};

use front::Pass;
use named_objects::Naming;
use page_ops::{Entering, Life, Pages};
use std::alloc::Global;
use std::sync::Wait;
use store_model::{Fault, Lsn};
use wal_record::Entry;

/// A thread's way to the pages of a pool, and to the vault that their backups stand in. One object has both, since a pool's
/// supply may own the vault. Where the vault fails at one of these calls, that counts as one of the pages' own faults.
pub trait BackedPages<N: Life, J: Entering<N>>: Pages<N, J> {
    /// The LSN of the life's last record that names an object, 0 for none. It makes no device call.
    fn last_named<R: Wait>(&mut self, rt: &R, journal: &mut J, pass: &mut Pass<Entry, N>) -> Lsn
        ensures place { result ≡ maintenance_book pass.new.log }
        ensures desk { Self.desk self.new ≡ Self.desk self.old }
        ensures seen { Looks N.opens N.entries N.session_entries (J.account journal.old) pass.old (J.account journal.new) pass.new }
        ensures calm { MeetsNoFault (J.account journal.old) (J.account journal.new) };

    /// Makes an object: puts its bytes, syncs them, has the record entered that names it, and makes the log durable up to that
    /// one, whose LSN it gives. Where another object was named since that place, it wants memory.
    fn name_object<R: Wait>(
        &mut self,
        rt: &R,
        alloc: Global,
        journal: &mut J,
        since: Lsn,
        naming: Naming,
        bytes: &[u8],
        pass: &mut Pass<Entry, N>,
    ) -> Result<Lsn, Fault>
        requires since { since ≤ maintenance_book pass.old.log }
        requires spelled { HasSpelling (record_of naming) }
        requires suits { (opening : List Record) → N.opens opening → Suits opening pass.old.log (record_of naming) }
        requires tells { (opening : List Record) → N.opens opening → Tells (life_log opening pass.old.log) naming bytes.now }
        ensures entered { NamesOne N.opens N.entries N.session_entries naming result (known (J.account journal.old) pass.old no_claims) (known (J.account journal.new) pass.new no_claims) }
        ensures named { IfOk result (λ lsn. WasNamed since lsn naming pass.old.log pass.new.log) }
        ensures durable { IfOk result (λ lsn. (opening : List Record) → N.opens opening → lsn ≤ pass.new.durable) }
        ensures sessions { (J.account journal.new).session_entries.amount ≡ (J.account journal.old).session_entries.amount }
        ensures out { (Self.desk self.new).out ≡ (Self.desk self.old).out }
        ensures desk { KeepsDesk (Self.desk self.old) (Self.desk self.new) }
        ensures open { OnOk result (MeetsNoEnd (J.account journal.old) (J.account journal.new)) }
        ensures refused { IfErr result (FailsToBring N.opens N.log_faults N.made (Self.desk self.old).faults (Self.desk self.new).faults (J.account journal.old) (J.account journal.new) pass.new.log) };
}
