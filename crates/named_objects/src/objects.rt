//! The vault, by what a pass has seen.
ghost use Rattle.std.specs.Prelude.{◌≡◌, ◌≢◌, ◌⊎◌, ◌≤◌, ◌-◌, ◌^◌, ℕ, List, Option, Ok, length, min, IfOk, IfErr, OnOk, OnErr};
ghost use Rattle.claim_laws.specs.Suiting.{Suits};
ghost use Rattle.media.specs.Cause.{HasCause};
ghost use Rattle.page_ops.specs.Causes.{EndsBy, FailsToEnter, MeetsNoEnd, MeetsNoFault, NoOther};
ghost use Rattle.page_ops.specs.Claims.{no_claims};
ghost use Rattle.page_ops.specs.Seeing.{Enters, Looks, known};
ghost use Rattle.wal_record.specs.Books.{maintenance_book};
ghost use Rattle.wal_record.specs.History.{life_log};
ghost use Rattle.wal_record.specs.Rules.{HasSpelling};
ghost use Rattle.wal_record.specs.declared.record.Record.{Record};
ghost use Rattle.named_objects.specs.Drafts.{ComesNext, OnNamed, behind_done, behind_put, behind_sync, naming_entries, ready};
ghost use Rattle.named_objects.specs.Named.{IsNamedPiece, Names, Tells, name_of, record_of};
ghost use Rattle.named_objects.specs.declared.draft.Done.TheVariants as dones;
ghost use Rattle.named_objects.specs.declared.draft.Draft.{Draft};
ghost use Rattle.named_objects.specs.declared.draft.Drafted.TheVariants as drafts;

use crate::draft::{Done, Drafted};
use crate::naming::Naming;
use front::Pass;
use media::Failed;
use page_ops::{Entering, Life};
use std::alloc::Global;
use std::sync::Wait;
use store_model::{Fault, Lsn, ObjectName};
use wal_record::Entry;

/// The vault of a life, whether one thread owns it or threads share it under a lock. Each call is at most one device call.
///
/// Whoever makes an object remembers the place of the last one that was named, puts the object's bytes, syncs, and then
/// names it. So no other object was named in between: where one was, the call is late.
pub trait Objects<N: Life> {
    /// How often the vault has failed at calls made through it.
    ghost faults: { Self → ℕ };

    /// The object that was put last through it, and isn't named yet.
    ghost draft: { Self → Option Draft };

    /// Whether nobody else puts objects.
    ghost alone: { Type 0 };

    /// How often the vault has failed at calls made through it.
    fn faults(&self) -> u64
        ensures { result ≡ min (faults self.now) (2 ^ 64 - 1) };

    /// Moves the bytes of an object that the log names from an offset on into `buf`, fewer than asked only at their end. The
    /// pass then has seen the whole history, which names it.
    fn get<J: Entering<N>, R: Wait>(
        &mut self,
        rt: &R,
        journal: &mut J,
        name: ObjectName,
        from: u64,
        buf: &mut [u8],
        pass: &mut Pass<Entry, N>,
    ) -> Result<usize, Failed>
        ensures within { IfOk result (λ n. n ≤ length buf.new) }
        ensures size { length buf.new ≡ length buf.old }
        ensures bytes { IfOk result (IsNamedPiece N.opens pass.new.log name from buf.old buf.new) }
        ensures draft { draft self.new ≡ draft self.old }
        ensures seen { Looks N.opens N.entries N.session_entries (J.account journal.old) pass.old (J.account journal.new) pass.new }
        ensures calm { MeetsNoFault (J.account journal.old) (J.account journal.new) }
        ensures cause { HasCause faults self.old self.new result };

    /// The LSN of the life's last record that names an object, 0 for none. It makes no device call.
    fn last_named<J: Entering<N>, R: Wait>(
        &mut self,
        rt: &R,
        journal: &mut J,
        pass: &mut Pass<Entry, N>,
    ) -> Lsn
        ensures place { result ≡ maintenance_book pass.new.log }
        ensures draft { draft self.new ≡ draft self.old }
        ensures faults { faults self.new ≡ faults self.old }
        ensures seen { Looks N.opens N.entries N.session_entries (J.account journal.old) pass.old (J.account journal.new) pass.new }
        ensures calm { MeetsNoFault (J.account journal.old) (J.account journal.new) };

    /// Puts the bytes of an object under the name that this gives it, in place of any draft. What is named stays as it was, also
    /// after `Failed`. It is late exactly where a record named an object since that place.
    fn put<J: Entering<N>, R: Wait>(
        &mut self,
        rt: &R,
        journal: &mut J,
        since: Lsn,
        naming: Naming,
        bytes: &[u8],
        pass: &mut Pass<Entry, N>,
    ) -> Result<Drafted, Failed>
        requires since { since ≤ maintenance_book pass.old.log }
        requires suits { (opening : List Record) → N.opens opening → Suits opening pass.old.log (record_of naming) }
        requires tells { (opening : List Record) → N.opens opening → Tells (life_log opening pass.old.log) naming bytes.now }
        ensures late { result ≡ Ok drafts.Late → maintenance_book pass.new.log ≢ since }
        ensures taken { result ≡ Ok drafts.Taken → maintenance_book pass.new.log ≡ since }
        ensures draft { draft self.new ≡ behind_put naming (draft self.old) result }
        ensures seen { Looks N.opens N.entries N.session_entries (J.account journal.old) pass.old (J.account journal.new) pass.new }
        ensures calm { MeetsNoFault (J.account journal.old) (J.account journal.new) }
        ensures cause { HasCause faults self.old self.new result };

    /// Makes the draft durable, where there is one.
    fn sync<R: Wait>(&mut self, rt: &R) -> Result<(), Failed>
        ensures draft { draft self.new ≡ behind_sync (draft self.old) result }
        ensures cause { HasCause faults self.old self.new result };

    /// Enters that the draft is durable: the log then names it, with the bytes that were put. It makes no device call. It is
    /// late where a record named an object since that place, or the draft isn't this one, or isn't durable.
    fn done<J: Entering<N>, R: Wait>(
        &mut self,
        rt: &R,
        alloc: Global,
        journal: &mut J,
        since: Lsn,
        naming: Naming,
        pass: &mut Pass<Entry, N>,
    ) -> Result<Done, Fault>
        requires since { since ≤ maintenance_book pass.old.log }
        requires spelled { HasSpelling (record_of naming) }
        requires suits { (opening : List Record) → N.opens opening → Suits opening pass.old.log (record_of naming) }
        ensures entered { Enters N.opens N.entries N.session_entries (known (J.account journal.old) pass.old no_claims) (naming_entries naming result) (known (J.account journal.new) pass.new no_claims) }
        // The log names it, with the bytes that it determines.
        ensures named { OnNamed result ((opening : List Record) (bytes : List ℕ) → N.opens opening → Tells (life_log opening pass.old.log) naming bytes → Names (life_log opening pass.new.log) (name_of naming) bytes) }
        // No object was named between that place and this one.
        ensures next { ComesNext since naming pass.new.log result }
        ensures late { alone → result ≡ Ok dones.Late → (maintenance_book pass.new.log ≢ since) ⊎ (draft self.old ≢ ready naming) }
        ensures draft { draft self.new ≡ behind_done (draft self.old) result }
        ensures faults { faults self.new ≡ faults self.old }
        ensures open { OnOk result (MeetsNoEnd (J.account journal.old) (J.account journal.new)) }
        ensures refused { IfErr result (FailsToEnter NoOther) }
        ensures ends { IfErr result (EndsBy N.opens N.log_faults N.made (J.account journal.old) (J.account journal.new) pass.new.log) };
}
