//! An object is made: put, synced and named.
ghost use Rattle.std.specs.Prelude.{◌≡◌, ◌≤◌, List, Ok, IfErr, IfOk, OnOk};
ghost use Rattle.claim_laws.specs.Suiting.{Suits};
ghost use Rattle.media.specs.Cause.{HasCause};
ghost use Rattle.page_ops.specs.Causes.{MeetsNoEnd, MeetsNoFault};
ghost use Rattle.page_ops.specs.Claims.{no_claims};
ghost use Rattle.page_ops.specs.Seeing.{Looks, known};
ghost use Rattle.wal_record.specs.Books.{maintenance_book};
ghost use Rattle.wal_record.specs.History.{life_log};
ghost use Rattle.wal_record.specs.Rules.{HasSpelling};
ghost use Rattle.wal_record.specs.declared.record.Record.{Record};
ghost use Rattle.named_objects.specs.Drafts.{FailsToName, NamesOne, WasNamed};
ghost use Rattle.named_objects.specs.Named.{Tells, record_of};
ghost use Rattle.named_objects.specs.declared.draft.Drafted.TheVariants as drafts;

use crate::draft::{Done, Drafted};
use crate::naming::Naming;
use crate::objects::Objects;
use front::Pass;
use media::Failed;
use page_ops::{Entering, Life, Rights};
use std::alloc::Global;
use std::sync::Wait;
use store_model::{Fault, Lsn};
use wal_record::Entry;

/// Puts the bytes of an object as a draft, and syncs it. It is late where an object was named since that place.
fn put_synced<N: Life, J: Entering<N>, O: Objects<N>, R: Wait>(
    rt: &R,
    journal: &mut J,
    objects: &mut O,
    since: Lsn,
    naming: Naming,
    bytes: &[u8],
    pass: &mut Pass<Entry, N>,
) -> Result<Drafted, Failed>
    requires since { since ≤ maintenance_book pass.old.log }
    requires suits { (opening : List Record) → N.opens opening → Suits opening pass.old.log (record_of naming) }
    requires tells { (opening : List Record) → N.opens opening → Tells (life_log opening pass.old.log) naming bytes.now }
    ensures taken { result ≡ Ok drafts.Taken → maintenance_book pass.new.log ≡ since }
    ensures seen { Looks N.opens N.entries N.session_entries (J.account journal.old) pass.old (J.account journal.new) pass.new }
    ensures calm { MeetsNoFault (J.account journal.old) (J.account journal.new) }
    ensures cause { HasCause O.faults objects.old objects.new result }
{
    match objects.put(rt, journal, since, naming, bytes, pass)? {
        Drafted::Taken => {}
        Drafted::Late => return Ok(Drafted::Late),
    }
    objects.sync(rt)?;
    Ok(Drafted::Taken)
}

/// Has the record entered that names the draft, and makes the log durable up to it.
fn name_durably<N: Life, J: Entering<N>, O: Objects<N>, R: Wait>(
    rt: &R,
    alloc: Global,
    journal: &mut J,
    objects: &mut O,
    since: Lsn,
    naming: Naming,
    pass: &mut Pass<Entry, N>,
) -> Result<Lsn, Fault>
    requires since { since ≤ maintenance_book pass.old.log }
    requires spelled { HasSpelling (record_of naming) }
    requires suits { (opening : List Record) → N.opens opening → Suits opening pass.old.log (record_of naming) }
    ensures entered { NamesOne N.opens N.entries N.session_entries naming result (known (J.account journal.old) pass.old no_claims) (known (J.account journal.new) pass.new no_claims) }
    ensures named { IfOk result (λ lsn. WasNamed since lsn naming pass.old.log pass.new.log) }
    ensures durable { IfOk result (λ lsn. (opening : List Record) → N.opens opening → lsn ≤ pass.new.durable) }
    ensures sessions { (J.account journal.new).session_entries.amount ≡ (J.account journal.old).session_entries.amount }
    ensures faults { O.faults objects.new ≡ O.faults objects.old }
    ensures open { OnOk result (MeetsNoEnd (J.account journal.old) (J.account journal.new)) }
    ensures refused { IfErr result (FailsToName N.opens N.log_faults N.made (O.faults objects.old) (O.faults objects.new) (J.account journal.old) (J.account journal.new) pass.new.log) }
{
    let lsn = match objects.done(rt, alloc, journal, since, naming, pass)? {
        Done::At(lsn) => lsn,
        Done::Late => return Err(Fault::Memory),
    };
    journal.flush(rt, lsn, pass)?;
    Ok(lsn)
}

/// Makes an object: puts its bytes, syncs them, has the record entered that names it, and makes the log durable up to that one,
/// whose LSN it gives. Where another object was named since that place, it wants memory: what the record tells may be no more
/// so.
pub fn name_object<N: Life, J: Entering<N>, O: Objects<N>, R: Wait>(
    rt: &R,
    alloc: Global,
    journal: &mut J,
    objects: &mut O,
    since: Lsn,
    naming: Naming,
    bytes: &[u8],
    pass: &mut Pass<Entry, N>,
) -> Result<Lsn, Fault>
    requires since { since ≤ maintenance_book pass.old.log }
    requires spelled { HasSpelling (record_of naming) }
    requires suits { (opening : List Record) → N.opens opening → Suits opening pass.old.log (record_of naming) }
    requires tells { (opening : List Record) → N.opens opening → Tells (life_log opening pass.old.log) naming bytes.now }
    ensures entered { NamesOne N.opens N.entries N.session_entries naming result (known (J.account journal.old) pass.old no_claims) (known (J.account journal.new) pass.new no_claims) }
    ensures named { IfOk result (λ lsn. WasNamed since lsn naming pass.old.log pass.new.log) }
    ensures durable { IfOk result (λ lsn. (opening : List Record) → N.opens opening → lsn ≤ pass.new.durable) }
    ensures sessions { (J.account journal.new).session_entries.amount ≡ (J.account journal.old).session_entries.amount }
    ensures faults { O.faults objects.old ≤ O.faults objects.new }
    ensures open { OnOk result (MeetsNoEnd (J.account journal.old) (J.account journal.new)) }
    ensures refused { IfErr result (FailsToName N.opens N.log_faults N.made (O.faults objects.old) (O.faults objects.new) (J.account journal.old) (J.account journal.new) pass.new.log) }
{
    let copied = naming.copy(alloc);
    let Ok(draft) = copied else {
        journal.see(rt, &mut Rights::none(), pass);
        return Err(Fault::Memory);
    };
    match put_synced(rt, journal, objects, since, draft, bytes, pass) {
        Ok(Drafted::Taken) => name_durably(rt, alloc, journal, objects, since, naming, pass),
        Ok(Drafted::Late) => Err(Fault::Memory),
        Err(_) => Err(Fault::VaultFault),
    }
}
