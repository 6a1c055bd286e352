//! The right to maintenance at work: a look with it, and a record that names an object.
ghost use Rattle.std.specs.Prelude.{◌≡◌, List, OnErr, OnOk, IfErr, IfOk, IfSome, IsSome};
ghost use mathlib.Core.List.{IsPrefix};
ghost use Rattle.claim_laws.specs.Suiting.{Suits};
ghost use Rattle.page_ops.specs.Causes.{EndsBy, FailsToEnter, MeetsNoEnd, MeetsNoFault, NoOther};
ghost use Rattle.page_ops.specs.Claims.{MaintAgrees};
ghost use Rattle.page_ops.specs.Seeing.{Enters, Looks, known};
ghost use Rattle.wal_record.specs.Books.{maintenance_book};
ghost use Rattle.wal_record.specs.Rules.{HasSpelling};
ghost use Rattle.wal_record.specs.declared.record.Record.{Record};
ghost use Rattle.asking_laws.specs.Asks.{group_of};
ghost use Rattle.named_objects.specs.Drafts.{maintenance_alone, recorded};
ghost use Rattle.named_objects.specs.Named.{record_of};

use crate::naming::Naming;
use books::MaintRight;
use front::Pass;
use page_ops::{Entered, Entering, Group, Life, Rights};
use std::alloc::Global;
use std::sync::Wait;
use store_model::{Fault, List, Lsn, Memory};
use wal_record::Entry;

/// Shows both passes the whole history, with the right that agrees with what the first has seen. Gives the LSN of the last
/// record that names an object.
pub(crate) fn look<N: Life, J: Entering<N>, R: Wait>(
    rt: &R,
    journal: &mut J,
    right: &mut Option<MaintRight<N>>,
    own: &mut Pass<Entry, N>,
    pass: &mut Pass<Entry, N>,
) -> Lsn
    requires right { IsSome right.old }
    requires agrees { IfSome right.old (MaintAgrees own.old.log) }
    ensures right { right.new ≡ right.old }
    ensures agrees { IfSome right.new (MaintAgrees pass.new.log) }
    ensures place { result ≡ maintenance_book pass.new.log }
    ensures own { own.new ≡ pass.new }
    ensures begins { IsPrefix own.old.log pass.new.log }
    ensures seen { Looks N.opens N.entries N.session_entries (J.account journal.old) pass.old (J.account journal.new) pass.new }
    ensures calm { MeetsNoFault (J.account journal.old) (J.account journal.new) }
{
    let named = own.copy(&journal.ground().board);
    pass.meet(&journal.ground().board, named);
    let mut rights = Rights::none();
    rights.m = right.take();
    journal.see(rt, &mut rights, pass);
    *right = rights.m.take();
    *own = pass.copy(&journal.ground().board);
    match right {
        Some(right) => right.lsn(),
        None => 0,
    }
}

/// The group of a record that names an object.
fn naming_group(alloc: Global, naming: Naming) -> Result<Group, Memory>
    ensures { IfOk result (λ group. group ≡ group_of (record_of naming)) }
{
    let mut recs = List::new(alloc);
    recs.push(naming.into_record())?;
    Ok(Group {
        recs,
        said: None,
        room: false,
        lsn: 0,
    })
}

/// Enters a record that names an object, with the right that agrees with what the pass has seen. Gives its LSN.
pub(crate) fn enter_naming<N: Life, J: Entering<N>, R: Wait>(
    rt: &R,
    alloc: Global,
    journal: &mut J,
    naming: Naming,
    right: &mut Option<MaintRight<N>>,
    pass: &mut Pass<Entry, N>,
) -> Result<Lsn, Fault>
    requires right { IsSome right.old }
    requires agrees { IfSome right.old (MaintAgrees pass.old.log) }
    requires spelled { HasSpelling (record_of naming) }
    requires suits { (opening : List Record) → N.opens opening → Suits opening pass.old.log (record_of naming) }
    ensures right { IsSome right.new }
    ensures same { OnErr result (right.new ≡ right.old) }
    ensures entered { Enters N.opens N.entries N.session_entries (known (J.account journal.old) pass.old (maintenance_alone right.old)) (recorded naming result) (known (J.account journal.new) pass.new (maintenance_alone right.new)) }
    ensures open { OnOk result (MeetsNoEnd (J.account journal.old) (J.account journal.new)) }
    ensures refused { IfErr result (FailsToEnter NoOther) }
    ensures ends { IfErr result (EndsBy N.opens N.log_faults N.made (J.account journal.old) (J.account journal.new) pass.new.log) }
{
    let mut claims = Rights::none();
    claims.m = right.take();
    let made = naming_group(alloc, naming);
    let Ok(mut group) = made else {
        journal.see(rt, &mut claims, pass);
        *right = claims.m.take();
        return Err(Fault::Memory);
    };
    let entered = journal.enter(rt, alloc, &mut group, &mut claims, pass);
    *right = claims.m.take();
    match entered {
        Ok(Entered::At(_)) => Ok(group.lsn),
        Ok(_) => unreachable!(),
        Err(fault) => Err(fault),
    }
}
