//! A page's copy in a backup.
ghost use Rattle.std.specs.Prelude.{◌≤◌, IfErr, IfOk, IfSome};
ghost use Rattle.page_ops.specs.Causes.{MeetsNoEnd};
ghost use Rattle.page_ops.specs.Claims.{no_claims};
ghost use Rattle.page_ops.specs.Seeing.{Upholds, is_none, known};
ghost use Rattle.vault_bases.specs.Faults.{FailsToGive};
ghost use Rattle.vault_bases.specs.Named.{IsBaseIn, IsHeld};

use crate::bases::VaultBases;
use crate::reading::read_named;
use backup_set::{
    IMAGES_AT, OBJECT_BYTES, first_image, image_place, object_of, page_in_object, page_in_place,
};
use front::Pass;
use named_objects::Objects;
use page_ops::{Entering, Life};
use segment_restore::Base;
use std::alloc::Global;
use std::sync::Wait;
use std::sync::ledger::Ledger;
use store_model::{Fault, PAGE_BYTES, PageNo};
use wal_record::Entry;

/// The page's copy, where the backup has the whole segment. It reads the object's head and one image.
fn in_place<N: Life, J: Entering<N>, O: Objects<N>, L: Ledger, R: Wait>(
    rt: &R,
    alloc: Global,
    journal: &mut J,
    bases: &mut VaultBases<O, L>,
    page: PageNo,
    backup: u64,
    pass: &mut Pass<Entry, N>,
) -> Result<Option<Base>, Fault>
    ensures copy { IfOk result (λ found. IfSome found (IsBaseIn N.opens pass.old.log page backup)) }
    ensures faults { bases.old.faults ≤ bases.new.faults }
    ensures vault { O.faults bases.old.objects ≤ O.faults bases.new.objects }
    ensures entered { Upholds N.opens N.entries N.session_entries is_none (known (J.account journal.old) pass.old no_claims) (known (J.account journal.new) pass.new no_claims) }
    ensures open { MeetsNoEnd (J.account journal.old) (J.account journal.new) }
    ensures refused { IfErr result (FailsToGive N.opens bases.old.faults bases.new.faults (O.faults bases.old.objects) (O.faults bases.new.objects)) }
{
    let name = object_of(backup, page);
    let head = read_named(rt, alloc, journal, bases, name, 0, IMAGES_AT, pass)?;
    let place = image_place(page);
    let image = read_named(rt, alloc, journal, bases, name, place, PAGE_BYTES, pass)?;
    let found = page_in_place(alloc, backup, page, &head, &image)?;
    let Some(sealed) = found else {
        return Ok(None);
    };
    Ok(Some(Base {
        sealed,
        bytes: first_image(&image),
    }))
}

/// The page's copy, from the whole object.
fn in_whole<N: Life, J: Entering<N>, O: Objects<N>, L: Ledger, R: Wait>(
    rt: &R,
    alloc: Global,
    journal: &mut J,
    bases: &mut VaultBases<O, L>,
    page: PageNo,
    backup: u64,
    pass: &mut Pass<Entry, N>,
) -> Result<Base, Fault>
    requires held { IsHeld N.opens pass.old.log page backup }
    ensures copy { IfOk result (IsBaseIn N.opens pass.old.log page backup) }
    ensures faults { bases.old.faults ≤ bases.new.faults }
    ensures vault { O.faults bases.old.objects ≤ O.faults bases.new.objects }
    ensures entered { Upholds N.opens N.entries N.session_entries is_none (known (J.account journal.old) pass.old no_claims) (known (J.account journal.new) pass.new no_claims) }
    ensures open { MeetsNoEnd (J.account journal.old) (J.account journal.new) }
    ensures refused { IfErr result (FailsToGive N.opens bases.old.faults bases.new.faults (O.faults bases.old.objects) (O.faults bases.new.objects)) }
{
    let name = object_of(backup, page);
    let bytes = read_named(rt, alloc, journal, bases, name, 0, OBJECT_BYTES, pass)?;
    let sealed = page_in_object(alloc, backup, page, &bytes)?;
    Ok(Base {
        sealed,
        bytes: None,
    })
}

/// The page's copy in a backup that the log names. In a life whose opening log isn't known an object may be bad.
pub(crate) fn find_copy<N: Life, J: Entering<N>, O: Objects<N>, L: Ledger, R: Wait>(
    rt: &R,
    alloc: Global,
    journal: &mut J,
    bases: &mut VaultBases<O, L>,
    page: PageNo,
    backup: u64,
    pass: &mut Pass<Entry, N>,
) -> Result<Base, Fault>
    requires held { IsHeld N.opens pass.old.log page backup }
    ensures copy { IfOk result (IsBaseIn N.opens pass.old.log page backup) }
    ensures faults { bases.old.faults ≤ bases.new.faults }
    ensures vault { O.faults bases.old.objects ≤ O.faults bases.new.objects }
    ensures entered { Upholds N.opens N.entries N.session_entries is_none (known (J.account journal.old) pass.old no_claims) (known (J.account journal.new) pass.new no_claims) }
    ensures open { MeetsNoEnd (J.account journal.old) (J.account journal.new) }
    ensures refused { IfErr result (FailsToGive N.opens bases.old.faults bases.new.faults (O.faults bases.old.objects) (O.faults bases.new.objects)) }
{
    match in_place(rt, alloc, journal, bases, page, backup, pass)? {
        Some(copy) => Ok(copy),
        None => in_whole(rt, alloc, journal, bases, page, backup, pass),
    }
}
