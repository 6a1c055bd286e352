//! A page on its way to the data device.
ghost use Rattle.std.specs.Prelude.{◌≡◌, ◌≤◌, false, true, Some, IfOk, IfErr, IsTrue, OnErr, OnOk};
ghost use Rattle.media.specs.Cause.{Rose};
ghost use Rattle.page_ops.specs.Causes.{FailsToReserve, MeetsNoEnd};
ghost use Rattle.page_ops.specs.Claims.{no_claims};
ghost use Rattle.page_ops.specs.Seeing.{Upholds, is_none, known};
ghost use Rattle.page_image.specs.Image.{image_bytes};
ghost use Rattle.page_repair.specs.Images.{SameOthers};
ghost use Rattle.page_repair.specs.Supplies.{IsHead};
ghost use Rattle.wal_record.specs.Rules.{is_number, is_page};
ghost use Rattle.buffer_pool.specs.Writes.{EntersWritten, IsWrittenAs, is_written, no_faults, written_group};

use front::Pass;
use page_image::seal;
use page_ops::{Entered, Entering, Group, Held, Life, Rights};
use page_repair::Images;
use std::alloc::Global;
use std::sync::Wait;
use store_model::{Fault, List, Lsn, Memory, PageNo};
use wal_record::{Entry, Record, Written};

/// Writes the page in hand to the data device, once the log is durable up to its LSN, and enters that it was written: true,
/// and the page is then clean. False where the device failed. After a refusal the page is as before.
pub(crate) fn write_page<N: Life, J: Entering<N>, I: Images<N>, R: Wait>(
    rt: &R,
    alloc: Global,
    journal: &mut J,
    images: &mut I,
    held: &mut Held<N>,
    pass: &mut Pass<Entry, N>,
) -> Result<bool, Fault>
    ensures written { IsWrittenAs result held.old held.new }
    ensures enters { EntersWritten N.opens N.entries N.session_entries held.old.page held.old.lsn result (known (J.account journal.old) pass.old no_claims) (known (J.account journal.new) pass.new no_claims) }
    ensures entered { Upholds N.opens N.entries N.session_entries is_written (known (J.account journal.old) pass.old no_claims) (known (J.account journal.new) pass.new no_claims) }
    ensures image { I.tells → IfOk result (λ done. done ≡ true → I.newest images.new held.old.page ≡ Some (image_bytes held.old.page held.old.lsn held.old.state)) }
    ensures images { I.tells → SameOthers I.newest held.old.page images.old images.new }
    ensures failed { IfOk result (λ done. done ≡ false → Rose (I.faults images.old) (I.faults images.new)) }
    ensures open { OnOk result (MeetsNoEnd (J.account journal.old) (J.account journal.new)) }
    ensures refused { IfErr result (FailsToReserve N.opens N.log_faults N.made no_faults no_faults (J.account journal.old) (J.account journal.new) pass.new.log) }
{
    let made = group_of(alloc, held.page, held.lsn);
    let Ok(mut group) = made else {
        journal.see(rt, &mut Rights::none(), pass);
        return Err(Fault::Memory);
    };
    if !put_image(rt, journal, images, held, pass)? {
        return Ok(false);
    }
    enter_written(rt, alloc, journal, &mut group, held.page, held.lsn, pass)?;
    held.dirty = false;
    Ok(true)
}

/// Makes the log durable up to the page's LSN and writes the page's image. False where the device failed.
fn put_image<N: Life, J: Entering<N>, I: Images<N>, R: Wait>(
    rt: &R,
    journal: &mut J,
    images: &mut I,
    held: &mut Held<N>,
    pass: &mut Pass<Entry, N>,
) -> Result<bool, Fault>
    ensures same { held.new ≡ held.old }
    ensures named { OnOk result (IsHead N.opens pass.new.log held.old.page held.old.lsn) }
    ensures entered { Upholds N.opens N.entries N.session_entries is_none (known (J.account journal.old) pass.old no_claims) (known (J.account journal.new) pass.new no_claims) }
    ensures image { I.tells → IfOk result (λ done. done ≡ true → I.newest images.new held.old.page ≡ Some (image_bytes held.old.page held.old.lsn held.old.state)) }
    ensures images { I.tells → SameOthers I.newest held.old.page images.old images.new }
    ensures failed { IfOk result (λ done. done ≡ false → Rose (I.faults images.old) (I.faults images.new)) }
    ensures open { OnOk result (MeetsNoEnd (J.account journal.old) (J.account journal.new)) }
    ensures refused { IfErr result (FailsToReserve N.opens N.log_faults N.made no_faults no_faults (J.account journal.old) (J.account journal.new) pass.new.log) }
{
    let known = held.pass.copy(&journal.ground().board);
    pass.meet(&journal.ground().board, known);
    journal.flush(rt, held.lsn, pass)?;
    let bytes = seal(&held.state, held.page, held.lsn);
    let written = images.write(rt, held.page, &bytes, pass);
    journal.see(rt, &mut Rights::none(), pass);
    Ok(written.is_ok())
}

/// The group of a page that was written.
fn group_of(alloc: Global, page: PageNo, lsn: Lsn) -> Result<Group, Memory>
    ensures { IfOk result (λ group. group ≡ written_group page lsn) }
{
    let mut recs = List::new(alloc);
    recs.push(Record::Written(Written { page, lsn }))?;
    Ok(Group {
        recs,
        said: None,
        room: false,
        lsn: 0,
    })
}

/// Enters that the page was written.
fn enter_written<N: Life, J: Entering<N>, R: Wait>(
    rt: &R,
    alloc: Global,
    journal: &mut J,
    group: &mut Group,
    page: PageNo,
    lsn: Lsn,
    pass: &mut Pass<Entry, N>,
) -> Result<bool, Fault>
    requires group { group.old ≡ written_group page lsn }
    requires page { IsTrue (is_page page) }
    requires lsn { IsTrue (is_number lsn) }
    requires named { IsHead N.opens pass.old.log page lsn }
    ensures done { IfOk result (λ done. IsTrue done) }
    ensures enters { EntersWritten N.opens N.entries N.session_entries page lsn result (known (J.account journal.old) pass.old no_claims) (known (J.account journal.new) pass.new no_claims) }
    ensures entered { Upholds N.opens N.entries N.session_entries is_written (known (J.account journal.old) pass.old no_claims) (known (J.account journal.new) pass.new no_claims) }
    ensures open { OnOk result (MeetsNoEnd (J.account journal.old) (J.account journal.new)) }
    ensures refused { IfErr result (FailsToReserve N.opens N.log_faults N.made no_faults no_faults (J.account journal.old) (J.account journal.new) pass.new.log) }
{
    let mut rights = Rights::none();
    let Entered::At(_) = journal.enter(rt, alloc, group, &mut rights, pass)? else {
        unreachable!()
    };
    Ok(true)
}
