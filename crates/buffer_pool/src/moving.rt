//! Pages into their frames, and out to the data device.
ghost use Rattle.std.specs.Prelude.{◌≡◌, ◌⊎◌, true, false, IfErr, OnErr, OnOk};
ghost use Rattle.media.specs.Cause.{Rose};
ghost use Rattle.page_ops.specs.Causes.{FailsToBring, FailsToReserve, MeetsNoEnd};
ghost use Rattle.page_ops.specs.Claims.{no_claims};
ghost use Rattle.page_ops.specs.Desks.{KeepsFaults};
ghost use Rattle.page_ops.specs.Seeing.{Upholds, is_upkeep, known};
ghost use Rattle.page_repair.specs.Images.{SameOthers, Spares};
ghost use Rattle.buffer_pool.specs.Brings.{Brings, Renews};
ghost use Rattle.buffer_pool.specs.Repairs.{Repairs};
ghost use Rattle.buffer_pool.specs.Tables.{Stays, Stores, frame_of, is_dirty, is_full};
ghost use Rattle.buffer_pool.specs.Writes.{HasImageOf, WritesOut, is_written, no_faults};

use crate::bringing::{anew, brought};
use crate::dropping::into_right;
use crate::frames::Frames;
use crate::writing::write_page;
use front::Pass;
use page_ops::{Entering, Held, Life, Rights, Taken};
use page_repair::{Images, Supply};
use std::alloc::Global;
use std::sync::Wait;
use store_model::{Fault, PageNo};
use wal_record::Entry;

/// Brings the page into its frame, where it isn't there. After a refusal each frame is as before and each right where it was.
/// A page whose right is neither at home nor with a page in its frame can't be brought.
pub(crate) fn fetch<N: Life, J: Entering<N>, I: Images<N>, S: Supply<N, J>, R: Wait>(
    rt: &R,
    alloc: Global,
    journal: &mut J,
    images: &mut I,
    supply: &mut S,
    frames: &mut Frames<N>,
    page: PageNo,
    pass: &mut Pass<Entry, N>,
) -> Result<(), Fault>
    ensures framed { OnOk result (is_full (frame_of frames.new page) ≡ true) }
    ensures brings { Brings N.opens N.entries N.session_entries page (I.faults images.old) (I.faults images.new) result frames.old frames.new (known (J.account journal.old) pass.old no_claims) (known (J.account journal.new) pass.new no_claims) }
    ensures spared { I.tells → Spares N.opens page pass.old.log pass.new.log I.newest images.old images.new }
    ensures entered { Upholds N.opens N.entries N.session_entries is_upkeep (known (J.account journal.old) pass.old no_claims) (known (J.account journal.new) pass.new no_claims) }
    ensures faults { KeepsFaults (S.faults supply.old) (S.faults supply.new) }
    ensures open { OnOk result (MeetsNoEnd (J.account journal.old) (J.account journal.new)) }
    ensures refused { IfErr result (FailsToBring N.opens N.log_faults N.made (S.faults supply.old) (S.faults supply.new) (J.account journal.old) (J.account journal.new) pass.new.log) }
{
    let Some(right) = frames.call_out(page) else {
        journal.see(rt, &mut Rights::none(), pass);
        return if frames.is_full(page) {
            Ok(())
        } else {
            Err(Fault::Memory)
        };
    };
    let lsn = right.lsn();
    let mut rights = Rights::none();
    rights.a = Some(right);
    match brought(
        rt,
        alloc,
        journal,
        images,
        supply,
        &mut rights,
        page,
        lsn,
        pass,
    ) {
        Ok(held) => {
            frames.put(held);
            Ok(())
        }
        Err(fault) => {
            let Some(right) = rights.a.take() else {
                unreachable!()
            };
            frames.send_home(right);
            Err(fault)
        }
    }
}

/// Brings the page in hand anew, without a look at the data device. After a refusal its right is at home.
pub(crate) fn fetch_anew<N: Life, J: Entering<N>, S: Supply<N, J>, R: Wait>(
    rt: &R,
    alloc: Global,
    journal: &mut J,
    supply: &mut S,
    frames: &mut Frames<N>,
    held: Held<N>,
    pass: &mut Pass<Entry, N>,
) -> Result<(), Fault>
    ensures renews { Renews held result frames.old frames.new }
    ensures repairs { Repairs N.opens N.entries N.session_entries held.page false result (known (J.account journal.old) pass.old no_claims) (known (J.account journal.new) pass.new no_claims) }
    ensures entered { Upholds N.opens N.entries N.session_entries is_upkeep (known (J.account journal.old) pass.old no_claims) (known (J.account journal.new) pass.new no_claims) }
    ensures faults { KeepsFaults (S.faults supply.old) (S.faults supply.new) }
    ensures open { OnOk result (MeetsNoEnd (J.account journal.old) (J.account journal.new)) }
    ensures refused { IfErr result (FailsToBring N.opens N.log_faults N.made (S.faults supply.old) (S.faults supply.new) (J.account journal.old) (J.account journal.new) pass.new.log) }
{
    let page = held.page;
    let lsn = held.lsn;
    let mut rights = Rights::none();
    rights.a = Some(into_right(held));
    match anew(rt, alloc, journal, supply, &mut rights, page, lsn, pass) {
        Ok(held) => {
            frames.put(held);
            Ok(())
        }
        Err(fault) => {
            let Some(right) = rights.a.take() else {
                unreachable!()
            };
            frames.send_home(right);
            Err(fault)
        }
    }
}

/// Writes the page to the data device, if it is in its frame and dirty. Where the device fails the page is dropped, and no
/// answer tells of it. After a refusal each frame is as before.
pub(crate) fn store<N: Life, J: Entering<N>, I: Images<N>, R: Wait>(
    rt: &R,
    alloc: Global,
    journal: &mut J,
    images: &mut I,
    frames: &mut Frames<N>,
    page: PageNo,
    pass: &mut Pass<Entry, N>,
) -> Result<(), Fault>
    ensures clean { OnOk result (is_dirty (frame_of frames.new page) ≡ false) }
    ensures stored { OnOk result (Stores page frames.old frames.new) }
    ensures dropped { OnOk result ((is_full (frame_of frames.new page) ≡ is_full (frame_of frames.old page)) ⊎ Rose (I.faults images.old) (I.faults images.new)) }
    ensures same { OnErr result (Stays frames.old frames.new) }
    ensures image { I.tells → OnOk result (HasImageOf page (frame_of frames.old page) (frame_of frames.new page) (I.newest images.new page)) }
    ensures images { I.tells → SameOthers I.newest page images.old images.new }
    ensures writes { WritesOut N.opens N.entries N.session_entries page result frames.old frames.new (known (J.account journal.old) pass.old no_claims) (known (J.account journal.new) pass.new no_claims) }
    ensures entered { Upholds N.opens N.entries N.session_entries is_written (known (J.account journal.old) pass.old no_claims) (known (J.account journal.new) pass.new no_claims) }
    ensures open { OnOk result (MeetsNoEnd (J.account journal.old) (J.account journal.new)) }
    ensures refused { IfErr result (FailsToReserve N.opens N.log_faults N.made no_faults no_faults (J.account journal.old) (J.account journal.new) pass.new.log) }
{
    if !frames.is_dirty(page) {
        journal.see(rt, &mut Rights::none(), pass);
        return Ok(());
    }
    let Taken::Page(mut held) = frames.try_take(page) else {
        unreachable!()
    };
    match write_page(rt, alloc, journal, images, &mut held, pass) {
        Ok(true) => {
            frames.note_written(page, held.lsn);
            frames.put(held);
            Ok(())
        }
        Ok(false) => {
            frames.send_home(into_right(held));
            Ok(())
        }
        Err(fault) => {
            frames.put(held);
            Err(fault)
        }
    }
}
