//! A page that is rebuilt is written back.
ghost use Rattle.std.specs.Prelude.{◌≡◌, ◌≤◌, ◌⊎◌, Some, IfErr, IfOk, IfSome, OnOk};
ghost use Rattle.media.specs.Cause.{Rose};
ghost use Rattle.page_image.specs.Image.{image_bytes};
ghost use Rattle.page_ops.specs.Causes.{FailsToBring, MeetsNoEnd};
ghost use Rattle.page_ops.specs.Claims.{no_claims};
ghost use Rattle.page_ops.specs.Seeing.{Upholds, is_none, known};
ghost use Rattle.page_repair.specs.Images.{SameOthers};
ghost use Rattle.page_repair.specs.Supplies.{IsHead, IsRebuilt};
ghost use Rattle.segment_restore.specs.Based.{IsBased};
ghost use Rattle.segment_restore.specs.Faults.{no_faults, of_vault};
ghost use Rattle.segment_restore.specs.Restored.{IsHeadImage};
ghost use Rattle.wal_record.specs.State.{KeepsState};

use crate::base::{Base, sealed_of};
use crate::bases::Bases;
use crate::rebuilding::rebuild_in_life;
use front::Pass;
use media::PageBytes;
use operators::Operators;
use page_image::seal;
use page_ops::{Entering, Life, Rights};
use page_repair::Images;
use std::alloc::Global;
use std::sync::Wait;
use store_model::{Fault, Lsn, PageNo};
use wal_record::Entry;

/// Writes the page's image at this head, once the log is durable up to it. The device may fail; the page is then repaired when
/// it is brought.
fn write_image<N: Life, J: Entering<N>, I: Images<N>, R: Wait>(
    rt: &R,
    journal: &mut J,
    images: &mut I,
    page: PageNo,
    head: Lsn,
    image: &Base,
    pass: &mut Pass<Entry, N>,
) -> Result<(), Fault>
    requires head { IsHead N.opens pass.old.log page head }
    requires rebuilt { IsRebuilt N.opens pass.old.log page head image.now.sealed }
    requires bytes { IfSome image.now.bytes (λ bytes. bytes ≡ image_bytes page head image.now.sealed.state) }
    ensures written { I.tells → OnOk result ((I.newest images.new page ≡ Some (image_bytes page head image.now.sealed.state)) ⊎ Rose (I.faults images.old) (I.faults images.new)) }
    ensures others { I.tells → SameOthers I.newest page images.old images.new }
    ensures images { I.faults images.old ≤ I.faults images.new }
    ensures entered { Upholds N.opens N.entries N.session_entries is_none (known (J.account journal.old) pass.old no_claims) (known (J.account journal.new) pass.new no_claims) }
    ensures open { OnOk result (MeetsNoEnd (J.account journal.old) (J.account journal.new)) }
    ensures refused { IfErr result (FailsToBring N.opens N.log_faults N.made no_faults no_faults (J.account journal.old) (J.account journal.new) pass.new.log) }
{
    journal.flush(rt, head, pass)?;
    let bytes = bytes_of(page, head, image);
    let _written = images.write(rt, page, &bytes, pass);
    journal.see(rt, &mut Rights::none(), pass);
    Ok(())
}

/// The bytes of the page's image at this head.
fn bytes_of(page: PageNo, head: Lsn, image: &Base) -> PageBytes
    requires keeps { KeepsState image.now.sealed.state }
    requires bytes { IfSome image.now.bytes (λ bytes. bytes ≡ image_bytes page head image.now.sealed.state) }
    ensures { result ≡ image_bytes page head image.now.sealed.state }
{
    match &image.bytes {
        Some(bytes) => *bytes,
        None => seal(&image.sealed.state, page, head),
    }
}

/// The page's logged image at this head: its base, where no record of the page came since, or else what is rebuilt from that, or
/// from nothing.
fn image_at<N: Life, J: Entering<N>, B: Bases<N, J>, R: Wait>(
    rt: &R,
    alloc: Global,
    journal: &mut J,
    bases: &mut B,
    page: PageNo,
    base: Option<Base>,
    head: Lsn,
    operators: &Operators,
    pass: &mut Pass<Entry, N>,
) -> Result<Base, Fault>
    requires base { IfSome base (IsBased N.opens pass.old.log page head) }
    requires head { IsHead N.opens pass.old.log page head }
    ensures rebuilt { IfOk result (λ image. IsRebuilt N.opens pass.new.log page head image.sealed) }
    ensures bytes { IfOk result (λ image. IfSome image.bytes (λ bytes. bytes ≡ image_bytes page head image.sealed.state)) }
    ensures faults { B.vault_faults bases.old ≤ B.vault_faults bases.new }
    ensures entered { Upholds N.opens N.entries N.session_entries is_none (known (J.account journal.old) pass.old no_claims) (known (J.account journal.new) pass.new no_claims) }
    ensures open { OnOk result (MeetsNoEnd (J.account journal.old) (J.account journal.new)) }
    ensures refused { IfErr result (FailsToBring N.opens N.log_faults N.made (of_vault (B.vault_faults bases.old)) (of_vault (B.vault_faults bases.new)) (J.account journal.old) (J.account journal.new) pass.new.log) }
{
    match base {
        Some(base) if base.sealed.lsn == head => {
            journal.see(rt, &mut Rights::none(), pass);
            Ok(base)
        }
        older => {
            let base = sealed_of(older);
            let sealed = rebuild_in_life(
                rt, alloc, journal, bases, page, base, head, operators, pass,
            )?;
            Ok(Base {
                sealed,
                bytes: None,
            })
        }
    }
}

/// Rebuilds the page at this head, from its base or from nothing, and writes it to the data device, which may fail.
pub(crate) fn restore_page<N: Life, J: Entering<N>, I: Images<N>, B: Bases<N, J>, R: Wait>(
    rt: &R,
    alloc: Global,
    journal: &mut J,
    images: &mut I,
    bases: &mut B,
    page: PageNo,
    head: Lsn,
    operators: &Operators,
    pass: &mut Pass<Entry, N>,
) -> Result<(), Fault>
    requires head { IsHead N.opens pass.old.log page head }
    ensures written { I.tells → OnOk result (IsHeadImage N.opens pass.new.log page head (I.newest images.new page) ⊎ Rose (I.faults images.old) (I.faults images.new)) }
    ensures others { I.tells → SameOthers I.newest page images.old images.new }
    ensures faults { B.vault_faults bases.old ≤ B.vault_faults bases.new }
    ensures images { I.faults images.old ≤ I.faults images.new }
    ensures entered { Upholds N.opens N.entries N.session_entries is_none (known (J.account journal.old) pass.old no_claims) (known (J.account journal.new) pass.new no_claims) }
    ensures open { OnOk result (MeetsNoEnd (J.account journal.old) (J.account journal.new)) }
    ensures refused { IfErr result (FailsToBring N.opens N.log_faults N.made (of_vault (B.vault_faults bases.old)) (of_vault (B.vault_faults bases.new)) (J.account journal.old) (J.account journal.new) pass.new.log) }
{
    let base = bases.base(rt, alloc, journal, page, head, pass)?;
    let image = image_at(rt, alloc, journal, bases, page, base, head, operators, pass)?;
    write_image(rt, journal, images, page, head, &image, pass)
}
