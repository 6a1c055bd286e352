//! A page in bytes of an object, for whoever doesn't read them from a vault itself.
ghost use Rattle.std.specs.Prelude.{◌≡◌, ◌+◌, ◌*◌, ℕ, List, Some, take, drop, IfOk, IfErr, IfSome};
ghost use Rattle.wal_record.specs.State.{KeepsState};
ghost use Rattle.wal_record.specs.Upkeep.{segment_of};
ghost use Rattle.backup_set.specs.Answers.{FailsToFind, GivesCopy, HasImage, IsBad, StandsInPlace, place_of};
ghost use Rattle.backup_set.specs.Backup.{IsAmong, IsBackup, backup_name};
ghost use Rattle.backup_set.specs.declared.copy.PageCopy.{PageCopy};
ghost use Rattle.page_image.specs.Image.{image_bytes};
ghost use Rattle.page_image.specs.declared.sealed.Sealed.{Sealed};
ghost use Rattle.backup_set.specs.declared.layout.TheConstants.{IMAGES_AT};
ghost use Rattle.store_model.specs.declared.limits.TheConstants.{PAGE_BYTES};

use crate::image::first_image;
use crate::layout::IMAGES_AT;
use crate::part::{Part, place_of, segment_of};
use crate::search::{head_of, search};
use page_image::{PageFault, Sealed, open_page};
use std::alloc::Global;
use store_model::{Fault, Memory, ObjectName, PAGE_BYTES, PageNo};

/// The object of the backup that has the page's segment.
pub fn object_of(backup: u64, page: PageNo) -> ObjectName
    ensures { result ≡ backup_name backup (segment_of page) }
{
    let part = Part {
        backup,
        segment: segment_of(page),
    };
    part.name()
}

/// Where the page's image begins in the object of a whole segment.
pub fn image_place(page: PageNo) -> u64
    ensures { result ≡ IMAGES_AT + PAGE_BYTES * place_of page }
{
    IMAGES_AT as u64 + PAGE_BYTES as u64 * u64::from(place_of(page))
}

/// The page, by the first 20 bytes of the object and the 4,096 from the page's place in a whole segment on; None exactly where
/// the head doesn't count an image there, or that isn't the page's.
pub fn page_in_place(
    alloc: Global,
    backup: u64,
    page: PageNo,
    head: &[u8],
    image: &[u8],
) -> Result<Option<Sealed>, Memory>
    ensures only { (x : Sealed) → StandsInPlace backup page head.now image.now x → IfOk result (λ found. found ≡ Some x) }
    ensures held { (bytes : List ℕ) → head.now ≡ take IMAGES_AT bytes → image.now ≡ take PAGE_BYTES (drop (IMAGES_AT + PAGE_BYTES * place_of page) bytes)
        → IfOk result (λ found. IfSome found (HasImage backup (segment_of page) page bytes)) }
    ensures rules { IfOk result (λ found. IfSome found (λ x. KeepsState x.state)) }
    ensures image { IfOk result (λ found. IfSome found (λ x. take PAGE_BYTES image.now ≡ image_bytes page x.lsn x.state)) }
{
    let part = Part {
        backup,
        segment: segment_of(page),
    };
    let count = match head_of(part, head) {
        Ok(count) => count,
        Err(Fault::VaultBad { .. }) => return Ok(None),
        Err(_) => return Err(Memory),
    };
    if count <= place_of(page) {
        return Ok(None);
    }
    let Some(image) = first_image(image) else {
        return Ok(None);
    };
    match open_page(alloc, &image, page) {
        Ok(sealed) => Ok(Some(sealed)),
        Err(PageFault::Memory) => Err(Memory),
        Err(PageFault::Digest) => Ok(None),
        Err(PageFault::Number) => Ok(None),
        Err(PageFault::Format { .. }) => Ok(None),
    }
}

/// The page in the object with these bytes. A faulty object is named with its first faulty field; one without the page, with
/// its count.
pub fn page_in_object(
    alloc: Global,
    backup: u64,
    page: PageNo,
    bytes: &[u8],
) -> Result<Sealed, Fault>
    ensures found { (copies : List PageCopy) → IsBackup backup (segment_of page) copies bytes.now → (c : PageCopy) → IsAmong c copies → c.page ≡ page → GivesCopy c result }
    ensures held { IfOk result (HasImage backup (segment_of page) page bytes.now) }
    ensures refused { IfErr result (FailsToFind (IsBad backup (segment_of page) page bytes.now)) }
{
    let part = Part {
        backup,
        segment: segment_of(page),
    };
    search(alloc, part, page, bytes)
}
