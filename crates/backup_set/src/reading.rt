//! A page is read.
ghost use Rattle.std.specs.Prelude.{◌≡◌, ◌≤◌, List, IfOk, IfErr, IfSome, IsErrAnd, IsTrue};
ghost use Rattle.media.specs.Counted.{Blames};
ghost use Rattle.media.specs.Objects.{SameObjects, bytes_of};
ghost use Rattle.wal_record.specs.Rules.{is_number, is_page};
ghost use Rattle.wal_record.specs.Upkeep.{segment_of};
ghost use Rattle.vault_objects.specs.Causes.{FailsAtVault, IsVaultFault, NoneBad};
ghost use Rattle.backup_set.specs.Answers.{GivesCopy, HasAt, HasImage, IsToldBad};
ghost use Rattle.backup_set.specs.Backup.{IsAmong, IsBackup, backup_name};
ghost use Rattle.backup_set.specs.declared.copy.PageCopy.{PageCopy};

use crate::image::first_image;
use crate::layout::IMAGES_AT;
use crate::part::{Part, place_of, segment_of};
use crate::search::{head_of, search};
use media::Vault;
use page_image::{PageFault, Sealed, open_page};
use std::alloc::Global;
use store_model::{Fault, PAGE_BYTES, PageNo};
use vault_objects::{read_bytes, read_object};

/// The page as this backup has it. Where the backup has its whole segment, that reads the object's head and one image. A
/// faulty object is named with its first faulty field; one without the page, with its count.
pub fn read_page<V: Vault>(
    alloc: Global,
    vault: &mut V,
    backup: u64,
    page: PageNo,
) -> Result<Sealed, Fault>
    requires backup { IsTrue (is_number backup) }
    requires page { IsTrue (is_page page) }
    // What was written is read.
    ensures found { V.tells → (copies : List PageCopy) → IsBackup backup (segment_of page) copies (bytes_of (V.told vault.old (backup_name backup (segment_of page))))
        → (c : PageCopy) → IsAmong c copies → c.page ≡ page → GivesCopy c result }
    // What is read stands there.
    ensures held { V.tells → IfOk result (HasImage backup (segment_of page) page (bytes_of (V.told vault.old (backup_name backup (segment_of page))))) }
    ensures refused { IfErr result (FailsAtVault (IsToldBad V.tells backup (segment_of page) page (bytes_of (V.told vault.old (backup_name backup (segment_of page))))) (V.faults vault.old) (V.faults vault.new)) }
    ensures same { V.tells → SameObjects (V.told vault.old) (V.told vault.new) }
    ensures later { V.faults vault.old ≤ V.faults vault.new }
    ensures fuse { Blames V.passes V.refused V.own vault.old vault.new (IsErrAnd result IsVaultFault) }
{
    let part = Part {
        backup,
        segment: segment_of(page),
    };
    match at_its_place(alloc, vault, part, page)? {
        Some(sealed) => Ok(sealed),
        None => in_whole(alloc, vault, part, page),
    }
}

/// The page, if its image stands where it does in a whole segment.
fn at_its_place<V: Vault>(
    alloc: Global,
    vault: &mut V,
    part: Part,
    page: PageNo,
) -> Result<Option<Sealed>, Fault>
    ensures held { V.tells → IfOk result (λ found. IfSome found (HasImage part.backup part.segment page (bytes_of (V.told vault.old (backup_name part.backup part.segment))))) }
    ensures refused { IfErr result (FailsAtVault NoneBad (V.faults vault.old) (V.faults vault.new)) }
    ensures same { V.tells → SameObjects (V.told vault.old) (V.told vault.new) }
    ensures later { V.faults vault.old ≤ V.faults vault.new }
    ensures fuse { Blames V.passes V.refused V.own vault.old vault.new (IsErrAnd result IsVaultFault) }
{
    let place = place_of(page);
    let head = read_bytes(alloc, vault, part.name(), 0, IMAGES_AT)?;
    match head_of(part, &head) {
        Ok(count) if place < count => image_at(alloc, vault, part, page, place),
        _ => Ok(None),
    }
}

/// The page, if its image stands at this place.
fn image_at<V: Vault>(
    alloc: Global,
    vault: &mut V,
    part: Part,
    page: PageNo,
    place: u32,
) -> Result<Option<Sealed>, Fault>
    requires { place ≤ 16 }
    ensures image { V.tells → IfOk result (λ found. IfSome found (HasAt page (bytes_of (V.told vault.old (backup_name part.backup part.segment))) place)) }
    ensures refused { IfErr result (FailsAtVault NoneBad (V.faults vault.old) (V.faults vault.new)) }
    ensures same { V.tells → SameObjects (V.told vault.old) (V.told vault.new) }
    ensures later { V.faults vault.old ≤ V.faults vault.new }
    ensures fuse { Blames V.passes V.refused V.own vault.old vault.new (IsErrAnd result IsVaultFault) }
{
    let from = IMAGES_AT as u64 + PAGE_BYTES as u64 * u64::from(place);
    let bytes = read_bytes(alloc, vault, part.name(), from, PAGE_BYTES)?;
    match first_image(&bytes) {
        None => Ok(None),
        Some(image) => match open_page(alloc, &image, page) {
            Ok(sealed) => Ok(Some(sealed)),
            Err(PageFault::Memory) => Err(Fault::Memory),
            Err(_) => Ok(None),
        },
    }
}

/// The page, by reading the whole object.
fn in_whole<V: Vault>(
    alloc: Global,
    vault: &mut V,
    part: Part,
    page: PageNo,
) -> Result<Sealed, Fault>
    ensures held { V.tells → IfOk result (HasImage part.backup part.segment page (bytes_of (V.told vault.old (backup_name part.backup part.segment)))) }
    ensures refused { IfErr result (FailsAtVault (IsToldBad V.tells part.backup part.segment page (bytes_of (V.told vault.old (backup_name part.backup part.segment)))) (V.faults vault.old) (V.faults vault.new)) }
    ensures same { V.tells → SameObjects (V.told vault.old) (V.told vault.new) }
    ensures later { V.faults vault.old ≤ V.faults vault.new }
    ensures fuse { Blames V.passes V.refused V.own vault.old vault.new (IsErrAnd result IsVaultFault) }
{
    let bytes = read_object(alloc, vault, part.name())?;
    search(alloc, part, page, &bytes)
}
