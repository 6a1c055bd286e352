//! A segment's images are written.
ghost use Rattle.std.specs.Prelude.{◌≡◌, ◌≤◌, ◌++◌, List, OnOk, IfOk, IfErr, IsErrAnd, IsTrue, length, flat_map};
ghost use Rattle.media.specs.Counted.{Blames};
ghost use Rattle.media.specs.Fused.{burnt};
ghost use Rattle.wal_record.specs.Rules.{is_number};
ghost use Rattle.vault_objects.specs.Causes.{FailsAtVault, IsVaultFault, NoneBad};
ghost use Rattle.vault_objects.specs.Stored.{MayStore, Stores};
ghost use Rattle.backup_set.specs.Backup.{AreImages, backup_name, object_bytes};
ghost use Rattle.backup_set.specs.declared.copy.PageCopy.{PageCopy};

use crate::layout::{IMAGES_AT, MARK};
use crate::part::Part;
use media::{PageBytes, Vault};
use state_codec::{put_u32, put_u64};
use std::alloc::{AllocError, Global};
use store_model::{Fault, Memory, PAGE_BYTES};
use vault_objects::store_object;

/// Writes the object of a backup's segment, with these images of pages of the segment by rising page: one put and one
/// sync. Where memory runs out, the vault is as it was.
pub fn write_segment<V: Vault>(
    alloc: Global,
    vault: &mut V,
    backup: u64,
    segment: u32,
    images: &[PageBytes],
) -> Result<(), Fault>
    requires backup { IsTrue (is_number backup) }
    requires images { (copies : List PageCopy) × AreImages segment images.now copies }
    ensures stored { V.tells → OnOk result (Stores (backup_name backup segment) (object_bytes backup segment images.now) (V.told vault.old) (V.told vault.new)) }
    // Also after a refusal.
    ensures may_store { V.tells → MayStore (backup_name backup segment) (object_bytes backup segment images.now) (V.told vault.old) (V.told vault.new) }
    // One put and one sync.
    ensures calls { OnOk result (V.passes vault.new ≡ burnt (burnt (V.passes vault.old))) }
    ensures refused { IfErr result (FailsAtVault NoneBad (V.faults vault.old) (V.faults vault.new)) }
    ensures later { V.faults vault.old ≤ V.faults vault.new }
    ensures fuse { Blames V.passes V.refused V.own vault.old vault.new (IsErrAnd result IsVaultFault) }
{
    let part = Part { backup, segment };
    let bytes = segment_bytes(alloc, backup, segment, images)?;
    store_object(vault, part.name(), &bytes)
}

/// The bytes of the object of a backup's segment with these images, for whoever puts them into a vault itself.
pub fn segment_bytes(
    alloc: Global,
    backup: u64,
    segment: u32,
    images: &[PageBytes],
) -> Result<Vec<u8>, Memory>
    requires { length images.now ≤ 16 }
    ensures { IfOk result (λ bytes. bytes.items ≡ object_bytes backup segment images.now) }
{
    let mut bytes = Vec::with_capacity(alloc, IMAGES_AT + PAGE_BYTES * images.len())?;
    put_u32(&mut bytes, MARK)?;
    put_u64(&mut bytes, backup)?;
    put_u32(&mut bytes, segment)?;
    put_u32(&mut bytes, images.len() as u32)?;
    put_images(&mut bytes, images)?;
    Ok(bytes)
}

fn put_images(bytes: &mut Vec<u8>, images: &[PageBytes]) -> Result<(), AllocError>
    ensures { OnOk result (bytes.new.items ≡ bytes.old.items ++ flat_map (λ image. image) images.now) }
{
    for image in images {
        bytes.extend_from_slice(image)?;
    }
    Ok(())
}
