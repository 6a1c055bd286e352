//! Objects of backups, and vaults that hold an object.
ghost use Rattle.std.specs.Prelude.{IfSome};
ghost use Rattle.wal_record.specs.State.{KeepsState};

use media::{Fuse, PageBytes, Vault};
use media_mem::MemVault;
use page_image::seal;
use state_codec::put_u32;
use std::alloc::Global;
use store_model::{Bound, List, Lsn, ObjectKind, ObjectName, PageNo};
use wal_record::{PageState, Rows};

/// The number of the backup.
pub(crate) const BACKUP: u64 = 7;

/// The number of the run.
pub(crate) const RUN: u64 = 5;

/// The letters, the number of the backup, and the segment 0.
const FRONT: &[u8] = b"BAK1\0\0\0\0\0\0\0\x07\0\0\0\0";

/// The pages of a segment.
const PAGES: u32 = 16;

/// The object of the first segment.
pub(crate) fn name() -> ObjectName {
    ObjectName {
        kind: ObjectKind::Backup,
        id: BACKUP,
        part: 0,
    }
}

/// A leaf with all keys and no rows.
fn leaf_state(alloc: Global) -> Option<PageState>
    ensures { IfSome result KeepsState }
{
    Some(PageState {
        level: 0,
        low: Bound::at(&[])?,
        high: Bound::top(),
        foster: None,
        rows: Rows::Leaf(List::new(alloc)),
    })
}

/// The image of such a leaf at this LSN.
fn image(alloc: Global, page: PageNo, lsn: Lsn) -> Option<PageBytes> {
    let state = leaf_state(alloc)?;
    Some(seal(&state, page, lsn))
}

/// The object with images at this LSN of these pages: the lowest bit stands for page 1.
pub(crate) fn object(alloc: Global, has: u32, lsn: Lsn) -> Option<Vec<u8>> {
    let mut bytes = Vec::new(alloc);
    bytes.extend_from_slice(FRONT).ok()?;
    put_u32(&mut bytes, has.count_ones()).ok()?;
    for place in 0..PAGES {
        if has >> place & 1 == 1 {
            let image = image(alloc, place + 1, lsn)?;
            bytes.extend_from_slice(&image).ok()?;
        }
    }
    Some(bytes)
}

/// A vault with the object, which passes so many calls more, or all.
pub(crate) fn vault_with(
    alloc: Global,
    name: ObjectName,
    bytes: &[u8],
    calls: Option<u64>,
) -> Option<Fuse<MemVault>> {
    let mut vault = Fuse::new(MemVault::new(alloc));
    vault.put(name, bytes).ok()?;
    if let Some(calls) = calls {
        vault.arm(calls);
    }
    Some(vault)
}
