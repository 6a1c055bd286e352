//! An image of the data device from which a page may be rebuilt.
ghost use Rattle.std.specs.Prelude.{◌≡◌, ◌≤◌, IfOk, IfSome, IfNone};
ghost use mathlib.Core.List.{IsPrefix};
ghost use Rattle.media.specs.Cause.{Rose};
ghost use Rattle.page_repair.specs.Images.{SameNewest};
ghost use Rattle.buffer_pool.specs.Bases.{IsBaseAmong, IsBaseIn, IsGiven};

use front::Pass;
use media::PageBytes;
use page_image::{PageFault, Sealed, open_page};
use page_ops::Life;
use page_repair::Images;
use std::alloc::Global;
use std::sync::Wait;
use store_model::{Lsn, Memory, PAGE_BYTES, PageNo};
use wal_record::Entry;

/// What the data device gives for the page; None where it failed, which is no fault of a bring.
pub(crate) fn read_image<N: Life, I: Images<N>, R: Wait>(
    rt: &R,
    images: &mut I,
    page: PageNo,
    pass: &mut Pass<Entry, N>,
) -> Option<PageBytes>
    ensures image { IfSome result (IsGiven N.opens pass.new page) }
    ensures seen { IsPrefix pass.old.log pass.new.log × (pass.old.durable ≤ pass.new.durable) }
    ensures same { I.tells → SameNewest I.newest images.old images.new }
    ensures later { I.faults images.old ≤ I.faults images.new }
    ensures failed { IfNone result (Rose (I.faults images.old) (I.faults images.new)) }
{
    let mut bytes = [0; PAGE_BYTES];
    match images.read(rt, page, &mut bytes, pass) {
        Ok(()) => Some(bytes),
        Err(_) => None,
    }
}

/// What the bytes say, exactly where they are an image of the page, not older than the one that was written last, and not
/// younger than the page's head.
fn base_of(
    alloc: Global,
    bytes: &PageBytes,
    page: PageNo,
    written: Lsn,
    head: Lsn,
) -> Result<Option<Sealed>, Memory>
    ensures { IfOk result (IsBaseIn page written head bytes.now) }
{
    match open_page(alloc, bytes, page) {
        Ok(sealed) => {
            if written <= sealed.lsn && sealed.lsn <= head {
                Ok(Some(sealed))
            } else {
                Ok(None)
            }
        }
        Err(PageFault::Memory) => Err(Memory),
        Err(_) => Ok(None),
    }
}

/// The same of bytes that the data device may have given.
pub(crate) fn base_in(
    alloc: Global,
    bytes: &Option<PageBytes>,
    page: PageNo,
    written: Lsn,
    head: Lsn,
) -> Result<Option<Sealed>, Memory>
    ensures { IfOk result (IsBaseAmong page written head bytes.now) }
{
    match bytes {
        Some(bytes) => base_of(alloc, bytes, page, written, head),
        None => Ok(None),
    }
}
