//! An image in a backup object.
ghost use Rattle.std.specs.Prelude.{◌≡◌, ◌↔◌, ◌<◌, ◌≤◌, true, length, take, IfOk, IfErr, MatchOption};
ghost use Rattle.std.specs.Int.{w8};
ghost use Rattle.page_image.specs.Reading.{Verifies, is_format};
ghost use Rattle.state_codec.specs.Gives.{Gives};
ghost use Rattle.wal_record.specs.Reading.{number_at};
ghost use Rattle.backup_set.specs.Backup.{IsCopy, copy_bytes};
ghost use Rattle.backup_set.specs.Reading.{IsFlaw, IsFlawIn, next_at};

use crate::copy::PageCopy;
use crate::head::next_page_at;
use media::PageBytes;
use page_image::{PageFault, open_page};
use state_codec::FieldFault;
use std::alloc::Global;
use store_model::{PAGE_BYTES, PageNo};

/// Why no image of a page begins where one has to.
#[derive(Drop)]
pub enum Flaw {
    Memory,
    /// It is cut, its digest is wrong, or the field that begins at this byte of it breaks its rule.
    Bad { at: usize },
}

#[tactic(auto, unfolding(wal_record::specs::Reading::number_at))]
fn format_at(bytes: &[u8]) -> Result<(u8, &[u8]), FieldFault>
    ensures { Gives (λ x. (x.0, x.1.now)) result (number_at w8 is_format bytes.now) }
{
    match bytes {
        [1, rest @ ..] => Ok((1, rest)),
        _ => Err(FieldFault::Bad { left: bytes.len() }),
    }
}

/// The number of the page, of this segment and above another, in what follows the digest of its image.
#[tactic(auto, unfolding(crate::specs::Reading::next_at))]
fn next_at(segment: u32, above: PageNo, body: &[u8]) -> Result<(PageNo, &[u8]), FieldFault>
    ensures { Gives (λ x. (x.0, x.1.now)) result (next_at segment above body.now) }
{
    let (_, rest) = format_at(body)?;
    next_page_at(segment, above, rest)
}

/// Whether the first 32 bytes are the digest of the others.
fn verifies(alloc: Global, image: &PageBytes) -> bool
    ensures { (result ≡ true) ↔ Verifies image.now }
{
    match open_page(alloc, image, 0) {
        Err(PageFault::Digest) => false,
        _ => true,
    }
}

/// The first image's bytes, where they aren't cut.
pub fn first_image(bytes: &[u8]) -> Option<PageBytes>
    ensures { MatchOption result (length bytes.now < 4096) (λ image. (4096 ≤ length bytes.now) × (image ≡ take 4096 bytes.now)) }
{
    if bytes.len() < PAGE_BYTES {
        return None;
    }
    let (front, _) = bytes.split_at(PAGE_BYTES);
    let mut image: PageBytes = [0; PAGE_BYTES];
    image.copy_from_slice(front);
    Some(image)
}

/// What the image of a page says, of this segment and above another.
fn image_copy(
    alloc: Global,
    segment: u32,
    above: PageNo,
    image: &PageBytes,
) -> Result<PageCopy, Flaw>
    ensures found { IfOk result (λ c. IsCopy segment above c × (image.now ≡ copy_bytes c)) }
    ensures flaw { IfErr result (IsFlawIn segment above image.now) }
{
    let (_, body) = image.split_at(32);
    match next_at(segment, above, body) {
        Ok((page, _)) => match open_page(alloc, image, page) {
            Ok(sealed) => Ok(PageCopy { page, sealed }),
            Err(PageFault::Memory) => Err(Flaw::Memory),
            Err(PageFault::Digest) => Err(Flaw::Bad { at: 0 }),
            Err(PageFault::Number) => Err(Flaw::Bad { at: 33 }),
            Err(PageFault::Format { byte }) => Err(Flaw::Bad { at: byte }),
        },
        Err(FieldFault::Memory) => Err(Flaw::Memory),
        Err(FieldFault::Bad { left }) => if verifies(alloc, image) {
            Err(Flaw::Bad {
                at: PAGE_BYTES - left,
            })
        } else {
            Err(Flaw::Bad { at: 0 })
        },
    }
}

/// The page whose image the bytes begin with, of this segment and above another.
pub fn copy_at(alloc: Global, segment: u32, above: PageNo, bytes: &[u8]) -> Result<PageCopy, Flaw>
    ensures found { IfOk result (λ c. IsCopy segment above c × (4096 ≤ length bytes.now) × (take 4096 bytes.now ≡ copy_bytes c)) }
    ensures flaw { IfErr result (IsFlaw segment above bytes.now) }
{
    match first_image(bytes) {
        None => Err(Flaw::Bad { at: 0 }),
        Some(image) => image_copy(alloc, segment, above, &image),
    }
}
