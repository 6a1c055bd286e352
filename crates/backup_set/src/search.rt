//! A page in all bytes of a backup object.
ghost use Rattle.std.specs.Prelude.{◌≡◌, ◌≤◌, ◌+◌, [], Ok, length, take, IfOk, IfErr};
ghost use Rattle.backup_set.specs.Answers.{FailsToFind, HasImage, IsBad, IsBadHead};
ghost use Rattle.backup_set.specs.Reading.{head_at};

use crate::head::head_at;
use crate::image::{Flaw, copy_at};
use crate::layout::{COUNT_AT, IMAGES_AT};
use crate::part::Part;
use page_image::Sealed;
use state_codec::FieldFault;
use std::alloc::Global;
use store_model::{Fault, PAGE_BYTES, PageNo};

/// How many images the head of the object with these first bytes counts.
pub fn head_of(part: Part, bytes: &[u8]) -> Result<u32, Fault>
    ensures count { IfOk result (λ n. (n ≤ 16) × (20 ≤ length bytes.now) × (head_at part.backup part.segment (take 20 bytes.now) ≡ Ok (n, []))) }
    ensures refused { IfErr result (FailsToFind (IsBadHead part.backup part.segment bytes.now)) }
{
    let (front, _) = bytes.split_at(IMAGES_AT.min(bytes.len()));
    match head_at(part, front) {
        Ok((count, _)) => Ok(count),
        Err(FieldFault::Memory) => Err(Fault::Memory),
        Err(FieldFault::Bad { left }) => Err(part.bad_at(front.len() - left)),
    }
}

/// The page behind the head of an object that counts so many images.
fn find(alloc: Global, part: Part, page: PageNo, count: u32, bytes: &[u8]) -> Result<Sealed, Fault>
    requires few { count ≤ 16 }
    requires long { 20 ≤ length bytes.now }
    requires head { head_at part.backup part.segment (take 20 bytes.now) ≡ Ok (count, []) }
    ensures held { IfOk result (HasImage part.backup part.segment page bytes.now) }
    ensures refused { IfErr result (FailsToFind (IsBad part.backup part.segment page bytes.now)) }
{
    let (_, images) = bytes.split_at(IMAGES_AT);
    let mut rest = images;
    let mut above = 0;
    for place in 0..count as usize {
        match copy_at(alloc, part.segment, above, rest) {
            Ok(copy) => {
                if copy.page == page {
                    return Ok(copy.sealed);
                }
                above = copy.page;
                let (_, behind) = rest.split_at(PAGE_BYTES);
                rest = behind;
            }
            Err(Flaw::Memory) => return Err(Fault::Memory),
            Err(Flaw::Bad { at }) => {
                return Err(part.bad_at(IMAGES_AT + PAGE_BYTES * place + at));
            }
        }
    }
    if rest.is_empty() {
        Err(part.bad_at(COUNT_AT))
    } else {
        Err(part.bad_at(IMAGES_AT + PAGE_BYTES * count as usize))
    }
}

/// The page in the object with these bytes.
pub fn search(alloc: Global, part: Part, page: PageNo, bytes: &[u8]) -> Result<Sealed, Fault>
    ensures held { IfOk result (HasImage part.backup part.segment page bytes.now) }
    ensures refused { IfErr result (FailsToFind (IsBad part.backup part.segment page bytes.now)) }
{
    let count = head_of(part, bytes)?;
    find(alloc, part, page, count, bytes)
}
