//! The state of a page from its image.
ghost use Rattle.std.specs.Prelude.{◌≡◌, ◌<◌, ◌↔◌, true, length, IfOk, IsTrue};
ghost use Rattle.std.specs.Int.{w8, w32};
ghost use Rattle.std.specs.List.{list_all};
ghost use Rattle.wal_record.specs.Rules.{is_number};
ghost use Rattle.wal_record.specs.State.{KeepsState};
ghost use Rattle.wal_record.specs.Reading.{number_at};
ghost use Rattle.state_codec.specs.Gives.{Gives};
ghost use Rattle.page_image.specs.Image.{image_bytes};
ghost use Rattle.page_image.specs.Reading.{is_format, is_page_number, is_zero, zeros_at, sealed_at, number_in, Verifies, Opens, GivesOr};

use crate::digest::sha_of;
use crate::fault::PageFault;
use crate::layout::DIGEST_BYTES;
use crate::sealed::Sealed;
use media::PageBytes;
use state_codec::{FieldFault, number_at, state_at, u8_at, u32_at, u32_in_front};
use std::alloc::Global;
use store_model::PageNo;

/// What the image of a page says, if the bytes are an image of this page. It looks at the digest first, then at the
/// number, then at all fields from the left.
pub fn open_page(alloc: Global, bytes: &PageBytes, page: PageNo) -> Result<Sealed, PageFault>
    ensures exact { Opens page bytes.now result }
    ensures found { IfOk result (λ x. KeepsState x.state × IsTrue (is_number x.lsn) × (bytes.now ≡ image_bytes page x.lsn x.state)) }
    ensures only { (x : Sealed) → KeepsState x.state → IsTrue (is_number x.lsn) → bytes.now ≡ image_bytes page x.lsn x.state → GivesOr x result }
{
    if !verifies(bytes) {
        return Err(PageFault::Digest);
    }
    let (_, body) = bytes.split_at(DIGEST_BYTES);
    if number_in(body) != page {
        return Err(PageFault::Number);
    }
    match sealed_at(alloc, page, body) {
        Ok(sealed) => Ok(sealed),
        Err(FieldFault::Memory) => Err(PageFault::Memory),
        Err(FieldFault::Bad { left }) => Err(PageFault::Format {
            byte: bytes.len() - left,
        }),
    }
}

/// Whether the bytes in front are the digest of the others.
fn verifies(bytes: &PageBytes) -> bool
    ensures { (result ≡ true) ↔ Verifies bytes.now }
{
    let (digest, body) = bytes.split_at(DIGEST_BYTES);
    let right = sha_of(body);
    digest == right.as_slice()
}

/// The number of the page in what follows the digest.
#[tactic(auto, unfolding(crate::specs::Reading::number_in))]
fn number_in(body: &[u8]) -> PageNo
    requires { 4 < length body.now }
    ensures { result ≡ number_in body.now }
{
    let (_, rest) = body.split_at(1);
    match u32_in_front(rest) {
        Some((number, _)) => number,
        None => 0,
    }
}

/// What follows the digest of an image of this page.
#[tactic(auto, unfolding(crate::specs::Reading::sealed_at))]
fn sealed_at(alloc: Global, page: PageNo, bytes: &[u8]) -> Result<Sealed, FieldFault>
    ensures { Gives (λ x. x) result (sealed_at page bytes.now) }
{
    let (_, rest) = format_at(bytes)?;
    let (_, rest) = page_number_at(page, rest)?;
    let (lsn, rest) = number_at(rest)?;
    let (state, rest) = state_at(alloc, rest)?;
    zeros_at(rest)?;
    Ok(Sealed { state, lsn })
}

#[tactic(auto, unfolding(wal_record::specs::Reading::number_at))]
fn format_at(bytes: &[u8]) -> Result<(u8, &[u8]), FieldFault>
    ensures { Gives (λ x. (x.0, x.1.now)) result (number_at w8 is_format bytes.now) }
{
    match bytes {
        [1, rest @ ..] => Ok((1, rest)),
        _ => Err(FieldFault::Bad { left: bytes.len() }),
    }
}

#[tactic(auto, unfolding(wal_record::specs::Reading::number_at))]
fn page_number_at(page: PageNo, bytes: &[u8]) -> Result<(PageNo, &[u8]), FieldFault>
    ensures { Gives (λ x. (x.0, x.1.now)) result (number_at w32 (is_page_number page) bytes.now) }
{
    match u32_in_front(bytes) {
        Some((number, rest)) if number == page => Ok((number, rest)),
        _ => Err(FieldFault::Bad { left: bytes.len() }),
    }
}

#[tactic(auto, unfolding(crate::specs::Reading::zeros_at))]
fn zeros_at(bytes: &[u8]) -> Result<(), FieldFault>
    ensures { Gives (λ x. 0) result (zeros_at bytes.now) }
{
    if are_zeros(bytes) {
        Ok(())
    } else {
        Err(FieldFault::Bad { left: bytes.len() })
    }
}

fn are_zeros(bytes: &[u8]) -> bool
    ensures { result ≡ list_all is_zero bytes.now }
{
    bytes.iter().all(|byte| *byte == 0)
}
