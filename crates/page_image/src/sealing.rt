//! The image of a page from its state.
ghost use Rattle.std.specs.Prelude.{◌≡◌, ◌++◌, ◌≤◌, ◌+◌, length, take, drop};
ghost use Rattle.wal_record.specs.State.{KeepsState};
ghost use Rattle.wal_record.specs.Spelling.{state_bytes};
ghost use Rattle.page_image.specs.Image.{head_bytes, padded, image_bytes, digest_of, sealed_body};
ghost use Rattle.page_image.specs.declared.layout.TheConstants.{BODY_BYTES};

use crate::digest::sha_of;
use crate::draft::Draft;
use crate::layout::DIGEST_BYTES;
use crate::writing::put_state;
use media::PageBytes;
use store_model::{Lsn, PAGE_BYTES, PageNo};
use wal_record::PageState;

/// The image of a page with this number and LSN. It takes no memory.
#[tactic(auto, unfolding(crate::specs::Image::body_bytes))]
pub fn seal(state: &PageState, page: PageNo, lsn: Lsn) -> PageBytes
    requires rules { KeepsState state.now }
    ensures { result ≡ image_bytes page lsn state.now }
{
    let draft = drafted(state, page, lsn);
    framed(draft.as_bytes())
}

/// All bytes of the image between its digest and the zero bytes.
fn drafted(state: &PageState, page: PageNo, lsn: Lsn) -> Draft
    requires rules { KeepsState state.now }
    ensures { result ≡ head_bytes page lsn ++ state_bytes state.now }
{
    let mut draft = Draft::new();
    draft.put_u8(1);
    draft.put_u32(page);
    draft.put_u64(lsn);
    put_state(&mut draft, state);
    draft
}

/// These bytes with zero bytes behind them, and their digest in front.
fn framed(body: &[u8]) -> PageBytes
    requires { length body.now ≤ BODY_BYTES }
    ensures { result ≡ sealed_body (padded body.now) }
{
    let mut bytes = [0u8; PAGE_BYTES];
    put(&mut bytes, DIGEST_BYTES, body);
    let digest = digest_of(&bytes);
    put(&mut bytes, 0, &digest);
    bytes
}

fn digest_of(bytes: &PageBytes) -> [u8; 32]
    ensures { result ≡ digest_of bytes.now }
{
    let (_, body) = bytes.split_at(DIGEST_BYTES);
    sha_of(body)
}

/// Puts bytes at a place.
fn put(bytes: &mut [u8], at: usize, with: &[u8])
    requires { at + length with.now ≤ length bytes.old }
    ensures { bytes.new ≡ take at bytes.old ++ with.now ++ drop (at + length with.now) bytes.old }
{
    let end = at + with.len();
    bytes[at..end].copy_from_slice(with);
}
