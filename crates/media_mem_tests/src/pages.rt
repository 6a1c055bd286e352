//! Which image of a page is read.

use media::{Failed, PageBytes, PageDevice};
use media_mem::MemPages;
use sha2::{Digest, Sha256};
use std::test::Fail;
use store_model::PageNo;

/// An image with the right digest in front, all other bytes this one.
pub fn image(byte: u8) -> PageBytes {
    let mut bytes = [byte; 4096];
    let digest = Sha256::digest(&bytes[32..]);
    bytes[..32].copy_from_slice(&digest);
    bytes
}

/// The byte of which the image is made that a read gives; none where its first byte isn't that of its digest.
fn byte_of(pages: &mut MemPages, page: PageNo) -> Result<Option<u8>, Failed> {
    let mut out = [0u8; 4096];
    pages.read(page, &mut out)?;
    let digest = Sha256::digest(&out[32..]);
    Ok(if out[0] == digest[0] {
        Some(out[32])
    } else {
        None
    })
}

#[test]
fn pages_give_their_newest_image_until_they_are_spoiled(rt: HostRuntime) -> Result<(), Fail> {
    let mut pages = MemPages::new(rt.alloc());
    assert_eq!(rt; byte_of(&mut pages, 3)?, None);
    pages.write(3, &image(1))?;
    pages.write(3, &image(2))?;
    assert_eq!(rt; byte_of(&mut pages, 3)?, Some(2));
    pages.spoil(3)?;
    assert_eq!(rt; byte_of(&mut pages, 3)?, None);
    pages.write(3, &image(4))?;
    assert_eq!(rt; byte_of(&mut pages, 3)?, Some(4));
    pages.replace()?;
    assert_eq!(rt; byte_of(&mut pages, 3)?, None);
    Ok(())
}
