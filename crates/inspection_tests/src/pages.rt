//! The lines of pages, and their faults.
use crate::bytes::bytes_of;
use inspection::{Halt, inspect_page};
use media::{PageBytes, PageDevice};
use media_mem::{MemPages, MemSink};
use sha2::{Digest, Sha256};
use std::alloc::Global;
use std::test::Fail;

/// The image of page 1 at LSN 9 with one row, without its digest.
const IMAGE: &str = "00*32 01 00*3,01 00*7,09 00 00 00 00 0001 01,61 00 0001,31 00*4039";

/// An image with its digest, in which a byte was changed before the digest was made.
fn sealed(alloc: Global, place: usize, byte: u8) -> Result<PageBytes, Fail> {
    let mut image: PageBytes = [0; 4096];
    for (to, from) in image.iter_mut().zip(bytes_of(alloc, IMAGE)?.iter()) {
        *to = *from;
    }
    if let Some(to) = image.get_mut(place) {
        *to = byte;
    }
    let digest = digest_of(image.get(32..).unwrap_or_default());
    for (to, from) in image.iter_mut().zip(digest.iter()) {
        *to = *from;
    }
    Ok(image)
}

fn digest_of(bytes: &[u8]) -> [u8; 32] {
    let mut hasher = Sha256::new();
    hasher.update(bytes);
    hasher.finalize()
}

/// What is found of a page on a device that has this image for it.
fn inspected(
    alloc: Global,
    page: u32,
    last: u64,
    image: &PageBytes,
    sink: &mut MemSink,
) -> Result<Result<(), Halt>, Fail> {
    let mut pages = MemPages::new(alloc);
    pages.write(page, image)?;
    Ok(inspect_page(alloc, &mut pages, page, last, sink))
}

#[test]
fn a_page_has_a_line(rt: HostRuntime) -> Result<(), Fail> {
    let alloc = rt.alloc();
    let mut sink = MemSink::new(alloc);
    assert_eq!(rt;
        inspected(alloc, 1, 9, &sealed(alloc, 32, 1)?, &mut sink)?,
        Ok(())
    );
    assert_eq!(rt; inspected(alloc, 2, 9, &[0; 4096], &mut sink)?, Ok(()));
    let lines =
        "page 1 lsn=9 level=0 low=% high none foster none rows=1 key=a value=1\npage 2 unwritten\n";
    assert!(rt; sink.bytes() == lines.as_bytes());
    Ok(())
}

#[test]
fn the_first_fault_of_a_page_is_named_by_its_byte(rt: HostRuntime) -> Result<(), Fail> {
    let alloc = rt.alloc();
    // a format, a number, a tombstone's flag, a byte behind the state; each begins where it is named
    for (place, byte, fault) in [(32, 2, 32), (36, 2, 33), (53, 2, 53), (4095, 1, 57)] {
        let image = sealed(alloc, place, byte)?;
        let outcome = inspected(alloc, 1, 9, &image, &mut MemSink::new(alloc))?;
        assert_eq!(rt;
            outcome,
            Err(Halt::Page {
                page: 1,
                byte: fault
            })
        );
    }
    let mut torn = sealed(alloc, 32, 1)?;
    torn[52] = b'b';
    let outcome = inspected(alloc, 1, 9, &torn, &mut MemSink::new(alloc))?;
    assert_eq!(rt; outcome, Err(Halt::Page { page: 1, byte: 0 }), "its digest");
    let outcome = inspected(
        alloc,
        1,
        8,
        &sealed(alloc, 32, 1)?,
        &mut MemSink::new(alloc),
    )?;
    assert_eq!(rt;
        outcome,
        Err(Halt::Page { page: 1, byte: 37 }),
        "its LSN is behind the log's end"
    );
    Ok(())
}
