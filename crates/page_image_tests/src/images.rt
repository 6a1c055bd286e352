//! Images worked out by hand from the table of fields, with digests that another program computed.
use media::PageBytes;
use page_image::{PageFault, Sealed, open_page, seal};
use sha2::{Digest, Sha256};
use std::alloc::Global;
use std::test::Fail;
use store_model::PageNo;
use wal_record::Rows;

const EMPTY: &[u8] = b"\x01\0\0\0\x01\0\0\0\0\0\0\0\x01\0\0\0\0\0\0";

const EMPTY_DIGEST: &[u8] =
    b"\x87\xe1\x9fT\xeb\x15i\xe1\x19\xeb\xd7Cj4\xdaH\x99/-6\xd5\x16\xda\xe1<\x1c\xf9^\x93\xc4^\x82";

const LEAF: &[u8] =
    b"\x01\0\0\0\x03\0\0\0\0\0\0\x01,\0\x01a\x01\x01q\x01\x01p\0\0\0\x09\0\x03\x05apple\0\0\x011\x03fig\x01\0\0\x04kiwi\0\0\0";

const LEAF_DIGEST: &[u8] =
    b"\xe2\x22\xbc\x1e&4\xa0\x0f\x03\xd6S\xe4\xba\x13\x09\x0a\x13/t\x13G\x0f\x1d\x0c\xf5\xd0\xf3\xba\x83a\xe4e";

const BRANCH: &[u8] =
    b"\x01\0\0@\0\x7f\xff\xff\xff\xff\xff\xff\xff\x02\0\0\0\0\x02\0\0\0\0\x02\x01m\0\0@\0";

const BRANCH_DIGEST: &[u8] =
    b"\x03\x09\x89e\x15\xb0\xb4\x9c\xe5Q\xaa\xbf]\xc0\xb3v)_\xb5\xba\xf2\x0f\x0b\xc2\x1f\xda\0\x1b\x9d>Am";

/// Sixteen rows of the keys a to p, with values of 256 letters v, the last with 125.
const FULL: &[u8] = b"\x01\0\0\0\x02\0\0\0\0\0\0\0\x07\0\0\0\0\0\x10";

const FULL_DIGEST: &[u8] =
    b"\xd9\x1a\xdb\xdf\x98j\xb5\x838\x9f\xd1\xf5\x86\x86\xe4\xff\xab#\x9b3\xb6`U\xb5\xbf]C\xabXR\x22\xbf";

const KEYS: &[u8] = b"abcdefghijklmno";

/// The digest of these bytes.
fn sha_of(body: &[u8]) -> [u8; 32] {
    let mut hasher = Sha256::new();
    hasher.update(body);
    hasher.finalize()
}

/// Lays bytes over the first ones of others.
fn lay(over: &mut [u8], bytes: &[u8]) {
    for (byte, with) in over.iter_mut().zip(bytes) {
        *byte = *with;
    }
}

/// The bytes of a page with this digest and these bytes behind it, and zero bytes behind those.
fn page_of(digest: &[u8], front: &[u8]) -> PageBytes {
    let mut bytes = [0u8; 4096];
    let (first, rest) = bytes.split_at_mut(32);
    lay(first, digest);
    lay(rest, front);
    bytes
}

/// The same with the digest that they have.
fn digested(front: &[u8]) -> PageBytes {
    let bytes = page_of(&[], front);
    let (_, body) = bytes.split_at(32);
    page_of(&sha_of(body), front)
}

fn full_page() -> PageBytes {
    let mut front = [b'v'; 4064];
    lay(&mut front, FULL);
    for (i, key) in KEYS.iter().enumerate() {
        if i < 15 {
            lay(&mut front[19 + 261 * i..], &[1, *key, 0, 1, 0]);
        }
    }
    lay(&mut front[3934..], b"\x01p\0\0\x7d");
    page_of(FULL_DIGEST, &front)
}

/// Whether these bytes are an image of this page, and the only one of what they say.
fn is_image(alloc: Global, bytes: &PageBytes, page: PageNo) -> bool {
    match open_page(alloc, bytes, page) {
        Ok(sealed) => {
            let again = seal(&sealed.state, page, sealed.lsn);
            again.as_slice() == bytes.as_slice()
        }
        Err(_) => false,
    }
}

#[test]
fn images_are_those_of_another_program(rt: HostRuntime) -> Result<(), Fail> {
    let empty = page_of(EMPTY_DIGEST, EMPTY);
    assert!(rt; is_image(rt.alloc(), &empty, 1), "empty leaf");
    let leaf = page_of(LEAF_DIGEST, LEAF);
    assert!(rt; is_image(rt.alloc(), &leaf, 3), "leaf");
    let branch = page_of(BRANCH_DIGEST, BRANCH);
    assert!(rt; is_image(rt.alloc(), &branch, 16384), "branch");
    assert!(rt; is_image(rt.alloc(), &full_page(), 2), "full leaf");
    Ok(())
}

/// Whether this is what the leaf above says.
fn is_the_leaf(sealed: &Sealed) -> bool {
    let state = &sealed.state;
    let fences = state.low.text() == b"a".as_slice() && state.high.text() == b"q".as_slice();
    let foster = match &state.foster {
        Some(foster) => foster.key.as_bytes() == b"p".as_slice() && foster.child == 9,
        None => false,
    };
    let rows = match &state.rows {
        Rows::Leaf(rows) => match rows.as_slice() {
            [apple, fig, _] => !apple.tombstone && fig.tombstone,
            _ => false,
        },
        Rows::Branch(_) => false,
    };
    sealed.lsn == 300 && state.level == 0 && fences && foster && rows
}

#[test]
fn an_image_says_its_state_and_lsn(rt: HostRuntime) -> Result<(), Fail> {
    let leaf = page_of(LEAF_DIGEST, LEAF);
    let says = match open_page(rt.alloc(), &leaf, 3) {
        Ok(sealed) => is_the_leaf(&sealed),
        Err(_) => false,
    };
    assert!(rt; says);
    Ok(())
}

/// The first byte whose change makes an image that still opens.
fn first_unseen(alloc: Global, bytes: &PageBytes, page: PageNo) -> Option<usize> {
    for i in 0..4096 {
        let mut changed = *bytes;
        changed[i] = changed[i].wrapping_add(1);
        match open_page(alloc, &changed, page) {
            Err(PageFault::Digest) => {}
            _ => return Some(i),
        }
    }
    None
}

#[test]
fn no_byte_may_change(rt: HostRuntime) -> Result<(), Fail> {
    let leaf = page_of(LEAF_DIGEST, LEAF);
    assert!(rt; first_unseen(rt.alloc(), &leaf, 3).is_none());
    Ok(())
}

/// The fault of the page with these bytes behind its digest, which is right.
fn fault_of(alloc: Global, front: &[u8], page: PageNo) -> Option<PageFault> {
    open_page(alloc, &digested(front), page).err()
}

#[test]
fn a_number_is_judged_before_the_fields(rt: HostRuntime) -> Result<(), Fail> {
    let cases: [(&str, &[u8]); 2] = [
        ("another page", LEAF),
        ("another page and format", b"\x02\0\0\0\x03\0\0\0\0\0\0\0\0"),
    ];
    for (name, front) in cases {
        assert!(rt;
            fault_of(rt.alloc(), front, 4) == Some(PageFault::Number),
            "{name}"
        );
    }
    Ok(())
}

#[test]
fn the_first_field_that_breaks_its_rule_is_named(rt: HostRuntime) -> Result<(), Fail> {
    let cases: [(&str, &[u8], usize); 7] = [
        ("format", b"\x02\0\0\0\x03\0\0\0\0\0\0\0\0", 32),
        ("LSN 0", b"\x01\0\0\0\x03\0\0\0\0\0\0\0\0\0\0\0\0\0\0", 37),
        (
            "LSN 2^63",
            b"\x01\0\0\0\x03\x80\0\0\0\0\0\0\0\0\0\0\0\0\0",
            37,
        ),
        (
            "high below low",
            b"\x01\0\0\0\x03\0\0\0\0\0\0\0\x01\0\x01a\x01\x01A\0\0\0",
            48,
        ),
        (
            "flag",
            b"\x01\0\0\0\x03\0\0\0\0\0\0\0\x01\0\0\0\0\0\x01\x01k\x02\0\0",
            53,
        ),
        (
            "keys fall",
            b"\x01\0\0\0\x03\0\0\0\0\0\0\0\x01\0\0\0\0\0\x02\x01k\0\0\0\x01b\0\0\0",
            56,
        ),
        (
            "behind the state",
            b"\x01\0\0\0\x03\0\0\0\0\0\0\0\x01\0\0\0\0\0\0\0\x01",
            51,
        ),
    ];
    for (name, front, byte) in cases {
        assert!(rt;
            fault_of(rt.alloc(), front, 3) == Some(PageFault::Format { byte }),
            "{name}"
        );
    }
    Ok(())
}
