//! Pages rebuilt from a backup: the base comes out of the bytes of its object, or the page is rebuilt from nothing.
ghost use Rattle.std.specs.Prelude.{◌≤◌, IfSome};
ghost use Rattle.wal_record.specs.State.{KeepsState};

use crate::rebuilt::{LOG, Wanted, is_answer, over};
use crate::spelled::state_of;
use crate::table::records_of;
use backup_set::{image_place, page_in_object, page_in_place};
use operators::{Operators, boxed_operators};
use page_image::{Sealed, seal};
use std::alloc::Global;
use std::sync::Wait;
use std::test::Fail;
use store_model::PageNo;

/// The letters, the backup 7, the segment 0, two images.
const HEAD: &[u8] = b"BAK1\0\0\0\0\0\0\0\x07\0\0\0\0\0\0\0\x02";

/// Page 1 at the LSN 3, and page 2 at the LSN 5, at which it is made.
const FIRST: &str = "00 00 00 00 0002 0161 00 000131 0162 00 000132";

const SECOND: &str = "00 0162 00 00 0001 0162 00 000132";

/// Page 1 at the LSN 8, with the records of the LSNs 5, 7 and 8 redone, and page 2 at the LSN 12, with those of 6, 11 and 12.
const FIRST_LATER: &str = "00 00 00 01 0162 4.2 0001 0161 00 000131";

const SECOND_LATER: &str = "00 0162 00 00 0001 0163 00 000133";

/// The object of the backup's first segment.
fn object(alloc: Global) -> Option<Vec<u8>> {
    let first = state_of(alloc, FIRST)?;
    let second = state_of(alloc, SECOND)?;
    let mut bytes = Vec::new(alloc);
    bytes.extend_from_slice(HEAD).ok()?;
    bytes.extend_from_slice(&seal(&first, 1, 3)).ok()?;
    bytes.extend_from_slice(&seal(&second, 2, 5)).ok()?;
    Some(bytes)
}

/// The page, if its image stands in these bytes where it does in a whole segment.
fn in_place(alloc: Global, bytes: &[u8], page: PageNo) -> Option<Sealed>
    ensures { IfSome result (λ x. KeepsState x.state) }
{
    let from = image_place(page) as usize;
    let head = bytes.get(..20)?;
    let image = bytes.get(from..)?.get(..4096)?;
    match page_in_place(alloc, 7, page, head, image) {
        Ok(found) => found,
        Err(_) => None,
    }
}

/// The page as the backup has it in these bytes: in its place, or else in a whole object that has no fault.
fn copy_in(alloc: Global, bytes: &[u8], page: PageNo) -> Option<Sealed>
    ensures { IfSome result (λ x. KeepsState x.state) }
{
    match in_place(alloc, bytes, page) {
        Some(sealed) => Some(sealed),
        None => page_in_object(alloc, 7, page, bytes).ok(),
    }
}

/// The same, if it isn't younger than the head.
fn base_in(alloc: Global, bytes: &[u8], wanted: Wanted) -> Option<Sealed>
    ensures { IfSome result (λ x. (x.lsn ≤ wanted.head) × KeepsState x.state) }
{
    match copy_in(alloc, bytes, wanted.page) {
        Some(sealed) if sealed.lsn <= wanted.head => Some(sealed),
        _ => None,
    }
}

/// How many records are asked for where the page that is rebuilt from the backup in these bytes, or from nothing, is this one.
fn asked_for<R: Wait>(
    rt: &R,
    alloc: Global,
    operators: &Operators,
    bytes: &[u8],
    wanted: Wanted,
    state: &str,
) -> Option<u64> {
    let base = base_in(alloc, bytes, wanted);
    let records = records_of(alloc, LOG)?;
    let (found, asked) = over(rt, alloc, records, base, wanted, operators);
    if is_answer(alloc, found, wanted.head, state)? {
        Some(asked)
    } else {
        None
    }
}

/// The object with one byte changed.
fn changed(alloc: Global, bytes: &[u8], at: usize) -> Option<Vec<u8>> {
    let mut other = bytes.to_vec(alloc).ok()?;
    let byte = other.get_mut(at)?;
    *byte ^= 1;
    Some(other)
}

const FIRST_WANTED: Wanted = Wanted { page: 1, head: 8 };

const SECOND_WANTED: Wanted = Wanted { page: 2, head: 12 };

#[test]
fn a_page_is_rebuilt_from_its_backup(rt: HostRuntime) -> Result<(), Fail> {
    let alloc = rt.alloc();
    let operators = boxed_operators!(alloc);
    let Some(bytes) = object(alloc) else {
        return Err(Fail::new("no object"));
    };
    for (wanted, state) in [(FIRST_WANTED, FIRST_LATER), (SECOND_WANTED, SECOND_LATER)] {
        assert_eq!(rt;
            asked_for(&rt, alloc, &operators, &bytes, wanted, state),
            Some(3)
        );
    }
    Ok(())
}

/// Page 1 is never found in its image with a changed byte. It is then rebuilt from nothing, and page 2 from its own image, which
/// is whole: tried with each byte of the digest and of the fields, and every 64th of the zeros behind.
#[test]
fn a_damaged_image_gives_no_wrong_page(rt: HostRuntime) -> Result<(), Fail> {
    let alloc = rt.alloc();
    let operators = boxed_operators!(alloc);
    let Some(bytes) = object(alloc) else {
        return Err(Fail::new("no object"));
    };
    for at in 20..20 + 4096 {
        let Some(other) = changed(alloc, &bytes, at) else {
            return Err(Fail::new("no object"));
        };
        assert!(rt; in_place(alloc, &other, 1).is_none(), "at {at}");
        if at < 100 || at % 64 == 0 {
            let first = asked_for(&rt, alloc, &operators, &other, FIRST_WANTED, FIRST_LATER);
            let second = asked_for(&rt, alloc, &operators, &other, SECOND_WANTED, SECOND_LATER);
            assert_eq!(rt; (first, second), (Some(6), Some(3)), "at {at}");
        }
    }
    Ok(())
}
