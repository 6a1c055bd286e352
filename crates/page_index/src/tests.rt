//! Rights given and taken.
ghost use Rattle.std.specs.Prelude.{◌≡◌};

use super::*;
use books::{BookNames, PageRight, Shelf};
use std::alloc::Global;
use std::marker::Brand;
use std::mem::size_of;
use std::test::*;
use store_model::{Lsn, Memory};

#[test]
fn a_place_takes_32_bytes(rt: HostRuntime) -> Result<(), Fail> {
    assert!(rt; PageIndex::<Brand>::new(rt.alloc(), 16_384).is_ok());
    assert!(rt; size_of::<Option<PageRight<Brand>>>() + size_of::<Lsn>() <= 32);
    Ok(())
}

/// Whether the right to page 2 of three is there before it is given, where it is given, and after it was taken; and what
/// pages 1 to 4 are written as.
fn one_right<N: BookNames>(alloc: Global, shelf: Shelf) -> Result<([bool; 4], [Lsn; 5]), Memory>
    requires pages { shelf.pages ≡ N.pages }
    requires sessions { shelf.sessions ≡ N.sessions }
    requires maint { shelf.maint ≡ N.maint }
{
    let (tables, mut books) = shelf.split::<N>();
    let right = PageRight::of(books.pages.open(&tables.pages, 2));
    let mut index = PageIndex::new(alloc, 3)?;
    let before = index.take_right(2).is_some();
    index.give_right(right);
    let beside = index.take_right(3).is_some();
    let given = index.take_right(2).is_some();
    let after = index.take_right(2).is_some();
    index.note_written(1, 10);
    index.note_written(3, 20);
    index.note_written(1, 30);
    let written = [
        index.written(0),
        index.written(1),
        index.written(2),
        index.written(3),
        index.written(4),
    ];
    Ok(([before, beside, given, after], written))
}

#[test]
fn a_right_is_at_home_or_out(rt: HostRuntime) -> Result<(), Fail> {
    let shelf = Shelf::new(rt.alloc())?;
    let (at_home, written) = one_right::<Brand>(rt.alloc(), shelf)?;
    assert_eq!(rt; at_home, [false, false, true, false]);
    assert_eq!(rt; written, [0, 30, 0, 20, 0]);
    Ok(())
}
