//! Rights handed from thread to thread.
ghost use Rattle.std.specs.Prelude.{◌≡◌};

use books::{BookNames, PageRight, Shelf};
use std::marker::Brand;
use std::test::*;

#[test]
fn a_new_shelf(rt: HostRuntime) -> Result<(), Fail> {
    assert!(rt; Shelf::new(rt.alloc()).is_ok());
    Ok(())
}

/// A page's right, after each of three changes of its entry, between entries of other pages.
fn three_changes<N: BookNames>(shelf: Shelf) -> [(u32, u64); 3]
    requires pages { shelf.pages ≡ N.pages }
    requires sessions { shelf.sessions ≡ N.sessions }
    requires maint { shelf.maint ≡ N.maint }
{
    let (tables, mut books) = shelf.split::<N>();
    let table = &tables.pages;
    let pages = &mut books.pages;
    let other = pages.open(table, 1);
    let first = PageRight::of(pages.open(table, 2));
    let before = (first.page(), first.lsn());
    let second = PageRight::of(pages.set(table, first.into_right(), 10, 0));
    let other = pages.set(table, other, 5, 0);
    let between = (second.page(), second.lsn());
    let third = pages.set(table, second.into_right(), 20, 0);
    let last = PageRight::of(pages.set(table, third, 30, 0));
    let _other = pages.set(table, other, 6, 0);
    [before, between, (last.page(), last.lsn())]
}

#[test]
fn a_right_goes_through_three_changes(rt: HostRuntime) -> Result<(), Fail> {
    let shelf = Shelf::new(rt.alloc())?;
    assert_eq!(rt; three_changes::<Brand>(shelf), [(2, 0), (2, 10), (2, 30)]);
    Ok(())
}
