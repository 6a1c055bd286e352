//! The rule of a book's table, and what each kind of step tells.

use crate::entry::BookEntry;
use crate::view::View;
use atomic_table::{Join, Play, Seat, Split, TableRule};
use std::marker::{Brand, PhantomData};

/// Each right's entry stands in the book, and no entry has two rights.
pub struct Booking;

impl TableRule<u8, View, ()> for Booking {
    ghost use Rattle.books.specs.Booking.{IsBooked, keeper};
    ghost use Rattle.std.specs.Prelude.{[], None};

    ghost holds = { λ _. IsBooked };

    ghost first = { λ _. keeper [] None };
}

/// No slot is used, so the type of a slot's value is any.
pub(crate) type Place = Seat<u8, View>;

/// The entry that one step writes. The call that makes the step picks it.
pub(crate) trait Written {
    ghost use Rattle.books.specs.declared.entry.BookEntry.{BookEntry};

    ghost entry: { BookEntry };
}

impl Written for Brand {
    ghost use Rattle.books.specs.Booking.{entry};

    ghost entry = { entry 0 0 0 };
}

/// The entry of W is added, and the book's seat has the right to it.
pub(crate) struct Add<W> {
    written: PhantomData<W>,
}

impl<W: Written> Play<u8, View> for Add<W> {
    ghost use Rattle.books.specs.Booking.{Adds};

    ghost then = { Adds W.entry };
}

/// The entry to which the book's seat has the right is the book's, and becomes the entry of W.
pub(crate) struct Change<W> {
    written: PhantomData<W>,
}

impl<W: Written> Play<u8, View> for Change<W> {
    ghost use Rattle.books.specs.Booking.{Changes};

    ghost then = { Changes W.entry };
}

/// A right goes out of the book's seat, and comes back into it.
pub(crate) struct Claim;

impl Split<View> for Claim {
    ghost use Rattle.books.specs.Booking.{with_claim, claimant};
    ghost use Rattle.std.specs.Prelude.{None};

    ghost left = { λ v. with_claim v None };

    ghost right = { λ v. claimant v.claim };
}

impl Join<View> for Claim {
    ghost use Rattle.books.specs.Booking.{with_claim, claimant};
    ghost use Rattle.std.specs.Prelude.{None};

    ghost both = { λ v other. with_claim v other.claim };

    ghost spent = { claimant None };
}
