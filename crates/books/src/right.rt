//! The right to an entry of a book.
ghost use Rattle.std.specs.Prelude.{◌≡◌};

use crate::book::BookName;
use crate::entry::BookEntry;
use crate::steps::Place;
use std::marker::{Model, PhantomData};

/// The one right to an entry of the book that B names. Contracts see it as that entry.
#[derive(Drop)]
pub struct Right<B: BookName> {
    pub(crate) entry: BookEntry,
    pub(crate) seat: Place,
    pub(crate) name: PhantomData<B>,
}

impl<B: BookName> Model for Right<B> {
    ghost use Rattle.std.specs.Prelude.{◌≡◌, [], Some};
    ghost use Rattle.books.specs.Booking.{claimant};
    ghost use Rattle.books.specs.declared.entry.BookEntry.{BookEntry};

    ghost Value = { BookEntry };

    ghost view = { λ r. r.entry };

    ghost invariant = { λ r. (r.seat.table_id ≡ B.book) × (r.seat.me ≡ (claimant (Some r.entry), [])) };
}

impl<B: BookName> Right<B> {
    /// The entry.
    pub fn entry(&self) -> BookEntry
        ensures { result ≡ self.now }
    {
        self.entry
    }
}
