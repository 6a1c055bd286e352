//! The three books of a life, and how they get their names.
ghost use Rattle.std.specs.Prelude.{◌≡◌, []};

use crate::book::{Book, BookName, BookTable};
use crate::steps::{Booking, Place};
use crate::view::View;
use atomic_table::Table;
use std::alloc::Global;
use std::marker::{Brand, Model, PhantomData};
use store_model::Memory;

/// Names the three books of a shelf. Each call that splits a shelf picks the names.
pub trait BookNames {
    ghost use Rattle.atomic_table.specs.Seated.{TableId};

    ghost pages: { TableId };

    ghost sessions: { TableId };

    ghost maint: { TableId };
}

impl BookNames for Brand {
    ghost use Rattle.books.specs.Booking.{no_table};

    ghost pages = { no_table };

    ghost sessions = { no_table };

    ghost maint = { no_table };
}

/// The name of the book of pages of N.
pub struct PageBook<N> {
    names: PhantomData<N>,
}

impl<N: BookNames> BookName for PageBook<N> {
    ghost book = { N.pages };
}

/// The name of the book of sessions of N.
pub struct SessionBook<N> {
    names: PhantomData<N>,
}

impl<N: BookNames> BookName for SessionBook<N> {
    ghost book = { N.sessions };
}

/// The name of the book of maintenance of N.
pub struct MaintBook<N> {
    names: PhantomData<N>,
}

impl<N: BookNames> BookName for MaintBook<N> {
    ghost book = { N.maint };
}

/// A book without entries, which nobody shares yet. Contracts see it as its table's name.
#[derive(Drop)]
pub struct NewBook {
    table: Table<u8, View, (), Booking, Global>,
    seat: Place,
}

impl Model for NewBook {
    ghost use Rattle.std.specs.Prelude.{◌≡◌, [], None};
    ghost use Rattle.atomic_table.specs.Seated.{TableId};
    ghost use Rattle.books.specs.Booking.{keeper};

    ghost Value = { TableId };

    ghost view = { λ b. b.table.shared.table_id };

    ghost invariant = { λ b. (b.table.shared.table_id.words ≡ 1) × (b.seat.table_id ≡ b.table.shared.table_id) × (b.seat.me ≡ (keeper [] None, [])) };
}

impl NewBook {
    fn new(alloc: Global) -> Result<NewBook, Memory> {
        match Table::of_words(alloc, &[0], &()) {
            Ok((table, seat)) => Ok(NewBook { table, seat }),
            Err(_) => Err(Memory),
        }
    }

    fn split<B: BookName>(self) -> (BookTable<B>, Book<B>)
        requires named { self ≡ B.book }
        ensures { result.1 ≡ [] }
    {
        let NewBook { table, seat } = self;
        let table = BookTable {
            table,
            name: PhantomData,
        };
        let book = Book {
            seat,
            name: PhantomData,
        };
        (table, book)
    }
}

/// The three books of a life without entries, which nobody shares yet.
#[derive(Drop)]
pub struct Shelf {
    pub pages: NewBook,
    pub sessions: NewBook,
    pub maint: NewBook,
}

/// The words of the three books, which threads share.
#[derive(Drop)]
pub struct BookTables<N: BookNames> {
    pub pages: BookTable<PageBook<N>>,
    pub sessions: BookTable<SessionBook<N>>,
    pub maint: BookTable<MaintBook<N>>,
}

/// The three books of a life: of pages, of sessions and of maintenance.
#[derive(Drop)]
pub struct Books<N: BookNames> {
    pub pages: Book<PageBook<N>>,
    pub sessions: Book<SessionBook<N>>,
    pub maint: Book<MaintBook<N>>,
}

impl Shelf {
    /// Three books without entries.
    pub fn new(alloc: Global) -> Result<Shelf, Memory> {
        Ok(Shelf {
            pages: NewBook::new(alloc)?,
            sessions: NewBook::new(alloc)?,
            maint: NewBook::new(alloc)?,
        })
    }

    /// The words to share, and the three books. They have no entries.
    pub fn split<N: BookNames>(self) -> (BookTables<N>, Books<N>)
        requires pages { self.pages ≡ N.pages }
        requires sessions { self.sessions ≡ N.sessions }
        requires maint { self.maint ≡ N.maint }
        ensures pages { result.1.pages ≡ [] }
        ensures sessions { result.1.sessions ≡ [] }
        ensures maint { result.1.maint ≡ [] }
    {
        let (pages_table, pages) = self.pages.split();
        let (sessions_table, sessions) = self.sessions.split();
        let (maint_table, maint) = self.maint.split();
        let tables = BookTables {
            pages: pages_table,
            sessions: sessions_table,
            maint: maint_table,
        };
        let books = Books {
            pages,
            sessions,
            maint,
        };
        (tables, books)
    }
}
