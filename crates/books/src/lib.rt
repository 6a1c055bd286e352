//! Books of numbered entries with two values each, and the rights to them.
//!
//! A book stands where it is locked, as in a journal. Of each of its entries there is one right, which whoever is in
//! charge of that number carries about: with a page that is held, with a session, with the maintenance of a store. The
//! two agree whatever happens between: a right keeps the very values that the book has under its number.
//!
//! - `Shelf` is the memory of three books without entries. `Shelf::split` makes of it the `BookTables`, which threads
//!   share by reference, and the `Books`.
//! - `Book` is a list of entries. Contracts see it as that list.
//! - `Right` is the one claim to an entry. Contracts see it as that entry. Only `Book::open` makes one, none can be
//!   copied, and no other crate writes one. `PageRight`, `SessionRight` and `MaintRight` wrap the rights of the three
//!   books.
//!
//! What holds:
//!
//! 1. Each right's entry stands in its book, with the right's values, and no entry has two rights (`IsBooked`).
//! 2. So `Book::set` shows that the book still has the right's entry, before it changes both. Whoever carries a right
//!    thereby learns that nobody else changed what the right stands for.
//!
//! `BookName` names a book in a type, and `BookNames` the three of a shelf, so that a lock round a token still tells
//! which book it is of.
//!
//! Each call makes a constant number of atomic steps on one word, and only `Shelf::new` takes memory. The word's
//! content means nothing. The kinds of step:
//!
//! 1. making the table, in `Shelf::new`;
//! 2. splitting a right's seat off the book's, at the end of `Book::open` and `Book::set`;
//! 3. joining a right's seat into the book's, at the start of `Book::set`;
//! 4. a load by the book's seat: in `Book::open` it adds the entry; in `Book::set` it tells that the joined entry is
//!    the book's, and changes it.
#![tactic(auto)]

mod book;
mod entry;
mod right;
mod rights;
mod shelf;
mod steps;
mod view;

pub use book::{Book, BookName, BookTable};
pub use entry::BookEntry;
pub use right::Right;
pub use rights::{MaintRight, PageRight, SessionRight};
pub use shelf::{BookNames, BookTables, Books, MaintBook, NewBook, PageBook, SessionBook, Shelf};
