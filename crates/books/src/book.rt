//! A book: a list of entries, with one right to each.
ghost use Rattle.std.specs.Prelude.{◌≡◌, [], ◌∷◌, ◌++◌, Some, None};
ghost use Rattle.books.specs.Booking.{entry, entry_of, replaced, keeper};

use crate::entry::BookEntry;
use crate::right::Right;
use crate::steps::{Add, Booking, Change, Claim, Place, Written};
use crate::view::View;
use atomic_table::Table;
use std::alloc::Global;
use std::marker::{Brand, Model, PhantomData};

/// Names a book.
pub trait BookName {
    ghost use Rattle.atomic_table.specs.Seated.{TableId};

    ghost book: { TableId };
}

/// The word of the book that B names, which threads share.
#[derive(Drop)]
pub struct BookTable<B: BookName> {
    pub(crate) table: Table<u8, View, (), Booking, Global>,
    pub(crate) name: PhantomData<B>,
}

impl<B: BookName> Model for BookTable<B> {
    ghost use Rattle.std.specs.Prelude.{◌≡◌};

    ghost Value = { Unit {0} };

    ghost view = { λ _. tt };

    ghost invariant = { λ t. (t.table.shared.table_id ≡ B.book) × (t.table.shared.table_id.words ≡ 1) };
}

/// The book that B names. Contracts see it as the list of its entries, in the order in which they were opened.
#[derive(Drop)]
pub struct Book<B: BookName> {
    pub(crate) seat: Place,
    pub(crate) name: PhantomData<B>,
}

impl<B: BookName> Model for Book<B> {
    ghost use Rattle.std.specs.Prelude.{◌≡◌, List, [], None};
    ghost use Rattle.books.specs.Booking.{keeper};
    ghost use Rattle.books.specs.declared.entry.BookEntry.{BookEntry};

    ghost Value = { List BookEntry };

    ghost view = { λ b. b.seat.me.0.entries };

    ghost invariant = { λ b. (b.seat.table_id ≡ B.book) × (b.seat.me ≡ (keeper b.seat.me.0.entries None, [])) };
}

impl<B: BookName> Book<B> {
    /// Adds the entry of this number with the values 0 and 0, and gives its right.
    pub fn open(&mut self, table: &BookTable<B>, number: u32) -> Right<B>
        requires fresh { entry_of number self.old ≡ None }
        ensures book { self.new ≡ self.old ++ entry number 0 0 ∷ [] }
        ensures right { result ≡ entry number 0 0 }
    {
        let entry = BookEntry {
            number,
            first: 0,
            second: 0,
        };
        add::<B, Brand>(table, &mut self.seat, entry);
        give_out(table, &mut self.seat, entry)
    }

    /// The book has the right's entry, as the right has it. The two values of both become these.
    pub fn set(
        &mut self,
        table: &BookTable<B>,
        right: Right<B>,
        first: u64,
        second: u64,
    ) -> Right<B>
        ensures before { entry_of right.number self.old ≡ Some right }
        ensures book { self.new ≡ replaced (entry right.number first second) self.old }
        ensures right { result ≡ entry right.number first second }
    {
        let Right {
            entry: old,
            seat,
            name: _,
        } = right;
        table.table.shared.join_seat::<Claim>(&mut self.seat, seat);
        let entry = change::<B, Brand>(table, &mut self.seat, old, first, second);
        give_out(table, &mut self.seat, entry)
    }
}

/// Adds the entry, to which the book's seat then has the right.
fn add<B: BookName, W: Written>(table: &BookTable<B>, seat: &mut Place, entry: BookEntry)
    requires written { W.entry ≡ entry }
    requires named { seat.old.table_id ≡ B.book }
    requires keeps { seat.old.me ≡ (keeper seat.old.me.0.entries None, []) }
    requires fresh { entry_of entry.number seat.old.me.0.entries ≡ None }
    ensures named { seat.new.table_id ≡ B.book }
    ensures keeps { seat.new.me ≡ (keeper (seat.old.me.0.entries ++ entry ∷ []) (Some entry), []) }
{
    table.table.shared.load::<Add<W>>(seat, 0);
}

/// The entry to which the book's seat has the right is the book's, and its values become these.
fn change<B: BookName, W: Written>(
    table: &BookTable<B>,
    seat: &mut Place,
    old: BookEntry,
    first: u64,
    second: u64,
) -> BookEntry
    requires written { W.entry ≡ entry old.number first second }
    requires named { seat.old.table_id ≡ B.book }
    requires keeps { seat.old.me ≡ (keeper seat.old.me.0.entries (Some old), []) }
    ensures before { entry_of old.number seat.old.me.0.entries ≡ Some old }
    ensures entry { result ≡ entry old.number first second }
    ensures named { seat.new.table_id ≡ B.book }
    ensures keeps { seat.new.me ≡ (keeper (replaced result seat.old.me.0.entries) (Some result), []) }
{
    table.table.shared.load::<Change<W>>(seat, 0);
    BookEntry {
        number: old.number,
        first,
        second,
    }
}

/// The right to the entry, which the book's seat had.
fn give_out<B: BookName>(table: &BookTable<B>, seat: &mut Place, entry: BookEntry) -> Right<B>
    requires named { seat.old.table_id ≡ B.book }
    requires keeps { seat.old.me ≡ (keeper seat.old.me.0.entries (Some entry), []) }
    ensures named { seat.new.table_id ≡ B.book }
    ensures keeps { seat.new.me ≡ (keeper seat.old.me.0.entries None, []) }
    ensures right { result ≡ entry }
{
    Right {
        entry,
        seat: table.table.shared.split_seat::<Claim>(seat),
        name: PhantomData,
    }
}
