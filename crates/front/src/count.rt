//! A count with the list of what was counted, and how it gets its name.
ghost use Rattle.std.specs.Prelude.{◌≡◌, []};

use crate::front::Front;
use crate::mark::Mark;
use crate::pass::Pass;
use crate::steps::{Counting, Halve, Part, Place};
use crate::view::View;
use atomic_table::Table;
use std::alloc::Global;
use std::marker::{Brand, Model, PhantomData};
use store_model::Memory;

/// Names a count. Each call that splits a count picks the name.
pub trait CountName {
    ghost use Rattle.atomic_table.specs.Seated.{TableId};

    ghost count: { TableId };
}

impl CountName for Brand {
    ghost use Rattle.front.specs.Counting.{no_table};

    ghost count = { no_table };
}

/// A count of 0 with an empty list, which nobody shares yet. Contracts see it as its table's name.
#[derive(Drop)]
pub struct Count<E> {
    table: Table<u8, View<E>, (), Counting, Global>,
    seat: Place<E>,
}

impl<E> Model for Count<E> {
    ghost use Rattle.std.specs.Prelude.{◌≡◌, []};
    ghost use Rattle.atomic_table.specs.Seated.{TableId};
    ghost use Rattle.front.specs.Counting.{beginner};

    ghost Value = { TableId };

    ghost view = { λ c. c.table.shared.table_id };

    ghost invariant = { λ c. (c.table.shared.table_id.words ≡ 2) × (c.seat.table_id ≡ c.table.shared.table_id) × (c.seat.me ≡ (beginner, [])) };
}

/// The word of the count that N names, which threads share.
#[derive(Drop)]
pub struct Board<E, N: CountName> {
    pub(crate) table: Table<u8, View<E>, (), Counting, Global>,
    name: PhantomData<N>,
}

impl<E, N: CountName> Model for Board<E, N> {
    ghost use Rattle.std.specs.Prelude.{◌≡◌};

    ghost Value = { Unit {0} };

    ghost view = { λ _. tt };

    ghost invariant = { λ b. (b.table.shared.table_id ≡ N.count) × (b.table.shared.table_id.words ≡ 2) };
}

impl<E> Count<E> {
    /// A count of 0.
    pub fn new(alloc: Global) -> Result<Count<E>, Memory> {
        match Table::of_words(alloc, &[0, 0], &()) {
            Ok((table, seat)) => Ok(Count { table, seat }),
            Err(_) => Err(Memory),
        }
    }

    /// The words to share, the one front, the one mark, and a first pass. The list is empty, and the durable number 0.
    pub fn split<N: CountName>(self) -> (Board<E, N>, Front<E, N>, Mark<E, N>, Pass<E, N>)
        requires named { self ≡ N.count }
        ensures front { result.1 ≡ [] }
        ensures mark { result.2 ≡ 0 }
        ensures pass { result.3 ≡ record { log = []; durable = 0 } }
    {
        let Count { table, mut seat } = self;
        let mark = Mark::at(table.shared.split_seat::<Part>(&mut seat));
        let pass = Pass::at(table.shared.split_seat::<Halve>(&mut seat));
        let board = Board {
            table,
            name: PhantomData,
        };
        (board, Front::at(seat), mark, pass)
    }
}
