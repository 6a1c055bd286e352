//! Who adds to the list.
ghost use Rattle.std.specs.Prelude.{◌≡◌, ◌+◌, ◌^◌, ◌<◌, ◌≤◌, List, [], ◌++◌, length};
ghost use mathlib.Core.List.{IsPrefix};
ghost use Rattle.front.specs.Counting.{leader};

use crate::count::{Board, CountName};
use crate::pass::Pass;
use crate::steps::{Advance, Check, Halve, Inform, Place};
use std::marker::{Brand, Model, PhantomData};

/// The entries that one step adds to the list. The call that makes the step picks them.
pub trait Added<E> {
    ghost entries: { List E };
}

impl<E> Added<E> for Brand {
    ghost entries = { [] };
}

/// The one token that adds to the list of the count that N names. Contracts see it as the whole list.
#[derive(Drop)]
pub struct Front<E, N: CountName> {
    seat: Place<E>,
    name: PhantomData<N>,
}

impl<E, N: CountName> Model for Front<E, N> {
    ghost use Rattle.std.specs.Prelude.{◌≡◌, List, []};
    ghost use Rattle.front.specs.Counting.{leader};

    ghost Value = { List E };

    ghost view = { λ f. f.seat.me.0.seen };

    ghost invariant = { λ f. (f.seat.table_id ≡ N.count) × (f.seat.me ≡ (leader f.seat.me.0.seen [] f.seat.me.0.durable 0, [])) };
}

impl<E, N: CountName> Front<E, N> {
    pub(crate) fn at(seat: Place<E>) -> Front<E, N>
        requires named { seat.table_id ≡ N.count }
        requires leads { seat.me ≡ (leader seat.me.0.seen [] seat.me.0.durable 0, []) }
        ensures { result ≡ seat.me.0.seen }
    {
        Front {
            seat,
            name: PhantomData,
        }
    }

    /// The count rises by n, and the list grows by the n entries of A.
    pub fn advance<A: Added<E>>(&mut self, board: &Board<E, N>, n: u64)
        requires many { length A.entries ≡ n }
        requires fits { length self.old + n < 2 ^ 64 }
        ensures { self.new ≡ self.old ++ A.entries }
    {
        board
            .table
            .shared
            .fetch_add::<Advance<A>>(&mut self.seat, 0, n);
    }

    /// The pass has then seen exactly the whole list, which begins with all that it had seen before. The durable number that
    /// it has seen doesn't fall.
    pub fn meet(&mut self, board: &Board<E, N>, pass: &mut Pass<E, N>)
        ensures list { self.new ≡ self.old }
        ensures seen { pass.new.log ≡ self.old }
        ensures before { IsPrefix pass.old.log self.old }
        ensures durable { pass.old.durable ≤ pass.new.durable }
    {
        self.check(board, pass.copy(board));
        let known = Pass::at(board.table.shared.split_seat::<Halve>(&mut self.seat));
        pass.learn(board, known);
    }

    /// The list begins with all that the pass had seen.
    fn check(&mut self, board: &Board<E, N>, pass: Pass<E, N>)
        ensures list { self.new ≡ self.old }
        ensures before { IsPrefix pass.log self.old }
    {
        let shared = &board.table.shared;
        shared.join_seat::<Inform>(&mut self.seat, pass.into_seat());
        shared.load::<Check>(&mut self.seat, 0);
    }
}
