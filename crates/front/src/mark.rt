//! Who stores the durable number.
ghost use Rattle.std.specs.Prelude.{◌≡◌, ◌≤◌, [], max};
ghost use Rattle.front.specs.Counting.{marker};

use crate::count::{Board, CountName};
use crate::pass::Pass;
use crate::steps::{Confirm, Halve, Inform, Place, Store};
use std::marker::{Model, PhantomData};

/// The one token that stores the durable number of the count that N names. Contracts see it as that number.
#[derive(Drop)]
pub struct Mark<E, N: CountName> {
    seat: Place<E>,
    name: PhantomData<N>,
}

impl<E, N: CountName> Model for Mark<E, N> {
    ghost use Rattle.std.specs.Prelude.{◌≡◌, ℕ, []};
    ghost use Rattle.front.specs.Counting.{marker};

    ghost Value = { ℕ };

    ghost view = { λ m. m.seat.me.0.durable };

    ghost invariant = { λ m. (m.seat.table_id ≡ N.count) × (m.seat.me ≡ (marker [] m.seat.me.0.durable 0, [])) };
}

impl<E, N: CountName> Mark<E, N> {
    pub(crate) fn at(seat: Place<E>) -> Mark<E, N>
        requires named { seat.table_id ≡ N.count }
        requires marks { seat.me ≡ (marker [] seat.me.0.durable 0, []) }
        ensures { result ≡ seat.me.0.durable }
    {
        Mark {
            seat,
            name: PhantomData,
        }
    }

    /// The durable number is then this one, which the pass has seen.
    pub fn store(&mut self, board: &Board<E, N>, number: u64, pass: &mut Pass<E, N>)
        requires rises { self.old ≤ number }
        ensures number { self.new ≡ number }
        ensures log { pass.new.log ≡ pass.old.log }
        ensures seen { pass.new.durable ≡ max pass.old.durable number }
    {
        board.table.shared.store::<Store>(&mut self.seat, 1, number);
        self.tell(board, pass);
    }

    /// The pass has then seen exactly the number stored last, which is at least what it had seen before.
    pub fn meet(&mut self, board: &Board<E, N>, pass: &mut Pass<E, N>)
        ensures number { self.new ≡ self.old }
        ensures log { pass.new.log ≡ pass.old.log }
        ensures seen { pass.new.durable ≡ self.old }
        ensures before { pass.old.durable ≤ self.old }
    {
        self.check(board, pass.copy(board));
        self.tell(board, pass);
    }

    /// The pass has seen no greater number.
    fn check(&mut self, board: &Board<E, N>, pass: Pass<E, N>)
        ensures number { self.new ≡ self.old }
        ensures before { pass.durable ≤ self.old }
    {
        let shared = &board.table.shared;
        shared.join_seat::<Inform>(&mut self.seat, pass.into_seat());
        shared.load::<Confirm>(&mut self.seat, 1);
    }

    /// The pass has then seen the number, and as much of the list as before.
    fn tell(&mut self, board: &Board<E, N>, pass: &mut Pass<E, N>)
        ensures number { self.new ≡ self.old }
        ensures log { pass.new.log ≡ pass.old.log }
        ensures seen { pass.new.durable ≡ max pass.old.durable self.old }
    {
        let known = Pass::at(board.table.shared.split_seat::<Halve>(&mut self.seat));
        pass.hear(board, known);
    }
}
