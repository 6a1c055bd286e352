//! Who has seen a beginning of the list.
ghost use Rattle.std.specs.Prelude.{◌≡◌, ◌≤◌, [], length, max};
ghost use mathlib.Core.List.{IsPrefix};
ghost use Rattle.front.specs.Counting.{follower};

use crate::count::{Board, CountName};
use crate::steps::{Halve, Hear, Inform, Learn, Look, Place, Read};
use std::marker::{Model, PhantomData};

/// What a holder has seen of the list of the count that N names, and of its durable number. Contracts see it as a record
/// with a beginning of the list, `log`, and a durable number that there was, `durable`.
#[derive(Drop)]
pub struct Pass<E, N: CountName> {
    seat: Place<E>,
    name: PhantomData<N>,
}

impl<E, N: CountName> Model for Pass<E, N> {
    ghost use Rattle.std.specs.Prelude.{◌≡◌, List, []};
    ghost use Rattle.front.specs.Counting.{follower};
    ghost use Rattle.front.specs.Seen.{PassSeen};

    ghost Value = { PassSeen E };

    ghost view = { λ p. record { log = p.seat.me.0.seen; durable = p.seat.me.0.durable } };

    ghost invariant = { λ p. (p.seat.table_id ≡ N.count) × (p.seat.me ≡ (follower p.seat.me.0.seen p.seat.me.0.durable, [])) };
}

impl<E, N: CountName> Pass<E, N> {
    pub(crate) fn at(seat: Place<E>) -> Pass<E, N>
        requires named { seat.table_id ≡ N.count }
        requires follows { seat.me ≡ (follower seat.me.0.seen seat.me.0.durable, []) }
        ensures log { result.log ≡ seat.me.0.seen }
        ensures durable { result.durable ≡ seat.me.0.durable }
    {
        Pass {
            seat,
            name: PhantomData,
        }
    }

    pub(crate) fn into_seat(self) -> Place<E>
        ensures named { result.table_id ≡ N.count }
        ensures follows { result.me ≡ (follower self.log self.durable, []) }
    {
        let Pass { seat, name: _ } = self;
        seat
    }

    /// The count as it is, which is at least what this pass had seen. The pass has then seen the list so far.
    pub fn look(&mut self, board: &Board<E, N>) -> u64
        ensures before { IsPrefix self.old.log self.new.log }
        ensures count { result ≡ length self.new.log }
        ensures durable { self.new.durable ≡ self.old.durable }
    {
        board.table.shared.load::<Look>(&mut self.seat, 0)
    }

    /// The durable number as it is, which is at least what this pass had seen. The pass has then seen it.
    pub fn durable(&mut self, board: &Board<E, N>) -> u64
        ensures log { self.new.log ≡ self.old.log }
        ensures number { result ≡ self.new.durable }
        ensures before { self.old.durable ≤ result }
    {
        board.table.shared.load::<Read>(&mut self.seat, 1)
    }

    /// A second pass, which has seen the same.
    pub fn copy(&mut self, board: &Board<E, N>) -> Pass<E, N>
        ensures same { self.new ≡ self.old }
        ensures copy { result ≡ self.old }
    {
        Pass::at(board.table.shared.split_seat::<Halve>(&mut self.seat))
    }

    /// Takes in what the other had seen.
    pub fn meet(&mut self, board: &Board<E, N>, other: Pass<E, N>)
        ensures this { IsPrefix self.old.log self.new.log }
        ensures other { IsPrefix other.log self.new.log }
        ensures durable { self.new.durable ≡ max self.old.durable other.durable }
    {
        let shared = &board.table.shared;
        shared.join_seat::<Inform>(&mut self.seat, other.into_seat());
        shared.load::<Look>(&mut self.seat, 0);
    }

    /// Takes what the other has seen for what this pass has seen.
    pub(crate) fn learn(&mut self, board: &Board<E, N>, other: Pass<E, N>)
        ensures log { self.new.log ≡ other.log }
        ensures durable { self.new.durable ≡ max self.old.durable other.durable }
    {
        let shared = &board.table.shared;
        shared.join_seat::<Inform>(&mut self.seat, other.into_seat());
        shared.load::<Learn>(&mut self.seat, 0);
    }

    /// Takes in the durable number of the other, which has seen nothing.
    pub(crate) fn hear(&mut self, board: &Board<E, N>, other: Pass<E, N>)
        ensures log { self.new.log ≡ self.old.log }
        ensures durable { self.new.durable ≡ max self.old.durable other.durable }
    {
        let shared = &board.table.shared;
        shared.join_seat::<Inform>(&mut self.seat, other.into_seat());
        shared.load::<Hear>(&mut self.seat, 0);
    }
}
