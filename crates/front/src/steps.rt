//! The rule of the count's table, and what each kind of step tells.

use crate::front::Added;
use crate::view::View;
use atomic_table::{Join, Play, Seat, Split, TableRule};
use std::marker::PhantomData;

/// The first word is the length of the list, of which each seat has seen a beginning, and the second the durable number.
pub struct Counting;

impl<E> TableRule<u8, View<E>, ()> for Counting {
    ghost use Rattle.front.specs.Counting.{IsCounted, beginner};

    ghost holds = { λ _. IsCounted };

    ghost first = { λ _. beginner };
}

/// No slot is used, so the type of a slot's value is any.
pub(crate) type Place<E> = Seat<u8, View<E>>;

/// The list goes on with the entries of A.
pub(crate) struct Advance<A> {
    added: PhantomData<A>,
}

impl<E, A: Added<E>> Play<u8, View<E>> for Advance<A> {
    ghost use Rattle.front.specs.Counting.{Advances};

    ghost then = { Advances A.entries };
}

/// A pass sees the list so far.
pub(crate) struct Look;

impl<E> Play<u8, View<E>> for Look {
    ghost use Rattle.front.specs.Counting.{Looks};

    ghost then = { Looks };
}

/// The front compares what it was told with the whole list.
pub(crate) struct Check;

impl<E> Play<u8, View<E>> for Check {
    ghost use Rattle.front.specs.Counting.{Checks};

    ghost then = { Checks };
}

/// A pass takes what it was told for what it has seen.
pub(crate) struct Learn;

impl<E> Play<u8, View<E>> for Learn {
    ghost use Rattle.front.specs.Counting.{Learns};

    ghost then = { Learns };
}

/// A pass takes the durable number that it was told, and forgets the list.
pub(crate) struct Hear;

impl<E> Play<u8, View<E>> for Hear {
    ghost use Rattle.front.specs.Counting.{Hears};

    ghost then = { Hears };
}

/// A pass sees the durable number.
pub(crate) struct Read;

impl<E> Play<u8, View<E>> for Read {
    ghost use Rattle.front.specs.Counting.{Reads};

    ghost then = { Reads };
}

/// The durable number is a new one.
pub(crate) struct Store;

impl<E> Play<u8, View<E>> for Store {
    ghost use Rattle.front.specs.Counting.{Stores};

    ghost then = { Stores };
}

/// The mark compares the number that it was told with its own.
pub(crate) struct Confirm;

impl<E> Play<u8, View<E>> for Confirm {
    ghost use Rattle.front.specs.Counting.{Confirms};

    ghost then = { Confirms };
}

/// The first seat gives the storing of the number away.
pub(crate) struct Part;

impl<E> Split<View<E>> for Part {
    ghost use Rattle.front.specs.Counting.{leader, marker};
    ghost use Rattle.std.specs.Prelude.{[]};

    ghost left = { λ v. leader v.seen [] v.durable 0 };

    ghost right = { λ v. marker [] v.durable 0 };
}

/// A new pass has seen what the seat has seen.
pub(crate) struct Halve;

impl<E> Split<View<E>> for Halve {
    ghost use Rattle.front.specs.Counting.{follower};

    ghost left = { λ v. v };

    ghost right = { λ v. follower v.seen v.durable };
}

/// A seat is told what the other had seen.
pub(crate) struct Inform;

impl<E> Join<View<E>> for Inform {
    ghost use Rattle.front.specs.Counting.{informed, follower};
    ghost use Rattle.std.specs.Prelude.{[]};

    ghost both = { informed };

    ghost spent = { follower [] 0 };
}
