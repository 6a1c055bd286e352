//! A count of faults.
ghost use Rattle.std.specs.Prelude.{◌≡◌, ◌+◌, ◌-◌, ◌^◌, ◌<◌, min};

use std::marker::Model;
use std::sync::ledger::{Book, Ledger, Share};

/// A count of faults, in a ledger of a life or in one of its own. Contracts see how many were counted; what it tells stands
/// still at 2^64 - 1.
#[derive(Drop)]
pub struct Tally<L: Ledger> {
    told: u64,
    book: Book<L>,
    share: Share<L>,
}

impl<L: Ledger> Model for Tally<L> {
    ghost use Rattle.std.specs.Prelude.{◌≡◌, ◌-◌, ◌^◌, ◌<◌, ℕ, min};

    ghost Value = { ℕ };

    ghost view = { λ t. t.book.total };

    ghost invariant = { λ t. (t.told ≡ min t.book.total (2 ^ 64 - 1)) × (0 < t.share.parts) };
}

impl<L: Ledger> Tally<L> {
    /// The count of this book, in which nothing was counted yet.
    pub fn new(book: Book<L>, share: Share<L>) -> Tally<L>
        requires none { book.total ≡ 0 }
        requires parts { 0 < share.parts }
        ensures { result ≡ 0 }
    {
        Tally {
            told: 0,
            book,
            share,
        }
    }

    /// One fault more.
    pub fn add(&mut self)
        ensures { self.new ≡ self.old + 1 }
    {
        self.told = self.told.saturating_add(1);
        self.book.add(&mut self.share, 1);
    }

    /// How many were counted.
    pub fn told(&self) -> u64
        ensures { result ≡ min self.now (2 ^ 64 - 1) }
    {
        self.told
    }
}
