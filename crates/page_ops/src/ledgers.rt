//! The ledgers of a life.
ghost use Rattle.std.specs.Prelude.{◌≡◌};

use crate::life::Life;
use std::marker::{Model, PhantomData};
use std::sync::ledger::{Blank, Book, Ledger, Share};

/// The ledger of all entries of the history. Its total is the length of the history.
pub struct Entries<N> {
    life: PhantomData<N>,
}

impl<N: Life> Ledger for Entries<N> {
    ghost name = { N.entries.name };

    ghost parts = { N.entries.parts };
}

/// The ledger of the entries that belong to a session. Its total is how many the history has.
pub struct SessionEntries<N> {
    life: PhantomData<N>,
}

impl<N: Life> Ledger for SessionEntries<N> {
    ghost name = { N.session_entries.name };

    ghost parts = { N.session_entries.parts };
}

/// The ledger of the log disk's faults. Its total is at most what the disk's count has risen by in this life.
pub struct LogFaults<N> {
    life: PhantomData<N>,
}

impl<N: Life> Ledger for LogFaults<N> {
    ghost name = { N.log_faults.name };

    ghost parts = { N.log_faults.parts };
}

/// The ledger of the vault's faults. Its total is at most what the vault's count has risen by in this life.
pub struct VaultFaults<N> {
    life: PhantomData<N>,
}

impl<N: Life> Ledger for VaultFaults<N> {
    ghost name = { N.vault_faults.name };

    ghost parts = { N.vault_faults.parts };
}

/// The ledger of the data device's faults. Its total is at most what the device's count has risen by in this life.
pub struct DataFaults<N> {
    life: PhantomData<N>,
}

impl<N: Life> Ledger for DataFaults<N> {
    ghost name = { N.data_faults.name };

    ghost parts = { N.data_faults.parts };
}

/// The ledger of the sessions and desks of the life. Its total is how many were made.
pub struct Made<N> {
    life: PhantomData<N>,
}

impl<N: Life> Ledger for Made<N> {
    ghost name = { N.made.name };

    ghost parts = { N.made.parts };
}

/// A ledger in which nobody counts yet.
#[derive(Drop)]
pub struct NewLedger<L: Ledger> {
    blank: Blank,
    ledger: PhantomData<L>,
}

impl<L: Ledger> Model for NewLedger<L> {
    ghost use Rattle.std.specs.Prelude.{◌≡◌};

    ghost Value = { Unit {0} };

    ghost view = { λ _. tt };

    ghost invariant = { λ l. (l.blank.name ≡ L.name) × (l.blank.parts ≡ L.parts) };
}

impl<L: Ledger> NewLedger<L> {
    pub(crate) fn of(blank: Blank) -> NewLedger<L>
        requires name { blank.name ≡ L.name }
        requires parts { blank.parts ≡ L.parts }
    {
        NewLedger {
            blank,
            ledger: PhantomData,
        }
    }

    /// Its book, and the share that has all its parts.
    pub fn open(self) -> (Book<L>, Share<L>)
        ensures total { result.0.total ≡ 0 }
        ensures parts { result.1.parts ≡ L.parts }
        ensures amount { result.1.amount ≡ 0 }
    {
        self.blank.open()
    }
}
