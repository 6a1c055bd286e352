//! What a life is made from, and what it begins with.
ghost use Rattle.std.specs.Prelude.{◌≡◌, [], IfOk};
ghost use Rattle.page_ops.specs.Names.{life_names, HasParts};

use crate::ground::Ground;
use crate::ledgers::{
    DataFaults, Entries, LogFaults, Made, NewLedger, SessionEntries, VaultFaults,
};
use crate::life::Life;
use books::{Books, Shelf};
use front::{Count, Front, Mark, Pass};
use std::alloc::Global;
use std::marker::Model;
use std::sync::ledger::Blank;
use store_model::Memory;
use wal_record::Entry;

/// What a life is made from, before it has a name. Contracts see it as the names that it will have.
#[derive(Drop)]
pub struct Unnamed {
    count: Count<Entry>,
    shelf: Shelf,
    entries: Blank,
    session_entries: Blank,
    log_faults: Blank,
    vault_faults: Blank,
    data_faults: Blank,
    made: Blank,
}

impl Model for Unnamed {
    ghost use Rattle.page_ops.specs.Names.{LifeNames};

    ghost Value = { LifeNames };

    ghost view = { λ u. record {
      count = u.count;
      pages = u.shelf.pages;
      sessions = u.shelf.sessions;
      maint = u.shelf.maint;
      entries = record { name = u.entries.name; parts = u.entries.parts };
      session_entries = record { name = u.session_entries.name; parts = u.session_entries.parts };
      log_faults = record { name = u.log_faults.name; parts = u.log_faults.parts };
      vault_faults = record { name = u.vault_faults.name; parts = u.vault_faults.parts };
      data_faults = record { name = u.data_faults.name; parts = u.data_faults.parts };
      made = record { name = u.made.name; parts = u.made.parts };
    } };
}

/// What a life begins with. The history and the books are empty, and nobody counts in the ledgers yet.
#[derive(Drop)]
pub struct Tokens<N: Life> {
    pub front: Front<Entry, N>,
    pub mark: Mark<Entry, N>,
    pub pass: Pass<Entry, N>,
    pub books: Books<N>,
    pub entries: NewLedger<Entries<N>>,
    pub session_entries: NewLedger<SessionEntries<N>>,
    pub log_faults: NewLedger<LogFaults<N>>,
    pub vault_faults: NewLedger<VaultFaults<N>>,
    pub data_faults: NewLedger<DataFaults<N>>,
    pub made: NewLedger<Made<N>>,
}

impl Unnamed {
    /// What a life is made from. Each of its ledgers has this many parts.
    pub fn new(alloc: Global, parts: u64) -> Result<Unnamed, Memory>
        ensures { IfOk result (λ unnamed. HasParts unnamed parts) }
    {
        Ok(Unnamed {
            count: Count::new(alloc)?,
            shelf: Shelf::new(alloc)?,
            entries: Blank::new(parts),
            session_entries: Blank::new(parts),
            log_faults: Blank::new(parts),
            vault_faults: Blank::new(parts),
            data_faults: Blank::new(parts),
            made: Blank::new(parts),
        })
    }

    /// The words to share, and what the life begins with.
    pub fn split<N: Life>(self) -> (Ground<N>, Tokens<N>)
        requires named { self ≡ life_names N.count N.pages N.sessions N.maint N.entries N.session_entries N.log_faults N.vault_faults N.data_faults N.made }
        ensures front { result.1.front ≡ [] }
        ensures mark { result.1.mark ≡ 0 }
        ensures pass { result.1.pass ≡ record { log = []; durable = 0 } }
        ensures pages { result.1.books.pages ≡ [] }
        ensures sessions { result.1.books.sessions ≡ [] }
        ensures maint { result.1.books.maint ≡ [] }
    {
        let Unnamed {
            count,
            shelf,
            entries,
            session_entries,
            log_faults,
            vault_faults,
            data_faults,
            made,
        } = self;
        let (board, front, mark, pass) = count.split::<N>();
        let (tables, books) = shelf.split::<N>();
        let tokens = Tokens {
            front,
            mark,
            pass,
            books,
            entries: NewLedger::of(entries),
            session_entries: NewLedger::of(session_entries),
            log_faults: NewLedger::of(log_faults),
            vault_faults: NewLedger::of(vault_faults),
            data_faults: NewLedger::of(data_faults),
            made: NewLedger::of(made),
        };
        (Ground { board, tables }, tokens)
    }
}
