//! The chains of a log: each record names the record before it of its transaction and of its pages.
ghost use Rattle.std.specs.Prelude.{◌≡◌};
ghost use Rattle.inspection.specs.Chains.{goes_on};

use std::alloc::{AllocError, Global};
use std::collections::HashMap;
use store_model::{Lsn, PageNo, TxId};
use wal_record::Record;

/// What a record says of a chain that it is on: which page's or transaction's it is, and the record before.
#[derive(Clone, Copy)]
struct Link {
    of: u64,
    prev: Lsn,
}

/// The last record so far of each page and of each transaction.
#[derive(Drop)]
pub struct Chains {
    pages: HashMap<u64, Lsn>,
    transactions: HashMap<u64, Lsn>,
    /// Whether the log is kept from its first record on, so that each chain begins in it.
    whole: bool,
}

impl Chains {
    /// No record yet.
    pub fn new(alloc: Global, whole: bool) -> Chains {
        Chains {
            pages: HashMap::new(alloc),
            transactions: HashMap::new(alloc),
            whole,
        }
    }

    /// The record with this LSN is the next one. Whether it goes on with each chain that it is on.
    pub fn add(&mut self, lsn: Lsn, record: &Record) -> Result<bool, AllocError> {
        let (first, second) = changes_of(record);
        let step = go_on(&mut self.transactions, self.whole, step_of(record), lsn)?;
        let first = go_on(&mut self.pages, self.whole, first, lsn)?;
        let second = go_on(&mut self.pages, self.whole, second, lsn)?;
        Ok(step && first && second)
    }
}

fn in_transaction(tx: TxId, prev: Lsn) -> Option<Link> {
    Some(Link { of: tx, prev })
}

fn on_page(page: PageNo, prev: Lsn) -> Option<Link> {
    Some(Link {
        of: u64::from(page),
        prev,
    })
}

/// The chain of the record's transaction, where it has one.
fn step_of(record: &Record) -> Option<Link> {
    match record {
        Record::Write(r) => in_transaction(r.tx, r.prev),
        Record::Apply(r) => in_transaction(r.tx, r.prev),
        Record::Undo(r) => in_transaction(r.tx, r.prev),
        Record::Commit(r) => in_transaction(r.tx, r.prev),
        Record::End(r) => in_transaction(r.tx, r.prev),
        _ => None,
    }
}

/// The chains of the pages that the record changes, of which there are at most two.
fn changes_of(record: &Record) -> (Option<Link>, Option<Link>) {
    match record {
        Record::Format(_) => (on_page(1, 0), None),
        Record::Write(r) => (on_page(r.page, r.page_prev), None),
        Record::Apply(r) => (on_page(r.page, r.page_prev), None),
        Record::Undo(r) => (on_page(r.page, r.page_prev), None),
        Record::Purge(r) => (on_page(r.page, r.page_prev), None),
        Record::Split(r) => (on_page(r.page, r.page_prev), on_page(r.child, 0)),
        Record::Grow(r) => (on_page(1, r.page_prev), on_page(r.child, 0)),
        Record::Adopt(r) => (
            on_page(r.parent, r.parent_prev),
            on_page(r.fosterer, r.fosterer_prev),
        ),
        _ => (None, None),
    }
}

/// Whether a record goes on with its chain of these, where it is on one. From now on its chain's last one has this LSN.
fn go_on(
    lasts: &mut HashMap<u64, Lsn>,
    whole: bool,
    link: Option<Link>,
    lsn: Lsn,
) -> Result<bool, AllocError> {
    let Some(Link { of, prev }) = link else {
        return Ok(true);
    };
    let last = lasts.get(&of).copied();
    lasts.insert(of, lsn)?;
    Ok(goes_on(whole, last, prev))
}

/// Whether a record that names `prev` goes on with a chain.
fn goes_on(whole: bool, last: Option<Lsn>, prev: Lsn) -> bool
    ensures { result ≡ goes_on whole last prev }
{
    match last {
        Some(last) => last == prev,
        None => prev == 0 || !whole,
    }
}
