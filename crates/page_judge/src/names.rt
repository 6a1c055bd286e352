//! The pages that records name.
ghost use Rattle.std.specs.Prelude.{◌≡◌, ◌<◌, ◌≤◌, ◌+◌, ◌-◌, ◌^◌, ◌∷◌, ◌++◌, [], List, length, take, OnOk};
ghost use Rattle.wal_record.specs.Chains.{names_at};
ghost use Rattle.wal_record.specs.declared.record.Record.{Record};
ghost use Rattle.page_judge.specs.Names as names;
ghost use Rattle.std.specs.Option.{option_copied};
ghost use Rattle.page_judge.specs.Names.{AreNamesOf, has_page, named_at, named_by};

use std::alloc::Global;
use store_model::{Lsn, Memory, PageNo};
use wal_record::Record;

/// The pages that a record names, two at most.
#[derive(Drop)]
pub struct NamedPages {
    pub first: Option<PageNo>,
    pub second: Option<PageNo>,
}

/// The pages that each record of a log names, by its LSN.
#[derive(Drop)]
pub struct PageNames {
    named: Vec<NamedPages>,
}

/// The page that a record names, or the first one of two.
pub fn first_page(entered: &Record) -> Option<PageNo>
    ensures { result ≡ names.first_page entered.now }
{
    match entered {
        Record::Format(_) => Some(1),
        Record::Write(write) => Some(write.page),
        Record::Apply(apply) => Some(apply.page),
        Record::Undo(undo) => Some(undo.page),
        Record::Split(split) => Some(split.page),
        Record::Adopt(adopt) => Some(adopt.parent),
        Record::Grow(_) => Some(1),
        Record::Purge(purge) => Some(purge.page),
        _ => None,
    }
}

/// The second one of two.
pub fn second_page(entered: &Record) -> Option<PageNo>
    ensures { result ≡ names.second_page entered.now }
{
    match entered {
        Record::Split(split) => Some(split.child),
        Record::Adopt(adopt) => Some(adopt.fosterer),
        Record::Grow(grow) => Some(grow.child),
        _ => None,
    }
}

fn is_page(page: PageNo, named: Option<PageNo>) -> bool
    ensures { result ≡ names.is_page page named }
{
    match named {
        Some(named) => page == named,
        None => false,
    }
}

fn has_page(page: PageNo, named: &NamedPages) -> bool
    ensures { result ≡ has_page page named.now }
{
    is_page(page, named.first) || is_page(page, named.second)
}

/// Keeps the pages of the records before this LSN.
fn forget(named: &mut Vec<NamedPages>, lsn: Lsn)
    requires { 1 ≤ lsn }
    ensures { named.new.items ≡ take (lsn - 1) named.old.items }
{
    named.truncate((lsn - 1) as usize);
}

/// What is kept of the record with this LSN, if there is one.
fn named_at(named: &[NamedPages], lsn: Lsn) -> Option<&NamedPages>
    ensures { option_copied result ≡ named_at named.now lsn }
{
    let place = (lsn as usize).checked_sub(1)?;
    named.get(place)
}

impl PageNames {
    /// Those of an empty log.
    pub fn new(alloc: Global) -> PageNames
        ensures { AreNamesOf [] result }
    {
        PageNames {
            named: Vec::new(alloc),
        }
    }

    /// Whether the record with this LSN names the page, where `last` is the LSN of the last record.
    pub fn names_at(&self, last: Lsn, lsn: Lsn, page: PageNo) -> bool
        ensures { (log : List Record) → AreNamesOf log self.now → last ≡ length log → result ≡ names_at log lsn page }
    {
        if lsn > last {
            return false;
        }
        match named_at(&self.named, lsn) {
            Some(named) => has_page(page, named),
            None => false,
        }
    }

    /// A log of which these are kept has fewer than 2^63 records, since more have no room.
    pub fn length_law(&self)
        ensures { (log : List Record) → AreNamesOf log self.now → length log < 2 ^ 63 }
    {
        let _count = self.named.as_slice().len();
    }

    /// The next record, with this LSN. These are then also those of the log before it, and where memory runs out no others.
    pub fn note(&mut self, lsn: Lsn, entered: &Record) -> Result<(), Memory>
        requires { 1 ≤ lsn }
        ensures ok { (log : List Record) → AreNamesOf log self.old → lsn ≡ length log + 1 → OnOk result (AreNamesOf (log ++ entered.now ∷ []) self.new) }
        ensures same { (log : List Record) → AreNamesOf log self.old → lsn ≡ length log + 1 → AreNamesOf log self.new }
    {
        forget(&mut self.named, lsn);
        self.named.push(NamedPages {
            first: first_page(entered),
            second: second_page(entered),
        })?;
        Ok(())
    }
}
