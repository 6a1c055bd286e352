//! A chain whose records stand in a table.
ghost use Rattle.std.specs.Prelude.{◌≡◌, ◌+◌, ◌-◌, ◌^◌, ◌<◌, min, None};

use crate::spelled::{bytes_of, record_of};
use page_image::Sealed;
use page_repair::Chain;
use std::alloc::Global;
use std::marker::Model;
use std::sync::Wait;
use std::sync::ledger::{Blank, Book, Ledger, Share};
use store_model::{Fault, Lsn, PageNo};
use wal_record::Record;

/// The records of a log from the LSN 1 on, and how many were asked for. It answers by no log, so its records may be any.
/// Contracts see it as that count.
#[derive(Drop)]
pub struct Table<L: Ledger> {
    records: Vec<Vec<u8>>,
    calls: u64,
    counted: Book<L>,
    share: Share<L>,
}

impl<L: Ledger> Model for Table<L> {
    ghost use Rattle.std.specs.Prelude.{◌≡◌, ◌-◌, ◌^◌, ◌<◌, ℕ, min};

    ghost Value = { ℕ };

    ghost view = { λ t. t.counted.total };

    ghost invariant = { λ t. (t.calls ≡ min t.counted.total (2 ^ 64 - 1)) × (0 < t.share.parts) };
}

/// The records of a text, which a stroke parts.
pub fn records_of(alloc: Global, text: &str) -> Option<Vec<Vec<u8>>> {
    let mut records = Vec::new(alloc);
    for record in text.split('/') {
        records.push(bytes_of(alloc, record)?).ok()?;
    }
    Some(records)
}

impl<L: Ledger> Table<L> {
    pub fn new(blank: Blank, records: Vec<Vec<u8>>) -> Table<L>
        requires name { blank.name ≡ L.name }
        requires parts { (blank.parts ≡ L.parts) × (0 < L.parts) }
    {
        let (counted, share) = blank.open::<L>();
        Table {
            records,
            calls: 0,
            counted,
            share,
        }
    }

    fn count(&mut self)
        ensures { self.new ≡ self.old + 1 }
    {
        self.calls = self.calls.saturating_add(1);
        self.counted.add(&mut self.share, 1);
    }
}

impl<L: Ledger> Chain for Table<L> {
    ghost answers = { λ t log. ⊥ };

    ghost calls = { λ t. t };

    ghost faults = { λ t. record { log = 0; vault = 0 } };

    ghost ended = { λ t. None };

    fn calls(&self) -> u64 {
        self.calls
    }

    fn log_faults(&self) -> u64 {
        0
    }

    fn vault_faults(&self) -> u64 {
        0
    }

    /// One that isn't there is bad at its LSN.
    fn record_at<R: Wait>(
        &mut self,
        _rt: &R,
        alloc: Global,
        _page: PageNo,
        lsn: Lsn,
    ) -> Result<Record, Fault> {
        self.count();
        let bad = Fault::LogBad {
            block: 0,
            byte: lsn,
        };
        let Some(place) = lsn.checked_sub(1) else {
            return Err(bad);
        };
        let Some(bytes) = self.records.get(place as usize) else {
            return Err(bad);
        };
        match record_of(alloc, bytes) {
            Some(record) => Ok(record),
            None => Err(bad),
        }
    }

    fn backup_of<R: Wait>(
        &mut self,
        _rt: &R,
        _alloc: Global,
        _page: PageNo,
        _backup: u64,
    ) -> Result<Sealed, Fault> {
        Err(Fault::Memory)
    }
}
