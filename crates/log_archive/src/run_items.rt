//! The items of a run, gathered record by record.
ghost use Rattle.std.specs.Prelude.{◌≡◌, ◌≤◌, ◌<◌, ◌^◌, ◌++◌, ℕ, List, [], length, IfOk};
ghost use Rattle.wal_record.specs.Rules.{HasSpelling};
ghost use Rattle.log_archive.specs.Items.{chunks_of};
ghost use Rattle.log_archive.specs.Run.{run_bytes};
ghost use Rattle.log_archive.specs.Shelves.{AddsWithin, HasItems};
ghost use Rattle.log_archive.specs.declared.item.Numbered.{Numbered};

use crate::object::object_of;
use crate::shelf::{Shelf, add_record, item_of, size_with};
use std::alloc::Global;
use std::marker::Model;
use store_model::{Lsn, Memory};
use wal_record::Record;

/// The items of a run, as its records are gathered one by one. Contracts see how many bytes they have, and the shelves of the
/// run's pages.
#[derive(Drop)]
pub struct RunItems {
    size: usize,
    shelves: Vec<Shelf>,
}

impl Model for RunItems {
    ghost use Rattle.std.specs.Prelude.{◌≤◌, length};
    ghost use Rattle.log_archive.specs.Shelves.{Gathering};

    ghost Value = { Gathering };

    ghost view = { λ r. record { size = r.size; shelves = r.shelves.items } };

    ghost invariant = { λ r. length r.shelves.items ≤ 16384 };
}

impl RunItems {
    /// Of no record yet.
    pub fn new(alloc: Global) -> RunItems
        ensures { result ≡ record { size = 0; shelves = [] } }
    {
        RunItems {
            size: 0,
            shelves: Vec::new(alloc),
        }
    }

    /// Adds a record, under each page that it names, where the items then have at most so many bytes. Else they stay as they
    /// are.
    pub fn add(
        &mut self,
        alloc: Global,
        lsn: Lsn,
        rec: &Record,
        most: usize,
    ) -> Result<bool, Memory>
        requires spelling { HasSpelling rec.now }
        requires most { most ≤ 2 ^ 26 }
        ensures { IfOk result (λ added. (items : List Numbered) → HasItems self.old items → AddsWithin most items (record { lsn = lsn; rec = rec.now }) self.old self.new added) }
    {
        let item = item_of(alloc, lsn, rec)?;
        let size = size_with(self.size, rec, item.len());
        if size > most {
            return Ok(false);
        }
        add_record(alloc, &mut self.shelves, rec, &item)?;
        self.size = size;
        Ok(true)
    }

    /// The object of the run of these LSNs.
    pub fn bytes(&self, alloc: Global, run: u64, first: Lsn, last: Lsn) -> Result<Vec<u8>, Memory>
        ensures spelled { (items : List Numbered) → HasItems self.now items → IfOk result (λ bytes. bytes.items ≡ run_bytes run first last (chunks_of items)) }
        ensures short { IfOk result (λ bytes. length bytes.items < 2 ^ 32) }
    {
        object_of(alloc, run, first, last, self.shelves.as_slice())
    }
}
