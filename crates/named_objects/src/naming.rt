//! What names an object of the vault.
ghost use Rattle.std.specs.Prelude.{◌≡◌, ◌↔◌, true, IfOk};
ghost use Rattle.named_objects.specs.Named.{name_of, record_of};

use std::alloc::{AllocError, Global};
use store_model::{List, Memory, ObjectKind, ObjectName};
use wal_record::{BackupDone, PageLsn, Record, RunDone};

/// What names an object of the vault: that a backup of a segment, or an archive run, is durable.
#[derive(Drop)]
pub enum Naming {
    /// A backup has these pages of a segment.
    Backup(BackupDone),
    /// A run has the page records of a range of the log.
    Run(RunDone),
}

impl Naming {
    /// The object's name.
    pub fn name(&self) -> ObjectName
        ensures { result ≡ name_of self.now }
    {
        match self {
            Naming::Backup(done) => ObjectName {
                kind: ObjectKind::Backup,
                id: done.backup,
                part: done.segment,
            },
            Naming::Run(done) => ObjectName {
                kind: ObjectKind::Run,
                id: done.run,
                part: 0,
            },
        }
    }

    /// The record that says so.
    pub fn into_record(self) -> Record
        ensures { result ≡ record_of self }
    {
        match self {
            Naming::Backup(done) => Record::BackupDone(done),
            Naming::Run(done) => Record::RunDone(done),
        }
    }

    /// Another one that says the same.
    pub fn copy(&self, alloc: Global) -> Result<Naming, Memory>
        ensures { IfOk result (λ copy. copy ≡ self.now) }
    {
        match self {
            Naming::Backup(done) => Ok(Naming::Backup(BackupDone {
                backup: done.backup,
                segment: done.segment,
                pages: List::from_vec(copy_pages(alloc, done.pages.as_slice())?),
            })),
            Naming::Run(done) => Ok(Naming::Run(RunDone {
                run: done.run,
                first: done.first,
                last: done.last,
            })),
        }
    }

    /// Whether both say the same.
    pub fn is_same(&self, other: &Naming) -> bool
        ensures { (result ≡ true) ↔ (self.now ≡ other.now) }
    {
        match (self, other) {
            (Naming::Backup(a), Naming::Backup(b)) => same_backup(a, b),
            (Naming::Run(a), Naming::Run(b)) => same_run(a, b),
            _ => false,
        }
    }
}

fn copy_pages(alloc: Global, pages: &[PageLsn]) -> Result<Vec<PageLsn>, AllocError>
    ensures { IfOk result (λ made. made.items ≡ pages.now) }
{
    let mut made = Vec::with_capacity(alloc, pages.len())?;
    for told in pages {
        made.push(PageLsn {
            page: told.page,
            lsn: told.lsn,
        })?;
    }
    Ok(made)
}

fn same_backup(a: &BackupDone, b: &BackupDone) -> bool
    ensures { (result ≡ true) ↔ (a.now ≡ b.now) }
{
    a.backup == b.backup
        && a.segment == b.segment
        && same_pages(a.pages.as_slice(), b.pages.as_slice())
}

fn same_run(a: &RunDone, b: &RunDone) -> bool
    ensures { (result ≡ true) ↔ (a.now ≡ b.now) }
{
    a.run == b.run && a.first == b.first && a.last == b.last
}

fn same_pages(a: &[PageLsn], b: &[PageLsn]) -> bool
    ensures { (result ≡ true) ↔ (a.now ≡ b.now) }
{
    if a.len() != b.len() {
        return false;
    }
    for i in 0..a.len() {
        if !same_page(&a[i], &b[i]) {
            return false;
        }
    }
    true
}

fn same_page(a: &PageLsn, b: &PageLsn) -> bool
    ensures { (result ≡ true) ↔ (a.now ≡ b.now) }
{
    a.page == b.page && a.lsn == b.lsn
}
