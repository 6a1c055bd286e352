//! The last backup.
ghost use Rattle.std.specs.Prelude.{◌≡◌, ◌↔◌, ◌∷◌, ◌++◌, ◌==◌, ◌+◌, ◌<◌, [], List, length, not, IsTrue, OnOk, OnErr};
ghost use Rattle.std.specs.List.{list_all, list_any};
ghost use Rattle.wal_record.specs.Sound.{BackupRule, are_images};
ghost use Rattle.wal_record.specs.Upkeep.{segment_of};
ghost use Rattle.wal_record.specs.declared.record.PageLsn.{PageLsn};
ghost use Rattle.wal_record.specs.declared.record.Record.{Record};
ghost use Rattle.wal_record.specs.declared.record.Record.TheVariants as kinds;
ghost use Rattle.page_judge.specs.Names.{AreNamesOf};
ghost use Rattle.upkeep_judge.specs.Backups.{AreBackupsOf, IsFresh, is_segment};

use page_judge::PageNames;
use std::alloc::Global;
use store_model::{List, Lsn, Memory, SEGMENT_PAGES};
use wal_record::{BackupDone, PageLsn, Record};

/// The number of the last backup, 0 for none, and the segments that it has so far.
#[derive(Drop)]
pub struct Backups {
    alloc: Global,
    number: u64,
    segments: List<u32>,
}

/// Whether each page has an image with its LSN, where `last` is the LSN of the last record.
fn are_images(names: &PageNames, last: Lsn, pages: &[PageLsn]) -> bool
    ensures { (log : List Record) → AreNamesOf log names.now → last ≡ length log → IsTrue result ↔ IsTrue (are_images log pages.now) }
{
    for page in pages {
        if !names.names_at(last, page.lsn, page.page) {
            return false;
        }
    }
    true
}

/// Whether the page lies in the segment.
fn lies_in(page: u32, segment: u32) -> bool
    ensures { result ≡ (segment_of page == segment) }
{
    page.saturating_sub(1) / SEGMENT_PAGES == segment
}

/// Whether each page lies in the segment.
fn lie_in(pages: &[PageLsn], segment: u32) -> bool
    ensures { result ≡ list_all (λ (x : PageLsn). segment_of x.page == segment) pages.now }
{
    pages.iter().all(|page| lies_in(page.page, segment))
}

/// Whether each page lies in the backup's segment, with an image of its LSN.
fn are_placed(names: &PageNames, last: Lsn, done: &BackupDone) -> bool
    ensures { (log : List Record) → AreNamesOf log names.now → last ≡ length log → IsTrue result ↔ (IsTrue (list_all (λ (x : PageLsn). segment_of x.page == done.now.segment) done.now.pages) × IsTrue (are_images log done.now.pages)) }
{
    lie_in(done.pages.as_slice(), done.segment) && are_images(names, last, done.pages.as_slice())
}

fn has_segment(segments: &[u32], segment: u32) -> bool
    ensures { result ≡ list_any (is_segment segment) segments.now }
{
    segments.iter().any(|found| *found == segment)
}

impl Backups {
    /// That of an empty log.
    pub fn new(alloc: Global) -> Backups
        ensures { AreBackupsOf [] result }
    {
        Backups {
            alloc,
            number: 0,
            segments: List::new(alloc),
        }
    }

    /// Whether this is the number of the last backup.
    fn is_last(&self, backup: u64) -> bool
        ensures { IsTrue result ↔ (backup ≡ self.now.number) }
    {
        backup == self.number
    }

    /// Whether the number is above that of the last backup.
    fn is_above(&self, backup: u64) -> bool
        ensures { IsTrue result ↔ (self.now.number < backup) }
    {
        backup > self.number
    }

    /// Whether this is the number of the next backup.
    fn is_next(&self, backup: u64) -> bool
        ensures { IsTrue result ↔ (backup ≡ self.now.number + 1) }
    {
        backup > self.number && backup - 1 == self.number
    }

    /// Whether the last backup doesn't have the segment.
    fn lacks(&self, segment: u32) -> bool
        ensures { result ≡ not (list_any (is_segment segment) self.now.segments) }
    {
        !has_segment(self.segments.as_slice(), segment)
    }

    /// Whether a backup with this number may have the segment: it goes on with the last one, which doesn't have it, or is the
    /// next one.
    fn is_fresh(&self, backup: u64, segment: u32) -> bool
        ensures { (log : List Record) → AreBackupsOf log self.now → IsTrue result ↔ IsFresh log backup segment }
    {
        if self.is_last(backup) {
            self.lacks(segment)
        } else {
            self.is_next(backup)
        }
    }

    /// Whether a backup may be told next, where `last` is the LSN of the last record.
    pub fn may_stand(&self, names: &PageNames, last: Lsn, done: &BackupDone) -> bool
        ensures { (log : List Record) → AreBackupsOf log self.now → AreNamesOf log names.now → last ≡ length log → IsTrue result ↔ BackupRule log done.now }
    {
        self.is_fresh(done.backup, done.segment) && are_placed(names, last, done)
    }

    fn begin(&mut self, backup: u64, segment: u32) -> Result<(), Memory>
        ensures ok { OnOk result ((self.new.number ≡ backup) × (self.new.segments ≡ segment ∷ [])) }
        ensures err { OnErr result (self.new ≡ self.old) }
    {
        let mut segments = List::new(self.alloc);
        segments.push(segment)?;
        self.number = backup;
        self.segments = segments;
        Ok(())
    }

    fn go_on(&mut self, segment: u32) -> Result<(), Memory>
        ensures ok { OnOk result ((self.new.number ≡ self.old.number) × (self.new.segments ≡ self.old.segments ++ segment ∷ [])) }
        ensures err { OnErr result (self.new ≡ self.old) }
    {
        self.segments.push(segment)?;
        Ok(())
    }

    fn note_backup(&mut self, done: &BackupDone) -> Result<(), Memory>
        ensures ok { (log : List Record) → AreBackupsOf log self.old → OnOk result (AreBackupsOf (log ++ kinds.BackupDone done.now ∷ []) self.new) }
        ensures err { OnErr result (self.new ≡ self.old) }
    {
        if self.is_last(done.backup) {
            return self.go_on(done.segment);
        }
        if self.is_above(done.backup) {
            return self.begin(done.backup, done.segment);
        }
        Ok(())
    }

    /// The next record. Where memory runs out, this is still the last backup of the log before it.
    pub fn note(&mut self, entered: &Record) -> Result<(), Memory>
        ensures ok { (log : List Record) → AreBackupsOf log self.old → OnOk result (AreBackupsOf (log ++ entered.now ∷ []) self.new) }
        ensures err { OnErr result (self.new ≡ self.old) }
    {
        match entered {
            Record::BackupDone(done) => self.note_backup(done),
            _ => Ok(()),
        }
    }
}
