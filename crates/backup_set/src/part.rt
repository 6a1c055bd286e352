//! Which object has a segment of a backup.
ghost use Rattle.std.specs.Prelude.{◌≡◌};
ghost use Rattle.store_model.specs.declared.fault.Fault.TheVariants as faults;
ghost use Rattle.wal_record.specs.Upkeep.{segment_of};
ghost use Rattle.backup_set.specs.Answers.{place_of};
ghost use Rattle.backup_set.specs.Backup.{backup_name};

use store_model::{Fault, ObjectKind, ObjectName, PageNo, SEGMENT_PAGES};

/// One segment of a backup.
#[derive(Clone, Copy)]
pub struct Part {
    pub backup: u64,
    pub segment: u32,
}

impl Part {
    /// The name of its object.
    pub fn name(self) -> ObjectName
        ensures { result ≡ backup_name self.backup self.segment }
    {
        ObjectName {
            kind: ObjectKind::Backup,
            id: self.backup,
            part: self.segment,
        }
    }

    /// The fault of its object at this byte.
    pub fn bad_at(self, byte: usize) -> Fault
        ensures { result ≡ faults.VaultBad (backup_name self.backup self.segment) byte }
    {
        Fault::VaultBad {
            object: self.name(),
            byte: byte as u64,
        }
    }
}

/// The segment that has the page.
pub fn segment_of(page: PageNo) -> u32
    ensures { result ≡ segment_of page }
{
    page.saturating_sub(1) / SEGMENT_PAGES
}

/// Which image the page's is in the object of its whole segment, counted from 0.
pub fn place_of(page: PageNo) -> u32
    ensures { result ≡ place_of page }
{
    page.saturating_sub(1) % SEGMENT_PAGES
}
