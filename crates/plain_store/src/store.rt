//! A store of one thread.
ghost use Rattle.std.specs.Prelude.{◌≡◌, ◌≤◌, ℕ};
ghost use Rattle.journal.specs.State.{calls_of};
ghost use Rattle.journal.specs.Stops.{Leaves};
ghost use Rattle.page_repair.specs.Images.{AreWritten};

use books::MaintRight;
use buffer_pool::PlainPool;
use front::Pass;
use media::{Disk, PageDevice};
use own_journal::OwnJournal;
use page_ops::{DataFaults, Life, NewLedger, VaultFaults};
use page_repair::OwnImages;
use std::sync::ledger::Book;
use wal_record::Entry;

/// A life's journal and its pool, the pass of who opened it, and what nobody holds yet: the right to maintenance, and the
/// ledgers of the devices' faults.
#[derive(Drop)]
pub struct PlainStore<'a, L: Disk, P: PageDevice, S, N: Life> {
    pub journal: OwnJournal<'a, L, N>,
    pub pages: PlainPool<OwnImages<'a, P, N>, S, N>,
    pub pass: Pass<Entry, N>,
    pub maint: MaintRight<N>,
    pub vault_faults: Book<VaultFaults<N>>,
    pub data_faults: NewLedger<DataFaults<N>>,
}

impl<'a, L: Disk, P: PageDevice, S, N: Life> PlainStore<'a, L, P, S, N> {
    /// The life has stopped: its log disk, its data device and its supply, as they are. What the log disk keeps, and what it
    /// keeps after a crash that comes now, stands for a log that a stop may leave of the life; it has so many records that each
    /// image of the data device is made of them alone.
    pub fn into_devices(self) -> (L, P, S)
        ensures left { (kept : ℕ) × (self.entry.pass.durable ≤ kept) × Leaves N.opens L.told L.may_leave self.entry.journal.journal.history kept result.0
            × (P.tells → AreWritten N.opens P.told (record { log = self.entry.journal.journal.history; durable = kept }) result.1) }
        ensures calls { calls_of L.passes L.refused L.own result.0 ≡ self.entry.journal.journal.calls }
        ensures device { result.1 ≡ self.entry.pages.images }
        ensures supply { result.2 ≡ self.entry.pages.supply }
    {
        let PlainStore {
            journal,
            pages,
            mut pass,
            ..
        } = self;
        let (images, supply) = pages.into_parts();
        let device = images.into_device(&mut pass);
        let log = journal.into_device(&mut pass);
        (log, device, supply)
    }
}
