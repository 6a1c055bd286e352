//! What the log keeps of its records: read, and forgotten.
ghost use Rattle.std.specs.Prelude.{◌≡◌, ◌⊎◌, ◌-◌, ◌^◌, ◌<◌, ◌≤◌, ℕ, List, Bool, None, Some, OnOk, OnErr, IfOk, IfErr, IsErrAnd, drop, length, min};
ghost use Rattle.log_blocks.specs.LogState.{Refused, durable_lsn};
ghost use Rattle.log_blocks.specs.Opening.{IsLogFault};
ghost use Rattle.log_manager.specs.Managed.{IsNoBadLog, ReadRefused, before_lsn, first_kept};
ghost use Rattle.stop_laws.specs.Stops.{GoesOnOrEnds, KeepsFirst, WaitsInGroups};
ghost use Rattle.media.specs.Counted.{Armed, Blames};
ghost use Rattle.wal_record.specs.Chains.{record_with};
ghost use Rattle.wal_record.specs.Checkpoints.{recycle_point};
ghost use Rattle.wal_record.specs.Rules.{HasSpelling};
ghost use Rattle.wal_record.specs.declared.record.Record.{Record};
ghost use Rattle.listed_log.specs.Listed.{IsLogWith};

use crate::listed_log::ListedLog;
use media::Disk;
use std::alloc::Global;
use store_model::{Fault, Lsn};
use wal_record::Record;

impl<L: Disk> ListedLog<L> {
    /// The LSN of the first record that the log keeps; of the next one, where it keeps none.
    pub fn first_kept(&self) -> Lsn
        ensures { result ≡ first_kept self.now.log.log }
    {
        self.log.first_kept()
    }

    /// The record of an LSN that the log keeps. The records stay the same, whatever comes of it.
    pub fn read(&mut self, alloc: Global, lsn: Lsn) -> Result<Record, Fault>
        requires kept { (first_kept self.old.log.log ≤ lsn) × (lsn < self.old.log.log.next) }
        ensures found { L.tells → (goes : ℕ → Bool) (rs : List Record) → IsLogWith L.tells L.told L.may_leave goes rs self.old.log self.old.listing → IfOk result (λ r. record_with rs lsn ≡ Some r) × IfErr result IsNoBadLog }
        ensures spelling { IfOk result HasSpelling }
        ensures same { (goes : ℕ → Bool) (rs : List Record) → IsLogWith L.tells L.told L.may_leave goes rs self.old.log self.old.listing → IsLogWith L.tells L.told L.may_leave goes rs self.new.log self.new.listing }
        ensures left { (goes : ℕ → Bool) (rs : List Record) → IsLogWith L.tells L.told L.may_leave goes rs self.old.log self.old.listing → L.tells → self.old.log.log.ended ≡ None → WaitsInGroups self.old.log.log rs
            → GoesOnOrEnds L.told L.may_leave rs self.old.log.log self.new.log.log }
        ensures rest { self.new ≡ record self.old { log = record self.old.log { log = record self.old.log.log { device = self.new.log.log.device; ended = self.new.log.log.ended } } } }
        ensures live { OnOk result ((self.old.log.log.ended ≡ None) × (self.new.log.log.ended ≡ None)) }
        ensures refused { IfErr result (ReadRefused L.faults self.old.log.log self.new.log.log) }
        ensures later { L.faults self.old.log.log.device ≤ L.faults self.new.log.log.device }
        ensures fuse { Blames L.passes L.refused L.own self.old.log.log.device self.new.log.log.device (IsErrAnd result IsLogFault) }
    {
        self.log.read(alloc, lsn)
    }

    /// Forgets the durable blocks that end before the recycle point, but never the last one; and nothing while records wait,
    /// which a crash may lose. Gives the LSN of the first record that is kept then.
    pub fn recycle(&mut self) -> Result<Lsn, Fault>
        ensures first { IfOk result (λ lsn. lsn ≡ first_kept self.new.log.log) }
        // Nothing is forgotten that is needed.
        ensures needed { (goes : ℕ → Bool) (rs : List Record) → IsLogWith L.tells L.told L.may_leave goes rs self.old.log self.old.listing → IfOk result (λ lsn. (lsn ≡ first_kept self.old.log.log) ⊎ (lsn ≤ recycle_point rs)) }
        // All goes that isn't needed, where no records wait.
        ensures forgets { (goes : ℕ → Bool) (rs : List Record) → IsLogWith L.tells L.told L.may_leave goes rs self.old.log self.old.listing → length rs ≤ durable_lsn self.old.log.log.places
            → OnOk result (self.new.log.log.places ≡ drop (before_lsn (recycle_point rs) self.old.log.log.places) self.old.log.log.places) }
        ensures none { OnErr result (self.new.log.log.places ≡ self.old.log.log.places) }
        ensures same { (goes : ℕ → Bool) (rs : List Record) → IsLogWith L.tells L.told L.may_leave goes rs self.old.log self.old.listing → IsLogWith L.tells L.told L.may_leave goes rs self.new.log self.new.listing }
        // What is stable stays so.
        ensures rises { (goes : ℕ → Bool) (rs : List Record) → IsLogWith L.tells L.told L.may_leave goes rs self.old.log self.old.listing
            → L.tells → self.old.log.log.ended ≡ None → durable_lsn self.old.log.log.places ≤ durable_lsn self.new.log.log.places }
        // What is left is enough for an opening, also where it fails.
        ensures left { (goes : ℕ → Bool) (rs : List Record) → IsLogWith L.tells L.told L.may_leave goes rs self.old.log self.old.listing → L.tells → self.old.log.log.ended ≡ None → WaitsInGroups self.old.log.log rs
            → GoesOnOrEnds L.told L.may_leave rs self.old.log.log self.new.log.log }
        ensures spare { self.new.log.spare ≡ self.old.log.spare }
        ensures next { self.new.log.log.next ≡ self.old.log.log.next }
        ensures listing { self.new.listing ≡ self.old.listing }
        ensures live { OnOk result ((self.old.log.log.ended ≡ None) × (self.new.log.log.ended ≡ None)) }
        ensures refused { IfErr result (Refused ⊥ L.faults self.old.log.log self.new.log.log) }
        ensures later { L.faults self.old.log.log.device ≤ L.faults self.new.log.log.device }
        ensures fuse { Blames L.passes L.refused L.own self.old.log.log.device self.new.log.log.device (IsErrAnd result IsLogFault) }
    {
        let point = self.unneeded();
        match self.log.recycle_to(point) {
            Ok(()) => Ok(self.log.first_kept()),
            Err(fault) => Err(fault),
        }
    }

    /// The LSN before which nothing is needed: 0 while records wait.
    fn unneeded(&self) -> Lsn
        ensures low { (goes : ℕ → Bool) (rs : List Record) → IsLogWith L.tells L.told L.may_leave goes rs self.now.log self.now.listing → (result ≡ 0) ⊎ ((result ≡ recycle_point rs) × (length rs ≤ durable_lsn self.now.log.log.places)) }
        ensures all { (goes : ℕ → Bool) (rs : List Record) → IsLogWith L.tells L.told L.may_leave goes rs self.now.log self.now.listing → length rs ≤ durable_lsn self.now.log.log.places → result ≡ recycle_point rs }
    {
        if self.log.durable() < self.log.last() {
            0
        } else {
            self.listing.recycle_point()
        }
    }

    /// Arms the disk's fuse, which lets n more calls pass, or renews it.
    pub fn fuse(&mut self, n: Option<u64>)
        ensures same { (goes : ℕ → Bool) (rs : List Record) → IsLogWith L.tells L.told L.may_leave goes rs self.old.log self.old.listing → IsLogWith L.tells L.told L.may_leave goes rs self.new.log self.new.listing }
        ensures rest { self.new ≡ record self.old { log = record self.old.log { log = record self.old.log.log { device = self.new.log.log.device } } } }
        ensures kept { (rs : List Record) (least : ℕ) → L.tells → KeepsFirst L.told L.may_leave rs least self.old.log.log.device → KeepsFirst L.told L.may_leave rs least self.new.log.log.device }
        ensures faults { L.faults self.new.log.log.device ≡ L.faults self.old.log.log.device }
        ensures fuse { Armed L.fuses L.passes L.refused L.own n self.old.log.log.device self.new.log.log.device }
    {
        self.log.fuse(n);
    }

    /// How many calls the disk's fuse has refused.
    pub fn refused(&self) -> u64
        ensures { result ≡ min (L.refused self.now.log.log.device) (2 ^ 64 - 1) }
    {
        self.log.refused()
    }

    /// The disk, as it is.
    pub fn into_device(self) -> L
        ensures device { result ≡ self.log.log.device }
        // As long as no call of it failed, it keeps the stable records.
        ensures left { (goes : ℕ → Bool) (rs : List Record) → IsLogWith L.tells L.told L.may_leave goes rs self.log self.listing → L.tells → self.log.log.ended ≡ None → WaitsInGroups self.log.log rs
            → KeepsFirst L.told L.may_leave rs (durable_lsn self.log.log.places) result }
    {
        let ListedLog { log, .. } = self;
        log.into_device()
    }
}
