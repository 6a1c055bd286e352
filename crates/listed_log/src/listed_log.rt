//! The log and its listing.
ghost use Rattle.std.specs.Prelude.{◌≡◌, ◌+◌, ◌-◌, ◌<◌, ◌≤◌, ◌^◌, ◌++◌, ◌∷◌, [], ℕ, List, length, None, Bool, true, false, OnOk, OnErr, IfOk, IfErr, IsErrAnd};
ghost use Rattle.std.specs.List.{All, list_any};
ghost use mathlib.Core.List.{IsPrefix};
ghost use Rattle.log_blocks.specs.LogState.{Refused, durable_lsn};
ghost use Rattle.log_blocks.specs.Opening.{IsLogFault};
ghost use Rattle.log_index.specs.GoingOn.{KnowsLast};
ghost use Rattle.log_index.specs.Listing.{IsListingOf};
ghost use Rattle.log_manager.specs.Managed.{NotAdded};
ghost use Rattle.log_manager.specs.Payload.{bytes_of};
ghost use Rattle.log_manager.specs.Records.{IsLogOf};
ghost use Rattle.media.specs.Counted.{Blames};
ghost use Rattle.wal_record.specs.Chains.{finishes, last};
ghost use Rattle.wal_record.specs.Rules.{HasSpelling};
ghost use Rattle.stop_laws.specs.Stops.{GoesOnOrEnds, WaitsInGroups};
ghost use Rattle.wal_record.specs.Sound.{AreLawful, HasRoom};
ghost use Rattle.wal_record.specs.declared.record.Record.{Record};
ghost use Rattle.wal_record.specs.declared.record.Record.TheVariants as kinds;
ghost use Rattle.listed_log.specs.Listed.{HoldsEnd, IsLogWith, Joins};

use crate::noting::{note_all, prepare_all};
use log_blocks::MOST_BYTES;
use log_index::Listing;
use log_manager::{LogManager, groups_law};
use media::Disk;
use std::alloc::Global;
use store_model::{Fault, Lsn, Memory, TxId};
use wal_record::{Commit, Record};

/// The records of a log, and what has to be known of them to go on.
#[derive(Drop)]
pub struct ListedLog<L: Disk> {
    pub log: LogManager<L>,
    pub listing: Listing,
}

impl<L: Disk> ListedLog<L> {
    /// Both of the same records.
    pub fn new(log: LogManager<L>, listing: Listing) -> ListedLog<L>
        ensures same { (result.log ≡ log) × (result.listing ≡ listing) }
        ensures records { (goes : ℕ → Bool) (rs : List Record) → AreLawful rs → IsListingOf rs listing → KnowsLast goes rs listing
            → log.log.next ≡ length rs + 1 → (L.tells → log.log.ended ≡ None → HoldsEnd L.told L.may_leave log.log rs) → IsLogWith L.tells L.told L.may_leave goes rs log listing }
    {
        ListedLog { log, listing }
    }

    /// What is known of the records.
    pub fn listing(&self) -> &Listing
        ensures { result.now ≡ self.now.listing }
    {
        &self.listing
    }

    /// The LSN of the last record of a transaction that goes on and isn't over, 0 for none.
    pub fn last_of(&self, tx: TxId) -> Lsn
        ensures { (goes : ℕ → Bool) (rs : List Record) → IsLogWith L.tells L.told L.may_leave goes rs self.now.log self.now.listing → goes tx ≡ true → list_any (finishes tx) rs ≡ false → result ≡ last rs tx }
    {
        self.listing.noted(tx)
    }

    /// The LSN of the last record, 0 where there is none.
    pub fn last(&self) -> Lsn
        ensures next { result ≡ self.now.log.log.next - 1 }
        ensures length { (goes : ℕ → Bool) (rs : List Record) → IsLogWith L.tells L.told L.may_leave goes rs self.now.log self.now.listing → result ≡ length rs }
    {
        self.log.last()
    }

    /// The LSN of the last stable record, 0 where none is stable.
    pub fn durable(&self) -> Lsn
        ensures { result ≡ durable_lsn self.now.log.log.places }
    {
        self.log.durable()
    }

    /// The durable LSN when a device call failed, if one has: then the log has ended.
    pub fn ended(&self) -> Option<Lsn>
        ensures { result ≡ self.now.log.log.ended }
    {
        self.log.ended()
    }

    /// For how many commits there is room.
    pub fn spare(&self) -> usize
        ensures { result ≡ self.now.log.spare }
    {
        self.log.spare()
    }

    /// Adds one record or two at the end, all in one block. Gives the LSN of the first.
    pub fn append_group(&mut self, alloc: Global, recs: &[Record]) -> Result<Lsn, Fault>
        requires few { 1 ≤ length recs.now }
        requires joins { Joins recs.now }
        requires spelled { All HasSpelling recs.now }
        requires size { length (bytes_of recs.now) ≤ MOST_BYTES }
        ensures lsn { IfOk result (λ lsn. lsn ≡ self.old.log.log.next) }
        ensures more { (goes : ℕ → Bool) (rs : List Record) → IsLogWith L.tells L.told L.may_leave goes rs self.old.log self.old.listing → AreLawful (rs ++ recs.now) → length rs < 2 ^ 62
            → OnOk result (IsLogWith L.tells L.told L.may_leave goes (rs ++ recs.now) self.new.log self.new.listing) }
        // They wait as one group more.
        ensures groups { (goes : ℕ → Bool) (rs : List Record) → IsLogWith L.tells L.told L.may_leave goes rs self.old.log self.old.listing → L.tells → self.old.log.log.ended ≡ None → WaitsInGroups self.old.log.log rs → HasRoom (rs ++ recs.now)
            → OnOk result (WaitsInGroups self.new.log.log (rs ++ recs.now)) }
        ensures same { (goes : ℕ → Bool) (rs : List Record) → IsLogWith L.tells L.told L.may_leave goes rs self.old.log self.old.listing → OnErr result (IsLogWith L.tells L.told L.may_leave goes rs self.new.log self.new.listing) }
        ensures kept { OnErr result (self.new.log ≡ self.old.log) }
        ensures spare { self.new.log.spare ≡ self.old.log.spare }
        ensures disk { (self.new.log.log.device ≡ self.old.log.log.device) × (self.new.log.log.places ≡ self.old.log.log.places) × (self.new.log.log.ended ≡ self.old.log.log.ended) }
        ensures refused { IfErr result (NotAdded self.old.log.log) }
    {
        if let Some(at) = self.log.ended() {
            return Err(Fault::Ended { at });
        }
        prepare_all(&mut self.listing, recs)?;
        let lsn = self.log.append_group(alloc, recs)?;
        note_all(&mut self.listing, lsn, recs);
        Ok(lsn)
    }

    /// Makes room for one more Commit.
    pub fn reserve_commit(&mut self) -> Result<(), Memory>
        ensures ok { OnOk result (self.new ≡ record self.old { log = record self.old.log { spare = self.old.log.spare + 1 } }) }
        ensures same { OnErr result (self.new ≡ self.old) }
    {
        self.log.reserve_commit()
    }

    /// Adds a Commit at the end, without memory. Gives its LSN.
    pub fn commit(&mut self, tx: TxId, prev: Lsn) -> Lsn
        requires spare { 1 ≤ self.old.log.spare }
        requires spelled { HasSpelling (kinds.Commit (record { tx = tx; prev = prev })) }
        ensures lsn { result ≡ self.old.log.log.next }
        ensures more { (goes : ℕ → Bool) (rs : List Record) → IsLogWith L.tells L.told L.may_leave goes rs self.old.log self.old.listing → AreLawful (rs ++ kinds.Commit (record { tx = tx; prev = prev }) ∷ []) → length rs < 2 ^ 63
            → IsLogWith L.tells L.told L.may_leave goes (rs ++ kinds.Commit (record { tx = tx; prev = prev }) ∷ []) self.new.log self.new.listing }
        ensures groups { (goes : ℕ → Bool) (rs : List Record) → IsLogWith L.tells L.told L.may_leave goes rs self.old.log self.old.listing → L.tells → self.old.log.log.ended ≡ None → WaitsInGroups self.old.log.log rs
            → HasRoom (rs ++ kinds.Commit (record { tx = tx; prev = prev }) ∷ []) → WaitsInGroups self.new.log.log (rs ++ kinds.Commit (record { tx = tx; prev = prev }) ∷ []) }
        ensures next { self.new.log.log.next ≡ self.old.log.log.next + 1 }
        ensures spare { self.new.log.spare + 1 ≡ self.old.log.spare }
        ensures disk { (self.new.log.log.device ≡ self.old.log.log.device) × (self.new.log.log.places ≡ self.old.log.log.places) × (self.new.log.log.ended ≡ self.old.log.log.ended) }
    {
        let lsn = self.log.append_commit(tx, prev);
        self.listing.note(lsn, &Record::Commit(Commit { tx, prev }));
        lsn
    }

    /// Makes all records up to this LSN stable. The records stay the same, whatever comes of it.
    pub fn flush_to(&mut self, lsn: Lsn) -> Result<(), Fault>
        requires { lsn < self.old.log.log.next }
        ensures same { (goes : ℕ → Bool) (rs : List Record) → IsLogWith L.tells L.told L.may_leave goes rs self.old.log self.old.listing → IsLogWith L.tells L.told L.may_leave goes rs self.new.log self.new.listing }
        ensures durable { OnOk result (lsn ≤ durable_lsn self.new.log.log.places) }
        // No block goes.
        ensures begins { IsPrefix self.old.log.log.places self.new.log.log.places }
        // What is stable stays so.
        ensures rises { (goes : ℕ → Bool) (rs : List Record) → IsLogWith L.tells L.told L.may_leave goes rs self.old.log self.old.listing
            → L.tells → self.old.log.log.ended ≡ None → durable_lsn self.old.log.log.places ≤ durable_lsn self.new.log.log.places }
        // It goes on, or the disk keeps what was stable, and maybe the first of the groups that waited.
        ensures left { (goes : ℕ → Bool) (rs : List Record) → IsLogWith L.tells L.told L.may_leave goes rs self.old.log self.old.listing → L.tells → self.old.log.log.ended ≡ None → WaitsInGroups self.old.log.log rs
            → GoesOnOrEnds L.told L.may_leave rs self.old.log.log self.new.log.log }
        ensures spare { self.new.log.spare ≡ self.old.log.spare }
        ensures next { self.new.log.log.next ≡ self.old.log.log.next }
        ensures live { OnOk result ((self.old.log.log.ended ≡ None) × (self.new.log.log.ended ≡ None)) }
        ensures refused { IfErr result (Refused ⊥ L.faults self.old.log.log self.new.log.log) }
        ensures later { L.faults self.old.log.log.device ≤ L.faults self.new.log.log.device }
        // Where the disk failed, it did so by itself, or a fuse that was armed refused the call; else none refused one.
        ensures fuse { Blames L.passes L.refused L.own self.old.log.log.device self.new.log.log.device (IsErrAnd result IsLogFault) }
    {
        // A crash leaves whole groups.
        groups_law();
        self.log.flush_to(lsn)
    }
}
