//! What is asked of the journal: what is known of its log, records, repairs, and what it may forget.
ghost use Rattle.std.specs.Prelude.{◌≡◌, ◌+◌, ◌<◌, ◌≤◌, List, [], drop, length, filter, Some, None, IfOk, IfErr, IfSome, IfNone, IsErrAnd, OnOk, OnErr};
ghost use Rattle.log_blocks.specs.LogState.{durable_lsn};
ghost use Rattle.log_blocks.specs.Opening.{IsLogFault};
ghost use Rattle.log_index.specs.Listing.{IsListingOf};
ghost use Rattle.log_manager.specs.Managed.{before_lsn};
ghost use Rattle.page_ops.specs.Causes.{Ends, FailsToEnter, FailsToFlush, FailsToRead, IsEnd, NoOther, with_one};
ghost use Rattle.page_ops.specs.Claims.{no_claims};
ghost use Rattle.page_ops.specs.Outcomes.{IsFound, first_of, is_repaired, is_undo, losers_left, repairs};
ghost use Rattle.page_ops.specs.Seeing.{Enters, Looks, known};
ghost use Rattle.wal_record.specs.Checkpoints.{recycle_point};
ghost use Rattle.wal_record.specs.History.{life_log, log_of};
ghost use Rattle.wal_record.specs.Sound.{AreLawful};
ghost use Rattle.wal_record.specs.Upkeep.{written_lsn};
ghost use Rattle.wal_record.specs.declared.record.Record.{Record};
ghost use Rattle.journal.specs.Lookups.{IsFoundBehind};
ghost use Rattle.journal.specs.State.{BeginsWith, BlamesDisk, IsUntouched, KeepsBlocks, KeepsEnd, LearnsEnd, Recycles};

use crate::ends::{check_open, find, recycle_log, tell_durable};
use crate::journal::Journal;
use books::PageRight;
use front::Pass;
use life_history::{Counts, MOST_ENTRIES};
use log_index::Listing;
use media::Disk;
use page_ops::{Found, Ground, Life};
use std::alloc::Global;
use std::cmp::min;
use store_model::{Fault, List, Lsn, Memory, Pos, TxId};
use wal_record::Entry;

impl<'a, L: Disk, N: Life> Journal<'a, L, N> {
    /// What the threads of the life share.
    pub fn ground(&self) -> &Ground<N> {
        self.history.ground()
    }

    /// Shows the pass the history, and says whether the life goes on.
    pub fn look(&mut self, pass: &mut Pass<Entry, N>, counts: &mut Counts<N>) -> Result<(), Fault>
        ensures same { self.new ≡ self.old }
        ensures pass { pass.new.log ≡ self.old.history }
        ensures seen { Looks N.opens N.entries N.session_entries counts.old pass.old counts.new pass.new }
        ensures counts { OnOk result (counts.new ≡ counts.old) }
        ensures refused { IfErr result IsEnd }
        ensures ends { Ends N.opens N.log_faults N.made counts.old counts.new pass.new.log result }
        ensures learns { LearnsEnd counts.old counts.new self.new.ended }
    {
        self.history.look(pass, counts);
        if let Err(fault) = check_open(&self.log, &mut self.faults, counts) {
            return Err(fault);
        }
        Ok(())
    }

    /// What is known of the life's log.
    pub fn listing(&self) -> &Listing
        ensures listing { (opening : List Record) → N.opens opening → IsListingOf (life_log opening self.now.history) result.now }
        ensures lawful { (opening : List Record) → N.opens opening → AreLawful (life_log opening self.now.history) }
    {
        self.log.listing()
    }

    /// The least loser of the opening log that has no End yet.
    pub fn least_loser(&self) -> Option<TxId>
        ensures { (opening : List Record) → N.opens opening → result ≡ first_of (losers_left opening self.now.history) }
    {
        match self.losers.first_left() {
            Some(loser) => Some(loser.tx),
            None => None,
        }
    }

    /// The losers of the opening log that have no End yet, by rising number.
    pub fn losers(&self, alloc: Global) -> Result<List<TxId>, Memory>
        ensures { (opening : List Record) → N.opens opening → IfOk result (λ txs. txs ≡ losers_left opening self.now.history) }
    {
        self.losers.left(alloc)
    }

    /// How many writes the life has undone.
    pub fn undone(&self) -> u64
        ensures { result ≡ length (filter is_undo (log_of self.now.history)) }
    {
        self.history.undone()
    }

    /// How many pages the life has repaired, counting each time.
    pub fn repairs(&self) -> u64
        ensures { result ≡ length (filter is_repaired self.now.history) }
    {
        self.history.repaired()
    }

    /// The LSN of the last record.
    pub fn last(&self) -> Lsn
        ensures { (opening : List Record) → N.opens opening → result ≡ length (life_log opening self.now.history) }
    {
        self.log.last()
    }

    /// The LSN of the first record that the log keeps; of the next one, where it keeps none. With it the first durable block begins.
    pub fn first_kept(&self) -> Lsn
        ensures { BeginsWith self.now.blocks result }
    {
        self.log.first_kept()
    }

    /// Tells the pass up to which LSN the log is durable, or the higher one that passes were told before. Gives what the pass
    /// has then seen.
    pub fn tell_durable(&mut self, pass: &mut Pass<Entry, N>) -> Lsn
        ensures same { self.new ≡ self.old }
        ensures log { pass.new.log ≡ pass.old.log }
        ensures number { result ≡ pass.new.durable }
        ensures durable { durable_lsn self.old.blocks ≤ pass.new.durable }
        ensures before { pass.old.durable ≤ pass.new.durable }
    {
        let board = &self.history.ground().board;
        let durable = self.log.durable();
        tell_durable(board, &mut self.mark, &mut self.marked, durable, pass);
        pass.durable(board)
    }

    /// As `Entering::read`. It says that it wants memory where neither the log nor a run has the record.
    pub fn read(
        &mut self,
        alloc: Global,
        lsn: Lsn,
        pass: &mut Pass<Entry, N>,
        counts: &mut Counts<N>,
    ) -> Result<Found, Fault>
        ensures same { self.new.history ≡ self.old.history }
        ensures pass { pass.new.log ≡ self.old.history }
        ensures seen { Looks N.opens N.entries N.session_entries counts.old pass.old counts.new pass.new }
        ensures found { IfOk result (IsFound N.opens pass.new.log lsn) }
        ensures kind { IfOk result (IsFoundBehind self.old.blocks lsn) }
        ensures blocks { self.new.blocks ≡ self.old.blocks }
        ensures refused { IfErr result (FailsToRead N.opens) }
        ensures ends { Ends N.opens N.log_faults N.made counts.old counts.new pass.new.log result }
        ensures end { KeepsEnd self.old self.new }
        ensures learns { LearnsEnd counts.old counts.new self.new.ended }
        ensures calls { BlamesDisk self.old.calls self.new.calls (IsErrAnd result IsLogFault) }
    {
        self.history.look(pass, counts);
        match check_open(&self.log, &mut self.faults, counts) {
            Ok(()) => find(&mut self.log, &mut self.faults, counts, alloc, lsn),
            Err(fault) => Err(fault),
        }
    }

    /// As `Entering::repaired`. It says that it wants memory where the history has 2^62 entries.
    pub fn repaired(
        &mut self,
        right: &PageRight<N>,
        pass: &mut Pass<Entry, N>,
        counts: &mut Counts<N>,
    ) -> Result<Option<Pos>, Fault>
        ensures entered { Enters N.opens N.entries N.session_entries (known counts.old pass.old no_claims) (repairs right.now.page result) (known counts.new pass.new no_claims) }
        ensures place { IfOk result (λ pos. IfSome pos (λ p. p ≡ length pass.new.log)) }
        ensures none { IfOk result (λ pos. IfNone pos ((opening : List Record) → N.opens opening → written_lsn (life_log opening pass.new.log) right.now.page ≡ 0)) }
        ensures refused { IfErr result (FailsToEnter NoOther) }
        ensures ends { Ends N.opens N.log_faults N.made counts.old counts.new pass.new.log result }
        ensures disk { IsUntouched self.old self.new }
        ensures learns { LearnsEnd counts.old counts.new self.new.ended }
    {
        match check_open(&self.log, &mut self.faults, counts) {
            Ok(()) => {
                let page = right.page();
                if self.log.listing().written_lsn(page) == 0 {
                    self.history.look(pass, counts);
                    return Ok(None);
                }
                if self.history.length() >= MOST_ENTRIES {
                    self.history.look(pass, counts);
                    return Err(Fault::Memory);
                }
                self.history.enter_repaired(page, pass, counts);
                Ok(Some(self.history.length()))
            }
            Err(fault) => {
                self.history.look(pass, counts);
                Err(fault)
            }
        }
    }

    /// As `Journaling::recycle`. Gives the recycle point where the log's first record stands behind it.
    pub fn recycle(
        &mut self,
        pass: &mut Pass<Entry, N>,
        counts: &mut Counts<N>,
    ) -> Result<Lsn, Fault>
        ensures seen { Looks N.opens N.entries N.session_entries counts.old pass.old counts.new pass.new }
        ensures kept { IfOk result (λ lsn. (opening : List Record) → N.opens opening → lsn ≤ recycle_point (life_log opening pass.new.log)) }
        ensures durable { OnOk result ((opening : List Record) → N.opens opening → length (life_log opening pass.new.log) ≤ pass.new.durable) }
        ensures forgets { OnOk result ((opening : List Record) → N.opens opening → Recycles (recycle_point (life_log opening pass.new.log)) self.old.blocks self.new.blocks) }
        ensures blocks { OnErr result (KeepsBlocks N.opens self.old.blocks self.new.blocks) }
        ensures refused { IfErr result FailsToFlush }
        ensures ends { Ends N.opens N.log_faults N.made counts.old counts.new pass.new.log result }
        ensures end { KeepsEnd self.old self.new }
        ensures learns { LearnsEnd counts.old counts.new self.new.ended }
        ensures calls { BlamesDisk self.old.calls self.new.calls (IsErrAnd result IsLogFault) }
    {
        let last = self.log.last();
        match self.flush(last, pass, counts) {
            Ok(()) => self.forget(pass, counts),
            Err(fault) => Err(fault),
        }
    }

    /// Forgets what nothing needs of the log.
    fn forget(&mut self, pass: &mut Pass<Entry, N>, counts: &mut Counts<N>) -> Result<Lsn, Fault>
        ensures same { self.new.history ≡ self.old.history }
        ensures seen { Looks N.opens N.entries N.session_entries counts.old pass.old counts.new pass.new }
        ensures pass { pass.new.log ≡ self.old.history }
        ensures forgets { (opening : List Record) → N.opens opening → length (life_log opening pass.new.log) ≤ durable_lsn self.old.blocks
            → OnOk result (self.new.blocks ≡ drop (before_lsn (recycle_point (life_log opening pass.new.log)) self.old.blocks) self.old.blocks) }
        ensures none { OnErr result (self.new.blocks ≡ self.old.blocks) }
        ensures rises { (opening : List Record) → N.opens opening → durable_lsn self.old.blocks ≤ durable_lsn self.new.blocks }
        ensures kept { IfOk result (λ lsn. (opening : List Record) → N.opens opening → lsn ≤ recycle_point (life_log opening pass.new.log)) }
        ensures refused { IfErr result FailsToFlush }
        ensures ends { Ends N.opens N.log_faults N.made counts.old counts.new pass.new.log result }
        ensures end { KeepsEnd self.old self.new }
        ensures learns { LearnsEnd counts.old counts.new self.new.ended }
        ensures calls { BlamesDisk self.old.calls self.new.calls (IsErrAnd result IsLogFault) }
    {
        self.history.look(pass, counts);
        match check_open(&self.log, &mut self.faults, counts) {
            Ok(()) => {
                let point = self.log.listing().recycle_point();
                match recycle_log(&mut self.log, &mut self.faults, counts) {
                    Ok(lsn) => Ok(min(lsn, point)),
                    Err(fault) => Err(fault),
                }
            }
            Err(fault) => Err(fault),
        }
    }

    /// As `Journaling::desk`. No desk is kept, so there is no limit.
    pub fn desk(&mut self, pass: &mut Pass<Entry, N>, counts: &mut Counts<N>) -> Result<(), Fault>
        ensures seen { Looks N.opens N.entries N.session_entries (record counts.old { made = counts.new.made }) pass.old counts.new pass.new }
        ensures made { counts.new.made ≡ with_one counts.old.made result }
        ensures refused { IfErr result IsEnd }
        ensures ends { Ends N.opens N.log_faults N.made counts.old counts.new pass.new.log result }
        ensures disk { IsUntouched self.old self.new }
        ensures learns { LearnsEnd counts.old counts.new self.new.ended }
    {
        match check_open(&self.log, &mut self.faults, counts) {
            Ok(()) => {
                self.history.desk(pass, counts);
                Ok(())
            }
            Err(fault) => {
                self.history.look(pass, counts);
                Err(fault)
            }
        }
    }
}
