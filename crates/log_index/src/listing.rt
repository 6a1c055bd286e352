//! The listing.
ghost use Rattle.std.specs.Prelude.{◌≡◌, ◌<◌, ◌+◌, ◌-◌, ◌^◌, ◌++◌, ◌∷◌, [], ℕ, List, length, None, false, suc, ◌==◌, slice_get, IfOk, OnOk};
ghost use Rattle.wal_record.specs.Chains.{greatest, head, link_of, pages};
ghost use Rattle.wal_record.specs.OpenWrites.{is_loser, open_list, pending};
ghost use Rattle.wal_record.specs.Rules.{HasSpelling};
ghost use Rattle.wal_record.specs.Sound.{AreLawful};
ghost use Rattle.store_model.specs.Range.{has_key};
ghost use Rattle.wal_record.specs.declared.record.OpenWrite.{OpenWrite};
ghost use Rattle.wal_record.specs.declared.record.Record.{Record};
ghost use Rattle.wal_record.specs.declared.record.Record.TheVariants as kinds;
ghost use Rattle.listing_laws.specs.Summary.{analysis_in, checkpoint_in, checkpoint_step, last_in, pending_in, summary_step};
ghost use Rattle.wal_record.specs.Checkpoints.{analysis_of, checkpoint_of, commits, last_open, limit_of, last_checkpoint, page_head, recycle_point};
ghost use Rattle.wal_record.specs.Upkeep.{archived, last_backup, last_run, lost_pages, standing_runs, unrestored, written_lsn};
ghost use Rattle.std.specs.List.{find, list_any};
ghost use Rattle.log_index.specs.Table.{AreListed, HasRoom, IsCountOf, noted_step};
ghost use Rattle.log_index.specs.Ready.{is_upkeep, makes_page};
ghost use Rattle.log_index.specs.Listing.{covers_lsn, IsListingOf, IsReady, noted, summary};

use crate::copies::{copy_heads, copy_runs, copy_segments, losers_of, transactions_of};
use crate::numbers::Numbers;
use crate::rebuilding::{checkpoint_in, pending_of, table_of};
use crate::table::Tracked;
use crate::upkeep::Upkeep;
use crate::{heads, numbers, table, upkeep};
use std::alloc::{AllocError, Global};
use std::collections::BTreeMap;
use store_model::{KeyRange, List, Lsn, Memory, PageNo, TxId};
use wal_record::{Analysis, Checkpoint, PageHead, Record, Run};

/// What has to be known of a log to go on with it.
#[derive(Drop)]
pub struct Listing {
    alloc: Global,
    /// The LSN of the last record.
    last: Lsn,
    /// That of the last checkpoint.
    checkpoint: Lsn,
    numbers: Numbers,
    /// The page recovery index, from page 1 on.
    heads: Vec<PageHead>,
    /// The transactions that have records, and neither a commit nor an end.
    table: BTreeMap<TxId, Tracked>,
    /// How many open writes these have.
    pending: u64,
    upkeep: Upkeep,
}

/// The LSN of the last checkpoint after a record.
fn checkpoint_after(checkpoint: Lsn, lsn: Lsn, entry: &Record) -> Lsn
    ensures { result ≡ checkpoint_step lsn checkpoint entry.now }
{
    match entry {
        Record::Checkpoint(_) => lsn,
        _ => checkpoint,
    }
}

impl Listing {
    /// The listing of an empty log.
    pub fn new(alloc: Global) -> Listing
        ensures listing { IsListingOf [] result }
        ensures noted { (q : ℕ) → noted result q ≡ 0 }
    {
        Listing {
            alloc,
            last: 0,
            checkpoint: 0,
            numbers: Numbers {
                next_tx: 1,
                next_backup: 1,
                next_run: 1,
                commits: 0,
                limit: 0,
            },
            heads: Vec::new(alloc),
            table: BTreeMap::new(alloc),
            pending: 0,
            upkeep: Upkeep {
                lost: 0,
                unrestored: Vec::new(alloc),
                runs: Vec::new(alloc),
                next_unrestored: Vec::new(alloc),
                next_runs: Vec::new(alloc),
            },
        }
    }

    /// What a checkpoint lists of a log with these LSNs of its last record and its last checkpoint.
    fn from_parts(
        alloc: Global,
        listed: &Checkpoint,
        last: Lsn,
        checkpoint: Lsn,
    ) -> Result<Listing, AllocError>
        ensures summary { AreListed listed.now.transactions → IfOk result (λ s. summary s ≡ record { last = last; checkpoint = checkpoint; listed = listed.now }) }
        ensures noted { IfOk result (λ s. (q : ℕ) → noted s q ≡ last_in q listed.now.transactions) }
        ensures pending { pending_in listed.now.transactions < 2 ^ 64 → IfOk result (λ s. s.pending ≡ pending_in listed.now.transactions) }
    {
        let transactions = listed.transactions.as_slice();
        let heads = copy_heads(alloc, listed.pages.as_slice())?;
        let table = table_of(alloc, transactions)?;
        let unrestored = copy_segments(alloc, listed.unrestored.as_slice())?;
        let runs = copy_runs(alloc, listed.runs.as_slice())?;
        Ok(Listing {
            alloc,
            last,
            checkpoint,
            numbers: Numbers {
                next_tx: listed.next_tx,
                next_backup: listed.next_backup,
                next_run: listed.next_run,
                commits: listed.commits,
                limit: listed.limit,
            },
            heads,
            table,
            pending: pending_of(transactions),
            upkeep: Upkeep {
                lost: listed.lost,
                unrestored,
                runs,
                next_unrestored: Vec::new(alloc),
                next_runs: Vec::new(alloc),
            },
        })
    }

    /// The listing of a log that ends in this checkpoint, which has this LSN. Nothing else of the log is needed.
    pub fn from_checkpoint(
        alloc: Global,
        checkpoint: &Checkpoint,
        lsn: Lsn,
    ) -> Result<Listing, Memory>
        ensures noted { IfOk result (λ s. (q : ℕ) → noted s q ≡ last_in q checkpoint.now.transactions) }
        ensures listing { (before : List Record) → AreLawful (before ++ kinds.Checkpoint checkpoint.now ∷ []) → lsn ≡ length before + 1 → IfOk result (IsListingOf (before ++ kinds.Checkpoint checkpoint.now ∷ [])) }
    {
        Ok(Listing::from_parts(alloc, checkpoint, lsn, lsn)?)
    }

    /// The listing of a log with this analysis, and these LSNs of its last record and its last checkpoint.
    pub fn from_analysis(
        alloc: Global,
        analysis: &Analysis,
        last: Lsn,
        checkpoint: Lsn,
    ) -> Result<Listing, Memory>
        ensures noted { IfOk result (λ s. (q : ℕ) → noted s q ≡ last_in q (checkpoint_in analysis.now).transactions) }
        ensures listing { (log : List Record) → AreLawful log → analysis.now ≡ analysis_of log → last ≡ length log → checkpoint ≡ last_checkpoint log → IfOk result (IsListingOf log) }
    {
        let listed = checkpoint_in(alloc, analysis)?;
        Ok(Listing::from_parts(alloc, &listed, last, checkpoint)?)
    }

    fn prepare_parts(&mut self, entry: &Record) -> Result<(), AllocError>
        ensures summary { summary self.new ≡ summary self.old }
        ensures pending { self.new.pending ≡ self.old.pending }
        ensures noted { (q : ℕ) → noted self.new q ≡ noted self.old q }
        ensures ready { OnOk result (IsReady entry.now self.new) }
        ensures kept { (q : Record) → is_upkeep q ≡ false → IsReady q self.old → IsReady q self.new }
    {
        heads::prepare(&mut self.heads, entry)?;
        table::prepare_for(self.alloc, &mut self.table, entry)?;
        upkeep::prepare(self.alloc, &mut self.upkeep, entry)
    }

    /// Makes room for a record. Nothing else changes, and what was ready for others still is.
    pub fn prepare(&mut self, entry: &Record) -> Result<(), Memory>
        ensures same { (log : List Record) → IsListingOf log self.old → IsListingOf log self.new }
        ensures noted { (q : ℕ) → noted self.new q ≡ noted self.old q }
        ensures ready { OnOk result (IsReady entry.now self.new) }
        ensures kept { (q : Record) → is_upkeep q ≡ false → IsReady q self.old → IsReady q self.new }
    {
        self.prepare_parts(entry)?;
        Ok(())
    }

    fn note_parts(&mut self, lsn: Lsn, entry: &Record)
        requires spelling { HasSpelling entry.now }
        requires ready { IsReady entry.now self.old }
        ensures summary { self.old.numbers.commits < 2 ^ 64 - 1 → summary self.new ≡ summary_step lsn (summary self.old) entry.now }
        ensures noted { (q : ℕ) → noted self.new q ≡ noted_step lsn q (noted self.old q) entry.now }
        ensures kept { link_of entry.now ≡ None → (q : ℕ) → HasRoom self.old.table q → HasRoom self.new.table q }
        ensures pending { self.old.pending < 2 ^ 64 - 1 → IsCountOf (summary self.old).listed.transactions self.old.pending → IsCountOf (summary self.new).listed.transactions self.new.pending }
    {
        self.last = lsn;
        self.checkpoint = checkpoint_after(self.checkpoint, lsn, entry);
        numbers::note(&mut self.numbers, entry);
        heads::note(&mut self.heads, lsn, entry);
        table::note(&mut self.table, &mut self.pending, lsn, entry);
        upkeep::note(&mut self.upkeep, entry);
    }

    /// One record more, with this LSN. It takes no memory.
    pub fn note(&mut self, lsn: Lsn, entry: &Record)
        requires spelling { HasSpelling entry.now }
        requires ready { IsReady entry.now self.old }
        ensures more { (log : List Record) → IsListingOf log self.old → AreLawful (log ++ entry.now ∷ []) → lsn ≡ length log + 1 → length log < 2 ^ 63 → IsListingOf (log ++ entry.now ∷ []) self.new }
        ensures noted { (q : ℕ) → noted self.new q ≡ noted_step lsn q (noted self.old q) entry.now }

        // A record of the tree leaves ready what was ready for a write.
        ensures kept { link_of entry.now ≡ None → (q : Record) → makes_page q ≡ false → is_upkeep q ≡ false → IsReady q self.old → IsReady q self.new }
    {
        self.note_parts(lsn, entry);
    }

    fn checkpoint_parts(&self, alloc: Global) -> Result<Checkpoint, AllocError>
        ensures { IfOk result (λ c. c ≡ (summary self.now).listed) }
    {
        let pages = copy_heads(alloc, &self.heads)?;
        let transactions = transactions_of(alloc, &self.table)?;
        let unrestored = copy_segments(alloc, &self.upkeep.unrestored)?;
        let runs = copy_runs(alloc, &self.upkeep.runs)?;
        Ok(Checkpoint {
            next_tx: self.numbers.next_tx,
            commits: self.numbers.commits,
            limit: self.numbers.limit,
            pages: List::from_vec(pages),
            transactions: List::from_vec(transactions),
            lost: self.upkeep.lost,
            unrestored: List::from_vec(unrestored),
            runs: List::from_vec(runs),
            next_backup: self.numbers.next_backup,
            next_run: self.numbers.next_run,
        })
    }

    /// The checkpoint that may stand next.
    pub fn checkpoint(&self, alloc: Global) -> Result<Checkpoint, Memory>
        ensures { (log : List Record) → IsListingOf log self.now → IfOk result (λ c. c ≡ checkpoint_of log) }
    {
        Ok(self.checkpoint_parts(alloc)?)
    }

    fn analysis_parts(&self, alloc: Global) -> Result<Analysis, AllocError>
        ensures { IfOk result (λ a. a ≡ analysis_in (summary self.now).listed) }
    {
        let losers = losers_of(alloc, &self.table)?;
        let heads = copy_heads(alloc, &self.heads)?;
        let unrestored = copy_segments(alloc, &self.upkeep.unrestored)?;
        let runs = copy_runs(alloc, &self.upkeep.runs)?;
        Ok(Analysis {
            losers: List::from_vec(losers),
            heads: List::from_vec(heads),
            lost: self.upkeep.lost,
            unrestored: List::from_vec(unrestored),
            runs: List::from_vec(runs),
            commits: self.numbers.commits,
            next_tx: self.numbers.next_tx,
            next_backup: self.numbers.next_backup,
            next_run: self.numbers.next_run,
            limit: self.numbers.limit,
        })
    }

    /// The analysis of the log.
    pub fn analysis(&self, alloc: Global) -> Result<Analysis, Memory>
        ensures { (log : List Record) → IsListingOf log self.now → IfOk result (λ a. a ≡ analysis_of log) }
    {
        Ok(self.analysis_parts(alloc)?)
    }

    /// The LSN of the last record, 0 for none.
    pub fn last(&self) -> Lsn
        ensures { (log : List Record) → IsListingOf log self.now → result ≡ length log }
    {
        self.last
    }

    /// The LSN of the last checkpoint, 0 for none.
    pub fn last_checkpoint(&self) -> Lsn
        ensures { (log : List Record) → IsListingOf log self.now → result ≡ last_checkpoint log }
    {
        self.checkpoint
    }

    /// How many open writes all transactions have.
    pub fn pending(&self) -> u64
        ensures { (log : List Record) → IsListingOf log self.now → result ≡ pending log }
    {
        self.pending
    }

    /// How many pages there are.
    pub fn pages(&self) -> usize
        ensures { (log : List Record) → IsListingOf log self.now → result ≡ pages log }
    {
        self.heads.as_slice().len()
    }

    /// How many commits the log has.
    pub fn commits(&self) -> u64
        ensures { (log : List Record) → IsListingOf log self.now → result ≡ commits log }
    {
        self.numbers.commits
    }

    /// The limit of the store.
    pub fn limit(&self) -> u32
        ensures { (log : List Record) → IsListingOf log self.now → result ≡ limit_of log }
    {
        self.numbers.limit
    }

    /// The least number above those of all transactions.
    pub fn next_tx(&self) -> TxId
        ensures { (log : List Record) → IsListingOf log self.now → result ≡ suc (greatest log) }
    {
        self.numbers.next_tx
    }

    /// The least number above those of all backups.
    pub fn next_backup(&self) -> u64
        ensures { (log : List Record) → IsListingOf log self.now → result ≡ suc (last_backup log) }
    {
        self.numbers.next_backup
    }

    /// The least number above those of all runs.
    pub fn next_run(&self) -> u64
        ensures { (log : List Record) → IsListingOf log self.now → result ≡ suc (last_run log) }
    {
        self.numbers.next_run
    }

    /// How many pages there were at the last loss, 0 for none.
    pub fn lost(&self) -> u32
        ensures { (log : List Record) → IsListingOf log self.now → result ≡ lost_pages log }
    {
        self.upkeep.lost
    }

    /// The runs that stand, by rising LSN.
    pub fn runs(&self) -> &[Run]
        ensures { (log : List Record) → IsListingOf log self.now → result.now ≡ standing_runs log }
    {
        self.upkeep.runs.as_slice()
    }

    /// The standing run that covers an LSN, if one does.
    pub fn run_at(&self, lsn: Lsn) -> Option<Run>
        ensures { (log : List Record) → IsListingOf log self.now → AreLawful log → result ≡ find (covers_lsn lsn) (standing_runs log) }
    {
        upkeep::run_at(&self.upkeep.runs, lsn)
    }

    /// The LSN of the last record that names the page, 0 for none.
    pub fn head(&self, page: PageNo) -> Lsn
        ensures { (log : List Record) → IsListingOf log self.now → AreLawful log → result ≡ head log page }
    {
        heads::head_of(&self.heads, page)
    }

    /// The LSN of the last image of the page that was written since the last loss, 0 for none.
    pub fn written_lsn(&self, page: PageNo) -> Lsn
        ensures { (log : List Record) → IsListingOf log self.now → AreLawful log → result ≡ written_lsn log page }
    {
        heads::written_of(&self.heads, page)
    }

    /// The page's entry: the ends of its traces.
    pub fn entry(&self, page: PageNo) -> PageHead
        ensures { (log : List Record) → IsListingOf log self.now → AreLawful log → result ≡ page_head log page }
    {
        heads::entry_of(&self.heads, page)
    }

    /// The LSN of the last open write of a transaction, 0 for none.
    pub fn undo_next(&self, tx: TxId) -> Lsn
        ensures { (log : List Record) → IsListingOf log self.now → AreLawful log → result ≡ last_open (open_list log tx) }
    {
        table::undo_next(&self.table, tx)
    }

    /// The LSN that was noted last of a transaction that isn't over, 0 for none.
    pub fn noted(&self, tx: TxId) -> Lsn
        ensures { result ≡ noted self.now tx }
    {
        table::noted(&self.table, tx)
    }

    /// Whether a transaction has open writes.
    pub fn is_loser(&self, tx: TxId) -> bool
        ensures { (log : List Record) → IsListingOf log self.now → AreLawful log → result ≡ is_loser log tx }
    {
        table::has_writes(&self.table, tx)
    }

    /// Whether a transaction has an open write of a key in the range.
    pub fn has_open_in(&self, tx: TxId, range: &KeyRange) -> bool
        ensures { (log : List Record) → IsListingOf log self.now → AreLawful log → result ≡ list_any (λ (w : OpenWrite). has_key range.now w.key) (open_list log tx) }
    {
        table::has_open_in(&self.table, tx, range)
    }

    /// The last LSN that a standing run covers, 0 for none.
    pub fn archived(&self) -> Lsn
        ensures { (log : List Record) → IsListingOf log self.now → result ≡ archived (standing_runs log) }
    {
        upkeep::archived(&self.upkeep.runs)
    }

    /// Whether a segment had a page at the last loss and wasn't restored since.
    pub fn is_unrestored(&self, segment: u32) -> bool
        ensures { (log : List Record) → IsListingOf log self.now → result ≡ list_any (λ s. s == segment) (unrestored log) }
    {
        upkeep::has_segment(&self.upkeep.unrestored, segment)
    }

    /// The least segment that had a page at the last loss and wasn't restored since, if there is one.
    pub fn first_unrestored(&self) -> Option<u32>
        ensures { (log : List Record) → IsListingOf log self.now → result ≡ slice_get (unrestored log) 0 }
    {
        upkeep::first_segment(&self.upkeep.unrestored)
    }

    /// The LSN before which no opening, no undo and no archive run needs a record.
    pub fn recycle_point(&self) -> Lsn
        ensures { (log : List Record) → IsListingOf log self.now → AreLawful log → result ≡ recycle_point log }
    {
        if self.checkpoint == 0 {
            return 1;
        }
        let next = upkeep::archived(&self.upkeep.runs).saturating_add(1);
        let needed = table::oldest_open(&self.table, next);
        self.checkpoint.min(needed)
    }
}
