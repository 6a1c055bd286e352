//! Questions that the listing answers.
ghost use Rattle.std.specs.Prelude.{◌≡◌, ◌≤◌, List, IfOk, IfErr, IfSome, IsErrAnd};
ghost use Rattle.journal.specs.State.{BeginsWith, BlamesDisk, KeepsEnd, LearnsEnd};
ghost use Rattle.log_blocks.specs.LogState.{durable_lsn};
ghost use Rattle.log_blocks.specs.Opening.{IsLogFault};
ghost use Rattle.page_ops.specs.Causes.{Ends, FailsToEnter, FailsToRead, NoOther};
ghost use Rattle.page_ops.specs.Outcomes.{IsListed, IsSurvey, IsWork};
ghost use Rattle.page_ops.specs.Seeing.{Looks};
ghost use Rattle.store_model.specs.Lists.{last_of};
ghost use Rattle.wal_record.specs.History.{life_log};
ghost use Rattle.wal_record.specs.OpenWrites.{open_writes};
ghost use Rattle.wal_record.specs.Rules.{HasSpelling};
ghost use Rattle.wal_record.specs.declared.record.Record.{Record};

use front::Pass;
use journal::Journal;
use life_history::Counts;
use media::Disk;
use page_ops::{Found, Life, Listed, Survey, Work};
use std::alloc::Global;
use store_model::{Fault, PageNo, SEGMENT_PAGES, TxId};
use wal_record::{Entry, Record};

/// As `Entering::listed`.
pub(crate) fn listed<L: Disk, N: Life>(
    journal: &mut Journal<'_, L, N>,
    page: PageNo,
    pass: &mut Pass<Entry, N>,
    counts: &mut Counts<N>,
) -> Result<Listed, Fault>
    ensures seen { Looks N.opens N.entries N.session_entries counts.old pass.old counts.new pass.new }
    ensures listed { IfOk result (IsListed N.opens pass.new.log page) }
    ensures refused { IfErr result (FailsToEnter NoOther) }
    ensures ends { Ends N.opens N.log_faults N.made counts.old counts.new pass.new.log result }
    ensures same { journal.new ≡ journal.old }
    ensures learns { LearnsEnd counts.old counts.new journal.new.ended }
{
    match journal.look(pass, counts) {
        Ok(()) => {
            let listing = journal.listing();
            Ok(Listed {
                ends: listing.entry(page),
                unrestored: listing.is_unrestored(page.saturating_sub(1) / SEGMENT_PAGES),
                lost: listing.lost(),
            })
        }
        Err(fault) => Err(fault),
    }
}

/// As `Journaling::last_open`. It says that it wants memory where the log doesn't keep the record.
pub(crate) fn last_open<L: Disk, N: Life>(
    journal: &mut Journal<'_, L, N>,
    alloc: Global,
    tx: TxId,
    pass: &mut Pass<Entry, N>,
    counts: &mut Counts<N>,
) -> Result<Option<Record>, Fault>
    ensures seen { Looks N.opens N.entries N.session_entries counts.old pass.old counts.new pass.new }
    ensures last { IfOk result (λ found. (opening : List Record) → N.opens opening → found ≡ last_of (open_writes (life_log opening pass.new.log) tx)) }
    ensures spelling { IfOk result (λ found. IfSome found HasSpelling) }
    ensures refused { IfErr result (FailsToRead N.opens) }
    ensures ends { Ends N.opens N.log_faults N.made counts.old counts.new pass.new.log result }
    ensures end { KeepsEnd journal.old journal.new }
    ensures learns { LearnsEnd counts.old counts.new journal.new.ended }
    ensures calls { BlamesDisk journal.old.calls journal.new.calls (IsErrAnd result IsLogFault) }
{
    let lsn = journal.listing().undo_next(tx);
    if lsn == 0 {
        return match journal.look(pass, counts) {
            Ok(()) => Ok(None),
            Err(fault) => Err(fault),
        };
    }
    match journal.read(alloc, lsn, pass, counts) {
        Ok(Found::Record(found)) => Ok(Some(found)),
        Ok(Found::Run(_)) => Err(Fault::Memory),
        Err(fault) => Err(fault),
    }
}

/// As `Journaling::survey`. It says that it wants memory where what it would tell doesn't fit together.
pub(crate) fn survey<L: Disk, N: Life>(
    journal: &mut Journal<'_, L, N>,
    alloc: Global,
    pass: &mut Pass<Entry, N>,
    counts: &mut Counts<N>,
) -> Result<Survey, Fault>
    ensures seen { Looks N.opens N.entries N.session_entries counts.old pass.old counts.new pass.new }
    ensures survey { IfOk result (IsSurvey N.opens pass.new) }
    ensures first { IfOk result (λ s. BeginsWith journal.old.blocks s.first_kept) }
    ensures durable { IfOk result (λ s. durable_lsn journal.old.blocks ≤ s.durable) }
    ensures refused { IfErr result (FailsToEnter NoOther) }
    ensures ends { Ends N.opens N.log_faults N.made counts.old counts.new pass.new.log result }
    ensures same { journal.new ≡ journal.old }
    ensures learns { LearnsEnd counts.old counts.new journal.new.ended }
{
    if let Err(fault) = journal.look(pass, counts) {
        return Err(fault);
    }
    let durable = journal.tell_durable(pass);
    let (first_kept, last) = (journal.first_kept(), journal.last());
    if durable > last || first_kept.saturating_sub(1) > durable {
        return Err(Fault::Memory);
    }
    let Ok(losers) = journal.losers(alloc) else {
        return Err(Fault::Memory);
    };
    match journal.listing().analysis(alloc) {
        Ok(analysis) => Ok(Survey {
            analysis,
            losers,
            undone: journal.undone(),
            repaired: journal.repairs(),
            first_kept,
            last,
            durable,
        }),
        Err(_) => Err(Fault::Memory),
    }
}

/// As `Journaling::work`. It says that it wants memory where what it would tell doesn't fit together.
pub(crate) fn work<L: Disk, N: Life>(
    journal: &mut Journal<'_, L, N>,
    pass: &mut Pass<Entry, N>,
    counts: &mut Counts<N>,
) -> Result<Work, Fault>
    ensures seen { Looks N.opens N.entries N.session_entries counts.old pass.old counts.new pass.new }
    ensures work { IfOk result (IsWork N.opens pass.new) }
    ensures durable { IfOk result (λ w. durable_lsn journal.old.blocks ≤ w.durable) }
    ensures refused { IfErr result (FailsToEnter NoOther) }
    ensures ends { Ends N.opens N.log_faults N.made counts.old counts.new pass.new.log result }
    ensures same { journal.new ≡ journal.old }
    ensures learns { LearnsEnd counts.old counts.new journal.new.ended }
{
    if let Err(fault) = journal.look(pass, counts) {
        return Err(fault);
    }
    let durable = journal.tell_durable(pass);
    if durable > journal.last() {
        return Err(Fault::Memory);
    }
    let listing = journal.listing();
    match u32::try_from(listing.runs().len()) {
        Ok(runs) => Ok(Work {
            loser: journal.least_loser(),
            segment: listing.first_unrestored(),
            runs,
            archived: listing.archived(),
            durable,
        }),
        Err(_) => Err(Fault::Memory),
    }
}
