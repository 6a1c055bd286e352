//! The log of a disk, with its listing.
ghost use Rattle.std.specs.Prelude.{◌≡◌, ◌≤◌, List, None, IfOk, IfErr, MatchResult};
ghost use Rattle.media.specs.Counted.{Blames};
ghost use Rattle.log_manager.specs.Devices.{DevicesStandFor};
ghost use Rattle.wal_record.specs.declared.record.Record.{Record};
ghost use Rattle.opening.specs.Begins.{IsForLogFault, IsKept, IsWhyNot, MayBegin, RoseForWhy};
ghost use Rattle.opening.specs.Bytes.{IsRead, ShowsWhy, StaysSame};

use life_history::MOST_ENTRIES;
use listed_log::ListedLog;
use log_analysis::analyse;
use log_blocks::{BlockLog, never_bad, one_log, open_log};
use log_index::Listing;
use log_manager::LogManager;
use media::Disk;
use std::alloc::Global;
use store_model::Fault;

/// Why a log isn't opened.
#[derive(Debug, Drop)]
pub enum WhyNot {
    /// It has no record.
    NotFormatted,
    Fault(Fault),
}

/// A log that isn't opened, with its disk.
#[derive(Drop)]
pub struct NotOpened<L> {
    pub disk: L,
    pub why: WhyNot,
}

/// The log of a disk with its listing. It reads the headers of the blocks, and the payload from the last Checkpoint on. No
/// byte changes.
pub fn read_log<L: Disk>(alloc: Global, disk: L) -> Result<ListedLog<L>, NotOpened<L>>
    // With each log for which the disk's bytes stand a life may begin.
    ensures begins { IfOk result (λ log. L.tells → (opening : List Record) → IsKept L.told disk opening → MayBegin L.tells L.told L.may_leave log.log log.listing opening) }
    ensures goes { IfOk result (λ log. log.log.log.ended ≡ None) }
    ensures refused { IfErr result (λ r. L.tells → (opening : List Record) → IsKept L.told disk opening → IsWhyNot opening r.why) }
    // The disk that is given back stands for the logs for which it stood.
    ensures kept { IfErr result (λ r. L.tells → (opening : List Record) → DevicesStandFor L.told L.may_leave disk opening → DevicesStandFor L.told L.may_leave r.disk opening) }
    // Of any disk, whatever it stood for: an open log has the blocks that were read,
    ensures read { IfOk result (λ log. L.tells → IsRead L.told L.may_leave disk log.log.log) }
    // a refusal for the log's sake is seen in the bytes that the disk still has,
    ensures shows { IfErr result (λ r. L.tells → ShowsWhy (L.told r.disk) r.why) }
    // and these stay, or stand for the same blocks, now and after a crash.
    ensures bytes { IfErr result (λ r. L.tells → StaysSame L.told L.may_leave disk r.disk) }
    ensures cause { IfErr result (λ r. RoseForWhy (L.faults disk) (L.faults r.disk) r.why) }
    ensures later { MatchResult result (λ log. L.faults disk ≤ L.faults log.log.log.device) (λ r. L.faults disk ≤ L.faults r.disk) }
    ensures fuse { MatchResult result (λ log. Blames L.passes L.refused L.own disk log.log.log.device ⊥) (λ r. Blames L.passes L.refused L.own disk r.disk (IsForLogFault r.why)) }
{
    // What the disk keeps can be read in one way only.
    one_log();
    never_bad();
    let mut log = match open_log(alloc, disk) {
        Ok(log) => log,
        Err(refused) => return Err(NotOpened {
            disk: refused.disk,
            why: WhyNot::Fault(refused.fault),
        }),
    };
    let last = log.durable_lsn();
    if last == 0 {
        return Err(not_opened(log, WhyNot::NotFormatted));
    }
    if last > MOST_ENTRIES {
        return Err(not_opened(log, WhyNot::Fault(Fault::Memory)));
    }
    match analyse(alloc, &mut log) {
        Ok(listing) => Ok(ListedLog::new(LogManager::start(alloc, log), listing)),
        Err(fault) => Err(not_opened(log, WhyNot::Fault(fault))),
    }
}

fn not_opened<L: Disk>(log: BlockLog<L>, why: WhyNot) -> NotOpened<L>
    ensures { result ≡ record { disk = log.device; why = why } }
{
    NotOpened {
        disk: log.into_device(),
        why,
    }
}
