//! The log of a disk: opened for a life, or made.
ghost use Rattle.std.specs.Prelude.{◌≡◌, List, [], length, IsTrue, IfOk, IfErr, OnOk, IsErrAnd, MatchResult};
ghost use Rattle.media.specs.Counted.{Blames};
ghost use Rattle.log_manager.specs.Records.{IsLogOf};
ghost use Rattle.wal_record.specs.Checkpoints.{commits};
ghost use Rattle.wal_record.specs.OpenWrites.{losers};
ghost use Rattle.wal_record.specs.Rules.{is_limit};
ghost use Rattle.wal_record.specs.declared.record.Record.{Record};
ghost use Rattle.life_commands.specs.Bytes.{MayMake, MayOpen, StaysKnown, Allows};
ghost use Rattle.store_log.specs.Shows.{Shows};
ghost use Rattle.life_commands.specs.LogDisk.{View, seen};
ghost use Rattle.store_log.specs.Beginnings.{BeginsOn};
ghost use Rattle.store_log.specs.Openings.{Makes, IsMade, IsFirst, IsFault, IsNotMade, IsBegun, IsNotBegun, MadeStatus, ReadStatus};
ghost use Rattle.life_commands.specs.declared.status.Status.TheVariants as statuses;

use crate::opened::Opened;
use life_commands::Status;
use log_blocks::{never_bad, one_log, open_log};
use log_manager::LogManager;
use media::Disk;
use opening::{Found, WhyNot, count_found, read_log};
use std::alloc::Global;
use std::slice;
use store_model::Fault;
use wal_record::{Format, Record};

/// A log that isn't opened or made, with its disk.
#[derive(Drop)]
pub struct NotOpened<L> {
    pub disk: L,
    pub status: Status,
}

/// Makes the log of a store with this room on a disk whose log is empty.
pub fn make_log<L: Disk>(alloc: Global, disk: L, limit: u32) -> Result<L, NotOpened<L>>
    requires { IsTrue (is_limit limit) }
    ensures made { IfOk result (λ left. (v : View L.tells) → Makes (seen L.Disk v) disk (IsMade (seen L.Disk v) limit left)) }
    ensures not { IfErr result (λ r. (v : View L.tells) → IsNotMade (seen L.Disk v) limit disk r.disk r.status) }
    ensures shows { IfErr result (λ r. Shows L.Disk r.disk r.status) }
    ensures known { MatchResult result (λ left. Allows L.tells L.Disk disk MayMake) (λ r. StaysKnown L.tells L.Disk disk r.disk) }
    ensures fuse { MatchResult result (λ left. Blames L.passes L.refused L.own disk left ⊥) (λ r. Blames L.passes L.refused L.own disk r.disk (r.status ≡ statuses.LogFault)) }
{
    // What the disk keeps can be read in one way only.
    one_log();
    never_bad();
    let log = match open_log(alloc, disk) {
        Ok(log) => log,
        Err(refused) => return Err(NotOpened {
            disk: refused.disk,
            status: not_made(&refused.fault),
        }),
    };
    let count = log.blocks();
    if count != 0 {
        return Err(NotOpened {
            disk: log.into_device(),
            status: Status::AlreadyFormatted,
        });
    }
    let mut log = LogManager::start(alloc, log);
    match enter_format(alloc, &mut log, limit) {
        Ok(()) => Ok(log.into_device()),
        Err(status) => Err(NotOpened {
            disk: log.into_device(),
            status,
        }),
    }
}

/// Enters the first record and flushes it.
fn enter_format<L: Disk>(alloc: Global, log: &mut LogManager<L>, limit: u32) -> Result<(), Status>
    requires limit { IsTrue (is_limit limit) }
    requires first { log.old.log.next ≡ 1 }
    requires goes { log.old.log.ended ≡ None }
    ensures made { OnOk result (L.tells → IsLogOf L.told L.may_leave log.old.log 0 [] [] → IsFirst L.told L.may_leave limit 1 log.new.log.device) }
    ensures cut { IfErr result (λ status. status ≡ statuses.LogFault → L.tells → IsLogOf L.told L.may_leave log.old.log 0 [] [] → IsFirst L.told L.may_leave limit 0 log.new.log.device) }
    ensures same { IfErr result (λ status. status ≡ statuses.Memory → log.new.log.device ≡ log.old.log.device) }
    ensures kind { IfErr result IsFault }
    ensures fuse { Blames L.passes L.refused L.own log.old.log.device log.new.log.device (IsErrAnd result (λ status. status ≡ statuses.LogFault)) }
{
    let format = Record::Format(Format { limit });
    let lsn = match log.append_group(alloc, slice::from_ref(&format)) {
        Ok(lsn) => lsn,
        Err(_) => return Err(Status::Memory),
    };
    match log.flush_to(lsn) {
        Ok(()) => Ok(()),
        Err(Fault::LogFault) => Err(Status::LogFault),
        Err(_) => Err(Status::Memory),
    }
}

/// The status of a log that isn't made since it can't be read: an open gate stands there.
fn not_made(fault: &Fault) -> Status
    ensures { MadeStatus fault.now result }
{
    match fault {
        Fault::LogFault => Status::LogFault,
        Fault::LogBad { block: _, byte: _ } => Status::AlreadyFormatted,
        _ => Status::Memory,
    }
}

/// Reads the log of a disk, on which a life may begin then, and tells what was found.
pub fn open<L: Disk>(alloc: Global, disk: L) -> Result<(Opened<L>, Found), NotOpened<L>>
    ensures begun { IfOk result (λ r. (v : View L.tells) → Makes (seen L.Disk v) disk (IsBegun L.tells (seen L.Disk v) r.0)) }
    ensures figures { IfOk result (λ r. (opening : List Record) → BeginsOn L.tells L.Disk r.0 opening → (r.1.commits ≡ commits opening) × (r.1.losers ≡ length (losers opening))) }
    ensures not { IfErr result (λ r. (v : View L.tells) → IsNotBegun (seen L.Disk v) disk r.disk r.status) }
    ensures shows { IfErr result (λ r. Shows L.Disk r.disk r.status) }
    ensures allows { IfOk result (λ r. Allows L.tells L.Disk disk MayOpen) }
    ensures known { MatchResult result (λ r. StaysKnown L.tells L.Disk disk r.0.log.log.device) (λ r. StaysKnown L.tells L.Disk disk r.disk) }
    ensures fuse { MatchResult result (λ r. Blames L.passes L.refused L.own disk r.0.log.log.device ⊥) (λ r. Blames L.passes L.refused L.own disk r.disk (r.status ≡ statuses.LogFault)) }
{
    // What the disk keeps can be read in one way only.
    one_log();
    never_bad();
    match read_log(alloc, disk) {
        Ok(log) => match count_found(alloc, &log) {
            Ok(found) => Ok((Opened::new(log), found)),
            Err(_) => Err(NotOpened {
                disk: Opened::new(log).into_device(),
                status: Status::Memory,
            }),
        },
        Err(refused) => Err(NotOpened {
            status: not_read(&refused.why),
            disk: refused.disk,
        }),
    }
}

/// The status of a log that can't be read.
fn not_read(why: &WhyNot) -> Status
    ensures { ReadStatus why.now result }
{
    match why {
        WhyNot::NotFormatted => Status::NotFormatted,
        WhyNot::Fault(Fault::LogFault) => Status::LogFault,
        WhyNot::Fault(Fault::LogBad { block, byte }) => Status::LogBad {
            block: *block,
            byte: *byte,
        },
        WhyNot::Fault(_) => Status::Memory,
    }
}
