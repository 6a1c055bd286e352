//! Commands where no life is open.
ghost use Rattle.std.specs.Prelude.{◌≡◌, ◌<◌, ◌≤◌, ◌^◌, ℕ, codes, is_some, IfOk, IfErr};
ghost use Rattle.wal_record.specs.Rules.{is_limit};
ghost use Rattle.runner.specs.Causes.{SteppedCause};
ghost use Rattle.life_commands.specs.LogDisk.{View, seen};
ghost use Rattle.life_commands.specs.Turns.{Fuses, Stage, with_fuse};
ghost use Rattle.life_commands.specs.declared.status.Status.{Status};
ghost use Rattle.life_commands.specs.Living.{IsFused, Out};
ghost use Rattle.media.specs.Crash.{NoMore};
ghost use Rattle.media.specs.Images.{NoOther};
ghost use Rattle.runner.specs.Machine.{Begun, Steps, Refuses};
ghost use Rattle.script.specs.declared.command.Command.TheVariants as commands;

use crate::at::{At, Stepped};
use crate::stop::stop;
use life_commands::{MOST_REFUSED, Status};
use media::{Disk, PageDevice};
use script::{Command, Device};
use std::alloc::Global;
use store_log::{NotOpened, Opened, make_log, open};
use store_model::{LEAST_LIMIT, MOST_PAGES, PageNo};

/// Carries a command out on the log disk and the data device, which has no image but those that it had.
pub fn step<L: Disk, D: PageDevice>(
    alloc: Global,
    disk: L,
    pages: &mut D,
    command: &Command,
    line: u64,
) -> Stepped<L, Opened<L>>
    ensures turns { (v : View L.tells) (s : Stage) → Out L.tells (seen L.Disk v) disk s → Steps L.tells (seen L.Disk v) (Begun L.tells (seen L.Disk v)) s command.now line result }
    ensures images { D.tells → NoOther D.told pages.old pages.new }
    ensures cause { SteppedCause L.Disk (λ b. b.log.log.device) disk result }
{
    match command {
        Command::Nothing => Stepped::Goes {
            lines: Vec::new(alloc),
            at: At::Outside { disk },
        },
        Command::Format { limit } => format(alloc, disk, *limit, line),
        Command::Open => opens(alloc, disk),
        Command::Stop { keep } => match stop(alloc, disk, *keep) {
            Ok((lines, disk)) => {
                pages.fuse(None);
                Stepped::Goes {
                    lines,
                    at: At::Outside { disk },
                }
            }
            Err(disk) => Stepped::Ends {
                status: Status::Memory,
                disk,
            },
        },
        Command::Damage { page } => damage(alloc, disk, pages, *page),
        Command::Fuse { device, calls } => fuse(alloc, disk, pages, *device, *calls),
        Command::Renew { device } => renew(alloc, disk, pages, *device),
        _ => Stepped::Ends {
            status: Status::Script { line },
            disk,
        },
    }
}

/// Makes the log of a disk that has none.
fn format<L: Disk>(alloc: Global, disk: L, limit: Option<u32>, line: u64) -> Stepped<L, Opened<L>>
    ensures turns { (v : View L.tells) (s : Stage) → Out L.tells (seen L.Disk v) disk s → Steps L.tells (seen L.Disk v) (Begun L.tells (seen L.Disk v)) s (commands.Format limit) line result }
    ensures cause { SteppedCause L.Disk (λ b. b.log.log.device) disk result }
{
    // a store whose `format` names no room has the most
    let room = limit.unwrap_or(MOST_PAGES);
    if !is_room(room) {
        return Stepped::Ends {
            status: Status::Script { line },
            disk,
        };
    }
    let refused = disk.refused();
    if refused >= MOST_REFUSED {
        return Stepped::Ends {
            status: Status::Memory,
            disk,
        };
    }
    let (lines, failed) = match format_lines(alloc) {
        Ok(lines) => lines,
        Err(status) => return Stepped::Ends { status, disk },
    };
    match make_log(alloc, disk, room) {
        Ok(disk) => Stepped::Goes {
            lines,
            at: At::Outside { disk },
        },
        Err(not) => refuse(not, refused, failed),
    }
}

/// Whether a store may have this room.
fn is_room(room: u32) -> bool
    ensures { result ≡ is_limit room }
{
    LEAST_LIMIT <= room && room <= MOST_PAGES
}

/// The line of a format, and the one of a format that failed.
fn format_lines(alloc: Global) -> Result<(Vec<u8>, Vec<u8>), Status>
    ensures lines { IfOk result (λ r. (r.0.items ≡ codes "format ok\n") × (r.1.items ≡ codes "format log failed\n")) }
    ensures memory { IfErr result (λ status. status ≡ Status.Memory) }
{
    match transcript::format_line(alloc) {
        Ok(lines) => match transcript::format_failed(alloc) {
            Ok(failed) => Ok((lines, failed)),
            Err(_) => Err(Status::Memory),
        },
        Err(_) => Err(Status::Memory),
    }
}

/// Opens a life.
fn opens<L: Disk>(alloc: Global, disk: L) -> Stepped<L, Opened<L>>
    ensures turns { (v : View L.tells) (s : Stage) (line : ℕ) → Out L.tells (seen L.Disk v) disk s → Steps L.tells (seen L.Disk v) (Begun L.tells (seen L.Disk v)) s commands.Open line result }
    ensures cause { SteppedCause L.Disk (λ b. b.log.log.device) disk result }
{
    let refused = disk.refused();
    if refused >= MOST_REFUSED {
        return Stepped::Ends {
            status: Status::Memory,
            disk,
        };
    }
    let failed = match transcript::open_failed(alloc) {
        Ok(failed) => failed,
        Err(_) => return Stepped::Ends {
            status: Status::Memory,
            disk,
        },
    };
    match open(alloc, disk) {
        Ok((life, found)) => match transcript::open_line(alloc, found.commits, found.losers) {
            Ok(lines) => Stepped::Goes {
                lines,
                at: At::Inside { life },
            },
            Err(_) => Stepped::Ends {
                status: Status::Memory,
                disk: life.into_device(),
            },
        },
        Err(not) => refuse(not, refused, failed),
    }
}

/// A log that isn't made or opened: a line, where the disk's fuse refused a call, else the end of the run. So many calls
/// had been refused before.
fn refuse<L: Disk>(not: NotOpened<L>, before: u64, failed: Vec<u8>) -> Stepped<L, Opened<L>>
    requires { before < 2 ^ 62 }
    ensures { Refuses L.Disk not.disk not.status before failed.items result }
{
    match not.status {
        Status::LogFault => {
            if not.disk.refused() > before {
                Stepped::Goes {
                    lines: failed,
                    at: At::Outside { disk: not.disk },
                }
            } else {
                Stepped::Ends {
                    status: Status::LogFault,
                    disk: not.disk,
                }
            }
        }
        status => Stepped::Ends {
            status,
            disk: not.disk,
        },
    }
}

/// Reads of the page fail verification from now on. That the device refuses it is no answer.
fn damage<L: Disk, D: PageDevice>(
    alloc: Global,
    disk: L,
    pages: &mut D,
    page: PageNo,
) -> Stepped<L, Opened<L>>
    ensures turns { (v : View L.tells) (s : Stage) (line : ℕ) → Out L.tells (seen L.Disk v) disk s → Steps L.tells (seen L.Disk v) (Begun L.tells (seen L.Disk v)) s (commands.Damage page) line result }
    ensures images { D.tells → NoOther D.told pages.old pages.new }
    ensures cause { SteppedCause L.Disk (λ b. b.log.log.device) disk result }
{
    match transcript::damage_line(alloc, page) {
        Ok(lines) => {
            let _ = pages.spoil(page);
            Stepped::Goes {
                lines,
                at: At::Outside { disk },
            }
        }
        Err(_) => Stepped::Ends {
            status: Status::Memory,
            disk,
        },
    }
}

/// Arms a device's fuse. The vault's is left to the caller, who has the vault.
fn fuse<L: Disk, D: PageDevice>(
    alloc: Global,
    disk: L,
    pages: &mut D,
    device: Device,
    calls: u64,
) -> Stepped<L, Opened<L>>
    ensures turns { (v : View L.tells) (s : Stage) (line : ℕ) → Out L.tells (seen L.Disk v) disk s → Steps L.tells (seen L.Disk v) (Begun L.tells (seen L.Disk v)) s (commands.Fuse device calls) line result }
    ensures images { D.tells → NoOther D.told pages.old pages.new }
    ensures cause { SteppedCause L.Disk (λ b. b.log.log.device) disk result }
{
    let mut disk = disk;
    match transcript::fuse_line(alloc, device, calls) {
        Ok(lines) => {
            arm(&mut disk, pages, device, Some(calls));
            Stepped::Goes {
                lines,
                at: At::Outside { disk },
            }
        }
        Err(_) => Stepped::Ends {
            status: Status::Memory,
            disk,
        },
    }
}

/// Renews a device's fuse; the vault's is left to the caller.
fn renew<L: Disk, D: PageDevice>(
    alloc: Global,
    disk: L,
    pages: &mut D,
    device: Device,
) -> Stepped<L, Opened<L>>
    ensures turns { (v : View L.tells) (s : Stage) (line : ℕ) → Out L.tells (seen L.Disk v) disk s → Steps L.tells (seen L.Disk v) (Begun L.tells (seen L.Disk v)) s (commands.Renew device) line result }
    ensures images { D.tells → NoOther D.told pages.old pages.new }
    ensures cause { SteppedCause L.Disk (λ b. b.log.log.device) disk result }
{
    let mut disk = disk;
    match transcript::renew_line(alloc, device) {
        Ok(lines) => {
            arm(&mut disk, pages, device, None);
            Stepped::Goes {
                lines,
                at: At::Outside { disk },
            }
        }
        Err(_) => Stepped::Ends {
            status: Status::Memory,
            disk,
        },
    }
}

/// Arms the fuse of the log disk or of the data device, or renews it.
fn arm<L: Disk, D: PageDevice>(disk: &mut L, pages: &mut D, device: Device, n: Option<u64>)
    ensures fused { (armed : Fuses) → IsFused L.Disk disk.old armed.log → IsFused L.Disk disk.new (with_fuse device (is_some n) armed).log }
    ensures told { L.tells → L.told disk.new ≡ L.told disk.old }
    ensures crash { NoMore L.may_leave disk.old disk.new }
    ensures images { D.tells → NoOther D.told pages.old pages.new }
    ensures later { L.own disk.old ≤ L.own disk.new }
{
    match device {
        Device::Log => disk.fuse(n),
        Device::Data => pages.fuse(n),
        Device::Vault => {}
    }
}
