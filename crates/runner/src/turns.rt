//! One line of a run.
ghost use Rattle.std.specs.Prelude.{◌≡◌, ◌≤◌, ℕ, List, Ok, Option, Some, IfErr, IfOk};
ghost use Rattle.std.specs.Option.{option_map};
ghost use Rattle.line_reader.specs.Lines.{IsBounded};
ghost use Rattle.life_commands.specs.LogDisk.{View, IsWhole, seen};
ghost use Rattle.life_commands.specs.Stores.{stores};
ghost use Rattle.life_commands.specs.Turns.{Start, Turn};
ghost use Rattle.life_commands.specs.Living.{Out, Within};
ghost use Rattle.wal_record.specs.declared.record.Record.{Record};
ghost use Rattle.runner.specs.Clause.{Between, IsUnread, PassedTo, TakesNone, TakesText, TurnedTo};
ghost use Rattle.runner.specs.Devices.{AreDevicesOf, Stored};
ghost use Rattle.runner.specs.Machine.{Begun};
ghost use Rattle.runner.specs.Vault.{Arms, Cycles, WithVault, armed_after, armed_by};
ghost use Rattle.runner.specs.Causes.{LineCause, PassedCause, TurnedCause};
ghost use Rattle.store_pages.specs.Pages.{IsIdle};

use crate::at::{At, Stepped, disk_opened};
use crate::outside;
use crate::stop::cycle_vault;
use life_commands::Status;
use line_reader::{Input, Next, NotRead, is_built};
use media::{Disk, PageDevice, Sink, Source, Vault, write_all};
use own_life::OwnLife;
use page_ops::Life;
use script::{Command, Device, command_of};
use std::alloc::{AllocError, Global};
use std::sync::Wait;
use store_log::Opened;
use store_pages::StorePages;

/// What a line did: where the run is then, or how it ended.
#[derive(Drop)]
pub enum Turned<L, F> {
    Goes { at: At<L, F> },
    Ends { status: Status, disk: L },
}

/// What a line of a life did: it was answered; it asks for a stop, or a close that is done or has failed, with its lines; or it
/// ended the run.
#[derive(Drop)]
pub enum Passed {
    Goes,
    Stops { keep: Option<u64>, lines: Vec<u8> },
    Closes { lines: Vec<u8> },
    Ends { status: Status },
}

/// One line where no life is open. The end of the input ends the run. Whether the vault's fuse is armed is kept by the caller.
pub fn turn_outside<S: Source, K: Sink, V: Vault, L: Disk, D: PageDevice>(
    alloc: Global,
    input: &mut Input,
    source: &mut S,
    sink: &mut K,
    vault: &mut V,
    armed: &mut bool,
    pages: &mut D,
    disk: L,
) -> Turned<L, Opened<L>>
    ensures turns { (v : View L.tells) (start : Start) (left told : Option (List ℕ)) (turns : List Turn)
        → Between (IsWhole v) start (WithVault armed.old (Stored (IsWhole v) (stores D.PageDevice V.Vault) (pages.old, vault.old) (Out L.tells (seen L.Disk v) disk))) left told input.old turns (S.left source.old) (K.told sink.old)
        → TurnedTo L.tells (seen L.Disk v) (stores D.PageDevice V.Vault) start (Begun L.tells (seen L.Disk v)) (pages.new, vault.new) armed.new left told input.new turns (S.left source.new) (K.told sink.new) result }
    ensures later { (S.faults source.old ≤ S.faults source.new) × (K.faults sink.old ≤ K.faults sink.new) }
    ensures cause { TurnedCause L.Disk (λ b. b.log.log.device) disk (S.faults source.old) (S.faults source.new) (K.faults sink.old) (K.faults sink.new) result }
{
    let (text, line) = match next_text(alloc, input, source) {
        Ok(Some(next)) => next,
        Ok(None) => return Turned::Ends {
            status: Status::Done,
            disk,
        },
        Err(status) => return Turned::Ends { status, disk },
    };
    let read = command_of(alloc, &text);
    let command = match command_in(&read, line) {
        Ok(command) => command,
        Err(status) => return Turned::Ends { status, disk },
    };
    match outside::step(alloc, disk, pages, command, line) {
        Stepped::Goes { lines, at } => {
            cycle(vault, command);
            *armed = armed_after(command, *armed);
            match write_all(sink, &lines) {
                Ok(()) => Turned::Goes { at },
                Err(_) => Turned::Ends {
                    status: Status::SinkFault,
                    disk: disk_opened(at),
                },
            }
        }
        Stepped::Ends { status, disk } => Turned::Ends { status, disk },
    }
}

/// One line within a life. The end of the input ends the run. A stop, and the end of a life that was closed, are left to the
/// caller, who has the life, and keeps whether the vault's fuse is armed.
pub fn turn_inside<'a, N: Life, S: Source, K: Sink, V: Vault, L: Disk, D: PageDevice, R: Wait>(
    rt: &R,
    alloc: Global,
    input: &mut Input,
    source: &mut S,
    sink: &mut K,
    life: &mut OwnLife<'a, L, N>,
    pages: &mut StorePages<'a, D, V, N>,
    armed: &mut bool,
) -> Passed
    requires idle { IsIdle pages.old.pool.out pages.old.pool.reserves }
    requires told { (opening : List Record) → N.opens opening → D.tells × V.tells }
    ensures idle { IsIdle pages.new.pool.out pages.new.pool.reserves }
    ensures turns { (v : View L.tells) (start : Start) (left told : Option (List ℕ)) (turns : List Turn)
        → Between (IsWhole v) start (WithVault armed.old (Within (seen L.Disk v) N.opens life.old)) left told input.old turns (S.left source.old) (K.told sink.old)
        → PassedTo L.tells (seen L.Disk v) (stores D.PageDevice V.Vault) start armed.new (Within (seen L.Disk v) N.opens life.new) (AreDevicesOf L.Disk D.PageDevice V.Vault N.opens life.new)
        left told input.new turns (S.left source.new) (K.told sink.new) result }
    ensures later { (S.faults source.old ≤ S.faults source.new) × (K.faults sink.old ≤ K.faults sink.new) }
    ensures cause { PassedCause life.old.calls life.new.calls (S.faults source.old) (S.faults source.new) (K.faults sink.old) (K.faults sink.new) result }
{
    let (text, line) = match next_text(alloc, input, source) {
        Ok(Some(next)) => next,
        Ok(None) => return Passed::Ends {
            status: Status::Done,
        },
        Err(status) => return Passed::Ends { status },
    };
    let read = command_of(alloc, &text);
    let command = match command_in(&read, line) {
        Ok(command) => command,
        Err(status) => return Passed::Ends { status },
    };
    match command {
        Command::Stop { keep } => match transcript::stop_line(alloc) {
            Ok(lines) => Passed::Stops { keep: *keep, lines },
            Err(_) => Passed::Ends {
                status: Status::Memory,
            },
        },
        Command::Close => match life_commands::close(rt, alloc, life, pages, line) {
            Ok(lines) => Passed::Closes { lines },
            Err(status) => Passed::Ends { status },
        },
        _ => match life_commands::step(rt, alloc, life, pages, *armed, command, line) {
            Ok(lines) => {
                *armed = armed_after(command, *armed);
                match write_all(sink, &lines) {
                    Ok(()) => Passed::Goes,
                    Err(_) => Passed::Ends {
                        status: Status::SinkFault,
                    },
                }
            }
            Err(status) => Passed::Ends { status },
        },
    }
}

/// A stop is one of the vault too, and renews its fuse. Where no life is open its fuse is armed and renewed here.
fn cycle<V: Vault>(vault: &mut V, command: &Command)
    ensures { Cycles V.Vault command.now vault.old vault.new }
{
    match command {
        Command::Stop { keep: _ } => cycle_vault(vault),
        Command::Fuse { device, calls } => arm(vault, *device, Some(*calls)),
        Command::Renew { device } => arm(vault, *device, None),
        _ => {}
    }
}

/// Arms the vault's fuse, or renews it, where the device is the vault.
fn arm<V: Vault>(vault: &mut V, device: Device, n: Option<u64>)
    ensures { Arms V.Vault device n vault.old vault.new }
{
    match device {
        Device::Vault => vault.fuse(n),
        _ => {}
    }
}

/// Whether the vault's fuse is armed behind a command that is done, by whether it was before.
fn armed_after(command: &Command, armed: bool) -> bool
    ensures { result ≡ armed_after command.now armed }
{
    match command {
        Command::Stop { keep: _ } => false,
        Command::Fuse { device, calls: _ } => armed_by(*device, true, armed),
        Command::Renew { device } => armed_by(*device, false, armed),
        _ => armed,
    }
}

/// What is set is the vault's fuse, or that of another device.
fn armed_by(device: Device, set: bool, armed: bool) -> bool
    ensures { result ≡ armed_by device set armed }
{
    match device {
        Device::Vault => set,
        _ => armed,
    }
}

/// The text of the next line, whose first word is built, and that line's number; none at the end of the input.
fn next_text<S: Source>(
    alloc: Global,
    input: &mut Input,
    source: &mut S,
) -> Result<Option<(Vec<u8>, u64)>, Status>
    ensures most { IsBounded input.new }
    ensures text { IfOk result (λ next. TakesText input.old input.new (S.left source.old) (S.left source.new) (option_map (λ n. (n.0.items, n.1)) next)) }
    ensures none { IfErr result (TakesNone input.old input.new (S.left source.old) (S.left source.new)) }
    ensures later { S.faults source.old ≤ S.faults source.new }
    ensures cause { IfErr result (LineCause (S.faults source.old) (S.faults source.new)) }
{
    let line = input.lines() + 1;
    let text = match input.next_line(alloc, source) {
        Ok(Next::Line(text)) => text,
        Ok(Next::End) => return Ok(None),
        Ok(Next::Bad) => return Err(Status::Script { line }),
        Err(why) => match why {
            NotRead::Memory => return Err(Status::Memory),
            NotRead::SourceFault => return Err(Status::SourceFault),
        },
    };
    if !is_built(&text) {
        return Err(Status::NotBuilt { line });
    }
    Ok(Some((text, line)))
}

/// What was read of the line with this number is a command. It is lent, and isn't moved: it has some 400 bytes.
fn command_in(read: &Result<Option<Command>, AllocError>, line: u64) -> Result<&Command, Status>
    ensures some { IfOk result (λ command. read.now ≡ Ok (Some command.now)) }
    ensures none { IfErr result (IsUnread read.now line) }
{
    match read {
        Ok(Some(command)) => Ok(command),
        Ok(None) => Err(Status::Script { line }),
        Err(_) => Err(Status::Memory),
    }
}
