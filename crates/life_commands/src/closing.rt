//! A life is closed.
ghost use Rattle.std.specs.Prelude.{◌≡◌, ◌≤◌, ℕ, None, [], IfErr, IfOk};
ghost use Rattle.script.specs.declared.command.Command.TheVariants as commands;
ghost use Rattle.life_commands.specs.Causes.{LifeCause};
ghost use Rattle.life_commands.specs.Promises.{Closed, Refused};
ghost use Rattle.store_pages.specs.Pages.{IsIdle};

use crate::failing::{MOST_REFUSED, fail};
use crate::status::Status;
use media::{Disk, PageDevice, Vault};
use own_life::OwnLife;
use page_ops::Life;
use script::Device;
use std::alloc::Global;
use std::sync::Wait;
use store_pages::StorePages;
use transcript::Upkeep;

/// Closes a life in which no name is active: its dirty pages are written, and then the whole log is durable. Also where the log fails
/// in it, or had ended the life before, the life is over with the line that is given.
pub fn close<'a, N: Life, L: Disk, D: PageDevice, V: Vault, R: Wait>(
    rt: &R,
    alloc: Global,
    life: &mut OwnLife<'a, L, N>,
    pages: &mut StorePages<'a, D, V, N>,
    line: u64,
) -> Result<Vec<u8>, Status>
    requires idle { IsIdle pages.old.pool.out pages.old.pool.reserves }
    ensures idle { IsIdle pages.new.pool.out pages.new.pool.reserves }
    ensures ok { IfOk result (λ lines. Closed L.Disk D.PageDevice V.Vault N.opens life.old life.new lines.items) }
    ensures err { IfErr result (Refused L.Disk N.opens life.old life.new commands.Close line) }
    ensures cause { IfErr result (LifeCause life.old.calls.own life.new.calls.own) }
    ensures later { life.old.calls.own ≤ life.new.calls.own }
{
    if life.active() > 0 {
        return Err(Status::Script { line });
    }
    match life.ended() {
        Some(at) => Ok(transcript::upkeep_ended(alloc, Upkeep::Close, at)?),
        None => close_open(rt, alloc, life, pages),
    }
}

/// Closes a life that goes on.
fn close_open<'a, N: Life, L: Disk, D: PageDevice, V: Vault, R: Wait>(
    rt: &R,
    alloc: Global,
    life: &mut OwnLife<'a, L, N>,
    pages: &mut StorePages<'a, D, V, N>,
) -> Result<Vec<u8>, Status>
    requires idle { IsIdle pages.old.pool.out pages.old.pool.reserves }
    requires goes { life.old.ended ≡ None }
    requires active { life.old.active ≡ [] }
    ensures idle { IsIdle pages.new.pool.out pages.new.pool.reserves }
    ensures ok { IfOk result (λ lines. Closed L.Disk D.PageDevice V.Vault N.opens life.old life.new lines.items) }
    ensures err { IfErr result (λ status. (line : ℕ) → Refused L.Disk N.opens life.old life.new commands.Close line status) }
    ensures cause { IfErr result (LifeCause life.old.calls.own life.new.calls.own) }
    ensures later { life.old.calls.own ≤ life.new.calls.own }
{
    let before = life.refused();
    if before >= MOST_REFUSED {
        return Err(Status::Memory);
    }
    let done = transcript::upkeep_line(alloc, Upkeep::Close)?;
    let failed = transcript::upkeep_failed(alloc, Upkeep::Close, Device::Log)?;
    let closed = life.close(rt, alloc, pages);
    life.look();
    match closed {
        Ok(()) => Ok(done),
        Err(fault) => fail(fault, failed, before, life.refused()),
    }
}
