//! Ends of transactions in a life that goes on.
ghost use Rattle.std.specs.Prelude.{◌≡◌, ◌≤◌, ℕ, None, true, IfErr, IfOk};
ghost use Rattle.command_laws.specs.Names.{is_active};
ghost use Rattle.script.specs.declared.command.Command.TheVariants as commands;
ghost use Rattle.life_commands.specs.Causes.{LifeCause};
ghost use Rattle.life_commands.specs.Promises.{Did, DidArmed, Refused};
ghost use Rattle.store_pages.specs.Pages.{IsIdle};

use crate::failing::{MOST_REFUSED, fail, is_refused};
use crate::status::Status;
use media::{Disk, PageDevice, Vault};
use own_life::OwnLife;
use page_ops::Life;
use script::{Device, Name};
use std::alloc::Global;
use std::sync::Wait;
use store_pages::StorePages;

/// An active transaction commits.
pub fn commit_open<'a, N: Life, L: Disk, R: Wait>(
    rt: &R,
    alloc: Global,
    life: &mut OwnLife<'a, L, N>,
    name: &Name,
) -> Result<Vec<u8>, Status>
    requires active { is_active life.old.active name.now ≡ true }
    requires goes { life.old.ended ≡ None }
    ensures ok { IfOk result (λ lines. Did L.Disk N.opens life.old life.new (commands.Commit name.now) lines.items) }
    ensures err { IfErr result (λ status. (line : ℕ) → Refused L.Disk N.opens life.old life.new (commands.Commit name.now) line status) }
    ensures cause { IfErr result (LifeCause life.old.calls.own life.new.calls.own) }
    ensures later { life.old.calls.own ≤ life.new.calls.own }
{
    let before = life.refused();
    if before >= MOST_REFUSED {
        return Err(Status::Memory);
    }
    let failed = transcript::commit_failed(alloc, name)?;
    let committed = life.commit(rt, name);
    life.look();
    match committed {
        Ok(answer) => Ok(transcript::commit_line(alloc, name, answer.number)?),
        Err(fault) => fail(fault, failed, before, life.refused()),
    }
}

/// An active transaction is undone, and ends.
pub fn abort_open<'a, N: Life, L: Disk, D: PageDevice, V: Vault, R: Wait>(
    rt: &R,
    alloc: Global,
    life: &mut OwnLife<'a, L, N>,
    pages: &mut StorePages<'a, D, V, N>,
    armed: bool,
    name: &Name,
) -> Result<Vec<u8>, Status>
    requires idle { IsIdle pages.old.pool.out pages.old.pool.reserves }
    requires active { is_active life.old.active name.now ≡ true }
    requires goes { life.old.ended ≡ None }
    ensures idle { IsIdle pages.new.pool.out pages.new.pool.reserves }
    ensures ok { IfOk result (λ lines. DidArmed L.Disk N.opens armed life.old life.new (commands.Abort name.now) lines.items) }
    ensures err { IfErr result (λ status. (line : ℕ) → Refused L.Disk N.opens life.old life.new (commands.Abort name.now) line status) }
    ensures cause { IfErr result (LifeCause life.old.calls.own life.new.calls.own) }
    ensures later { life.old.calls.own ≤ life.new.calls.own }
{
    let before = life.refused();
    if before >= MOST_REFUSED {
        return Err(Status::Memory);
    }
    let of_vault = pages.vault_refused();
    let done = transcript::abort_line(alloc, name)?;
    let failed = transcript::abort_failed(alloc, name, Device::Log)?;
    let undone = life.abort(rt, alloc, pages, name);
    life.look();
    match undone {
        Ok(_) => Ok(done),
        Err(fault) if is_refused(&fault, armed, of_vault, pages.vault_refused()) => {
            Ok(transcript::abort_failed(alloc, name, Device::Vault)?)
        }
        Err(fault) => fail(fault, failed, before, life.refused()),
    }
}
