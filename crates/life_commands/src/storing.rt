//! Words that store something in the vault, in a life that goes on.
ghost use Rattle.std.specs.Prelude.{◌≡◌, ◌≤◌, ℕ, None, IfErr, IfOk};
ghost use Rattle.script.specs.declared.command.Command.TheVariants as commands;
ghost use Rattle.life_commands.specs.Causes.{LifeCause};
ghost use Rattle.life_commands.specs.Promises.{DidArmed, Refused};
ghost use Rattle.store_pages.specs.Pages.{IsIdle};

use crate::failing::{MOST_REFUSED, fail, is_refused};
use crate::status::Status;
use media::{Disk, PageDevice, Vault};
use own_life::OwnLife;
use page_ops::Life;
use script::Device;
use std::alloc::Global;
use std::sync::Wait;
use store_pages::StorePages;
use transcript::Upkeep;

/// A backup of all pages is made.
pub fn backup_open<'a, N: Life, L: Disk, D: PageDevice, V: Vault, R: Wait>(
    rt: &R,
    alloc: Global,
    life: &mut OwnLife<'a, L, N>,
    pages: &mut StorePages<'a, D, V, N>,
    armed: bool,
) -> Result<Vec<u8>, Status>
    requires idle { IsIdle pages.old.pool.out pages.old.pool.reserves }
    requires goes { life.old.ended ≡ None }
    ensures idle { IsIdle pages.new.pool.out pages.new.pool.reserves }
    ensures ok { IfOk result (λ lines. DidArmed L.Disk N.opens armed life.old life.new commands.Backup lines.items) }
    ensures err { IfErr result (λ status. (line : ℕ) → Refused L.Disk N.opens life.old life.new commands.Backup line status) }
    ensures cause { IfErr result (LifeCause life.old.calls.own life.new.calls.own) }
    ensures later { life.old.calls.own ≤ life.new.calls.own }
{
    let before = life.refused();
    if before >= MOST_REFUSED {
        return Err(Status::Memory);
    }
    let of_vault = pages.vault_refused();
    let done = transcript::upkeep_line(alloc, Upkeep::Backup)?;
    let failed = transcript::upkeep_failed(alloc, Upkeep::Backup, Device::Log)?;
    let made = life.backup(rt, alloc, pages);
    life.look();
    match made {
        Ok(_) => Ok(done),
        Err(fault) if is_refused(&fault, armed, of_vault, pages.vault_refused()) => {
            Ok(transcript::upkeep_failed(alloc, Upkeep::Backup, Device::Vault)?)
        }
        Err(fault) => fail(fault, failed, before, life.refused()),
    }
}

/// Runs are made of the records that no run has yet.
pub fn archive_open<'a, N: Life, L: Disk, D: PageDevice, V: Vault, R: Wait>(
    rt: &R,
    alloc: Global,
    life: &mut OwnLife<'a, L, N>,
    pages: &mut StorePages<'a, D, V, N>,
    armed: bool,
) -> Result<Vec<u8>, Status>
    requires idle { IsIdle pages.old.pool.out pages.old.pool.reserves }
    requires goes { life.old.ended ≡ None }
    ensures idle { IsIdle pages.new.pool.out pages.new.pool.reserves }
    ensures ok { IfOk result (λ lines. DidArmed L.Disk N.opens armed life.old life.new commands.Archive lines.items) }
    ensures err { IfErr result (λ status. (line : ℕ) → Refused L.Disk N.opens life.old life.new commands.Archive line status) }
    ensures cause { IfErr result (LifeCause life.old.calls.own life.new.calls.own) }
    ensures later { life.old.calls.own ≤ life.new.calls.own }
{
    let before = life.refused();
    if before >= MOST_REFUSED {
        return Err(Status::Memory);
    }
    let of_vault = pages.vault_refused();
    let failed = transcript::archive_failed(alloc, Device::Log)?;
    let made = life.archive(rt, alloc, pages);
    life.look();
    match made {
        Ok(runs) => Ok(transcript::archive_line(alloc, runs)?),
        Err(fault) if is_refused(&fault, armed, of_vault, pages.vault_refused()) => {
            Ok(transcript::archive_failed(alloc, Device::Vault)?)
        }
        Err(fault) => fail(fault, failed, before, life.refused()),
    }
}
