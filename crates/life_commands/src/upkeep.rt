//! Words without a transaction, in a life that goes on.
ghost use Rattle.std.specs.Prelude.{◌≡◌, ◌≤◌, ℕ, None, IfErr, IfOk};
ghost use Rattle.script.specs.declared.command.Command.TheVariants as commands;
ghost use Rattle.life_commands.specs.Causes.{LifeCause};
ghost use Rattle.life_commands.specs.Faults.{counts_of};
ghost use Rattle.life_commands.specs.Promises.{Did, DidArmed, Loses, Refused};
ghost use Rattle.store_pages.specs.Pages.{IsEmptied, IsIdle};

use crate::failing::{MOST_REFUSED, fail, is_refused};
use crate::status::Status;
use media::{Disk, PageDevice, Vault};
use own_life::OwnLife;
use page_ops::{Life, Survey};
use script::Device;
use std::alloc::Global;
use std::sync::Wait;
use store_model::SEGMENT_PAGES;
use store_pages::StorePages;
use transcript::{Stat, Upkeep};

/// A Checkpoint is taken.
pub fn checkpoint_open<'a, N: Life, L: Disk, R: Wait>(
    rt: &R,
    alloc: Global,
    life: &mut OwnLife<'a, L, N>,
) -> Result<Vec<u8>, Status>
    requires { life.old.ended ≡ None }
    ensures ok { IfOk result (λ lines. Did L.Disk N.opens life.old life.new commands.Checkpoint lines.items) }
    ensures err { IfErr result (λ status. (line : ℕ) → Refused L.Disk N.opens life.old life.new commands.Checkpoint line status) }
    ensures cause { IfErr result (LifeCause life.old.calls.own life.new.calls.own) }
    ensures later { life.old.calls.own ≤ life.new.calls.own }
{
    let before = life.refused();
    if before >= MOST_REFUSED {
        return Err(Status::Memory);
    }
    let done = transcript::upkeep_line(alloc, Upkeep::Checkpoint)?;
    let failed = transcript::upkeep_failed(alloc, Upkeep::Checkpoint, Device::Log)?;
    let taken = life.checkpoint(rt, alloc);
    life.look();
    match taken {
        Ok(_) => Ok(done),
        Err(fault) => fail(fault, failed, before, life.refused()),
    }
}

/// The data device is lost.
pub fn lose_open<'a, N: Life, L: Disk, D: PageDevice, V: Vault, R: Wait>(
    rt: &R,
    alloc: Global,
    life: &mut OwnLife<'a, L, N>,
    pages: &mut StorePages<'a, D, V, N>,
) -> Result<Vec<u8>, Status>
    requires idle { IsIdle pages.old.pool.out pages.old.pool.reserves }
    requires goes { life.old.ended ≡ None }
    ensures idle { IsIdle pages.new.pool.out pages.new.pool.reserves }
    ensures ok { IfOk result (λ lines. Did L.Disk N.opens life.old life.new commands.Lose lines.items) }
    ensures lost { IfOk result (λ lines. Loses life.new pages.new.pool.frames (D.tells → IsEmptied D.newest D.faults pages.old.pool.images pages.new.pool.images)) }
    ensures err { IfErr result (λ status. (line : ℕ) → Refused L.Disk N.opens life.old life.new commands.Lose line status) }
    ensures cause { IfErr result (LifeCause life.old.calls.own life.new.calls.own) }
    ensures later { life.old.calls.own ≤ life.new.calls.own }
{
    let before = life.refused();
    if before >= MOST_REFUSED {
        return Err(Status::Memory);
    }
    let done = transcript::upkeep_line(alloc, Upkeep::Lose)?;
    let failed = transcript::upkeep_failed(alloc, Upkeep::Lose, Device::Log)?;
    let lost = life.lose(rt, alloc, pages);
    life.look();
    match lost {
        Ok(_) => Ok(done),
        Err(fault) => fail(fault, failed, before, life.refused()),
    }
}

/// Help takes so many steps, or fewer where no step has work.
pub fn help_open<'a, N: Life, L: Disk, D: PageDevice, V: Vault, R: Wait>(
    rt: &R,
    alloc: Global,
    life: &mut OwnLife<'a, L, N>,
    pages: &mut StorePages<'a, D, V, N>,
    armed: bool,
    steps: u32,
) -> Result<Vec<u8>, Status>
    requires idle { IsIdle pages.old.pool.out pages.old.pool.reserves }
    requires goes { life.old.ended ≡ None }
    ensures idle { IsIdle pages.new.pool.out pages.new.pool.reserves }
    ensures ok { IfOk result (λ lines. DidArmed L.Disk N.opens armed life.old life.new (commands.Help steps) lines.items) }
    ensures err { IfErr result (λ status. (line : ℕ) → Refused L.Disk N.opens life.old life.new (commands.Help steps) line status) }
    ensures cause { IfErr result (LifeCause life.old.calls.own life.new.calls.own) }
    ensures later { life.old.calls.own ≤ life.new.calls.own }
{
    let before = life.refused();
    if before >= MOST_REFUSED {
        return Err(Status::Memory);
    }
    let of_vault = pages.vault_refused();
    let done = transcript::upkeep_line(alloc, Upkeep::Help)?;
    let failed = transcript::upkeep_failed(alloc, Upkeep::Help, Device::Log)?;
    let helped = life.help(rt, alloc, pages, steps);
    life.look();
    match helped {
        Ok(_) => Ok(done),
        Err(fault) if is_refused(&fault, armed, of_vault, pages.vault_refused()) => {
            Ok(transcript::upkeep_failed(alloc, Upkeep::Help, Device::Vault)?)
        }
        Err(fault) => fail(fault, failed, before, life.refused()),
    }
}

/// What the life counts.
pub fn stat_open<'a, N: Life, L: Disk, R: Wait>(
    rt: &R,
    alloc: Global,
    life: &mut OwnLife<'a, L, N>,
) -> Result<Vec<u8>, Status>
    requires { life.old.ended ≡ None }
    ensures ok { IfOk result (λ lines. Did L.Disk N.opens life.old life.new commands.Stat lines.items) }
    ensures err { IfErr result (λ status. (line : ℕ) → Refused L.Disk N.opens life.old life.new commands.Stat line status) }
    ensures cause { IfErr result (LifeCause life.old.calls.own life.new.calls.own) }
    ensures later { life.old.calls.own ≤ life.new.calls.own }
{
    let known = life.survey(rt, alloc);
    life.look();
    match known {
        Ok(known) => Ok(transcript::stat_line(alloc, &counts_of(&known))?),
        Err(_) => Err(Status::Memory),
    }
}

/// What a journal tells, as `stat` counts it.
fn counts_of(known: &Survey) -> Stat
    ensures { result ≡ counts_of known.now }
{
    let lost = u64::from(known.analysis.lost.div_ceil(SEGMENT_PAGES));
    Stat {
        commits: known.analysis.commits,
        losers: known.losers.len() as u64,
        undone: known.undone,
        repaired: known.repaired,
        pages: known.analysis.heads.len() as u64,
        lost,
        restored: lost.saturating_sub(known.analysis.unrestored.len() as u64),
    }
}
