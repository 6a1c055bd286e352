//! Commands of a life.
ghost use Rattle.std.specs.Prelude.{◌≡◌, ◌≤◌, ◌<◌, ◌^◌, ℕ, None, true, false, IfErr, IfOk};
ghost use Rattle.command_laws.specs.Names.{is_active};
ghost use Rattle.script.specs.declared.command.Command.TheVariants as commands;
ghost use Rattle.store_model.specs.declared.fault.Fault.TheVariants as faults;
ghost use Rattle.life_commands.specs.Causes.{LifeCause};
ghost use Rattle.life_commands.specs.Promises.{Did, DidArmed, Loses, Refused};
ghost use Rattle.life_commands.specs.Rows.{IsNoClose, IsNoStop};
ghost use Rattle.life_commands.specs.declared.status.Status.TheVariants as statuses;
ghost use Rattle.store_pages.specs.Pages.{IsEmptied, IsIdle};

use crate::asking::ask_open;
use crate::devices::{damage, fuse, renew};
use crate::ending::{abort_open, commit_open};
use crate::status::Status;
use crate::storing::{archive_open, backup_open};
use crate::upkeep::{checkpoint_open, help_open, lose_open, stat_open};
use media::{Disk, PageDevice, Vault};
use own_life::OwnLife;
use page_ops::Life;
use script::{Command, Name};
use std::alloc::Global;
use std::sync::Wait;
use store_model::{Fault, Request};
use store_pages::StorePages;
use transcript::Upkeep;

/// Carries a command out, and gives the lines that answer it; the vault's fuse is armed, or not.
pub fn step<'a, N: Life, L: Disk, D: PageDevice, V: Vault, R: Wait>(
    rt: &R,
    alloc: Global,
    life: &mut OwnLife<'a, L, N>,
    pages: &mut StorePages<'a, D, V, N>,
    armed: bool,
    command: &Command,
    line: u64,
) -> Result<Vec<u8>, Status>
    requires idle { IsIdle pages.old.pool.out pages.old.pool.reserves }
    requires stop { IsNoStop command.now }
    requires close { IsNoClose command.now }
    ensures idle { IsIdle pages.new.pool.out pages.new.pool.reserves }
    ensures ok { IfOk result (λ lines. DidArmed L.Disk N.opens armed life.old life.new command.now lines.items) }
    ensures lost { command.now ≡ commands.Lose → IfOk result (λ lines. Loses life.new pages.new.pool.frames (D.tells → IsEmptied D.newest D.faults pages.old.pool.images pages.new.pool.images)) }
    ensures err { IfErr result (Refused L.Disk N.opens life.old life.new command.now line) }
    ensures cause { IfErr result (LifeCause life.old.calls.own life.new.calls.own) }
    ensures later { life.old.calls.own ≤ life.new.calls.own }
{
    match command {
        Command::Nothing => Ok(Vec::new(alloc)),
        Command::Begin(name) => begin(rt, alloc, life, name, line),
        Command::Ask(name, request) => ask(rt, alloc, life, pages, armed, name, request, line),
        Command::Commit(name) => commit(rt, alloc, life, name, line),
        Command::Abort(name) => abort(rt, alloc, life, pages, armed, name, line),
        Command::Checkpoint => checkpoint(rt, alloc, life),
        Command::Backup => backup(rt, alloc, life, pages, armed),
        Command::Archive => archive(rt, alloc, life, pages, armed),
        Command::Lose => lose(rt, alloc, life, pages),
        Command::Help { steps } => help(rt, alloc, life, pages, armed, *steps),
        Command::Stat => stat(rt, alloc, life),
        Command::Damage { page } => damage(alloc, pages, *page),
        Command::Fuse { device, calls } => fuse(alloc, life, pages, *device, *calls),
        Command::Renew { device } => renew(alloc, life, pages, *device),
        _ => Err(Status::Script { line }),
    }
}

fn begin<'a, N: Life, L: Disk, R: Wait>(
    rt: &R,
    alloc: Global,
    life: &mut OwnLife<'a, L, N>,
    name: &Name,
    line: u64,
) -> Result<Vec<u8>, Status>
    ensures ok { IfOk result (λ lines. Did L.Disk N.opens life.old life.new (commands.Begin name.now) lines.items) }
    ensures err { IfErr result (Refused L.Disk N.opens life.old life.new (commands.Begin name.now) line) }
    ensures cause { IfErr result (LifeCause life.old.calls.own life.new.calls.own) }
    ensures later { life.old.calls.own ≤ life.new.calls.own }
{
    if life.is_active(name) {
        return Err(Status::Script { line });
    }
    match life.ended() {
        Some(at) => Ok(transcript::begin_ended(alloc, name, at)?),
        None => begin_open(rt, alloc, life, name),
    }
}

/// A begin in a life that goes on, by a name that isn't active.
fn begin_open<'a, N: Life, L: Disk, R: Wait>(
    rt: &R,
    alloc: Global,
    life: &mut OwnLife<'a, L, N>,
    name: &Name,
) -> Result<Vec<u8>, Status>
    requires free { is_active life.old.active name.now ≡ false }
    requires goes { life.old.ended ≡ None }
    ensures ok { IfOk result (λ lines. Did L.Disk N.opens life.old life.new (commands.Begin name.now) lines.items) }
    ensures err { IfErr result (λ status. (line : ℕ) → Refused L.Disk N.opens life.old life.new (commands.Begin name.now) line status) }
    ensures cause { IfErr result (LifeCause life.old.calls.own life.new.calls.own) }
    ensures later { life.old.calls.own ≤ life.new.calls.own }
{
    let done = transcript::begin_line(alloc, name)?;
    let refused = transcript::begin_refused(alloc, name)?;
    let begun = life.begin(rt, alloc, name.copied());
    life.look();
    match begun {
        Ok(_) => Ok(done),
        Err(fault) => refuse_begin(fault, refused),
    }
}

/// A begin that was refused: a line says so, where no more transactions may be active.
fn refuse_begin(fault: Fault, refused: Vec<u8>) -> Result<Vec<u8>, Status>
    ensures ok { IfOk result (λ out. (fault ≡ faults.TooManyActive) × (out ≡ refused)) }
    ensures err { IfErr result (λ status. status ≡ statuses.Memory) }
{
    match fault {
        Fault::TooManyActive => Ok(refused),
        _ => Err(Status::Memory),
    }
}

fn ask<'a, N: Life, L: Disk, D: PageDevice, V: Vault, R: Wait>(
    rt: &R,
    alloc: Global,
    life: &mut OwnLife<'a, L, N>,
    pages: &mut StorePages<'a, D, V, N>,
    armed: bool,
    name: &Name,
    request: &Request,
    line: u64,
) -> Result<Vec<u8>, Status>
    requires idle { IsIdle pages.old.pool.out pages.old.pool.reserves }
    ensures idle { IsIdle pages.new.pool.out pages.new.pool.reserves }
    ensures ok { IfOk result (λ lines. DidArmed L.Disk N.opens armed life.old life.new (commands.Ask name.now request.now) lines.items) }
    ensures err { IfErr result (Refused L.Disk N.opens life.old life.new (commands.Ask name.now request.now) line) }
    ensures cause { IfErr result (LifeCause life.old.calls.own life.new.calls.own) }
    ensures later { life.old.calls.own ≤ life.new.calls.own }
{
    if !life.is_active(name) {
        return Err(Status::Script { line });
    }
    match life.ended() {
        Some(at) => Ok(transcript::request_ended(alloc, name, request, at)?),
        None => ask_open(rt, alloc, life, pages, armed, name, request),
    }
}

fn commit<'a, N: Life, L: Disk, R: Wait>(
    rt: &R,
    alloc: Global,
    life: &mut OwnLife<'a, L, N>,
    name: &Name,
    line: u64,
) -> Result<Vec<u8>, Status>
    ensures ok { IfOk result (λ lines. Did L.Disk N.opens life.old life.new (commands.Commit name.now) lines.items) }
    ensures err { IfErr result (Refused L.Disk N.opens life.old life.new (commands.Commit name.now) line) }
    ensures cause { IfErr result (LifeCause life.old.calls.own life.new.calls.own) }
    ensures later { life.old.calls.own ≤ life.new.calls.own }
{
    if !life.is_active(name) {
        return Err(Status::Script { line });
    }
    match life.ended() {
        Some(at) => Ok(transcript::commit_ended(alloc, name, at)?),
        None => commit_open(rt, alloc, life, name),
    }
}

fn abort<'a, N: Life, L: Disk, D: PageDevice, V: Vault, R: Wait>(
    rt: &R,
    alloc: Global,
    life: &mut OwnLife<'a, L, N>,
    pages: &mut StorePages<'a, D, V, N>,
    armed: bool,
    name: &Name,
    line: u64,
) -> Result<Vec<u8>, Status>
    requires idle { IsIdle pages.old.pool.out pages.old.pool.reserves }
    ensures idle { IsIdle pages.new.pool.out pages.new.pool.reserves }
    ensures ok { IfOk result (λ lines. DidArmed L.Disk N.opens armed life.old life.new (commands.Abort name.now) lines.items) }
    ensures err { IfErr result (Refused L.Disk N.opens life.old life.new (commands.Abort name.now) line) }
    ensures cause { IfErr result (LifeCause life.old.calls.own life.new.calls.own) }
    ensures later { life.old.calls.own ≤ life.new.calls.own }
{
    if !life.is_active(name) {
        return Err(Status::Script { line });
    }
    match life.ended() {
        Some(at) => Ok(transcript::abort_ended(alloc, name, at)?),
        None => abort_open(rt, alloc, life, pages, armed, name),
    }
}

fn checkpoint<'a, N: Life, L: Disk, R: Wait>(
    rt: &R,
    alloc: Global,
    life: &mut OwnLife<'a, L, N>,
) -> Result<Vec<u8>, Status>
    ensures ok { IfOk result (λ lines. Did L.Disk N.opens life.old life.new commands.Checkpoint lines.items) }
    ensures err { IfErr result (λ status. (line : ℕ) → Refused L.Disk N.opens life.old life.new commands.Checkpoint line status) }
    ensures cause { IfErr result (LifeCause life.old.calls.own life.new.calls.own) }
    ensures later { life.old.calls.own ≤ life.new.calls.own }
{
    match life.ended() {
        Some(at) => Ok(transcript::upkeep_ended(alloc, Upkeep::Checkpoint, at)?),
        None => checkpoint_open(rt, alloc, life),
    }
}

fn backup<'a, N: Life, L: Disk, D: PageDevice, V: Vault, R: Wait>(
    rt: &R,
    alloc: Global,
    life: &mut OwnLife<'a, L, N>,
    pages: &mut StorePages<'a, D, V, N>,
    armed: bool,
) -> Result<Vec<u8>, Status>
    requires idle { IsIdle pages.old.pool.out pages.old.pool.reserves }
    ensures idle { IsIdle pages.new.pool.out pages.new.pool.reserves }
    ensures ok { IfOk result (λ lines. DidArmed L.Disk N.opens armed life.old life.new commands.Backup lines.items) }
    ensures err { IfErr result (λ status. (line : ℕ) → Refused L.Disk N.opens life.old life.new commands.Backup line status) }
    ensures cause { IfErr result (LifeCause life.old.calls.own life.new.calls.own) }
    ensures later { life.old.calls.own ≤ life.new.calls.own }
{
    match life.ended() {
        Some(at) => Ok(transcript::upkeep_ended(alloc, Upkeep::Backup, at)?),
        None => backup_open(rt, alloc, life, pages, armed),
    }
}

fn archive<'a, N: Life, L: Disk, D: PageDevice, V: Vault, R: Wait>(
    rt: &R,
    alloc: Global,
    life: &mut OwnLife<'a, L, N>,
    pages: &mut StorePages<'a, D, V, N>,
    armed: bool,
) -> Result<Vec<u8>, Status>
    requires idle { IsIdle pages.old.pool.out pages.old.pool.reserves }
    ensures idle { IsIdle pages.new.pool.out pages.new.pool.reserves }
    ensures ok { IfOk result (λ lines. DidArmed L.Disk N.opens armed life.old life.new commands.Archive lines.items) }
    ensures err { IfErr result (λ status. (line : ℕ) → Refused L.Disk N.opens life.old life.new commands.Archive line status) }
    ensures cause { IfErr result (LifeCause life.old.calls.own life.new.calls.own) }
    ensures later { life.old.calls.own ≤ life.new.calls.own }
{
    match life.ended() {
        Some(at) => Ok(transcript::archive_ended(alloc, at)?),
        None => archive_open(rt, alloc, life, pages, armed),
    }
}

fn lose<'a, N: Life, L: Disk, D: PageDevice, V: Vault, R: Wait>(
    rt: &R,
    alloc: Global,
    life: &mut OwnLife<'a, L, N>,
    pages: &mut StorePages<'a, D, V, N>,
) -> Result<Vec<u8>, Status>
    requires idle { IsIdle pages.old.pool.out pages.old.pool.reserves }
    ensures idle { IsIdle pages.new.pool.out pages.new.pool.reserves }
    ensures ok { IfOk result (λ lines. Did L.Disk N.opens life.old life.new commands.Lose lines.items) }
    ensures lost { IfOk result (λ lines. Loses life.new pages.new.pool.frames (D.tells → IsEmptied D.newest D.faults pages.old.pool.images pages.new.pool.images)) }
    ensures err { IfErr result (λ status. (line : ℕ) → Refused L.Disk N.opens life.old life.new commands.Lose line status) }
    ensures cause { IfErr result (LifeCause life.old.calls.own life.new.calls.own) }
    ensures later { life.old.calls.own ≤ life.new.calls.own }
{
    match life.ended() {
        Some(at) => Ok(transcript::upkeep_ended(alloc, Upkeep::Lose, at)?),
        None => lose_open(rt, alloc, life, pages),
    }
}

fn help<'a, N: Life, L: Disk, D: PageDevice, V: Vault, R: Wait>(
    rt: &R,
    alloc: Global,
    life: &mut OwnLife<'a, L, N>,
    pages: &mut StorePages<'a, D, V, N>,
    armed: bool,
    steps: u32,
) -> Result<Vec<u8>, Status>
    requires idle { IsIdle pages.old.pool.out pages.old.pool.reserves }
    ensures idle { IsIdle pages.new.pool.out pages.new.pool.reserves }
    ensures ok { IfOk result (λ lines. DidArmed L.Disk N.opens armed life.old life.new (commands.Help steps) lines.items) }
    ensures err { IfErr result (λ status. (line : ℕ) → Refused L.Disk N.opens life.old life.new (commands.Help steps) line status) }
    ensures cause { IfErr result (LifeCause life.old.calls.own life.new.calls.own) }
    ensures later { life.old.calls.own ≤ life.new.calls.own }
{
    match life.ended() {
        Some(at) => Ok(transcript::upkeep_ended(alloc, Upkeep::Help, at)?),
        None => help_open(rt, alloc, life, pages, armed, steps),
    }
}

fn stat<'a, N: Life, L: Disk, R: Wait>(
    rt: &R,
    alloc: Global,
    life: &mut OwnLife<'a, L, N>,
) -> Result<Vec<u8>, Status>
    ensures ok { IfOk result (λ lines. Did L.Disk N.opens life.old life.new commands.Stat lines.items) }
    ensures err { IfErr result (λ status. (line : ℕ) → Refused L.Disk N.opens life.old life.new commands.Stat line status) }
    ensures cause { IfErr result (LifeCause life.old.calls.own life.new.calls.own) }
    ensures later { life.old.calls.own ≤ life.new.calls.own }
{
    match life.ended() {
        Some(at) => Ok(transcript::stat_ended(alloc, at)?),
        None => stat_open(rt, alloc, life),
    }
}
