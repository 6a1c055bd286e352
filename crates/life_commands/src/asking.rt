//! Requests in a life that goes on.
ghost use Rattle.std.specs.Prelude.{◌≡◌, ◌≤◌, ◌<◌, ◌^◌, ℕ, None, true, IfErr, IfOk};
ghost use Rattle.command_laws.specs.Names.{is_active};
ghost use Rattle.script.specs.declared.command.Command.TheVariants as commands;
ghost use Rattle.life_commands.specs.Causes.{LifeCause};
ghost use Rattle.life_commands.specs.Faults.{FailsAs, IsRefusedLine};
ghost use Rattle.life_commands.specs.Promises.{DidArmed, Refused};
ghost use Rattle.store_pages.specs.Pages.{IsIdle};

use crate::failing::{MOST_REFUSED, fail, is_refused};
use crate::status::Status;
use media::{Disk, PageDevice, Vault};
use own_life::OwnLife;
use page_ops::Life;
use script::{Device, Name};
use std::alloc::{AllocError, Global};
use std::sync::Wait;
use store_model::{Fault, Request};
use store_pages::StorePages;

/// A request of an active transaction.
pub fn ask_open<'a, N: Life, L: Disk, D: PageDevice, V: Vault, R: Wait>(
    rt: &R,
    alloc: Global,
    life: &mut OwnLife<'a, L, N>,
    pages: &mut StorePages<'a, D, V, N>,
    armed: bool,
    name: &Name,
    request: &Request,
) -> Result<Vec<u8>, Status>
    requires idle { IsIdle pages.old.pool.out pages.old.pool.reserves }
    requires active { is_active life.old.active name.now ≡ true }
    requires goes { life.old.ended ≡ None }
    ensures idle { IsIdle pages.new.pool.out pages.new.pool.reserves }
    ensures ok { IfOk result (λ lines. DidArmed L.Disk N.opens armed life.old life.new (commands.Ask name.now request.now) lines.items) }
    ensures err { IfErr result (λ status. (line : ℕ) → Refused L.Disk N.opens life.old life.new (commands.Ask name.now request.now) line status) }
    ensures cause { IfErr result (LifeCause life.old.calls.own life.new.calls.own) }
    ensures later { life.old.calls.own ≤ life.new.calls.own }
{
    let before = life.refused();
    if before >= MOST_REFUSED {
        return Err(Status::Memory);
    }
    let of_vault = pages.vault_refused();
    let failed = transcript::request_failed(alloc, name, request, Device::Log)?;
    let asked = copy_of(request)?;
    let answered = life.ask(rt, alloc, pages, name, asked);
    life.look();
    match answered {
        Ok(answer) => Ok(transcript::request_lines(alloc, name, request, &answer.reply)?),
        Err(fault) if is_refused(&fault, armed, of_vault, pages.vault_refused()) => {
            Ok(transcript::request_failed(alloc, name, request, Device::Vault)?)
        }
        Err(fault) => refuse(alloc, life, name, request, fault, failed, before),
    }
}

/// The same request again. The keys and values of most are copied as blocks.
fn copy_of(request: &Request) -> Result<Request, AllocError>
    ensures { IfOk result (λ copy. copy ≡ request.now) }
{
    match request {
        Request::Get(key) => Ok(Request::Get(key.copied())),
        Request::Put(key, value) => Ok(Request::Put(key.copied(), value.copied())),
        Request::Del(key) => Ok(Request::Del(key.copied())),
        _ => request.clone(),
    }
}

/// A request that was refused: its line says why, or the run ends. `failed` is the line of one at which the fuse refused a call,
/// as it had refused so many before.
fn refuse<'a, N: Life, L: Disk>(
    alloc: Global,
    life: &OwnLife<'a, L, N>,
    name: &Name,
    request: &Request,
    fault: Fault,
    failed: Vec<u8>,
    before: u64,
) -> Result<Vec<u8>, Status>
    requires few { before < 2 ^ 62 }
    ensures ok { IfOk result (λ out. IsRefusedLine life.now.active name.now request.now failed.items before life.now.calls.refused fault out.items) }
    ensures err { IfErr result (FailsAs before life.now.calls.refused fault) }
{
    match fault {
        Fault::Conflict { holder, .. } => match life.name_of(holder) {
            Some(other) => Ok(transcript::request_conflict(alloc, name, request, other)?),
            None => Err(Status::Memory),
        },
        Fault::Full { pages, pending, .. } => {
            Ok(transcript::request_full(alloc, name, request, pages, pending)?)
        }
        Fault::OpRefused { .. } => Ok(transcript::request_refused(alloc, name, request)?),
        fault => fail(fault, failed, before, life.refused()),
    }
}
