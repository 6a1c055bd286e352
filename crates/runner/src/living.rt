//! A life, line after line.
ghost use Rattle.std.specs.Prelude.{◌≡◌, ◌<◌, ◌≤◌, ◌↔◌, ℕ, List, [], Option, Bool};
ghost use Rattle.page_ops.specs.Names.{life_names};
ghost use Rattle.wal_record.specs.declared.record.Record.{Record};
ghost use Rattle.life_commands.specs.LogDisk.{View, IsWhole, seen};
ghost use Rattle.life_commands.specs.Stores.{stores};
ghost use Rattle.life_commands.specs.Turns.{Start, Turn};
ghost use Rattle.life_commands.specs.Living.{Within};
ghost use Rattle.line_reader.specs.Lines.{Reader};
ghost use Rattle.runner.specs.Clause.{Between, Closing, LivedTo, Stopping};
ghost use Rattle.runner.specs.Devices.{Stored};
ghost use Rattle.runner.specs.Machine.{Begun, IsAt, OpensOn};
ghost use Rattle.runner.specs.Causes.{LivedCause, disk_at};
ghost use Rattle.runner.specs.Vault.{WithVault};
ghost use Rattle.store_pages.specs.Pages.{IsIdle};

use crate::at::At;
use crate::stop::{cycle_vault, cycled};
use crate::turns::{Passed, turn_inside};
use life_commands::Status;
use line_reader::Input;
use media::{Disk, PageDevice, Sink, Source, Vault, write_all};
use operators::Operators;
use own_life::{LifeRefused, OwnLife, open_life};
use page_ops::{Ground, Life, Tokens, Unnamed};
use std::alloc::Global;
use std::marker::Brand;
use std::sync::Wait;
use store_log::Opened;
use store_pages::StorePages;

/// How a life ended: by a stop or a close, or with the run. Here are its devices.
#[derive(Drop)]
pub enum Lived<L, D, V> {
    Over {
        disk: L,
        pages: D,
        vault: V,
    },
    Ends {
        status: Status,
        disk: L,
        pages: D,
        vault: V,
    },
}

/// What a line has begun: nothing, or a life. Whether the vault's fuse is armed is kept here and below by the caller.
pub fn run_from<S: Source, K: Sink, V: Vault, L: Disk, D: PageDevice, R: Wait>(
    rt: &R,
    alloc: Global,
    operators: &Operators,
    input: &mut Input,
    source: &mut S,
    sink: &mut K,
    vault: V,
    armed: &mut bool,
    pages: D,
    at: At<L, Opened<L>>,
) -> Lived<L, D, V>
    ensures turns { (v : View L.tells) (start : Start) (left told : Option (List ℕ)) (turns : List Turn)
        → Between (IsWhole v) start (WithVault armed.old (Stored (IsWhole v) (stores D.PageDevice V.Vault) (pages, vault) (IsAt L.tells (seen L.Disk v) (Begun L.tells (seen L.Disk v)) at))) left told input.old turns (S.left source.old) (K.told sink.old)
        → LivedTo L.tells (seen L.Disk v) (stores D.PageDevice V.Vault) start armed.new left told input.new (S.left source.new) (K.told sink.new) result }
    ensures later { (S.faults source.old ≤ S.faults source.new) × (K.faults sink.old ≤ K.faults sink.new) }
    ensures cause { LivedCause L.Disk (L.own (disk_at (λ b. b.log.log.device) at)) (S.faults source.old) (S.faults source.new) (K.faults sink.old) (K.faults sink.new) result }
{
    let opened = match at {
        At::Outside { disk } => return Lived::Over { disk, pages, vault },
        At::Inside { life } => life,
    };
    match Unnamed::new(alloc, 1) {
        Ok(unnamed) => run_named::<Brand, S, K, V, L, D, R>(
            rt, alloc, operators, input, source, sink, vault, armed, pages, unnamed, opened,
        ),
        Err(_) => Lived::Ends {
            status: Status::Memory,
            disk: opened.into_device(),
            pages,
            vault,
        },
    }
}

/// A life with a name of its own. It may have begun with the logs for which its disk stands, where the images of its data device
/// are of these.
fn run_named<N: Life, S: Source, K: Sink, V: Vault, L: Disk, D: PageDevice, R: Wait>(
    rt: &R,
    alloc: Global,
    operators: &Operators,
    input: &mut Input,
    source: &mut S,
    sink: &mut K,
    vault: V,
    armed: &mut bool,
    pages: D,
    unnamed: Unnamed,
    opened: Opened<L>,
) -> Lived<L, D, V>
    requires named { unnamed ≡ life_names N.count N.pages N.sessions N.maint N.entries N.session_entries N.log_faults N.vault_faults N.data_faults N.made }
    requires parts { (0 < N.entries.parts) × (0 < N.session_entries.parts) × (0 < N.log_faults.parts) × (0 < N.vault_faults.parts) × (0 < N.made.parts) }
    requires opens { (opening : List Record) → (N.opens opening ↔ OpensOn L.tells L.Disk (stores D.PageDevice V.Vault) opened (pages, vault) opening) }
    ensures turns { (v : View L.tells) (start : Start) (left told : Option (List ℕ)) (turns : List Turn)
        → Between (IsWhole v) start (WithVault armed.old (Stored (IsWhole v) (stores D.PageDevice V.Vault) (pages, vault) (Begun L.tells (seen L.Disk v) opened))) left told input.old turns (S.left source.old) (K.told sink.old)
        → LivedTo L.tells (seen L.Disk v) (stores D.PageDevice V.Vault) start armed.new left told input.new (S.left source.new) (K.told sink.new) result }
    ensures later { (S.faults source.old ≤ S.faults source.new) × (K.faults sink.old ≤ K.faults sink.new) }
    ensures cause { LivedCause L.Disk (L.own opened.log.log.device) (S.faults source.old) (S.faults source.new) (K.faults sink.old) (K.faults sink.new) result }
{
    let (ground, tokens) = unnamed.split::<N>();
    run_on(
        rt, alloc, operators, input, source, sink, vault, armed, pages, &ground, tokens, opened,
    )
}

/// The same on what the life is made of.
fn run_on<'a, N: Life, S: Source, K: Sink, V: Vault, L: Disk, D: PageDevice, R: Wait>(
    rt: &R,
    alloc: Global,
    operators: &'a Operators,
    input: &mut Input,
    source: &mut S,
    sink: &mut K,
    vault: V,
    armed: &mut bool,
    pages: D,
    ground: &'a Ground<N>,
    tokens: Tokens<N>,
    opened: Opened<L>,
) -> Lived<L, D, V>
    requires parts { (0 < N.entries.parts) × (0 < N.session_entries.parts) × (0 < N.log_faults.parts) × (0 < N.vault_faults.parts) × (0 < N.made.parts) }
    requires history { (tokens.front ≡ []) × (tokens.mark ≡ 0) × (tokens.pass.log ≡ []) }
    requires books { (tokens.books.pages ≡ []) × (tokens.books.sessions ≡ []) × (tokens.books.maint ≡ []) }
    requires opens { (opening : List Record) → (N.opens opening ↔ OpensOn L.tells L.Disk (stores D.PageDevice V.Vault) opened (pages, vault) opening) }
    ensures turns { (v : View L.tells) (start : Start) (left told : Option (List ℕ)) (turns : List Turn)
        → Between (IsWhole v) start (WithVault armed.old (Stored (IsWhole v) (stores D.PageDevice V.Vault) (pages, vault) (Begun L.tells (seen L.Disk v) opened))) left told input.old turns (S.left source.old) (K.told sink.old)
        → LivedTo L.tells (seen L.Disk v) (stores D.PageDevice V.Vault) start armed.new left told input.new (S.left source.new) (K.told sink.new) result }
    ensures later { (S.faults source.old ≤ S.faults source.new) × (K.faults sink.old ≤ K.faults sink.new) }
    ensures cause { LivedCause L.Disk (L.own opened.log.log.device) (S.faults source.old) (S.faults source.new) (K.faults sink.old) (K.faults sink.new) result }
{
    let log = opened.into_log();
    match open_life(alloc, operators, ground, tokens, log, pages, vault) {
        Ok((life, pages)) => run_life(rt, alloc, input, source, sink, life, pages, armed),
        Err(refused) => {
            let LifeRefused { log, device, vault } = refused;
            Lived::Ends {
                status: Status::Memory,
                disk: log,
                pages: device,
                vault,
            }
        }
    }
}

/// A life, from its opening to its stop, its close or the end of the run.
fn run_life<'a, N: Life, S: Source, K: Sink, V: Vault, L: Disk, D: PageDevice, R: Wait>(
    rt: &R,
    alloc: Global,
    input: &mut Input,
    source: &mut S,
    sink: &mut K,
    life: OwnLife<'a, L, N>,
    pages: StorePages<'a, D, V, N>,
    armed: &mut bool,
) -> Lived<L, D, V>
    requires idle { IsIdle pages.pool.out pages.pool.reserves }
    requires told { (opening : List Record) → N.opens opening → D.tells × V.tells }
    ensures turns { (v : View L.tells) (start : Start) (left told : Option (List ℕ)) (turns : List Turn)
        → Between (IsWhole v) start (WithVault armed.old (Within (seen L.Disk v) N.opens life.entry)) left told input.old turns (S.left source.old) (K.told sink.old)
        → LivedTo L.tells (seen L.Disk v) (stores D.PageDevice V.Vault) start armed.new left told input.new (S.left source.new) (K.told sink.new) result }
    ensures later { (S.faults source.old ≤ S.faults source.new) × (K.faults sink.old ≤ K.faults sink.new) }
    ensures cause { LivedCause L.Disk life.entry.calls.own (S.faults source.old) (S.faults source.new) (K.faults sink.old) (K.faults sink.new) result }
{
    let (mut life, mut pages) = (life, pages);
    for _ in 0..u64::MAX {
        match turn_inside::<N, S, K, V, L, D, R>(
            rt, alloc, input, source, sink, &mut life, &mut pages, armed,
        ) {
            Passed::Goes => {}
            Passed::Stops { keep, lines } => {
                let (disk, pages, vault) = life.into_devices(pages);
                return stop_life(sink, vault, armed, disk, pages, keep, lines);
            }
            Passed::Closes { lines } => {
                let (disk, pages, vault) = life.into_devices(pages);
                return end_life(sink, vault, disk, pages, lines);
            }
            Passed::Ends { status } => {
                let (disk, pages, vault) = life.into_devices(pages);
                return Lived::Ends {
                    status,
                    disk,
                    pages,
                    vault,
                };
            }
        }
    }
    let (disk, pages, vault) = life.into_devices(pages);
    Lived::Ends {
        status: Status::Memory,
        disk,
        pages,
        vault,
    }
}

/// The machine stops where a life was open, and the lines that say so are written.
fn stop_life<K: Sink, V: Vault, L: Disk, D: PageDevice>(
    sink: &mut K,
    vault: V,
    armed: &mut bool,
    disk: L,
    pages: D,
    keep: Option<u64>,
    lines: Vec<u8>,
) -> Lived<L, D, V>
    ensures turns { (v : View L.tells) (start : Start) (kept : ℕ) (left0 told0 : Option (List ℕ)) (reader : Reader) (turns : List Turn) (left : Option (List ℕ))
        → (IsWhole v → D.tells × V.tells) → Stopping L.tells (seen L.Disk v) (stores D.PageDevice V.Vault) start kept disk (pages, vault) left0 told0 reader turns left (K.told sink.old) keep lines.items
        → LivedTo L.tells (seen L.Disk v) (stores D.PageDevice V.Vault) start armed.new left0 told0 reader left (K.told sink.new) result }
    ensures later { K.faults sink.old ≤ K.faults sink.new }
    ensures cause { (source : ℕ) → LivedCause L.Disk (L.own disk) source source (K.faults sink.old) (K.faults sink.new) result }
{
    let disk = cycled(disk, keep.unwrap_or(0));
    let (mut pages, mut vault) = (pages, vault);
    pages.fuse(None);
    cycle_vault(&mut vault);
    *armed = false;
    match write_all(sink, &lines) {
        Ok(()) => Lived::Over { disk, pages, vault },
        Err(_) => Lived::Ends {
            status: Status::SinkFault,
            disk,
            pages,
            vault,
        },
    }
}

/// A life is over, and the lines that say so are written.
fn end_life<K: Sink, V: Vault, L: Disk, D: PageDevice>(
    sink: &mut K,
    vault: V,
    disk: L,
    pages: D,
    lines: Vec<u8>,
) -> Lived<L, D, V>
    ensures turns { (v : View L.tells) (start : Start) (armed : Bool) (left0 told0 : Option (List ℕ)) (reader : Reader) (turns : List Turn) (left : Option (List ℕ))
        → Closing L.tells (seen L.Disk v) (stores D.PageDevice V.Vault) start disk (pages, vault) armed left0 told0 reader turns left (K.told sink.old) lines.items
        → LivedTo L.tells (seen L.Disk v) (stores D.PageDevice V.Vault) start armed left0 told0 reader left (K.told sink.new) result }
    ensures later { K.faults sink.old ≤ K.faults sink.new }
    ensures cause { (source : ℕ) → LivedCause L.Disk (L.own disk) source source (K.faults sink.old) (K.faults sink.new) result }
{
    match write_all(sink, &lines) {
        Ok(()) => Lived::Over { disk, pages, vault },
        Err(_) => Lived::Ends {
            status: Status::SinkFault,
            disk,
            pages,
            vault,
        },
    }
}
