//! A whole run.
ghost use Rattle.life_commands.specs.Bytes.{Known};
ghost use Rattle.std.specs.Prelude.{◌≡◌, ◌≢◌, ◌≤◌, ℕ, List, map};
ghost use Rattle.media.specs.Cause.{Rose};
ghost use Rattle.line_reader.specs.Lines.{to_come, IsBounded};
ghost use Rattle.life_commands.specs.LogDisk.{View, IsWhole, Keeps, seen};
ghost use Rattle.life_commands.specs.Stores.{AreOf, stores};
ghost use Rattle.life_commands.specs.Living.{Out};
ghost use Rattle.life_commands.specs.Turns.{Last, Start, begin_stage};
ghost use Rattle.runner.specs.Clause.{HandsBack, Headline};
ghost use Rattle.runner.specs.Devices.{Stored};
ghost use Rattle.store_log.specs.Shows.{Shows};
ghost use Rattle.runner.specs.Causes.{IsBlamed, RunCause, IsAsked};
ghost use Rattle.call_words.specs.Calls.{call_of};
ghost use Rattle.runner.specs.Usage.{AsksRun, ByWords, IsUnbegun};
ghost use Rattle.life_commands.specs.declared.status.Status.TheVariants as statuses;

use crate::living::{Lived, run_from};
use crate::turns::{Turned, turn_outside};
use call_words::{Mode, Refusal, call_of};
use life_commands::Status;
use line_reader::Input;
use media::{Devices, Disk, Fuse, PageDevice, Sink, Source, Vault};
use operators::Operators;
use std::alloc::Global;
use std::sync::Wait;

/// Runs the script that the source has, prints its transcript to the sink, and hands the devices back. The words are those
/// of a call behind its place (`call_words`). Workers and frames have no effect, and no script is generated yet. A call of the
/// data device that fails ends nothing: its page is repaired, or stays in memory.
pub fn run_words<S: Source, K: Sink, L: Disk, D: PageDevice, V: Vault, R: Wait>(
    rt: &R,
    alloc: Global,
    words: &[String],
    source: &mut S,
    sink: &mut K,
    devices: Devices<L, D, V>,
    operators: &Operators,
) -> (Status, Devices<L, D, V>)
    // Of every use that may have left the devices so: there are turns whose commands are those of the lines read; each
    // fits behind those before it, and each life opens a log that the life or the stop before may have left, or that was
    // handed in or made; their text is what was written; and each life of theirs is legal, has the replies of a serial
    // run, and whatever a stop may leave of it has its first transactions. The log disk that is handed back keeps a log
    // that may be found next, also after any crash, the images on the data device are of each such log, and each object that
    // one names is synced in the vault, so they may be handed to the next call. What the reader has read and given to no line
    // yet is still pending; at most the longest script is read, and one byte more.
    ensures headline { (v : View L.tells) (start : Start) → (IsWhole v → (stores D.PageDevice V.Vault).tells × Keeps L.Disk start.last devices.log × AreOf ((stores D.PageDevice V.Vault).are_of (devices.pages, devices.vault)) start.last) → Known L.tells L.Disk start.bytes devices.log
        → (pending : List ℕ) × Headline (IsWhole v) start (HandsBack L.tells (seen L.Disk v) (stores D.PageDevice V.Vault) result.1.log (result.1.pages, result.1.vault))
        (S.left source.old) pending (S.left source.new) (K.told sink.old) (K.told sink.new) result.0 }

    // Where the words are a call, the log disk keeps a log, what is beside it is of that, and no device failed, the run is
    // done, the script asked for its end, or memory ran out.
    ensures complete { AsksRun (call_of (map (λ word. word.bytes.items) words.now)) → L.tells → D.tells → V.tells → (start : Last) → Keeps L.Disk start devices.log → AreOf ((stores D.PageDevice V.Vault).are_of (devices.pages, devices.vault)) start
        → (Rose (S.faults source.old) (S.faults source.new) → ⊥) → (Rose (K.faults sink.old) (K.faults sink.new) → ⊥) → (Rose (L.faults devices.log) (L.faults result.1.log) → ⊥) → (Rose (V.faults devices.vault) (V.faults result.1.vault) → ⊥) → IsAsked result.0 }

    // The words alone decide whether they are a call, and of which script; want of memory is free.
    ensures usage { ByWords (call_of (map (λ word. word.bytes.items) words.now)) result.0 }

    // Where they don't ask for a run, nothing is read, written or run.
    ensures untouched { IsUnbegun result.0 → (result.1 ≡ devices) × (source.new ≡ source.old) × (sink.new ≡ sink.old) }

    // A device's fault ends the run only where that device's own count of faults rose in this call.
    ensures source { result.0 ≡ statuses.SourceFault → Rose (S.faults source.old) (S.faults source.new) }
    ensures sink { result.0 ≡ statuses.SinkFault → Rose (K.faults sink.old) (K.faults sink.new) }
    ensures log { result.0 ≡ statuses.LogFault → Rose (L.faults devices.log) (L.faults result.1.log) }
    ensures vault { result.0 ≡ statuses.VaultFault → Rose (V.faults devices.vault) (V.faults result.1.vault) }
    ensures later { L.faults devices.log ≤ L.faults result.1.log }
    ensures shows { Shows L.Disk result.1.log result.0 }
{
    let call = match call_of(alloc, words) {
        Ok(call) => call,
        Err(refusal) => match refusal {
            Refusal::Memory => return (Status::Memory, devices),
            Refusal::Usage => return (Status::Usage, devices),
        },
    };
    match call.mode {
        Mode::Run => {}
        Mode::Generate(_) => return (Status::NoGenerator, devices),
    }
    let mut input = match Input::new(alloc) {
        Ok(input) => input,
        Err(_) => return (Status::Memory, devices),
    };
    let Devices { log, pages, vault } = devices;
    let before = vault.faults();
    let (status, log, pages, vault) = run(
        rt,
        alloc,
        operators,
        &mut input,
        source,
        sink,
        Fuse::new(vault),
        Fuse::new(pages),
        Fuse::new(log),
    );
    let vault = vault.into_inner();
    let now = vault.faults();
    (
        blamed(status, before, now),
        Devices {
            log: log.into_inner(),
            pages: pages.into_inner(),
            vault,
        },
    )
}

/// A fault of the vault is told only where the vault has counted one in this call: so many it had counted before, and so many it
/// has now. One that it doesn't count would be want of memory.
fn blamed(status: Status, before: u64, now: u64) -> Status
    ensures { IsBlamed before now status result }
{
    match status {
        Status::VaultFault => {
            if before < now || now == u64::MAX {
                Status::VaultFault
            } else {
                Status::Memory
            }
        }
        other => other,
    }
}

/// Lines without a life, and the lives that some of them open.
fn run<S: Source, K: Sink, V: Vault, L: Disk, D: PageDevice, R: Wait>(
    rt: &R,
    alloc: Global,
    operators: &Operators,
    input: &mut Input,
    source: &mut S,
    sink: &mut K,
    vault: V,
    pages: D,
    disk: L,
) -> (Status, L, D, V)
    requires { (input.old.lines ≡ 0) × (input.old.taken ≡ 0) × IsBounded input.old }
    ensures headline { (v : View L.tells) (start : Start) → Stored (IsWhole v) (stores D.PageDevice V.Vault) (pages, vault) (Out L.tells (seen L.Disk v) disk) (begin_stage start)
        → Headline (IsWhole v) start (HandsBack L.tells (seen L.Disk v) (stores D.PageDevice V.Vault) result.1 (result.2, result.3))
        (to_come input.old (S.left source.old)) input.new.pending (S.left source.new) (K.told sink.old) (K.told sink.new) result.0 }
    ensures later { (S.faults source.old ≤ S.faults source.new) × (K.faults sink.old ≤ K.faults sink.new) × (L.own disk ≤ L.own result.1) }
    ensures cause { RunCause (S.faults source.old) (S.faults source.new) (K.faults sink.old) (K.faults sink.new) (L.own disk) (L.own result.1) result.0 }
    ensures shows { Shows L.Disk result.1 result.0 }
    ensures called { (result.0 ≢ statuses.Usage) × (result.0 ≢ statuses.NoGenerator) }
{
    let (mut disk, mut pages, mut vault, mut armed) = (disk, pages, vault, false);
    for _ in 0..u64::MAX {
        match turn_outside(
            alloc, input, source, sink, &mut vault, &mut armed, &mut pages, disk,
        ) {
            Turned::Goes { at } => match run_from(
                rt, alloc, operators, input, source, sink, vault, &mut armed, pages, at,
            ) {
                Lived::Over {
                    disk: left,
                    pages: images,
                    vault: objects,
                } => (disk, pages, vault) = (left, images, objects),
                Lived::Ends {
                    status,
                    disk,
                    pages,
                    vault,
                } => return (status, disk, pages, vault),
            },
            Turned::Ends { status, disk } => return (status, disk, pages, vault),
        }
    }
    (Status::Memory, disk, pages, vault)
}
