//! A stop of the machine.
ghost use Rattle.std.specs.Prelude.{◌≡◌, ◌≤◌, ℕ, None, IfOk, IfErr};
ghost use Rattle.media.specs.Crash.{Only};
ghost use Rattle.life_commands.specs.LogDisk.{View, IsWhole, seen};
ghost use Rattle.life_commands.specs.Turns.{Stage};
ghost use Rattle.life_commands.specs.Living.{Adds, Out, Safe};
ghost use Rattle.script.specs.declared.command.Command.TheVariants as commands;
ghost use Rattle.runner.specs.Vault.{IsCycled};

use media::{Disk, Vault};
use std::alloc::Global;

/// The machine stops, and the disk's fuse is renewed: the line that says so, and the disk. Without memory for the line the
/// disk comes back as it was.
pub fn stop<L: Disk>(alloc: Global, disk: L, keep: Option<u64>) -> Result<(Vec<u8>, L), L>
    ensures turns { IfOk result (λ r. (v : View L.tells) (s : Stage) (kept : ℕ) → Safe L.tells (seen L.Disk v) kept disk s → Adds (IsWhole v) (Out L.tells (seen L.Disk v) r.1) s (commands.Stop keep) r.0.items) }
    ensures later { IfOk result (λ r. L.own disk ≤ L.own r.1) }
    ensures memory { IfErr result (λ left. left ≡ disk) }
{
    match transcript::stop_line(alloc) {
        Ok(lines) => Ok((lines, cycled(disk, keep.unwrap_or(0)))),
        Err(_) => Err(disk),
    }
}

/// The disk after a stop of the machine, with its fuse renewed.
pub fn cycled<L: Disk>(disk: L, keep: u64) -> L
    ensures left { L.tells → L.may_leave disk (L.told result) }
    ensures durable { L.tells → Only (L.told result) (L.may_leave result) }
    ensures fuse { L.fuses → L.passes result ≡ None }
    ensures later { L.own disk ≤ L.own result }
{
    let mut disk = disk;
    disk.power_cycle(keep);
    disk.fuse(None);
    disk
}

/// The vault stops with the machine, and its fuse is renewed.
pub fn cycle_vault<V: Vault>(vault: &mut V)
    ensures { IsCycled V.Vault vault.old vault.new }
{
    vault.power_cycle();
    vault.fuse(None);
}
