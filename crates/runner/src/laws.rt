//! What one call leaves, the next one may be handed.
ghost use Rattle.std.specs.Prelude.{ℕ, List, Option};
ghost use Rattle.log_manager.specs.Devices.{DevicesStandFor};
ghost use Rattle.wal_record.specs.declared.record.Record.{Record};
ghost use Rattle.runner.specs.Clause.{HandsBack, Headline};
ghost use Rattle.life_commands.specs.LogDisk.{Keeps};
ghost use Rattle.life_commands.specs.Stores.{AreOf, stores};
ghost use Rattle.runner.specs.NextCall.{HandsOn};
ghost use Rattle.life_commands.specs.Turns.{Found, Start, stage};
ghost use Rattle.life_commands.specs.declared.status.Status.{Status};

use media::{Disk, PageDevice, Vault};

/// Devices that stand for a log may be handed to a call as ones on which it was found.
pub fn standing_law<L: Disk, D: PageDevice, V: Vault>()
    ensures { (disk : L) (device : D) (vault : V) (log : List Record) → DevicesStandFor L.told L.may_leave disk log → (stores D.PageDevice V.Vault).are_of (device, vault) log
        → Keeps L.Disk (Found log) disk × AreOf ((stores D.PageDevice V.Vault).are_of (device, vault)) (Found log) }
{}

/// The devices that a call hands back, whatever its status, hold a log that may be found behind the turns of that call, images of
/// it, and the objects that it names, and may be handed to the next call as such. Whatever that call's first opening finds,
/// before a stop or behind one, has each commit that the first call has acknowledged in the life that was open at its end.
pub fn next_call_law<L: Disk, D: PageDevice, V: Vault>()
    ensures { (start : Start) (disk : L) (device : D) (vault : V) (left0 : Option (List ℕ)) (pending : List ℕ) (left told0 told : Option (List ℕ)) (status : Status)
        → (call : Headline L.tells start (HandsBack L.tells L.Disk (stores D.PageDevice V.Vault) disk (device, vault)) left0 pending left told0 told status)
        → L.tells → HandsOn L.Disk (stores D.PageDevice V.Vault) (stage start call.turns) disk (device, vault) }
{}
