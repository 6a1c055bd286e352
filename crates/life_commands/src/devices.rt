//! Faults of the devices, as the script asks for them.
ghost use Rattle.std.specs.Prelude.{◌≡◌, ◌≢◌, ◌≤◌, ◌⊎◌, ◌++◌, ℕ, None, Some, IfErr, IfOk, OnOk, codes};
ghost use Rattle.std.specs.Fmt.{decimal};
ghost use Rattle.journal.specs.State.{ArmsDisk};
ghost use Rattle.media.specs.Cause.{Rose};
ghost use Rattle.media.specs.Counted.{Armed};
ghost use Rattle.script.specs.declared.command.Command.TheVariants as commands;
ghost use Rattle.script.specs.declared.command.Device.TheVariants as devices;
ghost use Rattle.life_commands.specs.Causes.{LifeCause};
ghost use Rattle.life_commands.specs.Promises.{Did, Refused};
ghost use Rattle.life_commands.specs.declared.status.Status.TheVariants as statuses;
ghost use Rattle.store_pages.specs.Pages.{IsIdle};

use crate::status::Status;
use media::{Disk, PageDevice, Vault};
use own_life::OwnLife;
use page_ops::Life;
use script::Device;
use std::alloc::Global;
use store_model::PageNo;
use store_pages::StorePages;

/// Reads of the page from the data device fail verification until its next write. That the device fails to be spoiled is told
/// nowhere.
pub fn damage<'a, N: Life, D: PageDevice, V: Vault>(
    alloc: Global,
    pages: &mut StorePages<'a, D, V, N>,
    page: PageNo,
) -> Result<Vec<u8>, Status>
    requires idle { IsIdle pages.old.pool.out pages.old.pool.reserves }
    ensures idle { IsIdle pages.new.pool.out pages.new.pool.reserves }
    ensures line { IfOk result (λ out. out.items ≡ codes "damage " ++ decimal page ++ codes "\n") }
    ensures memory { IfErr result (λ status. status ≡ statuses.Memory) }
    ensures damaged { OnOk result (D.tells → D.spoiled pages.new.pool.images page ⊎ Rose (D.faults pages.old.pool.images) (D.faults pages.new.pool.images)) }
{
    let out = transcript::damage_line(alloc, page)?;
    pages.damage(page);
    Ok(out)
}

/// Arms a device's fuse, which lets so many more calls pass.
pub fn fuse<'a, N: Life, L: Disk, D: PageDevice, V: Vault>(
    alloc: Global,
    life: &mut OwnLife<'a, L, N>,
    pages: &mut StorePages<'a, D, V, N>,
    device: Device,
    calls: u64,
) -> Result<Vec<u8>, Status>
    requires idle { IsIdle pages.old.pool.out pages.old.pool.reserves }
    ensures idle { IsIdle pages.new.pool.out pages.new.pool.reserves }
    ensures ok { IfOk result (λ lines. Did L.Disk N.opens life.old life.new (commands.Fuse device calls) lines.items) }
    ensures err { IfErr result (λ status. (line : ℕ) → Refused L.Disk N.opens life.old life.new (commands.Fuse device calls) line status) }
    ensures data { OnOk result (device ≡ devices.Data → Armed D.fuses D.passes D.refused D.own (Some calls) pages.old.pool.images pages.new.pool.images) }
    ensures vault { OnOk result (device ≡ devices.Vault → Armed V.fuses V.passes V.refused V.own (Some calls) pages.old.pool.supply.bases.objects.vault pages.new.pool.supply.bases.objects.vault) }
    ensures cause { IfErr result (LifeCause life.old.calls.own life.new.calls.own) }
    ensures later { life.old.calls.own ≤ life.new.calls.own }
{
    let out = transcript::fuse_line(alloc, device, calls)?;
    arm(life, pages, device, Some(calls));
    Ok(out)
}

/// Renews a device's fuse.
pub fn renew<'a, N: Life, L: Disk, D: PageDevice, V: Vault>(
    alloc: Global,
    life: &mut OwnLife<'a, L, N>,
    pages: &mut StorePages<'a, D, V, N>,
    device: Device,
) -> Result<Vec<u8>, Status>
    requires idle { IsIdle pages.old.pool.out pages.old.pool.reserves }
    ensures idle { IsIdle pages.new.pool.out pages.new.pool.reserves }
    ensures ok { IfOk result (λ lines. Did L.Disk N.opens life.old life.new (commands.Renew device) lines.items) }
    ensures err { IfErr result (λ status. (line : ℕ) → Refused L.Disk N.opens life.old life.new (commands.Renew device) line status) }
    ensures data { OnOk result (device ≡ devices.Data → Armed D.fuses D.passes D.refused D.own None pages.old.pool.images pages.new.pool.images) }
    ensures vault { OnOk result (device ≡ devices.Vault → Armed V.fuses V.passes V.refused V.own None pages.old.pool.supply.bases.objects.vault pages.new.pool.supply.bases.objects.vault) }
    ensures cause { IfErr result (LifeCause life.old.calls.own life.new.calls.own) }
    ensures later { life.old.calls.own ≤ life.new.calls.own }
{
    let out = transcript::renew_line(alloc, device)?;
    arm(life, pages, device, None);
    Ok(out)
}

/// Arms a device's fuse, or renews it.
fn arm<'a, N: Life, L: Disk, D: PageDevice, V: Vault>(
    life: &mut OwnLife<'a, L, N>,
    pages: &mut StorePages<'a, D, V, N>,
    device: Device,
    n: Option<u64>,
)
    requires idle { IsIdle pages.old.pool.out pages.old.pool.reserves }
    ensures idle { IsIdle pages.new.pool.out pages.new.pool.reserves }
    ensures same { (life.new.history ≡ life.old.history) × (life.new.active ≡ life.old.active) × (life.new.ended ≡ life.old.ended) }
    ensures own { life.new.calls.own ≡ life.old.calls.own }
    ensures log { device ≡ devices.Log → ArmsDisk L.fuses n life.old.calls life.new.calls }
    ensures other { device ≢ devices.Log → life.new.calls ≡ life.old.calls }
    ensures data { device ≡ devices.Data → Armed D.fuses D.passes D.refused D.own n pages.old.pool.images pages.new.pool.images }
    ensures vault { device ≡ devices.Vault → Armed V.fuses V.passes V.refused V.own n pages.old.pool.supply.bases.objects.vault pages.new.pool.supply.bases.objects.vault }
{
    match device {
        Device::Log => life.fuse(n),
        Device::Data => pages.fuse(n),
        Device::Vault => pages.fuse_vault(n),
    }
}
