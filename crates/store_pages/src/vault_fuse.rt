//! The fuse of a life's vault.
ghost use Rattle.std.specs.Prelude.{◌≡◌, ◌-◌, ◌^◌, min};
ghost use Rattle.media.specs.Counted.{Armed};
ghost use Rattle.store_pages.specs.Pages.{IsIdle};

use crate::store_pages::StorePages;
use media::{PageDevice, Vault};
use page_ops::Life;

impl<'a, D: PageDevice, V: Vault, N: Life> StorePages<'a, D, V, N> {
    /// Arms the vault's fuse, which lets n more calls pass, or renews it.
    pub fn fuse_vault(&mut self, n: Option<u64>)
        requires idle { IsIdle self.old.pool.out self.old.pool.reserves }
        ensures idle { IsIdle self.new.pool.out self.new.pool.reserves }
        ensures fuse { Armed V.fuses V.passes V.refused V.own n self.old.pool.supply.bases.objects.vault self.new.pool.supply.bases.objects.vault }
        ensures faults { (V.faults self.new.pool.supply.bases.objects.vault ≡ V.faults self.old.pool.supply.bases.objects.vault) × (self.new.pool.supply.bases.faults ≡ self.old.pool.supply.bases.faults) }
        ensures draft { self.new.pool.supply.bases.objects.draft ≡ self.old.pool.supply.bases.objects.draft }
        ensures others { (self.new.pool.frames ≡ self.old.pool.frames) × (self.new.pool.plan ≡ self.old.pool.plan) × (self.new.pool.images ≡ self.old.pool.images) }
    {
        self.pool.supply.bases.objects.fuse(n);
    }

    /// How many calls the vault's fuse has refused.
    pub fn vault_refused(&self) -> u64
        ensures { result ≡ min (V.refused self.now.pool.supply.bases.objects.vault) (2 ^ 64 - 1) }
    {
        self.pool.supply.bases.objects.refused()
    }
}
