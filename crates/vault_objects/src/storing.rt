//! An object is made.
ghost use Rattle.std.specs.Prelude.{◌≡◌, ◌≤◌, OnOk, IfErr, IsErrAnd};
ghost use Rattle.media.specs.Counted.{Blames};
ghost use Rattle.media.specs.Fused.{burnt};
ghost use Rattle.vault_objects.specs.Causes.{IsFailed, IsVaultFault};
ghost use Rattle.vault_objects.specs.Stored.{MayStore, Stores};

use media::Vault;
use store_model::{Fault, ObjectName};

/// Puts an object and syncs it. It takes no memory.
pub fn store_object<V: Vault>(vault: &mut V, name: ObjectName, bytes: &[u8]) -> Result<(), Fault>
    ensures stored { V.tells → OnOk result (Stores name bytes.now (V.told vault.old) (V.told vault.new)) }
    // Also after a refusal.
    ensures may_store { V.tells → MayStore name bytes.now (V.told vault.old) (V.told vault.new) }
    // One put and one sync.
    ensures calls { OnOk result (V.passes vault.new ≡ burnt (burnt (V.passes vault.old))) }
    ensures refused { IfErr result (IsFailed (V.faults vault.old) (V.faults vault.new)) }
    ensures later { V.faults vault.old ≤ V.faults vault.new }
    ensures fuse { Blames V.passes V.refused V.own vault.old vault.new (IsErrAnd result IsVaultFault) }
{
    if vault.put(name, bytes).is_err() {
        return Err(Fault::VaultFault);
    }
    if vault.sync().is_err() {
        return Err(Fault::VaultFault);
    }
    Ok(())
}
