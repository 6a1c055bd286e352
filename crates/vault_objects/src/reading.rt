//! An object is read.
ghost use Rattle.std.specs.Prelude.{◌≡◌, ◌≤◌, ◌<◌, ◌-◌, ◌^◌, ℕ, min, length, take, drop, IfOk, IfErr, IsErrAnd};
ghost use Rattle.media.specs.Counted.{Blames};
ghost use Rattle.media.specs.Objects.{SameObjects, bytes_of};
ghost use Rattle.vault_objects.specs.Causes.{FailsAtVault, IsFailed, IsVaultFault, NoneBad};

use media::Vault;
use std::alloc::Global;
use store_model::{Fault, ObjectName};

/// How many bytes of an object are read at a time.
pub const CHUNK: usize = 65_536;

/// How many of these are read at most.
pub const MOST_CHUNKS: u32 = 2_048;

/// Moves the object's bytes from an offset on into `buf`, fewer than asked only at their end. An absent object has none.
pub fn read_piece<V: Vault>(
    vault: &mut V,
    name: ObjectName,
    from: u64,
    buf: &mut [u8],
) -> Result<usize, Fault>
    ensures within { IfOk result (λ n. n ≤ length buf.new) }
    ensures size { length buf.new ≡ length buf.old }
    ensures count { V.tells → IfOk result (λ n. n ≡ min (length buf.old) (length (bytes_of (V.told vault.old name)) - from)) }
    ensures piece { V.tells → IfOk result (λ n. take n buf.new ≡ take (length buf.old) (drop from (bytes_of (V.told vault.old name)))) }
    ensures same { V.tells → SameObjects (V.told vault.old) (V.told vault.new) }
    ensures refused { IfErr result (IsFailed (V.faults vault.old) (V.faults vault.new)) }
    ensures later { V.faults vault.old ≤ V.faults vault.new }
    ensures fuse { Blames V.passes V.refused V.own vault.old vault.new (IsErrAnd result IsVaultFault) }
{
    match vault.get(name, from, buf) {
        Ok(count) => Ok(count),
        Err(_) => Err(Fault::VaultFault),
    }
}

/// The object's bytes from an offset on, at most so many, fewer only at their end. It is one call of the vault.
pub fn read_bytes<V: Vault>(
    alloc: Global,
    vault: &mut V,
    name: ObjectName,
    from: u64,
    most: usize,
) -> Result<Vec<u8>, Fault>
    ensures within { IfOk result (λ v. length v.items ≤ most) }
    ensures bytes { V.tells → IfOk result (λ v. v.items ≡ take most (drop from (bytes_of (V.told vault.old name)))) }
    ensures same { V.tells → SameObjects (V.told vault.old) (V.told vault.new) }
    ensures refused { IfErr result (FailsAtVault NoneBad (V.faults vault.old) (V.faults vault.new)) }
    ensures later { V.faults vault.old ≤ V.faults vault.new }
    ensures fuse { Blames V.passes V.refused V.own vault.old vault.new (IsErrAnd result IsVaultFault) }
{
    let mut bytes = vec![in alloc; 0u8; most]?;
    let count = read_piece(vault, name, from, bytes.as_mut_slice())?;
    bytes.truncate(count);
    Ok(bytes)
}

/// All of the object's bytes. One above 128 MiB, longer than any run, wants memory.
pub fn read_object<V: Vault>(
    alloc: Global,
    vault: &mut V,
    name: ObjectName,
) -> Result<Vec<u8>, Fault>
    ensures bytes { V.tells → IfOk result (λ v. v.items ≡ bytes_of (V.told vault.old name)) }
    ensures short { IfOk result (λ v. length v.items < 2 ^ 28) }
    ensures same { V.tells → SameObjects (V.told vault.old) (V.told vault.new) }
    ensures refused { IfErr result (FailsAtVault NoneBad (V.faults vault.old) (V.faults vault.new)) }
    ensures later { V.faults vault.old ≤ V.faults vault.new }
    ensures fuse { Blames V.passes V.refused V.own vault.old vault.new (IsErrAnd result IsVaultFault) }
{
    let mut bytes = Vec::new(alloc);
    for _ in 0..MOST_CHUNKS {
        let chunk = read_bytes(alloc, vault, name, bytes.len() as u64, CHUNK)?;
        bytes.extend_from_slice(&chunk)?;
        if chunk.len() < CHUNK {
            return Ok(bytes);
        }
    }
    Err(Fault::Memory)
}
