//! Which objects a power cycle leaves.

use media::{Failed, Vault};
use media_mem::MemVault;
use std::test::Fail;
use store_model::{ObjectKind, ObjectName};

pub fn object(id: u64) -> ObjectName {
    ObjectName {
        kind: ObjectKind::Run,
        id,
        part: 0,
    }
}

/// How many bytes of the object, from an offset on, a buffer of four bytes takes.
pub fn read<V: Vault>(vault: &mut V, id: u64, from: u64) -> Result<usize, Failed> {
    let mut buf = [0u8; 4];
    vault.get(object(id), from, &mut buf)
}

#[test]
fn unsynced_objects_are_absent_after_a_power_cycle(rt: HostRuntime) -> Result<(), Fail> {
    let mut vault = MemVault::new(rt.alloc());
    vault.put(object(1), b"first")?;
    vault.sync()?;
    vault.put(object(2), b"second")?;
    assert_eq!(rt; (read(&mut vault, 2, 3)?, read(&mut vault, 3, 0)?), (3, 0));
    vault.power_cycle();
    assert_eq!(rt; (read(&mut vault, 1, 0)?, read(&mut vault, 2, 0)?), (4, 0));
    vault.put(object(1), b"other")?;
    vault.power_cycle();
    assert_eq!(rt; read(&mut vault, 1, 0)?, 0);
    Ok(())
}
