//! The lines of objects.
use inspection::{Halt, inspect_object};
use media::Vault;
use media_mem::{MemSink, MemVault};
use std::test::Fail;
use store_model::{ObjectKind, ObjectName};

const RUN: ObjectName = ObjectName {
    kind: ObjectKind::Run,
    id: 3,
    part: 0,
};

const BACKUP: ObjectName = ObjectName {
    kind: ObjectKind::Backup,
    id: 4,
    part: 2,
};

#[test]
fn an_object_has_a_line_with_its_length(rt: HostRuntime) -> Result<(), Fail> {
    let alloc = rt.alloc();
    let mut vault = MemVault::new(alloc);
    let long = Vec::from_elem(alloc, 7u8, 5000)?;
    vault.put(RUN, &long)?;
    vault.put(BACKUP, b"abc")?;
    let mut sink = MemSink::new(alloc);
    assert_eq!(rt; inspect_object(alloc, &mut vault, RUN, &mut sink), Ok(()));
    assert_eq!(rt;
        inspect_object(alloc, &mut vault, BACKUP, &mut sink),
        Ok(())
    );
    assert!(rt;
        sink.bytes() == b"object run=3 bytes=5000\nobject backup=4 segment=2 bytes=3\n".as_slice()
    );
    Ok(())
}

#[test]
fn a_vault_that_fails_is_no_fault_of_an_object(rt: HostRuntime) -> Result<(), Fail> {
    let alloc = rt.alloc();
    let mut vault = MemVault::failing(alloc, vec![in alloc; 2]?);
    vault.put(RUN, b"abc")?;
    let outcome = inspect_object(alloc, &mut vault, RUN, &mut MemSink::new(alloc));
    assert_eq!(rt; outcome, Err(Halt::Device));
    Ok(())
}
