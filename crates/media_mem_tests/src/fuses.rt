//! Which calls a fuse counts.

use crate::pages::image;
use crate::vaults::{object, read};
use media::{Disk, Failed, Fuse, PageDevice, Vault};
use media_mem::{MemDisk, MemPages, MemVault};
use std::alloc::Global;
use std::test::Fail;

/// Makes each call of a disk once.
fn use_disk(disk: &mut Fuse<MemDisk>) -> Result<(), Failed> {
    let mut buf = [0u8; 4];
    let end = disk.len();
    if end > 1000 {
        return Err(Failed);
    }
    disk.write_at(end, b"ab")?;
    disk.sync()?;
    disk.power_cycle(0);
    let start = disk.start();
    disk.read_at(start, &mut buf)?;
    let upto = disk.len();
    disk.discard(upto)
}

#[test]
fn a_fuse_counts_the_calls_of_a_disk(rt: HostRuntime) -> Result<(), Fail> {
    let mut disk = Fuse::new(MemDisk::new(rt.alloc()));
    for passes in 0..5u64 {
        disk.arm(passes);
        assert_eq!(rt;
            use_disk(&mut disk).is_ok(),
            passes == 4,
            "{passes} calls pass"
        );
    }
    assert_eq!(rt; disk.blown(), true);
    assert_eq!(rt;
        (disk.refused(), disk.faults(), disk.inner().faults()),
        (4, 4, 0)
    );
    disk.renew();
    assert_eq!(rt; disk.blown(), false);
    assert_eq!(rt; use_disk(&mut disk).is_ok(), true);
    Ok(())
}

/// Makes each call of a data device once.
fn use_pages(pages: &mut Fuse<MemPages>) -> Result<(), Failed> {
    let mut out = [0u8; 4096];
    pages.spoil(1)?;
    pages.write(1, &image(1))?;
    pages.read(1, &mut out)?;
    pages.replace()?;
    pages.spoil(1)
}

#[test]
fn a_fuse_counts_the_calls_of_a_data_device(rt: HostRuntime) -> Result<(), Fail> {
    let mut pages = Fuse::new(MemPages::new(rt.alloc()));
    for passes in 0..4u64 {
        pages.arm(passes);
        assert_eq!(rt;
            use_pages(&mut pages).is_ok(),
            passes == 3,
            "{passes} calls pass"
        );
    }
    assert_eq!(rt; (pages.blown(), pages.refused()), (true, 3));
    Ok(())
}

/// Makes each call of a vault once.
fn use_vault(vault: &mut Fuse<MemVault>) -> Result<(), Failed> {
    vault.put(object(1), b"first")?;
    vault.sync()?;
    read(vault, 1, 0)?;
    vault.power_cycle();
    Ok(())
}

#[test]
fn a_fuse_counts_the_calls_of_a_vault(rt: HostRuntime) -> Result<(), Fail> {
    let mut vault = Fuse::new(MemVault::new(rt.alloc()));
    for passes in 0..4u64 {
        vault.arm(passes);
        assert_eq!(rt;
            use_vault(&mut vault).is_ok(),
            passes == 3,
            "{passes} calls pass"
        );
    }
    assert_eq!(rt; (vault.blown(), vault.refused()), (true, 3));
    assert_eq!(rt; read(&mut vault.into_inner(), 1, 0)?, 4);
    Ok(())
}
