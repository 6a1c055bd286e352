//! What a power cycle leaves of a disk.

use media::{Disk, Failed};
use media_mem::MemDisk;
use std::alloc::Global;
use std::test::Fail;

/// A disk whose kept bytes are abcd, with six bytes written since.
fn written(alloc: Global) -> Result<MemDisk, Fail> {
    let mut disk = MemDisk::with_bytes(alloc, b"abcd")?;
    write(&mut disk, 2, b"CDE")?;
    write(&mut disk, 5, b"Y")?;
    write(&mut disk, 4, b"X")?;
    write(&mut disk, 6, b"Z")?;
    Ok(disk)
}

/// Writes where the disk has bytes, or ends.
fn write(disk: &mut MemDisk, at: u64, bytes: &[u8]) -> Result<(), Failed> {
    if disk.start() > at || at > disk.len() || at > 1000 || bytes.len() > 1000 {
        return Err(Failed);
    }
    disk.write_at(at, bytes)
}

#[test]
fn a_power_cycle_keeps_the_first_bytes_written(rt: HostRuntime) -> Result<(), Fail> {
    let alloc = rt.alloc();
    // How many of the bytes written since the sync are kept, and what the disk has then.
    let cases = [
        (0, b"ab\xff\xff\xff\xff\xff"),
        (1, b"abC\xff\xff\xff\xff"),
        (4, b"abCD\xffY\xff"),
        (6, b"abCDXYZ"),
        (9, b"abCDXYZ"),
    ];
    for (keep, left) in cases {
        let mut disk = written(alloc)?;
        disk.power_cycle(keep);
        assert_eq!(rt; disk.bytes(), left.as_slice(), "{keep} bytes kept");
        disk.power_cycle(0);
        assert_eq!(rt;
            disk.bytes(),
            left.as_slice(),
            "{keep} bytes kept, then none written"
        );
    }
    Ok(())
}
