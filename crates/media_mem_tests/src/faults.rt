//! Which calls fail.

use media::{Disk, Failed, Sink, Source};
use media_mem::{MemDisk, MemSink, MemSource, NeverFails};
use std::test::Fail;

/// Discards up to an offset where the disk has bytes.
fn discard(disk: &mut MemDisk, upto: u64) -> Result<(), Failed> {
    if disk.start() <= upto && upto <= disk.len() {
        disk.discard(upto)?;
    }
    Ok(())
}

#[test]
fn calls_of_a_disk_fail_where_its_list_says(rt: HostRuntime) -> Result<(), Fail> {
    let alloc = rt.alloc();
    let mut disk = MemDisk::failing(alloc, vec![in alloc; 2, 3]?);
    assert_eq!(rt; disk.write_at(0, b"a").is_ok(), true);
    assert_eq!(rt; disk.sync().is_ok(), false);
    assert_eq!(rt; discard(&mut disk, 1).is_ok(), false);
    assert_eq!(rt; disk.sync().is_ok(), true);
    assert_eq!(rt; (disk.faults(), disk.start()), (2, 0));
    Ok(())
}

#[test]
fn reads_and_writes_fail_where_the_list_says(rt: HostRuntime) -> Result<(), Fail> {
    let alloc = rt.alloc();
    let mut source = MemSource::failing(b"abc".to_vec(alloc)?, vec![in alloc; 1]?);
    let mut buf = [0u8; 2];
    assert_eq!(rt; source.read(&mut buf).is_ok(), false);
    assert_eq!(rt; (source.read(&mut buf)?, source.read(&mut buf)?), (2, 1));
    assert_eq!(rt; source.faults(), 1);
    let mut sink = MemSink::failing(alloc, vec![in alloc; 2]?);
    assert_eq!(rt; sink.write(b"ab").is_ok(), true);
    assert_eq!(rt; sink.write(b"cd").is_ok(), false);
    assert_eq!(rt; (sink.bytes(), sink.faults()), (b"ab".as_slice(), 1));
    Ok(())
}

#[test]
fn a_steady_disk_hides_a_fault(rt: HostRuntime) -> Result<(), Fail> {
    let alloc = rt.alloc();
    let mut disk = NeverFails::of_disk(MemDisk::failing(alloc, vec![in alloc; 1]?));
    assert_eq!(rt; (disk.start(), disk.len()), (0, 0));
    assert_eq!(rt; disk.write_at(0, b"ab").is_ok(), true);
    assert_eq!(rt; (disk.len(), disk.faults()), (2, 0));
    Ok(())
}
