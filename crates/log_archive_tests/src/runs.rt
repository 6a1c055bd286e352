//! The run of three records.
ghost use Rattle.std.specs.Prelude.{◌≤◌};

use crate::records::Three;
use crate::tables::{CHANGED, CUT, PARTS, Wanted};
use log_archive::{RUN_BYTES, Reads, RunItems, items_of, make_run, merge_runs, records_of};
use media::{Fuse, Vault};
use media_mem::MemVault;
use std::alloc::{AllocError, Global};
use std::sync::Wait;
use std::test::Fail;
use store_model::{Fault, Lsn, ObjectKind, ObjectName, PageNo};
use wal_record::Run;

/// What a read answers: how many records it found, the byte of a bad object, or a fault of the vault.
#[derive(Clone, Copy, Debug, PartialEq, Eq)]
enum Answer {
    Found(usize),
    BadAt(u64),
    VaultFault,
    Other,
}

fn name() -> ObjectName {
    ObjectName {
        kind: ObjectKind::Run,
        id: 5,
        part: 0,
    }
}

fn object(alloc: Global) -> Result<Vec<u8>, AllocError> {
    let mut bytes = Vec::new(alloc);
    for part in PARTS {
        bytes.extend_from_slice(part)?;
    }
    Ok(bytes)
}

/// What a read of this page from this LSN on answers.
fn read<V: Vault>(alloc: Global, vault: &mut V, page: PageNo, from: Lsn) -> Answer {
    let mut found = Vec::new(alloc);
    match records_of(alloc, vault, 5, page, from, &mut found) {
        Ok(()) => Answer::Found(found.len()),
        Err(Fault::VaultBad { object, byte }) => if object == name() && found.is_empty() {
            Answer::BadAt(byte)
        } else {
            Answer::Other
        },
        Err(Fault::VaultFault) => Answer::VaultFault,
        Err(_) => Answer::Other,
    }
}

/// What a read of page 1 answers where the object has these bytes.
fn answer_of(alloc: Global, bytes: &[u8]) -> Answer {
    let mut vault = MemVault::new(alloc);
    match vault.put(name(), bytes) {
        Ok(()) => read(alloc, &mut vault, 1, 1),
        Err(_) => Answer::Other,
    }
}

#[test]
fn a_run_has_the_bytes_of_its_records(rt: HostRuntime) -> Result<(), Fail> {
    let mut vault = MemVault::new(rt.alloc());
    let made = make_run(&rt, rt.alloc(), &mut Three, &mut vault, 5, 1, 3);
    assert!(rt; made.is_ok());
    vault.power_cycle();
    let mut buf = [0u8; 256];
    let count = vault.get(name(), 0, &mut buf)?;
    let (front, _) = buf.split_at(count.min(256));
    assert!(rt; front == object(rt.alloc())?.as_slice());
    assert_eq!(rt; items_of(rt.alloc(), &mut vault, 5).ok(), Some(151));
    Ok(())
}

#[test]
fn a_page_is_read_from_an_lsn_on(rt: HostRuntime) -> Result<(), Fail> {
    let mut vault = MemVault::new(rt.alloc());
    assert_eq!(rt; read(rt.alloc(), &mut vault, 1, 1), Answer::BadAt(0));
    vault.put(name(), &object(rt.alloc())?)?;
    let cases = [
        (1, 1, Answer::Found(3)),
        (1, 3, Answer::Found(1)),
        (2, 1, Answer::Found(1)),
        (1, 4, Answer::BadAt(28)),
        (3, 1, Answer::BadAt(28)),
    ];
    for (page, from, wanted) in cases {
        assert_eq!(rt;
            read(rt.alloc(), &mut vault, page, from),
            wanted,
            "{page} {from}"
        );
    }
    Ok(())
}

#[test]
fn a_cut_run_is_named_at_the_field_that_is_cut(rt: HostRuntime) -> Result<(), Fail> {
    let bytes = object(rt.alloc())?;
    let mut len = 0usize;
    for (count, byte) in CUT {
        for _ in 0..*count {
            let (front, _) = bytes.as_slice().split_at(len.min(bytes.len()));
            assert_eq!(rt; answer_of(rt.alloc(), front), Answer::BadAt(*byte), "{len}");
            len = len.saturating_add(1);
        }
    }
    assert_eq!(rt; len, bytes.len());
    assert_eq!(rt; answer_of(rt.alloc(), &bytes), Answer::Found(3));
    Ok(())
}

/// What a read answers where this byte is one more.
fn changed(alloc: Global, bytes: &[u8], at: usize) -> Result<Answer, AllocError> {
    let mut other = bytes.to_vec(alloc)?;
    if let Some(byte) = other.get_mut(at) {
        *byte = byte.wrapping_add(1);
    }
    Ok(answer_of(alloc, &other))
}

fn is_wanted(answer: Answer, wanted: Wanted) -> bool {
    match wanted {
        Wanted::Found => answer == Answer::Found(3),
        Wanted::BadAt(byte) => answer == Answer::BadAt(byte),
        Wanted::Any => true,
    }
}

#[test]
fn a_changed_byte_is_named_at_the_first_field_that_is_wrong(rt: HostRuntime) -> Result<(), Fail> {
    let bytes = object(rt.alloc())?;
    let mut at = 0usize;
    for (count, wanted) in CHANGED {
        for _ in 0..*count {
            assert!(rt;
                is_wanted(changed(rt.alloc(), &bytes, at)?, *wanted),
                "{at}"
            );
            at = at.saturating_add(1);
        }
    }
    assert_eq!(rt; at, bytes.len());
    Ok(())
}

#[test]
fn a_run_is_one_put_and_one_sync(rt: HostRuntime) -> Result<(), Fail> {
    for calls in 0..3 {
        let mut vault = Fuse::new(MemVault::new(rt.alloc()));
        vault.arm(calls);
        let made = make_run(&rt, rt.alloc(), &mut Three, &mut vault, 5, 1, 3);
        assert_eq!(rt; made.is_ok(), calls == 2, "{calls}");
        vault.renew();
        vault.put(name(), &object(rt.alloc())?)?;
        vault.arm(0);
        assert_eq!(rt; read(rt.alloc(), &mut vault, 1, 1), Answer::VaultFault);
    }
    Ok(())
}

/// Whether the record of this LSN is added, where the items then have at most so many bytes.
fn is_added<R: Wait>(
    rt: &R,
    alloc: Global,
    items: &mut RunItems,
    lsn: Lsn,
    most: usize,
) -> Result<bool, Fault> {
    let rec = Three.read(rt, alloc, lsn)?;
    Ok(items.add(alloc, lsn, &rec, most.min(RUN_BYTES))?)
}

/// The items have 17, 48 and twice 43 bytes. One byte less isn't enough, and the items stay as they were.
#[test]
fn a_record_is_added_up_to_the_last_byte_that_there_may_be(rt: HostRuntime) -> Result<(), Fail> {
    let mut items = RunItems::new(rt.alloc());
    for (lsn, less, enough) in [(1, 16, 17), (2, 64, 65), (3, 150, 151)] {
        assert!(rt; !is_added(&rt, rt.alloc(), &mut items, lsn, less)?, "{lsn}");
        assert!(rt;
            is_added(&rt, rt.alloc(), &mut items, lsn, enough)?,
            "{lsn}"
        );
    }
    let bytes = items.bytes(rt.alloc(), 5, 1, 3)?;
    assert!(rt; bytes.as_slice() == object(rt.alloc())?.as_slice());
    Ok(())
}

/// The run of this number and range.
fn run_of(run: u64, first: Lsn, last: Lsn) -> Run {
    Run { run, first, last }
}

#[test]
fn a_merge_of_neighbours_is_the_run_of_both(rt: HostRuntime) -> Result<(), Fail> {
    let mut vault = MemVault::new(rt.alloc());
    assert!(rt; make_run(&rt, rt.alloc(), &mut Three, &mut vault, 1, 1, 2).is_ok());
    assert!(rt; make_run(&rt, rt.alloc(), &mut Three, &mut vault, 2, 3, 3).is_ok());
    let parts = [run_of(1, 1, 2), run_of(2, 3, 3)];
    assert!(rt; merge_runs(rt.alloc(), &mut vault, &parts, 5).is_ok());
    vault.power_cycle();
    let mut buf = [0u8; 256];
    let count = vault.get(name(), 0, &mut buf)?;
    let (front, _) = buf.split_at(count.min(256));
    assert!(rt; front == object(rt.alloc())?.as_slice());
    Ok(())
}
