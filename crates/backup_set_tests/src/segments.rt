//! A backup of page 1, an empty leaf with the LSN 1.

ghost use Rattle.std.specs.Prelude.{IsTrue};
ghost use Rattle.wal_record.specs.Rules.{is_page};

use backup_set::{read_page, write_segment};
use media::{Fuse, PageBytes, Vault};
use media_mem::MemVault;
use page_image::open_page;
use std::alloc::{AllocError, Global};
use std::test::Fail;
use store_model::{Fault, ObjectKind, ObjectName};

/// The letters, the backup 7, the segment 0, one image.
const HEAD: &[u8] = b"BAK1\0\0\0\0\0\0\0\x07\0\0\0\0\0\0\0\x01";

const DIGEST: &[u8] =
    b"\x87\xe1\x9fT\xeb\x15i\xe1\x19\xeb\xd7Cj4\xdaH\x99/-6\xd5\x16\xda\xe1<\x1c\xf9^\x93\xc4^\x82";

const FRONT: &[u8] = b"\x01\0\0\0\x01\0\0\0\0\0\0\0\x01\0\0\0\0\0\0";

/// What a read answers.
#[derive(Clone, Copy, Debug, PartialEq, Eq)]
enum Answer {
    Found,
    BadAt(u64),
    VaultFault,
    Other,
}

fn name() -> ObjectName {
    ObjectName {
        kind: ObjectKind::Backup,
        id: 7,
        part: 0,
    }
}

/// Lays bytes over the first ones of others.
fn lay(over: &mut [u8], bytes: &[u8]) {
    for (byte, with) in over.iter_mut().zip(bytes) {
        *byte = *with;
    }
}

fn image() -> PageBytes {
    let mut bytes = [0u8; 4096];
    let (first, rest) = bytes.split_at_mut(32);
    lay(first, DIGEST);
    lay(rest, FRONT);
    bytes
}

fn object(alloc: Global) -> Result<Vec<u8>, AllocError> {
    let mut bytes = Vec::new(alloc);
    bytes.extend_from_slice(HEAD)?;
    bytes.extend_from_slice(&image())?;
    Ok(bytes)
}

/// What a read of page 1 of the backup 7 answers.
fn read<V: Vault>(alloc: Global, vault: &mut V, page: u32) -> Answer
    requires { IsTrue (is_page page) }
{
    match read_page(alloc, vault, 7, page) {
        Ok(sealed) => if sealed.lsn == 1 {
            Answer::Found
        } else {
            Answer::Other
        },
        Err(Fault::VaultBad { object, byte }) => if object == name() {
            Answer::BadAt(byte)
        } else {
            Answer::Other
        },
        Err(Fault::VaultFault) => Answer::VaultFault,
        Err(_) => Answer::Other,
    }
}

/// What a read answers where the object has these bytes.
fn answer_of(alloc: Global, bytes: &[u8]) -> Answer {
    let mut vault = MemVault::new(alloc);
    match vault.put(name(), bytes) {
        Ok(()) => read(alloc, &mut vault, 1),
        Err(_) => Answer::Other,
    }
}

/// Where the field begins that has this byte: the image is judged from its digest on.
fn field_at(byte: usize) -> u64 {
    match byte {
        0..=3 => 0,
        4..=11 => 4,
        12..=15 => 12,
        16..=19 => 16,
        _ => 20,
    }
}

#[test]
fn a_cut_object_is_named_at_the_field_that_is_cut(rt: HostRuntime) -> Result<(), Fail> {
    let bytes = object(rt.alloc())?;
    for len in 0..bytes.len() {
        let (front, _) = bytes.as_slice().split_at(len);
        assert_eq!(rt;
            answer_of(rt.alloc(), front),
            Answer::BadAt(field_at(len)),
            "{len}"
        );
    }
    assert_eq!(rt; answer_of(rt.alloc(), &bytes), Answer::Found);
    Ok(())
}

/// What a read answers where this byte is one more. A count of 2 says nothing of the first image.
fn changed(alloc: Global, bytes: &[u8], at: usize) -> Result<Answer, AllocError> {
    let mut other = bytes.to_vec(alloc)?;
    if let Some(byte) = other.get_mut(at) {
        *byte = byte.wrapping_add(1);
    }
    Ok(answer_of(alloc, &other))
}

#[test]
fn a_changed_byte_is_named_at_its_field(rt: HostRuntime) -> Result<(), Fail> {
    let bytes = object(rt.alloc())?;
    for at in 0..bytes.len() {
        let wanted = if at == 19 {
            Answer::Found
        } else {
            Answer::BadAt(field_at(at))
        };
        assert_eq!(rt; changed(rt.alloc(), &bytes, at)?, wanted, "{at}");
    }
    Ok(())
}

#[test]
fn a_page_that_is_not_there_is_named_at_the_count(rt: HostRuntime) -> Result<(), Fail> {
    let mut vault = MemVault::new(rt.alloc());
    assert_eq!(rt; read(rt.alloc(), &mut vault, 2), Answer::BadAt(0));
    vault.put(name(), &object(rt.alloc())?)?;
    assert_eq!(rt; read(rt.alloc(), &mut vault, 2), Answer::BadAt(16));
    Ok(())
}

/// Writes the backup 7 of segment 0, if this is an image of page 1. Whether that went well.
fn write_one<V: Vault>(alloc: Global, vault: &mut V, image: PageBytes) -> bool {
    match open_page(alloc, &image, 1) {
        Ok(_) => write_segment(alloc, vault, 7, 0, &[image]).is_ok(),
        Err(_) => false,
    }
}

#[test]
fn what_is_written_is_read_after_a_power_cycle(rt: HostRuntime) -> Result<(), Fail> {
    let mut vault = MemVault::new(rt.alloc());
    assert!(rt; write_one(rt.alloc(), &mut vault, image()));
    vault.power_cycle();
    assert_eq!(rt; read(rt.alloc(), &mut vault, 1), Answer::Found);
    Ok(())
}

#[test]
fn a_backup_is_two_calls_and_a_page_two(rt: HostRuntime) -> Result<(), Fail> {
    for calls in 0..3 {
        let mut vault = Fuse::new(MemVault::new(rt.alloc()));
        vault.arm(calls);
        assert_eq!(rt;
            write_one(rt.alloc(), &mut vault, image()),
            calls == 2,
            "{calls}"
        );
        vault.renew();
        assert!(rt; write_one(rt.alloc(), &mut vault, image()), "again");
        vault.arm(calls);
        let wanted = if calls == 2 {
            Answer::Found
        } else {
            Answer::VaultFault
        };
        assert_eq!(rt; read(rt.alloc(), &mut vault, 1), wanted, "{calls}");
    }
    Ok(())
}
