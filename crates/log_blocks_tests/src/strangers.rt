//! Openings of disks that no flush has left.

use crate::fixture::TWO_BLOCKS;
use log_blocks::{OpenRefused, open_log};
use media_mem::MemDisk;
use std::alloc::Global;
use std::test::Fail;
use store_model::Fault;

/// The block and the byte within it that an opening names, if it names any.
type Named = Option<(u64, u64)>;

/// What an opening names on a disk with these bytes.
fn named(alloc: Global, bytes: &[u8]) -> Result<Named, Fail> {
    match open_log(alloc, MemDisk::with_bytes(alloc, bytes)?) {
        Ok(_log) => Ok(None),
        Err(OpenRefused { disk: _disk, fault }) => match fault {
            Fault::LogBad { block, byte } => Ok(Some((block, byte))),
            _ => Err(Fail::new("the disk failed")),
        },
    }
}

/// The disks of strangers. Payloads aren't judged here.
const STRANGERS: [(&str, Named); 12] = [
    ("a5", None),
    ("a5a5", Some((0, 1))),
    (
        "a50000000000000001000000000000000000000000000101",
        Some((0, 17)),
    ),
    (
        "a500000000000000010000000000000000000100000000",
        Some((0, 19)),
    ),
    (
        "a500000000000000010000000000000000000100000001",
        Some((0, 23)),
    ),
    ("a5000000000000000100000000000000000001000000011100", None),
    (
        "a500000000000000010000000000000000000100000005010000000700",
        None,
    ),
    (
        "a500000000000000000000000000000000000000000000000000000000",
        Some((0, 1)),
    ),
    // A cut Commit behind the one record that is counted.
    (
        "a5000000000000000100000000000000000001000000070100004000050000",
        None,
    ),
    // A byte behind it.
    (
        "a50000000000000001000000000000000000010000000601000040000000",
        None,
    ),
    // A record that is cut.
    (
        "a5000000000000000100000000000000000001000000040100004000",
        None,
    ),
    // The header names the first record, which is no Checkpoint.
    (
        "a500000000000000010000000000000001000100000005010000400000",
        None,
    ),
];

#[test]
fn disks_of_strangers_are_named(rt: HostRuntime) -> Result<(), Fail> {
    let alloc = rt.alloc();
    for (text, want) in STRANGERS {
        let bytes = hex::decode(alloc, text)?;
        assert_eq!(rt; named(alloc, &bytes)?, want, "{text}");
    }
    Ok(())
}

/// How many bytes of two blocks are there.
const CUTS: [(usize, Named); 16] = [
    (0, None),
    (1, None),
    (2, Some((0, 1))),
    (8, Some((0, 1))),
    (9, Some((0, 9))),
    (16, Some((0, 9))),
    (17, Some((0, 17))),
    (18, Some((0, 17))),
    (19, Some((0, 19))),
    (22, Some((0, 19))),
    (23, Some((0, 23))),
    (27, Some((0, 23))),
    (28, Some((0, 28))),
    (29, Some((1, 1))),
    (108, Some((1, 80))),
    (109, None),
];

#[test]
fn a_cut_log_is_named_at_the_field_that_is_cut(rt: HostRuntime) -> Result<(), Fail> {
    let alloc = rt.alloc();
    for (size, want) in CUTS {
        let mut bytes = hex::decode(alloc, TWO_BLOCKS)?;
        bytes.truncate(size);
        assert_eq!(rt; named(alloc, &bytes)?, want, "{size} bytes");
    }
    Ok(())
}

/// A byte of two blocks that is another one. The second block begins at byte 28.
const CHANGES: [(usize, u8, Named); 16] = [
    (0, 0, None),
    (1, 0x80, Some((0, 1))),
    (8, 0, Some((0, 1))),
    (8, 2, Some((0, 1))),
    (9, 0x80, Some((0, 9))),
    (16, 2, Some((0, 9))),
    (18, 0, Some((0, 17))),
    (19, 1, Some((0, 19))),
    (22, 0, Some((0, 19))),
    (28, 0x5a, None),
    (36, 1, Some((1, 1))),
    (36, 3, Some((1, 1))),
    (44, 4, Some((1, 9))),
    (46, 0, Some((1, 17))),
    (50, 0x3a, Some((1, 81))),
    (108, 0xa5, Some((2, 1))),
];

#[test]
fn a_bad_log_is_named_at_its_first_bad_field(rt: HostRuntime) -> Result<(), Fail> {
    let alloc = rt.alloc();
    for (at, byte, want) in CHANGES {
        let mut bytes = hex::decode(alloc, TWO_BLOCKS)?;
        match bytes.get_mut(at) {
            Some(place) => *place = byte,
            None => return Err(Fail::new("no such byte")),
        }
        assert_eq!(rt; named(alloc, &bytes)?, want, "{byte} at {at}");
    }
    Ok(())
}
