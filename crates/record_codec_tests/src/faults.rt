//! Fields that break their rules. A row is the byte where the field begins, what is wrong, and the bytes.
use crate::row::{fault_at, row_of};
use record_codec::RecordFault;
use std::alloc::Global;
use std::test::Fail;

/// Kinds that don't exist, Format, and the records of transactions.
const TRANSACTIONS: &str = "\
0 kind 0: 00
0 kind 17: 11
0 kind 255: ff
1 limit 7: 01 00*3,07
1 limit 16385: 01 0000,4001
1 a write of transaction 0: 02 00*8 00*7,02 00*3,01 00*7,09
1 a write of transaction 2^63: 02 80,00*7 00*7,02 00*3,01 00*7,09
9 a write after LSN 2^63: 02 00*7,03 80,00*7 00*3,01 00*7,09
17 a write on page 0: 02 00*7,03 00*7,02 00*4 00*7,09
17 a write on page 16385: 02 00*7,03 00*7,02 0000,4001 00*7,09
21 a write after LSN 2^63 of its page: 02 00*7,03 00*7,02 00*3,01 80,00*7
29 a write of an empty key: 02 00*7,03 00*7,02 00*3,01 00*7,09 00
29 a write of a key of 65 bytes: 02 00*7,03 00*7,02 00*3,01 00*7,09 41,ff*65
31 a write with flag 2 before its old value: 02 00*7,03 00*7,02 00*3,01 00*7,09 01,6b 02,0001,31 01,0001,31
31 a write with an old value of 257 bytes: 02 00*7,03 00*7,02 00*3,01 00*7,09 01,6b 01,0101,ff*257 01,0001,31
32 a write with flag 2 before its new value: 02 00*7,03 00*7,02 00*3,01 00*7,09 01,6b 00 02,0001,31
32 a write with a new value of 257 bytes: 02 00*7,03 00*7,02 00*3,01 00*7,09 01,6b 00 01,0101,ff*257
32 a write without values: 02 00*7,03 00*7,02 00*3,01 00*7,09 01,6b 00 00
1 an apply of transaction 0: 03 00*8 00*7,02 00*3,01 00*7,09
1 an apply of transaction 2^63: 03 80,00*7 00*7,02 00*3,01 00*7,09
9 an apply after LSN 2^63: 03 00*7,03 80,00*7 00*3,01 00*7,09
17 an apply on page 0: 03 00*7,03 00*7,02 00*4 00*7,09
17 an apply on page 16385: 03 00*7,03 00*7,02 0000,4001 00*7,09
21 an apply after LSN 2^63 of its page: 03 00*7,03 00*7,02 00*3,01 80,00*7
29 an apply of an empty key: 03 00*7,03 00*7,02 00*3,01 00*7,09 00
29 an apply of a key of 65 bytes: 03 00*7,03 00*7,02 00*3,01 00*7,09 41,ff*65
32 an apply with an argument of 65 bytes: 03 00*7,03 00*7,02 00*3,01 00*7,09 01,6b 01 41,ff*65 00
34 an apply with flag 2 before its old value: 03 00*7,03 00*7,02 00*3,01 00*7,09 01,6b 01 01,31 02
34 an apply with an old value of 257 bytes: 03 00*7,03 00*7,02 00*3,01 00*7,09 01,6b 01 01,31 01,0101,ff*257
1 an undo of transaction 0: 04 00*8 00*7,02 00*3,01 00*7,09
1 an undo of transaction 2^63: 04 80,00*7 00*7,02 00*3,01 00*7,09
9 an undo after LSN 2^63: 04 00*7,03 80,00*7 00*3,01 00*7,09
17 an undo on page 0: 04 00*7,03 00*7,02 00*4 00*7,09
17 an undo on page 16385: 04 00*7,03 00*7,02 0000,4001 00*7,09
21 an undo after LSN 2^63 of its page: 04 00*7,03 00*7,02 00*3,01 80,00*7
29 an undo of an empty key: 04 00*7,03 00*7,02 00*3,01 00*7,09 00
29 an undo of a key of 65 bytes: 04 00*7,03 00*7,02 00*3,01 00*7,09 41,ff*65
31 an undo with flag 2 before what it restores: 04 00*7,03 00*7,02 00*3,01 00*7,09 01,6b 02 00*7,05
31 an undo that restores 257 bytes: 04 00*7,03 00*7,02 00*3,01 00*7,09 01,6b 01,0101,ff*257 00*7,05
32 an undo that goes on at LSN 2^63: 04 00*7,03 00*7,02 00*3,01 00*7,09 01,6b 00 80,00*7
1 a commit of transaction 0: 05 00*8 00*7,02
1 a commit of transaction 2^63: 05 80,00*7 00*7,02
9 a commit after LSN 2^63: 05 00*7,03 80,00*7
1 an end of transaction 0: 06 00*8 00*7,02
1 an end of transaction 2^63: 06 80,00*7 00*7,02
9 an end after LSN 2^63: 06 00*7,03 80,00*7
";

/// Splits and the states of pages.
const STATES: &str = "\
1 a split of page 0: 07 00*4 00*7,09 00*3,02
1 a split of page 16385: 07 0000,4001 00*7,09 00*3,02
5 a split after LSN 2^63: 07 00*3,01 80,00*7 00*3,02
13 a split with child 1: 07 00*3,01 00*7,09 00*3,01
13 a split with child 16385: 07 00*3,01 00*7,09 0000,4001
18 a low fence of 65 bytes: 07 00*3,01 00*7,09 00*3,02 00 41,ff*65 00 00 0000
20 flag 2 before a high fence: 07 00*3,01 00*7,09 00*3,02 00 01,6d 02 00 0000
20 a high fence of 65 bytes: 07 00*3,01 00*7,09 00*3,02 00 01,6d 01,41,ff*65 00 0000
20 a high fence at the low one: 07 00*3,01 00*7,09 00*3,02 00 01,6d 01,01,6d 00 0000
19 an empty high fence: 07 00*3,01 00*7,09 00*3,02 00 00 01,00 00 0000
23 flag 2 before a foster child: 07 00*3,01 00*7,09 00*3,02 00 01,6d 01,01,70 02 0000
23 a foster key at the low fence: 07 00*3,01 00*7,09 00*3,02 00 01,6d 01,01,70 01,01,6d,00*3,03 0000
23 a foster key at the high fence: 07 00*3,01 00*7,09 00*3,02 00 01,6d 01,01,70 01,01,70,00*3,03 0000
23 foster child 1: 07 00*3,01 00*7,09 00*3,02 00 01,6d 01,01,70 01,01,6e,00*3,01 0000
23 foster child 16385: 07 00*3,01 00*7,09 00*3,02 00 01,6d 01,01,70 01,01,6e,0000,4001 0000
21 a branch without rows: 07 00*3,01 00*7,09 00*3,02 01 00 00 00 0000
26 a row with an empty key: 07 00*3,01 00*7,09 00*3,02 00 01,62 01,01,79 00 0001 00 00 0000
26 a row below the low fence: 07 00*3,01 00*7,09 00*3,02 00 01,62 01,01,79 00 0001 01,61 00 0000
26 a row at the high fence: 07 00*3,01 00*7,09 00*3,02 00 01,62 01,01,79 00 0001 01,79 00 0000
32 a row at the foster key: 07 00*3,01 00*7,09 00*3,02 00 01,62 01,01,79 01,01,6d,00*3,03 0001 01,6d 00 0000
31 a key that stands twice: 07 00*3,01 00*7,09 00*3,02 00 01,62 01,01,79 00 0002 01,63 00 0000 01,63 00 0000
28 flag 2 of a row: 07 00*3,01 00*7,09 00*3,02 00 01,62 01,01,79 00 0001 01,63 02 0000
29 a value of 257 bytes: 07 00*3,01 00*7,09 00*3,02 00 01,62 01,01,79 00 0001 01,63 00 0101,ff*257
29 a tombstone with a value: 07 00*3,01 00*7,09 00*3,02 00 01,62 01,01,79 00 0001 01,63 01 0001,31
26 a first separator above the low fence: 07 00*3,01 00*7,09 00*3,02 01 01,62 01,01,79 00 0001 01,63 00*3,03
32 a separator that stands twice: 07 00*3,01 00*7,09 00*3,02 01 01,62 01,01,79 00 0002 01,62 00*3,03 01,62 00*3,04
32 a separator at the high fence: 07 00*3,01 00*7,09 00*3,02 01 01,62 01,01,79 00 0002 01,62 00*3,03 01,79 00*3,04
28 child 1 of a row: 07 00*3,01 00*7,09 00*3,02 01 01,62 01,01,79 00 0001 01,62 00*3,01
28 child 16385 of a row: 07 00*3,01 00*7,09 00*3,02 01 01,62 01,01,79 00 0001 01,62 0000,4001
3911 a state of 4052 bytes: 07 00*3,01 00*8 00*3,02 00 00 00 00 000d 40,01,61*63 00 0100,76*256 40,02,61*63 00 0100,76*256 40,03,61*63 00 0100,76*256 40,04,61*63 00 0100,76*256 40,05,61*63 00 0100,76*256 40,06,61*63 00 0100,76*256 40,07,61*63 00 0100,76*256 40,08,61*63 00 0100,76*256 40,09,61*63 00 0100,76*256 40,0a,61*63 00 0100,76*256 40,0b,61*63 00 0100,76*256 40,0c,61*63 00 0100,76*256 40,0d,61*63 00 005a,76*90
";

/// The other records of pages and of upkeep.
const PAGES: &str = "\
1 an adopt by page 0: 08 00*4 00*7,09 00*3,02 00*7,08 00*3,03 01,6d
1 an adopt by page 16385: 08 0000,4001 00*7,09 00*3,02 00*7,08 00*3,03 01,6d
5 an adopt after LSN 2^63 of the parent: 08 00*3,01 80,00*7 00*3,02 00*7,08 00*3,03 01,6d
13 an adopt from page 0: 08 00*3,01 00*7,09 00*4 00*7,08 00*3,03 01,6d
13 an adopt from page 16385: 08 00*3,01 00*7,09 0000,4001 00*7,08 00*3,03 01,6d
17 an adopt after LSN 2^63 of the fosterer: 08 00*3,01 00*7,09 00*3,02 80,00*7 00*3,03 01,6d
25 an adopt of child 1: 08 00*3,01 00*7,09 00*3,02 00*7,08 00*3,01 01,6d
25 an adopt of child 16385: 08 00*3,01 00*7,09 00*3,02 00*7,08 0000,4001 01,6d
29 an adopt with an empty key: 08 00*3,01 00*7,09 00*3,02 00*7,08 00*3,03 00
29 an adopt with a key of 65 bytes: 08 00*3,01 00*7,09 00*3,02 00*7,08 00*3,03 41,ff*65
1 a grow after LSN 2^63: 09 80,00*7 00*3,02 01 00 00 00 0001 00 00*3,02
9 a grow with child 1: 09 00*7,09 00*3,01 01 00 00 00 0001 00 00*3,02
9 a grow with child 16385: 09 00*7,09 0000,4001 01 00 00 00 0001 00 00*3,02
17 a grow of a branch without rows: 09 00*7,09 00*3,02 01 00 00 00 0000
1 a purge of page 0: 0a 00*4 00*7,09
1 a purge of page 16385: 0a 0000,4001 00*7,09
5 a purge after LSN 2^63: 0a 00*3,01 80,00*7
1 page 0 written: 0b 00*4 00*7,09
1 page 16385 written: 0b 0000,4001 00*7,09
5 an image of LSN 0: 0b 00*3,01 00*8
5 an image of LSN 2^63: 0b 00*3,01 80,00*7
1 next transaction 0: 0c 00*8
1 next transaction 2^63 + 1: 0c 80,00*6,01
25 a page head 0: 0c 00*7,04 00*7,02 0000,4000 00*3,01 00*8
25 a page head 2^63: 0c 00*7,04 00*7,02 0000,4000 00*3,01 80,00*7
33 an image written at LSN 2^63: 0c 00*7,04 00*7,02 0000,4000 00*3,01 00*7,06 80,00*7
41 backup 2^63: 0c 00*7,04 00*7,02 0000,4000 00*3,01 00*7,06 00*7,05 80,00*7
49 a backup up to LSN 2^63: 0c 00*7,04 00*7,02 0000,4000 00*3,01 00*7,06 00*7,05 00*7,01 80,00*7
29 an unfinished transaction 0: 0c 00*7,04 00*7,02 0000,4000 00*4 00*3,02 00*8
29 an unfinished transaction 2^63: 0c 00*7,04 00*7,02 0000,4000 00*4 00*3,02 80,00*7
37 a last record 0: 0c 00*7,04 00*7,02 0000,4000 00*4 00*3,02 00*7,03 00*8
37 a last record 2^63: 0c 00*7,04 00*7,02 0000,4000 00*4 00*3,02 00*7,03 80,00*7
45 an undo at LSN 2^63: 0c 00*7,04 00*7,02 0000,4000 00*4 00*3,02 00*7,03 00*7,06 80,00*7
57 an open write 0: 0c 00*7,04 00*7,02 0000,4000 00*4 00*3,02 00*7,03 00*7,06 00*7,06 00*3,02 00*8
57 an open write 2^63: 0c 00*7,04 00*7,02 0000,4000 00*4 00*3,02 00*7,03 00*7,06 00*7,06 00*3,02 80,00*7
65 an open write of an empty key: 0c 00*7,04 00*7,02 0000,4000 00*4 00*3,02 00*7,03 00*7,06 00*7,06 00*3,02 00*7,05 00
65 an open write of a key of 65 bytes: 0c 00*7,04 00*7,02 0000,4000 00*4 00*3,02 00*7,03 00*7,06 00*7,06 00*3,02 00*7,05 41,ff*65
67 an open write that stands twice: 0c 00*7,04 00*7,02 0000,4000 00*4 00*3,02 00*7,03 00*7,06 00*7,06 00*3,02 00*7,05 01,6b 00*7,05 01,6d
57 a transaction that stands twice: 0c 00*7,04 00*7,02 0000,4000 00*4 00*3,02 00*7,03 00*7,06 00*7,06 00*4 00*7,03
41 a segment that stands twice: 0c 00*7,04 00*7,02 0000,4000 00*4 00*4 00*3,09 00*3,02 00*3,02 00*3,02
39 run 0: 0c 00*7,04 00*7,02 0000,4000 00*4 00*4 00*3,09 00*4 0002 00*8
39 run 2^63: 0c 00*7,04 00*7,02 0000,4000 00*4 00*4 00*3,09 00*4 0002 80,00*7
47 a run from LSN 0 on: 0c 00*7,04 00*7,02 0000,4000 00*4 00*4 00*3,09 00*4 0002 00*7,01 00*8
47 a run from LSN 2^63 on: 0c 00*7,04 00*7,02 0000,4000 00*4 00*4 00*3,09 00*4 0002 00*7,01 80,00*7
55 a run up to LSN 0: 0c 00*7,04 00*7,02 0000,4000 00*4 00*4 00*3,09 00*4 0002 00*7,01 00*7,02 00*8
55 a run up to LSN 2^63: 0c 00*7,04 00*7,02 0000,4000 00*4 00*4 00*3,09 00*4 0002 00*7,01 00*7,02 80,00*7
71 runs that begin at one LSN: 0c 00*7,04 00*7,02 0000,4000 00*4 00*4 00*3,09 00*4 0002 00*7,01 00*7,02 00*7,04 00*7,02 00*7,02
39 next backup 0: 0c 00*7,04 00*7,02 0000,4000 00*4 00*4 00*3,09 00*4 0000 00*8
39 next backup 2^63 + 1: 0c 00*7,04 00*7,02 0000,4000 00*4 00*4 00*3,09 00*4 0000 80,00*6,01
47 next run 0: 0c 00*7,04 00*7,02 0000,4000 00*4 00*4 00*3,09 00*4 0000 00*7,01 00*8
47 next run 2^63 + 1: 0c 00*7,04 00*7,02 0000,4000 00*4 00*4 00*3,09 00*4 0000 00*7,01 80,00*6,01
1 backup 0 done: 0d 00*8 00*3,05
1 backup 2^63 done: 0d 80,00*7 00*3,05
13 a backup of no page: 0d 00*7,01 00*3,05 00
13 a backup of 17 pages: 0d 00*7,01 00*3,05 11
14 a backup of page 0: 0d 00*7,01 00*3,05 01 00*4 00*7,06
14 a backup of page 16385: 0d 00*7,01 00*3,05 01 0000,4001 00*7,06
18 a page of LSN 0: 0d 00*7,01 00*3,05 01 00*3,01 00*8
18 a page of LSN 2^63: 0d 00*7,01 00*3,05 01 00*3,01 80,00*7
26 a page that stands twice: 0d 00*7,01 00*3,05 02 00*3,01 00*7,06 00*3,01 00*7,07
1 run 0 done: 0e 00*8 00*7,02 00*7,04
1 run 2^63 done: 0e 80,00*7 00*7,02 00*7,04
9 a first LSN 0 done: 0e 00*7,01 00*8 00*7,04
9 a first LSN 2^63 done: 0e 00*7,01 80,00*7 00*7,04
17 a last LSN 0 done: 0e 00*7,01 00*7,02 00*8
17 a last LSN 2^63 done: 0e 00*7,01 00*7,02 80,00*7
";

/// Whether the byte in front of a row is the one that is named for its bytes.
fn is_named(alloc: Global, line: &str) -> Option<bool> {
    let (head, fields) = line.split_once(':')?;
    let (byte, _) = head.split_once(' ')?;
    let row = row_of(alloc, fields)?;
    Some(fault_at(alloc, &row.bytes) == Some(byte.parse::<usize>().ok()?))
}

#[test]
fn a_field_of_a_transactions_record_is_named_where_it_begins(rt: HostRuntime) -> Result<(), Fail> {
    for line in TRANSACTIONS.lines() {
        assert!(rt; is_named(rt.alloc(), line) == Some(true), "{line}");
    }
    Ok(())
}

#[test]
fn a_field_of_a_state_is_named_where_it_begins(rt: HostRuntime) -> Result<(), Fail> {
    for line in STATES.lines() {
        assert!(rt; is_named(rt.alloc(), line) == Some(true), "{line}");
    }
    Ok(())
}

#[test]
fn a_field_of_another_record_is_named_where_it_begins(rt: HostRuntime) -> Result<(), Fail> {
    for line in PAGES.lines() {
        assert!(rt; is_named(rt.alloc(), line) == Some(true), "{line}");
    }
    Ok(())
}

#[test]
fn a_fault_is_told_with_its_byte(rt: HostRuntime) -> Result<(), Fail> {
    let bad = format!(in rt.alloc(); "{}", RecordFault::Bad { byte: 9 })?;
    assert_eq!(rt;
        bad.as_str(),
        "no record: the field at byte 9 is cut or breaks its rule"
    );
    let memory = format!(in rt.alloc(); "{}", RecordFault::Memory)?;
    assert_eq!(rt; memory.as_str(), "out of memory");
    Ok(())
}
