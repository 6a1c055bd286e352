//! Each kind of record once.
use crate::row::{is_spelled, row_of};
use record_codec::{commit_bytes, decode};
use std::test::Fail;
use wal_record::{Commit, Record};

/// Each kind, with fields that differ from their neighbours.
pub const KINDS: &str = "\
01 0000,4000
02 00*7,03 00*7,02 00*3,01 00*7,09 05,6170706c65 00 01,0001,31
02 00*7,03 00*7,02 00*3,01 00*7,09 01,6b 01,0001,31 00
03 00*7,03 00*7,02 00*3,01 00*7,09 01,6b ff 02,3132 00
04 00*7,03 00*7,02 00*3,01 00*7,09 01,6b 01,0000 00*7,05
05 00*7,03 00*7,02
06 00*7,03 00*7,02
07 00*3,01 00*7,09 00*3,02 00 00 01,01,6d 01,01,67,00*3,03 0002 01,61 00 0001,31 01,62 01 0000
08 00*3,01 00*7,09 00*3,02 00*7,08 00*3,03 01,6d
09 00*7,09 00*3,02 01 00 00 00 0002 00 00*3,02 01,6d 00*3,03
0a 0000,4000 00*7,09
0b 00*3,01 00*7,09
0c 00*7,04 00*7,02 0000,4000 00*3,01 00*7,06 00*7,05 00*7,01 00*7,02 00*3,01 00*7,03 00*7,06 00*7,05 00*3,02 00*7,05 01,6b 00*7,06 01,6d 00*3,09 00*3,02 00*3,01 00*3,02 0001 00*7,01 00*7,02 00*7,04 00*7,07 00*7,02
0d 00*7,01 00*3,05 02 00*3,01 00*7,06 00*3,02 00*7,07
0e 00*7,01 00*7,02 00*7,04
0f 00*3,09
10 00*3,05
";

#[test]
fn each_kind_is_read_and_spelled_again(rt: HostRuntime) -> Result<(), Fail> {
    for line in KINDS.lines() {
        let row = row_of(rt.alloc(), line).ok_or("a row")?;
        assert!(rt; is_spelled(rt.alloc(), &row.bytes), "{line}");
    }
    Ok(())
}

#[test]
fn a_commit_is_spelled_without_memory(rt: HostRuntime) -> Result<(), Fail> {
    let row = row_of(rt.alloc(), "05 00*7,03 00*7,02").ok_or("a row")?;
    assert!(rt; commit_bytes(&Commit { tx: 3, prev: 2 }).as_slice() == row.bytes.as_slice());
    Ok(())
}

/// Whether a record has the fields of its row below.
fn has_its_fields(found: &Record) -> bool {
    match found {
        Record::Write(found) => {
            let numbers = found.tx == 3
                && found.prev == 2
                && found.page == 1
                && found.page_prev == 9;
            let text = found.key.as_bytes() == b"apple".as_slice();
            numbers && text && found.old.is_none() && found.new.is_some()
        }
        Record::Adopt(found) => {
            let pages = found.parent == 1 && found.fosterer == 2 && found.child == 3;
            pages && found.parent_prev == 9 && found.fosterer_prev == 8
        }
        Record::RunDone(found) => found.run == 1 && found.first == 2 && found.last == 4,
        _ => false,
    }
}

const NAMED: &str = "\
02 00*7,03 00*7,02 00*3,01 00*7,09 05,6170706c65 00 01,0001,31
08 00*3,01 00*7,09 00*3,02 00*7,08 00*3,03 01,6d
0e 00*7,01 00*7,02 00*7,04
";

#[test]
fn fields_stand_in_the_order_of_the_table(rt: HostRuntime) -> Result<(), Fail> {
    for line in NAMED.lines() {
        let row = row_of(rt.alloc(), line).ok_or("a row")?;
        let fits = match decode(rt.alloc(), &row.bytes) {
            Ok((found, _)) => has_its_fields(&found),
            Err(_) => false,
        };
        assert!(rt; fits, "{line}");
    }
    Ok(())
}
