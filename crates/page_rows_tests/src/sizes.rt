//! Free bytes, and where pages are split.
use crate::text::state_of;
use page_rows::{free_bytes, split_point};
use std::alloc::Global;
use std::test::Fail;

/// A row is a name, the page, its free bytes, and how many rows a split keeps.
const SIZES: &str = "\
no rows; 00 00 00 00 0000; 4045; 0
one row; 00 00 00 00 0001 0161 00 000131; 4039; 1
ten equal rows; 00 00 00 00 000a 0161 00 000131 0162 00 000131 0163 00 000131 0164 00 000131 0165 00 000131 0166 00 000131 0167 00 000131 0168 00 000131 0169 00 000131 016a 00 000131; 3985; 5
a greater last row; 00 00 00 00 0003 0161 00 000131 0162 00 000131 026363 00 000131; 4026; 2
a row of half of all; 00 00 00 00 0003 0161 00 0006 31*6 0162 01 0000 0163 00 000131; 4023; 1
a row of a byte less; 00 00 00 00 0003 0161 00 0005 31*5 0162 01 0000 0163 00 000131; 4024; 2
fences and a foster child; 00 0162 01027979 01016d00000002 0000; 4035; 0
a branch; 01 00 00 00 0002 00 00000002 016d 00000003; 4034; 2
a branch of three rows; 01 00 00 00 0003 00 00000002 016d 00000003 0170 00000004; 4028; 2
a full page; 00 00 00 00 000d 4001 61*63 00 0100 76*256 4002 61*63 00 0100 76*256 4003 61*63 00 0100 76*256 4004 61*63 00 0100 76*256 4005 61*63 00 0100 76*256 4006 61*63 00 0100 76*256 4007 61*63 00 0100 76*256 4008 61*63 00 0100 76*256 4009 61*63 00 0100 76*256 400a 61*63 00 0100 76*256 400b 61*63 00 0100 76*256 400c 61*63 00 0100 76*256 400d 61*63 00 0059 76*89; 0; 7
";

fn is_sized(alloc: Global, row: &str) -> Option<bool> {
    let (_, row) = row.split_once("; ")?;
    let (state, row) = row.split_once("; ")?;
    let (free, kept) = row.split_once("; ")?;
    let state = state_of(alloc, state)?;
    let free = free.parse::<u32>().ok()?;
    let kept = kept.parse::<usize>().ok()?;
    Some(free_bytes(&state) == free && split_point(&state) == kept)
}

#[test]
fn sizes_count_all_bytes_of_rows(rt: HostRuntime) -> Result<(), Fail> {
    for row in SIZES.lines() {
        if is_sized(rt.alloc(), row) != Some(true) {
            return Err(Fail::new(row));
        }
    }
    Ok(())
}
