//! Where keys stand among rows.
use crate::text::{bytes_of, state_of};
use page_rows::{Spot, search};
use std::alloc::Global;
use std::test::Fail;
use store_model::Key;

/// A row is a name, the page, the key, and where it stands.
const PLACES: &str = "\
no rows; 00 00 00 00 0000; 61; gap 0
below all rows; 00 00 00 00 0002 0162 00 0000 0164 01 0000; 61; gap 0
at the first row; 00 00 00 00 0002 0162 00 0000 0164 01 0000; 62; here 0
between rows; 00 00 00 00 0002 0162 00 0000 0164 01 0000; 63; gap 1
at a tombstone; 00 00 00 00 0002 0162 00 0000 0164 01 0000; 64; here 1
above all rows; 00 00 00 00 0002 0162 00 0000 0164 01 0000; 65; gap 2
longer than the row below it; 00 00 00 00 0002 0162 00 0000 0164 00 0000; 6200; gap 1
shorter than the row above it; 00 00 00 00 0002 0162 00 0000 026464 00 0000; 64; gap 1
bytes stand as numbers; 00 00 00 00 0002 017f 00 0000 01ff 00 0000; 80; gap 1
the first of seven; 00 00 00 00 0007 0161 00 0000 0162 00 0000 0163 00 0000 0164 00 0000 0165 00 0000 0166 00 0000 0167 00 0000; 61; here 0
the last of seven; 00 00 00 00 0007 0161 00 0000 0162 00 0000 0163 00 0000 0164 00 0000 0165 00 0000 0166 00 0000 0167 00 0000; 67; here 6
below the second separator; 01 00 00 00 0002 00 00000002 016d 00000003; 61; gap 1
at a separator; 01 00 00 00 0002 00 00000002 016d 00000003; 6d; here 1
above all separators; 01 00 00 00 0002 00 00000002 016d 00000003; 7a; gap 2
at the first separator; 01 0162 00 00 0001 0162 00000002; 62; here 0
below the first separator; 01 0162 00 00 0001 0162 00000002; 61; gap 0
";

fn spot_of(text: &str) -> Option<Spot> {
    let (kind, place) = text.split_once(' ')?;
    let place = place.parse::<usize>().ok()?;
    match kind {
        "here" => Some(Spot::Here(place)),
        "gap" => Some(Spot::Gap(place)),
        _ => None,
    }
}

fn is_found(alloc: Global, row: &str) -> Option<bool> {
    let (_, row) = row.split_once("; ")?;
    let (state, row) = row.split_once("; ")?;
    let (key, spot) = row.split_once("; ")?;
    let state = state_of(alloc, state)?;
    let key = Key::new(bytes_of(alloc, key)?.as_slice())?;
    Some(search(&state, &key) == spot_of(spot)?)
}

#[test]
fn a_key_stands_at_its_row_or_in_a_gap(rt: HostRuntime) -> Result<(), Fail> {
    for row in PLACES.lines() {
        if is_found(rt.alloc(), row) != Some(true) {
            return Err(Fail::new(row));
        }
    }
    Ok(())
}
