//! Rows of records that are redone on a page.
ghost use Rattle.std.specs.Prelude.{◌≡◌, IfSome};
ghost use Rattle.wal_record.specs.State.{KeepsState};

use crate::text::{bytes_of, image_of, record_of};
use operators::{Operators, boxed_operators};
use page_rows::redo;
use state_codec::put_state;
use std::alloc::Global;
use std::test::Fail;
use wal_record::PageState;

/// Whether this is the image of a page; `none` stands for none.
fn is_image(alloc: Global, image: &Option<PageState>, text: &str) -> Option<bool>
    requires { IfSome image.now KeepsState }
{
    match image {
        None => Some(text == "none"),
        Some(state) => {
            let mut out = Vec::new(alloc);
            put_state(&mut out, state).ok()?;
            let wanted = bytes_of(alloc, text)?;
            Some(out.as_slice() == wanted.as_slice())
        }
    }
}

/// Whether a record is redone as its row says. A row is a name, the page, its image before, the fields of the record
/// behind the head, and the image after; `=` stands for a record that isn't redone, and so changes nothing.
fn is_redone(alloc: Global, operators: &Operators, head: &str, row: &str) -> Option<bool> {
    let (_, row) = row.split_once("; ")?;
    let (page, row) = row.split_once("; ")?;
    let (before, row) = row.split_once("; ")?;
    let (fields, after) = row.split_once("; ")?;
    let page = page.parse::<u32>().ok()?;
    let (wanted, after) = match after {
        "=" => (false, before),
        _ => (true, after),
    };
    let entry = record_of(alloc, head, fields)?;
    let mut image = image_of(alloc, before)?;
    let done = redo(alloc, &mut image, page, &entry, operators).ok()?;
    let same = is_image(alloc, &image, after)?;
    Some(done == wanted && same)
}

/// Redoes the record of each row of a table, and fails at the first that isn't redone as it says.
pub fn redo_all(alloc: Global, head: &str, rows: &str) -> Result<(), Fail> {
    let operators = boxed_operators!(alloc);
    for row in rows.lines() {
        if is_redone(alloc, &operators, head, row) != Some(true) {
            return Err(Fail::new(row));
        }
    }
    Ok(())
}
