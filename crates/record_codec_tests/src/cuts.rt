//! Records that end too early.
use crate::kinds::KINDS;
use crate::row::{Row, fault_at, row_of};
use std::alloc::Global;
use std::test::Fail;

/// Whether each first part of the row is no record, and the field that is cut is named where it begins.
fn are_cuts_named(alloc: Global, row: &Row) -> bool {
    for (len, start) in row.starts.iter().enumerate() {
        match row.bytes.get(..len) {
            Some(front) if fault_at(alloc, front) == Some(*start) => {}
            _ => return false,
        }
    }
    true
}

#[test]
fn a_field_that_is_cut_is_named_where_it_begins(rt: HostRuntime) -> Result<(), Fail> {
    for line in KINDS.lines() {
        let row = row_of(rt.alloc(), line).ok_or("a row")?;
        assert!(rt; are_cuts_named(rt.alloc(), &row), "{line}");
    }
    Ok(())
}
