//! The state of a page, behind what stands before it in a line.
use field_line::Line;
use std::alloc::AllocError;
use wal_record::{BranchRow, Foster, LeafRow, PageState, Rows};

/// Adds level, fences, foster pointer and rows.
pub fn put_state(line: &mut Line, state: &PageState) -> Result<(), AllocError> {
    line.number("level", u64::from(state.level))?;
    line.maybe("low", state.low.as_bytes())?;
    line.maybe("high", state.high.as_bytes())?;
    put_foster(line, &state.foster)?;
    put_rows(line, &state.rows)
}

fn put_rows(line: &mut Line, rows: &Rows) -> Result<(), AllocError> {
    match rows {
        Rows::Leaf(rows) => put_leaf(line, rows.as_slice()),
        Rows::Branch(rows) => put_branch(line, rows.as_slice()),
    }
}

fn put_foster(line: &mut Line, foster: &Option<Foster>) -> Result<(), AllocError> {
    match foster {
        Some(foster) => {
            line.text("foster", foster.key.as_bytes())?;
            line.number("child", u64::from(foster.child))
        }
        None => line.absent("foster"),
    }
}

fn put_leaf(line: &mut Line, rows: &[LeafRow]) -> Result<(), AllocError> {
    line.number("rows", rows.len() as u64)?;
    for row in rows {
        put_leaf_row(line, row)?;
    }
    Ok(())
}

fn put_leaf_row(line: &mut Line, row: &LeafRow) -> Result<(), AllocError> {
    line.text("key", row.key.as_bytes())?;
    if row.tombstone {
        line.word("tombstone")
    } else {
        line.text("value", row.value.as_bytes())
    }
}

fn put_branch(line: &mut Line, rows: &[BranchRow]) -> Result<(), AllocError> {
    line.number("rows", rows.len() as u64)?;
    for row in rows {
        line.text("separator", row.low.text())?;
        line.number("child", u64::from(row.child))?;
    }
    Ok(())
}
