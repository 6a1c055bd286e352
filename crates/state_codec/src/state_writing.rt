//! The state of a page at the end of bytes. Where memory runs out, part of it may have been appended.
ghost use Rattle.std.specs.Prelude.{◌≡◌, ◌++◌, ◌≤◌, ◌<◌, ◌^◌, length, flat_map, OnOk};
ghost use Rattle.std.specs.Int.{w8, w16, w32};
ghost use Rattle.wal_record.specs.State.{text_of, rows_size, page_room, KeepsState};
ghost use Rattle.wal_record.specs.Spelling.{number_bytes, text_bytes, value_bytes, maybe_bytes, list_bytes, foster_bytes, leaf_row_bytes, branch_row_bytes, rows_bytes, state_bytes};

use crate::put::{put_key, put_u8, put_u16, put_u32, put_value};
use std::alloc::AllocError;
use store_model::{Bound, List};
use wal_record::{BranchRow, Foster, LeafRow, PageState, Rows};

/// Appends the text of a bound.
#[tactic(auto, unfolding(wal_record::specs::Spelling::text_bytes))]
fn put_bound(out: &mut Vec<u8>, bound: &Bound) -> Result<(), AllocError>
    ensures { OnOk result (out.new.items ≡ out.old.items ++ text_bytes (text_of bound.now)) }
{
    let bytes = bound.text();
    out.push(bytes.len() as u8)?;
    out.extend_from_slice(bytes)
}

#[tactic(auto, unfolding(wal_record::specs::Spelling::maybe_bytes, wal_record::specs::Spelling::text_bytes))]
fn put_high(out: &mut Vec<u8>, high: &Bound) -> Result<(), AllocError>
    ensures { OnOk result (out.new.items ≡ out.old.items ++ maybe_bytes text_bytes high.now) }
{
    match high.as_bytes() {
        None => Ok(out.push(0)?),
        Some(_) => {
            out.push(1)?;
            put_bound(out, high)
        }
    }
}

#[tactic(auto, unfolding(wal_record::specs::Spelling::maybe_bytes))]
fn put_foster(out: &mut Vec<u8>, foster: &Option<Foster>) -> Result<(), AllocError>
    ensures { OnOk result (out.new.items ≡ out.old.items ++ maybe_bytes foster_bytes foster.now) }
{
    match foster {
        None => Ok(out.push(0)?),
        Some(foster) => {
            out.push(1)?;
            put_key(out, &foster.key)?;
            put_u32(out, foster.child)
        }
    }
}

fn put_leaf_row(out: &mut Vec<u8>, row: &LeafRow) -> Result<(), AllocError>
    ensures { OnOk result (out.new.items ≡ out.old.items ++ leaf_row_bytes row.now) }
{
    put_key(out, &row.key)?;
    if row.tombstone {
        out.push(1)?;
    } else {
        out.push(0)?;
    }
    put_value(out, &row.value)
}

fn put_branch_row(out: &mut Vec<u8>, row: &BranchRow) -> Result<(), AllocError>
    ensures { OnOk result (out.new.items ≡ out.old.items ++ branch_row_bytes row.now) }
{
    put_bound(out, &row.low)?;
    put_u32(out, row.child)
}

fn put_leaf_items(out: &mut Vec<u8>, items: &[LeafRow]) -> Result<(), AllocError>
    ensures { OnOk result (out.new.items ≡ out.old.items ++ flat_map leaf_row_bytes items.now) }
{
    for item in items {
        put_leaf_row(out, item)?;
    }
    Ok(())
}

fn put_branch_items(out: &mut Vec<u8>, items: &[BranchRow]) -> Result<(), AllocError>
    ensures { OnOk result (out.new.items ≡ out.old.items ++ flat_map branch_row_bytes items.now) }
{
    for item in items {
        put_branch_row(out, item)?;
    }
    Ok(())
}

#[tactic(auto, unfolding(wal_record::specs::Spelling::list_bytes, wal_record::specs::Spelling::number_bytes))]
fn put_leaf_rows(out: &mut Vec<u8>, rows: &List<LeafRow>) -> Result<(), AllocError>
    requires { length rows.now < 2 ^ 16 }
    ensures { OnOk result (out.new.items ≡ out.old.items ++ list_bytes w16 leaf_row_bytes rows.now) }
{
    put_u16(out, rows.len() as u16)?;
    put_leaf_items(out, rows.as_slice())
}

#[tactic(auto, unfolding(wal_record::specs::Spelling::list_bytes, wal_record::specs::Spelling::number_bytes))]
fn put_branch_rows(out: &mut Vec<u8>, rows: &List<BranchRow>) -> Result<(), AllocError>
    requires { length rows.now < 2 ^ 16 }
    ensures { OnOk result (out.new.items ≡ out.old.items ++ list_bytes w16 branch_row_bytes rows.now) }
{
    put_u16(out, rows.len() as u16)?;
    put_branch_items(out, rows.as_slice())
}

fn put_rows(out: &mut Vec<u8>, rows: &Rows) -> Result<(), AllocError>
    requires { rows_size rows.now ≤ page_room }
    ensures { OnOk result (out.new.items ≡ out.old.items ++ rows_bytes rows.now) }
{
    match rows {
        Rows::Leaf(rows) => put_leaf_rows(out, rows),
        Rows::Branch(rows) => put_branch_rows(out, rows),
    }
}

/// Appends the state of a page.
#[tactic(auto, unfolding(wal_record::specs::Spelling::state_bytes))]
pub fn put_state(out: &mut Vec<u8>, state: &PageState) -> Result<(), AllocError>
    requires { KeepsState state.now }
    ensures { OnOk result (out.new.items ≡ out.old.items ++ state_bytes state.now) }
{
    put_u8(out, state.level)?;
    put_bound(out, &state.low)?;
    put_high(out, &state.high)?;
    put_foster(out, &state.foster)?;
    put_rows(out, &state.rows)
}
