//! The state of a page at the end of a draft.
ghost use Rattle.std.specs.Prelude.{◌≡◌, ◌++◌, ◌≤◌, ◌<◌, ◌+◌, ◌^◌, length, flat_map, ◌∷◌, []};
ghost use Rattle.std.specs.List.{sum_by};
ghost use Rattle.std.specs.Int.{w8, w16, w32};
ghost use Rattle.wal_record.specs.State.{text_of, leaf_row_size, branch_row_size, rows_size, high_size, foster_size, state_size, page_room, KeepsState};
ghost use Rattle.wal_record.specs.Spelling.{number_bytes, text_bytes, value_bytes, maybe_bytes, list_bytes, flag_of, foster_bytes, leaf_row_bytes, branch_row_bytes, rows_bytes, state_bytes};
ghost use Rattle.page_image.specs.declared.layout.TheConstants.{BODY_BYTES};

use crate::draft::Draft;
use store_model::{Bound, List};
use wal_record::{BranchRow, Foster, LeafRow, PageState, Rows};

fn put_bound(draft: &mut Draft, bound: &Bound)
    requires { length draft.old + 1 + length (text_of bound.now) ≤ BODY_BYTES }
    ensures bytes { draft.new ≡ draft.old ++ text_bytes (text_of bound.now) }
    ensures len { length draft.new ≡ length draft.old + 1 + length (text_of bound.now) }
{
    draft.put_text(bound.text());
}

#[tactic(auto, unfolding(wal_record::specs::Spelling::maybe_bytes))]
fn put_high(draft: &mut Draft, high: &Bound)
    requires { length draft.old + high_size high.now ≤ BODY_BYTES }
    ensures bytes { draft.new ≡ draft.old ++ maybe_bytes text_bytes high.now }
    ensures len { length draft.new ≡ length draft.old + high_size high.now }
{
    match high.as_bytes() {
        None => draft.put(&[0]),
        Some(_) => {
            draft.put(&[1]);
            put_bound(draft, high);
        }
    }
}

#[tactic(auto, unfolding(wal_record::specs::Spelling::maybe_bytes))]
fn put_foster(draft: &mut Draft, foster: &Option<Foster>)
    requires { length draft.old + foster_size foster.now ≤ BODY_BYTES }
    ensures bytes { draft.new ≡ draft.old ++ maybe_bytes foster_bytes foster.now }
    ensures len { length draft.new ≡ length draft.old + foster_size foster.now }
{
    match foster {
        None => draft.put(&[0]),
        Some(foster) => {
            draft.put(&[1]);
            draft.put_text(foster.key.as_bytes());
            draft.put_u32(foster.child);
        }
    }
}

fn put_flag(draft: &mut Draft, flag: bool)
    requires { length draft.old + 1 ≤ BODY_BYTES }
    ensures bytes { draft.new ≡ draft.old ++ (flag_of flag ∷ []) }
    ensures len { length draft.new ≡ length draft.old + 1 }
{
    if flag {
        draft.put(&[1]);
    } else {
        draft.put(&[0]);
    }
}

fn put_leaf_row(draft: &mut Draft, row: &LeafRow)
    requires { length draft.old + leaf_row_size row.now ≤ BODY_BYTES }
    ensures bytes { draft.new ≡ draft.old ++ leaf_row_bytes row.now }
    ensures len { length draft.new ≡ length draft.old + leaf_row_size row.now }
{
    draft.put_text(row.key.as_bytes());
    put_flag(draft, row.tombstone);
    draft.put_value(row.value.as_bytes());
}

fn put_branch_row(draft: &mut Draft, row: &BranchRow)
    requires { length draft.old + branch_row_size row.now ≤ BODY_BYTES }
    ensures bytes { draft.new ≡ draft.old ++ branch_row_bytes row.now }
    ensures len { length draft.new ≡ length draft.old + branch_row_size row.now }
{
    put_bound(draft, &row.low);
    draft.put_u32(row.child);
}

fn put_leaf_items(draft: &mut Draft, items: &[LeafRow])
    requires { length draft.old + sum_by leaf_row_size items.now ≤ BODY_BYTES }
    ensures { draft.new ≡ draft.old ++ flat_map leaf_row_bytes items.now }
{
    for item in items {
        put_leaf_row(draft, item);
    }
}

fn put_branch_items(draft: &mut Draft, items: &[BranchRow])
    requires { length draft.old + sum_by branch_row_size items.now ≤ BODY_BYTES }
    ensures { draft.new ≡ draft.old ++ flat_map branch_row_bytes items.now }
{
    for item in items {
        put_branch_row(draft, item);
    }
}

#[tactic(auto, unfolding(wal_record::specs::Spelling::list_bytes, wal_record::specs::Spelling::number_bytes))]
fn put_leaf_rows(draft: &mut Draft, rows: &List<LeafRow>)
    requires few { length rows.now < 2 ^ 16 }
    requires room { length draft.old + 2 + sum_by leaf_row_size rows.now ≤ BODY_BYTES }
    ensures { draft.new ≡ draft.old ++ list_bytes w16 leaf_row_bytes rows.now }
{
    draft.put_u16(rows.len() as u16);
    put_leaf_items(draft, rows.as_slice());
}

#[tactic(auto, unfolding(wal_record::specs::Spelling::list_bytes, wal_record::specs::Spelling::number_bytes))]
fn put_branch_rows(draft: &mut Draft, rows: &List<BranchRow>)
    requires few { length rows.now < 2 ^ 16 }
    requires room { length draft.old + 2 + sum_by branch_row_size rows.now ≤ BODY_BYTES }
    ensures { draft.new ≡ draft.old ++ list_bytes w16 branch_row_bytes rows.now }
{
    draft.put_u16(rows.len() as u16);
    put_branch_items(draft, rows.as_slice());
}

fn put_rows(draft: &mut Draft, rows: &Rows)
    requires few { rows_size rows.now ≤ page_room }
    requires room { length draft.old + 2 + rows_size rows.now ≤ BODY_BYTES }
    ensures { draft.new ≡ draft.old ++ rows_bytes rows.now }
{
    match rows {
        Rows::Leaf(rows) => put_leaf_rows(draft, rows),
        Rows::Branch(rows) => put_branch_rows(draft, rows),
    }
}

/// Appends the state of a page.
#[tactic(auto, unfolding(wal_record::specs::Spelling::state_bytes))]
pub fn put_state(draft: &mut Draft, state: &PageState)
    requires rules { KeepsState state.now }
    requires room { length draft.old + state_size state.now ≤ BODY_BYTES }
    ensures { draft.new ≡ draft.old ++ state_bytes state.now }
{
    draft.put_u8(state.level);
    put_bound(draft, &state.low);
    put_high(draft, &state.high);
    put_foster(draft, &state.foster);
    put_rows(draft, &state.rows);
}
