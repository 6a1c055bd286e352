//! Records that move the pointer to a foster child to the parent.
ghost use Rattle.std.specs.Prelude.{◌≡◌, ◌≤◌, ◌<◌, ◌+◌, ◌↔◌, true, length, insert, IfOk, OnErr, IfSome, IfNone};
ghost use Rattle.std.specs.List.{sum_by};
ghost use Rattle.wal_record.specs.State.{KeepsState, branch_row_size, branch_rows, state_size, page_room};
ghost use Rattle.wal_record.specs.Images.{CanTakeChild, CanGiveChild, with_child, without_foster};
ghost use Rattle.page_rows.specs.Redo.{Changed, Always, with_branch_row};
ghost use Rattle.page_rows.specs.Rows.{IsBranch, row_count, BranchGap};

use crate::leaf_redo::has_own;
use crate::sizes::{branch_row_bytes, state_bytes};
use crate::spot::{Spot, branch_spot};
use store_model::{Bound, Memory, STATE_BYTES};
use wal_record::{Adopt, BranchRow, PageState, Rows};

/// Redoes an adoption in the parent, which gets a row for the child.
pub(crate) fn take_child(state: &mut PageState, adopt: &Adopt) -> Result<bool, Memory>
    requires { KeepsState state.old }
    ensures done { IfOk result (Changed (CanTakeChild adopt.now) (with_child adopt.now) state.old state.new) }
    ensures err { OnErr result (state.new ≡ state.old) }
{
    let Some(place) = place_of(state, adopt) else {
        return Ok(false);
    };
    put_branch_row(
        state,
        place,
        BranchRow {
            low: Bound::of_key(&adopt.key),
            child: adopt.child,
        },
    )
}

/// Where the child's row goes, if the page can take it.
fn place_of(state: &PageState, adopt: &Adopt) -> Option<usize>
    requires { KeepsState state.now }
    ensures some { IfSome result (λ i. CanTakeChild adopt.now state.now × BranchGap adopt.now.key (branch_rows state.now.rows) i × (i ≤ length (branch_rows state.now.rows))) }
    ensures none { IfNone result (CanTakeChild adopt.now state.now → ⊥) }
{
    match &state.rows {
        Rows::Branch(rows) => {
            if !has_own(state, &adopt.key) {
                return None;
            }
            match branch_spot(rows.as_slice(), &adopt.key) {
                Spot::Gap(i) if i > 0 => Some(i),
                _ => None,
            }
        }
        Rows::Leaf(_) => None,
    }
}

/// Puts a row at a place of a branch, if it fits.
fn put_branch_row(state: &mut PageState, i: usize, row: BranchRow) -> Result<bool, Memory>
    requires branch { IsBranch state.old.rows }
    requires size { state_size state.old ≤ page_room }
    requires place { i ≤ row_count state.old.rows }
    ensures done { IfOk result (Changed Always (with_branch_row row i) state.old state.new) }
    ensures err { OnErr result (state.new ≡ state.old) }
{
    let free = STATE_BYTES - state_bytes(state);
    if branch_row_bytes(&row) > free {
        return Ok(false);
    }
    match &mut state.rows {
        Rows::Branch(rows) => {
            rows.insert(i, row)?;
            Ok(true)
        }
        Rows::Leaf(_) => Ok(false),
    }
}

/// Redoes an adoption in the foster parent, which gives up its foster pointer.
pub(crate) fn give_child(state: &mut PageState, adopt: &Adopt) -> bool
    requires { KeepsState state.old }
    ensures { Changed (CanGiveChild adopt.now) (without_foster adopt.now) state.old state.new result }
{
    if !can_give_child(state, adopt) {
        return false;
    }
    state.foster = None;
    state.high = Bound::of_key(&adopt.key);
    true
}

fn can_give_child(state: &PageState, adopt: &Adopt) -> bool
    ensures { (result ≡ true) ↔ CanGiveChild adopt.now state.now }
{
    match &state.foster {
        Some(foster) => foster.key == adopt.key && foster.child == adopt.child,
        None => false,
    }
}
