//! The rows of a parent, with one for a child that it takes.
ghost use Rattle.std.specs.Prelude.{◌≡◌, ◌≤◌, IfOk, Some, insert, length};
ghost use Rattle.wal_record.specs.Images.{CanTakeChild};
ghost use Rattle.wal_record.specs.State.{KeepsState, branch_rows};
ghost use Rattle.wal_record.specs.declared.page.Rows.TheVariants.{Branch};
ghost use Rattle.adoption.specs.Adoptions.{adopt_of, with_row_for};

use page_rows::{Spot, copied_bound, copied_branch_rows, copied_foster, search};
use std::alloc::Global;
use store_model::{Bound, List, Memory};
use wal_record::{BranchRow, Foster, PageState, Rows};

/// The parent with a row for the child.
pub(crate) fn with_row_for(
    alloc: Global,
    state: &PageState,
    foster: &Foster,
) -> Result<PageState, Memory>
    requires keeps { KeepsState state.now }
    requires takes { CanTakeChild (adopt_of 0 0 0 0 foster.now) state.now }
    ensures { IfOk result (λ s. s ≡ with_row_for foster.now state.now) }
{
    let Spot::Gap(place) = search(state, &foster.key) else {
        unreachable!()
    };
    let rows = rows_with(alloc, &state.rows, place, foster)?;
    Ok(PageState {
        level: state.level,
        low: copied_bound(&state.low),
        high: copied_bound(&state.high),
        foster: copied_foster(&state.foster),
        rows: Rows::Branch(rows),
    })
}

/// The rows of a branch, with one for the child at this place.
fn rows_with(
    alloc: Global,
    rows: &Rows,
    place: usize,
    foster: &Foster,
) -> Result<List<BranchRow>, Memory>
    requires branch { rows.now ≡ Branch (branch_rows rows.now) }
    requires place { place ≤ length (branch_rows rows.now) }
    ensures { IfOk result (λ r. r ≡ insert (branch_rows rows.now) place (record { low = Some foster.now.key; child = foster.now.child })) }
{
    let Rows::Branch(rows) = rows else {
        unreachable!()
    };
    let mut larger = copied_branch_rows(alloc, rows.as_slice())?;
    larger.insert(
        place,
        BranchRow {
            low: Bound::of_key(&foster.key),
            child: foster.child,
        },
    )?;
    Ok(larger)
}
