//! The halves of a page that is split.
ghost use Rattle.std.specs.Prelude.{◌≡◌, ◌<◌, ◌≤◌, length, take, IfOk};
ghost use Rattle.wal_record.specs.State.{KeepsState, row_sizes, split_point};
ghost use Rattle.wal_record.specs.Legal.{split_key};
ghost use Rattle.page_rows.specs.Redo.{first_rows};
ghost use Rattle.page_rows.specs.Rows.{row_count};
ghost use Rattle.foster_laws.specs.Splits.{upper_half};
ghost use Rattle.page_halves.specs.Parts.{lower_with, rows_from};

use page_rows::{copied_bound, copied_branch_rows, copied_foster, copied_leaf_rows, split_point};
use std::alloc::Global;
use std::mem;
use store_model::{Bound, Key, List, Memory, PageNo};
use wal_record::{Foster, PageState, Rows};

/// The new page of a split: the rows from the split point on, with the page's level, high fence and foster child.
pub fn upper_half(alloc: Global, state: &PageState) -> Result<PageState, Memory>
    requires keeps { KeepsState state.now }
    requires goes { split_point (row_sizes state.now.rows) < length (row_sizes state.now.rows) }
    ensures { IfOk result (λ s. s ≡ upper_half state.now) }
{
    let kept = split_point(state);
    let rows = rows_from(alloc, &state.rows, kept)?;
    Ok(PageState {
        level: state.level,
        low: first_key(&state.rows, kept),
        high: copied_bound(&state.high),
        foster: copied_foster(&state.foster),
        rows,
    })
}

/// Where the rows from the split point on begin.
fn first_key(rows: &Rows, kept: usize) -> Bound
    requires at { kept ≡ split_point (row_sizes rows.now) }
    requires goes { kept < row_count rows.now }
    ensures { result ≡ split_key rows.now }
{
    match rows {
        Rows::Leaf(rows) => Bound::of_key(&rows.as_slice()[kept].key),
        Rows::Branch(rows) => copied_bound(&rows.as_slice()[kept].low),
    }
}

/// The rows from a place on.
fn rows_from(alloc: Global, rows: &Rows, place: usize) -> Result<Rows, Memory>
    requires { place < row_count rows.now }
    ensures { IfOk result (λ r. r ≡ rows_from place rows.now) }
{
    match rows {
        Rows::Leaf(rows) => {
            let (_, upper) = rows.as_slice().split_at(place);
            let rows = copied_leaf_rows(alloc, upper)?;
            Ok(Rows::Leaf(rows))
        }
        Rows::Branch(rows) => {
            let (_, upper) = rows.as_slice().split_at(place);
            let rows = copied_branch_rows(alloc, upper)?;
            Ok(Rows::Branch(rows))
        }
    }
}

/// Leaves the page its rows below the split point, and makes the new page its foster child. It takes no memory.
pub fn keep_lower(alloc: Global, state: &mut PageState, child: PageNo)
    requires keeps { KeepsState state.old }
    requires stays { 1 ≤ split_point (row_sizes state.old.rows) }
    requires goes { split_point (row_sizes state.old.rows) < length (row_sizes state.old.rows) }
    ensures { state.new ≡ lower_with child state.old }
{
    let kept = split_point(state);
    let low = first_key(&state.rows, kept);
    let Some(key) = Key::new(low.text()) else {
        unreachable!()
    };
    state.foster = Some(Foster { key, child });
    keep_first(alloc, &mut state.rows, kept);
}

/// Drops all rows but the first ones.
fn keep_first(alloc: Global, rows: &mut Rows, kept: usize)
    ensures { rows.new ≡ first_rows kept rows.old }
{
    match rows {
        Rows::Leaf(rows) => keep_first_items(alloc, rows, kept),
        Rows::Branch(rows) => keep_first_items(alloc, rows, kept),
    }
}

fn keep_first_items<X: Drop>(alloc: Global, items: &mut List<X>, kept: usize)
    ensures { items.new ≡ take kept items.old }
{
    let mut all = mem::replace(items, List::new(alloc)).into_vec();
    all.truncate(kept);
    *items = List::from_vec(all);
}
