//! The way forward: records are redone on a page.
ghost use Rattle.std.specs.Prelude.{◌≡◌, reverse, IfOk, IfSome};
ghost use Rattle.wal_record.specs.State.{KeepsState};
ghost use Rattle.page_repair.specs.Rebuild.{AreSpelled, Replayed, base_lsn, base_state};

use operators::Operators;
use page_image::Sealed;
use page_rows::redo;
use std::alloc::Global;
use store_model::{Lsn, Memory, PageNo};
use wal_record::{PageState, Record};

/// Where a page is rebuilt from.
pub fn start(base: Option<Sealed>) -> (Lsn, Option<PageState>)
    ensures { (result.0 ≡ base_lsn base) × (result.1 ≡ base_state base) }
{
    match base {
        Some(base) => (base.lsn, Some(base.state)),
        None => (0, None),
    }
}

/// Redoes records, which stand last first, on a page: true where each could be.
pub fn replay(
    alloc: Global,
    page: PageNo,
    state: &mut Option<PageState>,
    records: Vec<Record>,
    operators: &Operators,
) -> Result<bool, Memory>
    requires spelled { AreSpelled records.items }
    requires rules { IfSome state.old KeepsState }
    ensures done { IfOk result (Replayed page (reverse records.items) state.old state.new) }
    ensures rules { IfSome state.new KeepsState }
{
    let mut left = records.as_slice();
    while let Some((record, rest)) = left.split_last() {
        if !redo(alloc, state, page, record, operators)? {
            return Ok(false);
        }
        left = rest;
    }
    Ok(true)
}
