//! A page against the rules of a state.
ghost use Rattle.std.specs.Prelude.{◌≡◌, ◌≤◌, ◌↔◌, IsOk, IsTrue, IfErr, OnOk};
ghost use Rattle.store_model.specs.Range.{IsBelow};
ghost use Rattle.wal_record.specs.State.{KeepsState, foster_fits, is_text, own_part, page_room, state_size, text_of};
ghost use Rattle.fence_check.specs.Breaches.{AreInOrder, AreKept, BeginsAt, HasLevel, IsFirstBreach, page_rules};

use crate::breach::Breach;
use crate::rows::{are_in_order, is_child};
use store_model::Bound;
use wal_record::{Foster, PageState, Rows};

/// Whether a page keeps the rules of a state, but for its length in bytes.
pub fn check_page(state: &PageState) -> Result<(), Breach>
    ensures kept { OnOk result (AreKept (page_rules state.now)) }
    ensures broken { IfErr result (IsFirstBreach (page_rules state.now)) }
    ensures keeps { OnOk result (state_size state.now ≤ page_room → KeepsState state.now) }
    ensures never { KeepsState state.now → IsOk result }
{
    if !has_level(state.level, &state.rows) {
        return Err(Breach::Level);
    }
    if !is_text(&state.low) || !begins_at(&state.low, &state.rows) {
        return Err(Breach::Low);
    }
    if !state.low.is_below(&state.high) || !is_text(&state.high) {
        return Err(Breach::High);
    }
    if !has_order(state) {
        return Err(Breach::Order);
    }
    if !foster_fits(&state.low, &state.high, &state.foster) {
        return Err(Breach::Foster);
    }
    Ok(())
}

fn has_level(level: u8, rows: &Rows) -> bool
    ensures { IsTrue result ↔ HasLevel level rows.now }
{
    match rows {
        Rows::Leaf(_) => level == 0,
        Rows::Branch(_) => 1 <= level,
    }
}

fn is_text(bound: &Bound) -> bool
    ensures { result ≡ is_text (text_of bound.now) }
{
    bound.text().len() <= 64
}

fn begins_at(low: &Bound, rows: &Rows) -> bool
    ensures { IsTrue result ↔ BeginsAt low.now rows.now }
{
    match rows {
        Rows::Leaf(_) => true,
        Rows::Branch(rows) => match rows.as_slice().first() {
            Some(row) => row.low == *low,
            None => false,
        },
    }
}

/// Whether the rows rise, and each lies in the page's own part.
fn has_order(state: &PageState) -> bool
    ensures { IsTrue result ↔ AreInOrder (own_part state.now) state.now.rows }
{
    match &state.foster {
        Some(foster) => are_in_order(&state.low, &Bound::of_key(&foster.key), &state.rows),
        None => are_in_order(&state.low, &state.high, &state.rows),
    }
}

fn foster_fits(low: &Bound, high: &Bound, foster: &Option<Foster>) -> bool
    ensures { result ≡ foster_fits low.now high.now foster.now }
{
    match foster {
        None => true,
        Some(foster) => {
            let key = Bound::of_key(&foster.key);
            low.is_below(&key) && key.is_below(high) && is_text(&key) && is_child(foster.child)
        }
    }
}
