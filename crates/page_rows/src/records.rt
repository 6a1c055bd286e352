//! Redo: what a record does to a page.
ghost use Rattle.std.specs.Prelude.{◌≡◌, ◌≤◌, IsTrue, IfOk, OnErr, IfSome};
ghost use Rattle.wal_record.specs.Chains.{names};
ghost use Rattle.wal_record.specs.Rules.{HasSpelling};
ghost use Rattle.wal_record.specs.State.{KeepsState};
ghost use Rattle.wal_record.specs.Images.{CanGiveChild, CanPurge, first_page, purged, without_foster};
ghost use Rattle.wal_record.specs.declared.record.Record.TheVariants as kinds;
ghost use Rattle.page_rows.specs.Redo.{Redone, Applied, Made, OnImage};

use crate::adopt_redo::{give_child, take_child};
use crate::leaf_redo::{apply, purge, undo, write};
use crate::split_redo::{bottom, grow, make, split};
use operators::Operators;
use std::alloc::Global;
use store_model::{Bound, List, Memory, PageNo};
use wal_record::{Adopt, Apply, Grow, PageState, Record, Rows, Split, Undo, Write};

/// Redoes a record on a page: true where the record names the page and is applicable to its state, which is then what
/// the record makes of it; else false, and nothing changes. `None` stands for a page that has no image yet. After
/// `Memory` nothing has changed. A state that keeps its rules keeps them. A write, an operator and an undo look for
/// their row in as many steps as the number of rows has binary digits, and change no other row.
pub fn redo(
    alloc: Global,
    state: &mut Option<PageState>,
    page: PageNo,
    entry: &Record,
    operators: &Operators,
) -> Result<bool, Memory>
    requires spelling { HasSpelling entry.now }
    requires rules { IfSome state.old KeepsState }
    ensures done { IfOk result (Redone entry.now page state.old state.new) }
    ensures err { OnErr result (state.new ≡ state.old) }
    ensures rules { IfSome state.new KeepsState }
{
    redo_kind(alloc, state, page, entry, operators)
}

fn redo_kind(
    alloc: Global,
    state: &mut Option<PageState>,
    page: PageNo,
    entry: &Record,
    operators: &Operators,
) -> Result<bool, Memory>
    requires spelling { HasSpelling entry.now }
    requires rules { IfSome state.old KeepsState }
    ensures done { IfOk result (Redone entry.now page state.old state.new) }
    ensures err { OnErr result (state.new ≡ state.old) }
{
    if !names(page, entry) {
        return Ok(false);
    }
    match entry {
        Record::Format(_) => Ok(redo_format(alloc, state)),
        Record::Write(write) => redo_write(state, write),
        Record::Apply(apply) => redo_apply(state, apply, operators),
        Record::Undo(undo) => redo_undo(state, undo),
        Record::Split(split) => redo_split(alloc, state, page, split),
        Record::Adopt(adopt) => redo_adopt(state, page, adopt),
        Record::Grow(grow) => redo_grow(alloc, state, page, grow),
        Record::Purge(_) => Ok(redo_purge(alloc, state)),
        _ => Ok(false),
    }
}

/// Whether a record names a page, and so is on its chain.
pub fn names(page: PageNo, entry: &Record) -> bool
    ensures { result ≡ names page entry.now }
{
    match entry {
        Record::Format(_) => page == 1,
        Record::Write(write) => page == write.page,
        Record::Apply(apply) => page == apply.page,
        Record::Undo(undo) => page == undo.page,
        Record::Split(split) => page == split.page || page == split.child,
        Record::Adopt(adopt) => page == adopt.parent || page == adopt.fosterer,
        Record::Grow(grow) => page == 1 || page == grow.child,
        Record::Purge(purge) => page == purge.page,
        _ => false,
    }
}

fn redo_format(alloc: Global, state: &mut Option<PageState>) -> bool
    ensures { Made first_page state.old state.new result }
{
    if state.is_some() {
        return false;
    }
    *state = Some(PageState {
        level: 0,
        low: bottom(),
        high: Bound::top(),
        foster: None,
        rows: Rows::Leaf(List::new(alloc)),
    });
    true
}

fn redo_write(state: &mut Option<PageState>, entry: &Write) -> Result<bool, Memory>
    requires { IfSome state.old KeepsState }
    ensures done { IfOk result (Applied (kinds.Write entry.now) entry.now.page state.old state.new) }
    ensures err { OnErr result (state.new ≡ state.old) }
{
    match state {
        Some(state) => write(state, entry),
        None => Ok(false),
    }
}

fn redo_apply(
    state: &mut Option<PageState>,
    entry: &Apply,
    operators: &Operators,
) -> Result<bool, Memory>
    requires { IfSome state.old KeepsState }
    ensures done { IfOk result (Applied (kinds.Apply entry.now) entry.now.page state.old state.new) }
    ensures err { OnErr result (state.new ≡ state.old) }
{
    match state {
        Some(state) => apply(state, entry, operators),
        None => Ok(false),
    }
}

fn redo_undo(state: &mut Option<PageState>, entry: &Undo) -> Result<bool, Memory>
    requires { IfSome state.old KeepsState }
    ensures done { IfOk result (Applied (kinds.Undo entry.now) entry.now.page state.old state.new) }
    ensures err { OnErr result (state.new ≡ state.old) }
{
    match state {
        Some(state) => undo(state, entry),
        None => Ok(false),
    }
}

fn redo_split(
    alloc: Global,
    state: &mut Option<PageState>,
    page: PageNo,
    entry: &Split,
) -> Result<bool, Memory>
    requires names { IsTrue (names page (kinds.Split entry.now)) }
    requires rules { IfSome state.old KeepsState }
    requires child { KeepsState entry.now.child_state }
    ensures done { IfOk result (Applied (kinds.Split entry.now) page state.old state.new) }
    ensures err { OnErr result (state.new ≡ state.old) }
{
    if page != entry.page {
        return make(alloc, state, &entry.child_state);
    }
    if page == entry.child {
        return Ok(false);
    }
    match state {
        Some(state) => Ok(split(alloc, state, entry)),
        None => Ok(false),
    }
}

fn redo_adopt(state: &mut Option<PageState>, page: PageNo, entry: &Adopt) -> Result<bool, Memory>
    requires names { IsTrue (names page (kinds.Adopt entry.now)) }
    requires rules { IfSome state.old KeepsState }
    ensures done { IfOk result (Applied (kinds.Adopt entry.now) page state.old state.new) }
    ensures err { OnErr result (state.new ≡ state.old) }
{
    if page != entry.parent {
        return Ok(redo_giving(state, entry));
    }
    if page == entry.fosterer {
        return Ok(false);
    }
    match state {
        Some(state) => take_child(state, entry),
        None => Ok(false),
    }
}

fn redo_giving(state: &mut Option<PageState>, entry: &Adopt) -> bool
    requires { IfSome state.old KeepsState }
    ensures { OnImage (CanGiveChild entry.now) (without_foster entry.now) state.old state.new result }
{
    match state {
        Some(state) => give_child(state, entry),
        None => false,
    }
}

fn redo_grow(
    alloc: Global,
    state: &mut Option<PageState>,
    page: PageNo,
    entry: &Grow,
) -> Result<bool, Memory>
    requires names { IsTrue (names page (kinds.Grow entry.now)) }
    requires rules { IfSome state.old KeepsState }
    requires child { KeepsState entry.now.child_state }
    requires other { 2 ≤ entry.now.child }
    ensures done { IfOk result (Applied (kinds.Grow entry.now) page state.old state.new) }
    ensures err { OnErr result (state.new ≡ state.old) }
{
    if page != 1 {
        return make(alloc, state, &entry.child_state);
    }
    match state {
        Some(state) => grow(alloc, state, entry),
        None => Ok(false),
    }
}

fn redo_purge(alloc: Global, state: &mut Option<PageState>) -> bool
    requires { IfSome state.old KeepsState }
    ensures { OnImage CanPurge purged state.old state.new result }
{
    match state {
        Some(state) => purge(alloc, state),
        None => false,
    }
}
