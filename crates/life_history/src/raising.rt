//! What the records of a group make of the rights to pages and to maintenance, and of their books.
ghost use Rattle.std.specs.Prelude.{◌≡◌, ◌+◌, ◌<◌, ◌≤◌, ◌^◌, ℕ, length, filter, true, Some, IfSome, IsTrue};
ghost use Rattle.std.specs.List.{list_any};
ghost use Rattle.std.specs.Option.{option_map};
ghost use Rattle.page_ops.specs.Groups.{group_entries, needs_maintenance};
ghost use Rattle.page_ops.specs.Outcomes as outcomes;
ghost use Rattle.page_ops.specs.Outcomes.{is_undo};
ghost use Rattle.wal_record.specs.Rules.{is_page};
ghost use Rattle.wal_record.specs.Chains.{link_of};
ghost use Rattle.wal_record.specs.Chains as chains;
ghost use Rattle.life_history.specs.Groups as groups;
ghost use Rattle.life_history.specs.Groups.{ArePagesSet, IsMaintenanceSet, IsPageSet, head_behind, maintenance_behind, new_or, own_entries, raised_maintenance, raised_page};

use books::{Book, BookTable, MaintBook, MaintRight, PageBook, PageRight, SessionRight};
use page_ops::{Life, Rights, Said};
use store_model::{Lsn, PageNo, TxId};
use wal_record::Record;

/// Whether the record names the page.
pub fn names(page: PageNo, rec: &Record) -> bool
    ensures { result ≡ chains.names page rec.now }
{
    match rec {
        Record::Format(_) => page == 1,
        Record::Write(write) => page == write.page,
        Record::Apply(apply) => page == apply.page,
        Record::Undo(undo) => page == undo.page,
        Record::Split(split) => page == split.page || page == split.child,
        Record::Adopt(adopt) => page == adopt.parent || page == adopt.fosterer,
        Record::Grow(grow) => page == 1 || page == grow.child,
        Record::Purge(purge) => page == purge.page,
        _ => false,
    }
}

/// Whether the record says that a backup or a run is done.
fn is_maintenance(rec: &Record) -> bool
    ensures { result ≡ needs_maintenance rec.now }
{
    matches!(rec, Record::BackupDone(_) | Record::RunDone(_))
}

/// Whether the record names the transaction of the right's session.
fn is_by<N: Life>(s: &Option<SessionRight<N>>, rec: &Record) -> bool
    ensures { result ≡ groups.is_by s.now (link_of rec.now) }
{
    match rec {
        Record::Write(write) => has_tx(s, write.tx),
        Record::Apply(apply) => has_tx(s, apply.tx),
        Record::Undo(undo) => has_tx(s, undo.tx),
        Record::Commit(commit) => has_tx(s, commit.tx),
        Record::End(end) => has_tx(s, end.tx),
        _ => false,
    }
}

/// Whether this is the transaction of the right's session.
fn has_tx<N: Life>(s: &Option<SessionRight<N>>, tx: TxId) -> bool
    ensures { result ≡ groups.is_by s.now (Some (record { tx = tx; prev = 0 })) }
{
    match s {
        Some(s) => s.tx() != 0 && tx == s.tx(),
        None => false,
    }
}

/// The head of a page behind records from this LSN on, where it was this before.
pub fn head_after(page: PageNo, before: Lsn, lsn: Lsn, recs: &[Record]) -> Lsn
    requires few { length recs.now ≤ 2 }
    requires fits { lsn + 1 < 2 ^ 63 }
    ensures value { result ≡ head_behind page before lsn recs.now }
{
    match recs {
        [] => before,
        [one] => if names(page, one) { lsn } else { before },
        [one, two] => {
            if names(page, two) {
                lsn + 1
            } else if names(page, one) {
                lsn
            } else {
                before
            }
        }
        _ => unreachable!(),
    }
}

/// The last LSN of these records that says that a backup or a run is done, or that before them.
fn maintenance_after(before: Lsn, lsn: Lsn, recs: &[Record]) -> Lsn
    requires few { length recs.now ≤ 2 }
    requires fits { lsn + 1 < 2 ^ 63 }
    ensures { result ≡ maintenance_behind before lsn recs.now }
{
    match recs {
        [] => before,
        [one] => if is_maintenance(one) { lsn } else { before },
        [one, two] => {
            if is_maintenance(two) {
                lsn + 1
            } else if is_maintenance(one) {
                lsn
            } else {
                before
            }
        }
        _ => unreachable!(),
    }
}

/// How many entries of a group belong to its session, to which this is the right.
pub(crate) fn own_of<N: Life>(
    s: &Option<SessionRight<N>>,
    recs: &[Record],
    said: &Option<Said>,
) -> u64
    requires few { length recs.now ≤ 2 }
    ensures value { result ≡ own_entries s.now recs.now said.now }
    ensures few { result ≤ 3 }
{
    let mut own = u64::from(said.is_some());
    match recs {
        [] => {}
        [one] => own += u64::from(is_by(s, one)),
        [one, two] => own += u64::from(is_by(s, one)) + u64::from(is_by(s, two)),
        _ => unreachable!(),
    }
    own
}

/// How many of these records undo a write.
pub(crate) fn undone_of(recs: &[Record]) -> u64
    requires few { length recs.now ≤ 2 }
    ensures value { result ≡ length (filter is_undo recs.now) }
    ensures few { result ≤ 2 }
{
    let mut undone = 0;
    match recs {
        [] => {}
        [one] => undone += u64::from(is_undo(one)),
        [one, two] => undone += u64::from(is_undo(one)) + u64::from(is_undo(two)),
        _ => unreachable!(),
    }
    undone
}

/// Whether the record undoes a write.
fn is_undo(rec: &Record) -> bool
    ensures { result ≡ outcomes.is_undo rec.now }
{
    matches!(rec, Record::Undo(_))
}

/// How many entries a group has.
pub(crate) fn entries_of(recs: &[Record], said: &Option<Said>) -> u64
    requires few { length recs.now ≤ 2 }
    ensures value { (lsn : ℕ) → result ≡ length (group_entries lsn recs.now said.now) }
    ensures few { result ≤ 3 }
{
    match said {
        Some(_) => recs.len() as u64 + 1,
        None => recs.len() as u64,
    }
}

/// The new right, if there is one, comes into its place.
fn put_new<N: Life>(new: Option<PageRight<N>>, place: &mut Option<PageRight<N>>)
    ensures { place.new ≡ new_or new place.old }
{
    if new.is_some() {
        *place = new;
    }
}

/// The right to a page, and its entry in the book, get the page's head behind these records.
fn raise_page<N: Life>(
    book: &mut Book<PageBook<N>>,
    table: &BookTable<PageBook<N>>,
    right: &mut Option<PageRight<N>>,
    lsn: Lsn,
    recs: &[Record],
)
    requires few { length recs.now ≤ 2 }
    requires fits { lsn + 1 < 2 ^ 63 }
    ensures right { right.new ≡ option_map (raised_page lsn recs.now) right.old }
    ensures set { IsPageSet lsn recs.now right.old book.old book.new }
{
    if let Some(old) = right.take() {
        let head = head_after(old.page(), old.lsn(), lsn, recs);
        *right = Some(PageRight::of(book.set(table, old.into_right(), head, 0)));
    }
}

/// The same of all rights to pages, and of the new one, which comes into its place.
pub(crate) fn raise_pages<N: Life>(
    book: &mut Book<PageBook<N>>,
    table: &BookTable<PageBook<N>>,
    rights: &mut Rights<N>,
    mut new: Option<PageRight<N>>,
    lsn: Lsn,
    recs: &[Record],
)
    requires few { length recs.now ≤ 2 }
    requires numbers { (1 ≤ lsn) × (lsn + 1 < 2 ^ 63) }
    requires named { IfSome new (λ p. IsTrue (is_page p.page) × (list_any (chains.names p.page) recs.now ≡ true)) }
    ensures rights { rights.new ≡ record rights.old { a = option_map (raised_page lsn recs.now) rights.old.a; b = option_map (raised_page lsn recs.now) rights.old.b; c = new_or (option_map (raised_page lsn recs.now) new) (option_map (raised_page lsn recs.now) rights.old.c) } }
    ensures pages { ArePagesSet lsn recs.now rights.old new book.old book.new }
{
    raise_page(book, table, &mut rights.a, lsn, recs);
    raise_page(book, table, &mut rights.b, lsn, recs);
    raise_page(book, table, &mut rights.c, lsn, recs);
    raise_page(book, table, &mut new, lsn, recs);
    put_new(new, &mut rights.c);
}

/// The right to maintenance, and its entry in the book, get the last LSN of maintenance behind these records.
pub(crate) fn raise_maintenance<N: Life>(
    book: &mut Book<MaintBook<N>>,
    table: &BookTable<MaintBook<N>>,
    right: &mut Option<MaintRight<N>>,
    lsn: Lsn,
    recs: &[Record],
)
    requires few { length recs.now ≤ 2 }
    requires fits { lsn + 1 < 2 ^ 63 }
    ensures right { right.new ≡ option_map (raised_maintenance lsn recs.now) right.old }
    ensures set { IsMaintenanceSet lsn recs.now right.old book.old book.new }
{
    if let Some(old) = right.take() {
        let last = maintenance_after(old.lsn(), lsn, recs);
        *right = Some(MaintRight::of(book.set(table, old.into_right(), last, 0)));
    }
}
