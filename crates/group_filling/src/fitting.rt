//! What is looked at before a group is entered.
ghost use Rattle.std.specs.Prelude.{◌≡◌, ◌≤◌, [], ◌∷◌, length, IsTrue, IsSome, IfSome, Some, None, true, false};
ghost use Rattle.std.specs.List.{list_all, list_any};
ghost use Rattle.life_history.specs.Groups as forms;
ghost use Rattle.life_history.specs.Groups.{IsOwn};
ghost use Rattle.page_ops.specs.Groups as groups;
ghost use Rattle.log_index.specs.Ready as ready;
ghost use Rattle.page_ops.specs.Groups.{Each, is_to};
ghost use Rattle.wal_record.specs.Chains as chains;
ghost use Rattle.wal_record.specs.Chains.{link_of};
ghost use Rattle.wal_record.specs.Checkpoints as checkpoints;
ghost use Rattle.wal_record.specs.Rules as rules;
ghost use Rattle.wal_record.specs.Rules.{is_lsn_or_none};
ghost use Rattle.wal_record.specs.State as state;
ghost use Rattle.group_filling.specs.Fields.{Joins};
ghost use Rattle.group_filling.specs.Fitting.{AreInRange, IsFit};

use books::{PageRight, SessionRight};
use life_history::{History, names};
use page_ops::{Life, Rights};
use store_model::{HIGHEST, Lsn, MOST_PAGES, PageNo, TxId};
use wal_record::Record;

/// Whether the right is to the page.
fn is_right_to<N: Life>(page: PageNo, right: &Option<PageRight<N>>) -> bool
    ensures { result ≡ is_to page right.now }
{
    match right {
        Some(right) => right.page() == page,
        None => false,
    }
}

/// Whether one of the rights is to the page, or the new one is.
fn has_page<N: Life>(rights: &Rights<N>, made: &Option<PageRight<N>>, page: PageNo) -> bool
    ensures { result ≡ forms.has_page rights.now made.now page }
{
    is_right_to(page, &rights.a) || is_right_to(page, &rights.b) || is_right_to(page, made)
}

/// Whether there are rights to all pages that the record names.
fn is_covered<N: Life>(rights: &Rights<N>, made: &Option<PageRight<N>>, rec: &Record) -> bool
    ensures { result ≡ forms.is_covered rights.now made.now rec.now }
{
    match rec {
        Record::Format(_) => has_page(rights, made, 1),
        Record::Write(w) => has_page(rights, made, w.page),
        Record::Apply(a) => has_page(rights, made, a.page),
        Record::Undo(u) => has_page(rights, made, u.page),
        Record::Split(s) => has_page(rights, made, s.page) && has_page(rights, made, s.child),
        Record::Adopt(a) => {
            has_page(rights, made, a.parent) && has_page(rights, made, a.fosterer)
        }
        Record::Grow(g) => has_page(rights, made, 1) && has_page(rights, made, g.child),
        Record::Purge(p) => has_page(rights, made, p.page),
        _ => true,
    }
}

/// Whether the record names no transaction, or that of the session, or one that no session began.
fn is_own<N: Life>(history: &History<'_, N>, s: &Option<SessionRight<N>>, rec: &Record) -> bool
    ensures { IsTrue result → IsOwn history.now s.now (link_of rec.now) }
{
    match rec {
        Record::Write(w) => is_of(history, s, w.tx),
        Record::Apply(a) => is_of(history, s, a.tx),
        Record::Undo(u) => is_of(history, s, u.tx),
        Record::Commit(_) => false,
        Record::End(_) => false,
        _ => true,
    }
}

/// Whether the transaction is that of the session, or one that no session began: a loser of the opening log.
fn is_of<N: Life>(history: &History<'_, N>, s: &Option<SessionRight<N>>, tx: TxId) -> bool
    ensures { IsTrue result → IsOwn history.now s.now (Some (record { tx = tx; prev = 0 })) }
{
    history.is_earlier(tx) || is_session_of(s, tx)
}

/// Whether the transaction is that of the session.
fn is_session_of<N: Life>(s: &Option<SessionRight<N>>, tx: TxId) -> bool
    ensures { IsTrue result → forms.is_by s.now (Some (record { tx = tx; prev = 0 })) ≡ true }
{
    match s {
        Some(s) => s.tx() != 0 && tx == s.tx(),
        None => false,
    }
}

/// Whether no transaction ends by the record.
fn is_still(rec: &Record) -> bool
    ensures { result ≡ forms.is_still rec.now }
{
    !matches!(rec, Record::Commit(_) | Record::End(_))
}

/// Whether the record says that a backup or a run is done.
fn is_maintenance(rec: &Record) -> bool
    ensures { result ≡ groups.needs_maintenance rec.now }
{
    matches!(rec, Record::BackupDone(_) | Record::RunDone(_))
}

/// Whether one record has the form.
fn is_one_fit<N: Life>(
    history: &History<'_, N>,
    rights: &Rights<N>,
    made: &Option<PageRight<N>>,
    rec: &Record,
) -> bool
    ensures still { IsTrue result → IsTrue (forms.is_still rec.now) }
    ensures own { IsTrue result → IsOwn history.now rights.now.s (link_of rec.now) }
    ensures covered { IsTrue result → IsTrue (forms.is_covered rights.now made.now rec.now) }
    ensures maintained { IsTrue result → groups.needs_maintenance rec.now ≡ true → IsSome rights.now.m }
{
    is_still(rec)
        && is_own(history, &rights.s, rec)
        && is_covered(rights, made, rec)
        && (!is_maintenance(rec) || rights.m.is_some())
}

/// Whether the new right, if there is one, is to a page that these records name.
fn is_named<N: Life>(made: &Option<PageRight<N>>, recs: &[Record]) -> bool
    requires { length recs.now ≤ 2 }
    ensures { IsTrue result → IfSome made.now (λ p. list_any (chains.names p.page) recs.now ≡ true) }
{
    match made {
        Some(right) => match recs {
            [one] => names(right.page(), one),
            [one, two] => names(right.page(), one) || names(right.page(), two),
            _ => false,
        },
        None => true,
    }
}

/// Whether each of these records has it.
fn are_fit<N: Life>(
    history: &History<'_, N>,
    rights: &Rights<N>,
    made: &Option<PageRight<N>>,
    recs: &[Record],
) -> bool
    requires { length recs.now ≤ 2 }
    ensures still { IsTrue result → IsTrue (list_all forms.is_still recs.now) }
    ensures own { IsTrue result → Each (λ r. IsOwn history.now rights.now.s (link_of r)) recs.now }
    ensures covered { IsTrue result → IsTrue (list_all (forms.is_covered rights.now made.now) recs.now) }
    ensures maintained { IsTrue result → list_any groups.needs_maintenance recs.now ≡ true → IsSome rights.now.m }
{
    match recs {
        [] => true,
        [one] => is_one_fit(history, rights, made, one),
        [one, two] => {
            is_one_fit(history, rights, made, one) && is_one_fit(history, rights, made, two)
        }
        _ => unreachable!(),
    }
}

/// Whether the group has the form that can be entered behind the history.
pub fn is_fit<N: Life>(
    history: &History<'_, N>,
    rights: &Rights<N>,
    made: &Option<PageRight<N>>,
    recs: &[Record],
) -> bool
    requires { length recs.now ≤ 2 }
    ensures { IsTrue result → IsFit history.now rights.now made.now recs.now }
{
    if made.is_some() && rights.c.is_some() {
        return false;
    }
    are_fit(history, rights, made, recs) && is_named(made, recs)
}

/// Whether the LSN is one that a record can name, or 0.
fn fits(lsn: Lsn) -> bool
    ensures { result ≡ is_lsn_or_none lsn }
{
    lsn <= HIGHEST
}

/// Whether the number is that of a page.
fn is_page(page: PageNo) -> bool
    ensures { result ≡ rules.is_page page }
{
    1 <= page && page <= MOST_PAGES
}

/// Whether the number is that of a page that isn't the root.
fn is_child(page: PageNo) -> bool
    ensures { result ≡ state.is_child page }
{
    2 <= page && page <= MOST_PAGES
}

/// Whether the fields that are filled in are in their ranges. Of a checkpoint it isn't known.
fn has_numbers(rec: &Record) -> bool
    ensures { IsTrue result → AreInRange rec.now }
{
    match rec {
        Record::Write(w) => fits(w.prev) && is_page(w.page) && fits(w.page_prev),
        Record::Apply(a) => fits(a.prev) && is_page(a.page) && fits(a.page_prev),
        Record::Undo(u) => fits(u.prev) && is_page(u.page) && fits(u.page_prev),
        Record::End(e) => fits(e.prev),
        Record::Split(s) => fits(s.page_prev) && is_child(s.child),
        Record::Adopt(a) => fits(a.parent_prev) && fits(a.fosterer_prev),
        Record::Grow(g) => fits(g.page_prev) && is_child(g.child),
        Record::Purge(p) => fits(p.page_prev),
        Record::Lost(l) => l.pages <= u32::MAX,
        Record::Checkpoint(_) => false,
        _ => true,
    }
}

/// Whether the fields that are filled in are in their ranges in each record.
pub fn have_numbers(recs: &[Record]) -> bool
    requires { length recs.now ≤ 2 }
    ensures { IsTrue result → Each AreInRange recs.now }
{
    match recs {
        [] => true,
        [one] => has_numbers(one),
        [one, two] => has_numbers(one) && has_numbers(two),
        _ => unreachable!(),
    }
}

/// Whether the record is a checkpoint.
fn is_checkpoint(rec: &Record) -> bool
    ensures { result ≡ checkpoints.is_checkpoint rec.now }
{
    matches!(rec, Record::Checkpoint(_))
}

/// Whether the record names a transaction.
fn is_linked(rec: &Record) -> bool
    ensures { result ≡ false → link_of rec.now ≡ None }
{
    matches!(
        rec,
        Record::Write(_) | Record::Apply(_) | Record::Undo(_) | Record::Commit(_) | Record::End(_)
    )
}

/// Whether the record changes segments or runs as a whole.
fn is_upkeep(rec: &Record) -> bool
    ensures { result ≡ ready.is_upkeep rec.now }
{
    matches!(rec, Record::Lost(_) | Record::RunDone(_))
}

/// Whether the record makes a page.
fn makes_page(rec: &Record) -> bool
    ensures { result ≡ ready.makes_page rec.now }
{
    matches!(rec, Record::Format(_) | Record::Split(_) | Record::Grow(_))
}

/// Whether two records may stand together.
fn can_join(one: &Record, two: &Record) -> bool
    ensures { IsTrue result → Joins (one.now ∷ two.now ∷ []) }
{
    !is_linked(one) && !is_upkeep(one) && !makes_page(two) && !is_upkeep(two)
}

/// Whether records can be filled in: one at most, or two that may stand together, and no checkpoint.
pub fn can_fill(recs: &[Record]) -> bool
    ensures few { IsTrue result → length recs.now ≤ 2 }
    ensures joins { IsTrue result → Joins recs.now }
    ensures plain { IsTrue result → list_any checkpoints.is_checkpoint recs.now ≡ false }
{
    match recs {
        [] => true,
        [one] => !is_checkpoint(one),
        [one, two] => !is_checkpoint(one) && !is_checkpoint(two) && can_join(one, two),
        _ => false,
    }
}
