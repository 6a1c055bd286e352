//! Locks, and whom a refusal names.
use journal_steps::{Line, Step};
use store_model::Mode::{Exclusive, Shared};

/// As many begin as may, which are 64, and one more where one of them has committed.
pub(crate) const BEGINS: &[Line<'static>] = &[
    (Step::Begins, "too many at 64"),
    (Step::Commit(64), "commit 1 at 66"),
    (Step::Begin, "65 at 67"),
    (Step::Begin, "too many at 67"),
];

/// Transaction 1 locks the keys from c up to f for a scan. Transaction 2 may put directly below and from f on, and not from c
/// on; and 1 may go on to scan what ends where 2 has locked.
pub(crate) const A_SCAN: &[Line<'static>] = &[
    (Step::Begin, "1 at 1"),
    (Step::Begin, "2 at 2"),
    (Step::Scan(1, Shared, "c", "f"), "held at 3"),
    (Step::Lock(2, Exclusive, "b~"), "held at 4"),
    (Step::Lock(2, Exclusive, "c"), "conflict 1 c..f at 5"),
    (Step::Lock(2, Exclusive, "d"), "conflict 1 c..f at 6"),
    (Step::Lock(2, Exclusive, "e~"), "conflict 1 c..f at 7"),
    (Step::Lock(2, Exclusive, "f"), "held at 8"),
    (Step::Scan(2, Shared, "a", "z"), "held at 9"),
    (Step::Scan(1, Shared, "a", "b~"), "held at 10"),
    (Step::Scan(1, Shared, "a", "c"), "conflict 2 b~..b~\0 at 11"),
    (Step::Lock(1, Shared, "b"), "held at 12"),
    (Step::Scan(1, Shared, "e", ""), "conflict 2 f..f\0 at 13"),
    (Step::Scan(1, Shared, "f~", ""), "held at 14"),
];

/// Of two holders the lesser is named, with the first of its ranges: the one that begins first, and of two that begin together
/// the one that ends first. Beside the ranges there is no holder, and a holder that is over is none.
pub(crate) const LEAST_HOLDER: &[Line<'static>] = &[
    (Step::Begin, "1 at 1"),
    (Step::Begin, "2 at 2"),
    (Step::Begin, "3 at 3"),
    (Step::Scan(2, Shared, "c", "f"), "held at 4"),
    (Step::Scan(1, Shared, "d", "h"), "held at 5"),
    (Step::Scan(1, Shared, "d", "f"), "held at 6"),
    (Step::Lock(1, Shared, "e"), "held at 7"),
    (Step::Scan(1, Shared, "b", "e"), "held at 8"),
    (Step::Lock(3, Exclusive, "e"), "conflict 1 d..f at 9"),
    (Step::Lock(3, Exclusive, "d"), "conflict 1 b..e at 10"),
    (Step::Lock(3, Exclusive, "h"), "held at 11"),
    (Step::Scan(3, Shared, "a", "h"), "held at 12"),
    (Step::Commit(1), "commit 1 at 14"),
    (Step::Lock(3, Exclusive, "e"), "conflict 2 c..f at 15"),
    (Step::End(2), "record 3 at 16"),
    (Step::Lock(3, Exclusive, "e"), "held at 17"),
];

/// The End of a transaction lets its locks go.
pub(crate) const AN_END: &[Line<'static>] = &[
    (Step::Begin, "1 at 1"),
    (Step::Lock(1, Exclusive, "a"), "held at 2"),
    (Step::End(1), "record 2 at 3"),
    (Step::Begin, "2 at 4"),
    (Step::Lock(2, Exclusive, "a"), "held at 5"),
];
