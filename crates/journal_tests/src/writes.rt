//! Writes on page 1, whose first record is the Format.
use journal_steps::{Line, Step};
use store_model::Mode::{Exclusive, Shared};

/// In a store of 8 pages and open writes a write has to leave room for itself and for the undo of one more: with one page there
/// are six. A del of what isn't there needs none, and an undo makes room.
pub(crate) const FULL: &[Line<'static>] = &[
    (Step::Begin, "1 at 1"),
    (Step::Scan(1, Exclusive, "a", ""), "held at 2"),
    (Step::Put(1, "a", "", "1"), "record 2 at 4"),
    (Step::Put(1, "b", "", "1"), "record 3 at 6"),
    (Step::Put(1, "c", "", "1"), "record 4 at 8"),
    (Step::Put(1, "d", "", "1"), "record 5 at 10"),
    (Step::Put(1, "e", "", "1"), "record 6 at 12"),
    (Step::Put(1, "a", "1", ""), "record 7 at 14"),
    (Step::Put(1, "f", "", "1"), "full 1 6 at 15"),
    (Step::Put(1, "b", "1", ""), "full 1 6 at 16"),
    (Step::Put(1, "z", "", ""), "record 0 at 17"),
    (Step::Undo(1, 1), "record 8 at 18"),
    (Step::Put(1, "b", "1", ""), "record 9 at 20"),
    (Step::Put(1, "f", "", "1"), "full 1 6 at 21"),
    (Step::Commit(1), "commit 1 at 23"),
    (Step::Begin, "2 at 24"),
    (Step::Lock(2, Exclusive, "f"), "held at 25"),
    (Step::Put(2, "f", "", "1"), "record 11 at 27"),
];

/// The same for operators: six of them, and the seventh where one was taken back. The first three make n 5, 7 and 9, the others
/// m 4, and t a and ab.
pub(crate) const FULL_BY_OPERATORS: &[Line<'static>] = &[
    (Step::Begin, "1 at 1"),
    (Step::Scan(1, Exclusive, "a", ""), "held at 2"),
    (Step::Apply(1, 1, "n", "", "5"), "record 2 at 4"),
    (Step::Apply(1, 1, "n", "5", "2"), "record 3 at 6"),
    (Step::Apply(1, 2, "n", "7", "9"), "record 4 at 8"),
    (Step::Apply(1, 2, "m", "", "4"), "record 5 at 10"),
    (Step::Apply(1, 3, "t", "", "a"), "record 6 at 12"),
    (Step::Apply(1, 3, "t", "a", "b"), "record 7 at 14"),
    (Step::Apply(1, 1, "n", "9", "1"), "full 1 6 at 15"),
    (Step::Put(1, "z", "", ""), "record 0 at 16"),
    (Step::Undo(1, 1), "record 8 at 17"),
    (Step::Apply(1, 1, "n", "9", "1"), "record 9 at 19"),
    (Step::Put(1, "z", "", "1"), "full 1 6 at 20"),
    (Step::Commit(1), "commit 1 at 22"),
    (Step::Begin, "2 at 23"),
    (Step::Lock(2, Exclusive, "n"), "held at 24"),
    (Step::Apply(2, 1, "n", "10", "1"), "record 11 at 26"),
];

/// The last of two writes is undone, as by an abort that is then refused, and the transaction commits. engine_tests has the
/// refusal.
pub(crate) const UNDONE_IN_PART: &[Line<'static>] = &[
    (Step::Begin, "1 at 1"),
    (Step::Lock(1, Exclusive, "x"), "held at 2"),
    (Step::Put(1, "x", "", "5"), "record 2 at 4"),
    (Step::Put(1, "x", "5", "6"), "record 3 at 6"),
    (Step::Undo(1, 1), "record 4 at 7"),
    (Step::Commit(1), "commit 1 at 9"),
    (Step::Begin, "2 at 10"),
    (Step::Lock(2, Exclusive, "x"), "held at 11"),
    (Step::Put(2, "x", "5", "7"), "record 6 at 13"),
];

/// A key is written three times, and that is taken back, the last write first.
pub(crate) const THREE_WRITES: &[Line<'static>] = &[
    (Step::Begin, "1 at 1"),
    (Step::Lock(1, Exclusive, "x"), "held at 2"),
    (Step::Put(1, "x", "", "1"), "record 2 at 4"),
    (Step::Put(1, "x", "1", ""), "record 3 at 6"),
    (Step::Put(1, "x", "", "2"), "record 4 at 8"),
    (Step::Undo(1, 1), "record 5 at 9"),
    (Step::Undo(1, 1), "record 6 at 10"),
    (Step::Undo(1, 1), "record 7 at 11"),
    (Step::Undo(1, 1), "no open write at 11"),
    (Step::End(1), "record 8 at 12"),
    (Step::Begin, "2 at 13"),
    (Step::Lock(2, Shared, "x"), "held at 14"),
];

/// A put, and a commit that a call of the log disk fails: its Commit is entered, and nobody can read it. Then each call is
/// answered as ended.
pub(crate) const FAILED_COMMIT: &[Line<'static>] = &[
    (Step::Begin, "1 at 1"),
    (Step::Begin, "2 at 2"),
    (Step::End(2), "record 2 at 3"),
    (Step::Lock(1, Exclusive, "x"), "held at 4"),
    (Step::Put(1, "x", "", "5"), "record 3 at 6"),
    (Step::Commit(1), "log failed at 7"),
    (Step::Calls(1), "14 calls ended 1 at 7"),
    (Step::Calls(0), "12 calls ended 1 at 7"),
    (Step::Begin, "ended 1 at 7"),
];
