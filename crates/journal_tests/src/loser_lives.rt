//! Losers of a life, which the next two undo, and a segment that is restored.
use journal_steps::{Line, Step};
use store_model::Mode::{Exclusive, Shared};

/// Transactions 1 and 2 have open writes as the life stops; the commit of a third one made them durable.
pub(crate) const LOSERS_LEFT: &[Line<'static>] = &[
    (Step::Begin, "1 at 1"),
    (Step::Begin, "2 at 2"),
    (Step::Begin, "3 at 3"),
    (Step::Lock(1, Exclusive, "x"), "held at 4"),
    (Step::Lock(1, Exclusive, "y"), "held at 5"),
    (Step::Lock(2, Exclusive, "z"), "held at 6"),
    (Step::Put(1, "x", "", "1"), "record 2 at 8"),
    (Step::Put(1, "y", "", "2"), "record 3 at 10"),
    (Step::Put(2, "z", "", "3"), "record 4 at 12"),
    (Step::Commit(3), "commit 1 at 14"),
];

/// The next life undoes one write. Two are about to; the second one is told where the first one's Undo stands. The key that
/// is undone is free, the loser's other one isn't.
pub(crate) const LOSERS: &[Line<'static>] = &[
    (Step::Begin, "4 at 1"),
    (Step::Lock(4, Shared, "w"), "held at 2"),
    (Step::Lock(4, Shared, "z"), "loser 2 at 2"),
    (Step::Scan(4, Shared, "y", ""), "loser 1 at 2"),
    (Step::Undo(1, 2), "record 6, late 3 at 3"),
    (Step::Scan(4, Shared, "y", ""), "loser 2 at 3"),
    (Step::Lock(4, Shared, "y"), "held at 4"),
    (Step::Lock(4, Shared, "x"), "loser 1 at 4"),
    (Step::Commit(4), "commit 2 at 6"),
];

/// The life behind that one undoes the rest, and the losers are over.
pub(crate) const LOSERS_UNDONE: &[Line<'static>] = &[
    (Step::Begin, "5 at 1"),
    (Step::Lock(5, Exclusive, "x"), "loser 1 at 1"),
    (Step::Undo(1, 2), "record 8, late 2 at 2"),
    (Step::Undo(1, 1), "no open write at 2"),
    (Step::End(1), "record 9 at 3"),
    (Step::End(1), "late 3 at 3"),
    (Step::Lock(5, Exclusive, "x"), "held at 4"),
    (Step::Scan(5, Exclusive, "x", ""), "loser 2 at 4"),
    (Step::Undo(2, 1), "record 10 at 5"),
    (Step::End(2), "record 11 at 6"),
    (Step::Scan(5, Exclusive, "x", ""), "held at 7"),
    (Step::Put(5, "z", "", "9"), "record 12 at 9"),
    (Step::Commit(5), "commit 3 at 11"),
];

/// The data device is lost, and two say that the first segment is restored.
pub(crate) const TWO_RESTORES: &[Line<'static>] = &[
    (Step::Lose, "record 2 at 1"),
    (Step::Restore, "record 3 at 2"),
    (Step::Restore, "late 2 at 2"),
];
