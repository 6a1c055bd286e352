//! What is entered by the steps of journal_tests that leave losers to the next two lives, which undo them, and that restore a
//! segment.
use crate::audit::History;

/// Transactions 1 and 2 have open writes as the life stops. Changed are an acknowledgement and a Commit of others, a broken
/// chain, and keys that another one has.
pub const LOSERS_LEFT: History<'static> = History {
    opening: "record 1 Format limit=8",
    entries: "\
began session=1 tx=1 | 0 | 0
began session=2 tx=2 | 1 | 1
began session=3 tx=3 | 11 | apart
lock tx=1 mode=exclusive key=x | 5 | apart
lock tx=1 mode=exclusive key=y | 7 | apart
lock tx=2 mode=exclusive key=z | 9 | 6
record 2 Write tx=1 prev=0 page=1 page_prev=1 key=x old none new=1 | 6 | 6
put session=1 tx=1 key=x new=1 was none | 7 | 7
record 3 Write tx=1 prev=2 page=1 page_prev=2 key=y old none new=2 | 8 | 8
put session=1 tx=1 key=y new=2 was none | 9 | 9
record 4 Write tx=2 prev=0 page=1 page_prev=3 key=z old none new=3 | 10 | 10
put session=2 tx=2 key=z new=3 was none | 11 | 11
record 5 Commit tx=3 prev=0 | 12 | 12
acked session=3 tx=3 | last",
    changes: "\
lock tx=2 mode=exclusive key=y | 5 | 5
record 3 Write tx=1 prev=0 page=1 page_prev=2 key=y old none new=2 | 8 | 8
record 4 Write tx=2 prev=0 page=1 page_prev=3 key=y old=2 new=3 | 10 | 10
record 5 Commit tx=1 prev=3 | 12 | 13
acked session=1 tx=1 | 13 | 13",
};

/// The next life undoes one write. Changed are numbers that were given; locks on the losers' keys, and refusals that name a
/// loser, which isn't live; an undo of the loser's first write, one that comes late, and one of the other loser; and a loser
/// that commits, or ends where writes are open.
pub const LOSERS: History<'static> = History {
    opening: "\
record 1 Format limit=8
record 2 Write tx=1 prev=0 page=1 page_prev=1 key=x old none new=1
record 3 Write tx=1 prev=2 page=1 page_prev=2 key=y old none new=2
record 4 Write tx=2 prev=0 page=1 page_prev=3 key=z old none new=3
record 5 Commit tx=3 prev=0",
    entries: "\
began session=1 tx=4 | 0 | 0
lock tx=4 mode=shared key=w | unused | apart
record 6 Undo tx=1 prev=3 page=1 page_prev=4 key=y restores none undo_next=2 | 2 | 2
lock tx=4 mode=shared key=y | unused | 4
record 7 Commit tx=4 prev=0 | 4 | 4
acked session=1 tx=4 | last",
    changes: "\
began session=1 tx=1 | 0 | 0
began session=1 tx=3 | 0 | 0
lock tx=4 mode=shared key=z | 1 | 1
refused tx=4 mode=shared key=z holder=2 | 1 | 1
record 6 Undo tx=1 prev=3 page=1 page_prev=4 key=x restores none undo_next=0 | 2 | 2
record 6 Undo tx=2 prev=4 page=1 page_prev=4 key=z restores none undo_next=0 | 2 | 3
record 6 Commit tx=1 prev=3 | 2 | 2
record 6 End tx=1 prev=3 | 2 | 2
lock tx=4 mode=shared key=x | 3 | 3
record 7 Undo tx=1 prev=6 page=1 page_prev=6 key=y restores none undo_next=2 | 3 | 3",
};

/// The life behind that one undoes the rest, and the losers are over. Changed are an End before the undo, a second one, and a
/// Commit in its place; a lock on the other loser's key; and the value that was undone.
pub const LOSERS_UNDONE: History<'static> = History {
    opening: "\
record 1 Format limit=8
record 2 Write tx=1 prev=0 page=1 page_prev=1 key=x old none new=1
record 3 Write tx=1 prev=2 page=1 page_prev=2 key=y old none new=2
record 4 Write tx=2 prev=0 page=1 page_prev=3 key=z old none new=3
record 5 Commit tx=3 prev=0
record 6 Undo tx=1 prev=3 page=1 page_prev=4 key=y restores none undo_next=2
record 7 Commit tx=4 prev=0",
    entries: "\
began session=1 tx=5 | 2 | apart
record 8 Undo tx=1 prev=6 page=1 page_prev=6 key=x restores none undo_next=0 | 1 | 1
record 9 End tx=1 prev=8 | 3 | apart
lock tx=5 mode=exclusive key=x | unused | apart
record 10 Undo tx=2 prev=4 page=1 page_prev=8 key=z restores none undo_next=0 | 4 | 4
record 11 End tx=2 prev=10 | 6 | apart
lock tx=5 mode=exclusive low=x | 6 | 6
record 12 Write tx=5 prev=0 page=1 page_prev=10 key=z old none new=9 | 7 | 7
put session=1 tx=5 key=z new=9 was none | 8 | 8
record 13 Commit tx=5 prev=12 | 9 | 9
acked session=1 tx=5 | last",
    changes: "\
began session=1 tx=6 | 0 | 0
record 8 End tx=1 prev=6 | 1 | 1
record 9 Commit tx=1 prev=8 | 2 | 2
lock tx=5 mode=exclusive low=x | 3 | 3
record 12 End tx=2 prev=11 | 6 | 6
record 12 Write tx=5 prev=0 page=1 page_prev=10 key=z old=3 new=9 | 7 | 7
record 12 Write tx=5 prev=0 page=1 page_prev=11 key=z old none new=9 | 7 | 7",
};

/// The data device is lost, and its one segment restored. Changed are more pages than there are, a segment that isn't there,
/// and one that wasn't lost; a device may be lost twice.
pub const TWO_RESTORES: History<'static> = History {
    opening: "record 1 Format limit=12",
    entries: "\
record 2 Lost pages=1 | 0 | 0
record 3 Restored segment=0 | last",
    changes: "\
record 2 Lost pages=2 | 0 | 0
record 2 Restored segment=0 | 0 | 0
record 3 Restored segment=1 | 1 | 1
record 3 Lost pages=1 | 1 | either",
};
