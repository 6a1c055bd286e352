//! Whole transactions: a put, a del, an abort, and a loser that is undone.
use crate::audit::History;

/// Transaction 1 puts 5 for x, and commits. Each field of its Write and of its Commit is changed.
pub const A_PUT: History<'static> = History {
    opening: "record 1 Format limit=8",
    entries: "\
began session=0 tx=1 | 0 | 0
lock tx=1 mode=exclusive key=x | 1 | 1
record 2 Write tx=1 prev=0 page=1 page_prev=1 key=x old none new=5 | 2 | 2
put session=0 tx=1 key=x new=5 was none | 3 | 3
record 3 Commit tx=1 prev=2 | 4 | 4
acked session=0 tx=1 | last",
    changes: "\
began session=0 tx=2 | 0 | 0
lock tx=1 mode=shared key=x | 1 | 2
record 3 Write tx=1 prev=0 page=1 page_prev=1 key=x old none new=5 | 2 | 2
record 2 Write tx=1 prev=1 page=1 page_prev=1 key=x old none new=5 | 2 | 2
record 2 Write tx=2 prev=0 page=1 page_prev=1 key=x old none new=5 | 2 | 2
record 2 Write tx=1 prev=0 page=1 page_prev=0 key=x old none new=5 | 2 | 2
record 2 Write tx=1 prev=0 page=2 page_prev=0 key=x old none new=5 | 2 | 2
record 2 Write tx=1 prev=0 page=1 page_prev=1 key=y old none new=5 | 2 | 2
record 2 Write tx=1 prev=0 page=1 page_prev=1 key=x old=4 new=5 | 2 | 2
record 2 Write tx=1 prev=0 page=1 page_prev=1 key=x old none new none | 2 | 2
put session=0 tx=1 key=x new=6 was none | 3 | 3
put session=0 tx=1 key=x new=5 was=5 | 3 | 3
record 3 Commit tx=1 prev=1 | 4 | 4
acked session=0 tx=2 | 5 | 5",
};

/// Transaction 1 gave x a value and committed.
pub const WITH_X: &str = "\
record 1 Format limit=8
record 2 Write tx=1 prev=0 page=1 page_prev=1 key=x old none new=5
record 3 Commit tx=1 prev=2";

/// Transaction 2 deletes x, twice, and commits. What isn't there is deleted without a record.
pub const A_DEL: History<'static> = History {
    opening: WITH_X,
    entries: "\
began session=0 tx=2 | 0 | 0
lock tx=2 mode=exclusive key=x | 1 | 1
record 4 Write tx=2 prev=0 page=1 page_prev=2 key=x old=5 new none | 2 | 2
del session=0 tx=2 key=x was=5 | 3 | 3
del session=0 tx=2 key=x was none | told | 5
record 5 Commit tx=2 prev=4 | 5 | 5
acked session=0 tx=2 | last",
    changes: "\
began session=0 tx=1 | 0 | 0
record 4 Write tx=2 prev=0 page=1 page_prev=2 key=x old none new none | 2 | 2
record 4 Write tx=2 prev=0 page=1 page_prev=2 key=x old=6 new none | 2 | 2
del session=0 tx=2 key=x was none | 2 | 2
del session=0 tx=2 key=x was none | 3 | 3
del session=0 tx=2 key=x was=5 | 4 | 4
get session=0 tx=2 key=x found=5 | 4 | 4
get session=0 tx=2 key=x found none | 4 | told",
};

/// Transaction 2 puts 6 for x, deletes it, and takes both back. With the value of the first write the second one is left
/// open.
pub const AN_ABORT: History<'static> = History {
    opening: WITH_X,
    entries: "\
began session=0 tx=2 | 0 | 0
lock tx=2 mode=exclusive key=x | 1 | 1
record 4 Write tx=2 prev=0 page=1 page_prev=2 key=x old=5 new=6 | 2 | 2
put session=0 tx=2 key=x new=6 was=5 | 3 | 3
record 5 Write tx=2 prev=4 page=1 page_prev=4 key=x old=6 new none | 4 | 4
del session=0 tx=2 key=x was=6 | 5 | 5
record 6 Undo tx=2 prev=5 page=1 page_prev=5 key=x restores=6 undo_next=4 | 6 | 6
record 7 Undo tx=2 prev=6 page=1 page_prev=6 key=x restores=5 undo_next=0 | 7 | 7
record 8 End tx=2 prev=7 | 8 | 8
began session=0 tx=3 | 9 | 9
lock tx=3 mode=shared key=x | 10 | 10
get session=0 tx=3 key=x found=5 | last",
    changes: "\
record 6 Undo tx=2 prev=5 page=1 page_prev=5 key=x restores=5 undo_next=0 | 6 | 6
record 6 Undo tx=2 prev=5 page=1 page_prev=5 key=x restores=6 undo_next=0 | 6 | 6
record 7 Undo tx=2 prev=6 page=1 page_prev=6 key=x restores=6 undo_next=0 | 7 | 7
record 7 End tx=2 prev=6 | 7 | 7
record 8 Undo tx=2 prev=7 page=1 page_prev=7 key=x restores none undo_next=0 | 8 | 8
record 8 Commit tx=2 prev=6 | 8 | 8
get session=0 tx=3 key=x found=6 | 11 | 11",
};

/// Transaction 1 gave x a value, and is a loser. Transaction 2 has that taken back, and reads x. Numbers go on behind the
/// loser's; a loser doesn't go on, and its keys stay locked.
pub const AN_UNDONE_LOSER: History<'static> = History {
    opening: "\
record 1 Format limit=8
record 2 Write tx=1 prev=0 page=1 page_prev=1 key=x old none new=5",
    entries: "\
began session=0 tx=2 | 2 | apart
record 3 Undo tx=1 prev=2 page=1 page_prev=2 key=x restores none undo_next=0 | 1 | 1
record 4 End tx=1 prev=3 | unused | apart
lock tx=2 mode=shared key=x | 3 | 3
get session=0 tx=2 key=x found none | last",
    changes: "\
began session=0 tx=1 | 0 | 0
record 3 Commit tx=1 prev=2 | 1 | 1
lock tx=2 mode=shared key=x | 1 | 1
record 3 Undo tx=2 prev=0 page=1 page_prev=2 key=x restores none undo_next=0 | 1 | 1
record 4 End tx=2 prev=0 | 2 | 3
get session=0 tx=2 key=x found=5 | 4 | 4",
};
