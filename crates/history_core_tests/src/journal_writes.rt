//! What is entered by the steps of journal_tests that write on page 1, whose first record is the Format.
use crate::audit::History;

/// In a store of 8 pages and open writes a write has to leave room for itself and for the undo of one more. Changed are a put
/// that is declined within the limit, one with other counts, a del that needs no room, an answer without a write, and an undo
/// of another write than the last. A write in place of a refusal is lawful, since it takes the last place, and is then the
/// one that has to be told.
pub const FULL: History<'static> = History {
    opening: "record 1 Format limit=8",
    entries: "\
began session=1 tx=1 | 0 | 0
lock tx=1 mode=exclusive low=a | 1 | 1
record 2 Write tx=1 prev=0 page=1 page_prev=1 key=a old none new=1 | 2 | 2
put session=1 tx=1 key=a new=1 was none | 3 | 3
record 3 Write tx=1 prev=2 page=1 page_prev=2 key=b old none new=1 | 4 | 4
put session=1 tx=1 key=b new=1 was none | 5 | 5
record 4 Write tx=1 prev=3 page=1 page_prev=3 key=c old none new=1 | 6 | 6
put session=1 tx=1 key=c new=1 was none | 7 | 7
record 5 Write tx=1 prev=4 page=1 page_prev=4 key=d old none new=1 | 8 | 8
put session=1 tx=1 key=d new=1 was none | 9 | 9
record 6 Write tx=1 prev=5 page=1 page_prev=5 key=e old none new=1 | 10 | 10
put session=1 tx=1 key=e new=1 was none | 11 | 11
record 7 Write tx=1 prev=6 page=1 page_prev=6 key=a old=1 new none | 12 | 12
del session=1 tx=1 key=a was=1 | 13 | 13
put session=1 tx=1 key=f new=1 pages=1 pending=6 | told | apart
del session=1 tx=1 key=b pages=1 pending=6 | told | apart
del session=1 tx=1 key=z was none | told | apart
record 8 Undo tx=1 prev=7 page=1 page_prev=7 key=a restores=1 undo_next=6 | 17 | 17
record 9 Write tx=1 prev=8 page=1 page_prev=8 key=b old=1 new none | 18 | 18
del session=1 tx=1 key=b was=1 | 19 | 19
put session=1 tx=1 key=f new=1 pages=1 pending=6 | told | 21
record 10 Commit tx=1 prev=9 | 21 | 21
acked session=1 tx=1 | told | apart
began session=2 tx=2 | 23 | 23
lock tx=2 mode=exclusive key=f | 24 | 24
record 11 Write tx=2 prev=0 page=1 page_prev=9 key=f old none new=1 | 25 | 25
put session=2 tx=2 key=f new=1 was none | last",
    changes: "\
put session=1 tx=1 key=f new=1 pages=1 pending=5 | 12 | 12
put session=1 tx=1 key=f new=1 pages=1 pending=5 | 14 | 14
put session=1 tx=1 key=f new=1 pages=2 pending=6 | 14 | 14
record 8 Write tx=1 prev=7 page=1 page_prev=7 key=f old none new=1 | 14 | 15
del session=1 tx=1 key=z pages=1 pending=6 | 16 | 16
record 8 Undo tx=1 prev=7 page=1 page_prev=7 key=e restores none undo_next=5 | 17 | 17
put session=1 tx=1 key=f new=1 was none | 20 | 20
record 10 Commit tx=1 prev=8 | 21 | 21
record 11 Write tx=2 prev=0 page=1 page_prev=9 key=f old=1 new=1 | 25 | 25
record 11 Write tx=2 prev=0 page=1 page_prev=10 key=f old none new=1 | 25 | 25",
};

/// The same for operators. Changed are one that is declined within the limit, and one with other counts; an old value that the
/// key hadn't; arguments and operators that give no value; answers of another argument, another operator and another value;
/// and an undo of another write than the last.
pub const FULL_BY_OPERATORS: History<'static> = History {
    opening: "record 1 Format limit=8",
    entries: "\
began session=1 tx=1 | 0 | 0
lock tx=1 mode=exclusive low=a | 1 | 1
record 2 Apply tx=1 prev=0 page=1 page_prev=1 key=n operator=1 argument=5 old none | 2 | 2
apply session=1 tx=1 key=n operator=1 argument=5 was none | 3 | 3
record 3 Apply tx=1 prev=2 page=1 page_prev=2 key=n operator=1 argument=2 old=5 | 4 | 4
apply session=1 tx=1 key=n operator=1 argument=2 was=5 | 5 | 5
record 4 Apply tx=1 prev=3 page=1 page_prev=3 key=n operator=2 argument=9 old=7 | 6 | 6
apply session=1 tx=1 key=n operator=2 argument=9 was=7 | 7 | 7
record 5 Apply tx=1 prev=4 page=1 page_prev=4 key=m operator=2 argument=4 old none | 8 | 8
apply session=1 tx=1 key=m operator=2 argument=4 was none | 9 | 9
record 6 Apply tx=1 prev=5 page=1 page_prev=5 key=t operator=3 argument=a old none | 10 | 10
apply session=1 tx=1 key=t operator=3 argument=a was none | 11 | 11
record 7 Apply tx=1 prev=6 page=1 page_prev=6 key=t operator=3 argument=b old=a | 12 | 12
apply session=1 tx=1 key=t operator=3 argument=b was=a | 13 | 13
apply session=1 tx=1 key=n operator=1 argument=1 pages=1 pending=6 | told | apart
del session=1 tx=1 key=z was none | told | apart
record 8 Undo tx=1 prev=7 page=1 page_prev=7 key=t restores=a undo_next=6 | 16 | 16
record 9 Apply tx=1 prev=8 page=1 page_prev=8 key=n operator=1 argument=1 old=9 | 17 | 17
apply session=1 tx=1 key=n operator=1 argument=1 was=9 | 18 | 18
put session=1 tx=1 key=z new=1 pages=1 pending=6 | told | 20
record 10 Commit tx=1 prev=9 | 20 | 20
acked session=1 tx=1 | told | apart
began session=2 tx=2 | 22 | 22
lock tx=2 mode=exclusive key=n | 23 | 23
record 11 Apply tx=2 prev=0 page=1 page_prev=9 key=n operator=1 argument=1 old=10 | 24 | 24
apply session=2 tx=2 key=n operator=1 argument=1 was=10 | last",
    changes: "\
record 3 Apply tx=1 prev=2 page=1 page_prev=2 key=n operator=1 argument=2 old=6 | 4 | 4
record 3 Apply tx=1 prev=2 page=1 page_prev=2 key=n operator=1 argument=x old=5 | 4 | 4
record 3 Apply tx=1 prev=2 page=1 page_prev=2 key=n operator=4 argument=2 old=5 | 4 | 4
apply session=1 tx=1 key=n operator=1 argument=3 was=5 | 5 | 5
record 4 Apply tx=1 prev=3 page=1 page_prev=3 key=n operator=1 argument=9 old=7 | 6 | 7
apply session=1 tx=1 key=t operator=3 argument=b pages=1 pending=5 | 12 | 12
apply session=1 tx=1 key=n operator=1 argument=1 pages=1 pending=5 | 14 | 14
apply session=1 tx=1 key=n operator=1 argument=x pages=1 pending=6 | 14 | 14
record 8 Apply tx=1 prev=7 page=1 page_prev=7 key=n operator=1 argument=1 old=9 | 14 | 15
record 8 Undo tx=1 prev=7 page=1 page_prev=7 key=m restores none undo_next=4 | 16 | 16
apply session=1 tx=1 key=n operator=1 argument=1 was=16 | 18 | 18
record 11 Apply tx=2 prev=0 page=1 page_prev=9 key=n operator=1 argument=1 old=9 | 24 | 24",
};

/// The last of two writes is undone, as by an abort that is then refused, and the transaction commits. Changed are undos of
/// the first write, and of all; an End where a write is open; and the value of the write that was undone.
pub const UNDONE_IN_PART: History<'static> = History {
    opening: "record 1 Format limit=8",
    entries: "\
began session=1 tx=1 | 0 | 0
lock tx=1 mode=exclusive key=x | 1 | 1
record 2 Write tx=1 prev=0 page=1 page_prev=1 key=x old none new=5 | 2 | 2
put session=1 tx=1 key=x new=5 was none | 3 | 3
record 3 Write tx=1 prev=2 page=1 page_prev=2 key=x old=5 new=6 | 4 | 4
put session=1 tx=1 key=x new=6 was=5 | 5 | 5
record 4 Undo tx=1 prev=3 page=1 page_prev=3 key=x restores=5 undo_next=2 | 6 | 6
record 5 Commit tx=1 prev=4 | 7 | 7
acked session=1 tx=1 | told | apart
began session=2 tx=2 | 9 | 9
lock tx=2 mode=exclusive key=x | 10 | 10
record 6 Write tx=2 prev=0 page=1 page_prev=4 key=x old=5 new=7 | 11 | 11
put session=2 tx=2 key=x new=7 was=5 | last",
    changes: "\
record 4 Undo tx=1 prev=3 page=1 page_prev=3 key=x restores none undo_next=0 | 6 | 6
record 4 Undo tx=1 prev=3 page=1 page_prev=3 key=x restores=5 undo_next=0 | 6 | 6
record 5 End tx=1 prev=4 | 7 | 7
record 6 Write tx=2 prev=0 page=1 page_prev=4 key=x old=6 new=7 | 11 | 11
record 6 Write tx=2 prev=0 page=1 page_prev=3 key=x old=5 new=7 | 11 | 11
put session=2 tx=2 key=x new=7 was=6 | 12 | 12",
};

/// A key is written three times, and that is taken back, the last write first. Changed are undos of the first write, and of
/// one more; an End where a write is open, and a Commit in place of the End, which is lawful; and a holder that is over.
pub const THREE_WRITES: History<'static> = History {
    opening: "record 1 Format limit=8",
    entries: "\
began session=1 tx=1 | 0 | 0
lock tx=1 mode=exclusive key=x | 1 | 1
record 2 Write tx=1 prev=0 page=1 page_prev=1 key=x old none new=1 | 2 | 2
put session=1 tx=1 key=x new=1 was none | 3 | 3
record 3 Write tx=1 prev=2 page=1 page_prev=2 key=x old=1 new none | 4 | 4
del session=1 tx=1 key=x was=1 | 5 | 5
record 4 Write tx=1 prev=3 page=1 page_prev=3 key=x old none new=2 | 6 | 6
put session=1 tx=1 key=x new=2 was none | 7 | 7
record 5 Undo tx=1 prev=4 page=1 page_prev=4 key=x restores none undo_next=3 | 8 | 8
record 6 Undo tx=1 prev=5 page=1 page_prev=5 key=x restores=1 undo_next=2 | 9 | 9
record 7 Undo tx=1 prev=6 page=1 page_prev=6 key=x restores none undo_next=0 | 10 | 10
record 8 End tx=1 prev=7 | 12 | apart
began session=2 tx=2 | 12 | 12
lock tx=2 mode=shared key=x | last",
    changes: "\
record 5 Undo tx=1 prev=4 page=1 page_prev=4 key=x restores none undo_next=0 | 8 | 8
record 6 Undo tx=1 prev=5 page=1 page_prev=5 key=x restores none undo_next=2 | 9 | 9
record 7 End tx=1 prev=6 | 10 | 10
record 8 Undo tx=1 prev=7 page=1 page_prev=7 key=x restores none undo_next=0 | 11 | 11
record 8 Commit tx=1 prev=7 | 11 | either
refused tx=2 mode=shared key=x holder=1 | 13 | 13",
};

/// A put, and a commit that a call of the log disk fails: its Commit is entered, and nobody is told of it. Changed are an
/// acknowledgement without a Commit, Commits of others and of another record, and an End in which the lock would go.
pub const FAILED_COMMIT: History<'static> = History {
    opening: "record 1 Format limit=8",
    entries: "\
began session=1 tx=1 | 0 | 0
began session=2 tx=2 | 1 | 1
record 2 End tx=2 prev=0 | 3 | apart
lock tx=1 mode=exclusive key=x | 3 | 3
record 3 Write tx=1 prev=0 page=1 page_prev=1 key=x old none new=5 | 4 | 4
put session=1 tx=1 key=x new=5 was none | 5 | 5
record 4 Commit tx=1 prev=3 | last",
    changes: "\
record 2 End tx=1 prev=0 | 2 | 3
put session=2 tx=1 key=x new=5 was none | 5 | 5
record 4 Commit tx=1 prev=2 | 6 | 6
record 4 Commit tx=2 prev=2 | 6 | 6
acked session=1 tx=1 | 6 | 6",
};
