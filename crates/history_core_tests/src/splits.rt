//! A leaf that is split for a write.
//!
//! A row of a key of one byte and a value of 256 has 261 bytes, and an empty leaf 6. So page 1 has room for fifteen such rows
//! (3,921 of 4,051 bytes), and is split behind the eighth.
use crate::audit::History;

/// Transaction 1 gave the keys a to o long values, and committed.
const FULL_LEAF: &str = "\
record 1 Format limit=64
record 2 Write tx=1 prev=0 page=1 page_prev=1 key=a old none new=V
record 3 Write tx=1 prev=2 page=1 page_prev=2 key=b old none new=V
record 4 Write tx=1 prev=3 page=1 page_prev=3 key=c old none new=V
record 5 Write tx=1 prev=4 page=1 page_prev=4 key=d old none new=V
record 6 Write tx=1 prev=5 page=1 page_prev=5 key=e old none new=V
record 7 Write tx=1 prev=6 page=1 page_prev=6 key=f old none new=V
record 8 Write tx=1 prev=7 page=1 page_prev=7 key=g old none new=V
record 9 Write tx=1 prev=8 page=1 page_prev=8 key=h old none new=V
record 10 Write tx=1 prev=9 page=1 page_prev=9 key=i old none new=V
record 11 Write tx=1 prev=10 page=1 page_prev=10 key=j old none new=V
record 12 Write tx=1 prev=11 page=1 page_prev=11 key=k old none new=V
record 13 Write tx=1 prev=12 page=1 page_prev=12 key=l old none new=V
record 14 Write tx=1 prev=13 page=1 page_prev=13 key=m old none new=V
record 15 Write tx=1 prev=14 page=1 page_prev=14 key=n old none new=V
record 16 Write tx=1 prev=15 page=1 page_prev=15 key=o old none new=V
record 17 Commit tx=1 prev=16";

/// Transaction 2 puts a long value for p, for which page 1 is split at i. Changed are: no split, for which the value doesn't
/// fit; splits at other keys, and to a page that isn't the next one; and in place of the write one that would have fitted,
/// one on the page that has the lower keys, and none.
pub const A_SPLIT: History<'static> = History {
    opening: FULL_LEAF,
    entries: "\
began session=0 tx=2 | 0 | 0
lock tx=2 mode=exclusive key=p | 2 | 2
record 18 Split page=1 page_prev=16 child=2 key=i | 2 | 2
record 19 Write tx=2 prev=0 page=2 page_prev=18 key=p old none new=V | 3 | 3
put session=0 tx=2 key=p new=V was none | 4 | 4
record 20 Commit tx=2 prev=19 | 5 | 5
acked session=0 tx=2 | last",
    changes: "\
record 18 Write tx=2 prev=0 page=1 page_prev=16 key=p old none new=V | 2 | 2
record 18 Split page=1 page_prev=16 child=2 key=h | 2 | 2
record 18 Split page=1 page_prev=16 child=2 key=j | 2 | 2
record 18 Split page=1 page_prev=16 child=3 key=i | 2 | 2
record 19 Write tx=2 prev=0 page=2 page_prev=18 key=p old none new=5 | 3 | 3
record 19 Write tx=2 prev=0 page=1 page_prev=18 key=p old none new=V | 3 | 3
record 19 Commit tx=2 prev=0 | 3 | 3
lock tx=2 mode=exclusive key=q | 3 | 3
put session=0 tx=2 key=p new=5 was none | 4 | 4",
};
