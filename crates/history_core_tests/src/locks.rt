//! Locks without records.
use crate::audit::History;

/// Transactions 1 and 2 read x, and 2 is refused to write it. Changed are numbers that were given, answers without a lock,
/// with another value and to another session, and a commit that was none.
pub const TWO_READERS: History<'static> = History {
    opening: "",
    entries: "\
began session=0 tx=1 | 0 | 0
lock tx=1 mode=shared key=x | 1 | 1
get session=0 tx=1 key=x found none | told | apart
began session=1 tx=2 | 3 | 3
refused tx=2 mode=exclusive key=x holder=1 | told | apart
lock tx=2 mode=shared key=x | last",
    changes: "\
began session=1 tx=1 | 1 | 1
get session=0 tx=1 key=x found none | 1 | 1
get session=0 tx=1 key=x found=1 | 2 | 2
get session=1 tx=1 key=x found none | 2 | 2
lock tx=2 mode=shared key=y | 3 | 3
lock tx=2 mode=exclusive key=x | 4 | 4
refused tx=2 mode=exclusive key=x holder=2 | 4 | 4
refused tx=1 mode=exclusive key=y holder=2 | 5 | 5
acked session=0 tx=1 | 5 | 5",
};
