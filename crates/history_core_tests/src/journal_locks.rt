//! What is entered by the steps of journal_tests that lock.
use crate::audit::History;

/// As many begin as may, which are 64, and one more where one of them has committed. Changed are one too many, a number that
/// was given, and one that isn't the next.
pub const BEGINS: History<'static> = History {
    opening: "record 1 Format limit=12",
    entries: "\
began session=1 tx=1 | 0 | 0
began session=2 tx=2 | 1 | 1
began session=3 tx=3 | 2 | 2
began session=4 tx=4 | 3 | 3
began session=5 tx=5 | 4 | 4
began session=6 tx=6 | 5 | 5
began session=7 tx=7 | 6 | 6
began session=8 tx=8 | 7 | 7
began session=9 tx=9 | 8 | 8
began session=10 tx=10 | 9 | 9
began session=11 tx=11 | 10 | 10
began session=12 tx=12 | 11 | 11
began session=13 tx=13 | 12 | 12
began session=14 tx=14 | 13 | 13
began session=15 tx=15 | 14 | 14
began session=16 tx=16 | 15 | 15
began session=17 tx=17 | 16 | 16
began session=18 tx=18 | 17 | 17
began session=19 tx=19 | 18 | 18
began session=20 tx=20 | 19 | 19
began session=21 tx=21 | 20 | 20
began session=22 tx=22 | 21 | 21
began session=23 tx=23 | 22 | 22
began session=24 tx=24 | 23 | 23
began session=25 tx=25 | 24 | 24
began session=26 tx=26 | 25 | 25
began session=27 tx=27 | 26 | 26
began session=28 tx=28 | 27 | 27
began session=29 tx=29 | 28 | 28
began session=30 tx=30 | 29 | 29
began session=31 tx=31 | 30 | 30
began session=32 tx=32 | 31 | 31
began session=33 tx=33 | 32 | 32
began session=34 tx=34 | 33 | 33
began session=35 tx=35 | 34 | 34
began session=36 tx=36 | 35 | 35
began session=37 tx=37 | 36 | 36
began session=38 tx=38 | 37 | 37
began session=39 tx=39 | 38 | 38
began session=40 tx=40 | 39 | 39
began session=41 tx=41 | 40 | 40
began session=42 tx=42 | 41 | 41
began session=43 tx=43 | 42 | 42
began session=44 tx=44 | 43 | 43
began session=45 tx=45 | 44 | 44
began session=46 tx=46 | 45 | 45
began session=47 tx=47 | 46 | 46
began session=48 tx=48 | 47 | 47
began session=49 tx=49 | 48 | 48
began session=50 tx=50 | 49 | 49
began session=51 tx=51 | 50 | 50
began session=52 tx=52 | 51 | 51
began session=53 tx=53 | 52 | 52
began session=54 tx=54 | 53 | 53
began session=55 tx=55 | 54 | 54
began session=56 tx=56 | 55 | 55
began session=57 tx=57 | 56 | 56
began session=58 tx=58 | 57 | 57
began session=59 tx=59 | 58 | 58
began session=60 tx=60 | 59 | 59
began session=61 tx=61 | 60 | 60
began session=62 tx=62 | 61 | 61
began session=63 tx=63 | 62 | 62
began session=64 tx=64 | 63 | 63
record 2 Commit tx=64 prev=0 | 64 | 64
acked session=64 tx=64 | told | apart
began session=66 tx=65 | last",
    changes: "\
began session=65 tx=65 | 64 | 64
record 2 End tx=64 prev=0 | 64 | 65
began session=64 tx=65 | 66 | either
began session=1 tx=65 | 66 | 66
began session=66 tx=64 | 66 | 66
began session=66 tx=66 | 66 | 66",
};

/// Transaction 1 locks the keys from c up to f for a scan. Transaction 2 may put directly below and from f on, and not from c
/// on; and 1 may go on to scan what ends where 2 has locked. Changed are locks within a range, which hold beside its ends,
/// and a range that hasn't all its keys.
pub const A_SCAN: History<'static> = History {
    opening: "record 1 Format limit=12",
    entries: "\
began session=1 tx=1 | 0 | 0
began session=2 tx=2 | 2 | apart
lock tx=1 mode=shared low=c high=f | 3 | apart
lock tx=2 mode=exclusive key=b~ | 9 | apart
refused tx=2 mode=exclusive key=c holder=1 | told | apart
refused tx=2 mode=exclusive key=d holder=1 | told | apart
refused tx=2 mode=exclusive key=e~ holder=1 | told | apart
lock tx=2 mode=exclusive key=f | 11 | apart
lock tx=2 mode=shared low=a high=z | unused | apart
lock tx=1 mode=shared low=a high=b~ | unused | apart
refused tx=1 mode=shared low=a high=c holder=2 | told | apart
lock tx=1 mode=shared key=b | unused | apart
refused tx=1 mode=shared low=e holder=2 | told | apart
lock tx=1 mode=shared low=f~ | last",
    changes: "\
lock tx=1 mode=shared low=c high=d | 2 | 5
refused tx=2 mode=exclusive key=b~ holder=1 | 3 | 3
lock tx=2 mode=exclusive key=c | 4 | 4
refused tx=2 mode=exclusive key=c holder=2 | 4 | 4
lock tx=2 mode=exclusive key=e~ | 6 | 6
refused tx=2 mode=exclusive key=f holder=1 | 7 | 7
lock tx=1 mode=shared low=a high=c | 9 | 9
lock tx=1 mode=shared low=e | 12 | 12
refused tx=1 mode=shared low=f~ holder=2 | 12 | 12",
};

/// Of two holders the lesser is named. Beside the ranges there is no holder, and a holder that is over is none. Changed are
/// the greatest holder, locks within a range, and one that is over.
pub const LEAST_HOLDER: History<'static> = History {
    opening: "record 1 Format limit=12",
    entries: "\
began session=1 tx=1 | 0 | 0
began session=2 tx=2 | 1 | 1
began session=3 tx=3 | 7 | apart
lock tx=2 mode=shared low=c high=f | 13 | apart
lock tx=1 mode=shared low=d high=h | unused | apart
lock tx=1 mode=shared low=d high=f | unused | apart
lock tx=1 mode=shared key=e | unused | apart
lock tx=1 mode=shared low=b high=e | unused | apart
refused tx=3 mode=exclusive key=e holder=1 | told | apart
refused tx=3 mode=exclusive key=d holder=1 | told | apart
lock tx=3 mode=exclusive key=h | unused | apart
lock tx=3 mode=shared low=a high=h | unused | apart
record 2 Commit tx=1 prev=0 | 12 | 12
acked session=1 tx=1 | told | apart
refused tx=3 mode=exclusive key=e holder=2 | told | 15
record 3 End tx=2 prev=0 | 15 | 15
lock tx=3 mode=exclusive key=e | last",
    changes: "\
refused tx=3 mode=exclusive key=e holder=2 | 8 | 8
lock tx=3 mode=exclusive key=e | 8 | 8
lock tx=3 mode=exclusive key=g | 10 | 10
refused tx=3 mode=exclusive key=h holder=1 | 10 | 10
record 2 Commit tx=1 prev=1 | 12 | 12
acked session=2 tx=1 | 13 | 13
refused tx=3 mode=exclusive key=e holder=1 | 14 | 14
lock tx=3 mode=exclusive key=e | 14 | 14
record 3 End tx=2 prev=2 | 15 | 15
refused tx=3 mode=exclusive key=e holder=2 | 16 | 16",
};

/// The End of a transaction lets its locks go, as a Commit would.
pub const AN_END: History<'static> = History {
    opening: "record 1 Format limit=12",
    entries: "\
began session=1 tx=1 | 0 | 0
lock tx=1 mode=exclusive key=a | unused | 2
record 2 End tx=1 prev=0 | 3 | apart
began session=2 tx=2 | 3 | 3
lock tx=2 mode=exclusive key=a | last",
    changes: "\
record 2 End tx=2 prev=0 | 2 | 2
record 2 Commit tx=1 prev=0 | 2 | either
began session=1 tx=2 | 3 | either
began session=2 tx=3 | 3 | 3
lock tx=1 mode=exclusive key=a | 4 | 4",
};
