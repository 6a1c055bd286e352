//! Which pairs of ranges conflict, which lock is named, and what a release leaves.
use range_lock::{LockRefused, RangeLocks};
use std::alloc::Global;
use std::test::Fail;
use store_model::{Bound, Key, KeyRange, Mode};

const LONGEST: [u8; 64] = [b'k'; 64];

const LONG: [u8; 65] = [b'k'; 65];

/// The range between two texts. An empty high one stands for the top.
fn between(low: &[u8], high: &[u8]) -> Option<KeyRange> {
    let high = if high.is_empty() {
        Bound::top()
    } else {
        Bound::at(high)?
    };
    KeyRange::new(Bound::at(low)?, high)
}

fn point(key: &[u8]) -> Option<KeyRange> {
    Some(KeyRange::point(&Key::new(key)?))
}

/// The keys that a lock is asked for: from one text up to another, an empty one standing for the top, or a single key.
#[derive(Clone, Copy)]
enum Keys {
    From(&'static [u8], &'static [u8]),
    One(&'static [u8]),
}

fn range_of(keys: Keys) -> Option<KeyRange> {
    match keys {
        Keys::From(low, high) => between(low, high),
        Keys::One(key) => point(key),
    }
}

/// Two ranges, and whether they overlap.
const PAIRS: [(&str, Keys, Keys, bool); 15] = [
    (
        "touching",
        Keys::From(b"a", b"c"),
        Keys::From(b"c", b"e"),
        false,
    ),
    (
        "overlapping",
        Keys::From(b"a", b"d"),
        Keys::From(b"c", b"e"),
        true,
    ),
    (
        "nested",
        Keys::From(b"a", b"z"),
        Keys::From(b"c", b"d"),
        true,
    ),
    (
        "equal",
        Keys::From(b"a", b"c"),
        Keys::From(b"a", b"c"),
        true,
    ),
    (
        "a point at the low edge",
        Keys::From(b"c", b"e"),
        Keys::One(b"c"),
        true,
    ),
    (
        "a point at the high edge",
        Keys::From(b"a", b"c"),
        Keys::One(b"c"),
        false,
    ),
    (
        "a point below the top",
        Keys::From(b"x", b""),
        Keys::One(b"zz"),
        true,
    ),
    (
        "touching below the top",
        Keys::From(b"a", b"x"),
        Keys::From(b"x", b""),
        false,
    ),
    (
        "from the least text on",
        Keys::From(b"", b"b"),
        Keys::One(b"a"),
        true,
    ),
    ("one key", Keys::One(b"a"), Keys::One(b"a"), true),
    (
        "neighbouring keys",
        Keys::One(b"a"),
        Keys::One(b"a\0"),
        false,
    ),
    (
        "a range of one key",
        Keys::One(b"a"),
        Keys::From(b"a", b"a\0"),
        true,
    ),
    (
        "up to a key",
        Keys::From(b"a", &LONGEST),
        Keys::One(&LONGEST),
        false,
    ),
    (
        "beyond a key",
        Keys::From(b"a", &LONG),
        Keys::One(&LONGEST),
        true,
    ),
    (
        "from beyond a key on",
        Keys::From(&LONG, b"z"),
        Keys::One(&LONGEST),
        false,
    ),
];

/// How a lock is held, how another is asked for, and whether that is too much where they overlap.
const MODES: [(Mode, Mode, bool); 4] = [
    (Mode::Shared, Mode::Shared, false),
    (Mode::Shared, Mode::Exclusive, true),
    (Mode::Exclusive, Mode::Shared, true),
    (Mode::Exclusive, Mode::Exclusive, true),
];

/// Whether another transaction's lock on `asked` is refused beside one on `held`, in each of the modes, as it should.
fn is_refused_rightly(alloc: Global, held: &KeyRange, asked: &KeyRange, overlap: bool) -> bool {
    for (mode, other, exclusive) in MODES {
        let mut locks = RangeLocks::new(alloc);
        let taken = locks.acquire(1, held, mode).is_ok();
        let refused = locks.acquire(2, asked, other).is_err();
        if !taken || refused != (overlap && exclusive) {
            return false;
        }
    }
    true
}

#[test]
fn ranges_conflict_where_they_overlap_and_one_is_exclusive(rt: HostRuntime) -> Result<(), Fail> {
    for (name, first, second, overlap) in PAIRS {
        let first = range_of(first).ok_or("a range")?;
        let second = range_of(second).ok_or("a range")?;
        assert!(rt;
            is_refused_rightly(rt.alloc(), &first, &second, overlap),
            "{name}"
        );
        assert!(rt;
            is_refused_rightly(rt.alloc(), &second, &first, overlap),
            "{name}"
        );
    }
    Ok(())
}

#[test]
fn the_first_lock_in_conflict_is_named(rt: HostRuntime) -> Result<(), Fail> {
    let mut locks = RangeLocks::new(rt.alloc());
    let wide = between(b"a", b"z").ok_or("a range")?;
    let early = between(b"b", b"y").ok_or("a range")?;
    let late = between(b"d", b"f").ok_or("a range")?;
    let key = point(b"d").ok_or("a range")?;
    assert!(rt; locks.acquire(5, &early, Mode::Shared).is_ok());
    assert!(rt; locks.acquire(3, &late, Mode::Shared).is_ok());
    assert!(rt; locks.acquire(3, &key, Mode::Shared).is_ok());
    match locks.acquire(4, &wide, Mode::Exclusive) {
        Err(LockRefused::Overlap { holder, range }) => {
            assert_eq!(rt; holder, 3);
            assert!(rt;
                range == key,
                "the one that ends first of those that begin first"
            );
        }
        _ => assert!(rt; false, "it conflicts"),
    }
    locks.release_all(3);
    match locks.acquire(4, &wide, Mode::Exclusive) {
        Err(LockRefused::Overlap { holder, range }) => {
            assert_eq!(rt; holder, 5);
            assert!(rt; range == early);
        }
        _ => assert!(rt; false, "it conflicts"),
    }
    locks.release_all(5);
    assert!(rt; locks.acquire(4, &wide, Mode::Exclusive).is_ok());
    Ok(())
}

#[test]
fn locks_cover_what_they_include_until_they_are_released(rt: HostRuntime) -> Result<(), Fail> {
    let mut locks = RangeLocks::new(rt.alloc());
    let wide = between(b"a", b"m").ok_or("a range")?;
    let within = between(b"b", b"c").ok_or("a range")?;
    let across = between(b"l", b"n").ok_or("a range")?;
    let key = point(b"q").ok_or("a range")?;
    assert!(rt; locks.acquire(1, &wide, Mode::Shared).is_ok());
    assert!(rt; locks.acquire(1, &key, Mode::Exclusive).is_ok());
    assert!(rt; locks.acquire(2, &within, Mode::Shared).is_ok());
    let table = [
        (1, &within, Mode::Shared, true),
        (1, &within, Mode::Exclusive, false),
        (1, &across, Mode::Shared, false),
        (1, &key, Mode::Shared, true),
        (1, &key, Mode::Exclusive, true),
        (2, &key, Mode::Shared, false),
        (2, &wide, Mode::Shared, false),
    ];
    for (tx, range, mode, covered) in table {
        assert_eq!(rt; locks.covers(tx, range, mode), covered, "{tx}");
    }
    let mut out = Vec::new(rt.alloc());
    locks.holders(&within, Mode::Exclusive, &mut out)?;
    assert_eq!(rt; out.as_slice(), [1, 2].as_slice());
    locks.holders(&key, Mode::Shared, &mut out)?;
    assert_eq!(rt; out.as_slice(), [1, 2, 1].as_slice());
    locks.release_all(1);
    assert!(rt; !locks.covers(1, &key, Mode::Shared));
    assert!(rt; locks.covers(2, &within, Mode::Shared));
    assert!(rt; locks.acquire(2, &key, Mode::Exclusive).is_ok());
    Ok(())
}
