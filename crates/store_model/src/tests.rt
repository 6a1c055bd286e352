//! Lengths and ranges at their edges.
use super::*;
use std::test::Fail;

#[test]
fn lengths_at_their_edges(rt: HostRuntime) -> Result<(), Fail> {
    // Length, then whether a key, a value, an operator's argument and a bound may have it.
    let cases = [
        (0, false, true, true, true),
        (1, true, true, true, true),
        (64, true, true, true, true),
        (65, false, true, false, true),
        (66, false, true, false, false),
        (256, false, true, false, false),
        (257, false, false, false, false),
    ];
    for (length, key, value, argument, bound) in cases {
        let bytes = vec![in rt.alloc(); b'a'; length]?;
        let text = bytes.as_slice();
        assert_eq!(rt; Key::new(text).is_some(), key, "key of {length}");
        assert_eq!(rt; Value::new(text).is_some(), value, "value of {length}");
        assert_eq!(rt;
            OpValue::new(text).is_some(),
            argument,
            "argument of {length}"
        );
        assert_eq!(rt; Bound::at(text).is_some(), bound, "bound of {length}");
    }
    Ok(())
}

#[test]
fn ranges_at_their_edges(rt: HostRuntime) -> Result<(), Fail> {
    let cases = [
        (Some(b"".as_slice()), Some(b"".as_slice()), false),
        (Some(b"".as_slice()), Some(b"a".as_slice()), true),
        (Some(b"a".as_slice()), Some(b"a\x00".as_slice()), true),
        (Some(b"a\x00".as_slice()), Some(b"a".as_slice()), false),
        (Some(b"\xff".as_slice()), None, true),
        (None, Some(b"\xff".as_slice()), false),
        (None, None, false),
    ];
    for (low, high, is_range) in cases {
        let range = match (bound(low), bound(high)) {
            (Some(low), Some(high)) => KeyRange::new(low, high),
            _ => None,
        };
        assert_eq!(rt; range.is_some(), is_range);
    }
    Ok(())
}

fn bound(at: Option<&[u8]>) -> Option<Bound> {
    match at {
        None => Some(Bound::top()),
        Some(bytes) => Bound::at(bytes),
    }
}
