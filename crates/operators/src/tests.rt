//! The operators at their edges, in boxes as a program makes them, and in others of the same meaning.
use crate::{Operators, add, boxed_operators, join, max};
use std::test::Fail;
use store_model::{OpValue, Value};

const GREATEST: &[u8] = b"18446744073709551615";

const TOO_GREAT: &[u8] = b"18446744073709551616";

const BYTES: [u8; 65] = [b'j'; 65];

/// Operator, old value, argument and answer. An empty old value stands for none.
const NUMBERS: [(u8, &[u8], &[u8], Option<&[u8]>); 17] = [
    (1, b"", b"0", Some(b"0")),
    (1, b"", b"00", None),
    (1, b"00", b"0", None),
    (1, b"7", b"5", Some(b"12")),
    (1, b"7", b"", None),
    (1, b"7", b"+5", None),
    (1, b"7a", b"5", None),
    (1, GREATEST, b"0", Some(GREATEST)),
    (1, GREATEST, b"1", None),
    (1, b"0", TOO_GREAT, None),
    (2, b"", b"0", Some(b"0")),
    (2, b"9", b"10", Some(b"10")),
    (2, GREATEST, b"3", Some(GREATEST)),
    (2, b"1", b"x", None),
    (2, TOO_GREAT, b"1", None),
    (0, b"1", b"1", None),
    (4, b"1", b"1", None),
];

/// Whether an operator answers as it should. An empty old value stands for none.
fn answers(
    operators: &Operators,
    id: u8,
    old: &[u8],
    argument: &[u8],
    want: Option<&[u8]>,
) -> bool {
    let Some(argument) = OpValue::new(argument) else {
        return false;
    };
    let old = if old.is_empty() {
        None
    } else {
        Value::new(old)
    };
    match (operators.apply(id, old.as_ref(), &argument), want) {
        (None, None) => true,
        (Some(found), Some(want)) => found.as_bytes() == want,
        _ => false,
    }
}

#[test]
fn numbers_add_and_compare_at_their_edges(rt: HostRuntime) -> Result<(), Fail> {
    let alloc = rt.alloc();
    let operators = boxed_operators!(alloc);
    for (id, old, argument, want) in NUMBERS {
        assert!(rt;
            answers(&operators, id, old, argument, want),
            "{id} {old:?} {argument:?}"
        );
    }
    Ok(())
}

#[test]
fn texts_join_up_to_64_bytes(rt: HostRuntime) -> Result<(), Fail> {
    let alloc = rt.alloc();
    let operators = Operators::new(
        Box::new(alloc, add)?,
        Box::new(alloc, max)?,
        Box::new(alloc, |old: &Option<Value>, argument: &OpValue| match old {
            None => join(&None, argument),
            Some(value) => join(&Some(value.copied()), argument),
        })?,
    );
    let table: [(&[u8], &[u8], Option<&[u8]>); 6] = [
        (b"", b"", Some(b"")),
        (b"ab", b"c", Some(b"abc")),
        (b"", &BYTES[..64], Some(&BYTES[..64])),
        (&BYTES[..40], &BYTES[..24], Some(&BYTES[..64])),
        (b"j", &BYTES[..64], None),
        (&BYTES[..65], b"", None),
    ];
    for (old, argument, want) in table {
        assert!(rt;
            answers(&operators, 3, old, argument, want),
            "{old:?} {argument:?}"
        );
    }
    Ok(())
}
