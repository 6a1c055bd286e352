//! The order of texts against a dictionary's.

use crate::compare_texts;

/// Texts in rising order: prefixes, zeros behind a text, differences in the first, eighth, ninth and last byte.
const RISING: [&[u8]; 14] = [
    b"",
    b"\0",
    b"\0\0\0\0\0\0\0\0",
    b"\0\0\0\0\0\0\0\0\0",
    b"a",
    b"a\0",
    b"a\0\0\0\0\0\0\0",
    b"a\0\0\0\0\0\0\0\0",
    b"aaaaaaaa",
    b"aaaaaaaaa",
    b"aaaaaaaab",
    b"aaaaaaab",
    b"b",
    b"\xff\0\0\0\0\0\0\0\xff",
];

#[test]
fn texts_are_ordered_as_in_a_dictionary(rt: HostRuntime) {
    for (i, a) in RISING.iter().enumerate() {
        for (j, b) in RISING.iter().enumerate() {
            assert_eq!(rt; compare_texts(a, b), i.cmp(&j));
        }
    }
}
