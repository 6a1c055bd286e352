//! The order of two texts.
ghost use Rattle.std.specs.Prelude.{◌≡◌, ◌<◌, ◌≤◌, IfNone, IfSome, length};
ghost use Rattle.std.specs.Ordering.{nat_cmp};
ghost use Rattle.std.specs.Cmp.Lexicographic.{slice_cmp};
ghost use Rattle.text_order.specs.Words.{word};

use std::cmp::Ordering;

/// The first eight bytes as a number, the first one greatest, if there are so many.
fn first_word(text: &[u8]) -> Option<u64>
    ensures value { IfSome result (λ n. (n ≡ word 8 text.now) × (8 ≤ length text.now)) }
    ensures short { IfNone result (length text.now < 8) }
{
    match text {
        [a, b, c, d, e, f, g, h, ..] => {
            Some(u64::from_be_bytes([*a, *b, *c, *d, *e, *f, *g, *h]))
        }
        _ => None,
    }
}

/// The same of fewer bytes, with zeros for those that lack. It is a call of its own, so that longer texts aren't asked for each
/// length.
#[inline(never)]
fn short_word(text: &[u8]) -> u64
    requires { length text.now < 8 }
    ensures { result ≡ word 8 text.now }
{
    match text {
        [a, b, c, d, e, f, g] => u64::from_be_bytes([*a, *b, *c, *d, *e, *f, *g, 0]),
        [a, b, c, d, e, f] => u64::from_be_bytes([*a, *b, *c, *d, *e, *f, 0, 0]),
        [a, b, c, d, e] => u64::from_be_bytes([*a, *b, *c, *d, *e, 0, 0, 0]),
        [a, b, c, d] => u64::from_be_bytes([*a, *b, *c, *d, 0, 0, 0, 0]),
        [a, b, c] => u64::from_be_bytes([*a, *b, *c, 0, 0, 0, 0, 0]),
        [a, b] => u64::from_be_bytes([*a, *b, 0, 0, 0, 0, 0, 0]),
        [a] => u64::from_be_bytes([*a, 0, 0, 0, 0, 0, 0, 0]),
        _ => 0,
    }
}

/// The word of a text of any length.
fn word_of(text: &[u8]) -> u64
    ensures { result ≡ word 8 text.now }
{
    match first_word(text) {
        Some(word) => word,
        None => short_word(text),
    }
}

/// The order of two texts. Most differ in their first eight bytes, so these are compared first, once, and in few instructions.
pub fn compare_texts(a: &[u8], b: &[u8]) -> Ordering
    ensures { result ≡ slice_cmp nat_cmp a.now b.now }
{
    let (Some(x), Some(y)) = (first_word(a), first_word(b)) else {
        return compare_by_words(a, b);
    };
    if x == y {
        compare_by_words(&a[8..], &b[8..])
    } else {
        x.cmp(&y)
    }
}

/// The order of two texts, word by word. It is a call of its own, so that the comparison above is made where it is wanted.
#[inline(never)]
fn compare_by_words(a: &[u8], b: &[u8]) -> Ordering
    ensures { result ≡ slice_cmp nat_cmp a.now b.now }
{
    let (mut left, mut right) = (a, b);
    loop {
        let order = word_of(left).cmp(&word_of(right));
        if order != Ordering::Equal {
            return order;
        }
        match (left.get(8..), right.get(8..)) {
            (Some(x), Some(y)) => (left, right) = (x, y),
            // (One of them ends here, and the other begins with it, or with it and zeros.)
            _ => return left.len().cmp(&right.len()),
        }
    }
}
