//! What a book holds.

/// An entry of a book: a number and two values.
#[derive(Clone, Copy)]
pub struct BookEntry {
    pub number: u32,
    pub first: u64,
    pub second: u64,
}
