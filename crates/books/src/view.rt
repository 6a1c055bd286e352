//! What is known of a book's word.
use crate::entry::BookEntry;
use std::collections::LinkedList;

/// What a seat at a book's table knows. It stands in contracts and proofs alone: no value of it is made.
pub struct View {
    /// Whether it keeps the book.
    pub keeps: bool,
    /// The entries, if it keeps the book.
    pub entries: LinkedList<BookEntry>,
    /// The entry that it has the right to.
    pub claim: Option<BookEntry>,
}
