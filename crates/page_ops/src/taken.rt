//! What came of taking a page.

/// What came of taking a page.
#[derive(Drop)]
pub enum Taken<T> {
    /// The page, which nobody else holds.
    Page(T),
    /// Somebody holds it.
    Busy,
    /// It is neither held nor in a frame.
    Away,
}
