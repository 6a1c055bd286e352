//! The place of one page in a pool.

/// The place of a page.
#[derive(Drop)]
pub enum Frame<T> {
    /// The page isn't in the pool.
    Empty,
    /// The page is in somebody's hand, or on its way here.
    Kept,
    /// The page is here.
    Full(T),
}
