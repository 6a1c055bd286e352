//! How full a store is.

/// How many pages and pending writes there are.
#[derive(Clone, Copy)]
pub(crate) struct Taken {
    pub(crate) pages: u32,
    pub(crate) pending: u32,
}
