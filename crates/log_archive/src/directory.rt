//! What stands before the items of a run.

use store_model::{List, Lsn, PageNo};

/// The range of a run's LSNs, both ends included, and how many pages it has items of.
#[derive(Clone, Copy, Debug, PartialEq, Eq)]
pub struct Head {
    pub first: Lsn,
    pub last: Lsn,
    pub pages: u32,
}

/// A page, how many items it has, and at which byte of the object the first of them begins.
#[derive(Clone, Copy, Debug, PartialEq, Eq)]
pub struct Entry {
    pub page: PageNo,
    pub count: u32,
    pub offset: u64,
}

/// The head and the directory of a run.
#[derive(Drop)]
pub struct Outline {
    pub head: Head,
    pub entries: List<Entry>,
}
