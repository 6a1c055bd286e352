//! The state of a page of a Foster B-tree (Graefe, Kimura and Kuno 2012).

use store_model::{Bound, Key, List, PageNo, Value};

/// The pointer from a page to the page that took its upper keys at a split, until the parent adopts
/// that one. Keys from `key` on are the foster child's.
#[derive(Drop)]
pub struct Foster {
    pub key: Key,
    pub child: PageNo,
}

/// A row of a leaf. A tombstone stands for a deleted key, and its value is empty.
#[derive(Drop)]
pub struct LeafRow {
    pub key: Key,
    pub tombstone: bool,
    pub value: Value,
}

/// A row of a branch: the child covers the keys from the separator `low` up to that of the next row,
/// or to the end of the page's own part.
#[derive(Drop)]
pub struct BranchRow {
    pub low: Bound,
    pub child: PageNo,
}

/// The rows of a page, by rising key.
#[derive(Drop)]
pub enum Rows {
    Leaf(List<LeafRow>),
    Branch(List<BranchRow>),
}

/// What a page holds. A leaf has level 0, and a branch a level one above that of its children. The
/// fence keys `low` and `high` bound the keys of the page and of its foster chain together. The keys
/// below the foster key, or below `high` where there is none, are the page's own part.
#[derive(Drop)]
pub struct PageState {
    pub level: u8,
    pub low: Bound,
    pub high: Bound,
    pub foster: Option<Foster>,
    pub rows: Rows,
}
