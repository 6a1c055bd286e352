//! What came of undoing a write.
use store_model::Pos;

/// What came of undoing the last open write of a transaction.
#[derive(Debug, Drop)]
pub enum Undid {
    /// It has none.
    Nothing,
    /// It is undone, and its Undo stands here in the history.
    Undone(Pos),
}
