//! What came of a step.
use store_model::Pos;

/// What came of a step on the losers of the opening log.
#[derive(Debug, Drop)]
pub enum Step {
    /// None is left without an End.
    NoLoser,
    /// The last open write of the least one is undone, and its Undo stands here in the history.
    Undone(Pos),
    /// The least one had no open write left, and its End stands here.
    Ended(Pos),
    /// Another thread has ended the least one meanwhile: its End stands here. This step has entered nothing for it.
    Late(Pos),
}
