//! A request that was answered.
use store_model::{Pos, Reply};

/// The reply to a request, and where in the history it stands.
#[derive(Drop)]
pub struct Answered {
    pub pos: Pos,
    pub reply: Reply,
}
