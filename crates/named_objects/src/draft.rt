//! An object on its way into the log, and what becomes of it.
ghost use Rattle.std.specs.Prelude.{◌≡◌, ◌↔◌, Some, true};
ghost use Rattle.named_objects.specs.Drafts.{ready, synced_draft};

use crate::naming::Naming;
use store_model::Lsn;

/// The object that was put last, which no record names yet.
#[derive(Drop)]
pub struct Draft {
    /// What is to name it.
    pub naming: Naming,
    /// Whether it is durable.
    pub synced: bool,
}

/// What became of a put.
#[derive(Debug, Drop)]
pub enum Drafted {
    /// The object is there, unsynced.
    Taken,
    /// Another object was named since. Nothing was put.
    Late,
}

/// What became of a naming.
#[derive(Debug, Drop)]
pub enum Done {
    /// The record of this LSN names the object.
    At(Lsn),
    /// Another object was named since, or the draft isn't this one, or isn't durable. Nothing was entered.
    Late,
}

/// Whether this draft is to be named so, and is durable.
pub(crate) fn is_ready(draft: &Option<Draft>, naming: &Naming) -> bool
    ensures { (result ≡ true) ↔ (draft.now ≡ ready naming.now) }
{
    match draft {
        Some(draft) => draft.synced && draft.naming.is_same(naming),
        None => false,
    }
}

/// The draft, where there is one, is durable.
pub(crate) fn mark_synced(draft: &mut Option<Draft>)
    ensures { draft.new ≡ synced_draft draft.old }
{
    if let Some(draft) = draft {
        draft.synced = true;
    }
}
