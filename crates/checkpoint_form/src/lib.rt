//! Which Checkpoints a log can take.
//!
//! A Checkpoint lists what an opening has to know of the log before it. Its record has a spelling where its fields and the
//! orders of its lists keep their rules, and it goes into a block where it isn't long. Of a lawful log's own Checkpoint the
//! law of spelling says both; whoever doesn't know the log asks [`has_form`], which is exact: it says yes to exactly the
//! Checkpoints that keep the rules and are modest (`specs/Modest`), and a modest one has at most 2 MiB. By [`lawful_law`] that
//! of each lawful log is such a one.
#![tactic(auto)]

mod checkpoint;
mod law;
mod lists;

pub use checkpoint::{MOST_RUNS, has_form};
pub use law::lawful_law;
