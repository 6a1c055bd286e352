//! The rows of a page: where a key stands among them, what changes them, how many bytes they have, where a page is
//! split, and what each record of the log does to a page.
//!
//! The model is `wal_record`'s: a page is its state, the rows of a leaf or branch by rising key (`specs/State` there).
//! `specs/Rows` names places among rows and what a change of one row makes of them, `specs/Redo` what redoing a record
//! answers. A page that has no image yet is `None`.
//!
//! What is promised: [`search`] gives the one spot of a key among rows that rise, in as many steps as their number has
//! binary digits. The changes give exactly the rows that the definitions say, or leave the state as it was where memory
//! runs out. [`free_bytes`] and [`split_point`] are the definitions of `wal_record`. [`redo`] answers true exactly where
//! the record names the page and is applicable to its state, which is then what the definition `applied` makes of it;
//! else it changes nothing. A state that keeps the rules of a state keeps them. Copies are the same state, or part of one, or
//! memory has run out.
#![tactic(auto)]

mod adopt_redo;
mod change;
mod copied;
mod leaf_redo;
mod records;
mod same;
mod sizes;
mod split_redo;
mod spot;

pub use change::{insert_at, replace_at, set_tombstone};
pub use copied::{copied_bound, copied_branch_rows, copied_foster, copied_leaf_rows, copied_state};
pub use records::{names, redo};
pub use sizes::{free_bytes, split_point};
pub use spot::{Spot, search};
