//! What the crates that change the tree compute from a page in hand: the halves of a page that is split, the row of a
//! branch that leads to a key, whether a write fits, and whether a purge would free anything.
//!
//! The definitions are wal_record's and foster_laws'. What is promised:
//!
//! 1. [`upper_half`] makes the state that a Split gives the new page, with which foster_laws' split law has both halves
//!    keep the rules of a state. [`keep_lower`] makes of the page what the Split leaves of it, without memory.
//! 2. [`slot_of`] and [`child_of`] find the row that covers a key of the page's own part, and its child, by as many
//!    steps as the number of rows has binary digits. [`child_in`] reads the child of a row that was found.
//! 3. [`fits_with`] tells whether a leaf fits with another value of a key, without making that leaf.
//! 4. [`has_tombstone`] tells whether a purge makes the leaf shorter.
#![tactic(auto)]

mod halves;
mod room;
mod slots;

pub use halves::{keep_lower, upper_half};
pub use room::{fits_with, has_tombstone};
pub use slots::{child_in, child_of, slot_of};
