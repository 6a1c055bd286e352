//! Changes of the rows of keys, on leaves that are in hand.
//!
//! A [`Change`] is a put, a del, what an operator makes of a value, or the undo of a transaction's last open write. It gives
//! one key a new value, or a tombstone. As in `smo`, each call prepares, enters and settles: what may fail for want of
//! memory comes before the journal is asked, and behind it nothing does. What is promised, of each kind alike:
//!
//! 1. [`write_leaf`] enters it where the leaf has room for the new value, and takes memory for no row but its own.
//! 2. [`split_leaf`] does so where it has none: it enters the split of the leaf and the change in one group, and the key
//!    gets its new value in the half whose own part has it (Graefe, Kimura and Kuno 2012).
//! 3. [`write_key`] does what the leaf needs: it purges a leaf that has no room and has tombstones, splits one that still has
//!    none, and enters the change.
//!
//! Writes are entered with their answers and ask for room. Undos ask for none: what a write took, and the page that its
//! undo may need, was left for them. The undo of a loser's write may come late, since another thread may undo it too; then
//! nothing is entered.
#![tactic(auto)]

mod change;
mod key_writing;
mod placing;
mod split_writing;
mod writing;

pub use change::{Change, How};
pub use key_writing::write_key;
pub use split_writing::split_leaf;
pub use writing::write_leaf;
