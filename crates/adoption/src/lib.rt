//! Foster children that their parents take, and the descent of a write through the Foster tree (Graefe, Kimura and Kuno
//! 2012).
//!
//! A page that is split keeps the pointer to the new page, as its foster child, until its parent takes it. Descents that
//! write do that as they go, so that foster chains stay short. What is promised:
//!
//! 1. [`try_adopt`] moves the pointer to a foster child from a page in hand to its parent in hand, in a group of its own,
//!    exactly where there is a foster child and the parent has room for the row. It prepares, enters and settles: what
//!    may fail for want of memory comes before the journal is asked, nothing after it has entered the group. Where it isn't
//!    done, and after a refusal, both pages are as before. Both are then images of the log.
//! 2. [`find_leaf_for_write`] finds the leaf of a key as `foster_tree::find_leaf` does, with its clauses, and keeps the tree
//!    up on its way by three rules. A root with a foster child grows. A branch takes the foster child of the child that
//!    it leads the key to, if it has room for the row. If it has none it is split, and the descent starts again; where
//!    there is no room for a page more, the foster child stays.
//! 3. Behind it the path is tidy (`tidy`), for whoever enters alone: the root has no foster child, and none that a row of
//!    a page on the path leads the key to has one, but where there is no room, or at the highest level.
//!
//! At each page of its way the descent asks the journal once: only so is it known, when the leaf is reached, that the pages
//! that were put back by then were images of the log.
#![tactic(auto)]

mod adopting;
mod descending;
mod outcome;
mod placing;
mod root;
mod stepping;
mod steps;

pub use adopting::try_adopt;
pub use descending::find_leaf_for_write;
pub use outcome::Adoption;
