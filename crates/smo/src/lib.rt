//! System modifications of the Foster tree (Graefe, Kimura and Kuno 2012): each changes one or two pages that are in hand,
//! and enters the record that says so.
//!
//! A call prepares, enters and settles. Everything that may fail for want of memory comes before the journal is asked;
//! once it has entered the group, the pages in hand are made what the record makes of them, without memory. Where it hasn't
//! entered the group, the pages in hand are as before. A page in hand is always the image that the log makes of it after
//! what its own pass has seen; behind a call that is done, that is all that was entered.
//!
//! 1. [`purge`] takes the tombstones of a leaf out, in a group of its own.
//! 2. [`split`] gives the upper rows of a crowded branch to a new page, its foster child. [`grow`] puts a new root above what
//!    the root has, which goes to a new page. Each is a group of its own, and answers the number of the new page, or none
//!    where there is no room for a page more; then nothing has changed.
//! 3. [`ask`] hands a group that was made to the journal, and [`put_made`] puts a page that was made into its frame. They are
//!    for calls that change pages in this way, here and in the crates above.
//!
//! A call that may make a page asks that a frame is reserved for it. It takes the frame exactly where it made one.
#![tactic(auto)]

mod asking;
mod growing;
mod making;
mod purging;
mod splitting;

pub use asking::ask;
pub use growing::grow;
pub use making::put_made;
pub use purging::purge;
pub use splitting::split;
