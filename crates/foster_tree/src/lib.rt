//! The leaf of a key, and the pairs of a range, by descents from page 1 through any pool and any journal.
//!
//! [`find_leaf`] goes from page 1 through branch rows and foster children to the leaf of a key. It takes each page while it
//! holds the one before, and holds the two against each other: the child's level and fences are those that its parent
//! promises, or both pages are brought anew from their logged images, and the descent starts again. So the key lies between
//! the fences of each page that it goes through, whatever the pages are. It asks the journal only at the leaf, and before a
//! page is brought. Whoever waits for a page, or brings one, holds none. What is promised:
//!
//! 1. The leaf is in hand, its own part has the key, and it is the image that the log makes of it in the history that the
//!    pass has then seen (`leaf`, `now`, `taken`). After a refusal no page is held (`none`).
//! 2. It enters nothing of its own but what the upkeep of pages enters (`entered`).
//! 3. Each refusal has its cause, said of what was known before the call: the end of the life, a count of faults that rose,
//!    or want of memory; and a call that is done met no end (`refused`, `open`).
//!
//! [`lookup`] reads the value of a key off its leaf, by a binary search.
//!
//! [`scan_leafs`] goes from leaf to leaf of a range: the next one is that of the text at which the one before ends. Each
//! leaf is read at its own moment. For whoever keeps the range locked, by a transaction of a session that enters nothing
//! meanwhile, the pairs are still those of one moment, the last that the pass has seen (`pairs`); the leaf with the range's
//! last part is then in hand (`last`), so the answer may be entered. After a refusal the pairs are as before (`same`).
#![tactic(auto)]

mod leaf;
mod scan;
mod seeing;
mod taking;
mod value;
mod way;

pub use leaf::{fetch, find_leaf, mend};
pub use scan::scan_leafs;
pub use seeing::{see_image, see_page};
pub use taking::take;
pub use value::lookup;
pub use way::{Way, agrees, is_within, way_from};
