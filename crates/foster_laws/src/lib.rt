//! Laws of the Foster tree as it is kept up: splits, purges, grown roots, adopted children, and the ways through it.
//!
//! A page that overflows is split in two; the new page becomes a foster child of the old one, until the parent adopts it.
//! The tree law says that lawful records keep the tree; the laws here say when these records are lawful, so that code
//! that looks at one or two pages in hand can enter them, and what they make of the pages. They are in five groups:
//!
//! 1. **Of a page** (`Splits`, `Purges`, `Grows`, `Adopts`): what a record makes of a state, in bytes and in rows.
//!    A split needs a page that overflows, or a branch with less than 69 free bytes: only then do both halves have a row,
//!    and room for one more.
//! 2. **Of a log** (`Enters`, `Links`): what a lawful record of this kind makes of pages, heads, room and contents.
//! 3. **Of pages in hand** (`InHand`): a record, or an answer, that is read off their states suits, in the words of
//!    claim_laws: it may be asked of the journal, also behind a split that makes room for it.
//! 4. **Of a way** (`Descents`, `Steps`, `Scans`): a search in a branch finds the row that leads on, the steps from page 1
//!    reach the leaf of the key, each step makes a number smaller that the pages tell alone, whatever others do to the
//!    tree meanwhile, and the leaves of a range have its pairs.
//! 5. **Of a tidy path** (`Tidy`, `Paths`, `PathRecords`): what the descent of a write keeps true of the page in hand, so
//!    that behind it no page on the way keeps a foster child that its parent could have adopted.
//!
//! The crate runs nothing. Each function is empty, and its contract is a law about the definitions of wal_record; the
//! statements stand in `specs/`. `proofs/Examples` has pages to which the laws apply.
#![tactic(auto)]

ghost use Rattle.std.specs.Prelude.{List, Option, ℕ};
ghost use Rattle.wal_record.specs.declared.page.PageState.{PageState};
ghost use Rattle.wal_record.specs.declared.entry.Entry.{Entry};
ghost use Rattle.wal_record.specs.declared.record.Adopt.{Adopt};
ghost use Rattle.wal_record.specs.declared.record.Grow.{Grow};
ghost use Rattle.wal_record.specs.declared.record.Purge.{Purge};
ghost use Rattle.wal_record.specs.declared.record.Record.{Record};
ghost use Rattle.wal_record.specs.declared.record.Split.{Split};
ghost use Rattle.foster_laws.specs.Adopts.{AdoptLaw};
ghost use Rattle.foster_laws.specs.Descents.{SearchLaw, WalkLaw};
ghost use Rattle.foster_laws.specs.Enters.{AdoptEnters, GrowEnters, HalfLaw, LeafEnters, PurgeEnters, SplitEnters};
ghost use Rattle.foster_laws.specs.Grows.{GrowLaw};
ghost use Rattle.foster_laws.specs.InHand.{BehindLaw, HandLaw};
ghost use Rattle.foster_laws.specs.Links.{LinkLaw, OpenLaw};
ghost use Rattle.foster_laws.specs.PathRecords.{PathAdoptLaw, PathGrowLaw, PathPurgeLaw, PathSplitLaw, PathStaysLaw, PathUpkeepLaw};
ghost use Rattle.foster_laws.specs.Paths.{PathBeginsLaw, PathEndsLaw, PathGoesOnLaw};
ghost use Rattle.foster_laws.specs.Purges.{PurgeLaw};
ghost use Rattle.foster_laws.specs.Scans.{ChainLaw, LeafStepLaw};
ghost use Rattle.foster_laws.specs.Splits.{SplitLaw};
ghost use Rattle.foster_laws.specs.Steps.{StepLaw, TextsLaw};

/// The split law: a leaf without tombstones that a value doesn't fit into, and a branch with less than 69 free bytes,
/// are split at their split point into two halves that keep the rules of a state and have room for any row.
pub fn split_law()
    ensures { (s : PageState) (x : Split) → SplitLaw s x }
{}

/// The purge law: a leaf without its tombstones keeps the rules of a state, has the same live values, and has their
/// bytes free.
pub fn purge_law()
    ensures { (s : PageState) → PurgeLaw s }
{}

/// The grow law: a root with a foster child, below level 255, becomes the only child of a new root.
pub fn grow_law()
    ensures { (s : PageState) (g : Grow) → GrowLaw s g }
{}

/// The adopt law: where a slot of the parent leads to a page with a foster child, the parent can take that child,
/// exactly if it has room for the row, and the two slots then lead to both.
pub fn adopt_law()
    ensures { (a : Adopt) (s f : PageState) (i : ℕ) → AdoptLaw a s f i }
{}

/// What a split makes of the pages: the lower half, the new page, and the same contents. The pages are so wherever the new
/// page has the next number; room and the like need that the record is lawful.
pub fn split_enters()
    ensures { (log : List Record) (x : Split) (s : PageState) → SplitEnters log x s }
{}

/// After the split of a leaf the half whose own part has a key has room for any row, and the key's live value.
pub fn half_law()
    ensures { (log : List Record) (x : Split) (s : PageState) (key : List ℕ) → HalfLaw log x s key }
{}

/// What a lawful purge makes of its page.
pub fn purge_enters()
    ensures { (log : List Record) (x : Purge) (s : PageState) → PurgeEnters log x s }
{}

/// What a lawful growth makes of page 1 and the new page.
pub fn grow_enters()
    ensures { (log : List Record) (g : Grow) (s : PageState) → GrowEnters log g s }
{}

/// What a lawful adoption makes of the parent and the fosterer.
pub fn adopt_enters()
    ensures { (log : List Record) (a : Adopt) (s f : PageState) (i : ℕ) → AdoptEnters log a s f i }
{}

/// The search law: the row that a binary search for a key finds in a branch covers the key, and its slot promises a
/// child between whose fences the key lies.
pub fn search_law()
    ensures { (s : PageState) (key : List ℕ) → SearchLaw s key }
{}

/// The walk law: in a tree the steps of a descent from page 1 reach the leaf of the key.
pub fn walk_law()
    ensures { (img : ℕ → Option PageState) (n : ℕ) (value : List ℕ → Option (List ℕ)) (key : List ℕ) → WalkLaw img n value key }
{}

/// The step law: each step of a descent makes a number smaller that the two pages tell alone.
pub fn step_law()
    ensures { (s t : PageState) → StepLaw s t }
{}

/// Above a greater text there are fewer texts.
pub fn texts_law()
    ensures { (a b : List ℕ) → TextsLaw a b }
{}

/// The law of scans leaf by leaf: the pairs of a range from a key on are those of the key's leaf, and then those from
/// the end of its own part on.
pub fn leaf_step_law()
    ensures { (log : List Record) → LeafStepLaw log }
{}

/// The pairs of leaves one behind the other are those of the range.
pub fn chain_law()
    ensures { (log : List Record) → ChainLaw log }
{}

/// The link law: a live transaction has no Commit and no End in the log of the life.
pub fn link_law()
    ensures { (opening : List Record) (h : List Entry) (t : ℕ) → LinkLaw opening h t }
{}

/// A transaction with an open write has no Commit and no End.
pub fn open_law()
    ensures { (log : List Record) (t : ℕ) → OpenLaw log t }
{}

/// What a lawful write, operator or undo makes of its page.
pub fn leaf_enters()
    ensures { (log : List Record) (s : PageState) → LeafEnters log s }
{}

/// What pages in hand let their holder enter: writes, operators, undos, purges, splits, growths, adoptions, and the answers
/// of a get and of a del that finds nothing suit where they are read off the states in hand. So they may be asked of the
/// journal at a later moment, while the rights to the pages and to the session are held.
pub fn hand_law()
    ensures { (opening : List Record) (h : List Entry) → HandLaw opening h }
{}

/// Behind the split of a leaf in hand any write and any undo of its own part suits, on the half that has the key.
pub fn behind_law()
    ensures { (opening : List Record) (h : List Entry) (x : Split) (s : PageState) (key : List ℕ) → BehindLaw opening h x s key }
{}

/// Where the path of a write begins: at a root that has no foster child, or can't grow.
pub fn path_begins_law()
    ensures { (log : List Record) (key : List ℕ) (s : PageState) → PathBeginsLaw log key s }
{}

/// Where it goes on: to a child without a foster child, to one whose foster child can't be adopted, or along a foster
/// pointer.
pub fn path_goes_on_law()
    ensures { (log : List Record) (key : List ℕ) (p q : ℕ) (s t : PageState) → PathGoesOnLaw log key p q s t }
{}

/// Where it ends: at the leaf of the key the whole path is tidy.
pub fn path_ends_law()
    ensures { (log : List Record) (key : List ℕ) (p : ℕ) (s : PageState) → PathEndsLaw log key p s }
{}

/// The path stays tidy while the page in hand keeps its foster child, and the pages before it stay as they are.
pub fn path_stays_law()
    ensures { (old new : List Record) (key : List ℕ) (p : ℕ) (s : PageState) → PathStaysLaw old new key p s }
{}

/// Records of upkeep leave all pages as they are.
pub fn path_upkeep_law()
    ensures { (log rest : List Record) (key : List ℕ) (p : ℕ) → PathUpkeepLaw log rest key p }
{}

/// Once the root has grown, the path begins at it.
pub fn path_grow_law()
    ensures { (log : List Record) (key : List ℕ) (g : Grow) (s : PageState) → PathGrowLaw log key g s }
{}

/// Once the page in hand has adopted a child, the path to it is still tidy.
pub fn path_adopt_law()
    ensures { (log : List Record) (key : List ℕ) (a : Adopt) (s f : PageState) (i : ℕ) → PathAdoptLaw log key a s f i }
{}

/// The path to a leaf stays tidy when the leaf is purged.
pub fn path_purge_law()
    ensures { (log : List Record) (key : List ℕ) (x : Purge) (s : PageState) → PathPurgeLaw log key x s }
{}

/// The path to a page stays tidy when a page that doesn't stand on it is split.
pub fn path_split_law()
    ensures { (log : List Record) (key : List ℕ) (p : ℕ) (s : PageState) (x : Split) (u : PageState) → PathSplitLaw log key p s x u }
{}
