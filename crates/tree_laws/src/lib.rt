//! Laws of the Foster B-tree that the pages of a log make.
//!
//! The crate runs nothing. Each function is empty, and its contract is a law about the definitions of
//! wal_record; the statements stand in `specs/`.
#![tactic(auto)]

ghost use Rattle.std.specs.Prelude.{List, Option, ℕ};
ghost use Rattle.store_model.specs.Contents.{Contents};
ghost use Rattle.wal_record.specs.declared.record.Record.{Record};
ghost use Rattle.tree_laws.specs.Descent.{DescentLaw};
ghost use Rattle.tree_laws.specs.Entering.{LeafLaw};
ghost use Rattle.tree_laws.specs.Scan.{NeighboursLaw, ScanLaw};
ghost use Rattle.tree_laws.specs.Tree.{TreeLaw};

/// The tree law: each page of a sound log but the first has one incoming pointer, which agrees with it,
/// and each key lies in the own part of one leaf, whose live value is the current one.
pub fn tree_law()
    ensures { (log : List Record) → TreeLaw log }
{}

/// The descent law: in the tree of a sound log each step of a descent leads to a page between whose
/// fence keys the key lies, and the leaf whose own part has the key has its current value.
pub fn descent_law()
    ensures { (log : List Record) → DescentLaw log }
{}

/// The scan law: in the tree of a sound log a range inside a leaf's own part has the pairs of the leaf's
/// live rows.
pub fn scan_law()
    ensures { (log : List Record) → ScanLaw log }
{}

/// The pairs of two neighbouring ranges, one after the other, are those of both together.
pub fn neighbours_law()
    ensures { (low mid high : Option (List ℕ)) (contents : Contents) → NeighboursLaw low mid high contents }
{}

/// On the leaf whose own part has the key, the next write of the key finds the value that it has to
/// name, and the undo of a last open write can be applied where it fits.
pub fn leaf_law()
    ensures { (log : List Record) → LeafLaw log }
{}
