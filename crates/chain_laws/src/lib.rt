//! Laws of the chains of a log: how a page is found again from its own records alone, and a transaction's open writes
//! from its last record.
//!
//! A record tells the one before it of each page that it names and of its transaction. From the head of a page these
//! fields lead over exactly the records that made it, which is what the repair of a single page stands on (Graefe and
//! Kuno, *Definition, Detection, and Recovery of Single-Page Failures*, 2012). From the last record of a transaction
//! they lead over exactly its own, and an undo steps over what it has taken back already.
//!
//! The crate runs nothing. Each function is empty, and its contract is a law about the definitions of wal_record; the
//! statements stand in `specs/`. They hold of every log whose records are lawful one by one.
#![tactic(auto)]

ghost use Rattle.std.specs.Prelude.{◌≡◌, ◌++◌, List, ℕ, Some, false, IsTrue};
ghost use Rattle.std.specs.List.{list_any};
ghost use Rattle.wal_record.specs.Chains.{names, record_with};
ghost use Rattle.wal_record.specs.Sound.{AreLawful};
ghost use Rattle.wal_record.specs.declared.record.Record.{Record};
ghost use Rattle.chain_laws.specs.Bases.{BaseLaw};
ghost use Rattle.chain_laws.specs.Ladders.{PrevsLaw};
ghost use Rattle.chain_laws.specs.Late.{LateLaw, goes_on};
ghost use Rattle.chain_laws.specs.Steps.{HeadLaw, StepLaw};
ghost use Rattle.chain_laws.specs.Walks.{ChainLaw, RebuildLaw};

/// Heads: where a page's chain begins, and that the image is the one made there.
pub fn head_law()
    ensures { (log : List Record) (p : ℕ) → HeadLaw log p }
{}

/// One step of a page's chain.
pub fn step_law()
    ensures { (log : List Record) (p lsn : ℕ) (r : Record) → AreLawful log → record_with log lsn ≡ Some r → IsTrue (names p r) → StepLaw log p lsn r }
{}

/// The previous fields of a page lead from its head over exactly the records that name it, last first, down to the one
/// that makes it; and so from any of these down to an LSN.
pub fn chain_law()
    ensures { (log : List Record) (p : ℕ) → AreLawful log → ChainLaw log p }
{}

/// The image of a page is made of an earlier one by the records of its chain that came later.
pub fn rebuild_law()
    ensures { (log : List Record) (p low high : ℕ) → RebuildLaw log p low high }
{}

/// The `prev` fields of a transaction lead from its last record over exactly those that name it, last first. The `prev`s
/// of its open writes rise, and the last open write is found from its last record by undos alone.
pub fn prevs_law()
    ensures { (log : List Record) (tx : ℕ) → AreLawful log → PrevsLaw log tx }
{}

/// The image of a page in its last backup, and the one that was written last, stand at a record that names the page.
pub fn base_law()
    ensures { (log : List Record) (p : ℕ) → AreLawful log → BaseLaw log p }
{}

/// Where a transaction has only been undone since, each open write of it then is undone by now exactly where it tells at
/// least what the last undo leads to.
pub fn late_law()
    ensures { (log more : List Record) (tx : ℕ) → AreLawful (log ++ more) → list_any (goes_on tx) more ≡ false → LateLaw log more tx }
{}
