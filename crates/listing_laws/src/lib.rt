//! Laws of a log in short: its summary goes on record by record, and a checkpoint has all of it.
//!
//! The definitions of wal_record fold over the whole log. A journal can't: it has to know the head of a page, the open
//! writes of a transaction or the next number at each record, after any number of records. `specs/Summary` says what is
//! enough for that: the LSNs of the last record and of the last checkpoint, and what the next checkpoint lists. The laws
//! say that this summary goes on by the next record alone, that a checkpoint has all of it, so that older records aren't
//! needed, that what is asked of a log is read off it, and that it always fits into a record.
//!
//! The crate runs nothing. Each function is empty, and its contract is a law; the statements stand in `specs/Laws`.
#![tactic(auto)]

ghost use Rattle.std.specs.Prelude.{List};
ghost use Rattle.wal_record.specs.declared.record.Checkpoint.{Checkpoint};
ghost use Rattle.wal_record.specs.declared.record.Record.{Record};
ghost use Rattle.listing_laws.specs.Laws.{CheckpointLaw, ReadingLaw, RestLaw, SpellingLaw, StepLaw};

/// The step law: a record more changes the summary of a lawful log by what the record says alone. So whoever keeps the
/// summary needs no record that came before.
pub fn step_law()
    ensures { (log : List Record) (r : Record) → StepLaw log r }
{}

/// The checkpoint law: a lawful log that ends in a checkpoint is summed up by what the checkpoint says.
pub fn checkpoint_law()
    ensures { (before : List Record) (c : Checkpoint) → CheckpointLaw before c }
{}

/// The law of what follows a checkpoint: a lawful log is summed up by any of its checkpoints and the records behind it.
/// So an analysis begins at the last one, and the records before it may be gone.
pub fn rest_law()
    ensures { (before : List Record) (c : Checkpoint) (rest : List Record) → RestLaw before c rest }
{}

/// The reading law: the analysis of a log, the entries of its pages, the open writes of its transactions and the pending
/// writes are read off its summary; and the analysis says as much as the checkpoint.
pub fn reading_law()
    ensures { (log : List Record) → ReadingLaw log }
{}

/// The spelling law: the checkpoint of a lawful log keeps the rules of its fields while LSNs fit, and is at most 2 MiB
/// long. So a checkpoint can be entered at any time.
pub fn spelling_law()
    ensures { (log : List Record) → SpellingLaw log }
{}
