//! What the commands of a life enter, and laws of who enters them.
//!
//! One thread carries out commands of named transactions, several of which may be active side by side. Each command enters
//! own entries in their order, and others beside them: the undo of losers in the way of a lock, what keeps the tree and its
//! pages up (`specs/Commands`). Whoever has all parts of the ledger of entries is alone (`specs/Alone`): what its calls add to
//! the history is what they say they entered, and nothing else.
//!
//! The crate runs nothing. Its functions are empty, and each contract is a law; the statements stand in `specs/`.
#![tactic(auto)]

ghost use Rattle.std.specs.Prelude.{List};
ghost use Rattle.wal_record.specs.declared.entry.Entry.{Entry};
ghost use Rattle.wal_record.specs.declared.record.Record.{Record};
ghost use Rattle.command_laws.specs.Right.{RightLaw};

/// The law of right lives: a legal history with a sound log is serial, at each of its entries, and a stop leaves the first of
/// its committed transactions.
pub fn right_law()
    ensures { (opening : List Record) (history : List Entry) → RightLaw opening history }
{}
