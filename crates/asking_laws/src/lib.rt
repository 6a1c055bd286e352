//! Which groups a caller may ask of the journal, at whatever moment it comes.
//!
//! A caller sees a history, reads pages in hand, and makes a group; the journal gets it at a later moment, when others
//! have entered more. The condition of the call (`IsAskable` of page_ops) speaks of that later moment, which the caller
//! doesn't know. claim_laws says what the rights in its hand pin until then, foster_laws what may be read off pages in
//! hand; here both meet the condition, and the other side is told what it gets by it: the records that the journal fills
//! in by its own numbers are those with which the group is legal, and behind them the life is at rest again.
//!
//! The crate runs nothing. Each function is empty, and its contract is a law; the statements stand in `specs/`.
#![tactic(auto)]

ghost use Rattle.std.specs.Prelude.{List};
ghost use Rattle.wal_record.specs.declared.entry.Entry.{Entry};
ghost use Rattle.wal_record.specs.declared.record.Record.{Record};
ghost use Rattle.asking_laws.specs.Alike.{AlikeLaw};
ghost use Rattle.asking_laws.specs.Asks.{AsksLaw};
ghost use Rattle.asking_laws.specs.Entered.{EnteredLaw};
ghost use Rattle.page_ops.specs.declared.group.Group.{Group};

/// The law of asking: what a caller knows of a group at the moment that it has seen meets the conditions of entering at
/// each later one, where what its rights pin has stayed. Each kind of group is there, with its answer or without.
pub fn asks_law()
    ensures { (opening : List Record) (seen more : List Entry) → AsksLaw opening seen more }
{}

/// The law of entering: a group that meets the conditions is legal with the numbers that the journal fills in, and the
/// life is at rest behind it.
pub fn entered_law()
    ensures { (opening : List Record) (history : List Entry) (group : Group) → EnteredLaw opening history group }
{}

/// The law of what the journal fills in: which numbers a caller writes into these fields of its records doesn't matter.
pub fn alike_law()
    ensures { (opening : List Record) (history : List Entry) (group other : Group) → AlikeLaw opening history group other }
{}
