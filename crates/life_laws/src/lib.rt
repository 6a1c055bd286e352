//! Laws of calm lives: transactions come one after the other, and page 1, a leaf, has all keys.
//!
//! The crate runs nothing. `specs/Calm.antt` says what holds between two commands of such a life, seen
//! from what its code keeps: the rows of the leaf, the LSN of the leaf's last record, the open transaction,
//! the next number, the number of commits, and the LSN of the last record. The lemmas in `proofs/` (`Start`,
//! `CalmSteps`, `CalmLives`, `Leaving`, `Reopening`, `Opened`) lead from one command to the next, and from a log
//! that is found to a life on it. So code has to show only that it enters these records and gives these answers; that
//! the history is legal, has the replies of a serial run, and loses nothing acknowledged at a stop follows, as the
//! functions here say of whole lives.
#![tactic(auto)]

ghost use Rattle.std.specs.Prelude.{List, ℕ};
ghost use Rattle.life_laws.specs.CalmLaw.{CalmLaw};
ghost use Rattle.life_laws.specs.Commands.{Command};
ghost use Rattle.wal_record.specs.declared.record.Record.{Record};
ghost use Rattle.life_laws.specs.Opening.{OpeningLaw};
ghost use Rattle.life_laws.specs.Stops.{CalmStopsLaw, Commands};

/// The law of calm lives. Commands are given to a fresh store, each where it is possible. Then at each
/// entry of their life, also in the middle of a command: the history is legal; the serial run of its
/// committed transactions has the replies that were said, and leaves the committed contents; a stop may
/// leave each beginning of the log that has its room and the acknowledged commits, so it may lose records
/// behind the last commit; and what it leaves has the first committed transactions, as many as it holds
/// commits, each acknowledged one among them. Such a life has room at each entry. At the end the leaf's rows
/// have the current values of all keys.
pub fn calm_law()
    ensures { (limit : ℕ) (commands : List Command) → CalmLaw limit commands }
{}

/// Calm lives that follow each other, each with a stop that loses the records of the transaction that was
/// open: each life is legal, its stop may leave what the next one opens, and the committed transactions that
/// the stops left, run one after the other, make the committed contents of the last log.
pub fn calm_stops_law()
    ensures { (limit : ℕ) (lives : List Commands) → CalmStopsLaw limit lives }
{}

/// The opening law: in a log without losers, in which no page was split, page 1 is a leaf with all keys, whose live
/// rows have the committed contents, and a calm life may begin with what the records say: that leaf, the LSN of its last
/// record, the number above all transactions, and the number of commits.
pub fn opening_law()
    ensures { (log : List Record) → OpeningLaw log }
{}
