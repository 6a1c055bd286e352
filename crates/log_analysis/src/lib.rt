//! What a log says, read from its last Checkpoint on.
//!
//! A Checkpoint lists all that has to be known of the log up to it, so an opening needs no record before it: it reads
//! the block that has the last Checkpoint and those behind it (write-ahead logging with fuzzy checkpoints; Mohan et al.
//! 1992). The header of each block names the last Checkpoint up to its end, and so the last header tells where to begin.
//!
//! The model is log_index's: the listing of a log is the summary that listing_laws defines of it. `specs/Taken` says what
//! a block does to a listing: records before the Checkpoint are passed over, the Checkpoint begins the listing, and those
//! behind it go on with it.
//!
//! [`analyse`] reads a log that has just been opened: the payload of the block that has the last Checkpoint, those behind
//! it, and none before it. Of each log for which the disk stands, the listing is that of the whole log, and knows the last
//! record of each transaction that may go on behind it: whoever neither began later nor is a loser gets none. Where the disk
//! stands for none, `specs/Analysed` says which block and byte is named: the first fault of a payload that is read, or the
//! last header, where the record that it names isn't kept or is no Checkpoint.
//!
//! [`take_block`] takes the payload of one block. Once the block of the last Checkpoint and those behind it are taken, one
//! after the other ([`next_law`]), the listing is that of the whole log, whatever stands in the blocks before
//! ([`whole_law`]).
#![tactic(auto)]

mod analysing;
mod laws;
mod taking;

pub use analysing::analyse;
pub use laws::{next_law, whole_law};
pub use taking::{Named, take_block};
