//! The lines of a transcript: how the answer to each command is printed.
//!
//! A line is a list of bytes with its end. Its model is those bytes, and the promise of each function is what they are: a
//! head, which says what was asked, and the answer behind it (`specs/Lines`). Names stand in it as they are, numbers in
//! decimals, and keys, bounds and values as tokens (`specs/Printing`). A byte that may not stand in a token is printed as `%`
//! and two hexadecimal digits, and an empty text as `%`, so what is printed can be read again as a script reads it
//! ([`token_law`]).
//!
//! [`request_lines`] and its kin take any request. A request is answered by a reply, behind which a scan has its rows; or by a
//! conflict, a full store, an operator that gives no value, a device that failed, or a life that had ended.
//!
//! A function is refused by want of memory alone.
#![tactic(auto)]

ghost use Rattle.std.specs.Prelude.{List, ℕ};
ghost use Rattle.transcript.specs.Reading.{TokenLaw};

mod endings;
mod lines;
mod pieces;
mod requests;
mod upkeep;

pub use lines::{
    abort_ended, abort_failed, abort_line, begin_ended, begin_line, begin_refused, commit_ended,
    commit_failed, commit_line, damage_line, format_failed, format_line, fuse_line, get_ended,
    get_line, open_failed, open_line, put_ended, put_full, put_line, renew_line, stop_line,
};
pub use requests::{
    request_conflict, request_ended, request_failed, request_full, request_lines, request_refused,
};
pub use upkeep::{
    Stat, Upkeep, archive_ended, archive_failed, archive_line, stat_ended, stat_failed, stat_line,
    upkeep_ended, upkeep_failed, upkeep_line,
};

/// The token law: each text of bytes is printed as a token that a script reads as that text.
pub fn token_law()
    ensures { (bytes : List ℕ) → TokenLaw bytes }
{}
