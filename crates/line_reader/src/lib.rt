//! Reads the lines of a script from a source.
//!
//! A script has at most 16 MiB, and a line at most 2,048 bytes with its end. The source is read in pieces, at most the
//! longest script and one byte more.
//!
//! The model of an [`Input`] is a `Reader` (`specs/Lines`): the bytes that it has read and given to no line yet, how many
//! bytes its lines had, and how many lines there were. What comes yet is those bytes and what is left of the source,
//! together; so the contract is that of a reader that takes one byte after the other. [`Input::next_line`] gives the next
//! line, or the end of the input; or it says that no line of a script is there (`IsNoLine`): the input ends within the
//! line, the line is too long, or the script gets too long with it. It is refused for want of memory, and where the source
//! fails.
//!
//! [`is_built`] tells which lines begin with a word that the program carries out today (`specs/Built`).
#![tactic(auto)]

mod built;
mod input;
mod refusal;

pub use built::is_built;
pub use input::{Input, Next};
pub use refusal::NotRead;
