//! The language of scripts: which lines there are, and how bytes spell them.
//!
//! A script is lines that end with a newline. [`Command`] has the kinds of line, with their words as typed fields, and
//! `specs/Line` says as a function of the bytes which line spells which command: a word, and behind it as many words as
//! its kind asks for, one space between two. `specs/Token` says which bytes a token stands for.
//!
//! The layer promises that [`command_of`] gives exactly the command that `specs/Line` names, and none where it names
//! none. Whether a command may stand where it stands isn't asked here.
#![tactic(auto)]

mod command;
mod field;
mod line;
mod name;
mod request;
mod token;
mod word;

pub use command::{Command, Device};
pub use line::command_of;
pub use name::Name;
pub use token::{all_plain, is_plain};
pub use word::{cut, first_word};
