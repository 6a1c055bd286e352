//! A line of an inspection, made field by field.
//!
//! A field is printed as `NAME=VALUE`, and an absent one as `NAME none`. A number is printed in decimal digits, and a text
//! as a token of the script's language, so that what was printed can be read again. The model of a line is its bytes, and
//! each call promises which bytes it adds (`specs/Printing`).
#![tactic(auto)]

mod line;

pub use line::Line;
