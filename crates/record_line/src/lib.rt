//! Records and page states as the lines of an inspection.
//!
//! A line has the words of the formats: a record's LSN, its kind and its fields in order; a state's level, fences, foster
//! pointer and rows. How a field is printed is `field_line`'s. What is promised: a line, or want of memory. The words of
//! each kind are tested (`inspection_tests`).
#![tactic(auto)]

mod lists;
mod record;
mod state;

pub use record::record_line;
pub use state::put_state;
