//! Records as bytes: the one spelling of each record, and the reading of it.
//!
//! A log disk gives back bytes that a crash may have cut. So the layer above has to know exactly which bytes are a
//! record, and where bytes that are none go wrong. The model is two definitions of `wal_record`, over lists of numbers
//! alone: `spelling` (`specs/Spelling`), the bytes of a record that keeps the rules of its fields, and `record_at`
//! (`specs/Reading`), which reads from left to right and stops at the first field that is cut or breaks its rule.
//!
//! What is promised: [`encode`] appends the spelling, or nothing. [`decode`] gives a record exactly where its spelling
//! begins the bytes, with its length, and else names the byte where the first faulty field begins. [`canonical`] states
//! the two laws that make that mean what it says, for all records: what is spelled is read again, and no spelling
//! begins another.
//!
//! Fields and page states are `state_codec`'s. Each kind of record has one reader and one writer (`reading`,
//! `writing`), each kind of list too (`lists`, `list_writing`), and a list is read item by item, each in sight of those
//! before it.
#![tactic(auto)]

mod fault;
mod laws;
mod list_writing;
mod lists;
mod reading;
mod writing;

pub use fault::RecordFault;
pub use laws::canonical;
pub use reading::decode;
pub use writing::{commit_bytes, encode};
