//! What the devices of a store hold, as lines for people.
//!
//! An inspection reads a device from its beginning on and writes a line for each thing that it finds: the blocks of the
//! log and their records, the images of pages, the objects of the vault. The words are those of the formats; the lines of
//! records and states are `record_line`'s, and how a field is printed is `field_line`'s.
//!
//! It also judges. A log has to be blocks and records by their formats, and its chains have to be whole: a record's
//! `prev` is the LSN of its transaction's record before, each `_prev` field that of the record before which names the
//! page, and a block's Checkpoint LSN that of the last Checkpoint up to its end. An image has to have the digest, the
//! number and the format of its page, and no LSN behind the log's end. The first fault is named by its place.
//!
//! What is promised: an inspection of a log changes no byte, and where it finds no fault, the bytes stand for blocks. Which
//! fault is named is tested.
#![tactic(auto)]

mod chains;
mod halt;
mod log;
mod object;
mod page;
mod printing;
mod walk;

pub use halt::Halt;
pub use log::inspect_log;
pub use object::inspect_object;
pub use page::inspect_page;
pub use walk::Totals;
