//! The log as blocks behind gates, on a disk that may crash at any moment.
//!
//! A block is a header and a payload behind a gate, a byte that is open (A5) or closed. The log is the open blocks up
//! to the first closed gate (`specs/Log`): so a block joins the log in one write of one byte. A flush writes each
//! block behind the closed gate, with a closed gate behind it, syncs, opens the gate and syncs again.
//!
//! The model of a [`BlockLog`] is its device, the places of the durable blocks and the list of the pending ones. It
//! promises that
//!
//! - `open_log` finds exactly the blocks that the kept bytes stand for, and else names the first field that is cut or
//!   breaks a rule; it changes no byte;
//! - at every moment of a `flush` a crash leaves the blocks that were durable before, then some of the pending ones in
//!   order, none in part; after `Ok` all are durable;
//! - a fault comes only where the disk failed, and ends the log: every later call answers `Ended`.
//!
//! A [`Batch`] is a list of blocks in memory, with room that is brought beforehand: adding a short record and moving
//! blocks take no memory.
#![tactic(auto)]

mod batch;
mod block;
mod flush;
mod header;
mod laws;
mod layout;
mod log;
mod opening;
mod waiting;
mod write;

pub use batch::Batch;
pub use laws::{never_bad, one_log};
pub use layout::{
    CHECKPOINT_AT, CLOSED, COUNT_AT, FIRST_AT, HEADER, LENGTH_AT, MOST_BYTES, MOST_RECORDS, OPEN,
    PAYLOAD_AT,
};
pub use log::{BlockLog, OpenRefused, open_log};
