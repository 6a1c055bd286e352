//! The archive of a life's log: runs, made as the log grows.
//!
//! A restore reads the records of a page from archive runs, each of which has those of a range of the log, by page (Graefe, Guy
//! and Sauer 2015). [`archive`] makes the log durable and then runs of the records that no run has yet: each the longest whose
//! items have at most 16 MiB, as one object, which it syncs, has a record entered that names it, and makes the log durable up
//! to that: one put, one sync and one record for each run.
//!
//! What is promised: the runs follow on those that stood, without a gap and in order, and where it is done, each record that
//! stood as the call began is in a run, or as many runs stand as may (`entered`). The call enters nothing else, and counts the
//! runs that it made. What stands in the objects is the objects' own promise (`named_objects`). After a refusal the runs that
//! are done stay named. Each refusal has its cause (`refused`, `open`).
//!
//! [`archive_next`] is for help: it makes one such run, ahead of need, of the records up to which the log is durable, and only
//! where at least 1,000 of them wait. So the log isn't made durable for it, and no run is small.
#![tactic(auto)]

mod gathering;
mod making;
mod waiting;

pub use making::{archive, archive_next};
