//! A judge of the records of a log.
//!
//! A log is lawful where each record is, after those before it. [`RecordJudge`] keeps what it needs of them: a listing, the current
//! contents, where transactions stand, the images of pages, which pages each record named, and the last backup. So no answer
//! goes through the log.
//!
//! `IsRecordJudgeOf log judge` (`specs/Judging`) says that the judge has come to the end of this lawful log. What is promised:
//!
//! 1. [`RecordJudge::verdict`] is exact for every record: where the record is lawful there, it gives what the record makes of the
//!    pages that it names, and else nothing.
//! 2. [`RecordJudge::step`] goes on by a record where it is lawful, and else changes nothing. So whoever begins with
//!    [`RecordJudge::new`] and adds record after record learns whether a log is lawful. Where memory runs out, the judge is still
//!    that of the log before.
//! 3. [`RecordJudge::prepare`], [`RecordJudge::change`] and [`RecordJudge::finish`] are the same in three steps, for a caller that keeps
//!    more than the log: the last one can't fail.
//!
//! It takes memory by the pages of the log, and by its records: two page numbers each.
#![tactic(auto)]

mod checkpoints;
mod judge;
mod noting;
mod pages;
mod reading;
mod room;
mod rules;

pub use judge::RecordJudge;
