//! Logs on a disk in memory against analyses that were worked out by hand from what each record means.
//!
//! The crate has tests alone. A log stands as a text (`log_text`); from it a disk is made with its Checkpoint, without it,
//! and with the payloads before the Checkpoint's block overwritten. The analysis is compared number by number (`told`).
#![tactic(auto)]

#[cfg(test)]
mod logs;
#[cfg(test)]
mod told;
