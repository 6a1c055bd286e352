//! What is left to do behind an opening, and what of it comes first.
//!
//! An instant restart (Graefe, Guy and Sauer) serves its first request as soon as the log has been analysed. The pages
//! whose log runs ahead of their images are redone one by one, when they are first touched or by maintenance; losers are
//! undone, segments restored, pages written and the log archived beside the requests.
//!
//! - [`RestartPlan`] knows which pages await redo. Its model is a list with a truth value for each page from 1 on
//!   (`specs/Plans`): at first exactly the pages whose head is above their written LSN, and then those of them that
//!   haven't come. The next of them above a page is found by words of 64 pages.
//! - [`choose`] names the step of maintenance that goes first, exactly (`specs/Steps`).
#![tactic(auto)]

mod flags;
mod plan;
mod step;

pub use plan::RestartPlan;
pub use step::{Counts, Step, choose};

#[cfg(test)]
mod tests;
