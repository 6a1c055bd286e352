//! A log in short, kept up to date record by record.
//!
//! Nobody has to know the records of a log to go on with it: the page heads, the open writes of each transaction, what is
//! unrestored, the standing runs and a few numbers are enough. A checkpoint lists just that. So a [`Listing`] begins
//! with an empty log, with a checkpoint or with an analysis, takes each further record, and gives the next checkpoint or
//! the analysis at any time. The journal, the analysis of an opening and a standby each keep one.
//!
//! The model is `summary`, which listing_laws defines of every log; `IsListingOf log s` (`specs/Listing`) says that the
//! listing has the summary of these records. What is promised:
//!
//! 1. The listing of a lawful log, given the next lawful record, is the listing of the longer log ([`Listing::note`]).
//!    Noting takes no memory and can't fail; [`Listing::prepare`] makes room for it before.
//! 2. [`Listing::from_checkpoint`] is the listing of every lawful log that ends in the checkpoint, and
//!    [`Listing::from_analysis`] of every one that has the analysis.
//! 3. [`Listing::checkpoint`] and [`Listing::analysis`] are those that the definitions compute of the log, and each
//!    getter is the definition that it is named after.
//! 4. Nothing is asked of a record but a spelling, so the records of a damaged log do no harm: of such a log nothing is
//!    promised, but each call returns.
//!
//! Pages stand in a vector, transactions in an ordered map, each with a vector of its open writes. Noting a record takes
//! a time that is logarithmic in the number of transactions; a Lost takes one per page, a RunDone one per run, and a
//! BackupDone one per page of its segment. Nothing depends on how long the log is.
#![tactic(auto)]

mod copies;
mod heads;
mod laws;
mod listing;
mod numbers;
mod rebuilding;
mod table;
mod upkeep;

pub use laws::noted_law;
pub use listing::Listing;
