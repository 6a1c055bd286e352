//! Archive runs: the records of a range of the log that name pages, as one object of the vault, by page and then LSN.
//!
//! A restore of a lost device reads of a run the records of one page after the other (Graefe, Guy and Sauer 2015). An object
//! has a head with the range of its LSNs, a directory of its pages, and the items of each page by rising LSN; a record that
//! names two pages stands under each of them. The model is `specs/Items`, which items a run has of which page, and
//! `specs/Run`, their bytes. `specs/Reading` reads an object from the left, up to the first field that is cut or breaks its
//! rule.
//!
//! What is promised: [`make_run`] leaves the synced object of exactly the records of its range that name a page. (By its
//! code it reads each record once, and makes one put and one sync; no clause counts them.) [`records_of`] and
//! [`items_of`] give of an object in its form the records of a page from an LSN on, and the number of bytes of its items;
//! [`records_in`] reads such records in bytes at hand.
//! An object that isn't in its form is named with the start of its first faulty field, and one without the records that
//! are asked for with its number of pages. [`merge_runs`] leaves the synced run of the joined range, page by page.
//! [`runs_law`] ties them: what is made keeps the form, and has of each page the records that name it; by [`merging_law`]
//! a merge of two neighbours is the run of both ranges. [`Reads`] is the log that an archive reads.
#![tactic(auto)]

mod directory;
mod head;
mod item;
mod items;
mod laws;
mod layout;
mod making;
mod merging;
mod name;
mod object;
mod outline;
mod reads;
mod records;
mod run_items;
mod shelf;

pub use directory::{Entry, Head, Outline};
pub use item::Numbered;
pub use laws::{merging_law, runs_law};
pub use layout::RUN_BYTES;
pub use making::{make_run, run_bytes};
pub use merging::merge_runs;
pub use name::run_name;
pub use reads::Reads;
pub use records::{items_of, records_in, records_of};
pub use run_items::RunItems;
