//! The pages of a log: the part of a lawful record that is about the pages that it names.
//!
//! A record may stand only where it is applicable to the image of each page that it names. [`PageImages`] keeps all images,
//! record by record: an ordered map by page, of states that keep the rules of a state. A record is redone on copies first, so
//! that a record that isn't applicable to both of its pages changes neither. [`PageNames`] keeps which pages each record named,
//! by LSN.
//!
//! `AreImagesOf log images` (`specs/Images`) says that these are the images of these records, `AreNamesOf log names` that
//! these are the pages that they name. What is promised:
//!
//! 1. [`PageImages::changed`] is exact: it gives what the record makes of each page that it names, where it is applicable to
//!    all of them, and else none. [`PageImages::note`] then takes the record, for which [`PageImages::prepare`] made places; it
//!    takes no memory and can't fail.
//! 2. [`PageImages::leads_to`] and [`PageImages::may_split`] are exact where the record is applicable: which page a branch leads
//!    to, and whether a split is at the split point of a page that is crowded.
//! 3. [`PageImages::split_leaf`] is the leaf that a record splits, and [`needs_split`] is exact for it: whether a record is a
//!    write that didn't fit into it.
//! 4. [`PageNames::names_at`] is exact: whether the record with an LSN names a page. What [`PageNames::note`] keeps of the next
//!    record leaves these the names of the log before it, too.
//!
//! A call takes a time that is logarithmic in the number of pages, and copies each page that a record changes.
#![tactic(auto)]

mod changed;
mod image;
mod images;
mod names;
mod overflow;
mod splitting;

pub use changed::{Changed, PageImage};
pub use image::Image;
pub use images::PageImages;
pub use names::{PageNames, first_page, second_page};
pub use overflow::needs_split;
