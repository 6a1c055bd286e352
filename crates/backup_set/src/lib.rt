//! Backups: the images of one segment's pages as an object of the vault.
//!
//! A segment is 16 neighbouring pages. A backup of it has images of some of them by rising page, behind a head that names
//! the backup and the segment. The model is in `specs/Backup`: the bytes of an object, and which copies it has.
//! `specs/Reading` reads an object from the left, up to the first field that is cut or breaks its rule.
//!
//! What is promised: [`write_segment`] makes one put and one sync, and leaves the synced object of exactly its images.
//! [`read_page`] gives of an object in its form what the page's copy says. (By its code it reads the head and one image
//! where the backup has the whole segment; no clause counts calls.) What it gives stands in the object, whatever else
//! does. An object that isn't in its form is named with the start of its first faulty field, and one without the page
//! with its count. [`page_in_place`] and [`page_in_object`] do the same over bytes that somebody else has read, of which
//! [`first_image`] takes an image, and [`segment_bytes`] makes those that somebody else puts.
#![tactic(auto)]

mod copy;
mod head;
mod image;
mod layout;
mod part;
mod pieces;
mod reading;
mod search;
mod writing;

pub use copy::PageCopy;
pub use image::first_image;
pub use layout::{IMAGES_AT, OBJECT_BYTES};
pub use pieces::{image_place, object_of, page_in_object, page_in_place};
pub use reading::read_page;
pub use writing::{segment_bytes, write_segment};
