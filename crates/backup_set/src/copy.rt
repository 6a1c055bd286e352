//! A page as a backup has it.

use page_image::Sealed;
use store_model::PageNo;

/// A page, and what its image says.
#[derive(Drop)]
pub struct PageCopy {
    pub page: PageNo,
    pub sealed: Sealed,
}
