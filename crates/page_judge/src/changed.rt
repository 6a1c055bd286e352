//! What a record makes of the pages that it names.

use crate::image::Image;
use store_model::PageNo;

/// A page with an image of it.
#[derive(Drop)]
pub struct PageImage {
    pub page: PageNo,
    pub image: Image,
}

/// What a record makes of a page, where it names one.
#[derive(Drop)]
pub struct Named {
    pub made: Option<PageImage>,
}

/// What a record makes of the pages that it names, two at most.
#[derive(Drop)]
pub struct Changed {
    pub first: Option<PageImage>,
    pub second: Option<PageImage>,
}
