//! Why bytes are no image of a page.

/// Why bytes are no image of a page, the first cause in this order.
#[derive(Debug, PartialEq, Eq, Drop)]
pub enum PageFault {
    /// The first 32 bytes aren't the digest of the others.
    Digest,
    /// The image is one of another page.
    Number,
    /// The field that begins at this byte breaks its rule.
    Format { byte: usize },
    /// Want of memory. Digest and number are right.
    Memory,
}
