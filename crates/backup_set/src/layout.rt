//! Where the fields of a backup object stand.

/// The letters `BAK1`.
pub const MARK: u32 = 0x4241_4b31;

/// Where the number of images stands.
pub const COUNT_AT: usize = 16;

/// Where the images begin.
pub const IMAGES_AT: usize = 20;

/// The most bytes of an object: those before the images, and the images of a whole segment.
pub const OBJECT_BYTES: usize = 65_556;
