//! Where the fields of a run's object stand.

/// The letters `RUN1`.
pub const MARK: u32 = 0x5255_4e31;

/// Where the number of pages stands.
pub const PAGES_AT: usize = 28;

/// Where the directory begins.
pub const DIRECTORY_AT: usize = 32;

/// The bytes of an entry of the directory.
pub const ENTRY_BYTES: usize = 16;

/// Where the offset stands in an entry.
pub const OFFSET_IN: usize = 8;

/// The most bytes of the items of one run: more than an archive or a merge makes.
pub const MOST_BYTES: usize = 1 << 26;

/// The most bytes of the items of a run that an archive makes.
pub const RUN_BYTES: usize = 1 << 24;
