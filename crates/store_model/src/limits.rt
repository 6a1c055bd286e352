//! The limits of a store. Each is a format's: it says how wide a field is, and what a page has room for.

/// The most bytes of a key, which has at least one. Every page has room for many of the longest.
pub const KEY_BYTES: usize = 64;

/// The most bytes of a bound: one more than a key, since the range of the longest key ends at that key with a zero byte
/// behind it.
pub const BOUND_BYTES: usize = 65;

/// The most bytes of a value. With its key it takes less than a twelfth of a page, so that each page can be split.
pub const VALUE_BYTES: usize = 256;

/// The most bytes of an operator's argument and of its result: enough for every number below 2^64.
pub const OPERAND_BYTES: usize = 64;

/// The bytes of a page on its device, and of its image in a backup.
pub const PAGE_BYTES: usize = 4_096;

/// The bytes of a page's state: of those of its page, 45 stand before the state.
pub const STATE_BYTES: usize = 4_051;

/// The least limit of a store: how many pages and writes not yet undone it has room for.
pub const LEAST_LIMIT: u32 = 8;

/// The greatest limit of a store, and the greatest number of a page: 64 MiB of pages.
pub const MOST_PAGES: u32 = 16_384;

/// How many neighbouring pages are a segment, which is backed up as one object and restored as one.
pub const SEGMENT_PAGES: u32 = 16;

/// The greatest LSN, and the greatest number of a transaction, a backup or an archive run. The next one still fits into
/// eight bytes.
pub const HIGHEST: u64 = (1 << 63) - 1;

/// The most transactions that are unfinished at a time.
pub const MOST_ACTIVE: u32 = 64;
