//! Where the fields of a block stand, counted from its gate, and its limits.

/// The byte of an open gate. Every other byte is closed.
pub const OPEN: u8 = 0xA5;

/// The closed gate that a block has behind it.
pub const CLOSED: u8 = 0;

/// The LSN of its first record.
pub const FIRST_AT: usize = 1;

/// The LSN of the last Checkpoint up to its end.
pub const CHECKPOINT_AT: usize = 9;

/// How many records it has.
pub const COUNT_AT: usize = 17;

/// The length of its payload.
pub const LENGTH_AT: usize = 19;

/// Its payload: the bytes of gate and header are before it.
pub const PAYLOAD_AT: usize = 23;

/// The bytes of a header, which stand between gate and payload.
pub const HEADER: usize = 22;

/// The most records of a block.
pub const MOST_RECORDS: u16 = 65_535;

/// The most bytes of a payload.
pub const MOST_BYTES: u32 = 4_194_304;
