//! The parts of an image.

/// The bytes of its digest, which stands in front.
pub const DIGEST_BYTES: usize = 32;

/// The bytes behind the digest: number, LSN and state, and zero bytes behind them.
pub const BODY_BYTES: usize = 4_064;
