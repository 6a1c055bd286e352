//! Objects of a vault, written whole and read in pieces.
//!
//! Backups and archive runs are objects. This layer has what both do with a vault. The model is the vault's own: which
//! bytes each name stands for, and whether they are synced.
//!
//! What is promised: [`store_object`] makes one put and one sync, and after it the object is synced with exactly these
//! bytes; a refused call leaves the old object, or one that no sync has made durable, or the new one. [`read_piece`],
//! [`read_bytes`] and [`read_object`] give the bytes that the name stands for and change nothing. A fault of the vault is answered only where
//! the vault's own count of faults rose, or a fuse refused a call.
#![tactic(auto)]

mod fields;
mod reading;
mod storing;

pub use fields::{this_u32_at, this_u64_at};
pub use reading::{CHUNK, MOST_CHUNKS, read_bytes, read_object, read_piece};
pub use storing::store_object;
