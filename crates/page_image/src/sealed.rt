//! What an image says.

use store_model::Lsn;
use wal_record::PageState;

/// What the image of a page says: its state, and the LSN of the last record that it has.
#[derive(Drop)]
pub struct Sealed {
    pub state: PageState,
    pub lsn: Lsn,
}
