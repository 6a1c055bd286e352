//! The vault behind the images.

use crate::tally::Tally;
use std::sync::ledger::Ledger;

/// The images that the last backups of a life have.
#[derive(Drop)]
pub struct VaultBases<O, L: Ledger> {
    /// The vault.
    pub objects: O,
    /// How often it has failed at calls made for an image. Its own count may stand still.
    pub faults: Tally<L>,
}
